// The texts of replies, events and the last lines of a trace.
use link_base::{Chan, Discard, Drb, Key, Memory, Place, PortName, Remote, Way, copy_bytes};
use rlc_pdu::AmdFault;
use rlc_status::StatusFault;
use script_text::{
    Event, Line, Reply, Total, event_text, push_answer, push_bad_line, push_too_long,
    push_totals_and_done, reply_text,
};
use std::alloc::Global;
use std::process::Abort;
use std::test::Fail;

const KEY: Key = Key {
    remote: Remote(1),
    drb: Drb(1),
    way: Way::Ul,
};

#[test]
fn writes_replies(rt: HostRuntime) -> Result<(), Fail> {
    let alloc = rt.alloc();
    let port = PortName::Pc5(Remote(2), Chan(1));
    let rows = [
        (Reply::Ok, "ok"),
        (Reply::OkNumber(4_294_967_294), "ok 4294967294"),
        (Reply::OkPort(PortName::Uu(Chan(1))), "ok u1"),
        (Reply::OkTwo(2, 3), "ok 2 3"),
        (Reply::OkSlot(port), "ok slot p2.1"),
        (Reply::OkUp(1), "ok up 1"),
        (Reply::OkAcks(0), "ok acks 0"),
        (Reply::OkNoCount, "ok nocount"),
        (Reply::IsStatus, "status"),
        (Reply::Full(0), "full 0"),
        (Reply::Small(3), "small 3"),
        (Reply::Stale(0, 2049), "stale 0 2049"),
        (Reply::PlanOpen(Remote(1)), "open 1"),
        (Reply::IdBusy(Place::Attached(Remote(1))), "idbusy attach 1"),
        (Reply::IdBusy(Place::Planned(Remote(1))), "idbusy plan 1"),
        (Reply::IdBusy(Place::Slot(port)), "idbusy slot p2.1"),
        (Reply::IdBusy(Place::Queue(port)), "idbusy queue p2.1"),
        (Reply::IdBusy(Place::Uu(Chan(1))), "idbusy uu 1"),
        (Reply::BadAmd(AmdFault::Short), "bad short"),
        (Reply::BadStatus(StatusFault::Short), "bad short"),
        (Reply::BadStatus(StatusFault::ZeroRange), "bad zero-range"),
        (Reply::Discard(Discard::UnknownUe), "discard unknown-ue"),
    ];
    for (reply, want) in rows {
        let text = reply_text(alloc, &reply)?;
        assert_eq!(rt; text.as_slice(), want.as_bytes(), "{want}");
    }
    let bytes = copy_bytes(alloc, b"\x00\x03\x00")?;
    let air = Reply::Air {
        ticket: 6,
        status: true,
        number: 3,
        bytes,
    };
    let text = reply_text(alloc, &air)?;
    assert_eq!(rt; text.as_slice(), b"air 6 status 3 000300".as_slice());
    Ok(())
}

fn check_event(rt: &impl Abort, alloc: Global, event: &Event, want: &str) -> Result<(), Memory> {
    let text = event_text(alloc, event)?;
    assert_eq!(rt; text.as_slice(), want.as_bytes());
    Ok(())
}

#[test]
fn writes_events_of_the_relay(rt: HostRuntime) -> Result<(), Fail> {
    let alloc = rt.alloc();
    let heard = Event::Heard {
        ticket: 1,
        reply: Reply::OkSlot(PortName::Uu(Chan(1))),
    };
    check_event(&rt, alloc, &heard, "heard 1 ok slot u1")?;
    let left = Event::Left { ticket: 2 };
    check_event(&rt, alloc, &left, "left 2")?;
    let mark = Event::MaxRetx {
        port: PortName::Direct(Remote(1), Drb(2)),
        way: Way::Dl,
        number: 7,
    };
    check_event(&rt, alloc, &mark, "maxretx d1.2 dl 7")?;
    Ok(())
}

#[test]
fn writes_events_of_the_ends(rt: HostRuntime) -> Result<(), Fail> {
    let alloc = rt.alloc();
    let sdu = copy_bytes(alloc, b"a")?;
    let up = Event::Up { key: KEY, sdu };
    check_event(&rt, alloc, &up, "up 1 1 ul 61")?;
    let conf = Event::Conf {
        key: KEY,
        confirmed: 3,
    };
    check_event(&rt, alloc, &conf, "conf 1 1 ul 3")?;
    let rep = Event::Rep { key: KEY };
    check_event(&rt, alloc, &rep, "rep 1 1 ul")?;
    Ok(())
}

#[test]
fn writes_answers_and_last_lines(rt: HostRuntime) -> Result<(), Fail> {
    let alloc = rt.alloc();
    let mut out = String::new(alloc);
    let sdu = copy_bytes(alloc, b"a")?;
    let events = [Event::Up { key: KEY, sdu }];
    let line = Line::Deliver { ticket: 1 };
    push_answer(&mut out, &line, &events, &Reply::OkUp(1))?;
    push_answer(&mut out, &Line::Go, &[], &Reply::Ok)?;
    push_answer(&mut out, &Line::End, &[], &Reply::Ok)?;
    push_bad_line(&mut out, 3, "word")?;
    push_too_long(&mut out)?;
    let total = Total {
        key: KEY,
        submitted: 3,
        handed: 2,
        confirmed: 1,
    };
    push_totals_and_done(&mut out, &[total])?;
    assert_eq!(rt;
        out.as_str(),
        "  up 1 1 ul 61\nok up 1\nbad 3 word\ntoo long\ntotal 1 1 ul 3 2 1\ndone\n"
    );
    Ok(())
}
