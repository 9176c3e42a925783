// The relay where its room ends: at a queue of the greatest capacity, and at a transmitting window.
use super::Session;
use std::alloc::AllocError;
use std::test::Fail;

const A_GREAT_QUEUE: &str = "\
relayscript 1
set queue 1024
remote 1
bearer 1 1 12 12
uu 1 12
pc5 1 1 12
map 1 1 1 1
path 1 relay 5
go";

const EACH_PDU_POLLS: &str = "\
relayscript 1
set pollpdu 1
remote 1
bearer 1 1 18 12
uu 1 12
pc5 1 1 18
map 1 1 1 1
path 1 relay 5
go";

/// The SDU of a number comes to its slot at the relay, over a port with 12-bit numbers.
fn push_arrival(session: &mut Session, number: u32) -> Result<(), AllocError> {
    let ticket = number.saturating_add(1);
    write!(
        session.script,
        "submit 1 1 ul 61\ngrant p1.1 ul 100\ndeliver {ticket}\n"
    )?;
    write!(
        session.trace,
        "ok {number}\nair {ticket} data {number} c{number:03x}80058{number:03x}61\nok slot u1\n"
    )
}

/// The same over a port with 18-bit numbers, of a bearer with 18-bit numbers; and the SDU is pushed, and pulled with this answer.
fn push_passage(session: &mut Session, number: u32, pulled: &str) -> Result<(), AllocError> {
    let ticket = number.saturating_add(1);
    write!(
        session.script,
        "submit 1 1 ul 61\ngrant p1.1 ul 100\ndeliver {ticket}\npush p1.1\npull u1\n"
    )?;
    write!(
        session.trace,
        "ok {number}\nair {ticket} data {number} c0{number:04x}800580{number:04x}61\n"
    )?;
    write!(session.trace, "ok slot u1\nok u1\n{pulled}\n")
}

// A queue holds 1,024 SDUs. The next one stays in the slot, and the one behind it on the air.
#[test]
fn a_queue_of_1024(rt: HostRuntime) -> Result<(), Fail> {
    let alloc = rt.alloc();
    let mut session = Session::new(alloc);
    session.push(A_GREAT_QUEUE)?;
    for number in 0..1_024 {
        push_arrival(&mut session, number)?;
        session.push("push p1.1|ok u1")?;
    }
    push_arrival(&mut session, 1_024)?;
    session.push(
        "\
push p1.1|queuefull
submit 1 1 ul 62|ok 1025
grant p1.1 ul 100|air 1026 data 1025 c4018005840162
deliver 1026|held
pull u1|ok 0
push p1.1|ok u1
push p1.1|nothing
deliver 1026|ok slot u1
push p1.1|queuefull
pull u1|ok 1
push p1.1|ok u1",
    )?;
    for number in 2..1_026 {
        session.push(format!(in alloc; "pull u1|ok {number}")?.as_str())?;
    }
    session.push(
        "\
pull u1|empty
end|total 1 1 ul 1026 0 0|total 1 1 dl 0 0 0|done",
    )?;
    session.expect(&rt)
}

// The transmitter of Uu takes 2,048 SDUs. The next one stays in the queue, until a STATUS confirms the lowest.
#[test]
fn a_full_window_stalls_the_queue(rt: HostRuntime) -> Result<(), Fail> {
    let alloc = rt.alloc();
    let mut session = Session::new(alloc);
    session.push(EACH_PDU_POLLS)?;
    for number in 0..2_048 {
        push_passage(
            &mut session,
            number,
            format!(in alloc; "ok {number}")?.as_str(),
        )?;
    }
    push_passage(&mut session, 2_048, "stalled")?;
    push_passage(&mut session, 2_049, "stalled")?;
    session.push(
        "\
grant u1 ul 100|air 2051 data 0 c000800580000061
deliver 2051|  up 1 1 ul 61|ok up 1
pull u1|stalled
grant u1 dl 100|air 2052 status 1 000100
deliver 2052|ok acks 1
pull u1|ok 2048
pull u1|stalled
end|total 1 1 ul 2050 1 0|total 1 1 dl 0 0 0|done",
    )?;
    session.expect(&rt)
}
