// A full queue of 1,024 SDUs, and a full transmitting window.
use crate::called::Called;
use link_base::{Chan, PortName, Remote, Way, copy_bytes};
use rlc_hop::Pdu;
use std::alloc::Global;
use std::process::Abort;
use std::test::Fail;

const PC5: PortName = PortName::Pc5(Remote(1), Chan(1));

const UU: PortName = PortName::Uu(Chan(1));

/// The PDU of an SDU of remote 1, whole and without a poll, under a number below 4,096.
fn pdu_of(alloc: Global, number: u16) -> Result<Pdu, Fail> {
    let [high, low] = number.to_be_bytes();
    let octets = [0x80 | high, low, 0x80, 5, 0x80, 0, low];
    Ok(Pdu {
        port: PC5,
        way: Way::Ul,
        epoch: 0,
        status: false,
        number: u64::from(number),
        bytes: copy_bytes(alloc, &octets)?,
    })
}

fn hear(
    rt: &impl Abort,
    alloc: Global,
    relay: &mut Called,
    number: u16,
    want: &str,
) -> Result<(), Fail> {
    let said = relay.hear_pdu(rt, &pdu_of(alloc, number)?)?;
    assert_eq!(rt; said.as_str(), want, "{number}");
    Ok(())
}

fn push(rt: &impl Abort, relay: &mut Called, want: &str) -> Result<(), Fail> {
    let said = relay.push(PC5)?;
    assert_eq!(rt; said.as_str(), want);
    Ok(())
}

fn pull(rt: &impl Abort, relay: &mut Called, want: &str) -> Result<(), Fail> {
    let said = relay.pull(rt, UU)?;
    assert_eq!(rt; said.as_str(), want);
    Ok(())
}

fn pull_number(
    rt: &impl Abort,
    alloc: Global,
    relay: &mut Called,
    number: u16,
) -> Result<(), Fail> {
    let want = format!(in alloc; "{number}")?;
    pull(rt, relay, &want)
}

// The slot keeps its SDU while the queue is full, and the SDUs leave in the order in which they came.
#[test]
fn fills_a_queue(rt: HostRuntime) -> Result<(), Fail> {
    let alloc = rt.alloc();
    let mut relay = Called::new(&rt, alloc, 1_024)?;
    for number in 0..1_024 {
        hear(&rt, alloc, &mut relay, number, "slot u1")?;
        push(&rt, &mut relay, "u1")?;
    }
    hear(&rt, alloc, &mut relay, 1_024, "slot u1")?;
    push(&rt, &mut relay, "queue full")?;
    hear(&rt, alloc, &mut relay, 1_025, "held")?;
    pull(&rt, &mut relay, "0")?;
    push(&rt, &mut relay, "u1")?;
    push(&rt, &mut relay, "nothing")?;
    for number in 1..1_025 {
        pull_number(&rt, alloc, &mut relay, number)?;
    }
    pull(&rt, &mut relay, "empty")?;
    let said = relay.grant(UU, 100)?;
    assert_eq!(rt; said.as_str(), "0 data 0 80008005800000");
    let said = relay.grant(UU, 100)?;
    assert_eq!(rt; said.as_str(), "0 data 1 80018005800001");
    Ok(())
}

// A transmitter whose window is full takes no SDU until a STATUS confirms the lowest.
#[test]
fn stalls(rt: HostRuntime) -> Result<(), Fail> {
    let alloc = rt.alloc();
    let mut relay = Called::new(&rt, alloc, 2)?;
    for number in 0..2_048 {
        hear(&rt, alloc, &mut relay, number, "slot u1")?;
        push(&rt, &mut relay, "u1")?;
        pull_number(&rt, alloc, &mut relay, number)?;
    }
    pull(&rt, &mut relay, "empty")?;
    for number in 2_048..2_050 {
        hear(&rt, alloc, &mut relay, number, "slot u1")?;
        push(&rt, &mut relay, "u1")?;
    }
    pull(&rt, &mut relay, "stalled")?;
    let said = relay.grant(UU, 100)?;
    assert_eq!(rt; said.as_str(), "0 data 0 80008005800000");
    pull(&rt, &mut relay, "stalled")?;
    let said = relay.said(&rt, "hear u1 0 status 1 000100")?;
    assert_eq!(rt; said.as_str(), "acks 1 marks 0");
    pull(&rt, &mut relay, "2048")?;
    pull(&rt, &mut relay, "stalled")?;
    Ok(())
}
