// What the words behind the program's name ask for.
use super::{FIRST_DELIVERY, FIRST_TRACE};
use link_base::{Memory, NumberList, copy_bytes};
use link_io::{Failed, MemSink, MemSource, Source};
use player::{program, top};
use std::alloc::{AllocError, Global};
use std::env::Args;
use std::io;
use std::process::{Abort, ExitCode};
use std::test::Fail;

const USAGE: &str = "usage: relayplay play | work | show FORM HEX | load N\n";

/// The words of a row, which are parted by spaces.
fn words_of(alloc: Global, row: &str) -> Result<Vec<String>, AllocError> {
    let mut words = Vec::new(alloc);
    for word in row.split(' ') {
        words.push(String::from_str(alloc, word)?)?;
    }
    Ok(words)
}

/// Runs the program with words that don't read: it ends with this status, and writes this text.
fn expect_words(
    rt: &impl Abort,
    alloc: Global,
    words: &Vec<String>,
    status: u8,
    text: &str,
) -> Result<(), Fail> {
    let mut source = first_delivery(alloc, &[1])?;
    let mut sink = MemSink::new(alloc, 64, NumberList::new(alloc));
    assert_eq!(rt;
        top(alloc, words, &mut source, &mut sink),
        status,
        "{words:?}"
    );
    assert_eq!(rt; sink.written(), text.as_bytes(), "{words:?}");
    // The first read is still to come.
    assert_eq!(rt; source.read(&mut [0u8; 1]), Err(Failed), "{words:?}");
    Ok(())
}

/// The script of a first delivery, of which these reads fail.
fn first_delivery(alloc: Global, failing: &[u64]) -> Result<MemSource, Memory> {
    let script = copy_bytes(alloc, FIRST_DELIVERY.as_bytes())?;
    let mut fails = NumberList::new(alloc);
    for number in failing {
        fails.push(*number)?;
    }
    Ok(MemSource::new(script, 64, fails))
}

/// Runs the program with the words of each row. It ends with this status, and writes the lines that stand behind bars.
fn expect_rows(rt: &impl Abort, alloc: Global, rows: &str, status: u8) -> Result<(), Fail> {
    for row in rows.split('\n') {
        let Some((words, lines)) = row.split_once('|') else {
            panic!(rt; "a row without a bar");
        };
        let words = words_of(alloc, words)?;
        let mut text = String::new(alloc);
        for line in lines.split('|') {
            write!(text, "{line}\n")?;
        }
        expect_words(rt, alloc, &words, status, text.as_str())?;
    }
    Ok(())
}

// Words that ask for nothing that the program does; those of one row are no word but an empty one.
const NO_REQUESTS: &str = "\
Play
work
load

play play
load 1
show amd12
show amd12 00 00
show amd12 zz
show amd12 000
show amd12 -
show amd12 
show pdcp 800061
show pdcp12 -";

#[test]
fn words_that_ask_for_nothing(rt: HostRuntime) -> Result<(), Fail> {
    let alloc = rt.alloc();
    expect_words(&rt, alloc, &Vec::new(alloc), 2, USAGE)?;
    for row in NO_REQUESTS.split('\n') {
        let words = words_of(alloc, row)?;
        expect_words(&rt, alloc, &words, 2, USAGE)?;
    }
    Ok(())
}

const SHOWN: &str = "\
show amd12 c00080006869|amd sn 0 poll 1 si whole so 0 body 80006869
show amd12 C00080006869|amd sn 0 poll 1 si whole so 0 body 80006869
show amd18 b0000300036566|amd sn 3 poll 0 si middle so 3 body 6566
show srap 800580006869|srap bearer 0 ue 5 body 80006869
show pdcp12 80006869|sdu sn 0 body 6869
show pdcp12 0000000000c0|report fmc 0 map c0
show pdcp18 0000000001|report fmc 1 map -
show status12 0003800010|status ack 3 nacks 1|nack 1 part - range -
show status18 000012000068020000d000030004|status ack 4 nacks 2|nack 1 part - range 2|nack 3 part 3-4 range -";

const REFUSED: &str = "\
show amd12 00|refused control
show status12 00|refused short
show status12 80|refused is-data
show pdcp12 10|refused reserved-type
show pdcp18 80|refused short
show srap 8005|refused no-body";

#[test]
fn words_that_show_a_pdu(rt: HostRuntime) -> Result<(), Fail> {
    expect_rows(&rt, rt.alloc(), SHOWN, 0)?;
    expect_rows(&rt, rt.alloc(), REFUSED, 7)
}

/// Runs the program with arguments over a first delivery: it ends with this status, and writes this text.
fn expect_program(
    rt: &impl Abort,
    alloc: Global,
    args: io::Result<Args>,
    status: u8,
    text: &str,
) -> Result<(), Fail> {
    let mut source = first_delivery(alloc, &[])?;
    let mut sink = MemSink::new(alloc, 64, NumberList::new(alloc));
    let code = program(alloc, args, &mut source, &mut sink);
    assert_eq!(rt; code, ExitCode::from(status));
    assert_eq!(rt; sink.written(), text.as_bytes());
    Ok(())
}

#[test]
fn arguments(rt: HostRuntime) -> Result<(), Fail> {
    let alloc = rt.alloc();
    let srap = "srap bearer 0 ue 5 body 80006869\n";
    for (row, status, text) in [
        ("relayplay play", 0, FIRST_TRACE),
        ("play play", 0, FIRST_TRACE),
        ("relayplay show srap 800580006869", 0, srap),
        ("relayplay show amd12 00", 7, "refused control\n"),
        ("relayplay", 2, USAGE),
        ("play", 2, USAGE),
        ("relayplay relayplay play", 2, USAGE),
        ("relayplay show 800580006869 srap", 2, USAGE),
    ] {
        let args = words_of(alloc, row)?.into_iter();
        expect_program(&rt, alloc, Ok(args), status, text)?;
    }
    expect_program(&rt, alloc, Ok(Vec::new(alloc).into_iter()), 2, USAGE)?;
    let unread = io::Error::from(io::ErrorKind::InvalidData);
    expect_program(&rt, alloc, Err(unread), 2, USAGE)?;
    let wanting = io::Error::from(io::ErrorKind::OutOfMemory);
    expect_program(&rt, alloc, Err(wanting), 5, "")
}
