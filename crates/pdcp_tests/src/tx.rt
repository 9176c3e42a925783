// Tables of calls on a transmitting side, each beside what it answers.
use crate::rows::call_and_answer;
use link_base::SnSize;
use pdcp_tx::{PdcpTx, SubmitFault};
use std::alloc::Global;
use std::process::Abort;
use std::test::Fail;

/// A transmitting side, to be called by words. Each method says what its call answers, and no more, so that the tests are
/// proved soon.
#[derive(Drop)]
struct Sender {
    alloc: Global,
    tx: PdcpTx,
}

impl Sender {
    fn new(rt: &impl Abort, alloc: Global, size: SnSize, first: u32) -> Result<Self, Fail> {
        assert!(rt; first < 4_294_967_295);
        Ok(Sender {
            alloc,
            tx: PdcpTx::new(alloc, size, first)?,
        })
    }

    /// Does a call, whose argument stands behind a space, and says what it answers.
    fn said(&mut self, rt: &impl Abort, call: &str) -> Result<String, Fail> {
        let (word, argument) = call.split_once(' ').unwrap_or((call, ""));
        match word {
            "submit" => {
                let sdu = hex::decode(self.alloc, argument.as_bytes())?;
                self.submit(&sdu)
            }
            "zeros" => {
                let sdu = vec![in self.alloc; 0_u8; argument.parse()?]?;
                self.submit(&sdu)
            }
            "next" => self.next(),
            "confirm" => self.confirm(rt, argument.parse()?),
            "report" => {
                let (fmc, digits) = argument.split_once(' ').unwrap_or((argument, ""));
                let map = hex::decode(self.alloc, digits.as_bytes())?;
                self.report(fmc.parse()?, &map)
            }
            "wait" => self.wait(),
            "state" => self.state(),
            _ => panic!(rt; "no such call: {call}"),
        }
    }

    /// An SDU is submitted.
    fn submit(&mut self, sdu: &[u8]) -> Result<String, Fail> {
        match self.tx.submit(sdu) {
            Ok(count) => Ok(format!(in self.alloc; "{count}")?),
            Err(SubmitFault::Memory) => Err(Fail::new("no memory")),
            Err(fault) => Ok(format!(in self.alloc; "{fault}")?),
        }
    }

    /// The next PDU is given.
    fn next(&mut self) -> Result<String, Fail> {
        let Some((count, bytes)) = self.tx.next_pdu()? else {
            return Ok(String::from_str(self.alloc, "none")?);
        };
        let digits = hex::encode(self.alloc, bytes.as_slice())?;
        Ok(format!(in self.alloc; "{count} {digits}")?)
    }

    /// Delivery of a COUNT is confirmed.
    fn confirm(&mut self, rt: &impl Abort, count: u32) -> Result<String, Fail> {
        assert!(rt; self.tx.first() <= count && count < self.tx.tx_next());
        self.tx.confirm(count);
        self.state()
    }

    /// A status report is heard.
    fn report(&mut self, fmc: u32, map: &[u8]) -> Result<String, Fail> {
        match self.tx.hear_report(fmc, map) {
            Ok(()) => self.state(),
            Err(beyond) => Ok(format!(in self.alloc; "{beyond}")?),
        }
    }

    /// The entity is re-established.
    fn wait(&mut self) -> Result<String, Fail> {
        self.tx.begin_wait();
        self.state()
    }

    /// How many SDUs were submitted, the confirmed number, whether it waits, and whether it has a PDU to give.
    fn state(&self) -> Result<String, Fail> {
        let (submitted, confirmed) = (self.tx.submitted(), self.tx.confirmed());
        let (awaits, has_next) = (self.tx.awaits(), self.tx.has_next());
        Ok(format!(in self.alloc; "{submitted} {confirmed} {awaits} {has_next}")?)
    }

    /// Does the calls of a table: each row is a call and, behind a bar, what it answers.
    fn expect_rows(&mut self, rt: &impl Abort, rows: &str) -> Result<(), Fail> {
        for row in rows.split('\n') {
            let (call, want) = call_and_answer(rt, row);
            let said = self.said(rt, call)?;
            assert_eq!(rt; said.as_str(), want, "{call}");
        }
        Ok(())
    }
}

const A_WAIT: &str = "\
state|0 0 false false
next|none
submit 61|0
next|0 800061
next|none
wait|1 0 true false
next|none
report 2|a report with FMC 2 names COUNTs from 1 on, which were not submitted
next|none
report 0|1 0 false true
next|0 800061
report 2|a report with FMC 2 names COUNTs from 1 on, which were not submitted
report 1|1 1 false false
report 1|1 1 false false
submit 62|1
next|1 800162";

const LENGTHS: &str = "\
submit|the SDU has no bytes
zeros 9001|the SDU has more than 9,000 bytes
zeros 9000|0
state|1 0 false true";

// Bit 1 of a report, which is bit 7 of the first octet, stands for FMC + 1, and bit 8 for FMC + 8.
const REPORTS: &str = "\
submit 60|0
submit 61|1
submit 62|2
submit 63|3
submit 64|4
submit 65|5
submit 66|6
submit 67|7
submit 68|8
submit 69|9
next|0 800060
next|1 800161
report 0 41|10 0 false true
next|3 800363
next|4 800464
report 1 00|10 1 false true
wait|10 1 true false
report 0 0040|a report with FMC 0 names COUNTs from 10 on, which were not submitted
report 0|10 1 false true
next|1 800161
next|3 800363
next|4 800464
next|5 800565
report 9 80|a report with FMC 9 names COUNTs from 10 on, which were not submitted
report 9|10 9 false true
next|9 800969
report 10 80|a report with FMC 10 names COUNTs from 10 on, which were not submitted
report 10 00|10 10 false false
report 4|10 10 false false";

// On the direct path RLC confirms SDUs one by one, also before they were given.
const ONE_BY_ONE: &str = "\
submit 60|0
submit 61|1
submit 62|2
submit 63|3
confirm 1|4 0 false true
next|0 800060
next|2 800262
confirm 2|4 0 false true
confirm 0|4 3 false true
confirm 0|4 3 false true
wait|4 3 true false
confirm 3|4 4 true false
report 4|4 4 false false
submit 64|4
next|4 800464";

#[test]
fn gives_keeps_and_waits(rt: HostRuntime) -> Result<(), Fail> {
    for rows in [A_WAIT, LENGTHS, REPORTS, ONE_BY_ONE] {
        let mut sender = Sender::new(&rt, rt.alloc(), SnSize::S12, 0)?;
        sender.expect_rows(&rt, rows)?;
    }
    Ok(())
}

const LAST_COUNTS: &str = "\
report 4294967293|0 0 false false
submit 60|4294967293
submit 61|4294967294
submit 62|no COUNT is left
next|4294967293 8ffd60
next|4294967294 8ffe61
wait|2 0 true false
report 4294967293 80|2 0 false true
report 4294967293 40|a report with FMC 4294967293 names COUNTs from 4294967295 on, which were not submitted
report 0|2 0 false true
next|4294967293 8ffd60
report 4294967295|2 2 false false
submit 62|no COUNT is left";

const LONG_NUMBERS: &str = "\
submit 61|65535
submit 62|65536
next|65535 80ffff61
next|65536 81000062";

#[test]
fn counts_from_its_first_count(rt: HostRuntime) -> Result<(), Fail> {
    let mut last = Sender::new(&rt, rt.alloc(), SnSize::S12, 4_294_967_293)?;
    last.expect_rows(&rt, LAST_COUNTS)?;
    let mut long = Sender::new(&rt, rt.alloc(), SnSize::S18, 65_535)?;
    long.expect_rows(&rt, LONG_NUMBERS)
}

/// Submits as many SDUs as may be unconfirmed, and one more.
fn fill(rt: &impl Abort, sender: &mut Sender, limit: u32) -> Result<(), Fail> {
    for count in 0..limit {
        let submitted = sender.tx.submit(&[0x61])?;
        assert_eq!(rt; submitted, count);
    }
    sender.expect_rows(
        rt,
        "submit 62|too many SDUs are not confirmed, the first 0 alone are",
    )
}

const A_FULL_STORE_CONFIRMED: &str = "\
next|0 800061
confirm 1|2048 0 false true
submit 62|too many SDUs are not confirmed, the first 0 alone are
confirm 0|2048 2 false true
submit 62|2048
submit 62|2049
submit 62|too many SDUs are not confirmed, the first 2 alone are
next|2 800261
report 2050|2050 2050 false false";

const ALL_BUT_THE_FIRST: &str = "\
state|65536 0 false true
submit 62|too many SDUs are not confirmed, the first 0 alone are
next|0 80000061
next|none
report 1|65536 65536 false false
submit 62|65536";

#[test]
fn fills_its_store_and_hears_the_longest_report(rt: HostRuntime) -> Result<(), Fail> {
    let alloc = rt.alloc();
    let mut short = Sender::new(&rt, alloc, SnSize::S12, 0)?;
    fill(&rt, &mut short, 2048)?;
    short.expect_rows(&rt, A_FULL_STORE_CONFIRMED)?;
    let mut long = Sender::new(&rt, alloc, SnSize::S18, 0)?;
    fill(&rt, &mut long, 65_536)?;
    let mut map = vec![in alloc; 0xff_u8; 8192]?;
    let beyond = long.report(0, &map)?;
    assert_eq!(rt;
        beyond.as_str(),
        "a report with FMC 0 names COUNTs from 65536 on, which were not submitted"
    );
    map[8191] = 0xfe;
    let heard = long.report(0, &map)?;
    assert_eq!(rt; heard.as_str(), "65536 0 false true");
    long.expect_rows(&rt, ALL_BUT_THE_FIRST)
}
