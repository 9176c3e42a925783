// Tables of calls on one side of a port, each beside what it answers.
mod air;
mod receiver;
mod sending;
mod transmitter;

use link_base::{Drb, Expired, Key, LocalId, Memory, Remote, SnSize, Tag, Way, copy_bytes};
use rlc_am_rx::{AmRx, Made};
use rlc_am_tx::{AmTx, GiveFault, TxGrant};
use rlc_hop::{HopGrant, HopHeard, hop_grant, hop_hear};
use rlc_model::{Heard, StatusHeard};
use rlc_status::encode_status;
use std::alloc::Global;
use std::process::Abort;
use std::test::Fail;

const TAG: Tag = Tag {
    key: Key {
        remote: Remote(1),
        drb: Drb(1),
        way: Way::Ul,
    },
    count: None,
    ue: Some(LocalId(5)),
};

/// What a side shows of its transmitter and of its receiver.
#[derive(Clone, Copy, Debug, PartialEq, Eq)]
struct Shown {
    next: u64,
    next_ack: u64,
    unconfirmed: u64,
    waits: bool,
    poll_running: bool,
    rx_next: u64,
    highest_status: u64,
    triggered: bool,
    reasm_running: bool,
}

/// A transmitter and a receiver, to be called by words. Each method says what its call answers, and no more, so that the
/// tests are proved soon.
#[derive(Drop)]
struct Hop {
    alloc: Global,
    tx: AmTx,
    rx: AmRx,
}

impl Hop {
    fn new(alloc: Global, size: SnSize) -> Result<Self, Fail> {
        Ok(Hop {
            alloc,
            tx: AmTx::new(alloc, size, 32, 0, 32)?,
            rx: AmRx::new(alloc, size)?,
        })
    }

    /// Does a call, whose argument stands behind a space, and says what it answers.
    fn said(&mut self, rt: &impl Abort, call: &str) -> Result<String, Fail> {
        let (word, argument) = call.split_once(' ').unwrap_or((call, ""));
        match word {
            "give" => self.give(rt, argument),
            "send" => self.send(rt, argument.parse()?),
            "make" => self.make(rt, argument.parse()?),
            "grant" => self.grant(rt, argument.parse()?),
            "hear" => self.hear(rt, argument),
            "bears" => self.bears(argument.parse()?),
            "poll" => expired_text(self.alloc, self.tx.expire_poll()),
            "reassembly" => expired_text(self.alloc, self.rx.expire_reassembly()),
            "prohibit" => expired_text(self.alloc, self.rx.expire_prohibit()),
            "transmitter" => self.transmitter(),
            "receiver" => self.receiver(),
            _ => panic!(rt; "no such call: {call}"),
        }
    }

    fn shown(&self) -> Shown {
        Shown {
            next: self.tx.next(),
            next_ack: self.tx.next_ack(),
            unconfirmed: self.tx.unconfirmed(),
            waits: self.tx.waits(),
            poll_running: self.tx.poll_running(),
            rx_next: self.rx.next(),
            highest_status: self.rx.highest_status(),
            triggered: self.rx.triggered(),
            reasm_running: self.rx.reasm_running(),
        }
    }

    // A call was refused memory, so nothing has changed. It is made once more, and the rows behind it show that it went as
    // if it had never been refused.
    fn expect_unchanged(&self, rt: &impl Abort, before: Shown) {
        assert!(rt;
            self.shown() == before,
            "a call that was refused memory changed something"
        );
    }

    /// An SDU is given to the transmitter.
    fn give(&mut self, rt: &impl Abort, digits: &str) -> Result<String, Fail> {
        let bytes = hex::decode(self.alloc, digits.as_bytes())?;
        let sdu = copy_bytes(self.alloc, &bytes)?;
        assert!(rt; !sdu.is_empty() && sdu.len() <= 9005 && self.tx.next() < 1 << 62);
        let before = self.shown();
        let given = match self.tx.give(TAG, sdu) {
            Err(GiveFault::Memory(back)) => {
                self.expect_unchanged(rt, before);
                assert!(rt; !back.is_empty() && back.len() <= 9005 && self.tx.next() < 1 << 62);
                self.tx.give(TAG, back)
            }
            given => given,
        };
        match given {
            Ok(number) => Ok(format!(in self.alloc; "{number}")?),
            Err(GiveFault::NoRoom(back)) => {
                let digits = hex::encode(self.alloc, back.as_slice())?;
                Ok(format!(in self.alloc; "no room {digits}")?)
            }
            Err(GiveFault::Memory(_)) => Err(Fail::new("no memory")),
        }
    }

    /// The transmitter sends a PDU of at most so many octets.
    fn send(&mut self, rt: &impl Abort, n: u32) -> Result<String, Fail> {
        let before = self.shown();
        let granted = match self.tx.grant(n) {
            Ok(granted) => granted,
            Err(Memory) => {
                self.expect_unchanged(rt, before);
                self.tx.grant(n)?
            }
        };
        match granted {
            TxGrant::Sent { number, bytes } => {
                let digits = hex::encode(self.alloc, bytes.as_slice())?;
                Ok(format!(in self.alloc; "{number} {digits}")?)
            }
            TxGrant::Idle => Ok(String::from_str(self.alloc, "idle")?),
            TxGrant::Small { need } => Ok(format!(in self.alloc; "small {need}")?),
        }
    }

    /// The receiver makes a STATUS of at most so many octets, if one is due.
    fn make(&mut self, rt: &impl Abort, n: u32) -> Result<String, Fail> {
        if !self.rx.status_due() {
            return Ok(String::from_str(self.alloc, "not due")?);
        }
        let size = self.rx.size();
        let before = self.shown();
        let made = match self.rx.make_status(n) {
            Ok(made) => made,
            Err(Memory) => {
                self.expect_unchanged(rt, before);
                assert!(rt; self.rx.status_due());
                self.rx.make_status(n)?
            }
        };
        match made {
            Made::Full { status, ack } => {
                let octets = encode_status(self.alloc, size, &status)?;
                let digits = hex::encode(self.alloc, octets.as_slice())?;
                Ok(format!(in self.alloc; "ack {ack} {digits}")?)
            }
            Made::Small { need } => Ok(format!(in self.alloc; "small {need}")?),
        }
    }

    /// A PDU of at most so many octets is sent.
    fn grant(&mut self, rt: &impl Abort, n: u32) -> Result<String, Fail> {
        let before = self.shown();
        let granted = match hop_grant(self.alloc, &mut self.tx, &mut self.rx, n) {
            Ok(granted) => granted,
            Err(Memory) => {
                self.expect_unchanged(rt, before);
                hop_grant(self.alloc, &mut self.tx, &mut self.rx, n)?
            }
        };
        match granted {
            HopGrant::Sent {
                status,
                number,
                bytes,
            } => {
                let kind = if status { "status" } else { "data" };
                let digits = hex::encode(self.alloc, bytes.as_slice())?;
                Ok(format!(in self.alloc; "{kind} {number} {digits}")?)
            }
            HopGrant::Idle => Ok(String::from_str(self.alloc, "idle")?),
            HopGrant::Small { need } => Ok(format!(in self.alloc; "small {need}")?),
        }
    }

    /// A PDU is heard.
    fn hear(&mut self, rt: &impl Abort, digits: &str) -> Result<String, Fail> {
        let octets = hex::decode(self.alloc, digits.as_bytes())?;
        assert!(rt; self.tx.next() < 1 << 62 && self.rx.next() <= 1 << 62);
        let before = self.shown();
        let heard = match hop_hear(self.alloc, &mut self.tx, &mut self.rx, &octets) {
            Ok(heard) => heard,
            Err(Memory) => {
                self.expect_unchanged(rt, before);
                assert!(rt; self.tx.next() < 1 << 62 && self.rx.next() <= 1 << 62);
                hop_hear(self.alloc, &mut self.tx, &mut self.rx, &octets)?
            }
        };
        match heard {
            HopHeard::Amd(heard) => self.heard(heard),
            HopHeard::Status(heard) => self.status_heard(heard),
            HopHeard::BadAmd(fault) => Ok(format!(in self.alloc; "bad {fault}")?),
            HopHeard::BadStatus(fault) => Ok(format!(in self.alloc; "bad status {fault}")?),
        }
    }

    /// What hearing a data PDU answers.
    fn heard(&self, heard: Heard) -> Result<String, Fail> {
        let word = match heard {
            Heard::Complete(number, sdu) => {
                let digits = hex::encode(self.alloc, sdu.as_slice())?;
                return Ok(format!(in self.alloc; "complete {number} {digits}")?);
            }
            Heard::Stored => "stored",
            Heard::Repeat => "repeat",
            Heard::Outside => "outside",
            Heard::Conflict => "conflict",
        };
        Ok(String::from_str(self.alloc, word)?)
    }

    /// What hearing a STATUS answers.
    fn status_heard(&self, heard: StatusHeard) -> Result<String, Fail> {
        let text = match heard {
            StatusHeard::Acked { tags, marks } => {
                let (tags, marks) = (tags.len(), marks.len());
                format!(in self.alloc; "acks {tags} marks {marks}")
            }
            StatusHeard::Old { ack, next } => format!(in self.alloc; "old {ack} {next}"),
            StatusHeard::Beyond { ack, sent } => format!(in self.alloc; "beyond {ack} {sent}"),
        };
        Ok(text?)
    }

    /// Whether a PDU of this local identity is unconfirmed.
    fn bears(&self, ue: u8) -> Result<String, Fail> {
        let bears = self.tx.bears(LocalId(ue));
        Ok(format!(in self.alloc; "{bears}")?)
    }

    /// TX_Next, TX_Next_Ack, how many SDUs are unconfirmed, how many have room, and whether t-PollRetransmit runs.
    fn transmitter(&self) -> Result<String, Fail> {
        let (next, next_ack) = (self.tx.next(), self.tx.next_ack());
        let (unconfirmed, room) = (self.tx.unconfirmed(), self.tx.room());
        let runs = self.tx.poll_running();
        Ok(format!(in self.alloc; "{next} {next_ack} {unconfirmed} {room} {runs}")?)
    }

    /// RX_Next, RX_Highest_Status, whether a STATUS was triggered, whether one is due, and whether t-Reassembly runs.
    fn receiver(&self) -> Result<String, Fail> {
        let (next, highest) = (self.rx.next(), self.rx.highest_status());
        let (triggered, due) = (self.rx.triggered(), self.rx.status_due());
        let runs = self.rx.reasm_running();
        Ok(format!(in self.alloc; "{next} {highest} {triggered} {due} {runs}")?)
    }

    /// Does a call, which has this answer.
    fn expect(&mut self, rt: &impl Abort, call: &str, want: &str) -> Result<(), Fail> {
        let said = self.said(rt, call)?;
        assert_eq!(rt; said.as_str(), want, "{call}");
        Ok(())
    }

    /// Does the calls of a table: each row is a call and, behind a bar, what it answers.
    fn expect_rows(&mut self, rt: &impl Abort, rows: &str) -> Result<(), Fail> {
        for row in rows.split('\n') {
            let Some((call, want)) = row.split_once('|') else {
                panic!(rt; "a row without a bar");
            };
            self.expect(rt, call, want)?;
        }
        Ok(())
    }
}

/// What a timer's end answers.
fn expired_text(alloc: Global, expired: Expired) -> Result<String, Fail> {
    let text = match expired {
        Expired::Stopped => String::from_str(alloc, "stopped"),
        Expired::Done => String::from_str(alloc, "done"),
        Expired::Marked(number) => format!(in alloc; "marked {number}"),
    };
    Ok(text?)
}

/// Does the calls of each table on a side that is new, with 12-bit sequence numbers.
fn expect_tables(rt: &impl Abort, alloc: Global, tables: &[&str]) -> Result<(), Fail> {
    for rows in tables {
        let mut hop = Hop::new(alloc, SnSize::S12)?;
        hop.expect_rows(rt, rows)?;
    }
    Ok(())
}
