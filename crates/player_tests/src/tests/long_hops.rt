// Long runs over a hop: one that loses PDUs, and one whose sequence numbers come round again and again.
use super::{Session, TABLES, play};
use link_base::NumberList;
use std::alloc::{AllocError, Global};
use std::test::Fail;

/// How many SDUs go at a time.
const BATCH: u32 = 50;

/// A hop that loses each ticket that is a multiple of seven, whatever its PDU is: the script so far, and what it leads to.
#[derive(Drop)]
struct LossyHop {
    alloc: Global,
    script: String,
    // How many tickets were made.
    tickets: u32,
    // The SDUs of the batch that didn't come, in order.
    missing: Vec<u32>,
    // The lowest SDU that isn't confirmed.
    lowest: u32,
    // The last SDU of the batch.
    last: u32,
}

fn is_lost(ticket: u32) -> bool {
    ticket % 7 == 0
}

impl LossyHop {
    fn new(alloc: Global) -> Result<Self, AllocError> {
        Ok(LossyHop {
            alloc,
            script: String::from_str(alloc, TABLES)?,
            tickets: 0,
            missing: Vec::new(alloc),
            lowest: 0,
            last: 0,
        })
    }

    /// The PDU of a ticket comes, or is lost.
    fn push_fate(&mut self, ticket: u32) -> Result<(), AllocError> {
        if is_lost(ticket) {
            write!(self.script, "lose {ticket}\n")
        } else {
            write!(self.script, "deliver {ticket}\n")
        }
    }

    /// A line that makes the next ticket, and what becomes of its PDU. Whether it comes.
    fn push_passage(&mut self, line: &str) -> Result<bool, AllocError> {
        self.script.push_str(line)?;
        self.tickets = self.tickets.saturating_add(1);
        self.push_fate(self.tickets)?;
        Ok(!is_lost(self.tickets))
    }

    /// A batch of SDUs is accepted and sent. The PDU at place (17 + 7 i) mod 50 comes at turn i.
    fn push_batch(&mut self, first: u32) -> Result<(), AllocError> {
        self.missing = Vec::new(self.alloc);
        self.lowest = first;
        self.last = first.saturating_add(BATCH - 1);
        let before = self.tickets;
        for place in 0..BATCH {
            let number = first.saturating_add(place);
            write!(self.script, "submit 1 1 ul {number:080x}\n")?;
        }
        for place in 0..BATCH {
            self.script.push_str("grant d1.1 ul 100\n")?;
            self.tickets = self.tickets.saturating_add(1);
            if is_lost(self.tickets) {
                self.missing.push(first.saturating_add(place))?;
            }
        }
        for turn in 0..BATCH {
            let place = (17 + 7 * turn) % BATCH;
            self.push_fate(before.saturating_add(1).saturating_add(place))?;
        }
        Ok(())
    }

    /// The lowest unconfirmed SDU goes again with a poll, since no STATUS came; once more where that PDU is lost.
    fn push_poll(&mut self) -> Result<(), AllocError> {
        for _ in 0..2 {
            if self.push_passage("expire d1.1 low poll\ngrant d1.1 ul 100\n")? {
                let lowest = self.lowest;
                self.missing.retain(|number| *number != lowest);
                return Ok(());
            }
        }
        Ok(())
    }

    /// The SDUs that a STATUS names go again, and their PDUs come in the reverse order. The last SDU of a batch isn't named,
    /// since nothing behind it came.
    fn push_retransmissions(&mut self) -> Result<(), AllocError> {
        let mut missing = Vec::new(self.alloc);
        let before = self.tickets;
        for number in &self.missing {
            if *number == self.last {
                missing.push(*number)?;
                continue;
            }
            self.script.push_str("grant d1.1 ul 100\n")?;
            self.tickets = self.tickets.saturating_add(1);
            if is_lost(self.tickets) {
                missing.push(*number)?;
            }
        }
        self.missing = missing;
        for ticket in (before..self.tickets).rev() {
            self.push_fate(ticket.saturating_add(1))?;
        }
        Ok(())
    }

    /// A poll, a STATUS, and what that names. Whether the STATUS confirms all.
    fn push_recovery(&mut self) -> Result<bool, AllocError> {
        self.push_poll()?;
        self.script.push_str(
            "expire d1.1 high reasm\nexpire d1.1 high reasm\nexpire d1.1 high prohibit\n",
        )?;
        if !self.push_passage("grant d1.1 dl 9000\n")? {
            return Ok(false);
        }
        match self.missing.first() {
            None => Ok(true),
            Some(lowest) => {
                self.lowest = *lowest;
                self.push_retransmissions()?;
                Ok(false)
            }
        }
    }
}

/// The lines of a trace that tell of SDUs that were handed up.
fn ups(alloc: Global, trace: &str) -> Result<String, AllocError> {
    let mut ups = String::new(alloc);
    for line in trace.lines() {
        if line.starts_with("  up ") {
            write!(ups, "{line}\n")?;
        }
    }
    Ok(ups)
}

/// Whether a PDU wasn't on the air, or a sender had nothing to send.
fn was_in_vain(trace: &str) -> bool {
    trace.lines().any(|line| line == "noair" || line == "idle")
}

#[test]
fn five_thousand_sdus_over_a_lossy_hop(rt: HostRuntime) -> Result<(), Fail> {
    let alloc = rt.alloc();
    let mut hop = LossyHop::new(alloc)?;
    let mut wanted = String::new(alloc);
    for batch in 0..100 {
        hop.push_batch(BATCH * batch)?;
        for _ in 0..8 {
            if hop.push_recovery()? {
                break;
            }
        }
    }
    for number in 0..5000 {
        write!(wanted, "  up 1 1 ul {number:080x}\n")?;
    }
    let (none, no_more) = (NumberList::new(alloc), NumberList::new(alloc));
    let (status, written) = play(&rt, alloc, hop.script.as_str(), 65_536, none, no_more)?;
    assert_eq!(rt; status, 0);
    let trace = str::from_utf8(written.as_slice())?;
    let totals = "total 1 1 ul 5000 5000 5000\ntotal 1 1 dl 0 0 0\ndone\n";
    assert!(rt; trace.ends_with(totals) && !was_in_vain(trace));
    assert_eq!(rt; ups(alloc, trace)?.as_str(), wanted.as_str());
    Ok(())
}

/// A thousand SDUs of one byte are accepted, from this number on.
fn push_submits(session: &mut Session, first: u32) -> Result<(), AllocError> {
    for place in 0..1000 {
        let number = first.saturating_add(place);
        let byte = number % 251;
        let row = format!(in session.alloc; "submit 1 1 ul {byte:02x}|ok {number}")?;
        session.push(row.as_str())?;
    }
    Ok(())
}

/// They are sent, with tickets behind this one. Each 32nd PDU polls, and so does the last.
fn push_grants(session: &mut Session, first: u32, before: u32) -> Result<(), AllocError> {
    for place in 0..1000 {
        let number = first.saturating_add(place);
        let ticket = before.saturating_add(place + 1);
        let polls = place % 32 == 31 || place == 999;
        let pdcp = 0x8000 + number % 4096;
        let rlc = if polls { pdcp + 0x4000 } else { pdcp };
        let byte = number % 251;
        let row = format!(in session.alloc;
            "grant d1.1 ul 100|air {ticket} data {number} {rlc:04x}{pdcp:04x}{byte:02x}"
        )?;
        session.push(row.as_str())?;
    }
    Ok(())
}

/// They come in order.
fn push_deliveries(session: &mut Session, first: u32, before: u32) -> Result<(), AllocError> {
    for place in 0..1000 {
        let ticket = before.saturating_add(place + 1);
        let byte = first.saturating_add(place) % 251;
        let row = format!(in session.alloc; "deliver {ticket}|  up 1 1 ul {byte:02x}|ok up 1")?;
        session.push(row.as_str())?;
    }
    Ok(())
}

/// A STATUS confirms them.
fn push_status(session: &mut Session, round: u32) -> Result<(), AllocError> {
    let answer = if round == 0 { "stopped" } else { "ok" };
    let ticket = round.saturating_add(1).saturating_mul(1001);
    let confirmed = round.saturating_add(1).saturating_mul(1000);
    let sn = confirmed % 4096;
    let rows = format!(in session.alloc;
        "expire d1.1 high prohibit|{answer}\ngrant d1.1 dl 100|air {ticket} status {confirmed} {sn:04x}00\ndeliver {ticket}|  conf 1 1 ul {confirmed}|ok acks 1000"
    )?;
    session.push(rows.as_str())
}

#[test]
fn thirteen_thousand_sdus_past_three_wraps(rt: HostRuntime) -> Result<(), Fail> {
    let mut session = Session::new(rt.alloc());
    session.push(TABLES.trim_end())?;
    for round in 0..13 {
        push_submits(&mut session, 1000 * round)?;
        push_grants(&mut session, 1000 * round, 1001 * round)?;
        push_deliveries(&mut session, 1000 * round, 1001 * round)?;
        push_status(&mut session, round)?;
    }
    session.push("end|total 1 1 ul 13000 13000 13000|total 1 1 dl 0 0 0|done")?;
    session.expect(&rt)
}
