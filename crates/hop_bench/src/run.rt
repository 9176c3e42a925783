// A run of SDUs over a hop that loses PDUs.
ghost use Rattle.std.specs.Prelude.{◌<◌, ◌≤◌};

use crate::case::Case;
use crate::tally::Tally;
use link_base::{Bytes, Drb, Key, Memory, Remote, Tag, Way};
use rlc_am_rx::AmRx;
use rlc_am_tx::{AmTx, GiveFault};
use rlc_hop::{HopGrant, HopHeard, hop_grant, hop_hear};
use rlc_model::{Heard, StatusHeard};
use std::alloc::Global;

/// Why a run stopped.
#[derive(Clone, Copy, Debug, PartialEq, Eq)]
pub(crate) enum Stop {
    /// Memory was refused.
    Memory,
    /// The hop answered what it must not.
    Wrong,
}

impl From<Memory> for Stop {
    fn from(_: Memory) -> Self {
        Stop::Memory
    }
}

const TAG: Tag = Tag {
    key: Key {
        remote: Remote(1),
        drb: Drb(1),
        way: Way::Ul,
    },
    count: None,
    ue: None,
};

// pollPDU, pollByte and maxRetxThreshold (TS 38.322 clause 7.4).
const POLL_PDU: u32 = 32;

const POLL_BYTE: u32 = 0;

const MAX_RETX_THRESHOLD: u8 = 32;

// The most octets of a STATUS.
const STATUS_GRANT: u32 = 9_100;

/// Which PDUs the air loses, by Marsaglia's xorshift.
#[derive(Clone, Copy, Debug)]
struct Losses {
    state: u64,
}

impl Losses {
    fn hits(&mut self, permille: u64) -> bool {
        self.state ^= self.state << 13;
        self.state ^= self.state >> 7;
        self.state ^= self.state << 17;
        (self.state >> 11) % 1_000 < permille
    }
}

/// One side of the hop.
#[derive(Drop)]
struct Side {
    tx: AmTx,
    rx: AmRx,
}

impl Side {
    fn new(alloc: Global, case: Case) -> Result<Self, Memory> {
        Ok(Side {
            tx: AmTx::new(alloc, case.size, POLL_PDU, POLL_BYTE, MAX_RETX_THRESHOLD)?,
            rx: AmRx::new(alloc, case.size)?,
        })
    }

    fn hear(&mut self, alloc: Global, octets: &[u8]) -> Result<HopHeard, Stop> {
        if self.tx.next() >= 1 << 62 || self.rx.next() >= 1 << 62 {
            return Err(Stop::Wrong);
        }
        let heard = hop_hear(alloc, &mut self.tx, &mut self.rx, octets)?;
        Ok(heard)
    }
}

/// A run as far as it has come: SDUs go from the side `low` to the side `high`.
#[derive(Drop)]
struct Run {
    alloc: Global,
    case: Case,
    low: Side,
    high: Side,
    losses: Losses,
    given: u64,
    tally: Tally,
}

impl Run {
    fn new(alloc: Global, case: Case) -> Result<Self, Memory> {
        Ok(Run {
            alloc,
            case,
            low: Side::new(alloc, case)?,
            high: Side::new(alloc, case)?,
            losses: Losses { state: 99 },
            given: 0,
            tally: Tally::new(case.summed),
        })
    }

    fn is_over(&self) -> bool {
        self.low.tx.unconfirmed() == 0 && self.given >= self.case.sdus
    }

    // Gives SDUs until as many are outstanding as may be.
    fn give_all(&mut self) -> Result<(), Stop> {
        for _ in self.given..self.case.sdus {
            let outstanding = self.low.tx.next().saturating_sub(self.low.tx.next_ack());
            if outstanding >= self.case.outstanding || self.low.tx.room() == 0 {
                return Ok(());
            }
            self.give()?;
        }
        Ok(())
    }

    fn give(&mut self) -> Result<(), Stop> {
        let fill = (self.given % 251) as u8;
        let Ok(sdu) = Vec::from_elem(self.alloc, fill, self.case.sdu_bytes as usize) else {
            return Err(Stop::Memory);
        };
        if sdu.is_empty() || sdu.len() > 9_005 || self.low.tx.next() >= 1 << 62 {
            return Err(Stop::Wrong);
        }
        match self.low.tx.give(TAG, Bytes::from_vec(sdu)) {
            Ok(_) => {
                self.given = self.given.saturating_add(1);
                Ok(())
            }
            Err(GiveFault::Memory(_)) => Err(Stop::Memory),
            Err(GiveFault::NoRoom(_)) => Err(Stop::Wrong),
        }
    }

    // One grant of the side below. It answers whether a PDU was sent.
    fn send_one(&mut self) -> Result<bool, Stop> {
        let grant = hop_grant(
            self.alloc,
            &mut self.low.tx,
            &mut self.low.rx,
            self.case.grant,
        )?;
        let HopGrant::Sent { bytes, .. } = grant else {
            return Ok(false);
        };
        self.tally.count_pdu(bytes.as_slice());
        if self.losses.hits(self.case.lost_permille) {
            return Ok(true);
        }
        match self.high.hear(self.alloc, bytes.as_slice())? {
            HopHeard::Amd(Heard::Complete(number, sdu)) => {
                self.tally.count_up(number, sdu.as_slice());
                Ok(true)
            }
            HopHeard::Amd(_) => Ok(true),
            _ => Err(Stop::Wrong),
        }
    }

    // As many grants as a turn has, or fewer where nothing more is sent. It answers whether a PDU was sent.
    fn send_turn(&mut self) -> Result<bool, Stop> {
        for sent in 0..self.case.turn {
            if !self.send_one()? {
                return Ok(sent > 0);
            }
        }
        Ok(true)
    }

    // The receiver's timers run out, and a STATUS that is due goes back. It answers whether one was heard.
    fn tell(&mut self) -> Result<bool, Stop> {
        let _ = self.high.rx.expire_prohibit();
        if !self.high.rx.status_due() {
            let _ = self.high.rx.expire_reassembly();
        }
        if !self.high.rx.status_due() {
            return Ok(false);
        }
        let grant = hop_grant(
            self.alloc,
            &mut self.high.tx,
            &mut self.high.rx,
            STATUS_GRANT,
        )?;
        let HopGrant::Sent { bytes, .. } = grant else {
            return Err(Stop::Wrong);
        };
        self.tally.count_status(bytes.as_slice());
        if self.losses.hits(self.case.lost_permille) {
            return Ok(false);
        }
        match self.low.hear(self.alloc, bytes.as_slice())? {
            HopHeard::Status(StatusHeard::Acked { marks, .. }) => {
                self.tally.count_marks(marks.len());
                Ok(true)
            }
            _ => Err(Stop::Wrong),
        }
    }

    // Gives and sends, and hears a STATUS; where nothing moves the poll timer runs out.
    fn turn(&mut self) -> Result<(), Stop> {
        self.give_all()?;
        let sent = self.send_turn()?;
        let told = self.tell()?;
        if !sent && !told {
            let _ = self.low.tx.expire_poll();
        }
        Ok(())
    }
}

/// Plays a case until each SDU is confirmed.
pub(crate) fn play(alloc: Global, case: Case) -> Result<Tally, Stop> {
    let mut run = Run::new(alloc, case)?;
    for _ in 0..u64::MAX {
        if run.is_over() {
            break;
        }
        run.turn()?;
    }
    Ok(run.tally)
}
