// The calls on an end of a stream that stands in memory.
ghost use Rattle.std.specs.Prelude.{◌≡◌, ◌<◌, min, if◌then◌else◌};
ghost use Rattle.link_io.specs.Calls.{Calls, no_calls, next_fails, after_call, after_fault};

use link_base::NumberList;
use std::marker::Model;

/// Counts calls, and tells which of them fail.
#[derive(Debug, Drop)]
pub(crate) struct CallLog {
    piece: u32,
    made: u64,
    failing: NumberList,
    faults: u64,
}

impl Model for CallLog {
    ghost use Rattle.std.specs.Prelude.{◌<◌, ◌≤◌};
    ghost use Rattle.link_io.specs.Calls.{Calls};

    ghost Value = { Calls };

    ghost view = { λ log. record { piece = log.piece; made = log.made; failing = log.failing; faults = log.faults } };

    ghost invariant = { λ log. (0 < log.piece) × (log.faults ≤ log.made) };
}

impl CallLog {
    /// A call moves at most `piece` bytes, and the calls with these numbers fail, the first call being 1.
    pub(crate) fn new(piece: u32, failing: NumberList) -> Self
        requires { 0 < piece }
        ensures { result ≡ no_calls piece failing }
    {
        CallLog {
            piece,
            made: 0,
            failing,
            faults: 0,
        }
    }

    /// Counts a call, and tells whether it fails.
    pub(crate) fn count(&mut self) -> bool
        ensures fails { result ≡ next_fails self.old }
        ensures counted { self.new
            ≡ (if result then after_fault self.old else after_call self.old) }
    {
        if self.made == u64::MAX {
            return false;
        }
        self.made += 1;
        let fails = self.failing.as_slice().contains(&self.made);
        if fails {
            self.faults += 1;
        }
        fails
    }

    /// How many of so many bytes one call moves.
    pub(crate) fn share(&self, length: usize) -> usize
        ensures share { result ≡ min length self.now.piece }
        ensures some { 0 < length → 0 < result }
    {
        length.min(self.piece as usize)
    }
}
