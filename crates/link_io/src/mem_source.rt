// A source that stands in memory.
ghost use Rattle.std.specs.Prelude.{◌≡◌, ◌<◌, ◌≤◌, length, nat_lt, Some, [], IfOk};
ghost use Rattle.link_io.specs.Calls.{no_calls};
ghost use Rattle.link_io.specs.MemSource.{ReadsPiece};

use crate::calls::CallLog;
use crate::{Failed, Source};
use link_base::{Bytes, NumberList};
use std::marker::Model;

/// A source of bytes that stand in memory, for tests: it reads short, and fails, where it is told to.
#[derive(Debug, Drop)]
pub struct MemSource {
    bytes: Bytes,
    at: usize,
    log: CallLog,
}

impl Model for MemSource {
    ghost use Rattle.std.specs.Prelude.{◌≤◌, length, drop};
    ghost use Rattle.link_io.specs.MemSource.{SourceState};

    ghost Value = { SourceState };

    ghost view = { λ s. record { left = drop s.at s.bytes; calls = s.log } };

    ghost invariant = { λ s. s.at ≤ length s.bytes };
}

impl MemSource {
    /// Gives these bytes, at most `piece` of them in a call. The calls whose numbers are listed fail; the first
    /// call has number 1.
    pub fn new(bytes: Bytes, piece: u32, fails: NumberList) -> Self
        requires { 0 < piece }
        ensures value { result ≡ record { left = bytes; calls = no_calls piece fails } }
        ensures left { ⟦<MemSource as Source>⟧.left result ≡ Some bytes }
        ensures faults { ⟦<MemSource as Source>⟧.faults result ≡ 0 }
        ensures can_fail { ⟦<MemSource as Source>⟧.can_fail result ≡ nat_lt 0 (length fails) }
    {
        MemSource {
            bytes,
            at: 0,
            log: CallLog::new(piece, fails),
        }
    }
}

impl Source for MemSource {
    ghost left = { λ s. Some s.left };

    ghost faults = { λ s. s.calls.faults };

    ghost can_fail = { λ s. nat_lt 0 (length s.calls.failing) };

    fn read(&mut self, buf: &mut [u8]) -> Result<usize, Failed>
        requires { 0 < length buf.old }
        ensures reads { ReadsPiece self.old self.new result buf.new }
        ensures none { IfOk result (λ count. count ≡ 0 → self.old.left ≡ []) }
    {
        if self.log.count() {
            return Err(Failed);
        }
        let rest = &self.bytes.as_slice()[self.at..];
        let count = rest.len().min(self.log.share(buf.len()));
        buf[..count].copy_from_slice(&rest[..count]);
        self.at += count;
        Ok(count)
    }
}
