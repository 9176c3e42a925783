// A sink that stands in memory.
ghost use Rattle.std.specs.Prelude.{◌≡◌, ◌<◌, length, nat_lt, Some, [], IfOk};
ghost use Rattle.link_io.specs.Calls.{no_calls};
ghost use Rattle.link_io.specs.MemSink.{WritesPiece};

use crate::calls::CallLog;
use crate::{Sink, WriteFault};
use link_base::{Bytes, NumberList};
use std::alloc::Global;
use std::marker::Model;

/// A sink that keeps its bytes in memory, for tests: it writes short, and fails, where it is told to.
#[derive(Debug, Drop)]
pub struct MemSink {
    bytes: Bytes,
    log: CallLog,
}

impl Model for MemSink {
    ghost use Rattle.link_io.specs.MemSink.{SinkState};

    ghost Value = { SinkState };

    ghost view = { λ s. record { written = s.bytes; calls = s.log } };
}

impl MemSink {
    /// An empty sink that takes at most `piece` bytes in a call. The calls whose numbers are listed fail; the
    /// first call has number 1.
    pub fn new(alloc: Global, piece: u32, fails: NumberList) -> Self
        requires { 0 < piece }
        ensures value { result ≡ record { written = []; calls = no_calls piece fails } }
        ensures written { ⟦<MemSink as Sink>⟧.written result ≡ Some [] }
        ensures faults { ⟦<MemSink as Sink>⟧.faults result ≡ 0 }
        ensures can_fail { ⟦<MemSink as Sink>⟧.can_fail result ≡ nat_lt 0 (length fails) }
    {
        MemSink {
            bytes: Bytes::new(alloc),
            log: CallLog::new(piece, fails),
        }
    }

    /// The bytes that were written.
    pub fn written(&self) -> &[u8]
        ensures value { result.now ≡ self.now.written }
        ensures written { ⟦<MemSink as Sink>⟧.written self.now ≡ Some result.now }
    {
        self.bytes.as_slice()
    }
}

impl Sink for MemSink {
    ghost written = { λ s. Some s.written };

    ghost faults = { λ s. s.calls.faults };

    ghost can_fail = { λ s. nat_lt 0 (length s.calls.failing) };

    fn write(&mut self, bytes: &[u8]) -> Result<usize, WriteFault>
        requires { 0 < length bytes.now }
        ensures writes { WritesPiece self.old self.new result bytes.now }
        ensures some { IfOk result (λ count. 0 < count) }
    {
        if self.log.count() {
            return Err(WriteFault::Failed);
        }
        let count = self.log.share(bytes.len());
        self.bytes.append(&bytes[..count])?;
        Ok(count)
    }
}
