// Where bytes come from.
ghost use Rattle.std.specs.Prelude.{◌≡◌, ◌<◌, ◌≤◌, List, ℕ, Bool, false, length, IfOk, OnOk, OnErr, IsOk, IsErrOf};
ghost use Rattle.std.specs.declared.option.Option.{Option};
ghost use Rattle.std.specs.Io.{ReadsAtMost};
ghost use Rattle.std.specs.Io.KnownBytes.{ReadConsumes, Consumes, IsAtEnd};
ghost use Rattle.link_io.specs.Causes.{Rose, IsUsed};
ghost use Rattle.link_io.specs.Bytes.{IsAsTold, ConsumesAtMost};
ghost use Rattle.link_io.specs.declared.source.ReadFault.TheVariants.{Failed as SourceFailed, Memory as NoMemory};

use link_base::{Bytes, Memory};
use std::alloc::{AllocError, Global};

/// The source has failed.
#[derive(Clone, Copy, Debug, PartialEq, Eq)]
pub struct Failed;

/// Where bytes come from.
pub trait Source {
    /// The bytes that are left to read, where the source tells them.
    ghost left: { Self → Option (List ℕ) };

    /// How often the source has failed.
    ghost faults: { Self → ℕ };

    /// Whether a call may fail.
    ghost can_fail: { Self → Bool };

    /// Reads the next bytes into the front of a buffer that has room, and answers how many: none only at the end.
    ///
    /// `Failed` takes nothing, and comes only with a fault more than before, unless the count stood at its last value,
    /// 2^64 - 1.
    fn read(&mut self, buf: &mut [u8]) -> Result<usize, Failed>
        requires { 0 < length buf.old }
        ensures bound { ReadsAtMost result buf.new }
        ensures bytes { ReadConsumes (left self.old) (left self.new) result buf.new }
        ensures told { IsAsTold (left self.old) (left self.new) }
        ensures used { IsUsed faults can_fail self.old self.new }
        ensures failed { OnErr result (Rose (faults self.old) (faults self.new)) }
        ensures kept { OnOk result (faults self.new ≡ faults self.old) }
        ensures sure { can_fail self.old ≡ false → IsOk result };
}

/// Why the bytes of a source were not read.
#[derive(Clone, Copy, Debug, PartialEq, Eq)]
pub enum ReadFault {
    /// The source has failed.
    Failed,
    /// Memory was refused.
    Memory,
}

impl From<Failed> for ReadFault {
    ghost from_gives = { λ _ e. e ≡ SourceFailed };

    fn from(_: Failed) -> Self {
        ReadFault::Failed
    }
}

impl From<AllocError> for ReadFault {
    ghost from_gives = { λ _ e. e ≡ NoMemory };

    fn from(_: AllocError) -> Self {
        ReadFault::Memory
    }
}

// How much is asked of a source at once.
const PIECE: usize = 8192;

/// Reads to the end of the source, or as many bytes as the limit says, whichever comes first.
///
/// After an `Err` what was read is lost.
pub fn read_up_to<S: Source>(alloc: Global, src: &mut S, limit: usize) -> Result<Bytes, ReadFault>
    ensures taken { IfOk result (λ bytes. Consumes (S.left src.old) (S.left src.new) bytes) }
    ensures bound { IfOk result (λ bytes. length bytes ≤ limit) }
    ensures whole { IfOk result (λ bytes. length bytes < limit → IsAtEnd (S.left src.new)) }
    ensures lost { OnErr result (ConsumesAtMost (S.left src.old) (S.left src.new) limit) }
    ensures told { IsAsTold (S.left src.old) (S.left src.new) }
    ensures used { IsUsed S.faults S.can_fail src.old src.new }
    ensures kept { OnOk result (S.faults src.new ≡ S.faults src.old) }
    ensures memory { IsErrOf result ReadFault.Memory → S.faults src.new ≡ S.faults src.old }
    ensures failed { IsErrOf result ReadFault.Failed → Rose (S.faults src.old) (S.faults src.new) }
    ensures sure { S.can_fail src.old ≡ false → IsErrOf result ReadFault.Failed → ⊥ }
{
    let mut held = Vec::new(alloc);
    let mut piece = [0u8; PIECE];
    while held.len() < limit {
        let room = PIECE.min(limit - held.len());
        let count = src.read(&mut piece[..room])?;
        if count == 0 {
            return Ok(Bytes::from_vec(held));
        }
        held.extend_from_slice(&piece[..count])?;
    }
    Ok(Bytes::from_vec(held))
}
