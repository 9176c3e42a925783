// Where bytes go to.
ghost use Rattle.std.specs.Prelude.{◌≡◌, ◌<◌, ◌≤◌, List, ℕ, Bool, false, length, IfOk, OnOk, IsErrOf};
ghost use Rattle.std.specs.declared.option.Option.{Option};
ghost use Rattle.std.specs.Io.KnownBytes.{WriteAppends, Appends};
ghost use Rattle.link_io.specs.Causes.{Rose, IsUsed};
ghost use Rattle.link_io.specs.Bytes.{IsAsTold, AppendsFront};
ghost use Rattle.link_io.specs.declared.sink.WriteFault.TheVariants.{Memory as NoMemory};

use link_base::Memory;

/// Why a write took nothing.
#[derive(Clone, Copy, Debug, PartialEq, Eq)]
pub enum WriteFault {
    /// The sink has failed.
    Failed,
    /// Memory was refused.
    Memory,
}

impl From<Memory> for WriteFault {
    ghost from_gives = { λ _ e. e ≡ NoMemory };

    fn from(_: Memory) -> Self {
        WriteFault::Memory
    }
}

/// Where bytes go.
pub trait Sink {
    /// The bytes that were written, where the sink tells them.
    ghost written: { Self → Option (List ℕ) };

    /// How often the sink has failed.
    ghost faults: { Self → ℕ };

    /// Whether a call may fail.
    ghost can_fail: { Self → Bool };

    /// Writes the first of the bytes, at least one of them, and answers how many.
    ///
    /// An `Err` writes nothing, and `Failed` comes only with a fault more than before, unless the count stood at its
    /// last value, 2^64 - 1.
    fn write(&mut self, bytes: &[u8]) -> Result<usize, WriteFault>
        requires { 0 < length bytes.now }
        ensures bound { IfOk result (λ k. (0 < k) × (k ≤ length bytes.now)) }
        ensures bytes { WriteAppends (written self.old) (written self.new) result bytes.now }
        ensures told { IsAsTold (written self.old) (written self.new) }
        ensures used { IsUsed faults can_fail self.old self.new }
        ensures failed { IsErrOf result WriteFault.Failed
            → Rose (faults self.old) (faults self.new) }
        ensures kept { OnOk result (faults self.new ≡ faults self.old) }
        ensures memory { IsErrOf result WriteFault.Memory → faults self.new ≡ faults self.old }
        ensures sure { can_fail self.old ≡ false → IsErrOf result WriteFault.Failed → ⊥ };
}

/// Writes all of the bytes, in as many writes as it takes. After an `Err` the first of them are written, or none.
pub fn write_all<K: Sink>(out: &mut K, bytes: &[u8]) -> Result<(), WriteFault>
    ensures all { OnOk result (Appends (K.written out.old) (K.written out.new) bytes.now) }
    ensures front { AppendsFront (K.written out.old) (K.written out.new) bytes.now }
    ensures told { IsAsTold (K.written out.old) (K.written out.new) }
    ensures used { IsUsed K.faults K.can_fail out.old out.new }
    ensures kept { OnOk result (K.faults out.new ≡ K.faults out.old) }
    ensures memory { IsErrOf result WriteFault.Memory → K.faults out.new ≡ K.faults out.old }
    ensures failed { IsErrOf result WriteFault.Failed → Rose (K.faults out.old) (K.faults out.new) }
    ensures sure { K.can_fail out.old ≡ false → IsErrOf result WriteFault.Failed → ⊥ }
{
    let mut at = 0;
    while at < bytes.len() {
        at += out.write(&bytes[at..])?;
    }
    Ok(())
}
