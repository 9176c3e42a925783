// Standard input and output.
ghost use Rattle.std.specs.Prelude.{◌≡◌, ◌<◌, ◌≤◌, length, take, IfOk, OnOk, OnErr, IsErrOf, None, true};
ghost use Rattle.std.specs.Io.{ReadsAtMost};
ghost use Rattle.std.specs.Io.KnownBytes.{ReadConsumes, Appends};
ghost use Rattle.link_io.specs.Bytes.{AppendsFront};
ghost use Rattle.link_io.specs.Causes.{Rose};

use crate::{Failed, Sink, Source, WriteFault};
use std::io::{Read, Write};

/// Reads from a reader of the system, as the standard input, and counts its errors. It doesn't tell its bytes.
#[derive(Drop)]
pub struct StdSource<R: Read + Drop> {
    inner: R,
    faults: u64,
}

impl<R: Read + Drop> StdSource<R> {
    ghost use Rattle.link_io.specs.Standard.{reader_left, reader_faults};

    /// Reads from this reader, which has given no error yet.
    pub fn new(inner: R) -> Self
        ensures reader { reader_left R.remaining result ≡ R.remaining inner }
        ensures faults { reader_faults result ≡ 0 }
    {
        StdSource { inner, faults: 0 }
    }
}

impl<R: Read + Drop> Source for StdSource<R> {
    ghost use Rattle.link_io.specs.Standard.{reader_left, reader_faults};

    ghost left = { λ _. None };

    ghost faults = { reader_faults };

    ghost can_fail = { λ _. true };

    fn read(&mut self, buf: &mut [u8]) -> Result<usize, Failed>
        requires { 0 < length buf.old }
        ensures bound { ReadsAtMost result buf.new }
        ensures reader { ReadConsumes (reader_left R.remaining self.old)
            (reader_left R.remaining self.new) result buf.new }
        ensures later { reader_faults self.old ≤ reader_faults self.new }
        ensures failed { OnErr result (Rose (reader_faults self.old) (reader_faults self.new)) }
        ensures kept { OnOk result (reader_faults self.new ≡ reader_faults self.old) }
    {
        match self.inner.read(buf) {
            Ok(count) => Ok(count),
            Err(_) => {
                self.faults = self.faults.saturating_add(1);
                Err(Failed)
            }
        }
    }
}

/// Writes to a writer of the system, as the standard output, and counts its errors. It doesn't tell its bytes.
#[derive(Drop)]
pub struct StdSink<W: Write + Drop> {
    inner: W,
    faults: u64,
}

impl<W: Write + Drop> StdSink<W> {
    ghost use Rattle.link_io.specs.Standard.{writer_holds, writer_faults};

    /// Writes to this writer, which has given no error yet.
    pub fn new(inner: W) -> Self
        ensures writer { writer_holds W.contents result ≡ W.contents inner }
        ensures faults { writer_faults result ≡ 0 }
    {
        StdSink { inner, faults: 0 }
    }
}

impl<W: Write + Drop> Sink for StdSink<W> {
    ghost use Rattle.link_io.specs.Standard.{writer_holds, writer_faults};

    ghost written = { λ _. None };

    ghost faults = { writer_faults };

    ghost can_fail = { λ _. true };

    // Each piece is flushed, so that what a writer holds back is no success. A writer that takes nothing has failed.
    fn write(&mut self, bytes: &[u8]) -> Result<usize, WriteFault>
        requires { 0 < length bytes.now }
        ensures bound { IfOk result (λ k. (0 < k) × (k ≤ length bytes.now)) }
        ensures writer { IfOk result
            (λ k. Appends (writer_holds W.contents self.old) (writer_holds W.contents self.new)
            (take k bytes.now)) }
        ensures front { OnErr result
            (AppendsFront (writer_holds W.contents self.old)
            (writer_holds W.contents self.new) bytes.now) }
        ensures later { writer_faults self.old ≤ writer_faults self.new }
        ensures failed { IsErrOf result WriteFault.Failed
            → Rose (writer_faults self.old) (writer_faults self.new) }
        ensures kept { OnOk result (writer_faults self.new ≡ writer_faults self.old) }
        ensures no_memory { IsErrOf result WriteFault.Memory → ⊥ }
    {
        match self.inner.write(bytes) {
            Ok(count) if count > 0 && self.inner.flush().is_ok() => Ok(count),
            _ => {
                self.faults = self.faults.saturating_add(1);
                Err(WriteFault::Failed)
            }
        }
    }
}
