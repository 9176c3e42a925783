// The top call: all that the program does, over a source and a sink.
ghost use Rattle.std.specs.Prelude.{◌≡◌, ◌≢◌, ◌∷◌, [], codes, false, map, IfOk, IsErrOf, string_bytes};
ghost use Rattle.std.specs.Io.KnownBytes.{Keeps, Appends};
ghost use Rattle.link_io.specs.Causes.{IsCounted, IsUsed};
ghost use Rattle.link_io.specs.Bytes.{IsAsTold, AppendsFront};
ghost use Rattle.player.specs.Outcome.{IsPlayed, IsPlayedInPart, IsCutOff, usage_text};
ghost use Rattle.player.specs.Serves.{Serves};

use crate::command::command_of;
use crate::{Command, Ending, play_script, show};
use link_io::{ReadFault, Sink, Source, WriteFault, read_up_to, write_all};
use script_text::LONGEST_SCRIPT;
use std::alloc::Global;

// One byte more than the greatest length of a script.
const MOST_READ: usize = LONGEST_SCRIPT + 1;

const USAGE: &[u8] = b"usage: relayplay play | work | show FORM HEX | load N\n";

/// What stopped a run from outside.
#[derive(Clone, Copy, Debug, PartialEq, Eq)]
pub enum RunFault {
    /// A read failed.
    Source,
    /// A write failed.
    Sink,
    /// Memory was refused.
    Memory,
}

fn run_through<S: Source, K: Sink>(
    alloc: Global,
    src: &mut S,
    out: &mut K,
) -> Result<Ending, RunFault>
    ensures played { IfOk result (IsPlayed (S.left src.old) (S.left src.new)
        (K.written out.old) (K.written out.new)) }
    ensures source { IsErrOf result RunFault.Source →
        Keeps (K.written out.old) (K.written out.new) }
    ensures sink { IsErrOf result RunFault.Sink → IsCutOff (S.left src.old) (S.left src.new)
        (K.written out.old) (K.written out.new) }
    ensures memory { IsErrOf result RunFault.Memory → IsPlayedInPart
        (S.left src.old) (S.left src.new) (K.written out.old) (K.written out.new) }
    ensures source_told { IsCounted (IsErrOf result RunFault.Source)
        (S.faults src.old) (S.faults src.new) }
    ensures sink_told { IsCounted (IsErrOf result RunFault.Sink)
        (K.faults out.old) (K.faults out.new) }
    ensures told { IsAsTold (S.left src.old) (S.left src.new)
        × IsAsTold (K.written out.old) (K.written out.new) }
    ensures used { IsUsed S.faults S.can_fail src.old src.new
        × IsUsed K.faults K.can_fail out.old out.new }
    ensures sure_source { S.can_fail src.old ≡ false → IsErrOf result RunFault.Source → ⊥ }
    ensures sure_sink { K.can_fail out.old ≡ false → IsErrOf result RunFault.Sink → ⊥ }
{
    let input = match read_up_to(alloc, src, MOST_READ) {
        Ok(input) => input,
        Err(ReadFault::Failed) => return Err(RunFault::Source),
        Err(ReadFault::Memory) => return Err(RunFault::Memory),
    };
    let mut text = String::new(alloc);
    match play_script(alloc, input.as_slice(), &mut text) {
        Ok(ending) => match write_all(out, text.as_bytes()) {
            Ok(()) => Ok(ending),
            Err(WriteFault::Failed) => Err(RunFault::Sink),
            Err(WriteFault::Memory) => Err(RunFault::Memory),
        },
        Err(_) => Err(RunFault::Memory),
    }
}

/// Runs the script on the source, and writes its trace to the sink: all that `top` does for the word `play`.
pub fn run<S: Source, K: Sink>(alloc: Global, src: &mut S, out: &mut K) -> u8
    ensures { Serves S.left S.faults S.can_fail K.written K.faults K.can_fail
        (codes "play" ∷ []) result src.old src.new out.old out.new }
{
    match run_through(alloc, src, out) {
        Ok(Ending::Done) => 0,
        Ok(Ending::Later) => 1,
        Ok(Ending::Bad(_)) => 1,
        Ok(Ending::TooLong) => 6,
        Err(RunFault::Source) => 3,
        Err(RunFault::Sink) => 4,
        Err(RunFault::Memory) => 5,
    }
}

/// Writes the usage line.
fn usage<K: Sink>(out: &mut K) -> u8
    ensures two { result ≢ 4 → result ≢ 5 → (result ≡ 2)
        × Appends (K.written out.old) (K.written out.new) usage_text }
    ensures front { AppendsFront (K.written out.old) (K.written out.new) usage_text }
    ensures sink_told { IsCounted (result ≡ 4) (K.faults out.old) (K.faults out.new) }
    ensures told { IsAsTold (K.written out.old) (K.written out.new) }
    ensures used { IsUsed K.faults K.can_fail out.old out.new }
    ensures sure_sink { K.can_fail out.old ≡ false → result ≢ 4 }
{
    match write_all(out, USAGE) {
        Ok(()) => 2,
        Err(WriteFault::Failed) => 4,
        Err(WriteFault::Memory) => 5,
    }
}

/// All that the program does. The words are those behind its name:
///
/// | Words | What they ask for |
/// |---|---|
/// | `play` | runs the script on the source and writes its trace to the sink |
/// | `show FORM HEX` | writes the fields of one PDU, FORM being `amd12`, `amd18`, `status12`, `status18` or `srap` |
///
/// The answer is the program's status:
///
/// | Status | Comes | Written last |
/// |---|---|---|
/// | 0 | the script was read to its `end` line, or to the input's end behind `go`; or the bytes are a PDU of the form | `done`; or the PDU's fields |
/// | 1 | at the first line that is no line of a script or isn't carried out yet, or where the input ends before `go` | `bad LINE REASON` |
/// | 2 | the words are others | the usage line |
/// | 3 | a read failed; nothing is written | |
/// | 4 | a write failed; what was written is a front of the text | |
/// | 5 | memory was refused; what was written is nothing, or a front of the text | |
/// | 6 | a line ends past byte 16,777,216 | `too long` |
/// | 7 | the bytes are no PDU of the form | `refused FAULT` |
///
/// Only `play` reads. A fault of the source is told by 3 and one of the sink by 4, and by no other status.
///
/// A script of lines that are carried out ends with status 0, where no read, no write and no wish for memory fails.
pub fn top<S: Source, K: Sink>(alloc: Global, words: &[String], src: &mut S, out: &mut K) -> u8
    ensures { Serves S.left S.faults S.can_fail K.written K.faults K.can_fail
        (map string_bytes words.now) result src.old src.new out.old out.new }
{
    match command_of(alloc, words) {
        Ok(Command::Play) => run(alloc, src, out),
        Ok(Command::Show(form, bytes)) => show(alloc, form, bytes.as_slice(), out),
        Ok(Command::Other) => usage(out),
        Err(_) => 5,
    }
}
