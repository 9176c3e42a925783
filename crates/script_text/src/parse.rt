// A line of a script, read.
ghost use Rattle.std.specs.Prelude.{◌≡◌};
ghost use Rattle.script_text.specs.Lines.{is_skipped};
ghost use Rattle.script_text.specs.Grammar.{fault_of, is_printable, lacks_version, IsRead, Parses};

use crate::lines::line_of;
use crate::reader::{Reader, is_word};
use crate::{LONGEST_LINE, Line, LineFault, Part, Reason, ScriptStage};
use bearer_map::TableFault;
use std::alloc::Global;

/// Reads a line, without its LF, at a stage of a script. A table line is entered in the stage's tables.
///
/// None where the line is skipped: it is empty, or begins with `#`, and it isn't too long. Of several reasons why a line
/// is bad the first one is answered. After an `Err` the stage is as it was.
pub fn parse_line(
    alloc: Global,
    stage: &mut ScriptStage,
    bytes: &[u8],
) -> Result<Option<Line>, LineFault>
    ensures { Parses stage.old bytes.now result stage.new }
{
    if bytes.len() > LONGEST_LINE {
        return Err(LineFault::Bad(Reason::Line));
    }
    if is_skipped(bytes) {
        return Ok(None);
    }
    let line = read_line(alloc, stage.part, bytes)?;
    match stage.enter(&line) {
        Ok(()) => Ok(Some(line)),
        Err(fault) => Err(fault_of(fault)),
    }
}

/// What a refusal of the tables makes of a line.
fn fault_of(fault: TableFault) -> LineFault
    ensures { result ≡ fault_of fault }
{
    match fault {
        TableFault::Range => LineFault::Bad(Reason::Range),
        TableFault::Twice => LineFault::Bad(Reason::Twice),
        TableFault::Unknown => LineFault::Bad(Reason::Unknown),
        TableFault::Limit => LineFault::Bad(Reason::Limit),
        TableFault::NoMap => LineFault::Bad(Reason::Map),
        TableFault::Memory => LineFault::Memory,
    }
}

/// The line of this part of a script that a text spells. The text is no skipped line.
fn read_line(alloc: Global, part: Part, text: &[u8]) -> Result<Line, LineFault>
    ensures { IsRead part text.now result }
{
    if !is_printable(text) {
        return Err(LineFault::Bad(Reason::Text));
    }
    if lacks_version(part, text) {
        return Err(LineFault::Bad(Reason::Version));
    }
    let mut reader = Reader::new(text);
    let word = reader.next_word();
    match line_of(alloc, part, word, &mut reader)? {
        Some(line) => match reader.fault() {
            Some(reason) => Err(LineFault::Bad(reason)),
            None => Ok(line),
        },
        None => Err(LineFault::Bad(Reason::Word)),
    }
}

/// Whether it is to be the first line, and isn't the version.
fn lacks_version(part: Part, text: &[u8]) -> bool
    ensures { result ≡ lacks_version part text.now }
{
    match part {
        Part::Start => !is_word(text, "relayscript 1"),
        _ => false,
    }
}

/// Whether each byte is from 32 to 126. Each is looked at, so that many can be at a time.
fn is_printable(text: &[u8]) -> bool
    ensures { result ≡ is_printable text.now }
{
    let mut all = true;
    for byte in text {
        all &= (32..=126).contains(byte);
    }
    all
}

/// Whether a line is skipped: it is empty, or begins with `#`.
pub fn is_skipped(text: &[u8]) -> bool
    ensures { result ≡ is_skipped text.now }
{
    match text {
        [] => true,
        [first, ..] => *first == b'#',
    }
}
