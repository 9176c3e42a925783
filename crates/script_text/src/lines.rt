// The lines of a script.
ghost use Rattle.std.specs.Prelude.{◌≡◌, ◌++◌, MatchOption, OnOk, IfOk, string_bytes};
ghost use Rattle.script_text.specs.Lines.{line_text};
ghost use Rattle.script_text.specs.Forms.{IsNamed};
ghost use Rattle.script_text.specs.Reading.{IsLineRead};

use crate::reader::{Reader, is_word};
use crate::text::{
    node_text, push_goal, push_hex_word, push_key, push_number, push_port_word, push_word,
    setting_text, side_text, size_text, timer_text, way_text,
};
use crate::{Line, Part};
use link_base::{Bytes, Memory};
use std::alloc::{AllocError, Global};

// For each part of a script the first words of the lines that may stand there, and what the words behind each hold, in
// order. By it lines are read and written.
macro_rules! lines {
    ($by:ident $with:tt) => {
        $by! { $with
            Start {
                "relayscript" => Version { number: version },
            }
            Tables {
                "set" => Set { name: setting, value: value(name) },
                "remote" => Remote { remote: remote },
                "bearer" => Bearer { remote: remote, drb: drb, pdcp: size, direct: size },
                "uu" => Uu { chan: chan, size: size },
                "pc5" => Pc5 { remote: remote, chan: chan, size: size },
                "map" => Map { remote: remote, drb: drb, pc5: chan, uu: chan },
                "start" => Start { key: key, first: number(0, 4_294_967_294) },
                "path" => Path { remote: remote, goal: goal },
                "go" => Go {},
            }
            Running {
                "submit" => Submit { key: key, sdu: hex },
                "grant" => Grant { port: port, way: way, n: number(1, 65_535) },
                "deliver" => Deliver { ticket: ticket },
                "repeat" => Repeat { ticket: ticket },
                "lose" => Lose { ticket: ticket },
                "stage" => Stage { ticket: ticket },
                "expire" => Expire { port: port, side: side, timer: timer },
                "push" => Push { port: port },
                "pull" => Pull { port: port },
                "burst" => Burst {},
                "report" => Report { key: key },
                "plan" => Plan { remote: remote, goal: goal },
                "apply" => Apply { remote: remote, node: node },
                "drain" => Drain {},
                "end" => End {},
            }
        }
    };
}

// Reads the words behind the first as what the row with that first word says.
macro_rules! read_by {
    (($part:ident $word:ident $reader:ident $alloc:ident) $($stands:ident {
        $($name:literal => $line:ident { $($field:ident: $kind:ident $(($($range:tt)*))?),* },)*
    })*) => {
        match $part {
            $(Part::$stands => {
                $(if is_word($word, $name) {
                    $(let $field = read!($reader $alloc $kind $(($($range)*))?);)*
                    return Ok(Some(Line::$line { $($field),* }));
                })*
                Ok(None)
            })*
            Part::Ended => Ok(None),
        }
    };
}

// Writes the first word of a line's row, and what the row says of the others.
macro_rules! write_by {
    (($out:ident $written:ident) $($stands:ident {
        $($name:literal => $line:ident { $($field:ident: $kind:ident $(($($range:tt)*))?),* },)*
    })*) => {
        match $written {
            $($(Line::$line { $($field),* } => {
                $out.push_str($name)?;
                $(write_word!($out $kind $field);)*
                Ok(())
            })*)*
        }
    };
}

// How a word, or the words, of each kind are read: a number, bytes, or what the reader has a method of this name for.
macro_rules! read {
    ($reader:ident $alloc:ident version) => { $reader.number(1, 1) as u8 };
    ($reader:ident $alloc:ident ticket) => { $reader.number(1, u64::MAX) };
    ($reader:ident $alloc:ident number($low:literal, $high:literal)) => { $reader.number($low, $high) as u32 };
    ($reader:ident $alloc:ident value($name:ident)) => { $reader.value($name) };
    ($reader:ident $alloc:ident hex) => { $reader.hex($alloc)? };
    ($reader:ident $alloc:ident $kind:ident) => { $reader.$kind() };
}

// How they are written.
macro_rules! write_word {
    ($out:ident version $held:ident) => { push_number($out, u64::from(*$held))? };
    ($out:ident ticket $held:ident) => { push_number($out, *$held)? };
    ($out:ident number $held:ident) => { push_number($out, u64::from(*$held))? };
    ($out:ident value $held:ident) => { push_number($out, u64::from(*$held))? };
    ($out:ident remote $held:ident) => { push_number($out, u64::from($held.0))? };
    ($out:ident drb $held:ident) => { push_number($out, u64::from($held.0))? };
    ($out:ident chan $held:ident) => { push_number($out, u64::from($held.0))? };
    ($out:ident size $held:ident) => { push_word($out, size_text(*$held))? };
    ($out:ident side $held:ident) => { push_word($out, side_text(*$held))? };
    ($out:ident timer $held:ident) => { push_word($out, timer_text(*$held))? };
    ($out:ident way $held:ident) => { push_word($out, way_text(*$held))? };
    ($out:ident node $held:ident) => { push_word($out, node_text(*$held))? };
    ($out:ident setting $held:ident) => { push_word($out, setting_text(*$held))? };
    ($out:ident key $held:ident) => { push_key($out, $held)? };
    ($out:ident goal $held:ident) => { push_goal($out, *$held)? };
    ($out:ident port $held:ident) => { push_port_word($out, *$held)? };
    ($out:ident hex $held:ident) => { push_hex_word($out, $held.as_slice())? };
}

/// The line of this part that the word begins, with what the words behind it hold. None where it begins no line.
pub(crate) fn line_of(
    alloc: Global,
    part: Part,
    word: &[u8],
    reader: &mut Reader<'_>,
) -> Result<Option<Line>, Memory>
    ensures { IfOk result
        (λ found. MatchOption found (IsNamed part word.now → ⊥)
        (λ line. IsLineRead part word.now reader.old line reader.new)) }
{
    lines!(read_by(part word reader alloc))
}

/// The text of a line, without an LF.
pub fn line_text(alloc: Global, line: &Line) -> Result<Bytes, Memory>
    ensures { IfOk result (λ text. text ≡ line_text line.now) }
{
    let mut out = String::new(alloc);
    push_line(&mut out, line)?;
    Ok(Bytes::from_vec(out.into_bytes()))
}

/// Adds the text of a line.
fn push_line(out: &mut String, line: &Line) -> Result<(), AllocError>
    ensures { OnOk result (string_bytes out.new ≡ string_bytes out.old ++ line_text line.now) }
{
    lines!(write_by(out line))
}
