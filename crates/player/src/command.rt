// What the words behind the program's name ask for.
ghost use Rattle.std.specs.Prelude.{map, IfOk, IsTrue, ◌↔◌, ◌≡◌, string_bytes};
ghost use Rattle.player.specs.Commands.{IsCommand, IsShowOf};

use link_base::{Bytes, Memory};
use pdu_text::{Form, form_of};
use script_text::hex_bytes;
use std::alloc::Global;

/// What the words ask for.
#[derive(Debug, Drop)]
pub enum Command {
    /// A run of the script on the source.
    Play,
    /// The fields of a PDU of this form with these bytes.
    Show(Form, Bytes),
    /// Nothing that the program does.
    Other,
}

fn is_word(word: &[u8], text: &[u8]) -> bool
    ensures { IsTrue result ↔ (word.now ≡ text.now) }
{
    word == text
}

/// Reads the words.
pub(crate) fn command_of(alloc: Global, words: &[String]) -> Result<Command, Memory>
    ensures { IfOk result (IsCommand (map string_bytes words.now)) }
{
    match words {
        [play] if is_word(play.as_bytes(), b"play") => Ok(Command::Play),
        [show, form, hex] if is_word(show.as_bytes(), b"show") => {
            show_command(alloc, form.as_bytes(), hex.as_bytes())
        }
        _ => Ok(Command::Other),
    }
}

/// Reads the words behind `show`: the name of a form, and bytes in hexadecimal digits, of which there are some.
fn show_command(alloc: Global, form: &[u8], hex: &[u8]) -> Result<Command, Memory>
    ensures { IfOk result (IsShowOf form.now hex.now) }
{
    let Some(form) = form_of(form) else {
        return Ok(Command::Other);
    };
    if is_word(hex, b"-") {
        return Ok(Command::Other);
    }
    match hex_bytes(alloc, hex)? {
        Some(bytes) => Ok(Command::Show(form, bytes)),
        None => Ok(Command::Other),
    }
}
