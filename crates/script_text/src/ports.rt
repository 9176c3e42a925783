// The names of ports: a letter, and one number or two with a point between them.
ghost use Rattle.std.specs.Prelude.{◌≡◌, ◌==◌, drop, MatchOption};
ghost use Rattle.std.specs.List.{position};
ghost use Rattle.link_base.specs.declared.names.PortName.{PortName as APort};
ghost use Rattle.script_text.specs.Words.{before_point, behind_point, port_letter, is_port_form, IsPort};

use crate::numbers::{is_numeral, number};
use link_base::{Chan, Drb, PortName, Remote};

/// The place of the first point.
fn point(word: &[u8]) -> Option<usize>
    ensures { result ≡ position (λ b. b == 46) word.now }
{
    word.iter().position(|b| *b == b'.')
}

/// What stands between the letter of a port and the first point, or all behind the letter where there is none.
fn before_point(word: &[u8]) -> &[u8]
    ensures { result.now ≡ before_point word.now }
{
    let numbers = behind_letter(word);
    match point(numbers) {
        Some(at) => &numbers[..at],
        None => numbers,
    }
}

/// What stands behind the first point.
fn behind_point(word: &[u8]) -> &[u8]
    ensures { result.now ≡ behind_point word.now }
{
    let numbers = behind_letter(word);
    match point(numbers) {
        Some(at) => &numbers[at + 1..],
        None => &[],
    }
}

fn behind_letter(word: &[u8]) -> &[u8]
    ensures { result.now ≡ drop 1 word.now }
{
    match word {
        [] => &[],
        [_, numbers @ ..] => numbers,
    }
}

/// The first byte of a word, or 0 where there is none.
fn letter(word: &[u8]) -> u8
    ensures { result ≡ port_letter word.now }
{
    match word {
        [] => 0,
        [letter, ..] => *letter,
    }
}

/// Whether the word is a port, where a number may have any size.
pub(crate) fn is_port_form(word: &[u8]) -> bool
    ensures { result ≡ is_port_form word.now }
{
    match letter(word) {
        b'u' => is_numeral(behind_letter(word)),
        b'd' | b'p' => is_numeral(before_point(word)) && is_numeral(behind_point(word)),
        _ => false,
    }
}

/// The name of a port.
pub(crate) fn port(word: &[u8]) -> Option<PortName>
    ensures { MatchOption result ((port : APort) → IsPort word.now port → ⊥) (IsPort word.now) }
{
    match letter(word) {
        b'd' => direct(word),
        b'p' => pc5(word),
        b'u' => uu(word),
        _ => None,
    }
}

fn direct(word: &[u8]) -> Option<PortName>
    requires { port_letter word.now ≡ 100 }
    ensures { MatchOption result ((port : APort) → IsPort word.now port → ⊥) (IsPort word.now) }
{
    let remote = number(before_point(word), 1, 65_535)?;
    let drb = number(behind_point(word), 1, 32)?;
    Some(PortName::Direct(Remote(remote as u16), Drb(drb as u8)))
}

fn pc5(word: &[u8]) -> Option<PortName>
    requires { port_letter word.now ≡ 112 }
    ensures { MatchOption result ((port : APort) → IsPort word.now port → ⊥) (IsPort word.now) }
{
    let remote = number(before_point(word), 1, 65_535)?;
    let chan = number(behind_point(word), 1, 8)?;
    Some(PortName::Pc5(Remote(remote as u16), Chan(chan as u8)))
}

fn uu(word: &[u8]) -> Option<PortName>
    requires { port_letter word.now ≡ 117 }
    ensures { MatchOption result ((port : APort) → IsPort word.now port → ⊥) (IsPort word.now) }
{
    let chan = number(behind_letter(word), 1, 8)?;
    Some(PortName::Uu(Chan(chan as u8)))
}
