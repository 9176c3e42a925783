// Bytes as a word: hexadecimal digits of either case, or a dash for no bytes.
ghost use Rattle.std.specs.Prelude.{◌≡◌, ◌≤◌, ◌<◌, ◌*◌, ◌%◌, ◌++◌, ℕ, List, length, take, slice_index, true, Some, Ok, MatchOption, IfOk, OnOk, string_bytes};
ghost use Rattle.std.specs.List.{list_all};
ghost use Rattle.hex.specs.Hex.{is_hex_digit, hex_digit_value, decode_of, encode_lower, lower_digits};
ghost use Rattle.script_text.specs.Words.{is_hex, IsHex, hex_text};

use crate::reader::is_word;
use link_base::{Bytes, Memory};
use std::alloc::{AllocError, Global};

// How many bytes are written at a time, and how many digits they have.
const PIECE: usize = 64;

const PIECE_DIGITS: usize = 128;

/// Whether the word is a dash, or an even positive number of hexadecimal digits.
pub(crate) fn is_hex(word: &[u8]) -> bool
    ensures { result ≡ is_hex word.now }
{
    is_word(word, "-") || (!word.is_empty() && word.len() % 2 == 0 && all_hex_digits(word))
}

/// Each byte is looked at, so that many can be at a time.
fn all_hex_digits(word: &[u8]) -> bool
    ensures { result ≡ list_all is_hex_digit word.now }
{
    let mut all = true;
    for byte in word {
        all &= is_hex_digit(*byte);
    }
    all
}

fn is_hex_digit(byte: u8) -> bool
    ensures { result ≡ is_hex_digit byte }
{
    matches!(byte, b'0'..=b'9' | b'a'..=b'f' | b'A'..=b'F')
}

/// The bytes that a word spells: an even positive number of hexadecimal digits of either case, or a dash for no bytes.
pub fn hex_bytes(alloc: Global, word: &[u8]) -> Result<Option<Bytes>, Memory>
    ensures { IfOk result
        (λ found. MatchOption found ((bytes : List ℕ) → IsHex word.now bytes → ⊥)
        (IsHex word.now)) }
{
    if !is_hex(word) {
        return Ok(None);
    }
    if is_word(word, "-") {
        return Ok(Some(Bytes::new(alloc)));
    }
    let mut bytes = vec![in alloc; 0u8; word.len() / 2]?;
    read_digits(word, bytes.as_mut_slice());
    Ok(Some(Bytes::from_vec(bytes)))
}

/// Each byte is that of two digits.
fn read_digits(digits: &[u8], bytes: &mut [u8])
    requires long { length digits.now ≡ 2 * length bytes.old }
    requires digits { list_all is_hex_digit digits.now ≡ true }
    ensures { decode_of digits.now ≡ Ok bytes.new }
{
    for i in 0..bytes.len() {
        bytes[i] = digit_value(digits[2 * i]) * 16 + digit_value(digits[2 * i + 1]);
    }
}

/// The value of a digit: of `0` to `9` the low four bits, of a letter, which has 64 set, 9 more.
fn digit_value(digit: u8) -> u8
    requires { is_hex_digit digit ≡ true }
    ensures value { hex_digit_value digit ≡ Some result }
    ensures small { result < 16 }
{
    digit % 16 + 9 * (digit / 64)
}

/// Adds bytes as hexadecimal digits in lower case, or a dash where there are none.
pub fn push_hex(out: &mut String, bytes: &[u8]) -> Result<(), AllocError>
    ensures { OnOk result (string_bytes out.new ≡ string_bytes out.old ++ hex_text bytes.now) }
{
    if bytes.is_empty() {
        return out.push_str("-");
    }
    push_digits(out, bytes)
}

fn push_digits(out: &mut String, bytes: &[u8]) -> Result<(), AllocError>
    ensures { OnOk result (string_bytes out.new ≡ string_bytes out.old ++ encode_lower bytes.now) }
{
    let mut rest = bytes;
    while !rest.is_empty() {
        let (piece, after) = rest.split_at(rest.len().min(PIECE));
        push_piece(out, piece)?;
        rest = after;
    }
    Ok(())
}

fn push_piece(out: &mut String, piece: &[u8]) -> Result<(), AllocError>
    requires { length piece.now ≤ PIECE }
    ensures { OnOk result (string_bytes out.new ≡ string_bytes out.old ++ encode_lower piece.now) }
{
    let mut digits = [0; PIECE_DIGITS];
    write_digits(piece, &mut digits);
    let text = &digits[..2 * piece.len()];
    out.push_str(unsafe { std::str::from_utf8_unchecked(text) })
}

/// Two digits are written for each byte.
fn write_digits(bytes: &[u8], digits: &mut [u8; PIECE_DIGITS])
    requires { length bytes.now ≤ PIECE }
    ensures { take (2 * length bytes.now) digits.new ≡ encode_lower bytes.now }
{
    for i in 0..bytes.len() {
        digits[2 * i] = digit(bytes[i] / 16);
        digits[2 * i + 1] = digit(bytes[i] % 16);
    }
}

fn digit(value: u8) -> u8
    requires { value < 16 }
    ensures { result ≡ slice_index lower_digits value }
{
    if value < 10 {
        b'0' + value
    } else {
        b'a' - 10 + value
    }
}
