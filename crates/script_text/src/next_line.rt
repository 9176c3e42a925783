// Where a script's lines end.
ghost use Rattle.std.specs.Prelude.{◌≡◌, ◌+◌, ◌<◌, ◌≤◌, length, ℕ, IfSome, IsNone, ◌++◌, ◌∷◌, take, drop};
ghost use Rattle.script_text.specs.declared.limits.TheConstants.{LONGEST_SCRIPT};
ghost use Rattle.script_text.specs.Splits.{IsNextLine, HasNo};

use crate::{LONGEST_LINE, LONGEST_SCRIPT};
use memchr::memchr;

const LF: u8 = 10;

// The greatest number of bytes of a line, with its LF.
const LONGEST_WITH_LF: usize = LONGEST_LINE + 1;

/// What stands next in a script.
pub enum NextLine<'a> {
    /// A line without its LF, and what stands behind it.
    Line(&'a [u8], &'a [u8]),
    /// A line of more than 65,536 bytes.
    Long,
    /// A line that ends, with its LF, past the script's greatest length.
    TooLong,
    /// Nothing is left.
    End,
}

/// The next line of what is left of a script behind its first `used` bytes.
pub fn next_line_of(rest: &[u8], used: usize) -> NextLine<'_>
    requires { used ≤ LONGEST_SCRIPT }
    ensures { IsNextLine used rest.now result }
{
    let window = rest.len().min(LONGEST_WITH_LF).min(LONGEST_SCRIPT - used);
    match place_of(LF, &rest[..window]) {
        Some(at) => NextLine::Line(&rest[..at], &rest[at + 1..]),
        None => {
            if window == LONGEST_WITH_LF {
                NextLine::Long
            } else if window < rest.len() {
                NextLine::TooLong
            } else if rest.is_empty() {
                NextLine::End
            } else {
                NextLine::Line(rest, &[])
            }
        }
    }
}

/// The first place of a byte.
pub(crate) fn place_of(byte: u8, bytes: &[u8]) -> Option<usize>
    ensures found { IfSome result (λ at. at < length bytes.now) }
    ensures split { IfSome result
        (λ at. bytes.now ≡ take at bytes.now ++ byte ∷ drop (at + 1) bytes.now) }
    ensures before { IfSome result (λ at. HasNo byte (take at bytes.now)) }
    ensures none { IsNone result → HasNo byte bytes.now }
{
    memchr(byte, bytes)
}
