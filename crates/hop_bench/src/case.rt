// What is played.
ghost use Rattle.std.specs.Prelude.{◌<◌, ◌≤◌, IfSome};

use link_base::{LONGEST_PDCP_SDU, SnSize};

/// What is played.
#[derive(Clone, Copy, Debug)]
pub(crate) struct Case {
    /// How many bits the sequence numbers have.
    pub(crate) size: SnSize,
    pub(crate) sdus: u64,
    /// The bytes of each SDU.
    pub(crate) sdu_bytes: u32,
    /// The octets of each grant.
    pub(crate) grant: u32,
    /// How many of 1,000 PDUs are lost.
    pub(crate) lost_permille: u64,
    /// How many SDUs may be outstanding.
    pub(crate) outstanding: u64,
    /// After how many grants the receiver's timers run out.
    pub(crate) turn: u64,
    /// Whether a sum over all octets is wanted.
    pub(crate) summed: bool,
}

/// The case that the words of a call name. None where a word is missing or wrong.
pub(crate) fn case_of(words: &[String]) -> Option<Case>
    ensures { IfSome result (λ case. (0 < case.sdu_bytes) × (case.sdu_bytes ≤ 9000)) }
{
    // A grant has to hold the longest header and a byte.
    let (size, least) = match number(words, 0)? {
        12 => (SnSize::S12, 5),
        18 => (SnSize::S18, 6),
        _ => return None,
    };
    let sdus = number(words, 1)?;
    let sdu_bytes = number_within(words, 2, 1, u64::from(LONGEST_PDCP_SDU))? as u32;
    let grant = number_within(words, 3, least, 65_535)? as u32;
    let lost_permille = number_within(words, 4, 0, 999)?;
    let outstanding = number_within(words, 5, 1, u64::MAX)?;
    let turn = number_within(words, 6, 1, u64::MAX)?;
    let summed = is_summed(words)?;
    Some(Case {
        size,
        sdus,
        sdu_bytes,
        grant,
        lost_permille,
        outstanding,
        turn,
        summed,
    })
}

// Whether the word `sum` stands behind the numbers. None where there is another word.
fn is_summed(words: &[String]) -> Option<bool> {
    if words.len() > 8 {
        return None;
    }
    match words.get(7) {
        Some(word) => (word.as_str() == "sum").then_some(true),
        None => Some(false),
    }
}

fn number(words: &[String], at: usize) -> Option<u64> {
    words.get(at)?.parse::<u64>().ok()
}

// A word as a number from `least` up to `most`.
fn number_within(words: &[String], at: usize, least: u64, most: u64) -> Option<u64>
    ensures { IfSome result (λ number. (least ≤ number) × (number ≤ most)) }
{
    let number = number(words, at)?;
    if number < least || most < number {
        return None;
    }
    Some(number)
}
