// Numbers in decimal.
ghost use Rattle.std.specs.Prelude.{◌≡◌, ◌≢◌, ◌<◌, ◌^◌, ℕ, MatchOption};
ghost use Rattle.std.specs.Char.{is_ascii_digit};
ghost use Rattle.std.specs.Fmt.{decimal};
ghost use Rattle.std.specs.List.{list_all};
ghost use Rattle.script_text.specs.Words.{is_numeral, IsNumber};

/// Whether the word is a number of any size, in decimal, without a sign and without leading zeros.
pub(crate) fn is_numeral(word: &[u8]) -> bool
    ensures { result ≡ is_numeral word.now }
{
    !word.is_empty() && all_digits(word) && (word.len() == 1 || word[0] != b'0')
}

fn all_digits(word: &[u8]) -> bool
    ensures { result ≡ list_all is_ascii_digit word.now }
{
    word.iter().all(|b| b.is_ascii_digit())
}

/// The number that the word is, where it fits 64 bits.
fn plain_number(word: &[u8]) -> Option<u64>
    ensures { MatchOption result ((n : ℕ) → n < 2 ^ 64 → word.now ≢ decimal n)
        (λ n. word.now ≡ decimal n) }
{
    if !is_numeral(word) {
        return None;
    }
    // Digits are ASCII characters.
    let text = unsafe { std::str::from_utf8_unchecked(word) };
    text.parse::<u64>().ok()
}

/// A number from `low` to `high`.
pub(crate) fn number(word: &[u8], low: u64, high: u64) -> Option<u64>
    ensures { MatchOption result ((n : ℕ) → IsNumber low high word.now n → ⊥)
        (IsNumber low high word.now) }
{
    let n = plain_number(word)?;
    if low <= n && n <= high { Some(n) } else { None }
}
