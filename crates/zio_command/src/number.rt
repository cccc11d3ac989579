//! Numerals among the words.

ghost use Rattle.std.specs.Prelude.{◌≡◌, ◌≢◌, ◌<◌, ◌^◌, ℕ, MatchOption, decimal};
ghost use Rattle.zio_command.specs.Words.{IsWithin, begins_with_digit};

/// The number that the word spells, where it is within these bounds.
pub(crate) fn number_within(word: &str, least: u32, most: u32) -> Option<u32>
    ensures { MatchOption result ((n : ℕ) → IsWithin least most n → word.now ≢ decimal n)
        (λ n. (word.now ≡ decimal n) × IsWithin least most n) }
{
    let n = number(word)?;
    if u64::from(least) <= n && n <= u64::from(most) {
        Some(n as u32)
    } else {
        None
    }
}

/// The number below 2^64 that the word spells in decimal digits, without a sign or a leading zero.
pub(crate) fn number(word: &str) -> Option<u64>
    ensures { MatchOption result ((n : ℕ) → n < 2 ^ 64 → word.now ≢ decimal n) (λ n. (word.now ≡ decimal n)
        × (n < 2 ^ 64)) }
{
    if word == "0" {
        Some(0)
    } else if begins_with_digit(word) {
        word.parse::<u64>().ok()
    } else {
        None
    }
}

/// The word begins with a digit other than 0.
fn begins_with_digit(word: &str) -> bool
    ensures { result ≡ begins_with_digit word.now }
{
    match word.as_bytes() {
        [first, ..] => b'1' <= *first && *first <= b'9',
        [] => false,
    }
}
