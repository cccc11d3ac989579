//! Numbers in decimal digits.
ghost use Rattle.std.specs.Prelude.{◌≡◌, ◌^◌, ◌≤◌, MatchOption, true};
ghost use Rattle.std.specs.Char.{is_digit};
ghost use Rattle.std.specs.List.{list_all};
ghost use Rattle.std.specs.Str.Parse.{digits_value};
ghost use Rattle.zio_script.specs.Words.{is_numeral, has_leading_zero};
ghost use Rattle.zio_spelled.specs.Reading.{number_below, number_in};

/// The number that the word spells, in decimal digits without a leading zero.
pub(crate) fn number_in(word: &[u8]) -> Option<u32>
    ensures { result ≡ number_in word.now }
{
    u32::try_from(long_number_in(word)?).ok()
}

/// The same for a byte.
pub(crate) fn byte_in(word: &[u8]) -> Option<u8>
    ensures { result ≡ number_below (2 ^ 8) word.now }
{
    u8::try_from(long_number_in(word)?).ok()
}

/// The same for a number of 64 bits.
pub(crate) fn long_number_in(word: &[u8]) -> Option<u64>
    ensures { result ≡ number_below (2 ^ 64) word.now }
{
    if is_numeral(word) {
        digits_value(word)
    } else {
        None
    }
}

// Decimal digits, without a leading zero.
fn is_numeral(word: &[u8]) -> bool
    ensures { result ≡ is_numeral word.now }
{
    !word.is_empty() && are_digits(word) && !has_leading_zero(word)
}

fn are_digits(word: &[u8]) -> bool
    ensures { result ≡ list_all (λ c. is_digit c 10) word.now }
{
    word.iter().all(|c| c.is_ascii_digit())
}

fn has_leading_zero(word: &[u8]) -> bool
    ensures { result ≡ has_leading_zero word.now }
{
    word.len() > 1 && word[0] == b'0'
}

// The number that the digits spell, which may be too large for its type.
fn digits_value(digits: &[u8]) -> Option<u64>
    requires { list_all (λ c. is_digit c 10) digits.now ≡ true }
    ensures { MatchOption result (2 ^ 64 ≤ digits_value 10 digits.now)
        (λ value. value ≡ digits_value 10 digits.now) }
{
    let mut value = 0u64;
    for digit in digits {
        value = value
            .checked_mul(10)?
            .checked_add(u64::from(*digit - b'0'))?;
    }
    Some(value)
}
