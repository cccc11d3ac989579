//! The lines of a text, the words of a line, and what words spell.
ghost use Rattle.std.specs.Prelude.{◌≡◌, ◌∷◌, ◌<◌, ◌≤◌, ◌^◌, true, [], IfOk, IfSome, MatchOption, OnOk, length, map};
ghost use Rattle.std.specs.List.{list_all};
ghost use Rattle.std.specs.Bool.{then_some};
ghost use Rattle.std.specs.Char.{is_digit};
ghost use Rattle.std.specs.Str.Parse.{digits_value};
ghost use Rattle.zio_script.specs.Words.{byte_of, bytes_of, has_leading_zero, is_blank, is_comment, is_numeral, is_skipped, lines_of, number, words_of};

use hex::FromHexError;
use std::alloc::Global;
use zio_types::{Bytes, List, NoMemory};

/// The most digits whose number fits its type, whatever they are.
const FITTING_LEN_MAX: usize = 19;

/// The first line of the text without its newline, and what follows it; none where the text is empty.
pub(crate) fn next_line(text: &[u8]) -> Option<(&[u8], &[u8])>
    ensures line { MatchOption result (text.now ≡ []) (λ p. lines_of text.now ≡ p.0.now ∷ lines_of p.1.now) }
    ensures shorter { IfSome result (λ p. length p.1.now < length text.now) }
{
    if text.is_empty() {
        return None;
    }
    match text.iter().position(|c| *c == b'\n') {
        Some(end) => Some((&text[..end], &text[end + 1..])),
        None => Some((text, &[])),
    }
}

/// The words of the line, in place of those that stand there.
pub(crate) fn split_words<'a>(line: &'a [u8], words: &mut Vec<&'a [u8]>) -> Result<(), NoMemory>
    ensures { OnOk result (map (λ w. w.now) words.new.items ≡ words_of line.now) }
{
    words.clear();
    for part in line.split(|c| is_blank(*c)) {
        if !part.is_empty() {
            words.push(part)?;
        }
    }
    Ok(())
}

fn is_blank(c: u8) -> bool
    ensures { result ≡ is_blank c }
{
    matches!(c, b' ' | b'\t' | b'\r')
}

/// The line has no word, or is a comment.
pub(crate) fn is_skipped(words: &[&[u8]]) -> bool
    ensures { result ≡ is_skipped (map (λ w. w.now) words.now) }
{
    match words.first() {
        None => true,
        Some(word) => is_comment(word),
    }
}

// The word begins with `#`.
fn is_comment(word: &[u8]) -> bool
    ensures { result ≡ is_comment word.now }
{
    word.first() == Some(&b'#')
}

/// The number that the word spells, in decimal digits without a leading zero.
pub(crate) fn number(word: &[u8]) -> Option<u64>
    ensures { result ≡ number word.now }
{
    if word.len() > FITTING_LEN_MAX {
        return long_number(word);
    }
    if word.is_empty() || has_leading_zero(word) {
        return None;
    }
    short_digits_value(word)
}

// The same for a word whose number may be too large for its type.
fn long_number(word: &[u8]) -> Option<u64>
    ensures { result ≡ number word.now }
{
    if is_numeral(word) {
        digits_value(word)
    } else {
        None
    }
}

// The number that so few digits spell, read in one pass.
fn short_digits_value(word: &[u8]) -> Option<u64>
    requires { length word.now ≤ FITTING_LEN_MAX }
    ensures { result ≡ then_some (list_all (λ c. is_digit c 10) word.now) (digits_value 10 word.now) }
{
    let mut value = 0u64;
    for c in word {
        if !c.is_ascii_digit() {
            return None;
        }
        value = value * 10 + u64::from(*c - b'0');
    }
    Some(value)
}

// Decimal digits, without a leading zero.
fn is_numeral(word: &[u8]) -> bool
    ensures { result ≡ is_numeral word.now }
{
    !word.is_empty() && are_digits(word) && !has_leading_zero(word)
}

fn are_digits(word: &[u8]) -> bool
    ensures { result ≡ list_all (λ c. is_digit c 10) word.now }
{
    word.iter().all(|c| c.is_ascii_digit())
}

fn has_leading_zero(word: &[u8]) -> bool
    ensures { result ≡ has_leading_zero word.now }
{
    word.len() > 1 && word[0] == b'0'
}

// The number that the digits spell, which may be too large for its type.
fn digits_value(digits: &[u8]) -> Option<u64>
    requires { list_all (λ c. is_digit c 10) digits.now ≡ true }
    ensures { MatchOption result (2 ^ 64 ≤ digits_value 10 digits.now)
        (λ value. value ≡ digits_value 10 digits.now) }
{
    let mut value = 0u64;
    for digit in digits {
        value = value
            .checked_mul(10)?
            .checked_add(u64::from(*digit - b'0'))?;
    }
    Some(value)
}

/// The bytes that the word spells, two hexadecimal digits of either case each.
pub(crate) fn bytes_of(alloc: Global, word: &[u8]) -> Result<Option<Bytes>, NoMemory>
    ensures { IfOk result (λ bytes. bytes ≡ bytes_of word.now) }
{
    match hex::decode(alloc, word) {
        Ok(bytes) => Ok(Some(List::from_vec(bytes))),
        Err(FromHexError::OutOfMemory) => Err(NoMemory),
        Err(_) => Ok(None),
    }
}

/// The byte that exactly two hexadecimal digits spell.
pub(crate) fn byte_of(word: &[u8]) -> Option<u8>
    ensures { result ≡ byte_of word.now }
{
    let mut byte = [0];
    hex::decode_to_slice(word, &mut byte).ok()?;
    Some(byte[0])
}
