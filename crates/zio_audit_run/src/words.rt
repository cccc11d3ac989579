//! The words of an audit: docs/FORMATS.md, "Words of an audit".

ghost use Rattle.std.specs.Prelude.{◌≡◌, ◌≤◌, ◌↔◌, IsTrue, map, string_bytes};
ghost use Rattle.zio_command.specs.Words.{AreNames, IsImageName, is_among};
ghost use Rattle.zio_audit_run.specs.Words.{IsCount, NameAudit};

use crate::sizes::images_among;
use zio_command::IMAGES_MAX;

/// The words name what an audit reads.
pub(crate) fn name_audit(words: &[String]) -> bool
    ensures { IsTrue result ↔ NameAudit (map string_bytes words.now) }
{
    is_count(words.len()) && are_names(words)
}

/// So many words are SCRIPT, REPORT, 1 to 16 images before the run, and as many after it.
fn is_count(count: usize) -> bool
    ensures { IsTrue result ↔ IsCount count }
{
    let images = images_among(count);
    are_few(images) && count == 2 + 2 * images
}

fn are_few(images: usize) -> bool
    ensures { IsTrue result ↔ ((1 ≤ images) × (images ≤ IMAGES_MAX)) }
{
    images >= 1 && images <= IMAGES_MAX
}

/// Each word may be the name of a file, and no two are the same. They are few, so each is compared with those behind
/// it.
fn are_names(words: &[String]) -> bool
    ensures { IsTrue result ↔ AreNames (map string_bytes words.now) }
{
    match words {
        [word, rest @ ..] => {
            is_name(word.as_str()) && !is_among(rest, word.as_str()) && are_names(rest)
        }
        [] => true,
    }
}

fn is_name(word: &str) -> bool
    ensures { IsTrue result ↔ IsImageName word.now }
{
    match word.as_bytes() {
        [first, ..] => *first != b'-',
        [] => false,
    }
}

/// The word is one of these.
fn is_among(words: &[String], word: &str) -> bool
    ensures { result ≡ is_among (map string_bytes words.now) word.now }
{
    match words {
        [other, rest @ ..] => word == other.as_str() || is_among(rest, word),
        [] => false,
    }
}
