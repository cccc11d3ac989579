//! The names of the images among the words.

ghost use Rattle.std.specs.Prelude.{◌≡◌, ◌↔◌, IsTrue, map, string_bytes};
ghost use Rattle.zio_command.specs.Words.{AreImages, AreNames, IsImageName, is_among};

/// The most images of a command.
pub const IMAGES_MAX: usize = 16;

/// The words are the names of 1 to 16 images.
pub fn are_images(words: &[String]) -> bool
    ensures { IsTrue result ↔ AreImages (map string_bytes words.now) }
{
    !words.is_empty() && words.len() <= IMAGES_MAX && are_names(words)
}

/// Each word may be the name of an image, and no two are the same. They are few, so each is compared with those behind
/// it.
fn are_names(words: &[String]) -> bool
    ensures { IsTrue result ↔ AreNames (map string_bytes words.now) }
{
    match words {
        [word, rest @ ..] => {
            is_image_name(word.as_str()) && !is_among(rest, word.as_str()) && are_names(rest)
        }
        [] => true,
    }
}

fn is_image_name(word: &str) -> bool
    ensures { IsTrue result ↔ IsImageName word.now }
{
    match word.as_bytes() {
        [first, ..] => *first != b'-',
        [] => false,
    }
}

/// The word is one of these.
fn is_among(words: &[String], word: &str) -> bool
    ensures { result ≡ is_among (map string_bytes words.now) word.now }
{
    match words {
        [other, rest @ ..] => word == other.as_str() || is_among(rest, word),
        [] => false,
    }
}
