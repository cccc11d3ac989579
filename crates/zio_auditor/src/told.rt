//! What is told on standard error of an audit that didn't end with code 0.

use crate::about::USAGE;
use std::alloc::{AllocError, Global};
use std::fs;
use std::io::ErrorKind;
use std::os::unix::fs::FileTypeExt;
use std::rt::Files;
use zio_audit::{AUDITED_LEN_MAX, Seen, Why};
use zio_command::IMAGE_LEN_MIN;
use zio_script::SCRIPT_LEN_MAX;
use zio_spelled::REPORT_LEN_MAX;

/// The text of a reason to say no.
fn why_text(why: Why) -> &'static str {
    match why {
        Why::Script => "the script isn't accepted, or a top names a leaf without an image",
        Why::Lines =>
            "a `take` or `order` line of the report isn't of its shape, or stands before every round",
        Why::Places =>
            "the places that the `take` lines tell aren't lawful for what the script asks",
        Why::Completions => "the `order` lines aren't those of the requests that finished",
        Why::Text => "the report isn't the text of the run",
        Why::Images => "the images after the run aren't those that it leaves",
    }
}

/// Where it was first seen.
fn place_text(alloc: Global, words: &[String], seen: Seen) -> Result<String, AllocError> {
    match seen {
        Seen::Script { line: 0 } => format!(in alloc; "in the script as a whole"),
        Seen::Script { line } => format!(in alloc; "in line {line} of the script"),
        Seen::Leaf { leaf } => format!(in alloc; "at leaf {leaf}"),
        Seen::Lines { line } | Seen::Text { line } => format!(in alloc;
            "in line {line} of the report"
        ),
        Seen::Places { round } | Seen::Completions { round } => format!(in alloc;
            "in round {round}"
        ),
        Seen::Images { image, byte } => format!(in alloc;
            "in byte {byte} of image {image}, {}",
            after_name(words, image)
        ),
    }
}

/// The name of the image after the run of this number.
fn after_name(words: &[String], image: usize) -> &str {
    let images = words.len().saturating_sub(2) / 2;
    let first = images.saturating_add(2);
    match words.get(first.saturating_add(image)) {
        Some(name) => name.as_str(),
        None => "which wasn't named",
    }
}

/// The line for a code other than 0, without a newline. `front` is what the output begins with, and `seen` is where the
/// reason of a no was first seen.
pub fn line_of<R: Files>(
    rt: &R,
    alloc: Global,
    code: u8,
    front: &[u8],
    words: &[String],
    seen: Option<Seen>,
) -> Result<String, AllocError> {
    match code {
        1 => format!(in alloc; "usage: {USAGE}"),
        3 => file_line(rt, alloc, front, words),
        6 => format!(in alloc; "standard output can't be written"),
        7 => format!(in alloc; "a file can't be read"),
        8 => format!(in alloc; "no memory"),
        10 => no_line(alloc, words, seen),
        _ => format!(in alloc; "the audit ended with status {code}"),
    }
}

/// The number behind the first word of the line, if there is one.
fn number(front: &[u8]) -> Option<usize> {
    let Ok(text) = str::from_utf8(front) else {
        return None;
    };
    let mut words = text.split_ascii_whitespace();
    let _ = words.next();
    words.next().and_then(|word| word.parse().ok())
}

fn no_line(alloc: Global, words: &[String], seen: Option<Seen>) -> Result<String, AllocError> {
    let Some(seen) = seen else {
        return format!(in alloc; "no");
    };
    let place = place_text(alloc, words, seen)?;
    let why = seen.why();
    format!(in alloc;
        "no: {} (why {}), first seen {}",
        why_text(why),
        why.number(),
        place.as_str()
    )
}

fn file_line<R: Files>(
    rt: &R,
    alloc: Global,
    front: &[u8],
    words: &[String],
) -> Result<String, AllocError> {
    let Some(k) = number(front) else {
        return format!(in alloc; "a file can't be opened, or its size isn't fit");
    };
    let Some(name) = words.get(k) else {
        return format!(in alloc; "file {k} can't be opened, or its size isn't fit");
    };
    format!(in alloc;
        "file {k}, {}: {}",
        name.as_str(),
        trouble(rt, words, k, name.as_str())
    )
}

/// What about the file is in the way.
fn trouble<R: Files>(rt: &R, words: &[String], k: usize, name: &str) -> &'static str {
    match fs::metadata(rt, name) {
        Err(error) if error.kind() == ErrorKind::NotFound => "there is no such file",
        Err(_) => "it can't be looked at",
        Ok(about) if about.is_dir() => "it is a folder",
        // What the system says of a device's length isn't its size.
        Ok(about) if about.file_type().is_block_device() => {
            "the device can't be opened, or its size isn't fit"
        }
        Ok(about) if !about.is_file() => "it is neither a file nor a block device",
        Ok(about) if about.len() > most_of(k) => most_text(k),
        Ok(about) if k >= 2 && about.len() < IMAGE_LEN_MIN => "it has fewer than 65,536 bytes",
        Ok(about) if has_other_size(rt, words, k, about.len()) => {
            "it hasn't the size of the image before the run"
        }
        Ok(_) => "it can't be opened for reading and writing",
    }
}

/// The most bytes of the file of this number.
fn most_of(k: usize) -> u64 {
    match k {
        0 => SCRIPT_LEN_MAX as u64,
        1 => REPORT_LEN_MAX as u64,
        _ => AUDITED_LEN_MAX,
    }
}

fn most_text(k: usize) -> &'static str {
    match k {
        1 => "it has more than 67,108,864 bytes",
        _ => "it has more than 16,777,216 bytes",
    }
}

/// It is an image after the run, and its partner has another size than these bytes.
fn has_other_size<R: Files>(rt: &R, words: &[String], k: usize, bytes: u64) -> bool {
    let images = words.len().saturating_sub(2) / 2;
    let Some(partner) = k.checked_sub(images) else {
        return false;
    };
    if partner < 2 {
        return false;
    }
    match words.get(partner) {
        Some(name) => match fs::metadata(rt, name.as_str()) {
            Ok(about) => about.len() != bytes,
            Err(_) => false,
        },
        None => false,
    }
}
