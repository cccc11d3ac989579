//! What is told on standard error of a run that didn't end with code 0.

use std::alloc::{AllocError, Global};
use std::fs;
use std::io::ErrorKind;
use std::os::unix::fs::FileTypeExt;
use std::rt::Files;
use zio_command::{IMAGE_LEN_MAX, IMAGE_LEN_MIN};

/// The text of a reason for which a script is refused, by its number.
pub fn why_text(why: u32) -> &'static str {
    match why {
        1 => "the line has no shape of the language",
        2 => "a number isn't plain decimal, or hexadecimal digits are wrong",
        3 => "a number, a size or the script is beyond its limit",
        4 => "the line, or the end, comes out of order",
        5 => "a name isn't 1 to 16 of a to z, 0 to 9 and _",
        6 => "the batch names this block already",
        7 => "canfail under a request that may not fail",
        8 => "the parent isn't one, or the batch of a claim has another request",
        9 => "a leaf is in two tops, a fault's leaf in none, or there is no top",
        _ => "no reason is known",
    }
}

/// The line for a code other than 0, without a newline. `usage` has the forms of the program's commands, `front` is what
/// the output begins with, and `words` are those behind the command, if the program has commands.
pub fn line_of<R: Files>(
    rt: &R,
    alloc: Global,
    usage: &str,
    code: u8,
    front: &[u8],
    words: &[String],
) -> Result<String, AllocError> {
    match code {
        1 => format!(in alloc; "usage: {usage}"),
        2 => script_line(alloc, front),
        3 => image_line(rt, alloc, front, words),
        4 => format!(in alloc;
            "a request was suspended under failmode panic; later batches didn't run"
        ),
        5 => format!(in alloc; "standard input can't be read"),
        6 => format!(in alloc; "standard output can't be written"),
        7 => format!(in alloc;
            "an image can't be read or written; the report ends with the last whole round, or before the scrub's line"
        ),
        8 => format!(in alloc; "no memory"),
        9 => format!(in alloc; "requests are left: suspended, or in a batch that is held"),
        _ => format!(in alloc; "the run ended with status {code}"),
    }
}

/// The two numbers behind the first word of the line, or as many as there are.
fn numbers(front: &[u8]) -> (Option<u32>, Option<u32>) {
    let Ok(text) = str::from_utf8(front) else {
        return (None, None);
    };
    let mut words = text.split_ascii_whitespace();
    let _ = words.next();
    let first = words.next().and_then(|word| word.parse().ok());
    let second = words.next().and_then(|word| word.parse().ok());
    (first, second)
}

fn script_line(alloc: Global, front: &[u8]) -> Result<String, AllocError> {
    match numbers(front) {
        (Some(line), Some(why)) => {
            format!(in alloc; "script: line {line}: {} (why {why})", why_text(why))
        }
        _ => format!(in alloc; "script: refused"),
    }
}

/// The words behind the command: those of `load` stand behind its two numbers.
pub fn behind_command(words: &[String]) -> &[String] {
    match words {
        [first, _, _, rest @ ..] if first.as_str() == "load" => rest,
        [_, rest @ ..] => rest,
        [] => words,
    }
}

/// The word that names the image of this number: those behind the options, of which `--picks` and `--workers` have a word
/// for their value.
fn image_name<'a>(words: &'a [String], leaf: u32) -> Option<&'a str> {
    let mut left = leaf;
    let mut is_value = false;
    for word in words {
        let word = word.as_str();
        if is_value || word.starts_with('-') {
            is_value = word == "--picks" || word == "--workers";
            continue;
        }
        if left == 0 {
            return Some(word);
        }
        left -= 1;
    }
    None
}

fn image_line<R: Files>(
    rt: &R,
    alloc: Global,
    front: &[u8],
    words: &[String],
) -> Result<String, AllocError> {
    let (Some(leaf), _) = numbers(front) else {
        return format!(in alloc; "images: refused");
    };
    let Some(name) = image_name(words, leaf) else {
        return format!(in alloc; "image {leaf}: a top names it, and no word does");
    };
    format!(in alloc; "image {leaf}, {name}: {}", trouble(rt, name))
}

/// What about the file is in the way.
fn trouble<R: Files>(rt: &R, name: &str) -> &'static str {
    match fs::metadata(rt, name) {
        Err(error) if error.kind() == ErrorKind::NotFound => "there is no such file",
        Err(_) => "it can't be looked at",
        Ok(about) if about.is_dir() => "it is a folder",
        // What the system says of a device's length isn't its size.
        Ok(about) if about.file_type().is_block_device() => {
            "the device can't be opened, or hasn't 65,536 to 268,435,456 bytes"
        }
        Ok(about) if !about.is_file() => "it is neither a file nor a block device",
        Ok(about) if about.len() < IMAGE_LEN_MIN => "it has fewer than 65,536 bytes",
        Ok(about) if about.len() > IMAGE_LEN_MAX => "it has more than 268,435,456 bytes",
        Ok(_) => "it can't be opened for reading and writing",
    }
}
