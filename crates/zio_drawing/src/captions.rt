//! The comments of a script, and their lines in a picture.
ghost use Rattle.std.specs.Prelude.{◌≤◌, length};

use std::alloc::Global;
use zio_script::Item;
use zio_types::NoMemory;

/// The most lines of a caption that are shown.
const CAPTION_LINES_MAX: usize = 6;

/// A script's comments, each joined with those right before and behind it.
#[derive(Drop)]
pub(crate) struct Comments {
    /// Those before the last `top` or `fault` line.
    head: Vec<u8>,
    /// Those in each batch.
    batches: Vec<Vec<u8>>,
    /// Those before each `clear`.
    clears: Vec<Vec<u8>>,
    /// Those since then.
    open: Vec<u8>,
}

impl Comments {
    /// Without memory.
    pub(crate) fn new(alloc: Global) -> Comments {
        Comments {
            head: Vec::new(alloc),
            batches: Vec::new(alloc),
            clears: Vec::new(alloc),
            open: Vec::new(alloc),
        }
    }

    /// Takes one more line, which begins with `#`.
    pub(crate) fn add(&mut self, line: &[u8]) -> Result<(), NoMemory> {
        self.open.push(b' ')?;
        for byte in line.iter().skip_while(|c| **c == b'#' || **c == b' ') {
            self.open.push(*byte)?;
        }
        Ok(())
    }

    /// What was read stands before a `top` or `fault` line.
    pub(crate) fn end_head(&mut self) -> Result<(), NoMemory> {
        self.head.extend_from_slice(self.open.as_slice())?;
        self.open.clear();
        Ok(())
    }

    /// What was read belongs to the item, if that ends a batch or is a `clear`.
    pub(crate) fn end_item(&mut self, alloc: Global, item: &Item) -> Result<(), NoMemory> {
        match item {
            Item::Request(_) => Ok(()),
            Item::Go => {
                let comment = std::mem::replace(&mut self.open, Vec::new(alloc));
                Ok(self.batches.push(comment)?)
            }
            Item::Clear => {
                let comment = std::mem::replace(&mut self.open, Vec::new(alloc));
                Ok(self.clears.push(comment)?)
            }
        }
    }

    pub(crate) fn head(&self) -> &[u8] {
        self.head.as_slice()
    }

    /// The batches are counted from 1.
    pub(crate) fn has_batch(&self, batch: u32) -> bool {
        batch >= 1 && batch as usize <= self.batches.len()
    }

    /// The comment in a batch, empty where there is no such batch.
    pub(crate) fn of_batch(&self, batch: u32) -> &[u8] {
        comment_at(self.batches.as_slice(), batch)
    }

    /// The same of a `clear`.
    pub(crate) fn of_clear(&self, clear: u32) -> &[u8] {
        comment_at(self.clears.as_slice(), clear)
    }
}

// The comment of this number, from 1.
fn comment_at(comments: &[Vec<u8>], number: u32) -> &[u8] {
    if number == 0 {
        return &[];
    }
    match comments.get(number as usize - 1) {
        Some(comment) => comment.as_slice(),
        None => &[],
    }
}

/// The text in lines of so many bytes at most, parted at blanks where it has any, up to the most lines that are shown.
pub(crate) fn wrapped(alloc: Global, text: &[u8], columns: usize) -> Result<Vec<&[u8]>, NoMemory> {
    let mut lines = Vec::new(alloc);
    let mut rest = text.trim_ascii();
    for _ in 0..CAPTION_LINES_MAX {
        if rest.is_empty() {
            break;
        }
        let (line, behind) = rest.split_at(line_len(rest, columns));
        lines.push(line)?;
        rest = behind.trim_ascii();
    }
    Ok(lines)
}

// How many bytes of the text are on its first line.
fn line_len(text: &[u8], columns: usize) -> usize
    ensures { result ≤ length text.now }
{
    if text.len() <= columns {
        return text.len();
    }
    match text[..columns].iter().rposition(|c| *c == b' ') {
        Some(0) | None => columns,
        Some(blank) => blank,
    }
}
