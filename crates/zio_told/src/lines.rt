//! The lines of a whole report.
ghost use Rattle.std.specs.Prelude.{◌≡◌, IfOk, IfSome, MatchOption, ◌∷◌, ◌<◌, [], length, map, true};
ghost use Rattle.std.specs.List.{AllZip, list_all};
ghost use Rattle.zio_types.specs.Places.{is_lawful_top};
ghost use Rattle.zio_script.specs.Words.{lines_of};
ghost use Rattle.zio_told.specs.Told.{IsLine};

use crate::fault::{LinesFault, REPORT_LINES_MAX};
use crate::told::{Line, read_line};
use std::alloc::Global;
use zio_types::TopSize;

/// The lines of a report without their newlines; the last may have none. There may be `REPORT_LINES_MAX` at most.
pub fn lines_of(alloc: Global, text: &[u8]) -> Result<Vec<&[u8]>, LinesFault>
    ensures { IfOk result (λ lines. map (λ line. line.now) lines.items ≡ lines_of text.now) }
{
    let mut lines = Vec::new(alloc);
    let mut rest = text;
    while let Some((line, behind)) = next_line(rest) {
        if lines.len() == REPORT_LINES_MAX {
            return Err(LinesFault::TooMany);
        }
        lines.push(line)?;
        rest = behind;
    }
    Ok(lines)
}

/// What each line tells, of a pool of these tops. A line at fault is the first that is none of a report's.
pub fn read_lines(alloc: Global, tops: &[TopSize], lines: &[&[u8]]) -> Result<Vec<Line>, LinesFault>
    requires { list_all is_lawful_top tops.now ≡ true }
    ensures { IfOk result (λ told. AllZip (IsLine tops.now) (map (λ line. line.now) lines.now) told.items) }
{
    let mut told = Vec::new(alloc);
    for line in lines {
        match read_line(alloc, tops, line)? {
            Some(line) => told.push(line)?,
            None => return Err(LinesFault::Shape(told.len())),
        }
    }
    Ok(told)
}

// The first line of the text without its newline, and what follows it; none where the text is empty.
fn next_line(text: &[u8]) -> Option<(&[u8], &[u8])>
    ensures line { MatchOption result (text.now ≡ []) (λ p. lines_of text.now ≡ p.0.now ∷ lines_of p.1.now) }
    ensures shorter { IfSome result (λ p. length p.1.now < length text.now) }
{
    if text.is_empty() {
        return None;
    }
    match text.iter().position(|c| *c == b'\n') {
        Some(end) => Some((&text[..end], &text[end + 1..])),
        None => Some((text, &[])),
    }
}
