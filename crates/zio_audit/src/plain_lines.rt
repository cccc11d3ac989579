//! The lines of a report that are none of its journal.
ghost use Rattle.std.specs.Prelude.{◌≡◌, ◌∷◌, ◌<◌, [], IfSome, MatchOption, length};
ghost use Rattle.zio_audit.specs.Putting.{plain_lines};
ghost use Rattle.zio_audit.specs.Texts.{is_bytes_line, shows_bytes};

use crate::lines::{is_journal, next_line};

/// The first of the text's lines that are none of the journal, without its newline, and what follows it; none where
/// there is no such line.
pub(crate) fn next_plain(text: &[u8]) -> Option<(&[u8], &[u8])>
    ensures line { MatchOption result (plain_lines text.now ≡ [])
        (λ p. plain_lines text.now ≡ p.0.now ∷ plain_lines p.1.now) }
    ensures shorter { IfSome result (λ p. length p.1.now < length text.now) }
{
    let mut rest = text;
    while let Some((line, behind)) = next_line(rest) {
        if !is_journal(line) {
            return Some((line, behind));
        }
        rest = behind;
    }
    None
}

/// Whether one of the report's lines that are none of the journal shows the bytes of a read. It goes over the report
/// once at most.
pub fn shows_bytes(report: &[u8]) -> bool
    ensures { result ≡ shows_bytes report.now }
{
    let mut rest = report;
    while let Some((line, behind)) = next_plain(rest) {
        if is_bytes_line(line) {
            return true;
        }
        rest = behind;
    }
    false
}

// The line has six blanks or more.
fn is_bytes_line(line: &[u8]) -> bool
    ensures { result ≡ is_bytes_line line.now }
{
    let mut blanks: u8 = 0;
    for c in line {
        if *c == b' ' {
            blanks += 1;
            if blanks == 6 {
                return true;
            }
        }
    }
    false
}
