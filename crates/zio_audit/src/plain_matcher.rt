//! A sink that compares what it is given with the lines of a report that are none of its journal.
ghost use Rattle.std.specs.Prelude.{◌≡◌, ◌≢◌, ◌≤◌, ◌-◌, ◌↔◌, ◌∷◌, ◌++◌, [], IfSome, IsTrue, List, MatchOption, length, ℕ};
ghost use Rattle.std.proofs.Common.{lit<};
ghost use Rattle.zio_report.specs.Lines.{as_line};
ghost use Rattle.zio_audit.specs.PlainMatching.{HoldsCompared, compared, text_left};
ghost use Rattle.zio_audit.specs.Texts.{plain_text};

use crate::plain_lines::next_plain;
use zio_outside::{Failed, Sink};

/// What is left of a plain text.
#[derive(Clone, Copy)]
struct Rest<'a> {
    /// The rest of the line that is begun, whose newline is left too; none between two lines.
    line: Option<&'a [u8]>,
    /// What follows the line in the report, lines of the journal among it.
    behind: &'a [u8],
}

impl<'a> Rest<'a> {
    // The rest of the line that is begun, or else the next line, and what follows it; none at the end.
    fn next(self) -> Option<(&'a [u8], &'a [u8])>
        ensures { MatchOption result (text_left self.entry ≡ [])
            (λ p. text_left self.entry ≡ as_line p.0.now ++ plain_text p.1.now) }
    {
        match self.line {
            Some(line) => Some((line, self.behind)),
            None => next_plain(self.behind),
        }
    }

    // Goes on behind the piece, none where something else stands there.
    fn behind(self, piece: &[u8]) -> Option<Rest<'a>>
        ensures { MatchOption result ((more : List ℕ) → text_left self.entry ≢ piece.now ++ more)
            (λ rest. text_left self.entry ≡ piece.now ++ text_left rest) }
    {
        let mut rest = self;
        let mut piece = piece;
        while !piece.is_empty() {
            let (next, more) = rest.behind_run(piece)?;
            rest = next;
            piece = more;
        }
        Some(rest)
    }

    // How many bytes of the report follow the line in which something else than the piece stands, none where the
    // report ends before it.
    fn left_at(self, piece: &[u8]) -> Option<usize> {
        let mut rest = self;
        let mut piece = piece;
        while !piece.is_empty() {
            let Some((next, more)) = rest.behind_run(piece) else {
                return rest.left();
            };
            rest = next;
            piece = more;
        }
        rest.left()
    }

    // How many bytes follow the line that is to come next, none where there is no such line.
    fn left(self) -> Option<usize> {
        match self.next() {
            Some((_, behind)) => Some(behind.len()),
            None => None,
        }
    }

    // Goes on behind a run of the piece, within one line, and gives what follows the run in the piece; none where
    // something else stands there.
    fn behind_run<'b>(self, piece: &'b [u8]) -> Option<(Rest<'a>, &'b [u8])>
        requires { piece.now ≢ [] }
        ensures passed { MatchOption result ((more : List ℕ) → text_left self.entry ≢ piece.now ++ more)
            (λ p. (more : List ℕ) → (text_left self.entry ≡ piece.now ++ more)
            ↔ (text_left p.0 ≡ p.1.now ++ more)) }
        ensures shorter { IfSome result (λ p. length p.1.now ≤ length piece.now - 1) }
    {
        let (line, behind) = self.next()?;
        match piece.strip_prefix(line) {
            Some(more) => behind_newline(behind, more),
            None => {
                let rest = line.strip_prefix(piece)?;
                Some((
                    Rest {
                        line: Some(rest),
                        behind,
                    },
                    &[],
                ))
            }
        }
    }
}

// Goes on behind the newline of a line that came, and gives what follows it in the piece.
fn behind_newline<'a, 'b>(behind: &'a [u8], piece: &'b [u8]) -> Option<(Rest<'a>, &'b [u8])>
    ensures passed { MatchOption result ((more : List ℕ) → (10 ∷ plain_text behind.now) ≢ piece.now ++ more)
        (λ p. (more : List ℕ) → ((10 ∷ plain_text behind.now) ≡ piece.now ++ more)
        ↔ (text_left p.0 ≡ p.1.now ++ more)) }
    ensures shorter { IfSome result (λ p. length p.1.now ≤ length piece.now - 1) }
{
    match piece {
        [] => Some((
            Rest {
                line: Some(&[]),
                behind,
            },
            &[],
        )),
        [b'\n', more @ ..] => Some((Rest { line: None, behind }, more)),
        _ => None,
    }
}

// Where the piece came and nothing is left to compare, how many bytes follow the line in which it differs.
fn left_behind(now: Option<Rest<'_>>, before: Rest<'_>, piece: &[u8]) -> Option<usize> {
    match now {
        Some(_) => None,
        None => before.left_at(piece),
    }
}

/// Compares the bytes that it is given with a report's lines that are none of the journal, each with its newline, and
/// keeps none of them. It never fails, and goes over the report once.
#[derive(Clone, Copy)]
pub struct PlainMatcher<'a> {
    /// What is left to compare, none where other bytes came.
    rest: Option<Rest<'a>>,
    /// How many bytes of the report follow the line in which other bytes came, none where the report ends before it.
    left: Option<usize>,
}

impl<'a> PlainMatcher<'a> {
    /// Nothing came yet.
    pub fn new(report: &'a [u8]) -> PlainMatcher<'a>
        ensures { HoldsCompared result (compared (plain_text report.now) []) }
    {
        PlainMatcher {
            rest: Some(Rest {
                line: None,
                behind: report,
            }),
            left: None,
        }
    }

    /// Whether what came is the plain text of the report.
    pub fn is_whole(&self) -> bool
        ensures { (text came : List ℕ) → HoldsCompared self.now (compared text came)
            → (IsTrue result ↔ (came ≡ text)) }
    {
        match self.rest {
            Some(rest) => rest.next().is_none(),
            None => false,
        }
    }

    /// Of a text that isn't whole: how many bytes of the report follow the first line that is another, none where the
    /// report ends before it.
    pub fn left(&self) -> Option<usize> {
        match self.rest {
            Some(rest) => rest.left(),
            None => self.left,
        }
    }
}

impl Sink for PlainMatcher<'_> {
    ghost faults = { λ m. 0 };

    ghost holds = { λ m held. HoldsCompared m held };

    ghost sound = { λ m room. Unit {0} };

    fn write(&mut self, piece: &[u8]) -> Result<(), Failed> {
        if let Some(rest) = self.rest {
            self.rest = rest.behind(piece);
            self.left = left_behind(self.rest, rest, piece);
        }
        Ok(())
    }

    ghost sound_counts = { λ m room sound. lit< tt };

    ghost sound_fewer = { λ m fewer room le sound. tt };
}
