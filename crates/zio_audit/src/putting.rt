//! Whether the lines of a journal stand in a report where a run prints them.
ghost use Rattle.std.specs.Prelude.{◌≡◌, ◌<◌, ◌∷◌, ◌++◌, ◌↔◌, [], IfOk, IsTrue, List, MatchBool, MatchOption, length, map, option_map, ℕ};
ghost use Rattle.zio_script.specs.Words.{Word};
ghost use Rattle.zio_report.specs.Lines.{as_line, head_text, journal_text};
ghost use Rattle.zio_spelled.specs.Rounds.{others_of};
ghost use Rattle.zio_spelled.specs.Spelled.{first_of, is_round};
ghost use Rattle.zio_audit.specs.Marks.{named};
ghost use Rattle.zio_audit.specs.Putting.{Fits, IsText, no_head, plain_lines, put_in, rest_of, text_of};

use crate::differing::first_other_byte;
use crate::lines::{is_close, is_journal, is_round, next_line};
use std::alloc::Global;
use zio_report::{RoundHead, Show, render};
use zio_spelled::RoundJournal;
use zio_types::{Bytes, Completion, Entry, List, NoMemory, ReqNo, Text};

/// The text of a round's journal, as a run prints it.
pub fn journal_text(alloc: Global, journal: &RoundJournal) -> Result<Bytes, NoMemory>
    ensures { IfOk result (λ text. text ≡ text_of journal.now) }
{
    let completions = completions_of(alloc, journal.order.as_slice())?;
    let round = round_text(alloc, journal.entries.as_slice(), &completions)?;
    let mut text = List::new(alloc);
    text.extend_from_slice(behind_head(round.as_str().as_bytes()))?;
    Ok(text)
}

// The text of a round without requests. Rounds are printed whole, so a head stands before the journal.
fn round_text(
    alloc: Global,
    entries: &[Entry],
    completions: &[Completion],
) -> Result<Text, NoMemory>
    ensures { IfOk result (λ text. text ≡ head_text no_head ++ journal_text entries.now completions.now) }
{
    let show = Show::Report {
        journal: true,
        bytes: false,
    };
    let head = RoundHead {
        round: 0,
        batch: None,
        point: 0,
    };
    render(alloc, &show, &head, &[], entries, completions)
}

// What stands behind that head.
fn behind_head(round: &[u8]) -> &[u8]
    requires { (text : List ℕ) × (round.now ≡ head_text no_head ++ text) }
    ensures { round.now ≡ head_text no_head ++ result.now }
{
    let Some(journal) = round.strip_prefix(b"round 0 clear point 0\n") else {
        unreachable!();
    };
    journal
}

// A completion without error for each request.
fn completions_of(alloc: Global, order: &[ReqNo]) -> Result<Vec<Completion>, NoMemory>
    ensures { IfOk result (λ completions. completions.items ≡ map (named 0) order.now) }
{
    let mut completions = Vec::with_capacity(alloc, order.len())?;
    for request in order {
        completions.push(Completion {
            request: *request,
            round: 0,
            error: None,
        })?;
    }
    Ok(completions)
}

/// Compares a report with its own lines, where the texts of its rounds' journals are put in among the others. It goes
/// over the report once.
#[derive(Clone, Copy)]
pub struct PutIn<'a> {
    /// The lines that weren't read yet.
    lines: &'a [u8],
    /// What isn't compared yet, none where a difference was met.
    rest: Option<&'a [u8]>,
    /// How many bytes follow the first that differs, none where the report ends before it.
    left: Option<usize>,
}

impl<'a> PutIn<'a> {
    /// Nothing was compared yet.
    pub fn of(report: &'a [u8]) -> PutIn<'a>
        ensures { (later : List (List ℕ)) → Fits result later []
            ↔ (report.now ≡ put_in later [] (plain_lines report.now)) }
    {
        PutIn {
            lines: report,
            rest: Some(report),
            left: None,
        }
    }

    /// Goes on behind the head of the next round, where this text of a journal stands before the next head; before the
    /// first round it is empty. Where there is no other round it goes on to the end, and says so.
    pub fn next_round(&mut self, journal: &[u8]) -> bool
        ensures passed { MatchBool result
            ((later : List (List ℕ)) → Fits self.old later journal.now
            ↔ Fits self.new (others_of later) (first_of later))
            ((later : List (List ℕ)) → Fits self.old later journal.now ↔ IsText (rest_of self.new) []) }
        ensures shorter { IsTrue result → length self.new.lines.now < length self.old.lines.now }
    {
        let mut held = journal;
        while let Some((line, behind)) = next_line(self.lines) {
            self.lines = behind;
            if is_journal(line) {
                continue;
            }
            let Some(more) = self.pass_plain(line, held) else {
                return true;
            };
            held = more;
        }
        self.pass(held);
        false
    }

    /// Whether the report was gone over to its end, and no difference met.
    pub fn is_whole(&self) -> bool
        ensures { IsTrue result ↔ IsText (rest_of self.now) [] }
    {
        match self.rest {
            Some(rest) => rest.is_empty(),
            None => false,
        }
    }

    /// Where it isn't whole: how many bytes of the report follow the first that differs, none where the report ends
    /// before it.
    pub fn left(&self) -> Option<usize> {
        match self.rest {
            Some(rest) => rest.len().checked_sub(1),
            None => self.left,
        }
    }

    // Goes on behind a line that is none of the journal, and behind what is held where the line is a head. It gives
    // what is held then, none behind the head of a round.
    fn pass_plain<'b>(&mut self, line: &[u8], held: &'b [u8]) -> Option<&'b [u8]>
        ensures lines { self.new.lines ≡ self.old.lines }
        ensures passed { MatchOption result
            ((later : List (List ℕ)) (lines : List Word)
            → IsText (rest_of self.old) (put_in later held.now (line.now ∷ lines))
            ↔ IsText (rest_of self.new) (put_in (others_of later) (first_of later) lines))
            (λ more. (later : List (List ℕ)) (lines : List Word)
            → IsText (rest_of self.old) (put_in later held.now (line.now ∷ lines))
            ↔ IsText (rest_of self.new) (put_in later more.now lines)) }
    {
        if is_round(line) {
            self.pass(held);
            self.pass_line(line);
            return None;
        }
        if is_close(line) {
            self.pass(held);
            self.pass_line(line);
            return Some(&[]);
        }
        self.pass_line(line);
        Some(held)
    }

    // Goes on behind the line and its newline.
    fn pass_line(&mut self, line: &[u8])
        ensures lines { self.new.lines ≡ self.old.lines }
        ensures passed { (more : List ℕ) → IsText (rest_of self.old) (as_line line.now ++ more)
            ↔ IsText (rest_of self.new) more }
    {
        self.pass(line);
        self.pass(b"\n");
    }

    // Goes on behind the text.
    fn pass(&mut self, text: &[u8])
        ensures lines { self.new.lines ≡ self.old.lines }
        ensures passed { (more : List ℕ) → IsText (rest_of self.old) (text.now ++ more)
            ↔ IsText (rest_of self.new) more }
    {
        let rest = self.rest;
        self.rest = behind(rest, text);
        self.left = left_behind(self.left, rest, self.rest, text);
    }
}

// What is left behind the text, none where something else stands there.
fn behind<'a>(rest: Option<&'a [u8]>, text: &[u8]) -> Option<&'a [u8]>
    ensures { (more : List ℕ) → IsText (option_map (λ t. t.now) rest.entry) (text.now ++ more)
        ↔ IsText (option_map (λ t. t.now) result) more }
{
    match rest {
        Some(rest) => rest.strip_prefix(text),
        None => None,
    }
}

// How many bytes follow the first that differs, where the text was the first to be met otherwise.
fn left_behind(
    left: Option<usize>,
    before: Option<&[u8]>,
    now: Option<&[u8]>,
    text: &[u8],
) -> Option<usize> {
    match (before, now) {
        (Some(rest), None) => left_of(rest, text),
        _ => left,
    }
}

// How many bytes follow the first in which this begins otherwise than with the text, none where it ends before it.
fn left_of(rest: &[u8], text: &[u8]) -> Option<usize> {
    match first_other_byte(rest, text) {
        Some(at) => rest.len().checked_sub(at + 1),
        None => None,
    }
}
