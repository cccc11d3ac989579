//! The journal of a report, round by round.
ghost use Rattle.std.specs.Prelude.{◌≡◌, ◌∷◌, ◌<◌, false, true, [], IfErr, IfOk, IfSome, MatchOption, OnErr, OnOk, length};
ghost use Rattle.std.specs.List.{list_all, list_any};
ghost use Rattle.zio_script.specs.Words.{lines_of};
ghost use Rattle.zio_types.specs.Places.{is_lawful_top};
ghost use Rattle.zio_spelled.specs.Reading.{line_onto};
ghost use Rattle.zio_spelled.specs.Rounds.{IfFaulty, IsRoundJournal, lines_before, lines_of_rounds, rounds_left};
ghost use Rattle.zio_spelled.specs.Spelled.{first_of, first_word, is_journal, is_round};

use crate::order::order_in;
use crate::parts::Parts;
use crate::take::take_in;
use std::alloc::Global;
use zio_types::{Entry, List, NoMemory, ReqNo, TopSize};

/// What the lines of a round spell.
#[derive(Drop)]
pub struct RoundJournal {
    /// The entries, in the order of their lines.
    pub entries: List<Entry>,
    /// The requests that completed, the earliest first.
    pub order: List<ReqNo>,
}

/// Why the journal of a round isn't read.
#[derive(Clone, Copy, Debug, PartialEq, Eq)]
pub enum JournalFault {
    /// A line of the journal isn't of its shape.
    Faulty,
    /// Want of memory.
    Memory,
}

/// The rounds of a report that aren't read yet.
#[derive(Clone, Copy)]
pub struct Rounds<'a> {
    /// What stands behind the head of the next round, none behind the last round.
    rest: Option<&'a [u8]>,
}

impl<'a> Rounds<'a> {
    /// All rounds of a report, none exactly where a line of the journal stands before them.
    pub fn of(text: &'a [u8]) -> Option<Rounds<'a>>
        ensures { MatchOption result
            (list_any is_journal (lines_before text.now) ≡ true)
            (λ rounds. (list_any is_journal (lines_before text.now) ≡ false)
            × (rounds_left rounds ≡ lines_of_rounds text.now)) }
    {
        let mut rest = text;
        while let Some((line, behind)) = next_line(rest) {
            if is_round(line) {
                return Some(Rounds { rest: Some(behind) });
            }
            if is_journal(line) {
                return None;
            }
            rest = behind;
        }
        Some(Rounds { rest: None })
    }

    /// The journal of the next round, which has this number; none behind the last round. The places of an entry have
    /// the sectors that its size takes on these tops. After an error the rounds are as before.
    pub fn next_round(
        &mut self,
        alloc: Global,
        tops: &[TopSize],
        round: u32,
    ) -> Result<Option<RoundJournal>, JournalFault>
        requires { list_all is_lawful_top tops.now ≡ true }
        ensures read { IfOk result (λ read. MatchOption read
            (rounds_left self.old ≡ [])
            (λ journal. (rounds_left self.old ≡ first_of (rounds_left self.old) ∷ rounds_left self.new)
            × IsRoundJournal tops.now round (first_of (rounds_left self.old)) journal)) }
        ensures fault { IfErr result (λ fault. IfFaulty fault ((journal : RoundJournal) →
            ¬ IsRoundJournal tops.now round (first_of (rounds_left self.old)) journal)) }
        ensures kept { OnErr result (self.new ≡ self.old) }
    {
        let Some(text) = self.rest else {
            return Ok(None);
        };
        let mut journal = RoundJournal {
            entries: List::new(alloc),
            order: List::new(alloc),
        };
        let mut rest = text;
        while let Some((line, behind)) = next_line(rest) {
            if is_round(line) {
                self.rest = Some(behind);
                return Ok(Some(journal));
            }
            if let Err(fault) = add_line(alloc, tops, round, line, &mut journal) {
                return Err(fault);
            }
            rest = behind;
        }
        self.rest = None;
        Ok(Some(journal))
    }
}

// What one more line spells.
fn add_line(
    alloc: Global,
    tops: &[TopSize],
    round: u32,
    line: &[u8],
    journal: &mut RoundJournal,
) -> Result<(), JournalFault>
    requires { list_all is_lawful_top tops.now ≡ true }
    ensures ok { OnOk result (line_onto tops.now round journal.old line.now ≡ Some journal.new) }
    ensures fault { IfErr result (λ fault. IfFaulty fault (line_onto tops.now round journal.old line.now ≡ None)) }
{
    match first_word(line) {
        b"take" => {
            let Some(entry) = take_in(tops, round, line) else {
                return Err(JournalFault::Faulty);
            };
            if journal.entries.push(entry).is_err() {
                return Err(JournalFault::Memory);
            }
            Ok(())
        }
        b"order" => {
            let numbers = match order_in(alloc, line) {
                Ok(Some(numbers)) => numbers,
                Ok(None) => return Err(JournalFault::Faulty),
                Err(NoMemory) => return Err(JournalFault::Memory),
            };
            match journal.order.extend_from_slice(numbers.as_slice()) {
                Ok(()) => Ok(()),
                Err(NoMemory) => Err(JournalFault::Memory),
            }
        }
        _ => Ok(()),
    }
}

// The first line of the text without its newline, and what follows it; none where the text is empty.
fn next_line(text: &[u8]) -> Option<(&[u8], &[u8])>
    ensures line { MatchOption result (text.now ≡ []) (λ p. lines_of text.now ≡ p.0.now ∷ lines_of p.1.now) }
    ensures shorter { IfSome result (λ p. length p.1.now < length text.now) }
{
    if text.is_empty() {
        return None;
    }
    match text.iter().position(|c| *c == b'\n') {
        Some(end) => Some((&text[..end], &text[end + 1..])),
        None => Some((text, &[])),
    }
}

fn first_word(line: &[u8]) -> &[u8]
    ensures { result.now ≡ first_word line.now }
{
    let mut words = Parts::of(line, b' ');
    match words.next() {
        Some(word) => word,
        None => &[],
    }
}

fn is_round(line: &[u8]) -> bool
    ensures { result ≡ is_round line.now }
{
    match first_word(line) {
        b"round" => true,
        _ => false,
    }
}

fn is_journal(line: &[u8]) -> bool
    ensures { result ≡ is_journal line.now }
{
    match first_word(line) {
        b"take" | b"order" => true,
        _ => false,
    }
}
