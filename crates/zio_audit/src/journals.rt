//! What a report spells of its rounds, read one round after another.
ghost use Rattle.std.specs.Prelude.{◌≡◌, ◌≤◌, ◌<◌, ◌^◌, ◌+◌, ◌∷◌, [], IfOk, List as Seq, MatchOption, OnErr, OnOk, drop, length, slice_get, true};
ghost use Rattle.std.specs.List.{list_all};
ghost use Rattle.zio_types.specs.Places.{is_lawful_top};
ghost use Rattle.zio_spelled.specs.Rounds.{IsSpelled};
ghost use Rattle.zio_spelled.specs.declared.count.TheConstants.{REPORT_LEN_MAX};
ghost use Rattle.zio_spelled.specs.declared.rounds.RoundJournal.{RoundJournal as SeenJournal};
ghost use Rattle.zio_audit.specs.Replays.{entries_if, entries_in};

use std::alloc::Global;
use std::marker::Model;
use zio_spelled::{JournalFault, RoundJournal, Rounds};
use zio_types::{Entry, List, NoMemory, TopSize};

/// What a report spells of each round. A round is read where it stands in the report, and nothing of it is kept.
/// Contracts see the journals of the rounds that aren't read yet.
#[derive(Drop)]
pub struct Journals<'a> {
    tops: &'a [TopSize],
    rounds: Rounds<'a>,
    /// How many rounds were read.
    read: u32,
}

impl<'a> Model for Journals<'a> {
    ghost use Rattle.std.specs.Prelude.{◌+◌, List};
    ghost use Rattle.zio_spelled.specs.Rounds.{rounds_left};
    ghost use Rattle.zio_spelled.specs.declared.rounds.RoundJournal.{RoundJournal as SeenJournal};
    ghost use Rattle.zio_audit.specs.Journals.{AreKept, journals_from};

    ghost Value = { List SeenJournal };

    ghost view = { λ j. journals_from j.tops.now (j.read + 1) (rounds_left j.rounds) };

    ghost invariant = { λ j. AreKept j.tops.now j.read (rounds_left j.rounds) };
}

impl<'a> Journals<'a> {
    /// All that a report spells, which spells a journal on these tops.
    pub fn of(tops: &'a [TopSize], report: &'a [u8]) -> Journals<'a>
        requires lawful { list_all is_lawful_top tops.now ≡ true }
        requires short { length report.now ≤ REPORT_LEN_MAX }
        requires spelled { (journals : Seq SeenJournal) × IsSpelled tops.now report.now journals }
        ensures { (journals : Seq SeenJournal) → IsSpelled tops.now report.now journals → result ≡ journals }
    {
        match Rounds::of(report) {
            Some(rounds) => Journals {
                tops,
                rounds,
                read: 0,
            },
            None => unreachable!(),
        }
    }

    /// The same once more.
    pub fn again(&self) -> Journals<'a>
        ensures { result ≡ self.now }
    {
        Journals {
            tops: self.tops,
            rounds: self.rounds,
            read: self.read,
        }
    }

    /// What the next round spells, none behind the last.
    pub fn next(&mut self, alloc: Global) -> Result<Option<RoundJournal>, NoMemory>
        ensures next { IfOk result (λ next. MatchOption next
            ((self.old ≡ []) × (self.new ≡ []))
            (λ journal. self.old ≡ journal ∷ self.new)) }
        ensures err { OnErr result (self.new ≡ self.old) }
        ensures few { length self.old < 2 ^ 32 }
    {
        let mut rounds = self.rounds;
        match rounds.next_round(alloc, self.tops, self.read + 1) {
            Ok(Some(journal)) => {
                self.rounds = rounds;
                self.read += 1;
                Ok(Some(journal))
            }
            Ok(None) => Ok(None),
            Err(JournalFault::Memory) => Err(NoMemory),
            Err(JournalFault::Faulty) => unreachable!(),
        }
    }

    /// Goes on behind so many rounds, or behind the last.
    pub fn skip(&mut self, alloc: Global, rounds: u32) -> Result<(), NoMemory>
        ensures { OnOk result (self.new ≡ drop rounds self.old) }
    {
        let mut left = rounds;
        while left > 0 {
            if self.next(alloc)?.is_none() {
                return Ok(());
            }
            left -= 1;
        }
        Ok(())
    }
}

/// What a report spells of each round, for whoever asks by the numbers of the rounds. Where they rise, each is read
/// once. Contracts see the journals of all rounds.
#[derive(Drop)]
pub(crate) struct Numbered<'a> {
    all: Journals<'a>,
    /// Behind the rounds that were read.
    ahead: Journals<'a>,
    /// How many these are.
    read: u32,
}

impl<'a> Model for Numbered<'a> {
    ghost use Rattle.std.specs.Prelude.{◌≡◌, List, drop};
    ghost use Rattle.zio_spelled.specs.declared.rounds.RoundJournal.{RoundJournal as SeenJournal};

    ghost Value = { List SeenJournal };

    ghost view = { λ n. n.all };

    ghost invariant = { λ n. n.ahead ≡ drop n.read n.all };
}

impl<'a> Numbered<'a> {
    pub(crate) fn of(journals: Journals<'a>) -> Numbered<'a>
        ensures { result ≡ journals.entry }
    {
        Numbered {
            ahead: journals.again(),
            all: journals,
            read: 0,
        }
    }

    /// The entries of the round with this number, which is taken as read.
    pub(crate) fn entries_of(&mut self, alloc: Global, round: u32) -> Result<List<Entry>, NoMemory>
        ensures entries { IfOk result (λ entries. entries ≡ entries_in self.old round) }
        ensures same { self.new ≡ self.old }
    {
        let at = round.saturating_sub(1);
        let (mut ahead, read) = self.before(at);
        let entries = entries_behind(alloc, &mut ahead, at - read)?;
        self.ahead = ahead;
        self.read = at + 1;
        Ok(entries)
    }

    /// The same, sought from the first round on.
    pub(crate) fn entries_again(&self, alloc: Global, round: u32) -> Result<List<Entry>, NoMemory>
        ensures { IfOk result (λ entries. entries ≡ entries_in self.now round) }
    {
        let mut all = self.all.again();
        entries_behind(alloc, &mut all, round.saturating_sub(1))
    }

    // The journals behind so many rounds or fewer, and behind how many.
    fn before(&self, rounds: u32) -> (Journals<'a>, u32)
        ensures few { result.1 ≤ rounds }
        ensures journals { result.0 ≡ drop result.1 self.now }
    {
        if self.read <= rounds {
            (self.ahead.again(), self.read)
        } else {
            (self.all.again(), 0)
        }
    }
}

// The entries of the round behind so many others, and what follows it is left.
fn entries_behind(
    alloc: Global,
    journals: &mut Journals<'_>,
    rounds: u32,
) -> Result<List<Entry>, NoMemory>
    ensures { IfOk result (λ entries. (entries ≡ entries_if (slice_get journals.old rounds))
        × (journals.new ≡ drop (rounds + 1) journals.old)) }
{
    journals.skip(alloc, rounds)?;
    match journals.next(alloc)? {
        Some(journal) => Ok(journal.entries),
        None => Ok(List::new(alloc)),
    }
}
