//! What keeps the journal of a run, one round after another.

ghost use Rattle.std.specs.Prelude.{◌≡◌, ◌++◌, ◌+◌, ◌<◌, ◌≤◌, ◌^◌, ℕ, List, OnErr, OnOk, drop, length};
ghost use Rattle.zio_types.specs.declared.journal.Journal.{Journal as SeenJournal};
ghost use Rattle.zio_types.specs.Choices.{Choice};

use crate::enter::enter_round;
use std::alloc::Global;
use zio_types::{Completion, Entry, Journal, List, NoMemory};

/// Keeps the journal of a run. A round's entries are asked for before the next round begins, and then no more; so they
/// may be let go.
pub trait Records {
    /// What was recorded so far.
    ghost seen: { Self → SeenJournal };

    /// The entries of a round of this number that may be recorded.
    ghost may: { ℕ → List Choice → Type 0 };

    /// How many entries were let go. They are the first ones.
    ghost gone: { Self → ℕ };

    /// How many rounds were recorded.
    fn rounds(&self) -> u32
        ensures { result ≡ (seen self.now).rounds };

    /// How many entries were recorded.
    fn entries(&self) -> usize
        ensures { result ≡ length (seen self.now).places };

    /// The entries behind so many, none of which was let go.
    fn entries_behind(&self, entries: usize) -> &[Entry]
        requires gone { gone self.now ≤ entries }
        requires few { entries ≤ length (seen self.now).places }
        ensures { result.now ≡ drop entries (seen self.now).places };

    /// The completions of all rounds.
    fn completions(&self) -> &[Completion]
        ensures { result.now ≡ (seen self.now).completions };

    /// Lets go of entries, or keeps them: none of those so far is asked for any more.
    fn let_go(&mut self, alloc: Global)
        ensures { seen self.new ≡ seen self.old };

    /// Counts a round that is whole, with its entries and completions behind those of the rounds before. Where memory
    /// is refused nothing of the round is recorded.
    fn enter(
        &mut self,
        alloc: Global,
        entries: List<Entry>,
        completions: List<Completion>,
    ) -> Result<(), NoMemory>
        requires rounds { (seen self.old).rounds + 1 < 2 ^ 32 }
        requires may { may ((seen self.old).rounds + 1) entries }
        ensures places { OnOk result ((seen self.new).places ≡ (seen self.old).places ++ entries) }
        ensures completions { OnOk result ((seen self.new).completions ≡ (seen self.old).completions ++ completions) }
        ensures rounds { OnOk result ((seen self.new).rounds ≡ (seen self.old).rounds + 1) }
        ensures gone { OnOk result (gone self.new ≤ length (seen self.old).places) }
        ensures err { OnErr result (seen self.new ≡ seen self.old) };
}

/// A journal keeps all that was recorded.
impl Records for Journal {
    ghost seen = { λ j. j };

    ghost may = { λ round entries. Unit {0} };

    ghost gone = { λ j. 0 };

    fn rounds(&self) -> u32 {
        self.rounds
    }

    fn entries(&self) -> usize {
        self.places.len()
    }

    fn entries_behind(&self, entries: usize) -> &[Entry] {
        &self.places.as_slice()[entries..]
    }

    fn completions(&self) -> &[Completion] {
        self.completions.as_slice()
    }

    fn let_go(&mut self, _alloc: Global) {}

    fn enter(
        &mut self,
        alloc: Global,
        entries: List<Entry>,
        completions: List<Completion>,
    ) -> Result<(), NoMemory> {
        enter_round(alloc, self, entries, completions)
    }
}
