//! The journal of a run by the entries that a report spells, of which one round's are held.

ghost use Rattle.std.specs.Prelude.{◌≡◌};
ghost use Rattle.zio_report.specs.Meanings.{IsEmptyJournal};

use crate::replayed::Spelled;
use std::alloc::Global;
use std::marker::{Model, PhantomData};
use zio_course::{Records, enter_round};
use zio_types::{Completion, Entry, Journal, List, NoMemory};

/// Keeps the journal of a run whose rounds have the entries that a report spells of them. These are in the report, so
/// what was let go of them needn't be held to be known. Contracts see the whole journal.
#[derive(Drop)]
pub(crate) struct SpelledSoFar<K: Spelled> {
    /// The rounds and completions so far, and the entries that weren't let go.
    kept: Journal,
    /// How many entries were recorded.
    entries: usize,
    of: PhantomData<K>,
}

impl<K: Spelled> Model for SpelledSoFar<K> {
    ghost use Rattle.std.specs.Prelude.{◌-◌, length};
    ghost use Rattle.zio_audit.specs.SoFar.{AreHeld, SeenSoFar, entries_upto};

    ghost Value = { SeenSoFar };

    ghost view = { λ s. record {
      journal = record {
        places = entries_upto K.journals s.kept.rounds;
        completions = s.kept.completions;
        rounds = s.kept.rounds;
      };
      gone = s.entries - length s.kept.places;
    } };

    ghost invariant = { λ s. AreHeld (entries_upto K.journals s.kept.rounds) s.entries s.kept.places };
}

impl<K: Spelled> SpelledSoFar<K> {
    /// Before the first round.
    pub(crate) fn new(alloc: Global) -> SpelledSoFar<K>
        ensures { IsEmptyJournal result.journal }
    {
        SpelledSoFar {
            kept: Journal::new(alloc),
            entries: 0,
            of: PhantomData,
        }
    }
}

impl<K: Spelled> Records for SpelledSoFar<K> {
    ghost use Rattle.zio_audit.specs.Replays.{AreSpelledIn};

    ghost seen = { λ s. s.journal };

    ghost may = { AreSpelledIn K.journals };

    ghost gone = { λ s. s.gone };

    fn rounds(&self) -> u32 {
        self.kept.rounds
    }

    fn entries(&self) -> usize {
        self.entries
    }

    fn entries_behind(&self, entries: usize) -> &[Entry] {
        let held = self.kept.places.as_slice();
        &held[entries - (self.entries - held.len())..]
    }

    fn completions(&self) -> &[Completion] {
        self.kept.completions.as_slice()
    }

    fn let_go(&mut self, alloc: Global) {
        self.kept.places = List::new(alloc);
    }

    fn enter(
        &mut self,
        alloc: Global,
        entries: List<Entry>,
        completions: List<Completion>,
    ) -> Result<(), NoMemory> {
        let Some(all) = self.entries.checked_add(entries.len()) else {
            return Err(NoMemory);
        };
        enter_round(alloc, &mut self.kept, entries, completions)?;
        self.entries = all;
        Ok(())
    }
}
