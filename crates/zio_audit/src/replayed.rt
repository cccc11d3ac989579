//! A chooser of places for all rounds of a run, which answers by the entries that a report spells.
ghost use Rattle.std.specs.Prelude.{◌≡◌, ◌++◌, ◌∷◌, ◌↔◌, ◌<◌, ◌^◌, ◌≤◌, [], IfOk, IsErrOf, IsTrue, List as Seq, MatchOption, OnErr, OnOk, length, option_copied, true};
ghost use Rattle.std.specs.List.{AllByRecursion, list_all};
ghost use Rattle.zio_types.specs.declared.place.Place.{Place as SeenPlace};
ghost use Rattle.zio_types.specs.Places.{is_lawful_top};
ghost use Rattle.zio_gang.specs.Journals.{HaveDistinctKeys, asks_of};
ghost use Rattle.zio_places.specs.Spaces.{IsSound, used};
ghost use Rattle.zio_spelled.specs.declared.rounds.RoundJournal.{RoundJournal as SeenJournal};
ghost use Rattle.zio_audit.specs.Replays.{IsReplied, MatchEntries, MayBeChoices, entries_in, has_entry, recorded_for};

use crate::index::{Name, entry_among, entry_for, index_of};
use crate::journals::{Journals, Numbered};
use crate::judge::are_lawful;
use crate::taking::{answer_of, take_found};
use std::alloc::Global;
use std::collections::BTreeMap;
use std::marker::{Brand, Model, PhantomData};
use std::mem;
use zio_blocks::{Chooser, Unclaimed};
use zio_places::Space;
use zio_plain::EntriesFault;
use zio_types::{Entry, Key, List, NoMemory, Place, TopSize};

/// What a report spells of each round. Whoever replays a run picks it.
pub trait Spelled {
    ghost journals: { Seq SeenJournal };
}

impl Spelled for Brand {
    ghost journals = { [] };
}

// The entries of one round, and where each stands. Contracts see the number of the round and its entries.
#[derive(Drop)]
struct OfRound {
    number: u32,
    all: List<Entry>,
    index: BTreeMap<Name, usize>,
}

impl Model for OfRound {
    ghost use Rattle.zio_audit.specs.ReplayIndex.{IsIndexed, SeenRound};

    ghost Value = { SeenRound };

    ghost view = { λ r. record { number = r.number; all = r.all } };

    ghost invariant = { λ r. IsIndexed r.all r.index.entries };
}

impl OfRound {
    // None exactly where a key stands twice.
    fn of(alloc: Global, number: u32, all: List<Entry>) -> Result<Option<OfRound>, NoMemory>
        ensures { IfOk result (λ made. MatchOption made
            (¬ HaveDistinctKeys (asks_of all))
            (λ of. HaveDistinctKeys (asks_of all) × (of ≡ record { number = number; all = all }))) }
    {
        match index_of(alloc, all.as_slice())? {
            Some(index) => Ok(Some(OfRound { number, all, index })),
            None => Ok(None),
        }
    }

    fn is_of(&self, number: u32) -> bool
        ensures { IsTrue result ↔ (self.now.number ≡ number) }
    {
        self.number == number
    }

    fn entries(&self) -> &[Entry]
        ensures { result.now ≡ self.now.all }
    {
        self.all.as_slice()
    }

    // The entry for an ask, if there is one.
    fn entry_for(&self, key: &Key, size: u32, copies: u32) -> Option<&Entry>
        ensures { option_copied result ≡ recorded_for self.now.all
            (record { key = key.now; size = size; copies = copies }) }
    {
        entry_for(&self.index, self.all.as_slice(), key, size, copies)
    }

    fn has_entry(&self, given: &Entry) -> bool
        ensures { result ≡ has_entry self.now.all given.now }
    {
        self.entry_for(&given.key, given.size, given.copies)
            .is_some()
    }

    fn have_entries(&self, given: &[Entry]) -> bool
        ensures { result ≡ list_all (has_entry self.now.all) given.now }
    {
        given.iter().all(|entry| self.has_entry(entry))
    }

    // Whether these are as many as the entries, and each has an entry.
    fn match_given(&self, given: &[Entry]) -> bool
        ensures { IsTrue result ↔ MatchEntries self.now.all given.now }
    {
        given.len() == self.all.len() && self.have_entries(given)
    }
}

/// Answers the asks of all rounds by the entries that a report spells of them, in whatever order they are asked for. It
/// holds the entries of one round. Contracts see it as the space on which places are claimed, and the answers of the
/// round so far.
#[derive(Drop)]
pub struct Replayed<'a, K: Spelled> {
    alloc: Global,
    space: Space,
    tops: &'a [TopSize],
    journals: Numbered<'a>,
    /// The round that was begun last.
    of_round: Option<OfRound>,
    given: Vec<Entry>,
    of: PhantomData<K>,
}

impl<'a, K: Spelled> Model for Replayed<'a, K> {
    ghost use Rattle.std.specs.Prelude.{◌≡◌};
    ghost use Rattle.zio_audit.specs.Replays.{SeenReplayed};
    ghost use Rattle.zio_audit.specs.ReplayIndex.{IsKeptReplay};

    ghost Value = { SeenReplayed };

    ghost view = { λ r. record { space = r.space; given = r.given.items } };

    ghost invariant = { λ r. IsKeptReplay K.journals r.journals r.space r.tops.now r.of_round };
}

impl<'a, K: Spelled> Replayed<'a, K> {
    /// On these tops, which are all free.
    pub fn new(
        alloc: Global,
        tops: &'a [TopSize],
        journals: Journals<'a>,
    ) -> Result<Replayed<'a, K>, NoMemory>
        requires journals { journals ≡ K.journals }
        requires few { length tops.now < 2 ^ 32 }
        requires lawful { list_all is_lawful_top tops.now ≡ true }
        ensures { IfOk result (λ made. made ≡ record {
          space = record { sizes = tops.now; live = []; pending = []; entries = []; spare = 0 };
          given = [];
        }) }
    {
        let mut space = Space::new(alloc, tops)?;
        space.close_round();
        Ok(Replayed {
            alloc,
            space,
            tops,
            journals: Numbered::of(journals),
            of_round: None,
            given: Vec::new(alloc),
            of: PhantomData,
        })
    }

    // The entry of this round for an ask, if there is one.
    fn entry_in(
        &self,
        round: u32,
        key: &Key,
        size: u32,
        copies: u32,
    ) -> Result<Option<Entry>, NoMemory>
        ensures { IfOk result (λ entry. entry ≡ recorded_for (entries_in K.journals round)
            (record { key = key.now; size = size; copies = copies })) }
    {
        if let Some(of) = &self.of_round {
            if of.is_of(round) {
                return Ok(copied_entry(of.entry_for(key, size, copies)));
            }
        }
        let entries = self.journals.entries_again(self.alloc, round)?;
        Ok(copied_entry(entry_among(entries.as_slice(), key, size, copies)))
    }

    /// Answers an ask with its round's entry under its key, where size and copies are the same too, each of its places
    /// may hold a copy, and what it takes is open; then this is in use. Any other ask is refused without places. Where
    /// memory is refused nothing has changed.
    pub fn answer(&mut self, key: Key, size: u32, copies: u32) -> Result<Entry, NoMemory>
        ensures answered { IfOk result (λ entry. IsReplied K.journals self.old
            (record { key = key; size = size; copies = copies }) entry self.new) }
        ensures err { OnErr result (self.new ≡ self.old) }
        ensures sound { IsSound self.new.space }
    {
        self.given.reserve(1)?;
        let recorded = self.entry_in(key.round, &key, size, copies)?;
        let taken = take_found(&mut self.space, self.tops, recorded.as_ref())?;
        let entry = answer_of(taken, key, size, copies);
        self.given.push_reserved(entry.copy());
        Ok(entry)
    }

    /// Begins a round: its entries are strange where they can't be choices beside the places in use. Those of the round
    /// before are let go.
    pub(crate) fn begin_round(&mut self, round: u32) -> Result<(), EntriesFault>
        ensures may { OnOk result (MayBeChoices self.old.space.sizes (used self.old.space)
            (entries_in K.journals round)) }
        ensures strange { IsErrOf result EntriesFault.Strange
            → ¬ MayBeChoices self.old.space.sizes (used self.old.space) (entries_in K.journals round) }
        ensures same { OnOk result (self.new ≡ self.old) }
    {
        self.of_round = None;
        let entries = match self.journals.entries_of(self.alloc, round) {
            Ok(entries) => entries,
            Err(NoMemory) => return Err(EntriesFault::Memory),
        };
        match are_lawful(&mut self.space, self.tops, entries.as_slice()) {
            Ok(true) => {}
            Ok(false) => return Err(EntriesFault::Strange),
            Err(NoMemory) => return Err(EntriesFault::Memory),
        }
        match OfRound::of(self.alloc, round, entries) {
            Ok(Some(of)) => {
                self.of_round = Some(of);
                Ok(())
            }
            Ok(None) => Err(EntriesFault::Strange),
            Err(NoMemory) => Err(EntriesFault::Memory),
        }
    }

    /// The entries of a round in which these answers were given: strange where it gave another number of answers, or
    /// one without an entry.
    pub(crate) fn entries_for(
        &self,
        round: u32,
        given: List<Entry>,
    ) -> Result<List<Entry>, EntriesFault>
        ensures entries { IfOk result (λ its. (its ≡ entries_in K.journals round)
            × MatchEntries (entries_in K.journals round) given) }
        ensures strange { IsErrOf result EntriesFault.Strange → ¬ MatchEntries (entries_in K.journals round) given }
    {
        if let Some(of) = &self.of_round {
            if of.is_of(round) {
                return matched(self.alloc, of, given);
            }
        }
        match self.journals.entries_again(self.alloc, round) {
            Ok(entries) => matched_among(entries, given.as_slice()),
            Err(NoMemory) => Err(EntriesFault::Memory),
        }
    }
}

// The entries of the round, where these match them.
fn matched(alloc: Global, of: &OfRound, given: List<Entry>) -> Result<List<Entry>, EntriesFault>
    ensures entries { IfOk result (λ its. (its ≡ of.now.all) × MatchEntries of.now.all given) }
    ensures strange { IsErrOf result EntriesFault.Strange → ¬ MatchEntries of.now.all given }
{
    if !of.match_given(given.as_slice()) {
        return Err(EntriesFault::Strange);
    }
    // What was given isn't needed any more, so the entries take its place.
    drop(given);
    match copied(alloc, of.entries()) {
        Ok(entries) => Ok(entries),
        Err(NoMemory) => Err(EntriesFault::Memory),
    }
}

// The same of a round that wasn't begun last, which is never asked for in a run.
fn matched_among(entries: List<Entry>, given: &[Entry]) -> Result<List<Entry>, EntriesFault>
    ensures entries { IfOk result (λ its. (its ≡ entries) × MatchEntries entries given.now) }
    ensures strange { IsErrOf result EntriesFault.Strange → ¬ MatchEntries entries given.now }
{
    if match_among(entries.as_slice(), given) {
        Ok(entries)
    } else {
        Err(EntriesFault::Strange)
    }
}

fn match_among(entries: &[Entry], given: &[Entry]) -> bool
    ensures { IsTrue result ↔ MatchEntries entries.now given.now }
{
    given.len() == entries.len() && have_among(entries, given)
}

fn have_among(entries: &[Entry], given: &[Entry]) -> bool
    ensures { result ≡ list_all (has_entry entries.now) given.now }
{
    given.iter().all(|entry| has_among(entries, entry))
}

fn has_among(entries: &[Entry], given: &Entry) -> bool
    ensures { result ≡ has_entry entries.now given.now }
{
    entry_among(entries, &given.key, given.size, given.copies).is_some()
}

fn copied(alloc: Global, entries: &[Entry]) -> Result<List<Entry>, NoMemory>
    ensures { IfOk result (λ copy. copy ≡ entries.now) }
{
    let mut copy = List::new(alloc);
    for entry in entries {
        copy.push(entry.copy())?;
    }
    Ok(copy)
}

fn copied_entry(entry: Option<&Entry>) -> Option<Entry>
    ensures { result ≡ option_copied entry.entry }
{
    match entry {
        Some(entry) => Some(entry.copy()),
        None => None,
    }
}

impl<'a, K: Spelled> Chooser for Replayed<'a, K> {
    ghost use Rattle.zio_places.specs.Spaces.{used};
    ghost use Rattle.zio_audit.specs.Replays.{AreReplayed};

    ghost sizes = { λ r. r.space.sizes };

    ghost used = { λ r. used r.space };

    ghost live = { λ r. r.space.live };

    ghost lawful = { AreReplayed K.journals };

    ghost given = { λ r. r.given };

    fn choose(&mut self, key: Key, size: u32, copies: u32) -> Result<Entry, NoMemory> {
        self.answer(key, size, copies)
    }

    fn give_back(&mut self, places: &[Place]) {
        Chooser::give_back(&mut self.space, places);
    }

    fn claim(&mut self, places: &[Place]) -> Result<(), Unclaimed> {
        Chooser::claim(&mut self.space, places)
    }

    fn end_round(&mut self) -> List<Entry> {
        self.space.close_round();
        let alloc = *self.given.allocator();
        List::from_vec(mem::replace(&mut self.given, Vec::new(alloc)))
    }

    ghost use Rattle.std.proofs.Common.{refl};
    ghost use Rattle.zio_audit.specs.ReplayLaws.{replayed_then};

    ghost lawful_none = { λ tops before. record { found = record { each = tt; free = refl }; replies = tt } };

    ghost lawful_then = { λ tops before now entries more h same k.
        replayed_then K.journals tops before now entries more h same k };

    ghost lawful_found = { λ tops before entries h. h.found.each };

    ghost lawful_open = { λ tops before entries h. h.found.free };
}
