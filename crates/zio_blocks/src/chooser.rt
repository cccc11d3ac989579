ghost use Rattle.std.specs.Prelude.{◌≡◌, ◌↔◌, ◌∷◌, ◌++◌, [], ℕ, ◌%◌, ◌<◌, ◌≤◌, List, Contains, Err, IfOk, OnErr, OnOk, true, false};
ghost use Rattle.std.specs.List.{AllByRecursion};
ghost use Rattle.zio_types.specs.Choices.{Choice, taken_by};
ghost use Rattle.zio_types.specs.Places.{SamePlaces, are_apart, are_open};
ghost use Rattle.zio_types.specs.declared.place.Place.{Place};
ghost use Rattle.zio_types.specs.declared.place.TopSize.{TopSize};
ghost use Rattle.zio_places.specs.Spaces.{are_on_tops, used};
ghost use Rattle.zio_gang.specs.Journals.{AreLawful};
ghost use Rattle.zio_blocks.specs.Choosers.{AreHeld, AreLeft, Continues, EntryLaw, GivesEntries, GivesOpen, HoldsOfNone};

use std::alloc::Global;
use zio_places::{ClaimFault, Space};
use zio_types::{COPIES_MAX, Entry, Key, List, NoMemory, Place};

/// Why no place was claimed.
#[derive(Clone, Copy, Debug, PartialEq, Eq)]
pub enum Unclaimed {
    /// Two of the places meet, or one isn't free.
    Taken,
    /// Want of memory.
    Memory,
}

/// Where blocks are placed. What its entries meet beside the places in use, one after another, is a chooser's own:
/// those of a space are lawful in the order of its asks, and those that were recorded may be lawful in another order.
pub trait Chooser {
    /// The sectors and the unit of each top.
    ghost sizes: { Self → List TopSize };

    /// The places that aren't free: the live ones, and those that were given back in this round.
    ghost used: { Self → List Place };

    /// The places that were taken or claimed, and not given back.
    ghost live: { Self → List Place };

    /// What entries meet that are given one after another, beside the places that are in use before them.
    ghost lawful: { EntryLaw };

    /// The entries that it gave since the last end of a round.
    ghost given: { Self → List Choice };

    /// Places so many copies of a size in bytes. Where memory is refused nothing has changed.
    fn choose(&mut self, key: Key, size: u32, copies: u32) -> Result<Entry, NoMemory>
        requires some { 0 < size }
        requires whole { size % 512 ≡ 0 }
        requires one { 1 ≤ copies }
        requires most { copies ≤ COPIES_MAX }
        ensures asked { IfOk result (λ entry. entry.asked ≡ record { key = key; size = size; copies = copies }) }
        ensures lawful { IfOk result (λ entry. lawful (sizes self.old) (used self.old) (entry ∷ [])) }
        ensures used { IfOk result (λ entry. SamePlaces (used self.new) (taken_by entry ++ used self.old)) }
        ensures live { IfOk result (λ entry. SamePlaces (live self.new) (taken_by entry ++ live self.old)) }
        ensures given { IfOk result (λ entry. given self.new ≡ given self.old ++ entry ∷ []) }
        ensures held { OnOk result (AreHeld (sizes self.new) (used self.new) (live self.new)) }
        ensures sizes { sizes self.new ≡ sizes self.old }
        ensures err { OnErr result ((used self.new ≡ used self.old) × (live self.new ≡ live self.old)
            × (given self.new ≡ given self.old)) };

    /// Live places wait for the end of the round. Needs no memory.
    fn give_back(&mut self, places: &[Place])
        requires live { AllByRecursion (Contains (live self.old)) places.now }
        requires apart { are_apart places.now ≡ true }
        ensures live { AreLeft (live self.old) places.now (live self.new) }
        ensures used { SamePlaces (used self.new) (used self.old) }
        ensures held { AreHeld (sizes self.old) (used self.old) (live self.old)
            → AreHeld (sizes self.new) (used self.new) (live self.new) }
        ensures given { given self.new ≡ given self.old }
        ensures sizes { sizes self.new ≡ sizes self.old };

    /// Makes the places live, which lie on their tops, or none of them where two meet or one isn't free, or for want of
    /// memory.
    fn claim(&mut self, places: &[Place]) -> Result<(), Unclaimed>
        requires inside { are_on_tops (sizes self.old) places.now ≡ true }
        ensures live { OnOk result (SamePlaces (live self.new) (places.now ++ live self.old)) }
        ensures used { OnOk result (SamePlaces (used self.new) (places.now ++ used self.old)) }
        ensures taken { (result ≡ Err Unclaimed.Taken) ↔ (are_open (used self.old) places.now ≡ false) }
        ensures held { OnOk result (AreHeld (sizes self.new) (used self.new) (live self.new)) }
        ensures err { OnErr result ((used self.new ≡ used self.old) × (live self.new ≡ live self.old)) }
        ensures given { given self.new ≡ given self.old }
        ensures sizes { sizes self.new ≡ sizes self.old };

    /// What was given back is free. It gives the entries of the round. Needs no memory.
    fn end_round(&mut self) -> List<Entry>
        ensures entries { result ≡ given self.old }
        ensures given { given self.new ≡ [] }
        ensures live { live self.new ≡ live self.old }
        ensures used { SamePlaces (used self.new) (live self.new) }
        ensures held { AreHeld (sizes self.new) (used self.new) (live self.new) }
        ensures sizes { sizes self.new ≡ sizes self.old };

    ghost lawful_none: { HoldsOfNone lawful };

    ghost lawful_then: { Continues lawful };

    ghost lawful_found: { GivesEntries lawful };

    ghost lawful_open: { GivesOpen lawful };
}

/// A chooser whose entries are lawful in the order of its asks.
pub trait LawfulChooser: Chooser {
    ghost are_lawful: { (tops : List TopSize) (before : List Place) (entries : List Choice) →
        Self.lawful tops before entries →
        AreLawful tops before entries };
}

impl LawfulChooser for Space {
    ghost are_lawful = { λ tops before entries h. h };
}

impl Chooser for Space {
    ghost sizes = { λ s. s.sizes };

    ghost used = { λ s. used s };

    ghost live = { λ s. s.live };

    ghost lawful = { AreLawful };

    ghost given = { λ s. s.entries };

    fn choose(&mut self, key: Key, size: u32, copies: u32) -> Result<Entry, NoMemory> {
        self.reserve(1)?;
        Ok(self.take(key, size, copies))
    }

    fn give_back(&mut self, places: &[Place]) {
        for place in places {
            prove!(self.is_live(place));
            self.give_back(*place);
        }
    }

    fn claim(&mut self, places: &[Place]) -> Result<(), Unclaimed> {
        match self.claim(places) {
            Ok(()) => Ok(()),
            Err(ClaimFault::Memory) => Err(Unclaimed::Memory),
            Err(ClaimFault::Outside | ClaimFault::Taken) => Err(Unclaimed::Taken),
        }
    }

    fn end_round(&mut self) -> List<Entry> {
        self.close_round();
        self.take_entries()
    }

    ghost use Rattle.zio_blocks.specs.EntryLaws.{found_all, lawful_then, taken_open};

    ghost lawful_none = { λ tops before. tt };

    ghost lawful_then = { λ tops before now entries more h same k. lawful_then tops before now entries more h same k };

    ghost lawful_found = { λ tops before entries h. found_all tops before entries h };

    ghost lawful_open = { λ tops before entries h. taken_open tops before entries h };
}
