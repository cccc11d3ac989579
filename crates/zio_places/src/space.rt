ghost use Rattle.std.specs.Prelude.{◌≡◌, ℕ, ◌+◌, ◌%◌, ◌^◌, ◌<◌, ◌≤◌, ◌↔◌, [], ◌∷◌, ◌++◌, length, max, true, false, Contains, IsTrue, IsOk, IfOk, OnOk, OnErr};
ghost use Rattle.std.specs.List.{list_all};
ghost use Rattle.zio_types.specs.Choices.{taken_by};
ghost use Rattle.zio_types.specs.Places.{HasRun, IsLawfulChoice, is_lawful_top, are_open};
ghost use Rattle.zio_places.specs.Ordered.{all_placed_in, without};
ghost use Rattle.zio_places.specs.Spaces.{SpaceState, used, are_on_tops, is_open, IsSound};

use crate::table::SectorTable;
use crate::take::{take_copies, taken_count};
use crate::tops::{
    all_on_tops, allocate_all, clear_all, has_run, has_run_on, is_live, is_on_top, is_open,
    release, release_all, remove,
};
use std::alloc::Global;
use std::marker::Model;
use std::mem;
use thiserror::Error;
use zio_types::{COPIES_MAX, Entry, Key, List, NoMemory, Place, TopSize};

/// Why no place was claimed.
#[derive(Clone, Copy, Debug, PartialEq, Eq, Error)]
pub enum ClaimFault {
    #[error("a place lies outside its top")]
    Outside,
    #[error("a place isn't free")]
    Taken,
    #[error("no memory")]
    Memory,
}

/// The space of a pool: which places are live, which are given back and wait for the end of the round, and the
/// journal of what was asked and found.
#[derive(Drop)]
pub struct Space {
    tops: Vec<SectorTable>,
    /// With room for all live places, and those of all spare entries.
    pending: Vec<Place>,
    /// With room for the spare entries.
    entries: Vec<Entry>,
    /// How many places are live.
    live: usize,
    spare: u32,
}

impl Model for Space {
    ghost use Rattle.zio_places.specs.Spaces.{SpaceState};

    ghost Value = { SpaceState };

    ghost use Rattle.std.specs.Prelude.{vec_len, vec_capacity};
    ghost use Rattle.zio_places.specs.Tables.{sizes_of, live_of};
    ghost use Rattle.zio_places.specs.Consistent.{IsConsistent};

    ghost view = { λ s. record {
      sizes = sizes_of s.tops.items;
      live = live_of s.tops.items;
      pending = s.pending.items;
      entries = s.entries.items;
      spare = s.spare;
    } };

    ghost invariant = { λ s. IsConsistent s.tops.items s.pending.items s.live s.spare
        (vec_capacity s.pending) (vec_len s.entries) (vec_capacity s.entries) };
}

impl Space {
    /// Tops of these sizes, all of them free.
    pub fn new(alloc: Global, tops: &[TopSize]) -> Result<Space, NoMemory>
        requires few { length tops.now < 2 ^ 32 }
        requires lawful { list_all is_lawful_top tops.now ≡ true }
        ensures { IfOk result (λ s. s ≡
            record { sizes = tops.now; live = []; pending = []; entries = []; spare = 0 }) }
    {
        let mut tables = Vec::new(alloc);
        for top in tops {
            tables.push(SectorTable::new(alloc, *top)?)?;
        }
        Ok(Space {
            tops: tables,
            pending: Vec::new(alloc),
            entries: Vec::new(alloc),
            live: 0,
            spare: 0,
        })
    }

    /// Makes room for so many entries, and for giving back what they take. Where there is room already it takes no
    /// memory, and after an error nothing has changed.
    pub fn reserve(&mut self, n: u32) -> Result<(), NoMemory>
        ensures ok { OnOk result (self.new ≡ record self.old { spare = max self.old.spare n }) }
        ensures enough { n ≤ self.old.spare → IsOk result }
        ensures err { OnErr result (self.new ≡ self.old) }
    {
        if n <= self.spare {
            return Ok(());
        }
        self.pending
            .reserve(self.live + COPIES_MAX as usize * n as usize)?;
        self.entries.reserve(n as usize)?;
        self.spare = n;
        Ok(())
    }

    /// Takes a place for each copy, of the whole size in bytes rounded up to whole units of its top, or none where one
    /// has no place. The entry, which says what was found, is appended to the journal. Needs no memory.
    pub fn take(&mut self, key: Key, size: u32, copies: u32) -> Entry
        requires room { 1 ≤ self.old.spare }
        requires some { 0 < size }
        requires whole { size % 512 ≡ 0 }
        requires one { 1 ≤ copies }
        requires most { copies ≤ COPIES_MAX }
        ensures asked { result.asked ≡ record { key = key; size = size; copies = copies } }
        ensures lawful { IsLawfulChoice self.old.sizes (used self.old) result }
        ensures live { self.new.live ≡ all_placed_in (taken_by result) self.old.live }
        ensures sizes { self.new.sizes ≡ self.old.sizes }
        ensures pending { self.new.pending ≡ self.old.pending }
        ensures entries { self.new.entries ≡ self.old.entries ++ result ∷ [] }
        ensures spare { self.new.spare + 1 ≡ self.old.spare }
        ensures sound { IsSound self.new }
    {
        let entry = take_copies(&mut self.tops, key, size, copies);
        self.live += taken_count(&entry) as usize;
        self.spare -= 1;
        self.entries.push_reserved(entry.copy());
        entry
    }

    /// A live place waits for the end of the round. Needs no memory.
    pub fn give_back(&mut self, place: Place)
        requires { Contains self.old.live place }
        ensures live { self.new.live ≡ without place self.old.live }
        ensures pending { self.new.pending ≡ self.old.pending ++ place ∷ [] }
        ensures sizes { self.new.sizes ≡ self.old.sizes }
        ensures entries { self.new.entries ≡ self.old.entries }
        ensures spare { self.new.spare ≡ self.old.spare }
        ensures sound { IsSound self.new }
    {
        remove(&mut self.tops, place);
        self.live -= 1;
        self.pending.push_reserved(place);
    }

    /// The place was taken or claimed, and not given back.
    pub fn is_live(&self, place: &Place) -> bool
        ensures live { IsTrue result ↔ Contains self.now.live place.now }
        ensures sound { IsSound self.now }
    {
        is_live(&self.tops, place)
    }

    /// The place lies inside its top on whole units, and none of its sectors is one of a live or pending place.
    pub fn is_open(&self, place: &Place) -> bool
        ensures { result ≡ is_open self.now place.now }
    {
        is_on_top(&self.tops, place) && is_open(&self.tops, place)
    }

    /// Some top has a free run for a size in bytes: a place there for `size / 512` sectors, rounded up to whole units
    /// of the top, would be open.
    pub fn has_run(&self, size: u32) -> bool
        ensures { IsTrue result ↔ ((top : ℕ) × HasRun self.now.sizes (used self.now) top size) }
    {
        has_run(&self.tops, size)
    }

    /// This top has one. There is none on a top that doesn't exist.
    pub fn has_run_on(&self, top: u32, size: u32) -> bool
        ensures { IsTrue result ↔ HasRun self.now.sizes (used self.now) top size }
    {
        has_run_on(&self.tops, top, size)
    }

    /// A live place is free at once, as the places that were found for an entry are where it is refused. Needs no
    /// memory.
    pub fn release(&mut self, place: Place)
        requires { Contains self.old.live place }
        ensures same { self.new ≡ record self.old { live = without place self.old.live } }
        ensures open { is_open self.new place ≡ true }
        ensures sound { IsSound self.new }
    {
        release(&mut self.tops, place);
        self.live -= 1;
    }

    /// Pending places are free. Needs no memory.
    pub fn close_round(&mut self)
        ensures pending { self.new.pending ≡ [] }
        ensures same { self.new ≡ record self.old { pending = [] } }
        ensures sound { IsSound self.new }
    {
        clear_all(&mut self.tops, &self.pending);
        self.pending.clear();
    }

    /// Makes the places live, or none of them where one lies outside its top or not on whole units of it, isn't free
    /// or meets another, or where there is no memory to give them all back.
    pub fn claim(&mut self, places: &[Place]) -> Result<(), ClaimFault>
        ensures ok { OnOk result
            (self.new ≡ record self.old { live = all_placed_in places.now self.old.live }) }
        ensures outside { (result ≡ Err ClaimFault.Outside) ↔
            (are_on_tops self.old.sizes places.now ≡ false) }
        ensures taken { (result ≡ Err ClaimFault.Taken) ↔
            ((are_on_tops self.old.sizes places.now ≡ true)
            × (are_open (used self.old) places.now ≡ false)) }
        ensures err { OnErr result (self.new ≡ self.old) }
        ensures sound { IsSound self.new }
    {
        if !all_on_tops(&self.tops, places) {
            return Err(ClaimFault::Outside);
        }
        if !allocate_all(&mut self.tops, places) {
            return Err(ClaimFault::Taken);
        }
        let room = self.live + COPIES_MAX as usize * self.spare as usize + places.len();
        match self.pending.reserve(room) {
            Ok(()) => {
                self.live += places.len();
                Ok(())
            }
            Err(_) => {
                release_all(&mut self.tops, places);
                Err(ClaimFault::Memory)
            }
        }
    }

    /// The journal's entries since they were last taken out.
    pub fn entries(&self) -> &[Entry]
        ensures { result.now ≡ self.now.entries }
    {
        self.entries.as_slice()
    }

    /// Takes the entries out of the journal, with their room: nothing is spare after it. Needs no memory.
    pub fn take_entries(&mut self) -> List<Entry>
        ensures entries { result ≡ self.old.entries }
        ensures same { self.new ≡ record self.old { entries = []; spare = 0 } }
    {
        let alloc = *self.entries.allocator();
        let entries = mem::replace(&mut self.entries, Vec::new(alloc));
        self.spare = 0;
        List::from_vec(entries)
    }
}
