ghost use Rattle.std.specs.Prelude.{◌≡◌, ◌<◌, []};
ghost use Rattle.zio_types.specs.Paths.{child_path};

use crate::{Errno, List, Place, ReqNo};
use std::alloc::Global;
use std::marker::Model;

/// What a place is asked for.
#[derive(Clone, Copy, Debug, PartialEq, Eq)]
pub enum Role {
    /// A block's bytes.
    Body,
    /// A gang's header.
    Head,
}

/// The way from a block to a gang member under it: the members' numbers, outermost first.
#[derive(Clone, Copy, Debug, PartialEq, Eq)]
pub struct Path {
    pub len: u32,
    /// Zeros from `len` on.
    pub steps: [u8; 8],
}

impl Model for Path {
    ghost use Rattle.std.specs.Prelude.{List, ℕ, take, length};
    ghost use mathlib.Core.Path.{sym};
    ghost use Rattle.zio_types.specs.Filled.{IsFilled, filled_to, length-take-filled};

    ghost Value = { List ℕ };

    ghost view = { λ p. take p.len p.steps };

    ghost invariant = { λ p. IsFilled 0 8 p.len p.steps };

    ghost inverse = { λ s. record { len = length s; steps = filled_to 0 8 s } };

    ghost inverse_ok = { λ p h i. record { len = length-take-filled 0 8 p.len p.steps h i; steps = sym h.rest i } };
}

impl Path {
    /// The path to a member of the gang here, none exactly where this path has eight steps.
    pub fn child(&self, member: u8) -> Option<Path>
        requires { member < 3 }
        ensures { result ≡ child_path self.now member }
    {
        if self.len == 8 {
            return None;
        }
        let mut steps = self.steps;
        steps[self.len as usize] = member;
        Some(Path {
            len: self.len + 1,
            steps,
        })
    }
}

/// What names an ask: who asks, in which round and attempt, and for which part of its block.
#[derive(Clone, Copy, Debug, PartialEq, Eq)]
pub struct Key {
    pub request: ReqNo,
    pub round: u32,
    /// From 0 in each round.
    pub attempt: u32,
    pub path: Path,
    pub role: Role,
}

/// An ask for places and what was found, refused exactly where `found` is below `copies`.
#[derive(Debug, Drop)]
pub struct Entry {
    pub key: Key,
    /// In bytes.
    pub size: u32,
    pub copies: u32,
    pub found: u32,
    /// All zero from `found` on.
    pub places: [Place; 3],
}

impl Model for Entry {
    ghost use Rattle.std.specs.Prelude.{take};
    ghost use Rattle.zio_types.specs.Choices.{Choice, no_place};
    ghost use Rattle.zio_types.specs.Filled.{IsFilled};

    ghost Value = { Choice };

    ghost view = { λ e. record {
      asked = record { key = e.key; size = e.size; copies = e.copies };
      places = take e.found e.places;
    } };

    ghost invariant = { λ e. IsFilled no_place 3 e.found e.places };
}

impl Entry {
    /// The same entry once more, without memory.
    pub fn copy(&self) -> Entry
        ensures { result ≡ self.now }
    {
        Entry {
            key: self.key,
            size: self.size,
            copies: self.copies,
            found: self.found,
            places: self.places,
        }
    }
}

/// The end of a request.
#[derive(Clone, Copy, Debug, PartialEq, Eq)]
pub struct Completion {
    pub request: ReqNo,
    pub round: u32,
    pub error: Option<Errno>,
}

/// What a run chose and did: its asks with the places found, and its requests' ends.
#[derive(Debug, Drop)]
pub struct Journal {
    pub places: List<Entry>,
    pub completions: List<Completion>,
    /// How many rounds were run whole.
    pub rounds: u32,
}

impl Journal {
    /// An empty journal, without memory.
    pub fn new(alloc: Global) -> Journal
        ensures places { result.places ≡ [] }
        ensures completions { result.completions ≡ [] }
        ensures rounds { result.rounds ≡ 0 }
    {
        Journal {
            places: List::new(alloc),
            completions: List::new(alloc),
            rounds: 0,
        }
    }
}
