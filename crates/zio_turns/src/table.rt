//! Places with values, of which new ones take the next.

ghost use Rattle.std.specs.Prelude.{◌≡◌, ◌+◌, ◌*◌, ◌<◌, ◌≤◌, ◌^◌, ◌++◌, ◌∷◌, ◌↔◌, [], length, slice_index, IfOk, IsTrue};
ghost use Rattle.std.specs.List.{remove};
ghost use Rattle.zio_turns.specs.LineSums.{IsSize};

use crate::sums::{lower, place_of, raise, whole};
use std::alloc::Global;
use std::marker::Model;
use zio_types::NoMemory;

/// A value that is taken leaves its place empty, and no later value takes it.
#[derive(Drop)]
pub(crate) struct Table {
    /// How many values stand below each node, as `sums` lays them out.
    nodes: Vec<usize>,
    places: Vec<Option<usize>>,
    /// From here on no place was used.
    used: usize,
}

impl Model for Table {
    ghost use Rattle.zio_turns.specs.LinePlaces.{Held};

    ghost Value = { Held };

    ghost use Rattle.std.specs.Prelude.{length};
    ghost use Rattle.zio_turns.specs.LinePlaces.{IsKept, standing};

    ghost view = { λ t. record { waiting = standing t.places.items; size = length t.places.items; used = t.used } };

    ghost invariant = { λ t. IsKept t.nodes.items t.places.items t.used };
}

impl Table {
    /// No place. Without memory.
    pub(crate) fn empty(alloc: Global) -> Table
        ensures { result ≡ record { waiting = []; size = 0; used = 0 } }
    {
        Table {
            nodes: Vec::new(alloc),
            places: Vec::new(alloc),
            used: 0,
        }
    }

    fn with_size(alloc: Global, size: usize) -> Result<Table, NoMemory>
        requires sized { IsSize size }
        requires fits { size < 2 ^ 63 }
        ensures { IfOk result (λ table. table ≡ record { waiting = []; size = size; used = 0 }) }
    {
        Ok(Table {
            nodes: vec![in alloc; 0; 2 * size]?,
            places: vec![in alloc; None; size]?,
            used: 0,
        })
    }

    /// How many wait.
    pub(crate) fn len(&self) -> usize
        ensures len { result ≡ length self.now.waiting }
        ensures few { result ≤ self.now.used }
        ensures fits { self.now.used ≤ self.now.size × self.now.size < 2 ^ 63 }
    {
        whole(&self.nodes)
    }

    /// Whether it has a place beside those for so many more.
    pub(crate) fn has_room(&self, more: usize) -> bool
        ensures { IsTrue result ↔ (self.now.used + more < self.now.size) }
    {
        more < self.places.len() - self.used
    }

    /// The value takes the next place.
    pub(crate) fn put(&mut self, value: usize)
        requires { self.old.used < self.old.size }
        ensures { self.new ≡ record self.old { waiting = self.old.waiting ++ value ∷ []; used = self.old.used + 1 } }
    {
        self.places[self.used] = Some(value);
        raise(&mut self.nodes, self.used);
        self.used += 1;
    }

    /// Takes the k-th of those that wait.
    pub(crate) fn take(&mut self, k: usize) -> usize
        requires { k < length self.old.waiting }
        ensures value { result ≡ slice_index self.old.waiting k }
        ensures others { self.new ≡ record self.old { waiting = remove self.old.waiting k } }
    {
        let place = place_of(&self.nodes, k);
        let value = self.places[place];
        lower(&mut self.nodes, place);
        self.places[place] = None;
        value.unwrap()
    }

    /// The same values at the first places of a table that has a place beside those for so many more, for which this one
    /// has room; no less than half of its places are then unused.
    pub(crate) fn moved(&self, alloc: Global, more: usize) -> Result<Table, NoMemory>
        requires { self.now.used + more ≤ self.now.size }
        ensures waiting { IfOk result (λ table. table.waiting ≡ self.now.waiting) }
        ensures used { IfOk result (λ table. table.used ≡ length self.now.waiting) }
        ensures room { IfOk result (λ table. 2 * (table.used + more) ≤ table.size × table.used + more < table.size) }
    {
        let size = roomy_size(self.places.len(), self.len() + more);
        let mut table = Table::with_size(alloc, size)?;
        for place in &self.places {
            if let Some(value) = place {
                table.put(*value);
            }
        }
        Ok(table)
    }
}

/// The size of a table at whose places as many as are held take no more than half: this size or the next.
fn roomy_size(size: usize, held: usize) -> usize
    requires sized { IsSize size }
    requires held { held ≤ size }
    requires fits { size < 2 ^ 62 }
    ensures sized { IsSize result }
    ensures room { held < result }
    ensures half { 2 * held ≤ result }
    ensures fits { result < 2 ^ 63 }
{
    if size == 0 {
        1
    } else if 2 * held <= size {
        size
    } else {
        2 * size
    }
}
