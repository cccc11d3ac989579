//! The line itself.

ghost use Rattle.std.specs.Prelude.{◌≡◌, ◌+◌, ◌<◌, ◌≤◌, ◌++◌, ◌∷◌, [], length, slice_index, OnOk, OnErr};
ghost use Rattle.std.specs.List.{remove};

use crate::table::Table;
use std::alloc::Global;
use std::collections::VecDeque;
use std::marker::Model;
use zio_types::NoMemory;

/// Values that wait, in the order in which they came. As long as the first is taken they stand in a ring, and a call
/// costs the same however many wait. Once another is taken, those that wait then go into a table, where a call costs at
/// most a logarithm of its places, but for a push for which it has no room: it is made anew, at least half of whose places
/// are then unused. So over all calls at most three values are moved for each that was pushed.
#[derive(Drop)]
pub struct Line {
    alloc: Global,
    table: Table,
    /// Behind those of the table, which has room for them.
    ring: VecDeque<usize>,
}

impl Model for Line {
    ghost use Rattle.std.specs.Prelude.{List, ℕ, ◌+◌, ◌≤◌, ◌++◌, length};

    ghost Value = { List ℕ };

    ghost view = { λ l. l.table.waiting ++ l.ring.items };

    ghost invariant = { λ l. l.table.used + length l.ring.items ≤ l.table.size };
}

impl Line {
    /// Nothing waits. Without memory.
    pub fn new(alloc: Global) -> Line
        ensures { result ≡ [] }
    {
        Line {
            alloc,
            table: Table::empty(alloc),
            ring: VecDeque::new(alloc),
        }
    }

    pub fn len(&self) -> usize
        ensures { result ≡ length self.now }
    {
        self.table.len() + self.ring.len()
    }

    /// The first of those that wait. None is told once another was taken before it.
    pub(crate) fn first(&self) -> Option<usize> {
        if self.table.len() > 0 {
            return None;
        }
        self.ring.front().copied()
    }

    /// Adds a value at the end. Where memory is refused the line is as it was.
    pub fn push(&mut self, value: usize) -> Result<(), NoMemory>
        ensures ok { OnOk result (self.new ≡ self.old ++ value ∷ []) }
        ensures err { OnErr result (self.new ≡ self.old) }
    {
        let more = self.ring.len();
        if !self.table.has_room(more) {
            self.table = self.table.moved(self.alloc, more)?;
        }
        match self.ring.push_back(value) {
            Ok(()) => Ok(()),
            Err(_) => Err(NoMemory),
        }
    }

    /// Takes the k-th of those that wait, counted from 0. The others keep their order.
    pub fn take(&mut self, k: usize) -> usize
        requires { k < length self.old }
        ensures value { result ≡ slice_index self.old k }
        ensures others { self.new ≡ remove self.old k }
    {
        if k == 0 && self.table.len() == 0 {
            if let Some(first) = self.ring.pop_front() {
                return first;
            }
        }
        put_all(&mut self.table, &mut self.ring);
        self.table.take(k)
    }
}

/// All of the ring take the next places of the table.
fn put_all(table: &mut Table, ring: &mut VecDeque<usize>)
    requires { table.old.used + length ring.old.items ≤ table.old.size }
    ensures table { table.new ≡ record {
      waiting = table.old.waiting ++ ring.old.items;
      size = table.old.size;
      used = table.old.used + length ring.old.items;
    } }
    ensures ring { ring.new.items ≡ [] }
{
    while let Some(value) = ring.pop_front() {
        table.put(value);
    }
}
