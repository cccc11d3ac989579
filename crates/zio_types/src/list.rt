ghost use Rattle.std.specs.Prelude.{◌≡◌, ◌++◌, ◌∷◌, [], length, reverse, OnOk, OnErr, IfErr, IsTrue, ◌↔◌};
ghost use Rattle.std.specs.Iterator.{YieldsFirst, item_count};

use crate::NoMemory;
use std::alloc::{AllocFailed, Global};
use std::marker::Model;

/// A list that a contract sees as the list of its items.
#[derive(Debug, Drop)]
pub struct List<T> {
    items: Vec<T>,
}

impl<T> Model for List<T> {
    ghost use Rattle.std.specs.Prelude.{List as Seq};

    ghost Value = { Seq T };

    ghost view = { λ l. l.items.items };
}

impl<T> List<T> {
    /// Without memory.
    pub fn new(alloc: Global) -> List<T>
        ensures { result ≡ [] }
    {
        List {
            items: Vec::new(alloc),
        }
    }

    /// Without memory.
    pub fn from_vec(items: Vec<T>) -> List<T>
        ensures { result ≡ items.items }
    {
        List { items }
    }

    /// Without memory.
    pub fn into_vec(self) -> Vec<T>
        ensures { result.items ≡ self }
    {
        self.items
    }

    pub fn as_slice(&self) -> &[T]
        ensures { result.now ≡ self.now }
    {
        self.items.as_slice()
    }

    pub fn len(&self) -> usize
        ensures { result ≡ length self.now }
    {
        self.items.len()
    }

    pub fn is_empty(&self) -> bool
        ensures { IsTrue result ↔ (self.now ≡ []) }
    {
        self.items.is_empty()
    }

    /// Adds an item at the end. Where memory is refused the item comes back and the list is as it was.
    pub fn push(&mut self, item: T) -> Result<(), AllocFailed<T>>
        ensures ok { OnOk result (self.new ≡ self.old ++ item ∷ []) }
        ensures err { OnErr result (self.new ≡ self.old) }
        ensures back { IfErr result (λ e. e.value ≡ item) }
    {
        self.items.push(item)
    }

    /// The items from the front, each in a step.
    pub fn into_rest(self) -> Rest<T>
        ensures { result ≡ self }
    {
        let mut reversed = self.items;
        reversed.reverse();
        Rest { reversed }
    }
}

impl<T: Copy> List<T> {
    /// Adds the items at the end, or none of them where memory is refused.
    pub fn extend_from_slice(&mut self, items: &[T]) -> Result<(), NoMemory>
        ensures ok { OnOk result (self.new ≡ self.old ++ items.now) }
        ensures err { OnErr result (self.new ≡ self.old) }
    {
        Ok(self.items.extend_from_slice(items)?)
    }
}

/// What is left of a list that is being used up from its front.
#[derive(Debug, Drop)]
pub struct Rest<T> {
    reversed: Vec<T>,
}

impl<T> Model for Rest<T> {
    ghost use Rattle.std.specs.Prelude.{List as Seq, reverse};

    ghost Value = { Seq T };

    ghost view = { λ r. reverse r.reversed.items };
}

impl<T: Drop> Iterator for Rest<T> {
    type Item = T;

    ghost next_gives = { YieldsFirst (λ r. r) };

    ghost remaining = { item_count (λ r. r) };

    fn next(&mut self) -> Option<T> {
        self.reversed.pop()
    }
}
