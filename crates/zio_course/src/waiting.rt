//! Trees that wait for their parents.

ghost use Rattle.std.specs.Prelude.{◌≡◌, ◌++◌, ◌∷◌, ◌==◌, ℕ, [], OnOk, cond};
ghost use Rattle.zio_course.specs.Names.{listed_in};

use indexmap::IndexMap;
use std::alloc::Global;
use std::marker::Model;
use zio_types::{List, NoMemory, ReqNo};

/// The trees under each number, in the order in which they came. A contract sees it as these pairs, in
/// whatever order.
#[derive(Debug, Drop)]
pub(crate) struct TreesByNumber<T> {
    trees: IndexMap<ReqNo, List<T>>,
}

impl<T> Model for TreesByNumber<T> {
    ghost use Rattle.std.specs.Prelude.{List as Seq, ℕ};

    ghost Value = { Seq (ℕ × Seq T) };

    ghost view = { λ w. w.trees.entries };
}

impl<T: Drop> TreesByNumber<T> {
    /// No tree waits.
    pub(crate) fn new(alloc: Global) -> TreesByNumber<T>
        ensures { (number : ℕ) → listed_in result number ≡ [] }
    {
        TreesByNumber {
            trees: IndexMap::new(alloc),
        }
    }

    /// Takes out the trees under a number.
    pub(crate) fn take(&mut self, alloc: Global, number: ReqNo) -> List<T>
        ensures taken { result ≡ listed_in self.old number }
        ensures left { (other : ℕ) → listed_in self.new other ≡ cond (number == other) [] (listed_in self.old other) }
    {
        match self.trees.swap_remove(&number) {
            Some(trees) => trees,
            None => List::new(alloc),
        }
    }

    /// Adds a tree under a number.
    pub(crate) fn push(&mut self, alloc: Global, number: ReqNo, tree: T) -> Result<(), NoMemory>
        ensures { OnOk result ((other : ℕ)
            → listed_in self.new other ≡ cond (number == other) (listed_in self.old number ++ tree ∷ [])
            (listed_in self.old other)) }
    {
        let mut trees = self.take(alloc, number);
        trees.push(tree)?;
        self.trees.insert(number, trees)?;
        Ok(())
    }
}
