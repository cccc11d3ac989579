//! The names that suspended requests wait for.

ghost use Rattle.std.specs.Prelude.{◌≡◌, ℕ, List, OnErr, OnOk, bytes_eq, cond, false, true};
ghost use Rattle.zio_course.specs.Names.{is_name_in};

use indexmap::IndexSet;
use std::alloc::Global;
use std::marker::Model;
use zio_script::Name;
use zio_types::NoMemory;

/// The names that unfinished requests of suspended trees name. A contract sees it as these names, in whatever
/// order.
#[derive(Debug, Drop)]
pub struct Awaited {
    names: IndexSet<Name>,
}

impl Model for Awaited {
    ghost use Rattle.std.specs.Prelude.{List as Seq, ℕ};

    ghost Value = { Seq (Seq ℕ) };

    ghost view = { λ a. a.names.keys };
}

impl Awaited {
    /// No name is awaited.
    pub fn new(alloc: Global) -> Awaited
        ensures { (name : List ℕ) → is_name_in result name ≡ false }
    {
        Awaited {
            names: IndexSet::new(alloc),
        }
    }

    pub fn contains(&self, name: &Name) -> bool
        ensures { result ≡ is_name_in self.now name.now }
    {
        self.names.contains(name)
    }

    /// Adds a name, also one that is awaited. Where memory is refused the names are as they were.
    pub fn insert(&mut self, name: Name) -> Result<(), NoMemory>
        ensures ok { OnOk result ((other : List ℕ)
            → is_name_in self.new other ≡ cond (bytes_eq name other) true (is_name_in self.old other)) }
        ensures err { OnErr result ((other : List ℕ) → is_name_in self.new other ≡ is_name_in self.old other) }
    {
        self.names.insert(name)?;
        Ok(())
    }

    /// No name is awaited from now on.
    pub fn clear(&mut self)
        ensures { (name : List ℕ) → is_name_in self.new name ≡ false }
    {
        self.names.clear();
    }
}
