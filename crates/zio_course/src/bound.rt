//! The names that are bound, and their blocks.

ghost use Rattle.std.specs.Prelude.{◌≡◌, ℕ, List, None, Some, IfOk, OnErr, OnOk, bytes_eq, cond, is_some, map, option_copied};
ghost use Rattle.std.specs.List.{IsDistinct};
ghost use Rattle.std.specs.List.Sorted.{IsNonDecreasingBy};
ghost use Rattle.zio_course.specs.Names.{byte_order, named_in, pairs_of};

use indexmap::IndexMap;
use std::alloc::Global;
use std::marker::Model;
use zio_gang::{Bound as Binding, Head, Tree};
use zio_script::Name;
use zio_types::{List, NoMemory};

/// The bound names with their blocks. A contract sees it as these pairs, in whatever order. A name is found by its
/// hash, so a look-up goes over no list.
#[derive(Debug, Drop)]
pub struct Bound {
    trees: IndexMap<Name, Tree>,
}

impl Model for Bound {
    ghost use Rattle.std.specs.Prelude.{List as Seq, ℕ};
    ghost use Rattle.zio_gang.specs.declared.tree.Tree.{Tree};

    ghost Value = { Seq (Seq ℕ × Tree) };

    ghost view = { λ b. b.trees.entries };
}

impl Bound {
    /// No name is bound.
    pub fn new(alloc: Global) -> Bound
        ensures { (name : List ℕ) → named_in result name ≡ None }
    {
        Bound {
            trees: IndexMap::new(alloc),
        }
    }

    /// The block of a name.
    pub fn block_of(&self, name: &Name) -> Option<&Tree>
        ensures { option_copied result ≡ named_in self.now name.now }
    {
        self.trees.get(name)
    }

    pub fn is_bound(&self, name: &Name) -> bool
        ensures { result ≡ is_some (named_in self.now name.now) }
    {
        self.block_of(name).is_some()
    }

    /// Binds a name, also one that has a block. Where memory is refused the names are as they were.
    pub fn bind(&mut self, name: Name, tree: Tree) -> Result<(), NoMemory>
        ensures ok { OnOk result ((other : List ℕ)
            → named_in self.new other ≡ cond (bytes_eq name other) (Some tree) (named_in self.old other)) }
        ensures err { OnErr result ((other : List ℕ) → named_in self.new other ≡ named_in self.old other) }
    {
        self.trees.insert(name, tree)?;
        Ok(())
    }

    /// Unbinds a name, if it is bound.
    pub fn unbind(&mut self, name: &Name)
        ensures { (other : List ℕ)
            → named_in self.new other ≡ cond (bytes_eq name.now other) None (named_in self.old other) }
    {
        self.trees.swap_remove(name);
    }

    /// The names with their blocks, each name once, in the order of the names' bytes.
    pub fn into_blocks(self, alloc: Global) -> Result<Vec<Binding>, NoMemory>
        ensures blocks { IfOk result (λ blocks. (name : List ℕ)
            → named_in (pairs_of blocks.items) name ≡ named_in self name) }
        ensures once { IfOk result (λ blocks. IsDistinct bytes_eq (map (λ b. b.name) blocks.items)) }
        ensures order { IfOk result (λ blocks. IsNonDecreasingBy (λ e. byte_order e.0) (pairs_of blocks.items)) }
    {
        let mut trees = self.trees;
        trees.sort_by_key(|name, _| rank(name))?;
        blocks_of(alloc, trees)
    }
}

// The names of a map with their blocks, in its order.
fn blocks_of(alloc: Global, trees: IndexMap<Name, Tree>) -> Result<Vec<Binding>, NoMemory>
    ensures { IfOk result (λ blocks. pairs_of blocks.items ≡ trees.entries) }
{
    let mut blocks = Vec::with_capacity(alloc, trees.len())?;
    for (name, tree) in trees {
        blocks.push(Binding { name, tree })?;
    }
    Ok(blocks)
}

// By which names stand in the order of their bytes.
fn rank(name: &Name) -> u128
    ensures { result ≡ byte_order name.now }
{
    let text = name.as_bytes();
    let mut bytes = [0; 16];
    bytes[..text.len()].copy_from_slice(text);
    u128::from_be_bytes(bytes)
}

/// The same block once more: its pointer, and the headers under it.
pub(crate) fn copy_of(alloc: Global, tree: &Tree) -> Result<Tree, NoMemory>
    ensures { IfOk result (λ copy. copy ≡ tree.now) }
{
    let mut heads = List::new(alloc);
    for head in tree.heads.as_slice() {
        heads.push(Head {
            path: head.path,
            bytes: head.bytes,
        })?;
    }
    Ok(Tree { bp: tree.bp, heads })
}
