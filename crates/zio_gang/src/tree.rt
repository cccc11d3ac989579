ghost use Rattle.std.specs.Prelude.{◌≡◌, ◌++◌, bytes_eq, OnOk, IsTrue, option_to_list};
ghost use Rattle.std.specs.List.{flat_map};
ghost use Rattle.zio_blkptr.specs.Pointers.{places_of, pointer_of, valid};
ghost use Rattle.zio_cksum.specs.Headers.{members_of};

use crate::header::slot_at;
use std::alloc::Global;
use zio_blkptr::{Bp, decode};
use zio_types::{List, NoMemory, Path, Place};

/// A gang header and where it stands in its block's tree.
#[derive(Debug, Drop)]
pub struct Head {
    pub path: Path,
    pub bytes: [u8; 512],
}

/// A block: its pointer, and where that is a gang the headers under it, each before those below it.
#[derive(Debug, Drop)]
pub struct Tree {
    pub bp: Bp,
    pub heads: List<Head>,
}

impl Tree {
    ghost use Rattle.std.specs.Prelude.{◌≡◌, ◌++◌, ◌∷◌, [], None, OnOk, OnErr, IfOk, IsTrue, option_copied};
    ghost use Rattle.zio_blkptr.specs.Pointers.{valid};
    ghost use Rattle.zio_gang.specs.Trees.{kept_at, tree_places};

    /// A block without headers, without memory.
    pub fn plain(alloc: Global, bp: Bp) -> Tree
        ensures bp { result.bp ≡ bp }
        ensures heads { result.heads ≡ [] }
    {
        Tree {
            bp,
            heads: List::new(alloc),
        }
    }

    /// Adds a header behind the others, at a path where none stands. Where memory is refused the tree is as it was.
    pub fn add_head(&mut self, path: Path, bytes: [u8; 512]) -> Result<(), NoMemory>
        requires { kept_at self.old.heads path ≡ None }
        ensures heads { OnOk result (self.new.heads ≡ self.old.heads ++ record { path = path; bytes = bytes } ∷ []) }
        ensures bp { self.new.bp ≡ self.old.bp }
        ensures err { OnErr result (self.new.heads ≡ self.old.heads) }
    {
        self.heads.push(Head { path, bytes })?;
        Ok(())
    }

    /// The bytes of the header at this path, none exactly where no header stands there. It goes over the headers,
    /// some thousands at most, until it finds that one.
    pub fn head(&self, path: &Path) -> Option<&[u8; 512]>
        ensures { option_copied result ≡ kept_at self.now.heads path.now }
    {
        for head in self.heads.as_slice() {
            if is_same_path(&head.path, path) {
                return Some(&head.bytes);
            }
        }
        None
    }

    /// The places of the block's pointer and of all members in its headers, which are those of each header's three
    /// pointers that `decode` takes. The block's pointer is valid.
    pub fn places(&self, alloc: Global) -> Result<List<Place>, NoMemory>
        requires { IsTrue (valid self.now.bp) }
        ensures { IfOk result (λ places. places ≡ tree_places self.now) }
    {
        let mut places = List::new(alloc);
        add_places(&mut places, &self.bp)?;
        for head in self.heads.as_slice() {
            add_members(&mut places, &head.bytes)?;
        }
        Ok(places)
    }
}

fn add_members(places: &mut List<Place>, bytes: &[u8; 512]) -> Result<(), NoMemory>
    ensures { OnOk result (places.new ≡ places.old ++ flat_map places_of (members_of bytes.now)) }
{
    add_member(places, slot_at(bytes, 0))?;
    add_member(places, slot_at(bytes, 1))?;
    add_member(places, slot_at(bytes, 2))
}

fn add_member(places: &mut List<Place>, slot: &[u8; 128]) -> Result<(), NoMemory>
    ensures { OnOk result (places.new ≡ places.old ++ flat_map places_of (option_to_list (pointer_of slot.now))) }
{
    match decode(slot) {
        Ok(bp) => add_places(places, &bp),
        Err(_) => Ok(()),
    }
}

fn add_places(places: &mut List<Place>, bp: &Bp) -> Result<(), NoMemory>
    requires { IsTrue (valid bp.now) }
    ensures { OnOk result (places.new ≡ places.old ++ places_of bp.now) }
{
    places.extend_from_slice(&bp.places[..bp.count as usize])
}

fn is_same_path(p: &Path, q: &Path) -> bool
    ensures { result ≡ bytes_eq p.now q.now }
{
    *p == *q
}
