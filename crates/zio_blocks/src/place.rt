//! Placed writes: where no run is free for a block, it becomes a gang of smaller parts.

ghost use Rattle.std.specs.Prelude.{◌≡◌, ◌%◌, ◌<◌, ◌≤◌, [], IfOk, IfSome, IsPermutation, None, Some, length, map, option_map, true};
ghost use Rattle.zio_types.specs.Errors.{rank};
ghost use Rattle.zio_types.specs.Places.{are_open};
ghost use Rattle.zio_blkptr.specs.declared.pointer.TheConstants.{BLOCK_SIZE_MAX};
ghost use Rattle.zio_cksum.specs.Frames.{spots_of};
ghost use Rattle.zio_cksum.specs.Images.{Images};
ghost use Rattle.zio_gang.specs.Journals.{HaveDistinctKeys, asks_of};
ghost use Rattle.zio_gang.specs.Trees.{sizes_of, tree_places};
ghost use Rattle.zio_disks.specs.Disks.{Handles, Tell};
ghost use Rattle.zio_disks.specs.Trees.{BearsTops, IsPlacedTree};
ghost use Rattle.zio_disks.specs.Whole.{IsFittingTree, IsWholeTree};
ghost use Rattle.zio_blocks.specs.Blocks.{AsksFor, HavePointers, Places, terms_of};
ghost use Rattle.zio_blocks.specs.Choosers.{AreHeld, given_since, taken_by_all};

use crate::chooser::Chooser;
use crate::parts::place_part;
use crate::pieces::Part;
use std::alloc::Global;
use zio_blkptr::SumKind;
use zio_disks::{Setting, Stop};
use zio_gang::{Head, LEVELS_MAX, Tree};
use zio_outside::Disk;
use zio_types::{COPIES_MAX, Errno, List, Path, ReqNo};

/// What all parts of a block's write share.
#[derive(Clone, Copy, Debug)]
pub struct Writing {
    pub request: ReqNo,
    pub round: u32,
    /// From 0 in each round.
    pub attempt: u32,
    pub sum: SumKind,
    /// Of the block's bytes, 1 to 3. A gang's header has one more, 3 at most.
    pub copies: u32,
    /// The number of the batch, at least 1.
    pub birth: u64,
}

/// A block that was written where it has a place.
#[derive(Debug, Drop)]
pub struct PlacedBlock {
    pub error: Option<Errno>,
    /// None exactly where it has no place. Its pointer is the one that stands in a parent's content, also after an
    /// error.
    pub tree: Option<Tree>,
}

/// Places a block of whole sectors, up to `BLOCK_SIZE_MAX` bytes, and writes it. Where no run is free for it a block of
/// one sector has `Nospc` and no place, and a larger one becomes a gang: a header, and members that are placed in the
/// same way. A gang has no place exactly where its header has none; its header is written also where a member has no
/// place.
///
/// Whatever the error, the tree's places are those that were taken, so they can be given back by it. The tree is whole
/// unless the error is `Nospc` or ranks above that: then a part of it may have no place.
pub fn place_block<D: Disk, C: Chooser>(
    alloc: Global,
    setting: &Setting,
    disks: &mut [D],
    chooser: &mut C,
    writing: &Writing,
    bytes: &[u8],
) -> Result<PlacedBlock, Stop>
    requires bears { BearsTops setting.now (map D.bytes disks.old) }
    requires tops { HavePointers setting.now.tops }
    requires sizes { C.sizes chooser.old ≡ sizes_of setting.now.tops }
    requires some { 0 < length bytes.now }
    requires whole { length bytes.now % 512 ≡ 0 }
    requires most { length bytes.now ≤ BLOCK_SIZE_MAX }
    requires one { 1 ≤ writing.now.copies }
    requires three { writing.now.copies ≤ COPIES_MAX }
    requires birth { 1 ≤ writing.now.birth }
    ensures told { IfOk result (λ placed. (images : Images) → Tell D.image disks.old images →
        Places D.image (terms_of setting.now writing.now) bytes.now images placed
        (given_since (C.given chooser.old) (C.given chooser.new)) disks.new) }
    ensures asks { AsksFor C.lawful (C.sizes chooser.old) writing.now (C.used chooser.old) (C.live chooser.old)
        (C.given chooser.old) (C.used chooser.new) (C.live chooser.new) (C.given chooser.new) }
    ensures keys { HaveDistinctKeys (asks_of (given_since (C.given chooser.old) (C.given chooser.new))) }
    ensures places { IfOk result
        (λ placed. IfSome placed.tree
        (λ tree. IsPermutation (tree_places tree)
        (taken_by_all (given_since (C.given chooser.old) (C.given chooser.new))))) }
    ensures unused { IfOk result (λ placed. IfSome placed.tree (λ tree. are_open (C.used chooser.old) (tree_places tree)
        ≡ true)) }
    ensures nowhere { IfOk result (λ placed. placed.tree ≡ None →
        (taken_by_all (given_since (C.given chooser.old) (C.given chooser.new)) ≡ [])
        × (placed.error ≡ Some Errno.Nospc)) }
    ensures inside { IfOk result (λ placed. IfSome placed.tree (IsPlacedTree (sizes_of setting.now.tops))) }
    ensures fitting { IfOk result (λ placed. IfSome placed.tree (IsFittingTree (sizes_of setting.now.tops))) }
    ensures size { IfOk result (λ placed. IfSome placed.tree (λ tree. tree.bp.size ≡ length bytes.now)) }
    ensures whole { IfOk result (λ placed. rank placed.error < rank (Some Errno.Nospc)
        → IfSome placed.tree IsWholeTree) }
    ensures sizes { C.sizes chooser.new ≡ C.sizes chooser.old }
    ensures held { AreHeld (C.sizes chooser.old) (C.used chooser.old) (C.live chooser.old)
        → AreHeld (C.sizes chooser.new) (C.used chooser.new) (C.live chooser.new) }
    ensures handled { Handles D.bytes D.faults D.faults_at_fetch D.home D.image D.sound D.went
        (spots_of setting.now (taken_by_all (given_since (C.given chooser.old) (C.given chooser.new)))) result disks.old
        disks.new }
{
    let top = Path {
        len: 0,
        steps: [0; 8],
    };
    let mut heads = Vec::new(alloc);
    let part = place_part(
        alloc, setting, disks, chooser, writing, LEVELS_MAX, &top, bytes, &mut heads,
    )?;
    Ok(block_of(part, heads))
}

/// The block of its one part, with the headers under it.
fn block_of(part: Part, heads: Vec<Head>) -> PlacedBlock
    ensures error { result.error ≡ part.error }
    ensures tree { result.tree ≡ option_map (λ bp. record { bp = bp; heads = heads.items }) part.pointer }
{
    let Part { error, pointer } = part;
    let tree = match pointer {
        Some(bp) => Some(Tree {
            bp,
            heads: List::from_vec(heads),
        }),
        None => None,
    };
    PlacedBlock { error, tree }
}
