// Claims: a stranger's pointer becomes a block whose places are in use.

ghost use Rattle.std.specs.Prelude.{◌≡◌, [], IfOk, OnErr, Ok, Err, Some, None, map};
ghost use Rattle.zio_blkptr.specs.Pointers.{pointer_of};
ghost use Rattle.zio_cksum.specs.Images.{Images};
ghost use Rattle.zio_gang.specs.Trees.{claim_tree, claimed_free, sizes_of, tree_places};
ghost use Rattle.zio_disks.specs.Disks.{Handles, Tell};
ghost use Rattle.zio_disks.specs.Trees.{BearsTops, IsPlacedTree};
ghost use Rattle.zio_disks.specs.Whole.{IsFittingTree, IsWholeTree};
ghost use Rattle.zio_blocks.specs.Choosers.{AreHeld};
ghost use Rattle.zio_blocks.specs.Claims.{AreTaken, StayTaken};

use crate::chooser::{Chooser, Unclaimed};
use std::alloc::Global;
use zio_disks::{Setting, Stop, claim_walk};
use zio_gang::Tree;
use zio_outside::Disk;
use zio_types::Errno;

/// Claims the block of the pointer that these bytes spell: reads its headers, without repairs, and makes all its places
/// live. It is `Inval` where the bytes spell no pointer, or a place of the block isn't inside its top or doesn't fit;
/// an error of its headers where one can't be read; and `Exist` where two of its places meet or one isn't free. After
/// an error, and where the call is stopped, no place is taken.
pub fn claim_block<D: Disk, C: Chooser>(
    alloc: Global,
    setting: &Setting,
    disks: &mut [D],
    chooser: &mut C,
    pointer: &[u8; 128],
) -> Result<Result<Tree, Errno>, Stop>
    requires bears { BearsTops setting.now (map D.bytes disks.old) }
    requires sizes { C.sizes chooser.old ≡ sizes_of setting.now.tops }
    ensures told { IfOk result (λ found. (images : Images) → Tell D.image disks.old images →
        let claimed = claim_tree setting.now (C.used chooser.old) pointer.now images in
        (found ≡ claimed.tree) × Tell D.image disks.new claimed.images) }
    ensures claimed { IfOk result (λ found. IfOk found (λ tree.
        AreTaken (tree_places tree) (C.used chooser.old) (C.live chooser.old) (C.used chooser.new)
        (C.live chooser.new))) }
    ensures refused { IfOk result
        (λ found. OnErr found (StayTaken (C.used chooser.old) (C.live chooser.old) (C.used chooser.new)
        (C.live chooser.new))) }
    ensures stopped { OnErr result (StayTaken (C.used chooser.old) (C.live chooser.old) (C.used chooser.new)
        (C.live chooser.new)) }
    ensures given { C.given chooser.new ≡ C.given chooser.old }
    ensures sizes { C.sizes chooser.new ≡ C.sizes chooser.old }
    ensures held { AreHeld (C.sizes chooser.old) (C.used chooser.old) (C.live chooser.old)
        → AreHeld (C.sizes chooser.new) (C.used chooser.new) (C.live chooser.new) }
    ensures pointer { IfOk result (λ found. IfOk found (λ tree. pointer_of pointer.now ≡ Some tree.bp)) }
    ensures none { pointer_of pointer.now ≡ None → result ≡ Ok (Err Errno.Inval) }
    ensures whole { IfOk result (λ found. IfOk found IsWholeTree) }
    ensures fitting { IfOk result (λ found. IfOk found (IsFittingTree (sizes_of setting.now.tops))) }
    ensures placed { IfOk result (λ found. IfOk found (IsPlacedTree (sizes_of setting.now.tops))) }
    ensures handled { Handles D.bytes D.faults D.faults_at_fetch D.home D.image D.sound D.went [] result disks.old
        disks.new }
{
    match claim_walk(alloc, setting, disks, pointer)? {
        Ok(tree) => take_places(alloc, chooser, tree),
        Err(error) => Ok(Err(error)),
    }
}

/// Makes all places of the block live, or none of them where two meet or one isn't free.
fn take_places<C: Chooser>(
    alloc: Global,
    chooser: &mut C,
    tree: Tree,
) -> Result<Result<Tree, Errno>, Stop>
    requires placed { IsPlacedTree (C.sizes chooser.old) tree }
    requires fitting { IsFittingTree (C.sizes chooser.old) tree }
    ensures told { IfOk result (λ found. found ≡ claimed_free (C.used chooser.old) tree) }
    ensures same { IfOk result (λ found. IfOk found (λ claimed. claimed ≡ tree)) }
    ensures claimed { IfOk result (λ found. IfOk found (λ claimed.
        AreTaken (tree_places claimed) (C.used chooser.old) (C.live chooser.old) (C.used chooser.new)
        (C.live chooser.new))) }
    ensures refused { IfOk result
        (λ found. OnErr found (StayTaken (C.used chooser.old) (C.live chooser.old) (C.used chooser.new)
        (C.live chooser.new))) }
    ensures stopped { OnErr result (StayTaken (C.used chooser.old) (C.live chooser.old) (C.used chooser.new)
        (C.live chooser.new)) }
    ensures given { C.given chooser.new ≡ C.given chooser.old }
    ensures sizes { C.sizes chooser.new ≡ C.sizes chooser.old }
    ensures held { AreHeld (C.sizes chooser.old) (C.used chooser.old) (C.live chooser.old)
        → AreHeld (C.sizes chooser.new) (C.used chooser.new) (C.live chooser.new) }
    ensures memory { OnErr result (result ≡ Err Stop.Memory) }
{
    let Ok(places) = tree.places(alloc) else {
        return Err(Stop::Memory);
    };
    match chooser.claim(places.as_slice()) {
        Ok(()) => Ok(Ok(tree)),
        Err(Unclaimed::Taken) => Ok(Err(Errno::Exist)),
        Err(Unclaimed::Memory) => Err(Stop::Memory),
    }
}
