//! What own work comes to.

ghost use Rattle.std.specs.Prelude.{◌≡◌, [], Err, IfOk, IfSome, IsTrue, None, OnErr, Some, option_map};
ghost use Rattle.zio_blkptr.specs.Pointers.{valid};
ghost use Rattle.zio_gang.specs.Trees.{tree_places};
ghost use Rattle.zio_gang.specs.declared.tree.Tree.{Tree as SeenTree};
ghost use Rattle.zio_course.specs.Runners.{places_of_block};
ghost use Rattle.zio_plain.specs.Works.{stop_of};

use crate::owns::OwnEnd;
use crate::works::OwnDone;
use std::alloc::Global;
use zio_blocks::PlacedBlock;
use zio_course::Stop;
use zio_disks::Stop as DiskStop;
use zio_gang::Tree;
use zio_types::{Bytes, Errno, List};

/// It gives an error or nothing.
pub(crate) fn nothing(alloc: Global, error: Option<Errno>) -> OwnDone
    ensures end { result.end ≡ record { error = error; bytes = []; tree = None; pointer = None } }
    ensures taken { result.taken ≡ [] }
{
    OwnDone {
        end: OwnEnd {
            error,
            bytes: List::new(alloc),
            tree: None,
            pointer: None,
        },
        taken: List::new(alloc),
    }
}

/// It gives these bytes.
pub(crate) fn found(alloc: Global, bytes: Bytes) -> OwnDone
    ensures end { result.end ≡ record { error = None; bytes = bytes; tree = None; pointer = None } }
    ensures taken { result.taken ≡ [] }
{
    OwnDone {
        end: OwnEnd {
            error: None,
            bytes,
            tree: None,
            pointer: None,
        },
        taken: List::new(alloc),
    }
}

/// It gives a block that was placed, with its pointer.
pub(crate) fn written(alloc: Global, placed: PlacedBlock) -> Result<OwnDone, Stop>
    requires { IfSome placed.tree (λ tree. IsTrue (valid tree.bp)) }
    ensures end { IfOk result (λ done. done.end ≡ record {
      error = placed.error;
      bytes = [];
      tree = placed.tree;
      pointer = option_map (λ (tree : SeenTree). tree.bp) placed.tree;
    }) }
    ensures taken { IfOk result (λ done. done.taken ≡ places_of_block placed.tree) }
    ensures memory { OnErr result (result ≡ Err Stop.Memory) }
{
    let PlacedBlock { error, tree } = placed;
    let Some(tree) = tree else {
        return Ok(nothing(alloc, error));
    };
    let taken = tree.places(alloc)?;
    let pointer = Some(tree.bp);
    Ok(OwnDone {
        end: OwnEnd {
            error,
            bytes: List::new(alloc),
            tree: Some(tree),
            pointer,
        },
        taken,
    })
}

/// It gives a block that was claimed.
pub(crate) fn claimed(alloc: Global, tree: Tree) -> Result<OwnDone, Stop>
    requires { IsTrue (valid tree.bp) }
    ensures end { IfOk result (λ done. done.end
        ≡ record { error = None; bytes = []; tree = Some tree; pointer = None }) }
    ensures taken { IfOk result (λ done. done.taken ≡ tree_places tree) }
    ensures memory { OnErr result (result ≡ Err Stop.Memory) }
{
    let taken = tree.places(alloc)?;
    Ok(OwnDone {
        end: OwnEnd {
            error: None,
            bytes: List::new(alloc),
            tree: Some(tree),
            pointer: None,
        },
        taken,
    })
}

/// The same reason, as the runner of rounds has it.
pub(crate) fn stopped(stop: DiskStop) -> Stop
    ensures { result ≡ stop_of stop }
{
    match stop {
        DiskStop::Device => Stop::Device,
        DiskStop::Memory => Stop::Memory,
    }
}
