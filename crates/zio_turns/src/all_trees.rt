//! All trees of a round, until each is settled.

ghost use Rattle.std.specs.Prelude.{◌≡◌, ◌<◌, ℕ, Err, OnErr, OnOk, Some, length, map, slice_get, slice_set};
ghost use Rattle.std.specs.List.{AllByRecursion};
ghost use Rattle.zio_turns.specs.declared.trees.TreeState.TheVariants.{UnderWay};
ghost use Rattle.zio_disks.specs.Disks.{AnyRose, AreSameDisks};
ghost use Rattle.zio_turns.specs.Slabs.{AreAll};
ghost use Rattle.zio_turns.specs.Stops.{TreesStopWith};
ghost use Rattle.zio_turns.specs.UnderTrees.{RunsSome, RunsToEnd, StateIn};
ghost use Rattle.zio_turns.specs.Wrote.{TreesTellWrote};

use crate::grounds::Grounds;
use crate::hearing::run_to_tree;
use crate::helper::Helper;
use crate::picks::Picks;
use crate::trees::{TreeState, hear_tree};
use crate::turns::Turns;
use zio_disks::Stop;
use zio_exchange::Finished;
use zio_outside::Disk;
use zio_script::Failmode;
use zio_staged::Staged;

/// Runs the trees of a round, whose first attempts are handed out, until each is settled. Each sound round of these
/// terms goes on until it is over, whatever is picked: then no node is left, and no tree is under way. The requests
/// that finish are added in order of their completion, a child's before its parent's. It is stopped by a device exactly
/// where a disk's count of faults rose. Wherever it is stopped, the images have changed only in blocks that the round's
/// requests name, and at places that met none in use. However it ends, no byte was written but the round's own.
pub fn run_trees<N: Staged, D: Disk + Drop, P: Picks, H: Helper<N>>(
    turns: &mut Turns<N>,
    grounds: &mut Grounds<D>,
    picks: &mut P,
    helper: &H,
    round: u32,
    failmode: Failmode,
    trees: &mut Vec<TreeState>,
    ended: &mut Vec<Finished<N::Seal>>,
) -> Result<(), Stop>
    requires runs { RunsSome N.nodes D.bytes D.image turns.old.nodes turns.old.line grounds.old round failmode
        trees.old.items }
    requires over { AreAll (N.over grounds.old.desk.tops) turns.old.nodes }
    requires can { H.Can }
    ensures runs { OnOk result
        (RunsToEnd N.nodes D.bytes D.image turns.old.nodes turns.old.line grounds.old trees.old.items
        ended.old.items turns.new.nodes turns.new.line grounds.new trees.new.items ended.new.items round failmode) }
    ensures count { OnOk result (length trees.new.items ≡ length trees.old.items) }
    ensures inside { AllByRecursion (StateIn (N.tree_over grounds.old.desk.tops)) trees.old.items →
        OnOk result (AllByRecursion (StateIn (N.tree_over grounds.old.desk.tops)) trees.new.items) }
    ensures same { AreSameDisks D.bytes D.faults D.faults_at_fetch D.home D.image D.sound grounds.old.disks.items
        grounds.new.disks.items }
    ensures steady { OnOk result (map D.faults grounds.new.disks.items ≡ map D.faults grounds.old.disks.items) }
    ensures device { result ≡ Err Stop.Device →
        AnyRose (map D.faults grounds.old.disks.items) (map D.faults grounds.new.disks.items) }
    ensures calm { result ≡ Err Stop.Memory →
        map D.faults grounds.new.disks.items ≡ map D.faults grounds.old.disks.items }
    ensures stopped { OnErr result
        (TreesStopWith N.nodes D.bytes D.image turns.old.nodes turns.old.line grounds.old round failmode
        trees.old.items grounds.new.disks.items) }
    ensures wrote { TreesTellWrote N.nodes D.bytes D.image D.went turns.old.nodes turns.old.line grounds.old round
        failmode trees.old.items grounds.new.disks.items }
    ensures tops { grounds.new.desk.tops ≡ grounds.old.desk.tops }
    ensures setting { grounds.new.setting ≡ grounds.old.setting }
{
    'trees: loop {
        let Some(heard) = run_to_tree(turns, grounds, picks, helper, ended)? else {
            return Ok(());
        };
        let tree = heard.tree;
        let attempt = under_way(trees.as_slice(), tree);
        let Ok(end) = hear_tree(
            turns,
            grounds.alloc,
            round,
            failmode,
            tree,
            attempt,
            heard.outcome,
            ended,
        ) else {
            return Err(Stop::Memory);
        };
        match end {
            None => set_state(trees, tree, TreeState::UnderWay(attempt + 1)),
            Some(end) => set_state(trees, tree, TreeState::Settled(end)),
        }
    }
}

/// The tree of this number is so far now.
fn set_state(trees: &mut Vec<TreeState>, tree: u32, state: TreeState)
    requires { tree < length trees.old.items }
    ensures { trees.new.items ≡ slice_set trees.old.items tree state }
{
    trees[tree as usize] = state;
}

/// The number of the tree's attempt that is under way.
fn under_way(trees: &[TreeState], tree: u32) -> u32
    requires { (attempt : ℕ) × (slice_get trees.now tree ≡ Some (UnderWay attempt)) }
    ensures { slice_get trees.now tree ≡ Some (UnderWay result) }
{
    match &trees[tree as usize] {
        TreeState::UnderWay(attempt) => *attempt,
        TreeState::Settled(_) => unreachable!(),
    }
}
