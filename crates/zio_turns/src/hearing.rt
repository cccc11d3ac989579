//! Turns and groups until a tree of the round hears of its attempt.

ghost use Rattle.std.specs.Prelude.{◌≡◌, ◌<◌, ◌≤◌, Err, IfOk, IfSome, OnErr, OnOk, map};
ghost use Rattle.zio_disks.specs.Disks.{AnyRose, AreSameDisks};
ghost use Rattle.zio_turns.specs.AtLeaves.{keys_at};
ghost use Rattle.zio_turns.specs.Slabs.{AreAll};
ghost use Rattle.zio_turns.specs.Stops.{StopsWith};
ghost use Rattle.zio_staged.specs.Stages.{OutcomeIn};
ghost use Rattle.zio_turns.specs.UnderTurns.{GoesOnSome, IsDoneUnless, RunsToTree, work_left};
ghost use Rattle.zio_turns.specs.Wrote.{TellWrote};

use crate::drive::run_on;
use crate::grounds::Grounds;
use crate::helper::Helper;
use crate::picks::Picks;
use crate::turn::Turned;
use crate::turns::Turns;
use zio_disks::Stop;
use zio_exchange::{Finished, Outcome};
use zio_outside::Disk;
use zio_staged::Staged;

/// With what the attempt of a tree of the round ended.
#[derive(Drop)]
pub struct Hearing<S> {
    /// The tree's number.
    pub tree: u32,
    pub outcome: Outcome<S>,
}

/// Runs until a tree of the round hears of its attempt, or no key is queued and nothing waits at the leaves. The
/// requests that finish meanwhile are added in order of their completion, a child's before its parent's. Each sound
/// round that goes on goes on, whatever is picked. It is stopped by a device exactly where a disk's count of faults
/// rose. However it ends, no byte was written but the round's own.
pub fn run_to_tree<N: Staged, D: Disk + Drop, P: Picks, H: Helper<N>>(
    turns: &mut Turns<N>,
    grounds: &mut Grounds<D>,
    picks: &mut P,
    helper: &H,
    ended: &mut Vec<Finished<N::Seal>>,
) -> Result<Option<Hearing<N::Seal>>, Stop>
    requires going { GoesOnSome N.nodes D.bytes D.image turns.old.nodes turns.old.line grounds.old }
    requires over { AreAll (N.over grounds.old.desk.tops) turns.old.nodes }
    requires can { H.Can }
    ensures runs { IfOk result
        (RunsToTree N.nodes D.bytes D.image turns.old.nodes turns.old.line grounds.old ended.old.items
        turns.new.nodes turns.new.line grounds.new ended.new.items) }
    ensures done { IfOk result (IsDoneUnless turns.new.line (keys_at grounds.new.queues.leaves.items)) }
    ensures over { OnOk result (AreAll (N.over grounds.new.desk.tops) turns.new.nodes) }
    ensures inside { IfOk result
        (λ heard. IfSome heard (λ h. OutcomeIn (N.tree_over grounds.old.desk.tops) h.outcome)) }
    ensures same { AreSameDisks D.bytes D.faults D.faults_at_fetch D.home D.image D.sound grounds.old.disks.items
        grounds.new.disks.items }
    ensures steady { OnOk result (map D.faults grounds.new.disks.items ≡ map D.faults grounds.old.disks.items) }
    ensures device { result ≡ Err Stop.Device →
        AnyRose (map D.faults grounds.old.disks.items) (map D.faults grounds.new.disks.items) }
    ensures calm { result ≡ Err Stop.Memory →
        map D.faults grounds.new.disks.items ≡ map D.faults grounds.old.disks.items }
    ensures stopped { OnErr result
        (StopsWith N.nodes D.bytes D.image turns.old.nodes turns.old.line grounds.old grounds.new.disks.items) }
    ensures wrote { TellWrote N.nodes D.bytes D.image D.went turns.old.nodes turns.old.line grounds.old
        grounds.new.disks.items }
    ensures tops { grounds.new.desk.tops ≡ grounds.old.desk.tops }
    ensures setting { grounds.new.setting ≡ grounds.old.setting }
{
    'told: loop {
        match run_on(turns, grounds, picks, helper)? {
            Turned::Nothing => return Ok(None),
            Turned::Root(tree, outcome) => return Ok(Some(Hearing { tree, outcome })),
            Turned::Ended(finished) => {
                let Ok(()) = ended.push(finished) else {
                    return Err(Stop::Memory);
                };
            }
        }
    }
}
