//! One leaf's next group, and its answers to the nodes.

ghost use Rattle.std.specs.Prelude.{◌≡◌, ◌+◌, ◌<◌, ◌≤◌, List as Seq, length, OnErr, OnOk};
ghost use Rattle.zio_types.specs.declared.place.Top.{Top as SeenTop};
ghost use Rattle.zio_disks.specs.Disks.{Handles};
ghost use Rattle.zio_groups.specs.Issued.{written_spots};
ghost use Rattle.zio_turns.specs.AtLeaves.{eligible_at, eligible_leaves, waiting_at};
ghost use Rattle.zio_turns.specs.Slabs.{AreAll, load};
ghost use Rattle.zio_turns.specs.Stops.{StopsWith};
ghost use Rattle.zio_turns.specs.UnderTurns.{AreAtLeaves, ComeBack, GoesOnSome, IssuesOn, work_left};
ghost use Rattle.zio_turns.specs.Wrote.{TellWrote};

use crate::grounds::Grounds;
use crate::turns::Turns;
use std::alloc::Global;
use zio_disks::Stop;
use zio_groups::Answered;
use zio_outside::Disk;
use zio_staged::Staged;
use zio_types::{List, NoMemory};

/// Issues the next group of the k-th leaf that has one, and tells each node its answer. Each sound round that goes on
/// goes on. After a stop nothing is said of the nodes, and the disks have changed at most where what waited there
/// writes. However it ends, no byte was written but the round's own.
pub fn issue_group<N: Staged, D: Disk + Drop>(
    turns: &mut Turns<N>,
    grounds: &mut Grounds<D>,
    k: u32,
) -> Result<(), Stop>
    requires going { GoesOnSome N.nodes D.bytes D.image turns.old.nodes turns.old.line grounds.old }
    requires over { AreAll (N.over grounds.old.desk.tops) turns.old.nodes }
    requires eligible { k < length (eligible_leaves grounds.old.queues.leaves.items) }
    ensures issues { OnOk result
        (IssuesOn N.nodes D.bytes D.image turns.old.nodes turns.old.line grounds.old turns.new.nodes
        turns.new.line grounds.new) }
    ensures over { OnOk result (AreAll (N.over grounds.new.desk.tops) turns.new.nodes) }
    ensures less { OnOk result (work_left N.nodes.left turns.new.nodes turns.new.line grounds.new
        < work_left N.nodes.left turns.old.nodes turns.old.line grounds.old) }
    ensures handled { Handles D.bytes D.faults D.faults_at_fetch D.home D.image D.sound D.went
        (written_spots (eligible_at grounds.old.queues.leaves.items k)
        (waiting_at grounds.old.queues.leaves.items (eligible_at grounds.old.queues.leaves.items k)))
        result grounds.old.disks.items grounds.new.disks.items }
    ensures stopped { OnErr result
        (StopsWith N.nodes D.bytes D.image turns.old.nodes turns.old.line grounds.old grounds.new.disks.items) }
    ensures wrote { TellWrote N.nodes D.bytes D.image D.went turns.old.nodes turns.old.line grounds.old
        grounds.new.disks.items }
    ensures desk { grounds.new.desk ≡ grounds.old.desk }
    ensures setting { grounds.new.setting ≡ grounds.old.setting }
{
    let answers = grounds.issue(k)?;
    match tell_answers(grounds.alloc, turns, answers) {
        Ok(()) => Ok(()),
        Err(NoMemory) => Err(Stop::Memory),
    }
}

/// Tells each node under a key what its leaf answered. Bytes that are a part of what was read become the node's own.
fn tell_answers<N: Staged>(
    alloc: Global,
    turns: &mut Turns<N>,
    answers: List<Answered>,
) -> Result<(), NoMemory>
    requires { AreAtLeaves N.nodes turns.old.nodes turns.old.line answers }
    ensures back { OnOk result
        (ComeBack N.nodes turns.old.nodes turns.old.line turns.new.nodes turns.new.line answers) }
    ensures over { (tops : Seq SeenTop) → AreAll (N.over tops) turns.old.nodes
        → OnOk result (AreAll (N.over tops) turns.new.nodes) }
    ensures less { OnOk result (load N.nodes.left turns.new.nodes turns.new.line
        ≤ load N.nodes.left turns.old.nodes turns.old.line + length answers) }
{
    for answer in answers.into_rest() {
        let bytes = answer.bytes.into_bytes(alloc)?;
        turns.answered(answer.ticket as usize, answer.error, bytes)?;
    }
    Ok(())
}
