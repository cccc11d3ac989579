//! Turns and groups, in whatever order is picked.

ghost use Rattle.std.specs.Prelude.{◌≡◌, ◌≢◌, ◌<◌, ◌≤◌, [], Err, IfOk, OnErr, OnOk, map};
ghost use Rattle.zio_disks.specs.Disks.{AnyRose, AreSameDisks};
ghost use Rattle.zio_turns.specs.AtLeaves.{keys_at};
ghost use Rattle.zio_turns.specs.Slabs.{AreAll};
ghost use Rattle.zio_turns.specs.Stops.{StopsWith};
ghost use Rattle.zio_turns.specs.UnderTurns.{GoesOnSome, IsDone, RunsOn, TurnedIn, work_left};
ghost use Rattle.zio_turns.specs.Wrote.{TellWrote};
ghost use Rattle.zio_turns.specs.declared.turn.Turned.TheVariants.{Nothing};

use crate::grounds::Grounds;
use crate::group::issue_group;
use crate::helped::help;
use crate::helper::Helper;
use crate::picks::Picks;
use crate::turn::{Turned, run_turn};
use crate::turns::Turns;
use zio_disks::Stop;
use zio_exchange::Services;
use zio_outside::Disk;
use zio_staged::Staged;

/// Runs until a turn has something to tell, or no key is queued and nothing waits at the leaves. The choices are the
/// queued keys in their order, as many as a pick can tell apart, then each leaf that has a group to issue, in order of
/// the leaves. Before a turn the helper may reckon ahead, for which groups may come first. Each sound round that goes on
/// goes on, whatever is picked. It is stopped by a device exactly where a disk's count of faults rose. However it ends, no
/// byte was written but the round's own.
pub fn run_on<N: Staged, D: Disk + Drop, P: Picks, H: Helper<N>>(
    turns: &mut Turns<N>,
    grounds: &mut Grounds<D>,
    picks: &mut P,
    helper: &H,
) -> Result<Turned<N::Seal>, Stop>
    requires going { GoesOnSome N.nodes D.bytes D.image turns.old.nodes turns.old.line grounds.old }
    requires over { AreAll (N.over grounds.old.desk.tops) turns.old.nodes }
    requires can { H.Can }
    ensures runs { IfOk result
        (RunsOn N.nodes D.bytes D.image turns.old.nodes turns.old.line grounds.old turns.new.nodes
        turns.new.line grounds.new) }
    ensures done { IfOk result (IsDone turns.new.line (keys_at grounds.new.queues.leaves.items)) }
    ensures over { OnOk result (AreAll (N.over grounds.new.desk.tops) turns.new.nodes) }
    ensures less { OnOk result (work_left N.nodes.left turns.new.nodes turns.new.line grounds.new
        ≤ work_left N.nodes.left turns.old.nodes turns.old.line grounds.old) }
    ensures fewer { IfOk result (λ turned. turned ≢ Nothing
        → work_left N.nodes.left turns.new.nodes turns.new.line grounds.new
        < work_left N.nodes.left turns.old.nodes turns.old.line grounds.old) }
    ensures same { AreSameDisks D.bytes D.faults D.faults_at_fetch D.home D.image D.sound grounds.old.disks.items
        grounds.new.disks.items }
    ensures steady { OnOk result (map D.faults grounds.new.disks.items ≡ map D.faults grounds.old.disks.items) }
    ensures device { result ≡ Err Stop.Device →
        AnyRose (map D.faults grounds.old.disks.items) (map D.faults grounds.new.disks.items) }
    ensures calm { result ≡ Err Stop.Memory →
        map D.faults grounds.new.disks.items ≡ map D.faults grounds.old.disks.items }
    ensures stopped { OnErr result
        (StopsWith N.nodes D.bytes D.image turns.old.nodes turns.old.line grounds.old grounds.new.disks.items) }
    ensures wrote { TellWrote N.nodes D.bytes D.image D.went turns.old.nodes turns.old.line grounds.old
        grounds.new.disks.items }
    ensures inside { IfOk result (TurnedIn (N.tree_over grounds.old.desk.tops)) }
    ensures tops { grounds.new.desk.tops ≡ grounds.old.desk.tops }
    ensures setting { grounds.new.setting ≡ grounds.old.setting }
{
    'picks: loop {
        let keys = pickable(turns.len());
        let choices = keys.saturating_add(grounds.eligible());
        if choices == 0 {
            return Ok(Turned::Nothing);
        }
        let picked = picks.pick(choices);
        let pick = groups_first(turns, helper, picked, keys, choices);
        if pick < keys {
            let key = turns.take(pick as usize);
            help(turns, grounds.alloc, grounds.desk.tops(), helper, key)?;
            match run_turn(turns, grounds, helper, key)? {
                Turned::Nothing => {}
                told => return Ok(told),
            }
        } else {
            issue_group(turns, grounds, pick - keys)?;
        }
    }
}

/// The pick of a key, of so many, or of a group behind them. But where the first key is picked and its node has much to
/// reckon, the first group comes before it, if there is one and the helper waits: so it has many nodes at a time.
fn groups_first<N: Staged, H: Helper<N>>(
    turns: &Turns<N>,
    helper: &H,
    picked: u32,
    keys: u32,
    choices: u32,
) -> u32
    requires { picked < choices }
    ensures { result < choices }
{
    if picked == 0 && keys < choices && helper.waits() && turns.begins_heavy() {
        keys
    } else {
        picked
    }
}

/// How many of so many keys a pick can choose from.
fn pickable(keys: usize) -> u32
    ensures most { result ≤ keys }
    ensures some { result ≡ 0 → keys ≡ 0 }
{
    keys.min(u32::MAX as usize) as u32
}
