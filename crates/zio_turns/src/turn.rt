//! The turn of one node, over what the engine lends.

ghost use Rattle.std.specs.Prelude.{◌≡◌, ◌+◌, ◌<◌, ◌∷◌, ◌++◌, [], Err, IfOk, OnErr, OnOk, if◌then◌else◌};
ghost use Rattle.zio_turns.specs.Slabs.{AreAll};
ghost use Rattle.zio_turns.specs.UnderTurns.{AreSameGrounds, GoesOnSome, TurnedIn, TurnsOn, work_left};

use crate::grounds::Grounds;
use crate::helper::Helper;
use crate::step::Step;
use crate::turns::Turns;
use zio_disks::Stop;
use zio_exchange::{Finished, Outcome};
use zio_outside::Disk;
use zio_staged::Staged;
use zio_types::NoMemory;

/// What a turn has to tell.
#[derive(Drop)]
pub enum Turned<S> {
    /// The node waits for its children or for a leaf, or it is queued again, or it ended as a part of a request.
    Nothing,
    /// A request finished.
    Ended(Finished<S>),
    /// The tree of this number hears of its attempt.
    Root(u32, Outcome<S>),
}

/// The turn of the node under the key: stages one after another until it rests, is at a leaf, or ended, or until it
/// waits for others like it, as the helper wishes. Its operation then waits at the leaf under the key. Each sound round
/// that goes on with the key in front goes on. After a stop, which is for want of memory, nothing is said of the nodes.
pub fn run_turn<N: Staged, D: Disk + Drop, H: Helper<N>>(
    turns: &mut Turns<N>,
    grounds: &mut Grounds<D>,
    helper: &H,
    key: usize,
) -> Result<Turned<N::Seal>, Stop>
    requires going { GoesOnSome N.nodes D.bytes D.image turns.old.nodes (key ∷ turns.old.line) grounds.old }
    requires over { AreAll (N.over grounds.old.desk.tops) turns.old.nodes }
    ensures turns { IfOk result
        (TurnsOn N.nodes D.bytes D.image turns.old.nodes turns.old.line grounds.old turns.new.nodes
        turns.new.line grounds.new key) }
    ensures over { OnOk result (AreAll (N.over grounds.new.desk.tops) turns.new.nodes) }
    ensures less { OnOk result (work_left N.nodes.left turns.new.nodes turns.new.line grounds.new
        < work_left N.nodes.left turns.old.nodes turns.old.line grounds.old + 1) }
    ensures same { AreSameGrounds grounds.old grounds.new }
    ensures inside { IfOk result (TurnedIn (N.tree_over grounds.old.desk.tops)) }
    ensures memory { OnErr result (result ≡ Err Stop.Memory) }
{
    'stages: loop {
        let Ok(step) = turns.step(grounds.alloc, &mut grounds.desk, key) else {
            return Err(Stop::Memory);
        };
        match step {
            Step::Goes => {
                let Ok(queued) = queue_heavy(turns, helper, key) else {
                    return Err(Stop::Memory);
                };
                if queued {
                    return Ok(Turned::Nothing);
                }
            }
            Step::Told(_) => {}
            Step::Rests => return Ok(Turned::Nothing),
            Step::Ended(None) => return Ok(Turned::Nothing),
            Step::Ended(Some(finished)) => return Ok(Turned::Ended(finished)),
            Step::Root(tree, outcome) => return Ok(Turned::Root(tree, outcome)),
            Step::Leaf(op, leaf, bytes) => {
                grounds.put(leaf, key, op, bytes)?;
                return Ok(Turned::Nothing);
            }
        }
    }
}

/// Queues the key again where its node has much to reckon, and the helper has such nodes wait. Whether it did.
#[inline]
fn queue_heavy<N: Staged, H: Helper<N>>(
    turns: &mut Turns<N>,
    helper: &H,
    key: usize,
) -> Result<bool, NoMemory>
    ensures nodes { turns.new.nodes ≡ turns.old.nodes }
    ensures line { IfOk result (λ queued. turns.new.line ≡
        (if queued then turns.old.line ++ key ∷ [] else turns.old.line)) }
{
    if !helper.waits() {
        return Ok(false);
    }
    if !turns.is_heavy(key) {
        return Ok(false);
    }
    turns.requeue(key)?;
    Ok(true)
}
