//! A round of whole trees.

ghost use Rattle.std.specs.Prelude.{◌≡◌, IfOk, IsErrOf, List as Seq, OnErr, OnOk, length, map};
ghost use Rattle.std.specs.List.{AllByRecursion};
ghost use Rattle.zio_cksum.specs.Images.{Images};
ghost use Rattle.zio_disks.specs.Disks.{AnyRose, AreSameDisks, Tell};
ghost use Rattle.zio_disks.specs.Whole.{IsWholeTree};
ghost use Rattle.zio_course.specs.declared.runner.Stop.TheVariants.{Device};
ghost use Rattle.zio_course.specs.Runners.{AreRunnable, DiffersInRound, IsRound, IsRoundEnd, ended_seen, made_trees, terms_at};
ghost use Rattle.zio_exchange.specs.Waits.{pendings};
ghost use Rattle.zio_exchange.specs.declared.waiting.UnfinishedRequest.{UnfinishedRequest};
ghost use Rattle.zio_turns.specs.UnderTrees.{StateIn};
ghost use Rattle.zio_turns.specs.Wrote.{Wrote};
ghost use Rattle.zio_graph.specs.Crashes.{MayWrite, SparesAll};
ghost use Rattle.zio_graph.specs.Ends.{told_of};
ghost use Rattle.zio_graph.specs.EngineTrees.{IsEngineTree, IsWithinLimits};
ghost use Rattle.zio_graph.specs.InUse.{LeavesInUse};
ghost use Rattle.zio_graph.specs.SteadyGrounds.{IsSteadyGrounds, standing_on};
ghost use Rattle.zio_graph.specs.WholeRounds.{EndsOn, TellLoose};

use crate::ends::{by_number, completions_of, left_of};
use zio_course::{RoundEnd, Stop};
use zio_disks::Stop as DiskStop;
use zio_exchange::{Finished, Whole};
use zio_outside::Disk;
use zio_script::Failmode;
use zio_staged::Staged;
use zio_turns::{Grounds, Helper, Picks, TreeState, Turns, begin_trees, run_trees};
use zio_types::List;

/// Runs a round of these trees, in whatever order is picked, until each finished or is suspended.
///
/// It is stopped by a device exactly where a disk's count of faults rose, else for want of memory; then the grounds
/// aren't to be used for a round. However it ends, no byte was written but of places that were free and of blocks that
/// the trees name, and of each piece of a block in use a good copy was spared.
pub(crate) fn run_wholes<N: Staged, D: Disk + Drop, P: Picks, H: Helper<N>>(
    grounds: &mut Grounds<D>,
    picks: &mut P,
    helper: &H,
    round: u32,
    failmode: Failmode,
    wholes: List<Whole>,
) -> Result<RoundEnd<Whole, Finished<N::Seal>>, Stop>
    requires steady { IsSteadyGrounds D.bytes grounds.old }
    requires trees { AllByRecursion IsEngineTree wholes }
    requires runs { AreRunnable (standing_on D.faults grounds.old) (map pendings wholes) }
    requires over { AllByRecursion (N.tree_over grounds.old.setting.tops) wholes }
    requires can { H.Can }
    ensures round { IfOk result (λ end. (before : Images) → Tell D.image grounds.old.disks.items before
        → (after : Images)
        × Tell D.image grounds.new.disks.items after
        × IsRound (terms_at (standing_on D.faults grounds.old) failmode round grounds.old.setting.point)
        (map pendings wholes)
        before after (ended_seen pendings told_of end)
        × DiffersInRound (standing_on D.faults grounds.old) (map pendings wholes) before after) }
    ensures end { IfOk result (λ end. IsRoundEnd (standing_on D.faults grounds.old) round (map pendings wholes)
        (ended_seen pendings told_of end)) }
    ensures fits { IfOk result (λ end. AllByRecursion IsWholeTree (made_trees (map told_of end.finished))) }
    ensures stands { IfOk result (λ end. LeavesInUse (standing_on D.faults grounds.old) (map pendings wholes)
        (map told_of end.finished)
        grounds.new.desk.space.live) }
    ensures left { ((whole : Seq UnfinishedRequest) → N.tree_over grounds.old.setting.tops whole
        → AllByRecursion IsWithinLimits whole) →
        IfOk result (λ end. AllByRecursion IsEngineTree end.left) }
    ensures over { IfOk result (λ end. AllByRecursion (N.tree_over grounds.old.setting.tops) end.left) }
    ensures steady { OnOk result (IsSteadyGrounds D.bytes grounds.new) }
    ensures faults { OnOk result (map D.faults grounds.new.disks.items ≡ map D.faults grounds.old.disks.items) }
    ensures images { OnErr result (TellLoose D.image (standing_on D.faults grounds.old) (map pendings wholes)
        grounds.old.disks.items grounds.new.disks.items) }
    ensures wrote { Wrote D.went (MayWrite (standing_on D.faults grounds.old) (map pendings wholes))
        grounds.old.disks.items grounds.new.disks.items }
    ensures spares { SparesAll D.image D.went (standing_on D.faults grounds.old) (map pendings wholes)
        grounds.old.disks.items grounds.new.disks.items }
    ensures device { IsErrOf result Stop.Device →
        AnyRose (map D.faults grounds.old.disks.items) (map D.faults grounds.new.disks.items) }
    ensures calm { IsErrOf result Stop.Memory →
        map D.faults grounds.new.disks.items ≡ map D.faults grounds.old.disks.items }
    ensures same { AreSameDisks D.bytes D.faults D.faults_at_fetch D.home D.image D.sound grounds.old.disks.items
        grounds.new.disks.items }
    ensures setting { grounds.new.setting ≡ grounds.old.setting }
    ensures tops { grounds.new.desk.tops ≡ grounds.old.desk.tops }
{
    let alloc = grounds.alloc;
    let TreesEnd { trees, ended } = run_to_end::<N, D, P, H>(
        grounds, picks, helper, round, failmode, wholes,
    )?;
    let entries = grounds.end_round();
    let left = left_of(alloc, trees)?;
    let completions = completions_of(alloc, round, ended.as_slice())?;
    let finished = by_number(ended);
    Ok(RoundEnd {
        finished,
        left,
        completions,
        entries,
    })
}

/// How a round's trees ended.
#[derive(Drop)]
struct TreesEnd<S> {
    /// Each is settled.
    trees: Vec<TreeState>,
    /// In the order in which the requests finished.
    ended: Vec<Finished<S>>,
}

/// Runs the trees until each is settled.
fn run_to_end<N: Staged, D: Disk + Drop, P: Picks, H: Helper<N>>(
    grounds: &mut Grounds<D>,
    picks: &mut P,
    helper: &H,
    round: u32,
    failmode: Failmode,
    wholes: List<Whole>,
) -> Result<TreesEnd<N::Seal>, Stop>
    requires steady { IsSteadyGrounds D.bytes grounds.old }
    requires trees { AllByRecursion IsEngineTree wholes }
    requires runs { AreRunnable (standing_on D.faults grounds.old) (map pendings wholes) }
    requires over { AllByRecursion (N.tree_over grounds.old.setting.tops) wholes }
    requires can { H.Can }
    ensures ends { IfOk result (λ end. EndsOn N.nodes D.bytes D.image grounds.old grounds.new round failmode wholes
        end.trees.items end.ended.items) }
    ensures count { IfOk result (λ end. length end.trees.items ≡ length wholes) }
    ensures over { IfOk result (λ end. AllByRecursion
        (StateIn (N.tree_over grounds.old.setting.tops)) end.trees.items) }
    ensures faults { OnOk result (map D.faults grounds.new.disks.items ≡ map D.faults grounds.old.disks.items) }
    ensures images { TellLoose D.image (standing_on D.faults grounds.old) (map pendings wholes) grounds.old.disks.items
        grounds.new.disks.items }
    ensures wrote { Wrote D.went (MayWrite (standing_on D.faults grounds.old) (map pendings wholes))
        grounds.old.disks.items grounds.new.disks.items }
    ensures spares { SparesAll D.image D.went (standing_on D.faults grounds.old) (map pendings wholes)
        grounds.old.disks.items grounds.new.disks.items }
    ensures device { IsErrOf result Stop.Device →
        AnyRose (map D.faults grounds.old.disks.items) (map D.faults grounds.new.disks.items) }
    ensures calm { IsErrOf result Stop.Memory →
        map D.faults grounds.new.disks.items ≡ map D.faults grounds.old.disks.items }
    ensures same { AreSameDisks D.bytes D.faults D.faults_at_fetch D.home D.image D.sound grounds.old.disks.items
        grounds.new.disks.items }
    ensures setting { grounds.new.setting ≡ grounds.old.setting }
    ensures tops { grounds.new.desk.tops ≡ grounds.old.desk.tops }
{
    let alloc = grounds.alloc;
    let mut turns = Turns::<N>::new(alloc);
    let mut trees = begin_trees(&mut turns, alloc, round, failmode, wholes)?;
    let mut ended = Vec::new(alloc);
    match run_trees(
        &mut turns, grounds, picks, helper, round, failmode, &mut trees, &mut ended,
    ) {
        Ok(()) => Ok(TreesEnd { trees, ended }),
        Err(stop) => Err(stop_of(stop)),
    }
}

/// The same reason, as a runner tells it.
fn stop_of(stop: DiskStop) -> Stop
    ensures device { result ≡ Stop.Device → stop ≡ DiskStop.Device }
    ensures memory { result ≡ Stop.Memory → stop ≡ DiskStop.Memory }
{
    match stop {
        DiskStop::Device => Stop::Device,
        DiskStop::Memory => Stop::Memory,
    }
}
