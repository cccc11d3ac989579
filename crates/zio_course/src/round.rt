//! A whole round: it is run, and enters the journal.

ghost use Rattle.std.specs.Prelude.{◌≡◌, ◌++◌, ◌+◌, ◌<◌, ◌≤◌, ◌^◌, ℕ, List, IfErr, IfOk, IsErrOf, OnErr, OnOk, false, length, map};
ghost use Rattle.std.specs.List.{AllByRecursion};
ghost use Rattle.zio_types.specs.Choices.{Choice};
ghost use Rattle.zio_cksum.specs.Images.{Images};
ghost use Rattle.zio_gang.specs.Attempts.{Pending};
ghost use Rattle.zio_course.specs.Course.{AreOfRounds};
ghost use Rattle.zio_course.specs.Entered.{IsEntered};
ghost use Rattle.zio_course.specs.Runners.{AnyRose, AreRunnable, DiffersInRound, IsCutRound, IsRound, IsRoundEnd, SeenEnd, StandsAfter, made_trees, stopping_of, terms_at};

use crate::records::Records;
use crate::runner::{Job, RequestEnd, RoundEnd, Runner, Stop};
use std::alloc::Global;
use zio_types::{Completion, List, NoMemory};

/// What a whole round leaves beside the journal.
#[derive(Debug, Drop)]
pub struct WholeRound<T> {
    /// By number.
    pub finished: List<RequestEnd>,
    /// What is left of the trees that are suspended.
    pub left: List<T>,
}

/// Runs a round, and enters it in the journal once it is whole: its entries, and its completions behind those of the
/// requests that admission answered.
///
/// Where it is stopped, or memory for the journal is refused, the journal is as it was. What it did to the images then
/// lies in sectors that no place in use had, and in places of blocks that its trees name.
pub fn whole_round<R: Runner, J: Records>(
    alloc: Global,
    runner: &mut R,
    job: Job<R::Tree>,
    answered: List<Completion>,
    journal: &mut J,
) -> Result<WholeRound<R::Tree>, Stop>
    requires rounds { (J.seen journal.old).rounds + 1 < 2 ^ 32 }
    requires number { job.round ≡ (J.seen journal.old).rounds + 1 }
    requires runs { (R.standing runner.old).stopped ≡ false }
    requires next { (R.standing runner.old).last < job.round }
    requires trees { AreRunnable (R.standing runner.old) (map R.pending job.trees) }
    requires can { R.Can runner.old }
    requires chosen { AreOfRounds R.chosen (J.seen journal.old).rounds (J.seen journal.old).places }
    requires may { (round : ℕ) (entries : List Choice) → R.chosen round entries → J.may round entries }
    ensures whole { IfOk result (λ ran. (end : SeenEnd)
        × IsEntered answered (J.seen journal.old) (J.seen journal.new) end ran.finished (map R.pending ran.left)
        × IsRoundEnd (R.standing runner.old) job.round (map R.pending job.trees) end
        × StandsAfter (R.standing runner.old) (R.standing runner.new) job.round (map R.pending job.trees) end
        × ((before : Images) → R.tells runner.old before → (after : Images) × R.tells runner.new after
        × IsRound (terms_at (R.standing runner.old) job.failmode job.round job.point)
        (map R.pending job.trees) before after end)) }
    ensures fits { IfOk result (λ ran. AllByRecursion R.fits (made_trees ran.finished)) }
    ensures kept { OnErr result ((J.seen journal.new) ≡ (J.seen journal.old)) }
    ensures cut { IfErr result (λ stop. (before : Images) → R.tells runner.old before → (after : Images)
        × R.tells runner.new after
        × IsCutRound stop (stopping_of (R.standing runner.new) (R.stops runner.new))
        (terms_at (R.standing runner.old) job.failmode job.round job.point) (map R.pending job.trees) before after
        × DiffersInRound (R.standing runner.old) (map R.pending job.trees) before after) }
    ensures tops { (R.standing runner.new).tops ≡ (R.standing runner.old).tops }
    ensures rows { (R.standing runner.new).rows ≡ (R.standing runner.old).rows }
    ensures device { IsErrOf result Stop.Device
        → AnyRose (R.standing runner.old).faults (R.standing runner.new).faults }
    ensures calm { IsErrOf result Stop.Memory → (R.standing runner.new).faults ≡ (R.standing runner.old).faults }
    ensures can { R.Can runner.new }
    ensures gone { OnOk result (J.gone journal.new ≤ length (J.seen journal.old).places) }
    ensures chosen { AreOfRounds R.chosen (J.seen journal.new).rounds (J.seen journal.new).places }
    ensures same { R.same runner.old runner.new }
{
    // The rounds before were told.
    journal.let_go(alloc);
    let RoundEnd {
        finished,
        left,
        completions,
        entries,
    } = runner.round(job)?;
    let finished = told_of::<R>(alloc, finished)?;
    let completions = both(answered, completions)?;
    journal.enter(alloc, entries, completions)?;
    Ok(WholeRound { finished, left })
}

/// What is told of each request, in the same order.
fn told_of<R: Runner>(
    alloc: Global,
    finished: List<R::Finished>,
) -> Result<List<RequestEnd>, NoMemory>
    ensures { IfOk result (λ told. told ≡ map R.told finished) }
{
    let mut told = List::new(alloc);
    for one in finished.into_rest() {
        told.push(R::told(one))?;
    }
    Ok(told)
}

/// The items of both, one list after the other.
pub(crate) fn both<T: Drop>(first: List<T>, more: List<T>) -> Result<List<T>, NoMemory>
    ensures { IfOk result (λ items. items ≡ first ++ more) }
{
    let mut items = first.into_vec();
    let mut more = more.into_vec();
    items.append(&mut more)?;
    Ok(List::from_vec(items))
}
