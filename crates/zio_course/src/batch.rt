//! The round of a batch.

ghost use Rattle.std.specs.Prelude.{◌≡◌, ◌+◌, ◌<◌, ◌≤◌, ◌^◌, ℕ, List, IfErr, IfOk, IfSome, IsErrOf, OnOk, false, length, map, reverse};
ghost use Rattle.zio_types.specs.Choices.{Choice};
ghost use Rattle.zio_script.specs.Accepted.{AreRising};
ghost use Rattle.zio_script.specs.Requests.{requests_of};
ghost use Rattle.zio_cksum.specs.Images.{Images};
ghost use Rattle.zio_gang.specs.Attempts.{Pending};
ghost use Rattle.zio_gang.specs.Rounds.{pending_trees, trees_of};
ghost use Rattle.zio_report.specs.Lines.{AreWhole};
ghost use Rattle.zio_course.specs.Admissions.{error_in};
ghost use Rattle.zio_course.specs.Answered.{answered_in};
ghost use Rattle.zio_course.specs.Course.{AreOfRounds};
ghost use Rattle.zio_course.specs.Entered.{IsBatchRun, IsCutShort};
ghost use Rattle.zio_course.specs.Forests.{AreReady, names_of, running};
ghost use Rattle.zio_course.specs.Names.{named_in};
ghost use Rattle.zio_course.specs.Runners.{AnyRose, AreRunnable, IsRound, IsRoundEnd, SeenEnd, StandsAfter, stopping_of, terms_at};

use crate::admission::Admission;
use crate::answered::answered_ends;
use crate::bound::Bound;
use crate::forest::trees_to_run;
use crate::records::Records;
use crate::round::{WholeRound, whole_round};
use crate::runner::{Job, Runner, Stop};
use crate::told::tell_batch;
use std::alloc::Global;
use zio_report::ReportLine;
use zio_script::{Failmode, Item};
use zio_types::List;

/// What the round of a batch leaves beside the journal and the bound names.
#[derive(Debug, Drop)]
pub struct BatchEnd<T> {
    /// By number.
    pub lines: List<ReportLine>,
    /// What is left of the trees that are suspended.
    pub left: List<T>,
}

/// Runs a batch as one round after those that the journal counts: the trees that admission lets run, beside what is
/// suspended.
///
/// The lines can be shown: the bytes of reads are whole sectors. The round is in the journal, with the ends of what
/// admission answered, before anything is told of it. Where it is cut short the journal is as it was or has the whole
/// round.
pub fn run_batch<R: Runner, J: Records>(
    alloc: Global,
    runner: &mut R,
    batch: &[Item],
    number: u32,
    point: u32,
    failmode: Failmode,
    admission: &Admission,
    bound: &mut Bound,
    journal: &mut J,
) -> Result<BatchEnd<R::Tree>, Stop>
    requires rising { AreRising (requests_of batch.now) }
    requires ready { AreReady number bound.old
        (running admission.now.slots.entries admission.now.rules.items batch.now) }
    requires fits { (name : List ℕ) → IfSome (named_in bound.old name) R.fits }
    requires rounds { (J.seen journal.old).rounds + 1 < 2 ^ 32 }
    requires runs { (R.standing runner.old).stopped ≡ false }
    requires next { (R.standing runner.old).last ≤ (J.seen journal.old).rounds }
    requires trees { AreRunnable (R.standing runner.old)
        (pending_trees (names_of bound.old) number
        (trees_of (running admission.now.slots.entries admission.now.rules.items batch.now))) }
    requires can { R.Can runner.old }
    requires chosen { AreOfRounds R.chosen (J.seen journal.old).rounds (J.seen journal.old).places }
    requires may { (round : ℕ) (entries : List Choice) → R.chosen round entries → J.may round entries }
    ensures ran { IfOk result (λ ran. (end : SeenEnd)
        × IsBatchRun (error_in admission.now.slots.entries admission.now.rules.items)
        (requests_of batch.now) bound.old bound.new (J.seen journal.old) (J.seen journal.new) end ran.lines
        (map R.pending ran.left)
        × IsRoundEnd (R.standing runner.old) ((J.seen journal.old).rounds + 1)
        (pending_trees (names_of bound.old) number
        (trees_of (running admission.now.slots.entries admission.now.rules.items batch.now))) end
        × StandsAfter (R.standing runner.old) (R.standing runner.new) ((J.seen journal.old).rounds + 1)
        (pending_trees (names_of bound.old) number
        (trees_of (running admission.now.slots.entries admission.now.rules.items batch.now))) end
        × ((before : Images) → R.tells runner.old before → (after : Images) × R.tells runner.new after
        × IsRound (terms_at (R.standing runner.old) failmode ((J.seen journal.old).rounds + 1) point)
        (pending_trees (names_of bound.old) number
        (trees_of (running admission.now.slots.entries admission.now.rules.items batch.now))) before after end)) }
    ensures shown { IfOk result (λ ran. AreWhole ran.lines) }
    ensures fits { OnOk result ((name : List ℕ) → IfSome (named_in bound.new name) R.fits) }
    ensures cut { IfErr result (λ stop. (before : Images) → R.tells runner.old before → (after : Images)
        × R.tells runner.new after
        × IsCutShort (R.standing runner.old) (R.standing runner.new)
        (stopping_of (R.standing runner.new) (R.stops runner.new)) stop
        (terms_at (R.standing runner.old) failmode ((J.seen journal.old).rounds + 1) point)
        (pending_trees (names_of bound.old) number
        (trees_of (running admission.now.slots.entries admission.now.rules.items batch.now)))
        (reverse (answered_in (error_in admission.now.slots.entries admission.now.rules.items)
        ((J.seen journal.old).rounds + 1) (requests_of batch.now)))
        (J.seen journal.old) (J.seen journal.new) before after) }
    ensures tops { (R.standing runner.new).tops ≡ (R.standing runner.old).tops }
    ensures rows { (R.standing runner.new).rows ≡ (R.standing runner.old).rows }
    ensures kept { IsErrOf result Stop.Device → (J.seen journal.new) ≡ (J.seen journal.old) }
    ensures device { IsErrOf result Stop.Device
        → AnyRose (R.standing runner.old).faults (R.standing runner.new).faults }
    ensures calm { IsErrOf result Stop.Memory → (R.standing runner.new).faults ≡ (R.standing runner.old).faults }
    ensures can { R.Can runner.new }
    ensures gone { OnOk result (J.gone journal.new ≤ length (J.seen journal.old).places) }
    ensures chosen { AreOfRounds R.chosen (J.seen journal.new).rounds (J.seen journal.new).places }
    ensures same { R.same runner.old runner.new }
{
    let trees = trees_to_run(alloc, runner, batch, number, bound, admission)?;
    let round = journal.rounds() + 1;
    let answered = answered_ends(alloc, batch, admission, round)?;
    let job = Job {
        round,
        point,
        failmode,
        trees,
    };
    let WholeRound { finished, left } = whole_round(alloc, runner, job, answered, journal)?;
    let lines = tell_batch(alloc, batch, admission, finished, bound)?;
    Ok(BatchEnd { lines, left })
}
