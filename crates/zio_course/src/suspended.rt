//! The round of a `clear`: the trees that are suspended.

ghost use Rattle.std.specs.Prelude.{◌≡◌, ◌+◌, ◌<◌, ◌≤◌, ◌^◌, [], ℕ, List, IfErr, IfOk, IfSome, IsErrOf, OnOk, false, length, map};
ghost use Rattle.zio_types.specs.Choices.{Choice};
ghost use Rattle.zio_script.specs.Accepted.{AreRising};
ghost use Rattle.zio_cksum.specs.Images.{Images};
ghost use Rattle.zio_gang.specs.Attempts.{Pending};
ghost use Rattle.zio_gang.specs.Rounds.{block_of, bound_after};
ghost use Rattle.zio_report.specs.Lines.{AreWhole};
ghost use Rattle.zio_course.specs.Course.{AreOfRounds};
ghost use Rattle.zio_course.specs.Entered.{IsBatchRun, IsCutShort};
ghost use Rattle.zio_course.specs.Forests.{names_of};
ghost use Rattle.zio_course.specs.Names.{named_in};
ghost use Rattle.zio_course.specs.Runners.{AnyRose, AreRunnable, IsRound, IsRoundEnd, SeenEnd, StandsAfter, stopping_of, terms_at};
ghost use Rattle.zio_course.specs.Steps.{AreUnfinished};
ghost use Rattle.zio_course.specs.Told.{AreFinishedOf, ended_told, line_told, no_error};

use crate::batch::BatchEnd;
use crate::bound::Bound;
use crate::forest::reversed;
use crate::records::Records;
use crate::round::{WholeRound, whole_round};
use crate::runner::{Job, RequestEnd, Runner, Stop};
use crate::told::{take_of, tell_request};
use std::alloc::Global;
use zio_report::ReportLine;
use zio_script::{Failmode, Request};
use zio_types::{List, NoMemory};

/// Runs the trees that are suspended as one round after those that the journal counts. Their requests come by number.
///
/// What it leaves is what the round of a batch leaves in which nothing was answered, also where it is cut short.
pub fn run_suspended<R: Runner, J: Records>(
    alloc: Global,
    runner: &mut R,
    trees: List<R::Tree>,
    unfinished: &[&Request],
    point: u32,
    failmode: Failmode,
    bound: &mut Bound,
    journal: &mut J,
) -> Result<BatchEnd<R::Tree>, Stop>
    requires unfinished { AreUnfinished (map R.pending trees) (map (λ r. r.now) unfinished.now) }
    requires fits { (name : List ℕ) → IfSome (named_in bound.old name) R.fits }
    requires rounds { (J.seen journal.old).rounds + 1 < 2 ^ 32 }
    requires runs { (R.standing runner.old).stopped ≡ false }
    requires next { (R.standing runner.old).last ≤ (J.seen journal.old).rounds }
    requires trees { AreRunnable (R.standing runner.old) (map R.pending trees) }
    requires can { R.Can runner.old }
    requires chosen { AreOfRounds R.chosen (J.seen journal.old).rounds (J.seen journal.old).places }
    requires may { (round : ℕ) (entries : List Choice) → R.chosen round entries → J.may round entries }
    ensures ran { IfOk result (λ ran. (end : SeenEnd)
        × IsBatchRun no_error (map (λ r. r.now) unfinished.now) bound.old bound.new (J.seen journal.old)
        (J.seen journal.new) end ran.lines (map R.pending ran.left)
        × IsRoundEnd (R.standing runner.old) ((J.seen journal.old).rounds + 1) (map R.pending trees) end
        × StandsAfter (R.standing runner.old) (R.standing runner.new) ((J.seen journal.old).rounds + 1)
        (map R.pending trees) end
        × ((before : Images) → R.tells runner.old before → (after : Images) × R.tells runner.new after
        × IsRound (terms_at (R.standing runner.old) failmode ((J.seen journal.old).rounds + 1) point)
        (map R.pending trees) before after end)) }
    ensures shown { IfOk result (λ ran. AreWhole ran.lines) }
    ensures fits { OnOk result ((name : List ℕ) → IfSome (named_in bound.new name) R.fits) }
    ensures cut { IfErr result (λ stop. (before : Images) → R.tells runner.old before → (after : Images)
        × R.tells runner.new after
        × IsCutShort (R.standing runner.old) (R.standing runner.new)
        (stopping_of (R.standing runner.new) (R.stops runner.new)) stop
        (terms_at (R.standing runner.old) failmode ((J.seen journal.old).rounds + 1) point)
        (map R.pending trees) [] (J.seen journal.old) (J.seen journal.new) before after) }
    ensures tops { (R.standing runner.new).tops ≡ (R.standing runner.old).tops }
    ensures rows { (R.standing runner.new).rows ≡ (R.standing runner.old).rows }
    ensures kept { IsErrOf result Stop.Device → (J.seen journal.new) ≡ (J.seen journal.old) }
    ensures device { IsErrOf result Stop.Device
        → AnyRose (R.standing runner.old).faults (R.standing runner.new).faults }
    ensures calm { IsErrOf result Stop.Memory → (R.standing runner.new).faults ≡ (R.standing runner.old).faults }
    ensures can { R.Can runner.new }
    ensures gone { OnOk result (J.gone journal.new ≤ length (J.seen journal.old).places) }
    ensures chosen { AreOfRounds R.chosen (J.seen journal.new).rounds (J.seen journal.new).places }
    ensures same { R.same runner.old runner.new }
{
    let round = journal.rounds() + 1;
    let job = Job {
        round,
        point,
        failmode,
        trees,
    };
    let WholeRound { finished, left } = whole_round(alloc, runner, job, List::new(alloc), journal)?;
    let lines = tell_suspended(alloc, unfinished, finished, bound)?;
    Ok(BatchEnd { lines, left })
}

/// The lines of the requests of suspended trees after their round, by number: of what finished, and of what still
/// waits. Names are bound and unbound as after the round of a batch.
pub fn tell_suspended(
    alloc: Global,
    unfinished: &[&Request],
    finished: List<RequestEnd>,
    bound: &mut Bound,
) -> Result<List<ReportLine>, NoMemory>
    requires rising { AreRising (map (λ r. r.now) unfinished.now) }
    requires finished { AreFinishedOf (map (λ r. r.now) unfinished.now) finished }
    ensures lines { IfOk result (λ lines. lines ≡ map (line_told no_error finished) (map (λ r. r.now) unfinished.now)) }
    ensures bound { OnOk result ((name : List ℕ) → named_in bound.new name
        ≡ block_of (bound_after (ended_told no_error finished (map (λ r. r.now) unfinished.now)) (names_of bound.old))
        name) }
{
    let mut lines = List::new(alloc);
    let mut left = reversed(finished).into_vec();
    for request in unfinished {
        let finished = take_of(&mut left, request.number);
        let line = tell_request(request, None, finished, bound)?;
        lines.push(line)?;
    }
    Ok(lines)
}
