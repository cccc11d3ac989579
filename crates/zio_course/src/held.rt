//! Batches that are held until nothing is suspended.

ghost use Rattle.std.specs.Prelude.{◌≡◌, ◌≤◌, ◌⊎◌, [], ℕ, List, IfErr, IsErrOf, OnOk, length, true};
ghost use Rattle.zio_types.specs.Choices.{Choice};
ghost use Rattle.zio_outside.specs.Outside.{Rose};
ghost use Rattle.zio_script.specs.declared.script.Request.{Request};
ghost use Rattle.zio_gang.specs.Runs.{run_held as run_held_by};
ghost use Rattle.zio_course.specs.Course.{AreOfRounds};
ghost use Rattle.zio_course.specs.Folds.{batches_seen, fold_seen, has_items};
ghost use Rattle.zio_course.specs.Moves.{IsGoing, StepCut, StepRan, requests_held};
ghost use Rattle.zio_course.specs.Runners.{AnyRose, stopping_of};

use crate::fold::{Batch, Fold};
use crate::records::Records;
use crate::rounds::batch_round;
use crate::runner::Runner;
use std::alloc::Global;
use std::collections::VecDeque;
use zio_outside::Sink;
use zio_report::{RunFault, Show};
use zio_script::Failmode;

/// Runs held batches in their order while nothing is suspended. The others stay.
pub fn run_held<'a, R: Runner, O: Sink, J: Records>(
    alloc: Global,
    failmode: Failmode,
    show: &Show,
    runner: &mut R,
    fold: &mut Fold<'a, R::Tree>,
    held: &mut VecDeque<Batch<'a>>,
    out: &mut O,
    journal: &mut J,
) -> Result<(), RunFault>
    requires going { (later : List (List Request)) × (spare : ℕ)
        × IsGoing R.fits (R.standing runner.old) (J.seen journal.old).rounds (fold_seen R.pending fold.old)
        (batches_seen held.old.items) later spare }
    requires can { R.Can runner.old }
    requires chosen { AreOfRounds R.chosen (J.seen journal.old).rounds (J.seen journal.old).places }
    requires may { (round : ℕ) (entries : List Choice) → R.chosen round entries → J.may round entries }
    ensures ran { OnOk result (StepRan show.now failmode (R.standing runner.old) (R.standing runner.new)
        (fold_seen R.pending fold.old) (fold_seen R.pending fold.new)
        (λ ahead. record ahead { held = batches_seen held.new.items }) (requests_held (batches_seen held.old.items))
        (requests_held (batches_seen held.new.items))
        (J.seen journal.old) (J.seen journal.new) (R.tells runner.old) (R.tells runner.new) (O.holds out.old)
        (O.holds out.new)
        (λ ahead plan st. run_held_by plan (batches_seen held.old.items) st)) }
    ensures cut { IfErr result (StepCut show.now failmode (R.standing runner.old) (fold_seen R.pending fold.old)
        (requests_held (batches_seen held.old.items))
        (J.seen journal.old) (J.seen journal.new) (R.tells runner.old) (R.tells runner.new)
        (stopping_of (R.standing runner.new) (R.stops runner.new)) (O.holds out.old) (O.holds out.new)
        (λ ahead plan st. run_held_by plan (batches_seen held.old.items) st)) }
    ensures going { OnOk result ((later : List (List Request)) (spare : ℕ)
        → IsGoing R.fits (R.standing runner.old) (J.seen journal.old).rounds (fold_seen R.pending fold.old)
        (batches_seen held.old.items) later spare
        → IsGoing R.fits (R.standing runner.new) (J.seen journal.new).rounds (fold_seen R.pending fold.new)
        (batches_seen held.new.items) later spare) }
    ensures over { OnOk result ((has_items fold.new.suspended ≡ true) ⊎ (held.new.items ≡ [])) }
    ensures less { length held.new.items ≤ length held.old.items }
    ensures tops { (R.standing runner.new).tops ≡ (R.standing runner.old).tops }
    ensures rows { (R.standing runner.new).rows ≡ (R.standing runner.old).rows }
    ensures point { fold.new.point ≡ fold.old.point }
    ensures faults { OnOk result ((R.standing runner.new).faults ≡ (R.standing runner.old).faults) }
    ensures quiet { OnOk result (O.faults out.new ≡ O.faults out.old) }
    ensures device { IsErrOf result RunFault.Device
        → AnyRose (R.standing runner.old).faults (R.standing runner.new).faults }
    ensures calm { IsErrOf result RunFault.Memory → (R.standing runner.new).faults ≡ (R.standing runner.old).faults }
    ensures sink { IsErrOf result RunFault.Sink → Rose (O.faults out.old) (O.faults out.new) }
    ensures can { R.Can runner.new }
    ensures chosen { AreOfRounds R.chosen (J.seen journal.new).rounds (J.seen journal.new).places }
    ensures same { R.same runner.old runner.new }
{
    while fold.suspended.is_empty() {
        let Some(batch) = held.pop_front() else {
            break;
        };
        batch_round(alloc, failmode, show, runner, fold, &batch, out, journal)?;
    }
    Ok(())
}
