//! The line `clear` of a script.

ghost use Rattle.std.specs.Prelude.{◌≡◌, ◌+◌, ◌<◌, ◌^◌, [], ℕ, List, IfErr, IsErrOf, OnOk, map};
ghost use Rattle.zio_types.specs.Choices.{Choice};
ghost use Rattle.zio_outside.specs.Outside.{Rose};
ghost use Rattle.zio_script.specs.declared.script.Request.{Request};
ghost use Rattle.zio_gang.specs.Runs.{Batch as DefinedBatch, clear_if, clear_line as clear_line_by, has_trees};
ghost use Rattle.zio_course.specs.Course.{AreOfRounds};
ghost use Rattle.zio_course.specs.Folds.{batches_seen, fold_seen};
ghost use Rattle.zio_course.specs.Moves.{HeldWaits, IsGoing, LineCut, LineRan, StepCut, StepRan, requests_held};
ghost use Rattle.zio_course.specs.Runners.{AnyRose, stopping_of};

use crate::fold::{Batch, Fold};
use crate::held::run_held;
use crate::records::Records;
use crate::rounds::clear_round;
use crate::runner::Runner;
use std::alloc::Global;
use std::collections::VecDeque;
use zio_outside::Sink;
use zio_report::{RunFault, Show};
use zio_script::Failmode;

/// Raises the resume point, runs the trees that are suspended, if there are any, and then held batches while nothing is
/// suspended.
pub fn clear_line<'a, R: Runner, O: Sink, J: Records>(
    alloc: Global,
    failmode: Failmode,
    show: &Show,
    runner: &mut R,
    fold: &mut Fold<'a, R::Tree>,
    held: &mut VecDeque<Batch<'a>>,
    out: &mut O,
    journal: &mut J,
) -> Result<(), RunFault>
    requires going { (later : List (List Request)) × (spare : ℕ)
        × IsGoing R.fits (R.standing runner.old) (J.seen journal.old).rounds (fold_seen R.pending fold.old)
        (batches_seen held.old.items) later (spare + 1) }
    requires point { fold.old.point + 1 < 2 ^ 32 }
    requires waits { HeldWaits failmode (map R.pending fold.old.suspended) (batches_seen held.old.items) }
    requires can { R.Can runner.old }
    requires chosen { AreOfRounds R.chosen (J.seen journal.old).rounds (J.seen journal.old).places }
    requires may { (round : ℕ) (entries : List Choice) → R.chosen round entries → J.may round entries }
    ensures ran { OnOk result ((batch : List Request) (batches : ℕ)
        → LineRan show.now failmode (R.standing runner.old) (R.standing runner.new) (fold_seen R.pending fold.old)
        (fold_seen R.pending fold.new)
        (record { held = batches_seen held.old.items; batch = batch; batches = batches })
        (record { held = batches_seen held.new.items; batch = batch; batches = batches })
        (requests_held (batches_seen held.old.items)) (requests_held (batches_seen held.new.items))
        (J.seen journal.old) (J.seen journal.new) (R.tells runner.old) (R.tells runner.new) (O.holds out.old)
        (O.holds out.new) clear_line_by) }
    ensures cut { IfErr result (λ fault. (batch : List Request) (batches : ℕ)
        → LineCut show.now failmode (R.standing runner.old) (fold_seen R.pending fold.old)
        (record { held = batches_seen held.old.items; batch = batch; batches = batches })
        (requests_held (batches_seen held.old.items))
        (J.seen journal.old) (J.seen journal.new) (R.tells runner.old) (R.tells runner.new)
        (stopping_of (R.standing runner.new) (R.stops runner.new)) (O.holds out.old)
        (O.holds out.new) clear_line_by fault) }
    ensures going { OnOk result ((later : List (List Request)) (spare : ℕ)
        → IsGoing R.fits (R.standing runner.old) (J.seen journal.old).rounds (fold_seen R.pending fold.old)
        (batches_seen held.old.items) later (spare + 1)
        → IsGoing R.fits (R.standing runner.new) (J.seen journal.new).rounds (fold_seen R.pending fold.new)
        (batches_seen held.new.items) later spare) }
    ensures waits { OnOk result (HeldWaits failmode (map R.pending fold.new.suspended) (batches_seen held.new.items)) }
    ensures tops { (R.standing runner.new).tops ≡ (R.standing runner.old).tops }
    ensures rows { (R.standing runner.new).rows ≡ (R.standing runner.old).rows }
    ensures point { fold.new.point ≡ fold.old.point + 1 }
    ensures faults { OnOk result ((R.standing runner.new).faults ≡ (R.standing runner.old).faults) }
    ensures quiet { OnOk result (O.faults out.new ≡ O.faults out.old) }
    ensures device { IsErrOf result RunFault.Device
        → AnyRose (R.standing runner.old).faults (R.standing runner.new).faults }
    ensures calm { IsErrOf result RunFault.Memory → (R.standing runner.new).faults ≡ (R.standing runner.old).faults }
    ensures sink { IsErrOf result RunFault.Sink → Rose (O.faults out.old) (O.faults out.new) }
    ensures can { R.Can runner.new }
    ensures chosen { AreOfRounds R.chosen (J.seen journal.new).rounds (J.seen journal.new).places }
    ensures same { R.same runner.old runner.new }
{
    fold.point += 1;
    run_waiting(alloc, failmode, show, runner, fold, out, journal)?;
    run_held(alloc, failmode, show, runner, fold, held, out, journal)
}

/// Runs the trees that are suspended as the next round, if there are any.
fn run_waiting<'a, R: Runner, O: Sink, J: Records>(
    alloc: Global,
    failmode: Failmode,
    show: &Show,
    runner: &mut R,
    fold: &mut Fold<'a, R::Tree>,
    out: &mut O,
    journal: &mut J,
) -> Result<(), RunFault>
    requires going { (held : List DefinedBatch) × (later : List (List Request)) × (spare : ℕ)
        × IsGoing R.fits (R.standing runner.old) (J.seen journal.old).rounds (fold_seen R.pending fold.old) held later
        (spare + 1) }
    requires can { R.Can runner.old }
    requires chosen { AreOfRounds R.chosen (J.seen journal.old).rounds (J.seen journal.old).places }
    requires may { (round : ℕ) (entries : List Choice) → R.chosen round entries → J.may round entries }
    ensures ran { OnOk result (StepRan show.now failmode (R.standing runner.old) (R.standing runner.new)
        (fold_seen R.pending fold.old) (fold_seen R.pending fold.new) (λ ahead. ahead) [] []
        (J.seen journal.old) (J.seen journal.new) (R.tells runner.old) (R.tells runner.new) (O.holds out.old)
        (O.holds out.new)
        (λ ahead plan st. clear_if (has_trees st.suspended) plan st)) }
    ensures cut { IfErr result (StepCut show.now failmode (R.standing runner.old) (fold_seen R.pending fold.old) []
        (J.seen journal.old) (J.seen journal.new) (R.tells runner.old) (R.tells runner.new)
        (stopping_of (R.standing runner.new) (R.stops runner.new)) (O.holds out.old) (O.holds out.new)
        (λ ahead plan st. clear_if (has_trees st.suspended) plan st)) }
    ensures going { OnOk result ((held : List DefinedBatch) (later : List (List Request)) (spare : ℕ)
        → IsGoing R.fits (R.standing runner.old) (J.seen journal.old).rounds (fold_seen R.pending fold.old) held later
        (spare + 1)
        → IsGoing R.fits (R.standing runner.new) (J.seen journal.new).rounds (fold_seen R.pending fold.new) held later
        spare) }
    ensures tops { (R.standing runner.new).tops ≡ (R.standing runner.old).tops }
    ensures rows { (R.standing runner.new).rows ≡ (R.standing runner.old).rows }
    ensures point { fold.new.point ≡ fold.old.point }
    ensures faults { OnOk result ((R.standing runner.new).faults ≡ (R.standing runner.old).faults) }
    ensures quiet { OnOk result (O.faults out.new ≡ O.faults out.old) }
    ensures device { IsErrOf result RunFault.Device
        → AnyRose (R.standing runner.old).faults (R.standing runner.new).faults }
    ensures calm { IsErrOf result RunFault.Memory → (R.standing runner.new).faults ≡ (R.standing runner.old).faults }
    ensures sink { IsErrOf result RunFault.Sink → Rose (O.faults out.old) (O.faults out.new) }
    ensures can { R.Can runner.new }
    ensures chosen { AreOfRounds R.chosen (J.seen journal.new).rounds (J.seen journal.new).places }
    ensures same { R.same runner.old runner.new }
{
    if fold.suspended.is_empty() {
        Ok(())
    } else {
        clear_round(alloc, failmode, show, runner, fold, out, journal)
    }
}
