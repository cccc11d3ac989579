//! The line `go` of a script.

ghost use Rattle.std.specs.Prelude.{◌≡◌, ◌∷◌, ◌++◌, ◌+◌, ◌≤◌, ◌||◌, [], ℕ, List, IfErr, IsErrOf, OnOk, map, not};
ghost use Rattle.zio_types.specs.Choices.{Choice};
ghost use Rattle.zio_outside.specs.Outside.{Appends, AppendsFront, Rose};
ghost use Rattle.zio_script.specs.declared.script.Request.{Request};
ghost use Rattle.zio_script.specs.Requests.{requests_of};
ghost use Rattle.zio_gang.specs.Runs.{go_line as go_line_by, goes_on};
ghost use Rattle.zio_report.specs.Reports.{held_text};
ghost use Rattle.zio_course.specs.Course.{AreOfRounds, shown_of};
ghost use Rattle.zio_course.specs.Folds.{batches_seen, fold_seen, has_items};
ghost use Rattle.zio_course.specs.Moves.{HeldWaits, IsGoing, LineCut, LineRan, requests_held};
ghost use Rattle.zio_course.specs.Runners.{AnyRose, stopping_of};

use crate::fold::{Batch, Fold};
use crate::records::Records;
use crate::rounds::batch_round;
use crate::runner::Runner;
use crate::texts::write_held;
use std::alloc::Global;
use std::collections::VecDeque;
use zio_outside::Sink;
use zio_report::{RunFault, Show};
use zio_script::Failmode;
use zio_types::List;

/// Runs a batch as the next round where nothing is suspended or the run goes on without; else it is held.
pub fn go_line<'a, R: Runner, O: Sink, J: Records>(
    alloc: Global,
    failmode: Failmode,
    show: &Show,
    runner: &mut R,
    fold: &mut Fold<'a, R::Tree>,
    held: &mut VecDeque<Batch<'a>>,
    batch: &Batch<'a>,
    out: &mut O,
    journal: &mut J,
) -> Result<(), RunFault>
    requires going { (later : List (List Request)) × (spare : ℕ)
        × IsGoing R.fits (R.standing runner.old) (J.seen journal.old).rounds (fold_seen R.pending fold.old)
        (batches_seen held.old.items) (requests_of batch.now.lines.now ∷ later) (spare + 1) }
    requires number { 1 ≤ batch.now.number }
    requires waits { HeldWaits failmode (map R.pending fold.old.suspended) (batches_seen held.old.items) }
    requires can { R.Can runner.old }
    requires chosen { AreOfRounds R.chosen (J.seen journal.old).rounds (J.seen journal.old).places }
    requires may { (round : ℕ) (entries : List Choice) → R.chosen round entries → J.may round entries }
    ensures ran { OnOk result ((batches : ℕ) → batch.now.number ≡ batches + 1
        → LineRan show.now failmode (R.standing runner.old) (R.standing runner.new) (fold_seen R.pending fold.old)
        (fold_seen R.pending fold.new)
        (record { held = batches_seen held.old.items; batch = requests_of batch.now.lines.now; batches = batches })
        (record { held = batches_seen held.new.items; batch = []; batches = batches + 1 })
        (requests_held (batches_seen held.old.items) ++ requests_of batch.now.lines.now ∷ [])
        (requests_held (batches_seen held.new.items))
        (J.seen journal.old) (J.seen journal.new) (R.tells runner.old) (R.tells runner.new) (O.holds out.old)
        (O.holds out.new) go_line_by) }
    ensures cut { IfErr result (λ fault. (batches : ℕ) → batch.now.number ≡ batches + 1
        → LineCut show.now failmode (R.standing runner.old) (fold_seen R.pending fold.old)
        (record { held = batches_seen held.old.items; batch = requests_of batch.now.lines.now; batches = batches })
        (requests_held (batches_seen held.old.items) ++ requests_of batch.now.lines.now ∷ [])
        (J.seen journal.old) (J.seen journal.new) (R.tells runner.old) (R.tells runner.new)
        (stopping_of (R.standing runner.new) (R.stops runner.new)) (O.holds out.old)
        (O.holds out.new) go_line_by fault) }
    ensures going { OnOk result ((later : List (List Request)) (spare : ℕ)
        → IsGoing R.fits (R.standing runner.old) (J.seen journal.old).rounds (fold_seen R.pending fold.old)
        (batches_seen held.old.items) (requests_of batch.now.lines.now ∷ later) (spare + 1)
        → IsGoing R.fits (R.standing runner.new) (J.seen journal.new).rounds (fold_seen R.pending fold.new)
        (batches_seen held.new.items) later spare) }
    ensures waits { OnOk result (HeldWaits failmode (map R.pending fold.new.suspended) (batches_seen held.new.items)) }
    ensures tops { (R.standing runner.new).tops ≡ (R.standing runner.old).tops }
    ensures rows { (R.standing runner.new).rows ≡ (R.standing runner.old).rows }
    ensures point { fold.new.point ≡ fold.old.point }
    ensures faults { OnOk result ((R.standing runner.new).faults ≡ (R.standing runner.old).faults) }
    ensures quiet { OnOk result (O.faults out.new ≡ O.faults out.old) }
    ensures device { IsErrOf result RunFault.Device
        → AnyRose (R.standing runner.old).faults (R.standing runner.new).faults }
    ensures calm { IsErrOf result RunFault.Memory → (R.standing runner.new).faults ≡ (R.standing runner.old).faults }
    ensures sink { IsErrOf result RunFault.Sink → Rose (O.faults out.old) (O.faults out.new) }
    ensures can { R.Can runner.new }
    ensures chosen { AreOfRounds R.chosen (J.seen journal.new).rounds (J.seen journal.new).places }
    ensures same { R.same runner.old runner.new }
{
    if runs_now(&fold.suspended, failmode) {
        batch_round(alloc, failmode, show, runner, fold, batch, out, journal)
    } else {
        hold(alloc, show, held, *batch, out)
    }
}

/// A batch runs at its `go`, although trees may be suspended.
fn runs_now<T>(suspended: &List<T>, failmode: Failmode) -> bool
    ensures { result ≡ (not (has_items suspended.now) || goes_on failmode) }
{
    match failmode {
        Failmode::Continue => true,
        Failmode::Wait | Failmode::Panic => suspended.is_empty(),
    }
}

/// Holds a batch behind those that are held, and writes its line.
fn hold<'a, O: Sink>(
    alloc: Global,
    show: &Show,
    held: &mut VecDeque<Batch<'a>>,
    batch: Batch<'a>,
    out: &mut O,
) -> Result<(), RunFault>
    ensures held { OnOk result (held.new.items ≡ held.old.items ++ batch.entry ∷ []) }
    ensures ok { OnOk result
        (Appends (O.holds out.old) (O.holds out.new) (shown_of show.now (held_text batch.entry.number))) }
    ensures quiet { OnOk result (O.faults out.new ≡ O.faults out.old) }
    ensures front { IsErrOf result RunFault.Sink
        → AppendsFront (O.holds out.old) (O.holds out.new) (shown_of show.now (held_text batch.entry.number)) }
    ensures rose { IsErrOf result RunFault.Sink → Rose (O.faults out.old) (O.faults out.new) }
    ensures memory { IsErrOf result RunFault.Memory → out.new ≡ out.old }
    ensures device { IsErrOf result RunFault.Device → ⊥ }
{
    if held.push_back(batch).is_err() {
        return Err(RunFault::Memory);
    }
    match show {
        Show::Report { .. } => write_held(alloc, batch.number, out),
        Show::Summary => Ok(()),
    }
}
