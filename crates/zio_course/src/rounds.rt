//! A round of a script's run, from admission to its text.

ghost use Rattle.std.specs.Prelude.{◌≡◌, ◌&&◌, ◌||◌, IfOk, ◌∷◌, ◌++◌, ◌+◌, ◌*◌, ◌<◌, ◌≤◌, ◌^◌, [], ℕ, List, IfErr, IsErrOf, None, OnErr, OnOk, Some, drop, length, map};
ghost use Rattle.std.specs.List.{AllByRecursion};
ghost use Rattle.zio_types.specs.Choices.{Choice};
ghost use Rattle.zio_outside.specs.Outside.{Appends, AppendsFront, Rose};
ghost use Rattle.zio_script.specs.declared.script.Request.{Request};
ghost use Rattle.zio_script.specs.declared.script.Script.{Script};
ghost use Rattle.zio_script.specs.Accepted.{AreRising, IsOrderlyBatch};
ghost use Rattle.zio_script.specs.Requests.{requests_of};
ghost use Rattle.zio_cksum.specs.Images.{Images};
ghost use Rattle.zio_gang.specs.Runs.{Course, Plan, State, run_suspended as run_suspended_by, is_panic, run_batch as run_batch_by, then_course};
ghost use Rattle.zio_report.specs.declared.report.ReportLine.{ReportLine};
ghost use Rattle.zio_gang.specs.Rounds.{trees_of};
ghost use Rattle.zio_course.specs.Admissions.{IsAdmission};
ghost use Rattle.zio_course.specs.Course.{AreOfRounds};
ghost use Rattle.zio_course.specs.Names.{is_name_in, is_some_name};
ghost use Rattle.zio_report.specs.Lines.{AreWhole, round_text};
ghost use Rattle.zio_report.specs.Reports.{RunSize};
ghost use Rattle.zio_course.specs.Folds.{IsSteady, batch_seen, counted_in, fold_seen, has_items, is_named_by, waiting_of};
ghost use Rattle.zio_course.specs.Runners.{AnyRose, rows_tell_apart, stopping_of};
ghost use Rattle.zio_course.specs.SoFar.{Ahead, IsCourseAt, IsCut, IsCutText};

use crate::admission::Admission;
use crate::batch::{BatchEnd, run_batch};
use crate::fold::{Batch, Fold, requests_in};
use crate::records::Records;
use crate::runner::{Runner, Stop};
use crate::suspended::run_suspended;
use crate::texts::write_round;
use std::alloc::Global;
use std::mem;
use zio_outside::Sink;
use zio_report::{ReportLine, RoundHead, RunFault, Show};
use zio_script::{Failmode, Request};
use zio_types::List;

/// Runs a batch as the next round, beside what is suspended, and writes its text.
///
/// The trees that are left wait behind those that are suspended.
pub fn batch_round<'a, R: Runner, O: Sink, J: Records>(
    alloc: Global,
    failmode: Failmode,
    show: &Show,
    runner: &mut R,
    fold: &mut Fold<'a, R::Tree>,
    batch: &Batch<'a>,
    out: &mut O,
    journal: &mut J,
) -> Result<(), RunFault>
    requires steady { IsSteady R.fits (R.standing runner.old) (J.seen journal.old).rounds
        (fold_seen R.pending fold.old) }
    requires rising { AreRising (map (λ r. r.now) fold.old.unfinished.items ++ requests_of batch.now.lines.now) }
    requires orderly { IsOrderlyBatch (rows_tell_apart (R.standing runner.old).rows) (requests_of batch.now.lines.now) }
    requires number { 1 ≤ batch.now.number }
    requires rounds { (J.seen journal.old).rounds + 1 < 2 ^ 32 }
    requires few { fold.old.tally.good + fold.old.tally.bad + length (requests_of batch.now.lines.now) < 2 ^ 32 }
    requires can { R.Can runner.old }
    requires chosen { AreOfRounds R.chosen (J.seen journal.old).rounds (J.seen journal.old).places }
    requires may { (round : ℕ) (entries : List Choice) → R.chosen round entries → J.may round entries }
    ensures ran { OnOk result ((n : RunSize) (script : Script) (before images : Images) (ahead : Ahead)
        (later : List (List Request)) (printed : List ℕ) (rest : Plan → State → Course) →
        script.failmode ≡ failmode
        → AllByRecursion (IsOrderlyBatch (rows_tell_apart (R.standing runner.old).rows)) later
        → IsCourseAt show.now n script before (R.standing runner.old) (fold_seen R.pending fold.old) ahead
        (requests_of batch.now.lines.now ∷ later) (J.seen journal.old) images printed
        (λ plan st. then_course (run_batch_by plan (batch_seen batch.now) st) (rest plan))
        → R.tells runner.old images → (after : Images) × (more : List ℕ)
        × IsCourseAt show.now n script before (R.standing runner.new)
        (fold_seen R.pending fold.new) ahead later (J.seen journal.new) after (printed ++ more) rest
        × R.tells runner.new after × Appends (O.holds out.old) (O.holds out.new) more) }
    ensures cut { IfErr result (λ fault. (n : RunSize) (script : Script) (before images : Images) (ahead : Ahead)
        (later : List (List Request)) (printed : List ℕ) (rest : Plan → State → Course) →
        script.failmode ≡ failmode
        → AllByRecursion (IsOrderlyBatch (rows_tell_apart (R.standing runner.old).rows)) later
        → IsCourseAt show.now n script before (R.standing runner.old) (fold_seen R.pending fold.old) ahead
        (requests_of batch.now.lines.now ∷ later) (J.seen journal.old) images printed
        (λ plan st. then_course (run_batch_by plan (batch_seen batch.now) st) (rest plan))
        → R.tells runner.old images → (after : Images) × (text : List ℕ)
        × IsCut show.now n script before (R.standing runner.old).tops
        (stopping_of (R.standing runner.new) (R.stops runner.new)) fault (J.seen journal.new) after text
        × R.tells runner.new after × IsCutText fault (O.holds out.old) (O.holds out.new) printed text) }
    ensures waits { OnOk result ((lines : List ReportLine)
        × (map (λ r. r.now) fold.new.unfinished.items ≡ map (λ r. r.now) fold.old.unfinished.items
        ++ waiting_of (requests_of batch.now.lines.now) lines)) }
    ensures few { OnOk result (fold.new.tally.good + fold.new.tally.bad + length fold.new.unfinished.items
        ≡ fold.old.tally.good + fold.old.tally.bad + length fold.old.unfinished.items + length
        (requests_of batch.now.lines.now)) }
    ensures point { fold.new.point ≡ fold.old.point }
    ensures steady { OnOk result (IsSteady R.fits (R.standing runner.new) (J.seen journal.new).rounds
        (fold_seen R.pending fold.new)) }
    ensures counted { OnOk result ((J.seen journal.new).rounds ≡ (J.seen journal.old).rounds + 1) }
    ensures tops { (R.standing runner.new).tops ≡ (R.standing runner.old).tops }
    ensures rows { (R.standing runner.new).rows ≡ (R.standing runner.old).rows }
    ensures faults { OnOk result ((R.standing runner.new).faults ≡ (R.standing runner.old).faults) }
    ensures quiet { OnOk result (O.faults out.new ≡ O.faults out.old) }
    ensures device { IsErrOf result RunFault.Device
        → AnyRose (R.standing runner.old).faults (R.standing runner.new).faults }
    ensures calm { IsErrOf result RunFault.Memory → (R.standing runner.new).faults ≡ (R.standing runner.old).faults }
    ensures sink { IsErrOf result RunFault.Sink → Rose (O.faults out.old) (O.faults out.new) }
    ensures can { R.Can runner.new }
    ensures chosen { AreOfRounds R.chosen (J.seen journal.new).rounds (J.seen journal.new).places }
    ensures same { R.same runner.old runner.new }
{
    let requests = batch_requests(alloc, batch)?;
    let admission = admit(alloc, fold, batch)?;
    let (places, completions) = (journal.entries(), journal.completions().len());
    let end = run_batch(
        alloc,
        runner,
        batch.lines,
        batch.number,
        fold.point,
        failmode,
        &admission,
        &mut fold.bound,
        journal,
    )?;
    let head = RoundHead {
        round: journal.rounds(),
        batch: Some(batch.number),
        point: fold.point,
    };
    end_round(
        alloc,
        failmode,
        show,
        fold,
        requests.as_slice(),
        end,
        &head,
        journal,
        places,
        completions,
        out,
    )
}

/// Runs the trees that are suspended as the next round, and writes its text.
pub fn clear_round<'a, R: Runner, O: Sink, J: Records>(
    alloc: Global,
    failmode: Failmode,
    show: &Show,
    runner: &mut R,
    fold: &mut Fold<'a, R::Tree>,
    out: &mut O,
    journal: &mut J,
) -> Result<(), RunFault>
    requires steady { IsSteady R.fits (R.standing runner.old) (J.seen journal.old).rounds
        (fold_seen R.pending fold.old) }
    requires rounds { (J.seen journal.old).rounds + 1 < 2 ^ 32 }
    requires few { fold.old.tally.good + fold.old.tally.bad + length fold.old.unfinished.items < 2 ^ 32 }
    requires can { R.Can runner.old }
    requires chosen { AreOfRounds R.chosen (J.seen journal.old).rounds (J.seen journal.old).places }
    requires may { (round : ℕ) (entries : List Choice) → R.chosen round entries → J.may round entries }
    ensures ran { OnOk result ((n : RunSize) (script : Script) (before images : Images) (ahead : Ahead)
        (later : List (List Request)) (printed : List ℕ) (rest : Plan → State → Course) →
        script.failmode ≡ failmode
        → AllByRecursion (IsOrderlyBatch (rows_tell_apart (R.standing runner.old).rows)) later
        → IsCourseAt show.now n script before (R.standing runner.old)
        (fold_seen R.pending fold.old) ahead later (J.seen journal.old) images printed
        (λ plan st. then_course (run_suspended_by plan st) (rest plan))
        → R.tells runner.old images → (after : Images) × (more : List ℕ)
        × IsCourseAt show.now n script before (R.standing runner.new)
        (fold_seen R.pending fold.new) ahead later (J.seen journal.new) after (printed ++ more) rest
        × R.tells runner.new after × Appends (O.holds out.old) (O.holds out.new) more) }
    ensures cut { IfErr result (λ fault. (n : RunSize) (script : Script) (before images : Images) (ahead : Ahead)
        (later : List (List Request)) (printed : List ℕ) (rest : Plan → State → Course) →
        script.failmode ≡ failmode
        → AllByRecursion (IsOrderlyBatch (rows_tell_apart (R.standing runner.old).rows)) later
        → IsCourseAt show.now n script before (R.standing runner.old)
        (fold_seen R.pending fold.old) ahead later (J.seen journal.old) images printed
        (λ plan st. then_course (run_suspended_by plan st) (rest plan))
        → R.tells runner.old images → (after : Images) × (text : List ℕ)
        × IsCut show.now n script before (R.standing runner.old).tops
        (stopping_of (R.standing runner.new) (R.stops runner.new)) fault (J.seen journal.new) after text
        × R.tells runner.new after × IsCutText fault (O.holds out.old) (O.holds out.new) printed text) }
    ensures waits { OnOk result ((lines : List ReportLine)
        × (map (λ r. r.now) fold.new.unfinished.items
        ≡ waiting_of (map (λ r. r.now) fold.old.unfinished.items) lines)) }
    ensures few { OnOk result (fold.new.tally.good + fold.new.tally.bad + length fold.new.unfinished.items
        ≡ fold.old.tally.good + fold.old.tally.bad + length fold.old.unfinished.items) }
    ensures point { fold.new.point ≡ fold.old.point }
    ensures steady { OnOk result (IsSteady R.fits (R.standing runner.new) (J.seen journal.new).rounds
        (fold_seen R.pending fold.new)) }
    ensures counted { OnOk result ((J.seen journal.new).rounds ≡ (J.seen journal.old).rounds + 1) }
    ensures tops { (R.standing runner.new).tops ≡ (R.standing runner.old).tops }
    ensures rows { (R.standing runner.new).rows ≡ (R.standing runner.old).rows }
    ensures faults { OnOk result ((R.standing runner.new).faults ≡ (R.standing runner.old).faults) }
    ensures quiet { OnOk result (O.faults out.new ≡ O.faults out.old) }
    ensures device { IsErrOf result RunFault.Device
        → AnyRose (R.standing runner.old).faults (R.standing runner.new).faults }
    ensures calm { IsErrOf result RunFault.Memory → (R.standing runner.new).faults ≡ (R.standing runner.old).faults }
    ensures sink { IsErrOf result RunFault.Sink → Rose (O.faults out.old) (O.faults out.new) }
    ensures can { R.Can runner.new }
    ensures chosen { AreOfRounds R.chosen (J.seen journal.new).rounds (J.seen journal.new).places }
    ensures same { R.same runner.old runner.new }
{
    let requests = mem::replace(&mut fold.unfinished, Vec::new(alloc));
    let trees = mem::replace(&mut fold.suspended, List::new(alloc));
    fold.awaited.clear();
    let (places, completions) = (journal.entries(), journal.completions().len());
    let end = run_suspended(
        alloc,
        runner,
        trees,
        requests.as_slice(),
        fold.point,
        failmode,
        &mut fold.bound,
        journal,
    )?;
    let head = RoundHead {
        round: journal.rounds(),
        batch: None,
        point: fold.point,
    };
    end_round(
        alloc,
        failmode,
        show,
        fold,
        requests.as_slice(),
        end,
        &head,
        journal,
        places,
        completions,
        out,
    )
}

/// Notes what became of a round's requests, and writes the round's text. Its entries and completions are those of the
/// journal from these on.
pub(crate) fn end_round<'a, T: Drop, O: Sink, J: Records>(
    alloc: Global,
    failmode: Failmode,
    show: &Show,
    fold: &mut Fold<'a, T>,
    requests: &[&'a Request],
    end: BatchEnd<T>,
    head: &RoundHead,
    journal: &J,
    places: usize,
    completions: usize,
    out: &mut O,
) -> Result<(), RunFault>
    requires lengths { length requests.now ≡ length end.lines }
    requires whole { AreWhole end.lines }
    requires few { fold.old.tally.good + fold.old.tally.bad + length end.lines < 2 ^ 32 }
    requires sums { fold.old.tally.read ≤ fold.old.tally.good * 2 ^ 64 }
    requires gone { J.gone journal.now ≤ places }
    requires places { places ≤ length (J.seen journal.now).places }
    requires completions { completions ≤ length (J.seen journal.now).completions }
    ensures bound { fold.new.bound ≡ fold.old.bound }
    ensures point { fold.new.point ≡ fold.old.point }
    ensures suspended { OnOk result (fold.new.suspended ≡ fold.old.suspended ++ end.left) }
    ensures unfinished { OnOk result (map (λ r. r.now) fold.new.unfinished.items
        ≡ map (λ r. r.now) fold.old.unfinished.items ++ waiting_of (map (λ r. r.now) requests.now) end.lines) }
    ensures awaited { OnOk result ((name : List ℕ)
        → is_name_in fold.new.awaited name
        ≡ (is_name_in fold.old.awaited name || is_named_by (waiting_of (map (λ r. r.now) requests.now) end.lines)
        name)) }
    ensures tally { OnOk result (fold.new.tally ≡ counted_in end.lines fold.old.tally) }
    ensures sums { OnOk result (fold.new.tally.read ≤ fold.new.tally.good * 2 ^ 64) }
    ensures panicked { OnOk result (fold.new.panicked ≡ (is_panic failmode && has_items end.left)) }
    ensures ok { OnOk result
        (Appends (O.holds out.old) (O.holds out.new)
        (round_text show.now head.now end.lines (drop places (J.seen journal.now).places)
        (drop completions (J.seen journal.now).completions))) }
    ensures quiet { OnOk result (O.faults out.new ≡ O.faults out.old) }
    ensures front { IsErrOf result RunFault.Sink
        → AppendsFront (O.holds out.old) (O.holds out.new)
        (round_text show.now head.now end.lines (drop places (J.seen journal.now).places)
        (drop completions (J.seen journal.now).completions)) }
    ensures rose { IsErrOf result RunFault.Sink → Rose (O.faults out.old) (O.faults out.new) }
    ensures memory { IsErrOf result RunFault.Memory → out.new ≡ out.old }
    ensures device { IsErrOf result RunFault.Device → ⊥ }
{
    let BatchEnd { lines, left } = end;
    note(alloc, failmode, fold, requests, lines.as_slice(), left)?;
    write_round(
        alloc,
        show,
        head,
        lines.as_slice(),
        journal.entries_behind(places),
        &journal.completions()[completions..],
        out,
    )
}

/// Notes what became of a round's requests, and what is left of its trees.
fn note<'a, T: Drop>(
    alloc: Global,
    failmode: Failmode,
    fold: &mut Fold<'a, T>,
    requests: &[&'a Request],
    lines: &[ReportLine],
    left: List<T>,
) -> Result<(), Stop>
    requires lengths { length requests.now ≡ length lines.now }
    requires few { fold.old.tally.good + fold.old.tally.bad + length lines.now < 2 ^ 32 }
    requires sums { fold.old.tally.read ≤ fold.old.tally.good * 2 ^ 64 }
    ensures bound { fold.new.bound ≡ fold.old.bound }
    ensures point { fold.new.point ≡ fold.old.point }
    ensures suspended { OnOk result (fold.new.suspended ≡ fold.old.suspended ++ left) }
    ensures unfinished { OnOk result (map (λ r. r.now) fold.new.unfinished.items
        ≡ map (λ r. r.now) fold.old.unfinished.items ++ waiting_of (map (λ r. r.now) requests.now) lines.now) }
    ensures awaited { OnOk result ((name : List ℕ)
        → is_name_in fold.new.awaited name
        ≡ (is_name_in fold.old.awaited name || is_named_by (waiting_of (map (λ r. r.now) requests.now) lines.now)
        name)) }
    ensures tally { OnOk result (fold.new.tally ≡ counted_in lines.now fold.old.tally) }
    ensures sums { OnOk result (fold.new.tally.read ≤ fold.new.tally.good * 2 ^ 64) }
    ensures panicked { OnOk result (fold.new.panicked ≡ (is_panic failmode && has_items left)) }
    ensures device { IsErrOf result Stop.Device → ⊥ }
{
    fold.note_all(requests, lines)?;
    fold.suspend(alloc, left, failmode)?;
    Ok(())
}

/// The requests of a batch.
fn batch_requests<'a>(alloc: Global, batch: &Batch<'a>) -> Result<Vec<&'a Request>, Stop>
    ensures ok { IfOk result (λ found. map (λ r. r.now) found.items ≡ requests_of batch.now.lines.now) }
    ensures err { IsErrOf result Stop.Device → ⊥ }
{
    Ok(requests_in(alloc, batch.lines)?)
}

/// The admission of a batch beside what is suspended.
fn admit<'a, T: Drop>(
    alloc: Global,
    fold: &Fold<'a, T>,
    batch: &Batch<'a>,
) -> Result<Admission, Stop>
    requires rising { AreRising (requests_of batch.now.lines.now) }
    ensures ok { IfOk result (λ a. IsAdmission (has_items fold.now.suspended) (is_name_in fold.now.awaited)
        (is_some_name fold.now.bound) (trees_of (requests_of batch.now.lines.now)) a.slots.entries a.rules.items) }
    ensures err { IsErrOf result Stop.Device → ⊥ }
{
    let waits = !fold.suspended.is_empty();
    Ok(Admission::of(alloc, batch.lines, waits, &fold.awaited, &fold.bound)?)
}
