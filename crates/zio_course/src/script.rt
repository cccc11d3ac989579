//! The lines of a script in turn.

ghost use Rattle.std.specs.Prelude.{◌≡◌, ◌++◌, ◌+◌, ◌<◌, ◌^◌, [], ℕ, List, IfErr, IsErrOf, OnOk, false, length};
ghost use Rattle.zio_types.specs.Choices.{Choice};
ghost use Rattle.zio_outside.specs.Outside.{Rose};
ghost use Rattle.zio_script.specs.declared.script.Item.{Item as SeenItem};
ghost use Rattle.zio_script.specs.Accepted.{batches_from};
ghost use Rattle.zio_course.specs.Course.{AreOfRounds};
ghost use Rattle.zio_course.specs.Folds.{IsSteady, batches_seen, fold_seen};
ghost use Rattle.zio_course.specs.Moves.{IsGoing, LinesCut, LinesOver};
ghost use Rattle.zio_course.specs.Runners.{AnyRose, stopping_of};

use crate::clear::clear_line;
use crate::fold::{Batch, Fold};
use crate::go::go_line;
use crate::lines::first_line;
use crate::records::Records;
use crate::runner::Runner;
use std::alloc::Global;
use std::collections::VecDeque;
use zio_outside::Sink;
use zio_report::{RunFault, Show};
use zio_script::{Failmode, Item};

/// Runs the lines of a script in turn, up to the last or to a panic. What is held at the end is left in `held`.
pub fn run_lines<'a, R: Runner, O: Sink, J: Records>(
    alloc: Global,
    failmode: Failmode,
    show: &Show,
    items: &'a [Item],
    runner: &mut R,
    fold: &mut Fold<'a, R::Tree>,
    held: &mut VecDeque<Batch<'a>>,
    out: &mut O,
    journal: &mut J,
) -> Result<(), RunFault>
    requires going { IsGoing R.fits (R.standing runner.old) (J.seen journal.old).rounds
        (fold_seen R.pending fold.old) [] (batches_from [] items.now) (length items.now) }
    requires none { held.old.items ≡ [] }
    requires point { fold.old.point + length items.now < 2 ^ 32 }
    requires can { R.Can runner.old }
    requires chosen { AreOfRounds R.chosen (J.seen journal.old).rounds (J.seen journal.old).places }
    requires may { (round : ℕ) (entries : List Choice) → R.chosen round entries → J.may round entries }
    ensures ran { OnOk result (LinesOver show.now failmode (R.standing runner.old) (R.standing runner.new)
        (fold_seen R.pending fold.old) (fold_seen R.pending fold.new) items.now (batches_seen held.new.items)
        (J.seen journal.old) (J.seen journal.new) (R.tells runner.old) (R.tells runner.new) (O.holds out.old)
        (O.holds out.new)) }
    ensures cut { IfErr result
        (LinesCut show.now failmode (R.standing runner.old) (fold_seen R.pending fold.old) items.now
        (J.seen journal.old) (J.seen journal.new) (R.tells runner.old) (R.tells runner.new)
        (stopping_of (R.standing runner.new) (R.stops runner.new)) (O.holds out.old) (O.holds out.new)) }
    ensures steady { OnOk result (IsSteady R.fits (R.standing runner.new) (J.seen journal.new).rounds
        (fold_seen R.pending fold.new)) }
    ensures last { OnOk result ((R.standing runner.new).last ≡ (J.seen journal.new).rounds) }
    ensures runs { OnOk result ((R.standing runner.new).stopped ≡ false) }
    ensures tops { (R.standing runner.new).tops ≡ (R.standing runner.old).tops }
    ensures rows { (R.standing runner.new).rows ≡ (R.standing runner.old).rows }
    ensures faults { OnOk result ((R.standing runner.new).faults ≡ (R.standing runner.old).faults) }
    ensures quiet { OnOk result (O.faults out.new ≡ O.faults out.old) }
    ensures device { IsErrOf result RunFault.Device
        → AnyRose (R.standing runner.old).faults (R.standing runner.new).faults }
    ensures calm { IsErrOf result RunFault.Memory → (R.standing runner.new).faults ≡ (R.standing runner.old).faults }
    ensures sink { IsErrOf result RunFault.Sink → Rose (O.faults out.old) (O.faults out.new) }
    ensures can { R.Can runner.new }
    ensures chosen { AreOfRounds R.chosen (J.seen journal.new).rounds (J.seen journal.new).places }
    ensures same { R.same runner.old runner.new }
{
    let mut from = items;
    let mut rest = items;
    let mut batches = 0;
    while !fold.panicked {
        let Some((item, more)) = first_line(rest) else {
            break;
        };
        match item {
            Item::Request(_) => {}
            Item::Go => {
                batches += 1;
                let batch = Batch {
                    number: batches,
                    lines: front_of(from, rest),
                };
                go_line(
                    alloc, failmode, show, runner, fold, held, &batch, out, journal,
                )?;
                from = more;
            }
            Item::Clear => clear_line(alloc, failmode, show, runner, fold, held, out, journal)?,
        }
        rest = more;
    }
    Ok(())
}

/// The lines before those.
fn front_of<'a>(whole: &'a [Item], rest: &[Item]) -> &'a [Item]
    requires { (front : List SeenItem) × (whole.now ≡ front ++ rest.now) }
    ensures { (front : List SeenItem) → whole.now ≡ front ++ rest.now → result.now ≡ front }
{
    &whole[..whole.len() - rest.len()]
}
