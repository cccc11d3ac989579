//! The trees of a batch that run.

ghost use Rattle.std.specs.Prelude.{◌≡◌, ◌∷◌, ◌++◌, ℕ, List, IfOk, IfSome, OnOk, map, reverse};
ghost use Rattle.zio_script.specs.declared.script.Request.{Request};
ghost use Rattle.zio_gang.specs.Rounds.{pending_trees, trees_of};
ghost use Rattle.zio_course.specs.Forests.{AreReady, IsForest, IsReady, block_by, line_runs, names_of, running};
ghost use Rattle.zio_course.specs.Names.{named_in};
ghost use Rattle.zio_course.specs.Runners.{Stays};

use crate::admission::Admission;
use crate::bound::{Bound, copy_of};
use crate::lines::last_line;
use crate::runner::Runner;
use crate::waiting::TreesByNumber;
use std::alloc::Global;
use zio_gang::Tree;
use zio_script::{Item, Request, Work};
use zio_types::{List, NoMemory};

/// The trees of the last requests of a batch: those that wait for their parents, and those of roots, the last first.
#[derive(Debug, Drop)]
pub(crate) struct Forest<T> {
    waiting: TreesByNumber<T>,
    roots: List<T>,
}

/// Makes the trees of those requests of a batch that admission lets run, by the numbers of their roots.
///
/// A batch has its numbers and parents in order, so that a request is behind its parent: the trees are made from its
/// last request to its first, each over those of its children.
pub fn trees_to_run<R: Runner>(
    alloc: Global,
    runner: &mut R,
    batch: &[Item],
    birth: u32,
    bound: &Bound,
    admission: &Admission,
) -> Result<List<R::Tree>, NoMemory>
    requires ready { AreReady birth bound.now
        (running admission.now.slots.entries admission.now.rules.items batch.now) }
    requires fits { (name : List ℕ) → IfSome (named_in bound.now name) R.fits }
    ensures trees { IfOk result (λ trees. map R.pending trees
        ≡ pending_trees (names_of bound.now) birth
        (trees_of (running admission.now.slots.entries admission.now.rules.items batch.now))) }
    ensures stays { Stays (R.standing runner.old) (R.standing runner.new) (R.tells runner.old) (R.tells runner.new) }
    ensures can { R.Can runner.old → R.Can runner.new }
    ensures same { R.same runner.old runner.new }
{
    let mut forest = Forest {
        waiting: TreesByNumber::new(alloc),
        roots: List::new(alloc),
    };
    let mut rest = batch;
    while let Some((item, front)) = last_line(rest) {
        plant_line(alloc, runner, &mut forest, item, birth, bound, admission)?;
        rest = front;
    }
    Ok(reversed(forest.roots))
}

/// Makes the tree of a line's request, if it is one that runs.
fn plant_line<R: Runner>(
    alloc: Global,
    runner: &mut R,
    forest: &mut Forest<R::Tree>,
    item: &Item,
    birth: u32,
    bound: &Bound,
    admission: &Admission,
) -> Result<(), NoMemory>
    requires ready { (done : List Request)
        × AreReady birth bound.now (line_runs admission.now.slots.entries admission.now.rules.items item.now ++ done)
        × IsForest R.pending (names_of bound.now) birth done forest.old.waiting forest.old.roots }
    requires fits { (name : List ℕ) → IfSome (named_in bound.now name) R.fits }
    ensures planted { OnOk result ((done : List Request)
        → AreReady birth bound.now (line_runs admission.now.slots.entries admission.now.rules.items item.now ++ done)
        → IsForest R.pending (names_of bound.now) birth done forest.old.waiting forest.old.roots
        → IsForest R.pending (names_of bound.now) birth
        (line_runs admission.now.slots.entries admission.now.rules.items item.now
        ++ done) forest.new.waiting forest.new.roots) }
    ensures stays { Stays (R.standing runner.old) (R.standing runner.new) (R.tells runner.old) (R.tells runner.new) }
    ensures can { R.Can runner.old → R.Can runner.new }
    ensures same { R.same runner.old runner.new }
{
    match item {
        Item::Request(request) if admission.error_of(request.number).is_none() => {
            plant(alloc, runner, forest, request, birth, bound)
        }
        Item::Request(_) | Item::Go | Item::Clear => Ok(()),
    }
}

/// Makes the tree of a request over those of its children. Where memory is refused no round runs, and they are let go.
fn plant<R: Runner>(
    alloc: Global,
    runner: &mut R,
    forest: &mut Forest<R::Tree>,
    request: &Request,
    birth: u32,
    bound: &Bound,
) -> Result<(), NoMemory>
    requires ready { (done : List Request) × IsReady birth bound.now request.now done
        × IsForest R.pending (names_of bound.now) birth done forest.old.waiting forest.old.roots }
    requires fits { (name : List ℕ) → IfSome (named_in bound.now name) R.fits }
    ensures planted { OnOk result ((done : List Request) → IsReady birth bound.now request.now done
        → IsForest R.pending (names_of bound.now) birth done forest.old.waiting forest.old.roots
        → IsForest R.pending (names_of bound.now) birth (request.now ∷ done) forest.new.waiting forest.new.roots) }
    ensures stays { Stays (R.standing runner.old) (R.standing runner.new) (R.tells runner.old) (R.tells runner.new) }
    ensures can { R.Can runner.old → R.Can runner.new }
    ensures same { R.same runner.old runner.new }
{
    let block = block_for(alloc, &request.work, bound)?;
    let children = reversed(forest.waiting.take(alloc, request.number));
    let Ok(tree) = runner.tree(request, birth, block, children) else {
        return Err(NoMemory);
    };
    let Some(parent) = request.under else {
        forest.roots.push(tree)?;
        return Ok(());
    };
    forest.waiting.push(alloc, parent, tree)?;
    Ok(())
}

/// The block that a read or a free names.
fn block_for(alloc: Global, work: &Work, bound: &Bound) -> Result<Option<Tree>, NoMemory>
    ensures { IfOk result (λ block. block ≡ block_by bound.now work.now) }
{
    match work {
        Work::Read { name, .. } | Work::Free { name } => match bound.block_of(name) {
            Some(tree) => Ok(Some(copy_of(alloc, tree)?)),
            None => Ok(None),
        },
        Work::Null | Work::Write { .. } | Work::Claim { .. } => Ok(None),
    }
}

/// The last first.
pub(crate) fn reversed<T>(items: List<T>) -> List<T>
    ensures { result ≡ reverse items }
{
    let mut items = items.into_vec();
    items.reverse();
    List::from_vec(items)
}
