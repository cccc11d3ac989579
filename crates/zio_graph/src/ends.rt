//! What is told of a round's trees once each is settled.

ghost use Rattle.std.specs.Prelude.{◌≡◌, ◌++◌, IfOk, IsPermutation, OnOk, map};
ghost use Rattle.std.specs.List.{AllByRecursion};
ghost use Rattle.std.specs.List.Sorted.{IsNonDecreasingBy};
ghost use Rattle.zio_course.specs.declared.runner.RequestEnd.{RequestEnd as Told};
ghost use Rattle.zio_exchange.specs.Wholes.{IsWhole};
ghost use Rattle.zio_graph.specs.Ends.{completion_of, left_by, left_in, told_of};

use std::alloc::Global;
use zio_course::RequestEnd;
use zio_exchange::{Finished, Whole};
use zio_turns::{TreeEnd, TreeState};
use zio_types::{Completion, List, NoMemory};

/// What is left of the trees that are suspended, in their order.
pub(crate) fn left_of(alloc: Global, trees: Vec<TreeState>) -> Result<List<Whole>, NoMemory>
    ensures left { IfOk result (λ left. left ≡ left_in trees.items) }
    ensures whole { IfOk result (AllByRecursion IsWhole) }
{
    let states = List::from_vec(trees);
    let mut left = Vec::new(alloc);
    for tree in states.into_rest() {
        note_left(&mut left, tree)?;
    }
    Ok(List::from_vec(left))
}

/// Adds what is left of a tree, if it is suspended.
fn note_left(left: &mut Vec<Whole>, tree: TreeState) -> Result<(), NoMemory>
    ensures left { OnOk result (left.new.items ≡ left.old.items ++ left_by tree) }
    ensures whole { AllByRecursion IsWhole left.old.items → OnOk result (AllByRecursion IsWhole left.new.items) }
{
    match tree {
        TreeState::Settled(TreeEnd::Suspended(whole)) => {
            let _root = whole.root();
            left.push(whole)?;
            Ok(())
        }
        TreeState::Settled(TreeEnd::Finished) => Ok(()),
        TreeState::UnderWay(_) => Ok(()),
    }
}

/// One for each request that finished, in the same order.
pub(crate) fn completions_of<S>(
    alloc: Global,
    round: u32,
    ended: &[Finished<S>],
) -> Result<List<Completion>, NoMemory>
    ensures { IfOk result (λ completions. completions ≡ map (completion_of round) ended.now) }
{
    let mut completions = List::new(alloc);
    for one in ended {
        completions.push(Completion {
            request: one.request(),
            round,
            error: one.error(),
        })?;
    }
    Ok(completions)
}

/// By number.
pub(crate) fn by_number<S: Drop>(ended: Vec<Finished<S>>) -> List<Finished<S>>
    ensures same { IsPermutation (map told_of ended.items) (map told_of result) }
    ensures order { IsNonDecreasingBy (λ (f : Told). f.request) (map told_of result) }
{
    let mut all = ended;
    all.sort_unstable_by_key(|one| one.request());
    List::from_vec(all)
}

/// What is told of a request.
pub(crate) fn told_of<S: Drop>(finished: Finished<S>) -> RequestEnd
    ensures { result ≡ told_of finished }
{
    let (request, error, bytes, tree) = finished.into_parts();
    RequestEnd {
        request,
        error,
        bytes,
        tree,
    }
}
