//! The beginning of a round: each tree's first attempt.

ghost use Rattle.std.specs.Prelude.{◌≡◌, ◌<◌, ◌^◌, [], IfOk, List as Seq, OnOk, length, replicate};
ghost use Rattle.std.specs.List.{AllByRecursion};
ghost use Rattle.zio_types.specs.declared.place.Top.{Top as SeenTop};
ghost use Rattle.zio_turns.specs.Slabs.{AreAll};
ghost use Rattle.zio_turns.specs.UnderTrees.{TreesBegin};
ghost use Rattle.zio_turns.specs.declared.trees.TreeState.TheVariants.{UnderWay};

use crate::trees::{TreeState, begin_attempt};
use crate::turns::Turns;
use std::alloc::Global;
use zio_exchange::Whole;
use zio_script::Failmode;
use zio_staged::Staged;
use zio_types::{List, NoMemory};

/// Hands out the first attempt of each of these trees, whose numbers are their places in the list. No node may be there
/// yet.
pub fn begin_trees<N: Staged>(
    turns: &mut Turns<N>,
    alloc: Global,
    round: u32,
    failmode: Failmode,
    wholes: List<Whole>,
) -> Result<Vec<TreeState>, NoMemory>
    requires few { length wholes < 2 ^ 32 }
    requires empty { turns.old.nodes.slots ≡ [] }
    requires idle { turns.old.line ≡ [] }
    ensures begins { IfOk result
        (λ trees. TreesBegin N.nodes turns.new.nodes turns.new.line round failmode wholes trees.items []) }
    ensures states { IfOk result (λ trees. trees.items ≡ replicate (length wholes) (UnderWay 0)) }
    ensures over { (tops : Seq SeenTop) → AllByRecursion (N.tree_over tops) wholes
        → OnOk result (AreAll (N.over tops) turns.new.nodes) }
{
    let mut trees = Vec::new(alloc);
    for whole in wholes.into_rest() {
        begin_attempt(turns, alloc, round, failmode, trees.len() as u32, 0, whole)?;
        trees.push(TreeState::UnderWay(0))?;
    }
    Ok(trees)
}
