//! Trees of requests between rounds.

ghost use Rattle.std.specs.Prelude.{◌≡◌, ◌≤◌, [], IfErr, IfOk, IfSome, List as Seq, OnErr, OnOk, length, map, vec_capacity};
ghost use Rattle.std.specs.List.{AllByRecursion};
ghost use Rattle.zio_gang.specs.Attempts.{Pending};
ghost use Rattle.zio_disks.specs.Whole.{IsWholeTree};
ghost use Rattle.zio_course.specs.Runners.{IsNewTree, fresh, tree_over};
ghost use Rattle.zio_gang.specs.declared.tree.Tree.{Tree as SeenTree};
ghost use Rattle.zio_exchange.specs.Waits.{pendings};
ghost use Rattle.zio_graph.specs.EngineTrees.{HasThree, IsEngineTree};

use std::alloc::Global;
use std::marker::Model;
use zio_blkptr::Bp;
use zio_course::ChildrenBack;
use zio_exchange::Whole;
use zio_gang::Tree;
use zio_script::Request;
use zio_types::{List, NoMemory, Place};

/// A tree of requests that haven't finished: each child's tree by number, then the request itself.
#[derive(Debug, Drop)]
pub struct EngineTree {
    pub(crate) whole: Whole,
}

impl Model for EngineTree {
    ghost use Rattle.std.specs.Prelude.{List};
    ghost use Rattle.zio_gang.specs.Attempts.{Pending};
    ghost use Rattle.zio_exchange.specs.Waits.{pendings};

    ghost Value = { List Pending };

    ghost view = { λ t. pendings t.whole };

    ghost use Rattle.zio_graph.specs.EngineTrees.{IsEngineTree};

    ghost invariant = { λ t. IsEngineTree t.whole };
}

/// Makes a tree of a request and its children's trees. Where memory is refused these come back.
pub(crate) fn tree_over(
    alloc: Global,
    request: &Request,
    birth: u32,
    block: Option<Tree>,
    children: List<EngineTree>,
) -> Result<EngineTree, ChildrenBack<EngineTree>>
    requires whole { IsNewTree request.now birth block children }
    requires fits { IfSome block IsWholeTree }
    ensures made { IfOk result (λ tree. tree ≡ tree_over children (fresh request.now birth block)) }
    ensures back { IfErr result (λ back. back.children ≡ children) }
{
    let mut room = children.into_vec();
    let Ok(wholes) = opened(alloc, &mut room) else {
        return Err(ChildrenBack {
            children: List::from_vec(room),
        });
    };
    block_has_three_places(&block);
    match Whole::over(alloc, request, birth, block, wholes) {
        Ok(whole) => Ok(EngineTree { whole }),
        Err(back) => Err(ChildrenBack {
            children: closed(room, back.children),
        }),
    }
}

/// The trees as nodes are made of, and the room where they stood. Where memory is refused they stay there.
fn opened(alloc: Global, trees: &mut Vec<EngineTree>) -> Result<List<Whole>, NoMemory>
    ensures same { IfOk result (λ wholes. map pendings wholes ≡ trees.old.items) }
    ensures each { IfOk result (AllByRecursion IsEngineTree) }
    ensures none { OnOk result (trees.new.items ≡ []) }
    ensures room { IfOk result (λ wholes. length wholes ≤ vec_capacity trees.new) }
    ensures err { OnErr result (trees.new.items ≡ trees.old.items) }
{
    let mut wholes = Vec::with_capacity(alloc, trees.len())?;
    trees.reverse();
    while let Some(tree) = trees.pop() {
        wholes.push_reserved(tree.whole);
    }
    Ok(List::from_vec(wholes))
}

/// The trees where they stood before, for which there is room.
fn closed(mut room: Vec<EngineTree>, wholes: List<Whole>) -> List<EngineTree>
    requires each { AllByRecursion IsEngineTree wholes }
    requires none { room.items ≡ [] }
    requires room { length wholes ≤ vec_capacity room }
    ensures { result ≡ map pendings wholes }
{
    for whole in wholes.into_rest() {
        room.push_reserved(EngineTree { whole });
    }
    List::from_vec(room)
}

/// The pointer of a block has room for three places, as its type says.
fn block_has_three_places(block: &Option<Tree>)
    ensures { IfSome block.now (λ (tree : SeenTree). HasThree tree.bp) }
{
    if let Some(tree) = block {
        has_three_places(&tree.bp);
    }
}

/// So has each pointer.
fn has_three_places(bp: &Bp)
    ensures { HasThree bp.now }
{
    let _all: &[Place] = &bp.places;
}

/// The trees as nodes are made of.
pub(crate) fn wholes_of(alloc: Global, trees: List<EngineTree>) -> Result<List<Whole>, NoMemory>
    ensures same { IfOk result (λ wholes. map pendings wholes ≡ trees) }
    ensures each { IfOk result (AllByRecursion IsEngineTree) }
{
    opened(alloc, &mut trees.into_vec())
}

/// Trees of a round, as they stand between rounds.
pub(crate) fn trees_of(alloc: Global, wholes: List<Whole>) -> Result<List<EngineTree>, NoMemory>
    requires { AllByRecursion IsEngineTree wholes }
    ensures { IfOk result (λ trees. trees ≡ map pendings wholes) }
{
    let mut trees = Vec::new(alloc);
    for whole in wholes.into_rest() {
        trees.push(EngineTree { whole })?;
    }
    Ok(List::from_vec(trees))
}
