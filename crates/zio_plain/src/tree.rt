//! A tree of requests in the order of their attempts.

ghost use Rattle.std.specs.Prelude.{◌≡◌, ◌++◌, ◌+◌, ◌-◌, ◌^◌, ◌<◌, ◌≤◌, [], IfErr, IfOk, IfSome, length, min, vec_capacity, vec_len};
ghost use Rattle.zio_disks.specs.Whole.{IsWholeTree};
ghost use Rattle.zio_course.specs.Runners.{IsNewTree, fresh, joined_trees, tree_over};
ghost use Rattle.zio_plain.specs.Posts.{AreTrees};

use crate::request::request_again;
use crate::waiting::Waiting;
use std::alloc::Global;
use std::marker::Model;
use zio_course::ChildrenBack;
use zio_gang::Tree;
use zio_script::Request;
use zio_types::{List, NoMemory};

/// A tree of requests that haven't finished: each child's tree by number, then the request itself.
#[derive(Debug, Drop)]
pub struct PlainTree {
    pub(crate) waiting: List<Waiting>,
}

impl Model for PlainTree {
    ghost use Rattle.std.specs.Prelude.{List};
    ghost use Rattle.zio_gang.specs.Attempts.{Pending};
    ghost use Rattle.zio_plain.specs.Waits.{pendings};

    ghost Value = { List Pending };

    ghost view = { λ t. pendings t.waiting };

    ghost use Rattle.zio_disks.specs.Whole.{IsWholeTree};
    ghost use Rattle.zio_plain.specs.Posts.{IsOneTree};

    ghost invariant = { λ t. IsOneTree IsWholeTree t.waiting };
}

/// Makes a tree of a request and its children's trees. Where memory is refused these come back.
pub(crate) fn tree_over(
    alloc: Global,
    request: &Request,
    birth: u32,
    block: Option<Tree>,
    children: List<PlainTree>,
) -> Result<PlainTree, ChildrenBack<PlainTree>>
    requires whole { IsNewTree request.now birth block children }
    requires fits { IfSome block IsWholeTree }
    ensures made { IfOk result (λ tree. tree ≡ tree_over children (fresh request.now birth block)) }
    ensures back { IfErr result (λ back. back.children ≡ children) }
{
    let Ok((request, room)) = begin_tree(alloc, request, children.as_slice()) else {
        return Err(ChildrenBack { children });
    };
    let unfinished = children.len() as u32;
    let mut waiting = joined(room, children);
    waiting.push_reserved(Waiting {
        request,
        birth,
        block,
        kept: List::new(alloc),
        unfinished,
    });
    Ok(PlainTree {
        waiting: List::from_vec(waiting),
    })
}

/// The request once more, and room for it behind all of its children's trees.
fn begin_tree(
    alloc: Global,
    request: &Request,
    children: &[PlainTree],
) -> Result<(Request, Vec<Waiting>), NoMemory>
    ensures request { IfOk result (λ begun. begun.0 ≡ request.now) }
    ensures none { IfOk result (λ begun. begun.1.items ≡ []) }
    ensures room { IfOk result (λ begun. length (joined_trees children.now) + 1 ≤ vec_capacity begun.1) }
{
    let all = Vec::with_capacity(alloc, room_over(children))?;
    let request = request_again(alloc, request)?;
    Ok((request, all))
}

/// How many requests a tree over these has. More than can be counted counts as the most: no vector has room for so
/// many.
fn room_over(children: &[PlainTree]) -> usize
    ensures { result ≡ min (length (joined_trees children.now) + 1) (2 ^ 64 - 1) }
{
    let mut room: usize = 1;
    for tree in children {
        room = room.saturating_add(tree.waiting.len());
    }
    room
}

/// The requests of some trees, one tree after another, for which there is room, and for one more.
fn joined(mut all: Vec<Waiting>, trees: List<PlainTree>) -> Vec<Waiting>
    requires none { all.items ≡ [] }
    requires room { length (joined_trees trees) + 1 ≤ vec_capacity all }
    ensures trees { AreTrees IsWholeTree trees result.items }
    ensures room { vec_len result < vec_capacity result }
{
    for tree in trees.into_rest() {
        put_reserved(&mut all, tree.waiting.into_vec());
    }
    all
}

/// Moves these to the end, where there is room for them.
fn put_reserved(all: &mut Vec<Waiting>, mut more: Vec<Waiting>)
    requires { length all.old.items + length more.items ≤ vec_capacity all.old }
    ensures items { all.new.items ≡ all.old.items ++ more.items }
    ensures capacity { vec_capacity all.old ≤ vec_capacity all.new }
{
    if all.append(&mut more).is_err() {
        unreachable!()
    }
}
