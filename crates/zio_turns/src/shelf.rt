//! Nodes under keys, and those in the queue.

ghost use Rattle.std.specs.Prelude.{◌≡◌, ◌+◌, ◌<◌, ◌∷◌, ◌++◌, [], IfOk, None, OnOk, Some};
ghost use Rattle.slab.specs.Slab.{Updates, get};
ghost use Rattle.zio_counts.specs.Tallies.{count_end, counted};
ghost use Rattle.zio_turns.specs.Acts.{AreStalled, HasAdded, new_ties, one_more};

use crate::entry::{Parent, TiedNode, Ties};
use crate::line::Line;
use slab::Slab;
use zio_counts::Counts;
use zio_types::{ChildKind, NoMemory, Phase};

/// The ties of a node that handed out nothing yet.
pub(crate) fn new_ties(kind: ChildKind, parent: Parent) -> Ties
    ensures { result ≡ new_ties kind parent }
{
    Ties {
        kind,
        parent,
        counts: Counts::new(),
        children: 0,
    }
}

/// Queues the key behind the others.
pub(crate) fn queue_up(line: &mut Line, key: usize) -> Result<(), NoMemory>
    ensures { OnOk result (line.new ≡ line.old ++ key ∷ []) }
{
    line.push(key)
}

/// Gives a node a key.
pub(crate) fn add<N: Drop>(
    nodes: &mut Slab<TiedNode<N>>,
    entry: TiedNode<N>,
) -> Result<usize, NoMemory>
    ensures free { IfOk result (λ key. get nodes.old key ≡ None) }
    ensures added { IfOk result (λ key. Updates nodes.old nodes.new key (Some entry)) }
{
    match nodes.insert(entry) {
        Ok(key) => Ok(key),
        Err(_) => Err(NoMemory),
    }
}

/// The node under the key, whose ties these are, stalls until no child of this kind owes the phase, or is queued where
/// none does.
pub(crate) fn wait(
    ties: &mut Ties,
    line: &mut Line,
    key: usize,
    kind: ChildKind,
    phase: Phase,
) -> Result<(), NoMemory>
    ensures { OnOk result (AreStalled ties.old line.old ties.new line.new key kind phase) }
{
    if ties.counts.wait_for(&[kind], phase) {
        return Ok(());
    }
    queue_up(line, key)
}

/// One child more of the kind is handed out, of so many now. Its number.
pub(crate) fn count_child(ties: &mut Ties, kind: ChildKind, children: usize) -> usize
    requires children { children ≡ ties.old.children + 1 }
    requires few { counted kind Phase.Done ties.old.counts < children }
    ensures ties { ties.new ≡ one_more kind ties.old }
    ensures number { result ≡ ties.old.children }
    ensures room { counted kind Phase.Done ties.old.counts < count_end }
{
    let number = ties.children;
    ties.counts.add(kind);
    ties.children = children;
    number
}

/// The child of this number of the node under the key gets a key, and both are queued, the child first.
pub(crate) fn grow<N: Drop>(
    nodes: &mut Slab<TiedNode<N>>,
    line: &mut Line,
    key: usize,
    number: usize,
    child: N,
    kind: ChildKind,
) -> Result<(), NoMemory>
    ensures { OnOk result (HasAdded nodes.old line.old nodes.new line.new key number child kind) }
{
    let parent = Parent::Node { key, child: number };
    let at = add(
        nodes,
        TiedNode {
            node: child,
            ties: new_ties(kind, parent),
        },
    )?;
    queue_up(line, at)?;
    queue_up(line, key)
}
