//! What parents hear of their children.

ghost use Rattle.std.specs.Prelude.{◌≡◌, ◌<◌, IfOk, IfSome, IsTrue, OnOk};
ghost use Rattle.zio_counts.specs.Tallies.{counted};
ghost use Rattle.zio_blkptr.specs.Pointers.{valid};
ghost use Rattle.zio_turns.specs.Acts.{AreCounted, AwaitsEnd, AwaitsReady, CanEnd, CanTell, HasEnded, HasTold, IsHandedOn, NodeHeard, NodeTold, StepIn, step_told};
ghost use Rattle.zio_staged.specs.Stages.{OutcomeIn};

use crate::entry::{Parent, TiedNode, Ties};
use crate::line::Line;
use crate::shelf::queue_up;
use crate::step::Step;
use slab::Slab;
use zio_blkptr::Bp;
use zio_exchange::{Finished, Outcome};
use zio_staged::Staged;
use zio_types::{Bits, ChildKind, Errno, NoMemory, Phase, Top};

/// What a parent counts of a child that became ready or done.
#[derive(Clone, Copy)]
struct Mark {
    kind: ChildKind,
    phase: Phase,
    error: Option<Errno>,
    bits: Bits,
}

/// The child's mark comes into the counts of the node under the key, whose ties these are; it is queued where it waited
/// for that alone.
fn count(ties: &mut Ties, line: &mut Line, key: usize, mark: Mark) -> Result<(), NoMemory>
    requires owed { 0 < counted mark.kind mark.phase ties.old.counts }
    ensures { OnOk result
        (AreCounted ties.old line.old ties.new line.new key mark.kind mark.phase mark.error mark.bits) }
{
    let woken = ties
        .counts
        .notify(mark.kind, mark.phase, mark.error, mark.bits);
    if woken {
        return queue_up(line, key);
    }
    Ok(())
}

/// The node under the key hears that the value of its child of this number will have this pointer.
fn tell_node<N: Staged>(
    nodes: &mut Slab<TiedNode<N>>,
    line: &mut Line,
    kind: ChildKind,
    key: usize,
    child: usize,
    pointer: Option<Bp>,
) -> Result<(), NoMemory>
    requires valid { IfSome pointer (λ bp. IsTrue (valid bp)) }
    requires can { AwaitsReady N.nodes nodes.old kind key child }
    ensures { OnOk result (NodeTold N.nodes N.over nodes.old line.old nodes.new line.new kind key child pointer) }
{
    let Some(entry) = nodes.get_mut(key) else {
        unreachable!();
    };
    entry.node.arrive_ready(child, pointer);
    let mark = Mark {
        kind,
        phase: Phase::Ready,
        error: None,
        bits: Bits::NONE,
    };
    count(&mut entry.ties, line, key, mark)
}

/// The parent hears which pointer the value of its child will have. Whether that is a tree.
pub(crate) fn tell<N: Staged>(
    nodes: &mut Slab<TiedNode<N>>,
    line: &mut Line,
    kind: ChildKind,
    parent: Parent,
    pointer: Option<Bp>,
) -> Result<Step<N::Seal>, NoMemory>
    requires valid { IfSome pointer (λ bp. IsTrue (valid bp)) }
    requires can { CanTell N.nodes nodes.old kind parent }
    ensures told { OnOk result (HasTold N.nodes N.over nodes.old line.old nodes.new line.new kind parent pointer) }
    ensures step { IfOk result (λ step. step ≡ step_told parent) }
{
    match parent {
        Parent::Tree { tree, .. } => Ok(Step::Told(tree)),
        Parent::Node { key, child } => {
            tell_node(nodes, line, kind, key, child, pointer)?;
            Ok(Step::Goes)
        }
    }
}

/// What a parent counts of a child's error.
fn error_of<S>(outcome: &Outcome<S>) -> Option<Errno> {
    match outcome {
        Outcome::Finished(finished) => finished.error(),
        Outcome::Found(Err(error)) => Some(*error),
        Outcome::Stored(part) => part.error,
        _ => None,
    }
}

fn bits_of<S>(outcome: &Outcome<S>) -> Bits {
    match outcome {
        Outcome::Again { bits, .. } => *bits,
        _ => Bits::NONE,
    }
}

/// The node under the key hears with what its child of this number ended. Of a request that finished this comes back.
fn end_node<N: Staged>(
    nodes: &mut Slab<TiedNode<N>>,
    line: &mut Line,
    tops: &[Top],
    kind: ChildKind,
    key: usize,
    child: usize,
    outcome: Outcome<N::Seal>,
) -> Result<Option<Finished<N::Seal>>, NoMemory>
    requires can { AwaitsEnd N.nodes N.over tops.now nodes.old kind key child outcome }
    requires inside { OutcomeIn (N.tree_over tops.now) outcome }
    ensures heard { OnOk result
        (NodeHeard N.nodes N.over tops.now nodes.old line.old nodes.new line.new kind key child outcome) }
    ensures finished { IfOk result (IsHandedOn outcome) }
{
    let mark = Mark {
        kind,
        phase: Phase::Done,
        error: error_of(&outcome),
        bits: bits_of(&outcome),
    };
    let Some(entry) = nodes.get_mut(key) else {
        unreachable!();
    };
    let Ok(finished) = entry.node.arrive(tops, child, outcome) else {
        return Err(NoMemory);
    };
    count(&mut entry.ties, line, key, mark)?;
    Ok(finished)
}

/// A node of this kind ended with this, and its parent hears of it, or its tree is to.
pub(crate) fn end<N: Staged>(
    nodes: &mut Slab<TiedNode<N>>,
    line: &mut Line,
    tops: &[Top],
    kind: ChildKind,
    parent: Parent,
    outcome: Box<Outcome<N::Seal>>,
) -> Result<Step<N::Seal>, NoMemory>
    requires can { CanEnd N.nodes N.over tops.now nodes.old kind parent outcome.value }
    requires inside { OutcomeIn (N.tree_over tops.now) outcome.value }
    ensures ended { IfOk result
        (HasEnded N.nodes N.over tops.now nodes.old line.old nodes.new line.new kind parent outcome.value) }
    ensures inside { IfOk result (StepIn (N.tree_over tops.now)) }
{
    let outcome = Box::into_inner(outcome);
    match parent {
        Parent::Tree { tree, .. } => Ok(Step::Root(tree, outcome)),
        Parent::Node { key, child } => {
            let finished = end_node(nodes, line, tops, kind, key, child, outcome)?;
            Ok(Step::Ended(finished))
        }
    }
}
