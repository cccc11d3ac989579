//! A node as an engine keeps it: its stages change it in its place.

ghost use Rattle.std.specs.Prelude.{◌≡◌};
ghost use Rattle.zio_staged.specs.Moves.{moved as moved_to};
ghost use Rattle.zio_nodes.specs.Nodes.{moved};
ghost use Rattle.zio_nodes.specs.declared.node.Node.{Node as SeenNode};

use crate::ahead::Ahead;
use crate::laws::{no_node_asks_for_places, nodes_give_their_own};
use crate::leaf_at::LeafAt;
use crate::node::Node;
use crate::turn::{Turn, new_room};
use std::alloc::Global;
use std::marker::Model;
use zio_blkptr::Bp;
use zio_exchange::{Services, Whole, WholeBack};
use zio_script::Failmode;
use zio_staged::Staged;
use zio_stages::{Finished, Outcome, Seal};
use zio_types::{Bytes, ChildKind, Errno, NoMemory, Top};

/// A node as an engine keeps it. Most nodes are operations on leaves, and these are small: such a one stands here itself,
/// and any other in a box.
#[derive(Drop)]
pub struct NodeBox {
    kept: Kept,
}

#[derive(Drop)]
enum Kept {
    Leaf(LeafAt),
    Other(Box<Node>),
}

impl Model for NodeBox {
    ghost use Rattle.zio_nodes.specs.declared.node.Node.{Node};

    ghost Value = { Node };

    ghost use Rattle.zio_nodes.specs.Nodes.{node_in};

    ghost view = { λ x. node_in x.kept };
}

impl NodeBox {
    /// An operation on a leaf.
    fn leaf(at: LeafAt) -> NodeBox
        ensures { result ≡ SeenNode.Leaf at }
    {
        NodeBox {
            kept: Kept::Leaf(at),
        }
    }

    /// The node in the box.
    fn other(node: Box<Node>) -> NodeBox
        ensures { result ≡ node.value }
    {
        NodeBox {
            kept: Kept::Other(node),
        }
    }
}

impl zio_staged::NodeFacts for NodeBox {
    ghost use Rattle.zio_nodes.specs.Nodes.{nodes as nodes_here};

    ghost nodes = { nodes_here };
}

impl Staged for NodeBox {
    ghost use Rattle.std.specs.Prelude.{◌+◌, ◌≤◌, IfErr, IfOk, IfSome, OnErr, OnOk, Some};
    ghost use Rattle.zio_gang.specs.Attempts.{Terms};
    ghost use Rattle.zio_trace.specs.Tasks.{Task, Value};
    ghost use Rattle.zio_frames.specs.Frames.{Child, Stack};
    ghost use Rattle.zio_frames.specs.Moves.{heard_of};
    ghost use Rattle.zio_exchange.specs.declared.outcome.Outcome.{Outcome as SeenOutcome};
    ghost use Rattle.zio_staged.specs.Stages.{Hears, HearsSome, OutcomeIn, heard_max};
    ghost use Rattle.zio_nodes.specs.Aheads.{FitsNode};
    ghost use Rattle.zio_nodes.specs.BoxMoves.{IsBoxMove};
    ghost use Rattle.zio_nodes.specs.Nodes.{IsNodeOver, IsTreeOver, nodes as nodes_here};

    type Seal = Seal;

    type Ahead = Ahead;

    ghost over = { IsNodeOver };

    ghost leads = { IsBoxMove };

    ghost tree_over = { IsTreeOver };

    ghost fits = { FitsNode };

    fn start(
        alloc: Global,
        whole: Whole,
        round: u32,
        attempt: u32,
        failmode: Failmode,
    ) -> Result<NodeBox, WholeBack> {
        let Ok(mut node) = new_room(alloc) else {
            return Err(WholeBack { whole });
        };
        *node = Node::start(whole, round, attempt, failmode);
        Ok(NodeBox::other(node))
    }

    fn run_stage<S: Services>(
        &mut self,
        alloc: Global,
        services: &mut S,
    ) -> Result<zio_staged::Turn<NodeBox, Seal>, NoMemory> {
        let turn = match &mut self.kept {
            Kept::Leaf(at) => at.step(alloc)?,
            Kept::Other(node) => node.run_stage(alloc, services)?,
        };
        Ok(staged(turn))
    }

    fn is_heavy(&self) -> bool {
        match &self.kept {
            Kept::Leaf(at) => at.is_heavy(),
            Kept::Other(node) => node.is_heavy(),
        }
    }

    fn ahead(&self, alloc: Global, _tops: &[Top]) -> Option<Ahead> {
        match &self.kept {
            Kept::Leaf(at) => at.ahead(),
            Kept::Other(node) => node.ahead(alloc),
        }
    }

    fn go_on(&mut self, ahead: Ahead) {
        match &mut self.kept {
            Kept::Leaf(at) => at.go_on(ahead),
            Kept::Other(node) => node.go_on(ahead),
        }
    }

    fn arrive_ready(&mut self, child: usize, pointer: Option<Bp>) {
        match &mut self.kept {
            Kept::Leaf(_) => unreachable!(),
            Kept::Other(node) => node.arrive_ready(child, pointer),
        }
    }

    fn arrive(
        &mut self,
        tops: &[Top],
        child: usize,
        outcome: Outcome,
    ) -> Result<Option<Finished>, Outcome>
        requires over { IsNodeOver tops.now self.old }
        requires awaited { HearsSome nodes_here tops.now self.old child outcome }
        requires inside { OutcomeIn (IsTreeOver tops.now) outcome }
        ensures heard { OnOk result ((t : Terms) (st : Stack) (c : Child) (op : Task) (v : Value) →
            Hears nodes_here tops.now t self.old st child c op outcome v
            → nodes_here.Is t self.new (heard_of st child c v)) }
        ensures finished { IfOk result (λ f. IfSome f (λ f. outcome ≡ SeenOutcome.Finished f)) }
        ensures kept { IfOk result (λ finished. (f : _) → outcome ≡ SeenOutcome.Finished f → finished ≡ Some f) }
        ensures told { OnOk result (nodes_here.told self.new ≡ nodes_here.told self.old) }
        ensures gave { OnOk result (nodes_here.gave self.new ≡ nodes_here.gave self.old) }
        ensures due { OnOk result (nodes_here.due self.old → nodes_here.due self.new) }
        ensures over_still { OnOk result (IsNodeOver tops.now self.new) }
        ensures left { OnOk result (nodes_here.left self.new ≤ nodes_here.left self.old + heard_max) }
        ensures same { OnErr result (self.new ≡ self.old) }
        ensures back { IfErr result (λ e. e ≡ outcome) }
    {
        match &mut self.kept {
            Kept::Leaf(_) => unreachable!(),
            Kept::Other(node) => node.arrive(tops, child, outcome),
        }
    }

    fn children(&self) -> usize {
        match &self.kept {
            Kept::Leaf(_) => 0,
            Kept::Other(node) => node.children(),
        }
    }

    fn answered(&mut self, error: Option<Errno>, bytes: Bytes) {
        match &mut self.kept {
            Kept::Leaf(at) => at.answered(error, bytes),
            Kept::Other(node) => node.answered(error, bytes),
        }
    }

    fn does_its_part() {
        no_node_asks_for_places();
        nodes_give_their_own();
    }
}

/// The same, with the child as it is kept.
fn staged(turn: Turn) -> zio_staged::Turn<NodeBox, Seal>
    ensures { (node : SeenNode) → moved_to node result ≡ moved node turn }
{
    match turn {
        Turn::Next => zio_staged::Turn::Next,
        Turn::Wait(kind, phase) => zio_staged::Turn::Wait(kind, phase),
        Turn::Grow(node, kind) => zio_staged::Turn::Grow(NodeBox::other(node), kind),
        Turn::Ask(at) => zio_staged::Turn::Grow(NodeBox::leaf(at), ChildKind::Vdev),
        Turn::Leaf(op, leaf, bytes) => zio_staged::Turn::Leaf(op, leaf, bytes),
        Turn::Ready(pointer) => zio_staged::Turn::Ready(pointer),
        Turn::End(outcome) => zio_staged::Turn::End(outcome),
    }
}
