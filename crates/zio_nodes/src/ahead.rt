//! What a stage has to reckon, before it is the stage's turn.
//!
//! Nearly all the time of a write goes into its content and the sum of that, and of a read into the sum. They are reckoned
//! without a change of the node, so several nodes' can be reckoned beside each other; a node's stage is then run with what
//! was reckoned of it.

ghost use Rattle.std.specs.Prelude.{◌<◌, IfSome, List as Seq};
ghost use Rattle.zio_types.specs.declared.place.Top.{Top as SeenTop};
ghost use Rattle.zio_staged.specs.declared.staged.Move.TheVariants.{Next};
ghost use Rattle.zio_nodes.specs.Aheads.{FitsNode, FitsRequest};
ghost use Rattle.zio_nodes.specs.Nodes.{IsNodeDue, IsNodeOver, MovesBare, left_of};
ghost use Rattle.zio_nodes.specs.RequestAts.{IsRequestAtOver};
ghost use Rattle.zio_nodes.specs.StageMoves.{IsStageMove};
ghost use Rattle.zio_nodes.specs.Stalls.{LeavesNone};

use crate::node::Node;
use crate::request_at::RequestAt;
use crate::stall::stall_of;
use std::alloc::Global;
use zio_masks::{Stage, WRITE, next};
use zio_stages::Block;
use zio_types::Kind;

/// From so many bytes on what is to be summed is worth a thread.
pub(crate) const HEAVY_LEN: usize = 4096;

/// What was reckoned of a node before its turn.
#[derive(Drop)]
pub enum Ahead {
    /// The block of a write at WriteCompress.
    OfWrite(Block),
    /// The checksum of what was read by an operation on a leaf.
    OfRead([u64; 4]),
}

impl Node {
    /// Whether its stage has so much to reckon that it is worth a thread.
    pub fn is_heavy(&self) -> bool {
        match self {
            Node::Request(at) => at.is_heavy(),
            Node::Leaf(at) => at.is_heavy(),
            Node::Copies(_) | Node::Heads(_) | Node::Part(_) | Node::Tree(_) | Node::Empty => false,
        }
    }

    /// Reckons what its stage needs, and changes nothing. `None` where that needs nothing of the kind, where the stage
    /// has to wait first, and for want of memory.
    pub fn ahead(&self, alloc: Global) -> Option<Ahead>
        requires { (tops : Seq SeenTop) × IsNodeOver tops self.now }
        ensures { IfSome result (FitsNode self.now) }
    {
        match self {
            Node::Request(at) => at.ahead(alloc),
            Node::Leaf(at) => at.ahead(),
            Node::Copies(_) | Node::Heads(_) | Node::Part(_) | Node::Tree(_) | Node::Empty => None,
        }
    }

    /// Runs its stage with what was reckoned of it.
    pub fn go_on(&mut self, ahead: Ahead)
        requires over { (tops : Seq SeenTop) × IsNodeOver tops self.old }
        requires fits { FitsNode self.old ahead }
        ensures moves { (tops : Seq SeenTop) → MovesBare tops self.old (Next self.new) }
        ensures over { (tops : Seq SeenTop) → IsNodeOver tops self.old → IsNodeOver tops self.new }
        ensures due { IsNodeDue self.new }
        ensures left { left_of self.new < left_of self.old }
        ensures stages { IsStageMove self.old (Next self.new) }
        ensures leaves { LeavesNone self.old (Next self.new) }
    {
        match self {
            Node::Request(at) => at.go_on(ahead),
            Node::Leaf(at) => at.go_on(ahead),
            Node::Copies(_) | Node::Heads(_) | Node::Part(_) | Node::Tree(_) | Node::Empty => {
                unreachable!()
            }
        }
    }
}

impl RequestAt {
    /// Whether it is a write of 4 KiB or more whose content is to be set.
    fn is_heavy(&self) -> bool {
        self.stage == Stage::WriteCompress && self.node.body_len() >= HEAVY_LEN
    }

    /// The block of a write at WriteCompress, once each child told its pointer.
    fn ahead(&self, alloc: Global) -> Option<Ahead>
        requires { (tops : Seq SeenTop) × IsRequestAtOver tops self.now }
        ensures { IfSome result (FitsRequest self.now) }
    {
        let Stage::WriteCompress = self.stage else {
            return None;
        };
        let Kind::Write = self.node.kind() else {
            return None;
        };
        if let Some(_stall) = stall_of(self.node.family(), Stage::WriteCompress, false) {
            return None;
        }
        let block = self.node.block_ahead(alloc)?;
        Some(Ahead::OfWrite(block))
    }

    /// Sets the content of a write at WriteCompress to what was reckoned.
    fn go_on(&mut self, ahead: Ahead)
        requires over { (tops : Seq SeenTop) × IsRequestAtOver tops self.old }
        requires fits { FitsRequest self.old ahead }
        ensures moves { (tops : Seq SeenTop) → MovesBare tops (Node.Request self.old) (Next (Node.Request self.new)) }
        ensures over { (tops : Seq SeenTop) → IsRequestAtOver tops self.old → IsRequestAtOver tops self.new }
        ensures left { left_of (Node.Request self.new) < left_of (Node.Request self.old) }
        ensures stages { IsStageMove (Node.Request self.old) (Next (Node.Request self.new)) }
        ensures leaves { LeavesNone (Node.Request self.old) (Next (Node.Request self.new)) }
    {
        let Ahead::OfWrite(block) = ahead else {
            unreachable!()
        };
        self.node.set_block(block);
        self.stage = next(Stage::WriteCompress, WRITE);
    }
}
