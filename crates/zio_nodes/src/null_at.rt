//! A null in an attempt, from stage to stage behind Start: it waits for its children.

ghost use Rattle.std.specs.Prelude.{◌≡◌, IfOk, List as Seq, OnErr};
ghost use Rattle.zio_types.specs.declared.place.Top.{Top as SeenTop};
ghost use Rattle.zio_script.specs.Requests.{kind_of};
ghost use Rattle.zio_staged.specs.Stages.{EachIn, Lessens, MayGoOn};
ghost use Rattle.zio_nodes.specs.StageMoves.{IsLastMove, IsStageMove};
ghost use Rattle.zio_nodes.specs.Nodes.{IsNodeDue, IsNodeOver, IsTreeOver, MovesBare, StaysBare, last_moved, left_of, moved};
ghost use Rattle.zio_nodes.specs.RequestAts.{IsRequestAtOver};

use crate::node::Node;
use crate::request_at::RequestAt;
use crate::turn::{Last, Turn};
use std::alloc::Global;
use zio_masks::{NULL, Stage, next};
use zio_stages::{DoneStep, what_is_no_write_has_no_pointer};
use zio_types::{Kind, NoMemory, Phase};

impl RequestAt {
    /// Tells that it has no pointer.
    pub(crate) fn null_ready(&mut self) -> Turn
        requires over { (tops : Seq SeenTop) × IsRequestAtOver tops self.old }
        requires kind { kind_of self.old.node.waiting.request.work ≡ Kind.Null }
        requires stage { self.old.stage ≡ Stage.Ready }
        ensures moves { (tops : Seq SeenTop)
            → MovesBare tops (Node.Request self.old) (moved (Node.Request self.new) result) }
        ensures over { (tops : Seq SeenTop) → IsRequestAtOver tops self.old
            → EachIn (IsNodeOver tops) (IsTreeOver tops) (moved (Node.Request self.new) result) }
        ensures may { MayGoOn IsNodeDue (moved (Node.Request self.new) result) }
        ensures left { Lessens left_of (Node.Request self.old) (moved (Node.Request self.new) result) }
        ensures stages { IsStageMove (Node.Request self.old) (moved (Node.Request self.new) result) }
    {
        what_is_no_write_has_no_pointer();
        self.stage = next(Stage::Ready, NULL);
        Turn::Ready(None)
    }

    /// Ends once each child has. Where memory is refused it is as it was.
    #[inline(never)]
    pub(crate) fn null_done(&mut self, alloc: Global) -> Result<Last, NoMemory>
        requires over { (tops : Seq SeenTop) × IsRequestAtOver tops self.old }
        requires kind { kind_of self.old.node.waiting.request.work ≡ Kind.Null }
        requires stage { self.old.stage ≡ Stage.Done }
        ensures moves { (tops : Seq SeenTop)
            → IfOk result (λ last. MovesBare tops (Node.Request self.old) (last_moved (Node.Request self.new) last)) }
        ensures over { (tops : Seq SeenTop) → IsRequestAtOver tops self.old
            → IfOk result (λ last. EachIn (IsNodeOver tops) (IsTreeOver tops) (last_moved (Node.Request self.new) last)) }
        ensures may { IfOk result (λ last. MayGoOn IsNodeDue (last_moved (Node.Request self.new) last)) }
        ensures last { IfOk result (λ last. IsLastMove (last_moved (Node.Request self.new) last)) }
        ensures left { IfOk result
            (λ last. Lessens left_of (Node.Request self.old) (last_moved (Node.Request self.new) last)) }
        ensures refused { (tops : Seq SeenTop)
            → OnErr result (StaysBare tops (Node.Request self.old) (Node.Request self.new)) }
    {
        if let DoneStep::Wait(kind) = self.node.done_null() {
            return Ok(Last::Wait(kind, Phase::Done));
        }
        match self.node.close_null(alloc) {
            Ok(outcome) => Ok(Last::End(outcome)),
            Err(NoMemory) => Err(NoMemory),
        }
    }
}
