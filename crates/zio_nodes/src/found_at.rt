//! A read, a free or a claim in an attempt: it tells that it has no pointer, and ends once its own work came to
//! something.

ghost use Rattle.std.specs.Prelude.{◌≡◌, ◌+◌, ◌≤◌, IfOk, List as Seq, OnErr, false, length, true};
ghost use Rattle.std.specs.List.{list_all};
ghost use Rattle.zio_types.specs.declared.place.Top.{Top as SeenTop};
ghost use Rattle.zio_children.specs.RequestKids.{is_ended};
ghost use Rattle.zio_stages.specs.OwnParts.{IsNoWrite};
ghost use Rattle.zio_stages.specs.RequestReads.{HasFound};
ghost use Rattle.zio_staged.specs.Stages.{EachIn, Lessens, MayGoOn, told_cost};
ghost use Rattle.zio_nodes.specs.StageMoves.{IsLastMove, IsNextOf, IsStageMove, takes_stage};
ghost use Rattle.zio_nodes.specs.Nodes.{IsNodeDue, IsNodeOver, IsTreeOver, MovesBare, StaysBare, last_moved, left_of, moved};
ghost use Rattle.zio_nodes.specs.RequestAts.{IsRequestAtOver};
ghost use Rattle.zio_nodes.specs.Told.{is_told};

use crate::node::Node;
use crate::request_at::RequestAt;
use crate::turn::{Last, Turn};
use std::alloc::Global;
use zio_masks::Stage;
use zio_stages::what_is_no_write_has_no_pointer;
use zio_types::NoMemory;

impl RequestAt {
    /// Tells that it has no pointer, and goes on to this stage.
    pub(crate) fn tell_none(&mut self, to: Stage) -> Turn
        requires other { IsNoWrite self.old.node.waiting.request.work }
        requires stage { self.old.stage ≡ Stage.Ready }
        requires leads { IsNextOf (takes_stage (Node.Request self.old)) self.old.stage to }
        requires behind { is_told to ≡ true }
        ensures moves { (tops : Seq SeenTop)
            → MovesBare tops (Node.Request self.old) (moved (Node.Request self.new) result) }
        ensures over { (tops : Seq SeenTop) → IsRequestAtOver tops self.old →
            IsRequestAtOver tops (record { node = self.old.node; stage = to; is_due = true }) →
            EachIn (IsNodeOver tops) (IsTreeOver tops) (moved (Node.Request self.new) result) }
        ensures may { MayGoOn IsNodeDue (moved (Node.Request self.new) result) }
        ensures left { left_of (Node.Request (record { node = self.old.node; stage = to; is_due = true })) + told_cost
            ≤ left_of (Node.Request self.old) →
            Lessens left_of (Node.Request self.old) (moved (Node.Request self.new) result) }
        ensures stages { IsStageMove (Node.Request self.old) (moved (Node.Request self.new) result) }
    {
        what_is_no_write_has_no_pointer();
        self.stage = to;
        self.is_due = true;
        Turn::Ready(None)
    }

    /// Ends, where its own work came to something and its children ended. Where memory is refused it is as it was.
    pub(crate) fn end_found(&mut self, alloc: Global) -> Result<Last, NoMemory>
        requires found { HasFound self.old.node.own }
        requires ended { list_all is_ended self.old.node.kids.kids.kids ≡ true }
        requires other { IsNoWrite self.old.node.waiting.request.work }
        requires over { (tops : Seq SeenTop) × IsRequestAtOver tops self.old }
        requires stage { self.old.stage ≡ Stage.Done }
        ensures moves { (tops : Seq SeenTop)
            → IfOk result (λ last. MovesBare tops (Node.Request self.old) (last_moved (Node.Request self.new) last)) }
        ensures over { (tops : Seq SeenTop) → IsRequestAtOver tops self.old
            → IfOk result (λ last. EachIn (IsNodeOver tops) (IsTreeOver tops) (last_moved (Node.Request self.new) last)) }
        ensures may { IfOk result (λ last. MayGoOn IsNodeDue (last_moved (Node.Request self.new) last)) }
        ensures last { IfOk result (λ last. IsLastMove (last_moved (Node.Request self.new) last)) }
        ensures left { told_cost ≤ left_of (Node.Request self.old) → IfOk result
            (λ last. Lessens left_of (Node.Request self.old) (last_moved (Node.Request self.new) last)) }
        ensures refused { (tops : Seq SeenTop)
            → OnErr result (StaysBare tops (Node.Request self.old) (Node.Request self.new)) }
    {
        match self.node.close_found(alloc) {
            Ok(outcome) => Ok(Last::End(outcome)),
            Err(NoMemory) => Err(NoMemory),
        }
    }
}
