//! A read in an attempt that reads its body itself: the operations on leaves.

ghost use Rattle.std.specs.Prelude.{◌≡◌, IfOk, OnErr, false, true};
ghost use Rattle.zio_script.specs.Requests.{kind_of};
ghost use Rattle.zio_staged.specs.Stages.{EachIn, Lessens, MayGoOn};
ghost use Rattle.zio_nodes.specs.Passes.{KeepsPassAt};
ghost use Rattle.zio_nodes.specs.StageMoves.{IsStageMove};
ghost use Rattle.zio_nodes.specs.Nodes.{IsNodeDue, IsNodeOver, IsTreeOver, MovesBare, StaysBare, left_of, moved};
ghost use Rattle.zio_nodes.specs.RequestAts.{IsRequestAtOver};

use crate::leaf_at::LeafAt;
use crate::node::Node;
use crate::request_at::RequestAt;
use crate::turn::Turn;
use std::alloc::Global;
use zio_masks::{INTERLOCK, READ, Stage, next};
use zio_stages::IoNext;
use zio_types::{ChildKind, Kind, NoMemory, Phase, Top};

impl RequestAt {
    /// Hands the next operation on a leaf to a child, where it reads a body itself, or goes on where none is due now.
    /// Where memory is refused the body's read may have begun.
    pub(crate) fn read_io_start(&mut self, alloc: Global, tops: &[Top]) -> Result<Turn, NoMemory>
        requires over { IsRequestAtOver tops.now self.old }
        requires kind { kind_of self.old.node.waiting.request.work ≡ Kind.Read }
        requires stage { self.old.stage ≡ Stage.VdevIoStart }
        ensures moves { IfOk result
            (λ turn. MovesBare tops.now (Node.Request self.old) (moved (Node.Request self.new) turn)) }
        ensures over { IfOk result
            (λ turn. EachIn (IsNodeOver tops.now) (IsTreeOver tops.now) (moved (Node.Request self.new) turn)) }
        ensures may { IfOk result (λ turn. MayGoOn IsNodeDue (moved (Node.Request self.new) turn)) }
        ensures left { IfOk result
            (λ turn. Lessens left_of (Node.Request self.old) (moved (Node.Request self.new) turn)) }
        ensures refused { OnErr result (StaysBare tops.now (Node.Request self.old) (Node.Request self.new)) }
        ensures stages { IfOk result
            (λ turn. IsStageMove (Node.Request self.old) (moved (Node.Request self.new) turn)) }
        ensures pass { IfOk result
            (λ turn. KeepsPassAt self.old.stage (Node.Request self.old) (moved (Node.Request self.new) turn)) }
    {
        match self.node.vdev_io_start_read(alloc, tops) {
            Ok(Some(work)) => {
                let child = LeafAt::new(work);
                Ok(Turn::Ask(child))
            }
            Ok(None) => {
                self.stage = next(Stage::VdevIoStart, READ);
                self.is_due = false;
                Ok(Turn::Next)
            }
            Err(NoMemory) => Err(NoMemory),
        }
    }

    /// Waits for its children on leaves. It goes back where one that ended has made another operation due.
    pub(crate) fn read_io_done(&mut self, tops: &[Top]) -> Turn
        requires over { IsRequestAtOver tops.now self.old }
        requires kind { kind_of self.old.node.waiting.request.work ≡ Kind.Read }
        requires stage { self.old.stage ≡ Stage.VdevIoDone }
        ensures moves { MovesBare tops.now (Node.Request self.old) (moved (Node.Request self.new) result) }
        ensures over { EachIn (IsNodeOver tops.now) (IsTreeOver tops.now) (moved (Node.Request self.new) result) }
        ensures may { MayGoOn IsNodeDue (moved (Node.Request self.new) result) }
        ensures left { Lessens left_of (Node.Request self.old) (moved (Node.Request self.new) result) }
        ensures stages { IsStageMove (Node.Request self.old) (moved (Node.Request self.new) result) }
        ensures pass { KeepsPassAt self.old.stage (Node.Request self.old) (moved (Node.Request self.new) result) }
    {
        match self.node.vdev_io_done_read(tops) {
            IoNext::Wait => Turn::Wait(ChildKind::Vdev, Phase::Done),
            IoNext::More => {
                self.stage = Stage::VdevIoStart;
                self.is_due = true;
                Turn::Next
            }
            IoNext::On => {
                self.stage = next(Stage::VdevIoDone, READ);
                self.is_due = false;
                Turn::Next
            }
        }
    }

    /// Goes back for a second pass, once, where no copy was good; else the body's read closes, and an error cuts the
    /// pipeline short.
    pub(crate) fn read_io_assess(&mut self, tops: &[Top]) -> Turn
        requires over { IsRequestAtOver tops.now self.old }
        requires kind { kind_of self.old.node.waiting.request.work ≡ Kind.Read }
        requires stage { self.old.stage ≡ Stage.VdevIoAssess }
        ensures moves { MovesBare tops.now (Node.Request self.old) (moved (Node.Request self.new) result) }
        ensures over { EachIn (IsNodeOver tops.now) (IsTreeOver tops.now) (moved (Node.Request self.new) result) }
        ensures may { MayGoOn IsNodeDue (moved (Node.Request self.new) result) }
        ensures left { Lessens left_of (Node.Request self.old) (moved (Node.Request self.new) result) }
        ensures stages { IsStageMove (Node.Request self.old) (moved (Node.Request self.new) result) }
    {
        let has_failed = self.node.has_read_failed();
        if self.node.vdev_io_assess_read(tops) {
            self.stage = Stage::VdevIoStart;
            self.is_due = true;
            return Turn::Next;
        }
        self.stage = behind_assess(has_failed);
        self.is_due = false;
        Turn::Next
    }
}

/// The stage behind VdevIoAssess. After an error no more comes but the end: there are no bytes to verify.
pub(crate) fn behind_assess(has_failed: bool) -> Stage
    ensures cut { has_failed ≡ true → result ≡ Stage.Done }
    ensures on { has_failed ≡ false → result ≡ Stage.ChecksumVerify }
{
    if has_failed {
        return next(Stage::VdevIoAssess, INTERLOCK);
    }
    next(Stage::VdevIoAssess, READ)
}
