// The stages of a gang's member that is written: its places and members, its pointer, its own copies, and its end.

ghost use Rattle.std.specs.Prelude.{◌≡◌, Err, IfOk, List as Seq, Ok, OnErr};
ghost use Rattle.zio_types.specs.declared.place.Top.{Top as SeenTop};
ghost use Rattle.zio_gang.specs.Attempts.{Terms};
ghost use Rattle.zio_frames.specs.Frames.{Stack};
ghost use Rattle.zio_exchange.specs.SpaceCalls.{SpaceCall};
ghost use Rattle.zio_staged.specs.Stages.{EachIn, GoesOn, IsMove, IsNow, Lessens, MayGoOn};
ghost use Rattle.zio_nodes.specs.Passes.{KeepsPassAt};
ghost use Rattle.zio_nodes.specs.StageMoves.{IsLastMove, IsStageMove};
ghost use Rattle.zio_nodes.specs.Nodes.{IsNodeDue, IsNodeOver, IsTreeOver, MovesBare, MovesWith, StaysBare, StaysWith, last_moved, left_of, moved};
ghost use Rattle.zio_nodes.specs.PartAts.{IsPartAtOver};

use crate::leaf_at::LeafAt;
use crate::node::Node;
use crate::part_at::PartAt;
use crate::turn::{Last, Turn, new_room};
use std::alloc::Global;
use zio_exchange::Services;
use zio_masks::{Stage, WRITE, next};
use zio_stages::{DoneStep, IoNext, Outcome, ReadyStep};
use zio_types::{ChildKind, NoMemory, Phase, Top};

impl PartAt {
    /// Asks for the part's places, for a header's where these are refused, and hands the gang's next member to a child;
    /// goes on once all are out. Where memory is refused what was done before stays.
    pub(crate) fn dva_allocate<S: Services>(
        &mut self,
        alloc: Global,
        services: &mut S,
    ) -> Result<Turn, NoMemory>
        requires over { IsPartAtOver (S.tops services.old) self.old }
        requires stage { self.old.stage ≡ Stage.DvaAllocate }
        ensures moves { IfOk result (λ turn. MovesWith S.made (S.tops services.old) services.old services.new
            (Node.Part self.old) (moved (Node.Part self.new) turn)) }
        ensures over { IfOk result (λ turn. EachIn (IsNodeOver (S.tops services.old)) (IsTreeOver (S.tops services.old))
            (moved (Node.Part self.new) turn)) }
        ensures may { IfOk result (λ turn. MayGoOn IsNodeDue (moved (Node.Part self.new) turn)) }
        ensures left { IfOk result (λ turn. Lessens left_of (Node.Part self.old) (moved (Node.Part self.new) turn)) }
        ensures refused { OnErr result (StaysWith S.made (S.tops services.old) services.old services.new
            (Node.Part self.old) (Node.Part self.new)) }
        ensures tops { S.tops services.new ≡ S.tops services.old }
        ensures stages { IfOk result (λ turn. IsStageMove (Node.Part self.old) (moved (Node.Part self.new) turn)) }
    {
        let Ok(()) = self.node.dva_allocate(alloc, services) else {
            return Err(NoMemory);
        };
        if !self.node.is_member_due() {
            self.stage = next(Stage::DvaAllocate, WRITE);
            self.is_due = true;
            return Ok(Turn::Next);
        }
        let Ok(mut room) = new_room(alloc) else {
            return Err(NoMemory);
        };
        match self.node.next_member(alloc) {
            Ok(member) => {
                let child = PartAt::new(member);
                *room = Node::Part(child);
                Ok(Turn::Grow(room, ChildKind::Gang))
            }
            Err(NoMemory) => Err(NoMemory),
        }
    }

    /// Waits until each member told its pointer, and tells its own.
    pub(crate) fn ready(&mut self) -> Turn
        requires over { (tops : Seq SeenTop) × IsPartAtOver tops self.old }
        requires stage { self.old.stage ≡ Stage.Ready }
        ensures moves { (tops : Seq SeenTop) → MovesBare tops (Node.Part self.old) (moved (Node.Part self.new) result) }
        ensures over { (tops : Seq SeenTop) → IsPartAtOver tops self.old
            → EachIn (IsNodeOver tops) (IsTreeOver tops) (moved (Node.Part self.new) result) }
        ensures may { MayGoOn IsNodeDue (moved (Node.Part self.new) result) }
        ensures left { Lessens left_of (Node.Part self.old) (moved (Node.Part self.new) result) }
        ensures stages { IsStageMove (Node.Part self.old) (moved (Node.Part self.new) result) }
    {
        match self.node.ready() {
            ReadyStep::Wait(kind) => Turn::Wait(kind, Phase::Ready),
            ReadyStep::Tell(pointer) => {
                self.stage = next(Stage::Ready, WRITE);
                self.is_due = true;
                Turn::Ready(pointer)
            }
        }
    }

    /// Hands the next write of a copy to a child, or goes on where none is due now. Where memory is refused its own
    /// write may have begun.
    pub(crate) fn vdev_io_start(&mut self, alloc: Global, tops: &[Top]) -> Result<Turn, NoMemory>
        requires over { IsPartAtOver tops.now self.old }
        requires stage { self.old.stage ≡ Stage.VdevIoStart }
        ensures moves { IfOk result
            (λ turn. MovesBare tops.now (Node.Part self.old) (moved (Node.Part self.new) turn)) }
        ensures over { IfOk result
            (λ turn. EachIn (IsNodeOver tops.now) (IsTreeOver tops.now) (moved (Node.Part self.new) turn)) }
        ensures may { IfOk result (λ turn. MayGoOn IsNodeDue (moved (Node.Part self.new) turn)) }
        ensures left { IfOk result (λ turn. Lessens left_of (Node.Part self.old) (moved (Node.Part self.new) turn)) }
        ensures refused { OnErr result (StaysBare tops.now (Node.Part self.old) (Node.Part self.new)) }
        ensures stages { IfOk result (λ turn. IsStageMove (Node.Part self.old) (moved (Node.Part self.new) turn)) }
        ensures pass { IfOk result
            (λ turn. KeepsPassAt self.old.stage (Node.Part self.old) (moved (Node.Part self.new) turn)) }
    {
        match self.node.vdev_io_start(alloc, tops) {
            Ok(Some(work)) => {
                let child = LeafAt::new(work);
                Ok(Turn::Ask(child))
            }
            Ok(None) => {
                self.stage = next(Stage::VdevIoStart, WRITE);
                self.is_due = false;
                Ok(Turn::Next)
            }
            Err(NoMemory) => Err(NoMemory),
        }
    }

    /// Waits for the writes of this pass. It goes back where one that ended has made another due.
    pub(crate) fn vdev_io_done(&mut self, tops: &[Top]) -> Turn
        requires over { IsPartAtOver tops.now self.old }
        requires stage { self.old.stage ≡ Stage.VdevIoDone }
        ensures moves { MovesBare tops.now (Node.Part self.old) (moved (Node.Part self.new) result) }
        ensures over { EachIn (IsNodeOver tops.now) (IsTreeOver tops.now) (moved (Node.Part self.new) result) }
        ensures may { MayGoOn IsNodeDue (moved (Node.Part self.new) result) }
        ensures left { Lessens left_of (Node.Part self.old) (moved (Node.Part self.new) result) }
        ensures stages { IsStageMove (Node.Part self.old) (moved (Node.Part self.new) result) }
        ensures pass { KeepsPassAt self.old.stage (Node.Part self.old) (moved (Node.Part self.new) result) }
    {
        match self.node.vdev_io_done(tops) {
            IoNext::Wait => Turn::Wait(ChildKind::Vdev, Phase::Done),
            IoNext::More => {
                self.stage = Stage::VdevIoStart;
                self.is_due = true;
                Turn::Next
            }
            IoNext::On => {
                self.stage = next(Stage::VdevIoDone, WRITE);
                self.is_due = false;
                Turn::Next
            }
        }
    }

    /// Goes back for a second pass, once, where a copy wasn't written.
    pub(crate) fn vdev_io_assess(&mut self, tops: &[Top]) -> Turn
        requires over { IsPartAtOver tops.now self.old }
        requires stage { self.old.stage ≡ Stage.VdevIoAssess }
        ensures moves { MovesBare tops.now (Node.Part self.old) (moved (Node.Part self.new) result) }
        ensures over { EachIn (IsNodeOver tops.now) (IsTreeOver tops.now) (moved (Node.Part self.new) result) }
        ensures may { MayGoOn IsNodeDue (moved (Node.Part self.new) result) }
        ensures left { Lessens left_of (Node.Part self.old) (moved (Node.Part self.new) result) }
        ensures stages { IsStageMove (Node.Part self.old) (moved (Node.Part self.new) result) }
    {
        let goes_again = self.node.vdev_io_assess(tops);
        if goes_again {
            self.stage = Stage::VdevIoStart;
            self.is_due = true;
            return Turn::Next;
        }
        self.stage = next(Stage::VdevIoAssess, WRITE);
        self.is_due = false;
        Turn::Next
    }

    /// Waits for its members, and ends with what was stored. Where memory is refused it is as it was.
    pub(crate) fn done(&mut self, alloc: Global) -> Result<Last, NoMemory>
        requires over { (tops : Seq SeenTop) × IsPartAtOver tops self.old }
        requires stage { self.old.stage ≡ Stage.Done }
        ensures moves { (tops : Seq SeenTop)
            → IfOk result (λ last. MovesBare tops (Node.Part self.old) (last_moved (Node.Part self.new) last)) }
        ensures over { (tops : Seq SeenTop) → IsPartAtOver tops self.old
            → IfOk result (λ last. EachIn (IsNodeOver tops) (IsTreeOver tops) (last_moved (Node.Part self.new) last)) }
        ensures may { IfOk result (λ last. MayGoOn IsNodeDue (last_moved (Node.Part self.new) last)) }
        ensures last { IfOk result (λ last. IsLastMove (last_moved (Node.Part self.new) last)) }
        ensures left { IfOk result (λ last. Lessens left_of (Node.Part self.old) (last_moved (Node.Part self.new) last)) }
        ensures refused { (tops : Seq SeenTop)
            → OnErr result (StaysBare tops (Node.Part self.old) (Node.Part self.new)) }
    {
        if let DoneStep::Wait(kind) = self.node.done() {
            return Ok(Last::Wait(kind, Phase::Done));
        }
        match self.node.take_stored(alloc) {
            Ok(stored) => Ok(Last::End(Outcome::Stored(stored))),
            Err(NoMemory) => Err(NoMemory),
        }
    }
}
