//! A write in an attempt, from stage to stage behind Start.
//!
//! Its content begins with its children's pointers, so it waits for these before it asks for places. Its block is
//! written as a gang's member is; where the request fails or goes again the places of that block go back before the
//! attempt closes.

ghost use Rattle.std.specs.Prelude.{◌≡◌, ◌≢◌, IfOk, List as Seq, false, true, OnErr};
ghost use Rattle.zio_types.specs.declared.place.Top.{Top as SeenTop};
ghost use Rattle.zio_script.specs.Requests.{kind_of};
ghost use Rattle.zio_stages.specs.RequestKinds.{is_stored};
ghost use Rattle.zio_staged.specs.Stages.{EachIn, Lessens, MayGoOn};
ghost use Rattle.zio_nodes.specs.Passes.{KeepsPassAt};
ghost use Rattle.zio_nodes.specs.StageMoves.{IsEndMove, IsLastMove, IsStageMove};
ghost use Rattle.zio_nodes.specs.Nodes.{IsNodeDue, IsNodeOver, IsTreeOver, MovesBare, MovesWith, StaysBare, StaysWith, last_moved, left_of, moved};
ghost use Rattle.zio_nodes.specs.RequestAts.{IsRequestAtOver};

use crate::leaf_at::LeafAt;
use crate::node::Node;
use crate::part_at::PartAt;
use crate::request_at::RequestAt;
use crate::turn::{Last, Turn, new_room};
use std::alloc::Global;
use zio_exchange::Services;
use zio_masks::{Stage, WRITE, next};
use zio_stages::{Content, DoneStep, IoNext, ReadyStep};
use zio_types::{ChildKind, Kind, NoMemory, Phase, Top};

impl RequestAt {
    /// Runs one stage behind Start. Where memory is refused it comes back, and what it did of the stage stays.
    pub(crate) fn write_stage<S: Services>(
        &mut self,
        alloc: Global,
        services: &mut S,
    ) -> Result<Turn, NoMemory>
        requires over { IsRequestAtOver (S.tops services.old) self.old }
        requires kind { kind_of self.old.node.waiting.request.work ≡ Kind.Write }
        requires behind { self.old.stage ≢ Stage.Start }
        requires before { self.old.stage ≢ Stage.Done }
        ensures moves { IfOk result (λ turn. MovesWith S.made (S.tops services.old) services.old services.new
            (Node.Request self.old) (moved (Node.Request self.new) turn)) }
        ensures over { IfOk result (λ turn. EachIn (IsNodeOver (S.tops services.old)) (IsTreeOver (S.tops services.old))
            (moved (Node.Request self.new) turn)) }
        ensures may { IfOk result (λ turn. MayGoOn IsNodeDue (moved (Node.Request self.new) turn)) }
        ensures left { IfOk result
            (λ turn. Lessens left_of (Node.Request self.old) (moved (Node.Request self.new) turn)) }
        ensures refused { OnErr result (StaysWith S.made (S.tops services.old) services.old services.new
            (Node.Request self.old) (Node.Request self.new)) }
        ensures tops { S.tops services.new ≡ S.tops services.old }
        ensures stages { IfOk result
            (λ turn. IsStageMove (Node.Request self.old) (moved (Node.Request self.new) turn)) }
        ensures pass { IfOk result
            (λ turn. KeepsPassAt self.old.stage (Node.Request self.old) (moved (Node.Request self.new) turn)) }
    {
        match self.stage {
            Stage::WriteBpInit => Ok(self.write_bp_init()),
            Stage::IssueAsync => Ok(self.issue_async()),
            Stage::WriteCompress => self.write_compress(alloc),
            Stage::ChecksumGenerate => Ok(self.checksum_generate()),
            Stage::DvaAllocate => self.dva_allocate(alloc, services),
            Stage::Ready => Ok(self.write_ready()),
            Stage::VdevIoStart => self.write_io_start(alloc, services.tops()),
            Stage::VdevIoDone => Ok(self.write_io_done(services.tops())),
            Stage::VdevIoAssess => Ok(self.write_io_assess(services.tops())),
            _ => unreachable!(),
        }
    }

    /// What its pointer will have is fixed by its request.
    fn write_bp_init(&mut self) -> Turn
        requires over { (tops : Seq SeenTop) × IsRequestAtOver tops self.old }
        requires kind { kind_of self.old.node.waiting.request.work ≡ Kind.Write }
        requires stage { self.old.stage ≡ Stage.WriteBpInit }
        ensures moves { (tops : Seq SeenTop)
            → MovesBare tops (Node.Request self.old) (moved (Node.Request self.new) result) }
        ensures over { (tops : Seq SeenTop) → IsRequestAtOver tops self.old
            → EachIn (IsNodeOver tops) (IsTreeOver tops) (moved (Node.Request self.new) result) }
        ensures may { MayGoOn IsNodeDue (moved (Node.Request self.new) result) }
        ensures left { Lessens left_of (Node.Request self.old) (moved (Node.Request self.new) result) }
        ensures stages { IsStageMove (Node.Request self.old) (moved (Node.Request self.new) result) }
    {
        self.stage = next(Stage::WriteBpInit, WRITE);
        Turn::Next
    }

    /// One queue of nodes is all that one thread has.
    fn issue_async(&mut self) -> Turn
        requires over { (tops : Seq SeenTop) × IsRequestAtOver tops self.old }
        requires kind { kind_of self.old.node.waiting.request.work ≡ Kind.Write }
        requires stage { self.old.stage ≡ Stage.IssueAsync }
        ensures moves { (tops : Seq SeenTop)
            → MovesBare tops (Node.Request self.old) (moved (Node.Request self.new) result) }
        ensures over { (tops : Seq SeenTop) → IsRequestAtOver tops self.old
            → EachIn (IsNodeOver tops) (IsTreeOver tops) (moved (Node.Request self.new) result) }
        ensures may { MayGoOn IsNodeDue (moved (Node.Request self.new) result) }
        ensures left { Lessens left_of (Node.Request self.old) (moved (Node.Request self.new) result) }
        ensures stages { IsStageMove (Node.Request self.old) (moved (Node.Request self.new) result) }
    {
        self.stage = next(Stage::IssueAsync, WRITE);
        Turn::Next
    }

    /// Sets its content, once each child told its pointer. Where memory is refused it comes back as it was.
    fn write_compress(&mut self, alloc: Global) -> Result<Turn, NoMemory>
        requires over { (tops : Seq SeenTop) × IsRequestAtOver tops self.old }
        requires kind { kind_of self.old.node.waiting.request.work ≡ Kind.Write }
        requires stage { self.old.stage ≡ Stage.WriteCompress }
        ensures moves { (tops : Seq SeenTop)
            → IfOk result (λ turn. MovesBare tops (Node.Request self.old) (moved (Node.Request self.new) turn)) }
        ensures over { (tops : Seq SeenTop) → IsRequestAtOver tops self.old
            → IfOk result (λ turn. EachIn (IsNodeOver tops) (IsTreeOver tops) (moved (Node.Request self.new) turn)) }
        ensures may { IfOk result (λ turn. MayGoOn IsNodeDue (moved (Node.Request self.new) turn)) }
        ensures left { IfOk result
            (λ turn. Lessens left_of (Node.Request self.old) (moved (Node.Request self.new) turn)) }
        ensures refused { (tops : Seq SeenTop)
            → OnErr result (StaysBare tops (Node.Request self.old) (Node.Request self.new)) }
        ensures stages { IfOk result
            (λ turn. IsStageMove (Node.Request self.old) (moved (Node.Request self.new) turn)) }
    {
        match self.node.write_compress(alloc) {
            Ok(Content::Wait(kind)) => { Ok(Turn::Wait(kind, Phase::Ready)) }
            Ok(Content::Set) => {
                self.stage = next(Stage::WriteCompress, WRITE);
                Ok(Turn::Next)
            }
            Err(NoMemory) => Err(NoMemory),
        }
    }

    /// The sum of its content was taken as that was set.
    fn checksum_generate(&mut self) -> Turn
        requires over { (tops : Seq SeenTop) × IsRequestAtOver tops self.old }
        requires kind { kind_of self.old.node.waiting.request.work ≡ Kind.Write }
        requires stage { self.old.stage ≡ Stage.ChecksumGenerate }
        ensures moves { (tops : Seq SeenTop)
            → MovesBare tops (Node.Request self.old) (moved (Node.Request self.new) result) }
        ensures over { (tops : Seq SeenTop) → IsRequestAtOver tops self.old
            → EachIn (IsNodeOver tops) (IsTreeOver tops) (moved (Node.Request self.new) result) }
        ensures may { MayGoOn IsNodeDue (moved (Node.Request self.new) result) }
        ensures left { Lessens left_of (Node.Request self.old) (moved (Node.Request self.new) result) }
        ensures stages { IsStageMove (Node.Request self.old) (moved (Node.Request self.new) result) }
    {
        self.stage = next(Stage::ChecksumGenerate, WRITE);
        Turn::Next
    }

    /// Asks for its block's places, for a header's where these are refused, and hands out the gang's members one by
    /// one. Where memory is refused it comes back, and what was done before stays.
    fn dva_allocate<S: Services>(
        &mut self,
        alloc: Global,
        services: &mut S,
    ) -> Result<Turn, NoMemory>
        requires over { IsRequestAtOver (S.tops services.old) self.old }
        requires kind { kind_of self.old.node.waiting.request.work ≡ Kind.Write }
        requires stage { self.old.stage ≡ Stage.DvaAllocate }
        ensures moves { IfOk result (λ turn. MovesWith S.made (S.tops services.old) services.old services.new
            (Node.Request self.old) (moved (Node.Request self.new) turn)) }
        ensures over { IfOk result (λ turn. EachIn (IsNodeOver (S.tops services.old)) (IsTreeOver (S.tops services.old))
            (moved (Node.Request self.new) turn)) }
        ensures may { IfOk result (λ turn. MayGoOn IsNodeDue (moved (Node.Request self.new) turn)) }
        ensures left { IfOk result
            (λ turn. Lessens left_of (Node.Request self.old) (moved (Node.Request self.new) turn)) }
        ensures refused { OnErr result (StaysWith S.made (S.tops services.old) services.old services.new
            (Node.Request self.old) (Node.Request self.new)) }
        ensures tops { S.tops services.new ≡ S.tops services.old }
        ensures stages { IfOk result
            (λ turn. IsStageMove (Node.Request self.old) (moved (Node.Request self.new) turn)) }
    {
        let Ok(()) = self.node.dva_allocate(alloc, services) else {
            return Err(NoMemory);
        };
        if !self.node.is_member_due() {
            self.stage = next(Stage::DvaAllocate, WRITE);
            return Ok(Turn::Next);
        }
        let Ok(mut room) = new_room(alloc) else {
            return Err(NoMemory);
        };
        match self.node.next_member(alloc) {
            Ok(member) => {
                let child = PartAt::new(member);
                *room = Node::Part(child);
                Ok(Turn::Grow(room, ChildKind::Gang))
            }
            Err(NoMemory) => Err(NoMemory),
        }
    }

    /// Tells its pointer, once each member of its block told its own.
    fn write_ready(&mut self) -> Turn
        requires over { (tops : Seq SeenTop) × IsRequestAtOver tops self.old }
        requires kind { kind_of self.old.node.waiting.request.work ≡ Kind.Write }
        requires stage { self.old.stage ≡ Stage.Ready }
        ensures moves { (tops : Seq SeenTop)
            → MovesBare tops (Node.Request self.old) (moved (Node.Request self.new) result) }
        ensures over { (tops : Seq SeenTop) → IsRequestAtOver tops self.old
            → EachIn (IsNodeOver tops) (IsTreeOver tops) (moved (Node.Request self.new) result) }
        ensures may { MayGoOn IsNodeDue (moved (Node.Request self.new) result) }
        ensures left { Lessens left_of (Node.Request self.old) (moved (Node.Request self.new) result) }
        ensures stages { IsStageMove (Node.Request self.old) (moved (Node.Request self.new) result) }
    {
        match self.node.ready_write() {
            ReadyStep::Wait(kind) => Turn::Wait(kind, Phase::Ready),
            ReadyStep::Tell(pointer) => {
                self.stage = next(Stage::Ready, WRITE);
                self.is_due = true;
                Turn::Ready(pointer)
            }
        }
    }

    /// Hands the next operation on a leaf to a child, or goes on where none is due now. Where memory is refused it
    /// comes back.
    fn write_io_start(&mut self, alloc: Global, tops: &[Top]) -> Result<Turn, NoMemory>
        requires over { IsRequestAtOver tops.now self.old }
        requires kind { kind_of self.old.node.waiting.request.work ≡ Kind.Write }
        requires stage { self.old.stage ≡ Stage.VdevIoStart }
        ensures moves { IfOk result
            (λ turn. MovesBare tops.now (Node.Request self.old) (moved (Node.Request self.new) turn)) }
        ensures over { IfOk result
            (λ turn. EachIn (IsNodeOver tops.now) (IsTreeOver tops.now) (moved (Node.Request self.new) turn)) }
        ensures may { IfOk result (λ turn. MayGoOn IsNodeDue (moved (Node.Request self.new) turn)) }
        ensures left { IfOk result
            (λ turn. Lessens left_of (Node.Request self.old) (moved (Node.Request self.new) turn)) }
        ensures refused { OnErr result (StaysBare tops.now (Node.Request self.old) (Node.Request self.new)) }
        ensures stages { IfOk result
            (λ turn. IsStageMove (Node.Request self.old) (moved (Node.Request self.new) turn)) }
        ensures pass { IfOk result
            (λ turn. KeepsPassAt self.old.stage (Node.Request self.old) (moved (Node.Request self.new) turn)) }
    {
        match self.node.vdev_io_start_write(alloc, tops) {
            Ok(Some(work)) => {
                let child = LeafAt::new(work);
                Ok(Turn::Ask(child))
            }
            Ok(None) => {
                self.stage = next(Stage::VdevIoStart, WRITE);
                self.is_due = false;
                Ok(Turn::Next)
            }
            Err(NoMemory) => Err(NoMemory),
        }
    }

    /// Waits for its operations on leaves. It goes back where another is due.
    fn write_io_done(&mut self, tops: &[Top]) -> Turn
        requires over { IsRequestAtOver tops.now self.old }
        requires kind { kind_of self.old.node.waiting.request.work ≡ Kind.Write }
        requires stage { self.old.stage ≡ Stage.VdevIoDone }
        ensures moves { MovesBare tops.now (Node.Request self.old) (moved (Node.Request self.new) result) }
        ensures over { EachIn (IsNodeOver tops.now) (IsTreeOver tops.now) (moved (Node.Request self.new) result) }
        ensures may { MayGoOn IsNodeDue (moved (Node.Request self.new) result) }
        ensures left { Lessens left_of (Node.Request self.old) (moved (Node.Request self.new) result) }
        ensures stages { IsStageMove (Node.Request self.old) (moved (Node.Request self.new) result) }
        ensures pass { KeepsPassAt self.old.stage (Node.Request self.old) (moved (Node.Request self.new) result) }
    {
        match self.node.vdev_io_done_write(tops) {
            IoNext::Wait => Turn::Wait(ChildKind::Vdev, Phase::Done),
            IoNext::More => {
                self.stage = Stage::VdevIoStart;
                self.is_due = true;
                Turn::Next
            }
            IoNext::On => {
                self.stage = next(Stage::VdevIoDone, WRITE);
                self.is_due = false;
                Turn::Next
            }
        }
    }

    /// Goes back for a second pass, once, over the leaves that failed.
    fn write_io_assess(&mut self, tops: &[Top]) -> Turn
        requires over { IsRequestAtOver tops.now self.old }
        requires kind { kind_of self.old.node.waiting.request.work ≡ Kind.Write }
        requires stage { self.old.stage ≡ Stage.VdevIoAssess }
        ensures moves { MovesBare tops.now (Node.Request self.old) (moved (Node.Request self.new) result) }
        ensures over { EachIn (IsNodeOver tops.now) (IsTreeOver tops.now) (moved (Node.Request self.new) result) }
        ensures may { MayGoOn IsNodeDue (moved (Node.Request self.new) result) }
        ensures left { Lessens left_of (Node.Request self.old) (moved (Node.Request self.new) result) }
        ensures stages { IsStageMove (Node.Request self.old) (moved (Node.Request self.new) result) }
    {
        if self.node.vdev_io_assess_write(tops) {
            self.stage = Stage::VdevIoStart;
            self.is_due = true;
            return Turn::Next;
        }
        self.stage = next(Stage::VdevIoAssess, WRITE);
        self.is_due = false;
        Turn::Next
    }

    /// Waits for its members and its children, and ends with what its block came to. Where memory is refused what it
    /// came to stays.
    #[inline(never)]
    pub(crate) fn write_done<S: Services>(
        &mut self,
        alloc: Global,
        services: &mut S,
    ) -> Result<Last, NoMemory>
        requires over { IsRequestAtOver (S.tops services.old) self.old }
        requires kind { kind_of self.old.node.waiting.request.work ≡ Kind.Write }
        requires stage { self.old.stage ≡ Stage.Done }
        ensures moves { IfOk result (λ last. MovesWith S.made (S.tops services.old) services.old services.new
            (Node.Request self.old) (last_moved (Node.Request self.new) last)) }
        ensures over { IfOk result (λ last. EachIn (IsNodeOver (S.tops services.old)) (IsTreeOver (S.tops services.old))
            (last_moved (Node.Request self.new) last)) }
        ensures may { IfOk result (λ last. MayGoOn IsNodeDue (last_moved (Node.Request self.new) last)) }
        ensures last { IfOk result (λ last. IsLastMove (last_moved (Node.Request self.new) last)) }
        ensures left { IfOk result
            (λ last. Lessens left_of (Node.Request self.old) (last_moved (Node.Request self.new) last)) }
        ensures refused { OnErr result (StaysWith S.made (S.tops services.old) services.old services.new
            (Node.Request self.old) (Node.Request self.new)) }
        ensures tops { S.tops services.new ≡ S.tops services.old }
    {
        if self.node.is_stored() {
            return self.write_end(alloc, services);
        }
        if let DoneStep::Wait(kind) = self.node.done_write() {
            return Ok(Last::Wait(kind, Phase::Done));
        }
        match self.node.end_write(alloc) {
            Ok(()) => self.write_end(alloc, services),
            Err(NoMemory) => Err(NoMemory),
        }
    }

    /// Gives the places of its block back where it is to lose that, and ends. Where memory is refused the places that
    /// went back are told.
    fn write_end<S: Services>(&mut self, alloc: Global, services: &mut S) -> Result<Last, NoMemory>
        requires over { IsRequestAtOver (S.tops services.old) self.old }
        requires kind { kind_of self.old.node.waiting.request.work ≡ Kind.Write }
        requires stage { self.old.stage ≡ Stage.Done }
        requires stored { is_stored self.old.node.own ≡ true }
        ensures moves { IfOk result (λ last. MovesWith S.made (S.tops services.old) services.old services.new
            (Node.Request self.old) (last_moved (Node.Request self.new) last)) }
        ensures over { IfOk result (λ last. EachIn (IsNodeOver (S.tops services.old)) (IsTreeOver (S.tops services.old))
            (last_moved (Node.Request self.new) last)) }
        ensures may { IfOk result (λ last. MayGoOn IsNodeDue (last_moved (Node.Request self.new) last)) }
        ensures ends { IfOk result (λ last. IsEndMove (last_moved (Node.Request self.new) last)) }
        ensures left { IfOk result
            (λ last. Lessens left_of (Node.Request self.old) (last_moved (Node.Request self.new) last)) }
        ensures refused { OnErr result (StaysWith S.made (S.tops services.old) services.old services.new
            (Node.Request self.old) (Node.Request self.new)) }
        ensures tops { S.tops services.new ≡ S.tops services.old }
    {
        let Ok(()) = self.node.give_block_back(alloc, services) else {
            return Err(NoMemory);
        };
        match self.node.close_write(alloc) {
            Ok(outcome) => Ok(Last::End(outcome)),
            Err(NoMemory) => Err(NoMemory),
        }
    }
}
