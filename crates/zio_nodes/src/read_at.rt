//! A read in an attempt, from stage to stage behind Start.
//!
//! It walks over the headers of its block first, and reads the bodies then: a gang's by children, and else the one body
//! by itself.

ghost use Rattle.std.specs.Prelude.{◌≡◌, ◌≢◌, IfOk, List as Seq, OnErr, false, true};
ghost use Rattle.zio_types.specs.declared.place.Top.{Top as SeenTop};
ghost use Rattle.zio_script.specs.Requests.{kind_of};
ghost use Rattle.zio_stages.specs.RequestReads.{IsBodyNext, IsReadingWith};
ghost use Rattle.zio_staged.specs.Stages.{EachIn, Lessens, MayGoOn};
ghost use Rattle.zio_nodes.specs.Stalls.{LeavesGang};
ghost use Rattle.zio_nodes.specs.Passes.{KeepsPassAt};
ghost use Rattle.zio_nodes.specs.StageMoves.{IsLastMove, IsStageMove};
ghost use Rattle.zio_nodes.specs.Nodes.{IsNodeDue, IsNodeOver, IsTreeOver, MovesBare, MovesWith, StaysBare, StaysWith, last_moved, left_of, moved};
ghost use Rattle.zio_nodes.specs.RequestAts.{IsRequestAtOver};

use crate::copies_at::CopiesAt;
use crate::heads_at::HeadsAt;
use crate::node::Node;
use crate::request_at::RequestAt;
use crate::stall::gang_stall;
use crate::turn::{Last, Turn, new_room};
use std::alloc::Global;
use zio_exchange::Services;
use zio_masks::{INTERLOCK, READ, Stage, next, with_gang};
use zio_parts::BodyRead;
use zio_stages::{BodyStage, ReadDone};
use zio_types::{ChildKind, Kind, NoMemory, Phase, Top};

impl RequestAt {
    /// Runs one stage behind Start. Where memory is refused it comes back, and what it did of the stage stays.
    pub(crate) fn read_stage<S: Services>(
        &mut self,
        alloc: Global,
        services: &mut S,
    ) -> Result<Turn, NoMemory>
        requires over { IsRequestAtOver (S.tops services.old) self.old }
        requires kind { kind_of self.old.node.waiting.request.work ≡ Kind.Read }
        requires behind { self.old.stage ≢ Stage.Start }
        requires before { self.old.stage ≢ Stage.Done }
        ensures moves { IfOk result (λ turn. MovesWith S.made (S.tops services.old) services.old services.new
            (Node.Request self.old) (moved (Node.Request self.new) turn)) }
        ensures over { IfOk result (λ turn. EachIn (IsNodeOver (S.tops services.old)) (IsTreeOver (S.tops services.old))
            (moved (Node.Request self.new) turn)) }
        ensures may { IfOk result (λ turn. MayGoOn IsNodeDue (moved (Node.Request self.new) turn)) }
        ensures left { IfOk result
            (λ turn. Lessens left_of (Node.Request self.old) (moved (Node.Request self.new) turn)) }
        ensures refused { OnErr result (StaysWith S.made (S.tops services.old) services.old services.new
            (Node.Request self.old) (Node.Request self.new)) }
        ensures tops { S.tops services.new ≡ S.tops services.old }
        ensures stages { IfOk result
            (λ turn. IsStageMove (Node.Request self.old) (moved (Node.Request self.new) turn)) }
        ensures pass { IfOk result
            (λ turn. KeepsPassAt self.old.stage (Node.Request self.old) (moved (Node.Request self.new) turn)) }
        ensures leaves { self.old.stage ≡ Stage.GangIssue
            → IfOk result (λ turn. LeavesGang self.old.node.family (moved (Node.Request self.new) turn)) }
    {
        self.read_bare(alloc, services.tops())
    }

    /// None of its stages asks the space for anything. Where memory is refused it comes back, and what it began stays.
    fn read_bare(&mut self, alloc: Global, tops: &[Top]) -> Result<Turn, NoMemory>
        requires over { IsRequestAtOver tops.now self.old }
        requires kind { kind_of self.old.node.waiting.request.work ≡ Kind.Read }
        requires behind { self.old.stage ≢ Stage.Start }
        requires before { self.old.stage ≢ Stage.Done }
        ensures moves { IfOk result
            (λ turn. MovesBare tops.now (Node.Request self.old) (moved (Node.Request self.new) turn)) }
        ensures over { IfOk result
            (λ turn. EachIn (IsNodeOver tops.now) (IsTreeOver tops.now) (moved (Node.Request self.new) turn)) }
        ensures may { IfOk result (λ turn. MayGoOn IsNodeDue (moved (Node.Request self.new) turn)) }
        ensures left { IfOk result
            (λ turn. Lessens left_of (Node.Request self.old) (moved (Node.Request self.new) turn)) }
        ensures refused { OnErr result (StaysBare tops.now (Node.Request self.old) (Node.Request self.new)) }
        ensures stages { IfOk result
            (λ turn. IsStageMove (Node.Request self.old) (moved (Node.Request self.new) turn)) }
        ensures pass { IfOk result
            (λ turn. KeepsPassAt self.old.stage (Node.Request self.old) (moved (Node.Request self.new) turn)) }
        ensures leaves { self.old.stage ≡ Stage.GangIssue
            → IfOk result (λ turn. LeavesGang self.old.node.family (moved (Node.Request self.new) turn)) }
    {
        match self.stage {
            Stage::ReadBpInit => self.read_bp_init(alloc),
            Stage::GangAssemble => self.read_gang_assemble(alloc),
            Stage::GangIssue => self.read_gang_issue(alloc, tops),
            Stage::Ready => Ok(self.read_ready()),
            Stage::VdevIoStart => self.read_io_start(alloc, tops),
            Stage::VdevIoDone => Ok(self.read_io_done(tops)),
            Stage::VdevIoAssess => Ok(self.read_io_assess(tops)),
            Stage::ChecksumVerify => Ok(self.read_checksum_verify()),
            _ => unreachable!(),
        }
    }

    /// Begins the read of its block. Where memory is refused it comes back as it was.
    fn read_bp_init(&mut self, alloc: Global) -> Result<Turn, NoMemory>
        requires over { (tops : Seq SeenTop) × IsRequestAtOver tops self.old }
        requires kind { kind_of self.old.node.waiting.request.work ≡ Kind.Read }
        requires stage { self.old.stage ≡ Stage.ReadBpInit }
        ensures moves { (tops : Seq SeenTop)
            → IfOk result (λ turn. MovesBare tops (Node.Request self.old) (moved (Node.Request self.new) turn)) }
        ensures over { (tops : Seq SeenTop) → IsRequestAtOver tops self.old
            → IfOk result (λ turn. EachIn (IsNodeOver tops) (IsTreeOver tops) (moved (Node.Request self.new) turn)) }
        ensures may { IfOk result (λ turn. MayGoOn IsNodeDue (moved (Node.Request self.new) turn)) }
        ensures left { IfOk result
            (λ turn. Lessens left_of (Node.Request self.old) (moved (Node.Request self.new) turn)) }
        ensures refused { (tops : Seq SeenTop)
            → OnErr result (StaysBare tops (Node.Request self.old) (Node.Request self.new)) }
        ensures stages { IfOk result
            (λ turn. IsStageMove (Node.Request self.old) (moved (Node.Request self.new) turn)) }
    {
        let mask = self.mask();
        match self.node.read_bp_init(alloc) {
            Ok(()) => {
                self.stage = next(Stage::ReadBpInit, mask);
                Ok(Turn::Next)
            }
            Err(NoMemory) => Err(NoMemory),
        }
    }

    /// Hands the walk over a gang's headers to a child, and goes on. Where memory is refused it comes back as it was.
    fn read_gang_assemble(&mut self, alloc: Global) -> Result<Turn, NoMemory>
        requires over { (tops : Seq SeenTop) × IsRequestAtOver tops self.old }
        requires kind { kind_of self.old.node.waiting.request.work ≡ Kind.Read }
        requires stage { self.old.stage ≡ Stage.GangAssemble }
        ensures moves { (tops : Seq SeenTop)
            → IfOk result (λ turn. MovesBare tops (Node.Request self.old) (moved (Node.Request self.new) turn)) }
        ensures over { (tops : Seq SeenTop) → IsRequestAtOver tops self.old
            → IfOk result (λ turn. EachIn (IsNodeOver tops) (IsTreeOver tops) (moved (Node.Request self.new) turn)) }
        ensures may { IfOk result (λ turn. MayGoOn IsNodeDue (moved (Node.Request self.new) turn)) }
        ensures left { IfOk result
            (λ turn. Lessens left_of (Node.Request self.old) (moved (Node.Request self.new) turn)) }
        ensures refused { (tops : Seq SeenTop)
            → OnErr result (StaysBare tops (Node.Request self.old) (Node.Request self.new)) }
        ensures stages { IfOk result
            (λ turn. IsStageMove (Node.Request self.old) (moved (Node.Request self.new) turn)) }
    {
        if !self.node.is_walk_due_read() {
            self.stage = next(Stage::GangAssemble, with_gang(READ));
            return Ok(Turn::Next);
        }
        let mut room = new_room(alloc)?;
        match self.node.gang_assemble_read(alloc) {
            Ok(Some(walk)) => {
                let child = HeadsAt::new(alloc, walk);
                *room = Node::Heads(child);
                Ok(Turn::Grow(room, ChildKind::Gang))
            }
            Ok(None) => unreachable!(),
            Err(NoMemory) => Err(NoMemory),
        }
    }

    /// Waits for the walk, hands the reads of the bodies to children, and waits for them. Nothing is left of the
    /// pipeline then but its end. Where memory is refused it comes back as it was.
    fn read_gang_issue(&mut self, alloc: Global, tops: &[Top]) -> Result<Turn, NoMemory>
        requires over { IsRequestAtOver tops.now self.old }
        requires kind { kind_of self.old.node.waiting.request.work ≡ Kind.Read }
        requires stage { self.old.stage ≡ Stage.GangIssue }
        ensures moves { IfOk result
            (λ turn. MovesBare tops.now (Node.Request self.old) (moved (Node.Request self.new) turn)) }
        ensures over { IfOk result
            (λ turn. EachIn (IsNodeOver tops.now) (IsTreeOver tops.now) (moved (Node.Request self.new) turn)) }
        ensures may { IfOk result (λ turn. MayGoOn IsNodeDue (moved (Node.Request self.new) turn)) }
        ensures left { IfOk result
            (λ turn. Lessens left_of (Node.Request self.old) (moved (Node.Request self.new) turn)) }
        ensures refused { OnErr result (StaysBare tops.now (Node.Request self.old) (Node.Request self.new)) }
        ensures stages { IfOk result
            (λ turn. IsStageMove (Node.Request self.old) (moved (Node.Request self.new) turn)) }
        ensures leaves { IfOk result (λ turn. LeavesGang self.old.node.family (moved (Node.Request self.new) turn)) }
    {
        match self.node.next_body() {
            BodyStage::Body(body) => self.hand_out_body(alloc, tops, body),
            BodyStage::Wait => Ok(Turn::Wait(ChildKind::Gang, Phase::Done)),
            BodyStage::On => {
                if let Some((kind, phase)) = gang_stall(self.node.family()) {
                    return Ok(Turn::Wait(kind, phase));
                }
                self.stage = next(Stage::GangIssue, INTERLOCK);
                Ok(Turn::Next)
            }
        }
    }

    /// Hands the read of this body to a child. Where memory is refused it is as it was.
    fn hand_out_body(
        &mut self,
        alloc: Global,
        tops: &[Top],
        body: BodyRead,
    ) -> Result<Turn, NoMemory>
        requires over { IsRequestAtOver tops.now self.old }
        requires kind { kind_of self.old.node.waiting.request.work ≡ Kind.Read }
        requires stage { self.old.stage ≡ Stage.GangIssue }
        requires next { IsReadingWith (IsBodyNext body) self.old.node.own }
        ensures moves { IfOk result
            (λ turn. MovesBare tops.now (Node.Request self.old) (moved (Node.Request self.new) turn)) }
        ensures over { IfOk result
            (λ turn. EachIn (IsNodeOver tops.now) (IsTreeOver tops.now) (moved (Node.Request self.new) turn)) }
        ensures may { IfOk result (λ turn. MayGoOn IsNodeDue (moved (Node.Request self.new) turn)) }
        ensures left { IfOk result
            (λ turn. Lessens left_of (Node.Request self.old) (moved (Node.Request self.new) turn)) }
        ensures refused { OnErr result (StaysBare tops.now (Node.Request self.old) (Node.Request self.new)) }
        ensures stages { IfOk result
            (λ turn. IsStageMove (Node.Request self.old) (moved (Node.Request self.new) turn)) }
        ensures leaves { IfOk result (λ turn. LeavesGang self.old.node.family (moved (Node.Request self.new) turn)) }
    {
        let mut room = new_room(alloc)?;
        match self.node.gang_issue_read(alloc, tops, body) {
            Ok(read) => {
                let child = CopiesAt::new(read);
                *room = Node::Copies(child);
                Ok(Turn::Grow(room, ChildKind::Gang))
            }
            Err(NoMemory) => Err(NoMemory),
        }
    }

    /// A read makes no block, and tells no pointer.
    fn read_ready(&mut self) -> Turn
        requires over { (tops : Seq SeenTop) × IsRequestAtOver tops self.old }
        requires kind { kind_of self.old.node.waiting.request.work ≡ Kind.Read }
        requires stage { self.old.stage ≡ Stage.Ready }
        ensures moves { (tops : Seq SeenTop)
            → MovesBare tops (Node.Request self.old) (moved (Node.Request self.new) result) }
        ensures over { (tops : Seq SeenTop) → IsRequestAtOver tops self.old
            → EachIn (IsNodeOver tops) (IsTreeOver tops) (moved (Node.Request self.new) result) }
        ensures may { MayGoOn IsNodeDue (moved (Node.Request self.new) result) }
        ensures left { Lessens left_of (Node.Request self.old) (moved (Node.Request self.new) result) }
        ensures stages { IsStageMove (Node.Request self.old) (moved (Node.Request self.new) result) }
    {
        let to = behind_ready(self.node.has_gang_stages());
        self.tell_none(to)
    }

    /// Each copy was verified as it came, so nothing is left to verify.
    fn read_checksum_verify(&mut self) -> Turn
        requires over { (tops : Seq SeenTop) × IsRequestAtOver tops self.old }
        requires kind { kind_of self.old.node.waiting.request.work ≡ Kind.Read }
        requires stage { self.old.stage ≡ Stage.ChecksumVerify }
        ensures moves { (tops : Seq SeenTop)
            → MovesBare tops (Node.Request self.old) (moved (Node.Request self.new) result) }
        ensures over { (tops : Seq SeenTop) → IsRequestAtOver tops self.old
            → EachIn (IsNodeOver tops) (IsTreeOver tops) (moved (Node.Request self.new) result) }
        ensures may { MayGoOn IsNodeDue (moved (Node.Request self.new) result) }
        ensures left { Lessens left_of (Node.Request self.old) (moved (Node.Request self.new) result) }
        ensures stages { IsStageMove (Node.Request self.old) (moved (Node.Request self.new) result) }
    {
        self.stage = next(Stage::ChecksumVerify, READ);
        Turn::Next
    }

    /// Ends once its children have. Where memory is refused what it came to stays.
    #[inline(never)]
    pub(crate) fn read_done(&mut self, alloc: Global) -> Result<Last, NoMemory>
        requires over { (tops : Seq SeenTop) × IsRequestAtOver tops self.old }
        requires kind { kind_of self.old.node.waiting.request.work ≡ Kind.Read }
        requires stage { self.old.stage ≡ Stage.Done }
        ensures moves { (tops : Seq SeenTop)
            → IfOk result (λ last. MovesBare tops (Node.Request self.old) (last_moved (Node.Request self.new) last)) }
        ensures over { (tops : Seq SeenTop) → IsRequestAtOver tops self.old
            → IfOk result (λ last. EachIn (IsNodeOver tops) (IsTreeOver tops) (last_moved (Node.Request self.new) last)) }
        ensures may { IfOk result (λ last. MayGoOn IsNodeDue (last_moved (Node.Request self.new) last)) }
        ensures last { IfOk result (λ last. IsLastMove (last_moved (Node.Request self.new) last)) }
        ensures left { IfOk result
            (λ last. Lessens left_of (Node.Request self.old) (last_moved (Node.Request self.new) last)) }
        ensures refused { (tops : Seq SeenTop)
            → OnErr result (StaysBare tops (Node.Request self.old) (Node.Request self.new)) }
    {
        match self.node.done_read() {
            ReadDone::Wait(kind) => return Ok(Last::Wait(kind, Phase::Done)),
            ReadDone::More => unreachable!(),
            ReadDone::Close => {}
        }
        match self.node.end_read(alloc) {
            Ok(()) => self.end_found(alloc),
            Err(NoMemory) => Err(NoMemory),
        }
    }
}

/// The stage behind Ready: a gang's bodies were read, and else the one body is to be.
fn behind_ready(gang: bool) -> Stage
    ensures gang { gang ≡ true → result ≡ Stage.Done }
    ensures plain { gang ≡ false → result ≡ Stage.VdevIoStart }
{
    if gang {
        return next(Stage::Ready, INTERLOCK);
    }
    next(Stage::Ready, READ)
}
