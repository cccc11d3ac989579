//! A claim in an attempt, from stage to stage behind Start.
//!
//! It walks over the headers of the block that its bytes point to first, a gang's by a child, and takes the block's
//! places, all together or none, where no header failed: a gang's at GangIssue, and a plain block's at DvaClaim.

ghost use Rattle.std.specs.Prelude.{◌≡◌, ◌≢◌, ◌⊎◌, IfOk, List as Seq, OnErr, false};
ghost use Rattle.zio_types.specs.declared.place.Top.{Top as SeenTop};
ghost use Rattle.zio_script.specs.Requests.{kind_of};
ghost use Rattle.zio_staged.specs.Stages.{EachIn, Lessens, MayGoOn};
ghost use Rattle.zio_stages.specs.RequestClaims.{IsClaimWith};
ghost use Rattle.zio_stages.specs.RequestKinds.{has_gang_stages};
ghost use Rattle.zio_stages.specs.declared.request_node.Own.{Own};
ghost use Rattle.zio_nodes.specs.OwnAts.{HasClaimWalked};
ghost use Rattle.zio_nodes.specs.Passes.{KeepsPassAt};
ghost use Rattle.zio_nodes.specs.StageMoves.{IsLastMove, IsNextOf, IsStageMove, takes_stage};
ghost use Rattle.zio_nodes.specs.Nodes.{IsNodeDue, IsNodeOver, IsTreeOver, MovesBare, MovesWith, StaysBare, StaysWith, last_moved, left_of, moved};
ghost use Rattle.zio_nodes.specs.RequestAts.{IsRequestAtOver};

use crate::heads_at::HeadsAt;
use crate::node::Node;
use crate::request_at::RequestAt;
use crate::turn::{Last, Turn, new_room};
use std::alloc::Global;
use zio_exchange::Services;
use zio_masks::{CLAIM, INTERLOCK, Stage, next, with_gang};
use zio_stages::DoneStep;
use zio_types::{ChildKind, Kind, NoMemory, Phase, Top};

impl RequestAt {
    /// Runs one stage behind Start. Where memory is refused it comes back, and what it did of the stage stays.
    pub(crate) fn claim_stage<S: Services>(
        &mut self,
        alloc: Global,
        services: &mut S,
    ) -> Result<Turn, NoMemory>
        requires over { IsRequestAtOver (S.tops services.old) self.old }
        requires kind { kind_of self.old.node.waiting.request.work ≡ Kind.Claim }
        requires behind { self.old.stage ≢ Stage.Start }
        requires before { self.old.stage ≢ Stage.Done }
        ensures moves { IfOk result (λ turn. MovesWith S.made (S.tops services.old) services.old services.new
            (Node.Request self.old) (moved (Node.Request self.new) turn)) }
        ensures over { IfOk result (λ turn. EachIn (IsNodeOver (S.tops services.old)) (IsTreeOver (S.tops services.old))
            (moved (Node.Request self.new) turn)) }
        ensures may { IfOk result (λ turn. MayGoOn IsNodeDue (moved (Node.Request self.new) turn)) }
        ensures left { IfOk result
            (λ turn. Lessens left_of (Node.Request self.old) (moved (Node.Request self.new) turn)) }
        ensures refused { OnErr result (StaysWith S.made (S.tops services.old) services.old services.new
            (Node.Request self.old) (Node.Request self.new)) }
        ensures tops { S.tops services.new ≡ S.tops services.old }
        ensures stages { IfOk result
            (λ turn. IsStageMove (Node.Request self.old) (moved (Node.Request self.new) turn)) }
        ensures pass { IfOk result
            (λ turn. KeepsPassAt self.old.stage (Node.Request self.old) (moved (Node.Request self.new) turn)) }
    {
        if self.stage == Stage::GangIssue {
            return self.claim_gang_issue(alloc, services);
        }
        if self.stage == Stage::DvaClaim {
            return self.dva_claim(alloc, services);
        }
        self.claim_bare(alloc, services.tops())
    }

    /// The stages that ask the space for nothing. Where memory is refused it comes back, and what it began stays.
    fn claim_bare(&mut self, alloc: Global, tops: &[Top]) -> Result<Turn, NoMemory>
        requires over { IsRequestAtOver tops.now self.old }
        requires kind { kind_of self.old.node.waiting.request.work ≡ Kind.Claim }
        requires behind { self.old.stage ≢ Stage.Start }
        requires before { self.old.stage ≢ Stage.Done }
        requires issue { self.old.stage ≢ Stage.GangIssue }
        requires other { self.old.stage ≢ Stage.DvaClaim }
        ensures moves { IfOk result
            (λ turn. MovesBare tops.now (Node.Request self.old) (moved (Node.Request self.new) turn)) }
        ensures over { IfOk result
            (λ turn. EachIn (IsNodeOver tops.now) (IsTreeOver tops.now) (moved (Node.Request self.new) turn)) }
        ensures may { IfOk result (λ turn. MayGoOn IsNodeDue (moved (Node.Request self.new) turn)) }
        ensures left { IfOk result
            (λ turn. Lessens left_of (Node.Request self.old) (moved (Node.Request self.new) turn)) }
        ensures refused { OnErr result (StaysBare tops.now (Node.Request self.old) (Node.Request self.new)) }
        ensures stages { IfOk result
            (λ turn. IsStageMove (Node.Request self.old) (moved (Node.Request self.new) turn)) }
        ensures pass { IfOk result
            (λ turn. KeepsPassAt self.old.stage (Node.Request self.old) (moved (Node.Request self.new) turn)) }
    {
        match self.stage {
            Stage::GangAssemble => self.claim_gang_assemble(alloc, tops),
            Stage::Ready => Ok(self.claim_ready()),
            _ => unreachable!(),
        }
    }

    /// Begins the walk over its block's headers, and hands a gang's to a child. Where memory is refused it comes back,
    /// and what it began stays.
    fn claim_gang_assemble(&mut self, alloc: Global, tops: &[Top]) -> Result<Turn, NoMemory>
        requires over { IsRequestAtOver tops.now self.old }
        requires kind { kind_of self.old.node.waiting.request.work ≡ Kind.Claim }
        requires stage { self.old.stage ≡ Stage.GangAssemble }
        ensures moves { IfOk result
            (λ turn. MovesBare tops.now (Node.Request self.old) (moved (Node.Request self.new) turn)) }
        ensures over { IfOk result
            (λ turn. EachIn (IsNodeOver tops.now) (IsTreeOver tops.now) (moved (Node.Request self.new) turn)) }
        ensures may { IfOk result (λ turn. MayGoOn IsNodeDue (moved (Node.Request self.new) turn)) }
        ensures left { IfOk result
            (λ turn. Lessens left_of (Node.Request self.old) (moved (Node.Request self.new) turn)) }
        ensures refused { OnErr result (StaysBare tops.now (Node.Request self.old) (Node.Request self.new)) }
        ensures stages { IfOk result
            (λ turn. IsStageMove (Node.Request self.old) (moved (Node.Request self.new) turn)) }
    {
        let Ok(()) = self.node.begin_claim(alloc, tops) else {
            return Err(NoMemory);
        };
        if !self.node.is_walk_due_claim() {
            self.stage = next(Stage::GangAssemble, with_gang(CLAIM));
            return Ok(Turn::Next);
        }
        let Ok(mut room) = new_room(alloc) else {
            return Err(NoMemory);
        };
        match self.node.gang_assemble_claim(alloc, tops) {
            Ok(Some(walk)) => {
                let child = HeadsAt::new(alloc, walk);
                *room = Node::Heads(child);
                Ok(Turn::Grow(room, ChildKind::Gang))
            }
            Ok(None) => unreachable!(),
            Err(NoMemory) => Err(NoMemory),
        }
    }

    /// Waits for the walk, and takes a gang's places. Nothing is left of the pipeline then but its end.
    fn claim_gang_issue<S: Services>(
        &mut self,
        alloc: Global,
        services: &mut S,
    ) -> Result<Turn, NoMemory>
        requires over { IsRequestAtOver (S.tops services.old) self.old }
        requires kind { kind_of self.old.node.waiting.request.work ≡ Kind.Claim }
        requires stage { self.old.stage ≡ Stage.GangIssue }
        ensures moves { IfOk result (λ turn. MovesWith S.made (S.tops services.old) services.old services.new
            (Node.Request self.old) (moved (Node.Request self.new) turn)) }
        ensures over { IfOk result (λ turn. EachIn (IsNodeOver (S.tops services.old)) (IsTreeOver (S.tops services.old))
            (moved (Node.Request self.new) turn)) }
        ensures may { IfOk result (λ turn. MayGoOn IsNodeDue (moved (Node.Request self.new) turn)) }
        ensures left { IfOk result
            (λ turn. Lessens left_of (Node.Request self.old) (moved (Node.Request self.new) turn)) }
        ensures refused { OnErr result (StaysWith S.made (S.tops services.old) services.old services.new
            (Node.Request self.old) (Node.Request self.new)) }
        ensures tops { S.tops services.new ≡ S.tops services.old }
        ensures stages { IfOk result
            (λ turn. IsStageMove (Node.Request self.old) (moved (Node.Request self.new) turn)) }
    {
        if let Some(kind) = self.node.gang_issue_claim() {
            return Ok(Turn::Wait(kind, Phase::Done));
        }
        self.take_places(alloc, services, next(Stage::GangIssue, INTERLOCK))
    }

    /// Takes a plain block's places. Bytes that are no pointer have none.
    fn dva_claim<S: Services>(&mut self, alloc: Global, services: &mut S) -> Result<Turn, NoMemory>
        requires over { IsRequestAtOver (S.tops services.old) self.old }
        requires kind { kind_of self.old.node.waiting.request.work ≡ Kind.Claim }
        requires stage { self.old.stage ≡ Stage.DvaClaim }
        ensures moves { IfOk result (λ turn. MovesWith S.made (S.tops services.old) services.old services.new
            (Node.Request self.old) (moved (Node.Request self.new) turn)) }
        ensures over { IfOk result (λ turn. EachIn (IsNodeOver (S.tops services.old)) (IsTreeOver (S.tops services.old))
            (moved (Node.Request self.new) turn)) }
        ensures may { IfOk result (λ turn. MayGoOn IsNodeDue (moved (Node.Request self.new) turn)) }
        ensures left { IfOk result
            (λ turn. Lessens left_of (Node.Request self.old) (moved (Node.Request self.new) turn)) }
        ensures refused { OnErr result (StaysWith S.made (S.tops services.old) services.old services.new
            (Node.Request self.old) (Node.Request self.new)) }
        ensures tops { S.tops services.new ≡ S.tops services.old }
        ensures stages { IfOk result
            (λ turn. IsStageMove (Node.Request self.old) (moved (Node.Request self.new) turn)) }
    {
        self.take_places(alloc, services, next(Stage::DvaClaim, CLAIM))
    }

    /// Begins the claim of a plain block, takes the places of its block, where the walk found it, and goes on to this
    /// stage. Where memory is refused none is taken, and the same stage tries again.
    fn take_places<S: Services>(
        &mut self,
        alloc: Global,
        services: &mut S,
        to: Stage,
    ) -> Result<Turn, NoMemory>
        requires over { IsRequestAtOver (S.tops services.old) self.old }
        requires kind { kind_of self.old.node.waiting.request.work ≡ Kind.Claim }
        requires stage { (self.old.stage ≡ Stage.DvaClaim) ⊎ (self.old.stage ≡ Stage.GangIssue) }
        requires walked { ((self.old.node.own ≡ Own.Due)
            × (has_gang_stages self.old.node.waiting.request.work self.old.node.waiting.block ≡ false))
            ⊎ IsClaimWith HasClaimWalked self.old.node.own }
        requires to { to ≡ Stage.Ready }
        requires leads { IsNextOf (takes_stage (Node.Request self.old)) self.old.stage to }
        ensures moves { IfOk result (λ turn. MovesWith S.made (S.tops services.old) services.old services.new
            (Node.Request self.old) (moved (Node.Request self.new) turn)) }
        ensures over { IfOk result (λ turn. EachIn (IsNodeOver (S.tops services.old)) (IsTreeOver (S.tops services.old))
            (moved (Node.Request self.new) turn)) }
        ensures may { IfOk result (λ turn. MayGoOn IsNodeDue (moved (Node.Request self.new) turn)) }
        ensures left { IfOk result
            (λ turn. Lessens left_of (Node.Request self.old) (moved (Node.Request self.new) turn)) }
        ensures refused { OnErr result (StaysWith S.made (S.tops services.old) services.old services.new
            (Node.Request self.old) (Node.Request self.new)) }
        ensures tops { S.tops services.new ≡ S.tops services.old }
        ensures stages { IfOk result
            (λ turn. IsStageMove (Node.Request self.old) (moved (Node.Request self.new) turn)) }
    {
        let Ok(()) = self.node.begin_claim(alloc, services.tops()) else {
            return Err(NoMemory);
        };
        match self.node.dva_claim(alloc, services) {
            Ok(()) => {
                self.stage = to;
                Ok(Turn::Next)
            }
            Err(NoMemory) => Err(NoMemory),
        }
    }

    /// A claim makes no block that a parent could point to, and tells no pointer.
    fn claim_ready(&mut self) -> Turn
        requires over { (tops : Seq SeenTop) × IsRequestAtOver tops self.old }
        requires kind { kind_of self.old.node.waiting.request.work ≡ Kind.Claim }
        requires stage { self.old.stage ≡ Stage.Ready }
        ensures moves { (tops : Seq SeenTop)
            → MovesBare tops (Node.Request self.old) (moved (Node.Request self.new) result) }
        ensures over { (tops : Seq SeenTop) → IsRequestAtOver tops self.old
            → EachIn (IsNodeOver tops) (IsTreeOver tops) (moved (Node.Request self.new) result) }
        ensures may { MayGoOn IsNodeDue (moved (Node.Request self.new) result) }
        ensures left { Lessens left_of (Node.Request self.old) (moved (Node.Request self.new) result) }
        ensures stages { IsStageMove (Node.Request self.old) (moved (Node.Request self.new) result) }
    {
        let to = next(Stage::Ready, CLAIM);
        self.tell_none(to)
    }

    /// Ends once its children have. Where memory is refused what it came to stays.
    #[inline(never)]
    pub(crate) fn claim_done(&mut self, alloc: Global) -> Result<Last, NoMemory>
        requires over { (tops : Seq SeenTop) × IsRequestAtOver tops self.old }
        requires kind { kind_of self.old.node.waiting.request.work ≡ Kind.Claim }
        requires stage { self.old.stage ≡ Stage.Done }
        ensures moves { (tops : Seq SeenTop)
            → IfOk result (λ last. MovesBare tops (Node.Request self.old) (last_moved (Node.Request self.new) last)) }
        ensures over { (tops : Seq SeenTop) → IsRequestAtOver tops self.old
            → IfOk result (λ last. EachIn (IsNodeOver tops) (IsTreeOver tops) (last_moved (Node.Request self.new) last)) }
        ensures may { IfOk result (λ last. MayGoOn IsNodeDue (last_moved (Node.Request self.new) last)) }
        ensures last { IfOk result (λ last. IsLastMove (last_moved (Node.Request self.new) last)) }
        ensures left { IfOk result
            (λ last. Lessens left_of (Node.Request self.old) (last_moved (Node.Request self.new) last)) }
        ensures refused { (tops : Seq SeenTop)
            → OnErr result (StaysBare tops (Node.Request self.old) (Node.Request self.new)) }
    {
        if let DoneStep::Wait(kind) = self.node.done_null() {
            return Ok(Last::Wait(kind, Phase::Done));
        }
        self.node.end_claim(alloc);
        self.end_found(alloc)
    }
}
