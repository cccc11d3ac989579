//! A free in an attempt, from stage to stage behind Start.
//!
//! It walks over the headers of its block first, a gang's by a child, and gives the block's places back where no header
//! failed: a gang's at GangIssue, and a plain block's at DvaFree.

ghost use Rattle.std.specs.Prelude.{◌≡◌, ◌≢◌, ◌⊎◌, IfOk, List as Seq, OnErr};
ghost use Rattle.zio_types.specs.declared.place.Top.{Top as SeenTop};
ghost use Rattle.zio_script.specs.Requests.{kind_of};
ghost use Rattle.zio_staged.specs.Stages.{EachIn, Lessens, MayGoOn};
ghost use Rattle.zio_stages.specs.RequestFrees.{HasKeptFailed, HasWalked, IsFreeWith, IsFreeing};
ghost use Rattle.zio_nodes.specs.Passes.{KeepsPassAt};
ghost use Rattle.zio_nodes.specs.StageMoves.{IsLastMove, IsNextOf, IsStageMove, takes_stage};
ghost use Rattle.zio_nodes.specs.Nodes.{IsNodeDue, IsNodeOver, IsTreeOver, MovesBare, MovesWith, StaysBare, StaysWith, last_moved, left_of, moved};
ghost use Rattle.zio_nodes.specs.RequestAts.{IsRequestAtOver};

use crate::heads_at::HeadsAt;
use crate::node::Node;
use crate::request_at::RequestAt;
use crate::turn::{Last, Turn, new_room};
use std::alloc::Global;
use zio_exchange::Services;
use zio_masks::{FREE, INTERLOCK, Stage, next, with_gang};
use zio_stages::DoneStep;
use zio_types::{ChildKind, Kind, NoMemory, Phase};

impl RequestAt {
    /// Runs one stage behind Start. Where memory is refused it comes back, and what it did of the stage stays.
    pub(crate) fn free_stage<S: Services>(
        &mut self,
        alloc: Global,
        services: &mut S,
    ) -> Result<Turn, NoMemory>
        requires over { IsRequestAtOver (S.tops services.old) self.old }
        requires kind { kind_of self.old.node.waiting.request.work ≡ Kind.Free }
        requires behind { self.old.stage ≢ Stage.Start }
        requires before { self.old.stage ≢ Stage.Done }
        ensures moves { IfOk result (λ turn. MovesWith S.made (S.tops services.old) services.old services.new
            (Node.Request self.old) (moved (Node.Request self.new) turn)) }
        ensures over { IfOk result (λ turn. EachIn (IsNodeOver (S.tops services.old)) (IsTreeOver (S.tops services.old))
            (moved (Node.Request self.new) turn)) }
        ensures may { IfOk result (λ turn. MayGoOn IsNodeDue (moved (Node.Request self.new) turn)) }
        ensures left { IfOk result
            (λ turn. Lessens left_of (Node.Request self.old) (moved (Node.Request self.new) turn)) }
        ensures refused { OnErr result (StaysWith S.made (S.tops services.old) services.old services.new
            (Node.Request self.old) (Node.Request self.new)) }
        ensures tops { S.tops services.new ≡ S.tops services.old }
        ensures stages { IfOk result
            (λ turn. IsStageMove (Node.Request self.old) (moved (Node.Request self.new) turn)) }
        ensures pass { IfOk result
            (λ turn. KeepsPassAt self.old.stage (Node.Request self.old) (moved (Node.Request self.new) turn)) }
    {
        if self.stage == Stage::GangIssue {
            return self.free_gang_issue(alloc, services);
        }
        if self.stage == Stage::DvaFree {
            return self.dva_free(alloc, services);
        }
        self.free_bare(alloc)
    }

    /// The stages that ask the space for nothing. Where memory is refused it comes back as it was.
    fn free_bare(&mut self, alloc: Global) -> Result<Turn, NoMemory>
        requires over { (tops : Seq SeenTop) × IsRequestAtOver tops self.old }
        requires kind { kind_of self.old.node.waiting.request.work ≡ Kind.Free }
        requires behind { self.old.stage ≢ Stage.Start }
        requires before { self.old.stage ≢ Stage.Done }
        requires issue { self.old.stage ≢ Stage.GangIssue }
        requires other { self.old.stage ≢ Stage.DvaFree }
        ensures moves { (tops : Seq SeenTop)
            → IfOk result (λ turn. MovesBare tops (Node.Request self.old) (moved (Node.Request self.new) turn)) }
        ensures over { (tops : Seq SeenTop) → IsRequestAtOver tops self.old
            → IfOk result (λ turn. EachIn (IsNodeOver tops) (IsTreeOver tops) (moved (Node.Request self.new) turn)) }
        ensures may { IfOk result (λ turn. MayGoOn IsNodeDue (moved (Node.Request self.new) turn)) }
        ensures left { IfOk result
            (λ turn. Lessens left_of (Node.Request self.old) (moved (Node.Request self.new) turn)) }
        ensures refused { (tops : Seq SeenTop)
            → OnErr result (StaysBare tops (Node.Request self.old) (Node.Request self.new)) }
        ensures stages { IfOk result
            (λ turn. IsStageMove (Node.Request self.old) (moved (Node.Request self.new) turn)) }
        ensures pass { IfOk result
            (λ turn. KeepsPassAt self.old.stage (Node.Request self.old) (moved (Node.Request self.new) turn)) }
    {
        match self.stage {
            Stage::FreeBpInit => self.free_bp_init(alloc),
            Stage::IssueAsync => Ok(self.free_issue_async()),
            Stage::GangAssemble => self.free_gang_assemble(alloc),
            Stage::Ready => Ok(self.free_ready()),
            _ => unreachable!(),
        }
    }

    /// Begins the walk over its block's headers. Where memory is refused it comes back as it was.
    fn free_bp_init(&mut self, alloc: Global) -> Result<Turn, NoMemory>
        requires over { (tops : Seq SeenTop) × IsRequestAtOver tops self.old }
        requires kind { kind_of self.old.node.waiting.request.work ≡ Kind.Free }
        requires stage { self.old.stage ≡ Stage.FreeBpInit }
        ensures moves { (tops : Seq SeenTop)
            → IfOk result (λ turn. MovesBare tops (Node.Request self.old) (moved (Node.Request self.new) turn)) }
        ensures over { (tops : Seq SeenTop) → IsRequestAtOver tops self.old
            → IfOk result (λ turn. EachIn (IsNodeOver tops) (IsTreeOver tops) (moved (Node.Request self.new) turn)) }
        ensures may { IfOk result (λ turn. MayGoOn IsNodeDue (moved (Node.Request self.new) turn)) }
        ensures left { IfOk result
            (λ turn. Lessens left_of (Node.Request self.old) (moved (Node.Request self.new) turn)) }
        ensures refused { (tops : Seq SeenTop)
            → OnErr result (StaysBare tops (Node.Request self.old) (Node.Request self.new)) }
        ensures stages { IfOk result
            (λ turn. IsStageMove (Node.Request self.old) (moved (Node.Request self.new) turn)) }
    {
        match self.node.free_bp_init(alloc) {
            Ok(()) => {
                self.stage = next(Stage::FreeBpInit, FREE);
                Ok(Turn::Next)
            }
            Err(NoMemory) => Err(NoMemory),
        }
    }

    /// Every node is queued behind each of its stages, so there is no other queue to go to.
    fn free_issue_async(&mut self) -> Turn
        requires over { (tops : Seq SeenTop) × IsRequestAtOver tops self.old }
        requires kind { kind_of self.old.node.waiting.request.work ≡ Kind.Free }
        requires stage { self.old.stage ≡ Stage.IssueAsync }
        ensures moves { (tops : Seq SeenTop)
            → MovesBare tops (Node.Request self.old) (moved (Node.Request self.new) result) }
        ensures over { (tops : Seq SeenTop) → IsRequestAtOver tops self.old
            → EachIn (IsNodeOver tops) (IsTreeOver tops) (moved (Node.Request self.new) result) }
        ensures may { MayGoOn IsNodeDue (moved (Node.Request self.new) result) }
        ensures left { Lessens left_of (Node.Request self.old) (moved (Node.Request self.new) result) }
        ensures stages { IsStageMove (Node.Request self.old) (moved (Node.Request self.new) result) }
    {
        let mask = self.mask();
        self.stage = next(Stage::IssueAsync, mask);
        Turn::Next
    }

    /// Hands the walk over a gang's headers to a child, and goes on. Where memory is refused it comes back as it was.
    fn free_gang_assemble(&mut self, alloc: Global) -> Result<Turn, NoMemory>
        requires over { (tops : Seq SeenTop) × IsRequestAtOver tops self.old }
        requires kind { kind_of self.old.node.waiting.request.work ≡ Kind.Free }
        requires stage { self.old.stage ≡ Stage.GangAssemble }
        ensures moves { (tops : Seq SeenTop)
            → IfOk result (λ turn. MovesBare tops (Node.Request self.old) (moved (Node.Request self.new) turn)) }
        ensures over { (tops : Seq SeenTop) → IsRequestAtOver tops self.old
            → IfOk result (λ turn. EachIn (IsNodeOver tops) (IsTreeOver tops) (moved (Node.Request self.new) turn)) }
        ensures may { IfOk result (λ turn. MayGoOn IsNodeDue (moved (Node.Request self.new) turn)) }
        ensures left { IfOk result
            (λ turn. Lessens left_of (Node.Request self.old) (moved (Node.Request self.new) turn)) }
        ensures refused { (tops : Seq SeenTop)
            → OnErr result (StaysBare tops (Node.Request self.old) (Node.Request self.new)) }
        ensures stages { IfOk result
            (λ turn. IsStageMove (Node.Request self.old) (moved (Node.Request self.new) turn)) }
    {
        if !self.node.is_walk_due_free() {
            self.stage = next(Stage::GangAssemble, with_gang(FREE));
            return Ok(Turn::Next);
        }
        let mut room = new_room(alloc)?;
        match self.node.gang_assemble_free(alloc) {
            Ok(Some(walk)) => {
                let child = HeadsAt::new(alloc, walk);
                *room = Node::Heads(child);
                Ok(Turn::Grow(room, ChildKind::Gang))
            }
            Ok(None) => unreachable!(),
            Err(NoMemory) => Err(NoMemory),
        }
    }

    /// Waits for the walk, and gives a gang's places back. Nothing is left of the pipeline then but its end.
    fn free_gang_issue<S: Services>(
        &mut self,
        alloc: Global,
        services: &mut S,
    ) -> Result<Turn, NoMemory>
        requires over { IsRequestAtOver (S.tops services.old) self.old }
        requires kind { kind_of self.old.node.waiting.request.work ≡ Kind.Free }
        requires stage { self.old.stage ≡ Stage.GangIssue }
        ensures moves { IfOk result (λ turn. MovesWith S.made (S.tops services.old) services.old services.new
            (Node.Request self.old) (moved (Node.Request self.new) turn)) }
        ensures over { IfOk result (λ turn. EachIn (IsNodeOver (S.tops services.old)) (IsTreeOver (S.tops services.old))
            (moved (Node.Request self.new) turn)) }
        ensures may { IfOk result (λ turn. MayGoOn IsNodeDue (moved (Node.Request self.new) turn)) }
        ensures left { IfOk result
            (λ turn. Lessens left_of (Node.Request self.old) (moved (Node.Request self.new) turn)) }
        ensures refused { OnErr result (StaysWith S.made (S.tops services.old) services.old services.new
            (Node.Request self.old) (Node.Request self.new)) }
        ensures tops { S.tops services.new ≡ S.tops services.old }
        ensures stages { IfOk result
            (λ turn. IsStageMove (Node.Request self.old) (moved (Node.Request self.new) turn)) }
    {
        if let Some(kind) = self.node.gang_issue_free() {
            return Ok(Turn::Wait(kind, Phase::Done));
        }
        self.give_places(alloc, services, next(Stage::GangIssue, INTERLOCK))
    }

    /// Gives a plain block's places back.
    fn dva_free<S: Services>(&mut self, alloc: Global, services: &mut S) -> Result<Turn, NoMemory>
        requires over { IsRequestAtOver (S.tops services.old) self.old }
        requires kind { kind_of self.old.node.waiting.request.work ≡ Kind.Free }
        requires stage { self.old.stage ≡ Stage.DvaFree }
        ensures moves { IfOk result (λ turn. MovesWith S.made (S.tops services.old) services.old services.new
            (Node.Request self.old) (moved (Node.Request self.new) turn)) }
        ensures over { IfOk result (λ turn. EachIn (IsNodeOver (S.tops services.old)) (IsTreeOver (S.tops services.old))
            (moved (Node.Request self.new) turn)) }
        ensures may { IfOk result (λ turn. MayGoOn IsNodeDue (moved (Node.Request self.new) turn)) }
        ensures left { IfOk result
            (λ turn. Lessens left_of (Node.Request self.old) (moved (Node.Request self.new) turn)) }
        ensures refused { OnErr result (StaysWith S.made (S.tops services.old) services.old services.new
            (Node.Request self.old) (Node.Request self.new)) }
        ensures tops { S.tops services.new ≡ S.tops services.old }
        ensures stages { IfOk result
            (λ turn. IsStageMove (Node.Request self.old) (moved (Node.Request self.new) turn)) }
    {
        self.give_places(alloc, services, next(Stage::DvaFree, FREE))
    }

    /// Gives the block's places back, where no header failed, and goes on to this stage. Where memory is refused some
    /// of them went back, and the same stage goes on from there.
    fn give_places<S: Services>(
        &mut self,
        alloc: Global,
        services: &mut S,
        to: Stage,
    ) -> Result<Turn, NoMemory>
        requires over { IsRequestAtOver (S.tops services.old) self.old }
        requires kind { kind_of self.old.node.waiting.request.work ≡ Kind.Free }
        requires stage { (self.old.stage ≡ Stage.DvaFree) ⊎ (self.old.stage ≡ Stage.GangIssue) }
        requires walked { IsFreeWith HasWalked self.old.node.own }
        requires frees { IsFreeWith (IsFreeing self.old.node.waiting.block) self.old.node.own }
        requires failed { IsFreeWith HasKeptFailed self.old.node.own }
        requires to { to ≡ Stage.Ready }
        requires leads { IsNextOf (takes_stage (Node.Request self.old)) self.old.stage to }
        ensures moves { IfOk result (λ turn. MovesWith S.made (S.tops services.old) services.old services.new
            (Node.Request self.old) (moved (Node.Request self.new) turn)) }
        ensures over { IfOk result (λ turn. EachIn (IsNodeOver (S.tops services.old)) (IsTreeOver (S.tops services.old))
            (moved (Node.Request self.new) turn)) }
        ensures may { IfOk result (λ turn. MayGoOn IsNodeDue (moved (Node.Request self.new) turn)) }
        ensures left { IfOk result
            (λ turn. Lessens left_of (Node.Request self.old) (moved (Node.Request self.new) turn)) }
        ensures refused { OnErr result (StaysWith S.made (S.tops services.old) services.old services.new
            (Node.Request self.old) (Node.Request self.new)) }
        ensures tops { S.tops services.new ≡ S.tops services.old }
        ensures stages { IfOk result
            (λ turn. IsStageMove (Node.Request self.old) (moved (Node.Request self.new) turn)) }
    {
        match self.node.dva_free(alloc, services) {
            Ok(()) => {
                self.stage = to;
                Ok(Turn::Next)
            }
            Err(NoMemory) => Err(NoMemory),
        }
    }

    /// A free makes no block, and tells no pointer.
    fn free_ready(&mut self) -> Turn
        requires over { (tops : Seq SeenTop) × IsRequestAtOver tops self.old }
        requires kind { kind_of self.old.node.waiting.request.work ≡ Kind.Free }
        requires stage { self.old.stage ≡ Stage.Ready }
        ensures moves { (tops : Seq SeenTop)
            → MovesBare tops (Node.Request self.old) (moved (Node.Request self.new) result) }
        ensures over { (tops : Seq SeenTop) → IsRequestAtOver tops self.old
            → EachIn (IsNodeOver tops) (IsTreeOver tops) (moved (Node.Request self.new) result) }
        ensures may { MayGoOn IsNodeDue (moved (Node.Request self.new) result) }
        ensures left { Lessens left_of (Node.Request self.old) (moved (Node.Request self.new) result) }
        ensures stages { IsStageMove (Node.Request self.old) (moved (Node.Request self.new) result) }
    {
        let to = next(Stage::Ready, FREE);
        self.tell_none(to)
    }

    /// Ends once its children have. Where memory is refused what it came to stays.
    #[inline(never)]
    pub(crate) fn free_done(&mut self, alloc: Global) -> Result<Last, NoMemory>
        requires over { (tops : Seq SeenTop) × IsRequestAtOver tops self.old }
        requires kind { kind_of self.old.node.waiting.request.work ≡ Kind.Free }
        requires stage { self.old.stage ≡ Stage.Done }
        ensures moves { (tops : Seq SeenTop)
            → IfOk result (λ last. MovesBare tops (Node.Request self.old) (last_moved (Node.Request self.new) last)) }
        ensures over { (tops : Seq SeenTop) → IsRequestAtOver tops self.old
            → IfOk result (λ last. EachIn (IsNodeOver tops) (IsTreeOver tops) (last_moved (Node.Request self.new) last)) }
        ensures may { IfOk result (λ last. MayGoOn IsNodeDue (last_moved (Node.Request self.new) last)) }
        ensures last { IfOk result (λ last. IsLastMove (last_moved (Node.Request self.new) last)) }
        ensures left { IfOk result
            (λ last. Lessens left_of (Node.Request self.old) (last_moved (Node.Request self.new) last)) }
        ensures refused { (tops : Seq SeenTop)
            → OnErr result (StaysBare tops (Node.Request self.old) (Node.Request self.new)) }
    {
        if let DoneStep::Wait(kind) = self.node.done_null() {
            return Ok(Last::Wait(kind, Phase::Done));
        }
        self.node.end_free(alloc);
        self.end_found(alloc)
    }
}
