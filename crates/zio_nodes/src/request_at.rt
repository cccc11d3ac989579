//! A request in an attempt, from stage to stage, and what it hears.
//!
//! Every kind hands its children out at Start, all of them, and goes on with the stages of its own pipeline: `null_at`,
//! `write_at`, `read_at`, `free_at` and `claim_at` have these, a function for each stage. `request_hear` has what it
//! hears of attempts, `write_hear` and `own_hear` what it hears of its own work.

ghost use Rattle.std.specs.Prelude.{◌≡◌, ◌≢◌, ◌+◌, ◌≤◌, ◌||◌, ◌&&◌, IfOk, IfSome, IsTrue, List as Seq, Some, true, OnErr};
ghost use Rattle.zio_types.specs.declared.place.Top.{Top as SeenTop};
ghost use Rattle.zio_masks.specs.Stages.{has, is_gang_stage};
ghost use Rattle.zio_masks.specs.declared.stage.Stage.{Stage as SeenStage};
ghost use Rattle.zio_blkptr.specs.Pointers.{valid};
ghost use Rattle.zio_script.specs.Requests.{kind_of};
ghost use Rattle.zio_gang.specs.Attempts.{Terms};
ghost use Rattle.zio_trace.specs.Tasks.{Task, Value};
ghost use Rattle.zio_frames.specs.Frames.{Child, Stack};
ghost use Rattle.zio_frames.specs.Moves.{heard_early, heard_of};
ghost use Rattle.zio_stages.specs.RequestKinds.{has_gang_stages};
ghost use Rattle.zio_stages.specs.RequestNodes.{IsRequestNode};
ghost use Rattle.zio_exchange.specs.declared.outcome.Outcome.{Outcome as SeenOutcome};
ghost use Rattle.zio_staged.specs.Stages.{
  EachIn,
  Hears,
  HearsEarly,
  HearsSome,
  HearsSomeEarly,
  Lessens,
  MayGoOn,
  OutcomeIn,
  heard_max,
};
ghost use Rattle.zio_nodes.specs.Stalls.{LeavesGang, hands_many};
ghost use Rattle.zio_nodes.specs.Passes.{IsInPassOf, KeepsPassAt};
ghost use Rattle.zio_nodes.specs.StageMoves.{IsLastMove, IsStageMove};
ghost use Rattle.zio_nodes.specs.Nodes.{
  IsNodeDue,
  IsNodeOver,
  IsTreeOver,
  MovesBare,
  MovesWith,
  StaysBare,
  StaysWith,
  gave_of,
  last_moved,
  left_of,
  moved,
  nodes,
};
ghost use Rattle.zio_nodes.specs.RequestAts.{IsRequestAtOver, masked};

use crate::node::Node;
use crate::tree_at::TreeAt;
use crate::turn::{Last, Turn, new_room};
use std::alloc::Global;
use zio_blkptr::Bp;
use zio_exchange::Services;
use zio_masks::{CLAIM, FREE, NULL, Pipeline, READ, Stage, WRITE, next, with_gang};
use zio_stages::{Finished, Outcome, RequestNode, Start};
use zio_types::{ChildKind, Kind, NoMemory, Top};

/// A request in an attempt at a stage of its pipeline.
#[derive(Drop)]
pub struct RequestAt {
    pub(crate) node: RequestNode,
    pub(crate) stage: Stage,
    /// An operation on a leaf may be due: since the last time that none was, one was heard or a pass began.
    pub(crate) is_due: bool,
}

impl RequestAt {
    /// Runs one stage. Where memory is refused it comes back, and what it did of the stage stays.
    pub fn run_stage<S: Services>(
        &mut self,
        alloc: Global,
        services: &mut S,
    ) -> Result<Turn, NoMemory>
        requires over { IsRequestAtOver (S.tops services.old) self.old }
        requires before { self.old.stage ≢ Stage.Done }
        ensures moves { IfOk result (λ turn. MovesWith S.made (S.tops services.old) services.old services.new
            (Node.Request self.old) (moved (Node.Request self.new) turn)) }
        ensures over { IfOk result (λ turn. EachIn (IsNodeOver (S.tops services.old)) (IsTreeOver (S.tops services.old))
            (moved (Node.Request self.new) turn)) }
        ensures may { IfOk result (λ turn. MayGoOn IsNodeDue (moved (Node.Request self.new) turn)) }
        ensures left { IfOk result
            (λ turn. Lessens left_of (Node.Request self.old) (moved (Node.Request self.new) turn)) }
        ensures refused { OnErr result (StaysWith S.made (S.tops services.old) services.old services.new
            (Node.Request self.old) (Node.Request self.new)) }
        ensures tops { S.tops services.new ≡ S.tops services.old }
        ensures stages { IfOk result
            (λ turn. IsStageMove (Node.Request self.old) (moved (Node.Request self.new) turn)) }
        ensures pass { IfOk result
            (λ turn. KeepsPassAt self.old.stage (Node.Request self.old) (moved (Node.Request self.new) turn)) }
        ensures leaves { kind_of self.old.node.waiting.request.work ≡ Kind.Read → self.old.stage ≡ Stage.GangIssue →
            IfOk result (λ turn. LeavesGang self.old.node.family (moved (Node.Request self.new) turn)) }
    {
        if self.stage == Stage::Start {
            return self.start(alloc);
        }
        match self.node.kind() {
            Kind::Null => Ok(self.null_ready()),
            Kind::Read => self.read_stage(alloc, services),
            Kind::Write => self.write_stage(alloc, services),
            Kind::Free => self.free_stage(alloc, services),
            Kind::Claim => self.claim_stage(alloc, services),
        }
    }

    /// Runs the stage where it ends. Where memory is refused what it did of the stage stays.
    pub(crate) fn done<S: Services>(
        &mut self,
        alloc: Global,
        services: &mut S,
    ) -> Result<Last, NoMemory>
        requires over { IsRequestAtOver (S.tops services.old) self.old }
        requires stage { self.old.stage ≡ Stage.Done }
        ensures moves { IfOk result (λ last. MovesWith S.made (S.tops services.old) services.old services.new
            (Node.Request self.old) (last_moved (Node.Request self.new) last)) }
        ensures over { IfOk result (λ last. EachIn (IsNodeOver (S.tops services.old)) (IsTreeOver (S.tops services.old))
            (last_moved (Node.Request self.new) last)) }
        ensures may { IfOk result (λ last. MayGoOn IsNodeDue (last_moved (Node.Request self.new) last)) }
        ensures last { IfOk result (λ last. IsLastMove (last_moved (Node.Request self.new) last)) }
        ensures left { IfOk result
            (λ last. Lessens left_of (Node.Request self.old) (last_moved (Node.Request self.new) last)) }
        ensures refused { OnErr result (StaysWith S.made (S.tops services.old) services.old services.new
            (Node.Request self.old) (Node.Request self.new)) }
        ensures tops { S.tops services.new ≡ S.tops services.old }
    {
        match self.node.kind() {
            Kind::Null => self.null_done(alloc),
            Kind::Read => self.read_done(alloc),
            Kind::Write => self.write_done(alloc, services),
            Kind::Free => self.free_done(alloc),
            Kind::Claim => self.claim_done(alloc),
        }
    }

    /// The child of this number told which pointer its value will have, or that it has none.
    pub fn arrive_ready(&mut self, child: usize, pointer: Option<Bp>)
        requires awaited { HearsSomeEarly nodes (Node.Request self.old) child }
        requires valid { IfSome pointer (λ bp. IsTrue (valid bp)) }
        ensures heard { (t : Terms) (st : Stack) (c : Child) → HearsEarly nodes t (Node.Request self.old) st child c →
            IsRequestNode t self.new.node (heard_early st child c pointer) }
        ensures stage { self.new.stage ≡ self.old.stage }
        ensures pass { IsInPassOf (Node.Request self.old) (Node.Request self.new) }
        ensures gave { gave_of (Node.Request self.new) ≡ gave_of (Node.Request self.old) }
        ensures over { (tops : Seq SeenTop) → IsRequestAtOver tops self.old → IsRequestAtOver tops self.new }
        ensures left { left_of (Node.Request self.new) ≤ left_of (Node.Request self.old) + heard_max }
    {
        match self.node.kind_of_child(child) {
            ChildKind::Logical => self.arrive_attempt_ready(child, pointer),
            ChildKind::Gang => match self.node.kind() {
                Kind::Write => self.arrive_member_ready(child, pointer),
                Kind::Null | Kind::Read | Kind::Free | Kind::Claim => self.arrive_own_ready(child),
            },
            ChildKind::Vdev => unreachable!(),
        }
    }

    /// The child of this number ended. Of a request that finished this comes back.
    pub fn arrive(&mut self, tops: &[Top], child: usize, outcome: Outcome) -> Option<Finished>
        requires over { IsRequestAtOver tops.now self.old }
        requires awaited { HearsSome nodes tops.now (Node.Request self.old) child outcome }
        requires inside { OutcomeIn (IsTreeOver tops.now) outcome }
        ensures heard { (t : Terms) (st : Stack) (c : Child) (op : Task) (v : Value) →
            Hears nodes tops.now t (Node.Request self.old) st child c op outcome v →
            IsRequestNode t self.new.node (heard_of st child c v) }
        ensures finished { IfSome result (λ f. outcome ≡ SeenOutcome.Finished f) }
        ensures kept { (f : _) → outcome ≡ SeenOutcome.Finished f → result ≡ Some f }
        ensures stage { self.new.stage ≡ self.old.stage }
        ensures pass { IsInPassOf (Node.Request self.old) (Node.Request self.new) }
        ensures gave { gave_of (Node.Request self.new) ≡ gave_of (Node.Request self.old) }
        ensures over_still { IsRequestAtOver tops.now self.new }
        ensures left { left_of (Node.Request self.new) ≤ left_of (Node.Request self.old) + heard_max }
    {
        match outcome {
            Outcome::Finished(finished) => {
                self.arrive_finished(child, &finished);
                Some(finished)
            }
            Outcome::Again {
                whole,
                bits,
                pointer,
            } => {
                self.arrive_again(child, whole, bits, pointer);
                None
            }
            own => match self.node.kind() {
                Kind::Write => {
                    self.arrive_written(tops, child, own);
                    None
                }
                Kind::Null | Kind::Read | Kind::Free | Kind::Claim => {
                    self.arrive_own(tops, child, own);
                    None
                }
            },
        }
    }

    /// Hands its children's trees out, one by one, and goes on once all are out. Where memory is refused it comes back
    /// as it was.
    fn start(&mut self, alloc: Global) -> Result<Turn, NoMemory>
        requires stage { self.old.stage ≡ Stage.Start }
        requires over { (tops : Seq SeenTop) × IsRequestAtOver tops self.old }
        ensures moves { (tops : Seq SeenTop)
            → IfOk result (λ turn. MovesBare tops (Node.Request self.old) (moved (Node.Request self.new) turn)) }
        ensures over { (tops : Seq SeenTop) → IsRequestAtOver tops self.old
            → IfOk result (λ turn. EachIn (IsNodeOver tops) (IsTreeOver tops) (moved (Node.Request self.new) turn)) }
        ensures may { IfOk result (λ turn. MayGoOn IsNodeDue (moved (Node.Request self.new) turn)) }
        ensures left { IfOk result
            (λ turn. Lessens left_of (Node.Request self.old) (moved (Node.Request self.new) turn)) }
        ensures refused { (tops : Seq SeenTop)
            → OnErr result (StaysBare tops (Node.Request self.old) (Node.Request self.new)) }
        ensures stages { IfOk result
            (λ turn. IsStageMove (Node.Request self.old) (moved (Node.Request self.new) turn)) }
    {
        let mask = self.mask();
        if !self.node.has_child_due() {
            self.stage = next(Stage::Start, mask);
            self.is_due = true;
            return Ok(Turn::Next);
        }
        let mut room = new_room(alloc)?;
        match self.node.start() {
            Ok(Start::Child { whole, .. }) => {
                // A tree has a request at least.
                let _root = whole.root();
                let child = TreeAt::new(
                    whole,
                    self.node.round(),
                    self.node.attempt(),
                    self.node.failmode(),
                );
                *room = Node::Tree(child);
                Ok(Turn::Grow(room, ChildKind::Logical))
            }
            Ok(Start::AllOut) => unreachable!(),
            Err(NoMemory) => Err(NoMemory),
        }
    }

    /// Whether its stage hands out more than one gang child: the reads of a gang's bodies.
    pub(crate) fn hands_many(&self) -> bool
        ensures { result ≡ hands_many (Node.Request self.now) }
    {
        match self.node.kind() {
            Kind::Read => self.stage == Stage::GangIssue,
            Kind::Null | Kind::Write | Kind::Free | Kind::Claim => false,
        }
    }

    /// The stages of its kind, with the gang stages where it is a gang's.
    pub(crate) fn mask(&self) -> Pipeline
        ensures { (stage : SeenStage) → has result stage ≡
            masked (kind_of self.now.node.waiting.request.work)
            (has_gang_stages self.now.node.waiting.request.work self.now.node.waiting.block) stage }
    {
        let gang = self.node.has_gang_stages();
        match self.node.kind() {
            Kind::Null => NULL,
            Kind::Read => gang_if(gang, READ),
            Kind::Write => WRITE,
            Kind::Free => gang_if(gang, FREE),
            Kind::Claim => gang_if(gang, CLAIM),
        }
    }
}

/// The pipeline, with the gang stages where it is a gang's.
fn gang_if(gang: bool, mask: Pipeline) -> Pipeline
    ensures { (stage : SeenStage) → has result stage ≡ (has mask stage || (gang && is_gang_stage stage)) }
{
    if gang { with_gang(mask) } else { mask }
}
