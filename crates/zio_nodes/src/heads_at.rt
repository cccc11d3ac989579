//! The walk over headers, from stage to stage: its children read the header and walk below the members that it names.

ghost use Rattle.std.specs.Prelude.{◌≡◌, ◌≢◌, ◌≤◌, IfErr, IfOk, List as Seq, OnErr, OnOk, Option, false, length};
ghost use Rattle.zio_types.specs.declared.place.Top.{Top as SeenTop};
ghost use Rattle.zio_blkptr.specs.declared.pointer.Bp.{Bp as SeenBp};
ghost use Rattle.zio_gang.specs.Attempts.{Terms};
ghost use Rattle.zio_trace.specs.Tasks.{Task, Value};
ghost use Rattle.zio_frames.specs.Frames.{Child, Stack};
ghost use Rattle.zio_frames.specs.Moves.{heard_early, heard_of};
ghost use Rattle.zio_parts.specs.HeadWalks.{ShowsWalk};
ghost use Rattle.zio_stages.specs.HeadsNodes.{IsHeadsNode, IsHeadsOver};
ghost use Rattle.zio_staged.specs.Stages.{EachIn, Hears, HearsEarly, HearsSome, HearsSomeEarly, Lessens, MayGoOn};
ghost use Rattle.zio_nodes.specs.Bounds.{heads_left, walk_max};
ghost use Rattle.zio_nodes.specs.HeadsAts.{IsHeadsAtOver};
ghost use Rattle.zio_nodes.specs.Stalls.{LeavesGang};
ghost use Rattle.zio_nodes.specs.StageMoves.{IsLastMove, IsStageMove};
ghost use Rattle.zio_nodes.specs.Nodes.{IsNodeDue, IsNodeOver, IsTreeOver, MovesBare, StaysBare, last_moved, left_of, moved, nodes};
ghost use Rattle.zio_nodes.specs.Told.{is_told};

use crate::copies_at::CopiesAt;
use crate::node::Node;
use crate::stall::gang_stall;
use crate::turn::{Last, Turn, new_room};
use std::alloc::Global;
use zio_masks::{INTERLOCK, Stage, next, with_gang};
use zio_parts::{MemberWalk, WalkStep};
use zio_stages::{Family, HeadsNode, Outcome, reads_tell_no_pointer};
use zio_types::{ChildKind, NoMemory, Phase, Top};

/// The walk over headers at a stage of its pipeline.
#[derive(Drop)]
pub struct HeadsAt {
    pub(crate) node: HeadsNode,
    stage: Stage,
    /// For the header that it hears of.
    alloc: Global,
}

impl HeadsAt {
    /// Nothing of the walk is done. What it hears of its header is kept in memory from `alloc`.
    pub fn new(alloc: Global, node: HeadsNode) -> HeadsAt
        requires { length node.family ≡ 0 }
        ensures fresh { (t : Terms) (st : Stack) → IsHeadsNode t node st → IsHeadsNode t result.node st }
        ensures over { (tops : Seq SeenTop) → IsHeadsOver tops node → IsHeadsAtOver tops result }
        ensures told { is_told result.stage ≡ false }
        ensures left { heads_left result ≡ walk_max node.work.walk.levels }
    {
        HeadsAt {
            node,
            stage: Stage::Start,
            alloc,
        }
    }

    /// The stage where it stands.
    pub(crate) fn stage(&self) -> Stage
        ensures { result ≡ self.now.stage }
    {
        self.stage
    }

    /// Its children by number.
    pub(crate) fn family(&self) -> &Family
        ensures { result.now ≡ self.now.node.family }
    {
        self.node.family()
    }

    /// Runs one stage. Where memory is refused it comes back as it was.
    pub fn run_stage(&mut self, alloc: Global, tops: &[Top]) -> Result<Turn, NoMemory>
        requires over { IsHeadsAtOver tops.now self.old }
        requires before { self.old.stage ≢ Stage.Done }
        ensures moves { IfOk result
            (λ turn. MovesBare tops.now (Node.Heads self.old) (moved (Node.Heads self.new) turn)) }
        ensures over { IfOk result
            (λ turn. EachIn (IsNodeOver tops.now) (IsTreeOver tops.now) (moved (Node.Heads self.new) turn)) }
        ensures may { IfOk result (λ turn. MayGoOn IsNodeDue (moved (Node.Heads self.new) turn)) }
        ensures left { IfOk result (λ turn. Lessens left_of (Node.Heads self.old) (moved (Node.Heads self.new) turn)) }
        ensures refused { OnErr result (StaysBare tops.now (Node.Heads self.old) (Node.Heads self.new)) }
        ensures stages { IfOk result (λ turn. IsStageMove (Node.Heads self.old) (moved (Node.Heads self.new) turn)) }
        ensures leaves { self.old.stage ≡ Stage.GangAssemble
            → IfOk result (λ turn. LeavesGang self.old.node.family (moved (Node.Heads self.new) turn)) }
    {
        match self.stage {
            Stage::Start => Ok(self.start()),
            Stage::GangAssemble => self.gang_assemble(alloc, tops),
            Stage::GangIssue => Ok(self.gang_issue()),
            Stage::Ready => Ok(self.ready()),
            _ => unreachable!(),
        }
    }

    /// The request was made.
    fn start(&mut self) -> Turn
        requires stage { self.old.stage ≡ Stage.Start }
        ensures moves { (tops : Seq SeenTop)
            → MovesBare tops (Node.Heads self.old) (moved (Node.Heads self.new) result) }
        ensures over { (tops : Seq SeenTop) → IsHeadsAtOver tops self.old
            → EachIn (IsNodeOver tops) (IsTreeOver tops) (moved (Node.Heads self.new) result) }
        ensures may { MayGoOn IsNodeDue (moved (Node.Heads self.new) result) }
        ensures left { Lessens left_of (Node.Heads self.old) (moved (Node.Heads self.new) result) }
        ensures stages { IsStageMove (Node.Heads self.old) (moved (Node.Heads self.new) result) }
    {
        self.stage = next(Stage::Start, with_gang(INTERLOCK));
        Turn::Next
    }

    /// Hands the read of the header to a child, and then the walk below each member that it names; waits for them, and
    /// goes on once all have ended. Where memory is refused it comes back as it was.
    fn gang_assemble(&mut self, alloc: Global, tops: &[Top]) -> Result<Turn, NoMemory>
        requires over { IsHeadsAtOver tops.now self.old }
        requires stage { self.old.stage ≡ Stage.GangAssemble }
        ensures moves { IfOk result
            (λ turn. MovesBare tops.now (Node.Heads self.old) (moved (Node.Heads self.new) turn)) }
        ensures over { IfOk result
            (λ turn. EachIn (IsNodeOver tops.now) (IsTreeOver tops.now) (moved (Node.Heads self.new) turn)) }
        ensures may { IfOk result (λ turn. MayGoOn IsNodeDue (moved (Node.Heads self.new) turn)) }
        ensures left { IfOk result (λ turn. Lessens left_of (Node.Heads self.old) (moved (Node.Heads self.new) turn)) }
        ensures refused { OnErr result (StaysBare tops.now (Node.Heads self.old) (Node.Heads self.new)) }
        ensures stages { IfOk result (λ turn. IsStageMove (Node.Heads self.old) (moved (Node.Heads self.new) turn)) }
        ensures leaves { IfOk result (λ turn. LeavesGang self.old.node.family (moved (Node.Heads self.new) turn)) }
    {
        match self.node.next() {
            WalkStep::ReadHead => self.hand_out_head(alloc, tops),
            WalkStep::Member(member) => self.hand_out_below(alloc, tops, member),
            WalkStep::Wait => Ok(Turn::Wait(ChildKind::Gang, Phase::Done)),
            WalkStep::End => {
                if let Some((kind, phase)) = gang_stall(self.node.family()) {
                    return Ok(Turn::Wait(kind, phase));
                }
                self.stage = next(Stage::GangAssemble, with_gang(INTERLOCK));
                Ok(Turn::Next)
            }
        }
    }

    /// Hands the read of the header to a child. Where memory is refused it is as it was.
    fn hand_out_head(&mut self, alloc: Global, tops: &[Top]) -> Result<Turn, NoMemory>
        requires over { IsHeadsAtOver tops.now self.old }
        requires stage { self.old.stage ≡ Stage.GangAssemble }
        requires step { ShowsWalk self.old.node.work.walk WalkStep.ReadHead }
        ensures moves { IfOk result
            (λ turn. MovesBare tops.now (Node.Heads self.old) (moved (Node.Heads self.new) turn)) }
        ensures over { IfOk result
            (λ turn. EachIn (IsNodeOver tops.now) (IsTreeOver tops.now) (moved (Node.Heads self.new) turn)) }
        ensures may { IfOk result (λ turn. MayGoOn IsNodeDue (moved (Node.Heads self.new) turn)) }
        ensures left { IfOk result (λ turn. Lessens left_of (Node.Heads self.old) (moved (Node.Heads self.new) turn)) }
        ensures refused { OnErr result (StaysBare tops.now (Node.Heads self.old) (Node.Heads self.new)) }
        ensures stages { IfOk result (λ turn. IsStageMove (Node.Heads self.old) (moved (Node.Heads self.new) turn)) }
        ensures leaves { IfOk result (λ turn. LeavesGang self.old.node.family (moved (Node.Heads self.new) turn)) }
    {
        let mut room = new_room(alloc)?;
        match self.node.hand_out_head(alloc, tops) {
            Ok(read) => {
                let child = CopiesAt::new(read);
                *room = Node::Copies(child);
                Ok(Turn::Grow(room, ChildKind::Gang))
            }
            Err(NoMemory) => Err(NoMemory),
        }
    }

    /// Hands the walk below this member to a child. Where memory is refused it is as it was.
    fn hand_out_below(
        &mut self,
        alloc: Global,
        tops: &[Top],
        member: MemberWalk,
    ) -> Result<Turn, NoMemory>
        requires over { IsHeadsAtOver tops.now self.old }
        requires stage { self.old.stage ≡ Stage.GangAssemble }
        requires step { ShowsWalk self.old.node.work.walk (WalkStep.Member member) }
        ensures moves { IfOk result
            (λ turn. MovesBare tops.now (Node.Heads self.old) (moved (Node.Heads self.new) turn)) }
        ensures over { IfOk result
            (λ turn. EachIn (IsNodeOver tops.now) (IsTreeOver tops.now) (moved (Node.Heads self.new) turn)) }
        ensures may { IfOk result (λ turn. MayGoOn IsNodeDue (moved (Node.Heads self.new) turn)) }
        ensures left { IfOk result (λ turn. Lessens left_of (Node.Heads self.old) (moved (Node.Heads self.new) turn)) }
        ensures refused { OnErr result (StaysBare tops.now (Node.Heads self.old) (Node.Heads self.new)) }
        ensures stages { IfOk result (λ turn. IsStageMove (Node.Heads self.old) (moved (Node.Heads self.new) turn)) }
        ensures leaves { IfOk result (λ turn. LeavesGang self.old.node.family (moved (Node.Heads self.new) turn)) }
    {
        let mut room = new_room(alloc)?;
        match self.node.hand_out_below(alloc, tops, member) {
            Ok(walk) => {
                let child = HeadsAt::new(alloc, walk);
                *room = Node::Heads(child);
                Ok(Turn::Grow(room, ChildKind::Gang))
            }
            Err(NoMemory) => Err(NoMemory),
        }
    }

    /// The members' bodies are read by whoever asked for the walk.
    fn gang_issue(&mut self) -> Turn
        requires stage { self.old.stage ≡ Stage.GangIssue }
        ensures moves { (tops : Seq SeenTop)
            → MovesBare tops (Node.Heads self.old) (moved (Node.Heads self.new) result) }
        ensures over { (tops : Seq SeenTop) → IsHeadsAtOver tops self.old
            → EachIn (IsNodeOver tops) (IsTreeOver tops) (moved (Node.Heads self.new) result) }
        ensures may { MayGoOn IsNodeDue (moved (Node.Heads self.new) result) }
        ensures left { Lessens left_of (Node.Heads self.old) (moved (Node.Heads self.new) result) }
        ensures stages { IsStageMove (Node.Heads self.old) (moved (Node.Heads self.new) result) }
    {
        self.stage = next(Stage::GangIssue, with_gang(INTERLOCK));
        Turn::Next
    }

    /// A walk makes no block, and tells no pointer.
    fn ready(&mut self) -> Turn
        requires stage { self.old.stage ≡ Stage.Ready }
        ensures moves { (tops : Seq SeenTop)
            → MovesBare tops (Node.Heads self.old) (moved (Node.Heads self.new) result) }
        ensures over { (tops : Seq SeenTop) → IsHeadsAtOver tops self.old
            → EachIn (IsNodeOver tops) (IsTreeOver tops) (moved (Node.Heads self.new) result) }
        ensures may { MayGoOn IsNodeDue (moved (Node.Heads self.new) result) }
        ensures left { Lessens left_of (Node.Heads self.old) (moved (Node.Heads self.new) result) }
        ensures stages { IsStageMove (Node.Heads self.old) (moved (Node.Heads self.new) result) }
    {
        reads_tell_no_pointer();
        self.stage = next(Stage::Ready, with_gang(INTERLOCK));
        Turn::Ready(None)
    }

    /// Ends with what the walk left. Where memory is refused it is as it was.
    pub(crate) fn done(&mut self, alloc: Global, tops: &[Top]) -> Result<Last, NoMemory>
        requires over { IsHeadsAtOver tops.now self.old }
        requires stage { self.old.stage ≡ Stage.Done }
        ensures moves { IfOk result
            (λ last. MovesBare tops.now (Node.Heads self.old) (last_moved (Node.Heads self.new) last)) }
        ensures over { IfOk result
            (λ last. EachIn (IsNodeOver tops.now) (IsTreeOver tops.now) (last_moved (Node.Heads self.new) last)) }
        ensures may { IfOk result (λ last. MayGoOn IsNodeDue (last_moved (Node.Heads self.new) last)) }
        ensures last { IfOk result (λ last. IsLastMove (last_moved (Node.Heads self.new) last)) }
        ensures left { IfOk result (λ last. Lessens left_of (Node.Heads self.old) (last_moved (Node.Heads self.new) last)) }
        ensures refused { OnErr result (StaysBare tops.now (Node.Heads self.old) (Node.Heads self.new)) }
    {
        match self.node.take_walked(alloc) {
            Ok(walked) => Ok(Last::End(Outcome::Walked(walked))),
            Err(NoMemory) => Err(NoMemory),
        }
    }

    /// A child told that its value has no pointer: it reads, or walks.
    pub fn arrive_ready(&mut self, child: usize)
        requires { HearsSomeEarly nodes (Node.Heads self.old) child }
        ensures heard { (t : Terms) (st : Stack) (c : Child) (pointer : Option SeenBp) →
            HearsEarly nodes t (Node.Heads self.old) st child c
            → IsHeadsNode t self.new.node (heard_early st child c pointer) }
        ensures stage { self.new.stage ≡ self.old.stage }
        ensures over { (tops : Seq SeenTop) → IsHeadsAtOver tops self.old → IsHeadsAtOver tops self.new }
        ensures left { heads_left self.new ≡ heads_left self.old }
    {
        self.node.arrive_ready(child);
    }

    /// A child ended: the read of the header, or the walk below a member. Where memory is refused the outcome comes
    /// back, and the walk is as it was.
    pub fn arrive(&mut self, tops: &[Top], child: usize, outcome: Outcome) -> Result<(), Outcome>
        requires over { IsHeadsAtOver tops.now self.old }
        requires awaited { HearsSome nodes tops.now (Node.Heads self.old) child outcome }
        ensures heard { OnOk result ((t : Terms) (st : Stack) (c : Child) (op : Task) (v : Value) →
            Hears nodes tops.now t (Node.Heads self.old) st child c op outcome v
            → IsHeadsNode t self.new.node (heard_of st child c v)) }
        ensures stage { OnOk result (self.new.stage ≡ self.old.stage) }
        ensures over { OnOk result (IsHeadsAtOver tops.now self.new) }
        ensures left { OnOk result (heads_left self.new ≡ heads_left self.old) }
        ensures same { OnErr result (self.new ≡ self.old) }
        ensures back { IfErr result (λ e. e ≡ outcome) }
    {
        match outcome {
            Outcome::Found(found) => {
                let Ok(()) = self.node.arrive_head(self.alloc, tops, child, &found) else {
                    return Err(Outcome::Found(found));
                };
                Ok(())
            }
            Outcome::Walked(walked) => {
                self.node.arrive_below(tops, child, walked);
                Ok(())
            }
            Outcome::Finished(_) | Outcome::Again { .. } | Outcome::Stored(_) => unreachable!(),
        }
    }
}
