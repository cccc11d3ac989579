//! A node of any kind: its stages, and what it hears.

ghost use Rattle.std.specs.List.{list_any};
ghost use Rattle.std.specs.Prelude.{◌≡◌, ◌+◌, ◌<◌, ◌≤◌, [], IfErr, IfOk, IfSome, IsTrue, List as Seq, None, OnErr, OnOk, Some, false, length, true};
ghost use Rattle.zio_types.specs.declared.place.Top.{Top as SeenTop};
ghost use Rattle.zio_blkptr.specs.Pointers.{valid};
ghost use Rattle.zio_gang.specs.Attempts.{Pending, Terms};
ghost use Rattle.zio_trace.specs.Families.{Forest};
ghost use Rattle.zio_trace.specs.Leaves.{Answer, LeafOp};
ghost use Rattle.zio_trace.specs.Tasks.{Attempt, Got, Leaf, Task, Value};
ghost use Rattle.zio_frames.specs.Frames.{Child, Stack, fresh_stack};
ghost use Rattle.zio_frames.specs.Moves.{done_at_once, heard_early, heard_of};
ghost use Rattle.zio_exchange.specs.Wholes.{IsTreeOf};
ghost use Rattle.zio_stages.specs.NodeChildren.{is_awaited};
ghost use Rattle.zio_exchange.specs.declared.outcome.Outcome.{Outcome as SeenOutcome};
ghost use Rattle.zio_staged.specs.Stages.{
  EachIn,
  Hears,
  HearsEarly,
  HearsSome,
  HearsSomeEarly,
  Lessens,
  MayGoOn,
  OutcomeIn,
  ShowsAnswer,
  heard_max,
};
ghost use Rattle.zio_nodes.specs.NodeNames.{kind_at, label_at, request_of, unfinished_at};
ghost use Rattle.zio_nodes.specs.Nodes.{
  IsNode,
  IsNodeDue,
  IsNodeOver,
  IsTreeOver,
  MovesBare,
  MovesWith,
  StaysBare,
  StaysWith,
  gave_of,
  is_copies,
  is_tree,
  last_moved,
  left_of,
  moved,
  nodes,
  told_of,
};
ghost use Rattle.zio_nodes.specs.Passes.{IsInPassOf, KeepsPass};
ghost use Rattle.zio_nodes.specs.StageMoves.{IsLastMove, IsStageMove, stage_of, stalls_at};
ghost use Rattle.zio_nodes.specs.Stalls.{LeavesGang, LeavesNone, MayRun, children_of, hands_many};

use crate::copies_at::CopiesAt;
use crate::heads_at::HeadsAt;
use crate::leaf_at::LeafAt;
use crate::part_at::PartAt;
use crate::request_at::RequestAt;
use crate::stall::stall_of;
use crate::tree_at::TreeAt;
use crate::turn::{Last, Turn, end_room};
use std::alloc::Global;
use std::mem::replace;
use zio_blkptr::Bp;
use zio_exchange::{Services, Whole};
use zio_masks::Stage;
use zio_script::Failmode;
use zio_stages::{Finished, Outcome, request_label};
use zio_types::{Bytes, ChildKind, Errno, Kind, NoMemory, Phase, ReqNo, Top};

/// A node of a round.
#[derive(Drop)]
pub enum Node {
    /// An operation on a leaf.
    Leaf(LeafAt),
    /// The read of a block's copies.
    Copies(CopiesAt),
    /// The walk over a block's headers, or over a claim's.
    Heads(HeadsAt),
    /// The write of a gang's member.
    Part(PartAt),
    /// A tree of requests whose attempt is to begin.
    Tree(TreeAt),
    /// A request in an attempt.
    Request(RequestAt),
    /// Nothing: the place of a node that is to come.
    Empty,
}

impl Node {
    /// Nothing of this attempt of a tree is done. It takes no memory.
    pub fn start(whole: Whole, round: u32, attempt: u32, failmode: Failmode) -> Node
        requires { attempt < 4 }
        ensures fresh { (t : Terms) (p : Pending) (forest : Forest) → t.round ≡ round → t.failmode ≡ failmode →
            IsTreeOf whole p forest → IsNode t result (fresh_stack (Attempt attempt p forest)) }
        ensures told { told_of result ≡ false }
        ensures gave { gave_of result ≡ [] }
        ensures due { IsNodeDue result }
        ensures over { (tops : Seq SeenTop) → IsTreeOver tops whole → IsNodeOver tops result }
    {
        Node::Tree(TreeAt::new(whole, round, attempt, failmode))
    }

    /// The number of its request, or of the request for which it works.
    pub fn request(&self) -> ReqNo
        ensures { result ≡ request_of self.now }
    {
        match self {
            Node::Leaf(at) => at.work.request(),
            Node::Copies(at) => at.node.request(),
            Node::Heads(at) => at.node.request(),
            Node::Part(at) => at.node.request(),
            Node::Tree(at) => at.whole.number(),
            Node::Request(at) => at.node.number(),
            Node::Empty => 0,
        }
    }

    /// The kind of its request, and of another node what it does: it reads or writes.
    pub fn kind(&self) -> Kind
        ensures { result ≡ kind_at self.now }
    {
        match self {
            Node::Leaf(at) => {
                if at.work.is_write() {
                    Kind::Write
                } else {
                    Kind::Read
                }
            }
            Node::Copies(_) | Node::Heads(_) => Kind::Read,
            Node::Part(_) => Kind::Write,
            Node::Tree(at) => {
                // A tree has a root.
                let _root = at.whole.root();
                at.whole.kind()
            }
            Node::Request(at) => at.node.kind(),
            Node::Empty => Kind::Null,
        }
    }

    /// What names it among its parent's children; docs/FORMATS.md has the bits.
    pub fn label(&self) -> u64
        ensures { result ≡ label_at self.now }
    {
        match self {
            Node::Leaf(at) => at.work.label(),
            Node::Copies(at) => at.node.label(),
            Node::Heads(at) => at.node.label(),
            Node::Part(at) => at.node.label(),
            Node::Tree(at) => request_label(at.whole.root(), at.attempt),
            Node::Request(at) => at.node.label(),
            Node::Empty => 0,
        }
    }

    /// How many of its request's children hadn't finished when its attempt began; 0 where it is no request's.
    pub fn unfinished(&self) -> usize
        ensures { result ≡ unfinished_at self.now }
    {
        match self {
            Node::Tree(at) => {
                // A tree has a root.
                let _root = at.whole.root();
                at.whole.unfinished()
            }
            Node::Request(at) => at.node.unfinished(),
            Node::Leaf(_) | Node::Copies(_) | Node::Heads(_) | Node::Part(_) | Node::Empty => 0,
        }
    }

    /// How many children it handed out.
    pub fn children(&self) -> usize
        ensures { result ≡ length (children_of self.now) }
    {
        match self {
            Node::Copies(at) => at.family().len(),
            Node::Heads(at) => at.family().len(),
            Node::Part(at) => at.node.family().len(),
            Node::Request(at) => at.node.family().len(),
            Node::Leaf(_) | Node::Tree(_) | Node::Empty => 0,
        }
    }

    /// The stage where it stands.
    pub fn stage(&self) -> Stage
        ensures { result ≡ stage_of self.now }
    {
        match self {
            Node::Leaf(at) => at.stage(),
            Node::Copies(at) => at.stage(),
            Node::Heads(at) => at.stage(),
            Node::Part(at) => at.stage,
            Node::Request(at) => at.stage,
            Node::Tree(_) | Node::Empty => Stage::Start,
        }
    }

    /// Runs one stage of a node that isn't with its leaf. Where memory is refused the stage is to be repeated, and what
    /// it did of it stays.
    pub fn run_stage<S: Services>(
        &mut self,
        alloc: Global,
        services: &mut S,
    ) -> Result<Turn, NoMemory>
        requires over { IsNodeOver (S.tops services.old) self.old }
        requires due { IsNodeDue self.old }
        ensures moves { IfOk result (λ turn. MovesWith S.made (S.tops services.old) services.old services.new self.old
            (moved self.new turn)) }
        ensures over { IfOk result (λ turn. EachIn (IsNodeOver (S.tops services.old)) (IsTreeOver (S.tops services.old))
            (moved self.new turn)) }
        ensures may { IfOk result (λ turn. MayGoOn IsNodeDue (moved self.new turn)) }
        ensures left { IfOk result (λ turn. Lessens left_of self.old (moved self.new turn)) }
        ensures stages { IfOk result (λ turn. IsStageMove self.old (moved self.new turn)) }
        ensures pass { IfOk result (λ turn. KeepsPass self.old (moved self.new turn)) }
        ensures refused { OnErr result
            (StaysWith S.made (S.tops services.old) services.old services.new self.old self.new) }
        ensures tops { S.tops services.new ≡ S.tops services.old }
        ensures leaves { IfOk result (λ turn. LeavesNone self.old (moved self.new turn)) }
    {
        if let Some((kind, phase)) = self.stall() {
            return Ok(Turn::Wait(kind, phase));
        }
        self.step(alloc, services)
    }

    /// What it waits for before its stage does anything, if it waits.
    fn stall(&self) -> Option<(ChildKind, Phase)>
        ensures some { (kind : ChildKind) (phase : Phase) → result ≡ Some (kind, phase) →
            (stalls_at (stage_of self.now) kind phase ≡ true)
            × (list_any (is_awaited kind phase) (children_of self.now) ≡ true) }
        ensures none { result ≡ None → MayRun (stage_of self.now) (hands_many self.now) (children_of self.now) }
    {
        match self {
            Node::Copies(at) => stall_of(at.family(), at.stage(), false),
            Node::Heads(at) => {
                stall_of(at.family(), at.stage(), at.stage() == Stage::GangAssemble)
            }
            Node::Part(at) => stall_of(at.node.family(), at.stage, false),
            Node::Request(at) => stall_of(at.node.family(), at.stage, at.hands_many()),
            Node::Leaf(_) | Node::Tree(_) | Node::Empty => None,
        }
    }

    /// Runs one stage for which it needn't wait.
    fn step<S: Services>(&mut self, alloc: Global, services: &mut S) -> Result<Turn, NoMemory>
        requires over { IsNodeOver (S.tops services.old) self.old }
        requires due { IsNodeDue self.old }
        ensures moves { IfOk result (λ turn. MovesWith S.made (S.tops services.old) services.old services.new self.old
            (moved self.new turn)) }
        ensures over { IfOk result (λ turn. EachIn (IsNodeOver (S.tops services.old)) (IsTreeOver (S.tops services.old))
            (moved self.new turn)) }
        ensures may { IfOk result (λ turn. MayGoOn IsNodeDue (moved self.new turn)) }
        ensures left { IfOk result (λ turn. Lessens left_of self.old (moved self.new turn)) }
        ensures stages { IfOk result (λ turn. IsStageMove self.old (moved self.new turn)) }
        ensures pass { IfOk result (λ turn. KeepsPass self.old (moved self.new turn)) }
        ensures refused { OnErr result
            (StaysWith S.made (S.tops services.old) services.old services.new self.old self.new) }
        ensures tops { S.tops services.new ≡ S.tops services.old }
        ensures leaves { hands_many self.old ≡ true
            → IfOk result (λ turn. LeavesGang (children_of self.old) (moved self.new turn)) }
    {
        if self.is_tree() {
            return self.start_tree(alloc);
        }
        if self.stage() == Stage::Done {
            return self.run_last(alloc, services);
        }
        match self {
            Node::Leaf(at) => Ok(at.run_stage()),
            Node::Copies(at) => at.run_stage(alloc, services.tops()),
            Node::Heads(at) => at.run_stage(alloc, services.tops()),
            Node::Part(at) => at.run_stage(alloc, services),
            Node::Request(at) => at.run_stage(alloc, services),
            Node::Tree(_) | Node::Empty => unreachable!(),
        }
    }

    /// Whether it is a tree that is to start.
    fn is_tree(&self) -> bool
        ensures { result ≡ is_tree self.now }
    {
        match self {
            Node::Tree(_) => true,
            Node::Leaf(_)
            | Node::Copies(_)
            | Node::Heads(_)
            | Node::Part(_)
            | Node::Request(_)
            | Node::Empty => false,
        }
    }

    /// Splits the tree, and is its request. Where memory is refused it is as it was.
    #[inline(never)]
    fn start_tree(&mut self, alloc: Global) -> Result<Turn, NoMemory>
        requires tree { is_tree self.old ≡ true }
        ensures moves { (tops : Seq SeenTop) → IfOk result (λ turn. MovesBare tops self.old (moved self.new turn)) }
        ensures over { (tops : Seq SeenTop) → IsNodeOver tops self.old →
            IfOk result (λ turn. EachIn (IsNodeOver tops) (IsTreeOver tops) (moved self.new turn)) }
        ensures may { IfOk result (λ turn. MayGoOn IsNodeDue (moved self.new turn)) }
        ensures left { IfOk result (λ turn. Lessens left_of self.old (moved self.new turn)) }
        ensures stages { IfOk result (λ turn. IsStageMove self.old (moved self.new turn)) }
        ensures refused { (tops : Seq SeenTop) → OnErr result (StaysBare tops self.old self.new) }
    {
        match replace(self, Node::Empty) {
            Node::Tree(at) => match at.run_stage(alloc) {
                Ok(request) => {
                    self.put(Node::Request(request));
                    Ok(Turn::Next)
                }
                Err(tree) => {
                    self.put(Node::Tree(tree));
                    Err(NoMemory)
                }
            },
            Node::Leaf(_)
            | Node::Copies(_)
            | Node::Heads(_)
            | Node::Part(_)
            | Node::Request(_)
            | Node::Empty => unreachable!(),
        }
    }

    /// Runs the stage where it ends. Where memory is refused what it did of the stage stays.
    #[inline(never)]
    fn run_last<S: Services>(&mut self, alloc: Global, services: &mut S) -> Result<Turn, NoMemory>
        requires over { IsNodeOver (S.tops services.old) self.old }
        requires at_last { stage_of self.old ≡ Stage.Done }
        ensures moves { IfOk result (λ turn. MovesWith S.made (S.tops services.old) services.old services.new self.old
            (moved self.new turn)) }
        ensures over { IfOk result (λ turn. EachIn (IsNodeOver (S.tops services.old)) (IsTreeOver (S.tops services.old))
            (moved self.new turn)) }
        ensures may { IfOk result (λ turn. MayGoOn IsNodeDue (moved self.new turn)) }
        ensures left { IfOk result (λ turn. Lessens left_of self.old (moved self.new turn)) }
        ensures stages { IfOk result (λ turn. IsStageMove self.old (moved self.new turn)) }
        ensures refused { OnErr result
            (StaysWith S.made (S.tops services.old) services.old services.new self.old self.new) }
        ensures tops { S.tops services.new ≡ S.tops services.old }
    {
        let mut room = end_room(alloc)?;
        match self.end_stage(alloc, services)? {
            Last::Wait(kind, phase) => Ok(Turn::Wait(kind, phase)),
            Last::End(outcome) => {
                *room = outcome;
                Ok(Turn::End(room))
            }
        }
    }

    /// The same, with what it ended with beside it.
    fn end_stage<S: Services>(&mut self, alloc: Global, services: &mut S) -> Result<Last, NoMemory>
        requires over { IsNodeOver (S.tops services.old) self.old }
        requires at_last { stage_of self.old ≡ Stage.Done }
        ensures moves { IfOk result (λ last. MovesWith S.made (S.tops services.old) services.old services.new self.old
            (last_moved self.new last)) }
        ensures over { IfOk result (λ last. EachIn (IsNodeOver (S.tops services.old)) (IsTreeOver (S.tops services.old))
            (last_moved self.new last)) }
        ensures may { IfOk result (λ last. MayGoOn IsNodeDue (last_moved self.new last)) }
        ensures left { IfOk result (λ last. Lessens left_of self.old (last_moved self.new last)) }
        ensures stages { IfOk result (λ last. IsStageMove self.old (last_moved self.new last)) }
        ensures refused { OnErr result
            (StaysWith S.made (S.tops services.old) services.old services.new self.old self.new) }
        ensures tops { S.tops services.new ≡ S.tops services.old }
    {
        match self {
            Node::Leaf(at) => Ok(at.done()),
            Node::Copies(_) => Ok(self.end_copies(services.tops())),
            Node::Heads(at) => at.done(alloc, services.tops()),
            Node::Part(at) => at.done(alloc),
            Node::Request(at) => at.done(alloc, services),
            Node::Tree(_) | Node::Empty => unreachable!(),
        }
    }

    /// The end of a read of copies, which is taken out of its place.
    #[inline(never)]
    fn end_copies(&mut self, tops: &[Top]) -> Last
        requires copies { is_copies self.old ≡ true }
        requires over { IsNodeOver tops.now self.old }
        requires at_last { stage_of self.old ≡ Stage.Done }
        ensures moves { MovesBare tops.now self.old (last_moved self.new result) }
        ensures over { EachIn (IsNodeOver tops.now) (IsTreeOver tops.now) (last_moved self.new result) }
        ensures may { MayGoOn IsNodeDue (last_moved self.new result) }
        ensures last { IsLastMove (last_moved self.new result) }
        ensures left { Lessens left_of self.old (last_moved self.new result) }
    {
        match replace(self, Node::Empty) {
            Node::Copies(at) => Last::End(at.into_outcome(tops)),
            Node::Leaf(_)
            | Node::Heads(_)
            | Node::Part(_)
            | Node::Tree(_)
            | Node::Request(_)
            | Node::Empty => unreachable!(),
        }
    }

    /// This node is in the place.
    fn put(&mut self, node: Node)
        ensures { self.new ≡ node }
    {
        *self = node;
    }

    /// The child of this number told which pointer its value will have, or that it has none.
    pub fn arrive_ready(&mut self, child: usize, pointer: Option<Bp>)
        requires awaited { HearsSomeEarly nodes self.old child }
        requires valid { IfSome pointer (λ bp. IsTrue (valid bp)) }
        ensures heard { (t : Terms) (st : Stack) (c : Child) → HearsEarly nodes t self.old st child c →
            IsNode t self.new (heard_early st child c pointer) }
        ensures told { told_of self.new ≡ told_of self.old }
        ensures gave { gave_of self.new ≡ gave_of self.old }
        ensures pass { IsInPassOf self.old self.new }
        ensures due { IsNodeDue self.old → IsNodeDue self.new }
        ensures over { (tops : Seq SeenTop) → IsNodeOver tops self.old → IsNodeOver tops self.new }
        ensures left { left_of self.new ≤ left_of self.old + heard_max }
    {
        match self {
            Node::Leaf(_) | Node::Copies(_) | Node::Tree(_) | Node::Empty => unreachable!(),
            // Whatever it told: a read or a walk has no pointer, and its parent keeps none.
            Node::Heads(at) => at.arrive_ready(child),
            Node::Part(at) => at.arrive_ready(child, pointer),
            Node::Request(at) => at.arrive_ready(child, pointer),
        }
    }

    /// The child of this number ended. Of a request that finished this comes back. Where memory is refused the outcome
    /// comes back, and the node is as it was.
    pub fn arrive(
        &mut self,
        tops: &[Top],
        child: usize,
        outcome: Outcome,
    ) -> Result<Option<Finished>, Outcome>
        requires over { IsNodeOver tops.now self.old }
        requires awaited { HearsSome nodes tops.now self.old child outcome }
        requires inside { OutcomeIn (IsTreeOver tops.now) outcome }
        ensures heard { OnOk result ((t : Terms) (st : Stack) (c : Child) (op : Task) (v : Value) →
            Hears nodes tops.now t self.old st child c op outcome v → IsNode t self.new (heard_of st child c v)) }
        ensures finished { IfOk result (λ finished. IfSome finished (λ f. outcome ≡ SeenOutcome.Finished f)) }
        ensures kept { IfOk result (λ finished. (f : _) → outcome ≡ SeenOutcome.Finished f → finished ≡ Some f) }
        ensures told { OnOk result (told_of self.new ≡ told_of self.old) }
        ensures gave { OnOk result (gave_of self.new ≡ gave_of self.old) }
        ensures pass { OnOk result (IsInPassOf self.old self.new) }
        ensures due { OnOk result (IsNodeDue self.old → IsNodeDue self.new) }
        ensures over_still { OnOk result (IsNodeOver tops.now self.new) }
        ensures left { OnOk result (left_of self.new ≤ left_of self.old + heard_max) }
        ensures same { OnErr result (self.new ≡ self.old) }
        ensures back { IfErr result (λ e. e ≡ outcome) }
    {
        match self {
            Node::Leaf(_) | Node::Tree(_) | Node::Empty => unreachable!(),
            Node::Copies(at) => {
                at.arrive(tops, child, outcome);
                Ok(None)
            }
            Node::Heads(at) => match at.arrive(tops, child, outcome) {
                Ok(()) => Ok(None),
                Err(outcome) => Err(outcome),
            },
            Node::Part(at) => {
                at.arrive(tops, child, outcome);
                Ok(None)
            }
            Node::Request(at) => Ok(at.arrive(tops, child, outcome)),
        }
    }

    /// The leaf answered: an error or none, and the bytes of a read.
    pub fn answered(&mut self, error: Option<Errno>, bytes: Bytes)
        requires { (t : Terms) × (act : LeafOp) × IsNode t self.old (fresh_stack (Leaf act)) }
        ensures heard { (t : Terms) (act : LeafOp) (a : Answer) → IsNode t self.old (fresh_stack (Leaf act)) →
            ShowsAnswer act error bytes a →
            IsNode t self.new (done_at_once (fresh_stack (Leaf act)) (Leaf act) (Got a)) }
        ensures told { told_of self.new ≡ told_of self.old }
        ensures gave { gave_of self.new ≡ gave_of self.old }
        ensures pass { IsInPassOf self.old self.new }
        ensures due { IsNodeDue self.new }
        ensures over { (tops : Seq SeenTop) → IsNodeOver tops self.old → IsNodeOver tops self.new }
        ensures left { left_of self.new ≤ left_of self.old }
    {
        match self {
            Node::Leaf(at) => at.answered(error, bytes),
            Node::Copies(_)
            | Node::Heads(_)
            | Node::Part(_)
            | Node::Tree(_)
            | Node::Request(_)
            | Node::Empty => unreachable!(),
        }
    }
}
