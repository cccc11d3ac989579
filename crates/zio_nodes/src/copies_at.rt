//! The read of a block's copies, from stage to stage: it hands its operations to children, and ends with the good
//! bytes.

ghost use Rattle.std.specs.Prelude.{◌≡◌, ◌≢◌, ◌+◌, ◌≤◌, IfOk, List as Seq, false, true, OnErr};
ghost use Rattle.zio_types.specs.declared.place.Top.{Top as SeenTop};
ghost use Rattle.zio_gang.specs.Attempts.{Terms};
ghost use Rattle.zio_trace.specs.Tasks.{Task, Value};
ghost use Rattle.zio_frames.specs.Frames.{Child, Stack, fresh_stack};
ghost use Rattle.zio_frames.specs.Moves.{heard_of};
ghost use Rattle.zio_stages.specs.CopiesNodes.{IsCopiesNode, IsCopiesOver};
ghost use Rattle.zio_staged.specs.declared.staged.Move.TheVariants.{End};
ghost use Rattle.zio_staged.specs.Stages.{EachIn, Hears, HearsSome, Lessens, MayGoOn, heard_max};
ghost use Rattle.zio_nodes.specs.Bounds.{copies_left, copies_max};
ghost use Rattle.zio_nodes.specs.CopiesAts.{IsCopiesAt, IsCopiesAtOver};
ghost use Rattle.zio_nodes.specs.Passes.{IsInPassOf, KeepsPassAt};
ghost use Rattle.zio_nodes.specs.StageMoves.{IsStageMove};
ghost use Rattle.zio_nodes.specs.Nodes.{IsNodeDue, IsNodeOver, IsTreeOver, MovesBare, StaysBare, left_of, moved, nodes};
ghost use Rattle.zio_nodes.specs.Told.{is_told};

use crate::leaf_at::LeafAt;
use crate::node::Node;
use crate::read_io_at::behind_assess;
use crate::turn::Turn;
use std::alloc::Global;
use zio_exchange::unsummed;
use zio_masks::{READ, Stage, next};
use zio_stages::{CopiesNode, Family, IoNext, Outcome, reads_tell_no_pointer};
use zio_types::{ChildKind, NoMemory, Phase, Top};

/// The read of a block's copies at a stage of its pipeline.
#[derive(Drop)]
pub struct CopiesAt {
    pub(crate) node: CopiesNode,
    stage: Stage,
    /// An operation on a leaf may be due: since the last time that none was, one was heard or a pass began.
    is_due: bool,
}

impl CopiesAt {
    /// Nothing of the read is done.
    pub fn new(node: CopiesNode) -> CopiesAt
        ensures fresh { (t : Terms) (op : Task) → IsCopiesNode t node (fresh_stack op)
            → IsCopiesAt t result (fresh_stack op) }
        ensures over { (tops : Seq SeenTop) → IsCopiesOver tops node → IsCopiesAtOver tops result }
        ensures told { is_told result.stage ≡ false }
        ensures left { copies_left result ≤ copies_max }
    {
        CopiesAt {
            node,
            stage: Stage::Start,
            is_due: true,
        }
    }

    /// The stage where it stands.
    pub(crate) fn stage(&self) -> Stage
        ensures { result ≡ self.now.stage }
    {
        self.stage
    }

    /// Its children by number.
    pub(crate) fn family(&self) -> &Family
        ensures { result.now ≡ self.now.node.family }
    {
        self.node.family()
    }

    /// Runs one stage. Where memory is refused it comes back as it was.
    pub fn run_stage(&mut self, alloc: Global, tops: &[Top]) -> Result<Turn, NoMemory>
        requires over { IsCopiesAtOver tops.now self.old }
        requires before { self.old.stage ≢ Stage.Done }
        ensures moves { IfOk result
            (λ turn. MovesBare tops.now (Node.Copies self.old) (moved (Node.Copies self.new) turn)) }
        ensures over { IfOk result
            (λ turn. EachIn (IsNodeOver tops.now) (IsTreeOver tops.now) (moved (Node.Copies self.new) turn)) }
        ensures may { IfOk result (λ turn. MayGoOn IsNodeDue (moved (Node.Copies self.new) turn)) }
        ensures left { IfOk result
            (λ turn. Lessens left_of (Node.Copies self.old) (moved (Node.Copies self.new) turn)) }
        ensures refused { OnErr result (StaysBare tops.now (Node.Copies self.old) (Node.Copies self.new)) }
        ensures stages { IfOk result (λ turn. IsStageMove (Node.Copies self.old) (moved (Node.Copies self.new) turn)) }
        ensures pass { IfOk result
            (λ turn. KeepsPassAt self.old.stage (Node.Copies self.old) (moved (Node.Copies self.new) turn)) }
    {
        match self.stage {
            Stage::Start => Ok(self.start()),
            Stage::ReadBpInit => Ok(self.read_bp_init()),
            Stage::Ready => Ok(self.ready()),
            Stage::VdevIoStart => self.vdev_io_start(alloc, tops),
            Stage::VdevIoDone => Ok(self.vdev_io_done(tops)),
            Stage::VdevIoAssess => Ok(self.vdev_io_assess(tops)),
            Stage::ChecksumVerify => Ok(self.checksum_verify(tops)),
            _ => unreachable!(),
        }
    }

    /// The request was made.
    fn start(&mut self) -> Turn
        requires stage { self.old.stage ≡ Stage.Start }
        ensures moves { (tops : Seq SeenTop)
            → MovesBare tops (Node.Copies self.old) (moved (Node.Copies self.new) result) }
        ensures over { (tops : Seq SeenTop) → IsCopiesAtOver tops self.old
            → EachIn (IsNodeOver tops) (IsTreeOver tops) (moved (Node.Copies self.new) result) }
        ensures may { MayGoOn IsNodeDue (moved (Node.Copies self.new) result) }
        ensures left { Lessens left_of (Node.Copies self.old) (moved (Node.Copies self.new) result) }
        ensures stages { IsStageMove (Node.Copies self.old) (moved (Node.Copies self.new) result) }
    {
        self.stage = next(Stage::Start, READ);
        Turn::Next
    }

    /// Its places are no gang's: there are no gang stages to add.
    fn read_bp_init(&mut self) -> Turn
        requires stage { self.old.stage ≡ Stage.ReadBpInit }
        ensures moves { (tops : Seq SeenTop)
            → MovesBare tops (Node.Copies self.old) (moved (Node.Copies self.new) result) }
        ensures over { (tops : Seq SeenTop) → IsCopiesAtOver tops self.old
            → EachIn (IsNodeOver tops) (IsTreeOver tops) (moved (Node.Copies self.new) result) }
        ensures may { MayGoOn IsNodeDue (moved (Node.Copies self.new) result) }
        ensures left { Lessens left_of (Node.Copies self.old) (moved (Node.Copies self.new) result) }
        ensures stages { IsStageMove (Node.Copies self.old) (moved (Node.Copies self.new) result) }
    {
        self.stage = next(Stage::ReadBpInit, READ);
        Turn::Next
    }

    /// A read makes no block, and tells no pointer.
    fn ready(&mut self) -> Turn
        requires stage { self.old.stage ≡ Stage.Ready }
        ensures moves { (tops : Seq SeenTop)
            → MovesBare tops (Node.Copies self.old) (moved (Node.Copies self.new) result) }
        ensures over { (tops : Seq SeenTop) → IsCopiesAtOver tops self.old
            → EachIn (IsNodeOver tops) (IsTreeOver tops) (moved (Node.Copies self.new) result) }
        ensures may { MayGoOn IsNodeDue (moved (Node.Copies self.new) result) }
        ensures left { Lessens left_of (Node.Copies self.old) (moved (Node.Copies self.new) result) }
        ensures stages { IsStageMove (Node.Copies self.old) (moved (Node.Copies self.new) result) }
    {
        reads_tell_no_pointer();
        self.stage = next(Stage::Ready, READ);
        Turn::Ready(None)
    }

    /// Hands the next operation to a child, or goes on where none is due now. Where memory is refused it comes back as
    /// it was.
    fn vdev_io_start(&mut self, alloc: Global, tops: &[Top]) -> Result<Turn, NoMemory>
        requires over { IsCopiesAtOver tops.now self.old }
        requires stage { self.old.stage ≡ Stage.VdevIoStart }
        ensures moves { IfOk result
            (λ turn. MovesBare tops.now (Node.Copies self.old) (moved (Node.Copies self.new) turn)) }
        ensures over { IfOk result
            (λ turn. EachIn (IsNodeOver tops.now) (IsTreeOver tops.now) (moved (Node.Copies self.new) turn)) }
        ensures may { IfOk result (λ turn. MayGoOn IsNodeDue (moved (Node.Copies self.new) turn)) }
        ensures left { IfOk result
            (λ turn. Lessens left_of (Node.Copies self.old) (moved (Node.Copies self.new) turn)) }
        ensures refused { OnErr result (StaysBare tops.now (Node.Copies self.old) (Node.Copies self.new)) }
        ensures stages { IfOk result (λ turn. IsStageMove (Node.Copies self.old) (moved (Node.Copies self.new) turn)) }
        ensures pass { IfOk result
            (λ turn. KeepsPassAt self.old.stage (Node.Copies self.old) (moved (Node.Copies self.new) turn)) }
    {
        match self.node.vdev_io_start(alloc, tops) {
            Ok(Some(work)) => {
                let child = LeafAt::new(work);
                Ok(Turn::Ask(child))
            }
            Ok(None) => {
                self.stage = next(Stage::VdevIoStart, READ);
                self.is_due = false;
                Ok(Turn::Next)
            }
            Err(NoMemory) => Err(NoMemory),
        }
    }

    /// Waits for its children. It goes back where one that ended has made another operation due: the next copy, or a
    /// repair.
    fn vdev_io_done(&mut self, tops: &[Top]) -> Turn
        requires over { IsCopiesAtOver tops.now self.old }
        requires stage { self.old.stage ≡ Stage.VdevIoDone }
        ensures moves { MovesBare tops.now (Node.Copies self.old) (moved (Node.Copies self.new) result) }
        ensures over { EachIn (IsNodeOver tops.now) (IsTreeOver tops.now) (moved (Node.Copies self.new) result) }
        ensures may { MayGoOn IsNodeDue (moved (Node.Copies self.new) result) }
        ensures left { Lessens left_of (Node.Copies self.old) (moved (Node.Copies self.new) result) }
        ensures stages { IsStageMove (Node.Copies self.old) (moved (Node.Copies self.new) result) }
        ensures pass { KeepsPassAt self.old.stage (Node.Copies self.old) (moved (Node.Copies self.new) result) }
    {
        match self.node.vdev_io_done(tops) {
            IoNext::Wait => Turn::Wait(ChildKind::Vdev, Phase::Done),
            IoNext::More => {
                self.stage = Stage::VdevIoStart;
                self.is_due = true;
                Turn::Next
            }
            IoNext::On => {
                self.stage = next(Stage::VdevIoDone, READ);
                self.is_due = false;
                Turn::Next
            }
        }
    }

    /// Goes back for a second pass, once, where no copy was good; after it an error cuts the pipeline short.
    fn vdev_io_assess(&mut self, tops: &[Top]) -> Turn
        requires over { IsCopiesAtOver tops.now self.old }
        requires stage { self.old.stage ≡ Stage.VdevIoAssess }
        ensures moves { MovesBare tops.now (Node.Copies self.old) (moved (Node.Copies self.new) result) }
        ensures over { EachIn (IsNodeOver tops.now) (IsTreeOver tops.now) (moved (Node.Copies self.new) result) }
        ensures may { MayGoOn IsNodeDue (moved (Node.Copies self.new) result) }
        ensures left { Lessens left_of (Node.Copies self.old) (moved (Node.Copies self.new) result) }
        ensures stages { IsStageMove (Node.Copies self.old) (moved (Node.Copies self.new) result) }
    {
        let has_failed = self.node.has_failed();
        let goes_again = self.node.vdev_io_assess(tops);
        if goes_again {
            self.stage = Stage::VdevIoStart;
            self.is_due = true;
            return Turn::Next;
        }
        self.stage = behind_assess(has_failed);
        self.is_due = false;
        Turn::Next
    }

    /// Each copy was verified as it came, so nothing is left to verify.
    fn checksum_verify(&mut self, tops: &[Top]) -> Turn
        requires over { IsCopiesAtOver tops.now self.old }
        requires stage { self.old.stage ≡ Stage.ChecksumVerify }
        ensures moves { MovesBare tops.now (Node.Copies self.old) (moved (Node.Copies self.new) result) }
        ensures over { EachIn (IsNodeOver tops.now) (IsTreeOver tops.now) (moved (Node.Copies self.new) result) }
        ensures may { MayGoOn IsNodeDue (moved (Node.Copies self.new) result) }
        ensures left { Lessens left_of (Node.Copies self.old) (moved (Node.Copies self.new) result) }
        ensures stages { IsStageMove (Node.Copies self.old) (moved (Node.Copies self.new) result) }
    {
        self.stage = next(Stage::ChecksumVerify, READ);
        self.is_due = false;
        Turn::Next
    }

    /// What it ends with: the good bytes, or the error where no copy was good.
    pub(crate) fn into_outcome(self, tops: &[Top]) -> Outcome
        requires over { IsCopiesAtOver tops.now self }
        requires stage { self.stage ≡ Stage.Done }
        ensures moves { MovesBare tops.now (Node.Copies self) (End result) }
        ensures over { EachIn (IsNodeOver tops.now) (IsTreeOver tops.now) (End result) }
        ensures left { Lessens left_of (Node.Copies self) (End result) }
    {
        let CopiesAt { node, .. } = self;
        Outcome::Found(unsummed(node.into_found(tops)))
    }

    /// A child ended: an operation on a leaf, with the bytes of its read, with none of a repair, or with an error.
    pub fn arrive(&mut self, tops: &[Top], child: usize, outcome: Outcome)
        requires over { IsCopiesAtOver tops.now self.old }
        requires awaited { HearsSome nodes tops.now (Node.Copies self.old) child outcome }
        ensures heard { (t : Terms) (st : Stack) (c : Child) (op : Task) (v : Value) →
            Hears nodes tops.now t (Node.Copies self.old) st child c op outcome v
            → IsCopiesAt t self.new (heard_of st child c v) }
        ensures stage { self.new.stage ≡ self.old.stage }
        ensures pass { IsInPassOf (Node.Copies self.old) (Node.Copies self.new) }
        ensures over { IsCopiesAtOver tops.now self.new }
        ensures left { copies_left self.new ≤ copies_left self.old + heard_max }
    {
        let Outcome::Found(found) = outcome else {
            unreachable!()
        };
        self.node.arrive(tops, child, found);
        self.is_due = true;
    }
}
