//! An operation on a leaf, from stage to stage: it is handed to its leaf, and ends with what that answers.

ghost use Rattle.std.specs.Prelude.{◌≡◌, ◌≢◌, ◌<◌, ◌≤◌, IfOk, IfSome, List as Seq, OnErr, false};
ghost use Rattle.zio_types.specs.declared.place.Top.{Top as SeenTop};
ghost use Rattle.zio_gang.specs.Attempts.{Terms};
ghost use Rattle.zio_trace.specs.Leaves.{Answer, LeafOp};
ghost use Rattle.zio_trace.specs.Tasks.{Got, Leaf};
ghost use Rattle.zio_frames.specs.Frames.{fresh_frame, fresh_stack};
ghost use Rattle.zio_frames.specs.Moves.{done_at_once};
ghost use Rattle.zio_stages.specs.LeafWorks.{IsDue, IsLeafWork};
ghost use Rattle.zio_staged.specs.declared.staged.Move.TheVariants.{End, Next};
ghost use Rattle.zio_staged.specs.Stages.{EachIn, Lessens, MayGoOn, ShowsAnswer};
ghost use Rattle.zio_nodes.specs.Aheads.{FitsLeaf};
ghost use Rattle.zio_nodes.specs.Bounds.{leaf_left, leaf_max};
ghost use Rattle.zio_nodes.specs.LeafAts.{IsLeafAt, LeafStands};
ghost use Rattle.zio_nodes.specs.StageMoves.{IsLastMove, IsStageMove};
ghost use Rattle.zio_nodes.specs.Nodes.{IsNodeDue, IsNodeOver, IsTreeOver, MovesBare, last_moved, left_of, moved};
ghost use Rattle.zio_nodes.specs.Stalls.{LeavesNone};
ghost use Rattle.zio_nodes.specs.Told.{is_told};

use crate::ahead::{Ahead, HEAVY_LEN};
use crate::node::Node;
use crate::turn::{Last, Turn, end_room};
use std::alloc::Global;
use zio_masks::{Stage, VDEV_CHILD, next};
use zio_stages::{LeafWork, Outcome};
use zio_types::{Bytes, Errno, List, NoMemory};

/// An operation on a leaf at a stage of its pipeline.
#[derive(Drop)]
pub struct LeafAt {
    pub(crate) work: LeafWork,
    stage: Stage,
    /// The leaf has it, and hasn't answered.
    is_out: bool,
}

impl LeafAt {
    /// Nothing of the operation is done.
    pub fn new(work: LeafWork) -> LeafAt
        requires { IsDue work }
        ensures fresh { (t : Terms) (act : LeafOp) → IsLeafWork t work (fresh_frame (Leaf act)) →
            IsLeafAt t result (fresh_stack (Leaf act)) }
        ensures stands { LeafStands result.stage result.is_out result.work }
        ensures due { result.is_out ≡ false }
        ensures left { leaf_left result.stage result.is_out ≡ leaf_max }
    {
        LeafAt {
            work,
            stage: next(Stage::Start, VDEV_CHILD),
            is_out: false,
        }
    }

    /// The stage where it stands.
    pub(crate) fn stage(&self) -> Stage
        ensures { result ≡ self.now.stage }
    {
        self.stage
    }

    /// Runs one stage, while no leaf has it. Where memory is refused, which its end takes, it is as before.
    pub(crate) fn step(&mut self, alloc: Global) -> Result<Turn, NoMemory>
        requires stands { LeafStands self.old.stage self.old.is_out self.old.work }
        requires due { self.old.is_out ≡ false }
        ensures moves { (tops : Seq SeenTop) → IfOk result
            (λ turn. MovesBare tops (Node.Leaf self.old) (moved (Node.Leaf self.new) turn)) }
        ensures over { (tops : Seq SeenTop) → IfOk result
            (λ turn. EachIn (IsNodeOver tops) (IsTreeOver tops) (moved (Node.Leaf self.new) turn)) }
        ensures may { IfOk result (λ turn. MayGoOn IsNodeDue (moved (Node.Leaf self.new) turn)) }
        ensures left { IfOk result (λ turn. Lessens left_of (Node.Leaf self.old) (moved (Node.Leaf self.new) turn)) }
        ensures stages { IfOk result (λ turn. IsStageMove (Node.Leaf self.old) (moved (Node.Leaf self.new) turn)) }
        ensures leaves { IfOk result (λ turn. LeavesNone (Node.Leaf self.old) (moved (Node.Leaf self.new) turn)) }
        ensures same { OnErr result (self.new ≡ self.old) }
    {
        if self.stage == Stage::Done {
            let mut room = end_room(alloc)?;
            *room = self.end();
            return Ok(Turn::End(room));
        }
        Ok(self.run_stage())
    }

    /// Runs one stage before its last, while no leaf has it.
    pub fn run_stage(&mut self) -> Turn
        requires stands { LeafStands self.old.stage self.old.is_out self.old.work }
        requires due { self.old.is_out ≡ false }
        requires before { self.old.stage ≢ Stage.Done }
        ensures moves { (tops : Seq SeenTop) → MovesBare tops (Node.Leaf self.old) (moved (Node.Leaf self.new) result) }
        ensures over { (tops : Seq SeenTop)
            → EachIn (IsNodeOver tops) (IsTreeOver tops) (moved (Node.Leaf self.new) result) }
        ensures may { MayGoOn IsNodeDue (moved (Node.Leaf self.new) result) }
        ensures left { Lessens left_of (Node.Leaf self.old) (moved (Node.Leaf self.new) result) }
        ensures stages { IsStageMove (Node.Leaf self.old) (moved (Node.Leaf self.new) result) }
    {
        match self.stage {
            Stage::VdevIoStart => self.vdev_io_start(),
            Stage::VdevIoDone => self.vdev_io_done(),
            Stage::VdevIoAssess => self.vdev_io_assess(),
            _ => unreachable!(),
        }
    }

    /// Hands the operation to its leaf.
    fn vdev_io_start(&mut self) -> Turn
        requires stands { LeafStands self.old.stage self.old.is_out self.old.work }
        requires due { self.old.is_out ≡ false }
        requires stage { self.old.stage ≡ Stage.VdevIoStart }
        ensures moves { (tops : Seq SeenTop) → MovesBare tops (Node.Leaf self.old) (moved (Node.Leaf self.new) result) }
        ensures over { (tops : Seq SeenTop)
            → EachIn (IsNodeOver tops) (IsTreeOver tops) (moved (Node.Leaf self.new) result) }
        ensures may { MayGoOn IsNodeDue (moved (Node.Leaf self.new) result) }
        ensures left { Lessens left_of (Node.Leaf self.old) (moved (Node.Leaf self.new) result) }
        ensures stages { IsStageMove (Node.Leaf self.old) (moved (Node.Leaf self.new) result) }
    {
        let (op, leaf, bytes) = self.work.hand_out();
        self.is_out = true;
        Turn::Leaf(op, leaf, bytes)
    }

    /// Its leaf answered, so it goes on. Of what was read the checksum is taken, if one is wanted.
    fn vdev_io_done(&mut self) -> Turn
        requires stands { LeafStands self.old.stage self.old.is_out self.old.work }
        requires due { self.old.is_out ≡ false }
        requires stage { self.old.stage ≡ Stage.VdevIoDone }
        ensures moves { (tops : Seq SeenTop) → MovesBare tops (Node.Leaf self.old) (moved (Node.Leaf self.new) result) }
        ensures over { (tops : Seq SeenTop)
            → EachIn (IsNodeOver tops) (IsTreeOver tops) (moved (Node.Leaf self.new) result) }
        ensures may { MayGoOn IsNodeDue (moved (Node.Leaf self.new) result) }
        ensures left { Lessens left_of (Node.Leaf self.old) (moved (Node.Leaf self.new) result) }
        ensures stages { IsStageMove (Node.Leaf self.old) (moved (Node.Leaf self.new) result) }
    {
        if let Some(words) = self.work.sum_ahead() {
            self.work.set_sum(words);
        }
        self.stage = next(Stage::VdevIoDone, VDEV_CHILD);
        Turn::Next
    }

    /// Whether its leaf answered with 4 KiB or more, whose checksum is wanted.
    pub(crate) fn is_heavy(&self) -> bool {
        self.stage == Stage::VdevIoDone && self.work.len_to_sum() >= HEAVY_LEN
    }

    /// The checksum of what was read, once its leaf answered, if one is wanted.
    pub(crate) fn ahead(&self) -> Option<Ahead>
        ensures { IfSome result (FitsLeaf self.now) }
    {
        let Stage::VdevIoDone = self.stage else {
            return None;
        };
        if self.is_out {
            return None;
        }
        let words = self.work.sum_ahead()?;
        Some(Ahead::OfRead(words))
    }

    /// Goes on after its leaf answered, with the checksum that was taken.
    pub(crate) fn go_on(&mut self, ahead: Ahead)
        requires fits { FitsLeaf self.old ahead }
        ensures moves { (tops : Seq SeenTop) → MovesBare tops (Node.Leaf self.old) (Next (Node.Leaf self.new)) }
        ensures over { (tops : Seq SeenTop) → IsNodeOver tops (Node.Leaf self.new) }
        ensures due { IsNodeDue (Node.Leaf self.new) }
        ensures left { left_of (Node.Leaf self.new) < left_of (Node.Leaf self.old) }
        ensures stages { IsStageMove (Node.Leaf self.old) (Next (Node.Leaf self.new)) }
    {
        let Ahead::OfRead(words) = ahead else {
            unreachable!()
        };
        self.work.set_sum(words);
        self.stage = next(Stage::VdevIoDone, VDEV_CHILD);
    }

    /// Whoever asked for the operation decides what its error means, so it goes on with it.
    fn vdev_io_assess(&mut self) -> Turn
        requires stands { LeafStands self.old.stage self.old.is_out self.old.work }
        requires due { self.old.is_out ≡ false }
        requires stage { self.old.stage ≡ Stage.VdevIoAssess }
        ensures moves { (tops : Seq SeenTop) → MovesBare tops (Node.Leaf self.old) (moved (Node.Leaf self.new) result) }
        ensures over { (tops : Seq SeenTop)
            → EachIn (IsNodeOver tops) (IsTreeOver tops) (moved (Node.Leaf self.new) result) }
        ensures may { MayGoOn IsNodeDue (moved (Node.Leaf self.new) result) }
        ensures left { Lessens left_of (Node.Leaf self.old) (moved (Node.Leaf self.new) result) }
        ensures stages { IsStageMove (Node.Leaf self.old) (moved (Node.Leaf self.new) result) }
    {
        self.stage = next(Stage::VdevIoAssess, VDEV_CHILD);
        Turn::Next
    }

    /// Ends with what the leaf answered.
    fn end(&mut self) -> Outcome
        requires stands { LeafStands self.old.stage self.old.is_out self.old.work }
        requires stage { self.old.stage ≡ Stage.Done }
        ensures moves { (tops : Seq SeenTop) → MovesBare tops (Node.Leaf self.old) (End result) }
        ensures over { (tops : Seq SeenTop) → EachIn (IsNodeOver tops) (IsTreeOver tops) (End result) }
        ensures left { Lessens left_of (Node.Leaf self.old) (End result) }
    {
        Outcome::Found(self.work.take_found())
    }

    /// The same as a last stage.
    pub(crate) fn done(&mut self) -> Last
        requires stands { LeafStands self.old.stage self.old.is_out self.old.work }
        requires stage { self.old.stage ≡ Stage.Done }
        ensures moves { (tops : Seq SeenTop) → MovesBare tops (Node.Leaf self.old) (last_moved (Node.Leaf self.new) result) }
        ensures over { (tops : Seq SeenTop)
            → EachIn (IsNodeOver tops) (IsTreeOver tops) (last_moved (Node.Leaf self.new) result) }
        ensures may { MayGoOn IsNodeDue (last_moved (Node.Leaf self.new) result) }
        ensures last { IsLastMove (last_moved (Node.Leaf self.new) result) }
        ensures left { Lessens left_of (Node.Leaf self.old) (last_moved (Node.Leaf self.new) result) }
    {
        Last::End(self.end())
    }

    /// The leaf answered: an error or none, and of a read the bytes of its place, of which the first are kept that were
    /// asked for.
    pub fn answered(&mut self, error: Option<Errno>, bytes: Bytes)
        requires { (t : Terms) × (act : LeafOp) × IsLeafAt t self.old (fresh_stack (Leaf act)) }
        ensures heard { (t : Terms) (act : LeafOp) (a : Answer) → IsLeafAt t self.old (fresh_stack (Leaf act)) →
            ShowsAnswer act error bytes a →
            IsLeafAt t self.new (done_at_once (fresh_stack (Leaf act)) (Leaf act) (Got a)) }
        ensures told { is_told self.new.stage ≡ is_told self.old.stage }
        ensures stands { LeafStands self.new.stage self.new.is_out self.new.work }
        ensures due { self.new.is_out ≡ false }
        ensures left { leaf_left self.new.stage self.new.is_out ≤ leaf_left self.old.stage self.old.is_out }
    {
        if !self.is_out {
            self.work.hand_out();
        }
        let len = self.work.len();
        let mut items = bytes.into_vec();
        items.truncate(len);
        self.work.answer(error, List::from_vec(items));
        self.stage = next(Stage::VdevIoStart, VDEV_CHILD);
        self.is_out = false;
    }
}
