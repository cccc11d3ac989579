//! The write of a gang's member, from stage to stage: it asks for places, hands out the members of a gang, tells its
//! pointer, writes its own copies, and ends with what it stored.

ghost use Rattle.std.specs.Prelude.{◌≡◌, ◌≢◌, ◌-◌, ◌+◌, ◌≤◌, Err, IfOk, IfSome, IsTrue, List as Seq, None, Ok, Option, [], false, length, OnErr};
ghost use Rattle.zio_types.specs.declared.place.Top.{Top as SeenTop};
ghost use Rattle.zio_blkptr.specs.Pointers.{valid};
ghost use Rattle.zio_gang.specs.Attempts.{Terms};
ghost use Rattle.zio_trace.specs.Leaves.{error_of as seen_error_of};
ghost use Rattle.zio_trace.specs.Tasks.{Task, Value};
ghost use Rattle.zio_frames.specs.Frames.{Child, Stack};
ghost use Rattle.zio_frames.specs.Moves.{heard_early, heard_of};
ghost use Rattle.zio_exchange.specs.SpaceCalls.{SpaceCall};
ghost use Rattle.zio_stages.specs.PartNodes.{IsPartNode, IsPartNodeOver};
ghost use Rattle.zio_stages.specs.PartWorks.{HaveUnits};
ghost use Rattle.zio_stages.specs.Tops.{AreTops};
ghost use Rattle.zio_staged.specs.Stages.{EachIn, GoesOn, Hears, HearsEarly, HearsSome, HearsSomeEarly, IsMove, IsNow, Lessens, MayGoOn, heard_max};
ghost use Rattle.zio_nodes.specs.Bounds.{part_left, part_max};
ghost use Rattle.zio_nodes.specs.Passes.{IsInPassOf, KeepsPassAt};
ghost use Rattle.zio_nodes.specs.StageMoves.{IsStageMove};
ghost use Rattle.zio_nodes.specs.Nodes.{IsNodeDue, IsNodeOver, IsTreeOver, MovesBare, MovesWith, StaysBare, StaysWith, left_of, moved, nodes};
ghost use Rattle.zio_nodes.specs.PartAts.{IsBeforePlaces, IsPartAtOver};
ghost use Rattle.zio_nodes.specs.Told.{is_told};

use crate::node::Node;
use crate::turn::Turn;
use std::alloc::Global;
use zio_blkptr::Bp;
use zio_exchange::{Services, Summed};
use zio_masks::{Stage, WRITE, next};
use zio_stages::{Outcome, PartNode};
use zio_types::{Errno, NoMemory, Top};

/// The write of a gang's member at a stage of its pipeline.
#[derive(Drop)]
pub struct PartAt {
    pub(crate) node: PartNode,
    pub(crate) stage: Stage,
    /// An operation on a leaf may be due: since the last time that none was, one was heard or a pass began.
    pub(crate) is_due: bool,
}

impl PartAt {
    /// Nothing of the write is done.
    pub fn new(node: PartNode) -> PartAt
        requires begun { node.work.own.part.members ≡ [] }
        requires none { node.work.io ≡ None }
        ensures fresh { (t : Terms) (st : Stack) → IsPartNode t node st → IsPartNode t result.node st }
        ensures over { (tops : Seq SeenTop) → AreTops tops → HaveUnits tops → IsPartNodeOver tops node
            → IsPartAtOver tops result }
        ensures told { is_told result.stage ≡ false }
        ensures left { part_left result ≡ part_max (8 - length node.work.own.part.path) }
    {
        PartAt {
            node,
            stage: Stage::Start,
            is_due: true,
        }
    }

    /// Runs one stage. Where memory is refused it comes back, and what it did of the stage stays.
    pub fn run_stage<S: Services>(
        &mut self,
        alloc: Global,
        services: &mut S,
    ) -> Result<Turn, NoMemory>
        requires over { IsPartAtOver (S.tops services.old) self.old }
        requires before { self.old.stage ≢ Stage.Done }
        ensures moves { IfOk result (λ turn. MovesWith S.made (S.tops services.old) services.old services.new
            (Node.Part self.old) (moved (Node.Part self.new) turn)) }
        ensures over { IfOk result (λ turn. EachIn (IsNodeOver (S.tops services.old)) (IsTreeOver (S.tops services.old))
            (moved (Node.Part self.new) turn)) }
        ensures may { IfOk result (λ turn. MayGoOn IsNodeDue (moved (Node.Part self.new) turn)) }
        ensures left { IfOk result (λ turn. Lessens left_of (Node.Part self.old) (moved (Node.Part self.new) turn)) }
        ensures refused { OnErr result (StaysWith S.made (S.tops services.old) services.old services.new
            (Node.Part self.old) (Node.Part self.new)) }
        ensures tops { S.tops services.new ≡ S.tops services.old }
        ensures stages { IfOk result (λ turn. IsStageMove (Node.Part self.old) (moved (Node.Part self.new) turn)) }
        ensures pass { IfOk result
            (λ turn. KeepsPassAt self.old.stage (Node.Part self.old) (moved (Node.Part self.new) turn)) }
    {
        match self.stage {
            Stage::DvaAllocate => self.dva_allocate(alloc, services),
            _ => self.run_bare(alloc, services.tops()),
        }
    }

    /// Runs a stage that asks nothing of the space.
    fn run_bare(&mut self, alloc: Global, tops: &[Top]) -> Result<Turn, NoMemory>
        requires over { IsPartAtOver tops.now self.old }
        requires stage { self.old.stage ≡ Stage.DvaAllocate → ⊥ }
        requires before { self.old.stage ≢ Stage.Done }
        ensures moves { IfOk result
            (λ turn. MovesBare tops.now (Node.Part self.old) (moved (Node.Part self.new) turn)) }
        ensures over { IfOk result
            (λ turn. EachIn (IsNodeOver tops.now) (IsTreeOver tops.now) (moved (Node.Part self.new) turn)) }
        ensures may { IfOk result (λ turn. MayGoOn IsNodeDue (moved (Node.Part self.new) turn)) }
        ensures left { IfOk result (λ turn. Lessens left_of (Node.Part self.old) (moved (Node.Part self.new) turn)) }
        ensures refused { OnErr result (StaysBare tops.now (Node.Part self.old) (Node.Part self.new)) }
        ensures stages { IfOk result (λ turn. IsStageMove (Node.Part self.old) (moved (Node.Part self.new) turn)) }
        ensures pass { IfOk result
            (λ turn. KeepsPassAt self.old.stage (Node.Part self.old) (moved (Node.Part self.new) turn)) }
    {
        match self.stage {
            // Its bytes and their checksum stand since its parent handed it out.
            Stage::Start
            | Stage::WriteBpInit
            | Stage::IssueAsync
            | Stage::WriteCompress
            | Stage::ChecksumGenerate => Ok(self.go_on()),
            Stage::Ready => Ok(self.ready()),
            Stage::VdevIoStart => self.vdev_io_start(alloc, tops),
            Stage::VdevIoDone => Ok(self.vdev_io_done(tops)),
            Stage::VdevIoAssess => Ok(self.vdev_io_assess(tops)),
            _ => unreachable!(),
        }
    }

    /// A stage in front of DvaAllocate, where nothing is to be done for a member.
    fn go_on(&mut self) -> Turn
        requires stage { IsBeforePlaces self.old.stage }
        ensures moves { (tops : Seq SeenTop) → MovesBare tops (Node.Part self.old) (moved (Node.Part self.new) result) }
        ensures over { (tops : Seq SeenTop) → IsPartAtOver tops self.old
            → EachIn (IsNodeOver tops) (IsTreeOver tops) (moved (Node.Part self.new) result) }
        ensures may { MayGoOn IsNodeDue (moved (Node.Part self.new) result) }
        ensures left { Lessens left_of (Node.Part self.old) (moved (Node.Part self.new) result) }
        ensures stages { IsStageMove (Node.Part self.old) (moved (Node.Part self.new) result) }
        ensures pass { KeepsPassAt self.old.stage (Node.Part self.old) (moved (Node.Part self.new) result) }
    {
        self.stage = next(self.stage, WRITE);
        Turn::Next
    }

    /// A member told which pointer it will have.
    pub fn arrive_ready(&mut self, child: usize, pointer: Option<Bp>)
        requires awaited { HearsSomeEarly nodes (Node.Part self.old) child }
        requires valid { IfSome pointer (λ bp. IsTrue (valid bp)) }
        ensures heard { (t : Terms) (st : Stack) (c : Child) → HearsEarly nodes t (Node.Part self.old) st child c →
            IsPartNode t self.new.node (heard_early st child c pointer) }
        ensures stage { self.new.stage ≡ self.old.stage }
        ensures pass { IsInPassOf (Node.Part self.old) (Node.Part self.new) }
        ensures over { (tops : Seq SeenTop) → IsPartAtOver tops self.old → IsPartAtOver tops self.new }
        ensures left { part_left self.new ≡ part_left self.old }
    {
        self.node.arrive_ready(child, pointer);
    }

    /// A child ended: the write of a copy, or a member.
    pub fn arrive(&mut self, tops: &[Top], child: usize, outcome: Outcome)
        requires over { IsPartAtOver tops.now self.old }
        requires awaited { HearsSome nodes tops.now (Node.Part self.old) child outcome }
        ensures heard { (t : Terms) (st : Stack) (c : Child) (op : Task) (v : Value) →
            Hears nodes tops.now t (Node.Part self.old) st child c op outcome v
            → IsPartNode t self.new.node (heard_of st child c v) }
        ensures stage { self.new.stage ≡ self.old.stage }
        ensures pass { IsInPassOf (Node.Part self.old) (Node.Part self.new) }
        ensures over { IsPartAtOver tops.now self.new }
        ensures left { part_left self.new ≤ part_left self.old + heard_max }
    {
        match outcome {
            Outcome::Found(found) => {
                self.node.arrive_leaf(child, error_of(&found));
                self.is_due = true;
            }
            Outcome::Stored(stored) => {
                self.node.arrive_stored(child, stored);
            }
            Outcome::Finished(_) | Outcome::Again { .. } | Outcome::Walked(_) => unreachable!(),
        }
    }
}

/// The error of a leaf's answer, if it is one.
fn error_of(found: &Result<Summed, Errno>) -> Option<Errno>
    ensures { result ≡ seen_error_of found.now }
{
    match found {
        Ok(_) => None,
        Err(e) => Some(*e),
    }
}
