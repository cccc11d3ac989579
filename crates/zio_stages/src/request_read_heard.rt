//! What a read hears of the children of its own work: operations on leaves, the walk over the headers, and bodies.

ghost use Rattle.std.specs.Prelude.{◌≡◌, ◌<◌, ℕ, List as Seq, None, Option, Some, false, slice_get};
ghost use Rattle.std.specs.List.{AllByRecursion};
ghost use Rattle.zio_types.specs.declared.place.Top.{Top as SeenTop};
ghost use Rattle.zio_blkptr.specs.declared.pointer.Bp.{Bp};
ghost use Rattle.zio_gang.specs.Attempts.{Terms};
ghost use Rattle.zio_trace.specs.Leaves.{Answer};
ghost use Rattle.zio_trace.specs.Tasks.{Got, WalkedBy};
ghost use Rattle.zio_frames.specs.Frames.{Child, Stack};
ghost use Rattle.zio_frames.specs.Moves.{heard_early, heard_of};
ghost use Rattle.zio_frames.specs.Seats.{IsSeated};
ghost use Rattle.zio_stages.specs.NodeIos.{IsAwaitedAt};
ghost use Rattle.zio_stages.specs.OwnReads.{IsBodyOn};
ghost use Rattle.zio_stages.specs.RequestNodes.{IsOwnOver, IsRequestNode};
ghost use Rattle.zio_stages.specs.RequestOwns.{IsOwnSeat};
ghost use Rattle.zio_stages.specs.RequestReads.{IsAlone, IsBodyBeside, IsReadWith, IsReadingWith, IsWalkAlone, ReadsOn};
ghost use Rattle.zio_stages.specs.ReadCounts.{AsksMore, HearsBody};
ghost use Rattle.zio_stages.specs.RequestStages.{with_own};
ghost use Rattle.zio_parts.specs.TreeReads.{bodies_or, walk_heard};
ghost use Rattle.zio_stages.specs.declared.family.Layer.TheVariants.{Within};

use crate::request_node::{Own, RequestNode};
use zio_exchange::Summed;
use zio_parts::Walked;
use zio_types::{Bytes, Errno, Top};

impl RequestNode {
    /// An operation on a leaf of the body that the node reads itself has ended: with the bytes of its read, with none
    /// of a repair, or with an error.
    pub fn arrive_leaf_read(&mut self, tops: &[Top], child: usize, found: Result<Summed, Errno>)
        requires reads { IsReadingWith (λ w. Unit {0}) self.old.own }
        requires over { IsOwnOver tops.now self.old.own self.old.family }
        requires awaited { IsAwaitedAt Within self.old.family child }
        ensures heard { (t : Terms) (st : Stack) (c : Child) (a : Answer) → t.setting.tops ≡ tops.now → found ≡ a →
            slice_get st.children child ≡ Some c → IsRequestNode t self.old st
            → IsRequestNode t self.new (heard_of st child c (Got a)) }
        ensures goes { ReadsOn (AsksMore None) self.old.own self.new.own }
        ensures over { IsOwnOver tops.now self.new.own self.new.family }
        ensures waiting { self.new.waiting ≡ self.old.waiting }
        ensures rest { self.new ≡ with_own self.old self.new.own self.new.family }
    {
        match &mut self.own {
            Own::Read(own) => own.arrive_leaf(&mut self.family, tops, child, found),
            _ => unreachable!(),
        }
    }

    /// The gang child that walked over the block's headers has ended, and left this.
    pub fn arrive_walked_read(&mut self, tops: &[Top], child: usize, walked: Walked)
        requires seat { IsOwnSeat self.old child 0 }
        requires out { IsReadingWith IsWalkAlone self.old.own }
        requires on { AllByRecursion (IsBodyOn tops.now) walked.bodies }
        requires over { IsOwnOver tops.now self.old.own self.old.family }
        ensures heard { (t : Terms) (st : Stack) (c : Child) → slice_get st.children child ≡ Some c →
            IsRequestNode t self.old st →
            IsRequestNode t self.new (heard_of st child c (WalkedBy walked)) }
        ensures goes { ReadsOn (λ v w. w.tree.read ≡ walk_heard v.tree.read (bodies_or walked)) self.old.own
            self.new.own }
        ensures over { IsOwnOver tops.now self.new.own self.new.family }
        ensures reads { IsReadWith IsAlone self.new.own }
        ensures waiting { self.new.waiting ≡ self.old.waiting }
        ensures rest { self.new ≡ with_own self.old self.new.own self.new.family }
    {
        match &mut self.own {
            Own::Read(own) => own.arrive_walked(&mut self.family, child, walked),
            _ => unreachable!(),
        }
    }

    /// The gang child that read a body, the own work's operation of this number, has ended: with the body's bytes, or
    /// with an error.
    pub fn arrive_body(&mut self, tops: &[Top], child: usize, n: usize, found: Result<Bytes, Errno>)
        requires seat { IsOwnSeat self.old child n }
        requires out { IsReadingWith (IsBodyBeside n) self.old.own }
        requires over { IsOwnOver tops.now self.old.own self.old.family }
        ensures heard { (t : Terms) (st : Stack) (c : Child) (a : Answer) → found ≡ a →
            slice_get st.children child ≡ Some c →
            IsRequestNode t self.old st → IsRequestNode t self.new (heard_of st child c (Got a)) }
        ensures goes { ReadsOn HearsBody self.old.own self.new.own }
        ensures over { IsOwnOver tops.now self.new.own self.new.family }
        ensures waiting { self.new.waiting ≡ self.old.waiting }
        ensures rest { self.new ≡ with_own self.old self.new.own self.new.family }
    {
        match &mut self.own {
            Own::Read(own) => own.arrive_found(&mut self.family, child, n, found),
            _ => unreachable!(),
        }
    }

    /// A gang child of its own work told that it has no pointer.
    pub fn arrive_ready_read(&mut self, child: usize)
        requires seat { (n : ℕ) × IsOwnSeat self.old child n }
        requires reads { IsReadingWith (λ w. Unit {0}) self.old.own }
        ensures told { (t : Terms) (st : Stack) (c : Child) (pointer : Option Bp) → IsSeated st →
            slice_get st.children child ≡ Some c →
            c.ended ≡ false → c.told ≡ false → IsRequestNode t self.old st
            → IsRequestNode t self.new (heard_early st child c pointer) }
        ensures over { (tops : Seq SeenTop) → IsOwnOver tops self.old.own self.old.family
            → IsOwnOver tops self.new.own self.new.family }
        ensures own { self.new.own ≡ self.old.own }
        ensures waiting { self.new.waiting ≡ self.old.waiting }
        ensures rest { self.new ≡ with_own self.old self.new.own self.new.family }
    {
        match &self.own {
            Own::Read(own) => own.arrive_ready(&mut self.family, child),
            _ => unreachable!(),
        }
    }
}
