//! What a write in an attempt hears of its own work: its members, and the operations on leaves for its own copies.

ghost use Rattle.std.specs.Prelude.{◌≡◌, IfSome, IsTrue, List as Seq, Option, Some, slice_get};
ghost use Rattle.zio_types.specs.declared.place.Top.{Top as SeenTop};
ghost use Rattle.zio_types.specs.declared.request.ChildKind.TheVariants.{Gang};
ghost use Rattle.zio_blkptr.specs.Pointers.{valid};
ghost use Rattle.zio_gang.specs.Attempts.{Terms};
ghost use Rattle.zio_trace.specs.Leaves.{Answer, error_of};
ghost use Rattle.zio_trace.specs.Tasks.{Got, StoredAs};
ghost use Rattle.zio_frames.specs.Frames.{Child, Stack};
ghost use Rattle.zio_frames.specs.Moves.{heard_early, heard_of};
ghost use Rattle.zio_exchange.specs.Outcomes.{stored_as};
ghost use Rattle.zio_stages.specs.PartNodes.{IsAnsweredBy, IsStoredBy};
ghost use Rattle.zio_stages.specs.RequestCounts.{AsksTheSame, IsMoreDueWrite};
ghost use Rattle.zio_stages.specs.RequestHearings.{HearsEarlyOf, HearsValueOf};
ghost use Rattle.zio_stages.specs.RequestNodes.{IsOwnOver, IsRequestNode};
ghost use Rattle.zio_stages.specs.RequestStages.{with_own};
ghost use Rattle.zio_stages.specs.RequestWrites.{IsWrite, KeepsStages};

use crate::own_write::OwnWrite;
use crate::request_node::{Own, RequestNode};
use zio_blkptr::Bp;
use zio_parts::StoredPart;
use zio_types::Errno;

impl RequestNode {
    /// A member of its block told which pointer it will have.
    pub fn arrive_member_ready(&mut self, child: usize, pointer: Option<Bp>)
        requires write { IsWrite self.old.own }
        requires hears { HearsEarlyOf Gang self.old child }
        requires valid { IfSome pointer (λ bp. IsTrue (valid bp)) }
        ensures told { (t : Terms) (st : Stack) (c : Child) → IsRequestNode t self.old st →
            slice_get st.children child ≡ Some c → IsRequestNode t self.new (heard_early st child c pointer) }
        ensures over { (tops : Seq SeenTop) → IsOwnOver tops self.old.own self.old.family →
            IsOwnOver tops self.new.own self.new.family }
        ensures keeps { KeepsStages self.old.own self.new.own }
        ensures write { IsWrite self.new.own }
        ensures same { AsksTheSame self.old.own self.new.own }
        ensures more { (tops : Seq SeenTop) → IsMoreDueWrite tops self.new.own → IsMoreDueWrite tops self.old.own }
        ensures rest { self.new ≡ with_own self.old self.new.own self.new.family }
    {
        let front = self.kids.len();
        let Own::Write(OwnWrite { work }) = &mut self.own else {
            unreachable!()
        };
        work.arrive_ready(&mut self.family, front, child, pointer);
    }

    /// A member of its block ended.
    pub fn arrive_stored(&mut self, child: usize, stored: StoredPart)
        requires write { IsWrite self.old.own }
        requires hears { HearsValueOf (IsStoredBy stored) self.old child }
        ensures heard { (t : Terms) (st : Stack) (c : Child) → IsRequestNode t self.old st →
            slice_get st.children child ≡ Some c
            → IsRequestNode t self.new (heard_of st child c (StoredAs (stored_as stored))) }
        ensures over { (tops : Seq SeenTop) → IsOwnOver tops self.old.own self.old.family →
            IsOwnOver tops self.new.own self.new.family }
        ensures keeps { KeepsStages self.old.own self.new.own }
        ensures write { IsWrite self.new.own }
        ensures same { AsksTheSame self.old.own self.new.own }
        ensures more { (tops : Seq SeenTop) → IsMoreDueWrite tops self.new.own → IsMoreDueWrite tops self.old.own }
        ensures rest { self.new ≡ with_own self.old self.new.own self.new.family }
    {
        let front = self.kids.len();
        let Own::Write(OwnWrite { work }) = &mut self.own else {
            unreachable!()
        };
        work.arrive_stored(&mut self.family, front, child, stored);
    }

    /// An operation on a leaf for its own copies has ended, with this error or none.
    pub fn arrive_leaf_write(&mut self, child: usize, error: Option<Errno>)
        requires write { IsWrite self.old.own }
        requires over { (tops : Seq SeenTop) × IsOwnOver tops self.old.own self.old.family }
        requires hears { HearsValueOf (IsAnsweredBy error) self.old child }
        ensures heard { (t : Terms) (st : Stack) (c : Child) (a : Answer) → error_of a ≡ error →
            slice_get st.children child ≡ Some c → IsRequestNode t self.old st →
            IsRequestNode t self.new (heard_of st child c (Got a)) }
        ensures over { (tops : Seq SeenTop) → IsOwnOver tops self.old.own self.old.family →
            IsOwnOver tops self.new.own self.new.family }
        ensures keeps { KeepsStages self.old.own self.new.own }
        ensures write { IsWrite self.new.own }
        ensures same { AsksTheSame self.old.own self.new.own }
        ensures rest { self.new ≡ with_own self.old self.new.own self.new.family }
    {
        let Own::Write(OwnWrite { work }) = &mut self.own else {
            unreachable!()
        };
        work.arrive_leaf(&mut self.family, child, error);
    }
}
