// The members of a part that is written as a gang, the pointer that it tells, and its end.

ghost use Rattle.std.specs.Prelude.{◌≡◌, ◌+◌, ◌^◌, ◌<◌, ℕ, IfOk, IfSome, IsTrue, List as Seq, None, OnErr, OnOk, Option, Some, false, length, slice_get, true};
ghost use Rattle.zio_types.specs.declared.place.Top.{Top as SeenTop};
ghost use Rattle.zio_types.specs.declared.request.ChildKind.TheVariants.{Gang};
ghost use Rattle.zio_types.specs.declared.request.Phase.TheVariants.{Done, Ready};
ghost use Rattle.zio_blkptr.specs.Pointers.{valid};
ghost use Rattle.zio_gang.specs.Attempts.{Terms};
ghost use Rattle.zio_trace.specs.Programs.{Ends};
ghost use Rattle.zio_trace.specs.Tasks.{StoredAs, Task, Value};
ghost use Rattle.zio_trace.specs.Underway.{early};
ghost use Rattle.zio_frames.specs.Answering.{EndsAnswered};
ghost use Rattle.zio_frames.specs.Frames.{Child, Stack};
ghost use Rattle.zio_frames.specs.Moves.{heard_early, heard_of};
ghost use Rattle.zio_frames.specs.Seats.{IsSeated};
ghost use Rattle.zio_frames.specs.Slots.{AllHeard, Slot, left_behind_slots, told_in};
ghost use Rattle.zio_parts.specs.Parts.{stored_by};
ghost use Rattle.zio_parts.specs.PartWrites.{is_due, is_ready, step_of};
ghost use Rattle.zio_exchange.specs.Outcomes.{IsKept, stored_as};
ghost use Rattle.zio_exchange.specs.SpaceCalls.{AreAsks, SpaceCall};
ghost use Rattle.zio_stages.specs.OwnParts.{DoesThen, HandsTo, IsOwed};
ghost use Rattle.zio_stages.specs.PartNodes.{IsFreshPart, IsMemberUnder, IsPartNodeOver, with_member};
ghost use Rattle.zio_stages.specs.PartOwns.{IsPartOwn, ShowsOwn, WrittenPart, part_plan};
ghost use Rattle.zio_stages.specs.PartWorks.{Front, HaveUnits, IsFront, IsMemberAt, IsMemberNext, IsNoLessFar, IsPartAt, IsPartOver, IsPlaced, IsToldAs, IsWritten, asks_left};
ghost use Rattle.zio_stages.specs.Tops.{AreTops};

use crate::family::{Family, Seat};
use crate::named::Named;
use crate::part_node::PartNode;
use crate::part_work::PartWork;
use crate::request_node::{DoneStep, ReadyStep};
use std::alloc::Global;
use zio_blkptr::Bp;
use zio_exchange::Services;
use zio_parts::{PartStep, StoredPart};
use zio_types::{ChildKind, NoMemory};

impl PartWork {
    /// Asks the space for the part's places, and for a header's where these are refused. Where memory is refused what
    /// was done before stays.
    pub(crate) fn dva_allocate<S: Services>(
        &mut self,
        alloc: Global,
        services: &mut S,
    ) -> Result<(), NoMemory>
        requires tops { AreTops (S.tops services.old) }
        requires units { HaveUnits (S.tops services.old) }
        ensures does { (calls : Seq SpaceCall) × S.made services.old calls services.new
            × ((t : Terms) (f : Front) (o : WrittenPart) (front : ℕ) (family : Seq Child) (st : Stack) →
            IsFront t f o front → IsPartAt t self.old family f o st →
            IsPartOver (S.tops services.old) self.old family → DoesThen t st calls (IsPartAt t self.new family f o))
            × AreAsks calls }
        ensures over { (family : Seq Child) → IsPartOver (S.tops services.old) self.old family
            → IsPartOver (S.tops services.old) self.new family }
        ensures tops { S.tops services.new ≡ S.tops services.old }
        ensures io { self.new.io ≡ self.old.io }
        ensures left { OnOk result (asks_left self.new.own.part.placing ≡ 0) }
        ensures members { self.new.own.part.members ≡ self.old.own.part.members }
        ensures path { self.new.own.part.path ≡ self.old.own.part.path }
    {
        let Ok(()) = self.place(alloc, services) else {
            return Err(NoMemory);
        };
        self.place(alloc, services)
    }

    /// Whether a member is to be handed out.
    pub(crate) fn is_member_due(&self) -> bool
        ensures due { result ≡ true → IsMemberNext (step_of self.now.own.part) }
        ensures none { result ≡ false → asks_left self.now.own.part.placing ≡ 0 → IsPlaced (step_of self.now.own.part) }
    {
        matches!(self.own.next(), PartStep::Member(_))
    }

    /// The gang's next member, which is due, and whose child was added; it holds its own bytes too. Where memory is
    /// refused all is as before.
    pub(crate) fn member(
        &mut self,
        alloc: Global,
        family: &mut Family,
        name: &Named,
        front: usize,
    ) -> Result<PartNode, NoMemory>
        requires over { (tops : Seq SeenTop) × IsPartOver tops self.old family.old }
        requires due { IsMemberNext (step_of self.old.own.part) }
        requires front { front < 2 ^ 63 }
        ensures hands { IfOk result (λ child. (t : Terms) (f : Front) (o : WrittenPart) (st : Stack) →
            IsFront t f o front → IsPartAt t self.old family.old f o st →
            HandsTo t Gang (IsFreshPart t child) (IsPartAt t self.new family.new f o) st) }
        ensures over { (tops : Seq SeenTop) → IsPartOver tops self.old family.old
            → IsPartOver tops self.new family.new }
        ensures child { IfOk result (λ child. (tops : Seq SeenTop) → IsPartNodeOver tops child) }
        ensures io { self.new.io ≡ self.old.io }
        ensures members { OnOk result (self.new.own.part.members ≡ with_member self.old.own.part.members) }
        ensures next { IfOk result (IsMemberUnder self.new.own.part) }
        ensures path { self.new.own.part.path ≡ self.old.own.part.path }
        ensures self_err { OnErr result (self.new ≡ self.old) }
        ensures family_err { OnErr result (family.new ≡ family.old) }
    {
        let PartStep::Member(n) = self.own.next() else {
            unreachable!()
        };
        let range = self.own.member_range(n);
        let bytes = self
            .bytes
            .part(alloc, range.start, range.end - range.start)?;
        let name = name.member(n as u8);
        let seat = Seat::Outer(front + 2 + n);
        family.add(ChildKind::Gang, seat, name.label(0))?;
        let own = self.own.hand_out_member(n, self.bytes.as_slice());
        Ok(PartNode::of(alloc, own, bytes, self.prio, name))
    }

    /// Whether it can tell its pointer, once its members were handed out.
    pub(crate) fn ready(&self) -> ReadyStep
        requires placed { IsPlaced (step_of self.now.own.part) }
        requires none { self.now.io ≡ None }
        ensures wait { (kind : ChildKind) → result ≡ ReadyStep.Wait kind →
            (t : Terms) (f : Front) (o : WrittenPart) (family : Seq Child) (st : Stack) →
            IsSeated st → IsPartAt t self.now family f o st → IsOwed kind Ready st × (kind ≡ Gang) }
        ensures kind { (kind : ChildKind) → result ≡ ReadyStep.Wait kind → kind ≡ Gang }
        ensures tell { (pointer : Option Bp) → result ≡ ReadyStep.Tell pointer →
            (t : Terms) (o : WrittenPart) (asked : Seq Task) (slots : Seq Slot) →
            IsPartOwn t self.now.own o asked slots →
            EndsAnswered (λ (v : Value). early v ≡ pointer) (told_in slots) (left_behind_slots slots (part_plan t o)) }
        ensures valid { (pointer : Option Bp) → result ≡ ReadyStep.Tell pointer
            → IfSome pointer (λ bp. IsTrue (valid bp)) }
        ensures ready { (pointer : Option Bp) → result ≡ ReadyStep.Tell pointer → is_ready self.now.own.part ≡ true }
    {
        match self.own.next() {
            PartStep::WaitReady => ReadyStep::Wait(ChildKind::Gang),
            _ => ReadyStep::Tell(self.own.pointer()),
        }
    }

    /// Whether it has ended, once its own write has or it has no place.
    pub(crate) fn done(&self) -> DoneStep
        requires { IsWritten self.now }
        ensures wait { (kind : ChildKind) → result ≡ DoneStep.Wait kind →
            (t : Terms) (f : Front) (o : WrittenPart) (family : Seq Child) (st : Stack) →
            IsSeated st → IsPartAt t self.now family f o st → IsOwed kind Done st × (kind ≡ Gang) }
        ensures close { result ≡ DoneStep.Close → ShowsOwn self.now.own PartStep.End }
    {
        match self.own.next() {
            PartStep::End => DoneStep::Close,
            PartStep::Wait => DoneStep::Wait(ChildKind::Gang),
            _ => unreachable!(),
        }
    }

    /// What it leaves, once it ended, which it holds no longer. Where memory is refused it is as before.
    pub(crate) fn take_stored(&mut self, alloc: Global) -> Result<StoredPart, NoMemory>
        requires end { ShowsOwn self.old.own PartStep.End }
        ensures valid { IfOk result (λ stored. IfSome stored.pointer (λ bp. IsTrue (valid bp))) }
        ensures kept { IfOk result (λ stored. IsKept stored.pointer stored.heads) }
        ensures exact { IfOk result (λ stored. stored_as stored ≡ stored_by self.old.own.part) }
        ensures ended { IfOk result (λ stored. (t : Terms) (o : WrittenPart) (asked : Seq Task) (slots : Seq Slot) →
            IsPartOwn t self.old.own o asked slots →
            AllHeard slots × (left_behind_slots slots (part_plan t o) ≡ Ends (StoredAs (stored_as stored)))) }
        ensures same { OnErr result (self.new ≡ self.old) }
    {
        self.own.take_stored(alloc)
    }

    /// A member told which pointer it will have.
    pub(crate) fn arrive_ready(
        &mut self,
        family: &mut Family,
        front: usize,
        child: usize,
        pointer: Option<Bp>,
    )
        requires member { IsMemberAt self.old family.old front child None }
        requires valid { IfSome pointer (λ bp. IsTrue (valid bp)) }
        ensures told { (t : Terms) (f : Front) (o : WrittenPart) (st : Stack) (c : Child) → length f.slots ≡ front →
            IsPartAt t self.old family.old f o st → slice_get st.children child ≡ Some c →
            IsPartAt t self.new family.new f o (heard_early st child c pointer) }
        ensures over { (tops : Seq SeenTop) → IsPartOver tops self.old family.old
            → IsPartOver tops self.new family.new }
        ensures io { self.new.io ≡ self.old.io }
        ensures own { self.new.own.part.own ≡ self.old.own.part.own }
        ensures placing { self.new.own.part.placing ≡ self.old.own.part.placing }
        ensures far { IsNoLessFar self.old.own.part self.new.own.part }
    {
        let n = family.seat(child).number() - front;
        self.own.hear_told(n, pointer);
        family.tell(child);
    }

    /// A member ended, with the pointer that it told if it told one.
    pub(crate) fn arrive_stored(
        &mut self,
        family: &mut Family,
        front: usize,
        child: usize,
        stored: StoredPart,
    )
        requires member { (told : Option (Option Bp)) × IsMemberAt self.old family.old front child told
            × IsToldAs stored.pointer told ×
            (told ≡ None → IfSome stored.pointer (λ bp. IsTrue (valid bp))) }
        requires kept { IsKept stored.pointer stored.heads }
        ensures heard { (t : Terms) (f : Front) (o : WrittenPart) (st : Stack) (c : Child) → length f.slots ≡ front →
            IsPartAt t self.old family.old f o st → slice_get st.children child ≡ Some c →
            IsPartAt t self.new family.new f o (heard_of st child c (StoredAs (stored_as stored))) }
        ensures over { (tops : Seq SeenTop) → IsPartOver tops self.old family.old
            → IsPartOver tops self.new family.new }
        ensures io { self.new.io ≡ self.old.io }
        ensures own { self.new.own.part.own ≡ self.old.own.part.own }
        ensures placing { self.new.own.part.placing ≡ self.old.own.part.placing }
        ensures far { IsNoLessFar self.old.own.part self.new.own.part }
    {
        let n = family.seat(child).number() - front;
        self.own.hear_member(n, stored);
        family.end(child);
    }
}
