//! A gang's member that is written, as a node.

ghost use Rattle.std.specs.Prelude.{◌≡◌, ◌∷◌, ◌*◌, ◌%◌, ◌+◌, ◌-◌, ◌^◌, ◌<◌, ◌≤◌, IfOk, IfSome, IsPermutation, IsTrue, List as Seq, None, OnErr, OnOk, Ok, Option, Some, [], false, length, slice_get, true};
ghost use Rattle.zio_types.specs.declared.place.Top.{Top as SeenTop};
ghost use Rattle.zio_types.specs.declared.request.ChildKind.TheVariants.{Gang, Vdev};
ghost use Rattle.zio_types.specs.declared.request.Phase.TheVariants.{Done, Ready};
ghost use Rattle.zio_blkptr.specs.Pointers.{valid};
ghost use Rattle.zio_gang.specs.Attempts.{Terms, writing_of};
ghost use Rattle.zio_trace.specs.Leaves.{Answer, error_of};
ghost use Rattle.zio_trace.specs.Tasks.{Got, StoredAs};
ghost use Rattle.zio_frames.specs.Frames.{Child, Stack, fresh_stack};
ghost use Rattle.zio_frames.specs.Moves.{IsEnded, WillHave, heard_early, heard_of};
ghost use Rattle.zio_frames.specs.Seats.{IsSeated};
ghost use Rattle.zio_parts.specs.Parts.{fresh_part, writing_by};
ghost use Rattle.zio_parts.specs.PartWrites.{is_due, is_ready, step_of};
ghost use Rattle.zio_parts.specs.declared.parts.OwnWrite.TheVariants.{Due};
ghost use Rattle.zio_parts.specs.declared.parts.Placing.TheVariants.{Body};
ghost use Rattle.zio_exchange.specs.Outcomes.{IsKept, held_by, stored_as, stored_in};
ghost use Rattle.zio_exchange.specs.SpaceCalls.{AreAsks, SpaceCall};
ghost use Rattle.zio_stages.specs.LeafWorks.{IsDue};
ghost use Rattle.zio_stages.specs.NodeChildren.{first_owing};
ghost use Rattle.zio_stages.specs.NodeIos.{IsWriteDue, StartsBy, with_one};
ghost use Rattle.zio_stages.specs.OwnParts.{DoesThen, HandsTo, IsOwed};
ghost use Rattle.zio_stages.specs.Labels.{part_label};
ghost use Rattle.zio_stages.specs.PartNodes.{HearsEarlyAt, HearsValueAt, IsAnsweredBy, IsFreshPart, IsMemberUnder, IsPartNode, IsPartNodeOver, IsStoredBy, with_member};
ghost use Rattle.zio_stages.specs.PartOwns.{IsPartOwn, ShowsOwn, WrittenPart, part_task};
ghost use Rattle.zio_stages.specs.PartWorks.{HaveUnits, IsIssued, IsMemberNext, IsMoreDue, IsNoLessFar, IsPlaced, IsWritten, asked_by, asks_left, is_second};
ghost use Rattle.zio_stages.specs.Tops.{AreTops};

use crate::family::Family;
use crate::leaf::LeafWork;
use crate::named::Named;
use crate::node_io::IoNext;
use crate::part::PartOwn;
use crate::part_work::PartWork;
use crate::request_node::{DoneStep, ReadyStep};
use std::alloc::Global;
use zio_blkptr::{BLOCK_SIZE_MAX, Bp};
use zio_exchange::Services;
use zio_parts::{BlockWrite, PartStep, StoredPart};
use zio_shared::Shared;
use zio_types::{Bytes, ChildKind, Errno, NoMemory, Path, Prio, ReqNo, Role, Top};

/// The write of a gang's member, which may become a gang itself.
#[derive(Drop)]
pub struct PartNode {
    pub(crate) work: PartWork,
    pub(crate) family: Family,
    pub(crate) name: Named,
}

impl PartNode {
    /// Nothing of it is done. Its children's memory is from `alloc`.
    pub(crate) fn of(
        alloc: Global,
        own: PartOwn,
        bytes: Shared,
        prio: Prio,
        name: Named,
    ) -> PartNode
        requires size { length bytes ≡ own.part.size }
        requires body { own.part.placing ≡ Body }
        requires due { own.part.own ≡ Due }
        ensures fresh { (t : Terms) (o : WrittenPart) → IsPartOwn t own o [] [] → o.bytes ≡ bytes
            → IsPartNode t result (fresh_stack (part_task o)) }
        ensures over { (tops : Seq SeenTop) → IsPartNodeOver tops result }
        ensures own { result.work.own ≡ own }
        ensures none { result.work.io ≡ None }
    {
        PartNode {
            work: PartWork {
                own,
                bytes,
                io: None,
                prio,
                role: Role::Body,
            },
            family: Family::new(alloc),
            name,
        }
    }

    /// Nothing of it is done. The bytes are whole sectors, no more than so many levels of headers below the path can
    /// hold. Its children's memory is from `alloc`.
    pub fn new(
        alloc: Global,
        write: BlockWrite,
        path: Path,
        bytes: Bytes,
        prio: Prio,
        name: Named,
    ) -> PartNode
        requires some { 0 < length bytes }
        requires whole { length bytes % 512 ≡ 0 }
        requires most { length bytes ≤ BLOCK_SIZE_MAX }
        requires deep { length bytes ≤ 512 * 3 ^ (8 - length path) }
        requires one { 1 ≤ write.copies }
        requires three { write.copies ≤ 3 }
        requires born { 1 ≤ write.birth }
        ensures fresh { (t : Terms) (o : WrittenPart) →
            writing_by t.setting write ≡ writing_of t o.attempt o.pending o.sum_kind o.copies →
            o.path ≡ path → o.bytes ≡ bytes → length path + o.levels ≡ 8
            → IsPartNode t result (fresh_stack (part_task o)) }
        ensures over { (tops : Seq SeenTop) → IsPartNodeOver tops result }
        ensures begun { result.work.own.part ≡ fresh_part write path bytes }
        ensures none { result.work.io ≡ None }
    {
        let own = PartOwn::new(write, path, bytes.as_slice());
        PartNode::of(alloc, own, Shared::alone(bytes), prio, name)
    }

    /// The number of the request for which it writes.
    pub fn request(&self) -> ReqNo
        ensures { result ≡ self.now.name.request }
    {
        self.name.request
    }

    /// The label of the node, which reads nothing.
    pub fn label(&self) -> u64
        ensures { result ≡ part_label self.now.name 0 }
    {
        self.name.label(0)
    }

    /// Its children by number.
    pub fn family(&self) -> &Family
        ensures { result.now ≡ self.now.family }
    {
        &self.family
    }

    /// Asks the space for the part's places, and for a header's where these are refused. Where memory is refused what
    /// was done before stays.
    pub fn dva_allocate<S: Services>(
        &mut self,
        alloc: Global,
        services: &mut S,
    ) -> Result<(), NoMemory>
        requires over { IsPartNodeOver (S.tops services.old) self.old }
        requires tops { AreTops (S.tops services.old) }
        requires units { HaveUnits (S.tops services.old) }
        ensures does { (calls : Seq SpaceCall) × S.made services.old calls services.new ×
            ((t : Terms) (st : Stack) → IsPartNode t self.old st
            → DoesThen t st calls (IsPartNode t self.new)) × AreAsks calls }
        ensures over { IsPartNodeOver (S.tops services.old) self.new }
        ensures tops { S.tops services.new ≡ S.tops services.old }
        ensures left { OnOk result (asks_left self.new.work.own.part.placing ≡ 0) }
        ensures members { self.new.work.own.part.members ≡ self.old.work.own.part.members }
        ensures path { self.new.work.own.part.path ≡ self.old.work.own.part.path }
        ensures io { self.new.work.io ≡ self.old.work.io }
    {
        self.work.dva_allocate(alloc, services)
    }

    /// Whether it is a gang of which a member is to be handed out.
    pub fn is_member_due(&self) -> bool
        ensures due { result ≡ true → IsMemberNext (step_of self.now.work.own.part) }
        ensures none { result ≡ false → asks_left self.now.work.own.part.placing ≡ 0
            → IsPlaced (step_of self.now.work.own.part) }
    {
        self.work.is_member_due()
    }

    /// Hands out the gang's next member, which is due. Where memory is refused the node is as before.
    pub fn next_member(&mut self, alloc: Global) -> Result<PartNode, NoMemory>
        requires over { (tops : Seq SeenTop) × IsPartNodeOver tops self.old }
        requires due { IsMemberNext (step_of self.old.work.own.part) }
        ensures hands { IfOk result (λ child. (t : Terms) (st : Stack) → IsPartNode t self.old st →
            HandsTo t Gang (IsFreshPart t child) (IsPartNode t self.new) st) }
        ensures over { (tops : Seq SeenTop) → IsPartNodeOver tops self.old → IsPartNodeOver tops self.new }
        ensures child { IfOk result (λ child. (tops : Seq SeenTop) → IsPartNodeOver tops child) }
        ensures members { OnOk result (self.new.work.own.part.members ≡ with_member self.old.work.own.part.members) }
        ensures next { IfOk result (IsMemberUnder self.new.work.own.part) }
        ensures path { self.new.work.own.part.path ≡ self.old.work.own.part.path }
        ensures io { self.new.work.io ≡ self.old.work.io }
        ensures err { OnErr result (self.new ≡ self.old) }
    {
        self.work.member(alloc, &mut self.family, &self.name, 0)
    }

    /// Whether it can tell its pointer, once its members were handed out.
    pub fn ready(&self) -> ReadyStep
        requires placed { IsPlaced (step_of self.now.work.own.part) }
        requires none { self.now.work.io ≡ None }
        ensures wait { (kind : ChildKind) → result ≡ ReadyStep.Wait kind → (t : Terms) (st : Stack) → IsSeated st →
            IsPartNode t self.now st →
            IsOwed kind Ready st }
        ensures kind { (kind : ChildKind) → result ≡ ReadyStep.Wait kind → kind ≡ ChildKind.Gang }
        ensures tell { (pointer : Option Bp) → result ≡ ReadyStep.Tell pointer → (t : Terms) (st : Stack) →
            IsPartNode t self.now st →
            WillHave t st.outer pointer }
        ensures valid { (pointer : Option Bp) → result ≡ ReadyStep.Tell pointer
            → IfSome pointer (λ bp. IsTrue (valid bp)) }
        ensures ready { (pointer : Option Bp) → result ≡ ReadyStep.Tell pointer
            → is_ready self.now.work.own.part ≡ true }
    {
        self.work.ready()
    }

    /// The next operation on a leaf of its own write, which begins if it is due; none where none is due now. Where
    /// memory is refused its own write may have begun.
    pub fn vdev_io_start(
        &mut self,
        alloc: Global,
        tops: &[Top],
    ) -> Result<Option<LeafWork>, NoMemory>
        requires over { IsPartNodeOver tops.now self.old }
        ensures starts { IfOk result (λ leaf. (t : Terms) (st : Stack) → t.setting.tops ≡ tops.now →
            IsPartNode t self.old st →
            DoesThen t st [] (λ mid. StartsBy t mid leaf (IsPartNode t self.new))) }
        ensures err { OnErr result ((t : Terms) (st : Stack) → IsPartNode t self.old st
            → DoesThen t st [] (IsPartNode t self.new)) }
        ensures over { IsPartNodeOver tops.now self.new }
        ensures due { IfOk result (λ leaf. IfSome leaf IsDue) }
        ensures far { IsNoLessFar self.old.work.own.part self.new.work.own.part }
        ensures issued { OnOk result (is_ready self.old.work.own.part ≡ true → IsIssued self.new.work.own.part) }
        ensures count { IfOk result (λ leaf. asked_by self.new.work.io ≡ with_one leaf (asked_by self.old.work.io)) }
        ensures pass { is_second self.new.work.io ≡ is_second self.old.work.io }
        ensures none { result ≡ Ok None → IsMoreDue tops.now self.new.work.io → ⊥ }
    {
        self.work
            .vdev_io_start(&mut self.family, &self.name, alloc, tops)
    }

    /// What is to be done once no operation on a leaf is due.
    pub fn vdev_io_done(&self, tops: &[Top]) -> IoNext
        requires { IsPartNodeOver tops.now self.now }
        ensures waits { result ≡ IoNext.Wait → (t : Terms) (st : Stack) → t.setting.tops ≡ tops.now → IsSeated st →
            IsPartNode t self.now st →
            first_owing (Vdev ∷ []) Done st.children ≡ Some Vdev }
        ensures due { result ≡ IoNext.On → IfSome self.now.work.io (IsWriteDue tops.now) }
        ensures more { result ≡ IoNext.More → IsMoreDue tops.now self.now.work.io }
    {
        self.work.vdev_io_done(&self.family, tops)
    }

    /// The second pass of its own write begins if it is due, and this is true; else that has ended.
    pub fn vdev_io_assess(&mut self, tops: &[Top]) -> bool
        requires over { IsPartNodeOver tops.now self.old }
        requires due { IfSome self.old.work.io (IsWriteDue tops.now) }
        ensures does { (t : Terms) (st : Stack) → t.setting.tops ≡ tops.now → IsPartNode t self.old st
            → DoesThen t st [] (IsPartNode t self.new) }
        ensures over { IsPartNodeOver tops.now self.new }
        ensures none { result ≡ false → self.new.work.io ≡ None }
        ensures written { is_due self.old.work.own.part.own ≡ false → is_due self.new.work.own.part.own ≡ false }
        ensures placing { self.new.work.own.part.placing ≡ self.old.work.own.part.placing }
        ensures far { IsNoLessFar self.old.work.own.part self.new.work.own.part }
        ensures count { result ≡ true → asked_by self.new.work.io ≡ asked_by self.old.work.io }
        ensures again { result ≡ true → (is_second self.old.work.io ≡ false) × (is_second self.new.work.io ≡ true) }
    {
        self.work.vdev_io_assess(&self.family, tops)
    }

    /// Whether it has ended, once its own write has or it has no place.
    pub fn done(&self) -> DoneStep
        requires { IsWritten self.now.work }
        ensures wait { (kind : ChildKind) → result ≡ DoneStep.Wait kind → (t : Terms) (st : Stack) → IsSeated st →
            IsPartNode t self.now st →
            IsOwed kind Done st }
        ensures close { result ≡ DoneStep.Close → ShowsOwn self.now.work.own PartStep.End }
    {
        self.work.done()
    }

    /// What it leaves, once it ended, which it holds no longer. Where memory is refused it is as before.
    pub fn take_stored(&mut self, alloc: Global) -> Result<StoredPart, NoMemory>
        requires end { ShowsOwn self.old.work.own PartStep.End }
        requires none { self.old.work.io ≡ None }
        ensures ended { IfOk result (λ stored. (t : Terms) (st : Stack) → IsPartNode t self.old st
            → IsEnded t st (StoredAs (stored_as stored))) }
        ensures kept { IfOk result (λ stored. IsKept stored.pointer stored.heads) }
        ensures places { IfOk result (λ stored. (t : Terms) (st : Stack) → IsPartNode t self.old st →
            IsPermutation (held_by st) (stored_in (StoredAs (stored_as stored)))) }
        ensures same { OnErr result (self.new ≡ self.old) }
    {
        self.work.take_stored(alloc)
    }

    /// A member told which pointer it will have.
    pub fn arrive_ready(&mut self, child: usize, pointer: Option<Bp>)
        requires hears { HearsEarlyAt self.old child }
        requires valid { IfSome pointer (λ bp. IsTrue (valid bp)) }
        ensures told { (t : Terms) (st : Stack) (c : Child) → IsPartNode t self.old st →
            slice_get st.children child ≡ Some c →
            IsPartNode t self.new (heard_early st child c pointer) }
        ensures over { (tops : Seq SeenTop) → IsPartNodeOver tops self.old → IsPartNodeOver tops self.new }
        ensures io { self.new.work.io ≡ self.old.work.io }
        ensures own { self.new.work.own.part.own ≡ self.old.work.own.part.own }
        ensures placing { self.new.work.own.part.placing ≡ self.old.work.own.part.placing }
        ensures far { IsNoLessFar self.old.work.own.part self.new.work.own.part }
    {
        self.work.arrive_ready(&mut self.family, 0, child, pointer);
    }

    /// A member ended.
    pub fn arrive_stored(&mut self, child: usize, stored: StoredPart)
        requires { HearsValueAt (IsStoredBy stored) self.old child }
        ensures heard { (t : Terms) (st : Stack) (c : Child) → IsPartNode t self.old st →
            slice_get st.children child ≡ Some c →
            IsPartNode t self.new (heard_of st child c (StoredAs (stored_as stored))) }
        ensures over { (tops : Seq SeenTop) → IsPartNodeOver tops self.old → IsPartNodeOver tops self.new }
        ensures io { self.new.work.io ≡ self.old.work.io }
        ensures own { self.new.work.own.part.own ≡ self.old.work.own.part.own }
        ensures placing { self.new.work.own.part.placing ≡ self.old.work.own.part.placing }
        ensures far { IsNoLessFar self.old.work.own.part self.new.work.own.part }
    {
        self.work.arrive_stored(&mut self.family, 0, child, stored);
    }

    /// A child of its own write has ended, with this error or none.
    pub fn arrive_leaf(&mut self, child: usize, error: Option<Errno>)
        requires over { (tops : Seq SeenTop) × IsPartNodeOver tops self.old }
        requires hears { HearsValueAt (IsAnsweredBy error) self.old child }
        ensures heard { (t : Terms) (st : Stack) (c : Child) (a : Answer) → error_of a ≡ error →
            slice_get st.children child ≡ Some c →
            IsPartNode t self.old st → IsPartNode t self.new (heard_of st child c (Got a)) }
        ensures over { (tops : Seq SeenTop) → IsPartNodeOver tops self.old → IsPartNodeOver tops self.new }
        ensures own { self.new.work.own ≡ self.old.work.own }
        ensures out { (tops : Seq SeenTop) → IfSome self.old.work.io (IsWriteDue tops) → ⊥ }
        ensures count { asked_by self.new.work.io ≡ asked_by self.old.work.io }
        ensures pass { is_second self.new.work.io ≡ is_second self.old.work.io }
    {
        self.work.arrive_leaf(&mut self.family, child, error);
    }
}
