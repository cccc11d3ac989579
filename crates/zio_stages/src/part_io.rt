// The own write of a part that is written: of its body or its header, by operations on leaves.

ghost use Rattle.std.specs.Prelude.{◌≡◌, ◌∷◌, ℕ, IfOk, IfSome, List as Seq, None, Ok, OnErr, OnOk, Some, [], false, slice_get, true};
ghost use Rattle.zio_types.specs.declared.place.Top.{Top as SeenTop};
ghost use Rattle.zio_types.specs.declared.request.ChildKind.TheVariants.{Vdev};
ghost use Rattle.zio_types.specs.declared.request.Phase.TheVariants.{Done};
ghost use Rattle.zio_gang.specs.Attempts.{Terms};
ghost use Rattle.zio_trace.specs.Leaves.{Answer, error_of};
ghost use Rattle.zio_trace.specs.Tasks.{Got};
ghost use Rattle.zio_frames.specs.Frames.{Child, Stack};
ghost use Rattle.zio_frames.specs.Moves.{heard_of};
ghost use Rattle.zio_frames.specs.Seats.{IsSeated};
ghost use Rattle.zio_parts.specs.PartWrites.{is_due, is_ready};
ghost use Rattle.zio_stages.specs.LeafWorks.{IsDue};
ghost use Rattle.zio_stages.specs.NodeChildren.{first_owing};
ghost use Rattle.zio_stages.specs.NodeIos.{IsAwaitedAt, IsWriteDue, StartsBy, with_one};
ghost use Rattle.zio_stages.specs.OwnParts.{DoesThen};
ghost use Rattle.zio_stages.specs.PartOwns.{ShowsOwn, WrittenPart};
ghost use Rattle.zio_stages.specs.PartWorks.{Front, IsFront, IsIssued, IsMoreDue, IsNoLessFar, IsPartAt, IsPartOver, asked_by, is_second};
ghost use Rattle.zio_stages.specs.declared.family.Layer.TheVariants.{Within};

use crate::family::{Family, Layer};
use crate::leaf::LeafWork;
use crate::named::Named;
use crate::node_io::{IoNext, assess_write, hear_write, start_write, write_next};
use crate::part_work::{PartWork, filled};
use crate::write_io::WriteIo;
use std::alloc::Global;
use zio_parts::PartStep;
use zio_shared::Shared;
use zio_types::{Errno, List, NoMemory, Role, Top};

impl PartWork {
    /// The next operation on a leaf of its own write, which begins if it is due; none where none is due now. Where
    /// memory is refused its own write may have begun.
    pub(crate) fn vdev_io_start(
        &mut self,
        family: &mut Family,
        name: &Named,
        alloc: Global,
        tops: &[Top],
    ) -> Result<Option<LeafWork>, NoMemory>
        requires over { IsPartOver tops.now self.old family.old }
        ensures starts { IfOk result (λ leaf. (t : Terms) (f : Front) (o : WrittenPart) (front : ℕ) (st : Stack) →
            t.setting.tops ≡ tops.now →
            IsFront t f o front → IsPartAt t self.old family.old f o st →
            DoesThen t st [] (λ mid. StartsBy t mid leaf (IsPartAt t self.new family.new f o))) }
        ensures err { OnErr result ((t : Terms) (f : Front) (o : WrittenPart) (front : ℕ) (st : Stack) →
            IsFront t f o front →
            IsPartAt t self.old family.old f o st → DoesThen t st [] (IsPartAt t self.new family.new f o)) }
        ensures over { IsPartOver tops.now self.new family.new }
        ensures due { IfOk result (λ leaf. IfSome leaf IsDue) }
        ensures far { IsNoLessFar self.old.own.part self.new.own.part }
        ensures issued { OnOk result (is_ready self.old.own.part ≡ true → IsIssued self.new.own.part) }
        ensures count { IfOk result (λ leaf. asked_by self.new.io ≡ with_one leaf (asked_by self.old.io)) }
        ensures pass { is_second self.new.io ≡ is_second self.old.io }
        ensures none { result ≡ Ok None → IsMoreDue tops.now self.new.io → ⊥ }
    {
        self.begin(alloc)?;
        self.next_leaf(family, name, alloc, tops)
    }

    /// Its own write begins, if it is due: as the part within.
    fn begin(&mut self, alloc: Global) -> Result<(), NoMemory>
        ensures does { (t : Terms) (f : Front) (o : WrittenPart) (front : ℕ) (family : Seq Child) (st : Stack) →
            IsFront t f o front →
            IsPartAt t self.old family f o st → DoesThen t st [] (IsPartAt t self.new family f o) }
        ensures over { (tops : Seq SeenTop) (family : Seq Child) → IsPartOver tops self.old family
            → IsPartOver tops self.new family }
        ensures far { IsNoLessFar self.old.own.part self.new.own.part }
        ensures issued { OnOk result ((tops : Seq SeenTop) (family : Seq Child) → IsPartOver tops self.old family →
            is_ready self.old.own.part ≡ true → IsIssued self.new.own.part) }
        ensures count { asked_by self.new.io ≡ asked_by self.old.io }
        ensures pass { is_second self.new.io ≡ is_second self.old.io }
    {
        if self.io.is_some() {
            return Ok(());
        }
        match self.own.next() {
            PartStep::WriteBody => self.begin_body(alloc),
            PartStep::WriteHeader => self.begin_header(alloc),
            _ => Ok(()),
        }
    }

    fn begin_body(&mut self, alloc: Global) -> Result<(), NoMemory>
        requires next { ShowsOwn self.old.own PartStep.WriteBody }
        requires none { self.old.io ≡ None }
        ensures does { (t : Terms) (f : Front) (o : WrittenPart) (front : ℕ) (family : Seq Child) (st : Stack) →
            IsFront t f o front →
            IsPartAt t self.old family f o st → DoesThen t st [] (IsPartAt t self.new family f o) }
        ensures over { (tops : Seq SeenTop) (family : Seq Child) → IsPartOver tops self.old family
            → IsPartOver tops self.new family }
        ensures far { IsNoLessFar self.old.own.part self.new.own.part }
        ensures issued { OnOk result (IsIssued self.new.own.part) }
        ensures count { asked_by self.new.io ≡ 0 }
        ensures pass { is_second self.new.io ≡ false }
    {
        let places = Vec::from_slice(alloc, self.own.places())?;
        self.own.hand_out_body();
        self.io = Some(WriteIo::new(List::from_vec(places), self.prio));
        Ok(())
    }

    fn begin_header(&mut self, alloc: Global) -> Result<(), NoMemory>
        requires next { ShowsOwn self.old.own PartStep.WriteHeader }
        requires none { self.old.io ≡ None }
        ensures does { (t : Terms) (f : Front) (o : WrittenPart) (front : ℕ) (family : Seq Child) (st : Stack) →
            IsFront t f o front →
            IsPartAt t self.old family f o st → DoesThen t st [] (IsPartAt t self.new family f o) }
        ensures over { (tops : Seq SeenTop) (family : Seq Child) → IsPartOver tops self.old family
            → IsPartOver tops self.new family }
        ensures far { IsNoLessFar self.old.own.part self.new.own.part }
        ensures issued { OnOk result (IsIssued self.new.own.part) }
        ensures count { asked_by self.new.io ≡ 0 }
        ensures pass { is_second self.new.io ≡ false }
    {
        let places = Vec::from_slice(alloc, self.own.places())?;
        let room = Vec::with_capacity(alloc, 512)?;
        let header = self.own.hand_out_header();
        self.bytes = Shared::alone(filled(room, &header));
        self.io = Some(WriteIo::new(List::from_vec(places), self.prio));
        self.role = Role::Head;
        Ok(())
    }

    /// The next operation of its own write, if that has begun. Where memory is refused all is as before.
    fn next_leaf(
        &mut self,
        family: &mut Family,
        name: &Named,
        alloc: Global,
        tops: &[Top],
    ) -> Result<Option<LeafWork>, NoMemory>
        requires over { IsPartOver tops.now self.old family.old }
        ensures starts { IfOk result (λ leaf. (t : Terms) (f : Front) (o : WrittenPart) (st : Stack) →
            t.setting.tops ≡ tops.now →
            IsPartAt t self.old family.old f o st → StartsBy t st leaf (IsPartAt t self.new family.new f o)) }
        ensures err { OnErr result ((t : Terms) (f : Front) (o : WrittenPart) (st : Stack) →
            IsPartAt t self.old family.old f o st → IsPartAt t self.new family.new f o st) }
        ensures over { IsPartOver tops.now self.new family.new }
        ensures due { IfOk result (λ leaf. IfSome leaf IsDue) }
        ensures own { self.new.own ≡ self.old.own }
        ensures count { IfOk result (λ leaf. asked_by self.new.io ≡ with_one leaf (asked_by self.old.io)) }
        ensures pass { is_second self.new.io ≡ is_second self.old.io }
        ensures none { result ≡ Ok None → IsMoreDue tops.now self.new.io → ⊥ }
    {
        let Some(mut io) = self.io.take() else {
            return Ok(None);
        };
        let name = name.with_role(self.role);
        let leaf = start_write(
            &mut io,
            &mut self.bytes,
            Layer::Within,
            family,
            &name,
            alloc,
            tops,
        );
        self.io = Some(io);
        leaf
    }

    /// What is to be done once no operation on a leaf is due.
    pub(crate) fn vdev_io_done(&self, family: &Family, tops: &[Top]) -> IoNext
        requires { IsPartOver tops.now self.now family.now }
        ensures waits { result ≡ IoNext.Wait → (t : Terms) (f : Front) (o : WrittenPart) (st : Stack) →
            t.setting.tops ≡ tops.now → IsSeated st →
            IsPartAt t self.now family.now f o st → first_owing (Vdev ∷ []) Done st.children ≡ Some Vdev }
        ensures due { result ≡ IoNext.On → IfSome self.now.io (IsWriteDue tops.now) }
        ensures more { result ≡ IoNext.More → IsMoreDue tops.now self.now.io }
    {
        match &self.io {
            Some(io) => write_next(io, tops),
            None => IoNext::On,
        }
    }

    /// The second pass of its own write begins if it is due, and this is true; else that has ended.
    pub(crate) fn vdev_io_assess(&mut self, family: &Family, tops: &[Top]) -> bool
        requires over { IsPartOver tops.now self.old family.now }
        requires due { IfSome self.old.io (IsWriteDue tops.now) }
        ensures does { (t : Terms) (f : Front) (o : WrittenPart) (st : Stack) → t.setting.tops ≡ tops.now →
            IsPartAt t self.old family.now f o st → DoesThen t st [] (IsPartAt t self.new family.now f o) }
        ensures over { IsPartOver tops.now self.new family.now }
        ensures none { result ≡ false → self.new.io ≡ None }
        ensures written { is_due self.old.own.part.own ≡ false → is_due self.new.own.part.own ≡ false }
        ensures placing { self.new.own.part.placing ≡ self.old.own.part.placing }
        ensures far { IsNoLessFar self.old.own.part self.new.own.part }
        ensures count { result ≡ true → asked_by self.new.io ≡ asked_by self.old.io }
        ensures again { result ≡ true → (is_second self.old.io ≡ false) × (is_second self.new.io ≡ true) }
    {
        let Some(mut io) = self.io.take() else {
            return false;
        };
        if assess_write(&mut io, Layer::Within, family, tops) {
            self.io = Some(io);
            return true;
        }
        let error = io.error(tops);
        self.own.hear_written(error);
        false
    }

    /// A child of its own write has ended, with this error or none.
    pub(crate) fn arrive_leaf(&mut self, family: &mut Family, child: usize, error: Option<Errno>)
        requires over { (tops : Seq SeenTop) × IsPartOver tops self.old family.old }
        requires awaited { IsAwaitedAt Within family.old child }
        ensures heard { (t : Terms) (f : Front) (o : WrittenPart) (st : Stack) (c : Child) (a : Answer) →
            error_of a ≡ error →
            slice_get st.children child ≡ Some c → IsPartAt t self.old family.old f o st →
            IsPartAt t self.new family.new f o (heard_of st child c (Got a)) }
        ensures over { (tops : Seq SeenTop) → IsPartOver tops self.old family.old
            → IsPartOver tops self.new family.new }
        ensures own { self.new.own ≡ self.old.own }
        ensures out { (tops : Seq SeenTop) → IfSome self.old.io (IsWriteDue tops) → ⊥ }
        ensures count { asked_by self.new.io ≡ asked_by self.old.io }
        ensures pass { is_second self.new.io ≡ is_second self.old.io }
    {
        let Some(mut io) = self.io.take() else {
            unreachable!()
        };
        hear_write(&mut io, Layer::Within, family, child, error);
        self.io = Some(io);
    }
}
