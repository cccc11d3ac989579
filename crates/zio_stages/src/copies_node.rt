//! A node that reads a block's copies.

ghost use Rattle.std.specs.Prelude.{◌≡◌, ◌<◌, ◌∷◌, None, Ok, Some, [], false, true, IfOk, IfSome, OnErr, length, slice_get};
ghost use Rattle.zio_types.specs.declared.request.ChildKind.TheVariants.{Vdev};
ghost use Rattle.zio_types.specs.declared.request.Phase.TheVariants.{Done};
ghost use Rattle.zio_gang.specs.Attempts.{Terms};
ghost use Rattle.zio_trace.specs.Leaves.{Answer};
ghost use Rattle.zio_trace.specs.Tasks.{Got, ReadCopies};
ghost use Rattle.zio_frames.specs.Frames.{Child, Stack, fresh_stack};
ghost use Rattle.zio_frames.specs.Moves.{IsEnded, heard_of};
ghost use Rattle.zio_frames.specs.Seats.{IsSeated};
ghost use Rattle.zio_stages.specs.CopiesNodes.{IsCopiesNode, IsCopiesOver};
ghost use Rattle.zio_stages.specs.Labels.{part_label};
ghost use Rattle.zio_stages.specs.LeafWorks.{IsDue};
ghost use Rattle.zio_stages.specs.NodeChildren.{first_owing};
ghost use Rattle.zio_stages.specs.NodeIos.{IsAwaitedAt, IsReadDue, StartsBy, with_one};
ghost use Rattle.zio_stages.specs.ReadIos.{IsReadStep, has_failed};
ghost use Rattle.zio_stages.specs.WriteIos.{AreIoPlaces};

use crate::check::Check;
use crate::family::{Family, Layer};
use crate::leaf::LeafWork;
use crate::named::Named;
use crate::node_io::{IoNext, assess_read, hear_read, read_next, start_read};
use crate::read_io::ReadIo;
use crate::write_io::IoStep;
use std::alloc::Global;
use zio_exchange::Summed;
use zio_types::{Bytes, Errno, List, NoMemory, Place, Prio, ReqNo, Top};

/// A node that reads a block's copies, until one is good.
#[derive(Drop)]
pub struct CopiesNode {
    io: ReadIo,
    family: Family,
    name: Named,
}

impl CopiesNode {
    /// The read of this many bytes at one to three places, which are good by this check. Without memory; its children's
    /// is from `alloc`.
    pub fn new(
        alloc: Global,
        tops: &[Top],
        places: List<Place>,
        len: usize,
        repair: bool,
        check: Check,
        prio: Prio,
        name: Named,
    ) -> CopiesNode
        requires places { AreIoPlaces tops.now places }
        requires some { 0 < length places }
        ensures fresh { (t : Terms) → t.setting.tops ≡ tops.now →
            IsCopiesNode t result (fresh_stack (ReadCopies repair check len places)) }
        ensures over { IsCopiesOver tops.now result }
        ensures count { result.io.asked ≡ 0 }
    {
        CopiesNode {
            io: ReadIo::new(tops, places, len, repair, check, prio),
            family: Family::new(alloc),
            name,
        }
    }

    /// The number of the request for which it reads.
    pub fn request(&self) -> ReqNo
        ensures { result ≡ self.now.name.request }
    {
        self.name.request
    }

    /// The label of the node.
    pub fn label(&self) -> u64
        ensures { result ≡ part_label self.now.name self.now.io.read.len }
    {
        self.name.label(self.io.len())
    }

    /// Its children by number.
    pub fn family(&self) -> &Family
        ensures { result.now ≡ self.now.family }
    {
        &self.family
    }

    /// The next operation on a leaf, whose child was added, or none where none is due now. Where memory is refused the
    /// node is as before.
    pub fn vdev_io_start(
        &mut self,
        alloc: Global,
        tops: &[Top],
    ) -> Result<Option<LeafWork>, NoMemory>
        requires { IsCopiesOver tops.now self.old }
        ensures starts { IfOk result (λ leaf. (t : Terms) (st : Stack) → t.setting.tops ≡ tops.now →
            IsCopiesNode t self.old st → StartsBy t st leaf (IsCopiesNode t self.new)) }
        ensures due { IfOk result (λ leaf. IfSome leaf IsDue) }
        ensures count { IfOk result (λ leaf. self.new.io.asked ≡ with_one leaf self.old.io.asked) }
        ensures pass { self.new.io.read.retry ≡ self.old.io.read.retry }
        ensures none { result ≡ Ok None → IsReadStep tops.now self.new.io IoStep.Child → ⊥ }
        ensures same { result ≡ Ok None → self.new.io ≡ self.old.io }
        ensures over { IsCopiesOver tops.now self.new }
        ensures err { OnErr result (self.new ≡ self.old) }
    {
        start_read(
            &mut self.io,
            Layer::Own,
            &mut self.family,
            &self.name,
            alloc,
            tops,
        )
    }

    /// What is to be done once no operation on a leaf is due.
    pub fn vdev_io_done(&self, tops: &[Top]) -> IoNext
        requires { IsCopiesOver tops.now self.now }
        ensures waits { result ≡ IoNext.Wait → (t : Terms) (st : Stack) → t.setting.tops ≡ tops.now → IsSeated st →
            IsCopiesNode t self.now st → first_owing (Vdev ∷ []) Done st.children ≡ Some Vdev }
        ensures due { result ≡ IoNext.On → IsReadDue tops.now self.now.io }
        ensures more { result ≡ IoNext.More → IsReadStep tops.now self.now.io IoStep.Child }
    {
        read_next(&self.io, tops)
    }

    /// Whether no copy was good.
    pub fn has_failed(&self) -> bool
        ensures { result ≡ has_failed self.now.io }
    {
        self.io.has_failed()
    }

    /// The second pass begins if it is due, and this is true; else the read has ended.
    pub fn vdev_io_assess(&mut self, tops: &[Top]) -> bool
        requires over { IsCopiesOver tops.now self.old }
        requires due { IsReadDue tops.now self.old.io }
        ensures same { (t : Terms) (st : Stack) → t.setting.tops ≡ tops.now → IsCopiesNode t self.old st →
            IsCopiesNode t self.new st }
        ensures over { IsCopiesOver tops.now self.new }
        ensures ended { result ≡ false → IsReadStep tops.now self.new.io IoStep.End }
        ensures count { self.new.io.asked ≡ self.old.io.asked }
        ensures again { result ≡ true → (self.old.io.read.retry ≡ false) × (self.new.io.read.retry ≡ true) }
        ensures over_now { result ≡ false → self.new.io ≡ self.old.io }
    {
        assess_read(&mut self.io, Layer::Own, &self.family, tops)
    }

    /// A child has ended: with the bytes of its read, with none of a repair, or with an error.
    pub fn arrive(&mut self, tops: &[Top], child: usize, found: Result<Summed, Errno>)
        requires over { IsCopiesOver tops.now self.old }
        requires awaited { IsAwaitedAt Layer.Own self.old.family child }
        ensures heard { (t : Terms) (st : Stack) (c : Child) (a : Answer) → t.setting.tops ≡ tops.now → found ≡ a →
            slice_get st.children child ≡ Some c → IsCopiesNode t self.old st →
            IsCopiesNode t self.new (heard_of st child c (Got a)) }
        ensures over { IsCopiesOver tops.now self.new }
        ensures count { self.new.io.asked ≡ self.old.io.asked }
        ensures pass { self.new.io.read.retry ≡ self.old.io.read.retry }
    {
        hear_read(
            &mut self.io,
            Layer::Own,
            &mut self.family,
            tops,
            child,
            found,
        );
    }

    /// The good bytes or the error, where it ended.
    pub fn into_found(self, tops: &[Top]) -> Result<Bytes, Errno>
        requires over { IsCopiesOver tops.now self }
        requires ended { IsReadStep tops.now self.io IoStep.End }
        ensures { (t : Terms) (st : Stack) → t.setting.tops ≡ tops.now → IsCopiesNode t self st →
            IsEnded t st (Got result) }
    {
        let CopiesNode { io, .. } = self;
        io.into_found(tops)
    }
}
