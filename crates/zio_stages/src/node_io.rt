// The operations on leaves of a node that reads or writes a block's copies, as its own part or as the part within that.

ghost use Rattle.std.specs.Prelude.{◌≡◌, ◌+◌, ◌<◌, ◌∷◌, ℕ, List, None, Ok, Some, [], false, true, IfOk, IfSome, OnErr, length, slice_get, slice_set};
ghost use Rattle.zio_types.specs.declared.place.Top.{Top as SeenTop};
ghost use Rattle.zio_types.specs.declared.request.ChildKind.TheVariants.{Vdev};
ghost use Rattle.zio_types.specs.declared.request.Phase.TheVariants.{Done};
ghost use Rattle.zio_gang.specs.Attempts.{Terms};
ghost use Rattle.zio_trace.specs.Leaves.{Answer, error_of};
ghost use Rattle.zio_trace.specs.Tasks.{Got};
ghost use Rattle.zio_frames.specs.Frames.{Child, Stack};
ghost use Rattle.zio_frames.specs.Moves.{child_ended, heard_of};
ghost use Rattle.zio_frames.specs.Seats.{IsSeated};
ghost use Rattle.zio_stages.specs.LeafWorks.{IsDue};
ghost use Rattle.zio_stages.specs.NodeChildren.{first_owing};
ghost use Rattle.zio_stages.specs.NodeIos.{
  IsAwaitedAt,
  IsReadAt,
  IsReadDue,
  IsWriteAt,
  IsWriteDue,
  SitsOn,
  StartsBy,
  with_leaf,
};
ghost use Rattle.zio_stages.specs.ReadIos.{IsReadOutIn, IsReadOver, IsReadStep};
ghost use Rattle.zio_stages.specs.WriteIos.{IsOutIn, IsWriteOver, IsWriteStep};
ghost use Rattle.zio_stages.specs.declared.family.Layer.{Layer as SeenLayer};

use crate::family::{Family, Layer};
use crate::leaf::LeafWork;
use crate::named::Named;
use crate::read_io::ReadIo;
use crate::write_io::{IoStep, WriteIo};
use std::alloc::Global;
use zio_exchange::Summed;
use zio_shared::Shared;
use zio_types::{ChildKind, Errno, NoMemory, Top};

/// What a read or a write is to do once nothing more of it can be handed out now.
#[derive(Clone, Copy, Debug, PartialEq, Eq)]
pub enum IoNext {
    /// To wait until a vdev child ends.
    Wait,
    /// To hand out more: another copy, or a repair.
    More,
    /// To go on: all that was asked has ended.
    On,
}

/// Hands the read's next operation to a child, where one is due now. Where memory is refused all is as before.
pub(crate) fn start_read(
    io: &mut ReadIo,
    layer: Layer,
    family: &mut Family,
    name: &Named,
    alloc: Global,
    tops: &[Top],
) -> Result<Option<LeafWork>, NoMemory>
    requires over { IsReadOver tops.now io.old }
    requires sits { SitsOn layer (IsReadOutIn io.old) family.old }
    ensures starts { IfOk result (λ leaf. (t : Terms) (st : Stack) → t.setting.tops ≡ tops.now →
        IsReadAt t layer io.old family.old st → StartsBy t st leaf (IsReadAt t layer io.new family.new)) }
    ensures over { IsReadOver tops.now io.new }
    ensures sits { SitsOn layer (IsReadOutIn io.new) family.new }
    ensures due { IfOk result (λ leaf. IfSome leaf IsDue) }
    ensures children { IfOk result (λ leaf. family.new ≡ with_leaf layer io.old.asked leaf family.old) }
    ensures count { length family.new + io.old.asked ≡ length family.old + io.new.asked }
    ensures pass { io.new.read.retry ≡ io.old.read.retry }
    ensures none { result ≡ Ok None → IsReadStep tops.now io.new IoStep.Child → ⊥ }
    ensures same { result ≡ Ok None → io.new ≡ io.old }
    ensures io_err { OnErr result (io.new ≡ io.old) }
    ensures family_err { OnErr result (family.new ≡ family.old) }
{
    let IoStep::Child = io.next(tops) else {
        return Ok(None);
    };
    let leaf = io.next_leaf(alloc, tops, name)?;
    let seat = layer.seat(io.asked());
    family.add(ChildKind::Vdev, seat, leaf.label())?;
    io.hand_out(tops);
    Ok(Some(leaf))
}

/// What the read is to do now.
pub(crate) fn read_next(io: &ReadIo, tops: &[Top]) -> IoNext
    requires { IsReadOver tops.now io.now }
    ensures waits { result ≡ IoNext.Wait → (t : Terms) (layer : SeenLayer) (family : List Child) (st : Stack) →
        t.setting.tops ≡ tops.now → IsSeated st → IsReadAt t layer io.now family st →
        first_owing (Vdev ∷ []) Done family ≡ Some Vdev }
    ensures due { result ≡ IoNext.On → IsReadDue tops.now io.now }
    ensures more { result ≡ IoNext.More → IsReadStep tops.now io.now IoStep.Child }
{
    match io.next(tops) {
        IoStep::Child => IoNext::More,
        IoStep::Wait => IoNext::Wait,
        IoStep::Retry => IoNext::On,
        IoStep::End => IoNext::On,
    }
}

/// The second pass of the read begins if it is due, and this is true; else the read has ended.
pub(crate) fn assess_read(io: &mut ReadIo, layer: Layer, family: &Family, tops: &[Top]) -> bool
    requires over { IsReadOver tops.now io.old }
    requires sits { SitsOn layer (IsReadOutIn io.old) family.now }
    requires due { IsReadDue tops.now io.old }
    ensures same { (t : Terms) (st : Stack) → t.setting.tops ≡ tops.now → IsReadAt t layer io.old family.now st →
        IsReadAt t layer io.new family.now st }
    ensures over { IsReadOver tops.now io.new }
    ensures sits { SitsOn layer (IsReadOutIn io.new) family.now }
    ensures ended { result ≡ false → IsReadStep tops.now io.new IoStep.End }
    ensures count { io.new.asked ≡ io.old.asked }
    ensures again { result ≡ true → (io.old.read.retry ≡ false) × (io.new.read.retry ≡ true) }
    ensures over_now { result ≡ false → io.new ≡ io.old }
{
    match io.next(tops) {
        IoStep::Retry => {
            io.begin_retry(tops);
            true
        }
        IoStep::End => false,
        IoStep::Child | IoStep::Wait => unreachable!(),
    }
}

/// A vdev child of the read has ended: with the bytes of its read, with none of a repair, or with an error.
pub(crate) fn hear_read(
    io: &mut ReadIo,
    layer: Layer,
    family: &mut Family,
    tops: &[Top],
    child: usize,
    found: Result<Summed, Errno>,
)
    requires over { IsReadOver tops.now io.old }
    requires sits { SitsOn layer (IsReadOutIn io.old) family.old }
    requires awaited { IsAwaitedAt layer family.old child }
    ensures heard { (t : Terms) (st : Stack) (c : Child) (a : Answer) → t.setting.tops ≡ tops.now → found ≡ a →
        slice_get st.children child ≡ Some c → IsReadAt t layer io.old family.old st →
        IsReadAt t layer io.new family.new (heard_of st child c (Got a)) }
    ensures over { IsReadOver tops.now io.new }
    ensures sits { SitsOn layer (IsReadOutIn io.new) family.new }
    ensures children { IfSome (slice_get family.old child) (λ (c : Child). family.new
        ≡ slice_set family.old child (child_ended c)) }
    ensures count { io.new.asked ≡ io.old.asked }
    ensures pass { io.new.read.retry ≡ io.old.read.retry }
{
    let n = family.seat(child).number();
    io.hear(tops, n, found);
    family.end(child);
}

/// Hands the write's next operation to a child, where one is due now. Where memory is refused all is as before.
pub(crate) fn start_write(
    io: &mut WriteIo,
    bytes: &mut Shared,
    layer: Layer,
    family: &mut Family,
    name: &Named,
    alloc: Global,
    tops: &[Top],
) -> Result<Option<LeafWork>, NoMemory>
    requires over { IsWriteOver tops.now io.old }
    requires sits { SitsOn layer (IsOutIn io.old) family.old }
    ensures starts { IfOk result (λ leaf. (t : Terms) (st : Stack) → t.setting.tops ≡ tops.now →
        IsWriteAt t bytes.old layer io.old family.old st →
        StartsBy t st leaf (IsWriteAt t bytes.old layer io.new family.new)) }
    ensures over { IsWriteOver tops.now io.new }
    ensures sits { SitsOn layer (IsOutIn io.new) family.new }
    ensures due { IfOk result (λ leaf. IfSome leaf IsDue) }
    ensures children { IfOk result (λ leaf. family.new ≡ with_leaf layer io.old.asked leaf family.old) }
    ensures count { length family.new + io.old.asked ≡ length family.old + io.new.asked }
    ensures pass { io.new.write.retry ≡ io.old.write.retry }
    ensures none { result ≡ Ok None → IsWriteStep tops.now io.new IoStep.Child → ⊥ }
    ensures bytes { bytes.new ≡ bytes.old }
    ensures io_err { OnErr result (io.new ≡ io.old) }
    ensures family_err { OnErr result (family.new ≡ family.old) }
{
    let IoStep::Child = io.next(tops) else {
        return Ok(None);
    };
    let leaf = io.next_leaf(alloc, tops, name, bytes)?;
    let seat = layer.seat(io.asked());
    family.add(ChildKind::Vdev, seat, leaf.label())?;
    io.hand_out(tops);
    Ok(Some(leaf))
}

/// What the write is to do now.
pub(crate) fn write_next(io: &WriteIo, tops: &[Top]) -> IoNext
    requires { IsWriteOver tops.now io.now }
    ensures waits { result ≡ IoNext.Wait →
        (t : Terms) (bytes : List ℕ) (layer : SeenLayer) (family : List Child) (st : Stack) →
        t.setting.tops ≡ tops.now → IsSeated st → IsWriteAt t bytes layer io.now family st →
        first_owing (Vdev ∷ []) Done family ≡ Some Vdev }
    ensures due { result ≡ IoNext.On → IsWriteDue tops.now io.now }
    ensures more { result ≡ IoNext.More → IsWriteStep tops.now io.now IoStep.Child }
{
    match io.next(tops) {
        IoStep::Child => IoNext::More,
        IoStep::Wait => IoNext::Wait,
        IoStep::Retry => IoNext::On,
        IoStep::End => IoNext::On,
    }
}

/// The second pass of the write begins if it is due, and this is true; else the write has ended.
pub(crate) fn assess_write(io: &mut WriteIo, layer: Layer, family: &Family, tops: &[Top]) -> bool
    requires over { IsWriteOver tops.now io.old }
    requires sits { SitsOn layer (IsOutIn io.old) family.now }
    requires due { IsWriteDue tops.now io.old }
    ensures same { (t : Terms) (bytes : List ℕ) (st : Stack) → t.setting.tops ≡ tops.now →
        IsWriteAt t bytes layer io.old family.now st → IsWriteAt t bytes layer io.new family.now st }
    ensures over { IsWriteOver tops.now io.new }
    ensures sits { SitsOn layer (IsOutIn io.new) family.now }
    ensures ended { result ≡ false → IsWriteStep tops.now io.new IoStep.End }
    ensures count { io.new.asked ≡ io.old.asked }
    ensures again { result ≡ true → (io.old.write.retry ≡ false) × (io.new.write.retry ≡ true) }
    ensures over_now { result ≡ false → io.new ≡ io.old }
{
    match io.next(tops) {
        IoStep::Retry => {
            io.begin_retry(tops);
            true
        }
        IoStep::End => false,
        IoStep::Child | IoStep::Wait => unreachable!(),
    }
}

/// A vdev child of the write has ended, with this error or none.
pub(crate) fn hear_write(
    io: &mut WriteIo,
    layer: Layer,
    family: &mut Family,
    child: usize,
    error: Option<Errno>,
)
    requires sits { SitsOn layer (IsOutIn io.old) family.old }
    requires awaited { IsAwaitedAt layer family.old child }
    ensures heard { (t : Terms) (bytes : List ℕ) (st : Stack) (c : Child) (a : Answer) → error_of a ≡ error →
        slice_get st.children child ≡ Some c → IsWriteAt t bytes layer io.old family.old st →
        IsWriteAt t bytes layer io.new family.new (heard_of st child c (Got a)) }
    ensures over { (tops : List SeenTop) → IsWriteOver tops io.old → IsWriteOver tops io.new }
    ensures sits { SitsOn layer (IsOutIn io.new) family.new }
    ensures children { IfSome (slice_get family.old child) (λ (c : Child). family.new
        ≡ slice_set family.old child (child_ended c)) }
    ensures count { io.new.asked ≡ io.old.asked }
    ensures pass { io.new.write.retry ≡ io.old.write.retry }
{
    let n = family.seat(child).number();
    io.hear(n, error);
    family.end(child);
}
