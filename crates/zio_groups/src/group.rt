// A group that was taken.

ghost use Rattle.std.specs.Prelude.{◌≡◌, ◌+◌, ◌≤◌, ◌<◌, ◌^◌, Bool, IfOk, length, map, slice_index_or};
ghost use Rattle.std.specs.List.{AllByRecursion};
ghost use Rattle.zio_faults.specs.Hits.{RowFits};
ghost use Rattle.zio_vqueue.specs.Members.{is_write};
ghost use Rattle.zio_cksum.specs.Images.{Images};
ghost use Rattle.zio_disks.specs.Disks.{Handles, Tell};
ghost use Rattle.zio_groups.specs.Issued.{AreWhole, EndsOn, IsFit, all_issued, head_of, written_spots};
ghost use Rattle.zio_groups.specs.LeafQueues.{AreMembers};

use crate::single::one_by_one;
use crate::span::{read_span, write_span};
use crate::waiting::{Answered, QueuedOp};
use std::alloc::Global;
use zio_disks::{Setting, Stop};
use zio_outside::Disk;
use zio_shared::Shared;
use zio_types::List;
use zio_vqueue::{Group, lone};

/// The members write.
fn is_write(group: &Group) -> bool
    requires { 0 < length group.now.ops }
    ensures { result ≡ is_write group.now.ops }
{
    group.ops.as_slice()[0].write
}

/// Issues the group: member by member where its span meets a row, and else as one call of the device. A single member is
/// issued as it is, since there is nothing to join or to part. What was in the buffer is lost.
pub(crate) fn issue_group<D: Disk>(
    alloc: Global,
    setting: &Setting,
    disks: &mut [D],
    leaf: u32,
    group: &Group,
    members: &[QueuedOp],
    buffer: &mut Shared,
) -> Result<List<Answered>, Stop>
    requires rows { AllByRecursion RowFits setting.now.rows }
    requires fit { AllByRecursion IsFit members.now }
    requires members { (write : Bool) × AreMembers group.now write members.now }
    requires lies { AllByRecursion (EndsOn (map D.bytes disks.old) leaf) members.now }
    ensures told { IfOk result (λ answers. (images : Images) → Tell D.image disks.old images →
        (answers ≡ (all_issued setting.now leaf members.now images).answers)
        × Tell D.image disks.new (all_issued setting.now leaf members.now images).images) }
    ensures heads { IfOk result (λ answers. (images : Images) →
        map head_of answers ≡ map head_of ((all_issued setting.now leaf members.now images).answers)) }
    ensures whole { IfOk result (AreWhole members.now) }
    ensures handled { Handles D.bytes D.faults D.faults_at_fetch D.home D.image D.sound D.went
        (written_spots leaf members.now) result disks.old disks.new }
{
    if members.len() == 1 || lone(group, &setting.table, leaf, setting.point) {
        return one_by_one(alloc, setting, disks, leaf, members);
    }
    if is_write(group) {
        return write_span(alloc, disks, leaf, group, members, buffer);
    }
    read_span(alloc, disks, leaf, group, members, buffer)
}
