// Operations that are issued one by one.

ghost use Rattle.std.specs.Prelude.{◌≡◌, ◌∷◌, [], ◌≤◌, Err, IfOk, None, OnErr, length, map, slice_index_or};
ghost use Rattle.std.specs.List.{AllByRecursion};
ghost use Rattle.zio_faults.specs.Hits.{RowFits};
ghost use Rattle.zio_vqueue.specs.Queues.{FitsDevice, end_of};
ghost use Rattle.zio_cksum.specs.Images.{Images, read_leaf, write_leaf};
ghost use Rattle.zio_disks.specs.Disks.{Handles, Tell};
ghost use Rattle.zio_groups.specs.Issued.{AreWhole, EndsOn, IsFit, IsWhole, all_issued, head_of, one_issued, read_answered, spot_of, written_spots};

use crate::waiting::{Answered, QueuedOp, add, no_bytes, with_room};
use std::alloc::Global;
use zio_disks::{Setting, Spot, Stop, padded_to, read_leaf, write_leaf};
use zio_outside::Disk;
use zio_shared::Shared;
use zio_types::{Bytes, Errno, List};
use zio_vqueue::Op;

/// So many zeros.
fn zeros(alloc: Global, len: usize) -> Result<Vec<u8>, Stop>
    ensures ok { IfOk result (λ bytes. length bytes.items ≡ len) }
    ensures err { OnErr result (result ≡ Err Stop.Memory) }
{
    let mut bytes = Vec::new(alloc);
    match bytes.resize(len, 0) {
        Ok(()) => Ok(bytes),
        Err(_) => Err(Stop::Memory),
    }
}

fn spot_of(leaf: u32, op: &Op) -> Spot
    ensures { result ≡ spot_of leaf op.now }
{
    Spot {
        leaf,
        at: op.at,
        span: u64::from(op.len),
    }
}

/// Reads an operation's whole range.
fn read_one<D: Disk>(
    alloc: Global,
    setting: &Setting,
    disks: &mut [D],
    leaf: u32,
    op: &Op,
) -> Result<Answered, Stop>
    requires rows { AllByRecursion RowFits setting.now.rows }
    requires fits { FitsDevice op.now }
    requires lies { end_of op.now ≤ slice_index_or (map D.bytes disks.old) leaf 0 }
    ensures told { IfOk result (λ answer. (images : Images) → Tell D.image disks.old images →
        (answer ≡ read_answered op.now.ticket
        (read_leaf setting.now op.now.flags.retry images op.now.len (spot_of leaf op.now)))
        × Tell D.image disks.new images) }
    ensures head { IfOk result (λ answer. (images : Images) →
        head_of answer ≡ head_of
        (read_answered op.now.ticket
        (read_leaf setting.now op.now.flags.retry images op.now.len (spot_of leaf op.now)))) }
    ensures whole { IfOk result (λ answer. answer.error ≡ None → length answer.bytes ≡ op.now.len) }
    ensures handled { Handles D.bytes D.faults D.faults_at_fetch D.home D.image D.sound D.went [] result disks.old
        disks.new }
{
    let ticket = op.ticket;
    if op.len == 0 {
        // It meets no row, and its leaf may not be there.
        return Ok(Answered {
            ticket,
            error: None,
            bytes: no_bytes(alloc),
        });
    }
    let spot = spot_of(leaf, op);
    let mut buffer = zeros(alloc, op.len as usize)?;
    let retry = op.flags.retry;
    let error = read_leaf(setting, disks, retry, &spot, buffer.as_mut_slice())?;
    let bytes = match error {
        None => Shared::alone(Bytes::from_vec(buffer)),
        Some(_) => no_bytes(alloc),
    };
    Ok(Answered {
        ticket,
        error,
        bytes,
    })
}

/// Writes the bytes, and zeros behind them to the operation's end.
fn write_one<D: Disk>(
    alloc: Global,
    setting: &Setting,
    disks: &mut [D],
    leaf: u32,
    op: &Op,
    bytes: &[u8],
) -> Result<Option<Errno>, Stop>
    requires rows { AllByRecursion RowFits setting.now.rows }
    requires fits { FitsDevice op.now }
    requires room { length bytes.now ≤ op.now.len }
    requires lies { end_of op.now ≤ slice_index_or (map D.bytes disks.old) leaf 0 }
    ensures told { IfOk result (λ error. (images : Images) → Tell D.image disks.old images →
        (error ≡ (write_leaf setting.now op.now.flags.retry bytes.now images (spot_of leaf op.now)).error)
        × Tell D.image disks.new (write_leaf setting.now op.now.flags.retry bytes.now images
        (spot_of leaf op.now)).images) }
    ensures answer { IfOk result (λ error. (images : Images) →
        error ≡ (write_leaf setting.now op.now.flags.retry bytes.now images (spot_of leaf op.now)).error) }
    ensures handled { Handles D.bytes D.faults D.faults_at_fetch D.home D.image D.sound D.went (spot_of leaf op.now
        ∷ []) result disks.old disks.new }
{
    let spot = spot_of(leaf, op);
    let retry = op.flags.retry;
    let span = u64::from(op.len);
    if bytes.len() as u64 == span {
        return write_leaf(alloc, setting, disks, retry, bytes, &spot);
    }
    let whole = padded_to(alloc, bytes, span)?;
    write_leaf(alloc, setting, disks, retry, whole.as_slice(), &spot)
}

/// Does what one operation asks.
pub(crate) fn issue_one<D: Disk>(
    alloc: Global,
    setting: &Setting,
    disks: &mut [D],
    leaf: u32,
    member: &QueuedOp,
) -> Result<Answered, Stop>
    requires rows { AllByRecursion RowFits setting.now.rows }
    requires fit { IsFit member.now }
    requires lies { EndsOn (map D.bytes disks.old) leaf member.now }
    ensures told { IfOk result (λ answer. (images : Images) → Tell D.image disks.old images →
        (answer ≡ (one_issued setting.now leaf member.now images).answer)
        × Tell D.image disks.new (one_issued setting.now leaf member.now images).images) }
    ensures head { IfOk result (λ answer. (images : Images) →
        head_of answer ≡ head_of ((one_issued setting.now leaf member.now images).answer)) }
    ensures whole { IfOk result (IsWhole member.now) }
    ensures handled { Handles D.bytes D.faults D.faults_at_fetch D.home D.image D.sound D.went
        (written_spots leaf (member.now ∷ [])) result disks.old disks.new }
{
    let op = member.op;
    if !op.write {
        return read_one(alloc, setting, disks, leaf, &op);
    }
    let error = write_one(alloc, setting, disks, leaf, &op, member.bytes.as_slice())?;
    Ok(Answered {
        ticket: op.ticket,
        error,
        bytes: no_bytes(alloc),
    })
}

/// Issues the operations one after another.
pub(crate) fn one_by_one<D: Disk>(
    alloc: Global,
    setting: &Setting,
    disks: &mut [D],
    leaf: u32,
    members: &[QueuedOp],
) -> Result<List<Answered>, Stop>
    requires rows { AllByRecursion RowFits setting.now.rows }
    requires fit { AllByRecursion IsFit members.now }
    requires lies { AllByRecursion (EndsOn (map D.bytes disks.old) leaf) members.now }
    ensures told { IfOk result (λ answers. (images : Images) → Tell D.image disks.old images →
        (answers ≡ (all_issued setting.now leaf members.now images).answers)
        × Tell D.image disks.new (all_issued setting.now leaf members.now images).images) }
    ensures heads { IfOk result (λ answers. (images : Images) →
        map head_of answers ≡ map head_of ((all_issued setting.now leaf members.now images).answers)) }
    ensures whole { IfOk result (AreWhole members.now) }
    ensures handled { Handles D.bytes D.faults D.faults_at_fetch D.home D.image D.sound D.went
        (written_spots leaf members.now) result disks.old disks.new }
{
    let mut answers = with_room(alloc, members.len())?;
    for member in members {
        let answer = issue_one(alloc, setting, disks, leaf, member)?;
        add(&mut answers, answer)?;
    }
    Ok(answers)
}
