// A group whose span is one call of the device.

ghost use Rattle.std.specs.Prelude.{◌≡◌, ◌∷◌, ◌+◌, ◌-◌, ◌≤◌, ◌++◌, Err, IfOk, OnErr, OnOk, [], length, map, slice_index_or, take, drop, true};
ghost use Rattle.std.specs.List.{AllByRecursion};
ghost use Rattle.zio_vqueue.specs.Members.{LiesIn};
ghost use Rattle.zio_cksum.specs.Images.{Images, bytes_at, padded_to, with_bytes};
ghost use Rattle.zio_disks.specs.Disks.{Handles, Tell};
ghost use Rattle.zio_groups.specs.Issued.{IsFit};
ghost use Rattle.zio_groups.specs.LeafQueues.{AreMembers, ops_of};
ghost use Rattle.zio_groups.specs.Spans.{AreParts, joined, part_answered, span_spot, stored_answered};

use crate::waiting::{Answered, QueuedOp, add, no_bytes, with_room};
use std::alloc::Global;
use std::mem::replace;
use zio_disks::{Spot, Stop, fetch, store};
use zio_outside::Disk;
use zio_shared::Shared;
use zio_types::{Bytes, List, NoMemory};
use zio_vqueue::{Group, Op};

fn span_spot(leaf: u32, group: &Group) -> Spot
    ensures { result ≡ span_spot leaf group.now }
{
    Spot {
        leaf,
        at: group.at,
        span: group.len,
    }
}

/// An operation's bytes of those of its group's span.
fn part_of(alloc: Global, group: &Group, op: &Op, span: &mut Shared) -> Result<Shared, Stop>
    requires inside { LiesIn group.now op.now }
    requires span { length span.old ≡ group.now.len }
    ensures ok { IfOk result (λ bytes. bytes ≡ take op.now.len (drop (op.now.at - group.now.at) span.old)) }
    ensures same { span.new ≡ span.old }
    ensures err { OnErr result (result ≡ Err Stop.Memory) }
{
    let start = (op.at - group.at) as usize;
    match span.part(alloc, start, op.len as usize) {
        Ok(bytes) => Ok(bytes),
        Err(NoMemory) => Err(Stop::Memory),
    }
}

/// Each member's answer from the bytes of the span.
fn parts_of(
    alloc: Global,
    group: &Group,
    members: &[QueuedOp],
    span: &mut Shared,
) -> Result<List<Answered>, Stop>
    requires inside { AllByRecursion (LiesIn group.now) (ops_of members.now) }
    requires span { length span.old ≡ group.now.len }
    ensures ok { IfOk result (λ answers. answers ≡ map (part_answered group.now.at span.old) members.now) }
    ensures err { OnErr result (result ≡ Err Stop.Memory) }
{
    let mut answers = with_room(alloc, members.len())?;
    for member in members {
        let answer = Answered {
            ticket: member.op.ticket,
            error: None,
            bytes: part_of(alloc, group, &member.op, span)?,
        };
        add(&mut answers, answer)?;
    }
    Ok(answers)
}

/// The bytes that the disk of a leaf has there. Where they are none the leaf may not be there.
fn fetch_any<D: Disk>(disks: &mut [D], spot: &Spot, buffer: &mut [u8]) -> Result<(), Stop>
    requires { spot.now.at + length buffer.old ≤ slice_index_or (map D.bytes disks.old) spot.now.leaf 0 }
    ensures told { IfOk result (λ _. (images : Images) → Tell D.image disks.old images →
        (buffer.new ≡ bytes_at images spot.now (length buffer.old)) × Tell D.image disks.new images) }
    ensures handled { Handles D.bytes D.faults D.faults_at_fetch D.home D.image D.sound D.went [] result disks.old
        disks.new }
{
    if buffer.is_empty() {
        return Ok(());
    }
    fetch(disks, spot, buffer)
}

/// So many bytes to be written over, in the buffer's memory where nobody else holds it. The buffer is left without any.
fn room_in(alloc: Global, buffer: &mut Shared, len: usize) -> Result<Vec<u8>, Stop>
    ensures ok { IfOk result (λ room. length room.items ≡ len) }
    ensures err { OnErr result (result ≡ Err Stop.Memory) }
{
    match replace(buffer, no_bytes(alloc)).into_room(alloc, len) {
        Ok(room) => Ok(room),
        Err(NoMemory) => Err(Stop::Memory),
    }
}

/// Reads the whole span into a room for it, which the buffer holds from then on, and gives each member its part.
fn read_parts<D: Disk>(
    alloc: Global,
    disks: &mut [D],
    leaf: u32,
    group: &Group,
    members: &[QueuedOp],
    room: Vec<u8>,
    buffer: &mut Shared,
) -> Result<List<Answered>, Stop>
    requires inside { AllByRecursion (LiesIn group.now) (ops_of members.now) }
    requires long { length room.items ≡ group.now.len }
    requires lies { group.now.at + group.now.len ≤ slice_index_or (map D.bytes disks.old) leaf 0 }
    ensures parts { IfOk result (AreParts D.image leaf group.now members.now disks.old disks.new) }
    ensures handled { Handles D.bytes D.faults D.faults_at_fetch D.home D.image D.sound D.went [] result disks.old
        disks.new }
{
    let mut room = room;
    fetch_any(disks, &span_spot(leaf, group), room.as_mut_slice())?;
    *buffer = Shared::alone(Bytes::from_vec(room));
    parts_of(alloc, group, members, buffer)
}

/// Reads the whole span, and gives each member its part of it. What was in the buffer is lost.
pub(crate) fn read_span<D: Disk>(
    alloc: Global,
    disks: &mut [D],
    leaf: u32,
    group: &Group,
    members: &[QueuedOp],
    buffer: &mut Shared,
) -> Result<List<Answered>, Stop>
    requires inside { AllByRecursion (LiesIn group.now) (ops_of members.now) }
    requires lies { group.now.at + group.now.len ≤ slice_index_or (map D.bytes disks.old) leaf 0 }
    ensures parts { IfOk result (AreParts D.image leaf group.now members.now disks.old disks.new) }
    ensures handled { Handles D.bytes D.faults D.faults_at_fetch D.home D.image D.sound D.went [] result disks.old
        disks.new }
{
    let room = room_in(alloc, buffer, group.len as usize)?;
    read_parts(alloc, disks, leaf, group, members, room, buffer)
}

/// Puts bytes at the end, and zeros behind them to so many.
fn join(whole: &mut Vec<u8>, bytes: &[u8], len: u32) -> Result<(), Stop>
    requires { length bytes.now ≤ len }
    ensures ok { OnOk result (whole.new.items ≡ whole.old.items ++ padded_to len bytes.now) }
    ensures err { OnErr result (result ≡ Err Stop.Memory) }
{
    let end = whole.len() + len as usize;
    if whole.extend_from_slice(bytes).is_err() {
        return Err(Stop::Memory);
    }
    match whole.resize(end, 0) {
        Ok(()) => Ok(()),
        Err(_) => Err(Stop::Memory),
    }
}

/// Makes a buffer what the members write on their span, which has so many bytes.
fn join_all(whole: &mut Vec<u8>, members: &[QueuedOp], len: usize) -> Result<(), Stop>
    requires { AllByRecursion IsFit members.now }
    ensures ok { OnOk result (whole.new.items ≡ joined members.now) }
    ensures err { OnErr result (result ≡ Err Stop.Memory) }
{
    whole.clear();
    if whole.reserve(len).is_err() {
        return Err(Stop::Memory);
    }
    for member in members {
        join(whole, member.bytes.as_slice(), member.op.len)?;
    }
    Ok(())
}

/// The members' answers once all are stored.
fn stored(alloc: Global, members: &[QueuedOp]) -> Result<List<Answered>, Stop>
    ensures ok { IfOk result (λ answers. answers ≡ map stored_answered members.now) }
    ensures err { OnErr result (result ≡ Err Stop.Memory) }
{
    let mut answers = with_room(alloc, members.len())?;
    for member in members {
        let answer = Answered {
            ticket: member.op.ticket,
            error: None,
            bytes: no_bytes(alloc),
        };
        add(&mut answers, answer)?;
    }
    Ok(answers)
}

/// Writes the members' bytes, which touch, on the whole span. What was in the buffer is lost.
pub(crate) fn write_span<D: Disk>(
    alloc: Global,
    disks: &mut [D],
    leaf: u32,
    group: &Group,
    members: &[QueuedOp],
    buffer: &mut Shared,
) -> Result<List<Answered>, Stop>
    requires fit { AllByRecursion IsFit members.now }
    requires members { AreMembers group.now true members.now }
    requires lies { group.now.at + group.now.len ≤ slice_index_or (map D.bytes disks.old) leaf 0 }
    ensures told { IfOk result (λ answers. (images : Images) → Tell D.image disks.old images →
        Tell D.image disks.new (with_bytes images (span_spot leaf group.now) (joined members.now))) }
    ensures answers { IfOk result (λ answers. answers ≡ map stored_answered members.now) }
    ensures handled { Handles D.bytes D.faults D.faults_at_fetch D.home D.image D.sound D.went (span_spot leaf group.now
        ∷ []) result disks.old disks.new }
{
    let mut whole = room_in(alloc, buffer, 0)?;
    join_all(&mut whole, members, group.len as usize)?;
    store(disks, whole.as_slice(), &span_spot(leaf, group))?;
    *buffer = Shared::alone(Bytes::from_vec(whole));
    stored(alloc, members)
}
