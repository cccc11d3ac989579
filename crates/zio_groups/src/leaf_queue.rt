ghost use Rattle.std.specs.Prelude.{◌≡◌, ◌≢◌, ◌∷◌, ◌++◌, [], ◌≤◌, ℕ, Err, IfOk, None, OnErr, OnOk, false, true, is_some, length, map, nat_eq, slice_index_or, unwrap_or};
ghost use Rattle.std.specs.HashMap.{get};
ghost use Rattle.std.specs.List.{AllByRecursion};
ghost use Rattle.zio_faults.specs.Hits.{RowFits};
ghost use Rattle.zio_vqueue.specs.Queues.{AreApart, FitsDevice, eligible, is_queued};
ghost use Rattle.zio_vqueue.specs.Groups.{IsNextGroup, after_take};
ghost use Rattle.zio_disks.specs.Disks.{Handles};
ghost use Rattle.zio_groups.specs.Issued.{EndsOn, written_spots};
ghost use Rattle.zio_groups.specs.LeafQueues.{IsIssued, kept_with, ops_of, queue_of, waiting_with};

use crate::group::issue_group;
use crate::waiting::{Answered, QueuedOp, add, no_bytes, with_room};
use std::alloc::Global;
use std::collections::HashMap;
use std::marker::Model;
use zio_disks::{Setting, Stop};
use zio_outside::Disk;
use zio_shared::Shared;
use zio_types::{List, NoMemory};
use zio_vqueue::{Group, Op, VQueue};

/// The operations that wait for one leaf, and the bytes of those that write.
#[derive(Drop)]
pub struct LeafQueue {
    queue: VQueue,
    /// What a queued write writes, by its ticket.
    kept: HashMap<u64, Shared>,
    /// The last span of several members, read or joined: its memory serves the next once nobody holds what was read.
    buffer: Shared,
}

impl Model for LeafQueue {
    ghost use Rattle.std.specs.Prelude.{nat_eq};
    ghost use Rattle.std.specs.HashMap.{get};
    ghost use Rattle.zio_groups.specs.LeafQueues.{IsInOrder, Waits, waits_of};

    ghost Value = { Waits };

    ghost view = { λ q. waits_of (get nat_eq q.kept) q.queue };

    ghost invariant = { λ q. IsInOrder (waits_of (get nat_eq q.kept) q.queue) };
}

impl LeafQueue {
    /// Nothing waits and nothing is active. Without memory.
    pub fn new(alloc: Global) -> LeafQueue
        ensures waiting { result.waiting ≡ [] }
        ensures active { result.active ≡ 0 ∷ 0 ∷ 0 ∷ 0 ∷ 0 ∷ [] }
        ensures last { result.last ≡ 0 }
    {
        LeafQueue {
            queue: VQueue::new(alloc),
            kept: HashMap::new(alloc),
            buffer: no_bytes(alloc),
        }
    }

    /// Queues an operation under a ticket that isn't queued, with what it writes: zeros follow to its end. A read's
    /// bytes are dropped. Where memory is refused the queue is as it was, and the bytes are dropped.
    pub fn put(&mut self, op: Op, bytes: Shared) -> Result<(), NoMemory>
        requires fits { FitsDevice op }
        requires room { length bytes ≤ op.len }
        requires apart { is_queued op.ticket (ops_of self.old.waiting) ≡ false }
        ensures ok { OnOk result (self.new ≡ record self.old {
          waiting = self.old.waiting ++ waiting_with op bytes
              ∷ [];
        }) }
        ensures err { OnErr result (self.new ≡ self.old) }
    {
        keep(&mut self.kept, &op, bytes)?;
        self.queue.put(op)
    }

    /// Whether there is a group to issue.
    pub fn is_eligible(&self) -> bool
        ensures { result ≡ is_some (eligible (queue_of self.now)) }
    {
        self.queue.eligible().is_some()
    }

    /// Takes the next group and does what its members ask, in their order. A group whose span meets no row is one call
    /// of the device; else each member is issued by itself. After a stop the group is lost.
    pub fn issue<D: Disk>(
        &mut self,
        alloc: Global,
        setting: &Setting,
        disks: &mut [D],
        leaf: u32,
    ) -> Result<List<Answered>, Stop>
        requires rows { AllByRecursion RowFits setting.now.rows }
        requires eligible { is_some (eligible (queue_of self.old)) ≡ true }
        requires lies { AllByRecursion (EndsOn (map D.bytes disks.old) leaf) self.old.waiting }
        ensures issued { IfOk result (IsIssued D.image setting.now leaf self.old self.new disks.old disks.new) }
        ensures handled { Handles D.bytes D.faults D.faults_at_fetch D.home D.image D.sound D.went
            (written_spots leaf self.old.waiting) result disks.old disks.new }
    {
        let group = next_group(&mut self.queue)?;
        let members = take_kept(alloc, &mut self.kept, group.ops.as_slice())?;
        let answers = issue_group(
            alloc,
            setting,
            disks,
            leaf,
            &group,
            members.as_slice(),
            &mut self.buffer,
        )?;
        self.queue.done(group);
        Ok(answers)
    }
}

/// Takes the next group, where there is one.
fn next_group(queue: &mut VQueue) -> Result<Group, Stop>
    requires { is_some (eligible queue.old) ≡ true }
    ensures group { IfOk result (IsNextGroup queue.old) }
    ensures taken { IfOk result (λ group. queue.new ≡ after_take queue.old group) }
    ensures kept { OnErr result (queue.new ≡ queue.old) }
    ensures err { OnErr result (result ≡ Err Stop.Memory) }
{
    match queue.take() {
        Ok(Some(group)) => Ok(group),
        // There is one, so memory was refused.
        _ => Err(Stop::Memory),
    }
}

/// Keeps the bytes of a write.
fn keep(kept: &mut HashMap<u64, Shared>, op: &Op, bytes: Shared) -> Result<(), NoMemory>
    ensures bytes { OnOk result (kept_with (get nat_eq kept.new) op.now ≡ waiting_with op.now bytes) }
    ensures others { (ticket : ℕ) → ticket ≢ op.now.ticket → get nat_eq kept.new ticket ≡ get nat_eq kept.old ticket }
    ensures err { OnErr result ((ticket : ℕ) → get nat_eq kept.new ticket ≡ get nat_eq kept.old ticket) }
{
    if op.write {
        kept.insert(op.ticket, bytes)?;
    }
    Ok(())
}

/// The operations, each with its bytes, which are kept no more.
fn take_kept(
    alloc: Global,
    kept: &mut HashMap<u64, Shared>,
    ops: &[Op],
) -> Result<List<QueuedOp>, Stop>
    requires apart { AreApart ops.now }
    ensures ok { IfOk result (λ members. members ≡ map (kept_with (get nat_eq kept.old)) ops.now) }
    ensures others { (ticket : ℕ) → is_queued ticket ops.now ≡ false
        → get nat_eq kept.new ticket ≡ get nat_eq kept.old ticket }
    ensures fewer { (ticket : ℕ) → length (unwrap_or (get nat_eq kept.new ticket) [])
        ≤ length (unwrap_or (get nat_eq kept.old ticket) []) }
    ensures err { OnErr result (result ≡ Err Stop.Memory) }
{
    let mut members = with_room(alloc, ops.len())?;
    for op in ops {
        let bytes = take_bytes(alloc, kept, op);
        add(&mut members, QueuedOp { op: *op, bytes })?;
    }
    Ok(members)
}

/// The bytes that are kept for a write.
fn take_bytes(alloc: Global, kept: &mut HashMap<u64, Shared>, op: &Op) -> Shared
    ensures bytes { record { op = op.now; bytes = result } ≡ kept_with (get nat_eq kept.old) op.now }
    ensures others { (ticket : ℕ) → ticket ≢ op.now.ticket → get nat_eq kept.new ticket ≡ get nat_eq kept.old ticket }
    ensures fewer { (ticket : ℕ) → length (unwrap_or (get nat_eq kept.new ticket) [])
        ≤ length (unwrap_or (get nat_eq kept.old ticket) []) }
{
    if !op.write {
        return no_bytes(alloc);
    }
    match kept.remove(&op.ticket) {
        Some(bytes) => bytes,
        None => no_bytes(alloc),
    }
}
