// The leaves' queues, which take turns.

ghost use Rattle.std.specs.Prelude.{◌≡◌, ◌<◌, ◌≤◌, ◌^◌, ℕ, Err, IfOk, MatchOption, OnErr, OnOk, [], false, is_some, length, map, replicate, slice_index_or, true};
ghost use Rattle.std.specs.List.{AllByRecursion};
ghost use Rattle.zio_faults.specs.Hits.{RowFits};
ghost use Rattle.zio_vqueue.specs.Queues.{FitsDevice, eligible};
ghost use Rattle.zio_disks.specs.Disks.{Handles};
ghost use Rattle.zio_groups.specs.Issued.{EndsOn, written_spots};
ghost use Rattle.zio_groups.specs.LeafQueues.{queue_of, waiting_with};
ghost use Rattle.zio_scrub.specs.Queues.{AllWait, AreIssued, IsOrdered, IsPut, no_waits, waiting_at, waits_at};

use std::alloc::Global;
use zio_disks::{Setting, Stop};
use zio_groups::{Answered, LeafQueue};
use zio_outside::Disk;
use zio_shared::Shared;
use zio_types::List;
use zio_vqueue::Op;

/// A queue for each leaf, by number.
#[derive(Drop)]
pub(crate) struct Queues {
    leaves: Vec<LeafQueue>,
    /// The leaf whose turn is next.
    turn: usize,
    ghost few: { length leaves.items < 2 ^ 32 },
}

impl Queues {
    /// For so many leaves, with nothing waiting.
    pub(crate) fn new(alloc: Global, count: u32) -> Result<Queues, Stop>
        ensures none { IfOk result (λ queues. queues.leaves.items ≡ replicate count no_waits) }
        ensures order { IfOk result (λ queues. AllByRecursion IsOrdered queues.leaves.items) }
        ensures err { OnErr result (result ≡ Err Stop.Memory) }
    {
        let mut leaves = Vec::new(alloc);
        for _leaf in 0..count {
            if leaves.push(LeafQueue::new(alloc)).is_err() {
                return Err(Stop::Memory);
            }
        }
        Ok(Queues { leaves, turn: 0 })
    }

    /// The operation waits at the leaf, with the bytes of a write. No other waits there under its ticket.
    pub(crate) fn put(&mut self, leaf: u32, op: Op, bytes: Shared) -> Result<(), Stop>
        requires there { leaf < length self.old.leaves.items }
        requires fits { FitsDevice op }
        requires room { length bytes ≤ op.len }
        requires order { AllByRecursion IsOrdered self.old.leaves.items }
        requires apart { waits_at self.old.leaves.items leaf op.ticket ≡ false }
        ensures ok { OnOk result (IsPut leaf (waiting_with op bytes) self.old.leaves.items self.new.leaves.items) }
        ensures order { OnOk result (AllByRecursion IsOrdered self.new.leaves.items) }
        ensures err { OnErr result (result ≡ Err Stop.Memory) }
    {
        match self.leaves[leaf as usize].put(op, bytes) {
            Ok(()) => Ok(()),
            Err(_) => Err(Stop::Memory),
        }
    }

    /// The next leaf in turn that has a group to issue, none where nothing waits.
    pub(crate) fn next(&mut self) -> Option<u32>
        requires order { AllByRecursion IsOrdered self.old.leaves.items }
        ensures leaf { MatchOption result ((leaf : ℕ) → waiting_at self.old.leaves.items leaf ≡ [])
            (λ leaf. leaf < length self.old.leaves.items) }
        ensures eligible { MatchOption result (length self.new.leaves.items ≡ length self.old.leaves.items)
            (λ leaf. is_some (eligible (queue_of (slice_index_or self.old.leaves.items leaf no_waits))) ≡ true) }
        ensures same { self.new.leaves.items ≡ self.old.leaves.items }
    {
        for leaf in self.turn..self.leaves.len() {
            if self.leaves[leaf].is_eligible() {
                self.turn = leaf + 1;
                return Some(leaf as u32);
            }
        }
        for leaf in 0..self.leaves.len() {
            if self.leaves[leaf].is_eligible() {
                self.turn = leaf + 1;
                return Some(leaf as u32);
            }
        }
        None
    }

    /// Issues the next group of the leaf. After a stop the group is lost.
    pub(crate) fn issue<D: Disk>(
        &mut self,
        alloc: Global,
        setting: &Setting,
        disks: &mut [D],
        leaf: u32,
    ) -> Result<List<Answered>, Stop>
        requires rows { AllByRecursion RowFits setting.now.rows }
        requires there { leaf < length self.old.leaves.items }
        requires order { AllByRecursion IsOrdered self.old.leaves.items }
        requires eligible { is_some (eligible (queue_of (slice_index_or self.old.leaves.items leaf no_waits))) ≡ true }
        requires lies { AllWait (EndsOn (map D.bytes disks.old)) self.old.leaves.items }
        ensures issued { IfOk result (AreIssued D.image setting.now leaf self.old.leaves.items self.new.leaves.items
            disks.old disks.new) }
        ensures order { OnOk result (AllByRecursion IsOrdered self.new.leaves.items) }
        ensures handled { Handles D.bytes D.faults D.faults_at_fetch D.home D.image D.sound D.went
            (written_spots leaf (waiting_at self.old.leaves.items leaf)) result disks.old disks.new }
    {
        self.leaves[leaf as usize].issue(alloc, setting, disks, leaf)
    }
}
