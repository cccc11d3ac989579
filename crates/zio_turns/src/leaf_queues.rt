//! The leaves' queues: operations of nodes wait under their keys, and are issued group by group.

ghost use Rattle.std.specs.Prelude.{◌≡◌, ◌<◌, ◌≤◌, ◌^◌, ℕ, List as Seq, Option, [], length, map, replicate, slice_index_or, take, IfOk, OnErr, OnOk, IsTrue};
ghost use Rattle.std.specs.List.{AllByRecursion};
ghost use Rattle.zio_faults.specs.Hits.{RowFits};
ghost use Rattle.zio_vqueue.specs.declared.op.Op.{Op as SeenOp};
ghost use Rattle.zio_vqueue.specs.Queues.{FitsDevice, end_of};
ghost use Rattle.zio_disks.specs.Disks.{Handles};
ghost use Rattle.zio_groups.specs.Issued.{EndsOn, written_spots};
ghost use Rattle.zio_exchange.specs.LeafOps.{IsOpFor};
ghost use Rattle.zio_turns.specs.AtLeaves.{AllWait, AreInOrder, AreIssued, IsPut, WaitsFor, eligible_at, eligible_leaves, has_group, keys_at, no_waits, put_as, waiting_at};
ghost use Rattle.zio_staged.specs.Entries.{times_in};
ghost use Rattle.zio_turns.specs.ShortTops.{AreShort, EndsWithTops};
ghost use Rattle.zio_staged.specs.Stages.{ShowsAnswer};
ghost use Rattle.zio_trace.specs.Leaves.{Answer, LeafOp, LiesOn, spot_of};
ghost use Rattle.zio_types.specs.declared.error.Errno.{Errno as SeenErrno};
ghost use Rattle.zio_types.specs.declared.place.Top.{Top as SeenTop};

use std::alloc::Global;
use zio_disks::{Setting, Stop};
use zio_groups::{Answered, LeafQueue};
use zio_outside::Disk;
use zio_shared::Shared;
use zio_types::{List, NoMemory};
use zio_vqueue::Op;

/// A queue for each leaf, by number. An operation's ticket there is the key of its node.
#[derive(Drop)]
pub struct Queues {
    leaves: Vec<LeafQueue>,
    ghost few: { length leaves.items < 2 ^ 32 },
}

impl Queues {
    /// For so many leaves, with nothing waiting.
    pub fn new(alloc: Global, count: u32) -> Result<Queues, NoMemory>
        ensures none { IfOk result (λ queues. queues.leaves.items ≡ replicate count no_waits) }
        ensures order { IfOk result (λ queues. AreInOrder queues.leaves.items) }
    {
        let mut leaves = Vec::new(alloc);
        for _leaf in 0..count {
            leaves.push(LeafQueue::new(alloc))?;
        }
        Ok(Queues { leaves })
    }

    /// The operation waits at the leaf under this key, under which none waits, with the bytes of a write. Where memory
    /// is refused nothing has changed, and the bytes are dropped.
    pub fn put(&mut self, leaf: u32, key: usize, op: Op, bytes: Shared) -> Result<(), NoMemory>
        requires there { leaf < length self.old.leaves.items }
        requires fits { FitsDevice op }
        requires apart { times_in key (keys_at self.old.leaves.items) ≡ 0 }
        ensures ok { OnOk result
            (IsPut leaf (put_as key op bytes) self.old.leaves.items self.new.leaves.items) }
        ensures err { OnErr result (self.new.leaves.items ≡ self.old.leaves.items) }
        ensures order { AreInOrder self.old.leaves.items → AreInOrder self.new.leaves.items }
    {
        let len = op.len as usize;
        let op = Op {
            ticket: key as u64,
            ..op
        };
        self.leaves[leaf as usize].put(op, bytes.front(len))
    }

    /// How many leaves have a group to issue. Where there is none nothing waits.
    pub fn eligible(&self) -> u32
        ensures count { result ≡ length (eligible_leaves self.now.leaves.items) }
        ensures none { AreInOrder self.now.leaves.items → result ≡ 0 → keys_at self.now.leaves.items ≡ [] }
    {
        let mut count = 0;
        for leaf in 0..self.leaves.len() {
            if self.leaves[leaf].is_eligible() {
                count += 1;
            }
        }
        count
    }

    /// Issues the next group of the k-th leaf that has one. After a stop the group is lost.
    pub fn issue<D: Disk>(
        &mut self,
        alloc: Global,
        k: u32,
        setting: &Setting,
        disks: &mut [D],
    ) -> Result<List<Answered>, Stop>
        requires rows { AllByRecursion RowFits setting.now.rows }
        requires order { AreInOrder self.old.leaves.items }
        requires eligible { k < length (eligible_leaves self.old.leaves.items) }
        requires lies { AllWait (EndsOn (map D.bytes disks.old)) self.old.leaves.items }
        ensures issued { IfOk result (AreIssued D.image setting.now (eligible_at self.old.leaves.items k)
            self.old.leaves.items self.new.leaves.items disks.old disks.new) }
        ensures order_still { OnOk result (AreInOrder self.new.leaves.items) }
        ensures handled { Handles D.bytes D.faults D.faults_at_fetch D.home D.image D.sound D.went
            (written_spots (eligible_at self.old.leaves.items k)
            (waiting_at self.old.leaves.items (eligible_at self.old.leaves.items k)))
            result disks.old disks.new }
    {
        let leaf = self.eligible_at(k);
        self.leaves[leaf as usize].issue(alloc, setting, disks, leaf)
    }

    /// The number of the k-th leaf that has a group to issue.
    fn eligible_at(&self, k: u32) -> u32
        requires { k < length (eligible_leaves self.now.leaves.items) }
        ensures number { result ≡ eligible_at self.now.leaves.items k }
        ensures there { result < length self.now.leaves.items }
        ensures has { IsTrue (has_group (slice_index_or self.now.leaves.items result no_waits)) }
    {
        let mut before = k;
        for leaf in 0..self.leaves.len() {
            if self.leaves[leaf].is_eligible() {
                if before == 0 {
                    return leaf as u32;
                }
                before -= 1;
            }
        }
        unreachable!()
    }
}

/// An operation that a node hands to its leaf fits a queue where it ends with tops that aren't too long; it ends on its
/// leaf where it lies on leaves of these sizes; put under a key it waits for the node's operation; and each answer
/// shows something.
pub fn leaves_take_operations()
    ensures fits { (tops : Seq SeenTop) (act : LeafOp) (op : SeenOp) (leaf : ℕ) (bytes : Seq ℕ) →
        IsOpFor act op leaf bytes → EndsWithTops tops (spot_of act) → AreShort tops → FitsDevice op }
    ensures ends { (sizes : ℕ → ℕ) (act : LeafOp) (op : SeenOp) (leaf : ℕ) (bytes : Seq ℕ) →
        IsOpFor act op leaf bytes → LiesOn sizes act → end_of op ≤ sizes leaf }
    ensures waits { (sizes : ℕ → ℕ) (act : LeafOp) (op : SeenOp) (leaf key : ℕ) (bytes : Seq ℕ) →
        IsOpFor act op leaf bytes → LiesOn sizes act → WaitsFor leaf act (put_as key op bytes) }
    ensures shows { (act : LeafOp) (error : Option SeenErrno) (bytes : Seq ℕ) →
        (a : Answer) × ShowsAnswer act error bytes a }
{}
