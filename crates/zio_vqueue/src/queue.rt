ghost use Rattle.std.specs.Prelude.{◌≡◌, ◌+◌, ◌-◌, ◌^◌, ◌<◌, ◌≤◌, ◌++◌, ◌∷◌, [], ℕ, All, IfOk, OnOk, OnErr, IfSome, None, Ok, false, length, slice_set};
ghost use Rattle.std.specs.Map.{values_of};
ghost use Rattle.zio_vqueue.specs.Classes.{class_number, maximum_of};
ghost use Rattle.zio_vqueue.specs.Groups.{IsNextGroup, IsRun, IsSpanOf, after_take};
ghost use Rattle.zio_vqueue.specs.Queues.{FitsDevice, active_of, eligible, is_queued};

use crate::class::class_number;
use crate::gather::{end_of, gather};
use crate::index::{eligible, enter, first_served, next_time, withdraw};
use crate::op::{Group, Op};
use crate::spots::Spot;
use std::alloc::Global;
use std::collections::BTreeMap;
use std::marker::Model;
use zio_types::{List, NoMemory, Prio};

/// The operations that wait for one leaf, and how many groups of them are active.
#[derive(Drop)]
pub struct VQueue {
    alloc: Global,
    /// The queued operations, each at its one or two spots.
    spots: BTreeMap<Spot, Op>,
    /// How many of them are in each class.
    waiting: [u64; 5],
    /// A time after those of all queued operations.
    next: u64,
    active: [u32; 5],
    last: u64,
}

impl Model for VQueue {
    ghost use Rattle.zio_vqueue.specs.Queues.{Queue};

    ghost Value = { Queue };

    ghost use Rattle.zio_vqueue.specs.Spots.{IsKept, ops_at};

    ghost view = { λ q. record { queued = ops_at q.spots.entries; active = q.active; last = q.last } };

    ghost invariant = { λ q. IsKept q.spots.entries q.waiting q.next q.active };
}

impl VQueue {
    /// Nothing queued and nothing active. Without memory.
    pub fn new(alloc: Global) -> VQueue
        ensures queued { result.queued ≡ [] }
        ensures active { result.active ≡ 0 ∷ 0 ∷ 0 ∷ 0 ∷ 0 ∷ [] }
        ensures last { result.last ≡ 0 }
    {
        VQueue {
            alloc,
            spots: BTreeMap::new(alloc),
            waiting: [0; 5],
            next: 0,
            active: [0; 5],
            last: 0,
        }
    }

    /// Queues an operation. Where memory is refused the queue is as it was.
    pub fn put(&mut self, op: Op) -> Result<(), NoMemory>
        requires fits { FitsDevice op }
        requires apart { is_queued op.ticket self.old.queued ≡ false }
        ensures ok { OnOk result (self.new ≡ record self.old { queued = self.old.queued ++ op ∷ [] }) }
        ensures err { OnErr result (self.new ≡ self.old) }
    {
        let time = next_time(self.alloc, &mut self.spots, self.next)?;
        self.next = time;
        enter(&mut self.spots, time, op)?;
        self.waiting[class_number(op.prio) as usize] += 1;
        self.next = time + 1;
        Ok(())
    }

    /// Takes the next group: that of the eligible class's first operation. None exactly where no class is
    /// eligible, and then, or where memory is refused, the queue is as it was.
    pub fn take(&mut self) -> Result<Option<Group>, NoMemory>
        ensures group { IfOk result (λ taken. IfSome taken (IsNextGroup self.old)) }
        ensures taken { IfOk result (λ taken. IfSome taken (λ group. self.new ≡ after_take self.old group)) }
        ensures none { (result ≡ Ok None) → (eligible self.old ≡ None) × (self.new ≡ self.old) }
        ensures err { OnErr result (self.new ≡ self.old) }
    {
        let Some(prio) = eligible(&self.waiting, &self.active) else {
            return Ok(None);
        };
        let Some((spot, first)) = first_served(&self.spots, prio, self.last) else {
            return Ok(None);
        };
        let members = gather(self.alloc, &self.spots, spot.time, &first)?;
        let group = group_of(self.alloc, prio, &members)?;
        withdraw(&mut self.spots, &mut self.waiting, &members);
        self.active[class_number(prio) as usize] += 1;
        self.last = group.at + group.len;
        Ok(Some(group))
    }

    /// Ends a group that was taken.
    pub fn done(&mut self, group: Group)
        requires { 0 < active_of self.old group.prio }
        ensures { self.new ≡ record self.old {
          active = slice_set self.old.active (class_number group.prio) (active_of self.old group.prio - 1);
        } }
    {
        self.active[class_number(group.prio) as usize] -= 1;
    }

    /// The class that `take` would serve; none exactly where no class has operations and room for a group.
    pub fn eligible(&self) -> Option<Prio>
        ensures { result ≡ eligible self.now }
    {
        eligible(&self.waiting, &self.active)
    }

    /// How many groups of a class are active: never more than its maximum.
    pub fn active(&self, prio: Prio) -> u32
        ensures value { result ≡ active_of self.now prio }
        ensures most { result ≤ maximum_of prio }
    {
        self.active[class_number(prio) as usize]
    }
}

/// The members as a group.
fn group_of(alloc: Global, prio: Prio, members: &[(Spot, Op)]) -> Result<Group, NoMemory>
    requires some { 0 < length members.now }
    requires fit { All FitsDevice (values_of members.now) }
    requires run { (gap : ℕ) × IsRun gap (values_of members.now) }
    ensures prio { IfOk result (λ group. group.prio ≡ prio) }
    ensures ops { IfOk result (λ group. group.ops ≡ values_of members.now) }
    ensures span { IfOk result (λ group. IsSpanOf group (values_of members.now)) }
    ensures fits { IfOk result (λ group. group.at + group.len < 2 ^ 64) }
{
    let mut ops = List::new(alloc);
    for (_, op) in members {
        ops.push(*op)?;
    }
    let at = members[0].1.at;
    let end = end_of(&members[members.len() - 1].1);
    Ok(Group {
        prio,
        at,
        len: end - at,
        ops,
    })
}
