ghost use Rattle.std.specs.Prelude.{◌≡◌, ◌+◌, ◌<◌, ◌^◌, ◌++◌, ◌∷◌, [], ℕ, All, IfOk, OnOk, OnErr, Some, None, ◌==◌, cond, not, filter, false, find};
ghost use Rattle.std.specs.Map.{values_of};
ghost use Rattle.std.specs.BTreeMap.{is_at};
ghost use Rattle.std.specs.Ordering.{nat_cmp};
ghost use Rattle.zio_vqueue.specs.Classes.{classes};
ghost use Rattle.zio_vqueue.specs.Queues.{AreApart, FitsDevice, is_queued, or_else, without};
ghost use Rattle.zio_vqueue.specs.Spots.{AreBefore, AreCounted, AreThere, IsIndexed, at_time, first_served, is_due_by, ops_at, timed_of};

use crate::class::{ACTIVE_MAX, ACTIVE_MIN, CLASSES, class_number, is_sync};
use crate::op::Op;
use crate::spots::{Spot, first_from, shelve, unshelve};
use std::alloc::Global;
use std::collections::BTreeMap;
use zio_types::{NoMemory, Prio};

/// Puts an operation at its spots, at a time after those of all others; or nowhere, where memory is refused.
pub(crate) fn enter(spots: &mut BTreeMap<Spot, Op>, time: u64, op: Op) -> Result<(), NoMemory>
    requires indexed { IsIndexed (timed_of spots.old.entries) spots.old.entries }
    requires fits { FitsDevice op }
    requires apart { is_queued op.ticket (ops_at spots.old.entries) ≡ false }
    requires later { AreBefore time (timed_of spots.old.entries) }
    ensures ok { OnOk result (timed_of spots.new.entries ≡ timed_of spots.old.entries ++ (time, op) ∷ []) }
    ensures err { OnErr result (timed_of spots.new.entries ≡ timed_of spots.old.entries) }
    ensures indexed { IsIndexed (timed_of spots.new.entries) spots.new.entries }
{
    match shelve(spots, time, op) {
        Ok(()) => Ok(()),
        Err(refused) => {
            unshelve(spots, time, &op);
            Err(refused)
        }
    }
}

/// The operations by time.
fn by_time(alloc: Global, spots: &BTreeMap<Spot, Op>) -> Result<BTreeMap<u64, Op>, NoMemory>
    ensures { IfOk result (λ ops. ops.entries ≡ timed_of spots.now.entries) }
{
    let mut ops = BTreeMap::new(alloc);
    for (spot, op) in spots {
        ops.insert(spot.time, *op)?;
    }
    Ok(ops)
}

/// Operations at their spots, and a time after all of them.
#[derive(Drop)]
struct Timed {
    spots: BTreeMap<Spot, Op>,
    next: u64,
}

/// The same operations in the same order, at times from 0 on.
fn timed_anew(alloc: Global, queued: &BTreeMap<u64, Op>) -> Result<Timed, NoMemory>
    requires apart { AreApart (values_of queued.now.entries) }
    requires fit { All FitsDevice (values_of queued.now.entries) }
    ensures same { IfOk result (λ timed. ops_at timed.spots.entries ≡ values_of queued.now.entries) }
    ensures indexed { IfOk result (λ timed. IsIndexed (timed_of timed.spots.entries) timed.spots.entries) }
    ensures before { IfOk result (λ timed. AreBefore timed.next (timed_of timed.spots.entries)) }
    ensures few { IfOk result (λ timed. timed.next < 2 ^ 63) }
{
    let mut spots = BTreeMap::new(alloc);
    let mut next = 0;
    for op in queued.values() {
        enter(&mut spots, next, *op)?;
        next += 1;
    }
    Ok(Timed { spots, next })
}

/// A time after those of all operations. Once such times are used up the operations are put at times from 0 on.
pub(crate) fn next_time(
    alloc: Global,
    spots: &mut BTreeMap<Spot, Op>,
    next: u64,
) -> Result<u64, NoMemory>
    requires indexed { IsIndexed (timed_of spots.old.entries) spots.old.entries }
    requires before { AreBefore next (timed_of spots.old.entries) }
    ensures same { ops_at spots.new.entries ≡ ops_at spots.old.entries }
    ensures indexed { IsIndexed (timed_of spots.new.entries) spots.new.entries }
    ensures before { IfOk result (λ time. AreBefore time (timed_of spots.new.entries)) }
    ensures fits { IfOk result (λ time. time + 1 < 2 ^ 64) }
    ensures err { OnErr result (timed_of spots.new.entries ≡ timed_of spots.old.entries) }
{
    if next < u64::MAX {
        return Ok(next);
    }
    let queued = by_time(alloc, spots)?;
    let timed = timed_anew(alloc, &queued)?;
    *spots = timed.spots;
    Ok(timed.next)
}

/// Takes the members from their spots.
pub(crate) fn withdraw(
    spots: &mut BTreeMap<Spot, Op>,
    waiting: &mut [u64; 5],
    members: &[(Spot, Op)],
)
    requires indexed { IsIndexed (timed_of spots.old.entries) spots.old.entries }
    requires counted { AreCounted waiting.old (ops_at spots.old.entries) }
    requires there { AreThere (timed_of spots.old.entries) members.now }
    requires apart { AreApart (values_of members.now) }
    ensures queued { ops_at spots.new.entries ≡ without (values_of members.now) (ops_at spots.old.entries) }
    ensures before { (time : ℕ) → AreBefore time (timed_of spots.old.entries)
        → AreBefore time (timed_of spots.new.entries) }
    ensures indexed { IsIndexed (timed_of spots.new.entries) spots.new.entries }
    ensures counted { AreCounted waiting.new (ops_at spots.new.entries) }
{
    for (spot, op) in members {
        withdraw_one(spots, waiting, spot.time, op);
    }
}

fn withdraw_one(spots: &mut BTreeMap<Spot, Op>, waiting: &mut [u64; 5], time: u64, op: &Op)
    requires indexed { IsIndexed (timed_of spots.old.entries) spots.old.entries }
    requires counted { AreCounted waiting.old (ops_at spots.old.entries) }
    requires there { at_time (timed_of spots.old.entries) time ≡ Some op.now }
    ensures queued { ops_at spots.new.entries ≡ filter (λ o. not (o.ticket == op.now.ticket))
        (ops_at spots.old.entries) }
    ensures times { (t : ℕ) → at_time (timed_of spots.new.entries) t
        ≡ cond (is_at (nat_cmp time) t) None (at_time (timed_of spots.old.entries) t) }
    ensures before { (t : ℕ) → AreBefore t (timed_of spots.old.entries) → AreBefore t (timed_of spots.new.entries) }
    ensures indexed { IsIndexed (timed_of spots.new.entries) spots.new.entries }
    ensures counted { AreCounted waiting.new (ops_at spots.new.entries) }
{
    unshelve(spots, time, op);
    waiting[class_number(op.prio) as usize] -= 1;
}

/// The operation of a class that is served first, with its time, where groups so far ended at `last`.
pub(crate) fn first_served(spots: &BTreeMap<Spot, Op>, prio: Prio, last: u64) -> Option<(Spot, Op)>
    ensures { result ≡ first_served prio last spots.now.entries }
{
    let class = class_number(prio);
    let start = if is_sync(prio) { 0 } else { last };
    match first_from(spots, class, start) {
        Some(first) => Some(first),
        None => first_from(spots, class, 0),
    }
}

/// The class that is served next, where so many operations of each class wait.
pub(crate) fn eligible(waiting: &[u64; 5], active: &[u32; 5]) -> Option<Prio>
    ensures { result ≡ or_else (find (is_due_by waiting.now active.now ACTIVE_MIN) classes)
        (find (is_due_by waiting.now active.now ACTIVE_MAX) classes) }
{
    match first_due(waiting, active, &ACTIVE_MIN) {
        Some(prio) => Some(prio),
        None => first_due(waiting, active, &ACTIVE_MAX),
    }
}

/// The first class with operations and fewer active groups than its limit.
fn first_due(waiting: &[u64; 5], active: &[u32; 5], limits: &[u32; 5]) -> Option<Prio>
    ensures { result ≡ find (is_due_by waiting.now active.now limits.now) classes }
{
    for prio in &CLASSES {
        if is_due(waiting, active, limits, *prio) {
            return Some(*prio);
        }
    }
    None
}

fn is_due(waiting: &[u64; 5], active: &[u32; 5], limits: &[u32; 5], prio: Prio) -> bool
    ensures { result ≡ is_due_by waiting.now active.now limits.now prio }
{
    let number = class_number(prio) as usize;
    waiting[number] > 0 && active[number] < limits[number]
}
