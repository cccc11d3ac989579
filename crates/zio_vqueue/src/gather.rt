ghost use Rattle.std.specs.Prelude.{◌≡◌, ◌+◌, ◌<◌, ◌≤◌, ◌∷◌, ◌++◌, [], IfOk, IsTrue, ◌↔◌, reverse};
ghost use Rattle.std.specs.Map.{values_of};
ghost use Rattle.zio_vqueue.specs.Groups.{IsRun, gap_max, span_max};
ghost use Rattle.zio_vqueue.specs.Queues.{FitsDevice, end_of};
ghost use Rattle.zio_vqueue.specs.Spots.{AllFit, AreGathered, IsLowOf, IsRunAbove, IsRunBelow, above_spot, below_spot};

use crate::op::Op;
use crate::spots::{Spot, join_spot};
use std::alloc::Global;
use std::collections::BTreeMap;
use std::ops::Bound;
use zio_types::NoMemory;

/// Bytes in a group's span, at most, unless its first operation alone has more.
pub const SPAN_MAX: u64 = 1 << 20;

/// Bytes between two neighbours in a group of reads, at most.
pub const READ_GAP_MAX: u64 = 32 << 10;

/// Bytes between two neighbours of a group, at most: a write has no bytes for a gap.
fn gap_max(write: bool) -> u64
    ensures { result ≡ gap_max write }
{
    if write { 0 } else { READ_GAP_MAX }
}

/// The byte after an operation's last.
pub(crate) fn end_of(op: &Op) -> u64
    requires { FitsDevice op.now }
    ensures { result ≡ end_of op.now }
{
    op.at + u64::from(op.len)
}

/// Whether an operation at `at` may be the neighbour of one that ends at `end`, in a span from `low` to `high`.
fn may_follow(gap: u64, end: u64, at: u64, low: u64, high: u64) -> bool
    ensures { IsTrue result ↔ ((end ≤ at) × (at ≤ end + gap) × (high ≤ low + span_max)) }
{
    end <= at && at - end <= gap && high <= low.saturating_add(SPAN_MAX)
}

/// The operations below one on its shelf that are taken with it, from the highest down.
fn gather_below(
    alloc: Global,
    spots: &BTreeMap<Spot, Op>,
    from: Spot,
    first: &Op,
) -> Result<Vec<(Spot, Op)>, NoMemory>
    requires first { FitsDevice first.now }
    requires fit { AllFit spots.now.entries }
    ensures { IfOk result (λ found. IsRunBelow (gap_max first.now.write) first.now (below_spot from spots.now.entries)
        (reverse found.items)) }
{
    let gap = gap_max(first.write);
    let end = end_of(first);
    let start = Spot {
        shelf: from.shelf,
        rank: 0,
        time: 0,
    };
    let mut low = first.at;
    let mut found = Vec::new(alloc);
    for (spot, op) in spots.range(start..from).rev() {
        if !may_follow(gap, end_of(op), low, op.at, end) {
            break;
        }
        found.push((*spot, *op))?;
        low = op.at;
    }
    Ok(found)
}

/// The members, and the operations above the last of them on its shelf that are taken with them.
fn gather_above(
    spots: &BTreeMap<Spot, Op>,
    from: Spot,
    first: &Op,
    low: u64,
    lower: Vec<(Spot, Op)>,
) -> Result<Vec<(Spot, Op)>, NoMemory>
    requires first { FitsDevice first.now }
    requires shelf { from.shelf < 9 }
    requires fit { AllFit spots.now.entries }
    requires low { IsLowOf low (values_of lower.items) first.now }
    requires run { IsRun (gap_max first.now.write) (values_of lower.items ++ first.now ∷ []) }
    ensures { IfOk result (λ found. IsRunAbove (gap_max first.now.write) (lower.items ++ (from, first.now) ∷ [])
        (above_spot from spots.now.entries) found.items) }
{
    let gap = gap_max(first.write);
    let top = Spot {
        shelf: from.shelf + 1,
        rank: 0,
        time: 0,
    };
    let mut high = end_of(first);
    let mut members = lower;
    members.push((from, *first))?;
    for (spot, op) in spots.range((Bound::Excluded(from), Bound::Excluded(top))) {
        let end = end_of(op);
        if !may_follow(gap, high, op.at, low, end) {
            break;
        }
        members.push((*spot, *op))?;
        high = end;
    }
    Ok(members)
}

/// The members of the group around an operation that was put at a time, by rising offset.
pub(crate) fn gather(
    alloc: Global,
    spots: &BTreeMap<Spot, Op>,
    time: u64,
    first: &Op,
) -> Result<Vec<(Spot, Op)>, NoMemory>
    requires first { FitsDevice first.now }
    requires fit { AllFit spots.now.entries }
    ensures { IfOk result (λ members. AreGathered time first.now spots.now.entries members.items) }
{
    let spot = join_spot(time, first);
    if first.flags.dont_aggregate {
        let mut alone = Vec::new(alloc);
        alone.push((spot, *first))?;
        return Ok(alone);
    }
    let mut lower = gather_below(alloc, spots, spot, first)?;
    let low = match lower.last() {
        Some((_, op)) => op.at,
        None => first.at,
    };
    lower.reverse();
    gather_above(spots, spot, first, low, lower)
}
