// What the plans of a read say, and where their children lie.

ghost use Rattle.std.specs.Prelude.{◌≡◌, ◌<◌, ◌≤◌, [], length, map, option_map, slice_get};
ghost use Rattle.zio_mirror.specs.Plans.{place_of, step_of};
ghost use Rattle.zio_parts.specs.Copies.{AreMirrored, IsMirrored, leaves_at, spot_at};
ghost use Rattle.zio_parts.specs.CopyReads.{child_in, error_in, leaf_at, order_at, repairs_from};

use crate::copies::{Target, leaves_at};
use zio_mirror::{PlanStep, ReadPlan};
use zio_types::{Errno, Place, SECTOR_SIZE, Top};

/// The error of a plan whose children all failed.
pub(crate) fn all_failed(plan: &ReadPlan) -> Option<Errno>
    ensures { result ≡ error_in (step_of plan.now) }
{
    match plan.next() {
        PlanStep::Bad(error) => Some(error),
        PlanStep::Try(_) | PlanStep::Good(_) => None,
    }
}

/// The child that is to be tried.
pub(crate) fn child_to_try(plan: &ReadPlan) -> u32
    ensures { result ≡ child_in (step_of plan.now) }
{
    match plan.next() {
        PlanStep::Try(child) => child,
        PlanStep::Good(_) | PlanStep::Bad(_) => 0,
    }
}

/// A plan over the leaves of a place.
fn plan_over(tops: &[Top], place: &Place) -> ReadPlan
    requires { IsMirrored tops.now place.now }
    ensures order { result.order ≡ order_at tops.now place.now }
    ensures answers { result.answers ≡ [] }
{
    let leaves = leaves_at(tops, place).len() as u32;
    ReadPlan::for_leaves(leaves, place.sector * SECTOR_SIZE as u64)
}

/// A plan over the leaves of the nth place, or behind the last place any plan.
pub(crate) fn plan_at(tops: &[Top], places: &[Place], n: usize) -> ReadPlan
    requires { AreMirrored tops.now places.now }
    ensures order { n < length places.now → result.order ≡ order_at tops.now (place_of places.now n) }
    ensures least { 0 < length result.order }
    ensures most { length result.order ≤ 4 }
    ensures answers { result.answers ≡ [] }
{
    match places {
        [] => ReadPlan::for_leaves(1, 0),
        [place, rest @ ..] => {
            if n == 0 {
                plan_over(tops, place)
            } else {
                plan_at(tops, rest, n - 1)
            }
        }
    }
}

/// The leaf that a child of a plan over a place's leaves stands for.
pub(crate) fn leaf_at(tops: &[Top], place: &Place, child: u32) -> u32
    ensures { result ≡ leaf_at tops.now place.now child }
{
    match leaves_at(tops, place).get(child as usize) {
        Some(leaf) => *leaf,
        None => 0,
    }
}

/// The nth copy that a good read rewrites: of all leaves of the places before, and of the leaves that failed in
/// the place with the good one.
pub(crate) fn nth_repair(
    tops: &[Top],
    places: &[Place],
    tried: usize,
    failed: &[u32],
    n: usize,
) -> Option<Target>
    requires { tried < length places.now }
    ensures { option_map spot_at result ≡ slice_get (repairs_from tops.now places.now tried failed.now) n }
{
    match places {
        [] => None,
        [place, rest @ ..] => {
            if tried == 0 {
                if n < failed.len() {
                    let leaf = leaf_at(tops, place, failed[n]);
                    return Some(Target {
                        place: *place,
                        leaf,
                    });
                }
                return None;
            }
            let leaves = leaves_at(tops, place);
            if n < leaves.len() {
                let leaf = leaves[n];
                return Some(Target {
                    place: *place,
                    leaf,
                });
            }
            nth_repair(tops, rest, tried - 1, failed, n - leaves.len())
        }
    }
}
