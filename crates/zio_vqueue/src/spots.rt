ghost use Rattle.std.specs.Prelude.{◌≡◌, ◌<◌, true, false, ◌&&◌, ◌||◌, ◌==◌, cond, not, None, Some, OnOk, OnErr};
ghost use Rattle.std.specs.List.Sorted.{IsStrictlySortedBy};
ghost use Rattle.std.specs.Map.{keys_of};
ghost use Rattle.zio_vqueue.specs.Classes.{class_number, is_sync};
ghost use Rattle.zio_vqueue.specs.Queues.{turn_in};
ghost use Rattle.zio_vqueue.specs.Spots.{at_spot, class_spot, first_on, is_sought_at, is_spot, join_shelf, join_spot, spot_cmp};
ghost use Rattle.zio_vqueue.specs.declared.spots.Spot.{Spot as Place};

use crate::class::{class_number, is_sync};
use crate::op::Op;
use std::collections::BTreeMap;
use zio_types::NoMemory;

/// Where an operation is sought: on a shelf, by a rank that orders it there, and by its time of putting. The classes'
/// shelves come first, and then those of operations that may be joined.
#[derive(Clone, Copy, PartialEq, Eq, PartialOrd, Ord)]
pub(crate) struct Spot {
    pub shelf: u8,
    pub rank: u64,
    pub time: u64,
}

/// The shelf of operations that read or write alike, repair alike, and may be joined.
pub(crate) fn join_shelf(write: bool, repair: bool) -> u8
    ensures value { result ≡ join_shelf write repair }
    ensures below { result < 9 }
{
    match (write, repair) {
        (false, false) => 5,
        (false, true) => 6,
        (true, false) => 7,
        (true, true) => 8,
    }
}

/// What orders an operation in its class before the time of putting.
fn turn(op: &Op) -> u64
    ensures { result ≡ turn_in (is_sync op.now.prio) op.now }
{
    if is_sync(op.prio) { 0 } else { op.at }
}

fn class_spot(time: u64, op: &Op) -> Spot
    ensures { result ≡ class_spot time op.now }
{
    Spot {
        shelf: class_number(op.prio),
        rank: turn(op),
        time,
    }
}

pub(crate) fn join_spot(time: u64, op: &Op) -> Spot
    ensures { result ≡ join_spot time op.now }
{
    Spot {
        shelf: join_shelf(op.write, op.flags.repair),
        rank: op.at,
        time,
    }
}

fn place(spots: &mut BTreeMap<Spot, Op>, spot: Spot, op: Op) -> Result<(), NoMemory>
    ensures ok { OnOk result ((q : Place)
        → at_spot spots.new.entries q ≡ cond (is_spot spot q) (Some op) (at_spot spots.old.entries q)) }
    ensures err { OnErr result ((q : Place) → at_spot spots.new.entries q ≡ at_spot spots.old.entries q) }
    ensures ordered { IsStrictlySortedBy spot_cmp (keys_of spots.new.entries) }
{
    spots.insert(spot, op)?;
    Ok(())
}

fn clear(spots: &mut BTreeMap<Spot, Op>, spot: Spot)
    ensures cleared { (q : Place)
        → at_spot spots.new.entries q ≡ cond (is_spot spot q) None (at_spot spots.old.entries q) }
    ensures ordered { IsStrictlySortedBy spot_cmp (keys_of spots.new.entries) }
{
    spots.remove(&spot);
}

/// Puts an operation at each of its spots. Where memory is refused it stands at some of them.
pub(crate) fn shelve(spots: &mut BTreeMap<Spot, Op>, time: u64, op: Op) -> Result<(), NoMemory>
    ensures ok { OnOk result ((q : Place)
        → at_spot spots.new.entries q ≡ cond (is_sought_at time op q) (Some op) (at_spot spots.old.entries q)) }
    ensures err { OnErr result ((q : Place) → is_sought_at time op q ≡ false
        → at_spot spots.new.entries q ≡ at_spot spots.old.entries q) }
    ensures ordered { IsStrictlySortedBy spot_cmp (keys_of spots.new.entries) }
{
    place(spots, class_spot(time, &op), op)?;
    if !op.flags.dont_aggregate {
        place(spots, join_spot(time, &op), op)?;
    }
    Ok(())
}

/// Takes an operation from each of its spots at which it stands.
pub(crate) fn unshelve(spots: &mut BTreeMap<Spot, Op>, time: u64, op: &Op)
    ensures cleared { (q : Place)
        → at_spot spots.new.entries q ≡ cond (is_sought_at time op.now q) None (at_spot spots.old.entries q) }
    ensures ordered { IsStrictlySortedBy spot_cmp (keys_of spots.new.entries) }
{
    clear(spots, class_spot(time, op));
    if !op.flags.dont_aggregate {
        clear(spots, join_spot(time, op));
    }
}

/// The first operation on a shelf from a rank on.
pub(crate) fn first_from(spots: &BTreeMap<Spot, Op>, shelf: u8, rank: u64) -> Option<(Spot, Op)>
    requires { shelf < 9 }
    ensures { result ≡ first_on shelf rank spots.now.entries }
{
    let start = Spot {
        shelf,
        rank,
        time: 0,
    };
    let end = Spot {
        shelf: shelf + 1,
        rank: 0,
        time: 0,
    };
    match spots.range(start..end).next() {
        Some((spot, op)) => Some((*spot, *op)),
        None => None,
    }
}
