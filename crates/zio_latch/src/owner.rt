ghost use Rattle.std.specs.Prelude.{◌≡◌, ℕ, ◌+◌, ◌-◌, ◌*◌, ◌^◌, ◌<◌, ◌≤◌, [], length, IfOk, IfErr, MatchOption, slice_index_or, vec_len, vec_capacity};
ghost use Rattle.std.specs.Arc.{arc_value};
ghost use Rattle.zio_latch.specs.Owners.{OwnerIs};
ghost use Rattle.zio_latch.specs.Starts.{AreBare, AreApart};

use crate::child::Child;
use crate::meaning::{Fits, Rests};
use crate::roll::Roll;
use crate::rule::{Law, Part};
use crate::steps::{Place, has_ready, raise};
use crate::view::{Cell, View};
use atomic_table::Table;
use std::alloc::{AllocError, Global};
use std::marker::Brand;
use std::sync::Arc;
use zio_types::{ChildKind, NoMemory};

pub(crate) type Latch<N, R, V> = Table<Cell<N, R, V>, View, Vec<u32>, Law, Global>;

/// A request's side of its latch: it adds children and waits for them.
#[derive(Drop)]
pub struct Owner<N: Rests, R: Fits, V: Fits> {
    pub(crate) table: Arc<Latch<N, R, V>, Global>,
    pub(crate) seat: Place<N, R, V>,
    pub(crate) roll: Roll,
    pub ghost is: { OwnerIs (arc_value table).shared.table_id seat.table_id seat.me roll },
}

// The places of so many children.
fn all_places(alloc: Global, most: u32) -> Result<Vec<u32>, AllocError>
    ensures { IfOk result (λ v. (vec_len v ≡ most) × (most ≤ vec_capacity v) × AreApart most v.items) }
{
    let mut free = Vec::with_capacity(alloc, most as usize)?;
    for place in 0..most {
        free.push_reserved(place);
    }
    Ok(free)
}

// Slots that hold nothing.
fn bare_slots<N: Drop, R: Drop, V: Drop>(
    alloc: Global,
    count: usize,
) -> Result<Vec<Cell<N, R, V>>, AllocError>
    ensures { IfOk result (λ v. (vec_len v ≡ count) × AreBare v.items) }
{
    let mut slots = Vec::with_capacity(alloc, count)?;
    for _ in 0..count {
        slots.push_reserved(Cell::Bare);
    }
    Ok(slots)
}

impl<N: Rests + Drop, R: Fits + Drop, V: Fits + Drop> Owner<N, R, V> {
    ghost use Rattle.std.specs.Prelude.{◌∷◌, ◌++◌, false};
    ghost use Rattle.std.specs.Option.{ForSome, is_some};
    ghost use Rattle.zio_latch.specs.Kids.{live_count, new_kid, vdev_not};
    ghost use Rattle.zio_latch.specs.Calls.{capacity, history, kids, latch_of};
    ghost use Rattle.zio_latch.specs.Added.{IsNextOf};

    /// A latch without children, for at most `capacity` that owe a value at once.
    pub fn new(alloc: Global, capacity: u32) -> Result<Owner<N, R, V>, NoMemory>
        requires { (0 < capacity) × (capacity ≤ 512) }
        ensures { IfOk result (λ o. (kids o ≡ []) × (o.roll.most ≡ capacity) × (history o ≡ [])) }
    {
        let free = all_places(alloc, capacity)?;
        let most = capacity as usize;
        let slots = bare_slots(alloc, most + most + 1)?;
        let Ok((table, seat)) = Table::new(alloc, &[0, 0, 0, 0, 0, 0, 0], slots, &free) else {
            return Err(NoMemory);
        };
        let table = Arc::new(alloc, table)?;
        let roll = Roll::new(alloc, most, free)?;
        Ok(Owner { table, seat, roll })
    }

    /// Adds a child under a label, and gives it the next number. `None` where `capacity` children owe a value.
    pub fn add(&mut self, kind: ChildKind, label: u64) -> Result<Option<Child<N, R, V>>, NoMemory>
        requires { length (kids self.old) < 2 ^ 32 - 1 }
        ensures added { IfOk result (λ a. MatchOption a
            ((live_count (kids self.old) ≡ capacity self.old)
            × (kids self.new ≡ kids self.old) × (history self.new ≡ history self.old))
            (λ child. (live_count (kids self.old) < capacity self.old)
            × IsNextOf self.old kind label child self.new)) }
        ensures refused { IfErr result
            (λ _. (kids self.new ≡ kids self.old) × (history self.new ≡ history self.old)) }
        ensures latch { (capacity self.new ≡ capacity self.old) × (latch_of self.new ≡ latch_of self.old) }
    {
        let Some(place) = self.roll.last() else {
            return Ok(None);
        };
        let table = Arc::try_clone(&self.table)?;
        let spare = self.spare(kind)?;
        raise::<Brand, N, R, V>(&self.table.shared, &mut self.seat, kind, label, place);
        let seat = self.table.shared.split_seat::<Part>(&mut self.seat);
        let number = self.roll.enter(kind, place, has_ready(kind));
        Ok(Some(Child {
            table,
            spare,
            seat,
            number,
            label,
            kind,
            place,
            ready: !has_ready(kind),
        }))
    }

    // A second pointer for a child that gives two values: whoever gives a value may become the owner.
    fn spare(&self, kind: ChildKind) -> Result<Option<Arc<Latch<N, R, V>, Global>>, AllocError>
        ensures { IfOk result (λ o. (is_some o ≡ vdev_not kind)
            × ForSome o (λ a. (arc_value a).shared.table_id ≡ (arc_value self.now.table).shared.table_id)) }
    {
        if has_ready(kind) {
            Ok(Some(Arc::try_clone(&self.table)?))
        } else {
            Ok(None)
        }
    }
}
