// Receipts of one latch stand in one history.
ghost use Rattle.std.specs.Prelude.{◌≡◌, IfOk};
ghost use Rattle.std.specs.Arc.{arc_value};

use crate::arrived::{Arrived, Receipt};
use crate::child::Child;
use crate::meaning::{Fits, Rests};
use crate::owner::{Latch, Owner};
use crate::rule::{Apart, Beside, Compare, Show};
use crate::steps::Place;
use std::alloc::Global;
use std::sync::Arc;
use zio_types::NoMemory;

/// Keeps a latch, so that its receipts can be compared.
#[derive(Drop)]
pub struct Witness<N: Rests, R: Fits, V: Fits> {
    pub(crate) table: Arc<Latch<N, R, V>, Global>,
    pub ghost wide: { (arc_value table).shared.table_id.words ≡ 7 },
}

impl<N: Rests + Drop, R: Fits + Drop, V: Fits + Drop> Witness<N, R, V> {
    ghost use Rattle.zio_latch.specs.Calls.{latch_shown, shown};
    ghost use Rattle.zio_latch.specs.History.{AreOfOne};
    ghost use Rattle.zio_latch.specs.Receipts.{IsAgain, latch_kept};

    /// Of two receipts of this latch one shows a beginning of what the other shows.
    pub fn compare(&self, one: Receipt, other: Receipt) -> (Receipt, Receipt)
        requires { (latch_shown one ≡ latch_kept self.now) × (latch_shown other ≡ latch_kept self.now) }
        ensures order { AreOfOne (shown one) (shown other) }
        ensures same { IsAgain one result.0 × IsAgain other result.1 }
    {
        let Receipt { badge } = one;
        let mut seat: Place<N, R, V> = badge.into_seat();
        let Receipt { badge } = other;
        self.table
            .shared
            .join_seat::<Beside>(&mut seat, badge.into_seat());
        self.table.shared.load::<Compare>(&mut seat, 0);
        let second = self.table.shared.split_seat::<Apart>(&mut seat);
        (
            Receipt {
                badge: seat.into_badge(),
            },
            Receipt {
                badge: second.into_badge(),
            },
        )
    }
}

impl<N: Rests + Drop, R: Fits + Drop, V: Fits + Drop> Owner<N, R, V> {
    ghost use Rattle.zio_latch.specs.Calls.{capacity, history, kids, latch_of as owners_latch, latch_shown, shown};
    ghost use Rattle.zio_latch.specs.Receipts.{latch_kept};

    /// Keeps this latch for its receipts.
    pub fn witness(&self) -> Result<Witness<N, R, V>, NoMemory>
        ensures { IfOk result (λ w. latch_kept w ≡ owners_latch self.now) }
    {
        Ok(Witness {
            table: Arc::try_clone(&self.table)?,
        })
    }

    /// A receipt of the history that the owner knows.
    pub fn receipt(&mut self) -> Receipt
        ensures shown { (shown result ≡ history self.old) × (latch_shown result ≡ owners_latch self.old) }
        ensures same { (history self.new ≡ history self.old) × (kids self.new ≡ kids self.old)
            × (capacity self.new ≡ capacity self.old) × (owners_latch self.new ≡ owners_latch self.old) }
    {
        Receipt {
            badge: self
                .table
                .shared
                .split_seat::<Show>(&mut self.seat)
                .into_badge(),
        }
    }
}

impl<N: Rests + Drop, R: Fits + Drop, V: Fits + Drop> Child<N, R, V> {
    ghost use Rattle.zio_latch.specs.Calls.{latch_shown, seen_by, shown};

    /// A receipt of the history that the child knows.
    pub fn receipt(&mut self) -> Receipt
        ensures shown { (shown result ≡ seen_by self.old) × (latch_shown result ≡ self.old.seat.table_id) }
        ensures same { (seen_by self.new ≡ seen_by self.old) × (self.new.ready ≡ self.old.ready)
            × (self.new.kind ≡ self.old.kind) × (self.new.number ≡ self.old.number)
            × (self.new.label ≡ self.old.label) × (self.new.seat.table_id ≡ self.old.seat.table_id) }
    {
        Receipt {
            badge: self
                .table
                .shared
                .split_seat::<Show>(&mut self.seat)
                .into_badge(),
        }
    }
}

impl<N: Rests + Drop, R: Fits + Drop, V: Fits + Drop> Arrived<N, R, V> {
    ghost use Rattle.zio_latch.specs.Calls.{latch_shown, shown};
    ghost use Rattle.zio_latch.specs.Takes.{IsSame};
    ghost use Rattle.zio_latch.specs.Wakes.{history_at, latch_of, pending};

    /// A receipt of the history up to the wake.
    pub fn receipt(&mut self) -> Receipt
        ensures shown { (shown result ≡ history_at self.old) × (latch_shown result ≡ latch_of self.old) }
        ensures same { IsSame self.old self.new × (pending self.new ≡ pending self.old) }
    {
        Receipt {
            badge: self
                .table
                .shared
                .split_seat::<Show>(&mut self.seat)
                .into_badge(),
        }
    }
}
