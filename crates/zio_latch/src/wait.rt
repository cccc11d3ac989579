// The calls that wait and that wake.
ghost use Rattle.std.specs.Prelude.{◌≡◌, ◌≢◌, IfErr, IfOk, IfSome, MatchResult, MatchOption, true, false};
ghost use Rattle.zio_types.specs.declared.request.ChildKind.TheVariants.{Vdev};
ghost use Rattle.zio_types.specs.declared.request.Phase.TheVariants.{Ready, Done};
ghost use Rattle.zio_latch.specs.Calls.{capacity, kids, latch_of as owners_latch, latch_shown, seen_by, shown};
ghost use Rattle.zio_latch.specs.History.{ChildStep, count_at};
ghost use Rattle.zio_latch.specs.Latch.{RestsOn};
ghost use Rattle.zio_latch.specs.Wakes.{IsAsWaited, IsFresh, IsWait};
ghost use Rattle.zio_latch.specs.Wakes.{capacity_of, history_at, kids_at, latch_of, pending};
ghost use Rattle.zio_latch.specs.Kids.{due};

use crate::arrived::{Parked, Receipt, Woken};
use crate::child::Child;
use crate::meaning::{Fits, Rests};
use crate::owner::Owner;
use crate::rule::Hand;
use crate::steps::{give, park};
use crate::view::Cell;
use crate::wake::wake;
use std::marker::Brand;
use zio_types::{ChildKind, Phase};

impl<N: Rests + Drop, R: Fits + Drop, V: Fits + Drop> Owner<N, R, V> {
    /// Waits for the values of the children of a kind, and parks the node. `Parked` where a child of the kind has yet
    /// to give its value of the phase: the child that gives the last one is `Woken` with the node. Otherwise `Woken`
    /// at once. So it is for vdev children and their ready values, of which there are none.
    pub fn wait(self, node: N, kind: ChildKind, phase: Phase) -> Result<Woken<N, R, V>, Parked>
        requires { RestsOn N.rests node (kids self) }
        ensures found { MatchResult result
            (λ w. IsWait kind phase self (history_at w.arrived) × (count_at kind phase (history_at w.arrived) ≡ 0))
            (λ p. IsWait kind phase self (shown p.receipt) × (count_at kind phase (shown p.receipt) ≢ 0)) }
        ensures vdevs { IfErr result (λ _. kind ≡ Vdev → phase ≢ Ready) }
        ensures woken { IfOk result (λ w. IsFresh kind phase (kids self) w.arrived) }
        ensures rests { IfOk result (λ w. RestsOn N.rests w.node (kids self)) }
        ensures latch { MatchResult result
            (λ w. (latch_of w.arrived ≡ owners_latch self) × (capacity_of w.arrived ≡ capacity self))
            (λ p. latch_shown p.receipt ≡ owners_latch self) }
    {
        let Owner {
            table,
            mut seat,
            roll,
        } = self;
        if park::<Brand, N, R, V>(&table.shared, &mut seat, node, roll, kind, phase) == 0 {
            Ok(wake(table, seat, kind, phase))
        } else {
            Err(Parked {
                receipt: Receipt {
                    badge: seat.into_badge(),
                },
            })
        }
    }
}

impl<N: Rests + Drop, R: Fits + Drop, V: Fits + Drop> Child<N, R, V> {
    /// Gives the ready value. The owner goes on where it waited for this value alone.
    pub fn ready(&mut self, value: R) -> Option<Woken<N, R, V>>
        requires kind { self.old.kind ≢ Vdev }
        requires first { self.old.ready ≡ false }
        requires fits { R.fits value self.old.label }
        ensures came { MatchOption result
            (ChildStep Ready self.old.kind self.old.number (seen_by self.old) (seen_by self.new) false)
            (λ w. ChildStep Ready self.old.kind self.old.number (seen_by self.old) (seen_by self.new) true
            × (history_at w.arrived ≡ seen_by self.new)) }
        ensures woken { IfSome result (λ w. IsFresh self.old.kind Ready (kids_at w.arrived) w.arrived
            × IsAsWaited self.old.kind Ready w.arrived) }
        ensures rests { IfSome result (λ w. RestsOn N.rests w.node (kids_at w.arrived)) }
        ensures latch { IfSome result (λ w. latch_of w.arrived ≡ self.old.seat.table_id) }
        ensures child { (self.new.ready ≡ true) × (self.new.kind ≡ self.old.kind)
            × (self.new.number ≡ self.old.number) × (self.new.label ≡ self.old.label)
            × (self.new.seat.table_id ≡ self.old.seat.table_id) }
    {
        let found = give(
            &self.table.shared,
            &mut self.seat,
            self.kind,
            self.place,
            Phase::Ready,
            Cell::ReadyValue(value),
        );
        self.ready = true;
        let spare = self.spare.take();
        if found != 3 {
            return None;
        }
        let Some(table) = spare else { unreachable!() };
        let owner = self.table.shared.split_seat::<Hand>(&mut self.seat);
        Some(wake(table, owner, self.kind, Phase::Ready))
    }

    /// Gives the done value. The owner goes on where it waited for this value alone. Otherwise a receipt shows that the
    /// value brought no wake.
    pub fn done(self, value: V) -> Result<Woken<N, R, V>, Receipt>
        requires given { self.ready ≡ true }
        requires fits { V.fits value self.label }
        ensures came { MatchResult result
            (λ w. ChildStep Done self.kind self.number (seen_by self) (history_at w.arrived) true)
            (λ r. ChildStep Done self.kind self.number (seen_by self) (shown r) false) }
        ensures woken { IfOk result (λ w. IsFresh self.kind Done (kids_at w.arrived) w.arrived
            × IsAsWaited self.kind Done w.arrived) }
        ensures rests { IfOk result (λ w. RestsOn N.rests w.node (kids_at w.arrived)) }
        ensures latch { MatchResult result
            (λ w. latch_of w.arrived ≡ self.seat.table_id)
            (λ r. latch_shown r ≡ self.seat.table_id) }
    {
        let Child {
            table,
            spare: _,
            mut seat,
            number: _,
            label: _,
            kind,
            place,
            ready: _,
        } = self;
        if give(
            &table.shared,
            &mut seat,
            kind,
            place,
            Phase::Done,
            Cell::DoneValue(value),
        ) != 3
        {
            return Err(Receipt {
                badge: seat.into_badge(),
            });
        }
        Ok(wake(table, seat, kind, Phase::Done))
    }
}
