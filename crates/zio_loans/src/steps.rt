//! The steps of a seat. The word that they load or exchange stays 0: a view changes only at a step on a word.
ghost use Rattle.std.specs.Prelude.{◌≡◌, ℕ, [], ◌∷◌, ◌++◌, length, Some, None, slice_set};

use crate::loans::{Lender, Loan, Loans};
use crate::view::{Hand, Lending, Settling};

impl<T> Loans<T> {
    ghost use Rattle.zio_loans.specs.Out.{IsOut};
    ghost use Rattle.zio_loans.specs.Rule.{first_hand, lender, lending, with_hands, without_first};
    ghost use Rattle.zio_loans.specs.Lending.{IsLender, lent_by, table_of};
    ghost use Rattle.zio_loans.specs.declared.view.View.{View as SeatView};

    // Enters a value under the next number, and leaves it in the lender's hand.
    pub(crate) fn enter(&self, seat: &mut Lender<T>, value: &T)
        requires { IsLender (table_of self.now) seat.old }
        ensures table { seat.new.table_id ≡ seat.old.table_id }
        ensures me { seat.new.me
            ≡ (lending (lent_by seat.old ++ Some value.now ∷ []) (length (lent_by seat.old)) value.now, []) }
    {
        self.table
            .shared
            .compare_exchange_with::<Lending>(seat, 0, 0, 0, value);
    }

    // What came into a seat's hands last, as a loan of its own.
    pub(crate) fn cut_off(&self, seat: &mut Lender<T>) -> Loan<T>
        requires { seat.old.table_id ≡ table_of self.now }
        ensures table { (seat.new.table_id ≡ seat.old.table_id) × (result.table_id ≡ seat.old.table_id) }
        ensures me { seat.new.me ≡ (without_first seat.old.me.0, seat.old.me.1) }
        ensures loan { result.views ≡ first_hand seat.old.me.0 ∷ [] }
    {
        self.table.shared.split_seat::<Hand>(seat).into_badge()
    }

    // Takes a loan into a seat's hands.
    pub(crate) fn take_in(&self, seat: &mut Lender<T>, loan: Loan<T>)
        requires table { (seat.old.table_id ≡ table_of self.now) × (loan.table_id ≡ table_of self.now) }
        requires loan { (v : SeatView T) × (loan.views ≡ v ∷ []) }
        ensures table { seat.new.table_id ≡ seat.old.table_id }
        ensures me { (v : SeatView T) → loan.views ≡ v ∷ []
            → seat.new.me ≡ (with_hands seat.old.me.0 v, seat.old.me.1) }
    {
        self.table.shared.join_seat::<Hand>(seat, loan.into_seat());
    }

    // Strikes out the one loan in the lender's hand.
    pub(crate) fn strike_out(&self, seat: &mut Lender<T>)
        requires table { seat.old.table_id ≡ table_of self.now }
        requires hand { (n : ℕ) × (x : T) × (seat.old.me ≡ (lending (lent_by seat.old) n x, [])) }
        ensures table { seat.new.table_id ≡ seat.old.table_id }
        ensures back { (n : ℕ) (x : T) → seat.old.me.0.hands ≡ (n, x) ∷ []
            → IsOut (lent_by seat.old) n x
            × (seat.new.me ≡ (lender (slice_set (lent_by seat.old) n None), seat.old.me.1)) }
    {
        self.table.shared.load::<Settling>(seat, 0);
    }
}
