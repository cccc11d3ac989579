ghost use Rattle.std.specs.Prelude.{◌≡◌, ◌≢◌, ℕ, ◌+◌, List, [], ◌∷◌, ◌++◌, length, IfOk, Some};

use crate::view::{Comparing, Ruled, View};
use atomic_table::{Badge, Seat, Table};
use std::alloc::Global;
use zio_types::NoMemory;

/// Values that are out, each with whoever borrowed it. Threads share it, and it has no bytes of its own but a word.
#[derive(Drop)]
pub struct Loans<T> {
    pub(crate) table: Table<T, View<T>, (), Ruled, Global>,
    ghost sized: { table.shared.table_id.words ≡ 1 },
}

/// Who lends: the one seat that knows all that is out. It lies under the lock whose values it lends, and has no bytes.
pub type Lender<T> = Seat<T, View<T>>;

/// What goes with a value that is out. It shows the value as it was lent, and its number, and has no bytes.
pub type Loan<T> = Badge<View<T>>;

impl<T> Loans<T> {
    ghost use Rattle.zio_loans.specs.Out.{ComesBack, count_out};
    ghost use Rattle.zio_loans.specs.Lending.{IsLender, IsLoan, IsSameLoan, Shows, lent_by, table_of};

    /// Loans of which nothing is out, and the one seat that lends. `NoMemory` where there was none for the word.
    pub fn new(alloc: Global) -> Result<(Loans<T>, Lender<T>), NoMemory>
        ensures lender { IfOk result (λ r. IsLender (table_of r.0) r.1) }
        ensures none { IfOk result (λ r. lent_by r.1 ≡ []) }
    {
        let (table, lender) = Table::of_words(alloc, &[0], &())?;
        Ok((Loans { table }, lender))
    }

    /// Lends a value, which is out from now on under the next number: as many were lent before. It always comes to a
    /// loan, which shows this value under that number. It takes no memory, and costs two steps on a word.
    pub fn lend(&self, seat: &mut Lender<T>, value: &T) -> Loan<T>
        requires { IsLender (table_of self.now) seat.old }
        ensures lender { IsLender (table_of self.now) seat.new }
        ensures out { lent_by seat.new ≡ lent_by seat.old ++ Some value.now ∷ [] }
        ensures loan { Shows (table_of self.now) result (length (lent_by seat.old)) value.now }
        ensures count { count_out (lent_by seat.new) ≡ count_out (lent_by seat.old) + 1 }
    {
        self.enter(seat, value);
        self.cut_off(seat)
    }

    /// Takes a loan back. The value that it shows was out under its number until now and is out no longer, and all
    /// others are as they were. So what was done to the value since can be told from what it was when it went out. It
    /// refuses nothing, and costs two steps on a word.
    pub fn settle(&self, seat: &mut Lender<T>, loan: Loan<T>)
        requires lender { IsLender (table_of self.now) seat.old }
        requires loan { IsLoan (table_of self.now) loan }
        ensures lender { IsLender (table_of self.now) seat.new }
        ensures back { (number : ℕ) (value : T) → Shows (table_of self.now) loan number value
            → ComesBack (lent_by seat.old) number value (lent_by seat.new) }
        ensures count { count_out (lent_by seat.old) ≡ count_out (lent_by seat.new) + 1 }
    {
        self.take_in(seat, loan);
        self.strike_out(seat);
    }

    /// Two loans show different numbers. Both are handed back as they were, the first one first. It needs no lender,
    /// and costs three steps on a word.
    pub fn compare(&self, one: Loan<T>, other: Loan<T>) -> (Loan<T>, Loan<T>)
        requires one { IsLoan (table_of self.now) one }
        requires other { IsLoan (table_of self.now) other }
        ensures apart { (n k : ℕ) (x y : T) → Shows (table_of self.now) one n x → Shows (table_of self.now) other k y
            → n ≢ k }
        ensures same { IsSameLoan one result.0 × IsSameLoan other result.1 }
    {
        let mut seat: Seat<T, View<T>> = one.into_seat();
        self.take_in(&mut seat, other);
        self.table.shared.load::<Comparing>(&mut seat, 0);
        let second = self.cut_off(&mut seat);
        (seat.into_badge(), second)
    }
}
