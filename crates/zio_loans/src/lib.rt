//! What threads took out of a lock, work on outside it and bring back: what comes back is tied to what was lent.
//!
//! It stands on `zio_types` and on the kit's table of words and slots. Read `Loans`: whoever has the lock lends a value
//! and gets a `Loan`, which goes with the value and has no bytes, and settles that loan once the value comes back. A
//! contract sees a lender as the list of all that it lent, by number, with `None` for what came back (`specs/Out`), and
//! a loan as the number and the value that it shows (`specs/Lending`). The value itself goes where its owner moves it:
//! a lock's invariant can say of what is under the lock and of what is out together what it would say of the whole.
//! The rule that every step keeps is in `specs/Rule`.
#![tactic(auto)]

mod laws;
mod loans;
mod steps;
mod view;

pub use laws::each_loan_has_a_number_of_its_own;
pub use loans::{Lender, Loan, Loans};
pub use view::View;
