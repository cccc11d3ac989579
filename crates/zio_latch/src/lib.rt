//! A counted latch between a request and its children.
//!
//! It stands on `zio_types` and on the kit's table of words and slots. Read `Owner`, `Child`, `Woken` and `Arrived`. A
//! contract sees an owner as its children by number, each with its kind, its label and what it owes, and an `Arrived`
//! as the numbers whose values are yet to be taken: `specs/Calls`, `specs/Wakes` and `specs/Takes`. All calls at a
//! latch stand in one history (`specs/History`), and each answer shows it up to the call's own step: `wait` and `done`
//! by a
//! `Receipt` where no wake came. `Witness::compare` says that receipts of one latch show one history, and the laws say
//! that each wait that parks gets just one wake. What each step tells is in `specs/Plays`, and the rule that every step
//! keeps in `specs/Latch`.
#![tactic(auto)]

mod arrived;
mod child;
mod laws;
mod meaning;
mod next;
mod owner;
mod receipt;
mod roll;
mod rule;
mod steps;
mod take;
mod view;
mod wait;
mod wake;

pub use arrived::{Arrival, Arrived, Parked, Receipt, Woken};
pub use child::Child;
pub use laws::{a_child_is_answered_once, a_step_is_news, each_parked_wait_has_one_wake};
pub use meaning::{Fits, Rests};
pub use owner::Owner;
pub use receipt::Witness;
