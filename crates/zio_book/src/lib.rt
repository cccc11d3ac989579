//! A lock that serves by ticket, with the history of what was done under it.
//!
//! It stands on `zio_types` and on the kit's table of words and slots. Read `Held`, what a book holds and what its acts
//! mean, and then `Book`. A contract sees a history as a list of notes that leads from state to state, a pass as its
//! acts, and a receipt as its number, its note and the history before it: `specs/History` and `specs/Books`. The rule
//! that every step keeps is in `specs/Rule`.
#![tactic(auto)]

mod acts;
mod book;
mod held;
mod view;

pub use book::{Book, CmdBack, HeldBack, Pass, Receipt};
pub use held::Held;
pub use view::{Birth, View, WithHistory};
