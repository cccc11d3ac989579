//! The journal that a report spells: what its `take` and `order` lines say, read round by round.
//!
//! It stands on `zio_report`, whose lines it reads. Read `count_rounds` first, which tells whether a report spells a
//! journal, then `Rounds`, which reads one round after another. `specs/Spelled` says what a line of the journal is and
//! what it spells, by the text that `zio_report` prints, and `specs/Rounds` what a whole report spells; docs/FORMATS.md,
//! "Report", has the lines. `specs/Laws` says that what is printed is spelled. `specs/Reading` is the reader's own, and
//! nothing of it has to be believed.
#![tactic(auto)]

mod count;
mod laws;
mod number;
mod order;
mod parts;
mod rounds;
mod take;

pub use count::{REPORT_LEN_MAX, count_rounds};
pub use laws::{printed_journals_are_spelled, worked_lines};
pub use order::order_line;
pub use rounds::{JournalFault, RoundJournal, Rounds};
pub use take::take_line;
