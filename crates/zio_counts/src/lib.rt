//! What a request keeps of its children: their counts, which wake it, and their values by number.
//!
//! It stands on `zio_types`, whose `specs/Machine` says what counts, stalls and wakes are, and on `zio_script` for the
//! failmode. Read `Counts` first, a request machine without its children; then `Brood`, the list of them.
//! `specs/Tallies` says what is kept of a machine, `specs/Broods` which child is missing.
#![tactic(auto)]

mod brood;
mod child;
mod counts;
mod decision;
mod firsts;
mod laws;

pub use brood::Brood;
pub use child::Child;
pub use counts::Counts;
pub use decision::{REEXECUTIONS_MAX, all_bits};
pub use laws::every_tally_shows_a_machine;
