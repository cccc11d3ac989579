//! A good copy is spared at every moment of a round: what a program needs whose blocks survive a crash at any moment.
//!
//! It stands on `zio_trace`, which says what a round has done and what is in flight while its requests are under way
//! in any order. `specs/Spared` says when a copy is good, and when it is spared, and `specs/Crashes` what a crash may
//! leave. Each call is a law: its contract is the statement, and its body is empty. Read `good_copies_are_spared`
//! first.
#![tactic(auto)]

mod crashes;
mod examples;
mod laws;

pub use crashes::{
    good_copies_are_never_written, good_copies_survive_a_crash,
    writes_lie_at_places_that_are_named_or_found,
};
pub use examples::{
    a_repair_in_flight_spares_the_good_copy, a_row_that_turns_bytes_spares_no_copy,
};
pub use laws::good_copies_are_spared;
