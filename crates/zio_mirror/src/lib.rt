//! Which copy is read next, which copies a good read rewrites, and when a write is good.
//!
//! It stands on `zio_cksum`, whose definitions say what a read of all copies gives. Read `ReadPlan` first: it is
//! told how each child's read ended, and says what to do next.
#![tactic(auto)]

mod laws;
mod plan;
mod write;

pub use laws::{
    a_pass_repairs_what_plans_do, a_pass_tries_places, a_place_is_read_by_its_leaves,
    plans_end_as_reads_do, plans_try_what_is_read_next,
};
pub use plan::{PlanStep, ReadPlan, TURN_SIZE};
pub use write::write_result;
