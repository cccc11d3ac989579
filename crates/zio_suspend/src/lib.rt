//! The run of a whole script over any runner of rounds.
//!
//! It stands on `zio_course`. `run_script` writes the line of the pool, runs all lines of the script, and writes the
//! end line or the summary. What it wrote, the images and the journal are those of the script's one course; where it
//! was cut short, they are those of a front of it. `run_pool` also gives what the script leaves bound: `specs/Pools`.
#![tactic(auto)]

mod ending;
mod finish;
mod run;
mod summary;

pub use run::{PoolEnd, run_pool, run_script};
