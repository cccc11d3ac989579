//! Rounds whose blocks survive a crash at any moment: `Flushing` runs each round on the engine, and then makes the
//! images of all disks stable.
//!
//! It stands on `zio_graph`, whose round says what it writes and which copies it spares, and whose flush says what a
//! crash leaves meanwhile. Contracts see it as they see `Graph`. Read `Flushing::round` first: `specs/Survival` says
//! what its clauses mean.
#![tactic(auto)]

mod flushing;
mod runner;

pub use flushing::Flushing;
