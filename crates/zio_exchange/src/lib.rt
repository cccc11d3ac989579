//! What the stages of a request's work and the engine that runs them hand each other.
//!
//! The engine hands out a `Whole`, a tree of requests none of which is in flight, and lends the stages its space as
//! `Services`. A node ends with an `Outcome`, and a request that finished is a `Finished`, which whoever holds a seal
//! alone can make: the stages do, and the engine, which has none, hands on what they made. The contracts say which value
//! of `zio_trace`'s operations an outcome is, and which calls of the space a node makes. Read `Outcome` first.
#![tactic(auto)]

mod outcome;
mod request;
mod services;
mod summed;
mod waiting;
mod whole;

pub use outcome::{Finished, FinishedRequest, Outcome};
pub use services::{Services, Unclaimed};
pub use summed::{Summed, into_found, sum_of_read, unsummed};
pub use waiting::UnfinishedRequest;
pub use whole::{ChildrenBack, Whole, WholeBack};
