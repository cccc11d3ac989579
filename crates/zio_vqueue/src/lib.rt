//! A leaf's queue: operations wait in classes, and neighbours are taken together.
//!
//! It stands on `zio_types` and `zio_faults`. Read `VQueue` first. A contract sees it as the queued operations in
//! the order of putting, the active groups of each class and the end of the last group taken. `specs/Groups` says
//! which operations are one group, `specs/Queues` which class is served and which operation of it comes first.
#![tactic(auto)]

mod class;
mod gather;
mod index;
mod op;
mod queue;
mod spots;

pub use class::{ACTIVE_MAX, ACTIVE_MIN};
pub use gather::{READ_GAP_MAX, SPAN_MAX};
pub use op::{Group, Op, lone, scatter};
pub use queue::VQueue;
