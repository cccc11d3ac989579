//! A leaf's queued operations, issued group by group: a group that meets no row of the fault table is one call of the
//! device.
//!
//! It stands on the queue of `zio_vqueue` and on the operations on leaves of `zio_disks`. Read `LeafQueue` first. A
//! contract sees it as the waiting operations in the order of putting, each with the bytes that it writes, the active
//! groups and the end of the last group. `specs/Issued` says what operations that are done one after another answer and
//! leave,
//! `specs/LeafQueues` what issuing a group comes to.
#![tactic(auto)]

mod group;
mod leaf_queue;
mod single;
mod span;
mod waiting;

pub use leaf_queue::LeafQueue;
pub use waiting::{Answered, QueuedOp};
