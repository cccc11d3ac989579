//! Ten bounded queues of tasks that workers share, one for each kind of request and each side of its device work.
//!
//! It stands on `zio_types` and on the kit's ruled queues. Read `Tasks` first. A contract sees a pass as its number
//! and, for each queue, as a `Hand`: the tasks that it put, and those that it took, each with the number of the pass
//! that put it. `specs/Hands` says how the hands of all passes and what a queue holds stand in one order.
#![tactic(auto)]

mod hand;
mod laws;
mod part;
mod queue;
mod tasks;

pub use hand::{Hand, Pile};
pub use laws::a_lone_pass_knows_its_queues;
pub use queue::QueueId;
pub use tasks::{TaskPass, Tasks};
