//! What a stage of a node is to its engine.

use zio_exchange::{Finished, Outcome};
use zio_shared::Shared;
use zio_vqueue::Op;

/// What a stage of the node whose turn it is comes to.
#[derive(Drop)]
pub enum Step<S> {
    /// Its turn goes on.
    Goes,
    /// The tree of this number heard which pointer its value will have, and its turn goes on.
    Told(u32),
    /// It waits, or is queued again.
    Rests,
    /// An operation for the leaf of this number, with the bytes of a write.
    Leaf(Op, u32, Shared),
    /// It ended, maybe as a request that finished, and its parent heard of that.
    Ended(Option<Finished<S>>),
    /// It ended, and the tree of this number hears of that.
    Root(u32, Outcome<S>),
}
