//! Bytes that several hold at a time: a block, and the operations that write it to its leaves.
#![tactic(auto)]

mod shared;

pub use shared::Shared;
