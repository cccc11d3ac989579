//! What a node is to the engine that runs it.
//!
//! A node is so far as a frame of `zio_frames` says, which nobody stores: `Nodes` ties the two. An engine runs a node's
//! stages, and each answers one move; it tells the node what its children and its leaf answered. `Staged` is the trait, and
//! `specs/Stages` says what a move has to be. Nodes and the engine both stand on this crate, and neither on the other.
#![tactic(auto)]

mod node;
mod staged;

pub use node::NodeFacts;
pub use staged::{Move, Staged, Turn};
