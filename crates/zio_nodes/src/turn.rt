//! What a stage comes to where the node stays in its place.

use crate::leaf_at::LeafAt;
use crate::node::Node;
use std::alloc::Global;
use zio_blkptr::Bp;
use zio_shared::Shared;
use zio_stages::Outcome;
use zio_types::{ChildKind, Errno, NoMemory, Phase};
use zio_vqueue::Op;

/// What a stage of a node comes to, which is changed in its place.
#[derive(Drop)]
pub enum Turn {
    /// The node goes on.
    Next,
    /// It waits until no child of this kind owes this phase.
    Wait(ChildKind, Phase),
    /// This is its new child.
    Grow(Box<Node>, ChildKind),
    /// This operation on a leaf is its new child, of kind vdev.
    Ask(LeafAt),
    /// An operation for the leaf of this number, with the bytes of a write.
    Leaf(Op, u32, Shared),
    /// Its value will have this pointer, or none.
    Ready(Option<Bp>),
    /// It ended with this, and what is left in its place is no node.
    End(Box<Outcome>),
}

/// What the last stage of a node comes to. An outcome is large, and a `Turn` is handed on at every stage.
#[derive(Drop)]
pub(crate) enum Last {
    /// It waits until no child of this kind owes this phase.
    Wait(ChildKind, Phase),
    /// It ended with this, and what is left in its place is no node.
    End(Outcome),
}

/// A place for a child, made before anything is done for it, so that no refusal of memory can lose it.
pub(crate) fn new_room(alloc: Global) -> Result<Box<Node>, NoMemory> {
    match Box::new(alloc, Node::Empty) {
        Ok(room) => Ok(room),
        Err(_) => Err(NoMemory),
    }
}

/// A place for what a node ends with, made before anything is done for its end.
pub(crate) fn end_room(alloc: Global) -> Result<Box<Outcome>, NoMemory> {
    match Box::new(alloc, Outcome::Found(Err(Errno::Io))) {
        Ok(room) => Ok(room),
        Err(_) => Err(NoMemory),
    }
}
