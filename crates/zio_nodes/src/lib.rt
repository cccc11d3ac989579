//! The nodes of a round, each at a stage of its pipeline: one call runs the stage where a node stands.
//!
//! It stands on `zio_stages`, which has the work of the stages, and on `zio_staged`, which says what a node is to the
//! engine that runs it. Read `Node` first, then `run_stage` of each kind. Contracts see how far a node is, whether
//! it told its pointer, and how often it runs at most (`specs/Nodes`).
#![tactic(auto)]

mod ahead;
mod claim_at;
mod copies_at;
mod found_at;
mod free_at;
mod heads_at;
mod laws;
mod leaf_at;
mod node;
mod node_box;
mod null_at;
mod own_hear;
mod part_at;
mod part_stages;
mod read_at;
mod read_io_at;
mod request_at;
mod request_hear;
mod stall;
mod tree_at;
mod turn;
mod write_at;
mod write_hear;

pub use ahead::Ahead;
pub use copies_at::CopiesAt;
pub use heads_at::HeadsAt;
pub use laws::{
    a_copy_has_one_operation_out, members_alone_tell_pointers, no_node_asks_for_places,
    nodes_give_their_own, operations_on_leaves_tell_nothing,
};
pub use leaf_at::LeafAt;
pub use node::Node;
pub use node_box::NodeBox;
pub use part_at::PartAt;
pub use request_at::RequestAt;
pub use tree_at::TreeAt;
pub use turn::Turn;
