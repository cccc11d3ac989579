//! A round under way, node by node: what a node does itself, what it hands to children, and what it hears of them.
//!
//! An engine's node does one part of the round's work, and within that at most one part itself; all else it hands to
//! children. `specs/Frames` says how far a node is, `specs/Moves` what its moves change, and `specs/Running` what an
//! engine keeps. The laws say that whatever moves are made, in whatever order, the round is done as the definitions
//! say.
#![tactic(auto)]

mod laws;

pub use laws::{nodes_go_on, nodes_hear_what_fits, nodes_settle_the_round};
