//! The turns of a round: its nodes under keys, queued, at leaves, or waiting for children.
//!
//! Keys wait in a `Line`, from which any is taken while the others keep their order; a `Picks` says which. Contracts
//! see a line as the list of what waits; `specs/LinePlaces` says what a table of places holds, `specs/LineSums` how the
//! numbers beside it add up. What a stage needs may be reckoned before it is its node's turn, by a `Helper`, who sees
//! the nodes and changes none; `Alone` is who helps nobody.
#![tactic(auto)]

mod all_trees;
mod begin;
mod desk;
mod drive;
mod ends;
mod entry;
mod grounds;
mod group;
mod hear;
mod hearing;
mod helped;
mod helper;
mod laws;
pub mod leaf_queues;
mod line;
mod picks;
mod shelf;
pub mod step;
mod sums;
mod table;
mod trees;
pub mod turn;
pub mod turns;

pub use all_trees::run_trees;
pub use begin::begin_trees;
pub use desk::{Desk, desks_serve_rounds};
pub use drive::run_on;
pub use ends::books_tell_the_end;
pub use grounds::{DisksBack, Grounds};
pub use group::issue_group;
pub use hearing::{Hearing, run_to_tree};
pub use helper::{Alone, Helper, Wanted};
pub use laws::{
    engines_find_nodes, engines_hear_of_nodes, engines_keep_rounds, engines_settle_rounds,
};
pub use line::Line;
pub use picks::{FirstPicks, Picks, SeedPicks, from_seed};
pub use trees::{TreeEnd, TreeState, begin_attempt, hear_tree};
pub use turn::{Turned, run_turn};
pub use turns::Turns;
