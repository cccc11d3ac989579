//! The engine: `Graph` makes trees of requests and runs rounds of them, in whatever order is picked. One thread takes
//! the turns; a `Helper` may reckon ahead beside it. It is a `Runner` of `zio_course`, so scripts run on it.
//!
//! It stands on `zio_turns`, which runs the trees of a round over any nodes, on `zio_nodes`, whose nodes these are, and
//! on `zio_sound`, which says what such a round is to a script.
#![tactic(auto)]

mod ends;
mod flush;
mod graph;
mod laws;
mod runner;
mod tree;
mod wholes;

pub use graph::Graph;
pub use laws::{
    jobs_are_sound_rounds, rounds_ask_under_their_number, rounds_complete_children_first,
    rounds_leave_places_in_use, rounds_make_whole_blocks, rounds_read_whole_blocks,
    rounds_tell_their_requests, runnable_trees_lie_on_the_tops,
    stopped_rounds_change_what_is_loose,
};
pub use tree::EngineTree;
pub use zio_turns::{Alone, FirstPicks, Helper, Picks, SeedPicks, Wanted, from_seed};
