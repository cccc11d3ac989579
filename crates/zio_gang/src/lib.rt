//! Gang blocks and the meaning of a script.
//!
//! It stands on `zio_cksum` and `zio_script`. Read `Tree` first: a block's pointer with the headers under it. A header
//! is made by `header_encode` for the place and birth of its gang, and read by `header_decode` for these alone.
//! `content` makes the bytes that a write stores, its children's pointers before its own data.
//! What a script means stands in `specs/`, from the reads of a block's tree (`specs/Trees`) and placed writes
//! (`specs/Writes`) over one attempt of a tree of requests (`specs/Attempts`) and one round (`specs/Rounds`) to the
//! run of a script (`specs/Runs`); `specs/Journals` says which journals and completions are lawful.
#![tactic(auto)]

mod bound;
mod ending;
mod faults;
mod header;
mod laws;
mod members;
mod sizes;
mod tree;
mod writes;

pub use bound::Bound;
pub use ending::Ending;
pub use faults::header_decode;
pub use header::{Header, HeaderFault, Split, header_encode};
pub use laws::{
    a_round_depends_on_its_own_choices, a_tree_is_read_by_its_pieces, bound_names_are_a_map,
    each_request_has_one_fate, headers_have_no_fault, trees_are_attempted_in_turn,
};
pub use members::members_of;
pub use sizes::{LEVELS_MAX, split};
pub use tree::{Head, Tree};
pub use writes::content;
