//! The scrub of bound blocks: every copy of every piece is read once, and what can be mended is written.
//!
//! It stands on the leaves' queues of `zio_groups`. Read `scrub` first: where the disks tell their images it leaves
//! those of the definition (`specs/Scrubs`), and counts what that counts, whatever the order in which the queues were
//! served. `read_pieces` gives the repairs that the definition asks for, and `mend` makes them. `specs/Pieces` says
//! which blocks can be scrubbed, and `specs/Ends` what is good afterwards.
#![tactic(auto)]

mod blocks;
mod ending;
mod heard;
mod laws;
mod layout;
mod lines;
mod pieces;
mod pools;
mod queues;
mod reads;
mod repairs;
mod scrubs;

pub use ending::ScrubEnd;
pub use laws::{a_scrub_makes_its_repairs, blocks_of_a_pool_can_be_scrubbed};
pub use pools::scrub_pool;
pub use scrubs::scrub;
