//! Several disks by the numbers of their leaves: reads of a block's copies with repairs, writes of a piece, and whole
//! blocks with the gang headers under their pointers.
//!
//! It stands on the outside, and on the definitions of `zio_cksum` and `zio_gang`. Read `read_block` and `write_piece`
//! first, then `read_tree`, `free_tree` and `claim_walk`: where the disks tell their images these calls do what the
//! definitions of their names say, and whatever a disk tells and however a call ends, nothing changes outside the
//! places that it was given. `specs/Disks` says what several disks tell, `specs/Copies` what a good copy is,
//! `specs/Trees` which disks bear the tops of a setting, and `specs/Claims` what a claim comes to before its places are
//! asked for.
#![tactic(auto)]

mod bodies;
mod claim;
mod copies;
mod fitting;
mod leaf;
mod read;
mod setting;
mod trees;
mod write;

pub use bodies::read_tree;
pub use claim::claim_walk;
pub use copies::GoodCopy;
pub use leaf::{fetch, padded_to, read_leaf, store, write_leaf};
pub use read::read_block;
pub use setting::{Setting, Spot, Stop};
pub use trees::free_tree;
pub use write::{write_copy, write_piece};
