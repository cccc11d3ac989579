//! Parts of the stages' work as values that stop and resume.
//!
//! A node of the pipeline works by children, which answer in any order. `CopyWrite` and `CopyRead` write and read a
//! piece's copies by children that are one operation on a leaf each; `HeadWalk` walks over the headers of a block,
//! `TreeRead` reads a block, and `PartWrite` writes a part of one, by children that do such parts of the work. The
//! contracts say which program of `zio_trace` is left at every step, and which of its operations are out. Read
//! `CopyWrite` first.
#![tactic(auto)]

mod bodies;
mod copies;
mod copy_read;
mod copy_write;
mod fitting;
mod gathered;
mod head_walk;
mod laws;
mod members;
mod part_laws;
mod part_write;
mod parts;
mod plans;
mod tree_read;
mod walked;

pub use copies::{LEAF_COPIES_MAX, Target};
pub use copy_read::{CopyRead, ReadStep};
pub use copy_write::{CopyWrite, WriteStep};
pub use head_walk::{HeadWalk, MemberWalk, WalkStep};
pub use laws::{copies_are_few, leaf_work_shows_in_its_plan};
pub use part_laws::{parts_are_written_by_their_plans, what_is_asked_behind_parts_is_known};
pub use part_write::{PartBack, PartWrite};
pub use parts::{BlockWrite, PartStep, PlaceAsk, StoredPart};
pub use tree_read::{BODIES_OUT_MAX, BodyRead, TreeRead, TreeStep};
pub use walked::Walked;
