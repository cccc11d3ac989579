//! What a block's copies give and keep: checksums, operations on leaves, good copies, reads with repairs and writes.
//!
//! It stands on `zio_types`, `zio_blkptr` and `zio_faults`. Its definitions stand in `specs/`: read
//! `specs/Images` first, then `specs/Blocks`; `specs/Headers` has the gang header.
#![tactic(auto)]

mod headers;
mod laws;
mod sums;

pub use headers::a_header_names_its_members;
pub use laws::{members_add_up, reads_keep_the_rest, writes_keep_the_rest};
pub use sums::{gang_sum, sum, verify};
