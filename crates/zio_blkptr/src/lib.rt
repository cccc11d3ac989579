//! Block pointers: where a block's copies lie, how large it is, and what its checksum is.
//!
//! It stands on `zio_types`. Read `Bp` first, then `encode` and `decode`. `specs/Pointers` says which pointers
//! are valid, and which 128 bytes spell one; `specs/Faults` says why others spell none. docs/FORMATS.md,
//! "Block pointer", has the table of the words.
#![tactic(auto)]

mod faults;
mod laws;
mod packing;
mod parts;
mod pointer;
mod spelling;

pub use faults::decode;
pub use laws::{a_pointer_has_no_fault, each_pointer_has_one_spelling};
pub use pointer::{BLOCK_SIZE_MAX, Bp, BpFault, SECTOR_END, SumKind, TOP_END, is_valid};
pub use spelling::{bp_text, encode};
