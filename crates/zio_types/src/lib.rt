//! The words of the pipeline: kinds, errors, places, the journal of a run, and the small lists that
//! contracts see as lists.
//!
//! It stands on no other crate of the project. Read `List` first, then `Entry`: a journal is a list of
//! entries, each what was asked of the space and the places found. `specs/Places` has the law of an entry,
//! `specs/Errors` the order of errors, `specs/Machine` what a request keeps of its children.
#![tactic(auto)]

mod error;
mod journal;
mod laws;
mod list;
mod place;
mod request;
mod text;

pub use error::{Errno, NoMemory, worst};
pub use journal::{Completion, Entry, Journal, Key, Path, Role};
pub use laws::{a_wake_ends_its_own_stall, counts_follow_the_marks, errors_join_in_any_order};
pub use list::{List, Rest};
pub use place::{COPIES_MAX, NOWHERE, Place, TOP_LEAVES_MAX, Top, TopSize};
pub use request::{Bits, ChildKind, Flags, Kind, Phase, Prio, ReqNo, Status};
pub use text::Text;

/// Bytes, seen as the list of their values.
pub type Bytes = List<u8>;

/// Bytes in a sector.
pub const SECTOR_SIZE: u32 = 512;
