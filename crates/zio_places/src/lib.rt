//! The space of a pool: which sectors of its tops are used, where a block may be placed, and the journal of what
//! was asked and found.
//!
//! It stands on zio_types alone. Read `Space` first: its calls stand in the order in which a round meets them, and
//! a contract sees it as a `SpaceState` of `specs/Spaces`, whose live places stand by top and sector, as
//! `specs/Ordered` puts them. Below it, a `SectorTable` for each top has the live lengths by sector, and `FreeRuns`, a
//! tree over words of free flags. No call reads the live places or the free runs one after another: `take` costs the
//! tops, a logarithm of their sectors and the words of the run that it marks; `give_back` and `is_live` are one look
//! into a table. A choice that was recorded is judged by `is_open`, `has_run` and `has_run_on`, which cost a logarithm
//! of a top's sectors and for `has_run` the tops, beside `claim` and `release`.
#![tactic(auto)]

mod laws;
mod runs;
mod space;
mod summary;
mod table;
mod take;
mod tops;
mod word;

pub use laws::live_places_are_a_set;
pub use space::{ClaimFault, Space};
pub use zio_types::TopSize;
