//! Whole blocks over disks and a chooser of places: placed writes that become gangs where no run is free, and claims.
//!
//! It stands on the disks by number, on the space, and on the definitions of `zio_gang`. Read `Chooser` first: what
//! gives places, each chooser by its own law of entries. `Space` is one whose entries are lawful as they were asked, a
//! `LawfulChooser`. Then `place_block` and `claim_block`, which do what the definitions say where the disks tell their
//! images; whatever a disk tells and however a call ends, nothing changes outside the places that were free at the
//! call, and a claim changes nothing. `specs/Choosers` says what a chooser holds and what each entry is,
//! `specs/EntryLaws` what lawful entries meet, `specs/Blocks` and `specs/Laid` what a placed write asks for and leaves,
//! and `specs/Claims` what a claim does.
#![tactic(auto)]

mod chooser;
mod claim;
mod parts;
mod pieces;
mod place;

pub use chooser::{Chooser, LawfulChooser, Unclaimed};
pub use claim::claim_block;
pub use place::{PlacedBlock, Writing, place_block};
