//! Crashes of pools in memory, at every moment of every round: what was bound before the round is found again. And how
//! often a disk is called.
//!
//! They stand here and not in `zio_flush`, since a crate with tests of its own is proved once more with them. There is
//! nothing else in it.
#![tactic(auto)]

#[cfg(test)]
mod crashes;
#[cfg(test)]
mod images;
#[cfg(test)]
mod pools;
#[cfg(test)]
mod scripts;
