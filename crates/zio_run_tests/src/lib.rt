//! Tests of the top call over the objects in memory: reports and images that no clause spells out, what the order of
//! the work changes and what it leaves, scrubs behind a run, and a disk that forgets.
//!
//! They stand here, since a crate with tests of its own is proved once more with them. There is nothing else in it.
#![tactic(auto)]

#[cfg(test)]
mod forgetful_shelf;
#[cfg(test)]
mod mirrors;
#[cfg(test)]
mod orders;
#[cfg(test)]
mod reports;
#[cfg(test)]
mod scrubs;
