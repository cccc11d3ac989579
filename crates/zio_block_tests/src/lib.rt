//! Tests of what no clause says, over blocks on disks: claims of strangers' pointers, and a mirror whose leaves have
//! faults, where memory is ample, read, written and scrubbed.
//!
//! They stand here and not in the crates, since a crate with tests of its own is proved once more with them. There is
//! nothing else in it.
#![tactic(auto)]

#[cfg(test)]
mod claims;
#[cfg(test)]
mod mirrors;
#[cfg(test)]
mod scrubs;
