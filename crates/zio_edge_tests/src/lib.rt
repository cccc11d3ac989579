//! Tests of what no clause says, over files, standard streams and the objects that stand for them.
//!
//! They stand here and not in the crates, since a crate with tests of its own is proved once more with them. There is
//! nothing else in it.
#![tactic(auto)]

#[cfg(test)]
mod outside;
