//! Tests of the engines' parts: that their calls succeed where memory is ample, and what they do step by step.
//!
//! They stand here and not in the crates, since a crate with tests of its own is proved once more with them. There is
//! nothing else in it.
#![tactic(auto)]

#[cfg(test)]
mod copies;
#[cfg(test)]
mod kids;
#[cfg(test)]
mod labels;
#[cfg(test)]
mod lines;
#[cfg(test)]
mod parts;
#[cfg(test)]
mod walks;
