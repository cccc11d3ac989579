//! Tests of what stands on no engine between a script and a program: the fold over a script, the words of a command
//! with their options, and its images.
//!
//! They stand here, since a crate with tests of its own is proved once more with them. There is nothing else in it.
#![tactic(auto)]

#[cfg(test)]
mod course;
#[cfg(test)]
mod images;
#[cfg(test)]
mod words;
