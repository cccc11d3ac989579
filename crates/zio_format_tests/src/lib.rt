//! Tests of what no clause says, over the formats: words, pointers, headers, sums, scripts and reports, with values from outside.
//!
//! They stand here and not in the crates, since a crate with tests of its own is proved once more with them. There is
//! nothing else in it.
#![tactic(auto)]

#[cfg(test)]
mod generator;
#[cfg(test)]
mod header_faults;
#[cfg(test)]
mod pointer_faults;
#[cfg(test)]
mod pointers;
#[cfg(test)]
mod report;
#[cfg(test)]
mod scripts;
#[cfg(test)]
mod sizes;
#[cfg(test)]
mod sums;
#[cfg(test)]
mod words;
