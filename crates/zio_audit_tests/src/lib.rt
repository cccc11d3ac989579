//! Tests of what no clause says, over the audit and its parts.
//!
//! They stand here and not in the crate, since a crate with tests of its own is proved once more with them. There is
//! nothing else in it.
#![tactic(auto)]

#[cfg(test)]
mod audits;
#[cfg(test)]
mod completions;
#[cfg(test)]
mod entries;
#[cfg(test)]
mod journals;
#[cfg(test)]
mod judge;
#[cfg(test)]
mod plain;
#[cfg(test)]
mod putting;
