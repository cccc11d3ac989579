//! Tests of what no clause says, over what workers share: books, latches, loans and queues of tasks, on several
//! threads.
//!
//! They stand here and not in the crates, since a crate with tests of its own is proved once more with them. There is
//! nothing else in it.
#![tactic(auto)]

#[cfg(test)]
mod books;
#[cfg(test)]
mod latches;
#[cfg(test)]
mod loans;
#[cfg(test)]
mod tasks;
