//! Tests of what no clause says, over the parts of the pipeline that know no disk: the space, the queue, counts, stages,
//! header trees and a mirror's choices, where memory is ample.
//!
//! They stand here and not in the crates, since a crate with tests of its own is proved once more with them. There is
//! nothing else in it.
#![tactic(auto)]

#[cfg(test)]
mod counts;
#[cfg(test)]
mod plans;
#[cfg(test)]
mod queues;
#[cfg(test)]
mod space;
#[cfg(test)]
mod stages;
#[cfg(test)]
mod trees;
