//! Tests of what stops a run, over the objects in memory: each call of the outside that fails alone, on one thread and by
//! workers, and a disk with a volatile cache that isn't synced, with what is stable then.
//!
//! They stand here, since a crate with tests of its own is proved once more with them. There is nothing else in it.
#![tactic(auto)]

#[cfg(test)]
mod durable;
#[cfg(test)]
mod failing;
