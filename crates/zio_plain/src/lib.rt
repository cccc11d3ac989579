//! The definitions as a program: the rounds of a script are run tree by tree and depth first, over any disks, with
//! their places from any chooser.
//!
//! It stands on the disks, the blocks and the definitions of `zio_gang`, and on no engine. Read `Plain` first: it is a
//! runner of rounds as `zio_course` asks for it, whose rounds have the entries that a `RoundEntries` says. A round
//! is `run_trees` over the runner's ground, which does the own work of requests (`works`, `ground`): it settles each
//! tree of the round in turn, `settle` attempts a tree, and `attempt` goes once over its requests. Then the places of
//! freed blocks are given back. `specs/Passes` says what a pass over a tree is, `specs/Settlings` what a round comes
//! to, `specs/Entries` which entries it may have, `specs/Grounds` what own work changes of the ground, and
//! `specs/Plains` what holds of the runner between two rounds.
#![tactic(auto)]

mod attempt;
mod children;
mod content;
mod entries;
mod evaluated;
mod ground;
mod judge;
mod laws;
mod owns;
mod plain;
mod request;
mod settle;
mod tree;
mod trees;
mod waiting;
mod works;

pub use entries::{AsGiven, EntriesFault, RoundEntries};
pub use evaluated::Evaluated;
pub use laws::children_hand_on_last;
pub use plain::Plain;
pub use tree::PlainTree;
