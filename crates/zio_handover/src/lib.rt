//! One child and its owner: whichever of the two comes last is woken, also on two threads.
//!
//! It stands on `zio_latch` and is known from the clauses of that crate's public calls alone. Read `woken_of`: of the
//! two answers just one is a wake, so that its other arms are never reached. A body of the latch that loses a wake, or
//! that wakes twice, breaks them.
#![tactic(auto)]

mod one;

pub use one::{hand_over, hand_over_by_two, woken_of};
