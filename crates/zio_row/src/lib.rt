//! One worked run of the top call, whose code is known before it is run: a block is written and read on one image.
//!
//! `write_then_read` builds the outside in memory, hands it to `zio_serial_main`, and proves from the clauses of that
//! call alone that the code is 0, or 8 for want of memory. So a caller can use the clauses, and none of them speaks of
//! nothing. `GrowingSink` is the sink: it takes every piece, since no clause of the call tells how much a sink is
//! given.
#![tactic(auto)]

mod kept;
mod row;

pub use kept::GrowingSink;
pub use row::{Ran, write_then_read};
