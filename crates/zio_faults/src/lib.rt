//! The fault table: which leaf operations fail, and how.
//!
//! It stands on `zio_types`. Read `Row` first. A contract names the row that an operation meets by
//! `specs/Hits`.
#![tactic(auto)]

mod table;

pub use table::{FaultKind, FaultTable, Hit, On, Operation, Row, flip};
