//! The top call of the auditor: from the words of an audit to its code.
//!
//! It stands on `zio_audit`, whose verdict it tells, and on `zio_command`, which has what a call does with a shelf and a
//! sink; on no engine. Read `zio_audit_main` first: `specs/Codes` says how an audit ends, a row for each code, and what
//! is due for given files, `specs/Causes` why, `specs/Files` which sizes files may have, and `specs/Words` which words
//! name an audit. `audit_telling` is the same call, which tells too where the reason to say no was first seen.
#![tactic(auto)]

mod audit;
mod fetch;
mod files;
mod judge;
mod lines;
mod read;
mod sizes;
mod words;

pub use audit::{audit_telling, zio_audit_main};
