//! A large script from a number.
//!
//! It stands on `zio_types`, and on `zio_script` for what a script is. `gen_` is its one call (`gen` is a keyword);
//! `specs/Generated` says what the text is, line by line. The law `generated_scripts_are_accepted` says that this text
//! is a script, so whoever reads it meets no fault.
#![tactic(auto)]

mod laws;
mod lines;
mod script;

pub use laws::generated_scripts_are_accepted;
pub use script::{BLOCKS_MAX, gen_};
