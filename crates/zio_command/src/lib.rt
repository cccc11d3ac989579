//! The top call over any engine: from a command to its code.
//!
//! It stands on `zio_suspend`, which says what the run of a script is over any runner of rounds, and names no engine: a
//! script is run by whatever meets `Engines`. Read `run_command` first: `specs/Commands` and `specs/Codes` say how each
//! command ends, a row for each code, and `specs/Headline` what the codes 0, 4 and 9 mean, with `specs/Scrubbed` where
//! the pool is scrubbed behind the run. `specs/Words` has the words of a command.
#![tactic(auto)]

mod commands;
mod engines;
mod generated;
mod ground;
mod image;
mod laws;
mod lines;
mod mode;
mod names;
mod number;
mod options;
mod outcome;
mod parse;
mod run;
mod scrub;
mod shelf;
mod source;
mod tops;
mod words;

pub use commands::run_command;
pub use engines::Engines;
pub use ground::pool_over;
pub use image::{IMAGE_LEN_MAX, IMAGE_LEN_MIN};
pub use laws::accepted_scripts_have_lawful_pools;
pub use lines::{CODE_DEVICE, CODE_MEMORY, CODE_SINK, CODE_SOURCE, end_with};
pub use mode::RunMode;
pub use names::{IMAGES_MAX, are_images};
pub use options::{WORKERS_MAX, WORKERS_USUAL};
pub use outcome::{RunOutcome, outcome_of};
pub use shelf::{ImagesFault, fetch_images, give_back_images};
pub use tops::{TopsFault, sizes_of_disks, tops_over};
pub use words::{Command, WordsError, read_words};
