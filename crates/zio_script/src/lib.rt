//! Scripts: what a run is to do, on which tops and with which faults.
//!
//! It stands on `zio_types`, `zio_blkptr` and `zio_faults`. Read `Script` first, then `read_script`, then `body_bytes`.
//! `specs/Grammar` says which texts are scripts, with `specs/Words`, `specs/Lines` and `specs/Whys` below it,
//! `specs/Accepted` what holds of every script, and `specs/Bodies` what the bytes of a write's body are;
//! docs/FORMATS.md, "Script", has the language. `specs/Decisions` says how requests go again by a script's failmode.
//! `specs/Shapes`, `specs/NewLines`, `specs/Builders`, `specs/OpenBatches` and `specs/Keys` are the reader's own, and
//! nothing of them has to be believed.
#![tactic(auto)]

mod body;
mod builder;
mod fixed;
mod laws;
mod limits;
mod lines;
mod name;
mod names;
mod open_batch;
mod ranges;
mod read;
mod refusal;
mod script;
mod shape;
mod shapes;
mod values;
mod why;
mod word;
mod work;

pub use body::body_bytes;
pub use laws::accepted_scripts_are_orderly;
pub use limits::{
    BATCH_LEN_MAX, BATCH_SIZE_MAX, CHILDREN_MAX, CLEARS_MAX, DEPTH_MAX, FAULT_RANGE_MAX,
    FAULTS_MAX, LEAF_MAX, NUMBER_MAX, POINT_MAX, POINTER_SIZE, TOPS_MAX,
};
pub use name::{NAME_LEN_MAX, Name};
pub use read::{SCRIPT_LEN_MAX, read_script};
pub use script::{Body, Failmode, Item, Request, Script, ScriptError, ScriptFault, TopLine, Work};
pub use why::Why;
