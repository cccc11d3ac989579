//! The stages of a request, and the pipelines that say which of them it takes.
//!
//! It stands on no other crate. Read `Stage` first, whose variants stand in the order in which a request takes them,
//! then
//! `next`. Contracts see a pipeline by the stages that it has; `specs/Stages` says which these are.
#![tactic(auto)]

mod laws;
mod pipeline;
mod stage;

pub use laws::pipelines_have_their_stages;
pub use pipeline::{
    CLAIM, FREE, INTERLOCK, NULL, Pipeline, READ, REWRITE, VDEV_CHILD, VDEV_IO, WRITE, next,
    with_gang,
};
pub use stage::Stage;
