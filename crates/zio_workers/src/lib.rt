//! Workers: threads that reckon what the stages of nodes need, side by side.
//!
//! The turns of a round are one thread's, as in `zio_graph`. What takes time in them is reckoned ahead by a `Crew`, over
//! nodes that stand still meanwhile: so each law of a round over one thread holds here as it stands, for every number of
//! workers and however they are served.
#![tactic(auto)]

mod crew;

pub use crew::Crew;
