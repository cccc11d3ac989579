//! The run of a script over any runner of rounds.
//!
//! It stands on the script, the definitions of `zio_gang` and the report, and on no engine. Read `Runner` first: it
//! makes trees of requests and runs rounds of them. A batch is a slice of a script's lines. `Admission` says which of
//! its trees are answered before its round, `trees_to_run` makes those that run, `tell_batch` tells of each request
//! after it, and a `Records` counts it in the journal that it keeps, as a `Journal` does by `enter_round`: `run_batch`
//! is all of these. `run_suspended` is the round of a `clear`, and `write_round` writes what a round told. Contracts
//! see a tree as the list of its requests in the order of their attempts. `specs/Runners` says what a round is to a
//! runner, and `laws` that such rounds are those of a script's course.
#![tactic(auto)]

mod admission;
mod answered;
mod awaited;
mod batch;
mod bound;
mod clear;
mod enter;
mod fold;
mod forest;
mod go;
mod held;
mod laws;
mod lines;
mod records;
mod round;
mod rounds;
mod runner;
mod script;
mod suspended;
mod texts;
mod told;
mod waiting;

pub use admission::{Admission, Rules};
pub use answered::answered_ends;
pub use awaited::Awaited;
pub use batch::{BatchEnd, run_batch};
pub use bound::Bound;
pub use clear::clear_line;
pub use enter::enter_round;
pub use fold::{Batch, Fold, Tally, requests_in};
pub use forest::trees_to_run;
pub use go::go_line;
pub use held::run_held;
pub use laws::{
    a_batch_is_a_round_of_the_course, a_clear_is_a_round_of_the_course,
    a_round_leaves_runnable_trees, accepted_scripts_are_short, an_orderly_batch_is_ready,
    an_orderly_batch_is_runnable, bound_places_are_live, parents_wait_for_children,
    suspended_trees_are_runnable, what_was_run_stays_run, whole_trees_are_admitted,
};
pub use records::Records;
pub use round::{WholeRound, whole_round};
pub use rounds::{batch_round, clear_round};
pub use runner::{ChildrenBack, Job, RequestEnd, RoundEnd, Runner, Stop};
pub use script::run_lines;
pub use suspended::{run_suspended, tell_suspended};
pub use texts::{write_held, write_pool, write_round, write_text};
pub use told::tell_batch;
