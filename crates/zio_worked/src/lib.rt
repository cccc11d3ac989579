//! Worked cases: small scripts, evaluated by the checker.
#![tactic(auto)]

mod admission;
mod blocks;
mod claims;
mod completions;
mod errors;
mod families;
mod formats;
mod gangs;
mod journals;
mod mirrors;
mod parts;
mod reads;
mod scripts;
mod suspension;
mod units;

pub use admission::admission_answers_whole_trees;
pub use blocks::blocks_are_written_and_read;
pub use claims::claims_bind_what_is_there;
pub use completions::completions_tell_what_finished;
pub use errors::errors_rank_in_order;
pub use families::families_finish_together;
pub use formats::formats_are_spelled;
pub use gangs::gangs_take_scattered_space;
pub use journals::lawful_journals_answer_what_is_asked;
pub use mirrors::mirrors_give_and_mend;
pub use parts::single_definitions_follow_their_rules;
pub use reads::reads_blame_and_mend;
pub use scripts::scripts_are_read;
pub use suspension::suspended_trees_wait_for_a_clear;
pub use units::units_are_stored_whole;
