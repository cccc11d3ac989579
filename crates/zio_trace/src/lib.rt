//! The bridge from definitions to engines: what a round means, taken apart into single operations.
//!
//! It stands on `zio_gang`. A definition threads images through a recursion; an engine makes single operations on
//! leaves, in whatever order its tasks come to them. Here each definition has a program of operations that gives the
//! same where it runs alone (`specs/Programs`, `specs/CopyPrograms`, `specs/Plans`), and operations that don't conflict
//! may change places (`specs/Leaves`, `specs/Orders`).
//! From this follow the order of a round's trees (`specs/Separate`), the theorem for a round (`specs/Rules`), also
//! where no journal is known yet (`specs/Entries`), several readers of one block (`specs/Readers`), also in a round
//! (`specs/Together`), and what an engine keeps (`specs/Going`, `specs/Underway`) in the rounds that may be run so
//! (`specs/SoundRounds`). Every call is a law: its contract is the statement, and its body is empty. docs/BRIDGE.md has
//! the idea and an example; read `tasks_are_done_by_their_plans` and `leaf_operations_in_any_order` first.
#![tactic(auto)]

mod copies;
mod engines;
mod examples;
mod footprints;
mod orders;
mod plans;
mod readers;
mod rounds;
mod runs;
mod soundness;
mod stopped;
mod together;
mod trees;
mod underway;
mod views;

pub use copies::{copies_are_read_by_programs, pieces_are_written_by_programs};
pub use engines::{
    an_engine_goes_through_a_round, nodes_in_flight_stay_clear, nodes_know_by_their_own_deeds,
};
pub use examples::{
    a_block_is_read_twice, a_block_is_written_and_read, a_repair_beside_a_write,
    a_write_is_tried_again,
};
pub use footprints::{tasks_have_traces, tasks_stay_within_their_footprints};
pub use orders::{a_round_in_any_order, leaf_operations_commute, leaf_operations_in_any_order};
pub use plans::{
    families_are_attempted_as_lists, rounds_are_done_by_their_plans, tasks_are_done_by_their_plans,
};
pub use readers::readers_of_a_block_in_any_order;
pub use rounds::{
    answers_stand_whichever_journal_comes, each_round_has_a_history,
    rounds_are_settled_by_their_entries, rounds_are_settled_in_any_order,
};
pub use runs::{a_round_has_one_trace, rounds_of_scripts_have_families, runs_have_their_traces};
pub use soundness::{
    blocks_of_valid_pointers_are_sound, operations_of_one_part_are_free,
    own_work_is_free_of_attempts, sound_rounds_are_shared_well, sound_rounds_are_sound_work,
    values_fit_whichever_journal_comes,
};
pub use stopped::what_was_done_stays_within;
pub use together::{
    rounds_are_settled_as_in_turn, rounds_that_went_on_are_settled, what_ended_is_answered,
    work_is_done_as_in_turn,
};
pub use trees::{trees_over_different_blocks_in_any_order, trees_that_dont_conflict_in_any_order};
pub use underway::{what_is_asked_next_is_known, work_goes_on};
pub use views::{a_node_shows_the_rest_of_its_program, operations_that_are_out_stand_first};
