//! Faults that heal: which scripts end as if no fault had been there, and why no good copy is lost on the way.
//!
//! It stands on `zio_trace`, for the operations of a run, and on `zio_report`, for what is shown of a request.
//! `specs/Healed` says which scripts heal, `specs/PlainStore` what their requests are answered, `specs/Alike` when a
//! reply is as there, `specs/StoredPlainly` what a whole run comes to, and `specs/Given` what has to hold of the sums.
//! `specs/Pools` says what a pool is, `specs/Contents` when a block has a content piece by piece, `specs/SafeBlocks`
//! when bound blocks are safe, and `specs/SafeRounds` what a round keeps of that; `specs/SameAnswers` says when two
//! runs answer alike. Each call is a law: its contract is the statement, and its body is empty. Read
//! `healed_scripts_store_plainly` first: the others lead to it, from `requests_that_may_not_fail_end_without_error` to
//! `rounds_end_as_safely_as_they_start`.
#![tactic(auto)]

mod cases;
mod laws;

pub use cases::{
    accepted_copies_are_compared_with_their_writes, contents_are_had_piece_by_piece,
    copies_are_spared_by_what_lies_elsewhere, flags_and_kinds_let_requests_fail,
    pieces_without_error_are_whole, plain_stores_answer_in_order, pools_have_leaves_of_their_own,
    replies_are_alike_behind_pointers, rounds_begin_and_end_safely,
    runs_meet_what_healing_asks_for, runs_store_plainly, scripts_heal_once_faults_are_past,
};
pub use laws::{
    blocks_are_read_as_their_content, copies_are_found_once_faults_are_past,
    copies_last_where_they_are_spared, copies_stay_while_others_change,
    healed_faults_leave_no_trace, healed_scripts_keep_their_discipline,
    healed_scripts_store_plainly, pieces_written_have_a_copy_in_each_place,
    placed_writes_have_their_pieces, requests_that_may_not_fail_end_without_error,
    rounds_end_as_safely_as_they_start, writes_without_error_are_whole,
};
