//! The audit of a finished run: what its answer means, and the answer.
//!
//! Read `audit` first, and `specs/Verdicts`, which says when it answers yes, and when no and with which reason;
//! `specs/Worked` has cases. `audit_seen` tells too where the reason was first seen, and `specs/Seen` what that says;
//! `audit_rounds` tells so of the run, and leaves its images to be compared with those after.
//! `texts_show_their_journals` has the law that yes is the answer exactly of a headline. The crate stands on the
//! definitions of `zio_gang` and `zio_report`, on `zio_spelled`, which reads the journal that a report spells, and on
//! the space, the choosers and the depth-first runner of `zio_places`, `zio_blocks` and `zio_plain`; on no engine.
//!
//! `Journals` reads what a report spells of its rounds, one round after another, and keeps nothing of it. `Replayed`
//! answers the asks of all rounds by these entries, and holds those of one round; with `AsSpelled` a runner of
//! `zio_plain` runs the rounds of a script so, and is stopped where these aren't a round's choices: `specs/Replays`.
//! `specs/Ended` says what such a run comes to. `SpelledSoFar` keeps its journal, without the entries of earlier
//! rounds: `specs/SoFar`. `unmatched_round` tells whether a spelled order of completions is one that the run may have.
//! A `PlainMatcher` is a sink that compares what it is given with a report's lines that are none of the journal, and
//! `PutIn` compares a report with its own lines among which the texts of journals are put, as `specs/Putting` has it:
//! these two tell whether a report is the text of a run. `are_lawful` judges recorded entries one after another.
#![tactic(auto)]

mod auditing;
mod cases;
mod completions;
mod differing;
mod index;
mod journals;
mod judge;
mod laws;
mod lines;
mod marks;
mod plain_lines;
mod plain_matcher;
mod putting;
mod replay;
mod replayed;
mod run;
mod seen;
mod shapes;
mod so_far;
mod taking;
mod verdict;

pub use auditing::{AUDITED_LEN_MAX, audit, audit_over, audit_rounds, audit_seen};
pub use cases::{the_first_reason_is_told, true_reports_are_yes};
pub use completions::unmatched_round;
pub use journals::Journals;
pub use judge::are_lawful;
pub use laws::{
    shaped_reports_spell, spelled_entries_are_of_their_rounds, texts_show_their_journals,
    verdicts_are_one,
};
pub use plain_lines::shows_bytes;
pub use plain_matcher::PlainMatcher;
pub use putting::{PutIn, journal_text};
pub use replay::{AsSpelled, replay_over};
pub use replayed::{Replayed, Spelled};
pub use seen::{Judged, Seen, verdict_of};
pub use verdict::{Verdict, Why};
