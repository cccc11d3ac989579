//! What each line of a report tells.
//!
//! It stands on `zio_report`, which says how a report is printed, and on `zio_spelled`, by which the lines of a journal
//! are read. Read `lines_of` first, then `read_lines`, which gives what each line tells, as a `Line`. `specs/Told` says
//! which lines there may be, by the text that is printed of each; docs/FORMATS.md, "Report", has them.
#![tactic(auto)]

mod fault;
mod lines;
mod told;

pub use fault::{LinesFault, REPORT_LINES_MAX};
pub use lines::{lines_of, read_lines};
pub use told::{Line, Outcome, Plain, RequestLine, errno_word};
