//! Reports: what a run prints of its rounds.
//!
//! It stands on `zio_gang`. Read `render` first: the text of a round, from `ReportLine`s, entries and completions.
//! `pool_line`, `held_line` and `end_line` are the lines between rounds. Contracts see a text as its bytes:
//! `specs/Lines` has that of one round, `specs/Reports` that of a run; docs/FORMATS.md, "Report", has the lines.
#![tactic(auto)]

mod journal;
mod report;
mod round;
mod run_lines;
mod words;

pub use report::{LineResult, ReportLine, RoundHead, RunFault, Show};
pub use round::render;
pub use run_lines::{end_line, held_line, pool_line};
