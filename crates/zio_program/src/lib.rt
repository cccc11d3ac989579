//! What the programs share beside their top calls: questions about a program itself, and what is told on standard error.
#![tactic(auto)]

mod about;
mod told;
mod watched;

pub use about::{About, Question, asked, asked_alone, text_of};
pub use told::{behind_command, line_of, why_text};
pub use watched::Watched;
