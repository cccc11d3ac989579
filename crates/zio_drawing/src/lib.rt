//! Pictures of runs: what the report of a script tells, drawn as one SVG from its first round to its last.
//!
//! It stands on `zio_script`, whose scripts it reads, on `zio_told`, by which it reads a report's lines, and on
//! `zio_markup`, by whose `Markup` all is written. Read `draw` first, then `rounds`, which brings a report's lines
//! together with what the script asked; the other files lay out and draw. docs/FORMATS.md, "Picture", has the rest.
#![tactic(auto)]

mod asked;
mod bars;
mod captions;
mod fault;
mod frame;
mod head;
mod legend;
mod maps;
mod page;
mod picture;
mod plan;
mod rounds;
mod rows;
mod shapes;
mod style;
mod ways;

pub use fault::{DrawingFault, ReportFault};
pub use picture::{Form, draw};
pub use zio_markup::{Markup, outside_is_character_data};
pub use zio_told::REPORT_LINES_MAX;
