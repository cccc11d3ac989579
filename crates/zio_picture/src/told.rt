//! Why there is no picture: the exit status, and the line on standard error.

use crate::about::USAGE;
use std::alloc::{AllocError, Global};
use zio_drawing::{DrawingFault, REPORT_LINES_MAX, ReportFault};

/// Why there is no picture.
#[derive(Debug, Drop)]
pub enum Refusal {
    /// The words are no command.
    Words,
    /// The file of the script can't be read.
    Script,
    /// The same of the report.
    Report,
    Drawing(DrawingFault),
    /// Standard output can't be written.
    Sink,
    /// Want of memory.
    Memory,
}

/// The exit status: docs/FORMATS.md, "Picture".
pub fn code_of(refusal: &Refusal) -> u8 {
    match refusal {
        Refusal::Words => 1,
        Refusal::Drawing(DrawingFault::Script(_)) => 2,
        Refusal::Drawing(DrawingFault::Report(_, _)) => 3,
        Refusal::Drawing(DrawingFault::TooLong) => 4,
        Refusal::Script | Refusal::Report => 5,
        Refusal::Sink => 6,
        Refusal::Drawing(DrawingFault::Memory) | Refusal::Memory => 8,
    }
}

/// The line, without a newline.
pub fn line_of(alloc: Global, refusal: &Refusal) -> Result<String, AllocError> {
    match refusal {
        Refusal::Words => format!(in alloc; "usage: {USAGE}"),
        Refusal::Script => format!(in alloc; "the script can't be opened and read"),
        Refusal::Report => format!(in alloc; "the report can't be opened and read"),
        Refusal::Drawing(fault) => fault_line(alloc, fault),
        Refusal::Sink => format!(in alloc; "standard output can't be written"),
        Refusal::Memory => format!(in alloc; "no memory"),
    }
}

fn fault_line(alloc: Global, fault: &DrawingFault) -> Result<String, AllocError> {
    match fault {
        DrawingFault::Script(fault) => {
            let line = fault.line;
            let why = fault.why;
            format!(in alloc;
                "the script isn't accepted: line {line}, why {why}; zio_serial tells what that means"
            )
        }
        DrawingFault::Report(line, why) => {
            let words = why_words(*why);
            format!(in alloc; "the report, line {line}: {words}")
        }
        DrawingFault::TooLong => {
            format!(in alloc;
                "the report has more than {REPORT_LINES_MAX} lines or 64 MiB: a picture of it couldn't be read"
            )
        }
        DrawingFault::Memory => format!(in alloc; "no memory"),
    }
}

fn why_words(why: ReportFault) -> &'static str {
    match why {
        ReportFault::Shape => "it is none of a report's lines",
        ReportFault::Order => "such a line can't stand there",
        ReportFault::Stranger =>
            "it speaks of what the script doesn't have, so it is another script's",
    }
}
