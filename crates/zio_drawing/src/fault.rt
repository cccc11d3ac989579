//! Why no picture is drawn.
ghost use Rattle.std.specs.Prelude.{◌≡◌};
ghost use Rattle.zio_drawing.specs.declared.fault.DrawingFault.TheVariants.{Memory};

use crate::frame::count;
use std::alloc::AllocError;
use zio_script::ScriptFault;
use zio_told::LinesFault;
use zio_types::NoMemory;

/// What is wrong with a line of a report.
#[derive(Clone, Copy, Debug, PartialEq, Eq)]
pub enum ReportFault {
    /// It is none of a report's lines.
    Shape,
    /// It stands where such a line can't.
    Order,
    /// The script has no such thing, or another one.
    Stranger,
}

/// Why no picture is drawn.
#[derive(Debug, Drop)]
pub enum DrawingFault {
    /// The script isn't accepted.
    Script(ScriptFault),
    /// This line of the report, from 1, is at fault.
    Report(u32, ReportFault),
    /// The report has more than `REPORT_LINES_MAX` lines.
    TooLong,
    /// Want of memory.
    Memory,
}

/// What is wrong with the line at this place, from 0.
pub(crate) fn fault_at(at: usize, why: ReportFault) -> DrawingFault {
    DrawingFault::Report(count(at).saturating_add(1), why)
}

impl From<NoMemory> for DrawingFault {
    ghost from_gives = { λ _ e. e ≡ Memory };

    fn from(_refused: NoMemory) -> DrawingFault {
        DrawingFault::Memory
    }
}

impl From<AllocError> for DrawingFault {
    ghost from_gives = { λ _ e. e ≡ Memory };

    fn from(_refused: AllocError) -> DrawingFault {
        DrawingFault::Memory
    }
}

impl From<LinesFault> for DrawingFault {
    fn from(fault: LinesFault) -> DrawingFault {
        match fault {
            LinesFault::TooMany => DrawingFault::TooLong,
            LinesFault::Shape(at) => fault_at(at, ReportFault::Shape),
            LinesFault::Memory => DrawingFault::Memory,
        }
    }
}
