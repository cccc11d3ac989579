//! Why the lines of a report aren't read.

use std::alloc::AllocFailed;
use zio_types::NoMemory;

/// The most lines of a report that is read: a picture of a longer one couldn't be read.
pub const REPORT_LINES_MAX: usize = 10_000;

/// Why the lines of a report aren't read.
#[derive(Debug, Drop)]
pub enum LinesFault {
    /// There are more than `REPORT_LINES_MAX`.
    TooMany,
    /// The line of this number, from 0, is none of a report's.
    Shape(usize),
    /// Want of memory.
    Memory,
}

impl From<NoMemory> for LinesFault {
    fn from(_refused: NoMemory) -> LinesFault {
        LinesFault::Memory
    }
}

impl<T: Drop> From<AllocFailed<T>> for LinesFault {
    fn from(_refused: AllocFailed<T>) -> LinesFault {
        LinesFault::Memory
    }
}
