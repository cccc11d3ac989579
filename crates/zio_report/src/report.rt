use zio_script::Name;
use zio_types::{Bytes, Errno, Kind, ReqNo};

/// What a run shows.
#[derive(Clone, Copy, Debug, PartialEq, Eq)]
pub enum Show {
    /// A line for each request.
    Report {
        /// With the journal's entries and the order of completions.
        journal: bool,
        /// With the bytes that reads gave.
        bytes: bool,
    },
    /// Counts alone.
    Summary,
}

/// What the first line of a round shows.
#[derive(Clone, Copy, Debug, PartialEq, Eq)]
pub struct RoundHead {
    pub round: u32,
    /// None for the round of a `clear`.
    pub batch: Option<u32>,
    /// The resume point.
    pub point: u32,
}

/// What became of a request in a round.
#[derive(Debug, Drop)]
pub enum LineResult {
    /// It hasn't finished.
    Suspended,
    Failed(Errno),
    /// A null, free or claim without error.
    Done,
    /// A write without error, with its padded size in bytes.
    Sized(u32),
    /// A read without error, with its bytes.
    Bytes(Bytes),
}

/// What is shown of one request.
#[derive(Debug, Drop)]
pub struct ReportLine {
    pub number: ReqNo,
    pub kind: Kind,
    pub name: Option<Name>,
    pub result: LineResult,
}

/// Why the run of a script was stopped.
#[derive(Clone, Copy, Debug, PartialEq, Eq)]
pub enum RunFault {
    /// A disk failed.
    Device,
    /// The sink failed.
    Sink,
    /// Want of memory.
    Memory,
}
