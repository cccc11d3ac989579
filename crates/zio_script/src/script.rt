ghost use Rattle.std.specs.Prelude.{◌≡◌};
ghost use Rattle.zio_script.specs.declared.script.ScriptError.TheVariants.{Memory};

use crate::Name;
use zio_blkptr::SumKind;
use zio_faults::Row;
use zio_types::{Bytes, List, NoMemory, Prio, ReqNo};

/// What a run does where a tree can't go on.
#[derive(Clone, Copy, Debug, PartialEq, Eq)]
pub enum Failmode {
    /// Later batches wait for the next `clear`.
    Wait,
    /// Later batches run, and a device that is gone is an error of a request that may fail.
    Continue,
    /// The run ends.
    Panic,
}

/// The bytes of a write, before they are padded.
#[derive(Debug, Drop)]
pub enum Body {
    /// These bytes.
    Hex(Bytes),
    /// One byte, so many times.
    Fill { byte: u8, len: u32 },
    /// The first bytes that the generator gives from the seed.
    Seq { seed: u64, len: u32 },
}

/// What a request is to do.
#[derive(Debug, Drop)]
pub enum Work {
    Null,
    Read {
        name: Name,
        prio: Prio,
    },
    Write {
        name: Name,
        sum: SumKind,
        /// One to three.
        copies: u32,
        prio: Prio,
        body: Body,
    },
    Free {
        name: Name,
    },
    Claim {
        name: Name,
        /// The bytes of the pointer that the block is to have.
        pointer: [u8; 128],
    },
}

/// A request of a script.
#[derive(Debug, Drop)]
pub struct Request {
    pub number: ReqNo,
    pub work: Work,
    /// The request under which it stands, in the same batch.
    pub under: Option<ReqNo>,
    pub canfail: bool,
}

/// A line of a script that does something.
#[derive(Debug, Drop)]
pub enum Item {
    Request(Request),
    /// The requests before it are a batch.
    Go,
    /// The resume point rises.
    Clear,
}

/// A top: a mirror of its leaves.
#[derive(Debug, Drop)]
pub struct TopLine {
    /// One to four numbers of leaves.
    pub leaves: List<u32>,
    /// How many sectors of 512 bytes a sector of the leaves has: 1, 2, 4 or 8.
    pub unit: u32,
}

/// What a run is to do.
#[derive(Debug, Drop)]
pub struct Script {
    pub failmode: Failmode,
    pub tops: List<TopLine>,
    pub faults: List<Row>,
    pub items: List<Item>,
}

/// The first faulty line of a script, and the least reason why it is one.
#[derive(Clone, Copy, Debug, PartialEq, Eq)]
pub struct ScriptFault {
    /// From 1; 0 where the script is too long.
    pub line: u32,
    /// The number of a `Why`.
    pub why: u32,
}

/// Why no script was read.
#[derive(Debug, Drop)]
pub enum ScriptError {
    Fault(ScriptFault),
    /// Want of memory.
    Memory,
}

impl From<NoMemory> for ScriptError {
    ghost from_gives = { λ _ e. e ≡ Memory };

    fn from(_refused: NoMemory) -> ScriptError {
        ScriptError::Memory
    }
}
