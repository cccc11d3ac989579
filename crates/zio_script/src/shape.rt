//! What a line is by its words alone: `specs/Lines`, "Shapes".
use crate::Failmode;
use zio_blkptr::SumKind;
use zio_faults::{FaultKind, On};
use zio_types::Prio;

/// What a line is by its words.
#[derive(Clone, Copy)]
pub(crate) enum LineShape<'w, 'a> {
    Failmode(Failmode),
    Top(TopShape<'w, 'a>),
    Fault(RowShape<'a>),
    Request(RequestShape<'a>),
    Go,
    Clear,
}

/// The leaves of a top, and the size of its sectors where the line says it.
#[derive(Clone, Copy)]
pub(crate) struct TopShape<'w, 'a> {
    pub leaves: &'w [&'a [u8]],
    pub sector: Option<&'a [u8]>,
}

/// A row of the fault table.
#[derive(Clone, Copy)]
pub(crate) struct RowShape<'a> {
    pub leaf: &'a [u8],
    pub on: On,
    pub at: &'a [u8],
    pub len: &'a [u8],
    pub from: &'a [u8],
    pub until: &'a [u8],
    pub kind: FaultKind,
    pub first: bool,
}

/// A request.
#[derive(Clone, Copy)]
pub(crate) struct RequestShape<'a> {
    pub number: &'a [u8],
    pub work: WorkShape<'a>,
    pub tail: Tail<'a>,
}

/// What a request is to do.
#[derive(Clone, Copy)]
pub(crate) enum WorkShape<'a> {
    Null,
    Read {
        name: &'a [u8],
        prio: Prio,
    },
    Write {
        name: &'a [u8],
        sum: SumKind,
        copies: &'a [u8],
        prio: Prio,
        body: BodyShape<'a>,
    },
    Free {
        name: &'a [u8],
    },
    Claim {
        name: &'a [u8],
        hex: &'a [u8],
    },
}

/// The words of a body.
#[derive(Clone, Copy)]
pub(crate) enum BodyShape<'a> {
    Hex(&'a [u8]),
    Fill { byte: &'a [u8], len: &'a [u8] },
    Seq { seed: &'a [u8], len: &'a [u8] },
}

/// What stands behind a request: its parent, and whether it may fail.
#[derive(Clone, Copy)]
pub(crate) struct Tail<'a> {
    pub under: Option<&'a [u8]>,
    pub flag: Option<bool>,
}
