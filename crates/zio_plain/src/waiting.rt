//! A request that hasn't finished, and what it hands to its parent.

use zio_blkptr::Bp;
use zio_gang::Tree;
use zio_script::Request;
use zio_types::{Bits, Errno, List, ReqNo};

/// What a child leaves with its parent.
#[derive(Clone, Copy, Debug)]
pub(crate) struct Kept {
    pub(crate) number: ReqNo,
    /// If it finished.
    pub(crate) error: Option<Errno>,
    /// Of a write that has a place.
    pub(crate) pointer: Option<Bp>,
}

/// What a request hands to its parent in an attempt. With bits it goes again.
#[derive(Clone, Copy, Debug)]
pub(crate) struct Handed {
    pub(crate) under: Option<ReqNo>,
    pub(crate) bits: Bits,
    pub(crate) child: Kept,
}

/// A request that hasn't finished.
#[derive(Debug, Drop)]
pub(crate) struct Waiting {
    pub(crate) request: Request,
    /// The number of its batch.
    pub(crate) birth: u32,
    /// The block that a read or a free names.
    pub(crate) block: Option<Tree>,
    /// Its children that finished in earlier attempts, by number.
    pub(crate) kept: List<Kept>,
    /// How many of its children stand before it in the tree.
    pub(crate) unfinished: u32,
}
