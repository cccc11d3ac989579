//! What the own work of a request gives.

use zio_blkptr::Bp;
use zio_gang::Tree;
use zio_types::{Bytes, Errno};

/// What the own work of a request gives.
#[derive(Debug, Drop)]
pub(crate) struct OwnEnd {
    pub(crate) error: Option<Errno>,
    /// Of a read without error.
    pub(crate) bytes: Bytes,
    /// The block of a write that has a place, also after an error, or of a claim.
    pub(crate) tree: Option<Tree>,
    /// Of a write that has a place.
    pub(crate) pointer: Option<Bp>,
}
