//! A request that hasn't finished.

use zio_children::KeptChild;
use zio_gang::Tree;
use zio_script::Request;
use zio_types::List;

/// A request that hasn't finished.
#[derive(Debug, Drop)]
pub struct UnfinishedRequest {
    pub request: Request,
    /// The number of its batch.
    pub birth: u32,
    /// The block that a read or a free names.
    pub block: Option<Tree>,
    /// Its children that finished in earlier attempts, by number.
    pub kept: List<KeptChild>,
    /// How many of its children haven't finished.
    pub unfinished: usize,
}
