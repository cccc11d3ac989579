//! Names with their blocks.

use crate::tree::Tree;
use zio_script::Name;

/// A name with the block that it names.
#[derive(Debug, Drop)]
pub struct Bound {
    pub name: Name,
    pub tree: Tree,
}
