//! A node that an engine holds, and what it knows of it beside the node itself.

use zio_counts::Counts;
use zio_types::ChildKind;

/// Who hears of a node, and which of its children that is.
#[derive(Clone, Copy)]
pub(crate) enum Parent {
    /// The tree of the round with this number.
    Tree { tree: u32, child: u32 },
    /// The node under this key.
    Node { key: usize, child: usize },
}

/// A node's parent, and what is counted of its children.
#[derive(Drop)]
pub(crate) struct Ties {
    /// Its kind as a child.
    pub(crate) kind: ChildKind,
    pub(crate) parent: Parent,
    pub(crate) counts: Counts,
    /// How many children it handed out.
    pub(crate) children: usize,
}

/// A node with its ties.
#[derive(Drop)]
pub(crate) struct TiedNode<N> {
    pub(crate) node: N,
    pub(crate) ties: Ties,
}
