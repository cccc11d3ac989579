//! What an engine has to know of its nodes.

ghost use Rattle.zio_staged.specs.Parts.{Nodes};

/// A node: how far it is, whether it told its pointer, and how often it runs at most.
pub trait NodeFacts {
    ghost nodes: { Nodes Self };
}
