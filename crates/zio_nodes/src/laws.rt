//! What nodes hear, what they never hear or do, and how many of their operations are out.

ghost use Rattle.std.specs.Prelude.{◌≡◌, ◌≢◌, ◌≤◌, ℕ, List as Seq};
ghost use Rattle.zio_types.specs.declared.place.Top.{Top as SeenTop};
ghost use Rattle.zio_types.specs.declared.request.ChildKind.TheVariants.{Gang};
ghost use Rattle.zio_types.specs.Choices.{Ask};
ghost use Rattle.zio_gang.specs.Attempts.{Terms};
ghost use Rattle.zio_trace.specs.Tasks.{Find};
ghost use Rattle.zio_frames.specs.Frames.{Child, Stack};
ghost use Rattle.zio_stages.specs.Sealed.{Outcome as SeenOutcome};
ghost use Rattle.zio_staged.specs.Stages.{AreItsOwn, HearsEarly, HearsSome};
ghost use Rattle.zio_nodes.specs.Nodes.{IsNode, IsNodeOver, gave_of, nodes};
ghost use Rattle.zio_nodes.specs.Stalls.{leaf_room, leaves_out};
ghost use Rattle.zio_nodes.specs.declared.copies_at.CopiesAt.{CopiesAt};
ghost use Rattle.zio_nodes.specs.declared.leaf_at.LeafAt.{LeafAt};
ghost use Rattle.zio_nodes.specs.declared.node.Node.{Node};
ghost use Rattle.zio_nodes.specs.declared.node.Node.TheVariants.{Copies, Leaf, Part};
ghost use Rattle.zio_nodes.specs.declared.part_at.PartAt.{PartAt};

/// An operation on a leaf has no children, and those of a read of copies are operations on leaves, which tell no
/// pointer.
pub fn operations_on_leaves_tell_nothing()
    ensures copies { (t : Terms) (at : CopiesAt) (st : Stack) (n : ℕ) (c : Child)
        → HearsEarly nodes t (Copies at) st n c → ⊥ }
    ensures leaf { (t : Terms) (at : LeafAt) (st : Stack) (n : ℕ) (c : Child)
        → HearsEarly nodes t (Leaf at) st n c → ⊥ }
    ensures childless { (tops : Seq SeenTop) (at : LeafAt) (n : ℕ) (outcome : SeenOutcome) →
        HearsSome nodes tops (Leaf at) n outcome → ⊥ }
{}

/// Of the children of a member that is written its own members tell pointers, and none of the writes of its copies.
pub fn members_alone_tell_pointers()
    ensures { (t : Terms) (at : PartAt) (st : Stack) (n : ℕ) (c : Child) → HearsEarly nodes t (Part at) st n c
        → c.kind ≡ Gang }
{}

/// A node does a part of the round's work, or an operation on a leaf, and no ask of the space.
pub fn no_node_asks_for_places()
    ensures { (t : Terms) (node : Node) (st : Stack) (a : Ask) → IsNode t node st → st.outer.op ≢ Find a }
{}

/// A node gives back only places that it holds, or of the block that it frees.
pub fn nodes_give_their_own()
    ensures { (t : Terms) (node : Node) (st : Stack) → IsNode t node st → AreItsOwn (gave_of node) st }
{}

/// Of a node's operations on leaves no more than one for each copy are out: three places on four leaves each.
pub fn a_copy_has_one_operation_out()
    ensures { (tops : Seq SeenTop) (node : Node) → IsNodeOver tops node → leaves_out node ≤ leaf_room }
{}
