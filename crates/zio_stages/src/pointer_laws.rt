//! Which pointers nodes will have that write nothing.

ghost use Rattle.std.specs.Prelude.{None};
ghost use Rattle.zio_gang.specs.Attempts.{Terms};
ghost use Rattle.zio_frames.specs.Frames.{Stack};
ghost use Rattle.zio_frames.specs.Moves.{WillHave};
ghost use Rattle.zio_stages.specs.CopiesNodes.{IsCopiesNode};
ghost use Rattle.zio_stages.specs.HeadsNodes.{IsHeadsNode};
ghost use Rattle.zio_stages.specs.declared.copies_node.CopiesNode.{CopiesNode};
ghost use Rattle.zio_stages.specs.declared.heads_node.HeadsNode.{HeadsNode};

/// A node that reads copies, or walks over headers, has no pointer to tell.
pub fn reads_tell_no_pointer()
    ensures copies { (t : Terms) (node : CopiesNode) (st : Stack) → IsCopiesNode t node st → WillHave t st.outer None }
    ensures heads { (t : Terms) (node : HeadsNode) (st : Stack) → IsHeadsNode t node st → WillHave t st.outer None }
{}
