// A gang's read as a read's own work: its walk and its bodies are gang children's.

ghost use Rattle.std.specs.Prelude.{◌≡◌, ◌+◌, ◌^◌, ◌<◌, ℕ, List, None, Option, Some, false, OnErr, OnOk, length, slice_get};
ghost use Rattle.zio_types.specs.declared.place.Top.{Top as SeenTop};
ghost use Rattle.zio_types.specs.declared.request.ChildKind.TheVariants.{Gang};
ghost use Rattle.zio_blkptr.specs.declared.pointer.Bp.{Bp as SeenBp};
ghost use Rattle.zio_gang.specs.declared.tree.Tree.{Tree};
ghost use Rattle.zio_gang.specs.Attempts.{Terms};
ghost use Rattle.zio_trace.specs.Leaves.{Answer};
ghost use Rattle.zio_trace.specs.Plans.{plan_tree};
ghost use Rattle.zio_trace.specs.Tasks.{Got, Task, WalkedBy};
ghost use Rattle.zio_frames.specs.Frames.{Child, OfOuter, Stack};
ghost use Rattle.zio_frames.specs.Moves.{heard_early, heard_of};
ghost use Rattle.zio_frames.specs.Seats.{IsSeated};
ghost use Rattle.zio_frames.specs.Slots.{Slot};
ghost use Rattle.zio_parts.specs.TreeReads.{ShowsRead, bodies_or, walk_heard};
ghost use Rattle.zio_parts.specs.declared.tree_read.TreeStep.TheVariants.{Body, Walk};
ghost use Rattle.zio_stages.specs.NodeIos.{NoneSits};
ghost use Rattle.zio_stages.specs.OwnParts.{GoesOnAs, HandsTo};
ghost use Rattle.zio_stages.specs.OwnReads.{IsBeside, IsBodyOut, IsOwnRead, IsOwnReadOver, IsWalkOut};
ghost use Rattle.zio_stages.specs.ReadCounts.{HandsOutBody, HandsOutWalk, HearsBody};
ghost use Rattle.zio_stages.specs.TreeWorks.{bodies_after, body_task, heads_task};
ghost use Rattle.zio_stages.specs.declared.family.Layer.TheVariants.{Within};

use crate::family::{Family, Seat};
use crate::own_read::{OwnRead, number_of};
use zio_parts::{BodyRead, Walked};
use zio_types::{Bytes, ChildKind, Errno, NoMemory};

impl OwnRead {
    /// The walk over the block's headers is a child's, which is added, behind so many operations of the node's part.
    /// Where memory is refused nothing is.
    pub(crate) fn gang_assemble(
        &mut self,
        family: &mut Family,
        front: usize,
        label: u64,
    ) -> Result<(), NoMemory>
        requires walk { ShowsRead self.old.tree.read Walk }
        requires alone { self.old.body ≡ None }
        ensures hands { OnOk result ((t : Terms) (tops : List SeenTop) (tree : Tree) (front_asked : List Task)
            (before : List Slot) (st : Stack) → length before ≡ front →
            GoesOnAs t tops (plan_tree tree) before st → IsOwnRead t self.old family.old tree front_asked before st →
            HandsTo t Gang (λ op. op ≡ heads_task tree) (IsOwnRead t self.new family.new tree front_asked before) st) }
        ensures counts { OnOk result (HandsOutWalk self.old self.new) }
        ensures alone { self.new.body ≡ None }
        ensures bodies { self.new.tree.read.bodies ≡ self.old.tree.read.bodies }
        ensures sits { OnOk result (NoneSits Within family.old → NoneSits Within family.new) }
        ensures err { OnErr result (self.new ≡ self.old) }
        ensures family_err { OnErr result (family.new ≡ family.old) }
    {
        family.add(ChildKind::Gang, Seat::Outer(front), label)?;
        self.tree.hand_out_walk();
        Ok(())
    }

    /// The read of this body is a child's, which is added, behind so many operations of the node's part. Where memory
    /// is refused nothing is.
    pub(crate) fn gang_issue(
        &mut self,
        family: &mut Family,
        front: usize,
        body: BodyRead,
        label: u64,
    ) -> Result<(), NoMemory>
        requires next { ShowsRead self.old.tree.read (Body body) }
        requires alone { self.old.body ≡ None }
        requires small { body.n < 2 ^ 63 }
        requires front { front < 2 ^ 63 }
        ensures hands { OnOk result ((t : Terms) (tops : List SeenTop) (tree : Tree) (front_asked : List Task)
            (before : List Slot) (st : Stack) → length before ≡ front →
            GoesOnAs t tops (plan_tree tree) before st → IsOwnRead t self.old family.old tree front_asked before st →
            HandsTo t Gang (λ op. op ≡ body_task body.bp)
            (IsOwnRead t self.new family.new tree front_asked before) st) }
        ensures counts { OnOk result (HandsOutBody self.old self.new) }
        ensures bodies { self.new.tree.read.bodies ≡ self.old.tree.read.bodies }
        ensures sits { OnOk result (NoneSits Within family.old → NoneSits Within family.new) }
        ensures alone { self.new.body ≡ None }
        ensures err { OnErr result (self.new ≡ self.old) }
        ensures family_err { OnErr result (family.new ≡ family.old) }
    {
        let number = number_of(&body);
        self.tree.hand_out_body(body)?;
        match family.add(ChildKind::Gang, Seat::Outer(front + number), label) {
            Ok(_) => Ok(()),
            Err(NoMemory) => {
                self.tree.take_back_body();
                Err(NoMemory)
            }
        }
    }

    /// The child told that it has no pointer.
    pub(crate) fn arrive_ready(&self, family: &mut Family, child: usize)
        requires child { child < length family.old }
        ensures over { (tops : List SeenTop) → IsOwnReadOver tops self.now family.old
            → IsOwnReadOver tops self.now family.new }
        ensures told { (t : Terms) (tree : Tree) (front_asked : List Task) (before : List Slot) (st : Stack) (c : Child)
            (n : ℕ) (pointer : Option SeenBp) →
            slice_get st.children child ≡ Some c → c.seat ≡ OfOuter (length before + n) → IsSeated st → c.ended ≡ false
            → c.told ≡ false →
            IsOwnRead t self.now family.old tree front_asked before st
            → IsOwnRead t self.now family.new tree front_asked before (heard_early st child c pointer) }
    {
        family.tell(child);
    }

    /// The walk ended, and left this.
    pub(crate) fn arrive_walked(&mut self, family: &mut Family, child: usize, walked: Walked)
        requires child { child < length family.old }
        requires out { IsWalkOut self.old.tree }
        requires alone { self.old.body ≡ None }
        ensures heard { (t : Terms) (tree : Tree) (front_asked : List Task) (before : List Slot) (st : Stack)
            (c : Child) →
            slice_get st.children child ≡ Some c → c.seat ≡ OfOuter (length before) →
            IsOwnRead t self.old family.old tree front_asked before st →
            IsOwnRead t self.new family.new tree front_asked before (heard_of st child c (WalkedBy walked)) }
        ensures read { self.new.tree.read ≡ walk_heard self.old.tree.read (bodies_or walked) }
        ensures bodies { self.new.tree.read.bodies ≡ bodies_after self.old.tree.read.bodies walked }
        ensures sits { NoneSits Within family.old → NoneSits Within family.new }
        ensures alone { self.new.body ≡ None }
    {
        self.tree.hear_walk(walked);
        family.end(child);
    }

    /// A body, the operation with this number, was read, or failed. It isn't the one that the node reads itself.
    pub(crate) fn arrive_found(
        &mut self,
        family: &mut Family,
        child: usize,
        n: usize,
        found: Result<Bytes, Errno>,
    )
        requires child { child < length family.old }
        requires out { IsBodyOut self.old.tree n }
        requires beside { IsBeside n self.old.body }
        ensures heard { (t : Terms) (tree : Tree) (front_asked : List Task) (before : List Slot) (st : Stack)
            (c : Child) (a : Answer) → found ≡ a →
            slice_get st.children child ≡ Some c → c.seat ≡ OfOuter (length before + n) →
            IsOwnRead t self.old family.old tree front_asked before st →
            IsOwnRead t self.new family.new tree front_asked before (heard_of st child c (Got a)) }
        ensures over { (tops : List SeenTop) → IsOwnReadOver tops self.old family.old
            → IsOwnReadOver tops self.new family.new }
        ensures bodies { self.new.tree.read.bodies ≡ self.old.tree.read.bodies }
        ensures counts { HearsBody self.old self.new }
    {
        self.tree.hear_body(n, found);
        family.end(child);
    }
}
