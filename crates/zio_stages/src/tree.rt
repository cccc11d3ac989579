// The read of a block, as a part of what a request does itself.

ghost use Rattle.std.specs.Prelude.{◌≡◌, ◌-◌, ◌+◌, ◌^◌, ◌++◌, ◌∷◌, ◌<◌, IfErr, IfOk, List, None, OnErr, OnOk, Some, [], length, slice_get, slice_set};
ghost use Rattle.zio_gang.specs.declared.tree.Tree.{Tree};
ghost use Rattle.zio_trace.specs.Plans.{plan_tree};
ghost use Rattle.zio_trace.specs.Programs.{Ends};
ghost use Rattle.zio_trace.specs.Tasks.{Got, Task, Walked as Left, WalkedBy};
ghost use Rattle.zio_frames.specs.Slots.{AllHeard, Heard, IsOut, Slot, left_behind_slots, told_in};
ghost use Rattle.zio_parts.specs.TreeReads.{Reading, ShowsRead, bodies_or, fresh_read, walk_heard, with_phase, with_results};
ghost use Rattle.zio_parts.specs.declared.tree_read.Phase.TheVariants.{Out};
ghost use Rattle.zio_stages.specs.TreeWorks.{HandsRead, IsTreeWork, WalksRead, bodies_after, body_task, heads_task, slots_with};

use std::alloc::Global;
use zio_blkptr::Bp;
use zio_parts::{BodyRead, TreeRead, TreeStep, Walked};
use zio_types::{Bytes, Errno, NoMemory};

/// The read of a block: the walk over its headers, which is a child's, and then its bodies, each a child's.
#[derive(Debug, Drop)]
pub struct TreeWork {
    read: TreeRead,
}

impl TreeWork {
    /// Nothing of it is read.
    pub fn new(alloc: Global, bp: Bp) -> TreeWork
        ensures fresh { (tree : Tree) → tree.bp ≡ bp → IsTreeWork result tree [] [] }
        ensures walk { ShowsRead result.read TreeStep.Walk }
        ensures none { result.read ≡ fresh_read bp }
        ensures bodies { result.read.bodies ≡ [] }
    {
        TreeWork {
            read: TreeRead::new(alloc, bp),
        }
    }

    /// What is to be done next.
    pub fn next(&self) -> TreeStep
        ensures shows { ShowsRead self.now.read result }
        ensures body { (body : BodyRead) → result ≡ TreeStep.Body body
            → slice_get self.now.read.bodies body.n ≡ Some body.bp }
        ensures small { (body : BodyRead) → result ≡ TreeStep.Body body → body.n < 2 ^ 63 }
        ensures waits { result ≡ TreeStep.Wait → (tree : Tree) (asked : List Task) (slots : List Slot)
            → IsTreeWork self.now tree asked slots → 0 < length (told_in slots) }
    {
        self.read.next()
    }

    /// The walk over the headers is out, from the block's pointer down.
    pub fn hand_out_walk(&mut self)
        requires { ShowsRead self.old.read TreeStep.Walk }
        ensures out { (tree : Tree) (asked : List Task) (slots : List Slot) → IsTreeWork self.old tree asked slots
            → HandsRead self.new tree asked slots (heads_task tree) }
        ensures read { self.new.read ≡ with_phase self.old.read Out }
        ensures bodies { self.new.read.bodies ≡ self.old.read.bodies }
    {
        self.read.hand_out_walk();
    }

    /// The walk over the headers is made at once, and left this.
    pub fn walk_at_once(&mut self, walked: Walked)
        requires { ShowsRead self.old.read TreeStep.Walk }
        ensures walks { (tree : Tree) (asked : List Task) (slots : List Slot) → IsTreeWork self.old tree asked slots
            → WalksRead self.new tree asked slots walked }
        ensures read { self.new.read ≡ walk_heard (with_phase self.old.read Out) (bodies_or walked) }
        ensures bodies { self.new.read.bodies ≡ bodies_after self.old.read.bodies walked }
    {
        self.read.hand_out_walk();
        self.read.hear_walk(walked);
    }

    /// The read of this body is out. Where memory is refused nothing is.
    pub fn hand_out_body(&mut self, body: BodyRead) -> Result<(), NoMemory>
        requires { ShowsRead self.old.read (TreeStep.Body body) }
        ensures there { OnOk result ((left : Left) → slice_get (slots_with left self.new.read) (body.n + 1)
            ≡ Some (IsOut None)) }
        ensures out { OnOk result ((tree : Tree) (asked : List Task) (slots : List Slot)
            → IsTreeWork self.old tree asked slots → HandsRead self.new tree asked slots (body_task body.bp)) }
        ensures handed { OnOk result (self.new.read ≡ with_results self.old.read (self.old.read.results ++ None ∷ [])) }
        ensures err { OnErr result (self.new ≡ self.old) }
    {
        self.read.hand_out_body()
    }

    /// The read of the body that was handed out last isn't out: all is as before that.
    pub fn take_back_body(&mut self)
        requires { (before : Reading) × (self.old.read ≡ with_results before (before.results ++ None ∷ [])) }
        ensures { (before : Reading) → self.old.read ≡ with_results before (before.results ++ None ∷ [])
            → self.new.read ≡ before }
    {
        self.read.take_back_body();
    }

    /// The walk over the headers ended, and left this.
    pub fn hear_walk(&mut self, walked: Walked)
        requires { (left : Left) × (slice_get (slots_with left self.old.read) 0 ≡ Some (IsOut None)) }
        ensures heard { (tree : Tree) (asked : List Task) (slots : List Slot) → IsTreeWork self.old tree asked slots →
            IsTreeWork self.new tree asked (slice_set slots 0 (Heard (WalkedBy walked))) }
        ensures read { self.new.read ≡ walk_heard self.old.read (bodies_or walked) }
        ensures bodies { self.new.read.bodies ≡ bodies_after self.old.read.bodies walked }
    {
        self.read.hear_walk(walked);
    }

    /// A body, the operation with this number, was read, or failed.
    pub fn hear_body(&mut self, n: usize, found: Result<Bytes, Errno>)
        requires behind { 0 < n }
        requires out { (left : Left) × (slice_get (slots_with left self.old.read) n ≡ Some (IsOut None)) }
        ensures heard { (tree : Tree) (asked : List Task) (slots : List Slot) → IsTreeWork self.old tree asked slots →
            IsTreeWork self.new tree asked (slice_set slots n (Heard (Got found))) }
        ensures read { self.new.read
            ≡ with_results self.old.read (slice_set self.old.read.results (n - 1) (Some found)) }
        ensures bodies { self.new.read.bodies ≡ self.old.read.bodies }
    {
        self.read.hear_body(n - 1, found);
    }

    /// The block's bytes or its error, where it ended. A block of one body is that body's bytes, moved. Where memory is
    /// refused it comes back.
    pub fn into_found(self, alloc: Global) -> Result<Result<Bytes, Errno>, TreeWork>
        requires { ShowsRead self.read TreeStep.End }
        ensures back { IfErr result (λ work. work ≡ self) }
        ensures found { IfOk result (λ found. (tree : Tree) (asked : List Task) (slots : List Slot) →
            IsTreeWork self tree asked slots →
            AllHeard slots × (left_behind_slots slots (plan_tree tree) ≡ Ends (Got found))) }
    {
        let TreeWork { read } = self;
        match read.into_found(alloc) {
            Ok(found) => Ok(found),
            Err(read) => Err(TreeWork { read }),
        }
    }
}
