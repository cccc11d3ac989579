//! What an engine does with its nodes: it runs their stages, and tells them what their children and the leaves
//! answered.

ghost use Rattle.std.specs.Prelude.{◌≡◌, ◌≢◌, ◌+◌, ◌<◌, ◌≤◌, List as Seq, [], IfErr, IfOk, IfSome, IsTrue, OnErr, OnOk, Ok, Some, false, length};
ghost use Rattle.zio_types.specs.Choices.{Ask};
ghost use Rattle.zio_types.specs.declared.place.Top.{Top as SeenTop};
ghost use Rattle.zio_blkptr.specs.Pointers.{valid};
ghost use Rattle.zio_gang.specs.Attempts.{Pending, Terms};
ghost use Rattle.zio_trace.specs.Families.{Forest};
ghost use Rattle.zio_trace.specs.Leaves.{Answer, LeafOp};
ghost use Rattle.zio_trace.specs.Tasks.{Attempt, Find, Got, Leaf, Task, Value};
ghost use Rattle.zio_frames.specs.Frames.{Child, Stack, fresh_stack};
ghost use Rattle.zio_frames.specs.Moves.{done_at_once, heard_early, heard_of};
ghost use Rattle.zio_exchange.specs.SpaceCalls.{SpaceCall};
ghost use Rattle.zio_exchange.specs.Wholes.{IsTreeOf};
ghost use Rattle.zio_exchange.specs.declared.waiting.UnfinishedRequest.{UnfinishedRequest};
ghost use Rattle.zio_exchange.specs.declared.outcome.Outcome.{Outcome as SeenOutcome};
ghost use Rattle.zio_staged.specs.Stages.{AreItsOwn, EachIn, GoesOn, Hears, HearsEarly, HearsSome, HearsSomeEarly, IsMove, IsNow, Lessens, MayGoOn, OutcomeIn, ShowsAnswer, heard_max};

use crate::node::NodeFacts;
use std::alloc::Global;
use zio_blkptr::Bp;
use zio_exchange::{Finished, Outcome, Services, Whole, WholeBack};
use zio_script::Failmode;
use zio_shared::Shared;
use zio_types::{Bytes, ChildKind, Errno, NoMemory, Phase, Top};
use zio_vqueue::Op;

/// What a stage of a node comes to, which is changed in its place.
#[derive(Drop)]
pub enum Turn<N, S> {
    /// The node goes on.
    Next,
    /// It waits until no child of this kind owes this phase.
    Wait(ChildKind, Phase),
    /// This node is its new child.
    Grow(N, ChildKind),
    /// An operation for the leaf of this number, with the bytes of a write.
    Leaf(Op, u32, Shared),
    /// Its value will have this pointer, or none.
    Ready(Option<Bp>),
    /// It ended with this, and what is in its place may only be dropped. An outcome is large, and a turn is handed on at
    /// every stage, so it is in a box.
    End(Box<Outcome<S>>),
}

/// What a stage of a node comes to, with the node as the stage left it: contracts speak of a turn so, and a stage that
/// takes its node apart gives it.
#[derive(Drop)]
pub enum Move<N, S> {
    /// The node goes on.
    Next(N),
    /// It waits until no child of this kind owes this phase.
    Wait(N, ChildKind, Phase),
    /// The second node is its new child.
    Grow(N, N, ChildKind),
    /// An operation for the leaf of this number, with the bytes of a write.
    Leaf(N, Op, u32, Shared),
    /// Its value will have this pointer, or none.
    Ready(N, Option<Bp>),
    End(Outcome<S>),
}

/// A node whose stages an engine runs.
pub trait Staged: NodeFacts + Drop {
    ghost use Rattle.zio_staged.specs.Moves.{moved};
    ghost use Rattle.zio_staged.specs.declared.staged.Move.{Move as SeenMove};

    /// Under which its requests finish.
    type Seal: Drop;

    /// What it is to read, write or free lies inside these tops.
    ghost over: { Seq SeenTop → Self → Type 0 };

    /// What a tree of requests names lies inside them.
    ghost tree_over: { Seq SeenTop → Seq UnfinishedRequest → Type 0 };

    /// Where a stage leaves it.
    ghost leads: { Self → SeenMove Self Self.Seal → Type 0 };

    /// What its stage has to reckon, before it is its turn.
    type Ahead: Drop;

    /// This was reckoned of it.
    ghost fits: { Self → Self.Ahead → Type 0 };

    /// Nothing of this attempt of a tree is done. Where memory is refused the tree comes back.
    fn start(
        alloc: Global,
        whole: Whole,
        round: u32,
        attempt: u32,
        failmode: Failmode,
    ) -> Result<Self, WholeBack>
        requires { attempt < 4 }
        ensures fresh { IfOk result (λ node. (t : Terms) (p : Pending) (forest : Forest) → t.round ≡ round →
            t.failmode ≡ failmode →
            IsTreeOf whole p forest → Self.nodes.Is t node (fresh_stack (Attempt attempt p forest))) }
        ensures told { IfOk result (λ node. Self.nodes.told node ≡ false) }
        ensures gave { IfOk result (λ node. Self.nodes.gave node ≡ []) }
        ensures due { IfOk result Self.nodes.due }
        ensures over { (tops : Seq SeenTop) → tree_over tops whole → IfOk result (over tops) }
        ensures back { IfErr result (λ e. e.whole ≡ whole) };

    /// Runs one stage of a node that isn't with its leaf. Where memory is refused the stage is to be repeated, and what
    /// it did of it stays.
    fn run_stage<S: Services>(
        &mut self,
        alloc: Global,
        services: &mut S,
    ) -> Result<Turn<Self, Self::Seal>, NoMemory>
        requires over { over (S.tops services.old) self.old }
        requires due { Self.nodes.due self.old }
        ensures moves { IfOk result (λ turn. (calls : Seq SpaceCall) × S.made services.old calls services.new
            × ((t : Terms) (st : Stack) → IsNow Self.nodes (S.tops services.old) t self.old st
            → IsMove Self.nodes Self.nodes.gave t self.old st calls (moved self.new turn))) }
        ensures over { IfOk result (λ turn. EachIn (over (S.tops services.old)) (tree_over (S.tops services.old))
            (moved self.new turn)) }
        ensures may { IfOk result (λ turn. MayGoOn Self.nodes.due (moved self.new turn)) }
        ensures left { IfOk result (λ turn. Lessens Self.nodes.left self.old (moved self.new turn)) }
        ensures stages { IfOk result (λ turn. leads self.old (moved self.new turn)) }
        ensures refused { OnErr result ((calls : Seq SpaceCall) × S.made services.old calls services.new
            × ((t : Terms) (st : Stack) → IsNow Self.nodes (S.tops services.old) t self.old st
            → GoesOn Self.nodes Self.nodes.gave t self.old st calls self.new)) }
        ensures tops { S.tops services.new ≡ S.tops services.old };

    /// Whether its stage has so much to reckon that it is worth a thread.
    fn is_heavy(&self) -> bool;

    /// Reckons what its stage needs, and changes nothing. `None` where its stage needs nothing of the kind, where it has
    /// to wait first, and for want of memory.
    fn ahead(&self, alloc: Global, tops: &[Top]) -> Option<Self::Ahead>
        requires over { over tops.now self.now }
        ensures fits { IfSome result (λ ahead. fits self.now ahead) };

    /// Runs its stage with what was reckoned of it. It goes on, and asks nothing of the space.
    fn go_on(&mut self, ahead: Self::Ahead)
        requires over { (tops : Seq SeenTop) × over tops self.old }
        requires fits { fits self.old ahead }
        ensures moves { (tops : Seq SeenTop) (t : Terms) (st : Stack) → IsNow Self.nodes tops t self.old st
            → GoesOn Self.nodes Self.nodes.gave t self.old st [] self.new }
        ensures over { (tops : Seq SeenTop) → over tops self.old → over tops self.new }
        ensures due { Self.nodes.due self.new }
        ensures left { Self.nodes.left self.new < Self.nodes.left self.old }
        ensures stages { leads self.old (SeenMove.Next self.new) };

    /// The child of this number told which pointer its value will have, or that it has none.
    fn arrive_ready(&mut self, child: usize, pointer: Option<Bp>)
        requires awaited { HearsSomeEarly Self.nodes self.old child }
        requires valid { IfSome pointer (λ bp. IsTrue (valid bp)) }
        ensures heard { (t : Terms) (st : Stack) (c : Child) → HearsEarly Self.nodes t self.old st child c →
            Self.nodes.Is t self.new (heard_early st child c pointer) }
        ensures told { Self.nodes.told self.new ≡ Self.nodes.told self.old }
        ensures gave { Self.nodes.gave self.new ≡ Self.nodes.gave self.old }
        ensures due { Self.nodes.due self.old → Self.nodes.due self.new }
        ensures over { (tops : Seq SeenTop) → over tops self.old → over tops self.new }
        ensures left { Self.nodes.left self.new ≤ Self.nodes.left self.old + heard_max };

    /// The child of this number ended. Of a request that finished this comes back. Where memory is refused nothing has
    /// changed, and the outcome comes back.
    fn arrive(
        &mut self,
        tops: &[Top],
        child: usize,
        outcome: Outcome<Self::Seal>,
    ) -> Result<Option<Finished<Self::Seal>>, Outcome<Self::Seal>>
        requires over { over tops.now self.old }
        requires awaited { HearsSome Self.nodes tops.now self.old child outcome }
        requires inside { OutcomeIn (tree_over tops.now) outcome }
        ensures heard { OnOk result ((t : Terms) (st : Stack) (c : Child) (op : Task) (v : Value) →
            Hears Self.nodes tops.now t self.old st child c op outcome v
            → Self.nodes.Is t self.new (heard_of st child c v)) }
        ensures finished { IfOk result (λ f. IfSome f (λ f. outcome ≡ SeenOutcome.Finished f)) }
        ensures kept { IfOk result (λ finished. (f : _) → outcome ≡ SeenOutcome.Finished f → finished ≡ Some f) }
        ensures told { OnOk result (Self.nodes.told self.new ≡ Self.nodes.told self.old) }
        ensures gave { OnOk result (Self.nodes.gave self.new ≡ Self.nodes.gave self.old) }
        ensures due { OnOk result (Self.nodes.due self.old → Self.nodes.due self.new) }
        ensures over_still { OnOk result (over tops.now self.new) }
        ensures left { OnOk result (Self.nodes.left self.new ≤ Self.nodes.left self.old + heard_max) }
        ensures same { OnErr result (self.new ≡ self.old) }
        ensures back { IfErr result (λ e. e ≡ outcome) };

    /// How many children it handed out.
    fn children(&self) -> usize
        ensures { (t : Terms) (st : Stack) → Self.nodes.Is t self.now st → result ≡ length st.children };

    /// The leaf answered: an error or none, and the bytes of a read.
    fn answered(&mut self, error: Option<Errno>, bytes: Bytes)
        requires { (t : Terms) × (act : LeafOp) × Self.nodes.Is t self.old (fresh_stack (Leaf act)) }
        ensures heard { (t : Terms) (act : LeafOp) (a : Answer) → Self.nodes.Is t self.old (fresh_stack (Leaf act)) →
            ShowsAnswer act error bytes a →
            Self.nodes.Is t self.new (done_at_once (fresh_stack (Leaf act)) (Leaf act) (Got a)) }
        ensures told { Self.nodes.told self.new ≡ Self.nodes.told self.old }
        ensures gave { Self.nodes.gave self.new ≡ Self.nodes.gave self.old }
        ensures due { Self.nodes.due self.new }
        ensures over { (tops : Seq SeenTop) → over tops self.old → over tops self.new }
        ensures left { Self.nodes.left self.new ≤ Self.nodes.left self.old };

    /// What holds of each node, wherever it stands: it is a part of the work, or an operation on a leaf, and no ask of
    /// the space; and it gave back only places that it holds, or those of the block that it frees. It does nothing.
    fn does_its_part()
        ensures never_finds { (t : Terms) (node : Self) (st : Stack) (a : Ask) → Self.nodes.Is t node st
            → st.outer.op ≢ Find a }
        ensures gives_own { (t : Terms) (node : Self) (st : Stack) → Self.nodes.Is t node st
            → AreItsOwn (Self.nodes.gave node) st };
}
