//! What a request hears of the attempts of its children's trees.

ghost use Rattle.std.specs.Prelude.{◌≡◌, IfSome, IsTrue, List as Seq};
ghost use Rattle.zio_types.specs.declared.place.Top.{Top as SeenTop};
ghost use Rattle.zio_types.specs.declared.request.ChildKind.TheVariants.{Logical};
ghost use Rattle.zio_blkptr.specs.Pointers.{valid};
ghost use Rattle.zio_gang.specs.Attempts.{Terms};
ghost use Rattle.zio_trace.specs.Tasks.{Task, Value};
ghost use Rattle.zio_frames.specs.Frames.{Child, Stack};
ghost use Rattle.zio_frames.specs.Moves.{heard_early, heard_of};
ghost use Rattle.zio_stages.specs.RequestHearings.{HearsEarlyOf};
ghost use Rattle.zio_stages.specs.RequestNodes.{IsRequestNode};
ghost use Rattle.zio_exchange.specs.declared.outcome.Outcome.{Outcome as SeenOutcome};
ghost use Rattle.zio_stages.specs.declared.closing.Seal.{Seal};
ghost use Rattle.zio_staged.specs.Stages.{Hears, HearsEarly, HearsSome};
ghost use Rattle.zio_nodes.specs.Nodes.{IsTreeOver, gave_of, left_of, nodes};
ghost use Rattle.zio_nodes.specs.Passes.{IsInPassOf};
ghost use Rattle.zio_nodes.specs.RequestAts.{IsRequestAtOver};

use crate::node::Node;
use crate::request_at::RequestAt;
use zio_blkptr::Bp;
use zio_exchange::Whole;
use zio_stages::{Finished, logical_children_are_attempts};
use zio_types::Bits;

impl RequestAt {
    /// The attempt of a child's tree told which pointer the child will have.
    pub fn arrive_attempt_ready(&mut self, child: usize, pointer: Option<Bp>)
        requires logical { HearsEarlyOf Logical self.old.node child }
        requires valid { IfSome pointer (λ bp. IsTrue (valid bp)) }
        ensures heard { (t : Terms) (st : Stack) (c : Child) → HearsEarly nodes t (Node.Request self.old) st child c →
            IsRequestNode t self.new.node (heard_early st child c pointer) }
        ensures stage { self.new.stage ≡ self.old.stage }
        ensures pass { IsInPassOf (Node.Request self.old) (Node.Request self.new) }
        ensures gave { gave_of (Node.Request self.new) ≡ gave_of (Node.Request self.old) }
        ensures over { (tops : Seq SeenTop) → IsRequestAtOver tops self.old → IsRequestAtOver tops self.new }
        ensures left { left_of (Node.Request self.new) ≡ left_of (Node.Request self.old) }
    {
        logical_children_are_attempts();
        self.node.arrive_ready(child, pointer);
    }

    /// The attempt of a child's tree ended, and the child finished.
    pub fn arrive_finished(&mut self, child: usize, finished: &Finished)
        requires { (tops : Seq SeenTop)
            × HearsSome {S = Seal} nodes tops (Node.Request self.old) child (SeenOutcome.Finished finished.now) }
        ensures heard { (tops : Seq SeenTop) (t : Terms) (st : Stack) (c : Child) (op : Task) (v : Value) →
            Hears {S = Seal} nodes tops t (Node.Request self.old) st child c op (SeenOutcome.Finished finished.now) v →
            IsRequestNode t self.new.node (heard_of st child c v) }
        ensures stage { self.new.stage ≡ self.old.stage }
        ensures pass { IsInPassOf (Node.Request self.old) (Node.Request self.new) }
        ensures gave { gave_of (Node.Request self.new) ≡ gave_of (Node.Request self.old) }
        ensures over { (tops : Seq SeenTop) → IsRequestAtOver tops self.old → IsRequestAtOver tops self.new }
        ensures left { left_of (Node.Request self.new) ≡ left_of (Node.Request self.old) }
    {
        logical_children_are_attempts();
        self.node
            .arrive_finished(child, finished.error(), finished.pointer());
    }

    /// The attempt of a child's tree ended, and this is left of it, which goes again.
    pub fn arrive_again(&mut self, child: usize, whole: Whole, bits: Bits, pointer: Option<Bp>)
        requires { (tops : Seq SeenTop)
            × HearsSome {S = Seal} nodes tops (Node.Request self.old) child (SeenOutcome.Again whole bits pointer) }
        ensures heard { (tops : Seq SeenTop) (t : Terms) (st : Stack) (c : Child) (op : Task) (v : Value) →
            Hears {S = Seal} nodes tops t (Node.Request self.old) st child c op (SeenOutcome.Again whole bits pointer) v
            → IsRequestNode t self.new.node (heard_of st child c v) }
        ensures stage { self.new.stage ≡ self.old.stage }
        ensures pass { IsInPassOf (Node.Request self.old) (Node.Request self.new) }
        ensures gave { gave_of (Node.Request self.new) ≡ gave_of (Node.Request self.old) }
        ensures over { (tops : Seq SeenTop) → IsTreeOver tops whole → IsRequestAtOver tops self.old
            → IsRequestAtOver tops self.new }
        ensures left { left_of (Node.Request self.new) ≡ left_of (Node.Request self.old) }
    {
        logical_children_are_attempts();
        self.node.arrive_again(child, bits, whole, pointer);
    }
}
