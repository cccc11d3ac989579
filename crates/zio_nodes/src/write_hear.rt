//! What a write in an attempt hears of its own work: its block's members, and its operations on leaves.

ghost use Rattle.std.specs.Prelude.{◌≡◌, ◌+◌, ◌≤◌, IfSome, IsTrue, List as Seq, Option};
ghost use Rattle.zio_types.specs.declared.place.Top.{Top as SeenTop};
ghost use Rattle.zio_types.specs.declared.request.ChildKind.TheVariants.{Gang};
ghost use Rattle.zio_blkptr.specs.Pointers.{valid};
ghost use Rattle.zio_script.specs.Requests.{kind_of};
ghost use Rattle.zio_gang.specs.Attempts.{Terms};
ghost use Rattle.zio_trace.specs.Tasks.{Task, Value};
ghost use Rattle.zio_frames.specs.Frames.{Child, Stack};
ghost use Rattle.zio_frames.specs.Moves.{heard_early, heard_of};
ghost use Rattle.zio_stages.specs.RequestHearings.{HearsEarlyOf};
ghost use Rattle.zio_stages.specs.RequestNodes.{IsRequestNode};
ghost use Rattle.zio_staged.specs.Stages.{Hears, HearsEarly, HearsSome, HearsSomeEarly, heard_max};
ghost use Rattle.zio_nodes.specs.Nodes.{gave_of, left_of, nodes};
ghost use Rattle.zio_nodes.specs.Passes.{IsInPassOf};
ghost use Rattle.zio_nodes.specs.RequestAts.{IsRequestAtOver};
ghost use Rattle.zio_nodes.specs.RequestHears.{IsOwnOutcome};

use crate::node::Node;
use crate::request_at::RequestAt;
use zio_blkptr::Bp;
use zio_stages::{Outcome, other_children_show_own_work};
use zio_types::{Kind, Top};

impl RequestAt {
    /// A member of its block told which pointer it will have.
    pub fn arrive_member_ready(&mut self, child: usize, pointer: Option<Bp>)
        requires awaited { HearsSomeEarly nodes (Node.Request self.old) child }
        requires gang { HearsEarlyOf Gang self.old.node child }
        requires kind { kind_of self.old.node.waiting.request.work ≡ Kind.Write }
        requires valid { IfSome pointer (λ bp. IsTrue (valid bp)) }
        ensures heard { (t : Terms) (st : Stack) (c : Child) → HearsEarly nodes t (Node.Request self.old) st child c →
            IsRequestNode t self.new.node (heard_early st child c pointer) }
        ensures stage { self.new.stage ≡ self.old.stage }
        ensures pass { IsInPassOf (Node.Request self.old) (Node.Request self.new) }
        ensures gave { gave_of (Node.Request self.new) ≡ gave_of (Node.Request self.old) }
        ensures over { (tops : Seq SeenTop) → IsRequestAtOver tops self.old → IsRequestAtOver tops self.new }
        ensures left { left_of (Node.Request self.new) ≤ left_of (Node.Request self.old) + heard_max }
    {
        other_children_show_own_work();
        self.node.arrive_member_ready(child, pointer);
    }

    /// A member of its block ended, or an operation on a leaf for its own copies.
    pub fn arrive_written(&mut self, tops: &[Top], child: usize, outcome: Outcome)
        requires over { IsRequestAtOver tops.now self.old }
        requires awaited { HearsSome nodes tops.now (Node.Request self.old) child outcome }
        requires own { IsOwnOutcome outcome }
        requires kind { kind_of self.old.node.waiting.request.work ≡ Kind.Write }
        ensures heard { (t : Terms) (st : Stack) (c : Child) (op : Task) (v : Value) →
            Hears nodes tops.now t (Node.Request self.old) st child c op outcome v
            → IsRequestNode t self.new.node (heard_of st child c v) }
        ensures stage { self.new.stage ≡ self.old.stage }
        ensures pass { IsInPassOf (Node.Request self.old) (Node.Request self.new) }
        ensures gave { gave_of (Node.Request self.new) ≡ gave_of (Node.Request self.old) }
        ensures over_still { IsRequestAtOver tops.now self.new }
        ensures left { left_of (Node.Request self.new) ≤ left_of (Node.Request self.old) + heard_max }
    {
        other_children_show_own_work();
        match outcome {
            Outcome::Stored(stored) => {
                self.node.arrive_stored(child, stored);
            }
            Outcome::Found(found) => {
                self.node.arrive_leaf_write(child, found.err());
                self.is_due = true;
            }
            Outcome::Finished(_) | Outcome::Again { .. } | Outcome::Walked(_) => unreachable!(),
        }
    }
}
