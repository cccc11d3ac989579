//! What a read, a free or a claim in an attempt hears of its own work: the walk over its block's headers, and of a read
//! the reads of bodies and the operations on leaves.

ghost use Rattle.std.specs.Prelude.{◌≡◌, ◌≢◌, ◌+◌, ◌≤◌, List as Seq, Option};
ghost use Rattle.zio_types.specs.declared.place.Top.{Top as SeenTop};
ghost use Rattle.zio_types.specs.declared.request.ChildKind.TheVariants.{Gang};
ghost use Rattle.zio_blkptr.specs.declared.pointer.Bp.{Bp};
ghost use Rattle.zio_script.specs.Requests.{kind_of};
ghost use Rattle.zio_gang.specs.Attempts.{Terms};
ghost use Rattle.zio_trace.specs.Tasks.{Task, Value};
ghost use Rattle.zio_frames.specs.Frames.{Child, Stack};
ghost use Rattle.zio_frames.specs.Moves.{heard_early, heard_of};
ghost use Rattle.zio_stages.specs.RequestHearings.{HearsEarlyOf};
ghost use Rattle.zio_stages.specs.RequestNodes.{IsRequestNode};
ghost use Rattle.zio_staged.specs.Stages.{Hears, HearsEarly, HearsSome, heard_max};
ghost use Rattle.zio_nodes.specs.Nodes.{gave_of, left_of, nodes};
ghost use Rattle.zio_nodes.specs.Passes.{IsInPassOf};
ghost use Rattle.zio_nodes.specs.RequestAts.{IsRequestAtOver};
ghost use Rattle.zio_nodes.specs.RequestHears.{IsOwnOutcome};

use crate::node::Node;
use crate::request_at::RequestAt;
use zio_exchange::into_found;
use zio_stages::{Outcome, bodies_of_a_walk_lie_on_the_tops, other_children_show_own_work};
use zio_types::{ChildKind, Kind, Top};

impl RequestAt {
    /// A gang child of its own work told. Whatever that was: a walk or a read has no pointer, and the request keeps
    /// none.
    pub fn arrive_own_ready(&mut self, child: usize)
        requires gang { HearsEarlyOf Gang self.old.node child }
        requires kind { kind_of self.old.node.waiting.request.work ≢ Kind.Write }
        ensures heard { (t : Terms) (st : Stack) (c : Child) (pointer : Option Bp) →
            HearsEarly nodes t (Node.Request self.old) st child c
            → IsRequestNode t self.new.node (heard_early st child c pointer) }
        ensures stage { self.new.stage ≡ self.old.stage }
        ensures pass { IsInPassOf (Node.Request self.old) (Node.Request self.new) }
        ensures gave { gave_of (Node.Request self.new) ≡ gave_of (Node.Request self.old) }
        ensures over { (tops : Seq SeenTop) → IsRequestAtOver tops self.old → IsRequestAtOver tops self.new }
        ensures left { left_of (Node.Request self.new) ≡ left_of (Node.Request self.old) }
    {
        other_children_show_own_work();
        match self.node.kind() {
            Kind::Read => {
                self.node.arrive_ready_read(child);
            }
            Kind::Free => {
                self.node.arrive_ready_free(child);
            }
            Kind::Claim => {
                self.node.arrive_ready_claim(child);
            }
            Kind::Null | Kind::Write => unreachable!(),
        }
    }

    /// A child of its own work ended: the walk over the block's headers, the read of a body, or an operation on a leaf.
    pub fn arrive_own(&mut self, tops: &[Top], child: usize, outcome: Outcome)
        requires over { IsRequestAtOver tops.now self.old }
        requires awaited { HearsSome nodes tops.now (Node.Request self.old) child outcome }
        requires own { IsOwnOutcome outcome }
        requires kind { kind_of self.old.node.waiting.request.work ≢ Kind.Write }
        ensures heard { (t : Terms) (st : Stack) (c : Child) (op : Task) (v : Value) →
            Hears nodes tops.now t (Node.Request self.old) st child c op outcome v →
            IsRequestNode t self.new.node (heard_of st child c v) }
        ensures stage { self.new.stage ≡ self.old.stage }
        ensures pass { IsInPassOf (Node.Request self.old) (Node.Request self.new) }
        ensures gave { gave_of (Node.Request self.new) ≡ gave_of (Node.Request self.old) }
        ensures over_still { IsRequestAtOver tops.now self.new }
        ensures left { left_of (Node.Request self.new) ≤ left_of (Node.Request self.old) + heard_max }
    {
        other_children_show_own_work();
        match self.node.kind() {
            Kind::Read => self.arrive_read(tops, child, outcome),
            Kind::Free => self.arrive_free(child, outcome),
            Kind::Claim => self.arrive_claim(tops, child, outcome),
            Kind::Null | Kind::Write => unreachable!(),
        }
    }

    /// Of a read.
    fn arrive_read(&mut self, tops: &[Top], child: usize, outcome: Outcome)
        requires over { IsRequestAtOver tops.now self.old }
        requires awaited { HearsSome nodes tops.now (Node.Request self.old) child outcome }
        requires own { IsOwnOutcome outcome }
        requires kind { kind_of self.old.node.waiting.request.work ≡ Kind.Read }
        ensures heard { (t : Terms) (st : Stack) (c : Child) (op : Task) (v : Value) →
            Hears nodes tops.now t (Node.Request self.old) st child c op outcome v →
            IsRequestNode t self.new.node (heard_of st child c v) }
        ensures stage { self.new.stage ≡ self.old.stage }
        ensures pass { IsInPassOf (Node.Request self.old) (Node.Request self.new) }
        ensures gave { gave_of (Node.Request self.new) ≡ gave_of (Node.Request self.old) }
        ensures over_still { IsRequestAtOver tops.now self.new }
        ensures left { left_of (Node.Request self.new) ≤ left_of (Node.Request self.old) + heard_max }
    {
        other_children_show_own_work();
        bodies_of_a_walk_lie_on_the_tops();
        match outcome {
            Outcome::Walked(walked) => {
                self.node.arrive_walked_read(tops, child, walked);
            }
            Outcome::Found(found) => match self.node.kind_of_child(child) {
                ChildKind::Vdev => {
                    self.node.arrive_leaf_read(tops, child, found);
                    self.is_due = true;
                }
                ChildKind::Gang => {
                    let n = self.node.own_number(child);
                    self.node.arrive_body(tops, child, n, into_found(found));
                }
                ChildKind::Logical => unreachable!(),
            },
            Outcome::Finished(_) | Outcome::Again { .. } | Outcome::Stored(_) => unreachable!(),
        }
    }

    /// Of a free.
    fn arrive_free(&mut self, child: usize, outcome: Outcome)
        requires over { (tops : Seq SeenTop) × IsRequestAtOver tops self.old }
        requires awaited { (tops : Seq SeenTop) × HearsSome nodes tops (Node.Request self.old) child outcome }
        requires own { IsOwnOutcome outcome }
        requires kind { kind_of self.old.node.waiting.request.work ≡ Kind.Free }
        ensures heard { (tops : Seq SeenTop) (t : Terms) (st : Stack) (c : Child) (op : Task) (v : Value) →
            Hears nodes tops t (Node.Request self.old) st child c op outcome v
            → IsRequestNode t self.new.node (heard_of st child c v) }
        ensures stage { self.new.stage ≡ self.old.stage }
        ensures pass { IsInPassOf (Node.Request self.old) (Node.Request self.new) }
        ensures gave { gave_of (Node.Request self.new) ≡ gave_of (Node.Request self.old) }
        ensures over { (tops : Seq SeenTop) → IsRequestAtOver tops self.old → IsRequestAtOver tops self.new }
        ensures left { left_of (Node.Request self.new) ≤ left_of (Node.Request self.old) + heard_max }
    {
        other_children_show_own_work();
        let Outcome::Walked(walked) = outcome else {
            unreachable!()
        };
        self.node.arrive_walked_free(child, walked);
    }

    /// Of a claim.
    fn arrive_claim(&mut self, tops: &[Top], child: usize, outcome: Outcome)
        requires over { IsRequestAtOver tops.now self.old }
        requires awaited { HearsSome nodes tops.now (Node.Request self.old) child outcome }
        requires own { IsOwnOutcome outcome }
        requires kind { kind_of self.old.node.waiting.request.work ≡ Kind.Claim }
        ensures heard { (t : Terms) (st : Stack) (c : Child) (op : Task) (v : Value) →
            Hears nodes tops.now t (Node.Request self.old) st child c op outcome v →
            IsRequestNode t self.new.node (heard_of st child c v) }
        ensures stage { self.new.stage ≡ self.old.stage }
        ensures pass { IsInPassOf (Node.Request self.old) (Node.Request self.new) }
        ensures gave { gave_of (Node.Request self.new) ≡ gave_of (Node.Request self.old) }
        ensures over_still { IsRequestAtOver tops.now self.new }
        ensures left { left_of (Node.Request self.new) ≤ left_of (Node.Request self.old) + heard_max }
    {
        other_children_show_own_work();
        let Outcome::Walked(walked) = outcome else {
            unreachable!()
        };
        self.node.arrive_walked_claim(tops, child, walked);
    }
}
