//! A tree of requests that is handed out: its first stage begins its attempt.

ghost use Rattle.std.specs.Prelude.{◌≡◌, ◌<◌, IfErr, IfOk, List as Seq};
ghost use Rattle.zio_types.specs.declared.place.Top.{Top as SeenTop};
ghost use Rattle.zio_gang.specs.Attempts.{Pending, Terms};
ghost use Rattle.zio_trace.specs.Families.{Forest};
ghost use Rattle.zio_trace.specs.Tasks.{Attempt};
ghost use Rattle.zio_frames.specs.Frames.{fresh_stack};
ghost use Rattle.zio_exchange.specs.Wholes.{IsTreeOf};
ghost use Rattle.zio_staged.specs.declared.staged.Move.TheVariants.{Next};
ghost use Rattle.zio_nodes.specs.Nodes.{IsTreeOver, MovesBare, left_of};
ghost use Rattle.zio_nodes.specs.RequestAts.{IsRequestAtOver};
ghost use Rattle.zio_nodes.specs.TreeAts.{IsTreeAt, IsTreeAtOver};

use crate::node::Node;
use crate::request_at::RequestAt;
use std::alloc::Global;
use zio_exchange::{Whole, WholeBack};
use zio_masks::Stage;
use zio_script::Failmode;
use zio_stages::RequestNode;

/// A tree of requests, of whose attempt nothing is done. It is split only once it runs, so that it can be handed out
/// where there is no memory.
#[derive(Drop)]
pub struct TreeAt {
    pub(crate) whole: Whole,
    pub(crate) round: u32,
    pub(crate) attempt: u32,
    pub(crate) failmode: Failmode,
}

impl TreeAt {
    /// The attempt of this number of the tree in this round.
    pub fn new(whole: Whole, round: u32, attempt: u32, failmode: Failmode) -> TreeAt
        requires { attempt < 4 }
        ensures fresh { (t : Terms) (p : Pending) (forest : Forest) → t.round ≡ round → t.failmode ≡ failmode →
            IsTreeOf whole p forest →
            IsTreeAt t result (fresh_stack (Attempt attempt p forest)) }
        ensures over { (tops : Seq SeenTop) → IsTreeOver tops whole → IsTreeAtOver tops result }
        ensures whole { result.whole ≡ whole }
    {
        TreeAt {
            whole,
            round,
            attempt,
            failmode,
        }
    }

    /// Splits the tree into its children's trees and its request, which starts. Where memory is refused it comes back as
    /// it was.
    pub fn run_stage(self, alloc: Global) -> Result<RequestAt, TreeAt>
        ensures moves { (tops : Seq SeenTop)
            → IfOk result (λ at. MovesBare tops (Node.Tree self) (Next (Node.Request at))) }
        ensures over { (tops : Seq SeenTop) → IsTreeAtOver tops self → IfOk result (IsRequestAtOver tops) }
        ensures left { IfOk result (λ at. left_of (Node.Request at) < left_of (Node.Tree self)) }
        ensures starts { IfOk result (λ at. at.stage ≡ Stage.Start) }
        ensures back { IfErr result (λ at. at ≡ self) }
    {
        let TreeAt {
            whole,
            round,
            attempt,
            failmode,
        } = self;
        match RequestNode::begin(alloc, whole, round, attempt, failmode) {
            Ok(node) => Ok(RequestAt {
                node,
                stage: Stage::Start,
                is_due: true,
            }),
            Err(WholeBack { whole }) => Err(TreeAt {
                whole,
                round,
                attempt,
                failmode,
            }),
        }
    }
}
