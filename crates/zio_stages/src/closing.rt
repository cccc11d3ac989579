//! What becomes of a request whose attempt closes: it goes again, or finishes under the seal, here and nowhere else.

ghost use Rattle.std.specs.Prelude.{◌≡◌, ℕ, IfOk, List as Seq, OnErr, true};
ghost use Rattle.std.specs.List.{list_all};
ghost use Rattle.zio_script.specs.Requests.{kind_of};
ghost use Rattle.zio_gang.specs.Attempts.{all_bits, bits_of, tree_unless};
ghost use Rattle.zio_children.specs.RequestKids.{is_ended, returns_in};
ghost use Rattle.zio_frames.specs.Frames.{Child};
ghost use Rattle.zio_stages.specs.ClosedRequests.{Finished as HasFinished};
ghost use Rattle.zio_stages.specs.Closings.{ClosesBy, node_over, outcome_of};
ghost use Rattle.zio_stages.specs.Labels.{request_label};
ghost use Rattle.zio_stages.specs.declared.request_node.Own.{Own};

use crate::attempted::RequestKids;
use crate::request_name::request_label;
use crate::request_node::OwnFound;
use std::alloc::Global;
use std::mem::replace;
use zio_counts::all_bits;
use zio_exchange::{FinishedRequest, UnfinishedRequest};
use zio_gang::Tree;
use zio_script::Failmode;
use zio_types::{Bits, Errno, List, NoMemory, worst};

/// The seal of requests that finished. The closing calls of a `RequestNode` alone have one, each for a node whose
/// children and own work have ended.
#[derive(Debug, Drop)]
pub struct Seal(());

/// A request that finished.
pub type Finished = zio_exchange::Finished<Seal>;

/// What a node ends with.
pub type Outcome = zio_exchange::Outcome<Seal>;

/// The decision for a request whose children ended, where its own work came to this: with bits of its own or of a child
/// it goes again, and else it finishes with the worst error of all. Where memory is refused all is as it was.
pub(crate) fn close(
    alloc: Global,
    attempt: u32,
    failmode: Failmode,
    waiting: &mut UnfinishedRequest,
    kids: &mut RequestKids,
    own: &mut OwnFound,
) -> Result<Outcome, NoMemory>
    requires { list_all is_ended kids.old.kids.kids ≡ true }
    ensures closes { IfOk result (λ outcome. (begun : Own) (family : Seq Child) (round : ℕ) →
        ClosesBy (node_over waiting.old kids.old begun family round attempt failmode) own.old outcome) }
    ensures waiting { OnErr result (waiting.new ≡ waiting.old) }
    ensures kids { OnErr result (kids.new ≡ kids.old) }
    ensures own { OnErr result (own.new ≡ own.old) }
{
    let bits = bits_over(waiting, kids, failmode, own.error);
    if bits.go_again() {
        let whole = kids.again(alloc, waiting)?;
        return Ok(Outcome::Again {
            whole,
            bits,
            pointer: own.pointer,
        });
    }
    let error = worst(own.error, kids.kids().worst());
    Ok(sealed(alloc, waiting, attempt, error, own))
}

/// All bits of a request over these children, where its own work came to this error.
pub(crate) fn bits_over(
    waiting: &UnfinishedRequest,
    kids: &RequestKids,
    failmode: Failmode,
    error: Option<Errno>,
) -> Bits
    requires { list_all is_ended kids.now.kids.kids ≡ true }
    ensures { result ≡ all_bits (kind_of waiting.now.request.work) error waiting.now.request.canfail failmode
        (bits_of (returns_in kids.now.kids)) }
{
    let request = &waiting.request;
    let kind = request.work.kind();
    all_bits(kind, error, request.canfail, failmode, kids.kids().bits())
}

/// The request finished, with what its own work came to, and with the block that it made where it met no error.
fn sealed(
    alloc: Global,
    waiting: &UnfinishedRequest,
    attempt: u32,
    error: Option<Errno>,
    own: &mut OwnFound,
) -> Outcome
    ensures { result ≡ outcome_of (request_label waiting.now attempt) (HasFinished waiting.now error own.old) }
{
    let told = FinishedRequest {
        request: waiting.request.number,
        label: request_label(waiting, attempt),
        error,
        bytes: replace(&mut own.bytes, List::new(alloc)),
        block: kept_tree(error, &mut own.tree),
        pointer: own.pointer,
    };
    Outcome::Finished(Finished::new(Seal(()), told))
}

/// The block, which a request with an error doesn't keep.
fn kept_tree(error: Option<Errno>, tree: &mut Option<Tree>) -> Option<Tree>
    ensures { result ≡ tree_unless error tree.old }
{
    match error {
        None => tree.take(),
        Some(_) => None,
    }
}
