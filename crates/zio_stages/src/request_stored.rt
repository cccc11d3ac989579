//! A write whose block was written.
//!
//! Where the request fails or goes again, the places of its block go back to the space before the attempt closes, so
//! that what closes keeps a block exactly where it finished without error.

ghost use Rattle.std.specs.Prelude.{◌≡◌, IfOk, List as Seq, OnErr, OnOk, Some, length, false, true};
ghost use Rattle.std.specs.List.{list_all};
ghost use Rattle.zio_types.specs.declared.place.Top.{Top as SeenTop};
ghost use Rattle.zio_gang.specs.Attempts.{Terms};
ghost use Rattle.zio_children.specs.RequestKids.{is_ended};
ghost use Rattle.zio_frames.specs.Frames.{Stack};
ghost use Rattle.zio_exchange.specs.SpaceCalls.{GivesBack};
ghost use Rattle.zio_stages.specs.Closings.{EndsBy};
ghost use Rattle.zio_stages.specs.RequestNodes.{IsOwnOver, IsRequestNode};
ghost use Rattle.zio_stages.specs.RequestStages.{with_own};
ghost use Rattle.zio_stages.specs.RequestStoreds.{IsStoredWith, error_by, found_by, given_by, is_well, made_by};
ghost use Rattle.zio_stages.specs.StoredBlocks.{IsGoingBack};
ghost use Rattle.zio_stages.specs.declared.request_node.OwnFound.{OwnFound};

use crate::closing::{Outcome, bits_over, close};
use crate::request_node::{Own, RequestNode};
use crate::stored_block::StoredBlock;
use std::alloc::Global;
use zio_exchange::Services;
use zio_types::{Errno, NoMemory, worst};

impl RequestNode {
    /// Whether the request finishes without error, where its own work came to this one and its children ended.
    fn is_well(&self, error: Option<Errno>) -> bool
        requires { list_all is_ended self.now.kids.kids.kids ≡ true }
        ensures { result ≡ is_well self.now error }
    {
        let bits = bits_over(&self.waiting, &self.kids, self.failmode, error);
        let all = worst(error, self.kids.kids().worst());
        !bits.go_again() && all.is_none()
    }

    /// Gives the places of a write's block back, where the request fails or goes again. Where memory is refused some of
    /// them went back, and the same call goes on from there.
    pub fn give_block_back<S: Services>(
        &mut self,
        alloc: Global,
        services: &mut S,
    ) -> Result<(), NoMemory>
        requires stored { IsStoredWith IsGoingBack self.old.own }
        requires ended { list_all is_ended self.old.kids.kids.kids ≡ true }
        ensures gives { GivesBack S.made (made_by self.old.own) (given_by self.old.own)
            (given_by self.new.own) services.old services.new }
        ensures kept { is_well self.old (error_by self.old.own) ≡ true → given_by self.new.own ≡ given_by self.old.own }
        ensures all { OnOk result (is_well self.old (error_by self.old.own) ≡ false
            → given_by self.new.own ≡ length (made_by self.old.own)) }
        ensures own { found_by self.new.own ≡ found_by self.old.own }
        ensures stored { IsStoredWith IsGoingBack self.new.own }
        ensures same { (t : Terms) (st : Stack) → IsRequestNode t self.old st → IsRequestNode t self.new st }
        ensures family { self.new.family ≡ self.old.family }
        ensures rest { self.new ≡ with_own self.old self.new.own self.old.family }
        ensures over { (tops : Seq SeenTop) → IsOwnOver tops self.old.own self.old.family →
            IsOwnOver tops self.new.own self.new.family }
        ensures tops { S.tops services.new ≡ S.tops services.old }
    {
        let error = error_of(&self.own);
        if self.is_well(error) {
            return Ok(());
        }
        let Own::Stored(stored) = &mut self.own else {
            unreachable!()
        };
        stored.give_back(alloc, services)
    }

    /// The decision of a write, whose block's places went back where it was to lose them. Where memory is refused the
    /// node is as before.
    pub fn close_write(&mut self, alloc: Global) -> Result<Outcome, NoMemory>
        requires stored { IsStoredWith IsGoingBack self.old.own }
        requires ended { list_all is_ended self.old.kids.kids.kids ≡ true }
        ensures ends { IfOk result (λ outcome. (own : OwnFound) × (found_by self.old.own ≡ Some own)
            × EndsBy self.old own outcome) }
        ensures same { OnErr result (self.new ≡ self.old) }
    {
        let Own::Stored(StoredBlock { own, .. }) = &mut self.own else {
            unreachable!()
        };
        close(
            alloc,
            self.attempt,
            self.failmode,
            &mut self.waiting,
            &mut self.kids,
            own,
        )
    }
}

/// The error that a write's own work came to.
fn error_of(own: &Own) -> Option<Errno>
    ensures { result ≡ error_by own.now }
{
    match own {
        Own::Stored(stored) => stored.own.error,
        Own::Due
        | Own::Write(_)
        | Own::Read(_)
        | Own::Free(_)
        | Own::Claim(_)
        | Own::Found(_)
        | Own::Over => None,
    }
}
