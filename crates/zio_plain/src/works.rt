//! What does the own work of requests.

ghost use Rattle.std.specs.Prelude.{◌≡◌, ◌+◌, ◌++◌, [], List, IfErr, IfOk, OnOk, None, Option, length, true};
ghost use Rattle.std.specs.List.{AllByRecursion};
ghost use Rattle.zio_types.specs.declared.place.Place.{Place as SeenPlace};
ghost use Rattle.zio_types.specs.Choices.{Choice};
ghost use Rattle.zio_script.specs.Requests.{kind_of};
ghost use Rattle.zio_script.specs.Whys.{is_claim};
ghost use Rattle.zio_cksum.specs.Images.{Images};
ghost use Rattle.zio_gang.specs.declared.tree.Tree.{Tree as SeenTree};
ghost use Rattle.zio_gang.specs.Attempts.{Terms, own_work};
ghost use Rattle.zio_disks.specs.Whole.{IsWholeTree};
ghost use Rattle.zio_course.specs.declared.runner.Stop.{Stop as SeenStop};
ghost use Rattle.zio_course.specs.declared.runner.Stop.TheVariants.{Memory};
ghost use Rattle.zio_course.specs.Runners.{places_of_block};
ghost use Rattle.zio_plain.specs.OwnEnds.{AreAsked, AreNamed, IsFor, IsOwnEnd, Named, TellsOwn};
ghost use Rattle.zio_plain.specs.Posts.{IsSound};
ghost use Rattle.zio_plain.specs.Waits.{HasPointer, pending_of, pointers_in};

use crate::owns::OwnEnd;
use crate::waiting::{Kept, Waiting};
use zio_course::Stop;
use zio_types::{List, Place};

/// Own work that was done.
#[derive(Debug, Drop)]
pub(crate) struct OwnDone {
    pub(crate) end: OwnEnd,
    /// The places that it took, or claimed.
    pub(crate) taken: List<Place>,
}

/// Does the own work of requests in a round. What it stands on, as disks and a chooser of places, is its own.
pub(crate) trait OwnWork {
    /// The images of its disks, where they tell them.
    ghost tells: { Self → Images → Type 0 };

    /// These are the terms of its round, up to the failmode.
    ghost runs: { Self → Terms → Type 0 };

    /// The places in use are those of the terms.
    ghost fresh: { Self → Terms → Type 0 };

    /// The entries that it was given in its round.
    ghost given: { Self → List Choice };

    /// A read or a free may be given this block.
    ghost can: { Self → Option SeenTree → Type 0 };

    /// What its calls did from the one to the other, where the blocks that were read or freed have no places but the
    /// first ones; the others came to stay.
    ghost moves: { Named → Self → Self → List SeenPlace → Type 0 };

    /// What its calls did up to a stop, where those blocks have no other places.
    ghost breaks: { Named → Self → Self → SeenStop → Type 0 };

    /// Does the own work of a request, whose children, by number, handed on these pointers.
    fn own_work(
        &mut self,
        attempt: u32,
        waiting: &Waiting,
        children: &[Kept],
    ) -> Result<OwnDone, Stop>
        requires can { can self.old waiting.now.block }
        requires sound { IsSound IsWholeTree waiting.now }
        requires count { length children.now ≡ length waiting.now.kept + waiting.now.unfinished }
        requires pointers { AllByRecursion HasPointer children.now }
        ensures told { IfOk result (λ done. (t : Terms) → runs self.old t
            → (is_claim (kind_of waiting.now.request.work) ≡ true → fresh self.old t)
            → (images : Images) → tells self.old images → TellsOwn tells given
            (λ journal. own_work journal t attempt (pending_of waiting.now) waiting.now.request.work
            (pointers_in children.now) images) done.end self.old self.new) }
        ensures end { IfOk result (λ done. IsOwnEnd waiting.now done.end) }
        ensures asked { OnOk result (AreAsked (IsFor waiting.now.request.number attempt) (given self.old)
            (given self.new)) }
        ensures moves { IfOk result (λ done. (named : Named) → AreNamed named waiting.now.request.work waiting.now.block
            → moves named self.old self.new done.taken) }
        ensures made { IfOk result (λ done. done.end.error ≡ None → (named : Named)
            → AreNamed named waiting.now.request.work waiting.now.block
            → moves named self.old self.new (places_of_block done.end.tree)) }
        ensures breaks { IfErr result (λ stop. (named : Named)
            → AreNamed named waiting.now.request.work waiting.now.block → breaks named self.old self.new stop) };

    /// Gives places back that the last own work took.
    fn give_back(&mut self, taken: List<Place>)
        requires { (named : Named) × ((before : Self) × moves named before self.old taken) }
        ensures moves { (named : Named) (before : Self) → moves named before self.old taken
            → moves named before self.new [] }
        ensures images { (images : Images) → tells self.old images → tells self.new images }
        ensures given { given self.new ≡ given self.old };

    ghost moves_itself: { (named : Named) (a : Self) → moves named a a [] };

    ghost moves_then: { (named : Named) (a b c : Self) (ps qs : List SeenPlace) → moves named a b ps
        → moves named b c qs → moves named a c (ps ++ qs) };

    /// It stays in its round.
    ghost moves_runs: { (named : Named) (a b : Self) (ps : List SeenPlace) (t : Terms) → moves named a b ps → runs a t
        → runs b t };

    /// What may be given may be given later.
    ghost moves_can: { (named : Named) (a b : Self) (ps : List SeenPlace) (block : Option SeenTree) → moves named a b ps
        → can a block → can b block };

    ghost memory_breaks: { (named : Named) (a : Self) → breaks named a a Memory };

    ghost moves_breaks: { (named : Named) (a b c : Self) (ps : List SeenPlace) (stop : SeenStop) → moves named a b ps
        → breaks named b c stop → breaks named a c stop };
}
