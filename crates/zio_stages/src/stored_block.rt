// What the write of a request's block came to, and the places of that block.

ghost use Rattle.std.specs.Prelude.{◌≡◌, IfOk, IfSome, IsTrue, None, OnOk, length, option_map};
ghost use Rattle.zio_blkptr.specs.Pointers.{valid};
ghost use Rattle.zio_blkptr.specs.declared.pointer.Bp.{Bp as SeenBp};
ghost use Rattle.zio_trace.specs.Plans.{own_stored};
ghost use Rattle.zio_exchange.specs.Outcomes.{stored_as};
ghost use Rattle.zio_exchange.specs.SpaceCalls.{GivesBack};
ghost use Rattle.zio_stages.specs.OwnFounds.{own_got};
ghost use Rattle.zio_stages.specs.StoredBlocks.{IsGoingBack, block_places};

use crate::give_back::give_back;
use crate::request_node::OwnFound;
use std::alloc::Global;
use zio_blkptr::Bp;
use zio_exchange::Services;
use zio_gang::{Head, Tree};
use zio_parts::StoredPart;
use zio_types::{List, NoMemory, Place};

/// What a write's own work came to. Where the request fails or goes again, the places of its block go back one by one.
#[derive(Drop)]
pub(crate) struct StoredBlock {
    pub(crate) own: OwnFound,
    /// Those of its block, once they are listed.
    pub(crate) places: Option<List<Place>>,
    /// How many of them went back.
    pub(crate) given: usize,
}

impl StoredBlock {
    /// Of a part that was written, none of whose places went back.
    pub(crate) fn of(alloc: Global, stored: StoredPart) -> StoredBlock
        requires { IfSome stored.pointer (λ bp. IsTrue (valid bp)) }
        ensures own { own_got result.own ≡ own_stored (stored_as stored) }
        ensures none { result.given ≡ 0 }
        ensures going { IsGoingBack result }
    {
        let StoredPart {
            error,
            pointer,
            heads,
        } = stored;
        StoredBlock {
            own: OwnFound {
                error,
                bytes: List::new(alloc),
                tree: tree_of(pointer, heads),
                pointer,
            },
            places: None,
            given: 0,
        }
    }

    /// Gives back those of its block's places that are left. Where memory is refused some of them went back, and the
    /// same call goes on from there.
    pub(crate) fn give_back<S: Services>(
        &mut self,
        alloc: Global,
        services: &mut S,
    ) -> Result<(), NoMemory>
        requires { IsGoingBack self.old }
        ensures gives { GivesBack S.made (block_places self.old.own.tree) self.old.given self.new.given services.old
            services.new }
        ensures all { OnOk result (self.new.given ≡ length (block_places self.old.own.tree)) }
        ensures going { IsGoingBack self.new }
        ensures own { self.new.own ≡ self.old.own }
        ensures tops { S.tops services.new ≡ S.tops services.old }
    {
        let places = self.take_places(alloc)?;
        let done = give_back(services, places.as_slice(), &mut self.given);
        self.places = Some(places);
        done
    }

    /// The places of its block, which are listed if they aren't.
    fn take_places(&mut self, alloc: Global) -> Result<List<Place>, NoMemory>
        requires { IsGoingBack self.old }
        ensures places { IfOk result (λ places. places ≡ block_places self.old.own.tree) }
        ensures own { self.new.own ≡ self.old.own }
        ensures given { self.new.given ≡ self.old.given }
        ensures none { self.new.places ≡ None }
    {
        match self.places.take() {
            Some(places) => Ok(places),
            None => places_of(alloc, &self.own.tree),
        }
    }
}

/// The block that was written, if it has a pointer.
fn tree_of(pointer: Option<Bp>, heads: List<Head>) -> Option<Tree>
    ensures { result ≡ option_map (λ (bp : SeenBp). record { bp = bp; heads = heads }) pointer }
{
    match pointer {
        Some(bp) => Some(Tree { bp, heads }),
        None => None,
    }
}

pub(crate) fn places_of(alloc: Global, tree: &Option<Tree>) -> Result<List<Place>, NoMemory>
    requires { IfSome tree.now (λ tree. IsTrue (valid tree.bp)) }
    ensures { IfOk result (λ places. places ≡ block_places tree.now) }
{
    match tree {
        Some(tree) => tree.places(alloc),
        None => Ok(List::new(alloc)),
    }
}
