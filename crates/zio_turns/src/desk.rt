//! The space of a pool and its tops, as the engine lends them to its nodes.

ghost use Rattle.std.specs.Prelude.{◌≡◌, ◌++◌, ◌<◌, ◌≤◌, ◌⊎◌, ◌^◌, List as Seq, [], length, true, IfOk, IsPermutation};
ghost use Rattle.std.specs.List.{list_all};
ghost use Rattle.zio_types.specs.declared.place.Place.{Place as SeenPlace};
ghost use Rattle.zio_types.specs.declared.place.Top.{Top as SeenTop};
ghost use Rattle.zio_types.specs.Choices.{Choice};
ghost use Rattle.zio_types.specs.Places.{is_lawful_top};
ghost use Rattle.zio_places.specs.Spaces.{IsSound, SpaceState};
ghost use Rattle.zio_gang.specs.Attempts.{Terms};
ghost use Rattle.zio_gang.specs.Trees.{sizes_of};
ghost use Rattle.zio_frames.specs.Frames.{Stack};
ghost use Rattle.zio_frames.specs.Moves.{Did, DoesAll};
ghost use Rattle.zio_exchange.specs.SpaceCalls.{SpaceCall, calls_back, calls_by};
ghost use Rattle.zio_turns.specs.Desks.{AreMade, AreRight, IsDeskOf, MayAsk, choices_in, claims_asked, claims_in, found_in};

use std::alloc::Global;
use zio_exchange::{Services, Unclaimed};
use zio_places::{ClaimFault, Space};
use zio_types::{Entry, Key, List, NoMemory, Place, Top, TopSize};

/// Where nodes place their blocks: the space, and the tops that it is a space of.
#[derive(Drop)]
pub struct Desk {
    space: Space,
    tops: List<Top>,
    ghost sizes: { space.sizes ≡ sizes_of tops },
    ghost sound: { IsSound space },
}

impl Desk {
    /// All of the tops is free. Where memory is refused the tops are dropped.
    pub fn new(alloc: Global, tops: List<Top>) -> Result<Desk, NoMemory>
        requires few { length tops < 2 ^ 32 }
        requires lawful { list_all is_lawful_top (sizes_of tops) ≡ true }
        ensures tops { IfOk result (λ desk. desk.tops ≡ tops) }
        ensures space { IfOk result (λ desk. desk.space ≡
            record { sizes = sizes_of tops; live = []; pending = []; entries = []; spare = 0 }) }
    {
        let sizes = sizes_of(alloc, tops.as_slice())?;
        let space = Space::new(alloc, sizes.as_slice())?;
        Ok(Desk { space, tops })
    }

    /// What was given back is free. It gives the entries of the round. Needs no memory.
    pub fn end_round(&mut self) -> List<Entry>
        ensures entries { result ≡ self.old.space.entries }
        ensures space { self.new.space ≡ record self.old.space { pending = []; entries = []; spare = 0 } }
        ensures tops { self.new.tops ≡ self.old.tops }
    {
        self.space.close_round();
        self.space.take_entries()
    }
}

/// What the space needs to know of the tops.
fn sizes_of(alloc: Global, tops: &[Top]) -> Result<Vec<TopSize>, NoMemory>
    ensures { IfOk result (λ sizes. sizes.items ≡ sizes_of tops.now) }
{
    let mut sizes = Vec::new(alloc);
    for top in tops {
        sizes.push(TopSize {
            sectors: top.sectors,
            unit: top.unit,
        })?;
    }
    Ok(sizes)
}

impl Services for Desk {
    ghost use Rattle.zio_turns.specs.DeskLaws.{made_none, made_then};

    ghost tops = { λ desk. desk.tops };

    ghost made = { λ old calls new. AreMade calls old.space new.space };

    fn place(&mut self, key: Key, size: u32, copies: u32) -> Result<Entry, NoMemory> {
        self.space.reserve(1)?;
        Ok(self.space.take(key, size, copies))
    }

    fn back(&mut self, place: Place) -> Result<(), NoMemory> {
        if !self.space.is_live(&place) {
            return Ok(());
        }
        self.space.give_back(place);
        Ok(())
    }

    fn claim(&mut self, places: &[Place]) -> Result<(), Unclaimed> {
        match self.space.claim(places) {
            Ok(()) => Ok(()),
            Err(ClaimFault::Taken) => Err(Unclaimed::Taken),
            Err(ClaimFault::Memory) => Err(Unclaimed::Memory),
            Err(ClaimFault::Outside) => unreachable!(),
        }
    }

    fn tops(&self) -> &[Top] {
        self.tops.as_slice()
    }

    ghost made_none = { λ a. made_none a.space };

    ghost made_then = { λ a b c first second h k. made_then h k };
}

/// Calls that a round may make of its space are right for it: each choice is lawful beside the places in use at the
/// round's start and those that the round's entries took, and its claim is answered as beside the places in use at its
/// start. Then the space is the round's still. Live are those that were, and those that were found or claimed, without
/// those that were given back. And a node that asks for places for a block claims none, and one that claims does so
/// once.
pub fn desks_serve_rounds()
    ensures right { (t : Terms) (entries : Seq Choice) (claimed : Seq SeenPlace) (tops : Seq SeenTop)
        (old new : SpaceState) (calls : Seq SpaceCall) →
        IsDeskOf t entries claimed tops old → AreMade calls old new → MayAsk entries claimed calls →
        AreRight t entries calls }
    ensures kept { (t : Terms) (entries : Seq Choice) (claimed : Seq SeenPlace) (tops : Seq SeenTop)
        (old new : SpaceState) (calls : Seq SpaceCall) →
        IsDeskOf t entries claimed tops old → AreMade calls old new → AreRight t entries calls →
        IsDeskOf t (entries ++ choices_in calls) (claimed ++ claims_in calls) tops new }
    ensures live { (dids : Seq Did) (gone rest : Seq SeenPlace) (old new : SpaceState) →
        AreMade (calls_by dids ++ calls_back gone) old new →
        IsPermutation (found_in (calls_by dids) ++ old.live) (gone ++ rest) → IsPermutation new.live rest }
    ensures asks { (t : Terms) (dids : Seq Did) (gone : Seq SeenPlace) (a b : Stack) → DoesAll t dids a b →
        (claims_asked (calls_by dids ++ calls_back gone) ≡ 0)
        ⊎ ((choices_in (calls_by dids ++ calls_back gone) ≡ [])
        × (claims_asked (calls_by dids ++ calls_back gone) ≤ 1)) }
{}
