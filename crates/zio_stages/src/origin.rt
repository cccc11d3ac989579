// Where an operation on a leaf comes from.

ghost use Rattle.std.specs.Prelude.{◌≡◌};
ghost use Rattle.zio_stages.specs.Labels.{begins_at, origin_of, place_number};

use crate::named::Named;
use zio_types::Place;

/// Where an operation on a leaf comes from: the part that makes it, and which of the part's places it is on, from 0.
#[derive(Clone, Copy, Debug)]
pub struct Origin {
    pub(crate) part: Named,
    pub(crate) place: u32,
}

impl Named {
    /// The part's operation on this place, which is one of these.
    pub(crate) fn on(&self, places: &[Place], place: &Place) -> Origin
        ensures { result ≡ origin_of self.now places.now place.now }
    {
        Origin {
            part: *self,
            place: place_number(places, place),
        }
    }
}

/// Which of a part's one to three places it is, from 0.
fn place_number(places: &[Place], place: &Place) -> u32
    ensures { result ≡ place_number places.now place.now }
{
    match places {
        [first, ..] if begins_at(first, place) => 0,
        [_, second, ..] if begins_at(second, place) => 1,
        _ => 2,
    }
}

/// Whether the first place begins where the second does.
fn begins_at(first: &Place, second: &Place) -> bool
    ensures { result ≡ begins_at first.now second.now }
{
    first.top == second.top && first.sector == second.sector
}
