// Places that are given back one by one.

ghost use Rattle.std.specs.Prelude.{◌≡◌, ◌<◌, ◌≤◌, OnOk, Some, length, slice_get};
ghost use Rattle.zio_exchange.specs.SpaceCalls.{GivesBack};

use zio_exchange::Services;
use zio_types::{NoMemory, Place};

/// Gives back these places in their order, of which so many were before. Where memory is refused it goes on from there
/// when it is called again.
pub(crate) fn give_back<S: Services>(
    services: &mut S,
    places: &[Place],
    given: &mut usize,
) -> Result<(), NoMemory>
    requires { given.old ≤ length places.now }
    ensures gives { GivesBack S.made places.now given.old given.new services.old services.new }
    ensures all { OnOk result (given.new ≡ length places.now) }
    ensures within { given.new ≤ length places.now }
    ensures tops { S.tops services.new ≡ S.tops services.old }
{
    while *given < places.len() {
        services.back(place_at(places, *given))?;
        *given += 1;
    }
    Ok(())
}

fn place_at(places: &[Place], n: usize) -> Place
    requires { n < length places.now }
    ensures { Some result ≡ slice_get places.now n }
{
    places[n]
}
