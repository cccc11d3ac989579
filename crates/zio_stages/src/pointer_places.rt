// The places of a pointer.

ghost use Rattle.std.specs.Prelude.{◌≡◌, IfOk, IsTrue, length};
ghost use Rattle.zio_blkptr.specs.Pointers.{places_of, valid};

use std::alloc::Global;
use zio_blkptr::Bp;
use zio_types::{List, NoMemory, Place};

/// The places that a valid pointer counts.
pub(crate) fn places_of(alloc: Global, bp: &Bp) -> Result<List<Place>, NoMemory>
    requires { IsTrue (valid bp.now) }
    ensures places { IfOk result (λ places. places ≡ places_of bp.now) }
    ensures count { IfOk result (λ places. length places ≡ bp.now.count) }
{
    let mut places = List::new(alloc);
    places.extend_from_slice(&bp.places[..bp.count as usize])?;
    Ok(places)
}
