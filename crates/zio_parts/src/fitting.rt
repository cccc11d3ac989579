// Whether the places of a pointer can be claimed.

ghost use Rattle.std.specs.Prelude.{◌≡◌, ◌≤◌, Some, true};
ghost use Rattle.std.specs.List.{list_all};
ghost use Rattle.zio_types.specs.Places.{fits_on, is_below};
ghost use Rattle.zio_blkptr.specs.Pointers.{places_of};
ghost use Rattle.zio_gang.specs.Trees.{is_claimable, piece_size, size_of, sizes_of};

use zio_blkptr::Bp;
use zio_types::{Place, SECTOR_SIZE, Top};

/// Whether each place of the pointer is inside its top and fits what it holds: a header, or the whole block.
pub(crate) fn is_fitting(tops: &[Top], bp: &Bp) -> bool
    requires { bp.now.count ≤ 3 }
    ensures { result ≡ list_all (is_claimable (sizes_of tops.now) (piece_size bp.now)) (places_of bp.now) }
{
    let size = if bp.gang { SECTOR_SIZE } else { bp.size };
    bp.places[..bp.count as usize]
        .iter()
        .all(|place| is_claimable(tops, size, place))
}

/// Whether the place is inside its top and fits the size.
fn is_claimable(tops: &[Top], size: u32, place: &Place) -> bool
    ensures { result ≡ is_claimable (sizes_of tops.now) size place.now }
{
    match tops.get(place.top as usize) {
        Some(top) => is_below(top, place) && fits_on(top, size, place),
        None => false,
    }
}

/// Whether the place has sectors, which lie below the end of the top.
fn is_below(top: &Top, place: &Place) -> bool
    ensures { result ≡ is_below place.now (Some (size_of top.now)) }
{
    let sectors = u64::from(place.sectors);
    0 < sectors && place.sector <= top.sectors && sectors <= top.sectors - place.sector
}

/// Whether the place begins at a whole unit of the top and has as many sectors as the size takes there.
fn fits_on(top: &Top, size: u32, place: &Place) -> bool
    requires some { is_below place.now (Some (size_of top.now)) ≡ true }
    ensures { result ≡ fits_on size place.now (Some (size_of top.now)) }
{
    let unit = u64::from(top.unit);
    if unit == 0 {
        // Such a top takes no sectors for any size.
        return false;
    }
    let sectors = u64::from(size / SECTOR_SIZE);
    let rounded = (sectors + (unit - 1)) / unit * unit;
    place.sector % unit == 0 && u64::from(place.sectors) == rounded
}
