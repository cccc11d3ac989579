// Where the copies of a block lie, by the tops of a pool.

ghost use Rattle.std.specs.Prelude.{◌≡◌, option_map, slice_get};
ghost use Rattle.zio_parts.specs.CopyWrites.{any_out};
ghost use Rattle.zio_parts.specs.Copies.{copies_at, leaves_at, spot_at};

use zio_types::{Place, Top};

/// The most copies of a block: the leaves of its places, at most four each of at most three.
pub const LEAF_COPIES_MAX: usize = 12;

/// The place's leaves, in the order of the top.
pub(crate) fn leaves_at<'a>(tops: &'a [Top], place: &Place) -> &'a [u32]
    ensures { result.now ≡ leaves_at tops.now place.now }
{
    match tops.get(place.top as usize) {
        Some(top) => top.leaves.as_slice(),
        None => &[],
    }
}

/// One copy of a block: its place, and a leaf of it.
#[derive(Clone, Copy, Debug, PartialEq, Eq)]
pub struct Target {
    pub place: Place,
    pub leaf: u32,
}

/// The copy with this number, of those of all places in their order.
pub(crate) fn nth_copy(tops: &[Top], places: &[Place], n: usize) -> Option<Target>
    ensures { option_map spot_at result ≡ slice_get (copies_at tops.now places.now) n }
{
    match places {
        [] => None,
        [place, rest @ ..] => {
            let leaves = leaves_at(tops, place);
            if n < leaves.len() {
                let leaf = leaves[n];
                Some(Target {
                    place: *place,
                    leaf,
                })
            } else {
                nth_copy(tops, rest, n - leaves.len())
            }
        }
    }
}

/// One of these is out.
pub(crate) fn any_out(outs: &[bool]) -> bool
    ensures { result ≡ any_out outs.now }
{
    for out in outs {
        if *out {
            return true;
        }
    }
    false
}
