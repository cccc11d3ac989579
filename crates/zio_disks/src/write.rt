// What the writes of a place's leaves and of a piece come to.

ghost use Rattle.std.specs.Prelude.{◌≡◌, ◌*◌, ◌∷◌, [], IfOk, List, ℕ, length, map};
ghost use Rattle.std.specs.List.{AllByRecursion};
ghost use Rattle.zio_types.specs.Places.{sector_size};
ghost use Rattle.zio_faults.specs.Hits.{RowFits};
ghost use Rattle.zio_cksum.specs.Blocks.{in_turn, place_written, spot_in, write_pass, write_piece};
ghost use Rattle.zio_cksum.specs.Frames.{spots_of};
ghost use Rattle.zio_cksum.specs.Images.{Images, write_leaf};
ghost use Rattle.zio_disks.specs.Disks.{AreOnDisks, Handles, Lies, LieOn, Tell, both_failed};

use crate::leaf::{padded_to, span_of, spot_in, write_leaf};
use crate::setting::{Setting, Stop};
use std::alloc::Global;
use zio_outside::Disk;
use zio_types::{Errno, Place, worst};

/// Writes the bytes to each leaf of each place, and zeros behind them to the place's end. After an error all is written
/// once more in the retry pass, whose error counts: the worst of the places that have no good leaf.
pub fn write_piece<D: Disk>(
    alloc: Global,
    setting: &Setting,
    disks: &mut [D],
    bytes: &[u8],
    places: &[Place],
) -> Result<Option<Errno>, Stop>
    requires rows { AllByRecursion RowFits setting.now.rows }
    requires lies { AreOnDisks setting.now (map D.bytes disks.old) (length bytes.now) places.now }
    ensures told { IfOk result (λ error. (images : Images) → Tell D.image disks.old images →
        (error ≡ (write_piece setting.now bytes.now places.now images).error)
        × Tell D.image disks.new (write_piece setting.now bytes.now places.now images).images) }
    ensures handled { Handles D.bytes D.faults D.faults_at_fetch D.home D.image D.sound D.went
        (spots_of setting.now places.now) result disks.old disks.new }
{
    let first = write_pass(alloc, setting, disks, false, bytes, places)?;
    match first {
        None => Ok(None),
        Some(_) => write_pass(alloc, setting, disks, true, bytes, places),
    }
}

/// Writes the bytes once to one leaf of a place, and zeros behind them to the place's end. What it answers is the same
/// whatever the disks hold.
pub fn write_copy<D: Disk>(
    alloc: Global,
    setting: &Setting,
    disks: &mut [D],
    retry: bool,
    bytes: &[u8],
    place: &Place,
    leaf: u32,
) -> Result<Option<Errno>, Stop>
    requires rows { AllByRecursion RowFits setting.now.rows }
    requires lies { Lies (map D.bytes disks.old) (length bytes.now) (spot_in place.now leaf) }
    ensures told { IfOk result (λ error. (images : Images) → Tell D.image disks.old images →
        (error ≡ (write_leaf setting.now retry bytes.now images (spot_in place.now leaf)).error)
        × Tell D.image disks.new (write_leaf setting.now retry bytes.now images (spot_in place.now leaf)).images) }
    ensures answer { IfOk result (λ error. (images : Images)
        → error ≡ (write_leaf setting.now retry bytes.now images (spot_in place.now leaf)).error) }
    ensures handled { Handles D.bytes D.faults D.faults_at_fetch D.home D.image D.sound D.went (spot_in place.now leaf
        ∷ []) result disks.old disks.new }
{
    let span = span_of(place);
    let spot = spot_in(disks, place, leaf);
    if bytes.len() as u64 == span {
        return write_leaf(alloc, setting, disks, retry, bytes, &spot);
    }
    let whole = padded_to(alloc, bytes, span)?;
    write_leaf(alloc, setting, disks, retry, whole.as_slice(), &spot)
}

/// Writes the bytes once to each leaf of each place. The error is the worst of the places'.
fn write_pass<D: Disk>(
    alloc: Global,
    setting: &Setting,
    disks: &mut [D],
    retry: bool,
    bytes: &[u8],
    places: &[Place],
) -> Result<Option<Errno>, Stop>
    requires rows { AllByRecursion RowFits setting.now.rows }
    requires lies { AreOnDisks setting.now (map D.bytes disks.old) (length bytes.now) places.now }
    ensures told { IfOk result (λ error. (images : Images) → Tell D.image disks.old images →
        (error ≡ (write_pass setting.now retry bytes.now places.now images).error)
        × Tell D.image disks.new (write_pass setting.now retry bytes.now places.now images).images) }
    ensures handled { Handles D.bytes D.faults D.faults_at_fetch D.home D.image D.sound D.went
        (spots_of setting.now places.now) result disks.old disks.new }
{
    match places {
        [] => Ok(None),
        [place, rest @ ..] => {
            let leaves = setting.leaves(place);
            let error = write_leaves(alloc, setting, disks, retry, bytes, place, leaves)?;
            let others = write_pass(alloc, setting, disks, retry, bytes, rest)?;
            Ok(worst(error, others))
        }
    }
}

/// Writes the bytes once to each of these leaves of a place. The error is the worst of theirs where each has one.
pub(crate) fn write_leaves<D: Disk>(
    alloc: Global,
    setting: &Setting,
    disks: &mut [D],
    retry: bool,
    bytes: &[u8],
    place: &Place,
    leaves: &[u32],
) -> Result<Option<Errno>, Stop>
    requires rows { AllByRecursion RowFits setting.now.rows }
    requires lies { LieOn (map D.bytes disks.old) (length bytes.now) (map (spot_in place.now) leaves.now) }
    ensures told { IfOk result (λ error. (images : Images) → Tell D.image disks.old images →
        let writes = in_turn (write_leaf setting.now retry bytes.now) (map (spot_in place.now) leaves.now) images in
        (error ≡ (place_written writes).error) × Tell D.image disks.new writes.images) }
    ensures handled { Handles D.bytes D.faults D.faults_at_fetch D.home D.image D.sound D.went
        (map (spot_in place.now) leaves.now) result disks.old disks.new }
{
    if leaves.is_empty() {
        return Ok(Some(Errno::Nxio));
    }
    let span = span_of(place);
    if bytes.len() as u64 == span {
        return write_each(alloc, setting, disks, retry, bytes, place, leaves);
    }
    // Once for the place, and not for each of its leaves.
    let whole = padded_to(alloc, bytes, span)?;
    write_each(
        alloc,
        setting,
        disks,
        retry,
        whole.as_slice(),
        place,
        leaves,
    )
}

/// Writes the bytes, which fill the place, once to each of these leaves.
fn write_each<D: Disk>(
    alloc: Global,
    setting: &Setting,
    disks: &mut [D],
    retry: bool,
    whole: &[u8],
    place: &Place,
    leaves: &[u32],
) -> Result<Option<Errno>, Stop>
    requires rows { AllByRecursion RowFits setting.now.rows }
    requires whole { length whole.now ≡ place.now.sectors * sector_size }
    requires lies { LieOn (map D.bytes disks.old) (length whole.now) (map (spot_in place.now) leaves.now) }
    ensures told { IfOk result (λ error. (images : Images) → Tell D.image disks.old images →
        let writes = in_turn (write_leaf setting.now retry whole.now) (map (spot_in place.now) leaves.now) images in
        (error ≡ (place_written writes).error) × Tell D.image disks.new writes.images) }
    ensures handled { Handles D.bytes D.faults D.faults_at_fetch D.home D.image D.sound D.went
        (map (spot_in place.now) leaves.now) result disks.old disks.new }
{
    match leaves {
        [] => Ok(Some(Errno::Nxio)),
        [leaf, rest @ ..] => {
            let spot = spot_in(disks, place, *leaf);
            let error = write_leaf(alloc, setting, disks, retry, whole, &spot)?;
            let others = write_each(alloc, setting, disks, retry, whole, place, rest)?;
            Ok(both_failed(error, others))
        }
    }
}

fn both_failed(a: Option<Errno>, b: Option<Errno>) -> Option<Errno>
    ensures { result ≡ both_failed a b }
{
    match (a, b) {
        (Some(_), Some(_)) => worst(a, b),
        _ => None,
    }
}
