// Reads of a block: which copy is tried next, and which are rewritten after a good one.

ghost use Rattle.std.specs.Prelude.{◌≡◌, ◌-◌, ◌^◌, ◌<◌, ◌≤◌, IfErr, IfOk, IsTrue, MatchResult, Contains, List, None, Some, [], ℕ, length, map, take, true};
ghost use Rattle.std.specs.List.{AllByRecursion};
ghost use Rattle.zio_types.specs.Errors.{worst_of};
ghost use Rattle.zio_faults.specs.Hits.{RowFits};
ghost use Rattle.zio_cksum.specs.Blocks.{blame, first_good, judged, last_pass, leaves_of, read_block, read_order, read_pass, read_place, repaired, repaired_if, spot_in};
ghost use Rattle.zio_cksum.specs.Frames.{spots_of};
ghost use Rattle.zio_cksum.specs.Headers.{offset_of};
ghost use Rattle.zio_cksum.specs.Images.{Images, read_leaf};
ghost use Rattle.zio_disks.specs.Copies.{IsOfSize, good_by};
ghost use Rattle.zio_disks.specs.Disks.{AreOnDisks, Handles, LieOn, Tell, found_if, found_with, good_behind, repairs_in, touched};

use crate::copies::GoodCopy;
use crate::leaf::{read_leaf, spot_in};
use crate::setting::{Setting, Stop};
use crate::write::write_leaves;
use std::alloc::Global;
use zio_mirror::TURN_SIZE;
use zio_outside::Disk;
use zio_types::{Errno, List, Place, SECTOR_SIZE, worst};

/// How many sectors of a top are read from one leaf first, before it is the next one's turn.
const TURN_SECTORS: u64 = TURN_SIZE / SECTOR_SIZE as u64;

/// What the leaves of a place gave that were tried in order until one was good.
#[derive(Debug, Drop)]
struct Tried {
    /// The buffer has what a good one gave.
    found: bool,
    /// How many were tried before it.
    failed: usize,
    /// The worst of their errors.
    worst: Option<Errno>,
}

/// What comes before good bytes.
#[derive(Debug, Drop)]
struct Good {
    /// How many places without a good leaf.
    before: usize,
    /// The leaves of their own place that were tried and failed.
    failed: List<u32>,
}

/// Reads a block into the buffer from the first good copy: the places in order, in each the leaves from the one whose
/// turn it is. Where none is good all is tried once more in the retry pass, whose error counts: the worst of the
/// places'. With `repair` a good read rewrites all leaves of the places that failed before it, and in its own place
/// those that failed; without it no disk is written. After an error the buffer may hold anything.
pub fn read_block<D: Disk>(
    alloc: Global,
    setting: &Setting,
    disks: &mut [D],
    repair: bool,
    good: &GoodCopy,
    places: &[Place],
    buffer: &mut [u8],
) -> Result<Option<Errno>, Stop>
    requires rows { AllByRecursion RowFits setting.now.rows }
    requires some { 0 < length buffer.old }
    requires good { IsOfSize good.now (length buffer.old) }
    requires lies { AreOnDisks setting.now (map D.bytes disks.old) (length buffer.old) places.now }
    ensures good { IfOk result (λ error. error ≡ None → IsTrue (good_by good.now buffer.new)) }
    ensures told { IfOk result (λ error. (images : Images) → Tell D.image disks.old images →
        let read = read_block setting.now repair (good_by good.now) images (length buffer.old) places.now in
        (found_with error buffer.new ≡ read.found) × Tell D.image disks.new read.images) }
    ensures handled { Handles D.bytes D.faults D.faults_at_fetch D.home D.image D.sound D.went
        (touched repair setting.now places.now) result disks.old disks.new }
{
    let first = read_pass(alloc, setting, disks, false, good, places, buffer)?;
    match first {
        Ok(found) => {
            repair_if(alloc, setting, disks, repair, false, buffer, places, found)?;
            Ok(None)
        }
        Err(_) => last_pass(alloc, setting, disks, repair, good, places, buffer),
    }
}

/// Reads once more in the retry pass, whose error counts.
fn last_pass<D: Disk>(
    alloc: Global,
    setting: &Setting,
    disks: &mut [D],
    repair: bool,
    good: &GoodCopy,
    places: &[Place],
    buffer: &mut [u8],
) -> Result<Option<Errno>, Stop>
    requires rows { AllByRecursion RowFits setting.now.rows }
    requires some { 0 < length buffer.old }
    requires good { IsOfSize good.now (length buffer.old) }
    requires lies { AreOnDisks setting.now (map D.bytes disks.old) (length buffer.old) places.now }
    ensures good { IfOk result (λ error. error ≡ None → IsTrue (good_by good.now buffer.new)) }
    ensures told { IfOk result (λ error. (images : Images) → Tell D.image disks.old images →
        let read = last_pass setting.now repair images
        (read_pass setting.now true (good_by good.now) images (length buffer.old) places.now) in
        (found_with error buffer.new ≡ read.found) × Tell D.image disks.new read.images) }
    ensures handled { Handles D.bytes D.faults D.faults_at_fetch D.home D.image D.sound D.went
        (touched repair setting.now places.now) result disks.old disks.new }
{
    let pass = read_pass(alloc, setting, disks, true, good, places, buffer)?;
    match pass {
        Ok(found) => {
            repair_if(alloc, setting, disks, repair, true, buffer, places, found)?;
            Ok(None)
        }
        Err(worst) => Ok(Some(worst.unwrap_or(Errno::Nxio))),
    }
}

/// Rewrites what was tried before the good bytes, if it is to.
fn repair_if<D: Disk>(
    alloc: Global,
    setting: &Setting,
    disks: &mut [D],
    wanted: bool,
    retry: bool,
    bytes: &[u8],
    places: &[Place],
    good: Good,
) -> Result<(), Stop>
    requires rows { AllByRecursion RowFits setting.now.rows }
    requires among { AllByRecursion (Contains (spots_of setting.now places.now))
        (repairs_in setting.now places.now good.before good.failed) }
    requires lies { AreOnDisks setting.now (map D.bytes disks.old) (length bytes.now) places.now }
    ensures told { IfOk result (λ _. (images : Images) → Tell D.image disks.old images →
        Tell D.image disks.new
        (repaired_if wanted setting.now retry bytes.now (repairs_in setting.now places.now good.before good.failed)
        images)) }
    ensures handled { Handles D.bytes D.faults D.faults_at_fetch D.home D.image D.sound D.went
        (touched wanted setting.now places.now) result disks.old disks.new }
{
    let Good { before, failed } = good;
    if !wanted {
        return Ok(());
    }
    repair(
        alloc,
        setting,
        disks,
        retry,
        bytes,
        places,
        before,
        failed.as_slice(),
    )
}

/// Rewrites all leaves of the places before one, and of that place the failed leaves. A write that fails is passed
/// over.
fn repair<D: Disk>(
    alloc: Global,
    setting: &Setting,
    disks: &mut [D],
    retry: bool,
    bytes: &[u8],
    places: &[Place],
    before: usize,
    failed: &[u32],
) -> Result<(), Stop>
    requires rows { AllByRecursion RowFits setting.now.rows }
    requires lies { LieOn (map D.bytes disks.old) (length bytes.now)
        (repairs_in setting.now places.now before failed.now) }
    ensures told { IfOk result (λ _. (images : Images) → Tell D.image disks.old images →
        Tell D.image disks.new
        (repaired setting.now retry bytes.now (repairs_in setting.now places.now before failed.now) images)) }
    ensures handled { Handles D.bytes D.faults D.faults_at_fetch D.home D.image D.sound D.went
        (repairs_in setting.now places.now before failed.now) result disks.old disks.new }
{
    let [place, rest @ ..] = places else {
        return Ok(());
    };
    if before == 0 {
        write_leaves(alloc, setting, disks, retry, bytes, place, failed)?;
        return Ok(());
    }
    let leaves = setting.leaves(place);
    write_leaves(alloc, setting, disks, retry, bytes, place, leaves)?;
    repair(
        alloc,
        setting,
        disks,
        retry,
        bytes,
        rest,
        before - 1,
        failed,
    )
}

/// Tries the places in order until one has a good leaf. The error is the worst of the places'.
fn read_pass<D: Disk>(
    alloc: Global,
    setting: &Setting,
    disks: &mut [D],
    retry: bool,
    good: &GoodCopy,
    places: &[Place],
    buffer: &mut [u8],
) -> Result<Result<Good, Option<Errno>>, Stop>
    requires rows { AllByRecursion RowFits setting.now.rows }
    requires some { 0 < length buffer.old }
    requires good { IsOfSize good.now (length buffer.old) }
    requires lies { AreOnDisks setting.now (map D.bytes disks.old) (length buffer.old) places.now }
    ensures within { IfOk result (λ pass. IfOk pass (λ found. found.before ≤ length places.now)) }
    ensures among { IfOk result (λ pass. IfOk pass (λ found.
        AllByRecursion (Contains (spots_of setting.now places.now))
        (repairs_in setting.now places.now found.before found.failed))) }
    ensures good { IfOk result (λ pass. IfOk pass (λ _. IsTrue (good_by good.now buffer.new))) }
    ensures told { IfOk result (λ pass. (images : Images) → Tell D.image disks.old images →
        let seen = read_pass setting.now retry (good_by good.now) images (length buffer.old) places.now in
        MatchResult pass
        (λ found. (Some buffer.new ≡ seen.found)
        × (repairs_in setting.now places.now found.before found.failed ≡ seen.repairs))
        (λ error. (None ≡ seen.found) × (error ≡ worst_of seen.errors))
        × Tell D.image disks.new images) }
    ensures handled { Handles D.bytes D.faults D.faults_at_fetch D.home D.image D.sound D.went [] result disks.old
        disks.new }
{
    match places {
        [] => Ok(Err(None)),
        [place, rest @ ..] => {
            let read = read_place(alloc, setting, disks, retry, good, place, buffer)?;
            match read {
                Ok(found) => Ok(Ok(found)),
                Err(error) => {
                    let others = read_pass(alloc, setting, disks, retry, good, rest, buffer)?;
                    Ok(behind(error, others))
                }
            }
        }
    }
}

/// What the places behind one give that has no good leaf.
fn behind(error: Errno, others: Result<Good, Option<Errno>>) -> Result<Good, Option<Errno>>
    requires { IfOk others (λ good. good.before < 2 ^ 64 - 1) }
    ensures { result ≡ good_behind error others }
{
    match others {
        Ok(good) => {
            let Good { before, failed } = good;
            let before = before + 1;
            Ok(Good { before, failed })
        }
        Err(others) => Err(worst(Some(error), others)),
    }
}

/// Tries the leaves of a place in the order of reads until one is good. The error is the worst of theirs.
fn read_place<D: Disk>(
    alloc: Global,
    setting: &Setting,
    disks: &mut [D],
    retry: bool,
    good: &GoodCopy,
    place: &Place,
    buffer: &mut [u8],
) -> Result<Result<Good, Errno>, Stop>
    requires rows { AllByRecursion RowFits setting.now.rows }
    requires some { 0 < length buffer.old }
    requires good { IsOfSize good.now (length buffer.old) }
    requires lies { LieOn (map D.bytes disks.old) (length buffer.old)
        (map (spot_in place.now) (leaves_of setting.now place.now)) }
    ensures within { IfOk result (λ read. IfOk read (λ found. found.before ≡ 0)) }
    ensures among { IfOk result (λ read. IfOk read (λ found.
        AllByRecursion (Contains (map (spot_in place.now) (leaves_of setting.now place.now)))
        (map (spot_in place.now) found.failed))) }
    ensures good { IfOk result (λ read. IfOk read (λ _. IsTrue (good_by good.now buffer.new))) }
    ensures told { IfOk result (λ read. (images : Images) → Tell D.image disks.old images →
        let tried = read_place setting.now retry (good_by good.now) images (length buffer.old) place.now in
        MatchResult read
        (λ found. (Some buffer.new ≡ tried.found) × (found.failed ≡ tried.failed))
        (λ error. (None ≡ tried.found) × (error ≡ blame tried.errors))
        × Tell D.image disks.new images) }
    ensures handled { Handles D.bytes D.faults D.faults_at_fetch D.home D.image D.sound D.went [] result disks.old
        disks.new }
{
    let order = read_order(alloc, place, setting.leaves(place))?;
    let tried = first_good(setting, disks, retry, good, place, order.as_slice(), buffer)?;
    let Tried {
        found,
        failed: count,
        worst,
    } = tried;
    if !found {
        return Ok(Err(worst.unwrap_or(Errno::Nxio)));
    }
    let mut failed = order.into_vec();
    failed.truncate(count);
    Ok(Ok(Good {
        before: 0,
        failed: List::from_vec(failed),
    }))
}

/// The leaves in the order of reads: the first changes with each turn along the top.
fn read_order(alloc: Global, place: &Place, leaves: &[u32]) -> Result<List<u32>, Stop>
    ensures ok { IfOk result (λ order. order ≡ read_order (offset_of place.now) leaves.now) }
    ensures err { IfErr result (λ stop. stop ≡ Stop.Memory) }
{
    let mut order = List::new(alloc);
    if leaves.is_empty() {
        return Ok(order);
    }
    let turn = place.sector / TURN_SECTORS;
    let first = (turn % leaves.len() as u64) as usize;
    if order.extend_from_slice(&leaves[first..]).is_err() {
        return Err(Stop::Memory);
    }
    if order.extend_from_slice(&leaves[..first]).is_err() {
        return Err(Stop::Memory);
    }
    Ok(order)
}

/// Tries the leaves of a place in this order until one is good.
fn first_good<D: Disk>(
    setting: &Setting,
    disks: &mut [D],
    retry: bool,
    good: &GoodCopy,
    place: &Place,
    leaves: &[u32],
    buffer: &mut [u8],
) -> Result<Tried, Stop>
    requires rows { AllByRecursion RowFits setting.now.rows }
    requires some { 0 < length buffer.old }
    requires good { IsOfSize good.now (length buffer.old) }
    requires lies { LieOn (map D.bytes disks.old) (length buffer.old) (map (spot_in place.now) leaves.now) }
    ensures within { IfOk result (λ tried. tried.failed ≤ length leaves.now) }
    ensures good { IfOk result (λ tried. tried.found ≡ true → IsTrue (good_by good.now buffer.new)) }
    ensures told { IfOk result (λ tried. (images : Images) → Tell D.image disks.old images →
        let seen = first_good (λ leaf. judged (good_by good.now)
        (read_leaf setting.now retry images (length buffer.old) (spot_in place.now leaf))) leaves.now in
        (found_if tried.found buffer.new ≡ seen.found) × (take tried.failed leaves.now ≡ seen.failed)
        × (tried.worst ≡ worst_of seen.errors)
        × Tell D.image disks.new images) }
    ensures handled { Handles D.bytes D.faults D.faults_at_fetch D.home D.image D.sound D.went [] result disks.old
        disks.new }
{
    let [leaf, rest @ ..] = leaves else {
        return Ok(Tried {
            found: false,
            failed: 0,
            worst: None,
        });
    };
    let spot = spot_in(disks, place, *leaf);
    let read = read_leaf(setting, disks, retry, &spot, buffer)?;
    let Some(error) = good.judge(read, buffer) else {
        return Ok(Tried {
            found: true,
            failed: 0,
            worst: None,
        });
    };
    let others = first_good(setting, disks, retry, good, place, rest, buffer)?;
    Ok(Tried {
        found: others.found,
        failed: others.failed + 1,
        worst: worst(Some(error), others.worst),
    })
}
