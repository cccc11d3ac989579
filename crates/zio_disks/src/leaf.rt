// What one operation on a leaf answers and leaves.

ghost use Rattle.std.specs.Prelude.{◌≡◌, ◌∷◌, [], ◌+◌, ◌*◌, ◌≤◌, ◌<◌, ◌^◌, IfErr, IfOk, List, None, ℕ, length, map, slice_index_or};
ghost use Rattle.std.specs.List.{AllByRecursion};
ghost use Rattle.zio_types.specs.Places.{sector_size};
ghost use Rattle.zio_faults.specs.Hits.{RowFits, flipped};
ghost use Rattle.zio_cksum.specs.Blocks.{spot_in};
ghost use Rattle.zio_cksum.specs.Headers.{offset_of};
ghost use Rattle.zio_cksum.specs.Images.{Images, bytes_at, faulty_read, faulty_write, met, padded_to, read_leaf, with_bytes, write_leaf};
ghost use Rattle.zio_disks.specs.Disks.{Handles, Tell, found_with, read_error};

use crate::setting::{Setting, Spot, Stop};
use std::alloc::Global;
use zio_faults::{FaultKind, Hit, flip};
use zio_outside::Disk;
use zio_types::{Bytes, Errno, Place, SECTOR_SIZE};

/// The size of a leaf's disk in bytes, 0 of a leaf that isn't there.
fn size_of<D: Disk>(disks: &[D], leaf: u32) -> u64
    ensures { result ≡ slice_index_or (map D.bytes disks.now) leaf 0 }
{
    match disks.get(leaf as usize) {
        Some(disk) => disk.size(),
        None => 0,
    }
}

/// How many bytes a place has.
pub(crate) fn span_of(place: &Place) -> u64
    ensures { result ≡ place.now.sectors * sector_size }
{
    u64::from(place.sectors) * u64::from(SECTOR_SIZE)
}

/// Where the place begins on the leaf, whose size is a number of 64 bits.
pub(crate) fn spot_in<D: Disk>(disks: &[D], place: &Place, leaf: u32) -> Spot
    requires { offset_of place.now ≤ slice_index_or (map D.bytes disks.now) leaf 0 }
    ensures spot { result ≡ spot_in place.now leaf }
    ensures room { slice_index_or (map D.bytes disks.now) leaf 0 < 2 ^ 64 }
{
    // A proof knows the bound of a size once it is asked for.
    let _size = size_of(disks, leaf);
    let at = place.sector * u64::from(SECTOR_SIZE);
    let span = span_of(place);
    Spot { leaf, at, span }
}

/// Reads the first bytes of a place from a leaf into the buffer, as its disk or the row that the read meets says. After
/// an error the buffer may hold anything.
pub fn read_leaf<D: Disk>(
    setting: &Setting,
    disks: &mut [D],
    retry: bool,
    spot: &Spot,
    buffer: &mut [u8],
) -> Result<Option<Errno>, Stop>
    requires rows { AllByRecursion RowFits setting.now.rows }
    requires some { 0 < length buffer.old }
    requires long { length buffer.old ≤ spot.now.span }
    requires room { spot.now.at + spot.now.span < 2 ^ 64 }
    requires lies { spot.now.at + spot.now.span ≤ slice_index_or (map D.bytes disks.old) spot.now.leaf 0 }
    ensures told { IfOk result (λ error. (images : Images) → Tell D.image disks.old images →
        (found_with error buffer.new ≡ read_leaf setting.now retry images (length buffer.old) spot.now)
        × Tell D.image disks.new images) }
    ensures answer { IfOk result (λ error. (images : Images)
        → error ≡ read_error (read_leaf setting.now retry images (length buffer.old) spot.now)) }
    ensures handled { Handles D.bytes D.faults D.faults_at_fetch D.home D.image D.sound D.went [] result disks.old
        disks.new }
{
    match setting.hit(retry, false, spot) {
        None => {
            fetch(disks, spot, buffer)?;
            Ok(None)
        }
        Some(hit) => read_faulty(disks, spot, &hit, buffer),
    }
}

fn read_faulty<D: Disk>(
    disks: &mut [D],
    spot: &Spot,
    hit: &Hit,
    buffer: &mut [u8],
) -> Result<Option<Errno>, Stop>
    requires from { spot.now.at ≤ hit.now.at }
    requires some { 0 < length buffer.old }
    requires lies { spot.now.at + length buffer.old ≤ slice_index_or (map D.bytes disks.old) spot.now.leaf 0 }
    ensures told { IfOk result (λ error. (images : Images) → Tell D.image disks.old images →
        (found_with error buffer.new ≡ faulty_read hit.now.kind hit.now spot.now.at
        (bytes_at images spot.now (length buffer.old)))
        × Tell D.image disks.new images) }
    ensures answer { IfOk result (λ error. (bytes : List ℕ)
        → error ≡ read_error (faulty_read hit.now.kind hit.now spot.now.at bytes)) }
    ensures handled { Handles D.bytes D.faults D.faults_at_fetch D.home D.image D.sound D.went [] result disks.old
        disks.new }
{
    match hit.kind {
        FaultKind::Eio => Ok(Some(Errno::Io)),
        FaultKind::Gone => Ok(Some(Errno::Nxio)),
        FaultKind::Flip => {
            fetch(disks, spot, buffer)?;
            turn(buffer, spot.at, hit);
            Ok(None)
        }
    }
}

/// Inverts those of the bytes that the hit covers, which may lie behind them or go on there.
fn turn(bytes: &mut [u8], at: u64, hit: &Hit)
    requires { at ≤ hit.now.at }
    ensures { bytes.new ≡ flipped at hit.now bytes.old }
{
    let start = hit.at - at;
    let count = bytes.len() as u64;
    if start >= count {
        return;
    }
    let len = hit.len.min(count - start);
    let within = Hit {
        kind: hit.kind,
        at: hit.at,
        len,
    };
    flip(bytes, at, &within);
}

/// The bytes that the disk of a leaf has there.
pub fn fetch<D: Disk>(disks: &mut [D], spot: &Spot, buffer: &mut [u8]) -> Result<(), Stop>
    requires some { 0 < length buffer.old }
    requires lies { spot.now.at + length buffer.old ≤ slice_index_or (map D.bytes disks.old) spot.now.leaf 0 }
    ensures told { IfOk result (λ _. (images : Images) → Tell D.image disks.old images →
        (buffer.new ≡ bytes_at images spot.now (length buffer.old)) × Tell D.image disks.new images) }
    ensures handled { Handles D.bytes D.faults D.faults_at_fetch D.home D.image D.sound D.went [] result disks.old
        disks.new }
{
    let leaf = spot.leaf as usize;
    match disks[leaf].read_at(spot.at, buffer) {
        Ok(()) => Ok(()),
        Err(_) => Err(Stop::Device),
    }
}

/// The bytes, and zeros behind them to so many.
pub fn padded_to(alloc: Global, bytes: &[u8], span: u64) -> Result<Bytes, Stop>
    requires { length bytes.now ≤ span }
    ensures ok { IfOk result (λ whole. whole ≡ padded_to span bytes.now) }
    ensures err { IfErr result (λ stop. stop ≡ Stop.Memory) }
{
    let mut whole = Vec::new(alloc);
    if whole.extend_from_slice(bytes).is_err() {
        return Err(Stop::Memory);
    }
    if whole.resize(span as usize, 0).is_err() {
        return Err(Stop::Memory);
    }
    Ok(Bytes::from_vec(whole))
}

/// Writes all bytes of a place to a leaf, as its disk or the row that the write meets says.
pub fn write_leaf<D: Disk>(
    alloc: Global,
    setting: &Setting,
    disks: &mut [D],
    retry: bool,
    bytes: &[u8],
    spot: &Spot,
) -> Result<Option<Errno>, Stop>
    requires rows { AllByRecursion RowFits setting.now.rows }
    requires whole { length bytes.now ≡ spot.now.span }
    requires room { spot.now.at + length bytes.now < 2 ^ 64 }
    requires lies { spot.now.at + length bytes.now ≤ slice_index_or (map D.bytes disks.old) spot.now.leaf 0 }
    ensures told { IfOk result (λ error. (images : Images) → Tell D.image disks.old images →
        (error ≡ (write_leaf setting.now retry bytes.now images spot.now).error)
        × Tell D.image disks.new (write_leaf setting.now retry bytes.now images spot.now).images) }
    ensures answer { IfOk result (λ error. (images : Images)
        → error ≡ (write_leaf setting.now retry bytes.now images spot.now).error) }
    ensures handled { Handles D.bytes D.faults D.faults_at_fetch D.home D.image D.sound D.went
        (spot.now ∷ []) result disks.old disks.new }
{
    match setting.hit(retry, true, spot) {
        None => store(disks, bytes, spot),
        Some(hit) => write_faulty(alloc, disks, bytes, spot, &hit),
    }
}

fn write_faulty<D: Disk>(
    alloc: Global,
    disks: &mut [D],
    bytes: &[u8],
    spot: &Spot,
    hit: &Hit,
) -> Result<Option<Errno>, Stop>
    requires from { spot.now.at ≤ hit.now.at }
    requires to { hit.now.at + hit.now.len ≤ spot.now.at + length bytes.now }
    requires whole { length bytes.now ≡ spot.now.span }
    requires lies { spot.now.at + length bytes.now ≤ slice_index_or (map D.bytes disks.old) spot.now.leaf 0 }
    ensures told { IfOk result (λ error. (images : Images) → Tell D.image disks.old images →
        (error ≡ (faulty_write hit.now.kind hit.now images spot.now bytes.now).error)
        × Tell D.image disks.new (faulty_write hit.now.kind hit.now images spot.now bytes.now).images) }
    ensures answer { IfOk result (λ error. (images : Images)
        → error ≡ (faulty_write hit.now.kind hit.now images spot.now bytes.now).error) }
    ensures handled { Handles D.bytes D.faults D.faults_at_fetch D.home D.image D.sound D.went
        (spot.now ∷ []) result disks.old disks.new }
{
    match hit.kind {
        FaultKind::Eio => Ok(Some(Errno::Io)),
        FaultKind::Gone => Ok(Some(Errno::Nxio)),
        FaultKind::Flip => {
            let turned = turned(alloc, bytes, spot.at, hit)?;
            store(disks, turned.as_slice(), spot)
        }
    }
}

/// A copy of the bytes, with those inverted that the hit covers.
fn turned(alloc: Global, bytes: &[u8], at: u64, hit: &Hit) -> Result<Bytes, Stop>
    requires from { at ≤ hit.now.at }
    requires to { hit.now.at + hit.now.len ≤ at + length bytes.now }
    ensures ok { IfOk result (λ turned. turned ≡ flipped at hit.now bytes.now) }
    ensures err { IfErr result (λ stop. stop ≡ Stop.Memory) }
{
    let mut copy = Vec::new(alloc);
    if copy.extend_from_slice(bytes).is_err() {
        return Err(Stop::Memory);
    }
    flip(copy.as_mut_slice(), at, hit);
    Ok(Bytes::from_vec(copy))
}

/// Stores the bytes, which fill the place. Where the leaf isn't there they are none.
pub fn store<D: Disk>(disks: &mut [D], bytes: &[u8], spot: &Spot) -> Result<Option<Errno>, Stop>
    requires whole { length bytes.now ≡ spot.now.span }
    requires lies { spot.now.at + length bytes.now ≤ slice_index_or (map D.bytes disks.old) spot.now.leaf 0 }
    ensures told { IfOk result (λ error. (images : Images) → Tell D.image disks.old images →
        (error ≡ None) × Tell D.image disks.new (with_bytes images spot.now bytes.now)) }
    ensures answer { IfOk result (λ error. error ≡ None) }
    ensures handled { Handles D.bytes D.faults D.faults_at_fetch D.home D.image D.sound D.went
        (spot.now ∷ []) result disks.old disks.new }
{
    let leaf = spot.leaf as usize;
    if leaf >= disks.len() {
        return Ok(None);
    }
    match disks[leaf].write_at(spot.at, bytes) {
        Ok(()) => Ok(None),
        Err(_) => Err(Stop::Device),
    }
}
