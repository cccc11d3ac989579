// The bodies of a block, read with repairs and joined.

ghost use Rattle.std.specs.Prelude.{◌≡◌, ◌∷◌, ◌++◌, ◌+◌, ◌≤◌, Contains, IfErr, IfOk, OnErr, OnOk, Err, length, map, vec_len, true, false};
ghost use Rattle.std.specs.List.{AllByRecursion};
ghost use Rattle.zio_blkptr.specs.Pointers.{places_of};
ghost use Rattle.zio_cksum.specs.Blocks.{blame, good_body, read_block};
ghost use Rattle.zio_cksum.specs.Frames.{spots_of};
ghost use Rattle.zio_cksum.specs.Images.{Images};
ghost use Rattle.zio_gang.specs.Trees.{bodies_read, read_bodies, read_tree, sizes_of, tree_places};
ghost use Rattle.zio_disks.specs.Disks.{Handles, Tell};
ghost use Rattle.zio_disks.specs.Kept.{bytes_of_all};
ghost use Rattle.zio_disks.specs.Trees.{BearsTops, IsBodyOf, IsPlacedTree, bytes_in, errors_in};
ghost use Rattle.zio_disks.specs.Whole.{IsWholeTree};

use crate::copies::GoodCopy;
use crate::read::read_block;
use crate::setting::{Setting, Stop};
use crate::trees::{note_error, walk_tree, worst_of};
use std::alloc::Global;
use zio_blkptr::Bp;
use zio_gang::Tree;
use zio_outside::Disk;
use zio_types::{Bytes, Errno, List};

/// Reads a block, with repairs: its headers first, and where none failed its bodies in order, joined. The error is the
/// worst of the headers that failed, else of the bodies. Below a header that failed none is read, and one that stands
/// below eight others is a checksum error and isn't read.
pub fn read_tree<D: Disk>(
    alloc: Global,
    setting: &Setting,
    disks: &mut [D],
    tree: &Tree,
) -> Result<Result<Bytes, Errno>, Stop>
    requires bears { BearsTops setting.now (map D.bytes disks.old) }
    requires placed { IsPlacedTree (sizes_of setting.now.tops) tree.now }
    ensures told { IfOk result (λ found. (images : Images) → Tell D.image disks.old images →
        let read = read_tree setting.now tree.now images in
        (found ≡ read.found) × Tell D.image disks.new read.images) }
    ensures length { IsWholeTree tree.now
        → IfOk result (λ found. IfOk found (λ bytes. length bytes ≡ tree.now.bp.size)) }
    ensures handled { Handles D.bytes D.faults D.faults_at_fetch D.home D.image D.sound D.went
        (spots_of setting.now (tree_places tree.now)) result disks.old disks.new }
{
    let mut errors = List::new(alloc);
    let mut bodies = List::new(alloc);
    walk_tree(alloc, setting, disks, tree, &mut errors, &mut bodies)?;
    if !errors.is_empty() {
        return Ok(Err(blame(errors.as_slice())));
    }
    join_bodies(alloc, setting, disks, tree, bodies.as_slice())
}

pub(crate) fn blame(errors: &[Option<Errno>]) -> Errno
    ensures { result ≡ blame errors.now }
{
    worst_of(errors).unwrap_or(Errno::Nxio)
}

/// Reads these bodies of a block and joins them. One alone is handed on as it was read.
fn join_bodies<D: Disk>(
    alloc: Global,
    setting: &Setting,
    disks: &mut [D],
    tree: &Tree,
    bodies: &[Bp],
) -> Result<Result<Bytes, Errno>, Stop>
    requires bears { BearsTops setting.now (map D.bytes disks.old) }
    requires placed { IsPlacedTree (sizes_of setting.now.tops) tree.now }
    requires bodies { AllByRecursion (IsBodyOf tree.now) bodies.now }
    ensures told { IfOk result (λ found. (images : Images) → Tell D.image disks.old images →
        let read = bodies_read (read_bodies setting.now bodies.now images) in
        (found ≡ read.found) × Tell D.image disks.new read.images) }
    ensures length { IfOk result (λ found. IfOk found (λ bytes. length bytes ≡ bytes_of_all bodies.now)) }
    ensures handled { Handles D.bytes D.faults D.faults_at_fetch D.home D.image D.sound D.went
        (spots_of setting.now (tree_places tree.now)) result disks.old disks.new }
{
    if let [bp] = bodies {
        return read_body(alloc, setting, disks, tree, bp);
    }
    let mut errors = List::new(alloc);
    let mut bytes = List::new(alloc);
    read_bodies(alloc, setting, disks, tree, bodies, &mut errors, &mut bytes)?;
    if errors.is_empty() {
        Ok(Ok(bytes))
    } else {
        Ok(Err(blame(errors.as_slice())))
    }
}

/// Reads these bodies of a block in order, and adds what they give to the errors and the bytes.
fn read_bodies<D: Disk>(
    alloc: Global,
    setting: &Setting,
    disks: &mut [D],
    tree: &Tree,
    bodies: &[Bp],
    errors: &mut List<Option<Errno>>,
    bytes: &mut Bytes,
) -> Result<(), Stop>
    requires bears { BearsTops setting.now (map D.bytes disks.old) }
    requires placed { IsPlacedTree (sizes_of setting.now.tops) tree.now }
    requires bodies { AllByRecursion (IsBodyOf tree.now) bodies.now }
    ensures told { IfOk result (λ _. (images : Images) → Tell D.image disks.old images →
        let b = read_bodies setting.now bodies.now images in
        (errors.new ≡ errors.old ++ b.errors) × (bytes.new ≡ bytes.old ++ b.bytes) × Tell D.image disks.new b.images) }
    ensures grows { OnOk result (length errors.old ≤ length errors.new) }
    ensures sized { OnOk result (length errors.new ≡ length errors.old
        → length bytes.new ≡ length bytes.old + bytes_of_all bodies.now) }
    ensures handled { Handles D.bytes D.faults D.faults_at_fetch D.home D.image D.sound D.went
        (spots_of setting.now (tree_places tree.now)) result disks.old disks.new }
{
    let [bp, rest @ ..] = bodies else {
        return Ok(());
    };
    add_body(alloc, setting, disks, tree, bp, errors, bytes)?;
    read_bodies(alloc, setting, disks, tree, rest, errors, bytes)
}

/// Reads a body of a block, and adds what it gives to the errors or to the bytes.
fn add_body<D: Disk>(
    alloc: Global,
    setting: &Setting,
    disks: &mut [D],
    tree: &Tree,
    bp: &Bp,
    errors: &mut List<Option<Errno>>,
    bytes: &mut Bytes,
) -> Result<(), Stop>
    requires bears { BearsTops setting.now (map D.bytes disks.old) }
    requires placed { IsPlacedTree (sizes_of setting.now.tops) tree.now }
    requires listed { IsBodyOf tree.now bp.now }
    ensures told { IfOk result (λ _. (images : Images) → Tell D.image disks.old images →
        let read = read_block setting.now true (good_body bp.now) images bp.now.size (places_of bp.now) in
        (errors.new ≡ errors.old ++ errors_in read.found) × (bytes.new ≡ bytes.old ++ bytes_in read.found)
        × Tell D.image disks.new read.images) }
    ensures grows { OnOk result (length errors.old ≤ length errors.new) }
    ensures sized { OnOk result (length errors.new ≡ length errors.old
        → length bytes.new ≡ length bytes.old + bp.now.size) }
    ensures handled { Handles D.bytes D.faults D.faults_at_fetch D.home D.image D.sound D.went
        (spots_of setting.now (tree_places tree.now)) result disks.old disks.new }
{
    match read_body(alloc, setting, disks, tree, bp)? {
        Ok(part) => append(bytes, part.as_slice()),
        Err(error) => note_error(errors, error),
    }
}

fn append(bytes: &mut Bytes, part: &[u8]) -> Result<(), Stop>
    ensures ok { OnOk result (bytes.new ≡ bytes.old ++ part.now) }
    ensures err { OnErr result (result ≡ Err Stop.Memory) }
{
    match bytes.extend_from_slice(part) {
        Ok(()) => Ok(()),
        Err(_) => Err(Stop::Memory),
    }
}

/// Reads a body of a block, with repairs.
fn read_body<D: Disk>(
    alloc: Global,
    setting: &Setting,
    disks: &mut [D],
    tree: &Tree,
    bp: &Bp,
) -> Result<Result<Bytes, Errno>, Stop>
    requires bears { BearsTops setting.now (map D.bytes disks.old) }
    requires placed { IsPlacedTree (sizes_of setting.now.tops) tree.now }
    requires listed { IsBodyOf tree.now bp.now }
    ensures told { IfOk result (λ found. (images : Images) → Tell D.image disks.old images →
        let read = read_block setting.now true (good_body bp.now) images bp.now.size (places_of bp.now) in
        (found ≡ read.found) × Tell D.image disks.new read.images) }
    ensures len { IfOk result (λ found. IfOk found (λ bytes. length bytes ≡ bp.now.size)) }
    ensures handled { Handles D.bytes D.faults D.faults_at_fetch D.home D.image D.sound D.went
        (spots_of setting.now (tree_places tree.now)) result disks.old disks.new }
{
    let mut bytes = zeros(alloc, bp.size)?;
    let places = &bp.places[..bp.count as usize];
    let good = GoodCopy::Body(bp);
    match read_block(
        alloc,
        setting,
        disks,
        true,
        &good,
        places,
        bytes.as_mut_slice(),
    )? {
        None => Ok(Ok(Bytes::from_vec(bytes))),
        Some(error) => Ok(Err(error)),
    }
}

fn zeros(alloc: Global, len: u32) -> Result<Vec<u8>, Stop>
    ensures ok { IfOk result (λ bytes. vec_len bytes ≡ len) }
    ensures err { IfErr result (λ stop. stop ≡ Stop.Memory) }
{
    match vec![in alloc; 0; len as usize] {
        Ok(bytes) => Ok(bytes),
        Err(_) => Err(Stop::Memory),
    }
}
