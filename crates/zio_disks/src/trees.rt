// The headers of a block: read with repairs, and what a free of the block answers.

ghost use Rattle.std.specs.Prelude.{◌≡◌, ◌≢◌, ◌∷◌, ◌++◌, ◌+◌, ◌≤◌, ◌<◌, [], Contains, IfErr, IfOk, IfSome, OnErr, OnOk, Some, None, Err, ℕ, length, map, true, false};
ghost use Rattle.std.specs.List.{AllByRecursion};
ghost use Rattle.zio_types.specs.Errors.{worst_of};
ghost use Rattle.zio_types.specs.Places.{sector_size};
ghost use Rattle.zio_blkptr.specs.Pointers.{places_of};
ghost use Rattle.zio_cksum.specs.Blocks.{good_kept, read_block};
ghost use Rattle.zio_cksum.specs.Frames.{spots_of};
ghost use Rattle.zio_cksum.specs.Images.{Images};
ghost use Rattle.zio_gang.specs.Trees.{free_tree, kept_at, kept_visit, sizes_of, tree_places, tree_pointers, walk, walk_kept, walk_members};
ghost use Rattle.zio_disks.specs.Disks.{Handles, Tell};
ghost use Rattle.zio_disks.specs.Kept.{AreKept, AreNamedAt, IsKept, bytes_of_all};
ghost use Rattle.zio_disks.specs.Trees.{BearsTops, IsBodyOf, IsPlacedTree, members_in};
ghost use Rattle.zio_disks.specs.Whole.{IsWholeTree};

use crate::copies::GoodCopy;
use crate::read::read_block;
use crate::setting::{Setting, Stop};
use std::alloc::Global;
use zio_blkptr::Bp;
use zio_gang::{LEVELS_MAX, Tree, members_of};
use zio_mirror::write_result;
use zio_outside::Disk;
use zio_types::{Errno, List, Path};

/// Reads the headers of a block, with repairs, as a free of it does. It gives the worst of their errors, or none; below
/// a header that failed none is read, and one that stands below eight others is a checksum error and isn't read.
pub fn free_tree<D: Disk>(
    alloc: Global,
    setting: &Setting,
    disks: &mut [D],
    tree: &Tree,
) -> Result<Option<Errno>, Stop>
    requires bears { BearsTops setting.now (map D.bytes disks.old) }
    requires placed { IsPlacedTree (sizes_of setting.now.tops) tree.now }
    ensures told { IfOk result (λ error. (images : Images) → Tell D.image disks.old images →
        let freed = free_tree setting.now tree.now images in
        (error ≡ freed.error) × Tell D.image disks.new freed.images) }
    ensures handled { Handles D.bytes D.faults D.faults_at_fetch D.home D.image D.sound D.went
        (spots_of setting.now (tree_places tree.now)) result disks.old disks.new }
{
    let mut errors = List::new(alloc);
    let mut bodies = List::new(alloc);
    walk_tree(alloc, setting, disks, tree, &mut errors, &mut bodies)?;
    Ok(worst_of(errors.as_slice()))
}

pub(crate) fn worst_of(errors: &[Option<Errno>]) -> Option<Errno>
    ensures { result ≡ worst_of errors.now }
{
    if errors.is_empty() {
        None
    } else {
        write_result(errors, true)
    }
}

/// Reads the headers of a block from its pointer down, and notes the errors and the bodies that it comes to.
pub(crate) fn walk_tree<D: Disk>(
    alloc: Global,
    setting: &Setting,
    disks: &mut [D],
    tree: &Tree,
    errors: &mut List<Option<Errno>>,
    bodies: &mut List<Bp>,
) -> Result<(), Stop>
    requires bears { BearsTops setting.now (map D.bytes disks.old) }
    requires placed { IsPlacedTree (sizes_of setting.now.tops) tree.now }
    requires bodies { AllByRecursion (IsBodyOf tree.now) bodies.old }
    ensures told { IfOk result (λ _. (images : Images) → Tell D.image disks.old images →
        let w = walk_kept setting.now tree.now images in
        (errors.new ≡ errors.old ++ w.errors) × (bodies.new ≡ bodies.old ++ w.bodies)
        × Tell D.image disks.new w.images) }
    ensures bodies { AllByRecursion (IsBodyOf tree.now) bodies.new }
    ensures grows { OnOk result (length errors.old ≤ length errors.new) }
    ensures sized { OnOk result (IsWholeTree tree.now → length errors.new ≡ length errors.old →
        bytes_of_all bodies.new ≡ bytes_of_all bodies.old + tree.now.bp.size) }
    ensures handled { Handles D.bytes D.faults D.faults_at_fetch D.home D.image D.sound D.went
        (spots_of setting.now (tree_places tree.now)) result disks.old disks.new }
{
    let top = Path {
        len: 0,
        steps: [0; 8],
    };
    walk_pointer(
        alloc, setting, disks, tree, LEVELS_MAX, &top, &tree.bp, errors, bodies,
    )
}

/// Goes from a pointer of the block down, so many levels of headers.
#[cycle(walk)]
fn walk_pointer<D: Disk>(
    alloc: Global,
    setting: &Setting,
    disks: &mut [D],
    tree: &Tree,
    levels: u32,
    path: &Path,
    bp: &Bp,
    errors: &mut List<Option<Errno>>,
    bodies: &mut List<Bp>,
) -> Result<(), Stop>
    requires bears { BearsTops setting.now (map D.bytes disks.old) }
    requires placed { IsPlacedTree (sizes_of setting.now.tops) tree.now }
    requires listed { Contains (tree_pointers tree.now) bp.now }
    requires depth { length path.now + levels ≤ LEVELS_MAX }
    requires bodies { AllByRecursion (IsBodyOf tree.now) bodies.old }
    ensures told { IfOk result (λ _. (images : Images) → Tell D.image disks.old images →
        let w = walk levels (kept_visit setting.now tree.now.heads) path.now bp.now images in
        (errors.new ≡ errors.old ++ w.errors) × (bodies.new ≡ bodies.old ++ w.bodies)
        × Tell D.image disks.new w.images) }
    ensures bodies { AllByRecursion (IsBodyOf tree.now) bodies.new }
    ensures grows { OnOk result (length errors.old ≤ length errors.new) }
    ensures sized { OnOk result (IsKept levels tree.now.heads path.now bp.now → length errors.new ≡ length errors.old →
        bytes_of_all bodies.new ≡ bytes_of_all bodies.old + bp.now.size) }
    ensures handled { Handles D.bytes D.faults D.faults_at_fetch D.home D.image D.sound D.went
        (spots_of setting.now (tree_places tree.now)) result disks.old disks.new }
{
    if !bp.gang {
        return note_body(bodies, bp);
    }
    if levels == 0 {
        return note_error(errors, Errno::Cksum);
    }
    match read_members(alloc, setting, disks, tree, path, bp)? {
        Ok(members) => walk_members(
            alloc,
            setting,
            disks,
            tree,
            levels - 1,
            path,
            0,
            members.as_slice(),
            errors,
            bodies,
        ),
        Err(error) => note_error(errors, error),
    }
}

/// Goes from each of these members of a header down, which are numbered from `n`.
#[cycle(walk)]
fn walk_members<D: Disk>(
    alloc: Global,
    setting: &Setting,
    disks: &mut [D],
    tree: &Tree,
    levels: u32,
    path: &Path,
    n: u8,
    members: &[Bp],
    errors: &mut List<Option<Errno>>,
    bodies: &mut List<Bp>,
) -> Result<(), Stop>
    requires bears { BearsTops setting.now (map D.bytes disks.old) }
    requires placed { IsPlacedTree (sizes_of setting.now.tops) tree.now }
    requires listed { AllByRecursion (Contains (tree_pointers tree.now)) members.now }
    requires few { n + length members.now ≤ 3 }
    requires depth { length path.now + levels < LEVELS_MAX }
    requires bodies { AllByRecursion (IsBodyOf tree.now) bodies.old }
    ensures told { IfOk result (λ _. (images : Images) → Tell D.image disks.old images →
        let w = walk_members (walk levels (kept_visit setting.now tree.now.heads)) path.now n members.now images in
        (errors.new ≡ errors.old ++ w.errors) × (bodies.new ≡ bodies.old ++ w.bodies)
        × Tell D.image disks.new w.images) }
    ensures bodies { AllByRecursion (IsBodyOf tree.now) bodies.new }
    ensures grows { OnOk result (length errors.old ≤ length errors.new) }
    ensures sized { OnOk result (AreKept (IsKept levels tree.now.heads) path.now n members.now →
        length errors.new ≡ length errors.old →
        bytes_of_all bodies.new ≡ bytes_of_all bodies.old + bytes_of_all members.now) }
    ensures handled { Handles D.bytes D.faults D.faults_at_fetch D.home D.image D.sound D.went
        (spots_of setting.now (tree_places tree.now)) result disks.old disks.new }
{
    let [member, rest @ ..] = members else {
        return Ok(());
    };
    let below = below(path, n);
    walk_pointer(
        alloc, setting, disks, tree, levels, &below, member, errors, bodies,
    )?;
    walk_members(
        alloc,
        setting,
        disks,
        tree,
        levels,
        path,
        n + 1,
        rest,
        errors,
        bodies,
    )
}

/// The path to a member of the gang at this path, which has room for a step.
pub(crate) fn below(path: &Path, member: u8) -> Path
    requires member { member < 3 }
    requires room { length path.now < LEVELS_MAX }
    ensures { result ≡ path.now ++ member ∷ [] }
{
    match path.child(member) {
        Some(below) => below,
        None => unreachable!(),
    }
}

/// Reads the header of a gang at a path, with repairs. It gives the members that it names.
fn read_members<D: Disk>(
    alloc: Global,
    setting: &Setting,
    disks: &mut [D],
    tree: &Tree,
    path: &Path,
    bp: &Bp,
) -> Result<Result<List<Bp>, Errno>, Stop>
    requires bears { BearsTops setting.now (map D.bytes disks.old) }
    requires placed { IsPlacedTree (sizes_of setting.now.tops) tree.now }
    requires listed { Contains (tree_pointers tree.now) bp.now }
    requires gang { bp.now.gang ≡ true }
    ensures told { IfOk result (λ found. (images : Images) → Tell D.image disks.old images →
        let read = read_block setting.now true (good_kept (kept_at tree.now.heads path.now)) images sector_size
        (places_of bp.now) in
        (found ≡ members_in read.found) × Tell D.image disks.new read.images) }
    ensures listed { IfOk result
        (λ found. IfOk found (λ members. AllByRecursion (Contains (tree_pointers tree.now)) members)) }
    ensures few { IfOk result (λ found. IfOk found (λ members. length members ≤ 3)) }
    ensures kept { IfOk result (λ found. IfOk found (AreNamedAt tree.now.heads path.now)) }
    ensures handled { Handles D.bytes D.faults D.faults_at_fetch D.home D.image D.sound D.went
        (spots_of setting.now (tree_places tree.now)) result disks.old disks.new }
{
    let mut header = [0; 512];
    let good = GoodCopy::Kept(tree.head(path));
    let places = &bp.places[..bp.count as usize];
    let read = read_block(alloc, setting, disks, true, &good, places, &mut header)?;
    match read {
        None => named(alloc, &header),
        Some(error) => Ok(Err(error)),
    }
}

fn named(alloc: Global, header: &[u8; 512]) -> Result<Result<List<Bp>, Errno>, Stop>
    ensures ok { IfOk result (λ found. found ≡ members_in (Ok header.now)) }
    ensures err { OnErr result (result ≡ Err Stop.Memory) }
{
    match members_of(alloc, header) {
        Ok(members) => Ok(Ok(members)),
        Err(_) => Err(Stop::Memory),
    }
}

fn note_body(bodies: &mut List<Bp>, bp: &Bp) -> Result<(), Stop>
    ensures ok { OnOk result (bodies.new ≡ bodies.old ++ bp.now ∷ []) }
    ensures kept { OnErr result (bodies.new ≡ bodies.old) }
    ensures err { OnErr result (result ≡ Err Stop.Memory) }
{
    match bodies.push(*bp) {
        Ok(()) => Ok(()),
        Err(_) => Err(Stop::Memory),
    }
}

pub(crate) fn note_error(errors: &mut List<Option<Errno>>, error: Errno) -> Result<(), Stop>
    ensures ok { OnOk result (errors.new ≡ errors.old ++ Some error ∷ []) }
    ensures err { OnErr result (result ≡ Err Stop.Memory) }
{
    match errors.push(Some(error)) {
        Ok(()) => Ok(()),
        Err(_) => Err(Stop::Memory),
    }
}
