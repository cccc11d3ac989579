// The headers of a claim: read without repairs, from a pointer that may be anything.

ghost use Rattle.std.specs.Prelude.{◌≡◌, ◌∷◌, ◌++◌, ◌+◌, ◌≤◌, ◌<◌, [], IfOk, IsTrue, OnErr, OnOk, Some, None, Ok, Err, ℕ, length, map, true, false};
ghost use Rattle.std.specs.List.{AllByRecursion, list_all};
ghost use Rattle.zio_types.specs.Places.{is_inside, sector_size};
ghost use Rattle.zio_blkptr.specs.Pointers.{places_of, pointer_of, valid};
ghost use Rattle.zio_cksum.specs.Blocks.{good_claimed, read_block};
ghost use Rattle.zio_cksum.specs.Headers.{members_of};
ghost use Rattle.zio_cksum.specs.Images.{Images};
ghost use Rattle.zio_gang.specs.Trees.{claim_visit, sizes_of, walk, walk_members, walk_read, walk_tree};
ghost use Rattle.zio_disks.specs.Claims.{AddsTo, AreRead, claim_walk, tree_walked};
ghost use Rattle.zio_disks.specs.Disks.{Handles, Tell};
ghost use Rattle.zio_disks.specs.Trees.{BearsTops, IsPlacedTree};
ghost use Rattle.zio_disks.specs.Whole.{AreUnder, AreUnderGang, AreUnderMembers, IsFittingTree, IsWholeTree};

use crate::bodies::blame;
use crate::copies::GoodCopy;
use crate::fitting::is_fitting;
use crate::read::read_block;
use crate::setting::{Setting, Stop};
use crate::trees::{below, note_error};
use std::alloc::Global;
use zio_blkptr::{Bp, decode};
use zio_gang::{Head, LEVELS_MAX, Tree, members_of};
use zio_outside::Disk;
use zio_types::{Errno, List, Path};

/// Reads the headers that a claim of these bytes comes to, without repairs, and gives the block of the pointer that
/// they spell: `Inval` where they spell none, else the worst error of its pointers and headers, if there is one. A
/// pointer with a place that isn't inside its top, or doesn't fit what it holds, is `Inval`, and its header isn't read;
/// a header that stands below eight others is a checksum error and isn't read. The first good copy of a header gives
/// the bytes that the block keeps. Whether the places are free isn't asked.
pub fn claim_walk<D: Disk>(
    alloc: Global,
    setting: &Setting,
    disks: &mut [D],
    pointer: &[u8; 128],
) -> Result<Result<Tree, Errno>, Stop>
    requires bears { BearsTops setting.now (map D.bytes disks.old) }
    ensures told { IfOk result (λ found. (images : Images) → Tell D.image disks.old images →
        let walked = claim_walk setting.now pointer.now images in
        (found ≡ walked.tree) × Tell D.image disks.new walked.images) }
    ensures pointer { IfOk result (λ found. IfOk found (λ tree. pointer_of pointer.now ≡ Some tree.bp)) }
    ensures none { pointer_of pointer.now ≡ None → result ≡ Ok (Err Errno.Inval) }
    ensures whole { IfOk result (λ found. IfOk found IsWholeTree) }
    ensures fitting { IfOk result (λ found. IfOk found (IsFittingTree (sizes_of setting.now.tops))) }
    ensures placed { IfOk result (λ found. IfOk found (IsPlacedTree (sizes_of setting.now.tops))) }
    ensures handled { Handles D.bytes D.faults D.faults_at_fetch D.home D.image D.sound D.went [] result disks.old
        disks.new }
{
    match decode(pointer) {
        Ok(bp) => claim_pointer(alloc, setting, disks, bp),
        Err(_) => Ok(Err(Errno::Inval)),
    }
}

/// The block of a pointer, or the worst error of its headers.
fn claim_pointer<D: Disk>(
    alloc: Global,
    setting: &Setting,
    disks: &mut [D],
    bp: Bp,
) -> Result<Result<Tree, Errno>, Stop>
    requires bears { BearsTops setting.now (map D.bytes disks.old) }
    requires valid { IsTrue (valid bp) }
    ensures told { IfOk result (λ found. (images : Images) → Tell D.image disks.old images →
        let walked = tree_walked bp (walk_tree (claim_visit setting.now) bp images) in
        (found ≡ walked.tree) × Tell D.image disks.new walked.images) }
    ensures pointer { IfOk result (λ found. IfOk found (λ tree. tree.bp ≡ bp)) }
    ensures whole { IfOk result (λ found. IfOk found IsWholeTree) }
    ensures fitting { IfOk result (λ found. IfOk found (IsFittingTree (sizes_of setting.now.tops))) }
    ensures placed { IfOk result (λ found. IfOk found (IsPlacedTree (sizes_of setting.now.tops))) }
    ensures handled { Handles D.bytes D.faults D.faults_at_fetch D.home D.image D.sound D.went [] result disks.old
        disks.new }
{
    let top = Path {
        len: 0,
        steps: [0; 8],
    };
    let mut errors = List::new(alloc);
    let mut heads = List::new(alloc);
    visit_pointer(
        alloc,
        setting,
        disks,
        LEVELS_MAX,
        &top,
        &bp,
        &mut errors,
        &mut heads,
    )?;
    if errors.is_empty() {
        Ok(Ok(Tree { bp, heads }))
    } else {
        Ok(Err(blame(errors.as_slice())))
    }
}

/// Goes from a pointer down, so many levels of headers, and notes the errors and the headers that it comes to.
#[cycle(visit)]
fn visit_pointer<D: Disk>(
    alloc: Global,
    setting: &Setting,
    disks: &mut [D],
    levels: u32,
    path: &Path,
    bp: &Bp,
    errors: &mut List<Option<Errno>>,
    heads: &mut List<Head>,
) -> Result<(), Stop>
    requires bears { BearsTops setting.now (map D.bytes disks.old) }
    requires valid { IsTrue (valid bp.now) }
    requires depth { length path.now + levels ≤ LEVELS_MAX }
    ensures told { IfOk result (λ _. (images : Images) → Tell D.image disks.old images →
        let w = walk levels (claim_visit setting.now) path.now bp.now images in
        (errors.new ≡ errors.old ++ w.errors) × (heads.new ≡ heads.old ++ w.heads) × Tell D.image disks.new w.images) }
    ensures added { OnOk result
        (AddsTo (AreRead (sizes_of setting.now.tops) (bp.now ∷ []) (AreUnder levels path.now bp.now)) errors.old
        errors.new heads.old heads.new) }
    ensures handled { Handles D.bytes D.faults D.faults_at_fetch D.home D.image D.sound D.went [] result disks.old
        disks.new }
{
    if !is_fitting(setting, bp) {
        return note_error(errors, Errno::Inval);
    }
    if !bp.gang {
        return Ok(());
    }
    if levels == 0 {
        return note_error(errors, Errno::Cksum);
    }
    visit_gang(alloc, setting, disks, levels - 1, path, bp, errors, heads)
}

/// Reads the header of a gang and goes on from its members, so many levels of headers further.
#[cycle(visit)]
fn visit_gang<D: Disk>(
    alloc: Global,
    setting: &Setting,
    disks: &mut [D],
    levels: u32,
    path: &Path,
    bp: &Bp,
    errors: &mut List<Option<Errno>>,
    heads: &mut List<Head>,
) -> Result<(), Stop>
    requires bears { BearsTops setting.now (map D.bytes disks.old) }
    requires valid { IsTrue (valid bp.now) }
    requires gang { bp.now.gang ≡ true }
    requires inside { IsTrue (list_all (is_inside (sizes_of setting.now.tops)) (places_of bp.now)) }
    requires depth { length path.now + levels < LEVELS_MAX }
    ensures told { IfOk result (λ _. (images : Images) → Tell D.image disks.old images →
        let w = walk_read (walk levels (claim_visit setting.now)) path.now
        (read_block setting.now false (good_claimed bp.now) images sector_size (places_of bp.now)) in
        (errors.new ≡ errors.old ++ w.errors) × (heads.new ≡ heads.old ++ w.heads) × Tell D.image disks.new w.images) }
    ensures added { OnOk result
        (AddsTo (AreRead (sizes_of setting.now.tops) [] (AreUnderGang (AreUnder levels) path.now bp.now)) errors.old
        errors.new heads.old heads.new) }
    ensures handled { Handles D.bytes D.faults D.faults_at_fetch D.home D.image D.sound D.went [] result disks.old
        disks.new }
{
    match read_header(alloc, setting, disks, bp)? {
        Ok(header) => {
            note_head(heads, path, &header)?;
            let members = members_in(alloc, &header)?;
            visit_members(
                alloc,
                setting,
                disks,
                levels,
                path,
                0,
                members.as_slice(),
                errors,
                heads,
            )
        }
        Err(error) => note_error(errors, error),
    }
}

/// Goes from each of these members of a header down, which are numbered from `n`.
#[cycle(visit)]
fn visit_members<D: Disk>(
    alloc: Global,
    setting: &Setting,
    disks: &mut [D],
    levels: u32,
    path: &Path,
    n: u8,
    members: &[Bp],
    errors: &mut List<Option<Errno>>,
    heads: &mut List<Head>,
) -> Result<(), Stop>
    requires bears { BearsTops setting.now (map D.bytes disks.old) }
    requires valid { AllByRecursion (λ m. IsTrue (valid m)) members.now }
    requires few { n + length members.now ≤ 3 }
    requires depth { length path.now + levels < LEVELS_MAX }
    ensures told { IfOk result (λ _. (images : Images) → Tell D.image disks.old images →
        let w = walk_members (walk levels (claim_visit setting.now)) path.now n members.now images in
        (errors.new ≡ errors.old ++ w.errors) × (heads.new ≡ heads.old ++ w.heads) × Tell D.image disks.new w.images) }
    ensures added { OnOk result
        (AddsTo (AreRead (sizes_of setting.now.tops) members.now
        (AreUnderMembers (AreUnder levels) path.now n members.now)) errors.old errors.new heads.old heads.new) }
    ensures handled { Handles D.bytes D.faults D.faults_at_fetch D.home D.image D.sound D.went [] result disks.old
        disks.new }
{
    let [member, rest @ ..] = members else {
        return Ok(());
    };
    let below = below(path, n);
    visit_pointer(alloc, setting, disks, levels, &below, member, errors, heads)?;
    visit_members(
        alloc,
        setting,
        disks,
        levels,
        path,
        n + 1,
        rest,
        errors,
        heads,
    )
}

/// Reads a gang's header, without repairs: the bytes of the first copy that is one for this pointer.
fn read_header<D: Disk>(
    alloc: Global,
    setting: &Setting,
    disks: &mut [D],
    bp: &Bp,
) -> Result<Result<[u8; 512], Errno>, Stop>
    requires bears { BearsTops setting.now (map D.bytes disks.old) }
    requires valid { IsTrue (valid bp.now) }
    requires gang { bp.now.gang ≡ true }
    requires inside { IsTrue (list_all (is_inside (sizes_of setting.now.tops)) (places_of bp.now)) }
    ensures told { IfOk result (λ found. (images : Images) → Tell D.image disks.old images →
        let read = read_block setting.now false (good_claimed bp.now) images sector_size (places_of bp.now) in
        (found ≡ read.found) × Tell D.image disks.new read.images) }
    ensures good { IfOk result (λ found. IfOk found (λ header. IsTrue (good_claimed bp.now header))) }
    ensures handled { Handles D.bytes D.faults D.faults_at_fetch D.home D.image D.sound D.went [] result disks.old
        disks.new }
{
    let mut header = [0; 512];
    let good = GoodCopy::Claimed(bp);
    let places = &bp.places[..bp.count as usize];
    match read_block(alloc, setting, disks, false, &good, places, &mut header)? {
        None => Ok(Ok(header)),
        Some(error) => Ok(Err(error)),
    }
}

/// The members that a header names, in order.
fn members_in(alloc: Global, header: &[u8; 512]) -> Result<List<Bp>, Stop>
    ensures ok { IfOk result (λ members. members ≡ members_of header.now) }
    ensures few { IfOk result (λ members. length members ≤ 3) }
    ensures err { OnErr result (result ≡ Err Stop.Memory) }
{
    match members_of(alloc, header) {
        Ok(members) => Ok(members),
        Err(_) => Err(Stop::Memory),
    }
}

fn note_head(heads: &mut List<Head>, path: &Path, bytes: &[u8; 512]) -> Result<(), Stop>
    ensures ok { OnOk result (heads.new ≡ heads.old ++ record { path = path.now; bytes = bytes.now } ∷ []) }
    ensures err { OnErr result (result ≡ Err Stop.Memory) }
{
    let head = Head {
        path: *path,
        bytes: *bytes,
    };
    match heads.push(head) {
        Ok(()) => Ok(()),
        Err(_) => Err(Stop::Memory),
    }
}
