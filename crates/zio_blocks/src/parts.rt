// A block's parts: each is placed whole, or as a gang of smaller ones.

ghost use Rattle.std.specs.Prelude.{◌≡◌, ◌∷◌, ◌++◌, ◌%◌, ◌*◌, ◌+◌, ◌^◌, ◌<◌, ◌≤◌, [], IfOk, IfSome, List, None, OnOk, false, length, map, sum, drop};
ghost use Rattle.std.specs.List.{AllByRecursion};
ghost use Rattle.zio_types.specs.Choices.{is_refused};
ghost use Rattle.zio_types.specs.Filled.{IsFilled};
ghost use Rattle.zio_types.specs.declared.place.Place.{Place};
ghost use Rattle.zio_cksum.specs.Frames.{spots_of};
ghost use Rattle.zio_cksum.specs.Headers.{split_sizes};
ghost use Rattle.zio_cksum.specs.Images.{Images};
ghost use Rattle.zio_gang.specs.Trees.{sizes_of};
ghost use Rattle.zio_gang.specs.Writes.{body_ask, chosen, cut, gang_with, head_ask, place_members, place_part, with_members};
ghost use Rattle.zio_disks.specs.Disks.{Handles, Tell};
ghost use Rattle.zio_disks.specs.Trees.{BearsTops};
ghost use Rattle.zio_blocks.specs.Blocks.{HavePointers, terms_of};
ghost use Rattle.zio_blocks.specs.Choosers.{IsFoundEntry, given_since, taken_by_all};
ghost use Rattle.zio_blocks.specs.Laid.{AreLaid, AskOnce, IsBelow, IsFrom, IsLaid, IsOfGang};
ghost use Rattle.zio_blocks.specs.Parts.{Asks, IsMade, IsPartSize, TellsMembers, TellsPart};

use crate::chooser::Chooser;
use crate::pieces::{
    Part, add_head, ask, below, fill_head, first_place, is_refused, nowhere, places_found,
    pointer_to, write_body,
};
use crate::place::Writing;
use std::alloc::Global;
use zio_blkptr::{BLOCK_SIZE_MAX, Bp};
use zio_disks::{Setting, Stop, write_piece};
use zio_gang::{Head, LEVELS_MAX, header_encode, split};
use zio_outside::Disk;
use zio_types::{COPIES_MAX, Entry, Errno, Path, Role, SECTOR_SIZE, worst};

/// Places a part of a block and writes it, whole or as a gang with so many levels of headers. It adds the headers to
/// those before.
#[cycle(parts)]
pub(crate) fn place_part<D: Disk, C: Chooser>(
    alloc: Global,
    setting: &Setting,
    disks: &mut [D],
    chooser: &mut C,
    writing: &Writing,
    levels: u32,
    path: &Path,
    bytes: &[u8],
    heads: &mut Vec<Head>,
) -> Result<Part, Stop>
    requires bears { BearsTops setting.now (map D.bytes disks.old) }
    requires tops { HavePointers setting.now.tops }
    requires sizes { C.sizes chooser.old ≡ sizes_of setting.now.tops }
    requires one { 1 ≤ writing.now.copies }
    requires three { writing.now.copies ≤ COPIES_MAX }
    requires birth { 1 ≤ writing.now.birth }
    requires some { 0 < length bytes.now }
    requires whole { length bytes.now % 512 ≡ 0 }
    requires most { length bytes.now ≤ BLOCK_SIZE_MAX }
    requires deep { length bytes.now ≤ 512 * 3 ^ levels }
    requires depth { length path.now + levels ≤ LEVELS_MAX }
    ensures asks { Asks C.lawful writing.now (C.sizes chooser.old) (C.used chooser.old) (C.live chooser.old)
        (C.given chooser.old) (C.sizes chooser.new) (C.used chooser.new) (C.live chooser.new) (C.given chooser.new) }
    ensures behind { OnOk result (heads.new.items ≡ heads.old.items ++ drop (length heads.old.items) heads.new.items) }
    ensures keys { AskOnce (IsFrom path.now) (given_since (C.given chooser.old) (C.given chooser.new)) }
    ensures laid { IfOk result (λ part. IsLaid (sizes_of setting.now.tops) levels path.now (length bytes.now) part
        (drop (length heads.old.items) heads.new.items)
        (taken_by_all (given_since (C.given chooser.old) (C.given chooser.new)))) }
    ensures told { IfOk result (λ part. (images : Images) → Tell D.image disks.old images →
        TellsPart D.image (λ journal. place_part levels journal (terms_of setting.now writing.now) path.now bytes.now
        images) [] part
        heads.old.items heads.new.items (given_since (C.given chooser.old) (C.given chooser.new)) disks.new) }
    ensures handled { Handles D.bytes D.faults D.faults_at_fetch D.home D.image D.sound D.went
        (spots_of setting.now (taken_by_all (given_since (C.given chooser.old) (C.given chooser.new)))) result disks.old
        disks.new }
{
    let size = bytes.len() as u32;
    let entry = ask(chooser, writing, path, Role::Body, size, writing.copies)?;
    if !is_refused(&entry) {
        return write_body(alloc, setting, disks, writing, &entry, bytes);
    }
    if size <= SECTOR_SIZE {
        return Ok(nowhere());
    }
    place_gang(
        alloc,
        setting,
        disks,
        chooser,
        writing,
        levels - 1,
        path,
        bytes,
        heads,
    )
}

/// Places a part as a gang, whose members have so many levels of headers below them.
#[cycle(parts)]
fn place_gang<D: Disk, C: Chooser>(
    alloc: Global,
    setting: &Setting,
    disks: &mut [D],
    chooser: &mut C,
    writing: &Writing,
    levels: u32,
    path: &Path,
    bytes: &[u8],
    heads: &mut Vec<Head>,
) -> Result<Part, Stop>
    requires bears { BearsTops setting.now (map D.bytes disks.old) }
    requires tops { HavePointers setting.now.tops }
    requires sizes { C.sizes chooser.old ≡ sizes_of setting.now.tops }
    requires one { 1 ≤ writing.now.copies }
    requires three { writing.now.copies ≤ COPIES_MAX }
    requires birth { 1 ≤ writing.now.birth }
    requires some { 512 < length bytes.now }
    requires whole { length bytes.now % 512 ≡ 0 }
    requires most { length bytes.now ≤ BLOCK_SIZE_MAX }
    requires deep { length bytes.now ≤ 512 * 3 ^ (levels + 1) }
    requires depth { length path.now + levels < LEVELS_MAX }
    ensures asks { Asks C.lawful writing.now (C.sizes chooser.old) (C.used chooser.old) (C.live chooser.old)
        (C.given chooser.old) (C.sizes chooser.new) (C.used chooser.new) (C.live chooser.new) (C.given chooser.new) }
    ensures behind { OnOk result (heads.new.items ≡ heads.old.items ++ drop (length heads.old.items) heads.new.items) }
    ensures keys { AskOnce (IsOfGang path.now) (given_since (C.given chooser.old) (C.given chooser.new)) }
    ensures laid { IfOk result (λ part. IsLaid (sizes_of setting.now.tops) (levels + 1) path.now (length bytes.now) part
        (drop (length heads.old.items) heads.new.items)
        (taken_by_all (given_since (C.given chooser.old) (C.given chooser.new)))) }
    ensures told { IfOk result (λ part. (images : Images) → Tell D.image disks.old images →
        let w = terms_of setting.now writing.now in
        TellsPart D.image (λ journal. gang_with (chosen journal (head_ask w path.now)) w
        (place_part levels journal w) path.now bytes.now images)
        (body_ask w path.now bytes.now ∷ []) part
        heads.old.items heads.new.items (given_since (C.given chooser.old) (C.given chooser.new)) disks.new) }
    ensures handled { Handles D.bytes D.faults D.faults_at_fetch D.home D.image D.sound D.went
        (spots_of setting.now (taken_by_all (given_since (C.given chooser.old) (C.given chooser.new)))) result disks.old
        disks.new }
{
    let copies = (writing.copies + 1).min(COPIES_MAX);
    let entry = ask(chooser, writing, path, Role::Head, SECTOR_SIZE, copies)?;
    if is_refused(&entry) {
        return Ok(nowhere());
    }
    write_gang(
        alloc, setting, disks, chooser, writing, levels, path, &entry, bytes, heads,
    )
}

/// Writes the members of a gang, and then its header to the places that its entry found.
#[cycle(parts)]
fn write_gang<D: Disk, C: Chooser>(
    alloc: Global,
    setting: &Setting,
    disks: &mut [D],
    chooser: &mut C,
    writing: &Writing,
    levels: u32,
    path: &Path,
    entry: &Entry,
    bytes: &[u8],
    heads: &mut Vec<Head>,
) -> Result<Part, Stop>
    requires bears { BearsTops setting.now (map D.bytes disks.old) }
    requires tops { HavePointers setting.now.tops }
    requires sizes { C.sizes chooser.old ≡ sizes_of setting.now.tops }
    requires one { 1 ≤ writing.now.copies }
    requires three { writing.now.copies ≤ COPIES_MAX }
    requires birth { 1 ≤ writing.now.birth }
    requires some { 512 < length bytes.now }
    requires whole { length bytes.now % 512 ≡ 0 }
    requires most { length bytes.now ≤ BLOCK_SIZE_MAX }
    requires deep { length bytes.now ≤ 512 * 3 ^ (levels + 1) }
    requires depth { length path.now + levels < LEVELS_MAX }
    requires asked { entry.now.asked ≡ head_ask (terms_of setting.now writing.now) path.now }
    requires entry { IsFoundEntry (sizes_of setting.now.tops) entry.now }
    requires found { is_refused entry.now ≡ false }
    ensures asks { Asks C.lawful writing.now (C.sizes chooser.old) (C.used chooser.old) (C.live chooser.old)
        (C.given chooser.old) (C.sizes chooser.new) (C.used chooser.new) (C.live chooser.new) (C.given chooser.new) }
    ensures behind { OnOk result (heads.new.items ≡ heads.old.items ++ drop (length heads.old.items) heads.new.items) }
    ensures keys { AskOnce (IsBelow path.now 0) (given_since (C.given chooser.old) (C.given chooser.new)) }
    ensures laid { IfOk result (λ part. IsLaid (sizes_of setting.now.tops) (levels + 1) path.now (length bytes.now) part
        (drop (length heads.old.items) heads.new.items)
        (entry.now.places ++ taken_by_all (given_since (C.given chooser.old) (C.given chooser.new)))) }
    ensures told { IfOk result (λ part. (images : Images) → Tell D.image disks.old images →
        let w = terms_of setting.now writing.now in
        TellsPart D.image
        (λ journal. with_members w path.now bytes.now entry.now.places
        (place_members (place_part levels journal w) path.now 0 (cut (split_sizes (length bytes.now)) bytes.now)
        images))
        (body_ask w path.now bytes.now ∷ head_ask w path.now ∷ []) part
        heads.old.items heads.new.items (given_since (C.given chooser.old) (C.given chooser.new)) disks.new) }
    ensures handled { Handles D.bytes D.faults D.faults_at_fetch D.home D.image D.sound D.went
        (spots_of setting.now (entry.now.places
        ++ taken_by_all (given_since (C.given chooser.old) (C.given chooser.new)))) result disks.old disks.new }
{
    let before = heads.as_slice();
    let at = before.len();
    add_head(heads, path)?;
    let mut pointers = [None; 3];
    let parts = split(bytes.len() as u32);
    let sizes = &parts.sizes[..parts.n as usize];
    let error = place_members(
        alloc,
        setting,
        disks,
        chooser,
        writing,
        levels,
        path,
        0,
        sizes,
        bytes,
        &mut pointers,
        heads,
    )?;
    let header = header_encode(&pointers, &first_place(entry), writing.birth);
    fill_head(heads, at, &header);
    let pointer = pointer_to(writing, entry, true, bytes);
    let written = write_piece(alloc, setting, disks, &header, places_found(entry))?;
    Ok(Part {
        error: worst(error, written),
        pointer: Some(pointer),
    })
}

/// Places the parts of these sizes from the front of the bytes, which are members numbered from `n`, and puts their
/// pointers behind those of the members before. It gives the worst of their errors.
#[cycle(parts)]
fn place_members<D: Disk, C: Chooser>(
    alloc: Global,
    setting: &Setting,
    disks: &mut [D],
    chooser: &mut C,
    writing: &Writing,
    levels: u32,
    path: &Path,
    n: u8,
    sizes: &[u32],
    bytes: &[u8],
    pointers: &mut [Option<Bp>; 3],
    heads: &mut Vec<Head>,
) -> Result<Option<Errno>, Stop>
    requires bears { BearsTops setting.now (map D.bytes disks.old) }
    requires tops { HavePointers setting.now.tops }
    requires sizes { C.sizes chooser.old ≡ sizes_of setting.now.tops }
    requires one { 1 ≤ writing.now.copies }
    requires three { writing.now.copies ≤ COPIES_MAX }
    requires birth { 1 ≤ writing.now.birth }
    requires parts { AllByRecursion (IsPartSize levels) sizes.now }
    requires sum { sum sizes.now ≡ length bytes.now }
    requires most { length bytes.now ≤ BLOCK_SIZE_MAX }
    requires few { n + length sizes.now ≤ 3 }
    requires filled { IsFilled None 3 n pointers.old }
    requires depth { length path.now + levels < LEVELS_MAX }
    requires made { AllByRecursion (λ pointer. IfSome pointer (IsMade (sizes_of setting.now.tops))) pointers.old }
    ensures asks { Asks C.lawful writing.now (C.sizes chooser.old) (C.used chooser.old) (C.live chooser.old)
        (C.given chooser.old) (C.sizes chooser.new) (C.used chooser.new) (C.live chooser.new) (C.given chooser.new) }
    ensures behind { OnOk result (heads.new.items ≡ heads.old.items ++ drop (length heads.old.items) heads.new.items) }
    ensures made { OnOk result
        (AllByRecursion (λ pointer. IfSome pointer (IsMade (sizes_of setting.now.tops))) pointers.new) }
    ensures keys { AskOnce (IsBelow path.now n) (given_since (C.given chooser.old) (C.given chooser.new)) }
    ensures laid { IfOk result
        (λ error. AreLaid (sizes_of setting.now.tops) levels path.now n sizes.now error pointers.old pointers.new
        (drop (length heads.old.items) heads.new.items)
        (taken_by_all (given_since (C.given chooser.old) (C.given chooser.new)))) }
    ensures told { IfOk result (λ error. (images : Images) → Tell D.image disks.old images →
        let w = terms_of setting.now writing.now in
        TellsMembers D.image (λ journal. place_members (place_part levels journal w) path.now n
        (cut sizes.now bytes.now) images) error n pointers.old pointers.new
        heads.old.items heads.new.items (given_since (C.given chooser.old) (C.given chooser.new)) disks.new) }
    ensures handled { Handles D.bytes D.faults D.faults_at_fetch D.home D.image D.sound D.went
        (spots_of setting.now (taken_by_all (given_since (C.given chooser.old) (C.given chooser.new)))) result disks.old
        disks.new }
{
    let [size, rest @ ..] = sizes else {
        return Ok(None);
    };
    let (part, others) = bytes.split_at(*size as usize);
    let below = below(path, n);
    let placed = place_part(
        alloc, setting, disks, chooser, writing, levels, &below, part, heads,
    )?;
    pointers[n as usize] = placed.pointer;
    let error = place_members(
        alloc,
        setting,
        disks,
        chooser,
        writing,
        levels,
        path,
        n + 1,
        rest,
        others,
        pointers,
        heads,
    )?;
    Ok(worst(placed.error, error))
}
