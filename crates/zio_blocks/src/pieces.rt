// What a block's parts are made of: entries, pointers, copies and headers.

ghost use Rattle.std.specs.Prelude.{◌≡◌, ◌∷◌, ◌++◌, ◌%◌, ◌^◌, ◌<◌, ◌≤◌, [], ℕ, Err, IfOk, List, None, OnErr, OnOk, Some, false, length, map, slice_index_or, vec_len};
ghost use Rattle.zio_types.specs.Choices.{is_refused, no_place};
ghost use Rattle.zio_types.specs.Filled.{filled_to};
ghost use Rattle.zio_types.specs.declared.place.Place.{Place};
ghost use Rattle.zio_blkptr.specs.Pointers.{FitsTypes};
ghost use Rattle.zio_cksum.specs.Blocks.{write_piece};
ghost use Rattle.zio_cksum.specs.Frames.{spots_of};
ghost use Rattle.zio_cksum.specs.Images.{Images, Setting};
ghost use Rattle.zio_gang.specs.Trees.{sizes_of};
ghost use Rattle.zio_gang.specs.Writes.{pointer_to};
ghost use Rattle.zio_gang.specs.declared.tree.Head.{Head as Header};
ghost use Rattle.zio_disks.specs.Disks.{Handles, Tell};
ghost use Rattle.zio_disks.specs.Trees.{BearsTops};
ghost use Rattle.zio_blocks.specs.Blocks.{HavePointers, terms_of};
ghost use Rattle.zio_blocks.specs.Choosers.{IsFoundEntry, given_since};
ghost use Rattle.zio_blocks.specs.Parts.{Asks, IsMade};

use crate::chooser::Chooser;
use crate::place::Writing;
use std::alloc::Global;
use zio_blkptr::{BLOCK_SIZE_MAX, Bp, SumKind};
use zio_cksum::sum;
use zio_disks::{Setting, Stop, write_piece};
use zio_gang::{Head, LEVELS_MAX};
use zio_outside::Disk;
use zio_types::{COPIES_MAX, Entry, Errno, Key, Path, Place, Role};

/// What became of a part of a block.
#[derive(Debug, Drop)]
pub(crate) struct Part {
    pub(crate) error: Option<Errno>,
    /// None exactly where it has no place.
    pub(crate) pointer: Option<Bp>,
}

/// Asks for places of a part of the block.
pub(crate) fn ask<C: Chooser>(
    chooser: &mut C,
    writing: &Writing,
    path: &Path,
    role: Role,
    size: u32,
    copies: u32,
) -> Result<Entry, Stop>
    requires some { 0 < size }
    requires whole { size % 512 ≡ 0 }
    requires one { 1 ≤ copies }
    requires most { copies ≤ COPIES_MAX }
    ensures asks { Asks C.lawful writing.now (C.sizes chooser.old) (C.used chooser.old) (C.live chooser.old)
        (C.given chooser.old) (C.sizes chooser.new) (C.used chooser.new) (C.live chooser.new) (C.given chooser.new) }
    ensures given { IfOk result (λ entry. given_since (C.given chooser.old) (C.given chooser.new) ≡ entry ∷ []) }
    ensures asked { IfOk result (λ entry. entry.asked ≡ record {
      key = record {
        request = writing.now.request;
        round = writing.now.round;
        attempt = writing.now.attempt;
        path = path.now;
        role = role;
      };
      size = size;
      copies = copies;
    }) }
    ensures entry { IfOk result (IsFoundEntry (C.sizes chooser.old)) }
    ensures none { OnErr result (given_since (C.given chooser.old) (C.given chooser.new) ≡ []) }
    ensures memory { OnErr result (result ≡ Err Stop.Memory) }
{
    let key = Key {
        request: writing.request,
        round: writing.round,
        attempt: writing.attempt,
        path: *path,
        role,
    };
    match chooser.choose(key, size, copies) {
        Ok(entry) => Ok(entry),
        Err(_) => Err(Stop::Memory),
    }
}

pub(crate) fn is_refused(entry: &Entry) -> bool
    ensures { result ≡ is_refused entry.now }
{
    entry.found < entry.copies
}

/// The places that the entry found.
pub(crate) fn places_found(entry: &Entry) -> &[Place]
    ensures { result.now ≡ entry.now.places }
{
    &entry.places[..entry.found as usize]
}

/// The first of the places that the entry found.
pub(crate) fn first_place(entry: &Entry) -> Place
    requires { 1 ≤ length entry.now.places }
    ensures { result ≡ slice_index_or entry.now.places 0 no_place }
{
    entry.places[0]
}

/// A part without a place.
pub(crate) fn nowhere() -> Part
    ensures error { result.error ≡ Some Errno.Nospc }
    ensures pointer { result.pointer ≡ None }
{
    Part {
        error: Some(Errno::Nospc),
        pointer: None,
    }
}

/// Writes the part's bytes to the places that its entry found.
pub(crate) fn write_body<D: Disk>(
    alloc: Global,
    setting: &Setting,
    disks: &mut [D],
    writing: &Writing,
    entry: &Entry,
    bytes: &[u8],
) -> Result<Part, Stop>
    requires bears { BearsTops setting.now (map D.bytes disks.old) }
    requires tops { HavePointers setting.now.tops }
    requires birth { 1 ≤ writing.now.birth }
    requires some { 0 < length bytes.now }
    requires whole { length bytes.now % 512 ≡ 0 }
    requires most { length bytes.now ≤ BLOCK_SIZE_MAX }
    requires one { 1 ≤ entry.now.asked.copies }
    requires three { entry.now.asked.copies ≤ COPIES_MAX }
    requires size { entry.now.asked.size ≡ length bytes.now }
    requires entry { IsFoundEntry (sizes_of setting.now.tops) entry.now }
    requires found { is_refused entry.now ≡ false }
    ensures made { IfOk result (λ part. part.pointer
        ≡ Some (pointer_to (terms_of setting.now writing.now) entry.now.places false bytes.now)) }
    ensures good { IfOk result
        (λ part. IsMade (sizes_of setting.now.tops)
        (pointer_to (terms_of setting.now writing.now) entry.now.places false bytes.now)) }
    ensures told { IfOk result (λ part. (images : Images) → Tell D.image disks.old images →
        (part.error ≡ (write_piece setting.now bytes.now entry.now.places images).error)
        × Tell D.image disks.new (write_piece setting.now bytes.now entry.now.places images).images) }
    ensures handled { Handles D.bytes D.faults D.faults_at_fetch D.home D.image D.sound D.went
        (spots_of setting.now entry.now.places) result disks.old disks.new }
{
    let pointer = pointer_to(writing, entry, false, bytes);
    let error = write_piece(alloc, setting, disks, bytes, places_found(entry))?;
    Ok(Part {
        error,
        pointer: Some(pointer),
    })
}

/// The pointer to bytes whose copies, or the copies of whose header, lie at the places that the entry found.
pub(crate) fn pointer_to(writing: &Writing, entry: &Entry, gang: bool, bytes: &[u8]) -> Bp
    requires most { length bytes.now < 2 ^ 32 }
    requires whole { length bytes.now % 512 ≡ 0 }
    ensures pointer { (setting : Setting)
        → result ≡ pointer_to (terms_of setting writing.now) entry.now.places gang bytes.now }
    ensures types { FitsTypes result }
{
    let size = bytes.len() as u32;
    let words = sum(writing.sum, bytes);
    pointer_at(entry, gang, size, writing.sum, writing.birth, words)
}

/// The pointer with these fields and the places that the entry found.
fn pointer_at(entry: &Entry, gang: bool, size: u32, sum: SumKind, birth: u64, words: [u64; 4]) -> Bp
    ensures pointer { result ≡ record {
      count = length entry.now.places;
      places = filled_to no_place 3 entry.now.places;
      gang = gang;
      size = size;
      sum = sum;
      birth = birth;
      words = words;
    } }
    ensures types { FitsTypes result }
{
    // Word by word, since the proof knows the range of a number and not of an array's items.
    let [first, second, third, fourth] = words;
    Bp {
        count: entry.found,
        places: entry.places,
        gang,
        size,
        sum,
        birth,
        words: [first, second, third, fourth],
    }
}

/// The path to a member of the gang at this path, which has room for a step.
pub(crate) fn below(path: &Path, member: u8) -> Path
    requires member { member < 3 }
    requires room { length path.now < LEVELS_MAX }
    ensures { result ≡ path.now ++ member ∷ [] }
{
    match path.child(member) {
        Some(below) => below,
        None => unreachable!(),
    }
}

/// Adds a header at this path, whose bytes aren't known yet.
pub(crate) fn add_head(heads: &mut Vec<Head>, path: &Path) -> Result<(), Stop>
    ensures ok { OnOk result ((zeros : List ℕ)
        × (heads.new.items ≡ heads.old.items ++ record { path = path.now; bytes = zeros } ∷ [])) }
    ensures err { OnErr result (result ≡ Err Stop.Memory) }
{
    let head = Head {
        path: *path,
        bytes: [0; 512],
    };
    match heads.push(head) {
        Ok(()) => Ok(()),
        Err(_) => Err(Stop::Memory),
    }
}

/// Gives the header there its bytes.
pub(crate) fn fill_head(heads: &mut Vec<Head>, at: usize, bytes: &[u8; 512])
    requires { at < vec_len heads.old }
    ensures { (front back : List Header) (head : Header) → heads.old.items ≡ front ++ head ∷ back → at ≡ length front →
        heads.new.items ≡ front ++ record { path = head.path; bytes = bytes.now } ∷ back }
{
    heads[at].bytes = *bytes;
}
