// The members of a gang that is written.

ghost use Rattle.std.specs.Prelude.{◌≡◌, ◌+◌, ◌-◌, ◌*◌, ◌/◌, ◌%◌, ◌^◌, ◌<◌, ◌≤◌, ◌++◌, ◌∷◌, ℕ, IfSome, List, [], drop, length, map, slice_set, take, vec_capacity, vec_len};
ghost use Rattle.std.specs.List.{flat_map, list_all};
ghost use Rattle.zio_types.specs.Errors.{worst_of};
ghost use Rattle.zio_cksum.specs.Headers.{split_sizes};
ghost use Rattle.zio_parts.specs.Parts.{error_in, heads_in, is_ended, is_told, member_bytes, pointer_in};
ghost use Rattle.zio_parts.specs.PartWrites.{gang_step_of};

use crate::parts::{OwnWrite, PartStep};
use std::alloc::Global;
use std::mem::replace;
use std::ops::Range;
use zio_blkptr::{BLOCK_SIZE_MAX, Bp};
use zio_gang::{Head, split};
use zio_types::{Errno, List, worst};

/// A member that was handed out.
#[derive(Debug, Drop)]
pub(crate) enum Member {
    Out,
    /// It is out, and told which pointer it will have.
    Told(Option<Bp>),
    Ended {
        error: Option<Errno>,
        pointer: Option<Bp>,
        heads: List<Head>,
    },
}

/// How many members a part of this size has as a gang.
pub(crate) fn member_count(size: u32) -> usize
    requires some { 0 < size }
    requires whole { size % 512 ≡ 0 }
    requires most { size ≤ BLOCK_SIZE_MAX }
    ensures { result ≡ length (split_sizes size) }
{
    split(size).n as usize
}

/// What a gang of so many members is to do next: hand out the next member, wait for one that told no pointer, write its
/// header, wait for what is out, or end.
pub(crate) fn gang_step(count: usize, members: &[Member], own: OwnWrite) -> PartStep
    ensures { result ≡ gang_step_of count members.now own }
{
    if members.len() < count {
        return PartStep::Member(members.len());
    }
    if !are_told(members) {
        return PartStep::WaitReady;
    }
    match own {
        OwnWrite::Due => PartStep::WriteHeader,
        OwnWrite::Out => PartStep::Wait,
        OwnWrite::Ended(_) => {
            if are_ended(members) {
                PartStep::End
            } else {
                PartStep::Wait
            }
        }
    }
}

/// The nth member is this one now.
pub(crate) fn put(members: &mut [Member; 3], n: usize, member: Member)
    requires { n < 3 }
    ensures { members.new ≡ slice_set members.old n member }
{
    members[n] = member;
}

/// Each told its pointer.
pub(crate) fn are_told(members: &[Member]) -> bool
    ensures { result ≡ list_all is_told members.now }
{
    members.iter().all(|m| is_told(m))
}

fn are_ended(members: &[Member]) -> bool
    ensures { result ≡ list_all is_ended members.now }
{
    members.iter().all(|m| is_ended(m))
}

fn is_told(member: &Member) -> bool
    ensures { result ≡ is_told member.now }
{
    match member {
        Member::Out => false,
        Member::Told(_) => true,
        Member::Ended { .. } => true,
    }
}

fn is_ended(member: &Member) -> bool
    ensures { result ≡ is_ended member.now }
{
    match member {
        Member::Out => false,
        Member::Told(_) => false,
        Member::Ended { .. } => true,
    }
}

/// The pointers that they told, none for one that told nothing.
pub(crate) fn pointers_of(members: &[Member; 3]) -> [Option<Bp>; 3]
    ensures { result ≡ map pointer_in members.now }
{
    let [first, second, third] = members;
    [pointer_in(first), pointer_in(second), pointer_in(third)]
}

fn pointer_in(member: &Member) -> Option<Bp>
    ensures { result ≡ pointer_in member.now }
{
    match member {
        Member::Out => None,
        Member::Told(pointer) => *pointer,
        Member::Ended { pointer, .. } => *pointer,
    }
}

/// The worst of their errors.
pub(crate) fn worst_in(members: &[Member]) -> Option<Errno>
    ensures { result ≡ worst_of (map error_in members.now) }
{
    match members {
        [] => None,
        [member, rest @ ..] => worst(error_in(member), worst_in(rest)),
    }
}

fn error_in(member: &Member) -> Option<Errno>
    ensures { result ≡ error_in member.now }
{
    match member {
        Member::Out => None,
        Member::Told(_) => None,
        Member::Ended { error, .. } => *error,
    }
}

/// Room for a header and all those under the members, if there is so much.
pub(crate) fn room_of(alloc: Global, members: &[Member; 3]) -> Option<Vec<Head>>
    ensures none { IfSome result (λ room. room.items ≡ []) }
    ensures room { IfSome result (λ room. 1 + length (flat_map heads_in members.now) ≤ vec_capacity room) }
{
    let [first, second, third] = members;
    let room = 1usize
        .checked_add(heads_len(first))?
        .checked_add(heads_len(second))?
        .checked_add(heads_len(third))?;
    Vec::with_capacity(alloc, room).ok()
}

fn heads_len(member: &Member) -> usize
    ensures { result ≡ length (heads_in member.now) }
{
    match member {
        Member::Out => 0,
        Member::Told(_) => 0,
        Member::Ended { heads, .. } => heads.len(),
    }
}

/// The header, and behind it those under the members, one member's after another's.
pub(crate) fn heads_over(room: Vec<Head>, first: Head, members: [Member; 3]) -> Vec<Head>
    requires none { room.items ≡ [] }
    requires room { 1 + length (flat_map heads_in members) ≤ vec_capacity room }
    ensures { result.items ≡ first ∷ flat_map heads_in members }
{
    let mut heads = room;
    let mut members = members;
    add_head(&mut heads, first);
    add_heads(&mut heads, replace(&mut members[0], Member::Out));
    add_heads(&mut heads, replace(&mut members[1], Member::Out));
    add_heads(&mut heads, replace(&mut members[2], Member::Out));
    heads
}

fn add_head(heads: &mut Vec<Head>, head: Head)
    requires { vec_len heads.old < vec_capacity heads.old }
    ensures items { heads.new.items ≡ heads.old.items ++ head ∷ [] }
    ensures room { vec_capacity heads.old ≤ vec_capacity heads.new }
{
    if heads.push(head).is_err() {
        unreachable!();
    }
}

fn add_heads(heads: &mut Vec<Head>, member: Member)
    requires { vec_len heads.old + length (heads_in member) ≤ vec_capacity heads.old }
    ensures items { heads.new.items ≡ heads.old.items ++ heads_in member }
    ensures room { vec_capacity heads.old ≤ vec_capacity heads.new }
{
    match member {
        Member::Out => {}
        Member::Told(_) => {}
        Member::Ended { heads: more, .. } => {
            let mut more = more.into_vec();
            if heads.append(&mut more).is_err() {
                unreachable!();
            }
        }
    }
}

/// Where the bytes of a member stand in those of a part of this size: from the first byte of the range up to its end.
pub(crate) fn member_range(size: u32, n: usize) -> Range<usize>
    requires some { 0 < size }
    requires whole { size % 512 ≡ 0 }
    requires most { size ≤ BLOCK_SIZE_MAX }
    requires member { n < length (split_sizes size) }
    ensures bytes { (bytes : List ℕ) → length bytes ≡ size
        → member_bytes bytes n ≡ take (result.end - result.start) (drop result.start bytes) }
    ensures order { result.start < result.end }
    ensures within { result.end ≤ size }
    ensures sectors { (result.end - result.start) % 512 ≡ 0 }
    ensures third { 512 < size → result.end - result.start ≤ (size / 512 + 2) / 3 * 512 }
{
    let [first, second, third] = split(size).sizes;
    let second_at = first as usize;
    let third_at = second_at + second as usize;
    match n {
        0 => 0..second_at,
        1 => second_at..third_at,
        _ => third_at..third_at + third as usize,
    }
}
