ghost use Rattle.std.specs.Prelude.{◌≡◌, ◌↔◌, ◌%◌, ◌^◌, ◌<◌, ◌≤◌, map, take, not, true, false, bytes_eq, IsOk, IfOk, IsTrue, MatchOption, MatchResult, Err};
ghost use Rattle.zio_cksum.specs.Headers.{is_header, members_of, split_sizes};
ghost use Rattle.zio_gang.specs.HeaderFaults.{Holds, Names, are_scattered, first_header_fault, has_filler_fault, has_magic_fault, has_member_fault, has_sum_fault, is_garbled, is_vacant, present, slot_at};

use crate::header::{FILLER_AT, Header, HeaderFault, MAGIC, MAGIC_AT, SUM_AT, slot_at, sum_bytes};
use crate::sizes::split;
use zio_blkptr::{BLOCK_SIZE_MAX, Bp, decode};
use zio_cksum::gang_sum;
use zio_types::Place;

/// The members that the bytes name, where they are the header made for this place and birth of a block of `size`
/// bytes; else the first fault in the order of `HeaderFault`. The place's sector is below 2^48, and the size one that
/// `split` takes.
pub fn header_decode(
    bytes: &[u8; 512],
    place: &Place,
    birth: u64,
    size: u32,
) -> Result<Header, HeaderFault>
    requires sector { place.now.sector < 2 ^ 48 }
    requires positive { 0 < size }
    requires whole { size % 512 ≡ 0 }
    requires most { size ≤ BLOCK_SIZE_MAX }
    ensures fault { MatchOption (first_header_fault place.now birth size bytes.now) (IsOk result)
        (λ f. result ≡ Err f) }
    ensures members { IfOk result (λ header. Names header (members_of bytes.now)) }
    ensures accepted { IsOk result ↔ IsTrue (is_header place.now birth size bytes.now) }
{
    if has_magic_fault(bytes) {
        return Err(HeaderFault::Magic);
    }
    if has_sum_fault(bytes, place, birth) {
        return Err(HeaderFault::Sum);
    }
    if has_filler_fault(bytes) {
        return Err(HeaderFault::Filler);
    }
    let header = members_in(bytes)?;
    if has_other_sizes(&header, size) {
        return Err(HeaderFault::Sizes);
    }
    Ok(header)
}

#[tactic(auto, unfolding(crate::specs::HeaderFaults::has_magic_fault))]
fn has_magic_fault(bytes: &[u8; 512]) -> bool
    ensures { result ≡ has_magic_fault bytes.now }
{
    &bytes[MAGIC_AT..SUM_AT] != MAGIC.to_le_bytes().as_slice()
}

#[tactic(auto, unfolding(crate::specs::HeaderFaults::has_sum_fault))]
fn has_sum_fault(bytes: &[u8; 512], place: &Place, birth: u64) -> bool
    requires { place.now.sector < 2 ^ 48 }
    ensures { result ≡ has_sum_fault place.now birth bytes.now }
{
    &bytes[SUM_AT..] != sum_bytes(gang_sum(bytes, place, birth)).as_slice()
}

#[tactic(auto, unfolding(crate::specs::HeaderFaults::has_filler_fault))]
fn has_filler_fault(bytes: &[u8; 512]) -> bool
    ensures { result ≡ has_filler_fault bytes.now }
{
    &bytes[FILLER_AT..MAGIC_AT] != [0; MAGIC_AT - FILLER_AT].as_slice()
}

fn members_in(bytes: &[u8; 512]) -> Result<Header, HeaderFault>
    ensures { MatchResult result (λ header. (has_member_fault bytes.now ≡ false) × Names header (members_of bytes.now))
        (λ f. (has_member_fault bytes.now ≡ true) × (f ≡ HeaderFault.Member)) }
{
    let first = member_at(bytes, 0)?;
    let second = member_at(bytes, 1)?;
    let third = member_at(bytes, 2)?;
    match from_front(first, second, third) {
        Some(header) => Ok(header),
        None => Err(HeaderFault::Member),
    }
}

// What pointer `i` says, or none where it is absent.
fn member_at(bytes: &[u8; 512], i: usize) -> Result<Option<Bp>, HeaderFault>
    requires { i < 3 }
    ensures { MatchResult result (Holds (slot_at bytes.now i))
        (λ f. (is_garbled (slot_at bytes.now i) ≡ true) × (f ≡ HeaderFault.Member)) }
{
    let slot = slot_at(bytes, i);
    if is_vacant(slot) {
        return Ok(None);
    }
    match decode(slot) {
        Ok(bp) => Ok(Some(bp)),
        Err(_) => Err(HeaderFault::Member),
    }
}

fn is_vacant(slot: &[u8; 128]) -> bool
    ensures { result ≡ is_vacant slot.now }
{
    *slot == [0; 128]
}

// The header of members that are there from the front on, none where they aren't.
fn from_front(first: Option<Bp>, second: Option<Bp>, third: Option<Bp>) -> Option<Header>
    ensures { MatchOption result (IsTrue (are_scattered first second third))
        (λ header. (are_scattered first second third ≡ false) × Names header (present first second third)) }
{
    match (first, second, third) {
        (Some(a), None, None) => Some(Header {
            n: 1,
            members: [a, a, a],
        }),
        (Some(a), Some(b), None) => Some(Header {
            n: 2,
            members: [a, b, a],
        }),
        (Some(a), Some(b), Some(c)) => Some(Header {
            n: 3,
            members: [a, b, c],
        }),
        _ => None,
    }
}

fn has_other_sizes(header: &Header, size: u32) -> bool
    requires few { header.now.n ≤ 3 }
    requires positive { 0 < size }
    requires whole { size % 512 ≡ 0 }
    requires most { size ≤ BLOCK_SIZE_MAX }
    ensures { result ≡ not (bytes_eq (map (λ m. m.size) (take header.now.n header.now.members)) (split_sizes size)) }
{
    let [a, b, c] = &header.members;
    let sizes = [a.size, b.size, c.size];
    let wanted = split(size);
    &sizes[..header.n as usize] != &wanted.sizes[..wanted.n as usize]
}
