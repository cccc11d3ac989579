ghost use Rattle.std.specs.Prelude.{◌≡◌, ◌^◌, ◌<◌, ◌≤◌, Some, None, Err, MatchOption, MatchResult, IsOk, length, take_while};
ghost use Rattle.zio_blkptr.specs.Pointers.{fields, has_sectors, place_field, pointer_of, sum_of_number};
ghost use Rattle.zio_blkptr.specs.Faults.{first_fault, has_order_fault, has_field_fault, has_size_fault, has_dva_fault, is_sum_number, has_fixed_properties, are_fixed_words, has_places_in_front, are_good_places, has_place, is_good_place, is_place_of, is_no_place, sectors_at};

use crate::packing::word_of;
use crate::parts::{
    COMPRESSION_OFF, LITTLE_ENDIAN, above_top, byte_order, checksum, compression, content_type,
    dedup, embedded, encrypted, gang_bit, grid, level, logical_size, physical_size, place_sector,
    place_sectors, place_top,
};
use crate::pointer::{BLOCK_SIZE_MAX, Bp, BpFault, SECTOR_END, SumKind, is_rounding_of};
use crate::spelling::sum_number;
use zio_types::{Place, SECTOR_SIZE};

/// The valid pointer that the bytes spell. Where they spell none, the first of their faults in the order of
/// `BpFault`: docs/FORMATS.md, "Block pointer".
pub fn decode(bytes: &[u8; 128]) -> Result<Bp, BpFault>
    ensures pointer { MatchResult result
        (λ bp. pointer_of bytes.now ≡ Some bp)
        (λ f. pointer_of bytes.now ≡ None) }
    ensures fault { MatchOption (first_fault bytes.now) (IsOk result) (λ f. result ≡ Err f) }
{
    match first_fault(bytes) {
        Some(fault) => Err(fault),
        None => Ok(fields(bytes)),
    }
}

fn first_fault(bytes: &[u8; 128]) -> Option<BpFault>
    ensures { result ≡ first_fault bytes.now }
{
    if has_order_fault(bytes) {
        Some(BpFault::Order)
    } else if has_field_fault(bytes) {
        Some(BpFault::Field)
    } else if has_size_fault(bytes) {
        Some(BpFault::Size)
    } else if has_dva_fault(bytes) {
        Some(BpFault::Dva)
    } else {
        None
    }
}

fn has_order_fault(bytes: &[u8; 128]) -> bool
    ensures { result ≡ has_order_fault bytes.now }
{
    byte_order(word_of(bytes, 6)) != LITTLE_ENDIAN
}

fn has_field_fault(bytes: &[u8; 128]) -> bool
    ensures { result ≡ has_field_fault bytes.now }
{
    let fixed = are_fixed_words(
        word_of(bytes, 7),
        word_of(bytes, 8),
        word_of(bytes, 9),
        word_of(bytes, 10),
        word_of(bytes, 11),
    );
    !(has_fixed_properties(word_of(bytes, 6)) && fixed)
}

// Compression is off, the checksum is one of the three, and embedded, type, level, encrypted and dedup are
// zero.
fn has_fixed_properties(properties: u64) -> bool
    ensures { result ≡ has_fixed_properties properties }
{
    compression(properties) == COMPRESSION_OFF
        && embedded(properties) == 0
        && is_sum_number(checksum(properties))
        && content_type(properties) == 0
        && level(properties) == 0
        && encrypted(properties) == 0
        && dedup(properties) == 0
}

fn is_sum_number(number: u64) -> bool
    ensures { result ≡ is_sum_number number }
{
    number == sum_number(SumKind::Off)
        || number == sum_number(SumKind::Fletcher4)
        || number == sum_number(SumKind::Sha256)
}

// Three words are zero, there is a birth, and the fill is 1.
fn are_fixed_words(seven: u64, eight: u64, nine: u64, birth: u64, fill: u64) -> bool
    ensures { result ≡ are_fixed_words seven eight nine birth fill }
{
    seven == 0 && eight == 0 && nine == 0 && birth > 0 && fill == 1
}

fn has_size_fault(bytes: &[u8; 128]) -> bool
    ensures { result ≡ has_size_fault bytes.now }
{
    let properties = word_of(bytes, 6);
    let logical = logical_size(properties);
    let physical = physical_size(properties);
    !(logical == physical && (logical + 1) * u64::from(SECTOR_SIZE) <= u64::from(BLOCK_SIZE_MAX))
}

fn has_dva_fault(bytes: &[u8; 128]) -> bool
    ensures { result ≡ has_dva_fault bytes.now }
{
    !(has_places_in_front(bytes) && are_good_places(bytes))
}

fn has_places_in_front(bytes: &[u8; 128]) -> bool
    ensures { result ≡ has_places_in_front bytes.now }
{
    has_place(bytes, 0) && (has_place(bytes, 1) || !has_place(bytes, 2))
}

fn are_good_places(bytes: &[u8; 128]) -> bool
    ensures { result ≡ are_good_places bytes.now }
{
    is_good_place(bytes, 0) && is_good_place(bytes, 1) && is_good_place(bytes, 2)
}

fn has_place(bytes: &[u8; 128], i: usize) -> bool
    requires { i < 3 }
    ensures { result ≡ has_place bytes.now i }
{
    place_sectors(word_of(bytes, 2 * i)) > 0
}

fn is_good_place(bytes: &[u8; 128], i: usize) -> bool
    requires { i < 3 }
    ensures { result ≡ is_good_place bytes.now i }
{
    let first = word_of(bytes, 2 * i);
    let second = word_of(bytes, 2 * i + 1);
    if has_place(bytes, i) {
        let stored = sectors_at(second, word_of(bytes, 6));
        is_place_of(stored, gang_bit(word_of(bytes, 1)), first, second)
    } else {
        first == 0 && second == 0
    }
}

// A gang's place holds its header, and the place's own bit says whether it is one.
fn sectors_at(second: u64, properties: u64) -> u64
    ensures value { result ≡ sectors_at second properties }
    ensures few { result < 2 ^ 32 }
{
    if gang_bit(second) == 1 {
        1
    } else {
        logical_size(properties) + 1
    }
}

// The grid and the bits above the top are zero.
fn is_place_of(stored: u64, gang: u64, first: u64, second: u64) -> bool
    requires { stored < 2 ^ 32 }
    ensures { result ≡ is_place_of stored gang first second }
{
    is_rounding_of(place_sectors(first), stored)
        && grid(first) == 0
        && above_top(first) == 0
        && place_sector(second) < SECTOR_END
        && gang_bit(second) == gang
}

// ---- what the fields hold

fn fields(bytes: &[u8; 128]) -> Bp
    ensures { result ≡ fields bytes.now }
{
    let places = [
        place_field(bytes, 0),
        place_field(bytes, 1),
        place_field(bytes, 2),
    ];
    let properties = word_of(bytes, 6);
    Bp {
        count: count_present(&places),
        places,
        gang: gang_bit(word_of(bytes, 1)) == 1,
        size: (logical_size(properties) as u32 + 1) * SECTOR_SIZE,
        sum: sum_of_number(checksum(properties)),
        birth: word_of(bytes, 10),
        words: [
            word_of(bytes, 12),
            word_of(bytes, 13),
            word_of(bytes, 14),
            word_of(bytes, 15),
        ],
    }
}

// How many places there are from the front.
fn count_present(places: &[Place; 3]) -> u32
    ensures { result ≡ length (take_while has_sectors places.now) }
{
    places.iter().take_while(|p| p.sectors > 0).count() as u32
}

fn place_field(bytes: &[u8; 128], i: usize) -> Place
    requires { i < 3 }
    ensures { result ≡ place_field bytes.now i }
{
    let first = word_of(bytes, 2 * i);
    Place {
        top: place_top(first) as u32,
        sector: place_sector(word_of(bytes, 2 * i + 1)),
        sectors: place_sectors(first) as u32,
    }
}

fn sum_of_number(number: u64) -> SumKind
    ensures { result ≡ sum_of_number number }
{
    if number == sum_number(SumKind::Fletcher4) {
        SumKind::Fletcher4
    } else if number == sum_number(SumKind::Sha256) {
        SumKind::Sha256
    } else {
        SumKind::Off
    }
}
