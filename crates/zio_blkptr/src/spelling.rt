ghost use Rattle.std.specs.Prelude.{◌≡◌, ◌+◌, ◌*◌, ◌^◌, ◌<◌, ◌==◌, IfOk, IsTrue, if◌then◌else◌};
ghost use Rattle.hex.specs.Hex.{encode_lower};
ghost use Rattle.zio_blkptr.specs.Pointers.{valid, is_block_size, spelling, bit, sum_number, properties};

use crate::packing::bytes_of;
use crate::parts::{COMPRESSION_OFF, LITTLE_ENDIAN};
use crate::pointer::{Bp, SECTOR_END, SumKind};
use std::alloc::Global;
use zio_types::{NoMemory, Place, SECTOR_SIZE, Text};

/// The 128 bytes that spell a valid pointer: docs/FORMATS.md, "Block pointer".
pub fn encode(bp: &Bp) -> [u8; 128]
    requires { IsTrue (valid bp.now) }
    ensures { result ≡ spelling bp.now }
{
    let [p, q, r] = &bp.places;
    let [a, b, c, d] = bp.words;
    bytes_of(&[
        first_word(p),
        second_word(bp.gang, p),
        first_word(q),
        second_word(bp.gang, q),
        first_word(r),
        second_word(bp.gang, r),
        properties(bp),
        0,
        0,
        0,
        bp.birth,
        1,
        a,
        b,
        c,
        d,
    ])
}

/// The 256 lower-case hexadecimal digits of a valid pointer's bytes.
pub fn bp_text(alloc: Global, bp: &Bp) -> Result<Text, NoMemory>
    requires { IsTrue (valid bp.now) }
    ensures { IfOk result (λ t. t ≡ encode_lower (spelling bp.now)) }
{
    Ok(Text::from_string(hex::encode(alloc, encode(bp))?))
}

fn first_word(p: &Place) -> u64
    ensures { result ≡ p.now.sectors + p.now.top * 2 ^ 32 }
{
    u64::from(p.sectors) + (u64::from(p.top) << 32)
}

// An absent place has no gang bit.
fn second_word(gang: bool, p: &Place) -> u64
    requires { p.now.sector < SECTOR_END }
    ensures { result ≡ (if p.now.sectors == 0 then p.now.sector else p.now.sector + bit gang * 2 ^ 63) }
{
    if gang && p.sectors > 0 {
        p.sector + (1 << 63)
    } else {
        p.sector
    }
}

// All other parts are zero.
fn properties(bp: &Bp) -> u64
    requires { IsTrue (is_block_size bp.now.size) }
    ensures { result ≡ properties bp.now }
{
    let logical_size = u64::from(bp.size / SECTOR_SIZE - 1);
    let physical_size = logical_size;
    let checksum = sum_number(bp.sum);
    logical_size
        + (physical_size << 16)
        + (COMPRESSION_OFF << 32)
        + (checksum << 40)
        + (LITTLE_ENDIAN << 63)
}

/// The number of a checksum kind.
pub(crate) fn sum_number(sum: SumKind) -> u64
    ensures { result ≡ sum_number sum }
{
    match sum {
        SumKind::Off => 2,
        SumKind::Fletcher4 => 7,
        SumKind::Sha256 => 8,
    }
}
