//! The parts of a pointer's words, by the names that docs/FORMATS.md, "Block pointer", gives them.
ghost use Rattle.std.specs.Prelude.{◌≡◌, ◌/◌, ◌^◌};
ghost use Rattle.zio_blkptr.specs.Faults.{above_top, bits, byte_order, checksum, compression, content_type, dedup, embedded, encrypted, gang_bit, grid, level, logical_size, physical_size, place_sector, place_sectors};

use crate::packing::bits;

/// Compression off.
pub(crate) const COMPRESSION_OFF: u64 = 2;

/// The byte order with the lowest byte first.
pub(crate) const LITTLE_ENDIAN: u64 = 1;

// ---- word 6, the properties

/// In sectors less 1.
pub(crate) fn logical_size(properties: u64) -> u64
    ensures { result ≡ logical_size properties }
{
    bits(properties, 0, 16)
}

/// In sectors less 1.
pub(crate) fn physical_size(properties: u64) -> u64
    ensures { result ≡ physical_size properties }
{
    bits(properties, 16, 16)
}

pub(crate) fn compression(properties: u64) -> u64
    ensures { result ≡ compression properties }
{
    bits(properties, 32, 7)
}

pub(crate) fn embedded(properties: u64) -> u64
    ensures { result ≡ embedded properties }
{
    bits(properties, 39, 1)
}

/// The number of the checksum kind.
pub(crate) fn checksum(properties: u64) -> u64
    ensures { result ≡ checksum properties }
{
    bits(properties, 40, 8)
}

pub(crate) fn content_type(properties: u64) -> u64
    ensures { result ≡ content_type properties }
{
    bits(properties, 48, 8)
}

pub(crate) fn level(properties: u64) -> u64
    ensures { result ≡ level properties }
{
    bits(properties, 56, 5)
}

pub(crate) fn encrypted(properties: u64) -> u64
    ensures { result ≡ encrypted properties }
{
    bits(properties, 61, 1)
}

pub(crate) fn dedup(properties: u64) -> u64
    ensures { result ≡ dedup properties }
{
    bits(properties, 62, 1)
}

pub(crate) fn byte_order(properties: u64) -> u64
    ensures { result ≡ byte_order properties }
{
    bits(properties, 63, 1)
}

// ---- the first word of a place

pub(crate) fn place_sectors(first: u64) -> u64
    ensures { result ≡ place_sectors first }
{
    bits(first, 0, 24)
}

pub(crate) fn grid(first: u64) -> u64
    ensures { result ≡ grid first }
{
    bits(first, 24, 8)
}

pub(crate) fn place_top(first: u64) -> u64
    ensures { result ≡ bits first 32 24 }
{
    bits(first, 32, 24)
}

/// The bits that no field has.
pub(crate) fn above_top(first: u64) -> u64
    ensures { result ≡ above_top first }
{
    bits(first, 56, 8)
}

// ---- its second word

pub(crate) fn place_sector(second: u64) -> u64
    ensures { result ≡ place_sector second }
{
    bits(second, 0, 63)
}

pub(crate) fn gang_bit(second: u64) -> u64
    ensures bit { result ≡ gang_bit second }
    ensures highest { result ≡ second / 2 ^ 63 }
{
    second >> 63
}
