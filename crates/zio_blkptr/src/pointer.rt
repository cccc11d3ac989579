ghost use Rattle.std.specs.Prelude.{◌≡◌, ◌^◌, ◌<◌, length};
ghost use Rattle.std.specs.List.{list_all};
ghost use Rattle.zio_blkptr.specs.Pointers.{valid, is_present, is_absent, is_block_size, is_rounding_of};

use thiserror::Error;
use zio_types::{COPIES_MAX, Place, SECTOR_SIZE};

/// The largest block, in bytes.
pub const BLOCK_SIZE_MAX: u32 = 1_048_576;

/// A place's top is below this.
pub const TOP_END: u32 = 1 << 24;

/// A place's first sector is below this.
pub const SECTOR_END: u64 = 1 << 48;

/// How a block's checksum is computed.
#[derive(Clone, Copy, Debug, PartialEq, Eq)]
pub enum SumKind {
    /// No checksum: any bytes are good.
    Off,
    /// The sums of Fletcher over 32-bit words.
    Fletcher4,
    /// The digest of FIPS 180-4.
    Sha256,
}

/// A pointer to a block.
#[derive(Clone, Copy, Debug, PartialEq, Eq)]
pub struct Bp {
    /// How many places there are, one to three.
    pub count: u32,
    /// The places of its copies, all zero from `count` on. The sectors of each are rounded up by themselves.
    pub places: [Place; 3],
    /// The places hold gang headers, and not the block's bytes.
    pub gang: bool,
    /// The block's size in bytes.
    pub size: u32,
    pub sum: SumKind,
    /// The number of the batch that wrote the block, or what a claimed pointer says.
    pub birth: u64,
    /// The checksum.
    pub words: [u64; 4],
}

/// Why bytes aren't a pointer, from the fault that is looked for first.
#[derive(Clone, Copy, Debug, PartialEq, Eq, Error)]
pub enum BpFault {
    /// The byte order isn't little-endian.
    #[error("the byte order isn't little-endian")]
    Order,
    /// A field has another than its fixed value.
    #[error("a field hasn't its fixed value")]
    Field,
    /// The logical and the physical size differ, or are above `BLOCK_SIZE_MAX`.
    #[error("the sizes differ or are too large")]
    Size,
    /// The places don't stand from the front, or one of them isn't a place of this block.
    #[error("a place is wrong")]
    Dva,
}

/// Whether a pointer can be spelled: it has one to `COPIES_MAX` places in range and nothing behind them, a
/// size of whole sectors up to `BLOCK_SIZE_MAX`, and a birth. Each place has the sectors of the block, or the
/// one of a gang's header, rounded up to a multiple of 1, 2, 4 or 8, whatever the others are rounded to.
pub fn is_valid(bp: &Bp) -> bool
    ensures { result ≡ valid bp.now }
{
    if bp.count < 1 || bp.count > COPIES_MAX {
        return false;
    }
    let (present, absent) = bp.places.split_at(bp.count as usize);
    are_present(bp, present) && are_absent(absent) && is_block_size(bp.size) && bp.birth >= 1
}

fn are_present(bp: &Bp, places: &[Place]) -> bool
    ensures { result ≡ list_all (is_present bp.now) places.now }
{
    places.iter().all(|p| is_present(bp, p))
}

fn are_absent(places: &[Place]) -> bool
    ensures { result ≡ list_all is_absent places.now }
{
    places.iter().all(is_absent)
}

fn is_present(bp: &Bp, p: &Place) -> bool
    ensures { result ≡ is_present bp.now p.now }
{
    let stored = if bp.gang { 1 } else { bp.size / SECTOR_SIZE };
    is_rounding_of(u64::from(p.sectors), u64::from(stored))
        && p.top < TOP_END
        && p.sector < SECTOR_END
}

/// Whether so many sectors are `stored` ones, rounded up to a multiple of 1, 2, 4 or 8.
pub(crate) fn is_rounding_of(sectors: u64, stored: u64) -> bool
    requires { stored < 2 ^ 32 }
    ensures { result ≡ is_rounding_of sectors stored }
{
    sectors == stored
        || sectors == stored.div_ceil(2) * 2
        || sectors == stored.div_ceil(4) * 4
        || sectors == stored.div_ceil(8) * 8
}

fn is_absent(p: &Place) -> bool
    ensures { result ≡ is_absent p.now }
{
    p.sectors == 0 && p.top == 0 && p.sector == 0
}

fn is_block_size(size: u32) -> bool
    ensures { result ≡ is_block_size size }
{
    size % SECTOR_SIZE == 0 && size >= SECTOR_SIZE && size <= BLOCK_SIZE_MAX
}
