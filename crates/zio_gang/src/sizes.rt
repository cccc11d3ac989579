ghost use Rattle.std.specs.Prelude.{◌≡◌, ◌%◌, ◌<◌, ◌≤◌, take};
ghost use Rattle.zio_types.specs.Filled.{IsFilled};
ghost use Rattle.zio_cksum.specs.Headers.{rounded_up, split_sizes};

use crate::header::Split;
use zio_blkptr::BLOCK_SIZE_MAX;
use zio_types::SECTOR_SIZE;

/// The most levels of headers over a part of a block.
pub const LEVELS_MAX: u32 = 8;

/// The sizes of the members that a block of so many bytes is split into: a third, half of the rest and the rest, each
/// rounded down and then up to whole sectors. Members of nothing are left out.
pub fn split(size: u32) -> Split
    requires positive { 0 < size }
    requires whole { size % 512 ≡ 0 }
    requires most { size ≤ BLOCK_SIZE_MAX }
    ensures sizes { take result.n result.sizes ≡ split_sizes size }
    ensures rest { IsFilled 0 3 result.n result.sizes }
    ensures least { 1 ≤ result.n }
{
    let first = rounded_up(size / 3);
    let second = rounded_up((size - first) / 2);
    let third = rounded_up(size - first - second);
    let n = if second == 0 {
        1
    } else if third == 0 {
        2
    } else {
        3
    };
    Split {
        n,
        sizes: [first, second, third],
    }
}

fn rounded_up(size: u32) -> u32
    requires { size ≤ BLOCK_SIZE_MAX }
    ensures { result ≡ rounded_up size }
{
    size.div_ceil(SECTOR_SIZE) * SECTOR_SIZE
}
