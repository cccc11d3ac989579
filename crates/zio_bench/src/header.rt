ghost use Rattle.std.specs.Prelude.{◌<◌, IsTrue};
ghost use Rattle.std.specs.Option.{ForSome};
ghost use Rattle.zio_blkptr.specs.Pointers.{valid};

use anyhow::{Result, bail};
use std::alloc::Global;
use zio_blkptr::{BLOCK_SIZE_MAX, Bp, SumKind, is_valid};
use zio_gang::{Split, header_decode, header_encode, split};
use zio_types::{Place, SECTOR_SIZE};

const AT: Place = Place {
    top: 0,
    sector: 0,
    sectors: 1,
};

/// Reads the header of a gang block of this size so many times. The answer is how often it was read.
pub fn read(_alloc: Global, size: u32, times: u32) -> Result<u32> {
    if size == 0 || size % SECTOR_SIZE != 0 || size > BLOCK_SIZE_MAX {
        bail!("a size of whole sectors");
    }
    let sizes = split(size);
    let members = [member(&sizes, 0), member(&sizes, 1), member(&sizes, 2)];
    let header = header_encode(&members, &AT, 1);
    let mut read = 0u32;
    for _ in 0..times {
        if header_decode(&header, &AT, 1, size).is_ok() {
            read = read.saturating_add(1);
        }
    }
    Ok(read)
}

fn member(sizes: &Split, i: usize) -> Option<Bp>
    requires { i < 3 }
    ensures { ForSome result (λ bp. IsTrue (valid bp)) }
{
    let size = sizes.sizes[i];
    let no_place = Place {
        top: 0,
        sector: 0,
        sectors: 0,
    };
    let bp = Bp {
        count: 1,
        places: [
            Place {
                top: 0,
                sector: 8,
                sectors: size / SECTOR_SIZE,
            },
            no_place,
            no_place,
        ],
        gang: false,
        size,
        sum: SumKind::Off,
        birth: 1,
        words: [0; 4],
    };
    if is_valid(&bp) { Some(bp) } else { None }
}
