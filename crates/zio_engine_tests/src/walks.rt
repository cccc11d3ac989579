ghost use Rattle.std.specs.Prelude.{◌≡◌, ◌<◌, IsTrue};
ghost use Rattle.zio_blkptr.specs.Pointers.{valid};

use std::test::Fail;
use zio_blkptr::{Bp, SumKind};
use zio_parts::{HeadWalk, TreeRead, TreeStep, WalkStep};
use zio_types::{Errno, Path, Place};

const NOWHERE: Place = Place {
    top: 0,
    sector: 0,
    sectors: 0,
};

const ROOT: Path = Path {
    len: 0,
    steps: [0; 8],
};

fn sector_at(sector: u64) -> Place
    ensures top { result.top ≡ 0 }
    ensures sector { result.sector ≡ sector }
    ensures sectors { result.sectors ≡ 1 }
{
    Place {
        top: 0,
        sector,
        sectors: 1,
    }
}

/// A block in one copy: 512 bytes, or the header of a gang.
fn block(sector: u64, gang: bool) -> Bp
    requires { sector < 128 }
    ensures { IsTrue (valid result) }
{
    Bp {
        count: 1,
        places: [sector_at(sector), NOWHERE, NOWHERE],
        gang,
        size: 512,
        sum: SumKind::Off,
        birth: 1,
        words: [0; 4],
    }
}

/// A gang that stands below eight others is a checksum error: its header isn't read, and no body is.
#[test]
fn a_header_below_eight_others_is_not_read(rt: HostRuntime) -> Result<(), Fail> {
    let walk = HeadWalk::kept(rt.alloc(), 0, ROOT, block(5, true));
    let step = walk.next();
    assert!(rt; matches!(step, WalkStep::End), "its header isn't read");
    let Ok(walked) = walk.into_walked(rt.alloc()) else {
        panic!(rt; "there is memory");
    };
    assert!(rt; walked.error() == Some(Errno::Cksum), "a checksum error");
    let mut read = TreeRead::new(rt.alloc(), block(5, true));
    read.hand_out_walk();
    read.hear_walk(walked);
    let step = read.next();
    assert!(rt; matches!(step, TreeStep::End), "no body is read");
    let Ok(found) = read.into_found(rt.alloc()) else {
        panic!(rt; "there is memory");
    };
    match found {
        Ok(_) => panic!(rt; "a header failed"),
        Err(error) => assert!(rt; error == Errno::Cksum, "the header's error"),
    }
    Ok(())
}
