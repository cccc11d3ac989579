ghost use Rattle.std.specs.Prelude.{◌≡◌, ◌+◌, ◌<◌, IsTrue};
ghost use Rattle.zio_blkptr.specs.Pointers.{valid};

use std::test::Fail;
use zio_blkptr::{Bp, SumKind};
use zio_gang::{Tree, header_encode};
use zio_types::{Path, Place};

const NOWHERE: Place = Place {
    top: 0,
    sector: 0,
    sectors: 0,
};

const ROOT: Path = Path {
    len: 0,
    steps: [0; 8],
};

fn sector_at(sector: u64) -> Place
    ensures top { result.top ≡ 0 }
    ensures sector { result.sector ≡ sector }
    ensures sectors { result.sectors ≡ 1 }
{
    Place {
        top: 0,
        sector,
        sectors: 1,
    }
}

// A body of 512 bytes in one copy.
fn body(sector: u64) -> Bp
    requires { sector < 128 }
    ensures { IsTrue (valid result) }
{
    Bp {
        count: 1,
        places: [sector_at(sector), NOWHERE, NOWHERE],
        gang: false,
        size: 512,
        sum: SumKind::Off,
        birth: 1,
        words: [0; 4],
    }
}

// A gang of 2048 bytes, whose header stands in this sector and the one after the next.
fn gang(sector: u64) -> Bp
    requires { sector < 126 }
    ensures { IsTrue (valid result) }
{
    Bp {
        count: 2,
        places: [sector_at(sector), sector_at(sector + 2), NOWHERE],
        gang: true,
        size: 2048,
        sum: SumKind::Off,
        birth: 1,
        words: [0; 4],
    }
}

fn outer_header() -> [u8; 512] {
    let members = [Some(gang(5)), Some(body(9)), Some(body(11))];
    header_encode(&members, &sector_at(1), 1)
}

fn inner_header() -> [u8; 512] {
    let members = [Some(body(13)), Some(body(15)), None];
    header_encode(&members, &sector_at(5), 1)
}

#[test]
fn places_are_those_of_nested_gangs_too(rt: HostRuntime) -> Result<(), Fail> {
    let mut tree = Tree::plain(rt.alloc(), gang(1));
    tree.add_head(ROOT, outer_header())?;
    let nested = Path {
        len: 1,
        steps: [0; 8],
    };
    tree.add_head(nested, inner_header())?;
    let places = tree.places(rt.alloc())?;
    let sectors = [
        sector_at(1),
        sector_at(3),
        sector_at(5),
        sector_at(7),
        sector_at(9),
        sector_at(11),
        sector_at(13),
        sector_at(15),
    ];
    assert_eq!(rt; places.as_slice(), sectors.as_slice());
    Ok(())
}

#[test]
fn a_header_is_found_at_its_own_path(rt: HostRuntime) -> Result<(), Fail> {
    let bytes = header_encode(&[Some(body(9)), None, None], &sector_at(1), 1);
    let mut tree = Tree::plain(rt.alloc(), gang(1));
    tree.add_head(ROOT, bytes)?;
    assert_eq!(rt; tree.head(&ROOT).copied(), Some(bytes));
    let nested = Path {
        len: 1,
        steps: [0; 8],
    };
    assert!(rt; tree.head(&nested).is_none());
    Ok(())
}

#[test]
fn a_plain_block_has_the_places_of_its_pointer(rt: HostRuntime) -> Result<(), Fail> {
    let tree = Tree::plain(rt.alloc(), body(9));
    let places = tree.places(rt.alloc())?;
    assert_eq!(rt; places.as_slice(), [sector_at(9)].as_slice());
    Ok(())
}
