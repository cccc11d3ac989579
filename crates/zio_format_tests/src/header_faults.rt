ghost use Rattle.std.specs.Prelude.{◌<◌, IsTrue};
ghost use Rattle.zio_blkptr.specs.Pointers.{valid};

use zio_blkptr::{Bp, SumKind};
use zio_gang::{Header, HeaderFault, header_decode, header_encode};
use zio_types::Place;

const PLACE: Place = Place {
    top: 3,
    sector: 5,
    sectors: 1,
};

const NOWHERE: Place = Place {
    top: 0,
    sector: 0,
    sectors: 0,
};

// A body of 512 bytes.
fn member(top: u32, sector: u64) -> Bp
    requires top { top < 8 }
    requires sector { sector < 128 }
    ensures { IsTrue (valid result) }
{
    let place = Place {
        top,
        sector,
        sectors: 1,
    };
    Bp {
        count: 1,
        places: [place, NOWHERE, NOWHERE],
        gang: false,
        size: 512,
        sum: SumKind::Fletcher4,
        birth: 9,
        words: [1, 2, 3, 4],
    }
}

// A body of 512 bytes without a checksum.
fn bare_member(sector: u64) -> Bp
    requires { sector < 128 }
    ensures { IsTrue (valid result) }
{
    let place = Place {
        top: 0,
        sector,
        sectors: 1,
    };
    Bp {
        count: 1,
        places: [place, NOWHERE, NOWHERE],
        gang: false,
        size: 512,
        sum: SumKind::Off,
        birth: 1,
        words: [0; 4],
    }
}

const WORKED_SUM: [u8; 32] = [
    0x9d, 0x36, 0xda, 0x55, 0xd3, 0x7c, 0xba, 0x2b, 0x2f, 0x5f, 0xae, 0x84, 0x37, 0x55, 0x60, 0x20,
    0x85, 0xbf, 0x1f, 0x4a, 0x1e, 0x7f, 0xfb, 0x42, 0xc8, 0x91, 0xf9, 0xbf, 0x78, 0x87, 0x56, 0x3c,
];

// What python3 hashlib gives of the header's first 480 bytes and the little-endian words 3, 2560, 9 and 0.
const SUM: [u8; 32] = [
    0x9c, 0x2c, 0xec, 0xd5, 0xb0, 0xba, 0x7b, 0x0a, 0x1c, 0xec, 0xba, 0xad, 0xbb, 0x05, 0x12, 0xb0,
    0x87, 0x82, 0xfb, 0x7c, 0x3a, 0x26, 0x2c, 0xe8, 0x0b, 0xce, 0xc0, 0x61, 0xf5, 0x8e, 0x08, 0x5c,
];

// "Worked gang header" of docs/FORMATS.md, whose sum python3 hashlib gives too.
#[test]
fn the_worked_header_is_written(rt: HostRuntime) {
    let place = Place {
        top: 0,
        sector: 3,
        sectors: 1,
    };
    let members = [Some(bare_member(9)), Some(bare_member(10)), None];
    let bytes = header_encode(&members, &place, 1);
    let second = [1, 0, 0, 0, 0, 0, 0, 0, 10, 0, 0, 0, 0, 0, 0, 0];
    assert_eq!(rt; &bytes[128..144], second.as_slice());
    let magic = [0x11, 0x7a, 0x0c, 0xb1, 0x7a, 0xda, 0x10, 0x02];
    assert_eq!(rt; &bytes[472..480], magic.as_slice());
    assert_eq!(rt; &bytes[480..], WORKED_SUM.as_slice());
    let copied_to = Place { sector: 9, ..place };
    assert_eq!(rt;
        header_decode(&bytes, &copied_to, 1, 1024),
        Err(HeaderFault::Sum)
    );
}

#[test]
fn the_sum_is_over_the_place_in_bytes_and_the_birth(rt: HostRuntime) {
    let members = [Some(member(1, 32)), Some(member(0, 7)), None];
    let bytes = header_encode(&members, &PLACE, 9);
    assert_eq!(rt;
        &bytes[472..480],
        [0x11, 0x7a, 0x0c, 0xb1, 0x7a, 0xda, 0x10, 0x02].as_slice()
    );
    assert_eq!(rt; &bytes[480..], SUM.as_slice());
}

#[test]
fn a_header_is_good_for_its_place_and_birth_alone(rt: HostRuntime) {
    let members = [Some(member(1, 32)), Some(member(0, 7)), None];
    let bytes = header_encode(&members, &PLACE, 9);
    let header = Header {
        n: 2,
        members: [member(1, 32), member(0, 7), member(1, 32)],
    };
    assert_eq!(rt; header_decode(&bytes, &PLACE, 9, 1024), Ok(header));
    let beside = Place { sector: 6, ..PLACE };
    assert_eq!(rt;
        header_decode(&bytes, &beside, 9, 1024),
        Err(HeaderFault::Sum)
    );
    let other_top = Place { top: 2, ..PLACE };
    assert_eq!(rt;
        header_decode(&bytes, &other_top, 9, 1024),
        Err(HeaderFault::Sum)
    );
    assert_eq!(rt;
        header_decode(&bytes, &PLACE, 8, 1024),
        Err(HeaderFault::Sum)
    );
    assert_eq!(rt;
        header_decode(&bytes, &PLACE, 9, 512),
        Err(HeaderFault::Sizes)
    );
}

#[test]
fn members_stand_from_the_front(rt: HostRuntime) {
    let members = [Some(member(1, 32)), None, Some(member(0, 7))];
    let bytes = header_encode(&members, &PLACE, 9);
    assert_eq!(rt;
        header_decode(&bytes, &PLACE, 9, 1024),
        Err(HeaderFault::Member)
    );
}

#[test]
fn a_fault_in_front_is_told_first(rt: HostRuntime) {
    let mut bytes = header_encode(&[None, None, None], &PLACE, 9);
    assert_eq!(rt;
        header_decode(&bytes, &PLACE, 9, 512),
        Err(HeaderFault::Member)
    );
    bytes[400] = 1;
    assert_eq!(rt;
        header_decode(&bytes, &PLACE, 9, 512),
        Err(HeaderFault::Sum)
    );
    bytes[472] = 0;
    assert_eq!(rt;
        header_decode(&bytes, &PLACE, 9, 512),
        Err(HeaderFault::Magic)
    );
}
