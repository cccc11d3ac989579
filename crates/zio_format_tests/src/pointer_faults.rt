ghost use Rattle.std.specs.Prelude.{◌<◌, ◌^◌};

use zio_blkptr::{Bp, BpFault, SumKind, decode};
use zio_types::Place;

/// Two words of a place.
type Words = [u64; 2];

const ABSENT: Words = [0, 0];

const GANG: u64 = 1 << 63;

// The bytes of words, the lowest of each first.
fn bytes_of(words: &[u64; 16]) -> [u8; 128] {
    let mut bytes = [0; 128];
    for i in 0..16 {
        bytes[8 * i..8 * i + 8].copy_from_slice(&words[i].to_le_bytes());
    }
    bytes
}

// So many sectors at sector 4096 of top 0.
fn place(sectors: u64) -> Words {
    [sectors, 4096]
}

fn gang_place(sectors: u64) -> Words {
    [sectors, GANG + 4096]
}

// The bytes of a pointer without a checksum, born with batch 1. Its size is in sectors less 1.
fn pointer(size: u16, places: [Words; 3]) -> [u8; 128] {
    with_sizes(size, size, places)
}

fn with_sizes(logical: u16, physical: u16, places: [Words; 3]) -> [u8; 128] {
    let [p, q, r] = places;
    let properties = 0x8000_0202_0000_0000 + (u64::from(physical) << 16) + u64::from(logical);
    bytes_of(&[
        p[0], p[1], q[0], q[1], r[0], r[1], properties, 0, 0, 0, 1, 1, 0, 0, 0, 0,
    ])
}

#[test]
fn fletcher4_is_number_seven(rt: HostRuntime) {
    let mut bytes = pointer(0, [place(1), ABSENT, ABSENT]);
    bytes[53] = 7;
    let place = Place {
        top: 0,
        sector: 4096,
        sectors: 1,
    };
    let none = Place {
        top: 0,
        sector: 0,
        sectors: 0,
    };
    let bp = Bp {
        count: 1,
        places: [place, none, none],
        gang: false,
        size: 512,
        sum: SumKind::Fletcher4,
        birth: 1,
        words: [0; 4],
    };
    assert_eq!(rt; decode(&bytes), Ok(bp));
}

// Each step changes one byte more, whose fault is looked for before those of the steps above.
#[test]
fn earlier_fault_hides_later_ones(rt: HostRuntime) {
    let mut bytes = pointer(0, [place(1), ABSENT, ABSENT]);
    bytes[3] = 1;
    assert_eq!(rt; decode(&bytes), Err(BpFault::Dva), "grid");
    bytes[50] = 1;
    assert_eq!(rt; decode(&bytes), Err(BpFault::Size), "other physical size");
    bytes[80] = 0;
    assert_eq!(rt; decode(&bytes), Err(BpFault::Field), "no birth");
    bytes[55] = 0;
    assert_eq!(rt; decode(&bytes), Err(BpFault::Order), "high byte first");
}

// A size field and the sectors of the one place.
const SIZES: [(u16, u64, Option<BpFault>); 12] = [
    (255, 256, None),
    // 131,584 bytes, rounded up four ways
    (256, 257, None),
    (256, 258, None),
    (256, 260, None),
    (256, 264, None),
    (256, 272, Some(BpFault::Dva)),
    (256, 256, Some(BpFault::Dva)),
    // 1,048,576 bytes
    (2047, 2048, None),
    (2047, 2056, Some(BpFault::Dva)),
    (2048, 2049, Some(BpFault::Size)),
    (2048, 2056, Some(BpFault::Size)),
    (65535, 65536, Some(BpFault::Size)),
];

#[test]
fn blocks_reach_a_mebibyte(rt: HostRuntime) {
    for &(size, sectors, fault) in &SIZES {
        let bytes = pointer(size, [place(sectors), ABSENT, ABSENT]);
        assert_eq!(rt; decode(&bytes).err(), fault, "{sectors} sectors");
    }
    let bytes = with_sizes(1, 0, [place(1), ABSENT, ABSENT]);
    assert_eq!(rt; decode(&bytes), Err(BpFault::Size), "two sizes");
    let bytes = with_sizes(0, 2048, [place(1), ABSENT, ABSENT]);
    assert_eq!(rt;
        decode(&bytes),
        Err(BpFault::Size),
        "a physical size that is too large"
    );
}

// A size field, and the sectors of three places.
const ROUNDINGS: [(u16, [u64; 3], Option<BpFault>); 18] = [
    (0, [1, 1, 1], None),
    (0, [8, 2, 4], None),
    (0, [4, 1, 8], None),
    (0, [3, 1, 1], Some(BpFault::Dva)),
    (0, [1, 5, 1], Some(BpFault::Dva)),
    (0, [1, 1, 16], Some(BpFault::Dva)),
    // 1,536 bytes
    (2, [3, 4, 8], None),
    (2, [8, 3, 3], None),
    (2, [5, 4, 4], Some(BpFault::Dva)),
    (2, [4, 6, 4], Some(BpFault::Dva)),
    (2, [4, 4, 2], Some(BpFault::Dva)),
    (2, [16, 4, 4], Some(BpFault::Dva)),
    // 4,608 bytes, where 1, 2, 4 and 8 give 9, 10, 12 and 16
    (8, [9, 10, 12], None),
    (8, [16, 9, 16], None),
    (8, [11, 9, 9], Some(BpFault::Dva)),
    (8, [8, 9, 9], Some(BpFault::Dva)),
    (8, [9, 14, 9], Some(BpFault::Dva)),
    (8, [9, 9, 24], Some(BpFault::Dva)),
];

#[test]
fn each_place_is_rounded_up_by_itself(rt: HostRuntime) {
    for &(size, [a, b, c], fault) in &ROUNDINGS {
        let bytes = pointer(size, [place(a), place(b), place(c)]);
        assert_eq!(rt; decode(&bytes).err(), fault, "{a}, {b} and {c} sectors");
    }
}

// A size field, and the sectors of three places of a gang.
const GANGS: [(u16, [u64; 3], Option<BpFault>); 8] = [
    (1, [1, 1, 1], None),
    (1, [8, 4, 2], None),
    (2047, [1, 8, 1], None),
    (1, [3, 1, 1], Some(BpFault::Dva)),
    (1, [1, 16, 1], Some(BpFault::Dva)),
    (1, [1, 1, 6], Some(BpFault::Dva)),
    // as many as the block has
    (2, [3, 3, 3], Some(BpFault::Dva)),
    (2047, [2048, 2048, 2048], Some(BpFault::Dva)),
];

#[test]
fn gangs_have_the_sectors_of_a_header(rt: HostRuntime) {
    for &(size, [a, b, c], fault) in &GANGS {
        let bytes = pointer(size, [gang_place(a), gang_place(b), gang_place(c)]);
        assert_eq!(rt; decode(&bytes).err(), fault, "{a}, {b} and {c} sectors");
    }
}

// Places of a pointer to 512 bytes.
const PLACES: [(&str, [Words; 3], Option<BpFault>); 17] = [
    (
        "the last sector",
        [[1, (1 << 48) - 1], ABSENT, ABSENT],
        None,
    ),
    (
        "a sector of 49 bits",
        [[1, 1 << 48], ABSENT, ABSENT],
        Some(BpFault::Dva),
    ),
    ("bit 62", [[1, 1 << 62], ABSENT, ABSENT], Some(BpFault::Dva)),
    (
        "the last top",
        [[1 + (((1 << 24) - 1) << 32), 0], ABSENT, ABSENT],
        None,
    ),
    (
        "a top of 25 bits",
        [[1 + (1 << 56), 0], ABSENT, ABSENT],
        Some(BpFault::Dva),
    ),
    (
        "bit 63",
        [[1 + (1 << 63), 0], ABSENT, ABSENT],
        Some(BpFault::Dva),
    ),
    (
        "grid",
        [[1 + (1 << 24), 0], ABSENT, ABSENT],
        Some(BpFault::Dva),
    ),
    (
        "grid of the third",
        [[1, 0], [1, 0], [1 + (1 << 31), 0]],
        Some(BpFault::Dva),
    ),
    ("no place", [ABSENT, ABSENT, ABSENT], Some(BpFault::Dva)),
    (
        "no first place",
        [ABSENT, [1, 0], ABSENT],
        Some(BpFault::Dva),
    ),
    (
        "no second place",
        [[1, 0], ABSENT, [1, 0]],
        Some(BpFault::Dva),
    ),
    (
        "absent place has a top",
        [[1, 0], [1 << 32, 0], ABSENT],
        Some(BpFault::Dva),
    ),
    (
        "absent place has a sector",
        [[1, 0], ABSENT, [0, 1]],
        Some(BpFault::Dva),
    ),
    (
        "absent place has a gang bit",
        [[1, GANG], [0, GANG], ABSENT],
        Some(BpFault::Dva),
    ),
    (
        "second place alone is a gang's",
        [[1, 0], [1, GANG], ABSENT],
        Some(BpFault::Dva),
    ),
    (
        "third place is no gang's",
        [[8, GANG], [1, GANG], [1, 0]],
        Some(BpFault::Dva),
    ),
    ("each is a gang's", [[8, GANG], [1, GANG], [4, GANG]], None),
];

#[test]
fn wrong_places_are_told(rt: HostRuntime) {
    for (what, places, fault) in &PLACES {
        assert_eq!(rt; decode(&pointer(0, *places)).err(), *fault, "{what}");
    }
}
