//! A block of a sector on a mirror of two is scrubbed: both copies are read once, and a bad one is written.

ghost use Rattle.std.specs.Prelude.{◌≡◌, ◌∷◌, ◌<◌, [], IfOk, length, map};
ghost use Rattle.std.specs.List.{AllByRecursion};
ghost use Rattle.zio_faults.specs.Hits.{RowFits};
ghost use Rattle.zio_outside.specs.Memory.{disk_image};

use std::alloc::Global;
use std::process::Abort;
use std::test::Fail;
use zio_blkptr::{Bp, SumKind};
use zio_disks::Setting;
use zio_faults::{FaultKind, FaultTable, On, Row};
use zio_gang::{Bound, Tree};
use zio_outside::MemDisk;
use zio_script::Name;
use zio_scrub::{ScrubEnd, scrub};
use zio_types::{List, Place, Top};

const LEAF_LEN: usize = 65536;

const BLOCK: [u8; 512] = [0x11; 512];

/// Its SHA-256 digest as four words, by another program.
const DIGEST: [u64; 4] = [
    0x981b8ac0e448c2a0,
    0x1df760648f17ba02,
    0x7d1ed0a9ada17aa4,
    0xcc74b9694b45d4ad,
];

const EMPTY: [u8; 512] = [0; 512];

const PLACE: Place = Place {
    top: 0,
    sector: 3,
    sectors: 1,
};

const NEXT_PLACE: Place = Place {
    top: 0,
    sector: 4,
    sectors: 1,
};

const NO_PLACE: Place = Place {
    top: 0,
    sector: 0,
    sectors: 0,
};

const POINTER: Bp = Bp {
    count: 1,
    places: [PLACE, NO_PLACE, NO_PLACE],
    gang: false,
    size: 512,
    sum: SumKind::Sha256,
    birth: 1,
    words: DIGEST,
};

/// The same bytes in the sector behind.
const NEXT_POINTER: Bp = Bp {
    count: 1,
    places: [NEXT_PLACE, NO_PLACE, NO_PLACE],
    gang: false,
    size: 512,
    sum: SumKind::Sha256,
    birth: 1,
    words: DIGEST,
};

/// What stands on the leaves, a fault of the first of them, and what a scrub comes to. What is said of the leaves is said
/// in their order.
#[derive(Clone, Copy)]
struct Case {
    held: [bool; 2],
    fault: Option<(On, FaultKind)>,
    repaired: u64,
    failed: u64,
    lost: u64,
    held_after: [bool; 2],
    writes: [u64; 2],
}

/// One top of two leaves.
fn mirror(alloc: Global, fault: Option<(On, FaultKind)>) -> Result<Setting, Fail>
    ensures tops { IfOk result (λ s. s.tops ≡ record { leaves = 0 ∷ 1 ∷ []; sectors = 128; unit = 1 } ∷ []) }
    ensures rows { IfOk result (λ s. AllByRecursion RowFits s.rows) }
{
    let mut leaves = List::new(alloc);
    leaves.extend_from_slice(&[0, 1])?;
    let mut tops = List::new(alloc);
    let Ok(()) = tops.push(Top {
        leaves,
        sectors: 128,
        unit: 1,
    }) else {
        return Err(Fail::from("no memory"));
    };
    let mut rows = List::new(alloc);
    if let Some((on, kind)) = fault {
        rows.push(Row {
            leaf: 0,
            on,
            at: 0,
            len: 65536,
            from: 0,
            until: 1,
            kind,
            first: false,
        })?;
    }
    Ok(Setting {
        tops,
        table: FaultTable { rows },
        point: 0,
    })
}

/// Zeros, but for a block in this sector.
fn disk_with(alloc: Global, sector: usize, block: &[u8; 512]) -> Result<MemDisk, Fail>
    requires { sector < 128 }
    ensures { IfOk result (λ disk. length (disk_image disk) ≡ 65536) }
{
    let mut image = vec![in alloc; 0; LEAF_LEN]?;
    let at = sector * 512;
    image[at..at + 512].copy_from_slice(block);
    Ok(MemDisk::new(List::from_vec(image), List::new(alloc)))
}

/// Zeros, but for a block in each of the two sectors.
fn two_blocks(alloc: Global) -> Result<MemDisk, Fail>
    ensures { IfOk result (λ disk. length (disk_image disk) ≡ 65536) }
{
    let mut image = vec![in alloc; 0; LEAF_LEN]?;
    image[1536..2048].copy_from_slice(&BLOCK);
    image[2048..2560].copy_from_slice(&BLOCK);
    Ok(MemDisk::new(List::from_vec(image), List::new(alloc)))
}

fn disk(alloc: Global, held: bool) -> Result<MemDisk, Fail>
    ensures { IfOk result (λ disk. length (disk_image disk) ≡ 65536) }
{
    if held {
        disk_with(alloc, 3, &BLOCK)
    } else {
        disk_with(alloc, 3, &EMPTY)
    }
}

/// A block under a name.
fn bound_block(alloc: Global, name: &[u8], pointer: Bp) -> Result<Bound, Fail>
    ensures { IfOk result (λ bound. bound.tree ≡ record { bp = pointer; heads = [] }) }
{
    let Some(name) = Name::from_word(name) else {
        return Err(Fail::from("no name"));
    };
    Ok(Bound {
        name,
        tree: Tree::plain(alloc, pointer),
    })
}

/// The scrub of one block.
fn scrub_block(alloc: Global, setting: &Setting, disks: &mut [MemDisk]) -> Result<ScrubEnd, Fail>
    requires tops { setting.now.tops ≡ record { leaves = 0 ∷ 1 ∷ []; sectors = 128; unit = 1 } ∷ [] }
    requires rows { AllByRecursion RowFits setting.now.rows }
    requires sizes { map (λ d. length (disk_image d)) disks.old ≡ 65536 ∷ 65536 ∷ [] }
{
    let bound = [bound_block(alloc, b"a", POINTER)?];
    match scrub(alloc, setting, disks, &bound) {
        Ok(end) => Ok(end),
        Err(_) => Err(Fail::from("the scrub was stopped")),
    }
}

/// The scrub of two blocks in sectors side by side.
fn scrub_neighbours(
    alloc: Global,
    setting: &Setting,
    disks: &mut [MemDisk],
) -> Result<ScrubEnd, Fail>
    requires tops { setting.now.tops ≡ record { leaves = 0 ∷ 1 ∷ []; sectors = 128; unit = 1 } ∷ [] }
    requires rows { AllByRecursion RowFits setting.now.rows }
    requires sizes { map (λ d. length (disk_image d)) disks.old ≡ 65536 ∷ 65536 ∷ [] }
{
    let first = bound_block(alloc, b"a", POINTER)?;
    let second = bound_block(alloc, b"b", NEXT_POINTER)?;
    let bound = [first, second];
    match scrub(alloc, setting, disks, &bound) {
        Ok(end) => Ok(end),
        Err(_) => Err(Fail::from("the scrub was stopped")),
    }
}

fn check(rt: &impl Abort, alloc: Global, case: &Case) -> Result<(), Fail> {
    let setting = mirror(alloc, case.fault)?;
    let mut disks = [disk(alloc, case.held[0])?, disk(alloc, case.held[1])?];
    let end = scrub_block(alloc, &setting, &mut disks)?;
    let want = ScrubEnd {
        blocks: 1,
        copies: 2,
        repaired: case.repaired,
        failed: case.failed,
        lost: case.lost,
    };
    assert_eq!(rt; end, want);
    for (leaf, disk) in disks.iter().enumerate() {
        let want = if case.held_after[leaf] {
            &BLOCK
        } else {
            &EMPTY
        };
        assert_eq!(rt;
            disk.image().get(1536..2048),
            Some(want.as_slice()),
            "leaf {leaf}"
        );
        assert_eq!(rt; disk.writes(), case.writes[leaf], "leaf {leaf}");
        assert!(rt; disk.reads() <= 1, "leaf {leaf} is read once");
    }
    Ok(())
}

/// Bytes that differ and reads that fail make a copy bad; it is written where the other copy is good.
#[test]
fn a_scrub_writes_bad_copies_alone(rt: HostRuntime) -> Result<(), Fail> {
    let clean = Case {
        held: [true, true],
        fault: None,
        repaired: 0,
        failed: 0,
        lost: 0,
        held_after: [true, true],
        writes: [0, 0],
    };
    let one_bad = Case {
        held: [false, true],
        repaired: 1,
        writes: [1, 0],
        ..clean
    };
    let other_bad = Case {
        held: [true, false],
        repaired: 1,
        writes: [0, 1],
        ..clean
    };
    let lost = Case {
        held: [false, false],
        lost: 2,
        held_after: [false, false],
        ..clean
    };
    let fails = Case {
        held: [false, true],
        fault: Some((On::Write, FaultKind::Eio)),
        failed: 1,
        held_after: [false, true],
        ..clean
    };
    let unreadable = Case {
        fault: Some((On::Read, FaultKind::Eio)),
        repaired: 1,
        writes: [1, 0],
        ..clean
    };
    let flipped = Case {
        fault: Some((On::Read, FaultKind::Flip)),
        repaired: 1,
        writes: [1, 0],
        ..clean
    };
    for case in [clean, one_bad, other_bad, lost, fails, unreadable, flipped] {
        check(&rt, rt.alloc(), &case)?;
    }
    Ok(())
}

/// Copies side by side on a leaf are read at once.
#[test]
fn neighbours_are_read_at_once(rt: HostRuntime) -> Result<(), Fail> {
    let alloc = rt.alloc();
    let setting = mirror(alloc, None)?;
    let mut disks = [two_blocks(alloc)?, two_blocks(alloc)?];
    let end = scrub_neighbours(alloc, &setting, &mut disks)?;
    let want = ScrubEnd {
        blocks: 2,
        copies: 4,
        repaired: 0,
        failed: 0,
        lost: 0,
    };
    assert_eq!(rt; end, want);
    for disk in &disks {
        assert_eq!(rt; disk.reads(), 1);
        assert_eq!(rt; disk.writes(), 0);
    }
    Ok(())
}
