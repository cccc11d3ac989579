ghost use Rattle.std.specs.Prelude.{◌≡◌, ◌∷◌, [], IfOk, length};
ghost use Rattle.std.specs.List.{AllByRecursion};
ghost use Rattle.zio_faults.specs.Hits.{RowFits};
ghost use Rattle.zio_outside.specs.Memory.{disk_image};

use std::alloc::Global;
use std::process::Abort;
use std::test::Fail;
use zio_blkptr::{Bp, SumKind, is_valid};
use zio_cksum::sum;
use zio_disks::{GoodCopy, Setting, read_block, write_piece};
use zio_faults::{FaultKind, FaultTable, On, Row};
use zio_outside::MemDisk;
use zio_types::{Errno, List, Place, Top};

const LEAF_LEN: usize = 65536;

const BLOCK: [u8; 512] = [0xa5; 512];

const EMPTY: [u8; 512] = [0; 512];

const PLACE: Place = Place {
    top: 0,
    sector: 3,
    sectors: 1,
};

const NO_PLACE: Place = Place {
    top: 0,
    sector: 0,
    sectors: 0,
};

/// A row over a whole leaf.
#[derive(Clone, Copy)]
struct Fault {
    on: On,
    kind: FaultKind,
    first: bool,
    /// The resume point from which on it doesn't hold.
    until: u32,
}

/// It holds at no resume point.
const NEVER: Fault = Fault {
    on: On::Any,
    kind: FaultKind::Eio,
    first: false,
    until: 0,
};

/// A block written to both leaves of a mirror and read again, and what it has to come to. What is said of the leaves is
/// said in their order.
#[derive(Clone, Copy)]
struct Case {
    faults: [Fault; 2],
    written: Option<Errno>,
    read: Result<(), Errno>,
    held: [bool; 2],
    reads: [u64; 2],
    writes: [u64; 2],
}

fn row(leaf: u32, fault: &Fault) -> Row
    ensures { RowFits result }
{
    Row {
        leaf,
        on: fault.on,
        at: 0,
        len: LEAF_LEN as u64,
        from: 0,
        until: fault.until,
        kind: fault.kind,
        first: fault.first,
    }
}

/// One top of two leaves, each with its row.
fn mirror(alloc: Global, faults: &[Fault; 2]) -> Result<Setting, Fail>
    ensures tops { IfOk result (λ s. s.tops ≡ record { leaves = 0 ∷ 1 ∷ []; sectors = 128; unit = 1 } ∷ []) }
    ensures rows { IfOk result (λ s. AllByRecursion RowFits s.rows) }
{
    let mut leaves = List::new(alloc);
    leaves.extend_from_slice(&[0, 1])?;
    let mut tops = List::new(alloc);
    let Ok(()) = tops.push(Top {
        leaves,
        sectors: 128,
        unit: 1,
    }) else {
        return Err(Fail::from("no memory"));
    };
    let mut rows = List::new(alloc);
    rows.extend_from_slice(&[row(0, &faults[0]), row(1, &faults[1])])?;
    Ok(Setting {
        tops,
        table: FaultTable { rows },
        point: 0,
    })
}

fn empty_disk(alloc: Global) -> Result<MemDisk, Fail>
    ensures { IfOk result (λ disk. length (disk_image disk) ≡ 65536) }
{
    let image = vec![in alloc; 0; LEAF_LEN]?;
    Ok(MemDisk::new(List::from_vec(image), List::new(alloc)))
}

/// What stands on a leaf at the place.
fn held(disk: &MemDisk) -> Option<&[u8]> {
    disk.image().get(1536..2048)
}

fn check(rt: &impl Abort, alloc: Global, case: &Case) -> Result<(), Fail> {
    let setting = mirror(alloc, &case.faults)?;
    let bp = Bp {
        count: 1,
        places: [PLACE, NO_PLACE, NO_PLACE],
        gang: false,
        size: 512,
        sum: SumKind::Sha256,
        birth: 1,
        words: sum(SumKind::Sha256, &BLOCK),
    };
    assert!(rt; is_valid(&bp));
    let mut disks = [empty_disk(alloc)?, empty_disk(alloc)?];
    let Ok(written) = write_piece(alloc, &setting, &mut disks, &BLOCK, &[PLACE]) else {
        return Err(Fail::from("the write was stopped"));
    };
    assert_eq!(rt; written, case.written);
    let good = GoodCopy::Body(&bp);
    let mut bytes = EMPTY;
    let Ok(read) = read_block(
        alloc,
        &setting,
        &mut disks,
        true,
        &good,
        &[PLACE],
        &mut bytes,
    ) else {
        return Err(Fail::from("the read was stopped"));
    };
    match read {
        None => {
            assert_eq!(rt; case.read, Ok(()));
            assert_eq!(rt; bytes, BLOCK);
        }
        Some(error) => assert_eq!(rt; case.read, Err(error)),
    }
    for (leaf, disk) in disks.iter().enumerate() {
        let want = if case.held[leaf] { &BLOCK } else { &EMPTY };
        assert_eq!(rt; held(disk), Some(want.as_slice()), "leaf {leaf}");
        assert_eq!(rt; disk.reads(), case.reads[leaf], "leaf {leaf}");
        assert_eq!(rt; disk.writes(), case.writes[leaf], "leaf {leaf}");
    }
    Ok(())
}

#[test]
fn a_mirror_bears_the_faults_of_its_leaves(rt: HostRuntime) -> Result<(), Fail> {
    let flipped_reads = Case {
        faults: [
            Fault {
                on: On::Read,
                kind: FaultKind::Flip,
                first: false,
                until: 1,
            },
            NEVER,
        ],
        written: None,
        read: Ok(()),
        held: [true, true],
        reads: [1, 1],
        writes: [2, 1],
    };
    let first_reads = Fault {
        on: On::Read,
        kind: FaultKind::Eio,
        first: true,
        until: 1,
    };
    let retried = Case {
        faults: [first_reads, first_reads],
        written: None,
        read: Ok(()),
        held: [true, true],
        reads: [1, 0],
        writes: [1, 1],
    };
    let gone = Case {
        faults: [
            NEVER,
            Fault {
                on: On::Write,
                kind: FaultKind::Gone,
                first: false,
                until: 1,
            },
        ],
        written: None,
        read: Ok(()),
        held: [true, false],
        reads: [1, 0],
        writes: [1, 0],
    };
    let broken = Fault {
        on: On::Any,
        kind: FaultKind::Eio,
        first: false,
        until: 1,
    };
    let lost = Case {
        faults: [broken, broken],
        written: Some(Errno::Io),
        read: Err(Errno::Io),
        held: [false, false],
        reads: [0, 0],
        writes: [0, 0],
    };
    for case in [flipped_reads, retried, gone, lost] {
        check(&rt, rt.alloc(), &case)?;
    }
    Ok(())
}
