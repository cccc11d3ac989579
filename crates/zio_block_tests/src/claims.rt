ghost use Rattle.std.specs.Prelude.{◌≡◌, ◌∷◌, ◌<◌, [], IfOk, IsTrue, length, map};
ghost use Rattle.zio_blkptr.specs.Pointers.{valid};
ghost use Rattle.zio_gang.specs.Trees.{sizes_of};
ghost use Rattle.zio_outside.specs.Memory.{disk_image};
ghost use Rattle.zio_disks.specs.Trees.{BearsTops};

use std::alloc::Global;
use std::test::Fail;
use zio_blkptr::{Bp, SumKind, encode};
use zio_blocks::claim_block;
use zio_disks::{Setting, Stop};
use zio_faults::FaultTable;
use zio_gang::{Tree, header_encode};
use zio_outside::MemDisk;
use zio_places::Space;
use zio_types::{Errno, List, Place, Top, TopSize};

const LEAF_LEN: usize = 65536;

const NOWHERE: Place = Place {
    top: 0,
    sector: 0,
    sectors: 0,
};

const SIZE: TopSize = TopSize {
    sectors: 128,
    unit: 1,
};

fn sector_at(sector: u64) -> Place
    ensures top { result.top ≡ 0 }
    ensures sector { result.sector ≡ sector }
    ensures sectors { result.sectors ≡ 1 }
{
    Place {
        top: 0,
        sector,
        sectors: 1,
    }
}

/// A pointer to one sector in one copy: a block of 512 bytes, or the header of a gang of so many.
fn pointer(sector: u64, gang: bool) -> Bp
    requires { sector < 1000 }
    ensures { IsTrue (valid result) }
{
    Bp {
        count: 1,
        places: [sector_at(sector), NOWHERE, NOWHERE],
        gang,
        size: 512,
        sum: SumKind::Off,
        birth: 1,
        words: [0; 4],
    }
}

/// A pointer to a block of 512 bytes whose two copies have the same place.
fn doubled() -> Bp
    ensures { IsTrue (valid result) }
{
    Bp {
        count: 2,
        places: [sector_at(5), sector_at(5), NOWHERE],
        gang: false,
        size: 512,
        sum: SumKind::Off,
        birth: 1,
        words: [0; 4],
    }
}

/// One top of one leaf, and no fault.
fn setting(alloc: Global) -> Result<Setting, Fail>
    ensures tops { IfOk result (λ s. s.tops ≡ record { leaves = 0 ∷ []; sectors = 128; unit = 1 } ∷ []) }
    ensures rows { IfOk result (λ s. s.rows ≡ []) }
{
    let mut leaves = List::new(alloc);
    leaves.extend_from_slice(&[0])?;
    let mut tops = List::new(alloc);
    let Ok(()) = tops.push(Top {
        leaves,
        sectors: 128,
        unit: 1,
    }) else {
        return Err(Fail::from("no memory"));
    };
    Ok(Setting {
        tops,
        table: FaultTable {
            rows: List::new(alloc),
        },
        point: 0,
    })
}

/// Zeros, but for a header in this sector.
fn disk_with(alloc: Global, sector: usize, header: &[u8; 512]) -> Result<MemDisk, Fail>
    requires { sector < 128 }
    ensures { IfOk result (λ disk. length (disk_image disk) ≡ 65536) }
{
    let mut image = vec![in alloc; 0; LEAF_LEN]?;
    let at = sector * 512;
    image[at..at + 512].copy_from_slice(header);
    Ok(MemDisk::new(List::from_vec(image), List::new(alloc)))
}

/// What the claim of a pointer answers.
fn claim(
    alloc: Global,
    setting: &Setting,
    disks: &mut [MemDisk],
    space: &mut Space,
    pointer: &[u8; 128],
) -> Result<Result<Tree, Errno>, Fail>
    requires bears { BearsTops setting.now (map (λ d. length (disk_image d)) disks.old) }
    requires sizes { space.old.sizes ≡ sizes_of setting.now.tops }
    ensures bears { BearsTops setting.now (map (λ d. length (disk_image d)) disks.new) }
    ensures sizes { space.new.sizes ≡ sizes_of setting.now.tops }
{
    match claim_block(alloc, setting, disks, space, pointer) {
        Ok(found) => Ok(found),
        Err(Stop::Memory) => Err(Fail::from("no memory")),
        Err(Stop::Device) => Err(Fail::from("a disk failed")),
    }
}

/// What the claim of a pointer answers where all is free.
fn fresh_claim(alloc: Global, disk: MemDisk, pointer: &[u8; 128]) -> Result<Option<Errno>, Fail>
    requires { length (disk_image disk) ≡ 65536 }
{
    let setting = setting(alloc)?;
    let mut space = Space::new(alloc, &[SIZE])?;
    let mut disks = [disk];
    let found = claim(alloc, &setting, &mut disks, &mut space, pointer)?;
    Ok(found.err())
}

#[test]
fn claims_of_plain_pointers(rt: HostRuntime) -> Result<(), Fail> {
    let alloc = rt.alloc();
    let empty = [0; 512];
    let meet = fresh_claim(alloc, disk_with(alloc, 0, &empty)?, &encode(&doubled()))?;
    assert_eq!(rt; meet, Some(Errno::Exist));
    let last = fresh_claim(
        alloc,
        disk_with(alloc, 0, &empty)?,
        &encode(&pointer(127, false)),
    )?;
    assert_eq!(rt; last, None);
    let past = fresh_claim(
        alloc,
        disk_with(alloc, 0, &empty)?,
        &encode(&pointer(128, false)),
    )?;
    assert_eq!(rt; past, Some(Errno::Inval));
    let none = fresh_claim(alloc, disk_with(alloc, 0, &empty)?, &[0; 128])?;
    assert_eq!(rt; none, Some(Errno::Inval));
    Ok(())
}

#[test]
fn claims_of_gangs_by_one_header(rt: HostRuntime) -> Result<(), Fail> {
    let alloc = rt.alloc();
    let good = header_encode(&[Some(pointer(5, false)), None, None], &sector_at(3), 1);
    let there = fresh_claim(
        alloc,
        disk_with(alloc, 3, &good)?,
        &encode(&pointer(3, true)),
    )?;
    assert_eq!(rt; there, None);
    let copied = fresh_claim(
        alloc,
        disk_with(alloc, 9, &good)?,
        &encode(&pointer(9, true)),
    )?;
    assert_eq!(rt; copied, Some(Errno::Cksum));
    let endless = header_encode(&[Some(pointer(3, true)), None, None], &sector_at(3), 1);
    let deep = fresh_claim(
        alloc,
        disk_with(alloc, 3, &endless)?,
        &encode(&pointer(3, true)),
    )?;
    assert_eq!(rt; deep, Some(Errno::Cksum));
    let outer = header_encode(&[Some(pointer(200, false)), None, None], &sector_at(3), 1);
    let outside = fresh_claim(
        alloc,
        disk_with(alloc, 3, &outer)?,
        &encode(&pointer(3, true)),
    )?;
    assert_eq!(rt; outside, Some(Errno::Inval));
    Ok(())
}
