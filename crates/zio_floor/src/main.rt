//! The floor under a run: the device calls and the sums that blocks need, and nothing else. `bench/run` times it beside
//! `zio_serial` on a script that asks for the same.
//!
//!     zio_floor SUM BYTES BLOCKS ROUNDS IMAGE ..
//!     zio_floor scrub SUM BYTES BLOCKS IMAGE ..
//!
//! In each of so many rounds it makes so many blocks of so many bytes, sums each by SUM (off, fletcher4 or sha256) and
//! writes it to every image; then it reads each from the first image and sums it by SUM, and by fletcher4, which a
//! report shows of what is read. With `scrub` it reads each block once from every image, and sums it by SUM.
#![tactic(auto)]

ghost use Rattle.std.specs.Prelude.{◌≡◌, ◌%◌};

use anyhow::{Context, Result, bail};
use std::alloc::Global;
use std::env;
use zio_blkptr::SumKind;
use zio_cksum::{sum, verify};
use zio_outside::{Disk, FileShelf, Shelf};

/// The blocks of a round, or of a scrub.
#[derive(Clone, Copy)]
struct Work {
    sum: SumKind,
    bytes: u32,
    blocks: u32,
}

fn main(rt: HostRuntime) -> Result<()> {
    let alloc = rt.alloc();
    let mut words = Vec::new(alloc);
    for word in env::args(&rt)? {
        words.push(word)?;
    }
    let [_, first, second, third, fourth, images @ ..] = words.as_slice() else {
        bail!("words: [scrub] SUM BYTES BLOCKS [ROUNDS] IMAGE ..");
    };
    let (work, rounds) = if first.as_str() == "scrub" {
        (work_of(second, third, fourth)?, None)
    } else {
        let rounds: u32 = fourth.parse().context("how many rounds")?;
        (work_of(first, second, third)?, Some(rounds))
    };
    if work.bytes % 4 != 0 {
        bail!("a block has whole words of four bytes");
    }
    let mut shelf = FileShelf::new(&rt);
    let mut disks = Vec::new(alloc);
    for image in images {
        match shelf.fetch(image.as_str()) {
            Ok(disk) => disks.push(disk)?,
            Err(_) => bail!("an image can't be opened"),
        }
    }
    if let Some(rounds) = rounds {
        for _ in 0..rounds {
            run(alloc, work, disks.as_mut_slice())?;
        }
    } else {
        for disk in disks.iter_mut() {
            scrub(alloc, work, disk)?;
        }
    }
    println!(rt; "done")?;
    Ok(())
}

fn work_of(sum: &str, bytes: &str, blocks: &str) -> Result<Work> {
    Ok(Work {
        sum: sum_named(sum)?,
        bytes: bytes.parse().context("how many bytes")?,
        blocks: blocks.parse().context("how many blocks")?,
    })
}

fn sum_named(word: &str) -> Result<SumKind> {
    match word {
        "off" => Ok(SumKind::Off),
        "fletcher4" => Ok(SumKind::Fletcher4),
        "sha256" => Ok(SumKind::Sha256),
        _ => bail!("SUM is off, fletcher4 or sha256"),
    }
}

/// One round: all blocks are written to each disk, and then read from the first.
fn run<D: Disk>(alloc: Global, work: Work, disks: &mut [D]) -> Result<()>
    requires { work.bytes % 4 ≡ 0 }
{
    for block in 0..work.blocks {
        let bytes = vec![in alloc; 0x41; work.bytes as usize]?;
        let words = sum(work.sum, &bytes);
        let at = u64::from(block) * u64::from(work.bytes);
        for disk in disks.iter_mut() {
            write(disk, at, &bytes)?;
        }
        if words[3] == 1 {
            bail!("a sum that none of these blocks has");
        }
    }
    let Some(disk) = disks.first_mut() else {
        bail!("an image at least");
    };
    for block in 0..work.blocks {
        let mut bytes = vec![in alloc; 0; work.bytes as usize]?;
        let at = u64::from(block) * u64::from(work.bytes);
        read(disk, at, &mut bytes)?;
        let words = sum(work.sum, &bytes);
        if !verify(SumKind::Fletcher4, &bytes, &words) && words[3] == 1 {
            bail!("a sum that none of these blocks has");
        }
    }
    Ok(())
}

/// All blocks are read from the disk, each into the same buffer.
fn scrub<D: Disk>(alloc: Global, work: Work, disk: &mut D) -> Result<()>
    requires { work.bytes % 4 ≡ 0 }
{
    let mut bytes = vec![in alloc; 0; work.bytes as usize]?;
    for block in 0..work.blocks {
        let at = u64::from(block) * u64::from(work.bytes);
        read(disk, at, &mut bytes)?;
        if sum(work.sum, &bytes)[3] == 1 {
            bail!("a sum that none of these blocks has");
        }
    }
    Ok(())
}

fn write<D: Disk>(disk: &mut D, at: u64, bytes: &[u8]) -> Result<()> {
    let size = disk.size();
    let len = bytes.len() as u64;
    if len > size || at > size - len {
        bail!("the image is too small");
    }
    match disk.write_at(at, bytes) {
        Ok(()) => Ok(()),
        Err(_) => bail!("an image can't be written"),
    }
}

fn read<D: Disk>(disk: &mut D, at: u64, bytes: &mut [u8]) -> Result<()> {
    let size = disk.size();
    let len = bytes.len() as u64;
    if len > size || at > size - len {
        bail!("the image is too small");
    }
    match disk.read_at(at, bytes) {
        Ok(()) => Ok(()),
        Err(_) => bail!("an image can't be read"),
    }
}
