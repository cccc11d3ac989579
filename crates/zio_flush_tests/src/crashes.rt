//! After a crash at any moment of a round, another run claims what was bound before it and reads it all.

use crate::images::{Reached, left_by_crash};
use crate::pools::{AMPLE, Ran, Rooms, run};
use crate::scripts::{Case, GANG, MENDED, RESUMED, RETRIED};
use std::alloc::Global;
use std::process::Abort;
use std::test::Fail;
use zio_blkptr::{bp_text, is_valid};
use zio_gang::{Bound, Ending};
use zio_outside::MemSyncDisk;
use zio_report::RunFault;

/// The most ranges of which every choice is tried.
const RANGES_MAX: u32 = 10;

/// How many choices are tried of more.
const CHOICES: u64 = 1 << RANGES_MAX;

/// The script's first steps.
fn first_steps(alloc: Global, case: &Case, count: usize) -> Result<Vec<u8>, Fail> {
    let mut text = Vec::new(alloc);
    for step in case.steps.iter().take(count) {
        text.extend_from_slice(step)?;
    }
    Ok(text)
}

/// Runs the script's first steps over images of zeros.
fn run_steps(alloc: Global, case: &Case, count: usize, rooms: Rooms) -> Result<Ran, Fail> {
    let text = first_steps(alloc, case, count)?;
    let first = vec![in alloc; 0u8; case.first_len]?;
    let second = vec![in alloc; 0u8; case.second_len]?;
    run(
        alloc,
        text.as_slice(),
        first.as_slice(),
        second.as_slice(),
        rooms,
    )
}

/// A script that claims the blocks, each in a batch of its own, and then reads them.
fn claims_and_reads(alloc: Global, case: &Case, bound: &[Bound]) -> Result<Vec<u8>, Fail> {
    let mut text = case.tops.to_vec(alloc)?;
    let mut number = 0u32;
    for block in bound {
        if !is_valid(&block.tree.bp) {
            return Err(Fail::from("no pointer"));
        }
        number = number.saturating_add(1);
        let pointer = bp_text(alloc, &block.tree.bp)?;
        text.extend_from_slice(format!(in alloc; "{number} claim ")?.as_bytes())?;
        text.extend_from_slice(block.name.as_bytes())?;
        text.extend_from_slice(format!(in alloc; " {}\ngo\n", pointer.as_str())?.as_bytes())?;
    }
    for block in bound {
        number = number.saturating_add(1);
        text.extend_from_slice(format!(in alloc; "{number} read ")?.as_bytes())?;
        text.extend_from_slice(block.name.as_bytes())?;
        text.extend_from_slice(b" sync\n")?;
    }
    text.extend_from_slice(b"go\n")?;
    Ok(text)
}

/// The report has this piece.
fn has_piece(report: &[u8], piece: &[u8]) -> bool {
    !piece.is_empty() && report.windows(piece.len()).any(|part| part == piece)
}

/// How many of the reads that the case knows stand in the report.
fn reads_told(case: &Case, report: &[u8]) -> usize {
    case.reads
        .iter()
        .filter(|read| has_piece(report, read))
        .count()
}

/// Another run over what a crash left of the disks finds each of the blocks, with what it held.
fn check_left(
    rt: &impl Abort,
    alloc: Global,
    case: &Case,
    text: &[u8],
    disks: &[MemSyncDisk],
    reached: Reached,
) -> Result<usize, Fail> {
    let [first, second] = disks else {
        return Err(Fail::from("not two disks"));
    };
    let first_left = left_by_crash(alloc, first, reached, 0)?;
    let second_left = left_by_crash(alloc, second, reached, ranges_of(first))?;
    let ran = run(
        alloc,
        text,
        first_left.as_slice(),
        second_left.as_slice(),
        AMPLE,
    )?;
    let is_complete = matches!(&ran.ended, Ok(end) if end.ending == Ending::Complete);
    assert!(rt; is_complete, "the run after the crash");
    Ok(reads_told(case, ran.sink.held()))
}

/// How many ranges were written since the disk was stable.
fn ranges_of(disk: &MemSyncDisk) -> u32 {
    u32::try_from(disk.ranges().len()).unwrap_or(u32::MAX)
}

/// Bits that look like chance.
fn mixed(choice: u64) -> u64 {
    let bits = choice.wrapping_add(1).wrapping_mul(0x9e37_79b9_7f4a_7c15);
    bits ^ (bits >> 29)
}

/// Whichever of the ranges reached the disks, or were torn, each block is found.
fn check_crashes(
    rt: &impl Abort,
    alloc: Global,
    case: &Case,
    bound: &[Bound],
    disks: &[MemSyncDisk],
) -> Result<(), Fail> {
    let text = claims_and_reads(alloc, case, bound)?;
    let mut ranges = 0u32;
    for disk in disks {
        ranges = ranges.saturating_add(ranges_of(disk));
    }
    let choices = if ranges < RANGES_MAX {
        1u64 << ranges
    } else {
        CHOICES
    };
    for choice in 0..choices {
        let bits = if ranges <= RANGES_MAX {
            choice
        } else {
            mixed(choice)
        };
        let told = check_left(rt, alloc, case, text.as_slice(), disks, Reached::Some(bits))?;
        assert_eq!(rt; told, bound.len(), "blocks found, choice {bits:x}");
    }
    let told = check_left(rt, alloc, case, text.as_slice(), disks, Reached::Torn)?;
    assert_eq!(rt; told, bound.len(), "blocks found, torn");
    Ok(())
}

/// The reads and writes of a disk, and a sync for each round.
fn calls_of(disk: &MemSyncDisk, rounds: usize) -> u32 {
    let calls = disk.reads().saturating_add(disk.writes());
    u32::try_from(calls.saturating_add(rounds as u64)).unwrap_or(u32::MAX)
}

/// Each disk's image is the stable one, and no range is left.
fn are_stable(disks: &[MemSyncDisk]) -> bool {
    disks.iter().all(|disk| disk.stable() == disk.image() && disk.ranges().is_empty())
}

/// Runs the steps up to this one, whose round syncs each disk once, and crashes in that round.
fn check_round(
    rt: &impl Abort,
    alloc: Global,
    case: &Case,
    count: usize,
    bound: &[Bound],
) -> Result<Ran, Fail> {
    let whole = run_steps(alloc, case, count, AMPLE)?;
    let [first, second] = whole.disks.as_slice() else {
        return Err(Fail::from("not two disks"));
    };
    let calls = Rooms {
        first: calls_of(first, count),
        second: calls_of(second, count),
    };
    let exact = run_steps(alloc, case, count, calls)?;
    let is_whole = exact.ended.is_ok() && exact.journal.rounds as usize == count;
    assert!(rt;
        is_whole && are_stable(exact.disks.as_slice()),
        "one sync a disk and round"
    );
    let first_fails = Rooms {
        first: calls.first.saturating_sub(1),
        second: AMPLE.second,
    };
    let second_fails = Rooms {
        first: AMPLE.first,
        second: calls.second.saturating_sub(1),
    };
    for rooms in [first_fails, second_fails] {
        let stopped = run_steps(alloc, case, count, rooms)?;
        let is_stopped = matches!(&stopped.ended, Err(RunFault::Device));
        assert!(rt; is_stopped, "a sync is the round's last call");
        if !bound.is_empty() {
            check_crashes(rt, alloc, case, bound, stopped.disks.as_slice())?;
        }
    }
    Ok(whole)
}

/// The blocks that a whole run left bound.
fn bound_by(ran: &Ran) -> Result<&[Bound], Fail> {
    match &ran.ended {
        Ok(end) => Ok(end.bound.as_slice()),
        Err(_) => Err(Fail::from("the run was cut short")),
    }
}

/// Crashes in each round of the script, and after it.
fn check_case(rt: &impl Abort, alloc: Global, case: &Case) -> Result<(), Fail> {
    let mut before = check_round(rt, alloc, case, 1, &[])?;
    for count in 2..case.steps.len() + 1 {
        let whole = check_round(rt, alloc, case, count, bound_by(&before)?)?;
        before = whole;
    }
    let bound = bound_by(&before)?;
    assert_eq!(rt; bound.len(), case.left, "blocks left bound");
    check_crashes(rt, alloc, case, bound, before.disks.as_slice())
}

#[test]
fn a_mended_mirror_survives_each_crash(rt: HostRuntime) -> Result<(), Fail> {
    check_case(&rt, rt.alloc(), &MENDED)
}

#[test]
fn a_write_that_was_retried_survives_each_crash(rt: HostRuntime) -> Result<(), Fail> {
    check_case(&rt, rt.alloc(), &RETRIED)
}

#[test]
fn a_child_of_a_suspended_tree_survives_each_crash(rt: HostRuntime) -> Result<(), Fail> {
    check_case(&rt, rt.alloc(), &RESUMED)
}

#[test]
fn a_gang_survives_each_crash(rt: HostRuntime) -> Result<(), Fail> {
    check_case(&rt, rt.alloc(), &GANG)
}

/// The disk's second call is its first sync.
#[test]
fn a_sync_that_fails_leaves_the_range_that_was_written(rt: HostRuntime) -> Result<(), Fail> {
    let rooms = Rooms {
        first: 1,
        second: AMPLE.second,
    };
    let ran = run_steps(rt.alloc(), &MENDED, 1, rooms)?;
    assert!(rt;
        matches!(&ran.ended, Err(RunFault::Device)),
        "the sync fails"
    );
    assert_eq!(rt; ran.sink.held(), b"pool 1 2\n".as_slice());
    for disk in ran.disks.as_slice() {
        assert!(rt;
            disk.stable().iter().all(|byte| *byte == 0),
            "nothing is stable"
        );
        assert_eq!(rt; disk.ranges().len(), 1);
        for range in disk.ranges() {
            assert_eq!(rt; range.len, 512);
        }
    }
    Ok(())
}
