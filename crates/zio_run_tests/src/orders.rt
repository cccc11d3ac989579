//! What the order of the work changes and what it does not: the order of completions, and how many calls of a disk a
//! run makes.

use std::alloc::Global;
use std::process::Abort;
use std::test::Fail;
use zio_run_cases::{Case, Ran, run, run_with_picks};

/// Claims the sectors 0 to 119 of 128, and then writes eight blocks of a sector in one batch.
pub(crate) const EIGHT_WRITES: &str =
    "1 claim f 2800000000000000000000000000000028000000000000002800000000000000280000000000000050000000000000002700270002020080000000000000000000000000000000000000000000000000010000000000000001000000000000000000000000000000000000000000000000000000000000000000000000000000\ngo\n\
    2 write w1 off 1 async fill 41 512\n3 write w2 off 1 async fill 41 512\n4 write w3 off 1 async fill 41 512\n\
    5 write w4 off 1 async fill 41 512\n6 write w5 off 1 async fill 41 512\n7 write w6 off 1 async fill 41 512\n\
    8 write w7 off 1 async fill 41 512\n9 write w8 off 1 async fill 41 512\ngo\n";

const ALL_DONE: &[u8] =
    b"pool 1 1\nround 1 batch 1 point 0\n1 claim f ok\nround 2 batch 2 point 0\n2 write w1 ok 512\n\
    3 write w2 ok 512\n4 write w3 ok 512\n5 write w4 ok 512\n6 write w5 ok 512\n7 write w6 ok 512\n8 write w7 ok 512\n\
    9 write w8 ok 512\nend 0\n";

/// How many seeds of picks, from 0 on, are tried beside the first pick of all.
pub(crate) const SEEDS: u64 = 21;

/// Whether the sectors of the eight writes hold 0x41, but for one that is flipped if one is told, and all others zeros.
fn are_written(image: &[u8], flipped: Option<usize>) -> bool {
    for (at, sector) in image.chunks(512).enumerate() {
        let byte = if at < 120 {
            0
        } else if Some(at) == flipped {
            0xbe
        } else {
            0x41
        };
        if !sector.iter().all(|b| *b == byte) {
            return false;
        }
    }
    true
}

/// The disk wasn't read, and so many writes of it were made, all requests finished, and the sectors are as they have to
/// be.
fn check(
    rt: &impl Abort,
    ran: &Ran,
    least: u64,
    most: u64,
    flipped: Option<usize>,
) -> Result<(), Fail> {
    assert_eq!(rt; (ran.code, ran.sink.held()), (0, ALL_DONE));
    let disk = ran.shelf.disk("a").ok_or("the disk isn't home")?;
    let (reads, writes) = (disk.reads(), disk.writes());
    let is_right = reads == 0 && least <= writes && writes <= most;
    assert!(rt; is_right, "{reads} reads and {writes} writes");
    assert!(rt;
        are_written(disk.image(), flipped),
        "a sector has other bytes"
    );
    Ok(())
}

/// Writes the eight behind this head over one image of 64 KiB, where the first pick of all makes so many calls of the
/// disk, and every other pick one to eight.
fn check_each_order(
    rt: &impl Abort,
    alloc: Global,
    head: &str,
    writes: u64,
    flipped: Option<usize>,
) -> Result<(), Fail> {
    let mut script = String::from_str(alloc, head)?;
    script.push_str(EIGHT_WRITES)?;
    let case = Case {
        words: &["run", "a"],
        script: script.as_bytes(),
        first_len: 65536,
        second_len: 0,
    };
    check(rt, &run(alloc, &case)?, writes, writes, flipped)?;
    for seed in 0..SEEDS {
        check(rt, &run_with_picks(alloc, &case, seed)?, 1, 8, flipped)?;
    }
    Ok(())
}

/// The eight are one call of the disk where a leaf is picked last. By other picks a group may be issued before all
/// wait.
#[test]
fn neighbours_are_written_in_one_call(rt: HostRuntime) -> Result<(), Fail> {
    check_each_order(&rt, rt.alloc(), "top 0\n", 1, None)
}

/// Where a row of the fault table meets the group, each of its members is a call, and one alone is hit. By other picks
/// there are smaller groups, which the row may not meet.
#[test]
fn a_fault_hits_one_member_of_a_group(rt: HostRuntime) -> Result<(), Fail> {
    let head = "top 0\nfault 0 write 61952 512 0 1 flip\n";
    check_each_order(&rt, rt.alloc(), head, 8, Some(121))
}

/// The report of two writes in a batch, with the journal.
const TWO_WRITES: Case<'static> = Case {
    words: &["run", "--journal", "a"],
    script: b"top 0\n1 write x off 1 sync fill 41 512\n2 write y off 1 sync fill 42 512\ngo\n",
    first_len: 65536,
    second_len: 0,
};

/// Whether the first of two writes is done first by the picks of this seed.
fn first_is_first(alloc: Global, seed: u64) -> Result<bool, Fail> {
    let ran = run_with_picks(alloc, &TWO_WRITES, seed)?;
    let held = ran.sink.held();
    let is_first = held.ends_with(b"\norder 1 2\nend 0\n");
    if ran.code == 0 && (is_first || held.ends_with(b"\norder 2 1\nend 0\n")) {
        Ok(is_first)
    } else {
        Err(Fail::from("neither order"))
    }
}

/// Whether two runs by the picks of this seed have the same report.
fn is_repeated(alloc: Global, seed: u64) -> Result<bool, Fail> {
    let ran = run_with_picks(alloc, &TWO_WRITES, seed)?;
    let again = run_with_picks(alloc, &TWO_WRITES, seed)?;
    Ok(ran.sink.held() == again.sink.held())
}

/// Some seeds have the second of two writes done first. A seed gives the same report each time.
#[test]
fn a_seed_chooses_the_order(rt: HostRuntime) -> Result<(), Fail> {
    let alloc = rt.alloc();
    let (mut forward, mut backward) = (0u32, 0u32);
    for seed in 0..SEEDS {
        if first_is_first(alloc, seed)? {
            forward = forward.saturating_add(1);
        } else {
            backward = backward.saturating_add(1);
        }
        assert!(rt; is_repeated(alloc, seed)?, "seed {seed}");
    }
    assert!(rt; forward > 0 && backward > 0, "each order comes");
    Ok(())
}
