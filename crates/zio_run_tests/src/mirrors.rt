//! Two writes on a mirror whose leaves fail in some way: whatever is picked, the report and the leaves are the same.

use crate::orders::SEEDS;
use std::alloc::Global;
use std::process::Abort;
use std::test::Fail;
use zio_run_cases::{Case, Ran, run, run_with_picks};

/// A table of faults, and what the writes of a sector 0x11 and one 0x22 come to.
#[derive(Clone, Copy)]
struct Mirror {
    script: &'static [u8],
    report: &'static [u8],
    code: u8,
    /// Whether each leaf has both sectors afterwards; else it has neither.
    held: [bool; 2],
}

const BOTH_DONE: &[u8] =
    b"pool 1 2\nround 1 batch 1 point 0\n1 write x ok 512\n2 write y ok 512\nend 0\n";

const MIRRORS: [Mirror; 6] = [
    Mirror {
        script: b"top 0 1\n1 write x off 1 sync fill 11 512\n2 write y off 1 sync fill 22 512\ngo\n",
        report: BOTH_DONE,
        code: 0,
        held: [true, true],
    },
    // One leaf is gone.
    Mirror {
        script: b"top 0 1\nfault 1 write 0 65536 0 1 gone\n\
            1 write x off 1 sync fill 11 512\n2 write y off 1 sync fill 22 512\ngo\n",
        report: BOTH_DONE,
        code: 0,
        held: [true, false],
    },
    // Both fail in the first pass alone.
    Mirror {
        script: b"top 0 1\nfault 0 write 0 65536 0 1 eio first\nfault 1 write 0 65536 0 1 eio first\n\
            1 write x off 1 sync fill 11 512\n2 write y off 1 sync fill 22 512\ngo\n",
        report: BOTH_DONE,
        code: 0,
        held: [true, true],
    },
    // One stores nothing, and the other in the second pass.
    Mirror {
        script: b"top 0 1\nfault 0 write 0 65536 0 1 gone\nfault 1 write 0 65536 0 1 eio first\n\
            1 write x off 1 sync fill 11 512\n2 write y off 1 sync fill 22 512\ngo\n",
        report: BOTH_DONE,
        code: 0,
        held: [false, true],
    },
    // Neither stores anything, and the writes may fail: the worse of both errors.
    Mirror {
        script: b"top 0 1\nfault 0 write 0 65536 0 1 gone\nfault 1 write 0 65536 0 1 eio\n\
            1 write x off 1 sync fill 11 512 canfail\n2 write y off 1 sync fill 22 512 canfail\ngo\n",
        report: b"pool 1 2\nround 1 batch 1 point 0\n1 write x EIO\n2 write y EIO\nend 0\n",
        code: 0,
        held: [false, false],
    },
    // The same where they may not fail.
    Mirror {
        script: b"top 0 1\nfault 0 write 0 65536 0 1 gone\nfault 1 write 0 65536 0 1 eio\n\
            1 write x off 1 sync fill 11 512\n2 write y off 1 sync fill 22 512\ngo\n",
        report: b"pool 1 2\nround 1 batch 1 point 0\n1 write x suspended\n2 write y suspended\nend 9\n",
        code: 9,
        held: [false, false],
    },
];

/// How many sectors of the image the first and the second write hold; nothing where a sector has what nothing wrote.
fn writes_held(image: &[u8]) -> Option<(u32, u32)> {
    let (mut first, mut second) = (0u32, 0u32);
    for sector in image.chunks(512) {
        if sector.iter().all(|b| *b == 0x11) {
            first = first.saturating_add(1);
        } else if sector.iter().all(|b| *b == 0x22) {
            second = second.saturating_add(1);
        } else if !sector.iter().all(|b| *b == 0) {
            return None;
        }
    }
    Some((first, second))
}

/// Whether the leaf of this name is home and has both sectors once, or has neither.
fn is_held(ran: &Ran, name: &str, held: bool) -> bool {
    let wanted = if held { (1, 1) } else { (0, 0) };
    match ran.shelf.disk(name) {
        Some(disk) => writes_held(disk.image()) == Some(wanted),
        None => false,
    }
}

fn check(rt: &impl Abort, ran: &Ran, mirror: &Mirror) {
    assert_eq!(rt; (ran.code, ran.sink.held()), (mirror.code, mirror.report));
    let [a, b] = mirror.held;
    let found = (is_held(ran, "a", a), is_held(ran, "b", b));
    assert_eq!(rt; found, (true, true), "the leaves have what they have to");
}

/// Runs the mirror by the first pick of all, and then by the picks of each seed.
fn check_each_order(rt: &impl Abort, alloc: Global, mirror: &Mirror) -> Result<(), Fail> {
    let case = Case {
        words: &["run", "a", "b"],
        script: mirror.script,
        first_len: 65536,
        second_len: 65536,
    };
    check(rt, &run(alloc, &case)?, mirror);
    for seed in 0..SEEDS {
        check(rt, &run_with_picks(alloc, &case, seed)?, mirror);
    }
    Ok(())
}

#[test]
fn two_writes_come_out_alike_in_every_order(rt: HostRuntime) -> Result<(), Fail> {
    for mirror in &MIRRORS {
        check_each_order(&rt, rt.alloc(), mirror)?;
    }
    Ok(())
}
