//! Scrubs behind a run: what they repair and what they lose, and how many calls of a disk they make.

use crate::orders::{EIGHT_WRITES, SEEDS};
use std::alloc::Global;
use std::process::Abort;
use std::test::Fail;
use zio_run_cases::{Case, Ran, run, run_with_picks};

/// A script, and what its run with a scrub behind it comes to.
#[derive(Clone, Copy)]
struct Scrubbed {
    script: &'static [u8],
    report: &'static [u8],
    code: u8,
    /// Whether both leaves have the same bytes afterwards.
    equal: bool,
}

const SCRUBBED: [Scrubbed; 7] = [
    // One leaf missed the write, and can be written again.
    Scrubbed {
        script: b"top 0 1\nfault 0 write 0 65536 0 1 eio\n1 write x sha256 1 sync fill 41 512\ngo\nclear\n",
        report: b"pool 1 2\nround 1 batch 1 point 0\n1 write x ok 512\nend 0\n\
            scrub blocks 1 copies 2 repaired 1 failed 0 lost 0\n",
        code: 0,
        equal: true,
    },
    // It still can't be written.
    Scrubbed {
        script: b"top 0 1\nfault 0 write 0 65536 0 1 eio\n1 write x sha256 1 sync fill 41 512\ngo\n",
        report: b"pool 1 2\nround 1 batch 1 point 0\n1 write x ok 512\nend 0\n\
            scrub blocks 1 copies 2 repaired 0 failed 1 lost 0\n",
        code: 0,
        equal: false,
    },
    // Without a checksum any bytes are good, so nothing is repaired.
    Scrubbed {
        script: b"top 0 1\nfault 0 write 0 65536 0 1 eio\n1 write x off 1 sync fill 41 512\ngo\nclear\n",
        report: b"pool 1 2\nround 1 batch 1 point 0\n1 write x ok 512\nend 0\n\
            scrub blocks 1 copies 2 repaired 0 failed 0 lost 0\n",
        code: 0,
        equal: false,
    },
    // Both leaves stored the block wrongly; the other one, which was freed, is no longer bound.
    Scrubbed {
        script: b"top 0 1\nfault 0 write 0 65536 0 1 flip\nfault 1 write 0 65536 0 1 flip\n\
            1 write x sha256 1 sync fill 41 512\n2 write y sha256 1 sync fill 42 512\ngo\n3 free y\ngo\nclear\n",
        report: b"pool 1 2\nround 1 batch 1 point 0\n1 write x ok 512\n2 write y ok 512\n\
            round 2 batch 2 point 0\n3 free y ok\nend 0\n\
            scrub blocks 1 copies 2 repaired 0 failed 0 lost 2\n",
        code: 0,
        equal: true,
    },
    // A read is left, since one leaf missed the write and the other can't be read, and so both copies are lost.
    Scrubbed {
        script: b"top 0 1\nfault 0 write 0 65536 0 1 eio\nfault 1 read 0 65536 0 1 eio\n\
            1 write x sha256 1 sync fill 41 512\ngo\n2 read x sync must\ngo\n",
        report: b"pool 1 2\nround 1 batch 1 point 0\n1 write x ok 512\nround 2 batch 2 point 0\n\
            2 read x suspended\nend 9\n\
            scrub blocks 1 copies 2 repaired 0 failed 0 lost 2\n",
        code: 9,
        equal: false,
    },
    // A panic leaves all as it is.
    Scrubbed {
        script: b"failmode panic\ntop 0 1\nfault 0 write 0 65536 0 1 eio\nfault 1 read 0 65536 0 1 eio\n\
            1 write x sha256 1 sync fill 41 512\ngo\n2 read x sync must\ngo\n",
        report: b"pool 1 2\nround 1 batch 1 point 0\n1 write x ok 512\nround 2 batch 2 point 0\n\
            2 read x suspended\nend 4\n",
        code: 4,
        equal: false,
    },
    // Nothing is bound.
    Scrubbed {
        script: b"top 0 1\n1 null\ngo\n",
        report: b"pool 1 2\nround 1 batch 1 point 0\n1 null ok\nend 0\n\
            scrub blocks 0 copies 0 repaired 0 failed 0 lost 0\n",
        code: 0,
        equal: true,
    },
];

fn check(rt: &impl Abort, ran: &Ran, wanted: &Scrubbed) -> Result<(), Fail> {
    assert_eq!(rt; (ran.code, ran.sink.held()), (wanted.code, wanted.report));
    let first = ran.shelf.disk("a").ok_or("a leaf isn't home")?;
    let second = ran.shelf.disk("b").ok_or("a leaf isn't home")?;
    assert_eq!(rt;
        first.image() == second.image(),
        wanted.equal,
        "the leaves are alike"
    );
    Ok(())
}

fn check_each_order(rt: &impl Abort, alloc: Global, wanted: &Scrubbed) -> Result<(), Fail> {
    let case = Case {
        words: &["scrub", "a", "b"],
        script: wanted.script,
        first_len: 65536,
        second_len: 65536,
    };
    check(rt, &run(alloc, &case)?, wanted)?;
    for seed in 0..SEEDS {
        check(rt, &run_with_picks(alloc, &case, seed)?, wanted)?;
    }
    Ok(())
}

#[test]
fn bad_copies_are_repaired_where_they_can_be(rt: HostRuntime) -> Result<(), Fail> {
    for wanted in &SCRUBBED {
        check_each_order(&rt, rt.alloc(), wanted)?;
    }
    Ok(())
}

/// Behind a claim of three runs and eight writes between and behind them each sector of the image is a copy: one call of
/// the disk reads them all.
#[test]
fn neighbours_are_scrubbed_in_one_call(rt: HostRuntime) -> Result<(), Fail> {
    let alloc = rt.alloc();
    let mut script = String::from_str(alloc, "top 0\n")?;
    script.push_str(EIGHT_WRITES)?;
    let case = Case {
        words: &["scrub", "a"],
        script: script.as_bytes(),
        first_len: 65536,
        second_len: 0,
    };
    let ran = run(alloc, &case)?;
    let line = b"\nend 0\nscrub blocks 9 copies 11 repaired 0 failed 0 lost 0\n";
    assert!(rt; ran.code == 0 && ran.sink.held().ends_with(line));
    let disk = ran.shelf.disk("a").ok_or("the disk isn't home")?;
    assert_eq!(rt; disk.reads(), 1);
    Ok(())
}
