//! Each call of each object of the outside fails alone.

use std::alloc::Global;
use std::process::Abort;
use std::sync::Wait;
use std::test::Fail;
use std::thread::Threads;
use zio_run_cases::{Case, Failing, Object, Ran, run_failing, run_failing_by_workers};

/// More calls than any object gets in these runs.
const CALLS_MAX: u64 = 400;

/// A script with the texts of its rounds so far, each with those before: the line of the pool first, and the whole
/// report last.
#[derive(Clone, Copy)]
struct Known<'a> {
    case: Case<'a>,
    texts: &'a [&'a [u8]],
}

/// A write and its read.
const WRITE_THEN_READ: Known<'static> = Known {
    case: Case {
        words: &["run", "a"],
        script: b"top 0\n1 write x sha256 1 sync fill 41 512\ngo\n2 read x sync\ngo\n",
        first_len: 65536,
        second_len: 0,
    },
    texts: &[
        b"pool 1 1\n",
        b"pool 1 1\nround 1 batch 1 point 0\n1 write x ok 512\n",
        b"pool 1 1\nround 1 batch 1 point 0\n1 write x ok 512\nround 2 batch 2 point 0\n\
            2 read x ok 512 20a0a0a080:83878787040:16439b9b85580:2d92628254f020\nend 0\n",
    ],
};

/// A mirror whose bad leaf is mended by a read.
const MENDED: Known<'static> = Known {
    case: Case {
        words: &["run", "a", "b"],
        script: b"top 0 1\nfault 0 write 0 65536 0 1 flip\n1 write x sha256 1 sync fill 41 512\ngo\nclear\n\
            2 read x sync\ngo\n",
        first_len: 65536,
        second_len: 65536,
    },
    texts: &[
        b"pool 1 2\n",
        b"pool 1 2\nround 1 batch 1 point 0\n1 write x ok 512\n",
        b"pool 1 2\nround 1 batch 1 point 0\n1 write x ok 512\nround 2 batch 2 point 1\n\
            2 read x ok 512 20a0a0a080:83878787040:16439b9b85580:2d92628254f020\nend 0\n",
    ],
};

/// A tree that goes on after a clear without the child that has finished.
const RESUMED: Known<'static> = Known {
    case: Case {
        words: &["run", "a", "b"],
        script: b"top 0\ntop 1\nfault 1 any 0 65536 0 1 gone\n1 write p sha256 1 async fill 00 512\n\
            2 write a sha256 1 async fill 41 66048 under 1\n3 write b sha256 2 async fill 42 512 under 1\ngo\nclear\n",
        first_len: 1048576,
        second_len: 65536,
    },
    texts: &[
        b"pool 2 2\n",
        b"pool 2 2\nround 1 batch 1 point 0\n1 write p suspended\n2 write a ok 66048\n3 write b suspended\n",
        b"pool 2 2\nround 1 batch 1 point 0\n1 write p suspended\n2 write a ok 66048\n3 write b suspended\n\
            round 2 clear point 1\n1 write p ok 1024\n3 write b ok 512\nend 0\n",
    ],
};

/// A mirror whose bad leaf is mended by a scrub.
const SCRUBBED: Known<'static> = Known {
    case: Case {
        words: &["scrub", "a", "b"],
        script: b"top 0 1\nfault 0 write 0 65536 0 1 eio\n1 write x sha256 1 sync fill 41 512\ngo\nclear\n",
        first_len: 65536,
        second_len: 65536,
    },
    texts: &[
        b"pool 1 2\n",
        b"pool 1 2\nround 1 batch 1 point 0\n1 write x ok 512\nend 0\n",
        b"pool 1 2\nround 1 batch 1 point 0\n1 write x ok 512\nend 0\n\
            scrub blocks 1 copies 2 repaired 1 failed 0 lost 0\n",
    ],
};

/// The code and the output are those of a run in which this call of the object failed.
fn is_told(known: &Known<'_>, object: Object, call: u64, ran: &Ran) -> bool {
    let held = ran.sink.held();
    let whole = known
        .texts
        .last()
        .map_or(false, |text| text.starts_with(held));
    match object {
        Object::Source => ran.code == 5 && held.is_empty(),
        Object::Shelf => {
            ran.code == 3
                && held
                    == (if call == 0 {
                        b"images 0\n"
                    } else {
                        b"images 1\n"
                    })
                    .as_slice()
        }
        Object::FirstDisk | Object::SecondDisk => {
            ran.code == 7 && whole && known.texts.iter().any(|text| *text == held)
        }
        Object::Sink => ran.code == 6 && whole,
    }
}

/// All disks are at home.
fn is_home(known: &Known<'_>, ran: &Ran) -> bool {
    ran.shelf.disk("a").is_some() && (known.case.second_len == 0 || ran.shelf.disk("b").is_some())
}

/// The run is one in which this call of the object failed, or one that met no such call.
fn is_as_expected(known: &Known<'_>, object: Object, call: u64, ran: &Ran) -> bool {
    if ran.code == 0 {
        Some(&ran.sink.held()) == known.texts.last()
    } else {
        is_told(known, object, call, ran)
    }
}

/// Who runs a script.
#[derive(Clone, Copy, Debug)]
enum By {
    OneThread,
    Workers,
}

/// Lets each call of the object fail, one in each run, until a run meets none. It gives how many there were.
fn each_call<R: Abort + Threads + Wait + Sync>(
    rt: &R,
    alloc: Global,
    by: By,
    known: &Known<'_>,
    object: Object,
) -> Result<u64, Fail> {
    for call in 0..CALLS_MAX {
        let failing = Failing { object, call };
        let ran = match by {
            By::OneThread => run_failing(alloc, &known.case, failing)?,
            By::Workers => run_failing_by_workers(rt, alloc, &known.case, failing)?,
        };
        let is_right = is_home(known, &ran) && is_as_expected(known, object, call, &ran);
        assert!(rt;
            is_right,
            "{by:?}, {object:?}, call {call}: code {}",
            ran.code
        );
        if ran.code == 0 {
            return Ok(call);
        }
    }
    Err(Fail::from("more calls than were reckoned with"))
}

/// Lets each call of each object fail, where each is called at least once.
fn each_object<R: Abort + Threads + Wait + Sync>(
    rt: &R,
    alloc: Global,
    by: By,
    known: &Known<'_>,
) -> Result<(), Fail> {
    for object in [
        Object::Source,
        Object::Shelf,
        Object::FirstDisk,
        Object::SecondDisk,
        Object::Sink,
    ] {
        let is_there = object != Object::SecondDisk || known.case.second_len > 0;
        assert_eq!(rt;
            each_call(rt, alloc, by, known, object)? > 0,
            is_there,
            "calls of {object:?}"
        );
    }
    Ok(())
}

#[test]
fn each_call_fails_alone(rt: HostRuntime) -> Result<(), Fail> {
    let alloc = rt.alloc();
    each_object(&rt, alloc, By::OneThread, &WRITE_THEN_READ)?;
    each_object(&rt, alloc, By::OneThread, &MENDED)?;
    each_object(&rt, alloc, By::OneThread, &RESUMED)?;
    each_object(&rt, alloc, By::OneThread, &SCRUBBED)
}

#[test]
fn each_call_of_workers_fails_alone(rt: HostRuntime) -> Result<(), Fail> {
    let alloc = rt.alloc();
    each_object(&rt, alloc, By::Workers, &WRITE_THEN_READ)?;
    each_object(&rt, alloc, By::Workers, &MENDED)?;
    each_object(&rt, alloc, By::Workers, &RESUMED)
}

/// What was run whole stays recorded, the entry and the completion of the write, and nothing else.
fn check_first_round(rt: &impl Abort, known: &Known<'_>, ran: &Ran) {
    assert_eq!(rt; Some(&ran.sink.held()), known.texts.get(1));
    let journal = &ran.journal;
    assert_eq!(rt;
        (
            ran.code,
            journal.rounds,
            journal.places.len(),
            journal.completions.len()
        ),
        (7, 1, 1, 1)
    );
}

/// The disk fails in the second round.
#[test]
fn what_was_run_whole_stays_recorded(rt: HostRuntime) -> Result<(), Fail> {
    let failing = Failing {
        object: Object::FirstDisk,
        call: 1,
    };
    let ran = run_failing(rt.alloc(), &WRITE_THEN_READ.case, failing)?;
    check_first_round(&rt, &WRITE_THEN_READ, &ran);
    Ok(())
}
