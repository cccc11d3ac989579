//! Reports, refusals and images that no clause spells out.

use crate::forgetful_shelf::ForgetfulShelf;
use std::alloc::Global;
use std::process::Abort;
use std::test::Fail;
use zio_outside::{MemSink, MemSource};
use zio_run::zio_serial_main;
use zio_run_cases::{Case, Ran, bytes_of, run, run_with_picks, words_of};
use zio_types::{Journal, List};

/// The shortest script over the smallest image.
const SHORTEST: Case<'static> = Case {
    words: &["run", "a"],
    script: b"top 0\n",
    first_len: 65536,
    second_len: 0,
};

/// How many sectors have this byte alone.
fn sectors_of(image: &[u8], byte: u8) -> usize {
    image
        .chunks(512)
        .filter(|sector| sector.iter().all(|b| *b == byte))
        .count()
}

/// Compares the code and the output, how many sectors of the image `a` are 512 bytes 0x41 afterwards, and how many have
/// other bytes that aren't all zeros.
fn check_ran(
    rt: &impl Abort,
    ran: &Ran,
    len: usize,
    code: u8,
    output: &[u8],
    written: usize,
    others: usize,
) -> Result<(), Fail> {
    assert_eq!(rt; (ran.code, ran.sink.held()), (code, output));
    let image = ran.shelf.disk("a").ok_or("the disk isn't home")?.image();
    let sectors = image.len() / 512;
    let found = sectors_of(image, 0x41);
    let zeros = sectors_of(image, 0);
    let rest = sectors.saturating_sub(found).saturating_sub(zeros);
    assert_eq!(rt; (sectors, found, rest), (len / 512, written, others));
    Ok(())
}

/// Runs the case as it stands, and compares what it comes to.
fn check(
    rt: &impl Abort,
    alloc: Global,
    case: &Case<'_>,
    code: u8,
    output: &[u8],
    written: usize,
    others: usize,
) -> Result<(), Fail> {
    let ran = run(alloc, case)?;
    check_ran(rt, &ran, case.first_len, code, output, written, others)
}

/// Three bodies in a batch, their reads by every class with a read of no block, and a second write of a name. The sums
/// are fletcher4 of the bodies with zeros up to a sector.
#[test]
fn bodies_of_every_form(rt: HostRuntime) -> Result<(), Fail> {
    let case = Case {
        script: b"# bodies\n\ntop 0\n1 write a off 1 async data 00fF\n2\twrite b  fletcher4 1 sync fill 42 3\r\n\
            3 write c sha256 1 sync seq 0 12\ngo\n4 read a scrub\n5 read b async\n6 read c sync\n7 read d sync\ngo\n\
            8 write a off 1 sync fill 41 512\ngo",
        ..SHORTEST
    };
    let output =
        b"pool 1 1\nround 1 batch 1 point 0\n1 write a ok 512\n2 write b ok 512\n3 write c ok 512\n\
        round 2 batch 2 point 0\n4 read a ok 512 ff00:7f8000:201fc000:5700a8000\n\
        5 read b ok 512 424242:21212100:858d8d080:169b4b34b00\n\
        6 read c ok 512 1902769ff:c6f63aa99e:31dabea9dbf2:864badd066b00\n7 read d ENOENT\n\
        round 3 batch 3 point 0\n8 write a EEXIST\nend 0\n";
    check(&rt, rt.alloc(), &case, 0, output, 0, 3)
}

/// The order of tasks doesn't change this report.
#[test]
fn smallest_and_largest_picks_agree(rt: HostRuntime) -> Result<(), Fail> {
    let alloc = rt.alloc();
    let output = b"pool 1 1\nround 1 batch 1 point 0\n1 write x ok 512\nround 2 batch 2 point 0\n\
        2 read x ok 512 20a0a0a080:83878787040:16439b9b85580:2d92628254f020\nend 0\n";
    let case = Case {
        script: b"top 0\n1 write x sha256 1 sync fill 41 512\ngo\n2 read x sync\ngo\n",
        ..SHORTEST
    };
    for seed in [0, 18446744073709551615] {
        let ran = run_with_picks(alloc, &case, seed)?;
        check_ran(&rt, &ran, case.first_len, 0, output, 1, 0)?;
    }
    Ok(())
}

/// The text is the one that docs/FORMATS.md has.
#[test]
fn script_of_one_block_is_generated(rt: HostRuntime) -> Result<(), Fail> {
    let text =
        b"top 0 1\ntop 2 3\nfault 2 any 0 268435456 0 1 gone\nfault 3 any 0 268435456 0 1 gone\n\
        fault 0 read 0 268435456 0 2 eio\n1 write b1 sha256 1 async seq 8 9728\ngo\n2 read b1 async must\ngo\n\
        3 free b1 must\ngo\nclear\nclear\n";
    let case = Case {
        words: &["gen", "7", "1"],
        ..SHORTEST
    };
    check(&rt, rt.alloc(), &case, 0, text, 0, 0)
}

/// A script that is made from two numbers is run, and its summary is written.
#[test]
fn a_generated_script_is_run(rt: HostRuntime) -> Result<(), Fail> {
    let alloc = rt.alloc();
    let case = Case {
        words: &["load", "7", "1", "a"],
        first_len: 65536,
        ..SHORTEST
    };
    check(&rt, alloc, &case, 3, b"images 1\n", 0, 0)
}

/// Words that are no command, with a comma between two.
const NO_COMMANDS: [&str; 13] = [
    "run",
    "run,-a",
    "run,",
    "go,a",
    "run,a,a",
    "run,a,--data",
    "run,--picks,a",
    "gen,7",
    "gen,07,1",
    "gen,7,20001",
    "load,7,1",
    "run,--journal,--journal,a",
    "run,--data,--journal,--data,a",
];

/// The words are no command.
fn refuses(rt: &impl Abort, alloc: Global, words: &[&str]) -> Result<(), Fail> {
    let case = Case { words, ..SHORTEST };
    check(rt, alloc, &case, 1, b"words\n", 0, 0)
}

#[test]
fn words_that_are_no_command(rt: HostRuntime) -> Result<(), Fail> {
    let alloc = rt.alloc();
    refuses(&rt, alloc, &[])?;
    for line in &NO_COMMANDS {
        let mut words = Vec::new(alloc);
        for word in line.split(',') {
            words.push(word)?;
        }
        refuses(&rt, alloc, words.as_slice())?;
    }
    Ok(())
}

/// A batch of 129 writes of a sector, one more than the disk has, and some lines behind it.
fn writes_of_129_sectors(alloc: Global, more: &str) -> Result<String, Fail> {
    let mut script = String::from_str(alloc, "top 0\n")?;
    for i in 1..130u32 {
        let line = format!(in alloc; "{i} write b{i} sha256 1 sync fill 41 512\n")?;
        script.push_str(line.as_str())?;
    }
    script.push_str("go\n")?;
    script.push_str(more)?;
    Ok(script)
}

/// How many lines of the text end so.
fn lines_with_end(text: &[u8], end: &[u8]) -> usize {
    text.split(|c| *c == b'\n')
        .filter(|line| line.ends_with(end))
        .count()
}

/// One of the writes is suspended, the others are done in one round, and the report ends so.
fn check_full(rt: &impl Abort, ran: &Ran, end: &[u8]) {
    let held = ran.sink.held();
    let suspended = lines_with_end(held, b" suspended");
    let done = lines_with_end(held, b" ok 512");
    let rounds = lines_with_end(held, b" point 0");
    assert_eq!(rt; (ran.code, suspended, done, rounds), (9, 1, 128, 1));
    assert!(rt; held.ends_with(end), "another end");
}

/// Runs the 129 writes with these lines behind them.
fn run_full(alloc: Global, more: &str) -> Result<Ran, Fail> {
    let script = writes_of_129_sectors(alloc, more)?;
    let case = Case {
        script: script.as_bytes(),
        ..SHORTEST
    };
    run(alloc, &case)
}

#[test]
fn one_of_129_writes_is_suspended(rt: HostRuntime) -> Result<(), Fail> {
    let alloc = rt.alloc();
    check_full(&rt, &run_full(alloc, "")?, b"\nend 9\n");
    let ran = run_full(alloc, "200 read b1 sync\ngo\n")?;
    check_full(&rt, &ran, b"\nheld 2\nend 9\n");
    Ok(())
}

/// What a run over a disk that forgets comes to.
#[derive(Drop)]
struct Forgotten {
    code: u8,
    sink: MemSink,
    /// How often the disk was read.
    reads: u64,
}

/// Writes a block on a disk that forgets, and reads it.
fn run_forgetful(alloc: Global) -> Result<Forgotten, Fail> {
    let script = b"top 0\n1 write x sha256 1 sync fill 41 512\ngo\n2 read x sync canfail\ngo\n";
    let mut source = MemSource::new(bytes_of(alloc, script)?, List::new(alloc));
    let mut sink = MemSink::new(alloc, 1024, List::new(alloc))?;
    let mut shelf = ForgetfulShelf::new();
    let words = words_of(alloc, &["run", "a"])?;
    let mut journal = Journal::new(alloc);
    let status = zio_serial_main(
        alloc,
        words.as_slice(),
        &mut source,
        &mut shelf,
        &mut sink,
        &mut journal,
    );
    Ok(Forgotten {
        code: status.code,
        sink,
        reads: shelf.reads(),
    })
}

/// The read is made once more.
#[test]
fn bytes_that_a_disk_lost_are_a_checksum_error(rt: HostRuntime) -> Result<(), Fail> {
    let output =
        b"pool 1 1\nround 1 batch 1 point 0\n1 write x ok 512\nround 2 batch 2 point 0\n2 read x ECKSUM\nend 0\n";
    let ran = run_forgetful(rt.alloc())?;
    assert_eq!(rt; (ran.code, ran.reads), (0, 2));
    assert_eq!(rt; ran.sink.held(), output.as_slice());
    Ok(())
}
