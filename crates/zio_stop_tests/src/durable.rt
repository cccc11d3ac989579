//! Runs over a disk with a volatile cache: what is stable afterwards, and calls that fail.

ghost use Rattle.std.specs.Prelude.{◌≡◌, ℕ, List, IfOk};
ghost use Rattle.zio_outside.specs.MemoryShelf.{out_of, shelf_slot};

use std::alloc::Global;
use std::process::Abort;
use std::test::Fail;
use zio_outside::{MemShelf, MemSink, MemSource, MemSyncDisk, MemSyncShelf, Written};
use zio_run::zio_durable_main;
use zio_run_cases::{bytes_of, words_of};
use zio_types::{Journal, List, Text};

/// A block is written, and then read.
const WRITE_THEN_READ: &[u8] =
    b"top 0\n1 write x sha256 1 sync fill 41 512\ngo\n2 read x sync\ngo\n";

/// What that comes to.
const READ_BACK: &[u8] =
    b"pool 1 1\nround 1 batch 1 point 0\n1 write x ok 512\nround 2 batch 2 point 0\n\
    2 read x ok 512 20a0a0a080:83878787040:16439b9b85580:2d92628254f020\nend 0\n";

/// Its calls of the disk: a write and a sync, a read and a sync.
const ITS_CALLS: u32 = 4;

const IMAGE_LEN: usize = 65536;

/// What a run came to.
#[derive(Drop)]
struct Ran {
    code: u8,
    sink: MemSink,
    shelf: MemSyncShelf,
    journal: Journal,
}

/// A disk of zeros. Its calls of these numbers fail, and those after so many.
fn disk_of(alloc: Global, fails: &[u64], calls: u32) -> Result<MemSyncDisk, Fail> {
    let image = List::from_vec(vec![in alloc; 0; IMAGE_LEN]?);
    let mut failing = List::new(alloc);
    failing.extend_from_slice(fails)?;
    Ok(MemSyncDisk::new(alloc, image, failing, calls)?)
}

/// A shelf with this disk, `a`.
fn shelf_of(alloc: Global, disk: MemSyncDisk) -> Result<MemSyncShelf, Fail>
    ensures { IfOk result (λ shelf. (name : List ℕ) → ¬ out_of (shelf_slot shelf) name) }
{
    let mut shelf = MemShelf::new(alloc, List::new(alloc));
    let name = Text::from_string(String::from_str(alloc, "a")?);
    match shelf.put(name, disk) {
        Ok(()) => Ok(shelf),
        Err(_) => Err(Fail::from("no memory")),
    }
}

/// Runs the script by these words over such a disk.
fn run(
    alloc: Global,
    words: &[&str],
    script: &[u8],
    fails: &[u64],
    calls: u32,
) -> Result<Ran, Fail> {
    let words = words_of(alloc, words)?;
    let mut source = MemSource::new(bytes_of(alloc, script)?, List::new(alloc));
    let mut sink = MemSink::new(alloc, 16384, List::new(alloc))?;
    let mut shelf = shelf_of(alloc, disk_of(alloc, fails, calls)?)?;
    let mut journal = Journal::new(alloc);
    let status = zio_durable_main(
        alloc,
        words.as_slice(),
        &mut source,
        &mut shelf,
        &mut sink,
        &mut journal,
    );
    Ok(Ran {
        code: status.code,
        sink,
        shelf,
        journal,
    })
}

/// Compares the code, the output and the number of rounds, and what the disk keeps: how many sectors of the stable image
/// are 512 bytes 0x41, and how many are zeros; and the sizes of the ranges written since.
fn check(
    rt: &impl Abort,
    ran: &Ran,
    code: u8,
    output: &[u8],
    rounds: u32,
    sectors: (usize, usize),
    ranges: &[u64],
) -> Result<(), Fail> {
    assert_eq!(rt;
        (ran.code, ran.sink.held(), ran.journal.rounds),
        (code, output, rounds)
    );
    let disk = ran.shelf.disk("a").ok_or("the disk isn't home")?;
    let found = (
        sectors_of(disk.stable(), 0x41),
        sectors_of(disk.stable(), 0),
    );
    assert_eq!(rt; found, sectors);
    assert!(rt; lens_are(disk.ranges(), ranges));
    Ok(())
}

/// How many sectors have this byte alone.
fn sectors_of(image: &[u8], byte: u8) -> usize {
    image
        .chunks(512)
        .filter(|sector| sector.iter().all(|b| *b == byte))
        .count()
}

/// The ranges have these sizes.
fn lens_are(ranges: &[Written], lens: &[u64]) -> bool {
    match (ranges, lens) {
        ([range, ranges @ ..], [len, lens @ ..]) => range.len == *len && lens_are(ranges, lens),
        ([], []) => true,
        _ => false,
    }
}

/// The report is that of `zio_serial run`, each disk is synced once a round, and the block is stable.
#[test]
fn write_then_read(rt: HostRuntime) -> Result<(), Fail> {
    let ran = run(rt.alloc(), &["a"], WRITE_THEN_READ, &[], ITS_CALLS)?;
    check(&rt, &ran, 0, READ_BACK, 2, (1, 127), &[])
}

/// The first sync fails: the text of no round is written, and the block may be lost.
#[test]
fn first_sync_fails(rt: HostRuntime) -> Result<(), Fail> {
    let ran = run(rt.alloc(), &["a"], WRITE_THEN_READ, &[1], ITS_CALLS)?;
    check(&rt, &ran, 7, b"pool 1 1\n", 0, (0, 128), &[512])
}

/// The second sync fails: the text of the first round was written, and its block is stable.
#[test]
fn second_sync_fails(rt: HostRuntime) -> Result<(), Fail> {
    let ran = run(rt.alloc(), &["a"], WRITE_THEN_READ, &[3], ITS_CALLS)?;
    let output = b"pool 1 1\nround 1 batch 1 point 0\n1 write x ok 512\n";
    check(&rt, &ran, 7, output, 1, (1, 127), &[])
}

/// No round runs, and no disk is synced.
#[test]
fn script_without_rounds(rt: HostRuntime) -> Result<(), Fail> {
    let ran = run(rt.alloc(), &["a"], b"top 0\n", &[], 0)?;
    check(&rt, &ran, 0, b"pool 1 1\nend 0\n", 0, (0, 128), &[])
}

/// Words that name no images are refused, those of a run with options among them.
#[test]
fn words_of_no_images(rt: HostRuntime) -> Result<(), Fail> {
    for words in [&["--picks", "1", "a"][..], &[], &["a", "a"], &["--help"]] {
        let ran = run(rt.alloc(), words, WRITE_THEN_READ, &[], 0)?;
        check(&rt, &ran, 1, b"words\n", 0, (0, 128), &[])?;
    }
    Ok(())
}

/// A word `run` is the name of an image, which isn't there.
#[test]
fn run_is_a_name(rt: HostRuntime) -> Result<(), Fail> {
    let ran = run(rt.alloc(), &["run", "a"], WRITE_THEN_READ, &[], 0)?;
    check(&rt, &ran, 3, b"images 0\n", 0, (0, 128), &[])
}
