ghost use Rattle.std.specs.Prelude.{◌≡◌, IfOk};

use std::alloc::{Allocator, Global};
use std::fmt::Display;
use std::io::{BufRead, Lines};
use std::test::Fail;
use std::{env, fs, io, thread};
use zio_outside::{
    Disk, Failed, FetchFault, FileShelf, Gate, MeetGate, MemDisk, MemShelf, MemSink, MemSource,
    MemSyncDisk, NoGate, Shelf, Sink, Source, StdSink, StdSource, SyncDisk,
};
use zio_types::{Bytes, List, NoMemory, Text};

fn bytes(alloc: Global, items: &[u8]) -> Result<Bytes, NoMemory>
    ensures { IfOk result (λ list. list ≡ items.now) }
{
    let mut list = List::new(alloc);
    list.extend_from_slice(items)?;
    Ok(list)
}

fn numbers(alloc: Global, items: &[u64]) -> Result<List<u64>, NoMemory>
    ensures { IfOk result (λ list. list ≡ items.now) }
{
    let mut list = List::new(alloc);
    list.extend_from_slice(items)?;
    Ok(list)
}

/// A disk can be handed to another thread.
fn goes_to_threads<D: Disk + Send>(_disk: &D) {}

fn text(alloc: Global, name: &str) -> Result<Text, NoMemory>
    ensures { IfOk result (λ text. text ≡ name.now) }
{
    let mut text = Text::new(alloc);
    text.push_str(name)?;
    Ok(text)
}

#[test]
fn a_listed_read_fails_and_moves_nothing(rt: HostRuntime) -> Result<(), Fail> {
    let mut source = MemSource::new(bytes(rt.alloc(), b"abc")?, numbers(rt.alloc(), &[1])?);
    let mut buffer = [0u8; 2];
    assert_eq!(rt; source.read(&mut buffer), Ok(2));
    assert_eq!(rt; buffer, *b"ab");
    assert_eq!(rt; source.read(&mut buffer), Err(Failed));
    assert_eq!(rt; source.read(&mut buffer), Ok(1));
    assert_eq!(rt; buffer, *b"cb");
    assert_eq!(rt; source.read(&mut buffer), Ok(0));
    Ok(())
}

#[test]
fn a_piece_without_room_is_not_taken(rt: HostRuntime) -> Result<(), Fail> {
    let mut sink = MemSink::new(rt.alloc(), 4, List::new(rt.alloc()))?;
    assert_eq!(rt; sink.write(b"abc"), Ok(()));
    assert_eq!(rt; sink.write(b"de"), Err(Failed));
    assert_eq!(rt; sink.write(b"f"), Ok(()));
    assert_eq!(rt; sink.held(), b"abcf".as_slice());
    Ok(())
}

#[test]
fn a_listed_write_leaves_the_image(rt: HostRuntime) -> Result<(), Fail> {
    let mut disk = MemDisk::new(bytes(rt.alloc(), b"abcdef")?, numbers(rt.alloc(), &[1])?);
    goes_to_threads(&disk);
    let mut buffer = [0u8; 2];
    assert_eq!(rt; disk.write_at(1, b"xy"), Ok(()));
    assert_eq!(rt; disk.write_at(2, b"zz"), Err(Failed));
    assert_eq!(rt; disk.read_at(2, &mut buffer), Ok(()));
    assert_eq!(rt; buffer, *b"yd");
    assert_eq!(rt; disk.image(), b"axydef".as_slice());
    assert_eq!(rt; disk.reads(), 1);
    assert_eq!(rt; disk.writes(), 2);
    Ok(())
}

/// What was written is stable once it is synced, and a listed sync leaves it as it was.
#[test]
fn a_write_is_stable_behind_a_sync(rt: HostRuntime) -> Result<(), Fail> {
    let fails = numbers(rt.alloc(), &[1])?;
    let mut disk = MemSyncDisk::new(rt.alloc(), bytes(rt.alloc(), b"abcdef")?, fails, 4)?;
    assert_eq!(rt; disk.write_at(1, b"xy"), Ok(()));
    assert_eq!(rt; disk.sync(), Err(Failed));
    assert_eq!(rt; disk.stable(), b"abcdef".as_slice());
    assert_eq!(rt; disk.ranges().len(), 1);
    assert_eq!(rt; disk.sync(), Ok(()));
    assert_eq!(rt; disk.stable(), b"axydef".as_slice());
    assert_eq!(rt; disk.ranges().len(), 0);
    Ok(())
}

#[test]
fn a_disk_goes_out_and_comes_home(rt: HostRuntime) -> Result<(), Fail> {
    let mut shelf = MemShelf::new(rt.alloc(), List::new(rt.alloc()));
    let disk = MemDisk::new(bytes(rt.alloc(), b"abc")?, List::new(rt.alloc()));
    let Ok(()) = shelf.put(text(rt.alloc(), "a")?, disk) else {
        return Err(Fail::from("no memory"));
    };
    let mut disk = shelf.fetch("a")?;
    assert!(rt; shelf.disk("a").is_none());
    assert_eq!(rt; disk.write_at(0, b"x"), Ok(()));
    shelf.give_back(disk);
    assert_eq!(rt; shelf.disk("a").map(|d| d.image()), Some(b"xbc".as_slice()));
    Ok(())
}

#[test]
fn a_listed_fetch_and_an_unknown_name_are_faults(rt: HostRuntime) -> Result<(), Fail> {
    let mut shelf = MemShelf::new(rt.alloc(), numbers(rt.alloc(), &[0])?);
    let disk = MemDisk::new(bytes(rt.alloc(), b"abc")?, List::new(rt.alloc()));
    let Ok(()) = shelf.put(text(rt.alloc(), "a")?, disk) else {
        return Err(Fail::from("no memory"));
    };
    let Err(listed) = shelf.fetch("a") else {
        return Err(Fail::from("the fetch is listed"));
    };
    assert_eq!(rt; listed, FetchFault::Failed);
    assert_eq!(rt; shelf.fetch("b").err(), Some(FetchFault::Failed));
    Ok(())
}

#[test]
fn a_file_is_a_disk(rt: HostRuntime) -> Result<(), Fail> {
    let path = env::temp_dir(&rt)?.join(rt.alloc(), "zio_outside_a_file_is_a_disk")?;
    fs::write(&rt, path.as_path(), b"abcdef")?;
    let mut shelf = FileShelf::new(&rt);
    let mut disk = shelf.fetch(path.as_str())?;
    goes_to_threads(&disk);
    assert_eq!(rt; disk.size(), 6);
    let mut buffer = [0u8; 2];
    if disk.size() == 6 {
        assert_eq!(rt; disk.write_at(1, b"xy"), Ok(()));
        assert_eq!(rt; disk.sync(), Ok(()));
        assert_eq!(rt; disk.read_at(2, &mut buffer), Ok(()));
        assert_eq!(rt; buffer, *b"yd");
        fs::write(&rt, path.as_path(), b"axy")?;
        assert_eq!(rt;
            disk.read_at(4, &mut buffer),
            Err(Failed),
            "the file has become too small"
        );
    }
    shelf.give_back(disk);
    fs::remove_file(&rt, path.as_path())?;
    assert_eq!(rt;
        shelf.fetch(path.as_str()).err(),
        Some(FetchFault::Failed),
        "the file is gone"
    );
    Ok(())
}

/// An input of three bytes, and an output that fails.
struct Fake;

impl Input for Fake {
    type Reader = &'static [u8];

    fn read_line<A: Allocator + Clone>(&self, buf: &mut String<A>) -> io::Result<usize> {
        self.reader().read_line(buf)
    }

    fn lines<A: Allocator>(&self, alloc: A) -> Lines<&'static [u8], A> {
        self.reader().lines(alloc)
    }

    fn reader(&self) -> &'static [u8] {
        b"abc"
    }
}

impl Print for Fake {
    fn print<D: Display + Drop>(&self, _value: D) -> io::Result<()> {
        self.write_all(b"")
    }

    fn println<D: Display + Drop>(&self, _value: D) -> io::Result<()> {
        self.write_all(b"")
    }

    fn write_all(&self, _bytes: &[u8]) -> io::Result<()> {
        Err(io::Error::from(io::ErrorKind::BrokenPipe))
    }
}

#[test]
fn the_standard_input_is_a_source(rt: HostRuntime) {
    let mut source = StdSource::new(&Fake);
    let mut buffer = [0u8; 2];
    assert_eq!(rt; source.read(&mut buffer), Ok(2));
    assert_eq!(rt; buffer, *b"ab");
    assert_eq!(rt; source.read(&mut buffer), Ok(1));
    assert_eq!(rt; buffer, *b"cb");
    assert_eq!(rt; source.read(&mut buffer), Ok(0));
}

#[test]
fn an_output_that_fails_is_a_fault(rt: HostRuntime) {
    assert_eq!(rt; StdSink::new(&rt).write(b"written\n"), Ok(()));
    assert_eq!(rt; StdSink::new(&Fake).write(b"lost"), Err(Failed));
}

#[test]
fn two_threads_meet_at_the_gate(rt: HostRuntime) {
    let gate = MeetGate::new((3, 0), (4, 1), 10_000_000);
    thread::join(&rt, || gate.before(3, 0), || gate.before(4, 1));
    assert!(rt; gate.met());
}

#[test]
fn one_thread_never_meets_itself(rt: HostRuntime) {
    let gate = MeetGate::new((3, 0), (4, 1), 1000);
    for _ in 0..3 {
        gate.before(3, 0);
        gate.before(4, 1);
        gate.completed(3);
    }
    assert!(rt; !gate.met());
}

#[test]
fn other_operations_pass_a_gate_at_once(rt: HostRuntime) {
    let gate = MeetGate::new((3, 0), (4, 1), u64::MAX);
    gate.before(3, 1);
    gate.before(4, 0);
    NoGate.before(3, 0);
    NoGate.completed(3);
    assert!(rt; !gate.met());
}
