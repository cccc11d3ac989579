//! A run over one or two images in memory.

ghost use Rattle.std.specs.Prelude.{◌≡◌, ◌≢◌, ℕ, List, None, IfOk, OnOk};
ghost use Rattle.zio_outside.specs.MemoryShelf.{out_of, shelf_slot};
ghost use Rattle.zio_report.specs.Meanings.{IsEmptyJournal};

use std::alloc::Global;
use std::sync::Wait;
use std::test::Fail;
use std::thread::Threads;
use zio_outside::{MemDisk, MemShelf, MemSink, MemSource};
use zio_run::{zio_main, zio_serial_main};
use zio_types::{Journal, List, Text};

/// The bytes that a sink takes.
const ROOM: u64 = 16384;

/// An object of the outside.
#[derive(Clone, Copy, Debug, PartialEq)]
pub enum Object {
    Source,
    Shelf,
    FirstDisk,
    SecondDisk,
    Sink,
}

/// The one call that fails, by its number from 0 among those of its object.
#[derive(Clone, Copy)]
pub struct Failing {
    pub object: Object,
    pub call: u64,
}

/// What is run.
#[derive(Clone, Copy)]
pub struct Case<'a> {
    pub words: &'a [&'a str],
    pub script: &'a [u8],
    /// The bytes of the images `a` and, if it isn't 0, `b`.
    pub first_len: usize,
    pub second_len: usize,
}

/// What it came to.
#[derive(Drop)]
pub struct Ran {
    pub code: u8,
    pub sink: MemSink,
    pub shelf: MemShelf,
    pub journal: Journal,
}

pub fn bytes_of(alloc: Global, text: &[u8]) -> Result<List<u8>, Fail> {
    let mut bytes = List::new(alloc);
    bytes.extend_from_slice(text)?;
    Ok(bytes)
}

/// The calls of this object that fail.
fn fails_of(alloc: Global, object: Object, failing: Option<Failing>) -> Result<List<u64>, Fail> {
    let mut calls = List::new(alloc);
    if let Some(failing) = failing {
        if failing.object == object {
            calls.push(failing.call)?;
        }
    }
    Ok(calls)
}

pub fn words_of(alloc: Global, words: &[&str]) -> Result<Vec<String>, Fail> {
    let mut owned = Vec::new(alloc);
    for word in words {
        owned.push(String::from_str(alloc, word)?)?;
    }
    Ok(owned)
}

/// The words with these picks behind the first.
fn words_with_picks(alloc: Global, words: &[&str], seed: u64) -> Result<Vec<String>, Fail> {
    let [command, others @ ..] = words else {
        return Err(Fail::from("no words"));
    };
    let mut owned = Vec::new(alloc);
    owned.push(String::from_str(alloc, command)?)?;
    owned.push(String::from_str(alloc, "--picks")?)?;
    owned.push(format!(in alloc; "{seed}")?)?;
    for word in others {
        owned.push(String::from_str(alloc, word)?)?;
    }
    Ok(owned)
}

/// Puts a disk of zeros on the shelf.
fn put_zeros(
    alloc: Global,
    shelf: &mut MemShelf,
    name: &str,
    len: usize,
    fails: List<u64>,
) -> Result<(), Fail>
    requires free { shelf_slot shelf.old name.now ≡ None }
    requires home { (other : List ℕ) → ¬ out_of (shelf_slot shelf.old) other }
    ensures home { OnOk result ((other : List ℕ) → ¬ out_of (shelf_slot shelf.new) other) }
    ensures others { OnOk result ((other : List ℕ) → other ≢ name.now →
        shelf_slot shelf.new other ≡ shelf_slot shelf.old other) }
{
    let image = List::from_vec(vec![in alloc; 0; len]?);
    let name = Text::from_string(String::from_str(alloc, name)?);
    match shelf.put(name, MemDisk::new(image, fails)) {
        Ok(()) => Ok(()),
        Err(_) => Err(Fail::from("no memory")),
    }
}

/// A shelf of the images of the case.
fn shelf_of(alloc: Global, case: &Case<'_>, failing: Option<Failing>) -> Result<MemShelf, Fail>
    ensures { IfOk result (λ shelf. (name : List ℕ) → ¬ out_of (shelf_slot shelf) name) }
{
    let mut shelf = MemShelf::new(alloc, fails_of(alloc, Object::Shelf, failing)?);
    let fails = fails_of(alloc, Object::FirstDisk, failing)?;
    put_zeros(alloc, &mut shelf, "a", case.first_len, fails)?;
    if case.second_len > 0 {
        let fails = fails_of(alloc, Object::SecondDisk, failing)?;
        put_zeros(alloc, &mut shelf, "b", case.second_len, fails)?;
    }
    Ok(shelf)
}

/// The objects of the outside that a run of the case gets.
#[derive(Drop)]
struct Outside {
    source: MemSource,
    sink: MemSink,
    shelf: MemShelf,
    journal: Journal,
}

impl Outside {
    fn of(alloc: Global, case: &Case<'_>, failing: Option<Failing>) -> Result<Outside, Fail>
        ensures empty { IfOk result (λ outside. IsEmptyJournal outside.journal) }
        ensures home { IfOk result (λ outside. (name : List ℕ) → ¬ out_of (shelf_slot outside.shelf) name) }
    {
        let fails = fails_of(alloc, Object::Source, failing)?;
        let source = MemSource::new(bytes_of(alloc, case.script)?, fails);
        let sink = MemSink::new(alloc, ROOM, fails_of(alloc, Object::Sink, failing)?)?;
        let shelf = shelf_of(alloc, case, failing)?;
        Ok(Outside {
            source,
            sink,
            shelf,
            journal: Journal::new(alloc),
        })
    }

    fn after(self, code: u8) -> Ran {
        let Outside {
            sink,
            shelf,
            journal,
            ..
        } = self;
        Ran {
            code,
            sink,
            shelf,
            journal,
        }
    }
}

/// Runs the script of the case by these words. This is the one call of `zio_serial_main` over disks that keep what they
/// take.
fn run_words(
    alloc: Global,
    case: &Case<'_>,
    words: &[String],
    failing: Option<Failing>,
) -> Result<Ran, Fail> {
    let mut outside = Outside::of(alloc, case, failing)?;
    let status = zio_serial_main(
        alloc,
        words,
        &mut outside.source,
        &mut outside.shelf,
        &mut outside.sink,
        &mut outside.journal,
    );
    Ok(outside.after(status.code))
}

/// Runs the case as it stands.
pub fn run(alloc: Global, case: &Case<'_>) -> Result<Ran, Fail> {
    let words = words_of(alloc, case.words)?;
    run_words(alloc, case, words.as_slice(), None)
}

/// Runs the case by the picks of a seed.
pub fn run_with_picks(alloc: Global, case: &Case<'_>, seed: u64) -> Result<Ran, Fail> {
    let words = words_with_picks(alloc, case.words, seed)?;
    run_words(alloc, case, words.as_slice(), None)
}

/// Runs the case while one call of the outside fails.
pub fn run_failing(alloc: Global, case: &Case<'_>, failing: Failing) -> Result<Ran, Fail> {
    let words = words_of(alloc, case.words)?;
    run_words(alloc, case, words.as_slice(), Some(failing))
}

/// Runs the case by workers while one call of the outside fails.
pub fn run_failing_by_workers<R: Threads + Wait + Sync>(
    rt: &R,
    alloc: Global,
    case: &Case<'_>,
    failing: Failing,
) -> Result<Ran, Fail> {
    let words = words_of(alloc, case.words)?;
    let mut outside = Outside::of(alloc, case, Some(failing))?;
    let status = zio_main(
        rt,
        alloc,
        words.as_slice(),
        &mut outside.source,
        &mut outside.shelf,
        &mut outside.sink,
        &mut outside.journal,
    );
    Ok(outside.after(status.code))
}
