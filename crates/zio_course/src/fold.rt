//! What a run has between two rounds.

ghost use Rattle.std.specs.Prelude.{◌≡◌, ◌&&◌, ◌+◌, ◌<◌, ◌^◌, ◌++◌, ◌||◌, ◌*◌, ◌≤◌, [], ℕ, List, IfOk, None, OnOk, false, length, map};
ghost use Rattle.zio_script.specs.Requests.{requests_of};
ghost use Rattle.zio_gang.specs.Runs.{is_panic};
ghost use Rattle.zio_course.specs.Names.{is_name_in, named_in};
ghost use Rattle.zio_course.specs.Folds.{counted_by, counted_in, has_items, is_named_by, waiting_by, waiting_of};

use crate::awaited::Awaited;
use crate::bound::Bound;
use crate::lines::first_line;
use crate::round::both;
use std::alloc::Global;
use std::mem;
use zio_report::{LineResult, ReportLine};
use zio_script::{Failmode, Item, Request};
use zio_types::{List, NoMemory};

/// How many requests finished, and what they read.
#[derive(Clone, Copy, Debug, PartialEq, Eq)]
pub struct Tally {
    /// Without error.
    pub good: u32,
    /// With an error.
    pub bad: u32,
    /// The bytes of the reads without error. It is wide, since no clause bounds the bytes of a read.
    pub read: u128,
}

/// The lines of a batch.
#[derive(Clone, Copy, Debug)]
pub struct Batch<'a> {
    /// From 1.
    pub number: u32,
    pub lines: &'a [Item],
}

/// A run between two rounds.
#[derive(Drop)]
pub struct Fold<'a, T> {
    pub bound: Bound,
    /// The trees that wait for the next `clear`.
    pub suspended: List<T>,
    /// Their requests, by number.
    pub unfinished: Vec<&'a Request>,
    /// The names that these name.
    pub awaited: Awaited,
    /// The resume point.
    pub point: u32,
    /// The last round left a tree, and the failmode is panic.
    pub panicked: bool,
    pub tally: Tally,
}

impl Tally {
    /// Counts a request by what is shown of it.
    fn count(&mut self, shown: &LineResult)
        requires few { self.old.good + self.old.bad + 1 < 2 ^ 32 }
        requires sums { self.old.read ≤ self.old.good * 2 ^ 64 }
        ensures counted { self.new ≡ counted_by shown.now self.old }
        ensures sums { self.new.read ≤ self.new.good * 2 ^ 64 }
        ensures few { self.new.good + self.new.bad ≤ self.old.good + self.old.bad + 1 }
    {
        match shown {
            LineResult::Suspended => {}
            LineResult::Failed(_) => self.bad += 1,
            LineResult::Done | LineResult::Sized(_) => self.good += 1,
            LineResult::Bytes(bytes) => {
                self.good += 1;
                self.read += bytes.len() as u128;
            }
        }
    }
}

impl<'a, T: Drop> Fold<'a, T> {
    /// Before the first line: nothing is bound, and nothing waits.
    pub fn new(alloc: Global) -> Fold<'a, T>
        ensures bound { (name : List ℕ) → named_in result.bound name ≡ None }
        ensures suspended { result.suspended ≡ [] }
        ensures unfinished { result.unfinished.items ≡ [] }
        ensures awaited { (name : List ℕ) → is_name_in result.awaited name ≡ false }
        ensures point { result.point ≡ 0 }
        ensures panicked { result.panicked ≡ false }
        ensures tally { result.tally ≡ record { good = 0; bad = 0; read = 0 } }
    {
        Fold {
            bound: Bound::new(alloc),
            suspended: List::new(alloc),
            unfinished: Vec::new(alloc),
            awaited: Awaited::new(alloc),
            point: 0,
            panicked: false,
            tally: Tally {
                good: 0,
                bad: 0,
                read: 0,
            },
        }
    }

    /// Notes what became of a round's requests, each by its line.
    pub fn note_all(
        &mut self,
        requests: &[&'a Request],
        lines: &[ReportLine],
    ) -> Result<(), NoMemory>
        requires lengths { length requests.now ≡ length lines.now }
        requires few { self.old.tally.good + self.old.tally.bad + length lines.now < 2 ^ 32 }
        requires sums { self.old.tally.read ≤ self.old.tally.good * 2 ^ 64 }
        ensures unfinished { OnOk result (map (λ r. r.now) self.new.unfinished.items
            ≡ map (λ r. r.now) self.old.unfinished.items ++ waiting_of (map (λ r. r.now) requests.now) lines.now) }
        ensures awaited { OnOk result ((name : List ℕ)
            → is_name_in self.new.awaited name
            ≡ (is_name_in self.old.awaited name || is_named_by (waiting_of (map (λ r. r.now) requests.now) lines.now)
            name)) }
        ensures tally { OnOk result (self.new.tally ≡ counted_in lines.now self.old.tally) }
        ensures sums { OnOk result (self.new.tally.read ≤ self.new.tally.good * 2 ^ 64) }
        ensures bound { self.new.bound ≡ self.old.bound }
        ensures suspended { self.new.suspended ≡ self.old.suspended }
        ensures point { self.new.point ≡ self.old.point }
        ensures panicked { self.new.panicked ≡ self.old.panicked }
    {
        for (i, line) in lines.iter().enumerate() {
            self.note(requests[i], line)?;
        }
        Ok(())
    }

    /// Notes what became of a request.
    fn note(&mut self, request: &'a Request, line: &ReportLine) -> Result<(), NoMemory>
        requires few { self.old.tally.good + self.old.tally.bad + 1 < 2 ^ 32 }
        requires sums { self.old.tally.read ≤ self.old.tally.good * 2 ^ 64 }
        ensures unfinished { OnOk result (map (λ r. r.now) self.new.unfinished.items
            ≡ map (λ r. r.now) self.old.unfinished.items ++ waiting_by line.now.result request.now) }
        ensures awaited { OnOk result ((name : List ℕ)
            → is_name_in self.new.awaited name
            ≡ (is_name_in self.old.awaited name || is_named_by (waiting_by line.now.result request.now) name)) }
        ensures tally { self.new.tally ≡ counted_by line.now.result self.old.tally }
        ensures sums { self.new.tally.read ≤ self.new.tally.good * 2 ^ 64 }
        ensures few { self.new.tally.good + self.new.tally.bad ≤ self.old.tally.good + self.old.tally.bad + 1 }
        ensures bound { self.new.bound ≡ self.old.bound }
        ensures suspended { self.new.suspended ≡ self.old.suspended }
        ensures point { self.new.point ≡ self.old.point }
        ensures panicked { self.new.panicked ≡ self.old.panicked }
    {
        self.tally.count(&line.result);
        if let LineResult::Suspended = line.result {
            self.unfinished.push(request)?;
            if let Some(name) = request.work.name() {
                self.awaited.insert(name)?;
            }
        }
        Ok(())
    }

    /// Suspends what a round left of its trees, behind those that wait. A tree that is left ends the run under panic.
    pub fn suspend(
        &mut self,
        alloc: Global,
        left: List<T>,
        failmode: Failmode,
    ) -> Result<(), NoMemory>
        ensures suspended { OnOk result (self.new.suspended ≡ self.old.suspended ++ left) }
        ensures panicked { OnOk result (self.new.panicked ≡ (is_panic failmode && has_items left)) }
        ensures bound { self.new.bound ≡ self.old.bound }
        ensures unfinished { self.new.unfinished ≡ self.old.unfinished }
        ensures awaited { self.new.awaited ≡ self.old.awaited }
        ensures point { self.new.point ≡ self.old.point }
        ensures tally { self.new.tally ≡ self.old.tally }
    {
        self.panicked = failmode == Failmode::Panic && !left.is_empty();
        let waiting = mem::replace(&mut self.suspended, List::new(alloc));
        self.suspended = both(waiting, left)?;
        Ok(())
    }
}

/// The requests of a batch.
pub fn requests_in<'a>(alloc: Global, lines: &'a [Item]) -> Result<Vec<&'a Request>, NoMemory>
    ensures { IfOk result (λ found. map (λ r. r.now) found.items ≡ requests_of lines.now) }
{
    let mut found = Vec::new(alloc);
    let mut rest = lines;
    while let Some((item, more)) = first_line(rest) {
        if let Item::Request(request) = item {
            found.push(request)?;
        }
        rest = more;
    }
    Ok(found)
}
