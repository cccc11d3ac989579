// The read of a block's copies by operations on leaves.

ghost use Rattle.std.specs.Prelude.{◌≡◌, ◌≢◌, ◌+◌, ◌++◌, ◌∷◌, ◌<◌, ℕ, IfOk, None, [], false, length, true};
ghost use Rattle.zio_gang.specs.Attempts.{Terms};
ghost use Rattle.zio_trace.specs.Leaves.{Answer};
ghost use Rattle.zio_trace.specs.Programs.{Ends};
ghost use Rattle.zio_trace.specs.Tasks.{Got, ReadCopies, Task};
ghost use Rattle.zio_frames.specs.Frames.{Frame, fresh_frame, left_of, with_asked, with_slot};
ghost use Rattle.zio_frames.specs.Slots.{Heard, IsOut};
ghost use Rattle.zio_stages.specs.LeafWorks.{IsDue};
ghost use Rattle.zio_stages.specs.ReadIos.{AsksOfRead, IsAskedWhen, IsReadIo, IsReadOutIn, IsReadOver, IsReadStep, has_failed, io_of_read, outs_of_read};
ghost use Rattle.zio_stages.specs.WriteIos.{AreIoPlaces, ShowsOuts};

use crate::check::Check;
use crate::leaf::LeafWork;
use crate::named::Named;
use crate::write_io::IoStep;
use std::alloc::Global;
use zio_exchange::Summed;
use zio_parts::{CopyRead, ReadStep};
use zio_shared::Shared;
use zio_types::{Bytes, Errno, List, NoMemory, Place, Prio, Top};

/// The read of a block's copies: one after another until one is good, where none is once more, and then a write to each
/// copy that failed before it, all together.
#[derive(Drop)]
pub struct ReadIo {
    read: CopyRead,
    check: Check,
    /// Of the reads; a repair is an asynchronous write.
    prio: Prio,
    /// A copy is being read.
    is_reading: bool,
    /// How many reads were heard.
    base: usize,
    /// How many operations it asked in all: the number of the next one.
    asked: usize,
}

impl ReadIo {
    /// The read of this many bytes at one to three places, which are good by this check.
    pub fn new(
        tops: &[Top],
        places: List<Place>,
        len: usize,
        repair: bool,
        check: Check,
        prio: Prio,
    ) -> ReadIo
        requires places { AreIoPlaces tops.now places }
        requires some { 0 < length places }
        ensures fresh { (t : Terms) → t.setting.tops ≡ tops.now →
            IsReadIo t result (fresh_frame (ReadCopies repair check len places)) }
        ensures over { IsReadOver tops.now result }
        ensures check { result.check ≡ check }
        ensures class { result.prio ≡ prio }
        ensures count { result.asked ≡ 0 }
        ensures pass { result.read.retry ≡ false }
    {
        ReadIo {
            read: CopyRead::new(tops, places, len, repair),
            check,
            prio,
            is_reading: false,
            base: 0,
            asked: 0,
        }
    }

    /// Whether no copy was good.
    pub fn has_failed(&self) -> bool
        ensures { result ≡ has_failed self.now }
    {
        !self.read.has_bytes()
    }

    /// How many bytes it reads.
    pub fn len(&self) -> usize
        ensures { result ≡ self.now.read.len }
    {
        self.read.len()
    }

    /// The number of the next operation.
    pub fn asked(&self) -> usize
        ensures { result ≡ self.now.asked }
    {
        self.asked
    }

    /// What is to be done next.
    pub fn next(&self, tops: &[Top]) -> IoStep
        requires { IsReadOver tops.now self.now }
        ensures step { IsReadStep tops.now self.now result }
        ensures outs { (t : Terms) (x : Frame) → t.setting.tops ≡ tops.now → IsReadIo t self.now x
            → ShowsOuts result x }
    {
        let step = self.read.next(tops);
        io_of_read(step)
    }

    /// The operation of the step, by the part with this name: a read, or a repair with a copy of the good bytes.
    pub fn next_leaf(&self, alloc: Global, tops: &[Top], name: &Named) -> Result<LeafWork, NoMemory>
        requires over { IsReadOver tops.now self.now }
        requires step { IsReadStep tops.now self.now IoStep.Child }
        ensures next { IfOk result (λ child. (t : Terms) (x : Frame) → t.setting.tops ≡ tops.now →
            IsReadIo t self.now x →
            AsksOfRead t x child self.now) }
        ensures due { IfOk result IsDue }
        ensures origin { IfOk result (λ child. child.origin.part ≡ name.now) }
    {
        match self.read.next(tops) {
            ReadStep::Fetch(target) => {
                let retry = self.read.retry();
                let len = self.read.len();
                let origin = name.on(self.read.places(), &target.place);
                let sum = self.check.sum();
                Ok(LeafWork::read(alloc, origin, &target, len, sum, retry, self.prio))
            }
            ReadStep::Repair(target) => {
                let retry = self.read.retry();
                let copy = copy_of(alloc, self.read.bytes())?;
                let bytes = Shared::alone(copy);
                let origin = name.on(self.read.places(), &target.place);
                Ok(LeafWork::write(origin, &target, retry, Prio::AsyncWrite, true, bytes))
            }
            ReadStep::Wait | ReadStep::Retry | ReadStep::End(_) => unreachable!(),
        }
    }

    /// The operation of the step is out.
    pub fn hand_out(&mut self, tops: &[Top])
        requires over { IsReadOver tops.now self.old }
        requires step { IsReadStep tops.now self.old IoStep.Child }
        ensures handed { (t : Terms) (x : Frame) (op : Task) → t.setting.tops ≡ tops.now → IsReadIo t self.old x →
            IsAskedWhen self.old.read.good self.old.read.retry op → IsReadIo t self.new (with_asked x op (IsOut None)) }
        ensures over { IsReadOver tops.now self.new }
        ensures outs { outs_of_read self.new ≡ outs_of_read self.old ++ true ∷ [] }
        ensures base { self.new.base ≡ self.old.base }
        ensures count { self.new.asked ≡ self.old.asked + 1 }
        ensures pass { self.new.read.retry ≡ self.old.read.retry }
        ensures check { self.new.check ≡ self.old.check }
        ensures class { self.new.prio ≡ self.old.prio }
    {
        match self.read.next(tops) {
            ReadStep::Fetch(_) => {
                self.read.hand_out();
                self.is_reading = true;
                self.asked += 1;
            }
            ReadStep::Repair(_) => {
                self.read.hand_out();
                self.asked += 1;
            }
            ReadStep::Wait | ReadStep::Retry | ReadStep::End(_) => unreachable!(),
        }
    }

    /// The operation of this number has answered. Bytes that were read and aren't good are a checksum error; what a
    /// repair came to doesn't matter.
    pub fn hear(&mut self, tops: &[Top], n: usize, found: Result<Summed, Errno>)
        requires over { IsReadOver tops.now self.old }
        requires out { IsReadOutIn self.old n }
        ensures heard { (t : Terms) (x : Frame) (a : Answer) → t.setting.tops ≡ tops.now → found ≡ a →
            IsReadIo t self.old x → IsReadIo t self.new (with_slot x n (Heard (Got a))) }
        ensures over { IsReadOver tops.now self.new }
        ensures others { (m : ℕ) → m ≢ n → IsReadOutIn self.old m → IsReadOutIn self.new m }
        ensures count { self.new.asked ≡ self.old.asked }
        ensures pass { self.new.read.retry ≡ self.old.read.retry }
        ensures check { self.new.check ≡ self.old.check }
        ensures class { self.new.prio ≡ self.old.prio }
    {
        if self.is_reading {
            let judged = self.check.judged(found);
            self.read.hear_read(tops, judged);
            self.is_reading = false;
            self.base = self.asked;
            return;
        }
        let mend = n - self.base;
        self.read.hear_repair(mend);
    }

    /// The second pass begins.
    pub fn begin_retry(&mut self, tops: &[Top])
        requires over { IsReadOver tops.now self.old }
        requires step { IsReadStep tops.now self.old IoStep.Retry }
        ensures again { (t : Terms) (x : Frame) → t.setting.tops ≡ tops.now → IsReadIo t self.old x →
            IsReadIo t self.new x }
        ensures over { IsReadOver tops.now self.new }
        ensures count { self.new.asked ≡ self.old.asked }
        ensures first { self.old.read.retry ≡ false }
        ensures second { self.new.read.retry ≡ true }
        ensures check { self.new.check ≡ self.old.check }
        ensures class { self.new.prio ≡ self.old.prio }
    {
        self.read.begin_retry(tops);
    }

    /// The good bytes or the error, where it ended.
    pub fn into_found(self, tops: &[Top]) -> Result<Bytes, Errno>
        requires over { IsReadOver tops.now self }
        requires step { IsReadStep tops.now self IoStep.End }
        ensures { (t : Terms) (x : Frame) → t.setting.tops ≡ tops.now → IsReadIo t self x →
            left_of t x ≡ Ends (Got result) }
    {
        let ReadStep::End(end) = self.read.next(tops) else {
            unreachable!()
        };
        let ReadIo { read, .. } = self;
        match end {
            Ok(()) => match read.into_bytes() {
                Some(bytes) => Ok(bytes),
                None => unreachable!(),
            },
            Err(error) => Err(error),
        }
    }
}

fn io_of_read(step: ReadStep) -> IoStep
    ensures { result ≡ io_of_read step }
{
    match step {
        ReadStep::Fetch(_) | ReadStep::Repair(_) => IoStep::Child,
        ReadStep::Wait => IoStep::Wait,
        ReadStep::Retry => IoStep::Retry,
        ReadStep::End(_) => IoStep::End,
    }
}

/// The same bytes once more.
fn copy_of(alloc: Global, bytes: &[u8]) -> Result<Bytes, NoMemory>
    ensures { IfOk result (λ copy. copy ≡ bytes.now) }
{
    Ok(List::from_vec(Vec::from_slice(alloc, bytes)?))
}
