// The write of a block's copies by operations on leaves.

ghost use Rattle.std.specs.Prelude.{◌≡◌, ◌≢◌, ◌+◌, ◌++◌, ◌∷◌, [], IfOk, List, None, Some, false, true, ℕ};
ghost use Rattle.zio_types.specs.declared.place.Top.{Top as SeenTop};
ghost use Rattle.zio_gang.specs.Attempts.{Terms};
ghost use Rattle.zio_trace.specs.Leaves.{Answer, error_of};
ghost use Rattle.zio_trace.specs.Programs.{Ends};
ghost use Rattle.zio_trace.specs.Tasks.{Got, Task, WriteCopies, Wrote};
ghost use Rattle.zio_frames.specs.Frames.{Frame, fresh_frame, left_of, with_asked, with_slot};
ghost use Rattle.zio_frames.specs.Slots.{Heard, IsOut};
ghost use Rattle.zio_stages.specs.LeafWorks.{IsDue};
ghost use Rattle.zio_stages.specs.LeavesOut.{IsWriteIn};
ghost use Rattle.zio_stages.specs.WriteIos.{
  AreIoPlaces,
  AsksOfWrite,
  IsOutIn,
  IsWriteIo,
  IsWriteOver,
  IsWriteStep,
  ShowsOuts,
  io_of,
};

use crate::leaf::LeafWork;
use crate::named::Named;
use std::alloc::Global;
use zio_parts::{CopyWrite, WriteStep};
use zio_shared::Shared;
use zio_types::{Errno, List, NoMemory, Place, Prio, Top};

/// What the read or the write of a block's copies is to do next.
#[derive(Clone, Copy, Debug, PartialEq, Eq)]
pub enum IoStep {
    /// An operation on a leaf is to be handed out.
    Child,
    /// Some are out, and nothing more can be done before one of them is answered.
    Wait,
    /// The second pass is due.
    Retry,
    /// It ended.
    End,
}

/// The write of a block's copies: an operation on each leaf of each place, all together, and after an error once more.
/// Its holder has the bytes.
#[derive(Drop)]
pub struct WriteIo {
    write: CopyWrite,
    prio: Prio,
    /// How many operations it asked before this pass.
    base: usize,
    /// How many it asked in all: the number of the next one.
    asked: usize,
}

impl WriteIo {
    /// The write at these places, in this class of the leaves' queues.
    pub fn new(places: List<Place>, prio: Prio) -> WriteIo
        ensures fresh { (t : Terms) (bytes : List ℕ)
            → IsWriteIo t bytes result (fresh_frame (WriteCopies bytes places)) }
        ensures over { (tops : List SeenTop) → AreIoPlaces tops places → IsWriteOver tops result }
        ensures class { result.prio ≡ prio }
        ensures count { result.asked ≡ 0 }
        ensures pass { result.write.retry ≡ false }
    {
        WriteIo {
            write: CopyWrite::new(places),
            prio,
            base: 0,
            asked: 0,
        }
    }

    /// The number of the next operation.
    pub fn asked(&self) -> usize
        ensures { result ≡ self.now.asked }
    {
        self.asked
    }

    /// What is to be done next.
    pub fn next(&self, tops: &[Top]) -> IoStep
        requires { IsWriteOver tops.now self.now }
        ensures step { IsWriteStep tops.now self.now result }
        ensures outs { (t : Terms) (bytes : List ℕ) (x : Frame) → t.setting.tops ≡ tops.now →
            IsWriteIo t bytes self.now x → ShowsOuts result x }
    {
        let step = self.write.next(tops);
        io_of(step)
    }

    /// The operation of the step, by the part with this name, which holds the bytes too.
    pub fn next_leaf(
        &self,
        alloc: Global,
        tops: &[Top],
        name: &Named,
        bytes: &mut Shared,
    ) -> Result<LeafWork, NoMemory>
        requires over { IsWriteOver tops.now self.now }
        requires step { IsWriteStep tops.now self.now IoStep.Child }
        ensures next { IfOk result (λ child. (t : Terms) (x : Frame) → t.setting.tops ≡ tops.now →
            IsWriteIo t bytes.old self.now x → AsksOfWrite t bytes.old x child self.now) }
        ensures due { IfOk result IsDue }
        ensures origin { IfOk result (λ child. child.origin.part ≡ name.now) }
        ensures bytes { bytes.new ≡ bytes.old }
    {
        let WriteStep::Store(target) = self.write.next(tops) else {
            unreachable!()
        };
        let bytes = bytes.share(alloc)?;
        let origin = name.on(self.write.places(), &target.place);
        Ok(LeafWork::write(origin, &target, self.write.retry(), self.prio, false, bytes))
    }

    /// The operation of the step is out.
    pub fn hand_out(&mut self, tops: &[Top])
        requires over { IsWriteOver tops.now self.old }
        requires step { IsWriteStep tops.now self.old IoStep.Child }
        ensures handed { (t : Terms) (bytes : List ℕ) (x : Frame) (op : Task) → t.setting.tops ≡ tops.now →
            IsWriteIo t bytes self.old x → IsWriteIn self.old.write.retry op
            → IsWriteIo t bytes self.new (with_asked x op (IsOut None)) }
        ensures over { IsWriteOver tops.now self.new }
        ensures outs { self.new.write.answers ≡ self.old.write.answers ++ None ∷ [] }
        ensures base { self.new.base ≡ self.old.base }
        ensures count { self.new.asked ≡ self.old.asked + 1 }
        ensures pass { self.new.write.retry ≡ self.old.write.retry }
        ensures class { self.new.prio ≡ self.old.prio }
    {
        self.write.hand_out();
        self.asked += 1;
    }

    /// The operation of this number has answered.
    pub fn hear(&mut self, n: usize, error: Option<Errno>)
        requires { IsOutIn self.old n }
        ensures heard { (t : Terms) (bytes : List ℕ) (x : Frame) (a : Answer) → error_of a ≡ error →
            IsWriteIo t bytes self.old x → IsWriteIo t bytes self.new (with_slot x n (Heard (Got a))) }
        ensures over { (tops : List SeenTop) → IsWriteOver tops self.old → IsWriteOver tops self.new }
        ensures others { (m : ℕ) → m ≢ n → IsOutIn self.old m → IsOutIn self.new m }
        ensures count { self.new.asked ≡ self.old.asked }
        ensures pass { self.new.write.retry ≡ self.old.write.retry }
        ensures class { self.new.prio ≡ self.old.prio }
    {
        let place = n - self.base;
        self.write.hear(place, error);
    }

    /// The second pass begins.
    pub fn begin_retry(&mut self, tops: &[Top])
        requires over { IsWriteOver tops.now self.old }
        requires step { IsWriteStep tops.now self.old IoStep.Retry }
        ensures again { (t : Terms) (bytes : List ℕ) (x : Frame) → t.setting.tops ≡ tops.now →
            IsWriteIo t bytes self.old x → IsWriteIo t bytes self.new x }
        ensures over { IsWriteOver tops.now self.new }
        ensures count { self.new.asked ≡ self.old.asked }
        ensures first { self.old.write.retry ≡ false }
        ensures second { self.new.write.retry ≡ true }
        ensures class { self.new.prio ≡ self.old.prio }
    {
        self.write.begin_retry();
        self.base = self.asked;
    }

    /// The worst error of its places, where it ended.
    pub fn error(&self, tops: &[Top]) -> Option<Errno>
        requires over { IsWriteOver tops.now self.now }
        requires step { IsWriteStep tops.now self.now IoStep.End }
        ensures { (t : Terms) (bytes : List ℕ) (x : Frame) → t.setting.tops ≡ tops.now →
            IsWriteIo t bytes self.now x → left_of t x ≡ Ends (Wrote result) }
    {
        let WriteStep::End(error) = self.write.next(tops) else {
            return None;
        };
        error
    }
}

fn io_of(step: WriteStep) -> IoStep
    ensures { result ≡ io_of step }
{
    match step {
        WriteStep::Store(_) => IoStep::Child,
        WriteStep::Wait => IoStep::Wait,
        WriteStep::Retry => IoStep::Retry,
        WriteStep::End(_) => IoStep::End,
    }
}
