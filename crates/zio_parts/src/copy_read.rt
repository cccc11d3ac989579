// The read of a block's copies under way.

ghost use Rattle.std.specs.Prelude.{
  ◌≡◌,
  ◌+◌,
  ◌<◌,
  ◌≤◌,
  ℕ,
  Bool,
  List,
  None,
  Option,
  Some,
  [],
  false,
  true,
  length,
  slice_get,
  IsSome,
  is_some,
};
ghost use Rattle.zio_cksum.specs.Blocks.{judged};
ghost use Rattle.zio_cksum.specs.Images.{Setting};
ghost use Rattle.zio_trace.specs.Calls.{answered_at};
ghost use Rattle.zio_trace.specs.CopyPrograms.{block_reading};
ghost use Rattle.zio_trace.specs.Leaves.{Answer};
ghost use Rattle.zio_parts.specs.Answered.{out_before, out_count};
ghost use Rattle.zio_parts.specs.Copies.{AreMirrored};
ghost use Rattle.zio_parts.specs.CopyReads.{
  AllowsRead,
  IsReady,
  IsSameRead,
  ShowsRead,
  fresh_read,
  left_of_read,
  outs_of,
  read_again,
  read_handed,
  read_mended,
  wanted_of,
};

use crate::copies::{LEAF_COPIES_MAX, Target, any_out};
use crate::plans::{all_failed, child_to_try, leaf_at, nth_repair, plan_at};
use std::marker::Model;
use zio_mirror::ReadPlan;
use zio_types::{Bytes, COPIES_MAX, Errno, List, Place, Top};

/// What the read of a block is to do next.
#[derive(Clone, Copy, Debug, PartialEq, Eq)]
pub enum ReadStep {
    /// This copy is to be read.
    Fetch(Target),
    /// This copy is to be rewritten with the good bytes.
    Repair(Target),
    /// Something is out, and nothing more can be handed out before it ends.
    Wait,
    /// The second pass is due.
    Retry,
    /// It ended: there are good bytes, or none with this error.
    End(Result<(), Errno>),
}

/// The read of a block's copies under way: one copy after another until one is good, where none is once more,
/// and then a write to each copy that failed before it, all together.
#[derive(Drop)]
pub struct CopyRead {
    places: List<Place>,
    /// How many bytes are read.
    len: usize,
    /// The copies that failed are rewritten.
    repair: bool,
    /// In the second pass.
    retry: bool,
    /// Over the places, with the error of each that failed.
    copies: ReadPlan,
    /// How many places failed.
    tried: usize,
    /// Over the leaves of the place behind these, with the error of each that failed.
    leaves: ReadPlan,
    /// Of these leaves, how many failed, and which.
    failures: usize,
    failed: [u32; 4],
    /// A copy is being read.
    is_out: bool,
    good: Option<Bytes>,
    /// How many repairs were handed out.
    handed: usize,
    /// Of these, in their order, which are out.
    mends: [bool; LEAF_COPIES_MAX],
}

impl Model for CopyRead {
    ghost use Rattle.std.specs.Prelude.{◌≡◌, ◌<◌, ◌≤◌, IsSome, None, true, length, take};
    ghost use Rattle.zio_cksum.specs.Blocks.{all_errors};
    ghost use Rattle.zio_mirror.specs.Plans.{children};
    ghost use Rattle.zio_parts.specs.CopyReads.{Reading};

    ghost Value = { Reading };

    ghost view = { λ x. record {
      places = x.places;
      len = x.len;
      repair = x.repair;
      retry = x.retry;
      copies = x.copies;
      leaves = x.leaves;
      is_out = x.is_out;
      good = x.good;
      mends = take x.handed x.mends;
    } };

    ghost invariant = { λ x. record {
      some : 0 < length x.places;
      few : length x.places ≤ 3;
      order : x.copies.order ≡ children (length x.places);
      errors : all_errors x.copies.answers ≡ true;
      tried : x.tried ≡ length x.copies.answers;
      within : x.tried ≤ length x.places;
      leaf_errors : all_errors x.leaves.answers ≡ true;
      room : length x.leaves.answers < length x.leaves.order;
      most : length x.leaves.order ≤ 4;
      failures : x.failures ≡ length x.leaves.answers;
      failed_room : length x.failed ≡ 4;
      failed : take x.failures x.failed ≡ take x.failures x.leaves.order;
      reads : x.is_out ≡ true → (x.good ≡ None) × (x.tried < length x.places);
      found : IsSome x.good → x.tried < length x.places;
      mends : length x.mends ≡ 12;
      handed : x.handed ≤ 12;
      waits : x.good ≡ None → x.handed ≡ 0;
    } };
}

impl CopyRead {
    /// The read of one to three places, of this many bytes.
    pub fn new(tops: &[Top], places: List<Place>, len: usize, repair: bool) -> CopyRead
        requires some { 0 < length places }
        requires few { length places ≤ COPIES_MAX }
        requires mirrored { AreMirrored tops.now places }
        ensures fresh { result ≡ fresh_read tops.now places len repair }
        ensures left { (s : Setting) (good : List ℕ → Bool) → s.tops ≡ tops.now →
            left_of_read s good result ≡ block_reading s repair good len places }
        ensures out { out_count (outs_of result) ≡ 0 }
    {
        let leaves = plan_at(tops, places.as_slice(), 0);
        let copies = ReadPlan::for_copies(places.len() as u32);
        CopyRead {
            places,
            len,
            repair,
            retry: false,
            copies,
            tried: 0,
            leaves,
            failures: 0,
            failed: [0; 4],
            is_out: false,
            good: None,
            handed: 0,
            mends: [false; LEAF_COPIES_MAX],
        }
    }

    /// The block's places.
    pub fn places(&self) -> &[Place]
        ensures { result.now ≡ self.now.places }
    {
        self.places.as_slice()
    }

    /// How many bytes are read.
    pub fn len(&self) -> usize
        ensures { result ≡ self.now.len }
    {
        self.len
    }

    /// In which pass the next operation is to be made.
    pub fn retry(&self) -> bool
        ensures { result ≡ self.now.retry }
    {
        self.retry
    }

    /// Whether it has good bytes.
    pub fn has_bytes(&self) -> bool
        ensures { result ≡ is_some self.now.good }
    {
        self.good.is_some()
    }

    /// The good bytes, which repairs write.
    pub fn bytes(&self) -> &[u8]
        requires { IsSome self.now.good }
        ensures { (bytes : List ℕ) → self.now.good ≡ Some bytes → result.now ≡ bytes }
    {
        match &self.good {
            Some(bytes) => bytes.as_slice(),
            None => &[],
        }
    }

    /// The good bytes.
    pub fn into_bytes(self) -> Option<Bytes>
        ensures { result ≡ self.good }
    {
        self.good
    }

    /// What is to be done next.
    pub fn next(&self, tops: &[Top]) -> ReadStep
        requires mirrored { AreMirrored tops.now self.now.places }
        requires within { length self.now.mends ≤ length (wanted_of tops.now self.now) }
        ensures shows { (s : Setting) (good : List ℕ → Bool) → s.tops ≡ tops.now →
            ShowsRead s good self.now result }
        ensures allows { AllowsRead tops.now self.now result }
    {
        if self.good.is_some() {
            return self.next_repair(tops);
        }
        self.next_read(tops)
    }

    /// What is to be done next, while no copy is good.
    fn next_read(&self, tops: &[Top]) -> ReadStep
        requires { self.now.good ≡ None }
        ensures shows { (s : Setting) (good : List ℕ → Bool) → s.tops ≡ tops.now →
            ShowsRead s good self.now result }
        ensures allows { AllowsRead tops.now self.now result }
    {
        if let Some(error) = all_failed(&self.copies) {
            if self.retry {
                return ReadStep::End(Err(error));
            }
            return ReadStep::Retry;
        }
        if self.is_out {
            return ReadStep::Wait;
        }
        let place = self.places.as_slice()[self.tried];
        let leaf = leaf_at(tops, &place, child_to_try(&self.leaves));
        ReadStep::Fetch(Target { place, leaf })
    }

    /// What is to be done next, once a copy is good.
    fn next_repair(&self, tops: &[Top]) -> ReadStep
        requires good { IsSome self.now.good }
        requires mirrored { AreMirrored tops.now self.now.places }
        requires within { length self.now.mends ≤ length (wanted_of tops.now self.now) }
        ensures shows { (s : Setting) (good : List ℕ → Bool) → s.tops ≡ tops.now →
            ShowsRead s good self.now result }
        ensures allows { AllowsRead tops.now self.now result }
    {
        if !self.repair {
            return ReadStep::End(Ok(()));
        }
        let places = self.places.as_slice();
        let failed = &self.failed[..self.failures];
        if let Some(target) = nth_repair(tops, places, self.tried, failed, self.handed) {
            return ReadStep::Repair(target);
        }
        if any_out(&self.mends[..self.handed]) {
            return ReadStep::Wait;
        }
        ReadStep::End(Ok(()))
    }

    /// The child of the step is out.
    pub fn hand_out(&mut self)
        requires { IsReady self.old }
        ensures handed { self.new ≡ read_handed self.old }
        ensures left { (s : Setting) (good : List ℕ → Bool) →
            left_of_read s good self.new ≡ left_of_read s good self.old }
        ensures out { out_count (outs_of self.new) ≡ out_count (outs_of self.old) + 1 }
        ensures read { self.old.good ≡ None → self.new.is_out ≡ true }
    {
        if self.good.is_some() {
            self.mends[self.handed] = true;
            self.handed += 1;
            return;
        }
        self.is_out = true;
    }

    /// The copy that is out was read, and its bytes judged.
    pub fn hear_read(&mut self, tops: &[Top], read: Result<Bytes, Errno>)
        requires is_out { self.old.is_out ≡ true }
        requires mirrored { AreMirrored tops.now self.old.places }
        ensures same { IsSameRead self.old self.new }
        ensures left { (s : Setting) (good : List ℕ → Bool) (answer : Answer) → s.tops ≡ tops.now →
            judged good answer ≡ read →
            left_of_read s good self.new ≡ answered_at 0 answer (left_of_read s good self.old) }
        ensures alone { out_count (outs_of self.old) ≡ 1 }
        ensures out { out_count (outs_of self.new) ≡ 0 }
        ensures mends { self.new.mends ≡ [] }
    {
        self.is_out = false;
        match read {
            Ok(bytes) => {
                self.good = Some(bytes);
            }
            Err(error) => {
                let child = child_to_try(&self.leaves);
                self.failed[self.failures] = child;
                self.failures += 1;
                self.leaves.answer(Some(error));
                if let Some(worst) = all_failed(&self.leaves) {
                    self.copies.answer(Some(worst));
                    self.tried += 1;
                    self.failures = 0;
                    self.leaves = plan_at(tops, self.places.as_slice(), self.tried);
                }
            }
        }
    }

    /// The nth repair that was handed out has ended, however.
    pub fn hear_repair(&mut self, n: usize)
        requires { slice_get self.old.mends n ≡ Some true }
        ensures mended { self.new ≡ read_mended self.old n }
        ensures left { (s : Setting) (good : List ℕ → Bool) (answer : Answer) →
            left_of_read s good self.new
            ≡ answered_at (out_before n (outs_of self.old)) answer (left_of_read s good self.old) }
        ensures out { out_count (outs_of self.new) + 1 ≡ out_count (outs_of self.old) }
    {
        self.mends[n] = false;
    }

    /// The second pass begins.
    pub fn begin_retry(&mut self, tops: &[Top])
        requires { AreMirrored tops.now self.old.places }
        ensures again { self.new ≡ read_again tops.now self.old }
        ensures out { out_count (outs_of self.new) ≡ 0 }
    {
        self.retry = true;
        self.copies = ReadPlan::for_copies(self.places.len() as u32);
        self.tried = 0;
        self.leaves = plan_at(tops, self.places.as_slice(), 0);
        self.failures = 0;
        self.is_out = false;
        self.good = None;
        self.handed = 0;
    }
}
