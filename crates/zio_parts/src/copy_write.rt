// The write of a piece's copies under way.

ghost use Rattle.std.specs.Prelude.{
  ◌≡◌,
  ◌+◌,
  ◌<◌,
  ◌≤◌,
  ℕ,
  List,
  None,
  Option,
  Some,
  [],
  length,
  map,
  option_map,
  slice_get,
};
ghost use Rattle.zio_cksum.specs.Images.{Setting};
ghost use Rattle.zio_trace.specs.Calls.{answered_at};
ghost use Rattle.zio_trace.specs.CopyPrograms.{piece_writing, place_error};
ghost use Rattle.zio_trace.specs.Leaves.{Answer, error_of};
ghost use Rattle.zio_parts.specs.Answered.{out_before, out_count};
ghost use Rattle.zio_parts.specs.Copies.{copies_at};
ghost use Rattle.zio_parts.specs.CopyWrites.{
  AllowsWrite,
  ShowsWrite,
  fresh_write,
  left_of_write,
  write_again,
  write_handed,
  pass_error,
  write_heard,
  writes_of,
};

use crate::copies::{LEAF_COPIES_MAX, Target, any_out, leaves_at, nth_copy};
use std::marker::Model;
use zio_mirror::write_result;
use zio_types::{Errno, List, Place, Top, worst};

/// The worst error of the places, behind others whose worst error is this. The errors are those of the places'
/// leaves.
fn pass_error(
    tops: &[Top],
    so_far: Option<Errno>,
    places: &[Place],
    errors: &[Option<Errno>],
) -> Option<Errno>
    requires { length (copies_at tops.now places.now) ≤ length errors.now }
    ensures { result ≡ pass_error tops.now so_far places.now errors.now }
{
    match places {
        [] => so_far,
        [place, rest @ ..] => {
            let leaves = leaves_at(tops, place).len();
            let error = place_error(&errors[..leaves]);
            pass_error(tops, worst(so_far, error), rest, &errors[leaves..])
        }
    }
}

/// A place is good where one of its leaves is, and has the worst error where none is.
fn place_error(errors: &[Option<Errno>]) -> Option<Errno>
    ensures { result ≡ place_error errors.now }
{
    if errors.is_empty() {
        return Some(Errno::Nxio);
    }
    write_result(errors, false)
}

/// What the write of a piece is to do next.
#[derive(Clone, Copy, Debug, PartialEq, Eq)]
pub enum WriteStep {
    /// The bytes are to be stored as this copy.
    Store(Target),
    /// All of the pass is handed out, and some of it is out.
    Wait,
    /// The second pass is due.
    Retry,
    /// It ended, with the worst error of its places.
    End(Option<Errno>),
}

/// The write of a piece's copies under way: to each leaf of each place, all together, and after an error once
/// more.
#[derive(Debug, Drop)]
pub struct CopyWrite {
    places: List<Place>,
    /// In the second pass.
    retry: bool,
    /// How many writes this pass has handed out.
    handed: usize,
    /// Of these, in their order, which are out.
    outs: [bool; LEAF_COPIES_MAX],
    /// What the others answered.
    errors: [Option<Errno>; LEAF_COPIES_MAX],
}

impl Model for CopyWrite {
    ghost use Rattle.std.specs.Prelude.{◌≡◌, ◌≤◌, length, take};
    ghost use Rattle.zio_parts.specs.CopyWrites.{Writing, answers_in};

    ghost Value = { Writing };

    ghost view = { λ x. record {
      places = x.places;
      retry = x.retry;
      answers = answers_in (take x.handed x.outs) (take x.handed x.errors);
    } };

    ghost invariant = { λ x. record {
      handed : x.handed ≤ 12;
      outs : length x.outs ≡ 12;
      errors : length x.errors ≡ 12;
    } };
}

impl CopyWrite {
    /// Nothing of it is written.
    pub fn new(places: List<Place>) -> CopyWrite
        ensures fresh { result ≡ fresh_write places }
        ensures left { (s : Setting) (bytes : List ℕ) →
            left_of_write s bytes result ≡ piece_writing s bytes places }
        ensures out { out_count (writes_of result) ≡ 0 }
    {
        CopyWrite {
            places,
            retry: false,
            handed: 0,
            outs: [false; LEAF_COPIES_MAX],
            errors: [None; LEAF_COPIES_MAX],
        }
    }

    /// The block's places.
    pub fn places(&self) -> &[Place]
        ensures { result.now ≡ self.now.places }
    {
        self.places.as_slice()
    }

    /// In which pass the next write is to be made.
    pub fn retry(&self) -> bool
        ensures { result ≡ self.now.retry }
    {
        self.retry
    }

    /// What is to be done next.
    pub fn next(&self, tops: &[Top]) -> WriteStep
        requires { length self.now.answers ≤ length (copies_at tops.now self.now.places) }
        ensures shows { (s : Setting) (bytes : List ℕ) → s.tops ≡ tops.now →
            ShowsWrite s bytes self.now result }
        ensures allows { AllowsWrite tops.now self.now result }
    {
        let places = self.places.as_slice();
        if let Some(target) = nth_copy(tops, places, self.handed) {
            return WriteStep::Store(target);
        }
        if any_out(&self.outs[..self.handed]) {
            return WriteStep::Wait;
        }
        let error = pass_error(tops, None, places, &self.errors[..self.handed]);
        if self.retry {
            return WriteStep::End(error);
        }
        match error {
            Some(_) => WriteStep::Retry,
            None => WriteStep::End(None),
        }
    }

    /// The child of the step is out.
    pub fn hand_out(&mut self)
        requires { length self.old.answers < LEAF_COPIES_MAX }
        ensures handed { self.new ≡ write_handed self.old }
        ensures left { (s : Setting) (bytes : List ℕ) →
            left_of_write s bytes self.new ≡ left_of_write s bytes self.old }
        ensures out { out_count (writes_of self.new) ≡ out_count (writes_of self.old) + 1 }
    {
        self.outs[self.handed] = true;
        self.handed += 1;
    }

    /// The nth write that this pass handed out has answered.
    pub fn hear(&mut self, n: usize, error: Option<Errno>)
        requires { slice_get self.old.answers n ≡ Some None }
        ensures heard { self.new ≡ write_heard self.old n error }
        ensures left { (s : Setting) (bytes : List ℕ) (answer : Answer) → error_of answer ≡ error →
            left_of_write s bytes self.new
            ≡ answered_at (out_before n (writes_of self.old)) answer (left_of_write s bytes self.old) }
        ensures out { out_count (writes_of self.new) + 1 ≡ out_count (writes_of self.old) }
    {
        self.outs[n] = false;
        self.errors[n] = error;
    }

    /// The second pass begins.
    pub fn begin_retry(&mut self)
        ensures again { self.new ≡ write_again self.old }
        ensures out { out_count (writes_of self.new) ≡ 0 }
    {
        self.retry = true;
        self.handed = 0;
    }
}
