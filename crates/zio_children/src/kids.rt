// The children of a request in an attempt.

ghost use Rattle.std.specs.Prelude.{◌≡◌, ◌+◌, ◌<◌, ◌≤◌, ◌++◌, ◌∷◌, ℕ, List, IfOk, None, OnOk, Option, Some, [], cond, false, filter, length, map, not, reverse, slice_get, slice_set, true};
ghost use Rattle.std.specs.List.{list_all};
ghost use Rattle.zio_types.specs.Errors.{worst_of};
ghost use Rattle.zio_gang.specs.Attempts.{Child, bits_of, has_bits};
ghost use Rattle.zio_trace.specs.Calls.{answered_at};
ghost use Rattle.zio_trace.specs.Plans.{TaskPlan};
ghost use Rattle.zio_trace.specs.Tasks.{AttemptedBy, One, Value};
ghost use Rattle.zio_children.specs.RequestKids.{
  Fits,
  IsLeftBy,
  IsOutWith,
  RiseFrom,
  ShowsKids,
  bits_by,
  child_of,
  done_error,
  finished_in,
  due_kids,
  fresh_kids,
  has_told,
  is_ended,
  is_told,
  kept_as,
  kid_handed,
  kid_is,
  numbers_of,
  pointer_by,
  pointers_of,
  return_by,
  returns_in,
  state_at,
};
ghost use Rattle.zio_frames.specs.Slots.{Heard, IsOut, Slot, left_behind_slots, outs_before};
ghost use Rattle.zio_children.specs.declared.kids.Kid.{Kid as SeenKid};

use crate::kept::{KeptChild, merged, pointers_in, worst_of};
use std::alloc::Global;
use std::marker::Model;
use zio_blkptr::Bp;
use zio_types::{Bits, Errno, List, NoMemory, ReqNo, worst};

/// How far a child is.
#[derive(Clone, Copy, Debug)]
pub(crate) enum KidState {
    Due,
    Out,
    /// It is out, and told which pointer it will have.
    Told(Option<Bp>),
    /// Its attempt ended. With bits it goes again.
    Ended {
        bits: Bits,
        error: Option<Errno>,
        pointer: Option<Bp>,
    },
}

/// A child that hadn't finished before the attempt.
#[derive(Clone, Copy, Debug)]
pub(crate) struct Kid {
    pub(crate) number: ReqNo,
    pub(crate) state: KidState,
}

/// What is to be done next for the children.
#[derive(Clone, Copy, Debug)]
pub enum KidStep {
    /// The attempt of this one's tree is to be handed out.
    Child(usize),
    /// All were handed out.
    AllOut,
}

/// The children of a request in an attempt. Those that haven't finished are handed out in the order of their numbers,
/// all together, and each tells its pointer before its attempt ends; those that finished in earlier attempts are kept.
#[derive(Debug, Drop)]
pub struct Kids {
    /// By number.
    kids: Vec<Kid>,
    /// How many of these were handed out.
    handed: usize,
    /// How many told their pointers.
    told: usize,
    /// How many of their attempts ended.
    ended: usize,
    kept: List<KeptChild>,
}

impl Model for Kids {
    ghost use Rattle.zio_children.specs.RequestKids.{KidsFields, KidsUnderWay};

    ghost Value = { KidsUnderWay };

    ghost view = { λ x. record { kids = x.kids.items; handed = x.handed; kept = x.kept } };

    ghost invariant = { λ x. KidsFields x.kids.items x.handed x.told x.ended };
}

impl Kids {
    /// The children of a request: these haven't finished, by number, and those were kept of earlier attempts.
    pub fn new(alloc: Global, numbers: &[ReqNo], kept: List<KeptChild>) -> Result<Kids, NoMemory>
        requires { RiseFrom 0 numbers.now }
        ensures fresh { IfOk result (λ kids. kids ≡ fresh_kids numbers.now kept) }
        ensures fits { IfOk result (λ kids. Fits kids []) }
    {
        let kids = due_kids(alloc, numbers)?;
        Ok(Kids {
            kids,
            handed: 0,
            told: 0,
            ended: 0,
            kept,
        })
    }

    /// What is to be done next.
    pub fn next(&self) -> KidStep
        ensures { ShowsKids self.now result }
    {
        if self.handed < self.kids.len() {
            KidStep::Child(self.handed)
        } else {
            KidStep::AllOut
        }
    }

    /// The number of the nth child.
    pub fn number(&self, n: usize) -> ReqNo
        requires { n < length self.now.kids }
        ensures { Some result ≡ slice_get (numbers_of self.now.kids) n }
    {
        self.kids[n].number
    }

    /// Each told its pointer, or ended.
    pub fn all_told(&self) -> bool
        ensures { result ≡ list_all is_told self.now.kids }
    {
        self.told == self.kids.len()
    }

    /// The attempt of each ended.
    pub fn all_ended(&self) -> bool
        ensures { result ≡ list_all is_ended self.now.kids }
    {
        self.ended == self.kids.len()
    }

    /// The next child is out.
    pub fn hand_out(&mut self)
        requires { self.old.handed < length self.old.kids }
        ensures handed { self.new ≡ kid_handed self.old }
        ensures fits { (slots : List Slot) → Fits self.old slots → Fits self.new (slots ++ IsOut None ∷ []) }
        ensures left { (slots : List Slot) (p : TaskPlan Value) → Fits self.old slots →
            left_behind_slots (slots ++ IsOut None ∷ []) p ≡ left_behind_slots slots p }
    {
        self.kids[self.handed].state = KidState::Out;
        self.handed += 1;
    }

    /// The nth child told which pointer it will have.
    pub fn tell(&mut self, n: usize, pointer: Option<Bp>)
        requires { state_at self.old.kids n ≡ Some KidState.Out }
        ensures told { self.new ≡ kid_is self.old n (KidState.Told pointer) }
        ensures fits { (slots : List Slot) → Fits self.old slots
            → Fits self.new (slice_set slots n (IsOut (Some pointer))) }
        ensures left { (slots : List Slot) (p : TaskPlan Value) → Fits self.old slots →
            left_behind_slots (slice_set slots n (IsOut (Some pointer))) p ≡ left_behind_slots slots p }
    {
        self.kids[n].state = KidState::Told(pointer);
        self.told += 1;
    }

    /// The attempt of the nth child ended, with the pointer that it told if it told one.
    pub fn hear(&mut self, n: usize, bits: Bits, error: Option<Errno>, pointer: Option<Bp>)
        requires { IsOutWith pointer (state_at self.old.kids n) }
        ensures heard { self.new ≡ kid_is self.old n (KidState.Ended bits error pointer) }
        ensures fits { (slots : List Slot) (number : ℕ) (one : One) → Fits self.old slots →
            slice_get (numbers_of self.old.kids) n ≡ Some number →
            IsLeftBy one number bits error pointer → Fits self.new (slice_set slots n (Heard (AttemptedBy one))) }
        ensures left { (slots : List Slot) (v : Value) (p : TaskPlan Value) → Fits self.old slots →
            left_behind_slots (slice_set slots n (Heard v)) p
            ≡ answered_at (outs_before n slots) v (left_behind_slots slots p) }
    {
        let more = untold(&self.kids[n].state);
        self.kids[n].state = KidState::Ended {
            bits,
            error,
            pointer,
        };
        self.told += more;
        self.ended += 1;
    }

    /// The pointers of all children by number, with those that finished in earlier attempts.
    pub fn pointers(&self, alloc: Global) -> Result<List<Option<Bp>>, NoMemory>
        requires { list_all is_told self.now.kids ≡ true }
        ensures { IfOk result (λ pointers. pointers ≡ pointers_of self.now) }
    {
        let children = children_of(alloc, &self.kids)?;
        let all = merged(alloc, children.as_slice(), self.kept.as_slice())?;
        pointers_in(alloc, all.as_slice())
    }

    /// The bits of all of them.
    pub fn bits(&self) -> Bits
        requires { list_all is_ended self.now.kids ≡ true }
        ensures { result ≡ bits_of (returns_in self.now) }
    {
        bits_of(&self.kids)
    }

    /// The worst error of all children that finished, now and in earlier attempts.
    pub fn worst(&self) -> Option<Errno>
        requires { list_all is_ended self.now.kids ≡ true }
        ensures { result ≡ worst_of (map (λ (c : Child). c.error) (finished_in self.now)) }
    {
        worst(worst_finished(&self.kids), worst_of(self.kept.as_slice()))
    }

    /// All children that finished, now and in earlier attempts, by number.
    pub fn finished(&self, alloc: Global) -> Result<List<KeptChild>, NoMemory>
        requires { list_all is_ended self.now.kids ≡ true }
        ensures { IfOk result (λ kept. map child_of kept ≡ finished_in self.now) }
    {
        let finished = finished_of(alloc, &self.kids)?;
        merged(alloc, finished.as_slice(), self.kept.as_slice())
    }

    /// The same of children that are done with.
    pub fn into_kept(self, alloc: Global) -> Result<List<KeptChild>, NoMemory>
        requires { list_all is_ended self.kids ≡ true }
        ensures { IfOk result (λ kept. map child_of kept ≡ finished_in self) }
    {
        self.finished(alloc)
    }
}

fn due_kids(alloc: Global, numbers: &[ReqNo]) -> Result<Vec<Kid>, NoMemory>
    ensures { IfOk result (λ kids. kids.items ≡ due_kids numbers.now) }
{
    let mut kids = Vec::new(alloc);
    for number in numbers {
        kids.push(Kid {
            number: *number,
            state: KidState::Due,
        })?;
    }
    Ok(kids)
}

/// One if it told no pointer, and none else.
fn untold(state: &KidState) -> usize
    ensures { result ≡ cond (has_told state.now) 0 1 }
{
    match state {
        KidState::Due => 1,
        KidState::Out => 1,
        KidState::Told(_) => 0,
        KidState::Ended { .. } => 0,
    }
}

/// What is known of a child.
fn kept_as(kid: &Kid) -> KeptChild
    ensures { result ≡ kept_as kid.now }
{
    match kid.state {
        KidState::Due => child_with(kid.number, None, None),
        KidState::Out => child_with(kid.number, None, None),
        KidState::Told(pointer) => child_with(kid.number, None, pointer),
        KidState::Ended { error, pointer, .. } => child_with(kid.number, error, pointer),
    }
}

fn child_with(number: ReqNo, error: Option<Errno>, pointer: Option<Bp>) -> KeptChild
    ensures { result ≡ record { number = number; error = error; pointer = pointer } }
{
    KeptChild {
        number,
        error,
        pointer,
    }
}

fn bits_in(kid: &Kid) -> Bits
    ensures { result ≡ bits_by kid.now.state }
{
    match kid.state {
        KidState::Due => Bits::NONE,
        KidState::Out => Bits::NONE,
        KidState::Told(_) => Bits::NONE,
        KidState::Ended { bits, .. } => bits,
    }
}

fn children_of(alloc: Global, kids: &[Kid]) -> Result<List<KeptChild>, NoMemory>
    ensures { IfOk result (λ children. children ≡ map kept_as kids.now) }
{
    let mut children = List::new(alloc);
    for kid in kids {
        children.push(kept_as(kid))?;
    }
    Ok(children)
}

/// The children that don't go again.
fn finished_of(alloc: Global, kids: &[Kid]) -> Result<List<KeptChild>, NoMemory>
    ensures { IfOk result (λ children. children
        ≡ map kept_as (filter (λ (k : SeenKid). not (has_bits (bits_by k.state))) kids.now)) }
{
    let mut children = List::new(alloc);
    for kid in kids {
        if !bits_in(kid).go_again() {
            children.push(kept_as(kid))?;
        }
    }
    Ok(children)
}

fn bits_of(kids: &[Kid]) -> Bits
    ensures { result ≡ bits_of (reverse (map return_by kids.now)) }
{
    let mut bits = Bits::NONE;
    for kid in kids {
        bits = bits_in(kid).join(bits);
    }
    bits
}

/// The worst error of those that don't go again.
fn worst_finished(kids: &[Kid]) -> Option<Errno>
    ensures { result ≡ worst_of (map done_error kids.now) }
{
    let mut error = None;
    for kid in kids {
        error = worst(error, done_error(kid));
    }
    error
}

/// The error of a child that doesn't go again.
fn done_error(kid: &Kid) -> Option<Errno>
    ensures { result ≡ done_error kid.now }
{
    if bits_in(kid).go_again() {
        return None;
    }
    kept_as(kid).error
}
