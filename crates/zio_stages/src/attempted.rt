//! The children of a request in an attempt, with their trees.

ghost use Rattle.std.specs.Prelude.{◌≡◌, ◌<◌, ◌≤◌, ◌^◌, ◌∷◌, ℕ, List, [], IfErr, IfOk, None, OnErr, Option, Some, length, replicate, reverse, slice_get, slice_set, true, vec_capacity};
ghost use Rattle.std.specs.List.{AllByRecursion, list_all};
ghost use Rattle.zio_gang.specs.Attempts.{Attempted, Pending, has_bits, no_bits};
ghost use Rattle.zio_trace.specs.Families.{Forest, NoTrees};
ghost use Rattle.zio_trace.specs.Plans.{one_of};
ghost use Rattle.zio_trace.specs.Tasks.{AttemptedBy, One, Task};
ghost use Rattle.zio_children.specs.RequestKids.{Fits, IsLeftBy, IsOutWith, RiseFrom, ShowsKids, finished_in, fresh_kids, is_ended, kid_handed, kid_is, kids_by, numbers_of, state_at};
ghost use Rattle.zio_children.specs.declared.kids.KidState.TheVariants.{Ended, Out, Told};
ghost use Rattle.zio_frames.specs.Slots.{Heard, IsOut, Slot};
ghost use Rattle.zio_exchange.specs.Wholes.{IsLeft, IsTreeOf, root_number, root_of, roots_in};
ghost use Rattle.zio_exchange.specs.Waits.{pending_of};
ghost use Rattle.zio_stages.specs.KidLists.{AreBegun, HoldTheSame, HoldsBut, IsLeftList, IsListOf};
ghost use Rattle.zio_stages.specs.KidPointers.{HasValid, HaveValidPointers};
ghost use Rattle.zio_stages.specs.KidTrees.{HandsOut, IsKids, trees_left, with_kept};

use crate::request_name::request_label;
use std::alloc::Global;
use std::marker::Model;
use std::mem::replace;
use zio_blkptr::Bp;
use zio_children::{KeptChild, KidStep, Kids};
use zio_exchange::{UnfinishedRequest, Whole, WholeBack};
use zio_script::{Request, Work};
use zio_types::{Bits, Errno, List, NoMemory, ReqNo};

/// The children of a request in an attempt: those that haven't finished, with the trees that are to be handed out and
/// what is left of those that go again.
#[derive(Debug, Drop)]
pub struct RequestKids {
    kids: Kids,
    /// The trees that weren't handed out, the last first.
    due: Vec<Whole>,
    /// By the child's place, what is left of each that goes again.
    again: Vec<Option<Whole>>,
}

impl Model for RequestKids {
    ghost use Rattle.std.specs.Prelude.{reverse};
    ghost use Rattle.zio_stages.specs.KidTrees.{AreHeld, KidsHeld};

    ghost Value = { KidsHeld };

    ghost view = { λ k. record { kids = k.kids; due = reverse k.due.items; again = k.again.items } };

    ghost invariant = { λ k. AreHeld (record { kids = k.kids; due = reverse k.due.items; again = k.again.items }) };
}

impl RequestKids {
    /// Takes a tree apart into its request and its children's trees. Where memory is refused the tree comes back.
    pub fn begin(alloc: Global, whole: Whole) -> Result<(UnfinishedRequest, RequestKids), WholeBack>
        ensures root { IfOk result (λ begun. root_of whole ≡ Some begun.0) }
        ensures kids { IfOk result (λ begun. (attempt : ℕ) (p : Pending) (forest : Forest) → IsTreeOf whole p forest →
            (pending_of begun.0 ≡ p) × IsKids begun.1 attempt forest [] []) }
        ensures kept { IfOk result (λ begun. begun.1.kids.kept ≡ begun.0.kept) }
        ensures valid { IfOk result (λ begun. AllByRecursion HasValid begun.0.kept → HaveValidPointers begun.1.kids) }
        ensures list { IfOk result (λ begun. IsListOf whole begun.0 begun.1) }
        ensures begun { IfOk result (λ begun. AreBegun begun.0 begun.1) }
        ensures back { IfErr result (λ e. e.whole ≡ whole) }
    {
        let (root, mut due) = whole.into_parts();
        due.reverse();
        match due_kids(alloc, root.kept.as_slice(), &due) {
            Ok((kids, again)) => {
                let kids = RequestKids { kids, due, again };
                Ok((Box::into_inner(root), kids))
            }
            Err(NoMemory) => {
                due.reverse();
                Err(WholeBack {
                    whole: Whole::grown(root, due),
                })
            }
        }
    }

    /// What is known of the children.
    pub fn kids(&self) -> &Kids
        ensures { result.now ≡ self.now.kids }
    {
        &self.kids
    }

    /// How many children there are.
    pub fn len(&self) -> usize
        ensures count { result ≡ length self.now.kids.kids }
        ensures small { result < 2 ^ 63 }
    {
        self.again.len()
    }

    /// What is to be done next.
    pub fn next(&self) -> KidStep
        ensures { ShowsKids self.now.kids result }
    {
        self.kids.next()
    }

    /// The label of the node of the next child, if there is one, in an attempt of this number.
    pub(crate) fn next_label(&self, attempt: u32) -> u64 {
        match self.due.last() {
            Some(tree) => request_label(tree.root(), attempt),
            None => 0,
        }
    }

    /// The tree of the next child, whose attempt is out then.
    pub fn hand_out(&mut self) -> Whole
        requires { self.old.kids.handed < length self.old.kids.kids }
        ensures kids { self.new.kids ≡ kid_handed self.old.kids }
        ensures number { root_number result ≡ slice_get (numbers_of self.old.kids.kids) self.old.kids.handed }
        ensures holds { HoldsBut result self.old self.new }
        ensures asks { (attempt : ℕ) (forest : Forest) (asked : List Task) (slots : List Slot) →
            IsKids self.old attempt forest asked slots → HandsOut result self.old self.new attempt forest asked slots }
    {
        self.kids.hand_out();
        match self.due.pop() {
            Some(tree) => tree,
            None => unreachable!(),
        }
    }

    /// The nth child told which pointer it will have.
    pub fn tell(&mut self, n: usize, pointer: Option<Bp>)
        requires { state_at self.old.kids.kids n ≡ Some Out }
        ensures kids { self.new.kids ≡ kid_is self.old.kids n (Told pointer) }
        ensures holds { HoldTheSame self.old self.new }
        ensures after { (attempt : ℕ) (forest : Forest) (asked : List Task) (slots : List Slot) →
            IsKids self.old attempt forest asked slots →
            IsKids self.new attempt forest asked (slice_set slots n (IsOut (Some pointer))) }
    {
        self.kids.tell(n, pointer);
    }

    /// The nth child finished, with the pointer that it told if it told one.
    pub fn hear_finished(&mut self, n: usize, error: Option<Errno>, pointer: Option<Bp>)
        requires { IsOutWith pointer (state_at self.old.kids.kids n) }
        ensures kids { self.new.kids ≡ kid_is self.old.kids n (Ended no_bits error pointer) }
        ensures holds { HoldTheSame self.old self.new }
        ensures after { (attempt : ℕ) (forest : Forest) (asked : List Task) (slots : List Slot) (number : ℕ)
            (one : One) →
            IsKids self.old attempt forest asked slots → slice_get (numbers_of self.old.kids.kids) n ≡ Some number →
            IsLeftBy one number no_bits error pointer → one.again ≡ [] → one.left ≡ NoTrees →
            IsKids self.new attempt forest asked (slice_set slots n (Heard (AttemptedBy one))) }
    {
        self.kids.hear(n, Bits::NONE, error, pointer);
    }

    /// The nth child goes again, with the pointer that it told if it told one, and this is left of its tree.
    pub fn hear_again(&mut self, n: usize, bits: Bits, whole: Whole, pointer: Option<Bp>)
        requires out { IsOutWith pointer (state_at self.old.kids.kids n) }
        requires bits { has_bits bits ≡ true }
        requires root { root_number whole ≡ slice_get (numbers_of self.old.kids.kids) n }
        ensures kids { self.new.kids ≡ kid_is self.old.kids n (Ended bits None pointer) }
        ensures due { self.new.due ≡ self.old.due }
        ensures left { self.new.again ≡ slice_set self.old.again n (Some whole) }
        ensures after { (attempt : ℕ) (forest : Forest) (asked : List Task) (slots : List Slot) (number : ℕ)
            (one : One) →
            IsKids self.old attempt forest asked slots → slice_get (numbers_of self.old.kids.kids) n ≡ Some number →
            IsLeftBy one number bits None pointer → IsLeft whole one →
            IsKids self.new attempt forest asked (slice_set slots n (Heard (AttemptedBy one))) }
    {
        // It is a whole tree.
        let _root = whole.root();
        self.kids.hear(n, bits, None, pointer);
        self.again[n] = Some(whole);
    }

    /// The request with its children that finished, over what is left of those that go again: the tree that goes again,
    /// to which both go over. Where memory is refused both are as before.
    #[inline(never)]
    pub fn again(
        &mut self,
        alloc: Global,
        waiting: &mut UnfinishedRequest,
    ) -> Result<Whole, NoMemory>
        requires { list_all is_ended self.old.kids.kids ≡ true }
        ensures tree { IfOk result (λ tree. (attempt : ℕ) (forest : Forest) (asked : List Task) (slots : List Slot)
            (one : Attempted) →
            IsKids self.old attempt forest asked slots →
            one.again ≡ with_kept (pending_of waiting.old) (finished_in self.old.kids) ∷ [] →
            IsLeft tree (one_of (kids_by slots) one)) }
        ensures number { IfOk result (λ tree. root_number tree ≡ Some waiting.old.request.number) }
        ensures list { IfOk result (λ tree. IsLeftList tree waiting.old self.old) }
        ensures same { OnErr result (self.new ≡ self.old) }
        ensures waiting { OnErr result (waiting.new ≡ waiting.old) }
    {
        let mut left = Vec::with_capacity(alloc, self.again.len())?;
        let kept = self.kids.finished(alloc)?;
        let mut root = request_room(alloc)?;
        self.kids = Kids::new(alloc, &[], List::new(alloc))?;
        self.due = Vec::new(alloc);
        put_left(&mut left, replace(&mut self.again, Vec::new(alloc)));
        *root = replace(waiting, no_request(alloc));
        root.kept = kept;
        Ok(Whole::grown(root, left))
    }
}

/// A place for the request of a tree that goes again, made before anything goes over.
fn request_room(alloc: Global) -> Result<Box<UnfinishedRequest>, NoMemory> {
    match Box::new(alloc, no_request(alloc)) {
        Ok(room) => Ok(room),
        Err(_) => Err(NoMemory),
    }
}

/// Moves what is left of the children to where there is room for it.
fn put_left(left: &mut Vec<Whole>, again: Vec<Option<Whole>>)
    requires none { left.old.items ≡ [] }
    requires room { length again.items ≤ vec_capacity left.old }
    ensures { left.new.items ≡ trees_left again.items }
{
    for child in List::from_vec(again).into_rest() {
        if let Some(tree) = child {
            left.push_reserved(tree);
        }
    }
}

/// What stands in place of a request that went over to another tree.
fn no_request(alloc: Global) -> UnfinishedRequest {
    UnfinishedRequest {
        request: Request {
            number: 0,
            work: Work::Null,
            under: None,
            canfail: false,
        },
        birth: 0,
        block: None,
        kept: List::new(alloc),
        unfinished: 0,
    }
}

/// The children whose trees these are, the last first, beside those that finished; nothing is left of any.
fn due_kids(
    alloc: Global,
    kept: &[KeptChild],
    due: &[Whole],
) -> Result<(Kids, Vec<Option<Whole>>), NoMemory>
    requires { RiseFrom 0 (roots_in (reverse due.now)) }
    ensures kids { IfOk result (λ made. made.0 ≡ fresh_kids (roots_in (reverse due.now)) kept.now) }
    ensures fits { IfOk result (λ made. Fits made.0 []) }
    ensures again { IfOk result (λ made. made.1.items ≡ replicate (length due.now) None) }
{
    let mut numbers = numbers_of(alloc, due)?;
    numbers.reverse();
    let kept = Vec::from_slice(alloc, kept)?;
    let again = nothing_left(alloc, due.len())?;
    let kids = Kids::new(alloc, &numbers, List::from_vec(kept))?;
    Ok((kids, again))
}

/// The numbers of their roots.
fn numbers_of(alloc: Global, trees: &[Whole]) -> Result<Vec<ReqNo>, NoMemory>
    ensures { IfOk result (λ numbers. numbers.items ≡ roots_in trees.now) }
{
    let mut numbers = Vec::new(alloc);
    for tree in trees {
        numbers.push(tree.number())?;
    }
    Ok(numbers)
}

fn nothing_left(alloc: Global, count: usize) -> Result<Vec<Option<Whole>>, NoMemory>
    ensures { IfOk result (λ again. again.items ≡ replicate count None) }
{
    let mut again = Vec::new(alloc);
    for _i in 0..count {
        again.push(None)?;
    }
    Ok(again)
}
