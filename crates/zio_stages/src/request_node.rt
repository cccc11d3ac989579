//! A request in an attempt.
//!
//! A request's children are attempted beside each other, all together. Its own work goes on behind them: it may begin
//! once they all are out, and once each has told the pointer that it will have, or has ended, the request can tell its
//! own.

ghost use Rattle.std.specs.Prelude.{◌≡◌, ◌<◌, ◌⊎◌, ℕ, List as Seq, [], IfErr, IfOk, None, OnErr, Ok, Option, Some, false, length, option_map, slice_get, slice_set, true};
ghost use Rattle.std.specs.List.{AllByRecursion, list_all, list_any};
ghost use Rattle.zio_types.specs.declared.place.Top.{Top as SeenTop};
ghost use Rattle.zio_types.specs.declared.request.Phase.TheVariants.{Done};
ghost use Rattle.zio_script.specs.declared.script.Work.{Work};
ghost use Rattle.zio_gang.specs.Attempts.{Pending, Terms, has_bits, no_bits};
ghost use Rattle.zio_trace.specs.Families.{Forest, NoTrees};
ghost use Rattle.zio_trace.specs.Tasks.{Attempt, AttemptedBy, One};
ghost use Rattle.zio_children.specs.RequestKids.{IsLeftBy, IsOutWith, is_ended, kid_handed, kid_is, numbers_of};
ghost use Rattle.zio_children.specs.declared.kids.KidState.TheVariants.{Ended, Out, Told};
ghost use Rattle.zio_gang.specs.Pointers.{IsNoneOrValid};
ghost use Rattle.zio_frames.specs.Frames.{Child, Stack, fresh_stack};
ghost use Rattle.zio_frames.specs.Moves.{heard_early, heard_of};
ghost use Rattle.zio_frames.specs.Seats.{IsSeated, asked_at};
ghost use Rattle.zio_exchange.specs.Wholes.{IsLeft, IsTreeOf, root_number, root_of};
ghost use Rattle.zio_exchange.specs.declared.waiting.UnfinishedRequest.{UnfinishedRequest as SeenWaiting};
ghost use Rattle.zio_stages.specs.Closings.{EndsBy};
ghost use Rattle.zio_stages.specs.KidLists.{AreBegun, HoldTheSame, HoldsBut, IsListOf};
ghost use Rattle.zio_stages.specs.KidPointers.{HasValid, HaveValidPointers};
ghost use Rattle.zio_stages.specs.NodeChildren.{is_owing};
ghost use Rattle.zio_stages.specs.RequestNodes.{HandsKid, IsKidAt, IsOwnOver, IsRequestNode, IsSeatOf};
ghost use Rattle.zio_stages.specs.RequestStages.{HasToldIn, with_kids};
ghost use Rattle.zio_stages.specs.declared.request_node.OwnFound.{OwnFound as SeenFound};

use crate::attempted::RequestKids;
use crate::closing::{Outcome, close};
use crate::family::{Family, Seat};
use crate::own_claim::OwnClaim;
use crate::own_free::OwnFree;
use crate::own_read::OwnRead;
use crate::own_write::OwnWrite;
use crate::stored_block::StoredBlock;
use std::alloc::Global;
use zio_blkptr::Bp;
use zio_children::KidStep;
use zio_exchange::{UnfinishedRequest, Whole, WholeBack};
use zio_gang::Tree;
use zio_script::Failmode;
use zio_types::{Bits, ChildKind, Errno, List, NoMemory};

/// How far a request's own work is.
#[derive(Drop)]
pub(crate) enum Own {
    /// Nothing of it is asked.
    Due,
    /// The block of a write is written.
    Write(OwnWrite),
    /// It was.
    Stored(StoredBlock),
    /// The block of a read is read.
    Read(OwnRead),
    /// The block of a free is walked over, and its places go back.
    Free(OwnFree),
    /// The block that a claim points to is walked over, and its places are taken.
    Claim(OwnClaim),
    /// All of a read, a free or a claim ended, and came to this.
    Found(OwnFound),
    /// All of it ended, and what it came to is elsewhere.
    Over,
}

/// A request in an attempt.
#[derive(Drop)]
pub struct RequestNode {
    pub(crate) waiting: UnfinishedRequest,
    pub(crate) kids: RequestKids,
    pub(crate) own: Own,
    pub(crate) family: Family,
    pub(crate) round: u32,
    pub(crate) attempt: u32,
    pub(crate) failmode: Failmode,
}

/// What a request's own work came to.
#[derive(Drop)]
pub(crate) struct OwnFound {
    pub(crate) error: Option<Errno>,
    /// Of a read.
    pub(crate) bytes: List<u8>,
    /// The block that it made.
    pub(crate) tree: Option<Tree>,
    /// Of a write that has a place.
    pub(crate) pointer: Option<Bp>,
}

/// What comes next of a request's children.
#[derive(Drop)]
pub enum Start {
    /// The attempt of this tree is the child of this number.
    Child { number: usize, whole: Whole },
    /// All were handed out.
    AllOut,
}

/// Whether a request can tell its pointer.
#[derive(Drop)]
pub enum ReadyStep {
    /// A child of this kind hasn't told its own.
    Wait(ChildKind),
    /// It will have this pointer, or none.
    Tell(Option<Bp>),
}

/// Whether a request's attempt can end.
#[derive(Drop)]
pub enum DoneStep {
    /// A child of this kind hasn't ended.
    Wait(ChildKind),
    Close,
}

impl RequestNode {
    /// Nothing of the attempt is done. Where memory is refused the tree comes back.
    pub fn begin(
        alloc: Global,
        whole: Whole,
        round: u32,
        attempt: u32,
        failmode: Failmode,
    ) -> Result<RequestNode, WholeBack>
        ensures root { IfOk result (λ node. root_of whole ≡ Some node.waiting) }
        ensures fresh { IfOk result (λ node. (t : Terms) (p : Pending) (forest : Forest) → t.round ≡ round →
            t.failmode ≡ failmode →
            IsTreeOf whole p forest → IsRequestNode t node (fresh_stack (Attempt attempt p forest))) }
        ensures attempt { IfOk result (λ node. node.attempt ≡ attempt) }
        ensures due { IfOk result (λ node. node.own ≡ Own.Due) }
        ensures over { IfOk result (λ node. (tops : Seq SeenTop) → IsOwnOver tops node.own node.family) }
        ensures valid { IfOk result (λ node. AllByRecursion HasValid node.waiting.kept
            → HaveValidPointers node.kids.kids) }
        ensures list { IfOk result (λ node. IsListOf whole node.waiting node.kids) }
        ensures begun { IfOk result (λ node. AreBegun node.waiting node.kids) }
        ensures kept { IfOk result (λ node. node.kids.kids.kept ≡ node.waiting.kept) }
        ensures back { IfErr result (λ e. e.whole ≡ whole) }
    {
        match RequestKids::begin(alloc, whole) {
            Ok((waiting, kids)) => Ok(RequestNode {
                waiting,
                kids,
                own: Own::Due,
                family: Family::new(alloc),
                round,
                attempt,
                failmode,
            }),
            Err(back) => Err(back),
        }
    }

    /// Hands out the next child. Where memory is refused the node is as before.
    pub fn start(&mut self) -> Result<Start, NoMemory>
        requires { self.old.attempt < 4 }
        ensures child { (number : ℕ) (whole : Seq SeenWaiting) → result ≡ Ok (Start.Child number whole) →
            (t : Terms) (st : Stack) → IsSeated st → IsRequestNode t self.old st → (number ≡ length st.children)
            × HandsKid t self.new whole st }
        ensures handed { (number : ℕ) (whole : Seq SeenWaiting) → result ≡ Ok (Start.Child number whole) →
            self.new.kids.kids ≡ kid_handed self.old.kids.kids }
        ensures less { (number : ℕ) (whole : Seq SeenWaiting) → result ≡ Ok (Start.Child number whole) →
            self.old.kids.kids.handed < length self.old.kids.kids.kids }
        ensures holds { (number : ℕ) (whole : Seq SeenWaiting) → result ≡ Ok (Start.Child number whole) →
            HoldsBut whole self.old.kids self.new.kids }
        ensures over { (tops : Seq SeenTop) → IsOwnOver tops self.old.own self.old.family →
            IsOwnOver tops self.new.own self.new.family }
        ensures valid { HaveValidPointers self.old.kids.kids → HaveValidPointers self.new.kids.kids }
        ensures rest { self.new ≡ with_kids self.old self.new.kids self.new.family }
        ensures all_out { result ≡ Ok Start.AllOut → self.new.kids.kids.handed ≡ length self.new.kids.kids.kids }
        ensures same { result ≡ Ok Start.AllOut → self.new ≡ self.old }
        ensures err { OnErr result (self.new ≡ self.old) }
    {
        let KidStep::Child(place) = self.kids.next() else {
            return Ok(Start::AllOut);
        };
        let label = self.kids.next_label(self.attempt);
        let number = self
            .family
            .add(ChildKind::Logical, Seat::Outer(place), label)?;
        let whole = self.kids.hand_out();
        Ok(Start::Child { number, whole })
    }

    /// Whether the attempt of a null can end, once all its children were handed out.
    pub fn done_null(&self) -> DoneStep
        ensures wait { (kind : ChildKind) → result ≡ DoneStep.Wait kind → (t : Terms) (st : Stack) → IsSeated st →
            IsRequestNode t self.now st →
            self.now.kids.kids.handed ≡ length self.now.kids.kids.kids
            → list_any (is_owing kind Done) st.children ≡ true }
        ensures close { result ≡ DoneStep.Close → list_all is_ended self.now.kids.kids.kids ≡ true }
    {
        if self.kids.kids().all_ended() {
            DoneStep::Close
        } else {
            DoneStep::Wait(ChildKind::Logical)
        }
    }

    /// What becomes of a null whose children all ended. Where memory is refused the node is as before.
    pub fn close_null(&mut self, alloc: Global) -> Result<Outcome, NoMemory>
        requires null { self.old.waiting.request.work ≡ Work.Null }
        requires ended { list_all is_ended self.old.kids.kids.kids ≡ true }
        ensures ends { IfOk result (λ outcome. (own : SeenFound) × (own.tree ≡ None) × EndsBy self.old own outcome) }
        ensures same { OnErr result (self.new ≡ self.old) }
    {
        let mut own = OwnFound {
            error: None,
            bytes: List::new(alloc),
            tree: None,
            pointer: None,
        };
        close(
            alloc,
            self.attempt,
            self.failmode,
            &mut self.waiting,
            &mut self.kids,
            &mut own,
        )
    }

    /// Its children by number.
    pub fn family(&self) -> &Family
        ensures { result.now ≡ self.now.family }
    {
        &self.family
    }

    /// Of which kind the child is: logical if it is the attempt of one of its children's trees.
    pub fn kind_of_child(&self, child: usize) -> ChildKind
        requires { child < length self.now.family }
        ensures { Some result ≡ option_map (λ (c : Child). c.kind) (slice_get self.now.family child) }
    {
        self.family.kind(child)
    }

    /// The child, an attempt, told which pointer it will have.
    pub fn arrive_ready(&mut self, child: usize, pointer: Option<Bp>)
        requires { IsKidAt (λ state. state ≡ Some Out) self.old child }
        ensures told { (t : Terms) (st : Stack) (c : Child) → IsRequestNode t self.old st →
            slice_get st.children child ≡ Some c →
            IsRequestNode t self.new (heard_early st child c pointer) }
        ensures kids { (place : ℕ) → IsSeatOf self.old.family child place →
            self.new.kids.kids ≡ kid_is self.old.kids.kids place (Told pointer) }
        ensures holds { HoldTheSame self.old.kids self.new.kids }
        ensures over { (tops : Seq SeenTop) → IsOwnOver tops self.old.own self.old.family →
            IsOwnOver tops self.new.own self.new.family }
        ensures valid { IsNoneOrValid pointer → HaveValidPointers self.old.kids.kids
            → HaveValidPointers self.new.kids.kids }
        ensures rest { self.new ≡ with_kids self.old self.new.kids self.new.family }
    {
        let place = self.place(child);
        self.kids.tell(place, pointer);
        self.family.tell(child);
    }

    /// The child, an attempt, finished, with the pointer that it told if it told one.
    pub fn arrive_finished(&mut self, child: usize, error: Option<Errno>, pointer: Option<Bp>)
        requires { IsKidAt (IsOutWith pointer) self.old child }
        ensures heard { (t : Terms) (st : Stack) (c : Child) (p : Pending) (below : Forest) (one : One) →
            IsRequestNode t self.old st → slice_get st.children child ≡ Some c →
            asked_at st c.seat ≡ Some (Attempt self.old.attempt p below) →
            IsLeftBy one p.request.number no_bits error pointer → one.again ≡ [] → one.left ≡ NoTrees →
            IsRequestNode t self.new (heard_of st child c (AttemptedBy one)) }
        ensures kids { (place : ℕ) → IsSeatOf self.old.family child place →
            self.new.kids.kids ≡ kid_is self.old.kids.kids place (Ended no_bits error pointer) }
        ensures holds { HoldTheSame self.old.kids self.new.kids }
        ensures over { (tops : Seq SeenTop) → IsOwnOver tops self.old.own self.old.family →
            IsOwnOver tops self.new.own self.new.family }
        ensures valid { IsNoneOrValid pointer ⊎ HasToldIn self.old child pointer →
            HaveValidPointers self.old.kids.kids →
            HaveValidPointers self.new.kids.kids }
        ensures rest { self.new ≡ with_kids self.old self.new.kids self.new.family }
    {
        let place = self.place(child);
        self.kids.hear_finished(place, error, pointer);
        self.family.end(child);
    }

    /// The child, an attempt, goes again, with the pointer that it told if it told one, and this is left of its tree.
    pub fn arrive_again(&mut self, child: usize, bits: Bits, whole: Whole, pointer: Option<Bp>)
        requires out { IsKidAt (IsOutWith pointer) self.old child }
        requires bits { has_bits bits ≡ true }
        requires root { (place : ℕ) → IsSeatOf self.old.family child place
            → root_number whole ≡ slice_get (numbers_of self.old.kids.kids.kids) place }
        ensures heard { (t : Terms) (st : Stack) (c : Child) (p : Pending) (below : Forest) (one : One) →
            IsRequestNode t self.old st → slice_get st.children child ≡ Some c →
            asked_at st c.seat ≡ Some (Attempt self.old.attempt p below) →
            IsLeftBy one p.request.number bits None pointer → IsLeft whole one →
            IsRequestNode t self.new (heard_of st child c (AttemptedBy one)) }
        ensures kids { (place : ℕ) → IsSeatOf self.old.family child place →
            self.new.kids.kids ≡ kid_is self.old.kids.kids place (Ended bits None pointer) }
        ensures due { self.new.kids.due ≡ self.old.kids.due }
        ensures left { (place : ℕ) → IsSeatOf self.old.family child place →
            self.new.kids.again ≡ slice_set self.old.kids.again place (Some whole) }
        ensures over { (tops : Seq SeenTop) → IsOwnOver tops self.old.own self.old.family →
            IsOwnOver tops self.new.own self.new.family }
        ensures valid { IsNoneOrValid pointer ⊎ HasToldIn self.old child pointer →
            HaveValidPointers self.old.kids.kids →
            HaveValidPointers self.new.kids.kids }
        ensures rest { self.new ≡ with_kids self.old self.new.kids self.new.family }
    {
        let place = self.place(child);
        self.kids.hear_again(place, bits, whole, pointer);
        self.family.end(child);
    }

    /// The place of the tree that the child attempts.
    fn place(&self, child: usize) -> usize
        requires { (place : ℕ) × IsSeatOf self.now.family child place }
        ensures { IsSeatOf self.now.family child result }
    {
        match self.family.seat(child) {
            Seat::Outer(place) => place,
            Seat::Inner(_) => unreachable!(),
        }
    }

    /// Whether a child is to be handed out.
    pub fn has_child_due(&self) -> bool
        ensures due { result ≡ true → self.now.kids.kids.handed < length self.now.kids.kids.kids }
        ensures none { result ≡ false → self.now.kids.kids.handed ≡ length self.now.kids.kids.kids }
    {
        matches!(self.kids.next(), KidStep::Child(_))
    }
}
