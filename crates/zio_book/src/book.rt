ghost use Rattle.zio_book.specs.Rule.{idle};
ghost use Rattle.zio_book.specs.History.{SlotHas};
ghost use Rattle.std.specs.Prelude.{◌≡◌, ℕ, ◌+◌, ◌<◌, ◌≤◌, [], ◌∷◌, ◌++◌, length, All, Some, None, IfOk, IfErr, IsSome, MatchResult, slice_index_or, vec_capacity};

use crate::held::Held;
use crate::view::{Birth, Deal, Gather, Ruled, View, WithHistory};
use atomic_table::{Badge, Refused, Seat, Table};
use std::alloc::{AllocFailed, Global};
use std::snapshot::Snapshot;
use std::sync::Wait;
use zio_types::List;

// The words of the table: the tickets that were drawn, those that were served, and the length of the history.
pub(crate) const TICKETS: usize = 0;

pub(crate) const SERVING: usize = 1;

pub(crate) const HISTORY: usize = 2;

/// A held value that acts one after another, by ticket, with the history of its acts.
#[derive(Drop)]
pub struct Book<H: Held> {
    pub(crate) table: Table<
        Option<WithHistory<H, H::Note>>,
        View<H, H::Note>,
        Birth<H>,
        Ruled<H>,
        Global,
    >,
    ghost sized: { (table.shared.table_id.words ≡ 3) × (table.shared.table_id.slots ≡ 1) },
}

/// What one user of a book acts with. It has no bytes.
#[derive(Drop)]
pub struct Pass<H: Held> {
    seat: BookSeat<H>,
}

/// Names an act: its number in the history, with a badge that knows the note there and the history before it.
#[derive(Drop)]
pub struct Receipt<H: Held> {
    pub(crate) number: u64,
    pub(crate) badge: Badge<View<H, H::Note>>,
}

/// There was no memory for an act. The command comes back.
#[derive(Debug, Drop)]
pub struct CmdBack<C> {
    pub cmd: C,
}

/// There was no memory for a book. The value comes back.
#[derive(Debug, Drop)]
pub struct HeldBack<H> {
    pub held: H,
}

pub(crate) type BookSeat<H> = Seat<
    Option<WithHistory<H, <H as Held>::Note>>,
    View<H, <H as Held>::Note>,
>;

// A book with one seat for all its passes.
fn open<H: Held>(alloc: Global, held: H, passes: u32) -> Result<(Book<H>, BookSeat<H>), HeldBack<H>>
    ensures begins { IfOk result (λ r. (r.0.table.shared.key.first.value ≡ held)
        × (r.0.table.shared.key.passes ≡ passes)) }
    ensures seat { IfOk result (λ r. (r.1.table_id ≡ r.0.table.shared.table_id)
        × (r.1.me ≡ (idle passes [] [] (Some held), []))) }
    ensures back { IfErr result (λ e. e.held ≡ held) }
{
    let about = Birth {
        first: Snapshot::of(&held),
        passes,
    };
    let kept = WithHistory {
        held,
        notes: Vec::new(alloc),
    };
    let mut slots = Vec::new(alloc);
    if let Err(AllocFailed { value }) = slots.push(Some(kept)) {
        return Err(lent_back(value));
    }
    match Table::new(alloc, &[0, 0, 0], slots, &about) {
        Ok((table, seat)) => Ok((Book { table }, seat)),
        Err(Refused { mut slots }) => {
            let Some(slot) = slots.pop() else {
                unreachable!()
            };
            Err(lent_back(slot))
        }
    }
}

// What was to be held, out of its slot.
fn lent_back<H: Held>(slot: Option<WithHistory<H, H::Note>>) -> HeldBack<H>
    requires { IsSome slot }
    ensures { SlotHas slot result.held }
{
    let Some(WithHistory { held, notes: _ }) = slot else {
        unreachable!()
    };
    HeldBack { held }
}

impl<H: Held> Book<H> {
    ghost use Rattle.zio_book.specs.History.{Leads, AllFollow, times, once_below};
    ghost use Rattle.zio_book.specs.Books.{IsSeatOf, IsPassOf, IsNewPass, IsReceiptOf, IsSameReceipt, SeatActed, AreAllPasses, IsShown, EachOnce, Learned, IsGathered, StandsAt, first_state, passes_of, acts_of};

    /// A book over a value, with so many passes, and an empty history.
    pub fn new(alloc: Global, held: H, passes: u32) -> Result<(Book<H>, List<Pass<H>>), HeldBack<H>>
        requires { 1 ≤ passes }
        ensures begins { IfOk result (λ r. (first_state r.0 ≡ held) × (passes_of r.0 ≡ passes)) }
        ensures passes { IfOk result (λ r. (length r.1 ≡ passes) × All (IsNewPass r.0) r.1) }
        ensures back { IfErr result (λ e. e.held ≡ held) }
    {
        let Ok(team) = Vec::with_capacity(alloc, passes as usize) else {
            return Err(HeldBack { held });
        };
        let (book, all) = open(alloc, held, passes)?;
        let team = book.deal(all, passes, team);
        Ok((book, List::from_vec(team)))
    }

    // A seat for each pass, of the one that is all of them.
    fn deal(&self, mut all: BookSeat<H>, passes: u32, mut team: Vec<Pass<H>>) -> Vec<Pass<H>>
        requires all { IsSeatOf self.now passes all × (all.me.0.acts ≡ []) × (all.me.0.claims ≡ []) }
        requires team { (team.items ≡ []) × (passes ≤ vec_capacity team) }
        ensures { (length result.items ≡ passes) × All (IsNewPass self.now) result.items }
    {
        for _ in 0..passes {
            let seat = self.table.shared.split_seat::<Deal>(&mut all);
            team.push_reserved(Pass { seat });
        }
        team
    }

    /// One act of the held value, with the note of which the history becomes longer. It waits for its turn. Where there
    /// is no memory for the note nothing is done, and the command comes back.
    pub fn act<R: Wait>(
        &self,
        rt: &R,
        pass: &mut Pass<H>,
        cmd: H::Cmd,
    ) -> Result<(H::Reply, Receipt<H>), CmdBack<H::Cmd>>
        requires { IsPassOf self.now pass.old }
        ensures pass { IsPassOf self.now pass.new }
        ensures act { MatchResult result
            (λ r. SeatActed H.gives H.fits self.now pass.old.seat pass.new.seat cmd r.0 r.1) (λ e. (e.cmd ≡ cmd)
            × (acts_of pass.new ≡ acts_of pass.old)) }
    {
        self.perform(rt, &mut pass.seat, cmd)
    }

    /// An act as by `act`, whose number is above those of the receipts handed in. These stay as they are.
    pub fn act_after<R: Wait>(
        &self,
        rt: &R,
        pass: &mut Pass<H>,
        cmd: H::Cmd,
        after: &mut [Receipt<H>],
    ) -> Result<(H::Reply, Receipt<H>), CmdBack<H::Cmd>>
        requires pass { IsPassOf self.now pass.old }
        requires after { All (IsReceiptOf self.now) after.old }
        ensures pass { IsPassOf self.now pass.new }
        ensures act { MatchResult result
            (λ r. SeatActed H.gives H.fits self.now pass.old.seat pass.new.seat cmd r.0 r.1) (λ e. (e.cmd ≡ cmd)
            × (acts_of pass.new ≡ acts_of pass.old)) }
        ensures later { IfOk result (λ r. All (λ a. a.number < r.1.number) after.old) }
        ensures after { (j : ℕ) (d : _) → j < length after.old
            → IsSameReceipt self.now (slice_index_or after.old j d) (slice_index_or after.new j d) }
    {
        self.learn_all(&mut pass.seat, after);
        self.perform(rt, &mut pass.seat, cmd)
    }

    // The seat learns a note of each receipt.
    fn learn_all(&self, seat: &mut BookSeat<H>, after: &mut [Receipt<H>])
        requires seat { IsSeatOf self.now 1 seat.old }
        requires after { All (IsReceiptOf self.now) after.old }
        ensures seat { IsSeatOf self.now 1 seat.new × (seat.new.me.0.acts ≡ seat.old.me.0.acts) }
        ensures learned { (j : ℕ) (d : _) → j < length after.old
            → Learned seat.new.me.0.claims (slice_index_or after.old j d).number }
        ensures after { (j : ℕ) (d : _) → j < length after.old
            → IsSameReceipt self.now (slice_index_or after.old j d) (slice_index_or after.new j d) }
    {
        for receipt in after.iter_mut() {
            let note = self.copy(receipt);
            self.learn(seat, note);
        }
    }

    /// A second receipt of the same act.
    pub fn again(&self, receipt: &mut Receipt<H>) -> Receipt<H>
        requires { IsReceiptOf self.now receipt.old }
        ensures { IsSameReceipt self.now receipt.old receipt.new × IsSameReceipt self.now receipt.old result }
    {
        self.copy(receipt)
    }

    /// The held value and the whole history, without memory. The history leads from the first state to this one, begins
    /// with the history before each receipt shown and has its note there, and each of its numbers is in the acts of one
    /// of the passes, once.
    pub fn close(self, passes: List<Pass<H>>, shown: List<Receipt<H>>) -> (H, List<H::Note>)
        requires passes { AreAllPasses self passes }
        requires shown { All (IsReceiptOf self) shown }
        ensures leads { Leads H.gives (first_state self) result.1 result.0 }
        ensures shown { All (IsShown self result.1) shown }
        ensures acts { EachOnce result.1 passes }
    {
        let all = self.gather(passes.into_vec());
        let all = self.show(all, shown.into_vec());
        self.end(all)
    }

    // One seat that knows what all passes know.
    fn gather(&self, mut passes: Vec<Pass<H>>) -> BookSeat<H>
        requires { AreAllPasses self.now passes.items }
        ensures seat { IsSeatOf self.now (passes_of self.now) result }
        ensures acts { IsGathered passes.items result.me.0.acts }
    {
        let Some(Pass { seat: mut all }) = passes.pop() else {
            unreachable!()
        };
        while let Some(Pass { seat }) = passes.pop() {
            self.table.shared.join_seat::<Gather>(&mut all, seat);
        }
        all
    }

    // The seat learns what the receipts know.
    fn show(&self, mut all: BookSeat<H>, mut shown: Vec<Receipt<H>>) -> BookSeat<H>
        requires seat { IsSeatOf self.now all.me.0.passes all }
        requires shown { All (IsReceiptOf self.now) shown.items }
        ensures seat { IsSeatOf self.now all.me.0.passes result × (result.me.0.acts ≡ all.me.0.acts) }
        ensures shown { (log : _) → AllFollow log result.me.0.claims → All (IsShown self.now log) shown.items }
    {
        while let Some(receipt) = shown.pop() {
            self.learn(&mut all, receipt);
        }
        all
    }

    // The held value and the history, by a seat that is all passes.
    fn end(self, all: BookSeat<H>) -> (H, List<H::Note>)
        requires { IsSeatOf self (passes_of self) all }
        ensures leads { Leads H.gives (first_state self) result.1 result.0 }
        ensures acts { ((k : ℕ) → times k all.me.0.acts ≡ once_below k (length result.1))
            × StandsAt result.1 all.me.0.acts }
        ensures claims { AllFollow result.1 all.me.0.claims }
    {
        let Book { table } = self;
        let mut closed = table.close_with(all);
        let slot = closed.take(0);
        closed.free();
        let Some(WithHistory { held, notes }) = slot else {
            unreachable!()
        };
        (held, List::from_vec(notes))
    }
}

impl<H: Held> Receipt<H> {
    /// The act's number in its book's history.
    pub fn number(&self) -> u64
        ensures { result ≡ self.now.number }
    {
        self.number
    }
}
