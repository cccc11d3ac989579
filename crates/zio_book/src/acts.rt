//! How a seat acts: it draws a ticket, waits for its turn, acts, counts the act and serves the next.
ghost use Rattle.std.specs.Prelude.{◌≡◌, ℕ, ◌+◌, ◌<◌, ◌≤◌, [], ◌∷◌, ◌++◌, length, All, Some, None, IfOk, IfErr, MatchResult};

use crate::book::{Book, BookSeat, CmdBack, HISTORY, Receipt, SERVING, TICKETS};
use crate::held::Held;
use crate::view::{Claim, Count, Draw, Gather, Look, Serve, WithHistory};
use atomic_table::Badge;
use crossbeam_utils::Backoff;
use std::mem;
use std::sync::Wait;

impl<H: Held> Book<H> {
    ghost use Rattle.zio_book.specs.Rule.{idle, first_of};
    ghost use Rattle.zio_book.specs.Books.{IsSeatOf, IsReceipt, IsReceiptOf, IsSameReceipt, Claims, HoldsKept, SeatActed, IsInside, HasEntered};

    // One act of a seat. Its number is above all that the seat knows.
    pub(crate) fn perform<R: Wait>(
        &self,
        rt: &R,
        seat: &mut BookSeat<H>,
        cmd: H::Cmd,
    ) -> Result<(H::Reply, Receipt<H>), CmdBack<H::Cmd>>
        requires { IsSeatOf self.now 1 seat.old }
        ensures seat { IsSeatOf self.now 1 seat.new }
        ensures act { MatchResult result (λ r. SeatActed H.gives H.fits self.now seat.old seat.new cmd r.0 r.1
            × All (λ c. length c.0 < r.1.number) seat.old.me.0.claims) (λ e. (e.cmd ≡ cmd)
            × (seat.new.me.0.acts ≡ seat.old.me.0.acts)) }
    {
        self.enter(rt, seat);
        let mut kept = self.take_out(seat);
        if kept.notes.reserve(1).is_err() {
            self.put_back(seat, kept);
            self.leave(seat);
            return Err(CmdBack { cmd });
        }
        let (reply, note) = kept.held.act(cmd);
        kept.notes.push_reserved(note);
        self.put_back(seat, kept);
        let number = self.table.shared.fetch_add::<Count>(seat, HISTORY, 1);
        self.leave(seat);
        Ok((reply, self.receipt(seat, number)))
    }

    // A receipt of the seat's latest act.
    fn receipt(&self, seat: &mut BookSeat<H>, number: u64) -> Receipt<H>
        requires { IsSeatOf self.now 1 seat.old }
        ensures seat { IsSeatOf self.now 1 seat.new × (seat.new.me ≡ seat.old.me) }
        ensures receipt { (result.number ≡ number) × (result.badge.table_id ≡ self.now.table.shared.table_id)
            × (result.badge.views ≡ idle 0 [] (first_of seat.old.me.0.claims) seat.old.me.0.first ∷ []) }
    {
        let badge = self.table.shared.split_seat::<Claim>(seat).into_badge();
        Receipt { number, badge }
    }

    // Takes the held value out of the slot that the seat has.
    fn take_out(&self, seat: &mut BookSeat<H>) -> WithHistory<H, H::Note>
        requires table { seat.old.table_id ≡ self.now.table.shared.table_id }
        requires slot { HoldsKept seat.old.me.1 }
        ensures table { seat.new.table_id ≡ seat.old.table_id }
        ensures kept { seat.old.me.1 ≡ (0, Some result) ∷ [] }
        ensures me { seat.new.me ≡ (seat.old.me.0, (0, None) ∷ []) }
    {
        let Some(kept) = self.table.shared.exchange(seat, 0, None) else {
            unreachable!()
        };
        kept
    }

    // Puts the held value into the slot that the seat has.
    fn put_back(&self, seat: &mut BookSeat<H>, kept: WithHistory<H, H::Note>)
        requires table { seat.old.table_id ≡ self.now.table.shared.table_id }
        requires slot { seat.old.me.1 ≡ (0, None) ∷ [] }
        ensures table { seat.new.table_id ≡ seat.old.table_id }
        ensures me { seat.new.me ≡ (seat.old.me.0, (0, Some kept) ∷ []) }
    {
        let _empty = self.table.shared.exchange(seat, 0, Some(kept));
    }

    // Draws a ticket, and waits until it is served.
    fn enter<R: Wait>(&self, rt: &R, seat: &mut BookSeat<H>)
        requires { IsSeatOf self.now 1 seat.old }
        ensures table { seat.new.table_id ≡ seat.old.table_id }
        ensures inside { HasEntered H.gives self.now seat.old seat.new }
    {
        let ticket = self.table.shared.fetch_add::<Draw>(seat, TICKETS, 1);
        let backoff = Backoff::new();
        for _ in rt.forever() {
            let serving = self.table.shared.load::<Look<H>>(seat, SERVING);
            if serving == ticket {
                return;
            }
            self.pause(rt, &backoff, serving);
        }
        unreachable!()
    }

    // Spins for a while, and then sleeps until another ticket than `serving` is served.
    fn pause<R: Wait>(&self, rt: &R, backoff: &Backoff, serving: u64) {
        if backoff.is_completed() {
            self.table
                .shared
                .park(rt, SERVING, (serving & 0xffff_ffff) as u32);
        } else {
            backoff.snooze();
        }
    }

    // Serves the next ticket, and wakes who may sleep for it.
    fn leave(&self, seat: &mut BookSeat<H>)
        requires table { seat.old.table_id ≡ self.now.table.shared.table_id }
        requires inside { IsInside H.gives self.now seat.old }
        ensures table { seat.new.table_id ≡ seat.old.table_id }
        ensures view { seat.new.me
            ≡ (idle seat.old.me.0.passes seat.old.me.0.acts seat.old.me.0.claims seat.old.me.0.first, []) }
    {
        let served = self.table.shared.fetch_add::<Serve>(seat, SERVING, 1);
        self.ring(served);
    }

    // Wakes who may sleep for the ticket after this one.
    fn ring(&self, served: u64) {
        if self.table.shared.peek(TICKETS) != served.wrapping_add(1) {
            self.table.shared.wake_all(SERVING);
        }
    }

    // A receipt of the act that another names.
    pub(crate) fn copy(&self, receipt: &mut Receipt<H>) -> Receipt<H>
        requires { IsReceiptOf self.now receipt.old }
        ensures { IsSameReceipt self.now receipt.old receipt.new × IsSameReceipt self.now receipt.old result }
    {
        let badge = mem::replace(&mut receipt.badge, Badge::blank());
        let mut seat: BookSeat<H> = badge.into_seat();
        let other = self.table.shared.split_seat::<Claim>(&mut seat);
        receipt.badge = seat.into_badge();
        Receipt {
            number: receipt.number,
            badge: other.into_badge(),
        }
    }

    // The seat learns what a receipt knows.
    pub(crate) fn learn(&self, seat: &mut BookSeat<H>, receipt: Receipt<H>)
        requires seat { IsSeatOf self.now seat.old.me.0.passes seat.old }
        requires receipt { IsReceiptOf self.now receipt }
        ensures seat { IsSeatOf self.now seat.old.me.0.passes seat.new × (seat.new.me.0.acts ≡ seat.old.me.0.acts) }
        ensures claims { Claims self.now receipt seat.old.me.0.claims seat.new.me.0.claims }
    {
        let Receipt { number: _, badge } = receipt;
        self.table
            .shared
            .join_seat::<Gather>(seat, badge.into_seat());
    }
}
