ghost use Rattle.std.specs.Prelude.{◌≡◌, ◌+◌, ◌-◌, ◌^◌, ◌<◌, ◌&&◌, ◌==◌, not, ℕ, IsTrue, is_some};
ghost use Rattle.std.specs.List.{list_any};
ghost use Rattle.zio_types.specs.Machine.{Added, after, after_wait, count_of, fresh, joined_errors, Machine, may_happen, of_kind, same_kind, wakes};
ghost use Rattle.zio_script.specs.Decisions.{all_bits};
ghost use Rattle.zio_counts.specs.Tallies.{cleared_if, count_end, counted, event_of, first_counted, is_last, joined, joined_own, lowered, notified, raised, Shows, stalled, tally_of};
ghost use Rattle.zio_counts.specs.Kept.{stall_of};

use crate::decision::all_bits;
use std::marker::Model;
use zio_script::Failmode;
use zio_types::{Bits, ChildKind, Errno, Kind, Phase, worst};

/// The counts of a request's children, the one on which it stalls, their errors and their bits.
#[derive(Debug, Drop)]
pub struct Counts {
    vdev_done: u64,
    gang_ready: u64,
    gang_done: u64,
    logical_ready: u64,
    logical_done: u64,
    stall: Option<Stall>,
    vdev_error: Option<Errno>,
    gang_error: Option<Errno>,
    logical_error: Option<Errno>,
    bits: Bits,
}

/// The count on which a request stalls.
#[derive(Clone, Copy, Debug)]
struct Stall {
    kind: ChildKind,
    phase: Phase,
}

impl Model for Counts {
    ghost use Rattle.zio_counts.specs.Tallies.{Tally};

    ghost Value = { Tally };

    ghost use Rattle.zio_counts.specs.Kept.{tally};

    ghost view = { tally };
}

impl Counts {
    /// Of a request without children.
    pub fn new() -> Counts
        ensures counts { result ≡ tally_of fresh }
        ensures machine { Shows result fresh }
    {
        Counts {
            vdev_done: 0,
            gang_ready: 0,
            gang_done: 0,
            logical_ready: 0,
            logical_done: 0,
            stall: None,
            vdev_error: None,
            gang_error: None,
            logical_error: None,
            bits: Bits::NONE,
        }
    }

    /// A child of the kind was added.
    ///
    /// The count of children that are not ready stands still at 2^64 - 1.
    pub fn add(&mut self, kind: ChildKind)
        requires { counted kind Phase.Done self.old < count_end }
        ensures counts { self.new ≡ raised kind self.old }
        ensures event { (m : Machine) → Shows self.old m → count_of kind Phase.Ready m.children < count_end →
            Shows self.new (after (Added kind) m) }
    {
        self.raise(kind)
    }

    /// A child of the kind became ready or done; whether this wakes the request.
    ///
    /// It does exactly where it was the last on which the request stalled; the stall is then cleared. A child that is
    /// done leaves its bits, and its error unless it goes again; one that is ready leaves nothing.
    pub fn notify(
        &mut self,
        kind: ChildKind,
        phase: Phase,
        error: Option<Errno>,
        bits: Bits,
    ) -> bool
        requires { 0 < counted kind phase self.old }
        ensures woken { result ≡ is_last kind phase self.old }
        ensures counts { self.new ≡ notified kind phase error bits self.old }
        ensures event { (m : Machine) (n : ℕ) → Shows self.old m →
            IsTrue (may_happen (event_of kind phase n error bits) m) →
            Shows self.new (after (event_of kind phase n error bits) m) }
        ensures wake { (m : Machine) (n : ℕ) → Shows self.old m →
            IsTrue (may_happen (event_of kind phase n error bits) m) →
            result ≡ wakes (event_of kind phase n error bits) m }
    {
        let woken = self.is_last(kind, phase);
        self.lower(kind, phase);
        self.join(phase, kind, error, bits);
        self.clear_if(woken);
        woken
    }

    /// Whether the request has to wait for children of these kinds: one of them isn't ready or done.
    ///
    /// It then stalls on the first count that isn't 0, in the order vdev, gang, logical.
    pub fn wait_for(&mut self, kinds: &[ChildKind], phase: Phase) -> bool
        ensures waits { result ≡ is_some (first_counted kinds.now phase self.old) }
        ensures counts { self.new ≡ stalled (first_counted kinds.now phase self.old) self.old }
        ensures event { (m : Machine) → Shows self.old m → Shows self.new (after_wait kinds.now phase m) }
    {
        let first = self.first_open(kinds, phase);
        self.stall_on(first);
        first.is_some()
    }

    /// How many children of the kind are not ready or not done. A vdev child is always ready.
    pub fn count(&self, kind: ChildKind, phase: Phase) -> u64
        ensures { result ≡ counted kind phase self.now }
    {
        match (kind, phase) {
            (ChildKind::Vdev, Phase::Ready) => 0,
            (ChildKind::Vdev, Phase::Done) => self.vdev_done,
            (ChildKind::Gang, Phase::Ready) => self.gang_ready,
            (ChildKind::Gang, Phase::Done) => self.gang_done,
            (ChildKind::Logical, Phase::Ready) => self.logical_ready,
            (ChildKind::Logical, Phase::Done) => self.logical_done,
        }
    }

    /// The worst error of the children of the kind that are done and don't go again.
    pub fn error(&self, kind: ChildKind) -> Option<Errno>
        ensures { result ≡ of_kind kind self.now.errors }
    {
        match kind {
            ChildKind::Vdev => self.vdev_error,
            ChildKind::Gang => self.gang_error,
            ChildKind::Logical => self.logical_error,
        }
    }

    /// All bits of a request whose children are done: theirs, and its own by the failure decision.
    ///
    /// `own` is the error of its own work; those of its vdev and gang children join it first.
    pub fn decide(&self, kind: Kind, own: Option<Errno>, canfail: bool, failmode: Failmode) -> Bits
        ensures { result ≡ all_bits kind (joined_own own self.now.errors) canfail failmode self.now.bits }
    {
        let error = worst(worst(own, self.vdev_error), self.gang_error);
        all_bits(kind, error, canfail, failmode, self.bits)
    }

    fn raise(&mut self, kind: ChildKind)
        requires { counted kind Phase.Done self.old < count_end }
        ensures { self.new ≡ raised kind self.old }
    {
        match kind {
            ChildKind::Vdev => self.vdev_done += 1,
            ChildKind::Gang => {
                self.gang_ready = self.gang_ready.saturating_add(1);
                self.gang_done += 1;
            }
            ChildKind::Logical => {
                self.logical_ready = self.logical_ready.saturating_add(1);
                self.logical_done += 1;
            }
        }
    }

    fn lower(&mut self, kind: ChildKind, phase: Phase)
        requires { 0 < counted kind phase self.old }
        ensures { self.new ≡ lowered kind phase self.old }
    {
        match (kind, phase) {
            (ChildKind::Vdev, Phase::Ready) => {}
            (ChildKind::Vdev, Phase::Done) => self.vdev_done -= 1,
            (ChildKind::Gang, Phase::Ready) => self.gang_ready -= 1,
            (ChildKind::Gang, Phase::Done) => self.gang_done -= 1,
            (ChildKind::Logical, Phase::Ready) => self.logical_ready -= 1,
            (ChildKind::Logical, Phase::Done) => self.logical_done -= 1,
        }
    }

    fn join(&mut self, phase: Phase, kind: ChildKind, error: Option<Errno>, bits: Bits)
        ensures { self.new ≡ joined phase kind error bits self.old }
    {
        match phase {
            Phase::Ready => {}
            Phase::Done => {
                self.join_error(kind, if bits.go_again() { None } else { error });
                self.bits = self.bits.join(bits);
            }
        }
    }

    fn join_error(&mut self, kind: ChildKind, error: Option<Errno>)
        ensures { self.new ≡ record self.old { errors = joined_errors kind error self.old.errors } }
    {
        match kind {
            ChildKind::Vdev => self.vdev_error = worst(self.vdev_error, error),
            ChildKind::Gang => self.gang_error = worst(self.gang_error, error),
            ChildKind::Logical => self.logical_error = worst(self.logical_error, error),
        }
    }

    /// Whether the next child with the mark is the last on which the request stalls.
    fn is_last(&self, kind: ChildKind, phase: Phase) -> bool
        ensures { result ≡ is_last kind phase self.now }
    {
        match self.stall {
            None => false,
            Some(stall) => stall.kind == kind
                && stall.phase == phase
                && self.count(kind, phase) == 1,
        }
    }

    fn clear_if(&mut self, woken: bool)
        ensures { self.new ≡ cleared_if woken self.old }
    {
        if woken {
            self.stall = None;
        }
    }

    fn stall_on(&mut self, stall: Option<Stall>)
        ensures { self.new ≡ stalled (stall_of stall) self.old }
    {
        if stall.is_some() {
            self.stall = stall;
        }
    }

    fn first_open(&self, kinds: &[ChildKind], phase: Phase) -> Option<Stall>
        ensures { stall_of result ≡ first_counted kinds.now phase self.now }
    {
        if self.is_open(ChildKind::Vdev, kinds, phase) {
            return Some(Stall {
                kind: ChildKind::Vdev,
                phase,
            });
        }
        if self.is_open(ChildKind::Gang, kinds, phase) {
            return Some(Stall {
                kind: ChildKind::Gang,
                phase,
            });
        }
        if self.is_open(ChildKind::Logical, kinds, phase) {
            return Some(Stall {
                kind: ChildKind::Logical,
                phase,
            });
        }
        None
    }

    fn is_open(&self, kind: ChildKind, kinds: &[ChildKind], phase: Phase) -> bool
        ensures { result ≡ (list_any (same_kind kind) kinds.now && not (counted kind phase self.now == 0)) }
    {
        kinds.contains(&kind) && self.count(kind, phase) != 0
    }
}
