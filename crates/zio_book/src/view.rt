//! What the seats of a book know, in proofs alone, and the rule that their steps keep.
ghost use Rattle.std.specs.Prelude.{◌≡◌, ℕ, ◌+◌, ◌-◌, List, [], ◌∷◌, ◌++◌, None};
ghost use Rattle.zio_book.specs.Rule.{idle, first_of, Draws, Looks, Counts, Serves};

use crate::held::Held;
use atomic_table::{Join, Play, Split, TableRule};
use std::collections::LinkedList;
use std::marker::PhantomData;
use std::snapshot::Snapshot;

/// The held value with its history.
#[derive(Drop)]
pub struct WithHistory<H, N> {
    pub held: H,
    pub notes: Vec<N>,
}

/// What a book begins with: its first state, and how many passes it has.
#[derive(Drop)]
pub struct Birth<H> {
    pub first: Snapshot<H>,
    pub passes: u32,
}

/// What a seat knows. It is so many passes; it has a ticket, or the held value and the history that it found there;
/// its acts, each a number with a note; its claims, each a note with the history before it; and the first state. No
/// value of it is made.
pub struct View<H, N> {
    pub passes: u32,
    pub busy: u32,
    pub inside: u32,
    pub ticket: u64,
    pub log: LinkedList<N>,
    pub acts: LinkedList<(u64, N)>,
    pub claims: LinkedList<(LinkedList<N>, N)>,
    pub first: Option<H>,
}

/// The rule of a book over `H`.
pub struct Ruled<H> {
    held: PhantomData<H>,
}

impl<H: Held> TableRule<Option<WithHistory<H, H::Note>>, View<H, H::Note>, Birth<H>> for Ruled<H> {
    ghost use Rattle.std.specs.Prelude.{[], Some};
    ghost use Rattle.zio_book.specs.Rule.{idle, Booked};

    ghost holds = { Booked H.gives };

    ghost first = { λ about. idle about.passes [] [] (Some about.first.value) };
}

/// Draws a ticket.
pub struct Draw;

impl<H, N> Play<Option<WithHistory<H, N>>, View<H, N>> for Draw {
    ghost then = { Draws };
}

/// Looks whether it is the ticket's turn.
pub struct Look<H> {
    held: PhantomData<H>,
}

impl<H: Held> Play<Option<WithHistory<H, H::Note>>, View<H, H::Note>> for Look<H> {
    ghost then = { Looks H.gives };
}

/// Counts an act.
pub struct Count;

impl<H, N> Play<Option<WithHistory<H, N>>, View<H, N>> for Count {
    ghost then = { Counts };
}

/// Serves the next ticket.
pub struct Serve;

impl<H, N> Play<Option<WithHistory<H, N>>, View<H, N>> for Serve {
    ghost then = { Serves };
}

/// One pass becomes a seat of its own.
pub struct Deal;

impl<H, N> Split<View<H, N>> for Deal {
    ghost left = { λ v. idle (v.passes - 1) [] [] v.first };

    ghost right = { λ v. idle 1 [] [] v.first };
}

/// The latest claim, for a seat of its own.
pub struct Claim;

impl<H, N> Split<View<H, N>> for Claim {
    ghost left = { λ v. v };

    ghost right = { λ v. idle 0 [] (first_of v.claims) v.first };
}

/// A seat takes in what another knows.
pub struct Gather;

impl<H, N> Join<View<H, N>> for Gather {
    ghost both = { λ v w. idle (v.passes + w.passes) (v.acts ++ w.acts) (w.claims ++ v.claims) v.first };

    ghost spent = { idle 0 [] [] None };
}
