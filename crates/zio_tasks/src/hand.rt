//! What the passes of one queue know, in proofs alone, and the rule that their calls keep.
ghost use Rattle.std.specs.Prelude.{◌≡◌, ℕ, ◌+◌, List, [], ◌∷◌, ◌++◌};
ghost use Rattle.zio_tasks.specs.Hands.{hand};
ghost use Rattle.zio_tasks.specs.Rule.{pile, first_of, rest_of, with_first, after_put};
ghost use Rattle.zio_tasks.specs.Rule.{OldestTake, WasIn, Whole, WholeTake};

use crossbeam_queue::protocol::{Join, Lesson, Outcome, Protocol, Split};
use std::collections::LinkedList;

/// What one pass put into a queue, and what it took, each task with the number of the pass that put it. No value of
/// it is made.
pub struct Hand<T> {
    pub number: u32,
    pub puts: LinkedList<T>,
    pub takes: LinkedList<(u32, T)>,
}

/// The hands that one token has, of so many passes. No value of it is made.
pub struct Pile<T> {
    pub hands: LinkedList<Hand<T>>,
    pub passes: u32,
}

/// The rule: nothing is lost, nothing is taken twice, and all of it stands in one order.
pub struct Fairly;

impl<T> Protocol<T, Pile<T>> for Fairly {
    ghost use Rattle.std.specs.Prelude.{[], ◌∷◌};
    ghost use Rattle.zio_tasks.specs.Hands.{hand};
    ghost use Rattle.zio_tasks.specs.Rule.{pile, Fair};

    ghost holds = { Fair };

    ghost first = { pile (hand 0 [] [] ∷ []) 1 };
}

/// A new hand joins the pile of all.
pub struct Grow;

impl<T> Split<Pile<T>> for Grow {
    ghost left = { λ v. pile (v.hands ++ hand v.passes [] [] ∷ []) (v.passes + 1) };

    ghost right = { λ v. pile [] 0 };
}

/// A token without a hand, which stands in for one that was lent.
pub struct Spare;

impl<T> Split<Pile<T>> for Spare {
    ghost left = { λ v. v };

    ghost right = { λ v. pile [] 0 };
}

/// The first hand of a pile goes to a token of its own.
pub struct Deal;

impl<T> Split<Pile<T>> for Deal {
    ghost left = { λ v. pile (rest_of v.hands) v.passes };

    ghost right = { λ v. pile (first_of v.hands) v.passes };
}

/// A token's hands join the pile.
pub struct Gather;

impl<T> Join<Pile<T>> for Gather {
    ghost both = { λ v w. pile (v.hands ++ w.hands) w.passes };

    ghost spent = { pile [] 0 };
}

/// A put for the first hand.
pub struct Puts;

impl<T> Outcome<T, Pile<T>> for Puts {
    ghost then = { λ v x w. w ≡ pile (with_first (after_put x) v.hands) v.passes };
}

impl<T> Lesson<T, Pile<T>> for Puts {
    ghost fact = { WasIn };
}

/// A take of the oldest task for the first hand.
pub struct Takes;

impl<T> Outcome<T, Pile<T>> for Takes {
    ghost then = { OldestTake };
}

impl<T> Lesson<T, Pile<T>> for Takes {
    ghost fact = { WasIn };
}

/// A take with the hands of all passes.
pub struct Settles;

impl<T> Outcome<T, Pile<T>> for Settles {
    ghost then = { WholeTake };
}

impl<T> Lesson<T, Pile<T>> for Settles {
    ghost fact = { Whole };
}
