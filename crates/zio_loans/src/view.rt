//! What the seats of loans know, in proofs alone, and the rule that their steps keep.
ghost use Rattle.std.specs.Prelude.{[]};
ghost use Rattle.zio_loans.specs.Rule.{Compares, Lends, Settles, first_hand, holder, with_hands, without_first};

use atomic_table::{Join, Play, Split, TableRule};
use std::collections::LinkedList;

/// What a seat knows. The one that lends knows all that it lent, by number, with `None` for what came back. What is in
/// a seat's hands is a number and the value that was lent under it. No value of it is made.
pub struct View<T> {
    pub lends: bool,
    pub out: LinkedList<Option<T>>,
    pub hands: LinkedList<(u64, T)>,
}

/// The rule of loans.
pub struct Ruled;

impl<T> TableRule<T, View<T>, ()> for Ruled {
    ghost use Rattle.std.specs.Prelude.{[]};
    ghost use Rattle.zio_loans.specs.Rule.{Lent, lender};

    ghost holds = { λ _. Lent };

    ghost first = { λ _. lender [] };
}

/// Enters a value under the next number.
pub struct Lending;

impl<T> Play<T, View<T>> for Lending {
    ghost then = { Lends };
}

/// Strikes out what is in the lender's hand.
pub struct Settling;

impl<T> Play<T, View<T>> for Settling {
    ghost then = { Settles };
}

/// Looks at two loans in one seat's hands.
pub struct Comparing;

impl<T> Play<T, View<T>> for Comparing {
    ghost then = { Compares };
}

/// What came into a seat's hands last goes to a seat of its own, or comes from one.
pub struct Hand;

impl<T> Split<View<T>> for Hand {
    ghost left = { without_first };

    ghost right = { first_hand };
}

impl<T> Join<View<T>> for Hand {
    ghost both = { with_hands };

    ghost spent = { holder [] };
}
