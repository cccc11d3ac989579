//! Who reckons ahead what the stages of nodes need.

ghost use Rattle.std.specs.Prelude.{◌≡◌};
ghost use Rattle.zio_turns.specs.Helping.{AreBlank, AreReckoned, keys_wanted};
ghost use Rattle.zio_turns.specs.Slabs.{AreAll};

use crate::turns::Turns;
use std::alloc::Global;
use zio_staged::Staged;
use zio_types::Top;

/// A node, by its key, whose stage has much to reckon, and what was reckoned of it.
#[derive(Drop)]
pub struct Wanted<A> {
    pub key: usize,
    pub ahead: Option<A>,
}

/// Reckons what stages need before it is their turn, however it likes: on threads of its own, or not at all.
pub trait Helper<N: Staged> {
    /// What it needs of the types that it stands on.
    ghost Can: { Type 0 };

    /// Whether a node whose stage has much to reckon waits for others like it.
    fn waits(&self) -> bool;

    /// Reckons what the stages of these nodes need, as far as it can: what it leaves out is reckoned when it is the
    /// node's turn. The nodes stay as they are.
    fn reckon(&self, alloc: Global, tops: &[Top], turns: &Turns<N>, wanted: &mut [Wanted<N::Ahead>])
        requires can { Can }
        requires over { AreAll (N.over tops.now) turns.now.nodes }
        requires blank { AreBlank wanted.old }
        ensures keys { keys_wanted wanted.new ≡ keys_wanted wanted.old }
        ensures fits { AreReckoned N.fits turns.now.nodes wanted.new };
}

/// Helps nobody: each node reckons what it needs when it is its turn.
#[derive(Clone, Copy, Debug)]
pub struct Alone;

impl<N: Staged> Helper<N> for Alone {
    ghost Can = { Unit {0} };

    #[inline]
    fn waits(&self) -> bool {
        false
    }

    fn reckon(
        &self,
        _alloc: Global,
        _tops: &[Top],
        _turns: &Turns<N>,
        _wanted: &mut [Wanted<N::Ahead>],
    ) {}
}
