ghost use Rattle.std.specs.Prelude.{◌≡◌, ◌≤◌, ◌<◌, ◌^◌, false, length, ℕ, slice_index_or};
ghost use Rattle.std.specs.List.{position_or_len};
ghost use Rattle.zio_counts.specs.declared.child.Child.{Child};
ghost use Rattle.zio_counts.specs.Broods.{all_stepped, first_of, IsPassed, firsts_of, misses, stepped, with_first};

use crate::child::Child;
use zio_types::{ChildKind, Phase};

/// The first child of each kind without a value for each phase, or how many children there are where none is
/// without it. They only move forward: all of them together pass each child five times at most.
#[derive(Clone, Copy, Debug)]
pub(crate) struct Firsts {
    vdev_done: usize,
    gang_ready: usize,
    gang_done: usize,
    logical_ready: usize,
    logical_done: usize,
}

impl Firsts {
    pub(crate) fn new() -> Firsts
        ensures { result ≡ record {
          vdev_done = 0;
          gang_ready = 0;
          gang_done = 0;
          logical_ready = 0;
          logical_done = 0;
        } }
    {
        Firsts {
            vdev_done: 0,
            gang_ready: 0,
            gang_done: 0,
            logical_ready: 0,
            logical_done: 0,
        }
    }

    /// The first of the kind without a value for the phase; of vdev children none is without its ready value.
    pub(crate) fn at(&self, kind: ChildKind, phase: Phase, count: usize) -> usize
        ensures { result ≡ first_of kind phase count self.now }
    {
        match (kind, phase) {
            (ChildKind::Vdev, Phase::Ready) => count,
            (ChildKind::Vdev, Phase::Done) => self.vdev_done,
            (ChildKind::Gang, Phase::Ready) => self.gang_ready,
            (ChildKind::Gang, Phase::Done) => self.gang_done,
            (ChildKind::Logical, Phase::Ready) => self.logical_ready,
            (ChildKind::Logical, Phase::Done) => self.logical_done,
        }
    }

    fn set(&mut self, kind: ChildKind, phase: Phase, first: usize)
        ensures { self.new ≡ with_first kind phase first self.old }
    {
        match (kind, phase) {
            (ChildKind::Vdev, Phase::Ready) => {}
            (ChildKind::Vdev, Phase::Done) => self.vdev_done = first,
            (ChildKind::Gang, Phase::Ready) => self.gang_ready = first,
            (ChildKind::Gang, Phase::Done) => self.gang_done = first,
            (ChildKind::Logical, Phase::Ready) => self.logical_ready = first,
            (ChildKind::Logical, Phase::Done) => self.logical_done = first,
        }
    }

    /// A child without values was added behind `count` others.
    pub(crate) fn step(&mut self, kind: ChildKind, count: usize)
        requires { count < usize.MAX }
        ensures { self.new ≡ all_stepped kind count self.old }
    {
        self.vdev_done = stepped(kind == ChildKind::Vdev, count, self.vdev_done);
        self.gang_ready = stepped(kind == ChildKind::Gang, count, self.gang_ready);
        self.gang_done = stepped(kind == ChildKind::Gang, count, self.gang_done);
        self.logical_ready = stepped(kind == ChildKind::Logical, count, self.logical_ready);
        self.logical_done = stepped(kind == ChildKind::Logical, count, self.logical_done);
    }

    /// The child `at` of the kind handed in its value for the phase.
    pub(crate) fn pass<R, V>(
        &mut self,
        kind: ChildKind,
        phase: Phase,
        at: usize,
        children: &[Child<R, V>],
    )
        requires { IsPassed kind phase at self.old children.now }
        ensures { self.new ≡ firsts_of children.now }
    {
        if self.at(kind, phase, children.len()) == at {
            let next = first_missing(children, at + 1, kind, phase);
            self.set(kind, phase, next);
        }
    }
}

/// The first child without a value, where a new child without it or with it stands behind `count` others.
fn stepped(misses: bool, count: usize, first: usize) -> usize
    requires { count < usize.MAX }
    ensures { result ≡ stepped misses count first }
{
    if first == count && !misses {
        count + 1
    } else {
        first
    }
}

/// The first child of the kind from `from` on without a value for the phase, or how many children there are.
fn first_missing<R, V>(
    children: &[Child<R, V>],
    from: usize,
    kind: ChildKind,
    phase: Phase,
) -> usize
    requires within { from ≤ length children.now }
    requires before { (k : ℕ) (d : Child R V) → k < from → misses kind phase (slice_index_or children.now k d) ≡ false }
    ensures { result ≡ position_or_len (misses kind phase) children.now }
{
    let mut at = from;
    while at < children.len() && !children[at].misses(kind, phase) {
        at += 1;
    }
    at
}
