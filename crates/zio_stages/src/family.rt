//! A node's children in an attempt.

ghost use Rattle.std.specs.Prelude.{◌≡◌, ◌<◌, ◌∷◌, ◌++◌, ◌&&◌, [], length, IfOk, IfSome, OnErr, OnOk, Some, ℕ, option_map, true, slice_get, slice_set};
ghost use Rattle.std.specs.List.{list_any, position};
ghost use Rattle.zio_types.specs.Machine.{same_kind};
ghost use Rattle.zio_frames.specs.Frames.{Child};
ghost use Rattle.zio_frames.specs.Moves.{child_ended, child_told};
ghost use Rattle.zio_stages.specs.NodeChildren.{Changes, HasTold, IsOfKind, first_owing, is_awaited, is_owing, layer_seat, new_child, seat_of};
ghost use Rattle.zio_stages.specs.declared.family.Layer.{Layer as SeenLayer};

use std::alloc::Global;
use std::marker::Model;
use zio_counts::Brood;
use zio_types::{ChildKind, NoMemory, Phase};

/// Where a child's operation stands: it is one of the node's own part, or of the part within that.
#[derive(Clone, Copy, Debug, PartialEq, Eq)]
pub enum Seat {
    Outer(usize),
    Inner(usize),
}

impl Seat {
    /// The number of the operation.
    pub fn number(self) -> usize
        ensures { (layer : SeenLayer) (n : ℕ) → seat_of self ≡ layer_seat layer n → result ≡ n }
    {
        match self {
            Seat::Outer(n) => n,
            Seat::Inner(n) => n,
        }
    }
}

/// Which part of a node asks.
#[derive(Clone, Copy, Debug, PartialEq, Eq)]
pub enum Layer {
    /// Its own.
    Own,
    /// The part within that.
    Within,
}

impl Layer {
    /// Where the part's operation of this number stands.
    pub fn seat(self, n: usize) -> Seat
        ensures { seat_of result ≡ layer_seat self n }
    {
        match self {
            Layer::Own => Seat::Outer(n),
            Layer::Within => Seat::Inner(n),
        }
    }
}

/// Where a child sits, and of which kind it is.
#[derive(Clone, Copy, Debug)]
struct Sitting {
    seat: Seat,
    kind: ChildKind,
}

/// A node's children by number, as far as each told its pointer and ended.
#[derive(Drop)]
pub struct Family {
    brood: Brood<(), ()>,
    sittings: Vec<Sitting>,
}

impl Model for Family {
    ghost use Rattle.std.specs.Prelude.{List};
    ghost use Rattle.zio_frames.specs.Frames.{Child};

    ghost Value = { List Child };

    ghost use Rattle.zio_stages.specs.NodeChildren.{AllToldIfEnded, AreBeside, children_by};

    ghost view = { λ f. children_by f.brood f.sittings.items };

    ghost invariant = { λ f. AreBeside f.brood f.sittings.items × AllToldIfEnded f.brood };
}

impl Family {
    /// Without children and without memory; the children's memory is from `alloc`.
    pub fn new(alloc: Global) -> Family
        ensures { result ≡ [] }
    {
        Family {
            brood: Brood::new(alloc),
            sittings: Vec::new(alloc),
        }
    }

    /// How many children were added.
    pub fn len(&self) -> usize
        ensures { result ≡ length self.now }
    {
        self.brood.len()
    }

    /// Adds a child that does the operation at the seat, and answers its number. A vdev child needs to tell nothing.
    /// Where memory is refused the children are as before.
    pub fn add(&mut self, kind: ChildKind, seat: Seat, label: u64) -> Result<usize, NoMemory>
        ensures ok { OnOk result (self.new ≡ self.old ++ new_child (seat_of seat) kind ∷ []) }
        ensures number { IfOk result (λ n. n ≡ length self.old) }
        ensures err { OnErr result (self.new ≡ self.old) }
    {
        self.sittings.push(Sitting { seat, kind })?;
        match self.brood.add(kind, label) {
            Ok(number) => Ok(number),
            Err(NoMemory) => {
                self.sittings.pop();
                Err(NoMemory)
            }
        }
    }

    /// Where the child sits.
    pub fn seat(&self, child: usize) -> Seat
        requires { child < length self.now }
        ensures { Some (seat_of result) ≡ option_map (λ (c : Child). c.seat) (slice_get self.now child) }
    {
        self.sittings[child].seat
    }

    /// Of which kind the child is.
    pub fn kind(&self, child: usize) -> ChildKind
        requires { child < length self.now }
        ensures { Some result ≡ option_map (λ (c : Child). c.kind) (slice_get self.now child) }
    {
        self.sittings[child].kind
    }

    /// The child told its pointer.
    pub fn tell(&mut self, child: usize)
        requires { child < length self.old }
        ensures { IfSome (slice_get self.old child) (λ (c : Child). self.new
            ≡ slice_set self.old child (child_told c)) }
    {
        let kind = self.sittings[child].kind;
        tell(&mut self.brood, child, kind);
    }

    /// The child ended, whether or not it told before.
    pub fn end(&mut self, child: usize)
        requires { child < length self.old }
        ensures { IfSome (slice_get self.old child) (λ (c : Child). self.new
            ≡ slice_set self.old child (child_ended c)) }
    {
        let kind = self.sittings[child].kind;
        tell(&mut self.brood, child, kind);
        end(&mut self.brood, child);
    }

    /// The first of these kinds, in the order vdev, gang, logical, of which some child hasn't told or hasn't ended.
    pub fn missing(&self, kinds: &[ChildKind], phase: Phase) -> Option<ChildKind>
        ensures first { result ≡ first_owing kinds.now phase self.now }
        ensures awaited { (kind : ChildKind) → result ≡ Some kind → list_any (is_awaited kind phase) self.now ≡ true }
    {
        if self.is_missing(kinds, ChildKind::Vdev, phase) {
            Some(ChildKind::Vdev)
        } else if self.is_missing(kinds, ChildKind::Gang, phase) {
            Some(ChildKind::Gang)
        } else if self.is_missing(kinds, ChildKind::Logical, phase) {
            Some(ChildKind::Logical)
        } else {
            None
        }
    }

    /// The kind is one of these, and some child of it hasn't told or hasn't ended.
    fn is_missing(&self, kinds: &[ChildKind], kind: ChildKind, phase: Phase) -> bool
        ensures missing { result ≡ (list_any (same_kind kind) kinds.now && list_any (is_owing kind phase) self.now) }
        ensures awaited { result ≡ true → list_any (is_awaited kind phase) self.now ≡ true }
    {
        kinds.contains(&kind) && self.any_missing(kind, phase)
    }

    /// The first child of this kind that hasn't told, or hasn't ended.
    pub fn first_missing(&self, kind: ChildKind, phase: Phase) -> Option<usize>
        ensures { result ≡ position (is_owing kind phase) self.now }
    {
        self.brood.missing(kind, phase)
    }

    fn any_missing(&self, kind: ChildKind, phase: Phase) -> bool
        ensures missing { result ≡ list_any (is_owing kind phase) self.now }
        ensures awaited { result ≡ true → list_any (is_awaited kind phase) self.now ≡ true }
    {
        self.brood.missing(kind, phase).is_some()
    }
}

/// The child hands in its ready value, if it hasn't and needs to.
fn tell(brood: &mut Brood<(), ()>, child: usize, kind: ChildKind)
    requires { IsOfKind kind (slice_get brood.old child) }
    ensures { Changes child_told child brood.old brood.new }
{
    if kind != ChildKind::Vdev && brood.ready_value(child).is_none() {
        brood.ready(child, ());
    }
}

/// The child, which told, hands in its done value, if it hasn't.
fn end(brood: &mut Brood<(), ()>, child: usize)
    requires { HasTold (slice_get brood.old child) }
    ensures { Changes child_ended child brood.old brood.new }
{
    if brood.done_value(child).is_none() {
        brood.done(child, ());
    }
}
