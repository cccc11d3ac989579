ghost use Rattle.std.specs.Prelude.{◌≡◌, ◌<◌, ◌∷◌, ◌++◌, [], length, IsTrue, IfOk, IfSome, OnOk, OnErr, option_copied, slice_get, slice_set};
ghost use Rattle.std.specs.List.{position};
ghost use Rattle.std.specs.Option.{option_and_then};
ghost use Rattle.zio_counts.specs.Broods.{awaits, has_label, misses, new_child};

use crate::child::Child;
use crate::firsts::Firsts;
use std::alloc::Global;
use std::marker::Model;
use zio_types::{ChildKind, List, NoMemory, Phase};

/// A node's children by number, with the values that they handed in.
#[derive(Drop)]
pub struct Brood<R, V> {
    children: Vec<Child<R, V>>,
    firsts: Firsts,
}

impl<R, V> Model for Brood<R, V> {
    ghost use Rattle.std.specs.Prelude.{List as Seq, ◌≡◌};
    ghost use Rattle.zio_counts.specs.declared.child.Child.{Child};
    ghost use Rattle.zio_counts.specs.Broods.{firsts_of};

    ghost Value = { Seq (Child R V) };

    ghost view = { λ b. b.children.items };

    ghost invariant = { λ b. b.firsts ≡ firsts_of b.children.items };
}

impl<R: Drop, V: Drop> Brood<R, V> {
    /// Without children and without memory; the children's memory is from `alloc`.
    pub fn new(alloc: Global) -> Brood<R, V>
        ensures { result ≡ [] }
    {
        Brood {
            children: Vec::new(alloc),
            firsts: Firsts::new(),
        }
    }

    /// How many children were added.
    pub fn len(&self) -> usize
        ensures { result ≡ length self.now }
    {
        self.children.len()
    }

    /// Adds a child without values, and answers its number. Where memory is refused the children are as before.
    pub fn add(&mut self, kind: ChildKind, label: u64) -> Result<usize, NoMemory>
        ensures ok { OnOk result (self.new ≡ self.old ++ new_child kind label ∷ []) }
        ensures number { IfOk result (λ n. n ≡ length self.old) }
        ensures err { OnErr result (self.new ≡ self.old) }
    {
        let number = self.children.len();
        self.children.push(Child::new(kind, label))?;
        self.firsts.step(kind, number);
        Ok(number)
    }

    /// Hands in the ready value of a child that has none and isn't of kind vdev.
    pub fn ready(&mut self, child: usize, value: R)
        requires { IsTrue (awaits Phase.Ready (slice_get self.old child)) }
        ensures { IfSome (slice_get self.old child) (λ c.
            self.new ≡ slice_set self.old child (record c { ready = Some value })) }
    {
        self.children[child].ready = Some(value);
        let kind = self.children[child].kind;
        self.firsts.pass(kind, Phase::Ready, child, &self.children);
    }

    /// Hands in the done value of a child that has none.
    pub fn done(&mut self, child: usize, value: V)
        requires { IsTrue (awaits Phase.Done (slice_get self.old child)) }
        ensures { IfSome (slice_get self.old child) (λ c.
            self.new ≡ slice_set self.old child (record c { done = Some value })) }
    {
        self.children[child].done = Some(value);
        let kind = self.children[child].kind;
        self.firsts.pass(kind, Phase::Done, child, &self.children);
    }

    /// The first child of the kind without a value for the phase, if there is one. A vdev child misses no ready value.
    pub fn missing(&self, kind: ChildKind, phase: Phase) -> Option<usize>
        ensures { result ≡ position (misses kind phase) self.now }
    {
        let count = self.children.len();
        let first = self.firsts.at(kind, phase, count);
        if first < count { Some(first) } else { None }
    }

    /// The first child with the label, if there is one. It looks at each child before that.
    pub fn find(&self, label: u64) -> Option<usize>
        ensures { result ≡ position (has_label label) self.now }
    {
        self.children.iter().position(|child| child.label == label)
    }

    /// The ready value of a child, if it has one.
    pub fn ready_value(&self, child: usize) -> Option<&R>
        requires { child < length self.now }
        ensures { option_copied result ≡ option_and_then (λ c. c.ready) (slice_get self.now child) }
    {
        self.children[child].ready.as_ref()
    }

    /// The done value of a child, if it has one.
    pub fn done_value(&self, child: usize) -> Option<&V>
        requires { child < length self.now }
        ensures { option_copied result ≡ option_and_then (λ c. c.done) (slice_get self.now child) }
    {
        self.children[child].done.as_ref()
    }

    /// All children with their values.
    pub fn into_children(self) -> List<Child<R, V>>
        ensures { result ≡ self }
    {
        List::from_vec(self.children)
    }
}
