//! Turns of the nodes that an engine holds.

ghost use Rattle.std.specs.Prelude.{◌≡◌, ◌≢◌, ◌+◌, ◌*◌, ◌<◌, ◌≤◌, ◌∷◌, ◌++◌, ℕ, List as Seq, [], IfOk, IfSome, OnOk, length, slice_index};
ghost use Rattle.std.specs.List.{remove};
ghost use Rattle.std.specs.Option.{option_copied};
ghost use Rattle.slab.specs.Slab.{get};
ghost use Rattle.zio_types.specs.declared.place.Top.{Top as SeenTop};
ghost use Rattle.zio_exchange.specs.SpaceCalls.{SpaceCall};
ghost use Rattle.zio_turns.specs.Acts.{StepIn, load_of};
ghost use Rattle.zio_staged.specs.Entries.{times_in};
ghost use Rattle.zio_turns.specs.Desks.{GivesLast};
ghost use Rattle.zio_turns.specs.Helping.{FitsAt, StaysKept, node_at};
ghost use Rattle.zio_turns.specs.Rounds.{AsksRightly, Begins, ClaimsAlone, ComesBack, HandsOut, HasTurn, IsAtLeaf, IsTurn, StepsOn};
ghost use Rattle.zio_turns.specs.Slabs.{AreAll, load};

use crate::entry::{Parent, TiedNode};
use crate::hear::{end, tell};
use crate::line::Line;
use crate::shelf::{add, count_child, grow, new_ties, queue_up, wait};
use crate::step::Step;
use slab::Slab;
use std::alloc::Global;
use zio_exchange::Services;
use zio_staged::{Staged, Turn};
use zio_types::{Bytes, ChildKind, Errno, NoMemory};

/// The nodes of a round under their keys, and the queue of those whose turn it may be.
#[derive(Drop)]
pub struct Turns<N> {
    nodes: Slab<TiedNode<N>>,
    line: Line,
}

impl<N: Staged> Turns<N> {
    /// No node. Without memory; the nodes' is from `alloc`.
    pub fn new(alloc: Global) -> Turns<N>
        ensures begins { Begins N.nodes result.nodes result.line }
        ensures empty { result.nodes.slots ≡ [] }
        ensures idle { result.line ≡ [] }
        ensures load { load N.nodes.left result.nodes result.line ≡ 0 }
        ensures over { (tops : Seq SeenTop) → AreAll (N.over tops) result.nodes }
    {
        Turns {
            nodes: Slab::new(alloc),
            line: Line::new(alloc),
        }
    }

    /// How many keys are queued.
    pub fn len(&self) -> usize
        ensures { result ≡ length self.now.line }
    {
        self.line.len()
    }

    /// A node for the next operation of the tree with this number, whose child of this number it is. It is queued.
    pub fn add_root(&mut self, tree: u32, child: u32, node: N) -> Result<(), NoMemory>
        ensures hands { OnOk result
            (HandsOut N.nodes self.old.nodes self.old.line self.new.nodes self.new.line tree child node) }
        ensures over { (tops : Seq SeenTop) → AreAll (N.over tops) self.old.nodes → N.over tops node →
            OnOk result (AreAll (N.over tops) self.new.nodes) }
        ensures load { OnOk result (load N.nodes.left self.new.nodes self.new.line
            ≡ load N.nodes.left self.old.nodes self.old.line + 3 * N.nodes.left node + 1) }
    {
        let ties = new_ties(ChildKind::Logical, Parent::Tree { tree, child });
        let key = add(&mut self.nodes, TiedNode { node, ties })?;
        queue_up(&mut self.line, key)
    }

    /// Takes the k-th key of the queue, counted from 0: it is its turn. The others keep their order.
    pub fn take(&mut self, k: usize) -> usize
        requires { k < length self.old.line }
        ensures key { result ≡ slice_index self.old.line k }
        ensures others { self.new.line ≡ remove self.old.line k }
        ensures turn { HasTurn N.nodes self.old.nodes self.old.line self.new.nodes self.new.line result }
        ensures nodes { self.new.nodes ≡ self.old.nodes }
        ensures len { length self.new.line + 1 ≡ length self.old.line }
    {
        self.line.take(k)
    }

    /// Queues the key, whose turn it was, behind the others.
    pub fn requeue(&mut self, key: usize) -> Result<(), NoMemory>
        ensures kept { OnOk result
            (StaysKept N.nodes self.old.nodes (key ∷ self.old.line) self.new.nodes self.new.line) }
        ensures line { OnOk result (self.new.line ≡ self.old.line ++ key ∷ []) }
        ensures nodes { self.new.nodes ≡ self.old.nodes }
    {
        queue_up(&mut self.line, key)
    }

    /// The node under the key, if there is one.
    pub fn node(&self, key: usize) -> Option<&N>
        ensures node { option_copied result ≡ node_at self.now.nodes key }
        ensures over { (tops : Seq SeenTop) → AreAll (N.over tops) self.now.nodes
            → IfSome result (λ node. N.over tops node.now) }
    {
        match self.nodes.get(key) {
            Some(entry) => Some(&entry.node),
            None => None,
        }
    }

    /// Whether there is a node under the key whose stage has much to reckon.
    pub fn is_heavy(&self, key: usize) -> bool {
        match self.node(key) {
            Some(node) => node.is_heavy(),
            None => false,
        }
    }

    /// Whether the first key in line has such a node. A line in whose midst keys were taken doesn't tell.
    pub(crate) fn begins_heavy(&self) -> bool {
        match self.line.first() {
            Some(key) => self.is_heavy(key),
            None => false,
        }
    }

    /// Runs the stage of the node under the key by what was reckoned of it. It is queued, or it is its turn, and that
    /// stays so; nothing is asked of the space. Without a node there nothing is done.
    pub fn go_on(&mut self, key: usize, ahead: N::Ahead)
        requires over { (tops : Seq SeenTop) × AreAll (N.over tops) self.old.nodes }
        requires fits { FitsAt N.fits self.old.nodes key ahead }
        ensures kept { (line : Seq ℕ) → 0 < times_in key line
            → StaysKept N.nodes self.old.nodes line self.new.nodes line }
        ensures others { (k : ℕ) → k ≢ key → get self.new.nodes k ≡ get self.old.nodes k }
        ensures over { (tops : Seq SeenTop) → AreAll (N.over tops) self.old.nodes
            → AreAll (N.over tops) self.new.nodes }
        ensures line { self.new.line ≡ self.old.line }
        ensures less { load N.nodes.left self.new.nodes self.new.line
            ≤ load N.nodes.left self.old.nodes self.old.line }
    {
        N::does_its_part();
        let Some(entry) = self.nodes.get_mut(key) else {
            return;
        };
        entry.node.go_on(ahead);
    }

    /// One stage of the node under the key, whose turn it is.
    pub fn step<S: Services>(
        &mut self,
        alloc: Global,
        services: &mut S,
        key: usize,
    ) -> Result<Step<N::Seal>, NoMemory>
        requires { IsTurn N.nodes N.over (S.tops services.old) self.old.nodes self.old.line key }
        ensures steps { IfOk result (λ step. (calls : Seq SpaceCall) × S.made services.old calls services.new
            × ClaimsAlone N.nodes (S.tops services.old) calls self.old.nodes self.old.line key × GivesLast calls
            × StepsOn N.nodes (S.tops services.old) calls self.old.nodes self.old.line self.new.nodes self.new.line key
            step × AsksRightly N.nodes (S.tops services.old) calls self.old.nodes self.old.line key) }
        ensures over { OnOk result (AreAll (N.over (S.tops services.old)) self.new.nodes) }
        ensures less { IfOk result (λ step. load N.nodes.left self.new.nodes self.new.line + load_of step
            < load N.nodes.left self.old.nodes self.old.line + 1) }
        ensures tops { S.tops services.new ≡ S.tops services.old }
        ensures inside { IfOk result (StepIn (N.tree_over (S.tops services.old))) }
    {
        N::does_its_part();
        let Turns { nodes, line } = self;
        let Some(entry) = nodes.get_mut(key) else {
            unreachable!();
        };
        let turn = entry.node.run_stage(alloc, services)?;
        match turn {
            Turn::Next => Ok(Step::Goes),
            Turn::Wait(kind, phase) => {
                wait(&mut entry.ties, line, key, kind, phase)?;
                Ok(Step::Rests)
            }
            Turn::Grow(child, kind) => {
                let children = entry.node.children();
                let number = count_child(&mut entry.ties, kind, children);
                grow(nodes, line, key, number, child, kind)?;
                Ok(Step::Rests)
            }
            Turn::Leaf(op, leaf, bytes) => Ok(Step::Leaf(op, leaf, bytes)),
            Turn::Ready(pointer) => {
                let kind = entry.ties.kind;
                let parent = entry.ties.parent;
                tell(nodes, line, kind, parent, pointer)
            }
            Turn::End(outcome) => {
                let kind = entry.ties.kind;
                let parent = entry.ties.parent;
                drop(nodes.remove(key));
                end(nodes, line, services.tops(), kind, parent, outcome)
            }
        }
    }

    /// The leaf answered the operation of the node under the key: an error or none, and the bytes of a read.
    pub fn answered(
        &mut self,
        key: usize,
        error: Option<Errno>,
        bytes: Bytes,
    ) -> Result<(), NoMemory>
        requires { IsAtLeaf N.nodes self.old.nodes self.old.line key }
        ensures comes_back { OnOk result
            (ComesBack N.nodes self.old.nodes self.old.line self.new.nodes self.new.line key error bytes) }
        ensures over { (tops : Seq SeenTop) → AreAll (N.over tops) self.old.nodes
            → OnOk result (AreAll (N.over tops) self.new.nodes) }
        ensures less { OnOk result (load N.nodes.left self.new.nodes self.new.line
            < load N.nodes.left self.old.nodes self.old.line + 2) }
    {
        let Some(entry) = self.nodes.get_mut(key) else {
            unreachable!();
        };
        entry.node.answered(error, bytes);
        queue_up(&mut self.line, key)
    }
}
