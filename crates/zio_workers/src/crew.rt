//! A crew of workers.

ghost use Rattle.std.specs.Prelude.{◌≡◌, IfSome, None};
ghost use denote.Param.Send.{IsSync};
ghost use Rattle.zio_nodes.specs.Aheads.{FitsNode};
ghost use Rattle.zio_nodes.specs.Nodes.{IsNodeOver};
ghost use Rattle.zio_turns.specs.Helping.{FitsAt};
ghost use Rattle.zio_turns.specs.Slabs.{AreAll};

use std::alloc::Global;
use std::sync::Wait;
use std::thread;
use std::thread::Threads;
use zio_nodes::{Ahead, NodeBox};
use zio_staged::Staged;
use zio_turns::{Helper, Turns, Wanted};
use zio_types::Top;

/// So many threads, of which each takes what is to be reckoned next. Where a thread can't be started there are fewer, and
/// where none can the calling thread does all.
#[derive(Drop)]
pub struct Crew<'g, Rt: Threads + Wait + Sync> {
    rt: &'g Rt,
    workers: u32,
}

impl<'g, Rt: Threads + Wait + Sync> Crew<'g, Rt> {
    /// Of so many workers.
    pub fn new(rt: &'g Rt, workers: u32) -> Crew<'g, Rt> {
        Crew { rt, workers }
    }
}

impl<'g, Rt: Threads + Wait + Sync> Helper<NodeBox> for Crew<'g, Rt> {
    ghost Can = { IsSync Rt.row };

    fn waits(&self) -> bool {
        self.workers > 1
    }

    fn reckon(
        &self,
        alloc: Global,
        tops: &[Top],
        turns: &Turns<NodeBox>,
        wanted: &mut [Wanted<Ahead>],
    ) {
        let workers = (self.workers as usize).max(1);
        thread::for_each_mut(
            self.rt,
            wanted,
            workers,
            &|_, one: &mut Wanted<Ahead>|
                requires over { AreAll (IsNodeOver tops.now) turns.now.nodes }
                requires blank { one.old.ahead ≡ None }
                ensures key { one.new.key ≡ one.old.key }
                ensures fits { IfSome one.new.ahead (FitsAt FitsNode turns.entry.now.nodes one.new.key) }
            { reckon_one(alloc, tops, turns, one) },
        );
    }
}

/// Reckons what the stage of one node needs.
fn reckon_one(alloc: Global, tops: &[Top], turns: &Turns<NodeBox>, one: &mut Wanted<Ahead>)
    requires over { AreAll (IsNodeOver tops.now) turns.now.nodes }
    requires blank { one.old.ahead ≡ None }
    ensures key { one.new.key ≡ one.old.key }
    ensures fits { IfSome one.new.ahead (FitsAt FitsNode turns.now.nodes one.new.key) }
{
    if let Some(node) = turns.node(one.key) {
        one.ahead = node.ahead(alloc, tops);
    }
}
