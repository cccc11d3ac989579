//! The engine over disks with a volatile cache.

ghost use Rattle.std.specs.Prelude.{◌≡◌, ◌<◌, IfErr, IfOk, IfSome, IsErrOf, List as Seq, OnErr, OnOk, false, map};
ghost use Rattle.std.specs.List.{AllByRecursion};
ghost use Rattle.zio_cksum.specs.Images.{Images};
ghost use Rattle.zio_gang.specs.Attempts.{Pending};
ghost use Rattle.zio_disks.specs.Disks.{AreSameDisks, Tell};
ghost use Rattle.zio_disks.specs.Whole.{IsWholeTree};
ghost use Rattle.zio_course.specs.declared.runner.Stop.TheVariants.{Device, Memory};
ghost use Rattle.zio_course.specs.Runners.{
  AnyRose,
  AreRunnable,
  DiffersInRound,
  IsNewTree,
  IsRound,
  IsRoundEnd,
  StandsAfter,
  StoppedAfter,
  ended_seen,
  fresh,
  made_trees,
  terms_at,
  tree_over,
};
ghost use Rattle.zio_graph.specs.Crashes.{MayWrite};
ghost use Rattle.zio_graph.specs.Ends.{told_of};
ghost use Rattle.zio_graph.specs.Graphs.{standing_of};
ghost use Rattle.zio_graph.specs.Stable.{AreStable};
ghost use Rattle.zio_flush.specs.Flushed.{IsFlushed};
ghost use Rattle.zio_flush.specs.Survival.{LeavesOutside, Survive};

use std::marker::Model;
use zio_course::{ChildrenBack, Job, RoundEnd, Stop};
use zio_gang::Tree;
use zio_graph::{EngineTree, Graph, Helper, Picks};
use zio_nodes::NodeBox;
use zio_outside::{Failed, SyncDisk};
use zio_script::Request;
use zio_stages::Finished;
use zio_types::List;

/// Runs rounds of trees as `Graph` does, and makes the images of all disks stable after each. Contracts see it as they
/// see that. Where it ran a round and none was stopped, each image that is told is the stable one, with no range written
/// since.
#[derive(Drop)]
pub struct Flushing<D: SyncDisk + Drop, P: Picks + Drop, H: Helper<NodeBox> + Drop> {
    graph: Graph<D, P, H>,
    /// A flush failed.
    failed: bool,
}

impl<D: SyncDisk + Drop, P: Picks + Drop, H: Helper<NodeBox> + Drop> Model for Flushing<D, P, H> {
    ghost use Rattle.zio_graph.specs.Graphs.{SeenGraph};
    ghost use Rattle.zio_flush.specs.Flushed.{IsFlushed, seen_flushing};

    ghost Value = { SeenGraph D };

    ghost view = { λ f. seen_flushing f.graph f.failed };

    ghost invariant = { λ f. IsFlushed D.image D.keeps (seen_flushing f.graph f.failed) };
}

impl<D: SyncDisk + Drop, P: Picks + Drop, H: Helper<NodeBox> + Drop> Flushing<D, P, H> {
    /// Over an engine that ran no round.
    pub fn over(graph: Graph<D, P, H>) -> Flushing<D, P, H>
        requires { graph.last ≡ 0 }
        ensures { result ≡ graph }
    {
        Flushing {
            graph,
            failed: false,
        }
    }

    /// The disks, by the numbers of the leaves. Where it ran a round and none was stopped, each image is the stable one.
    pub fn finish(self) -> Vec<D>
        ensures disks { result.items ≡ self.disks }
        ensures stable { IsFlushed D.image D.keeps self }
    {
        self.graph.into_disks()
    }

    /// Makes a tree as `Graph` does.
    pub fn tree(
        &self,
        request: &Request,
        birth: u32,
        block: Option<Tree>,
        children: List<EngineTree>,
    ) -> Result<EngineTree, ChildrenBack<EngineTree>>
        requires whole { IsNewTree request.now birth block children }
        requires fits { IfSome block IsWholeTree }
        ensures made { IfOk result (λ tree. tree ≡ tree_over children (fresh request.now birth block)) }
        ensures back { IfErr result (λ back. back.children ≡ children) }
    {
        self.graph.tree(request, birth, block, children)
    }

    /// Runs a round as `Graph` does, and then makes the images of all disks stable, each once.
    ///
    /// `Stop::Device` comes exactly where a count of a disk's faults rose, in the round or in the flush, `Stop::Memory`
    /// for want of memory. No round runs after a stop.
    pub fn round(&mut self, job: Job<EngineTree>) -> Result<RoundEnd<EngineTree, Finished>, Stop>
        requires runs { self.old.stopped ≡ false }
        requires next { self.old.last < job.round }
        requires trees { AreRunnable (standing_of D.faults self.old) (map (λ (tree : Seq Pending). tree) job.trees) }
        requires can { H.Can }
        ensures round { IfOk result (λ end. (before : Images) → Tell D.image self.old.disks before → (after : Images)
            × Tell D.image self.new.disks after
            × IsRound (terms_at (standing_of D.faults self.old) job.failmode job.round job.point)
            (map (λ (tree : Seq Pending). tree) job.trees) before after
            (ended_seen (λ (tree : Seq Pending). tree) told_of end)
            × DiffersInRound (standing_of D.faults self.old)
            (map (λ (tree : Seq Pending). tree) job.trees) before after) }
        ensures end { IfOk result (λ end. IsRoundEnd (standing_of D.faults self.old) job.round
            (map (λ (tree : Seq Pending). tree) job.trees) (ended_seen (λ (tree : Seq Pending). tree) told_of end)) }
        ensures fits { IfOk result (λ end. AllByRecursion IsWholeTree (made_trees (map told_of end.finished))) }
        ensures stands { IfOk result (λ end. StandsAfter (standing_of D.faults self.old)
            (standing_of D.faults self.new) job.round
            (map (λ (tree : Seq Pending). tree) job.trees) (ended_seen (λ (tree : Seq Pending). tree) told_of end)) }
        ensures stopped { OnErr result
            (StoppedAfter (standing_of D.faults self.old) (standing_of D.faults self.new) job.round) }
        ensures device { IsErrOf result Device → AnyRose (map D.faults self.old.disks) (map D.faults self.new.disks) }
        ensures calm { IsErrOf result Memory → map D.faults self.new.disks ≡ map D.faults self.old.disks }
        ensures images { OnErr result ((before : Images) → Tell D.image self.old.disks before → (after : Images)
            × Tell D.image self.new.disks after
            × DiffersInRound (standing_of D.faults self.old)
            (map (λ (tree : Seq Pending). tree) job.trees) before after) }

        // After the round each image is the stable one.
        ensures stable { OnOk result ((images : Images) → Tell D.image self.new.disks images
            → AreStable D.keeps self.new.disks images) }

        // A crash at any moment of the call leaves each disk's stable image, outside the ranges that there were and
        // those written by then, and these lie at places that were free or that blocks of the trees have.
        ensures crash { LeavesOutside D.keeps D.moment D.left_since
            (MayWrite (standing_of D.faults self.old) (map (λ (tree : Seq Pending). tree) job.trees))
            self.old.disks self.new.disks }

        // After a crash at any moment of the call each piece of a block in use has a good copy, if it had one.
        ensures survive { Survive D.image D.keeps D.moment D.left_since (standing_of D.faults self.old)
            (map (λ (tree : Seq Pending). tree) job.trees) self.old.disks self.new.disks }
        ensures same { AreSameDisks D.bytes D.faults D.faults_at_fetch D.home D.image D.sound self.old.disks
            self.new.disks }
    {
        let end = self.graph.round(job)?;
        match self.graph.flush() {
            Ok(()) => Ok(end),
            Err(Failed) => {
                self.failed = true;
                Err(Stop::Device)
            }
        }
    }
}
