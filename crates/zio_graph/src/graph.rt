//! The engine.

ghost use Rattle.std.specs.Prelude.{◌≡◌, ◌<◌, ◌^◌, IfErr, IfOk, IfSome, IsErrOf, List as Seq, OnErr, OnOk, [], false, length, map};
ghost use Rattle.std.specs.List.{AllByRecursion};
ghost use Rattle.zio_cksum.specs.Images.{Images};
ghost use Rattle.zio_gang.specs.Attempts.{Pending};
ghost use Rattle.zio_disks.specs.Disks.{AreSameDisks, Tell};
ghost use Rattle.zio_disks.specs.Whole.{IsWholeTree};
ghost use Rattle.zio_course.specs.declared.runner.Stop.TheVariants.{Device, Memory};
ghost use Rattle.zio_course.specs.Runners.{
  AnyRose,
  AreRunnable,
  DiffersInRound,
  IsNewTree,
  IsRound,
  IsRoundEnd,
  StandsAfter,
  StoppedAfter,
  ended_seen,
  fresh,
  made_trees,
  terms_at,
  tree_over,
};
ghost use Rattle.zio_turns.specs.Wrote.{Wrote};
ghost use Rattle.zio_graph.specs.Crashes.{MayWrite, SparesAll};
ghost use Rattle.zio_graph.specs.Ends.{told_of};
ghost use Rattle.zio_graph.specs.Graphs.{CanRun, standing_of};
ghost use Rattle.zio_graph.specs.Stable.{AreStable, AreSynced, KeepImages};

use crate::flush::flush_grounds;
use crate::tree::{EngineTree, tree_over, trees_of, wholes_of};
use crate::wholes::run_wholes;
use std::alloc::Global;
use std::marker::Model;
use zio_course::{ChildrenBack, Job, RoundEnd, Stop};
use zio_disks::Setting;
use zio_gang::Tree;
use zio_nodes::NodeBox;
use zio_outside::{Disk, Failed, SyncDisk};
use zio_script::Request;
use zio_stages::Finished;
use zio_turns::{DisksBack, Grounds, Helper, Picks};
use zio_types::{List, Top};

/// Runs rounds of trees of requests, whose nodes take turns in whatever order is picked. A helper may reckon what they
/// need before it is their turn. Contracts see it as its setting, its disks and the places in use, the number of its
/// last round, and whether a round was stopped.
#[derive(Drop)]
pub struct Graph<D: Disk + Drop, P: Picks + Drop, H: Helper<NodeBox> + Drop> {
    grounds: Grounds<D>,
    picks: P,
    helper: H,
    last: u32,
    stopped: bool,
}

impl<D: Disk + Drop, P: Picks + Drop, H: Helper<NodeBox> + Drop> Model for Graph<D, P, H> {
    ghost use Rattle.std.specs.Prelude.{◌≡◌, false};
    ghost use Rattle.zio_graph.specs.Graphs.{AreReadyGrounds, SeenGraph};

    ghost Value = { SeenGraph D };

    ghost view = { λ g. record {
      setting = g.grounds.setting;
      disks = g.grounds.disks.items;
      live = g.grounds.desk.space.live;
      last = g.last;
      stopped = g.stopped;
    } };

    ghost invariant = { λ g. g.stopped ≡ false → AreReadyGrounds D.bytes g.grounds };
}

impl<D: Disk + Drop, P: Picks + Drop, H: Helper<NodeBox> + Drop> Graph<D, P, H> {
    /// Over disks that bear the tops, with all of these free. The tops are those of the setting. Where memory is
    /// refused the disks come back, and the rest is dropped.
    pub fn new(
        alloc: Global,
        setting: Setting,
        disks: Vec<D>,
        tops: List<Top>,
        picks: P,
        helper: H,
    ) -> Result<Graph<D, P, H>, DisksBack<D>>
        requires tops { tops ≡ setting.tops }
        requires can { CanRun setting (map D.bytes disks.items) }
        requires count { length disks.items < 2 ^ 32 }
        ensures ok { IfOk result (λ graph. graph ≡
            record { setting = setting; disks = disks.items; live = []; last = 0; stopped = false }) }
        ensures back { IfErr result (λ back. back.disks.items ≡ disks.items) }
    {
        let grounds = Grounds::new(alloc, setting, disks, tops)?;
        Ok(Graph {
            grounds,
            picks,
            helper,
            last: 0,
            stopped: false,
        })
    }

    /// Makes a tree of a request and its children's trees, for the batch of this number. A read or a free is given the
    /// block that it names. Where memory is refused the children's trees come back.
    pub fn tree(
        &self,
        request: &Request,
        birth: u32,
        block: Option<Tree>,
        children: List<EngineTree>,
    ) -> Result<EngineTree, ChildrenBack<EngineTree>>
        requires whole { IsNewTree request.now birth block children }
        requires fits { IfSome block IsWholeTree }
        ensures made { IfOk result (λ tree. tree ≡ tree_over children (fresh request.now birth block)) }
        ensures back { IfErr result (λ back. back.children ≡ children) }
    {
        tree_over(self.grounds.alloc, request, birth, block, children)
    }

    /// Runs a round of trees: each request finishes, or is left with those above it.
    ///
    /// `Stop::Device` comes exactly where a count of a disk's faults rose, `Stop::Memory` for want of memory. No round
    /// runs after a stop.
    pub fn round(&mut self, job: Job<EngineTree>) -> Result<RoundEnd<EngineTree, Finished>, Stop>
        requires runs { self.old.stopped ≡ false }
        requires next { self.old.last < job.round }
        requires trees { AreRunnable (standing_of D.faults self.old) (map (λ (tree : Seq Pending). tree) job.trees) }
        requires can { H.Can }
        ensures round { IfOk result (λ end. (before : Images) → Tell D.image self.old.disks before → (after : Images)
            × Tell D.image self.new.disks after
            × IsRound (terms_at (standing_of D.faults self.old) job.failmode job.round job.point)
            (map (λ (tree : Seq Pending). tree) job.trees) before after
            (ended_seen (λ (tree : Seq Pending). tree) told_of end)
            × DiffersInRound (standing_of D.faults self.old)
            (map (λ (tree : Seq Pending). tree) job.trees) before after) }
        ensures end { IfOk result (λ end. IsRoundEnd (standing_of D.faults self.old) job.round
            (map (λ (tree : Seq Pending). tree) job.trees) (ended_seen (λ (tree : Seq Pending). tree) told_of end)) }
        ensures fits { IfOk result (λ end. AllByRecursion IsWholeTree (made_trees (map told_of end.finished))) }
        ensures stands { IfOk result (λ end. StandsAfter (standing_of D.faults self.old)
            (standing_of D.faults self.new) job.round
            (map (λ (tree : Seq Pending). tree) job.trees) (ended_seen (λ (tree : Seq Pending). tree) told_of end)) }
        ensures stopped { OnErr result
            (StoppedAfter (standing_of D.faults self.old) (standing_of D.faults self.new) job.round) }
        ensures device { IsErrOf result Device → AnyRose (map D.faults self.old.disks) (map D.faults self.new.disks) }
        ensures calm { IsErrOf result Memory → map D.faults self.new.disks ≡ map D.faults self.old.disks }
        ensures images { OnErr result ((before : Images) → Tell D.image self.old.disks before → (after : Images)
            × Tell D.image self.new.disks after
            × DiffersInRound (standing_of D.faults self.old)
            (map (λ (tree : Seq Pending). tree) job.trees) before after) }

        // What went to each disk lies, byte by byte, at places that were free or that blocks of the trees have. Of each
        // piece of a block in use that had a good copy none of it is one such copy's.
        ensures wrote { Wrote D.went
            (MayWrite (standing_of D.faults self.old) (map (λ (tree : Seq Pending). tree) job.trees))
            self.old.disks self.new.disks }
        ensures spares { SparesAll D.image D.went (standing_of D.faults self.old)
            (map (λ (tree : Seq Pending). tree) job.trees) self.old.disks self.new.disks }
        ensures same { AreSameDisks D.bytes D.faults D.faults_at_fetch D.home D.image D.sound self.old.disks
            self.new.disks }
    {
        let Job {
            round,
            point,
            failmode,
            trees,
        } = job;
        let alloc = self.grounds.alloc;
        self.last = round;
        self.stopped = true;
        note_point(&mut self.grounds, point);
        let wholes = wholes_of(alloc, trees)?;
        let RoundEnd {
            finished,
            left,
            completions,
            entries,
        } = run_wholes::<NodeBox, D, P, H>(
            &mut self.grounds,
            &mut self.picks,
            &self.helper,
            round,
            failmode,
            wholes,
        )?;
        let rests = trees_of(alloc, left)?;
        self.stopped = false;
        Ok(RoundEnd {
            finished,
            left: rests,
            completions,
            entries,
        })
    }

    /// The disks, by the numbers of the leaves.
    pub fn into_disks(self) -> Vec<D>
        ensures { result.items ≡ self.disks }
    {
        self.grounds.disks
    }
}

impl<D: SyncDisk + Drop, P: Picks + Drop, H: Helper<NodeBox> + Drop> Graph<D, P, H> {
    /// Makes the images of all disks stable, also of those that no top names, in their order and up to the first that
    /// fails. No image changes, and nothing else of the engine. A crash meanwhile leaves of each disk what one before
    /// might have left, or its image.
    pub fn flush(&mut self) -> Result<(), Failed>
        ensures stable { OnOk result ((images : Images) → Tell D.image self.old.disks images
            → AreStable D.keeps self.new.disks images) }
        ensures images { KeepImages D.image self.old.disks self.new.disks }
        ensures synced { AreSynced D.went D.moment D.left_since D.image self.old.disks self.new.disks }
        ensures failed { OnErr result (AnyRose (map D.faults self.old.disks) (map D.faults self.new.disks)) }
        ensures steady { OnOk result (map D.faults self.new.disks ≡ map D.faults self.old.disks) }
        ensures same { AreSameDisks D.bytes D.faults D.faults_at_fetch D.home D.image D.sound self.old.disks
            self.new.disks }
        ensures rest { self.new ≡ record {
          setting = self.old.setting;
          disks = self.new.disks;
          live = self.old.live;
          last = self.old.last;
          stopped = self.old.stopped;
        } }
    {
        flush_grounds(&mut self.grounds)
    }
}

/// Notes the resume point of a round.
fn note_point<D: Disk + Drop>(grounds: &mut Grounds<D>, point: u32)
    ensures setting { grounds.new.setting ≡
        record { tops = grounds.old.setting.tops; rows = grounds.old.setting.rows; point = point } }
    ensures disks { grounds.new.disks ≡ grounds.old.disks }
    ensures desk { grounds.new.desk ≡ grounds.old.desk }
    ensures queues { grounds.new.queues ≡ grounds.old.queues }
{
    grounds.setting.point = point;
}
