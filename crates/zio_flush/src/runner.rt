//! The engine over disks with a volatile cache, as a runner of rounds.

use crate::flushing::Flushing;
use zio_course::{ChildrenBack, Job, RequestEnd, RoundEnd, Runner, Stop};
use zio_gang::Tree;
use zio_graph::{EngineTree, Graph, Helper, Picks};
use zio_nodes::NodeBox;
use zio_outside::SyncDisk;
use zio_script::Request;
use zio_stages::Finished;
use zio_types::List;

impl<D: SyncDisk + Drop, P: Picks + Drop, H: Helper<NodeBox> + Drop> Runner for Flushing<D, P, H> {
    ghost use Rattle.std.specs.Prelude.{◌≡◌, ◌<◌, List, false, IfErr, IfOk, IfSome, IsErrOf, OnErr, map};
    ghost use Rattle.std.specs.List.{AllByRecursion};
    ghost use Rattle.zio_cksum.specs.Images.{Images};
    ghost use Rattle.zio_gang.specs.Attempts.{Pending};
    ghost use Rattle.zio_disks.specs.Disks.{AreSameDisks, Tell};
    ghost use Rattle.zio_disks.specs.Whole.{IsWholeTree};
    ghost use Rattle.zio_course.specs.declared.runner.Stop.TheVariants.{Device, Memory};
    ghost use Rattle.zio_course.specs.Runners.{
      AnyRose,
      AreRunnable,
      DiffersInRound,
      IsNewTree,
      IsRound,
      IsRoundEnd,
      StandsAfter,
      Stays,
      StoppedAfter,
      ended_seen,
      fresh,
      made_trees,
      terms_at,
      tree_over,
    };
    ghost use Rattle.zio_graph.specs.Ends.{told_of};
    ghost use Rattle.zio_graph.specs.Graphs.{standing_of};

    type Tree = EngineTree;

    type Finished = Finished;

    ghost pending = { λ tree. tree };

    ghost told = { told_of };

    ghost standing = { standing_of D.faults };

    ghost tells = { λ g images. Tell D.image g.disks images };

    ghost same = { λ a b. AreSameDisks D.bytes D.faults D.faults_at_fetch D.home D.image D.sound a.disks b.disks };

    ghost fits = { IsWholeTree };

    ghost chosen = { λ round entries. Unit {0} };

    ghost Can = { λ _. H.Can };

    ghost stops = { λ _ t trees before. Unit {0} };

    fn tree(
        &mut self,
        request: &Request,
        birth: u32,
        block: Option<Tree>,
        children: List<EngineTree>,
    ) -> Result<EngineTree, ChildrenBack<EngineTree>>
        requires whole { IsNewTree request.now birth block (map (λ (tree : List Pending). tree) children) }
        requires fits { IfSome block IsWholeTree }
        ensures made { IfOk result (λ tree. tree ≡ tree_over (map (λ (tree : List Pending). tree) children)
            (fresh request.now birth block)) }
        ensures back { IfErr result (λ back. back.children ≡ children) }
        ensures stays { Stays (standing_of D.faults self.old) (standing_of D.faults self.new)
            (λ images. Tell D.image self.old.disks images) (λ images. Tell D.image self.new.disks images) }
        ensures same { AreSameDisks D.bytes D.faults D.faults_at_fetch D.home D.image D.sound self.old.disks
            self.new.disks }
    {
        Flushing::tree(self, request, birth, block, children)
    }

    fn round(&mut self, job: Job<EngineTree>) -> Result<RoundEnd<EngineTree, Finished>, Stop>
        requires runs { self.old.stopped ≡ false }
        requires next { self.old.last < job.round }
        requires trees { AreRunnable (standing_of D.faults self.old) (map (λ (tree : List Pending). tree) job.trees) }
        requires can { H.Can }
        ensures round { IfOk result (λ end. (before : Images) → Tell D.image self.old.disks before → (after : Images)
            × Tell D.image self.new.disks after
            × IsRound (terms_at (standing_of D.faults self.old) job.failmode job.round job.point)
            (map (λ (tree : List Pending). tree) job.trees) before after
            (ended_seen (λ (tree : List Pending). tree) told_of end)
            × DiffersInRound (standing_of D.faults self.old)
            (map (λ (tree : List Pending). tree) job.trees) before after) }
        ensures end { IfOk result (λ end. IsRoundEnd (standing_of D.faults self.old) job.round
            (map (λ (tree : List Pending). tree) job.trees) (ended_seen (λ (tree : List Pending). tree) told_of end)) }
        ensures fits { IfOk result (λ end. AllByRecursion IsWholeTree (made_trees (map told_of end.finished))) }
        ensures stands { IfOk result (λ end. StandsAfter (standing_of D.faults self.old) (standing_of D.faults self.new)
            job.round (map (λ (tree : List Pending). tree) job.trees)
            (ended_seen (λ (tree : List Pending). tree) told_of end)) }
        ensures stopped { OnErr result
            (StoppedAfter (standing_of D.faults self.old) (standing_of D.faults self.new) job.round) }
        ensures device { IsErrOf result Device → AnyRose (map D.faults self.old.disks) (map D.faults self.new.disks) }
        ensures calm { IsErrOf result Memory → map D.faults self.new.disks ≡ map D.faults self.old.disks }
        ensures images { OnErr result ((before : Images) → Tell D.image self.old.disks before → (after : Images)
            × Tell D.image self.new.disks after
            × DiffersInRound (standing_of D.faults self.old)
            (map (λ (tree : List Pending). tree) job.trees) before after) }
        ensures can { H.Can }
        ensures same { AreSameDisks D.bytes D.faults D.faults_at_fetch D.home D.image D.sound self.old.disks
            self.new.disks }
    {
        Flushing::round(self, job)
    }

    fn told(finished: Finished) -> RequestEnd {
        <Graph<D, P, H> as Runner>::told(finished)
    }

    ghost use Rattle.zio_disks.proofs.DiskLemmas.{same_itself as disks_itself, same_then as disks_then};

    ghost same_then = { λ a b c first second. disks_then D.bytes D.faults D.faults_at_fetch D.home D.image D.sound
        a.disks
        b.disks c.disks first second };

    ghost same_itself = { λ a. disks_itself D.bytes D.faults D.faults_at_fetch D.home D.image D.sound a.disks };
}
