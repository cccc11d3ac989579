//! The engine over disks with a volatile cache, made for a command.

ghost use Rattle.std.specs.Prelude.{◌≡◌, ◌≤◌, ◌⊎◌, ℕ, List as Seq, IfErr, IfOk, length, map};
ghost use Rattle.zio_script.specs.Grammar.{IsScriptOf};
ghost use Rattle.zio_cksum.specs.Images.{Images};
ghost use Rattle.zio_gang.specs.declared.ending.Ending.{Ending};
ghost use Rattle.zio_gang.specs.Trees.{sizes_of};
ghost use Rattle.zio_disks.specs.Disks.{AreSameDisks, Tell};
ghost use Rattle.zio_disks.specs.Whole.{IsWholeTree};
ghost use Rattle.zio_report.specs.Meanings.{IsEmptyJournal, course_of};
ghost use Rattle.zio_suspend.specs.Pools.{AreBlocks, AreBoundIn};
ghost use Rattle.zio_command.specs.Grounds.{CameOutOver, HasRunOver, IsSettingOf, IsUnbegun, WasCutOver};
ghost use Rattle.zio_command.specs.Seen.{sink_by};
ghost use Rattle.zio_run.specs.Stable.{LeavesStable};

use crate::engine::Engine;
use crate::rounds::{run_pool_rounds, run_rounds};
use std::alloc::Global;
use zio_command::{Command, Engines, RunOutcome, outcome_of};
use zio_disks::Setting;
use zio_flush::Flushing;
use zio_graph::{Alone, FirstPicks, Graph, Helper, Picks};
use zio_nodes::NodeBox;
use zio_outside::{Sink, SyncDisk};
use zio_report::{RunFault, Show};
use zio_script::Script;
use zio_suspend::PoolEnd;
use zio_turns::DisksBack;
use zio_types::{Journal, List, Top};

impl<D: SyncDisk + Drop, P: Picks + Drop, H: Helper<NodeBox> + Drop> Engine<D>
    for Flushing<D, P, H> {
    ghost use Rattle.std.specs.Prelude.{refl};

    ghost seen = { λ f. f };

    ghost leaves = { LeavesStable D.image D.keeps };

    fn into_disks(self) -> Vec<D> {
        self.finish()
    }

    ghost stands = { λ e. refl };

    ghost tells_images = { λ e images. (λ h. h, λ h. h) };

    ghost same_disks = { λ a b same. same };

    ghost fits_whole = { λ tree fits. fits };
}

/// Makes the engine that flushes its disks after each round, on one thread. The first turn is always picked.
#[derive(Clone, Copy, Debug)]
pub(crate) struct Flushed;

impl<D: SyncDisk + Drop> Engines<D> for Flushed {
    ghost Can = { Unit {0} };

    ghost leaves = { LeavesStable D.image D.keeps };

    fn asked_by(self, _command: &Command) -> Flushed {
        self
    }

    fn run<O: Sink>(
        &self,
        alloc: Global,
        script: &Script,
        show: &Show,
        setting: Setting,
        tops: List<Top>,
        disks: Vec<D>,
        out: &mut O,
        journal: &mut Journal,
    ) -> (RunOutcome, Vec<D>)
        requires script { (text : Seq ℕ) × IsScriptOf text script.now }
        requires setting { IsSettingOf script.now (map D.bytes disks.items) setting }
        requires tops { tops ≡ setting.tops }
        requires few { length disks.items ≤ 16 }
        requires empty { IsEmptyJournal journal.old }
        ensures outcome { let seen = sink_by O.holds O.faults in
            CameOutOver D.faults D.image show.now script.now disks.items result.1.items (seen out.old) (seen out.new)
            journal.old journal.new result.0 }
        ensures unwritten { (leaf : ℕ) → result.0 ≡ RunOutcome.Unfit leaf → out.new ≡ out.old }
        ensures left { (ending : Ending) → result.0 ≡ RunOutcome.Ended ending →
            LeavesStable D.image D.keeps journal.new.rounds result.1.items }
        ensures same { AreSameDisks D.bytes D.faults D.faults_at_fetch D.home D.image D.sound disks.items
            result.1.items }
    {
        let images = disks.len() as u32;
        match Graph::new(alloc, setting, disks, tops, FirstPicks, Alone) {
            Ok(graph) => {
                let engine = Flushing::over(graph);
                let (ended, disks) = run_rounds(alloc, script, show, images, engine, out, journal);
                (outcome_of(ended), disks)
            }
            Err(DisksBack { disks }) => (RunOutcome::Cut(RunFault::Memory), disks),
        }
    }

    fn run_pool<O: Sink>(
        &self,
        alloc: Global,
        script: &Script,
        show: &Show,
        setting: Setting,
        tops: List<Top>,
        disks: Vec<D>,
        out: &mut O,
        journal: &mut Journal,
    ) -> (Result<PoolEnd, RunFault>, Vec<D>)
        requires script { (text : Seq ℕ) × IsScriptOf text script.now }
        requires setting { IsSettingOf script.now (map D.bytes disks.items) setting }
        requires tops { tops ≡ setting.tops }
        requires few { length disks.items ≤ 16 }
        requires empty { IsEmptyJournal journal.old }
        ensures whole { let seen = sink_by O.holds O.faults in IfOk result.0 (λ end.
            HasRunOver D.faults D.image show.now script.now end.ending disks.items result.1.items (seen out.old)
            (seen out.new) journal.new) }
        ensures bound { IfOk result.0 (λ end. (before : Images) → Tell D.image disks.items before →
            AreBoundIn (course_of script.now before journal.new).state end.point end.bound) }
        ensures placed { IfOk result.0 (λ end. AreBlocks IsWholeTree (sizes_of setting.tops) end.bound) }
        ensures cut { let seen = sink_by O.holds O.faults in IfErr result.0 (λ fault.
            WasCutOver D.faults D.image show.now script.now fault disks.items result.1.items (seen out.old)
            (seen out.new) journal.new
            ⊎ IsUnbegun fault disks.items result.1.items (seen out.old) (seen out.new) journal.old journal.new) }
        ensures same { AreSameDisks D.bytes D.faults D.faults_at_fetch D.home D.image D.sound disks.items
            result.1.items }
    {
        let images = disks.len() as u32;
        match Graph::new(alloc, setting, disks, tops, FirstPicks, Alone) {
            Ok(graph) => run_pool_rounds(
                alloc,
                script,
                show,
                images,
                Flushing::over(graph),
                out,
                journal,
            ),
            Err(DisksBack { disks }) => (Err(RunFault::Memory), disks),
        }
    }
}
