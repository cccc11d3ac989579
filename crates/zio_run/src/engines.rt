//! The engine on one thread, made for a command.

ghost use Rattle.std.specs.Prelude.{◌≡◌, ◌≤◌, ◌⊎◌, ℕ, List as Seq, IfErr, IfOk, length, map};
ghost use Rattle.zio_script.specs.Grammar.{IsScriptOf};
ghost use Rattle.zio_cksum.specs.Images.{Images};
ghost use Rattle.zio_gang.specs.Trees.{sizes_of};
ghost use Rattle.zio_disks.specs.Disks.{AreSameDisks, Tell};
ghost use Rattle.zio_disks.specs.Whole.{IsWholeTree};
ghost use Rattle.zio_report.specs.Meanings.{IsEmptyJournal, course_of};
ghost use Rattle.zio_suspend.specs.Pools.{AreBlocks, AreBoundIn};
ghost use Rattle.zio_command.specs.Commands.{picks_of};
ghost use Rattle.zio_command.specs.Grounds.{CameOutOver, HasRunOver, IsSettingOf, IsUnbegun, WasCutOver};
ghost use Rattle.zio_command.specs.Seen.{sink_by};

use crate::rounds::{run_pool_rounds, run_rounds};
use std::alloc::Global;
use zio_command::{Command, Engines, RunOutcome, outcome_of};
use zio_disks::Setting;
use zio_graph::{Alone, FirstPicks, Graph, Helper, Picks, from_seed};
use zio_nodes::NodeBox;
use zio_outside::{Disk, Sink};
use zio_report::{RunFault, Show};
use zio_script::Script;
use zio_suspend::PoolEnd;
use zio_turns::DisksBack;
use zio_types::{Journal, List, Top};

/// Makes the engine on one thread. Its turns are picked from a seed, or the first is always picked where there is none.
#[derive(Clone, Copy, Debug)]
pub(crate) struct OneThread {
    pub(crate) picks: Option<u64>,
}

impl<D: Disk + Drop> Engines<D> for OneThread {
    ghost Can = { Unit {0} };

    ghost leaves = { λ rounds disks. Unit {0} };

    fn asked_by(self, command: &Command) -> OneThread
        ensures { result.picks ≡ picks_of command.now }
    {
        match command {
            Command::Run { picks, .. } | Command::Scrub { picks, .. } => OneThread {
                picks: *picks,
            },
            Command::Gen { .. } | Command::Load { .. } => OneThread { picks: None },
        }
    }

    fn run<O: Sink>(
        &self,
        alloc: Global,
        script: &Script,
        show: &Show,
        setting: Setting,
        tops: List<Top>,
        disks: Vec<D>,
        out: &mut O,
        journal: &mut Journal,
    ) -> (RunOutcome, Vec<D>)
        requires script { (text : Seq ℕ) × IsScriptOf text script.now }
        requires setting { IsSettingOf script.now (map D.bytes disks.items) setting }
        requires tops { tops ≡ setting.tops }
        requires few { length disks.items ≤ 16 }
        requires empty { IsEmptyJournal journal.old }
        ensures outcome { let seen = sink_by O.holds O.faults in
            CameOutOver D.faults D.image show.now script.now disks.items result.1.items (seen out.old) (seen out.new)
            journal.old journal.new result.0 }
        ensures unwritten { (leaf : ℕ) → result.0 ≡ RunOutcome.Unfit leaf → out.new ≡ out.old }
        ensures same { AreSameDisks D.bytes D.faults D.faults_at_fetch D.home D.image D.sound disks.items
            result.1.items }
    {
        match self.picks {
            Some(seed) => run_by(
                alloc,
                script,
                show,
                setting,
                tops,
                from_seed(seed),
                Alone,
                disks,
                out,
                journal,
            ),
            None => run_by(
                alloc, script, show, setting, tops, FirstPicks, Alone, disks, out, journal,
            ),
        }
    }

    fn run_pool<O: Sink>(
        &self,
        alloc: Global,
        script: &Script,
        show: &Show,
        setting: Setting,
        tops: List<Top>,
        disks: Vec<D>,
        out: &mut O,
        journal: &mut Journal,
    ) -> (Result<PoolEnd, RunFault>, Vec<D>)
        requires script { (text : Seq ℕ) × IsScriptOf text script.now }
        requires setting { IsSettingOf script.now (map D.bytes disks.items) setting }
        requires tops { tops ≡ setting.tops }
        requires few { length disks.items ≤ 16 }
        requires empty { IsEmptyJournal journal.old }
        ensures whole { let seen = sink_by O.holds O.faults in IfOk result.0 (λ end.
            HasRunOver D.faults D.image show.now script.now end.ending disks.items result.1.items (seen out.old)
            (seen out.new) journal.new) }
        ensures bound { IfOk result.0 (λ end. (before : Images) → Tell D.image disks.items before →
            AreBoundIn (course_of script.now before journal.new).state end.point end.bound) }
        ensures placed { IfOk result.0 (λ end. AreBlocks IsWholeTree (sizes_of setting.tops) end.bound) }
        ensures cut { let seen = sink_by O.holds O.faults in IfErr result.0 (λ fault.
            WasCutOver D.faults D.image show.now script.now fault disks.items result.1.items (seen out.old)
            (seen out.new) journal.new
            ⊎ IsUnbegun fault disks.items result.1.items (seen out.old) (seen out.new) journal.old journal.new) }
        ensures same { AreSameDisks D.bytes D.faults D.faults_at_fetch D.home D.image D.sound disks.items
            result.1.items }
    {
        match self.picks {
            Some(seed) => run_pool_by(
                alloc,
                script,
                show,
                setting,
                tops,
                from_seed(seed),
                Alone,
                disks,
                out,
                journal,
            ),
            None => run_pool_by(
                alloc, script, show, setting, tops, FirstPicks, Alone, disks, out, journal,
            ),
        }
    }
}

/// Runs the script by these picks, with this help.
pub(crate) fn run_by<O: Sink, D: Disk + Drop, P: Picks + Drop, H: Helper<NodeBox> + Drop>(
    alloc: Global,
    script: &Script,
    show: &Show,
    setting: Setting,
    tops: List<Top>,
    picks: P,
    helper: H,
    disks: Vec<D>,
    out: &mut O,
    journal: &mut Journal,
) -> (RunOutcome, Vec<D>)
    requires can { H.Can }
    requires script { (text : Seq ℕ) × IsScriptOf text script.now }
    requires setting { IsSettingOf script.now (map D.bytes disks.items) setting }
    requires tops { tops ≡ setting.tops }
    requires few { length disks.items ≤ 16 }
    requires empty { IsEmptyJournal journal.old }
    ensures outcome { let seen = sink_by O.holds O.faults in
        CameOutOver D.faults D.image show.now script.now disks.items result.1.items (seen out.old) (seen out.new)
        journal.old journal.new result.0 }
    ensures unwritten { (leaf : ℕ) → result.0 ≡ RunOutcome.Unfit leaf → out.new ≡ out.old }
    ensures same { AreSameDisks D.bytes D.faults D.faults_at_fetch D.home D.image D.sound disks.items result.1.items }
{
    let images = disks.len() as u32;
    match Graph::new(alloc, setting, disks, tops, picks, helper) {
        Ok(graph) => {
            let (ended, disks) = run_rounds(alloc, script, show, images, graph, out, journal);
            (outcome_of(ended), disks)
        }
        Err(DisksBack { disks }) => (RunOutcome::Cut(RunFault::Memory), disks),
    }
}

/// The same, and gives the blocks that the script leaves bound.
pub(crate) fn run_pool_by<O: Sink, D: Disk + Drop, P: Picks + Drop, H: Helper<NodeBox> + Drop>(
    alloc: Global,
    script: &Script,
    show: &Show,
    setting: Setting,
    tops: List<Top>,
    picks: P,
    helper: H,
    disks: Vec<D>,
    out: &mut O,
    journal: &mut Journal,
) -> (Result<PoolEnd, RunFault>, Vec<D>)
    requires can { H.Can }
    requires script { (text : Seq ℕ) × IsScriptOf text script.now }
    requires setting { IsSettingOf script.now (map D.bytes disks.items) setting }
    requires tops { tops ≡ setting.tops }
    requires few { length disks.items ≤ 16 }
    requires empty { IsEmptyJournal journal.old }
    ensures whole { let seen = sink_by O.holds O.faults in IfOk result.0 (λ end.
        HasRunOver D.faults D.image show.now script.now end.ending disks.items result.1.items (seen out.old)
        (seen out.new) journal.new) }
    ensures bound { IfOk result.0 (λ end. (before : Images) → Tell D.image disks.items before →
        AreBoundIn (course_of script.now before journal.new).state end.point end.bound) }
    ensures placed { IfOk result.0 (λ end. AreBlocks IsWholeTree (sizes_of setting.tops) end.bound) }
    ensures cut { let seen = sink_by O.holds O.faults in IfErr result.0 (λ fault.
        WasCutOver D.faults D.image show.now script.now fault disks.items result.1.items (seen out.old)
        (seen out.new) journal.new
        ⊎ IsUnbegun fault disks.items result.1.items (seen out.old) (seen out.new) journal.old journal.new) }
    ensures same { AreSameDisks D.bytes D.faults D.faults_at_fetch D.home D.image D.sound disks.items result.1.items }
{
    let images = disks.len() as u32;
    match Graph::new(alloc, setting, disks, tops, picks, helper) {
        Ok(graph) => run_pool_rounds(alloc, script, show, images, graph, out, journal),
        Err(DisksBack { disks }) => (Err(RunFault::Memory), disks),
    }
}
