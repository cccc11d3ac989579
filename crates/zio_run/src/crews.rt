//! The engine with workers, made for a command.

ghost use Rattle.std.specs.Prelude.{◌≡◌, ◌≤◌, ◌⊎◌, ℕ, List as Seq, IfErr, IfOk, length, map};
ghost use Rattle.zio_script.specs.Grammar.{IsScriptOf};
ghost use Rattle.zio_cksum.specs.Images.{Images};
ghost use Rattle.zio_gang.specs.Trees.{sizes_of};
ghost use Rattle.zio_disks.specs.Disks.{AreSameDisks, Tell};
ghost use Rattle.zio_disks.specs.Whole.{IsWholeTree};
ghost use Rattle.zio_report.specs.Meanings.{IsEmptyJournal, course_of};
ghost use Rattle.zio_suspend.specs.Pools.{AreBlocks, AreBoundIn};
ghost use Rattle.zio_command.specs.Grounds.{CameOutOver, HasRunOver, IsSettingOf, IsUnbegun, WasCutOver};
ghost use Rattle.zio_command.specs.Seen.{sink_by};
ghost use denote.Param.Send.{IsSync};

use crate::engines::{run_by, run_pool_by};
use std::alloc::Global;
use std::sync::Wait;
use std::thread::Threads;
use zio_command::{Command, Engines, RunOutcome};
use zio_disks::Setting;
use zio_graph::FirstPicks;
use zio_outside::{Disk, Sink};
use zio_report::{RunFault, Show};
use zio_script::Script;
use zio_suspend::PoolEnd;
use zio_types::{Journal, List, Top};
use zio_workers::Crew;

/// Makes the engine with workers.
#[derive(Drop)]
pub(crate) struct Crews<'g, Rt: Threads + Wait + Sync> {
    pub(crate) rt: &'g Rt,
    pub(crate) workers: u32,
}

impl<'g, Rt: Threads + Wait + Sync, D: Disk + Drop> Engines<D> for Crews<'g, Rt> {
    ghost Can = { IsSync Rt.row };

    ghost leaves = { λ rounds disks. Unit {0} };

    fn asked_by(self, command: &Command) -> Crews<'g, Rt> {
        match command {
            Command::Run { workers, .. } => Crews {
                rt: self.rt,
                workers: *workers,
            },
            Command::Scrub { .. } | Command::Gen { .. } | Command::Load { .. } => self,
        }
    }

    fn run<O: Sink>(
        &self,
        alloc: Global,
        script: &Script,
        show: &Show,
        setting: Setting,
        tops: List<Top>,
        disks: Vec<D>,
        out: &mut O,
        journal: &mut Journal,
    ) -> (RunOutcome, Vec<D>)
        requires can { IsSync Rt.row }
        requires script { (text : Seq ℕ) × IsScriptOf text script.now }
        requires setting { IsSettingOf script.now (map D.bytes disks.items) setting }
        requires tops { tops ≡ setting.tops }
        requires few { length disks.items ≤ 16 }
        requires empty { IsEmptyJournal journal.old }
        ensures outcome { let seen = sink_by O.holds O.faults in
            CameOutOver D.faults D.image show.now script.now disks.items result.1.items (seen out.old) (seen out.new)
            journal.old journal.new result.0 }
        ensures unwritten { (leaf : ℕ) → result.0 ≡ RunOutcome.Unfit leaf → out.new ≡ out.old }
        ensures same { AreSameDisks D.bytes D.faults D.faults_at_fetch D.home D.image D.sound disks.items
            result.1.items }
    {
        let crew = Crew::new(self.rt, self.workers);
        run_by(
            alloc, script, show, setting, tops, FirstPicks, crew, disks, out, journal,
        )
    }

    fn run_pool<O: Sink>(
        &self,
        alloc: Global,
        script: &Script,
        show: &Show,
        setting: Setting,
        tops: List<Top>,
        disks: Vec<D>,
        out: &mut O,
        journal: &mut Journal,
    ) -> (Result<PoolEnd, RunFault>, Vec<D>)
        requires can { IsSync Rt.row }
        requires script { (text : Seq ℕ) × IsScriptOf text script.now }
        requires setting { IsSettingOf script.now (map D.bytes disks.items) setting }
        requires tops { tops ≡ setting.tops }
        requires few { length disks.items ≤ 16 }
        requires empty { IsEmptyJournal journal.old }
        ensures whole { let seen = sink_by O.holds O.faults in IfOk result.0 (λ end.
            HasRunOver D.faults D.image show.now script.now end.ending disks.items result.1.items (seen out.old)
            (seen out.new) journal.new) }
        ensures bound { IfOk result.0 (λ end. (before : Images) → Tell D.image disks.items before →
            AreBoundIn (course_of script.now before journal.new).state end.point end.bound) }
        ensures placed { IfOk result.0 (λ end. AreBlocks IsWholeTree (sizes_of setting.tops) end.bound) }
        ensures cut { let seen = sink_by O.holds O.faults in IfErr result.0 (λ fault.
            WasCutOver D.faults D.image show.now script.now fault disks.items result.1.items (seen out.old)
            (seen out.new) journal.new
            ⊎ IsUnbegun fault disks.items result.1.items (seen out.old) (seen out.new) journal.old journal.new) }
        ensures same { AreSameDisks D.bytes D.faults D.faults_at_fetch D.home D.image D.sound disks.items
            result.1.items }
    {
        let crew = Crew::new(self.rt, self.workers);
        run_pool_by(
            alloc, script, show, setting, tops, FirstPicks, crew, disks, out, journal,
        )
    }
}
