//! Who runs the rounds of a script.

ghost use Rattle.std.specs.Prelude.{◌≡◌, ◌≤◌, ◌⊎◌, ℕ, List as Seq, IfErr, IfOk, length, map};
ghost use Rattle.zio_script.specs.Grammar.{IsScriptOf};
ghost use Rattle.zio_cksum.specs.Images.{Images};
ghost use Rattle.zio_gang.specs.declared.ending.Ending.{Ending};
ghost use Rattle.zio_gang.specs.Trees.{sizes_of};
ghost use Rattle.zio_disks.specs.Disks.{AreSameDisks, Tell};
ghost use Rattle.zio_disks.specs.Whole.{IsWholeTree};
ghost use Rattle.zio_report.specs.Meanings.{IsEmptyJournal, course_of};
ghost use Rattle.zio_suspend.specs.Pools.{AreBlocks, AreBoundIn};
ghost use Rattle.zio_command.specs.Grounds.{CameOutOver, HasRunOver, IsSettingOf, IsUnbegun, WasCutOver};
ghost use Rattle.zio_command.specs.Seen.{sink_by};

use crate::outcome::RunOutcome;
use crate::words::Command;
use std::alloc::Global;
use zio_disks::Setting;
use zio_outside::{Disk, Sink};
use zio_report::{RunFault, Show};
use zio_script::Script;
use zio_suspend::PoolEnd;
use zio_types::{Journal, List, Top};

/// Makes an engine over disks, and runs a script by it. It holds what the engine needs beside.
pub trait Engines<D: Disk + Drop>: Drop {
    /// What an engine's threads need of the types that it stands on.
    ghost Can: { Type 0 };

    /// What holds of the disks after a run that wasn't cut short, of so many rounds.
    ghost leaves: { ℕ → Seq D → Type 0 };

    /// Makes them as the command asks.
    fn asked_by(self, command: &Command) -> Self;

    /// Runs the script over disks that bear its tops, by an engine that has run nothing yet, and hands the disks back.
    /// The tops are those of the setting.
    fn run<O: Sink>(
        &self,
        alloc: Global,
        script: &Script,
        show: &Show,
        setting: Setting,
        tops: List<Top>,
        disks: Vec<D>,
        out: &mut O,
        journal: &mut Journal,
    ) -> (RunOutcome, Vec<D>)
        requires can { Can }
        requires script { (text : Seq ℕ) × IsScriptOf text script.now }
        requires setting { IsSettingOf script.now (map D.bytes disks.items) setting }
        requires tops { tops ≡ setting.tops }
        requires few { length disks.items ≤ 16 }
        requires empty { IsEmptyJournal journal.old }
        ensures outcome { let seen = sink_by O.holds O.faults in
            CameOutOver D.faults D.image show.now script.now disks.items result.1.items (seen out.old) (seen out.new)
            journal.old journal.new result.0 }
        ensures unwritten { (leaf : ℕ) → result.0 ≡ RunOutcome.Unfit leaf → out.new ≡ out.old }
        ensures left { (ending : Ending) → result.0 ≡ RunOutcome.Ended ending →
            leaves journal.new.rounds result.1.items }
        ensures same { AreSameDisks D.bytes D.faults D.faults_at_fetch D.home D.image D.sound disks.items
            result.1.items };

    /// Runs it as `run` does, and gives the blocks that it leaves bound, with the resume point.
    fn run_pool<O: Sink>(
        &self,
        alloc: Global,
        script: &Script,
        show: &Show,
        setting: Setting,
        tops: List<Top>,
        disks: Vec<D>,
        out: &mut O,
        journal: &mut Journal,
    ) -> (Result<PoolEnd, RunFault>, Vec<D>)
        requires can { Can }
        requires script { (text : Seq ℕ) × IsScriptOf text script.now }
        requires setting { IsSettingOf script.now (map D.bytes disks.items) setting }
        requires tops { tops ≡ setting.tops }
        requires few { length disks.items ≤ 16 }
        requires empty { IsEmptyJournal journal.old }
        ensures whole { let seen = sink_by O.holds O.faults in IfOk result.0 (λ end.
            HasRunOver D.faults D.image show.now script.now end.ending disks.items result.1.items (seen out.old)
            (seen out.new) journal.new) }
        ensures bound { IfOk result.0 (λ end. (before : Images) → Tell D.image disks.items before →
            AreBoundIn (course_of script.now before journal.new).state end.point end.bound) }
        ensures placed { IfOk result.0 (λ end. AreBlocks IsWholeTree (sizes_of setting.tops) end.bound) }
        ensures cut { let seen = sink_by O.holds O.faults in IfErr result.0 (λ fault.
            WasCutOver D.faults D.image show.now script.now fault disks.items result.1.items (seen out.old)
            (seen out.new) journal.new
            ⊎ IsUnbegun fault disks.items result.1.items (seen out.old) (seen out.new) journal.old journal.new) }
        ensures same { AreSameDisks D.bytes D.faults D.faults_at_fetch D.home D.image D.sound disks.items
            result.1.items };
}
