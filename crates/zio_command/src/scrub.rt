//! The run of a script with a scrub of its pool behind it.

ghost use Rattle.std.specs.Prelude.{◌≡◌, ◌≤◌, ℕ, List as Seq, IfErr, OnOk, false, length, map};
ghost use Rattle.std.specs.List.{AllByRecursion};
ghost use Rattle.zio_script.specs.Grammar.{IsScriptOf};
ghost use Rattle.zio_cksum.specs.Images.{Images};
ghost use Rattle.zio_gang.specs.declared.ending.Ending.{Ending as Ended};
ghost use Rattle.zio_gang.specs.Trees.{sizes_of};
ghost use Rattle.zio_disks.specs.Disks.{AreSameDisks};
ghost use Rattle.zio_disks.specs.Whole.{IsWholeTree};
ghost use Rattle.zio_report.specs.Meanings.{IsEmptyJournal, tops_of};
ghost use Rattle.zio_suspend.specs.Pools.{AreBlocks};
ghost use Rattle.zio_scrub.specs.Pieces.{trees_of};
ghost use Rattle.zio_command.specs.Behind.{CameOutBehind, WasScrubbed, WasStopped};
ghost use Rattle.zio_command.specs.Grounds.{CameOutIf, ScrubCameOutOver};
ghost use Rattle.zio_command.specs.Outcomes.{HasLawfulSize};
ghost use Rattle.zio_command.specs.Seen.{sink_by};

use crate::engines::Engines;
use crate::ground::{pool_over, run_on_disks};
use crate::mode::RunMode;
use crate::outcome::RunOutcome;
use crate::tops::TopsFault;
use std::alloc::Global;
use zio_disks::Setting;
use zio_gang::{Bound, Ending};
use zio_outside::{Disk, Sink};
use zio_report::{RunFault, Show};
use zio_script::Script;
use zio_scrub::{blocks_of_a_pool_can_be_scrubbed, scrub_pool};
use zio_suspend::PoolEnd;
use zio_types::Journal;

/// Runs the script in this mode over disks whose sizes were measured, and hands them back.
pub(crate) fn run_in_mode<D: Disk + Drop, E: Engines<D>, O: Sink>(
    alloc: Global,
    script: &Script,
    mode: &RunMode,
    engines: &E,
    disks: Vec<D>,
    out: &mut O,
    journal: &mut Journal,
) -> (RunOutcome, Vec<D>)
    requires can { E.Can }
    requires script { (text : Seq ℕ) × IsScriptOf text script.now }
    requires measured { AllByRecursion HasLawfulSize (map D.bytes disks.items) }
    requires few { length disks.items ≤ 16 }
    requires empty { IsEmptyJournal journal.old }
    ensures outcome { let seen = sink_by O.holds O.faults in
        CameOutIf mode.now.scrubs D.faults D.image mode.now.show script.now disks.items result.1.items (seen out.old)
        (seen out.new) journal.old journal.new result.0 }
    ensures unwritten { (leaf : ℕ) → result.0 ≡ RunOutcome.Unfit leaf → out.new ≡ out.old }
    ensures left { mode.now.scrubs ≡ false → (ending : Ended) → result.0 ≡ RunOutcome.Ended ending →
        E.leaves journal.new.rounds result.1.items }
    ensures same { AreSameDisks D.bytes D.faults D.faults_at_fetch D.home D.image D.sound disks.items result.1.items }
{
    if mode.scrubs {
        run_and_scrub(alloc, script, &mode.show, engines, disks, out, journal)
    } else {
        run_on_disks(alloc, script, &mode.show, engines, disks, out, journal)
    }
}

/// Runs the script, and scrubs the blocks that it leaves bound.
fn run_and_scrub<D: Disk + Drop, E: Engines<D>, O: Sink>(
    alloc: Global,
    script: &Script,
    show: &Show,
    engines: &E,
    disks: Vec<D>,
    out: &mut O,
    journal: &mut Journal,
) -> (RunOutcome, Vec<D>)
    requires can { E.Can }
    requires script { (text : Seq ℕ) × IsScriptOf text script.now }
    requires measured { AllByRecursion HasLawfulSize (map D.bytes disks.items) }
    requires few { length disks.items ≤ 16 }
    requires empty { IsEmptyJournal journal.old }
    ensures outcome { let seen = sink_by O.holds O.faults in
        ScrubCameOutOver D.faults D.image show.now script.now disks.items result.1.items (seen out.old) (seen out.new)
        journal.old journal.new result.0 }
    ensures unwritten { (leaf : ℕ) → result.0 ≡ RunOutcome.Unfit leaf → out.new ≡ out.old }
    ensures same { AreSameDisks D.bytes D.faults D.faults_at_fetch D.home D.image D.sound disks.items result.1.items }
{
    match pool_over(alloc, script, disks.as_slice()) {
        Ok((setting, tops)) => {
            let (ended, disks) = engines.run_pool(
                alloc, script, show, setting, tops, disks, out, journal,
            );
            match ended {
                Ok(end) => scrub_behind(alloc, script, end, disks, out),
                Err(fault) => (RunOutcome::Cut(fault), disks),
            }
        }
        Err(TopsFault::Leaf(leaf)) => (RunOutcome::Unfit(leaf), disks),
        Err(TopsFault::Memory) => (RunOutcome::Cut(RunFault::Memory), disks),
    }
}

/// Scrubs the blocks that a run left bound, unless it ended in a panic.
fn scrub_behind<O: Sink, D: Disk + Drop>(
    alloc: Global,
    script: &Script,
    end: PoolEnd,
    mut disks: Vec<D>,
    out: &mut O,
) -> (RunOutcome, Vec<D>)
    requires script { (text : Seq ℕ) × IsScriptOf text script.now }
    requires measured { AllByRecursion HasLawfulSize (map D.bytes disks.items) }
    requires few { length disks.items ≤ 16 }
    requires pool { (before : Images) → map length before ≡ map D.bytes disks.items →
        AreBlocks IsWholeTree (sizes_of (tops_of script.now before)) end.bound }
    ensures behind { let seen = sink_by O.holds O.faults in
        CameOutBehind D.bytes D.faults D.image script.now end disks.items result.1.items (seen out.old) (seen out.new)
        result.0 }
    ensures same { AreSameDisks D.bytes D.faults D.faults_at_fetch D.home D.image D.sound disks.items result.1.items }
{
    if end.ending == Ending::Panic {
        return (RunOutcome::Ended(Ending::Panic), disks);
    }
    match scrub_bound(
        alloc,
        script,
        end.point,
        end.bound.as_slice(),
        disks.as_mut_slice(),
        out,
    ) {
        Ok(()) => (RunOutcome::Ended(end.ending), disks),
        Err(fault) => (RunOutcome::Cut(fault), disks),
    }
}

/// Scrubs these blocks, over the script's tops at a resume point.
fn scrub_bound<O: Sink, D: Disk>(
    alloc: Global,
    script: &Script,
    point: u32,
    bound: &[Bound],
    disks: &mut [D],
    out: &mut O,
) -> Result<(), RunFault>
    requires script { (text : Seq ℕ) × IsScriptOf text script.now }
    requires measured { AllByRecursion HasLawfulSize (map D.bytes disks.old) }
    requires few { length disks.old ≤ 16 }
    requires pool { (before : Images) → map length before ≡ map D.bytes disks.old →
        AreBlocks IsWholeTree (sizes_of (tops_of script.now before)) bound.now }
    ensures whole { let seen = sink_by O.holds O.faults in OnOk result
        (WasScrubbed D.bytes D.faults D.image script.now point (trees_of bound.now) disks.old disks.new (seen out.old)
        (seen out.new)) }
    ensures stopped { let seen = sink_by O.holds O.faults in IfErr result (λ fault.
        WasStopped D.bytes D.faults D.image script.now point (trees_of bound.now) fault disks.old disks.new
        (seen out.old) (seen out.new)) }
    ensures same { AreSameDisks D.bytes D.faults D.faults_at_fetch D.home D.image D.sound disks.old disks.new }
{
    blocks_of_a_pool_can_be_scrubbed();
    match pool_over(alloc, script, disks) {
        Ok((setting, _)) => {
            let at_end = Setting {
                tops: setting.tops,
                table: setting.table,
                point,
            };
            scrub_pool(alloc, &at_end, disks, bound, out)
        }
        Err(_) => Err(RunFault::Memory),
    }
}
