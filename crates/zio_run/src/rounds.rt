//! The rounds of a script on an engine over disks that bear its tops.

ghost use Rattle.std.specs.Prelude.{◌≡◌, ◌≤◌, [], ℕ, false, List as Seq, IfErr, IfOk, OnOk, length, map};
ghost use Rattle.zio_script.specs.Grammar.{IsScriptOf};
ghost use Rattle.zio_cksum.specs.Images.{Images};
ghost use Rattle.zio_gang.specs.Trees.{sizes_of};
ghost use Rattle.zio_disks.specs.Disks.{AreSameDisks, Tell};
ghost use Rattle.zio_disks.specs.Whole.{IsWholeTree};
ghost use Rattle.zio_report.specs.Meanings.{IsEmptyJournal, course_of};
ghost use Rattle.zio_suspend.specs.Pools.{AreBlocks, AreBoundIn};
ghost use Rattle.zio_command.specs.Grounds.{HasRunOver, IsSettingOf, WasCutOver};
ghost use Rattle.zio_command.specs.Seen.{sink_by};

use crate::engine::Engine;
use std::alloc::Global;
use zio_gang::Ending;
use zio_outside::{Disk, Sink};
use zio_report::{RunFault, Show};
use zio_script::Script;
use zio_suspend::{PoolEnd, run_pool, run_script};
use zio_types::Journal;

/// Runs the script on an engine that has run nothing yet, over so many images, and hands the disks back.
pub(crate) fn run_rounds<E: Engine<D>, O: Sink, D: Disk + Drop>(
    alloc: Global,
    script: &Script,
    show: &Show,
    images: u32,
    mut engine: E,
    out: &mut O,
    journal: &mut Journal,
) -> (Result<Ending, RunFault>, Vec<D>)
    requires can { E.Can engine }
    requires script { (text : Seq ℕ) × IsScriptOf text script.now }
    requires setting { IsSettingOf script.now (map D.bytes (E.seen engine).disks) (E.seen engine).setting }
    requires live { (E.seen engine).live ≡ [] }
    requires last { (E.seen engine).last ≡ 0 }
    requires runs { (E.seen engine).stopped ≡ false }
    requires images { images ≡ length (E.seen engine).disks }
    requires few { images ≤ 16 }
    requires empty { IsEmptyJournal journal.old }
    ensures whole { let seen = sink_by O.holds O.faults in IfOk result.0 (λ ending.
        HasRunOver D.faults D.image show.now script.now ending (E.seen engine).disks result.1.items (seen out.old)
        (seen out.new) journal.new) }
    ensures cut { let seen = sink_by O.holds O.faults in IfErr result.0 (λ fault.
        WasCutOver D.faults D.image show.now script.now fault (E.seen engine).disks result.1.items (seen out.old)
        (seen out.new) journal.new) }
    ensures left { OnOk result.0 (E.leaves journal.new.rounds result.1.items) }
    ensures same { AreSameDisks D.bytes D.faults D.faults_at_fetch D.home D.image D.sound (E.seen engine).disks result.1.items }
{
    let ended = run_script(alloc, script, images, show, &mut engine, out, journal);
    (ended, engine.into_disks())
}

/// The same, and gives the blocks that the script leaves bound.
pub(crate) fn run_pool_rounds<E: Engine<D>, O: Sink, D: Disk + Drop>(
    alloc: Global,
    script: &Script,
    show: &Show,
    images: u32,
    mut engine: E,
    out: &mut O,
    journal: &mut Journal,
) -> (Result<PoolEnd, RunFault>, Vec<D>)
    requires can { E.Can engine }
    requires script { (text : Seq ℕ) × IsScriptOf text script.now }
    requires setting { IsSettingOf script.now (map D.bytes (E.seen engine).disks) (E.seen engine).setting }
    requires live { (E.seen engine).live ≡ [] }
    requires last { (E.seen engine).last ≡ 0 }
    requires runs { (E.seen engine).stopped ≡ false }
    requires images { images ≡ length (E.seen engine).disks }
    requires few { images ≤ 16 }
    requires empty { IsEmptyJournal journal.old }
    ensures whole { let seen = sink_by O.holds O.faults in IfOk result.0 (λ end.
        HasRunOver D.faults D.image show.now script.now end.ending (E.seen engine).disks result.1.items (seen out.old)
        (seen out.new) journal.new) }
    ensures bound { IfOk result.0 (λ end. (before : Images) → Tell D.image (E.seen engine).disks before →
        AreBoundIn (course_of script.now before journal.new).state end.point end.bound) }
    ensures placed { IfOk result.0 (λ end. AreBlocks IsWholeTree (sizes_of (E.seen engine).setting.tops) end.bound) }
    ensures cut { let seen = sink_by O.holds O.faults in IfErr result.0 (λ fault.
        WasCutOver D.faults D.image show.now script.now fault (E.seen engine).disks result.1.items (seen out.old)
        (seen out.new) journal.new) }
    ensures same { AreSameDisks D.bytes D.faults D.faults_at_fetch D.home D.image D.sound (E.seen engine).disks result.1.items }
{
    let ended = run_pool(alloc, script, images, show, &mut engine, out, journal);
    (ended, engine.into_disks())
}
