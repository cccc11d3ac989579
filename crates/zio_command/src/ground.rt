//! The run of a script over the images that were fetched: its tops over them, and then an engine over these.

ghost use Rattle.std.specs.Prelude.{◌≡◌, ◌≤◌, ◌⊎◌, ℕ, List as Seq, IfOk, IsErrOf, length, map};
ghost use Rattle.std.specs.List.{AllByRecursion};
ghost use Rattle.zio_script.specs.Grammar.{IsScriptOf};
ghost use Rattle.zio_gang.specs.declared.ending.Ending.{Ending};
ghost use Rattle.zio_disks.specs.Disks.{AreSameDisks};
ghost use Rattle.zio_report.specs.Meanings.{IsEmptyJournal};
ghost use Rattle.zio_command.specs.Grounds.{CameOutOver, IsSettingOf};
ghost use Rattle.zio_command.specs.Outcomes.{HasLawfulSize};
ghost use Rattle.zio_command.specs.Seen.{sink_by};
ghost use Rattle.zio_command.specs.Tops.{IsFirstMissing, leaves_of};

use crate::accepted_scripts_have_lawful_pools;
use crate::engines::Engines;
use crate::outcome::RunOutcome;
use crate::tops::{TopsFault, copy_of, sizes_of_disks, tops_over};
use std::alloc::Global;
use zio_disks::Setting;
use zio_faults::FaultTable;
use zio_outside::{Disk, Sink};
use zio_report::{RunFault, Show};
use zio_script::Script;
use zio_types::{Journal, List, Top};

/// Runs the script over disks whose sizes were measured, and hands them back.
pub(crate) fn run_on_disks<D: Disk + Drop, E: Engines<D>, O: Sink>(
    alloc: Global,
    script: &Script,
    show: &Show,
    engines: &E,
    disks: Vec<D>,
    out: &mut O,
    journal: &mut Journal,
) -> (RunOutcome, Vec<D>)
    requires can { E.Can }
    requires script { (text : Seq ℕ) × IsScriptOf text script.now }
    requires measured { AllByRecursion HasLawfulSize (map D.bytes disks.items) }
    requires few { length disks.items ≤ 16 }
    requires empty { IsEmptyJournal journal.old }
    ensures outcome { let seen = sink_by O.holds O.faults in
        CameOutOver D.faults D.image show.now script.now disks.items result.1.items (seen out.old) (seen out.new)
        journal.old journal.new result.0 }
    ensures unwritten { (leaf : ℕ) → result.0 ≡ RunOutcome.Unfit leaf → out.new ≡ out.old }
    ensures left { (ending : Ending) → result.0 ≡ RunOutcome.Ended ending →
        E.leaves journal.new.rounds result.1.items }
    ensures same { AreSameDisks D.bytes D.faults D.faults_at_fetch D.home D.image D.sound disks.items result.1.items }
{
    match pool_over(alloc, script, disks.as_slice()) {
        Ok((setting, tops)) => engines.run(alloc, script, show, setting, tops, disks, out, journal),
        Err(TopsFault::Leaf(leaf)) => (RunOutcome::Unfit(leaf), disks),
        Err(TopsFault::Memory) => (RunOutcome::Cut(RunFault::Memory), disks),
    }
}

/// The script's tops over the disks with its fault rows, and the tops once more.
pub fn pool_over<D: Disk>(
    alloc: Global,
    script: &Script,
    disks: &[D],
) -> Result<(Setting, List<Top>), TopsFault>
    requires script { (text : Seq ℕ) × IsScriptOf text script.now }
    requires measured { AllByRecursion HasLawfulSize (map D.bytes disks.now) }
    ensures setting { IfOk result (λ pool. IsSettingOf script.now (map D.bytes disks.now) pool.0) }
    ensures start { IfOk result (λ pool. pool.0.point ≡ 0) }
    ensures tops { IfOk result (λ pool. pool.1 ≡ pool.0.tops) }
    ensures missing { (leaf : ℕ) → IsErrOf result (TopsFault.Leaf leaf) →
        IsFirstMissing (length disks.now) (leaves_of script.now.tops) leaf }
{
    accepted_scripts_have_lawful_pools();
    let sizes = sizes_of_disks(alloc, disks)?;
    let tops = tops_over(alloc, script, sizes.as_slice())?;
    let same = copy_of(alloc, tops.as_slice())?;
    let mut rows = List::new(alloc);
    rows.extend_from_slice(script.faults.as_slice())?;
    let table = FaultTable { rows };
    Ok((
        Setting {
            tops,
            table,
            point: 0,
        },
        same,
    ))
}
