//! The rounds of a script over disks, by the definitions.

ghost use Rattle.std.specs.Prelude.{◌≡◌, ◌≤◌, [], ℕ, List as Seq, length, map};
ghost use Rattle.std.specs.List.{AllByRecursion};
ghost use Rattle.zio_script.specs.Grammar.{IsScriptOf};
ghost use Rattle.zio_gang.specs.Trees.{sizes_of};
ghost use Rattle.zio_command.specs.Grounds.{IsSettingOf};
ghost use Rattle.zio_command.specs.Outcomes.{HasLawfulSize};

use crate::pool::{Pool, pool_over};
use crate::refusal::Refusal;
use std::alloc::Global;
use zio_command::TopsFault;
use zio_gang::Ending;
use zio_outside::{Disk, Sink};
use zio_plain::Plain;
use zio_report::Show;
use zio_script::Script;
use zio_suspend::run_script;
use zio_types::Journal;

/// Runs the script over disks whose sizes were measured, and hands them back.
pub(crate) fn run_on_disks<D: Disk + Drop, O: Sink>(
    alloc: Global,
    script: &Script,
    show: &Show,
    disks: Vec<D>,
    out: &mut O,
) -> (Result<Ending, Refusal>, Vec<D>)
    requires script { (text : Seq ℕ) × IsScriptOf text script.now }
    requires measured { AllByRecursion HasLawfulSize (map D.bytes disks.items) }
    requires few { length disks.items ≤ 16 }
{
    match pool_over(alloc, script, disks.as_slice()) {
        Ok(pool) => run_rounds(alloc, script, show, pool, disks, out),
        Err(TopsFault::Leaf(leaf)) => (Err(Refusal::Image(leaf)), disks),
        Err(TopsFault::Memory) => (Err(Refusal::Memory), disks),
    }
}

/// Runs the script over disks that bear its pool, and hands them back.
fn run_rounds<D: Disk + Drop, O: Sink>(
    alloc: Global,
    script: &Script,
    show: &Show,
    pool: Pool,
    disks: Vec<D>,
    out: &mut O,
) -> (Result<Ending, Refusal>, Vec<D>)
    requires script { (text : Seq ℕ) × IsScriptOf text script.now }
    requires setting { IsSettingOf script.now (map D.bytes disks.items) pool.setting }
    requires space { pool.space ≡
        record { sizes = sizes_of pool.setting.tops; live = []; pending = []; entries = []; spare = 0 } }
    requires few { length disks.items ≤ 16 }
{
    let images = disks.len() as u32;
    let Pool { setting, space } = pool;
    let mut runner = Plain::new(alloc, setting, disks, space);
    let mut journal = Journal::new(alloc);
    let ended = run_script(alloc, script, images, show, &mut runner, out, &mut journal);
    match ended {
        Ok(ending) => (Ok(ending), runner.into_disks()),
        Err(fault) => (Err(Refusal::Cut(fault)), runner.into_disks()),
    }
}
