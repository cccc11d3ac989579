//! What a script runs on, over disks of lawful sizes.

ghost use Rattle.std.specs.Prelude.{◌≡◌, ◌<◌, ◌^◌, [], ℕ, List as Seq, true, IfOk, length, map};
ghost use Rattle.std.specs.List.{AllByRecursion, list_all};
ghost use Rattle.zio_types.specs.Places.{is_lawful_top};
ghost use Rattle.zio_script.specs.Grammar.{IsScriptOf};
ghost use Rattle.zio_gang.specs.Trees.{sizes_of};
ghost use Rattle.zio_command.specs.Grounds.{IsSettingOf};
ghost use Rattle.zio_command.specs.Outcomes.{HasLawfulSize};

use std::alloc::Global;
use zio_command::{TopsFault, accepted_scripts_have_lawful_pools, sizes_of_disks, tops_over};
use zio_disks::Setting;
use zio_faults::FaultTable;
use zio_outside::Disk;
use zio_places::Space;
use zio_script::Script;
use zio_types::{List, NoMemory, Top, TopSize};

/// The tops of a script with its fault rows, and their space.
#[derive(Drop)]
pub(crate) struct Pool {
    pub(crate) setting: Setting,
    pub(crate) space: Space,
}

/// The script's pool over the disks, all of it free.
pub(crate) fn pool_over<D: Disk>(
    alloc: Global,
    script: &Script,
    disks: &[D],
) -> Result<Pool, TopsFault>
    requires script { (text : Seq ℕ) × IsScriptOf text script.now }
    requires measured { AllByRecursion HasLawfulSize (map D.bytes disks.now) }
    ensures setting { IfOk result (λ pool. IsSettingOf script.now (map D.bytes disks.now) pool.setting) }
    ensures space { IfOk result (λ pool. pool.space ≡
        record { sizes = sizes_of pool.setting.tops; live = []; pending = []; entries = []; spare = 0 }) }
{
    accepted_scripts_have_lawful_pools();
    let sizes = sizes_of_disks(alloc, disks)?;
    let tops = tops_over(alloc, script, sizes.as_slice())?;
    let space = space_of(alloc, tops.as_slice())?;
    let mut rows = List::new(alloc);
    rows.extend_from_slice(script.faults.as_slice())?;
    let table = FaultTable { rows };
    let setting = Setting {
        tops,
        table,
        point: 0,
    };
    Ok(Pool { setting, space })
}

/// The space of these tops, all of it free.
fn space_of(alloc: Global, tops: &[Top]) -> Result<Space, NoMemory>
    requires few { length tops.now < 2 ^ 32 }
    requires lawful { list_all is_lawful_top (sizes_of tops.now) ≡ true }
    ensures { IfOk result (λ space. space ≡
        record { sizes = sizes_of tops.now; live = []; pending = []; entries = []; spare = 0 }) }
{
    let mut sizes = Vec::new(alloc);
    for top in tops {
        sizes.push(TopSize {
            sectors: top.sectors,
            unit: top.unit,
        })?;
    }
    Space::new(alloc, sizes.as_slice())
}
