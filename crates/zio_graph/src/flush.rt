//! All disks of an engine made stable.

ghost use Rattle.std.specs.Prelude.{◌≡◌, OnErr, OnOk, map};
ghost use Rattle.zio_cksum.specs.Images.{Images};
ghost use Rattle.zio_disks.specs.Disks.{AnyRose, AreSameDisks, Tell};
ghost use Rattle.zio_graph.specs.Graphs.{AreReadyGrounds};
ghost use Rattle.zio_graph.specs.Stable.{AreStable, AreSynced, KeepImages};

use zio_outside::{Failed, SyncDisk};
use zio_turns::Grounds;

/// Makes the images of the disks of an engine stable, one after another, up to the first that fails.
pub(crate) fn flush_grounds<D: SyncDisk + Drop>(grounds: &mut Grounds<D>) -> Result<(), Failed>
    ensures stable { OnOk result ((images : Images) → Tell D.image grounds.old.disks.items images
        → AreStable D.keeps grounds.new.disks.items images) }
    ensures images { KeepImages D.image grounds.old.disks.items grounds.new.disks.items }
    ensures synced { AreSynced D.went D.moment D.left_since D.image grounds.old.disks.items grounds.new.disks.items }
    ensures failed { OnErr result
        (AnyRose (map D.faults grounds.old.disks.items) (map D.faults grounds.new.disks.items)) }
    ensures steady { OnOk result (map D.faults grounds.new.disks.items ≡ map D.faults grounds.old.disks.items) }
    ensures same { AreSameDisks D.bytes D.faults D.faults_at_fetch D.home D.image D.sound grounds.old.disks.items
        grounds.new.disks.items }
    ensures ready { AreReadyGrounds D.bytes grounds.old → AreReadyGrounds D.bytes grounds.new }
    ensures setting { grounds.new.setting ≡ grounds.old.setting }
    ensures desk { grounds.new.desk ≡ grounds.old.desk }
{
    sync_all(&mut grounds.disks)
}

/// Makes the images of the disks stable, one after another, up to the first that fails.
fn sync_all<D: SyncDisk>(disks: &mut [D]) -> Result<(), Failed>
    ensures stable { OnOk result ((images : Images) → Tell D.image disks.old images
        → AreStable D.keeps disks.new images) }
    ensures images { KeepImages D.image disks.old disks.new }
    ensures synced { AreSynced D.went D.moment D.left_since D.image disks.old disks.new }
    ensures failed { OnErr result (AnyRose (map D.faults disks.old) (map D.faults disks.new)) }
    ensures steady { OnOk result (map D.faults disks.new ≡ map D.faults disks.old) }
    ensures same { AreSameDisks D.bytes D.faults D.faults_at_fetch D.home D.image D.sound disks.old disks.new }
{
    let Some((disk, rest)) = disks.split_first_mut() else {
        return Ok(());
    };
    disk.sync()?;
    sync_all(rest)
}
