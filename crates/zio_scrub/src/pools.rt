// A scrub of a pool, with its line.

ghost use Rattle.std.specs.Prelude.{◌≡◌, ◌<◌, ◌^◌, IfOk, IsErr, IsErrOf, length, map};
ghost use Rattle.zio_outside.specs.Outside.{Appends, AppendsFront, Rose};
ghost use Rattle.zio_cksum.specs.Images.{Images};
ghost use Rattle.zio_disks.specs.Disks.{Handles, Tell};
ghost use Rattle.zio_scrub.specs.Ends.{AreMended, NoRowHolds};
ghost use Rattle.zio_scrub.specs.Lines.{on_disks, scrub_line};
ghost use Rattle.zio_scrub.specs.Pieces.{CanScrub, trees_of};
ghost use Rattle.zio_scrub.specs.Scrubs.{scrub_blocks, spots_in};

use crate::lines::{fault_of, write_line};
use crate::scrubs::scrub;
use std::alloc::Global;
use zio_disks::Setting;
use zio_gang::Bound;
use zio_outside::{Disk, Sink};
use zio_report::RunFault;

/// Scrubs the blocks, and writes the line of what that came to.
///
/// Where the disks tell their images the line has the numbers of the definition. The sink is left as it was where a disk
/// failed or memory was wanting; where the sink failed, all was scrubbed, and it holds a front of the line.
pub fn scrub_pool<D: Disk, O: Sink>(
    alloc: Global,
    setting: &Setting,
    disks: &mut [D],
    bound: &[Bound],
    out: &mut O,
) -> Result<(), RunFault>
    requires disks { length disks.old < 2 ^ 32 }
    requires can { CanScrub setting.now (map D.bytes disks.old) (trees_of bound.now) }
    ensures told { IfOk result (λ _. (images : Images) → Tell D.image disks.old images →
        let scrubbed = scrub_blocks setting.now (trees_of bound.now) images in
        Tell D.image disks.new scrubbed.images
        × Appends (O.holds out.old) (O.holds out.new) (scrub_line (trees_of bound.now) scrubbed)) }
    ensures good { IfOk result (λ _. NoRowHolds setting.now → (images : Images) → Tell D.image disks.old images →
        AreMended setting.now (trees_of bound.now) images
        (scrub_blocks setting.now (trees_of bound.now) images).images) }
    ensures front { IsErrOf result RunFault.Sink → (images : Images) → Tell D.image disks.old images →
        let scrubbed = scrub_blocks setting.now (trees_of bound.now) images in
        Tell D.image disks.new scrubbed.images
        × AppendsFront (O.holds out.old) (O.holds out.new) (scrub_line (trees_of bound.now) scrubbed) }
    ensures unwritten { ¬ IsErrOf result RunFault.Sink → IsErr result → out.new ≡ out.old }
    ensures steady { ¬ IsErrOf result RunFault.Sink → O.faults out.new ≡ O.faults out.old }
    ensures rose { IsErrOf result RunFault.Sink → Rose (O.faults out.old) (O.faults out.new) }
    ensures handled { Handles D.bytes D.faults D.faults_at_fetch D.home D.image D.sound D.went
        (spots_in setting.now (trees_of bound.now)) (on_disks result) disks.old disks.new }
{
    match scrub(alloc, setting, disks, bound) {
        Ok(end) => write_line(alloc, &end, out),
        Err(stop) => Err(fault_of(stop)),
    }
}
