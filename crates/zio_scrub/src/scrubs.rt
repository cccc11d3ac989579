// A scrub of bound blocks.

ghost use Rattle.std.specs.Prelude.{◌≡◌, ◌<◌, ◌^◌, IfOk, length, map};
ghost use Rattle.std.specs.List.{AllByRecursion};
ghost use Rattle.zio_cksum.specs.Images.{Images};
ghost use Rattle.zio_disks.specs.Disks.{Handles, Tell};
ghost use Rattle.zio_scrub.specs.Ends.{AreMended, Counts, NoRowHolds};
ghost use Rattle.zio_scrub.specs.Pieces.{CanScrub, trees_of};
ghost use Rattle.zio_scrub.specs.Scrubs.{scrub_blocks, spots_in};

use crate::blocks::all_pieces;
use crate::ending::ScrubEnd;
use crate::reads::read_pieces;
use crate::repairs::mend;
use std::alloc::Global;
use zio_disks::{Setting, Stop};
use zio_gang::Bound;
use zio_outside::Disk;

/// Reads every copy of the blocks once, and writes those that aren't good with the bytes of the first good copy of their
/// piece.
///
/// The blocks come in the order of their names, and the disks in that of the leaves. Where the disks tell their images, the
/// images after are those of the definition, and so are the counts, whatever the order in which the leaves were served.
/// Where no row of the fault table holds at the resume point, each copy of a piece that had a good one is good then. A stop
/// for a device comes exactly where the count of a disk's faults rose, else want of memory is the cause; after either the
/// images differ at most where copies of these blocks lie.
pub fn scrub<D: Disk>(
    alloc: Global,
    setting: &Setting,
    disks: &mut [D],
    bound: &[Bound],
) -> Result<ScrubEnd, Stop>
    requires disks { length disks.old < 2 ^ 32 }
    requires can { CanScrub setting.now (map D.bytes disks.old) (trees_of bound.now) }
    ensures told { IfOk result (λ end. (images : Images) → Tell D.image disks.old images →
        let scrubbed = scrub_blocks setting.now (trees_of bound.now) images in
        Counts end (trees_of bound.now) scrubbed × Tell D.image disks.new scrubbed.images) }
    ensures good { IfOk result (λ _. NoRowHolds setting.now → (images : Images) → Tell D.image disks.old images →
        AreMended setting.now (trees_of bound.now) images
        (scrub_blocks setting.now (trees_of bound.now) images).images) }
    ensures all { IfOk result (λ end. (end.blocks ≡ length bound.now)
        × (end.copies ≡ length (spots_in setting.now (trees_of bound.now)))) }
    ensures handled { Handles D.bytes D.faults D.faults_at_fetch D.home D.image D.sound D.went
        (spots_in setting.now (trees_of bound.now)) result disks.old disks.new }
{
    let pieces = all_pieces(alloc, bound)?;
    let reading = read_pieces(alloc, setting, disks, pieces.as_slice())?;
    let mended = mend(alloc, setting, disks, reading.repairs)?;
    Ok(ScrubEnd {
        blocks: bound.len() as u32,
        copies: reading.copies as u64,
        repaired: mended.repaired,
        failed: mended.failed,
        lost: reading.lost as u64,
    })
}
