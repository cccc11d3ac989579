//! The bytes of fetched files.

ghost use Rattle.std.specs.Prelude.{◌≡◌, ◌<◌, ◌≤◌, [], IfOk, length, map, slice_index_or, slice_range};
ghost use Rattle.zio_cksum.specs.Images.{Images, image_of};
ghost use Rattle.zio_disks.specs.Disks.{Handles, Tell};
ghost use Rattle.zio_audit_run.specs.Reads.{TellStill};

use std::alloc::Global;
use zio_disks::Stop;
use zio_outside::Disk;
use zio_types::{Bytes, List};

/// The bytes of the disks of these numbers.
pub(crate) fn read_files<D: Disk>(
    alloc: Global,
    disks: &mut [D],
    first: usize,
    end: usize,
) -> Result<Vec<Bytes>, Stop>
    requires order { first ≤ end }
    requires there { end ≤ length disks.old }
    ensures told { IfOk result (λ files. (images : Images) → Tell D.image disks.old images
        → files.items ≡ slice_range images first end) }
    ensures sizes { IfOk result (λ files. map length files.items ≡ slice_range (map D.bytes disks.old) first end) }
    ensures still { TellStill D.image disks.old disks.new }
    ensures handled { Handles D.bytes D.faults D.faults_at_fetch D.home D.image D.sound D.went [] result disks.old
        disks.new }
{
    let mut files = Vec::new(alloc);
    for k in first..end {
        let bytes = read_file(alloc, disks, k)?;
        if files.push(bytes).is_err() {
            return Err(Stop::Memory);
        }
    }
    Ok(files)
}

/// The bytes of the disk of this number.
fn read_file<D: Disk>(alloc: Global, disks: &mut [D], k: usize) -> Result<Bytes, Stop>
    requires { k < length disks.old }
    ensures told { IfOk result (λ bytes. (images : Images) → Tell D.image disks.old images
        → bytes ≡ image_of images k) }
    ensures size { IfOk result (λ bytes. length bytes ≡ slice_index_or (map D.bytes disks.old) k 0) }
    ensures still { TellStill D.image disks.old disks.new }
    ensures handled { Handles D.bytes D.faults D.faults_at_fetch D.home D.image D.sound D.went [] result disks.old
        disks.new }
{
    let len = disks[k].size() as usize;
    let mut bytes = match vec![in alloc; 0; len] {
        Ok(bytes) => bytes,
        Err(_) => return Err(Stop::Memory),
    };
    match disks[k].read_at(0, &mut bytes) {
        Ok(()) => Ok(List::from_vec(bytes)),
        Err(_) => Err(Stop::Device),
    }
}
