//! What a crash may leave of a disk.

use std::alloc::Global;
use std::test::Fail;
use zio_outside::{MemSyncDisk, Written};

/// Which of the ranges written since the image was stable reached the disk.
#[derive(Clone, Copy)]
pub(crate) enum Reached {
    /// Those whose bits are set, the first range's being the lowest.
    Some(u64),
    /// All, with bytes that nobody wrote.
    Torn,
}

/// A byte that no script of these tests writes.
const TORN: u8 = 0xee;

/// Puts what the disk holds in a range, or bytes that nobody wrote, into what a crash leaves.
fn put_range(left: &mut [u8], held: &[u8], range: Written, torn: bool) -> Result<(), Fail> {
    let at = range.at as usize;
    let end = at.saturating_add(range.len as usize);
    let (Some(to), Some(from)) = (left.get_mut(at..end), held.get(at..end)) else {
        return Err(Fail::from("a range that isn't of the disk"));
    };
    if torn {
        to.fill(TORN);
    } else {
        to.copy_from_slice(from);
    }
    Ok(())
}

/// The image that a crash leaves where these ranges reached the disk, whose first range has this bit.
pub(crate) fn left_by_crash(
    alloc: Global,
    disk: &MemSyncDisk,
    reached: Reached,
    first_bit: u32,
) -> Result<Vec<u8>, Fail> {
    let mut left = disk.stable().to_vec(alloc)?;
    let mut bit = first_bit;
    for range in disk.ranges() {
        match reached {
            Reached::Torn => put_range(left.as_mut_slice(), disk.image(), *range, true)?,
            Reached::Some(bits) => {
                if bits.checked_shr(bit).unwrap_or(0) & 1 == 1 {
                    put_range(left.as_mut_slice(), disk.image(), *range, false)?;
                }
            }
        }
        bit = bit.saturating_add(1);
    }
    Ok(left)
}
