//! Where images differ.
ghost use Rattle.std.specs.Prelude.{◌≡◌, ◌≤◌, IfSome, MatchOption, length, map};
ghost use Rattle.zio_outside.specs.Memory.{disk_image};
ghost use Rattle.zio_audit.specs.Seen.{IsFirstOther, IsFirstOtherByte};

use zio_outside::MemDisk;
use zio_types::Bytes;

/// The first image that the disks don't have, and its first byte that is another.
pub(crate) fn first_other(disks: &[MemDisk], images: &[Bytes]) -> Option<(usize, usize)>
    ensures other { MatchOption result (images.now ≡ map disk_image disks.now)
        (λ at. IsFirstOther images.now (map disk_image disks.now) at.0 at.1) }
    ensures few { IfSome result (λ at. at.0 ≤ length images.now) }
{
    match (disks.split_first(), images.split_first()) {
        (None, None) => None,
        (Some((disk, disks)), Some((image, images))) => {
            match first_other_byte(image.as_slice(), disk.image()) {
                Some(byte) => Some((0, byte)),
                None => match first_other(disks, images) {
                    Some((at, byte)) => Some((at + 1, byte)),
                    None => None,
                },
            }
        }
        _ => Some((0, 0)),
    }
}

/// The first byte that the two don't both have there.
pub(crate) fn first_other_byte(one: &[u8], other: &[u8]) -> Option<usize>
    ensures other { MatchOption result (one.now ≡ other.now) (IsFirstOtherByte one.now other.now) }
    ensures few { IfSome result (λ at. at ≤ length one.now) }
{
    if one == other {
        return None;
    }
    for at in 0..one.len() {
        let Some(byte) = other.get(at) else {
            return Some(at);
        };
        if one[at] != *byte {
            return Some(at);
        }
    }
    Some(one.len())
}
