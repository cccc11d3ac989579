ghost use Rattle.std.specs.Prelude.{◌≡◌, ◌+◌, ◌^◌, ◌<◌, ◌≤◌, ◌++◌, length, take, drop, replicate, All, IfSome, IsTrue};
ghost use Rattle.std.specs.List.{flat_map};
ghost use Rattle.zio_blkptr.specs.Pointers.{valid, word};
ghost use Rattle.zio_cksum.specs.Headers.{header_front, header_of, member_bytes};
ghost use Rattle.zio_gang.specs.HeaderFaults.{slot_at};

use thiserror::Error;
use zio_blkptr::{Bp, encode};
use zio_cksum::gang_sum;
use zio_types::Place;

/// Where the filler begins, behind the three pointers.
pub const FILLER_AT: usize = 384;

/// Where the magic stands.
pub const MAGIC_AT: usize = 472;

/// Where the sum stands, at the end.
pub const SUM_AT: usize = 480;

/// What marks the bytes of a gang's header.
pub const MAGIC: u64 = 0x0210_da7a_b10c_7a11;

/// The sizes of a gang's members.
#[derive(Clone, Copy, Debug, PartialEq, Eq)]
pub struct Split {
    /// How many members there are, one to three.
    pub n: u32,
    /// In bytes; zeros from `n` on.
    pub sizes: [u32; 3],
}

/// What a gang header names.
#[derive(Clone, Copy, Debug, PartialEq, Eq)]
pub struct Header {
    /// How many members there are, one to three.
    pub n: u32,
    /// The first once more from `n` on.
    pub members: [Bp; 3],
}

/// Why bytes aren't a gang's header, from the fault that is looked for first.
#[derive(Clone, Copy, Debug, PartialEq, Eq, Error)]
pub enum HeaderFault {
    /// The magic is another.
    #[error("not the magic of a gang header")]
    Magic,
    /// The sum isn't the one for the place and the birth.
    #[error("not the sum for this place and birth")]
    Sum,
    /// A byte of the filler isn't zero.
    #[error("a filler byte that isn't zero")]
    Filler,
    /// The first pointer is absent, or one stands behind an absent one, or isn't spelled as one.
    #[error("not one to three pointers from the front")]
    Member,
    /// The members aren't as many and as large as those of the block.
    #[error("not the members' sizes of this block")]
    Sizes,
}

/// The bytes of the header of these members, made for this place and birth: docs/FORMATS.md, "Gang header". The members
/// are valid, and the place's sector is below 2^48.
pub fn header_encode(members: &[Option<Bp>; 3], place: &Place, birth: u64) -> [u8; 512]
    requires valid { All (λ m. IfSome m (λ bp. IsTrue (valid bp))) members.now }
    requires sector { place.now.sector < 2 ^ 48 }
    ensures { result ≡ header_of members.now place.now birth }
{
    let mut bytes = header_front(members);
    let sum = sum_bytes(gang_sum(&bytes, place, birth));
    put(&mut bytes, SUM_AT, &sum);
    bytes
}

// All but the sum, with zeros in its place.
fn header_front(members: &[Option<Bp>; 3]) -> [u8; 512]
    requires { All (λ m. IfSome m (λ bp. IsTrue (valid bp))) members.now }
    ensures { result ≡ header_front members.now ++ replicate 32 0 }
{
    let [first, second, third] = members;
    let pointers = [
        member_bytes(first),
        member_bytes(second),
        member_bytes(third),
    ];
    let mut bytes = [0; 512];
    put(&mut bytes, 0, pointers.as_flattened());
    put(&mut bytes, MAGIC_AT, &MAGIC.to_le_bytes());
    bytes
}

fn put(bytes: &mut [u8; 512], at: usize, part: &[u8])
    requires { at + length part.now ≤ 512 }
    ensures { bytes.new ≡ take at bytes.old ++ part.now ++ drop (at + length part.now) bytes.old }
{
    bytes[at..at + part.len()].copy_from_slice(part);
}

fn member_bytes(member: &Option<Bp>) -> [u8; 128]
    requires { IfSome member.now (λ bp. IsTrue (valid bp)) }
    ensures { result ≡ member_bytes member.now }
{
    match member {
        None => [0; 128],
        Some(bp) => encode(bp),
    }
}

/// The bytes of the four words of a sum.
pub fn sum_bytes(words: [u64; 4]) -> [u8; 32]
    ensures { result ≡ flat_map word words }
{
    let [a, b, c, d] = words;
    let parts = [
        a.to_le_bytes(),
        b.to_le_bytes(),
        c.to_le_bytes(),
        d.to_le_bytes(),
    ];
    let mut bytes = [0; 32];
    bytes.copy_from_slice(parts.as_flattened());
    bytes
}

/// The bytes of pointer `i`.
pub fn slot_at(bytes: &[u8; 512], i: usize) -> &[u8; 128]
    requires { i < 3 }
    ensures { result.now ≡ slot_at bytes.now i }
{
    let (slots, _) = bytes.as_chunks::<128>();
    &slots[i]
}
