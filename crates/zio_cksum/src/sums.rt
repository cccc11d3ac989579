ghost use Rattle.std.specs.Prelude.{◌≡◌, ◌%◌, ◌^◌, ◌<◌, length};
ghost use Rattle.zio_cksum.specs.Headers.{gang_sum_of};
ghost use Rattle.zio_cksum.specs.Sums.{sum_of, fits, fletcher4, sha256_words, digest_words};

use sha2::{Digest, Sha256};
use zio_blkptr::SumKind;
use zio_types::{Place, SECTOR_SIZE};

/// The checksum of a block's bytes: zeros for `Off`, the four running sums for `Fletcher4`, and for `Sha256`
/// the digest of FIPS 180-4 as four words, each with its highest byte first.
pub fn sum(kind: SumKind, bytes: &[u8]) -> [u64; 4]
    requires { kind ≡ SumKind.Fletcher4 → length bytes.now % 4 ≡ 0 }
    ensures { result ≡ sum_of kind bytes.now }
{
    match kind {
        SumKind::Off => [0; 4],
        SumKind::Fletcher4 => fletcher4_sum(bytes),
        SumKind::Sha256 => sha256_sum(bytes),
    }
}

/// Whether the bytes have these words as their checksum. Without a checksum any bytes do, whatever the words.
pub fn verify(kind: SumKind, bytes: &[u8], words: &[u64; 4]) -> bool
    requires { kind ≡ SumKind.Fletcher4 → length bytes.now % 4 ≡ 0 }
    ensures { result ≡ fits kind words.now bytes.now }
{
    match kind {
        SumKind::Off => true,
        SumKind::Fletcher4 => fletcher4_sum(bytes) == *words,
        SumKind::Sha256 => sha256_sum(bytes) == *words,
    }
}

/// The sum of a gang header made for this place and birth. They stand in the header's last 32 bytes while it
/// is summed, so a header that lies elsewhere or is of another batch doesn't pass for this one.
pub fn gang_sum(header: &[u8; 512], place: &Place, birth: u64) -> [u64; 4]
    requires { place.now.sector < 2 ^ 48 }
    ensures { result ≡ gang_sum_of header.now place.now birth }
{
    let offset = place.sector * u64::from(SECTOR_SIZE);
    let mut hasher = Sha256::new();
    hasher.update(&header[..480]);
    hasher.update(u64::from(place.top).to_le_bytes());
    hasher.update(offset.to_le_bytes());
    hasher.update(birth.to_le_bytes());
    hasher.update(0u64.to_le_bytes());
    digest_words(&hasher.finalize())
}

// Each sum takes in the one before it, the first the next word.
fn fletcher4_sum(bytes: &[u8]) -> [u64; 4]
    requires { length bytes.now % 4 ≡ 0 }
    ensures { result ≡ fletcher4 bytes.now }
{
    let (words, _) = bytes.as_chunks::<4>();
    let mut a = 0u64;
    let mut b = 0u64;
    let mut c = 0u64;
    let mut d = 0u64;
    for word in words {
        a = a.wrapping_add(u64::from(u32::from_le_bytes(*word)));
        b = b.wrapping_add(a);
        c = c.wrapping_add(b);
        d = d.wrapping_add(c);
    }
    [a, b, c, d]
}

#[tactic(auto, unfolding(crate::specs::Sums::sha256_words))]
fn sha256_sum(bytes: &[u8]) -> [u64; 4]
    ensures { result ≡ sha256_words bytes.now }
{
    digest_words(&Sha256::digest(bytes))
}

fn digest_words(digest: &[u8; 32]) -> [u64; 4]
    ensures { result ≡ digest_words digest.now }
{
    let (parts, _) = digest.as_chunks::<8>();
    [
        u64::from_be_bytes(parts[0]),
        u64::from_be_bytes(parts[1]),
        u64::from_be_bytes(parts[2]),
        u64::from_be_bytes(parts[3]),
    ]
}
