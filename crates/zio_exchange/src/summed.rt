//! Bytes that were read, with their checksum where it was taken.

ghost use Rattle.std.specs.Prelude.{◌≡◌};
ghost use Rattle.zio_cksum.specs.Sums.{fits, sum_of};

use std::marker::Model;
use zio_blkptr::SumKind;
use zio_cksum::sum;
use zio_types::{Bytes, Errno};

/// A checksum that was taken.
#[derive(Clone, Copy, Debug)]
struct Taken {
    kind: SumKind,
    words: [u64; 4],
}

/// Bytes that were read. Their checksum may have been taken by the node that read them, so that whoever hears of them
/// need not take it. A contract sees the bytes alone.
#[derive(Debug, Drop)]
pub struct Summed {
    bytes: Bytes,
    taken: Option<Taken>,
}

impl Model for Summed {
    ghost use Rattle.std.specs.Prelude.{◌≡◌, ℕ, IfSome, List};
    ghost use Rattle.zio_cksum.specs.Sums.{sum_of};

    ghost Value = { List ℕ };

    ghost view = { λ s. s.bytes };

    ghost invariant = { λ s. IfSome s.taken (λ t. t.words ≡ sum_of t.kind s.bytes) };
}

impl Summed {
    /// No checksum of the bytes was taken.
    pub fn unsummed(bytes: Bytes) -> Summed
        ensures { result ≡ bytes }
    {
        Summed { bytes, taken: None }
    }

    /// The bytes with this checksum, which is theirs.
    pub fn with_sum(self, kind: SumKind, words: [u64; 4]) -> Summed
        requires { words ≡ sum_of kind self }
        ensures { result ≡ self }
    {
        let Summed { bytes, .. } = self;
        let taken = Some(Taken { kind, words });
        Summed { bytes, taken }
    }

    pub fn as_slice(&self) -> &[u8]
        ensures { result.now ≡ self.now }
    {
        self.bytes.as_slice()
    }

    pub fn into_bytes(self) -> Bytes
        ensures { result ≡ self }
    {
        self.bytes
    }

    /// Whether the bytes, however many, have these words as their checksum of this kind.
    pub fn verify(&self, kind: SumKind, words: &[u64; 4]) -> bool
        ensures { result ≡ fits kind words.now self.now }
    {
        match kind {
            SumKind::Off => true,
            SumKind::Fletcher4 | SumKind::Sha256 => self.sum(kind) == *words,
        }
    }

    /// The checksum that was taken, or else it is taken now.
    fn sum(&self, kind: SumKind) -> [u64; 4]
        ensures { result ≡ sum_of kind self.now }
    {
        match self.taken {
            Some(taken) if taken.kind == kind => taken.words,
            _ => sum_of_read(kind, self.bytes.as_slice()),
        }
    }
}

/// The checksum of bytes, however many.
pub fn sum_of_read(kind: SumKind, bytes: &[u8]) -> [u64; 4]
    ensures { result ≡ sum_of kind bytes.now }
{
    match kind {
        // It sums whole words; what stands behind the last one doesn't count.
        SumKind::Fletcher4 => sum(kind, &bytes[..bytes.len() / 4 * 4]),
        SumKind::Off | SumKind::Sha256 => sum(kind, bytes),
    }
}

/// What was read, no matter whether its checksum was taken.
pub fn into_found(read: Result<Summed, Errno>) -> Result<Bytes, Errno>
    ensures { result ≡ read }
{
    match read {
        Ok(summed) => Ok(summed.into_bytes()),
        Err(error) => Err(error),
    }
}

/// What was found, of which no checksum was taken.
pub fn unsummed(found: Result<Bytes, Errno>) -> Result<Summed, Errno>
    ensures { result ≡ found }
{
    match found {
        Ok(bytes) => Ok(Summed::unsummed(bytes)),
        Err(error) => Err(error),
    }
}
