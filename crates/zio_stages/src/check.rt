// When the bytes of a copy are good.

ghost use Rattle.std.specs.Prelude.{◌≡◌, IsTrue};
ghost use Rattle.zio_blkptr.specs.Pointers.{valid};
ghost use Rattle.zio_cksum.specs.Blocks.{good_body, good_claimed, good_kept, judged};
ghost use Rattle.zio_trace.specs.Tasks.{BodyOf, ClaimedBy, KeptAs, good_by};

use std::marker::Model;
use zio_blkptr::{Bp, SumKind};
use zio_exchange::Summed;
use zio_gang::header_decode;
use zio_types::{Bytes, Errno};

/// What the bytes have to be.
#[derive(Clone, Copy)]
enum Wanted {
    /// The body of a block: their sum is that of the pointer.
    Body(Bp),
    /// A header that is kept: they equal these. Where none are kept no copy is good.
    Kept(Option<[u8; 512]>),
    /// A header that is claimed: the header of some members, for the first place, the birth and the size of this
    /// pointer.
    Claimed(Bp),
}

/// When the bytes of a copy are good.
#[derive(Clone, Copy)]
pub struct Check {
    wanted: Wanted,
}

impl Model for Check {
    ghost use Rattle.zio_trace.specs.Tasks.{Test};

    ghost Value = { Test };

    ghost use Rattle.zio_stages.specs.Checks.{IsOfValid, test_of, wanted_again, wanted_by};

    ghost view = { λ c. test_of c.wanted };

    ghost invariant = { λ c. IsOfValid c.wanted };

    ghost inverse = { λ test. record { wanted = wanted_by test } };

    ghost inverse_ok = { λ c h i. record { wanted = wanted_again c.wanted i } };
}

impl Check {
    /// The body of this pointer's block.
    pub fn body(bp: Bp) -> Check
        ensures { result ≡ BodyOf bp }
    {
        Check {
            wanted: Wanted::Body(bp),
        }
    }

    /// These bytes of a header; none are good where none are kept.
    pub fn kept(header: Option<[u8; 512]>) -> Check
        ensures { result ≡ KeptAs header }
    {
        Check {
            wanted: Wanted::Kept(header),
        }
    }

    /// A header for this gang pointer, which is valid.
    pub fn claimed(bp: Bp) -> Check
        requires { IsTrue (valid bp) }
        ensures { result ≡ ClaimedBy bp }
    {
        Check {
            wanted: Wanted::Claimed(bp),
        }
    }

    /// Of which kind a checksum is taken of what is read.
    pub(crate) fn sum(&self) -> SumKind {
        match &self.wanted {
            Wanted::Body(bp) => bp.sum,
            Wanted::Kept(_) | Wanted::Claimed(_) => SumKind::Off,
        }
    }

    /// Whether what was read, however much, is good.
    fn is_good(&self, read: &Summed) -> bool
        ensures { result ≡ good_by self.now read.now }
    {
        match &self.wanted {
            Wanted::Body(bp) => is_body(bp, read),
            Wanted::Kept(header) => is_kept(header, read.as_slice()),
            Wanted::Claimed(bp) => is_claimed(bp, read.as_slice()),
        }
    }

    /// What a leaf's answer to a read comes to: bytes that aren't good are a checksum error.
    pub(crate) fn judged(&self, found: Result<Summed, Errno>) -> Result<Bytes, Errno>
        ensures { result ≡ judged (good_by self.now) found }
    {
        let read = found?;
        if self.is_good(&read) {
            Ok(read.into_bytes())
        } else {
            Err(Errno::Cksum)
        }
    }
}

/// Whether what was read has the pointer's sum.
fn is_body(bp: &Bp, read: &Summed) -> bool
    ensures { result ≡ good_body bp.now read.now }
{
    read.verify(bp.sum, &bp.words)
}

/// Whether the bytes are those that are kept.
fn is_kept(header: &Option<[u8; 512]>, bytes: &[u8]) -> bool
    ensures { result ≡ good_kept header.now bytes.now }
{
    match header {
        Some(header) => bytes == header.as_slice(),
        None => false,
    }
}

/// Whether the bytes are the header of some members, for the pointer's first place, birth and size.
fn is_claimed(bp: &Bp, bytes: &[u8]) -> bool
    requires { IsTrue (valid bp.now) }
    ensures { result ≡ good_claimed bp.now bytes.now }
{
    let place = bp.places[0];
    if bytes.len() != 512 {
        return false;
    }
    let Some(header) = bytes.first_chunk::<512>() else {
        return false;
    };
    match header_decode(header, &place, bp.birth, bp.size) {
        Ok(_) => true,
        Err(_) => false,
    }
}
