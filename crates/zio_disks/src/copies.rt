ghost use Rattle.std.specs.Prelude.{◌≡◌, IsTrue, None, length};
ghost use Rattle.zio_blkptr.specs.Pointers.{valid};
ghost use Rattle.zio_cksum.specs.Blocks.{good_claimed, judged};
ghost use Rattle.zio_disks.specs.Copies.{IsOfSize, good_by};
ghost use Rattle.zio_disks.specs.Disks.{found_with};

use zio_blkptr::Bp;
use zio_cksum::verify;
use zio_gang::header_decode;
use zio_types::Errno;

/// What a good copy is.
#[derive(Clone, Copy)]
pub enum GoodCopy<'a> {
    /// Of the body of a block: its sum is that of the pointer.
    Body(&'a Bp),
    /// Of a header that is kept: it equals these bytes. Where none are kept no copy is good.
    Kept(Option<&'a [u8; 512]>),
    /// Of a header that is claimed: it is the header of some members, for the first place, the birth and the size of
    /// this pointer.
    Claimed(&'a Bp),
}

impl GoodCopy<'_> {
    /// Whether the bytes are a good copy. They are as many as the copy has.
    fn is_good(&self, bytes: &[u8]) -> bool
        requires { IsOfSize self.now (length bytes.now) }
        ensures { result ≡ good_by self.now bytes.now }
    {
        match self {
            GoodCopy::Body(bp) => verify(bp.sum, bytes, &bp.words),
            GoodCopy::Kept(Some(header)) => bytes == header.as_slice(),
            GoodCopy::Kept(None) => false,
            GoodCopy::Claimed(bp) => is_claimed(bp, bytes),
        }
    }

    /// What the read of a copy comes to: bytes that aren't good count as a checksum error.
    pub(crate) fn judge(&self, error: Option<Errno>, bytes: &[u8]) -> Option<Errno>
        requires { IsOfSize self.now (length bytes.now) }
        ensures value { found_with result bytes.now ≡ judged (good_by self.now) (found_with error bytes.now) }
        ensures good { result ≡ None → IsTrue (good_by self.now bytes.now) }
    {
        if error.is_some() {
            return error;
        }
        if self.is_good(bytes) {
            None
        } else {
            Some(Errno::Cksum)
        }
    }
}

/// Whether the bytes are the header of some members, for the pointer's first place, birth and size.
fn is_claimed(bp: &Bp, bytes: &[u8]) -> bool
    requires valid { IsTrue (valid bp.now) }
    requires len { length bytes.now ≡ 512 }
    ensures { result ≡ good_claimed bp.now bytes.now }
{
    let Some(header) = bytes.first_chunk::<512>() else {
        return false;
    };
    match header_decode(header, &bp.places[0], bp.birth, bp.size) {
        Ok(_) => true,
        Err(_) => false,
    }
}
