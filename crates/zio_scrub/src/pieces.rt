// The pieces of blocks.

ghost use Rattle.std.specs.Prelude.{◌≡◌, IsTrue, length};
ghost use Rattle.zio_blkptr.specs.Pointers.{valid};
ghost use Rattle.zio_scrub.specs.Pieces.{seen};

use zio_blkptr::Bp;
use zio_cksum::verify;

/// A piece of a block: the header of a gang, or the bytes of a pointer that is none.
#[derive(Clone, Copy)]
pub(crate) struct Piece<'a> {
    pub pointer: Bp,
    /// Of a header the bytes that are kept of it. Where none are kept no copy is good.
    pub kept: Option<&'a [u8; 512]>,
}

impl Piece<'_> {
    /// How many bytes each copy has.
    pub(crate) fn size(&self) -> u32
        ensures { result ≡ (seen self.now).size }
    {
        if self.pointer.gang {
            512
        } else {
            self.pointer.size
        }
    }

    /// Whether the bytes are those of a good copy.
    pub(crate) fn is_good(&self, bytes: &[u8]) -> bool
        requires valid { IsTrue (valid self.now.pointer) }
        requires whole { length bytes.now ≡ (seen self.now).size }
        ensures { result ≡ (seen self.now).good bytes.now }
    {
        if !self.pointer.gang {
            return verify(self.pointer.sum, bytes, &self.pointer.words);
        }
        match self.kept {
            Some(kept) => bytes == kept.as_slice(),
            None => false,
        }
    }
}
