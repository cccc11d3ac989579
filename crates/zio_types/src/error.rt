ghost use Rattle.std.specs.Prelude.{◌≡◌};
ghost use Rattle.zio_types.specs.Errors.{rank, worst_error};

use std::alloc::{AllocError, AllocFailed};
use thiserror::Error;

/// What a request can fail with, from the mildest to the worst.
#[derive(Clone, Copy, Debug, PartialEq, Eq)]
pub enum Errno {
    /// No such device.
    Nxio,
    /// A checksum that doesn't fit.
    Cksum,
    /// A device's error.
    Io,
    /// No space left.
    Nospc,
    /// A bad pointer or place.
    Inval,
    /// A block or place that is there already.
    Exist,
    /// A block that isn't there.
    Noent,
}

/// Want of memory.
#[derive(Clone, Copy, Debug, PartialEq, Eq, Error)]
#[error("no memory")]
pub struct NoMemory;

impl From<AllocError> for NoMemory {
    fn from(_refused: AllocError) -> NoMemory {
        NoMemory
    }
}

impl<T: Drop> From<AllocFailed<T>> for NoMemory {
    fn from(_refused: AllocFailed<T>) -> NoMemory {
        NoMemory
    }
}

/// The worse of two errors: the one of the greater rank.
pub fn worst(a: Option<Errno>, b: Option<Errno>) -> Option<Errno>
    ensures { result ≡ worst_error a b }
{
    if rank(a) < rank(b) { b } else { a }
}

fn rank(error: Option<Errno>) -> u32
    ensures { result ≡ rank error }
{
    match error {
        None => 0,
        Some(Errno::Nxio) => 1,
        Some(Errno::Cksum) => 2,
        Some(Errno::Io) => 3,
        Some(Errno::Nospc) => 4,
        Some(Errno::Inval) => 5,
        Some(Errno::Exist) => 6,
        Some(Errno::Noent) => 7,
    }
}
