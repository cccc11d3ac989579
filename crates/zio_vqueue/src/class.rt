ghost use Rattle.std.specs.Prelude.{◌≡◌, ◌<◌};
ghost use Rattle.zio_vqueue.specs.Classes.{class_number, is_sync};

use zio_types::Prio;

/// The classes in the order in which they are served.
pub(crate) const CLASSES: [Prio; 5] = [
    Prio::SyncRead,
    Prio::SyncWrite,
    Prio::AsyncRead,
    Prio::AsyncWrite,
    Prio::Scrub,
];

/// Active groups of each class, in that order, below which it is served before any class that has its minimum.
pub const ACTIVE_MIN: [u32; 5] = [10, 10, 1, 2, 1];

/// The most active groups of each class, in that order.
pub const ACTIVE_MAX: [u32; 5] = [10, 10, 3, 10, 3];

/// A class's place in their order.
pub(crate) fn class_number(prio: Prio) -> u8
    ensures value { result ≡ class_number prio }
    ensures below { result < 5 }
{
    match prio {
        Prio::SyncRead => 0,
        Prio::SyncWrite => 1,
        Prio::AsyncRead => 2,
        Prio::AsyncWrite => 3,
        Prio::Scrub => 4,
    }
}

/// Whether a class's operations are served in the order of putting.
pub(crate) fn is_sync(prio: Prio) -> bool
    ensures { result ≡ is_sync prio }
{
    match prio {
        Prio::SyncRead => true,
        Prio::SyncWrite => true,
        Prio::AsyncRead => false,
        Prio::AsyncWrite => false,
        Prio::Scrub => false,
    }
}
