ghost use Rattle.std.specs.Prelude.{◌≡◌, ◌++◌, ◌∷◌, [], Err, IfOk, OnErr, OnOk};

use std::alloc::Global;
use zio_disks::Stop;
use zio_shared::Shared;
use zio_types::{Bytes, Errno, List, NoMemory};
use zio_vqueue::Op;

/// A queued operation.
#[derive(Drop)]
pub struct QueuedOp {
    pub op: Op,
    /// What it writes; zeros follow to its end. Of a read none.
    pub bytes: Shared,
}

/// What an operation came to.
#[derive(Drop)]
pub struct Answered {
    pub ticket: u64,
    pub error: Option<Errno>,
    /// All bytes of a read; none of a write, or after an error. Reads that were one call of the device share what it read.
    pub bytes: Shared,
}

pub(crate) fn no_bytes(alloc: Global) -> Shared
    ensures { result ≡ [] }
{
    Shared::alone(Bytes::new(alloc))
}

/// A list that has nothing yet, with room for so many items.
pub(crate) fn with_room<T>(alloc: Global, count: usize) -> Result<List<T>, Stop>
    ensures ok { IfOk result (λ items. items ≡ []) }
    ensures err { OnErr result (result ≡ Err Stop.Memory) }
{
    match Vec::with_capacity(alloc, count) {
        Ok(items) => Ok(List::from_vec(items)),
        Err(_) => Err(Stop::Memory),
    }
}

/// Adds an item at the end.
pub(crate) fn add<T: Drop>(items: &mut List<T>, item: T) -> Result<(), Stop>
    ensures ok { OnOk result (items.new ≡ items.old ++ item ∷ []) }
    ensures err { OnErr result (result ≡ Err Stop.Memory) }
{
    match items.push(item) {
        Ok(()) => Ok(()),
        Err(_) => Err(Stop::Memory),
    }
}
