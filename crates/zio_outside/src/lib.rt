//! What a run reads, writes and stores its blocks on: sources, sinks, disks, and shelves of disks; and the gate that
//! its leaf operations pass.
//!
//! It stands on `zio_types`. Read `Disk` first: its contract names the disk's image by a relation that holds where the
//! disk tells it. The objects in memory, as `MemDisk`, tell all, and fail where they are told to. Those over the
//! system, as `FileDisk`, tell nothing. `specs/Outside` has the words of the traits' contracts, `specs/Crash` those of
//! what a crash leaves, `specs/Memory` and `specs/MemoryShelf` what a clause sees of the objects in memory.
#![tactic(auto)]

mod calls;
mod disk;
mod gate;
mod mem_disk;
mod mem_shelf;
mod mem_stream;
mod mem_sync_disk;
mod real_disk;
mod real_stream;
mod shelf;
mod shelf_disk;
mod stream;
mod sync_disk;
mod written;

pub use disk::Disk;
pub use gate::{Gate, MeetGate, NoGate};
pub use mem_disk::MemDisk;
pub use mem_shelf::{DiskBack, MemShelf, MemSyncShelf};
pub use mem_stream::{MemSink, MemSource};
pub use mem_sync_disk::MemSyncDisk;
pub use real_disk::{FileDisk, FileShelf};
pub use real_stream::{StdSink, StdSource};
pub use shelf::{FetchFault, Shelf};
pub use stream::{Failed, Sink, Source};
pub use sync_disk::SyncDisk;
pub use written::Written;
