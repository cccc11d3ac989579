//! A run over two images in memory, each round of which is made stable.

ghost use Rattle.std.specs.Prelude.{◌≤◌, IfOk, length, map};
ghost use Rattle.std.specs.List.{AllByRecursion};
ghost use Rattle.zio_outside.specs.MemorySync.{sync_image};
ghost use Rattle.zio_command.specs.Outcomes.{HasLawfulSize};

use std::alloc::Global;
use std::test::Fail;
use zio_command::{IMAGE_LEN_MAX, IMAGE_LEN_MIN, pool_over};
use zio_flush::Flushing;
use zio_graph::{Alone, FirstPicks, Graph};
use zio_outside::{MemSink, MemSyncDisk};
use zio_report::{RunFault, Show};
use zio_script::read_script;
use zio_suspend::{PoolEnd, run_pool};
use zio_types::{Journal, List};

/// The bytes that a sink takes.
const SINK_ROOM: u64 = 16384;

/// For how many calls each of the two disks has room. One more fails.
#[derive(Clone, Copy)]
pub(crate) struct Rooms {
    pub(crate) first: u32,
    pub(crate) second: u32,
}

/// More than any run of these tests has.
pub(crate) const AMPLE: Rooms = Rooms {
    first: 256,
    second: 256,
};

/// What a run came to.
#[derive(Drop)]
pub(crate) struct Ran {
    pub(crate) ended: Result<PoolEnd, RunFault>,
    pub(crate) disks: Vec<MemSyncDisk>,
    pub(crate) sink: MemSink,
    pub(crate) journal: Journal,
}

/// A disk with this stable image.
fn disk_of(alloc: Global, image: &[u8], room: u32) -> Result<MemSyncDisk, Fail>
    ensures { IfOk result (λ disk. HasLawfulSize (length (sync_image disk))) }
{
    let len = image.len() as u64;
    if len < IMAGE_LEN_MIN || len > IMAGE_LEN_MAX {
        return Err(Fail::from("no size of an image"));
    }
    let image = List::from_vec(image.to_vec(alloc)?);
    Ok(MemSyncDisk::new(alloc, image, List::new(alloc), room)?)
}

/// Disks with these stable images.
fn disks_of(
    alloc: Global,
    first: &[u8],
    second: &[u8],
    rooms: Rooms,
) -> Result<Vec<MemSyncDisk>, Fail>
    ensures sizes { IfOk result (λ disks.
        AllByRecursion HasLawfulSize (map (λ disk. length (sync_image disk)) disks.items)) }
    ensures few { IfOk result (λ disks. length disks.items ≤ 16) }
{
    let first = disk_of(alloc, first, rooms.first)?;
    let second = disk_of(alloc, second, rooms.second)?;
    Ok(vec![in alloc; first, second]?)
}

/// Runs the script over disks with these stable images.
pub(crate) fn run(
    alloc: Global,
    text: &[u8],
    first: &[u8],
    second: &[u8],
    rooms: Rooms,
) -> Result<Ran, Fail> {
    let Ok(script) = read_script(alloc, text) else {
        return Err(Fail::from("no script"));
    };
    let disks = disks_of(alloc, first, second, rooms)?;
    let images = disks.len() as u32;
    let Ok((setting, tops)) = pool_over(alloc, &script, disks.as_slice()) else {
        return Err(Fail::from("no pool"));
    };
    let Ok(graph) = Graph::new(alloc, setting, disks, tops, FirstPicks, Alone) else {
        return Err(Fail::from("no memory"));
    };
    let mut engine = Flushing::over(graph);
    let mut sink = MemSink::new(alloc, SINK_ROOM, List::new(alloc))?;
    let mut journal = Journal::new(alloc);
    let show = Show::Report {
        journal: false,
        bytes: false,
    };
    let ended = run_pool(
        alloc,
        &script,
        images,
        &show,
        &mut engine,
        &mut sink,
        &mut journal,
    );
    Ok(Ran {
        ended,
        disks: engine.finish(),
        sink,
        journal,
    })
}
