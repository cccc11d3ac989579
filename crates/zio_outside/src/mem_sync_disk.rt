ghost use Rattle.std.specs.Prelude.{◌≡◌, ◌<◌, ◌≤◌, ◌+◌, ◌-◌, ◌++◌, ◌⊎◌, ◌↔◌, ℕ, List, [], ◌∷◌, length};
ghost use Rattle.std.specs.Prelude.{vec_len, vec_capacity, None, Some, IfOk, IsErr, IsOk, IsTrue, OnErr, OnOk};
ghost use Rattle.std.proofs.Common.{◌∙◌, ap, refl, sym};
ghost use Rattle.std.specs.List.{Contains};
ghost use Rattle.std.specs.Option.{option_copied};
ghost use Rattle.zio_outside.specs.Crash.{IsCrash, written_of};
ghost use Rattle.zio_outside.specs.Memory.{disk_image, told};
ghost use Rattle.zio_outside.specs.Outside.{CountsFault, ReadsAt, TearsAt, WritesAt, counted};
ghost use Rattle.zio_outside.specs.Replay.{replayed};

use crate::shelf_disk::ShelfDisk;
use crate::{Disk, Failed, MemDisk, SyncDisk, Written};
use std::alloc::Global;
use std::mem;
use zio_types::{Bytes, List, NoMemory, Text};

/// A call within the room.
#[derive(Clone, Copy, Debug)]
enum Recorded {
    /// A read, also one that failed.
    Read,
    /// A write of this range, also one that failed.
    Write(Written),
    /// A sync that made the image stable.
    Sync,
    FailedSync,
}

/// A disk in memory with a volatile cache, which tells its image and what it keeps through a crash.
///
/// What it kept at a past moment is told by a replay of its calls, which it records for this. It has its last two
/// stable images, so that a clause can speak of a crash in a sync and in the writes before it. It is never `sound`,
/// since its room ends.
#[derive(Debug, Drop)]
pub struct MemSyncDisk {
    disk: MemDisk,
    stable: Vec<u8>,
    before: Vec<u8>,
    ranges: Vec<Written>,
    log: Vec<Recorded>,
    room: usize,
    ghost within: { vec_len log ≤ room },
    ghost fewer: { vec_len ranges ≤ vec_len log },
    ghost log_taken: { room ≤ vec_capacity log },
    ghost ranges_taken: { room ≤ vec_capacity ranges },
    ghost replays: { ranges.items ≡ replayed [] log.items },
    ghost kept: { IsCrash stable.items ranges.items (disk_image disk) },
    ghost before_size: { length before.items ≡ length stable.items },
}

/// Adds an item for which room was taken.
fn add<T: Drop>(items: &mut Vec<T>, item: T)
    requires { vec_len items.old < vec_capacity items.old }
    ensures items { items.new.items ≡ items.old.items ++ item ∷ [] }
    ensures len { vec_len items.new ≡ vec_len items.old + 1 }
    ensures capacity { vec_capacity items.old ≤ vec_capacity items.new }
{
    match items.push(item) {
        Ok(()) => {}
        Err(_) => unreachable!(),
    }
}

impl MemSyncDisk {
    ghost use Rattle.zio_outside.specs.MemorySync.{sync_image, sync_stable, sync_ranges, sync_left, sync_faults};
    ghost use Rattle.zio_outside.specs.MemorySync.{sync_faults_at_fetch, sync_home, sync_fails, sync_calls};
    ghost use Rattle.zio_outside.specs.MemorySync.{sync_reads, sync_writes};

    /// A disk with this image, of its size and stable, without a fault and without a home. Its reads, writes and syncs
    /// with the numbers in `fails`, counted together from 0, fail, and so does each call after the first `room`.
    pub fn new(
        alloc: Global,
        image: Bytes,
        fails: List<u64>,
        room: u32,
    ) -> Result<MemSyncDisk, NoMemory>
        ensures image { IfOk result (λ d. sync_image d ≡ image) }
        ensures stable { IfOk result (λ d. sync_stable d ≡ image) }
        ensures ranges { IfOk result (λ d. sync_ranges d ≡ []) }
        ensures left { IfOk result (λ d. sync_left d ≡ room) }
        ensures faults { IfOk result (λ d. sync_faults d ≡ 0) }
        ensures at_fetch { IfOk result (λ d. sync_faults_at_fetch d ≡ 0) }
        ensures home { IfOk result (λ d. sync_home d ≡ None) }
        ensures fails { IfOk result (λ d. sync_fails d ≡ fails) }
        ensures calls { IfOk result (λ d. sync_calls d ≡ 0) }
        ensures reads { IfOk result (λ d. sync_reads d ≡ 0) }
        ensures writes { IfOk result (λ d. sync_writes d ≡ 0) }
    {
        let room = room as usize;
        let stable = image.as_slice().to_vec(alloc)?;
        let before = image.as_slice().to_vec(alloc)?;
        Ok(MemSyncDisk {
            disk: MemDisk::new(image, fails),
            stable,
            before,
            ranges: Vec::with_capacity(alloc, room)?,
            log: Vec::with_capacity(alloc, room)?,
            room,
        })
    }

    /// The bytes that it holds.
    pub fn image(&self) -> &[u8]
        ensures { result.now ≡ sync_image self.now }
    {
        self.disk.image()
    }

    /// The bytes that a crash leaves outside the ranges.
    pub fn stable(&self) -> &[u8]
        ensures { result.now ≡ sync_stable self.now }
    {
        self.stable.as_slice()
    }

    /// The ranges written since the image was stable, in the order of writing.
    pub fn ranges(&self) -> &[Written]
        ensures { result.now ≡ sync_ranges self.now }
    {
        self.ranges.as_slice()
    }

    /// How many calls of `read_at` were made, those that failed among them.
    pub fn reads(&self) -> u64
        ensures { result ≡ sync_reads self.now }
    {
        self.disk.reads()
    }

    /// How many calls of `write_at` were made, those that failed among them.
    pub fn writes(&self) -> u64
        ensures { result ≡ sync_writes self.now }
    {
        self.disk.writes()
    }

    fn is_full(&self) -> bool
        ensures { IsTrue result ↔ (sync_left self.now ≡ 0) }
    {
        self.log.len() >= self.room
    }
}

impl Disk for MemSyncDisk {
    ghost use Rattle.zio_outside.specs.MemorySync.{sync_image, sync_stable, sync_ranges, sync_left, sync_faults};
    ghost use Rattle.zio_outside.specs.MemorySync.{sync_faults_at_fetch, sync_home, sync_fails, sync_calls};
    ghost use Rattle.zio_outside.specs.MemorySync.{sync_reads, sync_writes, sync_moment};
    ghost use Rattle.zio_outside.specs.MemorySync.{SyncKeeps, SyncLeftSince, SyncWent};
    ghost use Rattle.zio_outside.specs.MemorySyncLaws.{SyncWent-itself, SyncWent-then, SyncWent-means};
    ghost use Rattle.zio_outside.specs.MemorySyncLaws.{SyncKeeps-one, SyncKeeps-image, SyncKeeps-now};

    ghost faults = { sync_faults };

    ghost faults_at_fetch = { sync_faults_at_fetch };

    ghost bytes = { λ d. length (sync_image d) };

    ghost image = { λ d. told (sync_image d) };

    ghost home = { λ d name. sync_home d ≡ Some name };

    ghost sound = { λ _. ⊥ };

    ghost went = { SyncWent };

    ghost keeps = { SyncKeeps };

    ghost moment = { sync_moment };

    ghost left_since = { SyncLeftSince };

    fn size(&self) -> u64 {
        self.disk.size()
    }

    /// Reads the bytes from `at` on into the buffer. A call that is listed, and one past the room, raises the count of
    /// faults by one and leaves the buffer.
    fn read_at(&mut self, at: u64, buffer: &mut [u8]) -> Result<(), Failed>
        requires { at + length buffer.old ≤ length (sync_image self.old) }
        ensures count { CountsFault result (sync_faults self.old) (sync_faults self.new) }
        ensures read { OnOk result (ReadsAt (told (sync_image self.old)) at buffer.new) }
        ensures image { sync_image self.new ≡ sync_image self.old }
        ensures home { sync_home self.new ≡ sync_home self.old }
        ensures bytes { length (sync_image self.new) ≡ length (sync_image self.old) }
        ensures at_fetch { sync_faults_at_fetch self.new ≡ sync_faults_at_fetch self.old }
        ensures went { SyncWent [] self.old self.new }

        // Beside what each disk ensures: which calls fail, what they leave, and how often it was called.
        ensures cause { IsErr result ↔
            ((sync_left self.old ≡ 0) ⊎ Contains (sync_fails self.old) (sync_calls self.old)) }
        ensures steady { sync_fails self.old ≡ [] → 0 < sync_left self.old → IsOk result }
        ensures raised { OnErr result (sync_faults self.new ≡ counted (sync_faults self.old)) }
        ensures kept { OnErr result (buffer.new ≡ buffer.old) }
        ensures stable { sync_stable self.new ≡ sync_stable self.old }
        ensures ranges { sync_ranges self.new ≡ sync_ranges self.old }
        ensures left { sync_left self.new ≡ sync_left self.old - 1 }
        ensures fails { sync_fails self.new ≡ sync_fails self.old }
        ensures calls { 0 < sync_left self.old → sync_calls self.new ≡ counted (sync_calls self.old) }
        ensures past_calls { sync_left self.old ≡ 0 → sync_calls self.new ≡ sync_calls self.old }
        ensures reads { sync_reads self.new ≡ counted (sync_reads self.old) }
        ensures writes { sync_writes self.new ≡ sync_writes self.old }
    {
        if self.is_full() {
            return self.disk.refuse_read();
        }
        add(&mut self.log, Recorded::Read);
        self.disk.read_at(at, buffer)
    }

    /// Writes the piece over the bytes from `at` on, and adds its range. A call that is listed raises the count of
    /// faults by one and leaves the image, and adds its range too. One past the room raises the count and leaves both.
    fn write_at(&mut self, at: u64, piece: &[u8]) -> Result<(), Failed>
        requires { at + length piece.now ≤ length (sync_image self.old) }
        ensures count { CountsFault result (sync_faults self.old) (sync_faults self.new) }
        ensures ok { OnOk result
            (WritesAt (told (sync_image self.old)) (told (sync_image self.new)) at piece.now) }
        ensures failed { OnErr result
            (TearsAt (told (sync_image self.old)) (told (sync_image self.new)) at piece.now) }
        ensures home { sync_home self.new ≡ sync_home self.old }
        ensures bytes { length (sync_image self.new) ≡ length (sync_image self.old) }
        ensures at_fetch { sync_faults_at_fetch self.new ≡ sync_faults_at_fetch self.old }
        ensures went { SyncWent (written_of at (length piece.now)) self.old self.new }

        // Beside what each disk ensures: which calls fail, what they leave, and how often it was called.
        ensures cause { IsErr result ↔
            ((sync_left self.old ≡ 0) ⊎ Contains (sync_fails self.old) (sync_calls self.old)) }
        ensures steady { sync_fails self.old ≡ [] → 0 < sync_left self.old → IsOk result }
        ensures raised { OnErr result (sync_faults self.new ≡ counted (sync_faults self.old)) }
        ensures kept { OnErr result (sync_image self.new ≡ sync_image self.old) }
        ensures stable { sync_stable self.new ≡ sync_stable self.old }
        ensures ranges { 0 < sync_left self.old →
            sync_ranges self.new ≡ sync_ranges self.old ++ written_of at (length piece.now) }
        ensures past { sync_left self.old ≡ 0 → sync_ranges self.new ≡ sync_ranges self.old }
        ensures left { sync_left self.new ≡ sync_left self.old - 1 }
        ensures fails { sync_fails self.new ≡ sync_fails self.old }
        ensures calls { 0 < sync_left self.old → sync_calls self.new ≡ counted (sync_calls self.old) }
        ensures past_calls { sync_left self.old ≡ 0 → sync_calls self.new ≡ sync_calls self.old }
        ensures reads { sync_reads self.new ≡ sync_reads self.old }
        ensures writes { sync_writes self.new ≡ counted (sync_writes self.old) }
    {
        if self.is_full() {
            return self.disk.refuse_write();
        }
        let range = Written {
            at,
            len: piece.len() as u64,
        };
        add(&mut self.log, Recorded::Write(range));
        add(&mut self.ranges, range);
        self.disk.write_at(at, piece)
    }

    ghost has_size = { λ d content told. ap length told };

    ghost one_image = { λ d a b told other. told ∙ sym other };

    ghost counts = { λ d. d.disk.calls.in_range };

    ghost sound_counts = { λ d sound. absurd sound };

    ghost went_itself = { SyncWent-itself };

    ghost went_then = { SyncWent-then };

    ghost went_means = { SyncWent-means };

    ghost one_kept = { SyncKeeps-one };

    ghost kept_image = { SyncKeeps-image };

    ghost counts_now = { SyncKeeps-now };
}

impl SyncDisk for MemSyncDisk {
    ghost use Rattle.zio_outside.specs.MemorySync.{sync_image, sync_stable, sync_ranges, sync_left, sync_faults};
    ghost use Rattle.zio_outside.specs.MemorySync.{sync_faults_at_fetch, sync_home, sync_fails, sync_calls};
    ghost use Rattle.zio_outside.specs.MemorySync.{sync_reads, sync_writes, sync_moment};
    ghost use Rattle.zio_outside.specs.MemorySync.{SyncLeftSince, SyncWent};

    /// Makes the image stable, so that no range is left. A call that is listed, and one past the room, raises the count
    /// of faults by one and leaves the stable image and the ranges.
    fn sync(&mut self) -> Result<(), Failed>
        ensures count { CountsFault result (sync_faults self.old) (sync_faults self.new) }
        ensures stable { OnOk result (sync_stable self.new ≡ sync_image self.old) }
        ensures ranges { OnOk result (sync_ranges self.new ≡ []) }
        ensures failed { OnErr result ((sync_stable self.new ≡ sync_stable self.old)
            × (sync_ranges self.new ≡ sync_ranges self.old)) }
        ensures image { sync_image self.new ≡ sync_image self.old }
        ensures home { sync_home self.new ≡ sync_home self.old }
        ensures at_fetch { sync_faults_at_fetch self.new ≡ sync_faults_at_fetch self.old }
        ensures later { sync_moment self.old ≤ sync_moment self.new }
        ensures crash { (asked : List Written) (earlier : MemSyncDisk) (content : List ℕ) →
            SyncWent asked earlier self.old → SyncLeftSince self.new (sync_moment earlier) content →
            SyncLeftSince self.old (sync_moment earlier) content ⊎ told (sync_image self.old) content }
        ensures earlier { (t : ℕ) (content : List ℕ) →
            SyncLeftSince self.old t content → SyncLeftSince self.new t content }

        // Beside what each such disk ensures: which calls fail, and how often it was called.
        ensures cause { IsErr result ↔
            ((sync_left self.old ≡ 0) ⊎ Contains (sync_fails self.old) (sync_calls self.old)) }
        ensures steady { sync_fails self.old ≡ [] → 0 < sync_left self.old → IsOk result }
        ensures raised { OnErr result (sync_faults self.new ≡ counted (sync_faults self.old)) }
        ensures left { sync_left self.new ≡ sync_left self.old - 1 }
        ensures fails { sync_fails self.new ≡ sync_fails self.old }
        ensures calls { 0 < sync_left self.old → sync_calls self.new ≡ counted (sync_calls self.old) }
        ensures past_calls { sync_left self.old ≡ 0 → sync_calls self.new ≡ sync_calls self.old }
        ensures reads { sync_reads self.new ≡ sync_reads self.old }
        ensures writes { sync_writes self.new ≡ sync_writes self.old }
    {
        if self.is_full() {
            return self.disk.refuse();
        }
        if self.disk.begin().is_err() {
            add(&mut self.log, Recorded::FailedSync);
            return Err(Failed);
        }
        add(&mut self.log, Recorded::Sync);
        mem::swap(&mut self.stable, &mut self.before);
        self.stable.copy_from_slice(self.disk.image());
        self.ranges.clear();
        Ok(())
    }

    ghost tells_kept = { λ d content told. (sync_stable d, sync_ranges d, (refl, refl)) };
}

impl ShelfDisk for MemSyncDisk {
    ghost use Rattle.zio_outside.specs.MemorySync.{sync_image, sync_home, SyncHandedOut};

    ghost content = { sync_image };

    ghost home_name = { sync_home };

    ghost handed_out = { SyncHandedOut };

    fn go_out(&mut self, name: Text) {
        self.disk.go_out(name);
    }

    fn home(&self) -> Option<&str> {
        self.disk.home()
    }

    fn has_failed(&self) -> bool {
        self.disk.has_failed()
    }

    ghost tells_image = { λ d bytes. (λ h. h, λ h. h) };

    ghost tells_home = { λ d name. (λ h. h, λ h. h) };

    ghost sound_unfailed = { λ d sound failed. sound };
}
