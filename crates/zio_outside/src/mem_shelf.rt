ghost use Rattle.std.specs.Prelude.{◌≡◌, ◌≢◌, ◌<◌, ◌≤◌, ◌⊎◌, ◌↔◌, ℕ, List, [], length, position, Option, None, Some};
ghost use Rattle.std.specs.Prelude.{IfErr, IfNone, IfOk, IfSome, IsErrOf, IsSome, OnErr, OnOk};
ghost use Rattle.std.specs.List.{Contains};
ghost use Rattle.std.specs.Option.{option_and_then, option_copied};
ghost use Rattle.zio_outside.specs.Crash.{KeptComesHome, KeptGoesOut, KeptStays};
ghost use Rattle.zio_outside.specs.Outside.{ComesHome, GoesOut, Raised, StaysHome, count_max, counted};
ghost use Rattle.zio_outside.specs.declared.written.Written.{Written};

use crate::calls::Calls;
use crate::shelf_disk::ShelfDisk;
use crate::{FetchFault, MemDisk, MemSyncDisk, Shelf};
use std::alloc::Global;
use zio_types::{List, Text};

/// A name under which a disk was put, with the disk where it is at home.
#[derive(Debug, Drop)]
struct Slot<D> {
    name: Text,
    disk: Option<D>,
}

/// The disk of a `put` that memory was refused to.
#[derive(Debug, Drop)]
pub struct DiskBack<D = MemDisk> {
    pub disk: D,
}

/// A shelf of disks in memory, which tells their images, and what they keep where they tell it.
///
/// Its names are few, at most as many as a pool has leaves, so each call scans them.
#[derive(Debug, Drop)]
pub struct MemShelf<D = MemDisk> {
    alloc: Global,
    slots: Vec<Slot<D>>,
    calls: Calls,
    disk_faults: u64,
    fetches: u64,
    returns: u64,
    last_size: u64,
    ghost disk_faults_in_range: { disk_faults ≤ count_max },
    ghost fetches_in_range: { fetches ≤ count_max },
    ghost returns_in_range: { returns ≤ count_max },
}

/// A shelf of disks in memory with a volatile cache.
pub type MemSyncShelf = MemShelf<MemSyncDisk>;

impl<D> Slot<D> {
    ghost use Rattle.zio_outside.specs.MemoryShelf.{is_named};

    fn is_named(&self, name: &str) -> bool
        ensures { result ≡ is_named name.now self.now }
    {
        self.name.as_str() == name
    }
}

impl<D: ShelfDisk> MemShelf<D> {
    ghost use Rattle.zio_outside.specs.MemoryShelf.{ChangesOnly, shelf_slot, at_home, out_of, is_named};
    ghost use Rattle.zio_outside.specs.MemoryShelf.{shelf_faults, shelf_disk_faults, shelf_fetches, shelf_returns};
    ghost use Rattle.zio_outside.specs.MemoryShelf.{shelf_last_size, shelf_fails, shelf_calls};

    /// A shelf without disks and without a fault. The fetches with the numbers in `fails`, counted from 0, fail.
    pub fn new(alloc: Global, fails: List<u64>) -> MemShelf<D>
        ensures slots { (name : List ℕ) → shelf_slot result name ≡ None }
        ensures faults { shelf_faults result ≡ 0 }
        ensures disk_faults { shelf_disk_faults result ≡ 0 }
        ensures fetches { shelf_fetches result ≡ 0 }
        ensures returns { shelf_returns result ≡ 0 }
        ensures fails { shelf_fails result ≡ fails }
        ensures calls { shelf_calls result ≡ 0 }
    {
        MemShelf {
            alloc,
            slots: Vec::new(alloc),
            calls: Calls::new(fails),
            disk_faults: 0,
            fetches: 0,
            returns: 0,
            last_size: 0,
        }
    }

    /// Puts a disk under a name under which none was put. Where memory is refused the disk comes back, the name is
    /// dropped and the shelf has what it had.
    pub fn put(&mut self, name: Text, disk: D) -> Result<(), DiskBack<D>>
        requires { shelf_slot self.old name ≡ None }
        ensures ok { OnOk result (ChangesOnly (shelf_slot self.old) (shelf_slot self.new) name (Some disk)) }
        ensures err { OnErr result
            ((other : List ℕ) → shelf_slot self.new other ≡ shelf_slot self.old other) }
        ensures back { IfErr result (λ e. e.disk ≡ disk) }
        ensures faults { shelf_faults self.new ≡ shelf_faults self.old }
        ensures disk_faults { shelf_disk_faults self.new ≡ shelf_disk_faults self.old }
        ensures fetches { shelf_fetches self.new ≡ shelf_fetches self.old }
        ensures returns { shelf_returns self.new ≡ shelf_returns self.old }
        ensures fails { shelf_fails self.new ≡ shelf_fails self.old }
        ensures calls { shelf_calls self.new ≡ shelf_calls self.old }
    {
        if self.slots.reserve(1).is_err() {
            return Err(DiskBack { disk });
        }
        let disk = Some(disk);
        match self.slots.push(Slot { name, disk }) {
            Ok(()) => Ok(()),
            Err(_) => unreachable!(),
        }
    }

    /// The disk of this name, none exactly where no disk of this name is at home.
    pub fn disk(&self, name: &str) -> Option<&D>
        ensures { option_copied result ≡ at_home (shelf_slot self.now name.now) }
    {
        let k = self.slot_at(name)?;
        self.slots[k].disk.as_ref()
    }

    /// The disk of this name, which then is out, or none and nothing changes.
    fn take_disk(&mut self, name: &str) -> Option<D>
        requires { shelf_slot self.old name.now ≢ Some None }
        ensures was { result ≡ at_home (shelf_slot self.old name.now) }
        ensures some { IsSome result → ChangesOnly (shelf_slot self.old) (shelf_slot self.new) name.now None }
        ensures none { IfNone result (self.new ≡ self.old) }
        ensures same { self.new ≡ record self.old { slots = self.new.slots } }
    {
        let k = self.slot_at(name)?;
        let slot = &mut self.slots[k];
        slot.disk.take()
    }

    /// Raises the count of the disks' faults by one exactly where the disk has failed since it was handed out.
    fn count_faults_of(&mut self, disk: &D)
        ensures raised { D.faults_at_fetch disk.now < D.faults disk.now →
            shelf_disk_faults self.new ≡ counted (shelf_disk_faults self.old) }
        ensures kept { ¬ (D.faults_at_fetch disk.now < D.faults disk.now) →
            shelf_disk_faults self.new ≡ shelf_disk_faults self.old }
        ensures slots { self.new.slots ≡ self.old.slots }
        ensures calls { self.new.calls ≡ self.old.calls }
        ensures fetches { self.new.fetches ≡ self.old.fetches }
        ensures returns { self.new.returns ≡ self.old.returns }
        ensures last_size { self.new.last_size ≡ self.old.last_size }
        ensures in_range { shelf_disk_faults self.old ≤ count_max }
    {
        let before = self.disk_faults;
        if disk.has_failed() {
            self.disk_faults = before.saturating_add(1);
        }
    }

    /// Puts the disk into the slot of its home.
    fn put_home(&mut self, disk: D)
        requires { (name : List ℕ) × D.home disk name × out_of (shelf_slot self.old) name }
        ensures change { (name : List ℕ) → D.home disk name →
            ChangesOnly (shelf_slot self.old) (shelf_slot self.new) name (Some disk) }
        ensures same { self.new ≡ record self.old { slots = self.new.slots } }
    {
        match self.home_of(&disk) {
            Some(k) => {
                let slot = &mut self.slots[k];
                slot.disk = Some(disk);
            }
            None => unreachable!(),
        }
    }

    /// The place of the slot of the disk's home.
    fn home_of(&self, disk: &D) -> Option<usize>
        ensures { result ≡
            option_and_then (λ name. position (is_named name) self.now.slots.items) (D.home_name disk.now) }
    {
        self.slot_at(disk.home()?)
    }

    fn text_of(&self, name: &str) -> Option<Text>
        ensures { IfSome result (λ text. text ≡ name.now) }
    {
        let mut text = Text::new(self.alloc);
        text.push_str(name).ok()?;
        Some(text)
    }

    /// The place of the first slot of this name.
    fn slot_at(&self, name: &str) -> Option<usize>
        ensures { result ≡ position (is_named name.now) self.now.slots.items }
    {
        self.slots.iter().position(|slot| slot.is_named(name))
    }
}

impl<D: ShelfDisk> Shelf for MemShelf<D> {
    type Disk = D;

    ghost use Rattle.zio_outside.specs.MemoryShelf.{ChangesOnly, shelf_slot, image_under, kept_under, out_of, IsSoundShelfOf};
    ghost use Rattle.zio_outside.specs.MemoryShelf.{shelf_faults, shelf_disk_faults, shelf_fetches, shelf_returns};
    ghost use Rattle.zio_outside.specs.MemoryShelf.{shelf_last_size, shelf_fails, shelf_calls};
    ghost use Rattle.zio_outside.specs.MemoryShelf.{image_under-one, kept_under-one, IsSoundShelf-counts};

    ghost faults = { shelf_faults };

    ghost disk_faults = { shelf_disk_faults };

    ghost fetches = { shelf_fetches };

    ghost returns = { shelf_returns };

    ghost last_size = { shelf_last_size };

    ghost tells = { λ _. Unit {0} };

    ghost image = { λ s. image_under D.image (shelf_slot s) };

    ghost keeps = { λ s. kept_under D.keeps (shelf_slot s) };

    ghost out = { λ s. out_of (shelf_slot s) };

    ghost sound = { IsSoundShelfOf D.sound };

    /// Hands the disk of this name out. A fetch that is listed, and one of a name under which no disk was put, raises
    /// the count of faults by one and leaves what the shelf has. Where memory is refused nothing changes.
    fn fetch(&mut self, name: &str) -> Result<D, FetchFault>
        requires { ¬ out_of (shelf_slot self.old) name.now }
        ensures ok { OnOk result ((shelf_faults self.new ≡ shelf_faults self.old)
            × (shelf_fetches self.new ≡ counted (shelf_fetches self.old))) }
        ensures err { OnErr result (shelf_fetches self.new ≡ shelf_fetches self.old) }
        ensures returns { shelf_returns self.new ≡ shelf_returns self.old }
        ensures disk_faults { shelf_disk_faults self.new ≡ shelf_disk_faults self.old }
        ensures size { IfOk result (λ disk. shelf_last_size self.new ≡ D.bytes disk) }
        ensures sound { IsSoundShelfOf D.sound self.old name.now →
            (other : List ℕ) → IsSoundShelfOf D.sound self.old other → IsSoundShelfOf D.sound self.new other }
        ensures steady { IsSoundShelfOf D.sound self.old name.now → shelf_faults self.new ≡ shelf_faults self.old }
        ensures sound_disk { IsSoundShelfOf D.sound self.old name.now → IfOk result D.sound }
        ensures disk { IfOk result (λ disk. (bytes : List ℕ) × image_under D.image (shelf_slot self.old) name.now bytes
            × D.image disk bytes × D.home disk name.now) }
        ensures out { OnOk result (GoesOut name.now
            (image_under D.image (shelf_slot self.old)) (image_under D.image (shelf_slot self.new))
            (out_of (shelf_slot self.old)) (out_of (shelf_slot self.new))) }
        ensures home { OnErr result (StaysHome
            (image_under D.image (shelf_slot self.old)) (image_under D.image (shelf_slot self.new))
            (out_of (shelf_slot self.old)) (out_of (shelf_slot self.new))) }
        ensures count { IfOk result (λ disk. (D.faults disk < count_max) × (D.faults_at_fetch disk ≡ D.faults disk)) }
        ensures stable { IfOk result (λ disk. (stable : List ℕ) (ranges : List Written) →
            D.keeps disk stable ranges ↔ kept_under D.keeps (shelf_slot self.old) name.now stable ranges) }
        ensures stable_out { OnOk result (KeptGoesOut name.now
            (kept_under D.keeps (shelf_slot self.old)) (kept_under D.keeps (shelf_slot self.new))) }
        ensures stable_home { OnErr result (KeptStays
            (kept_under D.keeps (shelf_slot self.old)) (kept_under D.keeps (shelf_slot self.new))) }

        // Beside what each shelf ensures: the disk as it was, which fetches fail, and what they leave.
        ensures handed { IfOk result (λ disk. (was : D) ×
            (shelf_slot self.old name.now ≡ Some (Some was)) × D.handed_out was disk name.now) }
        ensures change { OnOk result (ChangesOnly (shelf_slot self.old) (shelf_slot self.new) name.now None) }
        ensures kept { OnErr result
            ((other : List ℕ) → shelf_slot self.new other ≡ shelf_slot self.old other) }
        ensures cause { IsErrOf result FetchFault.Failed →
            Contains (shelf_fails self.old) (shelf_calls self.old) ⊎ (shelf_slot self.old name.now ≡ None) }
        ensures listed { OnOk result (¬ Contains (shelf_fails self.old) (shelf_calls self.old)) }
        ensures unlisted { shelf_fails self.old ≡ [] → shelf_slot self.old name.now ≢ None →
            shelf_faults self.new ≡ shelf_faults self.old }
        ensures raised { IsErrOf result FetchFault.Failed →
            shelf_faults self.new ≡ counted (shelf_faults self.old) }
        ensures refused { IsErrOf result FetchFault.Memory → self.new ≡ self.old }
        ensures fails { shelf_fails self.new ≡ shelf_fails self.old }
        ensures called { OnOk result (shelf_calls self.new ≡ counted (shelf_calls self.old)) }
        ensures failed_call { IsErrOf result FetchFault.Failed →
            shelf_calls self.new ≡ counted (shelf_calls self.old) }
    {
        let Some(home) = self.text_of(name) else {
            return Err(FetchFault::Memory);
        };
        if self.calls.begin().is_err() {
            return Err(FetchFault::Failed);
        }
        match self.take_disk(name) {
            Some(mut disk) => {
                disk.go_out(home);
                self.fetches = self.fetches.saturating_add(1);
                self.last_size = disk.size();
                Ok(disk)
            }
            None => {
                let _ = self.calls.fault();
                Err(FetchFault::Failed)
            }
        }
    }

    /// Puts the disk home, without memory. It raises the count of its disks' faults by one exactly where the disk has
    /// failed since its fetch.
    fn give_back(&mut self, disk: D)
        requires { (name : List ℕ) × D.home disk name × out_of (shelf_slot self.old) name }
        ensures faults { shelf_faults self.new ≡ shelf_faults self.old }
        ensures fetches { shelf_fetches self.new ≡ shelf_fetches self.old }
        ensures returns { shelf_returns self.new ≡ counted (shelf_returns self.old) }
        ensures size { shelf_last_size self.new ≡ shelf_last_size self.old }
        ensures rose { D.faults_at_fetch disk < D.faults disk →
            Raised (shelf_disk_faults self.old) (shelf_disk_faults self.new) }
        ensures same { D.faults_at_fetch disk ≡ D.faults disk →
            shelf_disk_faults self.new ≡ shelf_disk_faults self.old }
        ensures kept { shelf_disk_faults self.old ≤ shelf_disk_faults self.new }
        ensures sound { D.sound disk →
            (name : List ℕ) → IsSoundShelfOf D.sound self.old name → IsSoundShelfOf D.sound self.new name }
        ensures home { (name bytes : List ℕ) → D.home disk name → D.image disk bytes →
            ComesHome name bytes (image_under D.image (shelf_slot self.old)) (image_under D.image (shelf_slot self.new))
            (out_of (shelf_slot self.old)) (out_of (shelf_slot self.new)) }
        ensures stable_home { (name : List ℕ) → D.home disk name → KeptComesHome name (D.keeps disk)
            (kept_under D.keeps (shelf_slot self.old)) (kept_under D.keeps (shelf_slot self.new)) }

        // Beside what each shelf ensures: the disk is at home as it came, and is counted once.
        ensures change { (name : List ℕ) → D.home disk name →
            ChangesOnly (shelf_slot self.old) (shelf_slot self.new) name (Some disk) }
        ensures raised { D.faults_at_fetch disk < D.faults disk →
            shelf_disk_faults self.new ≡ counted (shelf_disk_faults self.old) }
        ensures fails { shelf_fails self.new ≡ shelf_fails self.old }
        ensures calls { shelf_calls self.new ≡ shelf_calls self.old }
    {
        self.count_faults_of(&disk);
        self.returns = self.returns.saturating_add(1);
        self.put_home(disk);
    }

    ghost counts = { λ s.
        (s.calls.in_range, s.disk_faults_in_range, s.fetches_in_range, s.returns_in_range) };

    ghost one_image = { λ s name a b. image_under-one D.image (shelf_slot s) name a b D.one_image };

    ghost one_kept = { λ s name a b xs ys. kept_under-one D.keeps (shelf_slot s) name a b xs ys D.one_kept };

    ghost sound_counts = { IsSoundShelf-counts D.sound };
}
