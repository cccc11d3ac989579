ghost use Rattle.std.specs.Prelude.{◌≡◌, ◌<◌, ◌≤◌, ◌⊎◌, ◌↔◌, ℕ, List, Err, IfOk, IfErr, OnOk, OnErr, IsErrOf};
ghost use Rattle.zio_outside.specs.Crash.{KeptComesHome, KeptGoesOut, KeptStays};
ghost use Rattle.zio_outside.specs.Outside.{ComesHome, GoesOut, Raised, Rose, StaysHome, count_max, counted};
ghost use Rattle.zio_outside.specs.declared.written.Written.{Written};

use crate::Disk;

/// Why a shelf handed no disk out.
#[derive(Clone, Copy, Debug, PartialEq, Eq)]
pub enum FetchFault {
    /// There is no such disk, or it can't be opened.
    Failed,
    /// Want of memory.
    Memory,
}

/// Where disks are kept by name.
pub trait Shelf {
    type Disk: Disk;

    /// How often a fetch has failed.
    ghost faults: { Self → ℕ };

    /// How often a disk had failed between its fetch and its return.
    ghost disk_faults: { Self → ℕ };

    /// How many fetches handed a disk out.
    ghost fetches: { Self → ℕ };

    /// How many disks were given back.
    ghost returns: { Self → ℕ };

    /// The size of the disk that it handed out last, in bytes.
    ghost last_size: { Self → ℕ };

    /// It tells its images.
    ghost tells: { Self → Type 0 };

    /// The image of a disk that is at home, where it tells them.
    ghost image: { Self → List ℕ → List ℕ → Type 0 };

    /// What a disk that is at home keeps through a crash, by its name, where it tells its images and the disk tells
    /// this.
    ghost keeps: { Self → List ℕ → List ℕ → List Written → Type 0 };

    /// The disk of this name is out, where it tells its images.
    ghost out: { Self → List ℕ → Type 0 };

    /// No fetch of this name fails from now on, and its disk is sound when it is handed out, as long as no other names
    /// than such are fetched and each disk that comes home is sound.
    ghost sound: { Self → List ℕ → Type 0 };

    /// Hands the disk of this name out.
    fn fetch(&mut self, name: &str) -> Result<Self::Disk, FetchFault>
        requires { tells self.old → ¬ out self.old name.now }
        ensures ok { OnOk result ((faults self.new ≡ faults self.old)
            × (fetches self.new ≡ counted (fetches self.old))) }
        ensures failed { IsErrOf result FetchFault.Failed → Rose (faults self.old) (faults self.new) }
        ensures memory { IsErrOf result FetchFault.Memory → faults self.new ≡ faults self.old }
        ensures err { OnErr result (fetches self.new ≡ fetches self.old) }
        ensures returns { returns self.new ≡ returns self.old }
        ensures disk_faults { disk_faults self.new ≡ disk_faults self.old }
        ensures count { IfOk result (λ disk. (Self.Disk.faults disk < count_max)
            × (Self.Disk.faults_at_fetch disk ≡ Self.Disk.faults disk)) }
        ensures size { IfOk result (λ disk. last_size self.new ≡ Self.Disk.bytes disk) }
        ensures sound { sound self.old name.now →
            (other : List ℕ) → sound self.old other → sound self.new other }
        ensures steady { sound self.old name.now → faults self.new ≡ faults self.old }
        ensures sound_disk { sound self.old name.now → IfOk result Self.Disk.sound }
        ensures tells { tells self.old ↔ tells self.new }
        ensures disk { tells self.old → IfOk result (λ disk. (bytes : List ℕ) ×
            image self.old name.now bytes × Self.Disk.image disk bytes × Self.Disk.home disk name.now) }
        ensures out { tells self.old → OnOk result
            (GoesOut name.now (image self.old) (image self.new) (out self.old) (out self.new)) }
        ensures home { tells self.old → OnErr result
            (StaysHome (image self.old) (image self.new) (out self.old) (out self.new)) }
        ensures stable { tells self.old → IfOk result (λ disk. (stable : List ℕ) (ranges : List Written) →
            Self.Disk.keeps disk stable ranges ↔ keeps self.old name.now stable ranges) }
        ensures stable_out { tells self.old → OnOk result (KeptGoesOut name.now (keeps self.old) (keeps self.new)) }
        ensures stable_home { tells self.old → OnErr result (KeptStays (keeps self.old) (keeps self.new)) };

    /// Puts a disk home that was handed out, with its image, without memory.
    fn give_back(&mut self, disk: Self::Disk)
        requires { tells self.old → (name : List ℕ) × Self.Disk.home disk name × out self.old name }
        ensures faults { faults self.new ≡ faults self.old }
        ensures fetches { fetches self.new ≡ fetches self.old }
        ensures returns { returns self.new ≡ counted (returns self.old) }
        ensures size { last_size self.new ≡ last_size self.old }
        ensures rose { Self.Disk.faults_at_fetch disk < Self.Disk.faults disk →
            Raised (disk_faults self.old) (disk_faults self.new) }
        ensures same { Self.Disk.faults_at_fetch disk ≡ Self.Disk.faults disk →
            disk_faults self.new ≡ disk_faults self.old }
        ensures kept { disk_faults self.old ≤ disk_faults self.new }
        ensures sound { Self.Disk.sound disk → (name : List ℕ) → sound self.old name → sound self.new name }
        ensures tells { tells self.old ↔ tells self.new }
        ensures home { tells self.old → (name bytes : List ℕ) → Self.Disk.home disk name →
            Self.Disk.image disk bytes →
            ComesHome name bytes (image self.old) (image self.new) (out self.old) (out self.new) }
        ensures stable_home { tells self.old → (name : List ℕ) → Self.Disk.home disk name →
            KeptComesHome name (Self.Disk.keeps disk) (keeps self.old) (keeps self.new) };

    /// No count passes its last value.
    ghost counts: { (shelf : Self) → (faults shelf ≤ count_max) × (disk_faults shelf ≤ count_max)
        × (fetches shelf ≤ count_max) × (returns shelf ≤ count_max) };

    /// It tells one image of a disk.
    ghost one_image: { (shelf : Self) (name a b : List ℕ) → image shelf name a → image shelf name b → a ≡ b };

    /// It tells one stable image of a disk, and its ranges in one order.
    ghost one_kept: { (shelf : Self) (name a b : List ℕ) (xs ys : List Written) →
        keeps shelf name a xs → keeps shelf name b ys → (a ≡ b) × (xs ≡ ys) };

    /// The counts of a shelf that is sound for a name aren't at their last values. So a fetch of it answers no
    /// `Failed`.
    ghost sound_counts: { (shelf : Self) (name : List ℕ) → sound shelf name →
        (faults shelf < count_max) × (disk_faults shelf < count_max) };
}
