ghost use Rattle.std.specs.Prelude.{◌≡◌, ◌<◌, ◌↔◌, ℕ, List, Option, Some, IsTrue};
ghost use Rattle.std.specs.Option.{option_copied};
ghost use Rattle.zio_outside.specs.Outside.{Keeps, count_max};
ghost use Rattle.zio_outside.specs.declared.written.Written.{Written};

use crate::Disk;
use zio_types::Text;

/// A disk in memory as a `MemShelf` handles it. It tells its image and the name under which it was handed out.
pub trait ShelfDisk: Disk + Drop {
    /// Its bytes.
    ghost content: { Self → List ℕ };

    /// The name under which it was handed out, if it was.
    ghost home_name: { Self → Option (List ℕ) };

    /// It was handed out under this name, and is otherwise as it was.
    ghost handed_out: { Self → Self → List ℕ → Type 0 };

    /// Goes out under this name. A count of faults at its last value goes out as the one before it, so that the next
    /// fault shows.
    fn go_out(&mut self, name: Text)
        ensures handed { handed_out self.old self.new name }
        ensures home { home_name self.new ≡ Some name }
        ensures content { content self.new ≡ content self.old }
        ensures room { Self.faults self.new < count_max }
        ensures at_fetch { Self.faults_at_fetch self.new ≡ Self.faults self.new }
        ensures sound { Self.sound self.old → Self.sound self.new }
        ensures stable { (stable : List ℕ) (ranges : List Written) →
            Self.keeps self.new stable ranges ↔ Self.keeps self.old stable ranges };

    /// The name under which it was handed out, if it was.
    fn home(&self) -> Option<&str>
        ensures { option_copied result ≡ home_name self.now };

    /// It has failed since it was handed out.
    fn has_failed(&self) -> bool
        ensures { IsTrue result ↔ (Self.faults_at_fetch self.now < Self.faults self.now) };

    ghost tells_image: { (disk : Self) (bytes : List ℕ) → Self.image disk bytes ↔ (bytes ≡ content disk) };

    ghost tells_home: { (disk : Self) (name : List ℕ) → Self.home disk name ↔ (home_name disk ≡ Some name) };

    /// A sound disk hasn't failed since it was handed out.
    ghost sound_unfailed: { (disk : Self) → Self.sound disk → ¬ (Self.faults_at_fetch disk < Self.faults disk) };
}
