ghost use Rattle.std.specs.Prelude.{◌≡◌, ◌+◌, ◌++◌, ◌<◌, ◌≤◌, ℕ, List, [], length, OnOk, OnErr};
ghost use Rattle.zio_outside.specs.Crash.{AfterWrites, IsCrash, written_of};
ghost use Rattle.zio_outside.specs.Outside.{CountsFault, Keeps, ReadsAt, TearsAt, WritesAt, count_max};
ghost use Rattle.zio_outside.specs.declared.written.Written.{Written};

use crate::Failed;

/// A device of a fixed size, in bytes. Who hands one to another thread asks for `Send` beside.
pub trait Disk {
    /// How often it has failed.
    ghost faults: { Self → ℕ };

    /// How often it had failed when a shelf last handed it out, or 0 where none did.
    ghost faults_at_fetch: { Self → ℕ };

    ghost bytes: { Self → ℕ };

    /// Its image, where it tells it.
    ghost image: { Self → List ℕ → Type 0 };

    /// The name under which a shelf handed it out, where it tells its image.
    ghost home: { Self → List ℕ → Type 0 };

    /// No call of it fails from now on.
    ghost sound: { Self → Type 0 };

    /// These ranges were written from the one state to the other, in this order, and it was not synced.
    ghost went: { List Written → Self → Self → Type 0 };

    /// Its stable image and the ranges written since it was stable, where it tells them.
    ghost keeps: { Self → List ℕ → List Written → Type 0 };

    /// The moment, as a number that doesn't fall.
    ghost moment: { Self → ℕ };

    /// What a crash at some moment from that one on might have left, where it tells what it keeps.
    ghost left_since: { Self → ℕ → List ℕ → Type 0 };

    fn size(&self) -> u64
        ensures { result ≡ bytes self.now };

    /// Reads the bytes from `at` on into the buffer.
    fn read_at(&mut self, at: u64, buffer: &mut [u8]) -> Result<(), Failed>
        requires { at + length buffer.old ≤ bytes self.old }
        ensures count { CountsFault result (faults self.old) (faults self.new) }
        ensures sound { sound self.old → sound self.new × (faults self.new ≡ faults self.old) }
        ensures read { OnOk result (ReadsAt (image self.old) at buffer.new) }
        ensures image { Keeps (image self.old) (image self.new) }
        ensures home { Keeps (home self.old) (home self.new) }
        ensures bytes { bytes self.new ≡ bytes self.old }
        ensures at_fetch { faults_at_fetch self.new ≡ faults_at_fetch self.old }
        ensures went { went [] self.old self.new };

    /// Writes the piece over the bytes from `at` on. After `Failed` these bytes may be any.
    fn write_at(&mut self, at: u64, piece: &[u8]) -> Result<(), Failed>
        requires { at + length piece.now ≤ bytes self.old }
        ensures count { CountsFault result (faults self.old) (faults self.new) }
        ensures sound { sound self.old → sound self.new × (faults self.new ≡ faults self.old) }
        ensures ok { OnOk result (WritesAt (image self.old) (image self.new) at piece.now) }
        ensures failed { OnErr result (TearsAt (image self.old) (image self.new) at piece.now) }
        ensures home { Keeps (home self.old) (home self.new) }
        ensures bytes { bytes self.new ≡ bytes self.old }
        ensures at_fetch { faults_at_fetch self.new ≡ faults_at_fetch self.old }
        ensures went { went (written_of at (length piece.now)) self.old self.new };

    /// An image that is told has the disk's size.
    ghost has_size: { (disk : Self) (content : List ℕ) → image disk content → length content ≡ bytes disk };

    /// It tells one image.
    ghost one_image: { (disk : Self) (a b : List ℕ) → image disk a → image disk b → a ≡ b };

    /// A count never passes its last value.
    ghost counts: { (disk : Self) → faults disk ≤ count_max };

    /// The count of a sound disk isn't at its last value. So its calls answer no `Failed`.
    ghost sound_counts: { (disk : Self) → sound disk → faults disk < count_max };

    /// Nothing is written from a state to itself.
    ghost went_itself: { (disk : Self) → went [] disk disk };

    /// What is written from one state to a third is written to a second, and then from there.
    ghost went_then: { (first then : List Written) (a b c : Self) →
        went first a b → went then b c → went (first ++ then) a c };

    /// A write adds its range and leaves the stable image, and a read changes neither.
    ghost went_means: { (asked ranges : List Written) (stable : List ℕ) (old new : Self) →
        went asked old new → keeps old stable ranges →
        AfterWrites keeps moment left_since stable ranges asked old new };

    /// It keeps one stable image, and the ranges in one order.
    ghost one_kept: { (disk : Self) (a b : List ℕ) (xs ys : List Written) →
        keeps disk a xs → keeps disk b ys → (a ≡ b) × (xs ≡ ys) };

    /// The image equals the stable one outside the ranges.
    ghost kept_image: { (disk : Self) (content stable : List ℕ) (ranges : List Written) →
        image disk content → keeps disk stable ranges → IsCrash stable ranges content };

    /// A crash now may leave any image that equals the stable one outside the ranges.
    ghost counts_now: { (disk : Self) (t : ℕ) (stable content : List ℕ) (ranges : List Written) →
        t ≤ moment disk → keeps disk stable ranges → IsCrash stable ranges content → left_since disk t content };
}
