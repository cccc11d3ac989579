ghost use Rattle.std.specs.Prelude.{◌≡◌, ◌≤◌, ◌⊎◌, ◌↔◌, ℕ, List, [], OnOk, OnErr};
ghost use Rattle.zio_outside.specs.Outside.{CountsFault, Keeps};
ghost use Rattle.zio_outside.specs.declared.written.Written.{Written};

use crate::{Disk, Failed};

/// A disk with a volatile cache. What it keeps through a crash is told by `keeps` of `Disk`.
pub trait SyncDisk: Disk {
    /// Makes the image stable, so that no range is left. After `Failed` it keeps what it kept.
    fn sync(&mut self) -> Result<(), Failed>
        ensures count { CountsFault result (Self.faults self.old) (Self.faults self.new) }
        ensures sound { Self.sound self.old →
            Self.sound self.new × (Self.faults self.new ≡ Self.faults self.old) }
        ensures ok { OnOk result
            ((content : List ℕ) → Self.image self.old content → Self.keeps self.new content []) }
        ensures failed { OnErr result ((stable : List ℕ) (ranges : List Written) →
            Self.keeps self.new stable ranges ↔ Self.keeps self.old stable ranges) }
        ensures image { Keeps (Self.image self.old) (Self.image self.new) }
        ensures home { Keeps (Self.home self.old) (Self.home self.new) }
        ensures bytes { Self.bytes self.new ≡ Self.bytes self.old }
        ensures at_fetch { Self.faults_at_fetch self.new ≡ Self.faults_at_fetch self.old }

        // A crash in the call leaves what one before it may have left, or the image. With no write between, the earlier
        // state is that at the call's start.
        ensures later { Self.moment self.old ≤ Self.moment self.new }
        ensures crash { (asked : List Written) (earlier : Self) (content : List ℕ) →
            Self.went asked earlier self.old → Self.left_since self.new (Self.moment earlier) content →
            Self.left_since self.old (Self.moment earlier) content ⊎ Self.image self.old content }
        ensures earlier { (t : ℕ) (content : List ℕ) →
            Self.left_since self.old t content → Self.left_since self.new t content };

    /// Where it tells its image, it tells what it keeps.
    ghost tells_kept: { (disk : Self) (content : List ℕ) → Self.image disk content →
        (stable : List ℕ) × (ranges : List Written) × Self.keeps disk stable ranges };
}
