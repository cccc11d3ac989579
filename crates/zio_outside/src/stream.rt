ghost use Rattle.std.specs.Prelude.{◌≡◌, ◌+◌, ◌<◌, ◌≤◌, ℕ, List, length, drop, IfOk, OnOk, OnErr};
ghost use Rattle.zio_outside.specs.Outside.{Appends, AppendsFront, CountsFault, Moves, count_max};

/// A call of the outside that didn't do its work.
#[derive(Clone, Copy, Debug, PartialEq, Eq)]
pub struct Failed;

/// Where a script is read from.
pub trait Source {
    /// How often it has failed.
    ghost faults: { Self → ℕ };

    /// The bytes left, where it tells them.
    ghost left: { Self → List ℕ → Type 0 };

    /// No call of it fails from now on.
    ghost sound: { Self → Type 0 };

    /// Moves bytes from the front of what is left to the front of the buffer, and says how many.
    ///
    /// None are moved into a buffer that isn't empty only at the end of the input. After `Failed` nothing is told of
    /// what is left.
    fn read(&mut self, buffer: &mut [u8]) -> Result<usize, Failed>
        ensures count { CountsFault result (faults self.old) (faults self.new) }
        ensures sound { sound self.old → sound self.new × (faults self.new ≡ faults self.old) }
        ensures within { IfOk result (λ n. n ≤ length buffer.old) }
        ensures moved { IfOk result (λ n. (bytes : List ℕ) → left self.old bytes →
            Moves bytes buffer.old buffer.new n × left self.new (drop n bytes)) };

    /// The count of a sound source isn't at its last value. So its calls answer no `Failed`.
    ghost sound_counts: { (source : Self) → sound source → faults source < count_max };
}

/// Where a report is written to.
pub trait Sink {
    /// How often it has failed.
    ghost faults: { Self → ℕ };

    /// The bytes that it holds, where it tells them.
    ghost holds: { Self → List ℕ → Type 0 };

    /// No call of it fails from now on, as long as it is given so many bytes at most.
    ghost sound: { Self → ℕ → Type 0 };

    /// Appends the piece, or after `Failed` a front of it.
    fn write(&mut self, piece: &[u8]) -> Result<(), Failed>
        ensures count { CountsFault result (faults self.old) (faults self.new) }
        ensures sound { (more : ℕ) → sound self.old (length piece.now + more) →
            sound self.new more × (faults self.new ≡ faults self.old) }
        ensures ok { OnOk result (Appends (holds self.old) (holds self.new) piece.now) }
        ensures failed { OnErr result (AppendsFront (holds self.old) (holds self.new) piece.now) };

    /// The count of a sound sink isn't at its last value. So a write that fits answers no `Failed`.
    ghost sound_counts: { (sink : Self) (room : ℕ) → sound sink room → faults sink < count_max };

    /// A sink that takes so many bytes takes fewer.
    ghost sound_fewer: { (sink : Self) (fewer room : ℕ) → fewer ≤ room → sound sink room → sound sink fewer };
}
