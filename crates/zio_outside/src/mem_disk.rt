ghost use Rattle.std.specs.Prelude.{◌≡◌, ◌<◌, ◌≤◌, ◌+◌, ◌↔◌, List, [], length, Option, None, Some, IsErr, IsOk, IsTrue, OnErr, OnOk};
ghost use Rattle.std.proofs.Common.{◌∙◌, ap, arith, sym};
ghost use Rattle.std.specs.List.{Contains};
ghost use Rattle.std.specs.Option.{option_copied};
ghost use Rattle.zio_outside.specs.Outside.{CountsFault, ReadsAt, TearsAt, WritesAt, counted};

use crate::calls::Calls;
use crate::shelf_disk::ShelfDisk;
use crate::{Disk, Failed};
use zio_types::{Bytes, List, Text};

/// A disk in memory, which tells its image.
#[derive(Debug, Drop)]
pub struct MemDisk {
    image: Vec<u8>,
    calls: Calls,
    reads: u64,
    writes: u64,
    faults_at_fetch: u64,
    home: Option<Text>,
}

impl MemDisk {
    ghost use Rattle.zio_outside.specs.Memory.{disk_image, disk_faults, disk_faults_at_fetch, disk_home, disk_fails, disk_calls, disk_reads, disk_writes, IsSameButCalls};

    /// A disk with this image, of its size, without a fault and without a home. Its reads and writes with the numbers
    /// in
    /// `fails`, counted together from 0, fail.
    pub fn new(image: Bytes, fails: List<u64>) -> MemDisk
        ensures image { disk_image result ≡ image }
        ensures faults { disk_faults result ≡ 0 }
        ensures at_fetch { disk_faults_at_fetch result ≡ 0 }
        ensures home { disk_home result ≡ None }
        ensures fails { disk_fails result ≡ fails }
        ensures calls { disk_calls result ≡ 0 }
        ensures reads { disk_reads result ≡ 0 }
        ensures writes { disk_writes result ≡ 0 }
    {
        MemDisk {
            image: image.into_vec(),
            calls: Calls::new(fails),
            reads: 0,
            writes: 0,
            faults_at_fetch: 0,
            home: None,
        }
    }

    /// Counts a call that is neither a read nor a write, and its fault if it is listed.
    pub(crate) fn begin(&mut self) -> Result<(), Failed>
        ensures listed { IsErr result ↔ Contains (disk_fails self.old) (disk_calls self.old) }
        ensures calls { disk_calls self.new ≡ counted (disk_calls self.old) }
        ensures ok { OnOk result (disk_faults self.new ≡ disk_faults self.old) }
        ensures failed { OnErr result (disk_faults self.new ≡ counted (disk_faults self.old)) }
        ensures same { IsSameButCalls self.old self.new }
        ensures reads { disk_reads self.new ≡ disk_reads self.old }
        ensures writes { disk_writes self.new ≡ disk_writes self.old }
    {
        self.calls.begin()
    }

    /// Refuses a call of another kind, which counts as a fault alone.
    pub(crate) fn refuse(&mut self) -> Result<(), Failed>
        ensures failed { IsErr result }
        ensures calls { disk_calls self.new ≡ disk_calls self.old }
        ensures faults { disk_faults self.new ≡ counted (disk_faults self.old) }
        ensures same { IsSameButCalls self.old self.new }
        ensures reads { disk_reads self.new ≡ disk_reads self.old }
        ensures writes { disk_writes self.new ≡ disk_writes self.old }
    {
        self.calls.fault()
    }

    /// Refuses a read.
    pub(crate) fn refuse_read(&mut self) -> Result<(), Failed>
        ensures failed { IsErr result }
        ensures calls { disk_calls self.new ≡ disk_calls self.old }
        ensures faults { disk_faults self.new ≡ counted (disk_faults self.old) }
        ensures same { IsSameButCalls self.old self.new }
        ensures reads { disk_reads self.new ≡ counted (disk_reads self.old) }
        ensures writes { disk_writes self.new ≡ disk_writes self.old }
    {
        self.reads = self.reads.saturating_add(1);
        self.refuse()
    }

    /// Refuses a write.
    pub(crate) fn refuse_write(&mut self) -> Result<(), Failed>
        ensures failed { IsErr result }
        ensures calls { disk_calls self.new ≡ disk_calls self.old }
        ensures faults { disk_faults self.new ≡ counted (disk_faults self.old) }
        ensures same { IsSameButCalls self.old self.new }
        ensures reads { disk_reads self.new ≡ disk_reads self.old }
        ensures writes { disk_writes self.new ≡ counted (disk_writes self.old) }
    {
        self.writes = self.writes.saturating_add(1);
        self.refuse()
    }

    /// The bytes that it holds.
    pub fn image(&self) -> &[u8]
        ensures { result.now ≡ disk_image self.now }
    {
        self.image.as_slice()
    }

    /// How many calls of `read_at` were made, those that failed among them.
    pub fn reads(&self) -> u64
        ensures { result ≡ disk_reads self.now }
    {
        self.reads
    }

    /// How many calls of `write_at` were made, those that failed among them.
    pub fn writes(&self) -> u64
        ensures { result ≡ disk_writes self.now }
    {
        self.writes
    }
}

impl Disk for MemDisk {
    ghost use Rattle.zio_outside.specs.Memory.{told, disk_image, disk_faults, disk_faults_at_fetch, disk_home, disk_fails, disk_calls, disk_reads, disk_writes};
    ghost use Rattle.zio_outside.specs.Memory.{IsSoundDisk, IsSteady-below_max};

    ghost faults = { disk_faults };

    ghost faults_at_fetch = { disk_faults_at_fetch };

    ghost bytes = { λ d. length (disk_image d) };

    ghost image = { λ d. told (disk_image d) };

    ghost home = { λ d name. disk_home d ≡ Some name };

    ghost sound = { IsSoundDisk };

    ghost went = { λ _ _ _. Unit {0} };

    ghost keeps = { λ _ _ _. ⊥ };

    ghost moment = { λ _. 0 };

    ghost left_since = { λ _ _ _. ⊥ };

    fn size(&self) -> u64 {
        self.image.len() as u64
    }

    /// Reads the bytes from `at` on into the buffer. A call that is listed raises the count of faults by one and leaves
    /// the buffer.
    fn read_at(&mut self, at: u64, buffer: &mut [u8]) -> Result<(), Failed>
        requires { at + length buffer.old ≤ length (disk_image self.old) }
        ensures count { CountsFault result (disk_faults self.old) (disk_faults self.new) }
        ensures sound { IsSoundDisk self.old →
            IsSoundDisk self.new × (disk_faults self.new ≡ disk_faults self.old) }
        ensures read { OnOk result (ReadsAt (told (disk_image self.old)) at buffer.new) }
        ensures image { disk_image self.new ≡ disk_image self.old }
        ensures home { disk_home self.new ≡ disk_home self.old }
        ensures bytes { length (disk_image self.new) ≡ length (disk_image self.old) }
        ensures at_fetch { disk_faults_at_fetch self.new ≡ disk_faults_at_fetch self.old }

        // Beside what each disk ensures: which calls fail, what they leave, and how often it was called.
        ensures listed { IsErr result ↔ Contains (disk_fails self.old) (disk_calls self.old) }
        ensures steady { disk_fails self.old ≡ [] → IsOk result }
        ensures raised { OnErr result (disk_faults self.new ≡ counted (disk_faults self.old)) }
        ensures kept { OnErr result (buffer.new ≡ buffer.old) }
        ensures fails { disk_fails self.new ≡ disk_fails self.old }
        ensures calls { disk_calls self.new ≡ counted (disk_calls self.old) }
        ensures reads { disk_reads self.new ≡ counted (disk_reads self.old) }
        ensures writes { disk_writes self.new ≡ disk_writes self.old }
    {
        self.reads = self.reads.saturating_add(1);
        self.calls.begin()?;
        let at = at as usize;
        buffer.copy_from_slice(&self.image[at..at + buffer.len()]);
        Ok(())
    }

    /// Writes the piece over the bytes from `at` on. A call that is listed raises the count of faults by one and leaves
    /// the image.
    fn write_at(&mut self, at: u64, piece: &[u8]) -> Result<(), Failed>
        requires { at + length piece.now ≤ length (disk_image self.old) }
        ensures count { CountsFault result (disk_faults self.old) (disk_faults self.new) }
        ensures sound { IsSoundDisk self.old →
            IsSoundDisk self.new × (disk_faults self.new ≡ disk_faults self.old) }
        ensures ok { OnOk result
            (WritesAt (told (disk_image self.old)) (told (disk_image self.new)) at piece.now) }
        ensures failed { OnErr result
            (TearsAt (told (disk_image self.old)) (told (disk_image self.new)) at piece.now) }
        ensures home { disk_home self.new ≡ disk_home self.old }
        ensures bytes { length (disk_image self.new) ≡ length (disk_image self.old) }
        ensures at_fetch { disk_faults_at_fetch self.new ≡ disk_faults_at_fetch self.old }

        // Beside what each disk ensures: which calls fail, what they leave, and how often it was called.
        ensures listed { IsErr result ↔ Contains (disk_fails self.old) (disk_calls self.old) }
        ensures steady { disk_fails self.old ≡ [] → IsOk result }
        ensures raised { OnErr result (disk_faults self.new ≡ counted (disk_faults self.old)) }
        ensures kept { OnErr result (disk_image self.new ≡ disk_image self.old) }
        ensures fails { disk_fails self.new ≡ disk_fails self.old }
        ensures calls { disk_calls self.new ≡ counted (disk_calls self.old) }
        ensures reads { disk_reads self.new ≡ disk_reads self.old }
        ensures writes { disk_writes self.new ≡ counted (disk_writes self.old) }
    {
        self.writes = self.writes.saturating_add(1);
        self.calls.begin()?;
        let at = at as usize;
        self.image[at..at + piece.len()].copy_from_slice(piece);
        Ok(())
    }

    ghost has_size = { λ d content told. ap length told };

    ghost one_image = { λ d a b told other. told ∙ sym other };

    ghost counts = { λ d. d.calls.in_range };

    ghost sound_counts = { λ d sound. IsSteady-below_max (disk_fails d) (disk_faults d) sound };

    ghost went_itself = { λ d. tt };

    ghost went_then = { λ first then a b c went more. tt };

    ghost went_means = { λ asked ranges stable old new went kept. absurd kept };

    ghost one_kept = { λ d a b xs ys kept other. absurd kept };

    ghost kept_image = { λ d content stable ranges told kept. absurd kept };

    ghost counts_now = { λ d t stable content ranges now kept crash. absurd kept };
}

impl ShelfDisk for MemDisk {
    ghost use Rattle.zio_outside.specs.Memory.{disk_image, disk_home, HandedOut};

    ghost content = { disk_image };

    ghost home_name = { disk_home };

    ghost handed_out = { HandedOut };

    fn go_out(&mut self, name: Text) {
        self.calls.keep_room();
        self.faults_at_fetch = self.calls.faults();
        self.home = Some(name);
    }

    fn home(&self) -> Option<&str> {
        match &self.home {
            Some(name) => Some(name.as_str()),
            None => None,
        }
    }

    fn has_failed(&self) -> bool {
        self.faults_at_fetch < self.calls.faults()
    }

    ghost tells_image = { λ d bytes. (λ h. h, λ h. h) };

    ghost tells_home = { λ d name. (λ h. h, λ h. h) };

    ghost sound_unfailed = { λ d sound failed. Prim.omega (arith, sound.faultless, failed) };
}
