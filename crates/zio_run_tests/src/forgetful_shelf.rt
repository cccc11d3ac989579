//! A shelf whose disks take every write, keep nothing and read as zeros. They tell nothing, so a contract allows it.

ghost use Rattle.std.specs.Prelude.{◌≤◌};
ghost use Rattle.zio_outside.specs.Outside.{count_max};

use zio_outside::{Disk, Failed, FetchFault, Shelf};

#[derive(Drop)]
pub(crate) struct Forgetful {
    reads: u64,
    faults: u64,
    ghost in_range: { faults ≤ count_max },
}

impl Disk for Forgetful {
    ghost faults = { λ d. d.faults };

    ghost faults_at_fetch = { λ d. d.faults };

    ghost bytes = { λ _. 65536 };

    ghost image = { λ _ _. ⊥ };

    ghost home = { λ _ _. ⊥ };

    ghost sound = { λ _. ⊥ };

    ghost went = { λ _ _ _. Unit {0} };

    ghost keeps = { λ _ _ _. ⊥ };

    ghost moment = { λ _. 0 };

    ghost left_since = { λ _ _ _. ⊥ };

    fn size(&self) -> u64 {
        65536
    }

    fn read_at(&mut self, _at: u64, buffer: &mut [u8]) -> Result<(), Failed> {
        self.reads = self.reads.saturating_add(1);
        buffer.fill(0);
        Ok(())
    }

    fn write_at(&mut self, _at: u64, _piece: &[u8]) -> Result<(), Failed> {
        Ok(())
    }

    ghost has_size = { λ d content told. absurd told };

    ghost one_image = { λ d a b told other. absurd told };

    ghost counts = { λ d. d.in_range };

    ghost sound_counts = { λ d sound. absurd sound };

    ghost went_itself = { λ d. tt };

    ghost went_then = { λ first then a b c went more. tt };

    ghost went_means = { λ asked ranges stable old new went kept. absurd kept };

    ghost one_kept = { λ d a b xs ys kept other. absurd kept };

    ghost kept_image = { λ d content stable ranges told kept. absurd kept };

    ghost counts_now = { λ d t stable content ranges now kept crash. absurd kept };
}

/// Hands out forgetful disks under every name, and counts their reads.
#[derive(Drop)]
pub(crate) struct ForgetfulShelf {
    reads: u64,
    faults: u64,
    fetches: u64,
    returns: u64,
    ghost faults_in_range: { faults ≤ count_max },
    ghost fetches_in_range: { fetches ≤ count_max },
    ghost returns_in_range: { returns ≤ count_max },
}

impl ForgetfulShelf {
    pub(crate) fn new() -> ForgetfulShelf {
        ForgetfulShelf {
            reads: 0,
            faults: 0,
            fetches: 0,
            returns: 0,
        }
    }

    pub(crate) fn reads(&self) -> u64 {
        self.reads
    }
}

impl Shelf for ForgetfulShelf {
    type Disk = Forgetful;

    ghost faults = { λ s. s.faults };

    ghost disk_faults = { λ s. s.faults };

    ghost fetches = { λ s. s.fetches };

    ghost returns = { λ s. s.returns };

    ghost last_size = { λ _. 65536 };

    ghost tells = { λ _. ⊥ };

    ghost image = { λ _ _ _. ⊥ };

    ghost keeps = { λ _ _ _ _. ⊥ };

    ghost out = { λ _ _. ⊥ };

    ghost sound = { λ _ _. ⊥ };

    fn fetch(&mut self, _name: &str) -> Result<Forgetful, FetchFault> {
        self.fetches = self.fetches.saturating_add(1);
        Ok(Forgetful {
            reads: 0,
            faults: 0,
        })
    }

    fn give_back(&mut self, disk: Forgetful) {
        self.reads = self.reads.saturating_add(disk.reads);
        self.returns = self.returns.saturating_add(1);
    }

    ghost counts = { λ s.
        (s.faults_in_range, s.faults_in_range, s.fetches_in_range, s.returns_in_range) };

    ghost one_image = { λ s name a b told other. absurd told };

    ghost one_kept = { λ s name a b xs ys kept other. absurd kept };

    ghost sound_counts = { λ s name sound. absurd sound };
}
