ghost use Rattle.std.specs.Prelude.{◌≡◌, ◌≤◌, IfOk};
ghost use Rattle.zio_outside.specs.Outside.{CountsFault, count_max};

use crate::{Disk, Failed, FetchFault, Shelf, SyncDisk};
use std::fs::{OpenFile, OpenOptions};
use std::io;
use std::io::{Read, Seek, SeekFrom, Write};
use std::rt::Files;

/// A disk that is a file, which a `FileShelf` opened, and tells nothing of its image.
///
/// Each error raises its count of faults by one, as does a file that gives or takes nothing of a rest.
#[derive(Drop)]
pub struct FileDisk<F> {
    file: F,
    bytes: u64,
    faults: u64,
    ghost in_range: { faults ≤ count_max },
}

impl<F: Read + Write + Seek> FileDisk<F> {
    fn read_whole(&mut self, at: u64, buffer: &mut [u8]) -> io::Result<()>
        ensures bytes { self.new.bytes ≡ self.old.bytes }
        ensures faults { self.new.faults ≡ self.old.faults }
    {
        self.file.seek(SeekFrom::Start(at))?;
        self.file.read_exact(buffer)
    }

    /// What a call of the file answers. Its error raises the count of faults by one.
    fn answer(&mut self, done: io::Result<()>) -> Result<(), Failed>
        ensures count { CountsFault result self.old.faults self.new.faults }
        ensures bytes { self.new.bytes ≡ self.old.bytes }
    {
        match done {
            Ok(()) => Ok(()),
            Err(_) => {
                self.faults = self.faults.saturating_add(1);
                Err(Failed)
            }
        }
    }

    fn write_whole(&mut self, at: u64, piece: &[u8]) -> io::Result<()>
        ensures bytes { self.new.bytes ≡ self.old.bytes }
        ensures faults { self.new.faults ≡ self.old.faults }
    {
        self.file.seek(SeekFrom::Start(at))?;
        self.file.write_all(piece)
    }
}

impl<F: Read + Write + Seek + Send> Disk for FileDisk<F> {
    ghost faults = { λ d. d.faults };

    ghost faults_at_fetch = { λ _. 0 };

    ghost bytes = { λ d. d.bytes };

    ghost image = { λ _ _. ⊥ };

    ghost home = { λ _ _. ⊥ };

    ghost sound = { λ _. ⊥ };

    ghost went = { λ _ _ _. Unit {0} };

    ghost keeps = { λ _ _ _. ⊥ };

    ghost moment = { λ _. 0 };

    ghost left_since = { λ _ _ _. ⊥ };

    fn size(&self) -> u64 {
        self.bytes
    }

    fn read_at(&mut self, at: u64, buffer: &mut [u8]) -> Result<(), Failed> {
        let done = self.read_whole(at, buffer);
        self.answer(done)
    }

    fn write_at(&mut self, at: u64, piece: &[u8]) -> Result<(), Failed> {
        let done = self.write_whole(at, piece);
        self.answer(done)
    }

    ghost has_size = { λ d content told. absurd told };

    ghost one_image = { λ d a b told other. absurd told };

    ghost counts = { λ d. d.in_range };

    ghost sound_counts = { λ d sound. absurd sound };

    ghost went_itself = { λ d. tt };

    ghost went_then = { λ first then a b c went more. tt };

    ghost went_means = { λ asked ranges stable old new went kept. absurd kept };

    ghost one_kept = { λ d a b xs ys kept other. absurd kept };

    ghost kept_image = { λ d content stable ranges told kept. absurd kept };

    ghost counts_now = { λ d t stable content ranges now kept crash. absurd kept };
}

impl<F: Read + Write + Seek + OpenFile + Send> SyncDisk for FileDisk<F> {
    /// Asks the system to bring the file's bytes to its device.
    fn sync(&mut self) -> Result<(), Failed> {
        let done = self.file.sync_data();
        self.answer(done)
    }

    ghost tells_kept = { λ d content told. absurd told };
}

/// A shelf of files, each an image of its own, which tells nothing of them.
#[derive(Drop)]
pub struct FileShelf<'a, R> {
    rt: &'a R,
    faults: u64,
    disk_faults: u64,
    fetches: u64,
    returns: u64,
    last_size: u64,
    ghost faults_in_range: { faults ≤ count_max },
    ghost disk_faults_in_range: { disk_faults ≤ count_max },
    ghost fetches_in_range: { fetches ≤ count_max },
    ghost returns_in_range: { returns ≤ count_max },
}

impl<'a, R: Files> FileShelf<'a, R> {
    /// A shelf of all files, by their paths, without a fault.
    pub fn new(rt: &'a R) -> FileShelf<'a, R>
        ensures faults { result.faults ≡ 0 }
        ensures disk_faults { result.disk_faults ≡ 0 }
        ensures fetches { result.fetches ≡ 0 }
        ensures returns { result.returns ≡ 0 }
    {
        FileShelf {
            rt,
            faults: 0,
            disk_faults: 0,
            fetches: 0,
            returns: 0,
            last_size: 0,
        }
    }

    fn open(&self, path: &str) -> io::Result<FileDisk<R::File>>
        ensures { IfOk result (λ disk. disk.faults ≡ 0) }
    {
        let mut file = OpenOptions::new()
            .read(true)
            .write(true)
            .open(self.rt, path)?;
        // A block device tells its size by its end alone.
        let bytes = file.seek(SeekFrom::End(0))?;
        Ok(FileDisk {
            file,
            bytes,
            faults: 0,
        })
    }
}

impl<'a, R: Files> Shelf for FileShelf<'a, R>
where
    R::File: Send,
{
    type Disk = FileDisk<R::File>;

    ghost faults = { λ s. s.faults };

    ghost disk_faults = { λ s. s.disk_faults };

    ghost fetches = { λ s. s.fetches };

    ghost returns = { λ s. s.returns };

    ghost last_size = { λ s. s.last_size };

    ghost tells = { λ _. ⊥ };

    ghost image = { λ _ _ _. ⊥ };

    ghost keeps = { λ _ _ _ _. ⊥ };

    ghost out = { λ _ _. ⊥ };

    ghost sound = { λ _ _. ⊥ };

    /// Opens the file or block device of this path for reading and writing. The disk has the size that it has now.
    /// Each error, as of what has no end to seek, raises the count of faults by one and is answered `Failed`, never
    /// `Memory`.
    fn fetch(&mut self, name: &str) -> Result<FileDisk<R::File>, FetchFault> {
        match self.open(name) {
            Ok(disk) => {
                self.fetches = self.fetches.saturating_add(1);
                self.last_size = disk.bytes;
                Ok(disk)
            }
            Err(_) => {
                self.faults = self.faults.saturating_add(1);
                Err(FetchFault::Failed)
            }
        }
    }

    /// Closes the file. The count of its disks' faults rises by one where the disk has failed.
    fn give_back(&mut self, disk: FileDisk<R::File>) {
        if disk.faults > 0 {
            self.disk_faults = self.disk_faults.saturating_add(1);
        }
        self.returns = self.returns.saturating_add(1);
    }

    ghost counts = { λ s.
        (s.faults_in_range, s.disk_faults_in_range, s.fetches_in_range, s.returns_in_range) };

    ghost one_image = { λ s name a b told other. absurd told };

    ghost one_kept = { λ s name a b xs ys kept other. absurd kept };

    ghost sound_counts = { λ s name sound. absurd sound };
}
