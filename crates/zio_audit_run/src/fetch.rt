//! All files of an audit are fetched from their shelf.

ghost use Rattle.std.specs.Prelude.{◌≡◌, ◌+◌, ◌<◌, ◌≤◌, ◌++◌, ◌↔◌, ℕ, List as Seq, IfOk, IsErrOf, OnErr, OnOk, length, map, string_bytes, take, vec_capacity, vec_len};
ghost use Rattle.std.specs.List.{AllByRecursion};
ghost use Rattle.zio_outside.specs.Outside.{Rose, StaysHome};
ghost use Rattle.zio_command.specs.Outcomes.{IsEachBack, counted_times};
ghost use Rattle.zio_command.specs.Shelves.{AreFetched, added};
ghost use Rattle.zio_command.specs.Words.{AreNames};
ghost use Rattle.zio_audit_run.specs.Files.{last_or};
ghost use Rattle.zio_audit_run.specs.Reads.{AreUnfailed};

use std::alloc::Global;
use zio_command::give_back_images;
use zio_outside::{FetchFault, Shelf};

/// Why files were not fetched.
#[derive(Clone, Copy, Debug, PartialEq, Eq)]
pub(crate) enum FilesFault {
    /// The fetch of the file of this number failed.
    Failed(usize),
    /// Want of memory.
    Memory,
}

/// Fetches the files of these names, one after another. After an error all that were fetched are back on the shelf.
pub(crate) fn fetch_all<H: Shelf>(
    alloc: Global,
    words: &[String],
    shelf: &mut H,
) -> Result<Vec<H::Disk>, FilesFault>
where
    H::Disk: Drop,
    requires names { AreNames (map string_bytes words.now) }
    requires home { H.tells shelf.old → AllByRecursion (λ name. ¬ H.out shelf.old name) (map string_bytes words.now) }

    // What is fetched.
    ensures all { IfOk result (λ disks. length disks.items ≡ length words.now) }
    ensures unfailed { IfOk result (λ disks. AreUnfailed H.Disk.faults H.Disk.faults_at_fetch disks.items) }
    ensures told { IfOk result (λ disks. H.tells shelf.old → AreFetched H.Disk.home H.Disk.image
        (map string_bytes words.now) disks.items
        (H.image shelf.old) (H.image shelf.new) (H.out shelf.old) (H.out shelf.new)) }
    ensures fetches { OnOk result ((H.fetches shelf.new ≡ counted_times (length words.now) (H.fetches shelf.old))
        × (H.returns shelf.new ≡ H.returns shelf.old)) }
    ensures steady { OnOk result (H.faults shelf.new ≡ H.faults shelf.old) }
    ensures last { IfOk result (λ disks. H.last_size shelf.new
        ≡ last_or (H.last_size shelf.old) (map H.Disk.bytes disks.items)) }

    // Why it isn't.
    ensures failed { (k : ℕ) → IsErrOf result (FilesFault.Failed k) → Rose (H.faults shelf.old) (H.faults shelf.new)
        × (k < length words.now) × (H.fetches shelf.new ≡ counted_times k (H.fetches shelf.old)) }
    ensures back { OnErr result
        (IsEachBack (H.fetches shelf.old) (H.fetches shelf.new) (H.returns shelf.old) (H.returns shelf.new)) }
    ensures stays { OnErr result (H.tells shelf.old →
        StaysHome (H.image shelf.old) (H.image shelf.new) (H.out shelf.old) (H.out shelf.new)) }

    // What stays.
    ensures disk_faults { H.disk_faults shelf.new ≡ H.disk_faults shelf.old }
    ensures tells { H.tells shelf.old ↔ H.tells shelf.new }
    ensures sound { AllByRecursion (H.sound shelf.old) (map string_bytes words.now) →
        (H.faults shelf.new ≡ H.faults shelf.old) × ((name : Seq ℕ) → H.sound shelf.old name → H.sound shelf.new name)
        × IfOk result (λ disks. AllByRecursion H.Disk.sound disks.items) }
{
    let mut disks = Vec::new(alloc);
    if disks.reserve(words.len()).is_err() {
        return Err(FilesFault::Memory);
    }
    match fetch_each(words, shelf, &mut disks) {
        Ok(()) => Ok(disks),
        Err(fault) => {
            let fetched = disks.len();
            give_back_images(disks, shelf);
            Err(fault_at(fault, fetched))
        }
    }
}

/// The fault of the fetch of the file of this number.
fn fault_at(fault: FetchFault, k: usize) -> FilesFault
    ensures { (n : ℕ) → result ≡ FilesFault.Failed n → (fault ≡ FetchFault.Failed) × (n ≡ k) }
{
    match fault {
        FetchFault::Failed => FilesFault::Failed(k),
        FetchFault::Memory => FilesFault::Memory,
    }
}

/// Fetches the files of these names, behind the disks that are fetched.
fn fetch_each<H: Shelf>(
    words: &[String],
    shelf: &mut H,
    disks: &mut Vec<H::Disk>,
) -> Result<(), FetchFault>
where
    H::Disk: Drop,
    requires names { AreNames (map string_bytes words.now) }
    requires room { vec_len disks.old + length words.now ≤ vec_capacity disks.old }
    requires home { H.tells shelf.old → AllByRecursion (λ name. ¬ H.out shelf.old name) (map string_bytes words.now) }
    ensures added { disks.new.items ≡ disks.old.items ++ added disks.old.items disks.new.items }
    ensures front { length (added disks.old.items disks.new.items) ≤ length words.now }
    ensures all { OnOk result (length (added disks.old.items disks.new.items) ≡ length words.now) }
    ensures unfailed { AreUnfailed H.Disk.faults H.Disk.faults_at_fetch (added disks.old.items disks.new.items) }
    ensures told { H.tells shelf.old → AreFetched H.Disk.home H.Disk.image
        (take (length (added disks.old.items disks.new.items)) (map string_bytes words.now))
        (added disks.old.items disks.new.items)
        (H.image shelf.old) (H.image shelf.new) (H.out shelf.old) (H.out shelf.new) }
    ensures counts { (H.returns shelf.new ≡ H.returns shelf.old) × (H.fetches shelf.new
        ≡ counted_times (length (added disks.old.items disks.new.items)) (H.fetches shelf.old)) }
    ensures steady { OnOk result (H.faults shelf.new ≡ H.faults shelf.old) }
    ensures last { OnOk result (H.last_size shelf.new
        ≡ last_or (H.last_size shelf.old) (map H.Disk.bytes (added disks.old.items disks.new.items))) }
    ensures failed { IsErrOf result FetchFault.Failed → Rose (H.faults shelf.old) (H.faults shelf.new)
        × (length (added disks.old.items disks.new.items) < length words.now) }
    ensures disk_faults { H.disk_faults shelf.new ≡ H.disk_faults shelf.old }
    ensures tells { H.tells shelf.old ↔ H.tells shelf.new }
    ensures sound { AllByRecursion (H.sound shelf.old) (map string_bytes words.now) →
        (H.faults shelf.new ≡ H.faults shelf.old) × ((name : Seq ℕ) → H.sound shelf.old name → H.sound shelf.new name)
        × AllByRecursion H.Disk.sound (added disks.old.items disks.new.items) }
{
    let [word, rest @ ..] = words else {
        return Ok(());
    };
    let disk = shelf.fetch(word.as_str())?;
    match disks.push(disk) {
        Ok(()) => fetch_each(rest, shelf, disks),
        Err(_) => unreachable!(),
    }
}
