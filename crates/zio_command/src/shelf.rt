//! The images of a command are fetched from their shelf, and given back to it.

ghost use Rattle.std.specs.Prelude.{◌≡◌, ◌≢◌, ◌+◌, ◌<◌, ◌≤◌, ◌++◌, ◌↔◌, ◌⊎◌, [], ℕ, List as Seq, IfOk, IsErrOf, OnErr, OnOk, length, map, take, vec_capacity, vec_len};
ghost use Rattle.std.specs.List.{AllByRecursion};
ghost use Rattle.zio_outside.specs.Outside.{AnyRose, GoesOut, Raised, Rose, StaysHome, count_max, counted};
ghost use Rattle.zio_cksum.specs.Images.{Images};
ghost use Rattle.zio_disks.specs.Disks.{Tell};
ghost use Rattle.zio_command.specs.Headline.{TellEach};
ghost use Rattle.zio_command.specs.Outcomes.{HasLawfulSize, IsEachBack, counted_times};
ghost use Rattle.zio_command.specs.Shelves.{AreFetched, AreFresh, AreOut, ComeHome, IsFirstUnlawful, KeptComeHome, added};
ghost use Rattle.zio_command.specs.Words.{AreImages, AreNames};

use crate::image::is_lawful_size;
use std::alloc::Global;
use zio_outside::{Disk, FetchFault, Shelf};
use zio_types::{List, Rest, Text};

/// Why the images of a command were not fetched.
#[derive(Clone, Copy, Debug, PartialEq, Eq)]
pub enum ImagesFault {
    /// The fetch of the image of this leaf failed.
    Failed(u32),
    /// The image of this leaf is the first whose size is out of range.
    Size(u32),
    /// Want of memory.
    Memory,
}

/// Fetches the images of these names, that of leaf 0 first, and measures each as it comes: 64 KiB to 256 MiB.
///
/// After an error all that were fetched are back on the shelf.
pub fn fetch_images<H: Shelf>(
    alloc: Global,
    names: &[Text],
    shelf: &mut H,
) -> Result<Vec<H::Disk>, ImagesFault>
where
    H::Disk: Drop,
    requires names { AreImages names.now }
    requires home { H.tells shelf.old → AllByRecursion (λ name. ¬ H.out shelf.old name) names.now }

    // What is fetched.
    ensures all { IfOk result (λ disks. length disks.items ≡ length names.now) }
    ensures fresh { IfOk result (λ disks. AreFresh H.Disk.bytes H.Disk.faults H.Disk.faults_at_fetch disks.items) }
    ensures told { IfOk result (λ disks. H.tells shelf.old → AreFetched H.Disk.home H.Disk.image names.now disks.items
        (H.image shelf.old) (H.image shelf.new) (H.out shelf.old) (H.out shelf.new)) }
    ensures lawful_told { OnOk result ((images : Images) → H.tells shelf.old
        → TellEach (H.image shelf.old) names.now images →
        AllByRecursion HasLawfulSize (map length images)) }
    ensures fetches { OnOk result ((H.fetches shelf.new ≡ counted_times (length names.now) (H.fetches shelf.old))
        × (H.returns shelf.new ≡ H.returns shelf.old)) }
    ensures size { OnOk result (HasLawfulSize (H.last_size shelf.new)) }
    ensures steady { OnOk result (H.faults shelf.new ≡ H.faults shelf.old) }

    // Why it isn't.
    ensures failed { (leaf : ℕ) → IsErrOf result (ImagesFault.Failed leaf) →
        Rose (H.faults shelf.old) (H.faults shelf.new) × (leaf < length names.now)
        × (H.fetches shelf.new ≡ counted_times leaf (H.fetches shelf.old)) }
    ensures failed_told { (leaf : ℕ) → IsErrOf result (ImagesFault.Failed leaf) → (images : Images) →
        H.tells shelf.old → TellEach (H.image shelf.old) names.now images →
        AllByRecursion HasLawfulSize (take leaf (map length images)) }
    ensures unlawful { (leaf : ℕ) → IsErrOf result (ImagesFault.Size leaf) →
        (H.faults shelf.new ≡ H.faults shelf.old) × (leaf < length names.now)
        × (H.fetches shelf.new ≡ counted_times (leaf + 1) (H.fetches shelf.old))
        × ¬ HasLawfulSize (H.last_size shelf.new) }
    ensures unlawful_told { (leaf : ℕ) → IsErrOf result (ImagesFault.Size leaf) → (images : Images) →
        H.tells shelf.old → TellEach (H.image shelf.old) names.now images → IsFirstUnlawful (map length images) leaf }
    ensures memory { IsErrOf result ImagesFault.Memory → H.faults shelf.new ≡ H.faults shelf.old }
    ensures back { OnErr result
        (IsEachBack (H.fetches shelf.old) (H.fetches shelf.new) (H.returns shelf.old) (H.returns shelf.new)) }
    ensures stays { OnErr result (H.tells shelf.old →
        StaysHome (H.image shelf.old) (H.image shelf.new) (H.out shelf.old) (H.out shelf.new)) }

    // What stays.
    ensures disk_faults { H.disk_faults shelf.new ≡ H.disk_faults shelf.old }
    ensures tells { H.tells shelf.old ↔ H.tells shelf.new }
    ensures sound { AllByRecursion (H.sound shelf.old) names.now →
        (H.faults shelf.new ≡ H.faults shelf.old) × ((leaf : ℕ) → ¬ IsErrOf result (ImagesFault.Failed leaf))
        × ((name : Seq ℕ) → H.sound shelf.old name → H.sound shelf.new name) }
    ensures sound_disks { AllByRecursion (H.sound shelf.old) names.now →
        IfOk result (λ disks. AllByRecursion H.Disk.sound disks.items) }
{
    let mut disks = Vec::new(alloc);
    if disks.reserve(names.len()).is_err() {
        return Err(ImagesFault::Memory);
    }
    match fetch_each(names, shelf, &mut disks) {
        Ok(()) => Ok(disks),
        Err(fault) => {
            give_back_images(disks, shelf);
            Err(fault)
        }
    }
}

/// Fetches and measures the images of these names, behind the disks that are fetched.
fn fetch_each<H: Shelf>(
    names: &[Text],
    shelf: &mut H,
    disks: &mut Vec<H::Disk>,
) -> Result<(), ImagesFault>
where
    H::Disk: Drop,
    requires names { AreNames names.now }
    requires few { vec_len disks.old + length names.now ≤ 16 }
    requires room { vec_len disks.old + length names.now ≤ vec_capacity disks.old }
    requires home { H.tells shelf.old → AllByRecursion (λ name. ¬ H.out shelf.old name) names.now }
    ensures added { disks.new.items ≡ disks.old.items ++ added disks.old.items disks.new.items }
    ensures front { length (added disks.old.items disks.new.items) ≤ length names.now }
    ensures all { OnOk result (length (added disks.old.items disks.new.items) ≡ length names.now) }
    ensures fresh { AreFresh H.Disk.bytes H.Disk.faults H.Disk.faults_at_fetch (added disks.old.items disks.new.items) }
    ensures told { H.tells shelf.old → AreFetched H.Disk.home H.Disk.image
        (take (length (added disks.old.items disks.new.items)) names.now) (added disks.old.items disks.new.items)
        (H.image shelf.old) (H.image shelf.new) (H.out shelf.old) (H.out shelf.new) }
    ensures last { HasLawfulSize (H.last_size shelf.old) ⊎ (names.now ≢ [])
        → OnOk result (HasLawfulSize (H.last_size shelf.new)) }
    ensures steady { OnOk result ((H.faults shelf.new ≡ H.faults shelf.old)
        × (H.returns shelf.new ≡ H.returns shelf.old)
        × (H.fetches shelf.new ≡ counted_times (length names.now) (H.fetches shelf.old))) }
    ensures failed { (leaf : ℕ) → IsErrOf result (ImagesFault.Failed leaf)
        → Rose (H.faults shelf.old) (H.faults shelf.new)
        × (leaf ≡ length disks.new.items) × (length (added disks.old.items disks.new.items) < length names.now)
        × (H.returns shelf.new ≡ H.returns shelf.old)
        × (H.fetches shelf.new ≡ counted_times (length (added disks.old.items disks.new.items)) (H.fetches shelf.old)) }
    ensures unlawful { (leaf : ℕ) → IsErrOf result (ImagesFault.Size leaf) → (H.faults shelf.new ≡ H.faults shelf.old)
        × (leaf ≡ length disks.new.items) × (length (added disks.old.items disks.new.items) < length names.now)
        × (H.returns shelf.new ≡ counted (H.returns shelf.old))
        × (H.fetches shelf.new ≡ counted (counted_times (length (added disks.old.items disks.new.items))
        (H.fetches shelf.old)))
        × ¬ HasLawfulSize (H.last_size shelf.new) }
    ensures lawful_told { (images : Images) → H.tells shelf.old → TellEach (H.image shelf.old) names.now images →
        AllByRecursion HasLawfulSize (take (length (added disks.old.items disks.new.items)) (map length images)) }
    ensures unlawful_told { (leaf : ℕ) → IsErrOf result (ImagesFault.Size leaf) → (images : Images)
        → H.tells shelf.old →
        TellEach (H.image shelf.old) names.now images →
        IsFirstUnlawful (map length images) (length (added disks.old.items disks.new.items)) }
    ensures memory { IsErrOf result ImagesFault.Memory → (H.faults shelf.new ≡ H.faults shelf.old)
        × (H.returns shelf.new ≡ H.returns shelf.old)
        × (H.fetches shelf.new ≡ counted_times (length (added disks.old.items disks.new.items)) (H.fetches shelf.old)) }
    ensures disk_faults { H.disk_faults shelf.new ≡ H.disk_faults shelf.old }
    ensures tells { H.tells shelf.old ↔ H.tells shelf.new }
    ensures sound { AllByRecursion (H.sound shelf.old) names.now →
        (H.faults shelf.new ≡ H.faults shelf.old) × ((leaf : ℕ) → ¬ IsErrOf result (ImagesFault.Failed leaf))
        × ((name : Seq ℕ) → H.sound shelf.old name → H.sound shelf.new name)
        × AllByRecursion H.Disk.sound (added disks.old.items disks.new.items) }
{
    let [name, rest @ ..] = names else {
        return Ok(());
    };
    let leaf = disks.len() as u32;
    let disk = fetch_lawful(name.as_str(), leaf, shelf)?;
    match disks.push(disk) {
        Ok(()) => fetch_each(rest, shelf, disks),
        Err(_) => unreachable!(),
    }
}

/// Fetches the image of a leaf, and puts it back if its size is out of range.
fn fetch_lawful<H: Shelf>(name: &str, leaf: u32, shelf: &mut H) -> Result<H::Disk, ImagesFault>
    requires home { H.tells shelf.old → ¬ H.out shelf.old name.now }
    ensures fresh { IfOk result (λ disk. HasLawfulSize (H.Disk.bytes disk)
        × (H.Disk.faults_at_fetch disk ≡ H.Disk.faults disk) × (H.Disk.faults disk < count_max)) }
    ensures size { OnOk result (HasLawfulSize (H.last_size shelf.new)) }
    ensures ok { OnOk result ((H.faults shelf.new ≡ H.faults shelf.old)
        × (H.fetches shelf.new ≡ counted (H.fetches shelf.old)) × (H.returns shelf.new ≡ H.returns shelf.old)) }
    ensures disk { H.tells shelf.old → IfOk result (λ disk. (bytes : Seq ℕ) × H.image shelf.old name.now bytes
        × H.Disk.image disk bytes × H.Disk.home disk name.now) }
    ensures out { H.tells shelf.old → OnOk result
        (GoesOut name.now (H.image shelf.old) (H.image shelf.new) (H.out shelf.old) (H.out shelf.new)) }
    ensures failed { (n : ℕ) → IsErrOf result (ImagesFault.Failed n) → (n ≡ leaf)
        × Rose (H.faults shelf.old) (H.faults shelf.new)
        × (H.fetches shelf.new ≡ H.fetches shelf.old) × (H.returns shelf.new ≡ H.returns shelf.old) }
    ensures unlawful { (n : ℕ) → IsErrOf result (ImagesFault.Size n) → (n ≡ leaf)
        × (H.faults shelf.new ≡ H.faults shelf.old) × (H.fetches shelf.new ≡ counted (H.fetches shelf.old))
        × (H.returns shelf.new ≡ counted (H.returns shelf.old)) × ¬ HasLawfulSize (H.last_size shelf.new) }
    ensures unlawful_told { (n : ℕ) → IsErrOf result (ImagesFault.Size n) → (bytes : Seq ℕ) → H.tells shelf.old →
        H.image shelf.old name.now bytes → ¬ HasLawfulSize (length bytes) }
    ensures lawful_told { OnOk result ((bytes : Seq ℕ) → H.tells shelf.old → H.image shelf.old name.now bytes →
        HasLawfulSize (length bytes)) }
    ensures memory { IsErrOf result ImagesFault.Memory → (H.faults shelf.new ≡ H.faults shelf.old)
        × (H.fetches shelf.new ≡ H.fetches shelf.old) × (H.returns shelf.new ≡ H.returns shelf.old) }
    ensures stays { H.tells shelf.old → OnErr result
        (StaysHome (H.image shelf.old) (H.image shelf.new) (H.out shelf.old) (H.out shelf.new)) }
    ensures disk_faults { H.disk_faults shelf.new ≡ H.disk_faults shelf.old }
    ensures tells { H.tells shelf.old ↔ H.tells shelf.new }
    ensures sound { H.sound shelf.old name.now → (H.faults shelf.new ≡ H.faults shelf.old)
        × ((n : ℕ) → ¬ IsErrOf result (ImagesFault.Failed n))
        × ((other : Seq ℕ) → H.sound shelf.old other → H.sound shelf.new other) × IfOk result H.Disk.sound }
{
    match shelf.fetch(name) {
        Ok(disk) => {
            if is_lawful_size(disk.size()) {
                return Ok(disk);
            }
            shelf.give_back(disk);
            Err(ImagesFault::Size(leaf))
        }
        Err(FetchFault::Failed) => Err(ImagesFault::Failed(leaf)),
        Err(FetchFault::Memory) => Err(ImagesFault::Memory),
    }
}

/// Gives the disks back to the shelf that handed them out, that of leaf 0 first.
pub fn give_back_images<H: Shelf>(disks: Vec<H::Disk>, shelf: &mut H)
where
    H::Disk: Drop,
    requires home { H.tells shelf.old → (names : Seq (Seq ℕ)) × (images : Images)
        × AreOut H.Disk.home H.Disk.image (H.out shelf.old) names images disks.items }

    // Each is at home under its name with the image that it has, and with what it keeps.
    ensures home { H.tells shelf.old → (names : Seq (Seq ℕ)) (images : Images) →
        AreOut H.Disk.home H.Disk.image (H.out shelf.old) names images disks.items →
        ComeHome names images (H.image shelf.old) (H.image shelf.new) (H.out shelf.old) (H.out shelf.new) }
    ensures stable_home { H.tells shelf.old → (names : Seq (Seq ℕ)) (images : Images) →
        AreOut H.Disk.home H.Disk.image (H.out shelf.old) names images disks.items →
        KeptComeHome H.Disk.keeps names disks.items (H.keeps shelf.old) (H.keeps shelf.new) }
    ensures tells { H.tells shelf.old ↔ H.tells shelf.new }
    ensures returns { H.returns shelf.new ≡ counted_times (length disks.items) (H.returns shelf.old) }

    // The count of the disks' faults rises where one of them failed since its fetch, and only there.
    ensures rose { AllByRecursion (λ n. n < count_max) (map H.Disk.faults_at_fetch disks.items) →
        AnyRose (map H.Disk.faults_at_fetch disks.items) (map H.Disk.faults disks.items) →
        Raised (H.disk_faults shelf.old) (H.disk_faults shelf.new) }
    ensures same { map H.Disk.faults_at_fetch disks.items ≡ map H.Disk.faults disks.items →
        H.disk_faults shelf.new ≡ H.disk_faults shelf.old }

    // What stays.
    ensures faults { H.faults shelf.new ≡ H.faults shelf.old }
    ensures fetches { H.fetches shelf.new ≡ H.fetches shelf.old }
    ensures size { H.last_size shelf.new ≡ H.last_size shelf.old }
    ensures sound { AllByRecursion H.Disk.sound disks.items →
        (name : Seq ℕ) → H.sound shelf.old name → H.sound shelf.new name }
{
    give_back_rest(List::from_vec(disks).into_rest(), shelf);
}

fn give_back_rest<H: Shelf>(mut disks: Rest<H::Disk>, shelf: &mut H)
where
    H::Disk: Drop,
    requires home { H.tells shelf.old → (names : Seq (Seq ℕ)) × (images : Images)
        × AreOut H.Disk.home H.Disk.image (H.out shelf.old) names images disks }
    ensures home { H.tells shelf.old → (names : Seq (Seq ℕ)) (images : Images) →
        AreOut H.Disk.home H.Disk.image (H.out shelf.old) names images disks →
        ComeHome names images (H.image shelf.old) (H.image shelf.new) (H.out shelf.old) (H.out shelf.new) }
    ensures stable_home { H.tells shelf.old → (names : Seq (Seq ℕ)) (images : Images) →
        AreOut H.Disk.home H.Disk.image (H.out shelf.old) names images disks →
        KeptComeHome H.Disk.keeps names disks (H.keeps shelf.old) (H.keeps shelf.new) }
    ensures tells { H.tells shelf.old ↔ H.tells shelf.new }
    ensures returns { H.returns shelf.new ≡ counted_times (length disks) (H.returns shelf.old) }
    ensures rose { AllByRecursion (λ n. n < count_max) (map H.Disk.faults_at_fetch disks) →
        AnyRose (map H.Disk.faults_at_fetch disks) (map H.Disk.faults disks) →
        Raised (H.disk_faults shelf.old) (H.disk_faults shelf.new) }
    ensures kept { H.disk_faults shelf.old ≤ H.disk_faults shelf.new }
    ensures same { map H.Disk.faults_at_fetch disks ≡ map H.Disk.faults disks →
        H.disk_faults shelf.new ≡ H.disk_faults shelf.old }
    ensures faults { H.faults shelf.new ≡ H.faults shelf.old }
    ensures fetches { H.fetches shelf.new ≡ H.fetches shelf.old }
    ensures size { H.last_size shelf.new ≡ H.last_size shelf.old }
    ensures sound { AllByRecursion H.Disk.sound disks →
        (name : Seq ℕ) → H.sound shelf.old name → H.sound shelf.new name }
{
    if let Some(disk) = disks.next() {
        shelf.give_back(disk);
        give_back_rest(disks, shelf);
    }
}
