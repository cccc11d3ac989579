//! The tops of a script over images of known sizes.

ghost use Rattle.std.specs.Prelude.{◌≡◌, ◌<◌, ◌≤◌, ◌*◌, ◌/◌, ℕ, true, IfOk, IsErrOf, MatchOption, OnOk, length, map, slice_index_or};
ghost use Rattle.std.specs.List.{AllByRecursion, list_all};
ghost use Rattle.zio_types.specs.Places.{is_lawful_top, is_unit, sector_size};
ghost use Rattle.zio_cksum.specs.Images.{Images};
ghost use Rattle.zio_gang.specs.Runs.{least_sectors, top_of};
ghost use Rattle.zio_gang.specs.Trees.{size_of, sizes_of};
ghost use Rattle.zio_report.specs.Meanings.{tops_of};
ghost use Rattle.zio_disks.specs.Trees.{HasSectors};
ghost use Rattle.zio_command.specs.Outcomes.{HasLawfulSize};
ghost use Rattle.zio_command.specs.declared.image.TheConstants.{IMAGE_LEN_MAX};
ghost use Rattle.zio_command.specs.declared.tops.TopsFault.TheVariants.{Memory};
ghost use Rattle.zio_command.specs.Tops.{HaveImages, HaveUnits, IsFirstMissing, leaves_of};

use std::alloc::Global;
use zio_outside::Disk;
use zio_script::{Script, TopLine};
use zio_types::{List, NoMemory, SECTOR_SIZE, Top};

/// Why a script has no tops over some images.
#[derive(Clone, Copy, Debug, PartialEq, Eq)]
pub enum TopsFault {
    /// This is the first leaf, in the script's order, that has no image.
    Leaf(u32),
    /// Want of memory.
    Memory,
}

impl From<NoMemory> for TopsFault {
    ghost from_gives = { λ _ f. f ≡ Memory };

    fn from(_refused: NoMemory) -> TopsFault {
        TopsFault::Memory
    }
}

/// The tops of the script over images of these sizes in bytes. Each has as many sectors as its smallest leaf has whole
/// ones, rounded down to its unit.
pub fn tops_over(alloc: Global, script: &Script, sizes: &[u64]) -> Result<List<Top>, TopsFault>
    requires units { HaveUnits script.now.tops }
    ensures ok { IfOk result (λ tops. (images : Images) → map length images ≡ sizes.now
        → tops ≡ tops_of script.now images) }
    ensures named { OnOk result (HaveImages (length sizes.now) (leaves_of script.now.tops)) }
    ensures bears { IfOk result (λ tops. AllByRecursion (HasSectors sizes.now) tops) }
    ensures lawful { IfOk result (λ tops. list_all is_lawful_top (sizes_of tops) ≡ true) }
    ensures count { IfOk result (λ tops. length tops ≡ length script.now.tops) }
    ensures short { AllByRecursion HasLawfulSize sizes.now
        → IfOk result (λ tops. AllByRecursion (λ top. top.sectors ≤ IMAGE_LEN_MAX) tops) }
    ensures missing { (leaf : ℕ) → IsErrOf result (TopsFault.Leaf leaf) →
        IsFirstMissing (length sizes.now) (leaves_of script.now.tops) leaf }
{
    let lines = script.tops.as_slice();
    if let Some(leaf) = missing_leaf(lines, sizes.len()) {
        return Err(TopsFault::Leaf(leaf));
    }
    match tops_of(alloc, lines, sizes) {
        Ok(tops) => Ok(tops),
        Err(_) => Err(TopsFault::Memory),
    }
}

/// The first leaf of these tops that has none of so many images.
fn missing_leaf(lines: &[TopLine], images: usize) -> Option<u32>
    ensures { MatchOption result (HaveImages images (leaves_of lines.now))
        (IsFirstMissing images (leaves_of lines.now)) }
{
    match lines {
        [] => None,
        [line, rest @ ..] => match missing_of(line.leaves.as_slice(), images) {
            Some(leaf) => Some(leaf),
            None => missing_leaf(rest, images),
        },
    }
}

/// The same of one top's leaves.
fn missing_of(leaves: &[u32], images: usize) -> Option<u32>
    ensures { MatchOption result (HaveImages images leaves.now) (IsFirstMissing images leaves.now) }
{
    match leaves {
        [] => None,
        [leaf, ..] if *leaf as usize >= images => Some(*leaf),
        [_, rest @ ..] => missing_of(rest, images),
    }
}

fn tops_of(alloc: Global, lines: &[TopLine], sizes: &[u64]) -> Result<List<Top>, NoMemory>
    requires units { HaveUnits lines.now }
    requires named { HaveImages (length sizes.now) (leaves_of lines.now) }
    ensures ok { IfOk result (λ tops. (images : Images) → map length images ≡ sizes.now
        → tops ≡ map (top_of images) lines.now) }
    ensures bears { IfOk result (λ tops. AllByRecursion (HasSectors sizes.now) tops) }
    ensures lawful { IfOk result (λ tops. list_all is_lawful_top (sizes_of tops) ≡ true) }
    ensures count { IfOk result (λ tops. length tops ≡ length lines.now) }
    ensures short { AllByRecursion HasLawfulSize sizes.now
        → IfOk result (λ tops. AllByRecursion (λ top. top.sectors ≤ IMAGE_LEN_MAX) tops) }
{
    let mut tops = List::new(alloc);
    for line in lines {
        tops.push(top_of(alloc, line, sizes)?)?;
    }
    Ok(tops)
}

/// The top of a line.
fn top_of(alloc: Global, line: &TopLine, sizes: &[u64]) -> Result<Top, NoMemory>
    requires unit { is_unit line.now.unit ≡ true }
    requires named { HaveImages (length sizes.now) line.now.leaves }
    ensures ok { IfOk result (λ top. (images : Images) → map length images ≡ sizes.now → top ≡ top_of images line.now) }
    ensures bears { IfOk result (HasSectors sizes.now) }
    ensures lawful { IfOk result (λ top. is_lawful_top (size_of top) ≡ true) }
    ensures short { AllByRecursion HasLawfulSize sizes.now → IfOk result (λ top. top.sectors ≤ IMAGE_LEN_MAX) }
{
    let mut leaves = List::new(alloc);
    leaves.extend_from_slice(line.leaves.as_slice())?;
    let unit = u64::from(line.unit);
    Ok(Top {
        leaves,
        sectors: least_sectors(line.leaves.as_slice(), sizes) / unit * unit,
        unit: line.unit,
    })
}

/// How many whole sectors the smallest of the leaves has.
fn least_sectors(leaves: &[u32], sizes: &[u64]) -> u64
    requires named { HaveImages (length sizes.now) leaves.now }
    ensures least { (images : Images) → map length images ≡ sizes.now → result ≡ least_sectors images leaves.now }
    ensures short { AllByRecursion HasLawfulSize sizes.now → result ≤ IMAGE_LEN_MAX }
    ensures fits { AllByRecursion (λ leaf. result * sector_size ≤ slice_index_or sizes.now leaf 0) leaves.now }
{
    match leaves {
        [] => 0,
        [leaf] => sectors_at(*leaf, sizes),
        [leaf, rest @ ..] => sectors_at(*leaf, sizes).min(least_sectors(rest, sizes)),
    }
}

fn sectors_at(leaf: u32, sizes: &[u64]) -> u64
    requires named { leaf < length sizes.now }
    ensures { result ≡ slice_index_or sizes.now leaf 0 / sector_size }
{
    sizes[leaf as usize] / u64::from(SECTOR_SIZE)
}

/// The sizes of the disks in bytes.
pub fn sizes_of_disks<D: Disk>(alloc: Global, disks: &[D]) -> Result<List<u64>, NoMemory>
    ensures { IfOk result (λ sizes. sizes ≡ map D.bytes disks.now) }
{
    let mut sizes = List::new(alloc);
    for disk in disks {
        sizes.push(disk.size())?;
    }
    Ok(sizes)
}

/// The same tops once more.
pub(crate) fn copy_of(alloc: Global, tops: &[Top]) -> Result<List<Top>, NoMemory>
    ensures { IfOk result (λ copy. copy ≡ tops.now) }
{
    let mut copy = List::new(alloc);
    for top in tops {
        copy.push(same_top(alloc, top)?)?;
    }
    Ok(copy)
}

fn same_top(alloc: Global, top: &Top) -> Result<Top, NoMemory>
    ensures { IfOk result (λ same. same ≡ top.now) }
{
    let mut leaves = List::new(alloc);
    leaves.extend_from_slice(top.leaves.as_slice())?;
    Ok(Top {
        leaves,
        sectors: top.sectors,
        unit: top.unit,
    })
}
