//! The audit of a finished run.

ghost use Rattle.std.specs.Prelude.{◌≡◌, ◌++◌, IfOk, IfSome, OnOk, map};
ghost use Rattle.std.specs.List.{AllByRecursion};
ghost use Rattle.zio_script.specs.Grammar.{IsScriptOf};
ghost use Rattle.zio_outside.specs.Memory.{IsSoundDisk, disk_image};
ghost use Rattle.zio_cksum.specs.Images.{Images};
ghost use Rattle.zio_gang.specs.Trees.{sizes_of};
ghost use Rattle.zio_audit.specs.Audits.{AreNew, MayBeAudited};
ghost use Rattle.zio_audit.specs.Seen.{IsJudgedAs, IsSeenIn, verdict_of};
ghost use Rattle.zio_audit.specs.Verdicts.{IsVerdict};

use crate::run::judge_run;
use crate::seen::{Judged, Seen, verdict_of};
use crate::shapes::first_faulty;
use crate::verdict::Verdict;
use std::alloc::Global;
use std::marker::Brand;
use zio_command::{TopsFault, pool_over};
use zio_outside::MemDisk;
use zio_script::{Script, ScriptError, read_script};
use zio_types::{Bytes, List, NoMemory, Rest, Top, TopSize};

/// The most bytes of an image that is audited.
pub const AUDITED_LEN_MAX: u64 = 16 * 1024 * 1024;

/// What is to be said of a run of a script, by its report and the images before and after.
///
/// Yes says that the report is what a run of the script over the images before prints with its journal, for the places
/// and the order that it shows, and that the run leaves the images after. No has the first reason that applies.
pub fn audit(
    alloc: Global,
    script: &[u8],
    report: &[u8],
    before: &[Bytes],
    after: &[Bytes],
) -> Result<Verdict, NoMemory>
    requires { MayBeAudited (record {
      script = script.now;
      report = report.now;
      before = before.now;
      after = after.now;
    }) }
    ensures { IfOk result (IsVerdict (record {
      script = script.now;
      report = report.now;
      before = before.now;
      after = after.now;
    })) }
{
    let images = copies_of(alloc, before)?;
    audit_over(alloc, script, report, images, after)
}

/// The same over images that it may change, so that those before the run aren't held twice.
pub fn audit_over(
    alloc: Global,
    script: &[u8],
    report: &[u8],
    before: Vec<Bytes>,
    after: &[Bytes],
) -> Result<Verdict, NoMemory>
    requires { MayBeAudited (record {
      script = script.now;
      report = report.now;
      before = before.items;
      after = after.now;
    }) }
    ensures { IfOk result (IsVerdict (record {
      script = script.now;
      report = report.now;
      before = before.items;
      after = after.now;
    })) }
{
    let seen = audit_seen(alloc, script, report, before, after)?;
    Ok(verdict_of(seen))
}

/// The same, with the place where the first reason to say no was seen; none is yes.
pub fn audit_seen(
    alloc: Global,
    script: &[u8],
    report: &[u8],
    before: Vec<Bytes>,
    after: &[Bytes],
) -> Result<Option<Seen>, NoMemory>
    requires { MayBeAudited (record {
      script = script.now;
      report = report.now;
      before = before.items;
      after = after.now;
    }) }
    ensures verdict { IfOk result (λ seen. IsVerdict (record {
      script = script.now;
      report = report.now;
      before = before.items;
      after = after.now;
    }) (verdict_of seen)) }
    ensures place { IfOk result (λ seen. IfSome seen (IsSeenIn (record {
      script = script.now;
      report = report.now;
      before = before.items;
      after = after.now;
    }))) }
{
    let judged = audit_rounds(alloc, script, report, before)?;
    Ok(judged.seen_with(after))
}

/// What is to be said before the images after are looked at, so that they need not be held while the rounds are run.
pub fn audit_rounds(
    alloc: Global,
    script: &[u8],
    report: &[u8],
    before: Vec<Bytes>,
) -> Result<Judged, NoMemory>
    requires { MayBeAudited (record {
      script = script.now;
      report = report.now;
      before = before.items;
      after = before.items;
    }) }
    ensures { IfOk result (λ judged. (after : Images) → IsJudgedAs (record {
      script = script.now;
      report = report.now;
      before = before.items;
      after = after;
    }) judged) }
{
    match read_script(alloc, script) {
        Ok(read) => audit_script(alloc, script, &read, report, before),
        Err(ScriptError::Fault(fault)) => Ok(Judged::No(Seen::Script { line: fault.line })),
        Err(ScriptError::Memory) => Err(NoMemory),
    }
}

// The same of a script that is accepted, which `text` is.
fn audit_script(
    alloc: Global,
    text: &[u8],
    script: &Script,
    report: &[u8],
    before: Vec<Bytes>,
) -> Result<Judged, NoMemory>
    requires may { MayBeAudited (record {
      script = text.now;
      report = report.now;
      before = before.items;
      after = before.items;
    }) }
    requires script { IsScriptOf text.now script.now }
    ensures { IfOk result (λ judged. (after : Images) → IsJudgedAs (record {
      script = text.now;
      report = report.now;
      before = before.items;
      after = after;
    }) judged) }
{
    let disks = disks_of(alloc, before)?;
    let (setting, tops) = match pool_over(alloc, script, disks.as_slice()) {
        Ok(pool) => pool,
        Err(TopsFault::Leaf(leaf)) => return Ok(Judged::No(Seen::Leaf { leaf })),
        Err(TopsFault::Memory) => return Err(NoMemory),
    };
    let sizes = sizes_of(alloc, tops.as_slice())?;
    match first_faulty(alloc, report)? {
        Some(line) => Ok(Judged::No(Seen::Lines { line })),
        None => judge_run::<Brand>(
            alloc,
            text,
            script,
            report,
            setting,
            sizes.as_slice(),
            disks,
        ),
    }
}

// The same images once more.
fn copies_of(alloc: Global, images: &[Bytes]) -> Result<Vec<Bytes>, NoMemory>
    ensures { IfOk result (λ copies. copies.items ≡ images.now) }
{
    let mut copies = Vec::new(alloc);
    for image in images {
        let mut copy = List::new(alloc);
        copy.extend_from_slice(image.as_slice())?;
        copies.push(copy)?;
    }
    Ok(copies)
}

// A disk in memory for each image, which never fails.
fn disks_of(alloc: Global, images: Vec<Bytes>) -> Result<Vec<MemDisk>, NoMemory>
    ensures { IfOk result (λ disks. AreNew disks.items images.items) }
{
    let mut disks = Vec::with_capacity(alloc, images.len())?;
    add_disks(alloc, List::from_vec(images).into_rest(), &mut disks)?;
    Ok(disks)
}

// Adds such a disk for each image.
fn add_disks(
    alloc: Global,
    mut images: Rest<Bytes>,
    disks: &mut Vec<MemDisk>,
) -> Result<(), NoMemory>
    ensures images { OnOk result (map disk_image disks.new.items ≡ map disk_image disks.old.items ++ images) }
    ensures sound { OnOk result (AllByRecursion IsSoundDisk disks.old.items
        → AllByRecursion IsSoundDisk disks.new.items) }
{
    if let Some(image) = images.next() {
        disks.push(MemDisk::new(image, List::new(alloc)))?;
        add_disks(alloc, images, disks)?;
    }
    Ok(())
}

// The sizes of the tops.
fn sizes_of(alloc: Global, tops: &[Top]) -> Result<List<TopSize>, NoMemory>
    ensures { IfOk result (λ sizes. sizes ≡ sizes_of tops.now) }
{
    let mut sizes = List::new(alloc);
    for top in tops {
        sizes.push(TopSize {
            sectors: top.sectors,
            unit: top.unit,
        })?;
    }
    Ok(sizes)
}
