//! The files of an audit: fetched, measured, judged and given back.

ghost use Rattle.std.specs.Prelude.{◌≡◌, ◌↔◌, ℕ, List as Seq, IfOk, IfSome, IsErrOf, OnOk, length, map, string_bytes};
ghost use Rattle.std.specs.List.{AllByRecursion};
ghost use Rattle.zio_outside.specs.Outside.{StaysHome};
ghost use Rattle.zio_disks.specs.Disks.{AnyRose, AreSameDisks};
ghost use Rattle.zio_audit.specs.Audits.{MayBeAudited};
ghost use Rattle.zio_audit.specs.Seen.{IsSeenIn, verdict_of};
ghost use Rattle.zio_audit.specs.Verdicts.{Case, IsVerdict};
ghost use Rattle.zio_command.specs.Outcomes.{IsEachBack};
ghost use Rattle.zio_command.specs.Seen.{shelf_by};
ghost use Rattle.zio_audit_run.specs.Codes.{CameOut};
ghost use Rattle.zio_audit_run.specs.Files.{AreFit, IsUnfit, files_in};
ghost use Rattle.zio_audit_run.specs.Reads.{AreBytesOf, TellStill};
ghost use Rattle.zio_audit_run.specs.Words.{IsCount, NameAudit};

use crate::fetch::{FilesFault, fetch_all};
use crate::judge::judge;
use crate::sizes::first_unfit;
use std::alloc::Global;
use zio_audit::Seen;
use zio_command::{give_back_images, sizes_of_disks};
use zio_disks::Stop;
use zio_outside::{Disk, Shelf};

/// Why there is no verdict.
#[derive(Clone, Copy, Debug, PartialEq, Eq)]
pub(crate) enum AuditFault {
    /// The file of this number can't be fetched, or is the first that is unfit by its size.
    File(usize),
    /// A disk failed.
    Device,
    /// Want of memory.
    Memory,
}

/// Where the first reason to say no is seen in the files of these names, none where there is none. They are fetched,
/// measured and read, and are back on the shelf then, whatever the answer.
pub(crate) fn audit_named<H: Shelf>(
    alloc: Global,
    words: &[String],
    shelf: &mut H,
) -> Result<Option<Seen>, AuditFault>
where
    H::Disk: Drop,
    requires names { NameAudit (map string_bytes words.now) }
    requires home { H.tells shelf.old → (name : Seq ℕ) → ¬ H.out shelf.old name }
    ensures came { let saw = shelf_by H.tells H.image H.out H.faults H.disk_faults H.fetches H.returns H.last_size in
        CameOut (map string_bytes words.now) (saw shelf.old) (saw shelf.new) result }
    ensures calm { ¬ IsErrOf result AuditFault.Device → H.disk_faults shelf.new ≡ H.disk_faults shelf.old }
    ensures back { IsEachBack (H.fetches shelf.old) (H.fetches shelf.new) (H.returns shelf.old) (H.returns shelf.new) }
    ensures tells { H.tells shelf.old ↔ H.tells shelf.new }
    ensures home { H.tells shelf.old →
        StaysHome (H.image shelf.old) (H.image shelf.new) (H.out shelf.old) (H.out shelf.new) }
    ensures sound { AllByRecursion (H.sound shelf.old) (map string_bytes words.now) →
        (H.faults shelf.new ≡ H.faults shelf.old) × (H.disk_faults shelf.new ≡ H.disk_faults shelf.old)
        × ((name : Seq ℕ) → H.sound shelf.old name → H.sound shelf.new name) }
{
    match fetch_all(alloc, words, shelf) {
        Ok(disks) => {
            let mut disks = disks;
            let seen = judge_fit(alloc, &mut disks);
            give_back_images(disks, shelf);
            seen
        }
        Err(FilesFault::Failed(k)) => Err(AuditFault::File(k)),
        Err(FilesFault::Memory) => Err(AuditFault::Memory),
    }
}

/// Where that reason is seen in the files of these disks, where their sizes are fit.
fn judge_fit<D: Disk>(alloc: Global, disks: &mut [D]) -> Result<Option<Seen>, AuditFault>
    requires { IsCount (length disks.old) }
    ensures seen { IfOk result (λ seen. (c : Case) × AreBytesOf D.bytes D.image disks.old (files_in c)
        × MayBeAudited c × IsVerdict c (verdict_of seen) × IfSome seen (IsSeenIn c)) }
    ensures fit { OnOk result (AreFit (map D.bytes disks.old)) }
    ensures unfit { (k : ℕ) → IsErrOf result (AuditFault.File k) → IsUnfit (map D.bytes disks.old) k }
    ensures stopped { IsErrOf result AuditFault.Device → AreFit (map D.bytes disks.old)
        × AnyRose (map D.faults disks.old) (map D.faults disks.new) }
    ensures calm { ¬ IsErrOf result AuditFault.Device → map D.faults disks.new ≡ map D.faults disks.old }
    ensures still { TellStill D.image disks.old disks.new }
    ensures same { AreSameDisks D.bytes D.faults D.faults_at_fetch D.home D.image D.sound disks.old disks.new }
{
    let sizes = match sizes_of_disks(alloc, disks) {
        Ok(sizes) => sizes,
        Err(_) => return Err(AuditFault::Memory),
    };
    if let Some(k) = first_unfit(sizes.as_slice()) {
        return Err(AuditFault::File(k));
    }
    match judge(alloc, disks) {
        Ok(seen) => Ok(seen),
        Err(stop) => Err(fault_of(stop)),
    }
}

fn fault_of(stop: Stop) -> AuditFault
    ensures device { result ≡ AuditFault.Device → stop ≡ Stop.Device }
    ensures stopped { stop ≡ Stop.Device → result ≡ AuditFault.Device }
    ensures file { (k : ℕ) → ¬ (result ≡ AuditFault.File k) }
{
    match stop {
        Stop::Device => AuditFault::Device,
        Stop::Memory => AuditFault::Memory,
    }
}
