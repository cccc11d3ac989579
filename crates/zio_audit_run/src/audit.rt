//! The top call of the auditor.

ghost use Rattle.std.specs.Prelude.{◌≡◌, ◌≢◌, ◌↔◌, ℕ, List as Seq, IfSome, map, string_bytes};
ghost use Rattle.std.specs.List.{AllByRecursion};
ghost use Rattle.zio_outside.specs.Outside.{Appends, Rose, StaysHome};
ghost use Rattle.zio_audit.specs.Seen.{IsSeenIn, verdict_of};
ghost use Rattle.zio_audit.specs.Verdicts.{Case, IsVerdict};
ghost use Rattle.zio_audit.specs.declared.verdict.Verdict.{Verdict as Answer};
ghost use Rattle.zio_command.specs.Outcomes.{Ends, IsEachBack, words_line};
ghost use Rattle.zio_command.specs.Seen.{shelf_by, sink_by};
ghost use Rattle.zio_audit_run.specs.Codes.{AuditEnds, IsAuditCode, IsDue, IsTold, verdict_code, verdict_line};
ghost use Rattle.zio_audit_run.specs.Files.{TellCase};
ghost use Rattle.zio_audit_run.specs.Words.{NameAudit};

use crate::files::{AuditFault, audit_named};
use crate::lines::{blame, tell};
use crate::words::name_audit;
use std::alloc::Global;
use zio_audit::{Seen, verdict_of};
use zio_command::{CODE_DEVICE, CODE_MEMORY, end_with};
use zio_outside::{Shelf, Sink};
use zio_types::Status;

/// Audits a finished run, and ends with the code of the verdict: 0 for yes, 10 for no.
///
/// The words are those after the program's name: SCRIPT, REPORT, 1 to 16 images before the run, and as many after it.
/// All are fetched from the shelf, read and given back, with every code, and none is changed. Code 8 is want of memory,
/// and may come whenever memory is asked for.
pub fn zio_audit_main<O: Sink, H: Shelf>(
    alloc: Global,
    words: &[String],
    shelf: &mut H,
    out: &mut O,
) -> Status
where
    H::Disk: Drop,
    requires { H.tells shelf.old → (name : Seq ℕ) → ¬ H.out shelf.old name }

    // The code table: the words of no audit, and how an audit ends.
    ensures codes { IsAuditCode result.code }
    ensures no_audit { ¬ NameAudit (map string_bytes words.now) →
        Ends 1 words_line result.code (O.faults out.old) (O.faults out.new) (O.holds out.old) (O.holds out.new)
        × (result.code ≢ 8) }
    ensures words { result.code ≡ 1 → ¬ NameAudit (map string_bytes words.now) }
    ensures ends { let sink = sink_by O.holds O.faults in
        let saw = shelf_by H.tells H.image H.out H.faults H.disk_faults H.fetches H.returns H.last_size in
        NameAudit (map string_bytes words.now) →
        AuditEnds (map string_bytes words.now) (sink out.old) (sink out.new) (saw shelf.old) (saw shelf.new)
        result.code }

    // What the codes 0 and 10 say of the files that the shelf tells.
    ensures verdict { IsTold result.code → (c : Case) → H.tells shelf.old →
        TellCase (H.image shelf.old) (map string_bytes words.now) c →
        (verdict : Answer) × IsVerdict c verdict × (result.code ≡ verdict_code verdict)
        × Appends (O.holds out.old) (O.holds out.new) (verdict_line verdict) }
    ensures steady { IsTold result.code → (O.faults out.new ≡ O.faults out.old)
        × (H.faults shelf.new ≡ H.faults shelf.old) × (H.disk_faults shelf.new ≡ H.disk_faults shelf.old) }

    // A disk that failed in reading is told by code 7 alone, and then nothing was written.
    ensures quiet { (result.code ≢ 7) → H.disk_faults shelf.new ≡ H.disk_faults shelf.old }
    ensures unwritten { result.code ≡ 7 → out.new ≡ out.old }

    // What is due for the files that the shelf tells comes where no count of its faults rose, or where it is sound for
    // them: so, or with code 6 where the sink's count rose, or code 8.
    ensures complete { (c : Case) (due : ℕ) (line : Seq ℕ) → NameAudit (map string_bytes words.now) →
        H.tells shelf.old → TellCase (H.image shelf.old) (map string_bytes words.now) c → IsDue c due line →
        ¬ Rose (H.faults shelf.old) (H.faults shelf.new) → ¬ Rose (H.disk_faults shelf.old) (H.disk_faults shelf.new) →
        Ends due line result.code (O.faults out.old) (O.faults out.new) (O.holds out.old) (O.holds out.new) }
    ensures sound_run { (c : Case) (due : ℕ) (line : Seq ℕ) → NameAudit (map string_bytes words.now) →
        H.tells shelf.old → TellCase (H.image shelf.old) (map string_bytes words.now) c → IsDue c due line →
        AllByRecursion (H.sound shelf.old) (map string_bytes words.now) →
        Ends due line result.code (O.faults out.old) (O.faults out.new) (O.holds out.old) (O.holds out.new) }

    // What stays.
    ensures back { IsEachBack (H.fetches shelf.old) (H.fetches shelf.new) (H.returns shelf.old) (H.returns shelf.new) }
    ensures tells { H.tells shelf.old ↔ H.tells shelf.new }
    ensures home { H.tells shelf.old →
        StaysHome (H.image shelf.old) (H.image shelf.new) (H.out shelf.old) (H.out shelf.new) }
    ensures sound { AllByRecursion (H.sound shelf.old) (map string_bytes words.now) →
        (H.faults shelf.new ≡ H.faults shelf.old) × (H.disk_faults shelf.new ≡ H.disk_faults shelf.old)
        × ((name : Seq ℕ) → H.sound shelf.old name → H.sound shelf.new name) }
    ensures unfetched { ¬ NameAudit (map string_bytes words.now) → shelf.new ≡ shelf.old }
{
    let mut seen = None;
    audit_telling(alloc, words, shelf, out, &mut seen)
}

/// The same, and leaves in `seen` where the reason was first seen, where the code is 10; else nothing.
pub fn audit_telling<O: Sink, H: Shelf>(
    alloc: Global,
    words: &[String],
    shelf: &mut H,
    out: &mut O,
    seen: &mut Option<Seen>,
) -> Status
where
    H::Disk: Drop,
    requires { H.tells shelf.old → (name : Seq ℕ) → ¬ H.out shelf.old name }

    // The code table: the words of no audit, and how an audit ends.
    ensures codes { IsAuditCode result.code }
    ensures no_audit { ¬ NameAudit (map string_bytes words.now) →
        Ends 1 words_line result.code (O.faults out.old) (O.faults out.new) (O.holds out.old) (O.holds out.new)
        × (result.code ≢ 8) }
    ensures words { result.code ≡ 1 → ¬ NameAudit (map string_bytes words.now) }
    ensures ends { let sink = sink_by O.holds O.faults in
        let saw = shelf_by H.tells H.image H.out H.faults H.disk_faults H.fetches H.returns H.last_size in
        NameAudit (map string_bytes words.now) →
        AuditEnds (map string_bytes words.now) (sink out.old) (sink out.new) (saw shelf.old) (saw shelf.new)
        result.code }

    // What the codes 0 and 10 say of the files that the shelf tells.
    ensures verdict { IsTold result.code → (c : Case) → H.tells shelf.old →
        TellCase (H.image shelf.old) (map string_bytes words.now) c →
        (verdict : Answer) × IsVerdict c verdict × (result.code ≡ verdict_code verdict)
        × Appends (O.holds out.old) (O.holds out.new) (verdict_line verdict) }
    ensures steady { IsTold result.code → (O.faults out.new ≡ O.faults out.old)
        × (H.faults shelf.new ≡ H.faults shelf.old) × (H.disk_faults shelf.new ≡ H.disk_faults shelf.old) }

    // A disk that failed in reading is told by code 7 alone, and then nothing was written.
    ensures quiet { (result.code ≢ 7) → H.disk_faults shelf.new ≡ H.disk_faults shelf.old }
    ensures unwritten { result.code ≡ 7 → out.new ≡ out.old }

    // What is due for the files that the shelf tells comes where no count of its faults rose, or where it is sound for
    // them: so, or with code 6 where the sink's count rose, or code 8.
    ensures complete { (c : Case) (due : ℕ) (line : Seq ℕ) → NameAudit (map string_bytes words.now) →
        H.tells shelf.old → TellCase (H.image shelf.old) (map string_bytes words.now) c → IsDue c due line →
        ¬ Rose (H.faults shelf.old) (H.faults shelf.new) → ¬ Rose (H.disk_faults shelf.old) (H.disk_faults shelf.new) →
        Ends due line result.code (O.faults out.old) (O.faults out.new) (O.holds out.old) (O.holds out.new) }
    ensures sound_run { (c : Case) (due : ℕ) (line : Seq ℕ) → NameAudit (map string_bytes words.now) →
        H.tells shelf.old → TellCase (H.image shelf.old) (map string_bytes words.now) c → IsDue c due line →
        AllByRecursion (H.sound shelf.old) (map string_bytes words.now) →
        Ends due line result.code (O.faults out.old) (O.faults out.new) (O.holds out.old) (O.holds out.new) }

    // Where the reason of a no was first seen in the files that the shelf tells.
    ensures place { IsTold result.code → (c : Case) → H.tells shelf.old →
        TellCase (H.image shelf.old) (map string_bytes words.now) c →
        (result.code ≡ verdict_code (verdict_of seen.new)) × IfSome seen.new (IsSeenIn c) }

    // What stays.
    ensures back { IsEachBack (H.fetches shelf.old) (H.fetches shelf.new) (H.returns shelf.old) (H.returns shelf.new) }
    ensures tells { H.tells shelf.old ↔ H.tells shelf.new }
    ensures home { H.tells shelf.old →
        StaysHome (H.image shelf.old) (H.image shelf.new) (H.out shelf.old) (H.out shelf.new) }
    ensures sound { AllByRecursion (H.sound shelf.old) (map string_bytes words.now) →
        (H.faults shelf.new ≡ H.faults shelf.old) × (H.disk_faults shelf.new ≡ H.disk_faults shelf.old)
        × ((name : Seq ℕ) → H.sound shelf.old name → H.sound shelf.new name) }
    ensures unfetched { ¬ NameAudit (map string_bytes words.now) → shelf.new ≡ shelf.old }
{
    *seen = None;
    if !name_audit(words) {
        return end_with(out, "words\n", 1);
    }
    match audit_named(alloc, words, shelf) {
        Ok(found) => {
            *seen = found;
            tell(alloc, out, verdict_of(found))
        }
        Err(AuditFault::File(k)) => blame(alloc, out, k),
        Err(AuditFault::Device) => Status { code: CODE_DEVICE },
        Err(AuditFault::Memory) => Status { code: CODE_MEMORY },
    }
}
