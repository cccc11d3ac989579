//! The lines that an audit ends with.

ghost use Rattle.std.specs.Prelude.{◌≡◌, IfOk, string_bytes};
ghost use Rattle.zio_command.specs.Outcomes.{Ends};
ghost use Rattle.zio_audit_run.specs.Codes.{files_line, verdict_code, verdict_line};

use std::alloc::{AllocError, Global};
use zio_audit::Verdict;
use zio_command::{CODE_MEMORY, end_with};
use zio_outside::Sink;
use zio_types::Status;

fn files_line(alloc: Global, k: usize) -> Result<String, AllocError>
    ensures { IfOk result (λ line. string_bytes line ≡ files_line k) }
{
    format!(in alloc; "files {k}\n")
}

fn no_line(alloc: Global, why: u32) -> Result<String, AllocError>
    ensures { IfOk result (λ line. string_bytes line ≡ verdict_line (Verdict.No why)) }
{
    format!(in alloc; "no {why}\n")
}

/// Blames the file of this number, by its line and code 3.
pub(crate) fn blame<O: Sink>(alloc: Global, out: &mut O, k: usize) -> Status
    ensures { Ends 3 (files_line k) result.code (O.faults out.old) (O.faults out.new) (O.holds out.old)
        (O.holds out.new) }
{
    match files_line(alloc, k) {
        Ok(line) => end_with(out, line.as_str(), 3),
        Err(_) => Status { code: CODE_MEMORY },
    }
}

/// Tells the verdict, by its line and code.
pub(crate) fn tell<O: Sink>(alloc: Global, out: &mut O, verdict: Verdict) -> Status
    ensures { Ends (verdict_code verdict) (verdict_line verdict) result.code (O.faults out.old) (O.faults out.new)
        (O.holds out.old) (O.holds out.new) }
{
    match verdict {
        Verdict::Yes => end_with(out, "yes\n", 0),
        Verdict::No { why } => match no_line(alloc, why) {
            Ok(line) => end_with(out, line.as_str(), 10),
            Err(_) => Status { code: CODE_MEMORY },
        },
    }
}
