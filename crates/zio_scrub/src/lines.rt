// The line of a scrub.

ghost use Rattle.std.specs.Prelude.{◌≡◌, IfOk, IsErrOf, OnOk, string_bytes};
ghost use Rattle.zio_outside.specs.Outside.{Appends, AppendsFront, Rose};
ghost use Rattle.zio_scrub.specs.Lines.{fault_of, line_of};

use crate::ending::ScrubEnd;
use std::alloc::{AllocError, Global};
use zio_disks::Stop;
use zio_outside::Sink;
use zio_report::RunFault;

/// What a scrub came to, as a line.
fn line_of(alloc: Global, end: &ScrubEnd) -> Result<String, AllocError>
    ensures { IfOk result (λ line. string_bytes line ≡ line_of end.now) }
{
    let ScrubEnd {
        blocks,
        copies,
        repaired,
        failed,
        lost,
    } = *end;
    format!(in alloc;
        "scrub blocks {blocks} copies {copies} repaired {repaired} failed {failed} lost {lost}\n"
    )
}

/// Writes that line.
pub(crate) fn write_line<O: Sink>(
    alloc: Global,
    end: &ScrubEnd,
    out: &mut O,
) -> Result<(), RunFault>
    ensures ok { OnOk result (Appends (O.holds out.old) (O.holds out.new) (line_of end.now)) }
    ensures steady { OnOk result (O.faults out.new ≡ O.faults out.old) }
    ensures front { IsErrOf result RunFault.Sink
        → AppendsFront (O.holds out.old) (O.holds out.new) (line_of end.now) }
    ensures rose { IsErrOf result RunFault.Sink → Rose (O.faults out.old) (O.faults out.new) }
    ensures nothing { IsErrOf result RunFault.Memory → out.new ≡ out.old }
    ensures other { ¬ IsErrOf result RunFault.Device }
{
    let Ok(line) = line_of(alloc, end) else {
        return Err(RunFault::Memory);
    };
    match out.write(line.as_str().as_bytes()) {
        Ok(()) => Ok(()),
        Err(_) => Err(RunFault::Sink),
    }
}

/// The fault of a scrub that was stopped.
pub(crate) fn fault_of(stop: Stop) -> RunFault
    ensures { result ≡ fault_of stop }
{
    match stop {
        Stop::Device => RunFault::Device,
        Stop::Memory => RunFault::Memory,
    }
}
