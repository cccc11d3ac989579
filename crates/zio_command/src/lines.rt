ghost use Rattle.std.specs.Prelude.{◌≡◌, ◌≢◌, IfOk, string_bytes};
ghost use Rattle.zio_report.specs.Reports.{end_code};
ghost use Rattle.zio_command.specs.Outcomes.{Ends, cut_code, images_line, script_line};

use std::alloc::{AllocError, Global};
use zio_gang::Ending;
use zio_outside::Sink;
use zio_report::RunFault;
use zio_script::ScriptFault;
use zio_types::Status;

/// The code where the source failed.
pub const CODE_SOURCE: u8 = 5;

/// The code where the sink failed.
pub const CODE_SINK: u8 = 6;

/// The code where a disk failed.
pub const CODE_DEVICE: u8 = 7;

/// The code for want of memory.
pub const CODE_MEMORY: u8 = 8;

pub(crate) fn script_line(alloc: Global, fault: ScriptFault) -> Result<String, AllocError>
    ensures { IfOk result (λ line. string_bytes line ≡ script_line fault) }
{
    let ScriptFault { line, why } = fault;
    format!(in alloc; "script {line} {why}\n")
}

pub(crate) fn images_line(alloc: Global, leaf: u32) -> Result<String, AllocError>
    ensures { IfOk result (λ line. string_bytes line ≡ images_line leaf) }
{
    format!(in alloc; "images {leaf}\n")
}

/// The code of a run that was not stopped.
pub(crate) fn code_of(ending: Ending) -> u8
    ensures { result ≡ end_code ending }
{
    match ending {
        Ending::Complete => 0,
        Ending::Panic => 4,
        Ending::Left => 9,
    }
}

/// The code of a run that was cut short.
pub(crate) fn code_for(fault: RunFault) -> u8
    ensures { result ≡ cut_code fault }
{
    match fault {
        RunFault::Device => CODE_DEVICE,
        RunFault::Sink => CODE_SINK,
        RunFault::Memory => CODE_MEMORY,
    }
}

/// Writes the text that is due with a code.
pub fn end_with<O: Sink>(out: &mut O, text: &str, code: u8) -> Status
    requires sink { code ≢ CODE_SINK }
    requires memory { code ≢ CODE_MEMORY }
    ensures has_memory { result.code ≢ CODE_MEMORY }
    ensures ends { Ends code text.now result.code (O.faults out.old) (O.faults out.new) (O.holds out.old)
        (O.holds out.new) }
{
    match out.write(text.as_bytes()) {
        Ok(()) => Status { code },
        Err(_) => Status { code: CODE_SINK },
    }
}

/// Refuses a script by its line and code 2.
pub(crate) fn refuse_script<O: Sink>(alloc: Global, out: &mut O, fault: ScriptFault) -> Status
    ensures { Ends 2 (script_line fault) result.code (O.faults out.old) (O.faults out.new) (O.holds out.old)
        (O.holds out.new) }
{
    match script_line(alloc, fault) {
        Ok(line) => end_with(out, line.as_str(), 2),
        Err(_) => Status { code: CODE_MEMORY },
    }
}

/// Refuses the image of a leaf by its line and code 3.
pub(crate) fn refuse_image<O: Sink>(alloc: Global, out: &mut O, leaf: u32) -> Status
    ensures { Ends 3 (images_line leaf) result.code (O.faults out.old) (O.faults out.new) (O.holds out.old)
        (O.holds out.new) }
{
    match images_line(alloc, leaf) {
        Ok(line) => end_with(out, line.as_str(), 3),
        Err(_) => Status { code: CODE_MEMORY },
    }
}
