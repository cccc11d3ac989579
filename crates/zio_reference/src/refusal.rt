//! Why a script wasn't run to an ending, and the exit status of each end with the line that is due.

use std::alloc::AllocError;
use zio_command::{CODE_MEMORY, CODE_SINK};
use zio_gang::Ending;
use zio_outside::{Sink, StdSink};
use zio_report::RunFault;
use zio_script::ScriptFault;

/// Why a script wasn't run to an ending.
#[derive(Clone, Copy, Debug, PartialEq, Eq)]
pub(crate) enum Refusal {
    /// The words ask for no run.
    Words,
    /// Standard input has no script.
    Script(ScriptFault),
    /// This leaf has no image of a lawful size.
    Image(u32),
    /// Standard input couldn't be read.
    Source,
    /// The run was cut short.
    Cut(RunFault),
    /// Want of memory before the run.
    Memory,
}

/// The status of a run that was not stopped.
pub(crate) fn code_of(ending: Ending) -> u8 {
    match ending {
        Ending::Complete => 0,
        Ending::Panic => 4,
        Ending::Left => 9,
    }
}

/// Writes the line that is due, and gives the status.
pub(crate) fn refuse(rt: &HostRuntime, refusal: Refusal) -> u8 {
    let alloc = rt.alloc();
    match refusal {
        Refusal::Words => end_with(rt, format!(in alloc; "words\n"), 1),
        Refusal::Script(ScriptFault { line, why }) => {
            end_with(rt, format!(in alloc; "script {line} {why}\n"), 2)
        }
        Refusal::Image(leaf) => end_with(rt, format!(in alloc; "images {leaf}\n"), 3),
        Refusal::Source => 5,
        Refusal::Cut(RunFault::Device) => 7,
        Refusal::Cut(RunFault::Sink) => CODE_SINK,
        Refusal::Cut(RunFault::Memory) | Refusal::Memory => CODE_MEMORY,
    }
}

/// Writes a line, and gives the status that it is due with.
fn end_with(rt: &HostRuntime, line: Result<String, AllocError>, code: u8) -> u8 {
    match line {
        Ok(line) => match StdSink::new(rt).write(line.as_bytes()) {
            Ok(()) => code,
            Err(_) => CODE_SINK,
        },
        Err(_) => CODE_MEMORY,
    }
}
