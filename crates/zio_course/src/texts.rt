//! What is written of a run: the line of the pool, rounds, and lines of held batches.

ghost use Rattle.std.specs.Prelude.{◌≡◌, IsErrOf, OnOk};
ghost use Rattle.zio_outside.specs.Outside.{Appends, AppendsFront, Rose};
ghost use Rattle.zio_report.specs.Lines.{AreWhole, round_text};
ghost use Rattle.zio_report.specs.Reports.{held_text, pool_text};

use std::alloc::Global;
use zio_outside::Sink;
use zio_report::{ReportLine, RoundHead, RunFault, Show, held_line, pool_line, render};
use zio_types::{Completion, Entry};

/// Writes a text.
pub fn write_text<O: Sink>(out: &mut O, text: &str) -> Result<(), RunFault>
    ensures ok { OnOk result (Appends (O.holds out.old) (O.holds out.new) text.now) }
    ensures steady { OnOk result (O.faults out.new ≡ O.faults out.old) }
    ensures front { IsErrOf result RunFault.Sink → AppendsFront (O.holds out.old) (O.holds out.new) text.now }
    ensures rose { IsErrOf result RunFault.Sink → Rose (O.faults out.old) (O.faults out.new) }
    ensures memory { IsErrOf result RunFault.Memory → ⊥ }
    ensures device { IsErrOf result RunFault.Device → ⊥ }
{
    match out.write(text.as_bytes()) {
        Ok(()) => Ok(()),
        Err(_) => Err(RunFault::Sink),
    }
}

/// Writes the text of a round, if memory for it is there.
pub fn write_round<O: Sink>(
    alloc: Global,
    show: &Show,
    head: &RoundHead,
    lines: &[ReportLine],
    entries: &[Entry],
    completions: &[Completion],
    out: &mut O,
) -> Result<(), RunFault>
    requires { AreWhole lines.now }
    ensures ok { OnOk result
        (Appends (O.holds out.old) (O.holds out.new)
        (round_text show.now head.now lines.now entries.now completions.now)) }
    ensures steady { OnOk result (O.faults out.new ≡ O.faults out.old) }
    ensures front { IsErrOf result RunFault.Sink
        → AppendsFront (O.holds out.old) (O.holds out.new)
        (round_text show.now head.now lines.now entries.now completions.now) }
    ensures rose { IsErrOf result RunFault.Sink → Rose (O.faults out.old) (O.faults out.new) }
    ensures memory { IsErrOf result RunFault.Memory → out.new ≡ out.old }
    ensures device { IsErrOf result RunFault.Device → ⊥ }
{
    match render(alloc, show, head, lines, entries, completions) {
        Ok(text) => write_text(out, text.as_str()),
        Err(_) => Err(RunFault::Memory),
    }
}

/// Writes the first line of a report.
pub fn write_pool<O: Sink>(
    alloc: Global,
    tops: usize,
    images: usize,
    out: &mut O,
) -> Result<(), RunFault>
    ensures ok { OnOk result (Appends (O.holds out.old) (O.holds out.new) (pool_text tops images)) }
    ensures steady { OnOk result (O.faults out.new ≡ O.faults out.old) }
    ensures front { IsErrOf result RunFault.Sink
        → AppendsFront (O.holds out.old) (O.holds out.new) (pool_text tops images) }
    ensures rose { IsErrOf result RunFault.Sink → Rose (O.faults out.old) (O.faults out.new) }
    ensures memory { IsErrOf result RunFault.Memory → out.new ≡ out.old }
    ensures device { IsErrOf result RunFault.Device → ⊥ }
{
    match pool_line(alloc, tops, images) {
        Ok(text) => write_text(out, text.as_str()),
        Err(_) => Err(RunFault::Memory),
    }
}

/// Writes the line of a batch that is held.
pub fn write_held<O: Sink>(alloc: Global, batch: u32, out: &mut O) -> Result<(), RunFault>
    ensures ok { OnOk result (Appends (O.holds out.old) (O.holds out.new) (held_text batch)) }
    ensures steady { OnOk result (O.faults out.new ≡ O.faults out.old) }
    ensures front { IsErrOf result RunFault.Sink → AppendsFront (O.holds out.old) (O.holds out.new) (held_text batch) }
    ensures rose { IsErrOf result RunFault.Sink → Rose (O.faults out.old) (O.faults out.new) }
    ensures memory { IsErrOf result RunFault.Memory → out.new ≡ out.old }
    ensures device { IsErrOf result RunFault.Device → ⊥ }
{
    match held_line(alloc, batch) {
        Ok(text) => write_text(out, text.as_str()),
        Err(_) => Err(RunFault::Memory),
    }
}
