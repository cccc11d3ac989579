//! What is written before the first line of a script and behind the last.

ghost use Rattle.std.specs.Prelude.{◌≡◌, IsErrOf, OnOk, length};
ghost use Rattle.zio_outside.specs.Outside.{Appends, AppendsFront, Rose};
ghost use Rattle.zio_script.specs.Requests.{requests_of};
ghost use Rattle.zio_report.specs.Reports.{pool_text};
ghost use Rattle.zio_course.specs.Course.{shown_of};
ghost use Rattle.zio_suspend.specs.Ends.{counts_text, last_text};

use crate::summary::{count_requests, summary};
use std::alloc::Global;
use zio_course::{Tally, write_pool, write_text};
use zio_gang::Ending;
use zio_outside::Sink;
use zio_report::{RunFault, Show, end_line};
use zio_script::Item;

/// Writes the line of the pool, which a summary doesn't show.
pub(crate) fn begin<O: Sink>(
    alloc: Global,
    tops: usize,
    images: usize,
    show: &Show,
    out: &mut O,
) -> Result<(), RunFault>
    ensures ok { OnOk result (Appends (O.holds out.old) (O.holds out.new) (shown_of show.now (pool_text tops images))) }
    ensures steady { OnOk result (O.faults out.new ≡ O.faults out.old) }
    ensures front { IsErrOf result RunFault.Sink
        → AppendsFront (O.holds out.old) (O.holds out.new) (shown_of show.now (pool_text tops images)) }
    ensures rose { IsErrOf result RunFault.Sink → Rose (O.faults out.old) (O.faults out.new) }
    ensures memory { IsErrOf result RunFault.Memory → out.new ≡ out.old }
    ensures device { IsErrOf result RunFault.Device → ⊥ }
{
    match show {
        Show::Report { .. } => write_pool(alloc, tops, images, out),
        Show::Summary => Ok(()),
    }
}

/// Writes the end line of a report, or the summary.
pub(crate) fn finish<O: Sink>(
    alloc: Global,
    show: &Show,
    items: &[Item],
    tally: &Tally,
    ending: Ending,
    out: &mut O,
) -> Result<(), RunFault>
    ensures ok { OnOk result
        (Appends (O.holds out.old) (O.holds out.new)
        (last_text show.now (length (requests_of items.now)) tally.now ending)) }
    ensures steady { OnOk result (O.faults out.new ≡ O.faults out.old) }
    ensures front { IsErrOf result RunFault.Sink
        → AppendsFront (O.holds out.old) (O.holds out.new)
        (last_text show.now (length (requests_of items.now)) tally.now ending) }
    ensures rose { IsErrOf result RunFault.Sink → Rose (O.faults out.old) (O.faults out.new) }
    ensures memory { IsErrOf result RunFault.Memory → out.new ≡ out.old }
    ensures device { IsErrOf result RunFault.Device → ⊥ }
{
    match show {
        Show::Report { .. } => write_text(out, end_line(ending)),
        Show::Summary => write_summary(alloc, count_requests(items), tally, ending, out),
    }
}

/// Writes the summary of a script with so many requests, if memory for it is there.
fn write_summary<O: Sink>(
    alloc: Global,
    requests: usize,
    tally: &Tally,
    ending: Ending,
    out: &mut O,
) -> Result<(), RunFault>
    ensures ok { OnOk result (Appends (O.holds out.old) (O.holds out.new) (counts_text requests tally.now ending)) }
    ensures steady { OnOk result (O.faults out.new ≡ O.faults out.old) }
    ensures front { IsErrOf result RunFault.Sink
        → AppendsFront (O.holds out.old) (O.holds out.new) (counts_text requests tally.now ending) }
    ensures rose { IsErrOf result RunFault.Sink → Rose (O.faults out.old) (O.faults out.new) }
    ensures memory { IsErrOf result RunFault.Memory → out.new ≡ out.old }
    ensures device { IsErrOf result RunFault.Device → ⊥ }
{
    match summary(alloc, requests, tally, ending) {
        Ok(text) => write_text(out, text.as_str()),
        Err(_) => Err(RunFault::Memory),
    }
}
