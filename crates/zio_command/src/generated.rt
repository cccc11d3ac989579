//! The script of a seed, written or run.

ghost use Rattle.std.specs.Prelude.{◌≡◌, ◌↔◌, ℕ, List as Seq};
ghost use Rattle.std.specs.List.{AllByRecursion};
ghost use Rattle.zio_gen.specs.Generated.{script_text};
ghost use Rattle.zio_script.specs.declared.script.Script.{Script};
ghost use Rattle.zio_script.specs.Grammar.{IsScriptOf};
ghost use Rattle.zio_report.specs.declared.report.Show.TheVariants.{Summary};
ghost use Rattle.zio_report.specs.Meanings.{IsEmptyJournal};
ghost use Rattle.zio_command.specs.Codes.{ScriptEnds};
ghost use Rattle.zio_command.specs.Modes.{running};
ghost use Rattle.zio_command.specs.Outcomes.{Ends, IsEachBack, IsEnding};
ghost use Rattle.zio_command.specs.Seen.{shelf_by, sink_by};
ghost use Rattle.zio_command.specs.Shelves.{AreLeft, KeepOthers};
ghost use Rattle.zio_command.specs.Words.{AreImages, IsWithin};

use crate::engines::Engines;
use crate::lines::{CODE_MEMORY, end_with};
use crate::mode::running;
use crate::run::run_text;
use std::alloc::Global;
use zio_gen::{BLOCKS_MAX, gen_, generated_scripts_are_accepted};
use zio_outside::{Shelf, Sink};
use zio_report::Show;
use zio_types::{Journal, Status, Text};

/// Writes the script of `n` blocks from a seed.
pub(crate) fn write_generated<O: Sink>(alloc: Global, seed: u32, n: u32, out: &mut O) -> Status
    requires { IsWithin 1 BLOCKS_MAX n }
    ensures { Ends 0 (script_text seed n) result.code (O.faults out.old) (O.faults out.new) (O.holds out.old)
        (O.holds out.new) }
{
    match gen_(alloc, seed, n) {
        Ok(text) => end_with(out, text.as_str(), 0),
        Err(_) => Status { code: CODE_MEMORY },
    }
}

/// Runs that script over the images of these names, and writes its summary.
pub(crate) fn run_generated<H: Shelf, E: Engines<H::Disk>, O: Sink>(
    alloc: Global,
    seed: u32,
    n: u32,
    engines: &E,
    names: &[Text],
    shelf: &mut H,
    out: &mut O,
    journal: &mut Journal,
) -> Status
where
    H::Disk: Drop,
    requires can { E.Can }
    requires size { IsWithin 1 BLOCKS_MAX n }
    requires names { AreImages names.now }
    requires empty { IsEmptyJournal journal.old }
    requires home { H.tells shelf.old → (name : Seq ℕ) → ¬ H.out shelf.old name }
    ensures ends { let sink = sink_by O.holds O.faults in
        let saw = shelf_by H.tells H.image H.out H.faults H.disk_faults H.fetches H.returns H.last_size in
        (script : Script) × IsScriptOf (script_text seed n) script
        × ScriptEnds (running Summary) script names.now (sink out.old) (sink out.new) (saw shelf.old)
        (saw shelf.new) journal.old journal.new result.code }
    ensures left { IsEnding result.code → H.tells shelf.old →
        AreLeft H.Disk.image H.Disk.keeps (E.leaves journal.new.rounds) names.now (H.image shelf.new)
        (H.keeps shelf.new) }
    ensures back { IsEachBack (H.fetches shelf.old) (H.fetches shelf.new) (H.returns shelf.old) (H.returns shelf.new) }
    ensures tells { H.tells shelf.old ↔ H.tells shelf.new }
    ensures home { H.tells shelf.old → KeepOthers names.now (H.image shelf.old) (H.image shelf.new) (H.out shelf.old)
        (H.out shelf.new) }
    ensures sound { AllByRecursion (H.sound shelf.old) names.now →
        (H.faults shelf.new ≡ H.faults shelf.old) × (H.disk_faults shelf.new ≡ H.disk_faults shelf.old)
        × ((name : Seq ℕ) → H.sound shelf.old name → H.sound shelf.new name) }
{
    generated_scripts_are_accepted();
    match gen_(alloc, seed, n) {
        Ok(text) => run_text(
            alloc,
            text.as_str().as_bytes(),
            &running(Show::Summary),
            engines,
            names,
            shelf,
            out,
            journal,
        ),
        Err(_) => Status { code: CODE_MEMORY },
    }
}
