//! The run of a script over the images of a command.

ghost use Rattle.std.specs.Prelude.{◌≡◌, ◌↔◌, ℕ, List as Seq, false, length};
ghost use Rattle.std.specs.List.{AllByRecursion};
ghost use Rattle.zio_script.specs.Grammar.{IsScriptOf};
ghost use Rattle.zio_gang.specs.declared.ending.Ending.{Ending};
ghost use Rattle.zio_report.specs.Meanings.{IsEmptyJournal};
ghost use Rattle.zio_command.specs.Codes.{CameOut, RunEnds, ScriptEnds};
ghost use Rattle.zio_command.specs.Outcomes.{IsEachBack, IsEnding};
ghost use Rattle.zio_command.specs.Seen.{shelf_by, sink_by};
ghost use Rattle.zio_command.specs.Shelves.{AreLeft, KeepOthers};
ghost use Rattle.zio_command.specs.Words.{AreImages};

use crate::engines::Engines;
use crate::lines::{CODE_MEMORY, code_for, code_of, refuse_image, refuse_script};
use crate::mode::RunMode;
use crate::outcome::RunOutcome;
use crate::scrub::run_in_mode;
use crate::shelf::{ImagesFault, fetch_images, give_back_images};
use std::alloc::Global;
use zio_outside::{Shelf, Sink};
use zio_report::RunFault;
use zio_script::{Script, ScriptError, read_script};
use zio_types::{Journal, Status, Text};

/// Runs the script that a text is over the images of these names, and ends with its code: 2 where the text is no
/// script, 3 where a leaf has no image of a lawful size.
pub(crate) fn run_text<H: Shelf, E: Engines<H::Disk>, O: Sink>(
    alloc: Global,
    text: &[u8],
    mode: &RunMode,
    engines: &E,
    names: &[Text],
    shelf: &mut H,
    out: &mut O,
    journal: &mut Journal,
) -> Status
where
    H::Disk: Drop,
    requires can { E.Can }
    requires names { AreImages names.now }
    requires empty { IsEmptyJournal journal.old }
    requires home { H.tells shelf.old → (name : Seq ℕ) → ¬ H.out shelf.old name }
    ensures ends { let sink = sink_by O.holds O.faults in
        let saw = shelf_by H.tells H.image H.out H.faults H.disk_faults H.fetches H.returns H.last_size in
        RunEnds (λ told. told ≡ text.now) mode.now names.now (sink out.old) (sink out.new) (saw shelf.old)
        (saw shelf.new)
        journal.old journal.new result.code }
    ensures left { mode.now.scrubs ≡ false → IsEnding result.code → H.tells shelf.old →
        AreLeft H.Disk.image H.Disk.keeps (E.leaves journal.new.rounds) names.now (H.image shelf.new)
        (H.keeps shelf.new) }
    ensures unfetched { result.code ≡ 2 → shelf.new ≡ shelf.old }
    ensures back { IsEachBack (H.fetches shelf.old) (H.fetches shelf.new) (H.returns shelf.old) (H.returns shelf.new) }
    ensures tells { H.tells shelf.old ↔ H.tells shelf.new }
    ensures home { H.tells shelf.old → KeepOthers names.now (H.image shelf.old) (H.image shelf.new) (H.out shelf.old)
        (H.out shelf.new) }
    ensures sound { AllByRecursion (H.sound shelf.old) names.now →
        (H.faults shelf.new ≡ H.faults shelf.old) × (H.disk_faults shelf.new ≡ H.disk_faults shelf.old)
        × ((name : Seq ℕ) → H.sound shelf.old name → H.sound shelf.new name) }
{
    match read_script(alloc, text) {
        Ok(script) => run_script_on(alloc, &script, mode, engines, names, shelf, out, journal),
        Err(ScriptError::Fault(fault)) => refuse_script(alloc, out, fault),
        Err(ScriptError::Memory) => Status { code: CODE_MEMORY },
    }
}

/// The same of a script.
fn run_script_on<H: Shelf, E: Engines<H::Disk>, O: Sink>(
    alloc: Global,
    script: &Script,
    mode: &RunMode,
    engines: &E,
    names: &[Text],
    shelf: &mut H,
    out: &mut O,
    journal: &mut Journal,
) -> Status
where
    H::Disk: Drop,
    requires can { E.Can }
    requires script { (text : Seq ℕ) × IsScriptOf text script.now }
    requires names { AreImages names.now }
    requires empty { IsEmptyJournal journal.old }
    requires home { H.tells shelf.old → (name : Seq ℕ) → ¬ H.out shelf.old name }
    ensures ends { let sink = sink_by O.holds O.faults in
        let saw = shelf_by H.tells H.image H.out H.faults H.disk_faults H.fetches H.returns H.last_size in
        ScriptEnds mode.now script.now names.now (sink out.old) (sink out.new) (saw shelf.old) (saw shelf.new)
        journal.old journal.new result.code }
    ensures left { mode.now.scrubs ≡ false → IsEnding result.code → H.tells shelf.old →
        AreLeft H.Disk.image H.Disk.keeps (E.leaves journal.new.rounds) names.now (H.image shelf.new)
        (H.keeps shelf.new) }
    ensures back { IsEachBack (H.fetches shelf.old) (H.fetches shelf.new) (H.returns shelf.old) (H.returns shelf.new) }
    ensures tells { H.tells shelf.old ↔ H.tells shelf.new }
    ensures home { H.tells shelf.old → KeepOthers names.now (H.image shelf.old) (H.image shelf.new) (H.out shelf.old)
        (H.out shelf.new) }
    ensures sound { AllByRecursion (H.sound shelf.old) names.now →
        (H.faults shelf.new ≡ H.faults shelf.old) × (H.disk_faults shelf.new ≡ H.disk_faults shelf.old)
        × ((name : Seq ℕ) → H.sound shelf.old name → H.sound shelf.new name) }
{
    match run_on_shelf(alloc, script, mode, engines, names, shelf, out, journal) {
        RunOutcome::Ended(ending) => Status {
            code: code_of(ending),
        },
        RunOutcome::Unfit(leaf) => refuse_image(alloc, out, leaf),
        RunOutcome::Cut(fault) => Status {
            code: code_for(fault),
        },
    }
}

/// Fetches the images, runs the script over them and gives them back.
fn run_on_shelf<H: Shelf, E: Engines<H::Disk>, O: Sink>(
    alloc: Global,
    script: &Script,
    mode: &RunMode,
    engines: &E,
    names: &[Text],
    shelf: &mut H,
    out: &mut O,
    journal: &mut Journal,
) -> RunOutcome
where
    H::Disk: Drop,
    requires can { E.Can }
    requires script { (text : Seq ℕ) × IsScriptOf text script.now }
    requires names { AreImages names.now }
    requires empty { IsEmptyJournal journal.old }
    requires home { H.tells shelf.old → (name : Seq ℕ) → ¬ H.out shelf.old name }
    ensures outcome { let sink = sink_by O.holds O.faults in
        let saw = shelf_by H.tells H.image H.out H.faults H.disk_faults H.fetches H.returns H.last_size in
        CameOut mode.now script.now names.now (sink out.old) (sink out.new) (saw shelf.old) (saw shelf.new)
        journal.old journal.new result }
    ensures unwritten { (leaf : ℕ) → result ≡ RunOutcome.Unfit leaf → out.new ≡ out.old }
    ensures left { mode.now.scrubs ≡ false → (ending : Ending) → result ≡ RunOutcome.Ended ending →
        H.tells shelf.old → AreLeft H.Disk.image H.Disk.keeps (E.leaves journal.new.rounds) names.now
        (H.image shelf.new) (H.keeps shelf.new) }
    ensures back { IsEachBack (H.fetches shelf.old) (H.fetches shelf.new) (H.returns shelf.old) (H.returns shelf.new) }
    ensures tells { H.tells shelf.old ↔ H.tells shelf.new }
    ensures home { H.tells shelf.old → KeepOthers names.now (H.image shelf.old) (H.image shelf.new) (H.out shelf.old)
        (H.out shelf.new) }
    ensures sound { AllByRecursion (H.sound shelf.old) names.now →
        (H.faults shelf.new ≡ H.faults shelf.old) × (H.disk_faults shelf.new ≡ H.disk_faults shelf.old)
        × ((name : Seq ℕ) → H.sound shelf.old name → H.sound shelf.new name) }
{
    match fetch_images(alloc, names, shelf) {
        Ok(disks) => {
            let (outcome, disks) = run_in_mode(alloc, script, mode, engines, disks, out, journal);
            give_back_images(disks, shelf);
            outcome
        }
        Err(ImagesFault::Failed(leaf)) => RunOutcome::Unfit(leaf),
        Err(ImagesFault::Size(leaf)) => RunOutcome::Unfit(leaf),
        Err(ImagesFault::Memory) => RunOutcome::Cut(RunFault::Memory),
    }
}
