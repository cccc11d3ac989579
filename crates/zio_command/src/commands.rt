//! What a command asks for, done by any engine.

ghost use Rattle.std.specs.Prelude.{◌≡◌, ◌≢◌, ◌⊎◌, ◌↔◌, ℕ, List as Seq, true, false};
ghost use Rattle.std.specs.List.{AllByRecursion};
ghost use Rattle.zio_report.specs.Meanings.{IsEmptyJournal};
ghost use Rattle.zio_command.specs.Codes.{RunEnds};
ghost use Rattle.zio_command.specs.Commands.{CommandEnds, WasUnread, image_names, mode_of, reads, runs};
ghost use Rattle.zio_command.specs.Outcomes.{IsEachBack, IsEnding, rest_of};
ghost use Rattle.zio_command.specs.Seen.{shelf_by, sink_by, source_by};
ghost use Rattle.zio_command.specs.Shelves.{AreLeft, KeepOthers};
ghost use Rattle.zio_command.specs.Words.{AreImages, IsLawfulCommand};

use crate::engines::Engines;
use crate::generated::{run_generated, write_generated};
use crate::lines::{CODE_MEMORY, CODE_SOURCE};
use crate::mode::{RunMode, running, scrubbing};
use crate::run::run_text;
use crate::source::{ReadFault, read_all};
use crate::words::Command;
use std::alloc::Global;
use zio_outside::{Shelf, Sink, Source};
use zio_types::{Journal, Status, Text};

/// Does what a command asks for, and ends with its code. A script is run by an engine that `engines` makes.
pub fn run_command<H: Shelf, E: Engines<H::Disk>, S: Source, O: Sink>(
    alloc: Global,
    engines: E,
    command: Command,
    script: &mut S,
    shelf: &mut H,
    out: &mut O,
    journal: &mut Journal,
) -> Status
where
    H::Disk: Drop,
    requires can { E.Can }
    requires command { IsLawfulCommand command }
    requires empty { IsEmptyJournal journal.old }
    requires home { H.tells shelf.old → (name : Seq ℕ) → ¬ H.out shelf.old name }
    ensures ends { let source = source_by S.left S.faults in let sink = sink_by O.holds O.faults in
        let saw = shelf_by H.tells H.image H.out H.faults H.disk_faults H.fetches H.returns H.last_size in
        CommandEnds command (source script.old) (source script.new) (sink out.old) (sink out.new) (saw shelf.old)
        (saw shelf.new)
        journal.old journal.new result.code }

    // What the engine leaves of the disks, where nothing was done to them behind the run.
    ensures left { runs command ≡ true → (mode_of command).scrubs ≡ false → IsEnding result.code → H.tells shelf.old →
        AreLeft H.Disk.image H.Disk.keeps (E.leaves journal.new.rounds) (image_names command) (H.image shelf.new)
        (H.keeps shelf.new) }
    ensures rest { reads command ≡ true → (result.code ≢ 5) → (result.code ≢ 8) → (text : Seq ℕ)
        → S.left script.old text →
        S.left script.new (rest_of text) }
    ensures source_steady { IsEnding result.code → S.faults script.new ≡ S.faults script.old }
    ensures source_sound { S.sound script.old → S.sound script.new × (S.faults script.new ≡ S.faults script.old) }
    ensures unread { reads command ≡ false → script.new ≡ script.old }
    ensures back { IsEachBack (H.fetches shelf.old) (H.fetches shelf.new) (H.returns shelf.old) (H.returns shelf.new) }
    ensures tells { H.tells shelf.old ↔ H.tells shelf.new }
    ensures home { H.tells shelf.old →
        KeepOthers (image_names command) (H.image shelf.old) (H.image shelf.new) (H.out shelf.old) (H.out shelf.new) }
    ensures sound { AllByRecursion (H.sound shelf.old) (image_names command) →
        (H.faults shelf.new ≡ H.faults shelf.old) × (H.disk_faults shelf.new ≡ H.disk_faults shelf.old)
        × ((name : Seq ℕ) → H.sound shelf.old name → H.sound shelf.new name) }
    ensures unfetched { (result.code ≡ 2) ⊎ (result.code ≡ 5) → shelf.new ≡ shelf.old }
    ensures generated { runs command ≡ false → (shelf.new ≡ shelf.old) × (journal.new ≡ journal.old) }
{
    let engines = engines.asked_by(&command);
    match command {
        Command::Run { show, images, .. } => run_source(
            alloc,
            script,
            &running(show),
            &engines,
            images.as_slice(),
            shelf,
            out,
            journal,
        ),
        Command::Scrub { images, .. } => run_source(
            alloc,
            script,
            &scrubbing(),
            &engines,
            images.as_slice(),
            shelf,
            out,
            journal,
        ),
        Command::Gen { seed, n } => write_generated(alloc, seed, n, out),
        Command::Load { seed, n, images } => run_generated(
            alloc,
            seed,
            n,
            &engines,
            images.as_slice(),
            shelf,
            out,
            journal,
        ),
    }
}

/// Reads the source, and runs its text in this mode over the images of these names.
fn run_source<H: Shelf, E: Engines<H::Disk>, S: Source, O: Sink>(
    alloc: Global,
    script: &mut S,
    mode: &RunMode,
    engines: &E,
    names: &[Text],
    shelf: &mut H,
    out: &mut O,
    journal: &mut Journal,
) -> Status
where
    H::Disk: Drop,
    requires can { E.Can }
    requires names { AreImages names.now }
    requires empty { IsEmptyJournal journal.old }
    requires home { H.tells shelf.old → (name : Seq ℕ) → ¬ H.out shelf.old name }
    ensures ends { let source = source_by S.left S.faults in let sink = sink_by O.holds O.faults in
        let saw = shelf_by H.tells H.image H.out H.faults H.disk_faults H.fetches H.returns H.last_size in
        ((result.code ≡ 5) × WasUnread (source script.old) (source script.new) (sink out.old) (sink out.new)
        (saw shelf.old) (saw shelf.new) journal.old journal.new)
        ⊎ RunEnds (S.left script.old) mode.now names.now (sink out.old) (sink out.new) (saw shelf.old)
        (saw shelf.new) journal.old journal.new result.code }
    ensures left { mode.now.scrubs ≡ false → IsEnding result.code → H.tells shelf.old →
        AreLeft H.Disk.image H.Disk.keeps (E.leaves journal.new.rounds) names.now (H.image shelf.new)
        (H.keeps shelf.new) }
    ensures rest { (result.code ≢ 5) → (result.code ≢ 8) → (text : Seq ℕ) → S.left script.old text
        → S.left script.new (rest_of text) }
    ensures source_steady { IsEnding result.code → S.faults script.new ≡ S.faults script.old }
    ensures source_sound { S.sound script.old → S.sound script.new × (S.faults script.new ≡ S.faults script.old) }
    ensures back { IsEachBack (H.fetches shelf.old) (H.fetches shelf.new) (H.returns shelf.old) (H.returns shelf.new) }
    ensures tells { H.tells shelf.old ↔ H.tells shelf.new }
    ensures home { H.tells shelf.old → KeepOthers names.now (H.image shelf.old) (H.image shelf.new) (H.out shelf.old)
        (H.out shelf.new) }
    ensures sound { AllByRecursion (H.sound shelf.old) names.now →
        (H.faults shelf.new ≡ H.faults shelf.old) × (H.disk_faults shelf.new ≡ H.disk_faults shelf.old)
        × ((name : Seq ℕ) → H.sound shelf.old name → H.sound shelf.new name) }
    ensures unfetched { (result.code ≡ 2) ⊎ (result.code ≡ 5) → shelf.new ≡ shelf.old }
{
    match read_all(alloc, script) {
        Ok(bytes) => run_text(
            alloc,
            bytes.as_slice(),
            mode,
            engines,
            names,
            shelf,
            out,
            journal,
        ),
        Err(ReadFault::Failed) => Status { code: CODE_SOURCE },
        Err(ReadFault::Memory) => Status { code: CODE_MEMORY },
    }
}
