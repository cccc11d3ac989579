//! From the words of a command to its code, over any engine.

ghost use Rattle.std.specs.Prelude.{◌≡◌, ◌≢◌, ◌⊎◌, ◌↔◌, ℕ, List as Seq, true, false, length, map, string_bytes};
ghost use Rattle.std.specs.List.{AllByRecursion};
ghost use Rattle.zio_outside.specs.Outside.{Rose};
ghost use Rattle.zio_script.specs.declared.script.Script.{Script};
ghost use Rattle.zio_script.specs.Grammar.{IsScriptOf};
ghost use Rattle.zio_cksum.specs.Images.{Images};
ghost use Rattle.zio_report.specs.Meanings.{IsEmptyJournal};
ghost use Rattle.zio_heal.specs.Given.{AcceptsWhatWasGiven};
ghost use Rattle.zio_heal.specs.Healed.{IsHealed};
ghost use Rattle.zio_heal.specs.Pools.{NoSmallRefused};
ghost use Rattle.zio_heal.specs.StoredPlainly.{IsStoredPlainly};
ghost use Rattle.zio_command.specs.declared.words.Command.{Command as Asked};
ghost use Rattle.zio_command.specs.Commands.{CommandEnds, image_names, mode_of, reads, runs, told_by};
ghost use Rattle.zio_command.specs.Headline.{HeadlineOf, TellEach};
ghost use Rattle.zio_command.specs.Outcomes.{Ends, HasLawfulSize, IsEachBack, IsEnding, IsSerialCode, rest_of, words_line};
ghost use Rattle.zio_command.specs.Seen.{shelf_by, sink_by, source_by};
ghost use Rattle.zio_command.specs.Shelves.{AreLeft, KeepOthers};
ghost use Rattle.zio_command.specs.Tops.{HaveImages, leaves_of};
ghost use Rattle.zio_command.specs.Words.{IsCommandOf, IsNoCommandOf};

use std::alloc::Global;
use zio_command::{CODE_MEMORY, Engines, WordsError, end_with, read_words, run_command};
use zio_gen::generated_scripts_are_accepted;
use zio_heal::healed_scripts_store_plainly;
use zio_outside::{Shelf, Sink, Source};
use zio_types::{Journal, Status};

/// Does what the words of a command ask for, by these engines, and ends with its code. The words are those of the program
/// on one thread, or of that with workers.
pub(crate) fn run_words<H: Shelf, E: Engines<H::Disk>, S: Source, O: Sink>(
    alloc: Global,
    serial: bool,
    engines: E,
    words: &[String],
    script: &mut S,
    shelf: &mut H,
    out: &mut O,
    journal: &mut Journal,
) -> Status
where
    H::Disk: Drop,
    requires can { E.Can }
    requires empty { IsEmptyJournal journal.old }
    requires home { H.tells shelf.old → (name : Seq ℕ) → ¬ H.out shelf.old name }

    // The code table: the words of no command, and how the call of a command ends.
    ensures codes { IsSerialCode result.code }
    ensures asked { (result.code ≡ 1) ⊎ (result.code ≡ 6)
        ⊎ ((command : Asked) × IsCommandOf serial (map string_bytes words.now) command) }
    ensures no_command { IsNoCommandOf serial (map string_bytes words.now) →
        Ends 1 words_line result.code (O.faults out.old) (O.faults out.new) (O.holds out.old) (O.holds out.new)
        × (result.code ≢ 8) }
    ensures words { result.code ≡ 1 → IsNoCommandOf serial (map string_bytes words.now) }
    ensures ends { let source = source_by S.left S.faults in let sink = sink_by O.holds O.faults in
        let saw = shelf_by H.tells H.image H.out H.faults H.disk_faults H.fetches H.returns H.last_size in
        (command : Asked) → IsCommandOf serial (map string_bytes words.now) command →
        CommandEnds command (source script.old) (source script.new) (sink out.old) (sink out.new) (saw shelf.old)
        (saw shelf.new)
        journal.old journal.new result.code }

    // What the codes 0, 4 and 9 say of the report, the images and the journal, and of the scrub where one is asked for.
    ensures headline { (command : Asked) → IsCommandOf serial (map string_bytes words.now) command → runs command ≡ true →
        IsEnding result.code → (text : Seq ℕ) (images : Images) → told_by (S.left script.old) command text
        → H.tells shelf.old →
        TellEach (H.image shelf.old) (image_names command) images → (read : Script) × IsScriptOf text read
        × HeadlineOf (mode_of command) read (image_names command) images journal.new (H.image shelf.new)
        (O.holds out.old) (O.holds out.new) result.code }
    ensures steady { (command : Asked) → IsCommandOf serial (map string_bytes words.now) command → IsEnding result.code →
        (S.faults script.new ≡ S.faults script.old) × (O.faults out.new ≡ O.faults out.old)
        × (H.faults shelf.new ≡ H.faults shelf.old) × (H.disk_faults shelf.new ≡ H.disk_faults shelf.old) }

    // A script that heals is stored as by a plain store, and the code is 0, where the journal refuses no single sector
    // and every copy that was accepted holds what was given.
    ensures healed { (command : Asked) → IsCommandOf serial (map string_bytes words.now) command → runs command ≡ true →
        IsEnding result.code → (text : Seq ℕ) (read : Script) (images : Images) →
        told_by (S.left script.old) command text → IsScriptOf text read → H.tells shelf.old →
        TellEach (H.image shelf.old) (image_names command) images → IsHealed read → NoSmallRefused journal.new.places →
        AcceptsWhatWasGiven read images journal.new.places →
        IsStoredPlainly read images journal.new.places × (result.code ≡ 0) }

    // What the engine leaves of the disks, where they aren't scrubbed.
    ensures left { (command : Asked) → IsCommandOf serial (map string_bytes words.now) command → runs command ≡ true →
        (mode_of command).scrubs ≡ false → IsEnding result.code → H.tells shelf.old →
        AreLeft H.Disk.image H.Disk.keeps (E.leaves journal.new.rounds) (image_names command) (H.image shelf.new)
        (H.keeps shelf.new) }

    // No other code comes where all is in order and no count of faults rose.
    ensures complete { (command : Asked) (text : Seq ℕ) (read : Script) (images : Images) →
        IsCommandOf serial (map string_bytes words.now) command → runs command ≡ true
        → told_by (S.left script.old) command text →
        IsScriptOf text read → H.tells shelf.old → TellEach (H.image shelf.old) (image_names command) images →
        AllByRecursion HasLawfulSize (map length images) → HaveImages (length images) (leaves_of read.tops) →
        ¬ Rose (S.faults script.old) (S.faults script.new) → ¬ Rose (O.faults out.old) (O.faults out.new) →
        ¬ Rose (H.faults shelf.old) (H.faults shelf.new) → ¬ Rose (H.disk_faults shelf.old) (H.disk_faults shelf.new) →
        IsEnding result.code ⊎ (result.code ≡ 8) }

    // Nor where all is in order, the source is sound, the shelf is sound for the images, and the sink didn't fail.
    ensures sound_run { (command : Asked) (text : Seq ℕ) (read : Script) (images : Images) →
        IsCommandOf serial (map string_bytes words.now) command → runs command ≡ true
        → told_by (S.left script.old) command text →
        IsScriptOf text read → H.tells shelf.old → TellEach (H.image shelf.old) (image_names command) images →
        AllByRecursion HasLawfulSize (map length images) → HaveImages (length images) (leaves_of read.tops) →
        S.sound script.old → AllByRecursion (H.sound shelf.old) (image_names command)
        → ¬ Rose (O.faults out.old) (O.faults out.new) →
        IsEnding result.code ⊎ (result.code ≡ 8) }

    // What is read: the script to its end, or to one byte more than a script may have.
    ensures rest { (command : Asked) → IsCommandOf serial (map string_bytes words.now) command → reads command ≡ true →
        (result.code ≢ 5) → (result.code ≢ 8) → (text : Seq ℕ) → S.left script.old text
        → S.left script.new (rest_of text) }
    ensures source_sound { S.sound script.old → S.sound script.new × (S.faults script.new ≡ S.faults script.old) }
    ensures unread { (IsNoCommandOf serial (map string_bytes words.now) → script.new ≡ script.old)
        × ((command : Asked) → IsCommandOf serial (map string_bytes words.now) command → reads command ≡ false
        → script.new ≡ script.old) }

    // What stays.
    ensures back { IsEachBack (H.fetches shelf.old) (H.fetches shelf.new) (H.returns shelf.old) (H.returns shelf.new) }
    ensures tells { H.tells shelf.old ↔ H.tells shelf.new }
    ensures home { (command : Asked) → IsCommandOf serial (map string_bytes words.now) command → H.tells shelf.old →
        KeepOthers (image_names command) (H.image shelf.old) (H.image shelf.new) (H.out shelf.old) (H.out shelf.new) }
    ensures sound { (command : Asked) → IsCommandOf serial (map string_bytes words.now) command
        → AllByRecursion (H.sound shelf.old) (image_names command) →
        (H.faults shelf.new ≡ H.faults shelf.old) × (H.disk_faults shelf.new ≡ H.disk_faults shelf.old)
        × ((name : Seq ℕ) → H.sound shelf.old name → H.sound shelf.new name) }
    ensures unfetched { (IsNoCommandOf serial (map string_bytes words.now) → shelf.new ≡ shelf.old)
        × ((command : Asked) → IsCommandOf serial (map string_bytes words.now) command → runs command ≡ false
        → shelf.new ≡ shelf.old)
        × ((result.code ≡ 2) ⊎ (result.code ≡ 5) → shelf.new ≡ shelf.old) }
    ensures journal { (IsNoCommandOf serial (map string_bytes words.now) → journal.new ≡ journal.old)
        × ((command : Asked) → IsCommandOf serial (map string_bytes words.now) command → runs command ≡ false
        → journal.new ≡ journal.old) }
{
    generated_scripts_are_accepted();
    healed_scripts_store_plainly();
    match read_words(alloc, serial, words) {
        Ok(command) => run_command(alloc, engines, command, script, shelf, out, journal),
        Err(WordsError::Words) => end_with(out, "words\n", 1),
        Err(WordsError::Memory) => Status { code: CODE_MEMORY },
    }
}
