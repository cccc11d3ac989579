ghost use Rattle.std.specs.Prelude.{◌≡◌, ◌≢◌, ◌⊎◌, ◌↔◌, ◌∷◌, [], ℕ, List as Seq, IfOk, codes, false, length, map, string_bytes};
ghost use Rattle.std.specs.List.{AllByRecursion};
ghost use Rattle.zio_outside.specs.Outside.{Rose};
ghost use Rattle.zio_script.specs.declared.script.Script.{Script};
ghost use Rattle.zio_script.specs.Grammar.{IsScriptOf};
ghost use Rattle.zio_cksum.specs.Images.{Images};
ghost use Rattle.zio_report.specs.declared.report.Show.TheVariants.{Report};
ghost use Rattle.zio_report.specs.Meanings.{IsEmptyJournal};
ghost use Rattle.zio_heal.specs.Given.{AcceptsWhatWasGiven};
ghost use Rattle.zio_heal.specs.Healed.{IsHealed};
ghost use Rattle.zio_heal.specs.Pools.{NoSmallRefused};
ghost use Rattle.zio_heal.specs.StoredPlainly.{IsStoredPlainly};
ghost use Rattle.zio_command.specs.Commands.{CommandEnds};
ghost use Rattle.zio_command.specs.Headline.{Headline, TellEach};
ghost use Rattle.zio_command.specs.Outcomes.{Ends, HasLawfulSize, IsEachBack, IsEnding, IsSerialCode, rest_of, words_line};
ghost use Rattle.zio_command.specs.Seen.{shelf_by, sink_by, source_by};
ghost use Rattle.zio_command.specs.Shelves.{KeepOthers};
ghost use Rattle.zio_command.specs.Tops.{HaveImages, leaves_of};
ghost use Rattle.zio_command.specs.Words.{AreImages};
ghost use Rattle.zio_run.specs.Stable.{plain_run};

use crate::flushed::Flushed;
use crate::words::run_words;
use std::alloc::{AllocError, Global};
use zio_command::{CODE_MEMORY, are_images, end_with};
use zio_outside::{Shelf, Sink, Source, SyncDisk};
use zio_types::{Journal, Status};

/// Runs a script over images whose disks have a volatile cache, and makes all of them stable after each round.
///
/// The words are the names of 1 to 16 images. The source is read to its end, or to one byte more than a script may have,
/// and the script is run over the images on one thread, as by `zio_serial run` without options. A round's text is written
/// once the disks are stable after it. All disks that are fetched are back on the shelf afterwards, with every code. Code
/// 7 comes where a disk couldn't be read, written or made stable. Code 8 is want of memory, and may come whenever memory
/// is asked for.
pub fn zio_durable_main<S: Source, O: Sink, H: Shelf>(
    alloc: Global,
    words: &[String],
    script: &mut S,
    shelf: &mut H,
    out: &mut O,
    journal: &mut Journal,
) -> Status
where
    H::Disk: SyncDisk + Drop,
    requires empty { IsEmptyJournal journal.old }
    requires home { H.tells shelf.old → (name : Seq ℕ) → ¬ H.out shelf.old name }

    // The code table: words that name no images, and how the call ends over images.
    ensures codes { IsSerialCode result.code }
    ensures asked { (result.code ≡ 1) ⊎ (result.code ≡ 6) ⊎ AreImages (map string_bytes words.now) }
    ensures no_images { ¬ AreImages (map string_bytes words.now) →
        Ends 1 words_line result.code (O.faults out.old) (O.faults out.new) (O.holds out.old) (O.holds out.new)
        × (result.code ≢ 8) }
    ensures words { result.code ≡ 1 → ¬ AreImages (map string_bytes words.now) }
    ensures ends { let source = source_by S.left S.faults in let sink = sink_by O.holds O.faults in
        let saw = shelf_by H.tells H.image H.out H.faults H.disk_faults H.fetches H.returns H.last_size in
        AreImages (map string_bytes words.now) →
        CommandEnds (plain_run (map string_bytes words.now)) (source script.old) (source script.new) (sink out.old)
        (sink out.new) (saw shelf.old) (saw shelf.new) journal.old journal.new result.code }

    // What the codes 0, 4 and 9 say of the report, the images and the journal.
    ensures headline { let names = map string_bytes words.now in
        AreImages names → IsEnding result.code → (text : Seq ℕ) (images : Images) → S.left script.old text →
        H.tells shelf.old → TellEach (H.image shelf.old) names images → (read : Script) × IsScriptOf text read
        × Headline (Report false false) read names images journal.new (H.image shelf.new) (O.holds out.old)
        (O.holds out.new) result.code }
    ensures steady { AreImages (map string_bytes words.now) → IsEnding result.code →
        (S.faults script.new ≡ S.faults script.old) × (O.faults out.new ≡ O.faults out.old)
        × (H.faults shelf.new ≡ H.faults shelf.old) × (H.disk_faults shelf.new ≡ H.disk_faults shelf.old) }

    // With them every disk that was fetched is stable, if a round was run: the image that is told is the stable one, and
    // no range was written since.
    ensures stable { AreImages (map string_bytes words.now) → IsEnding result.code → H.tells shelf.old →
        (journal.new.rounds ≢ 0) → AllByRecursion (λ (name : Seq ℕ). (image : Seq ℕ) → H.image shelf.new name image →
        H.keeps shelf.new name image []) (map string_bytes words.now) }

    // A script that heals is stored as by a plain store, and the code is 0, where the journal refuses no single sector
    // and every copy that was accepted holds what was given.
    ensures healed { let names = map string_bytes words.now in
        AreImages names → IsEnding result.code → (text : Seq ℕ) (read : Script) (images : Images) →
        S.left script.old text → IsScriptOf text read → H.tells shelf.old →
        TellEach (H.image shelf.old) names images → IsHealed read → NoSmallRefused journal.new.places →
        AcceptsWhatWasGiven read images journal.new.places →
        IsStoredPlainly read images journal.new.places × (result.code ≡ 0) }

    // No other code comes where all is in order and no count of faults rose.
    ensures complete { let names = map string_bytes words.now in
        (text : Seq ℕ) (read : Script) (images : Images) → AreImages names → S.left script.old text →
        IsScriptOf text read → H.tells shelf.old → TellEach (H.image shelf.old) names images →
        AllByRecursion HasLawfulSize (map length images) → HaveImages (length images) (leaves_of read.tops) →
        ¬ Rose (S.faults script.old) (S.faults script.new) → ¬ Rose (O.faults out.old) (O.faults out.new) →
        ¬ Rose (H.faults shelf.old) (H.faults shelf.new) → ¬ Rose (H.disk_faults shelf.old) (H.disk_faults shelf.new) →
        IsEnding result.code ⊎ (result.code ≡ 8) }

    // Nor where all is in order, the source is sound, the shelf is sound for the images, and the sink didn't fail.
    ensures sound_run { let names = map string_bytes words.now in
        (text : Seq ℕ) (read : Script) (images : Images) → AreImages names → S.left script.old text →
        IsScriptOf text read → H.tells shelf.old → TellEach (H.image shelf.old) names images →
        AllByRecursion HasLawfulSize (map length images) → HaveImages (length images) (leaves_of read.tops) →
        S.sound script.old → AllByRecursion (H.sound shelf.old) names → ¬ Rose (O.faults out.old) (O.faults out.new) →
        IsEnding result.code ⊎ (result.code ≡ 8) }

    // What is read: the script to its end, or to one byte more than a script may have.
    ensures rest { AreImages (map string_bytes words.now) → (result.code ≢ 5) → (result.code ≢ 8) →
        (text : Seq ℕ) → S.left script.old text → S.left script.new (rest_of text) }
    ensures source_sound { S.sound script.old → S.sound script.new × (S.faults script.new ≡ S.faults script.old) }
    ensures unread { ¬ AreImages (map string_bytes words.now) → script.new ≡ script.old }

    // What stays.
    ensures back { IsEachBack (H.fetches shelf.old) (H.fetches shelf.new) (H.returns shelf.old) (H.returns shelf.new) }
    ensures tells { H.tells shelf.old ↔ H.tells shelf.new }
    ensures home { H.tells shelf.old → KeepOthers (map string_bytes words.now) (H.image shelf.old)
        (H.image shelf.new) (H.out shelf.old) (H.out shelf.new) }
    ensures sound { AllByRecursion (H.sound shelf.old) (map string_bytes words.now) →
        (H.faults shelf.new ≡ H.faults shelf.old) × (H.disk_faults shelf.new ≡ H.disk_faults shelf.old)
        × ((name : Seq ℕ) → H.sound shelf.old name → H.sound shelf.new name) }
    ensures unfetched { (¬ AreImages (map string_bytes words.now) → shelf.new ≡ shelf.old)
        × ((result.code ≡ 2) ⊎ (result.code ≡ 5) → shelf.new ≡ shelf.old) }
    ensures journal { ¬ AreImages (map string_bytes words.now) → journal.new ≡ journal.old }
{
    if !are_images(words) {
        return end_with(out, "words\n", 1);
    }
    match behind_run(alloc, words) {
        Ok(words) => run_words(
            alloc,
            true,
            Flushed,
            words.as_slice(),
            script,
            shelf,
            out,
            journal,
        ),
        Err(_) => Status { code: CODE_MEMORY },
    }
}

/// The words of a run over these images.
fn behind_run(alloc: Global, names: &[String]) -> Result<Vec<String>, AllocError>
    ensures { IfOk result (λ words. map string_bytes words.items ≡ codes "run" ∷ map string_bytes names.now) }
{
    let mut words = Vec::new(alloc);
    words.push(String::from_str(alloc, "run")?)?;
    for name in names {
        words.push(name.clone()?)?;
    }
    Ok(words)
}
