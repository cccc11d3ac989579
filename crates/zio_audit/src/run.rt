//! Whether a run is what its report says: the rounds of the script are run by the entries that the report spells, and
//! what comes of it is compared with the report.

ghost use Rattle.std.specs.Prelude.{◌≡◌, ◌≤◌, ◌↔◌, [], IfOk, IsErrOf, List as Seq, MatchOption, drop, length, map, true, ℕ};
ghost use Rattle.std.specs.List.{AllByRecursion, list_all};
ghost use Rattle.zio_types.specs.Places.{is_lawful_top};
ghost use Rattle.zio_outside.specs.Memory.{disk_image};
ghost use Rattle.zio_script.specs.Accepted.{AreRising};
ghost use Rattle.zio_script.specs.Grammar.{IsScriptOf};
ghost use Rattle.zio_script.specs.Requests.{requests_of};
ghost use Rattle.zio_cksum.specs.Images.{Images};
ghost use Rattle.zio_gang.specs.Trees.{sizes_of};
ghost use Rattle.zio_report.specs.Meanings.{IsEmptyJournal};
ghost use Rattle.zio_spelled.specs.Rounds.{IsSpelled};
ghost use Rattle.zio_spelled.specs.declared.count.TheConstants.{REPORT_LEN_MAX};
ghost use Rattle.zio_spelled.specs.declared.rounds.RoundJournal.{RoundJournal as SeenJournal};
ghost use Rattle.zio_command.specs.Grounds.{IsSettingOf};
ghost use Rattle.zio_audit.specs.Audits.{AreNew, sizes_in};
ghost use Rattle.zio_audit.specs.Ended.{HasReplayed, IsAtStart, IsToldOf};
ghost use Rattle.zio_audit.specs.Putting.{IsPutIn, IsText, rest_of};
ghost use Rattle.zio_audit.specs.Seen.{IsJudgedAs, IsLineOrNext};
ghost use Rattle.zio_audit.specs.Verdicts.{Case, HasLawfulEntries, IsReadAs, journal_spelled};

use crate::completions::unmatched_round;
use crate::journals::Journals;
use crate::plain_lines::shows_bytes;
use crate::plain_matcher::PlainMatcher;
use crate::putting::{PutIn, journal_text};
use crate::replay::{AsSpelled, replay_over};
use crate::replayed::{Replayed, Spelled};
use crate::seen::{Judged, Seen};
use crate::shapes::line_before;
use crate::so_far::SpelledSoFar;
use std::alloc::Global;
use zio_course::Records;
use zio_disks::Setting;
use zio_outside::MemDisk;
use zio_plain::{EntriesFault, Plain};
use zio_report::{RunFault, Show};
use zio_script::{Script, accepted_scripts_are_orderly};
use zio_suspend::run_script;
use zio_types::{List, NoMemory, TopSize};

/// What is to be said of a run whose script is read, and whose report spells a journal, before the images after it are
/// looked at: `text` is the script's, and the disks have the images before the run.
pub(crate) fn judge_run<K: Spelled>(
    alloc: Global,
    text: &[u8],
    script: &Script,
    report: &[u8],
    setting: Setting,
    sizes: &[TopSize],
    disks: Vec<MemDisk>,
) -> Result<Judged, NoMemory>
    requires script { IsScriptOf text.now script.now }
    requires new { AreNew disks.items (map disk_image disks.items) }
    requires few { length disks.items ≤ 16 }
    requires setting { IsSettingOf script.now (sizes_in disks.items) setting }
    requires sizes { sizes.now ≡ sizes_of setting.tops }
    requires short { length report.now ≤ REPORT_LEN_MAX }
    requires spelled { IsSpelled sizes.now report.now K.journals }
    ensures { IfOk result (λ judged. (after : Images) → IsJudgedAs (record {
      script = text.now;
      report = report.now;
      before = map disk_image disks.items;
      after = after;
    }) judged) }
{
    accepted_scripts_are_orderly();
    let images = disks.len() as u32;
    let journals = Journals::of(sizes, report);
    let runner = replay_over::<MemDisk, K>(alloc, setting, disks, sizes, journals.again())?;
    let mut plain = PlainMatcher::new(report);
    let mut journal: SpelledSoFar<K> = SpelledSoFar::new(alloc);
    let show = Show::Report {
        journal: false,
        bytes: shows_bytes(report),
    };
    match run_spelled(
        alloc,
        script,
        &show,
        runner,
        images,
        &mut plain,
        &mut journal,
    ) {
        Ok(disks) => match judge_ended(alloc, script, report, journals, &plain, &journal)? {
            Some(seen) => Ok(Judged::No(seen)),
            None => Ok(Judged::Leaves(disks)),
        },
        Err(EntriesFault::Strange) => Ok(Judged::No(Seen::Places {
            round: round_after(journal.rounds()),
        })),
        Err(EntriesFault::Memory) => Err(NoMemory),
    }
}

// The number of the round that comes after so many.
fn round_after(rounds: u32) -> u64
    ensures { 1 ≤ result }
{
    u64::from(rounds) + 1
}

// Runs the script by the entries that the report spells, and gives its disks; strange where they aren't lawful.
fn run_spelled<K: Spelled>(
    alloc: Global,
    script: &Script,
    show: &Show,
    runner: Plain<MemDisk, Replayed<K>, AsSpelled>,
    images: u32,
    plain: &mut PlainMatcher,
    journal: &mut SpelledSoFar<K>,
) -> Result<Vec<MemDisk>, EntriesFault>
    requires script { (text : Seq ℕ) × IsScriptOf text script.now }
    requires start { IsAtStart script.now runner.setting runner.disks runner.last runner.stopped }
    requires live { runner.chooser.space.live ≡ [] }
    requires images { images ≡ length runner.disks }
    requires empty { IsEmptyJournal journal.old.journal }
    ensures ran { IfOk result (λ after. HasReplayed show.now script.now K.journals (map disk_image runner.entry.disks)
        (map disk_image after.items) plain.old plain.new journal.new.journal) }
    ensures strange { IsErrOf result EntriesFault.Strange → (c : Case) → c.before ≡ map disk_image runner.entry.disks
        → IsReadAs c script.now K.journals
        → ¬ HasLawfulEntries script.now c.before (journal_spelled script.now c.before K.journals) }
{
    let mut runner = runner;
    match run_script(alloc, script, images, show, &mut runner, plain, journal) {
        Ok(_) => Ok(runner.into_disks()),
        Err(RunFault::Memory) if runner.is_strange() => Err(EntriesFault::Strange),
        Err(RunFault::Memory) => Err(EntriesFault::Memory),
        Err(RunFault::Device) => unreachable!(),
        Err(RunFault::Sink) => unreachable!(),
    }
}

// What is to be said of a run to its end, which left this of the matcher of its text and this journal, before the images
// after it are looked at.
fn judge_ended<K: Spelled>(
    alloc: Global,
    script: &Script,
    report: &[u8],
    journals: Journals<'_>,
    plain: &PlainMatcher,
    journal: &SpelledSoFar<K>,
) -> Result<Option<Seen>, NoMemory>
    requires rising { AreRising (requests_of script.now.items) }
    ensures { IfOk result (IsToldOf script.now report.now journals.entry plain.now journal.now.journal) }
{
    match round_behind(alloc, journals.again(), journal.rounds())? {
        Some(round) => return Ok(Some(Seen::Places { round })),
        None => {}
    }
    match unmatched_round(
        alloc,
        script.items.as_slice(),
        journal.completions(),
        journals.again(),
    )? {
        Some(round) => return Ok(Some(Seen::Completions { round })),
        None => {}
    }
    if !plain.is_whole() {
        return Ok(Some(text_seen(report, plain.left())));
    }
    let put = put_in(alloc, report, journals)?;
    if !put.is_whole() {
        return Ok(Some(text_seen(report, put.left())));
    }
    Ok(None)
}

// The line of the report behind which so many bytes follow, or fewer, isn't that of the run.
fn text_seen(report: &[u8], left: Option<usize>) -> Seen
    ensures { (line : ℕ) × (result ≡ Seen.Text line) × IsLineOrNext report.now line }
{
    Seen::Text {
        line: line_before(report, left),
    }
}

// The first round with an entry behind so many rounds.
fn round_behind(alloc: Global, journals: Journals<'_>, rounds: u32) -> Result<Option<u64>, NoMemory>
    ensures { IfOk result (λ found. MatchOption found
        (AllByRecursion (λ (j : SeenJournal). j.entries ≡ []) (drop rounds journals.entry))
        (λ round. (1 ≤ round) × (¬ AllByRecursion (λ (j : SeenJournal). j.entries ≡ []) (drop rounds journals.entry)))) }
{
    let mut later = journals;
    later.skip(alloc, rounds)?;
    let mut more: u64 = 0;
    while let Some(journal) = later.next(alloc)? {
        more += 1;
        if !journal.entries.is_empty() {
            return Ok(Some(u64::from(rounds) + more));
        }
    }
    Ok(None)
}

// The report compared with its own lines, where those of these journals stand as a run prints them.
fn put_in<'a>(
    alloc: Global,
    report: &'a [u8],
    journals: Journals<'_>,
) -> Result<PutIn<'a>, NoMemory>
    ensures { IfOk result (λ put. IsText (rest_of put) [] ↔ IsPutIn journals.entry report.now) }
{
    let mut put = PutIn::of(report);
    let mut later = journals;
    let mut held = List::new(alloc);
    while put.next_round(held.as_slice()) {
        held = match later.next(alloc)? {
            None => List::new(alloc),
            Some(journal) => journal_text(alloc, &journal)?,
        };
    }
    Ok(put)
}
