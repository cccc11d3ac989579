//! The run of a whole script over any runner of rounds.

ghost use Rattle.std.specs.Prelude.{◌≡◌, [], ℕ, List, IfErr, IfOk, IsErrOf, OnOk, bytes_eq, false, length, map, true};
ghost use Rattle.std.specs.List.{IsDistinct};
ghost use Rattle.std.specs.List.Sorted.{IsNonDecreasingBy};
ghost use Rattle.zio_types.specs.Choices.{Choice};
ghost use Rattle.zio_outside.specs.Outside.{Appends, Rose};
ghost use Rattle.zio_script.specs.Grammar.{IsScriptOf};
ghost use Rattle.zio_script.specs.Requests.{requests_of};
ghost use Rattle.zio_cksum.specs.Images.{Images};
ghost use Rattle.zio_gang.specs.declared.ending.Ending.TheVariants.{Complete};
ghost use Rattle.zio_gang.specs.Runs.{top_of};
ghost use Rattle.zio_gang.specs.Trees.{sizes_of};
ghost use Rattle.zio_report.specs.Meanings.{IsEmptyJournal, IsWholeRun, course_of, tops_of};
ghost use Rattle.zio_heal.specs.Given.{AcceptsWhatWasGiven};
ghost use Rattle.zio_heal.specs.Healed.{IsHealed};
ghost use Rattle.zio_heal.specs.Pools.{NoSmallRefused};
ghost use Rattle.zio_heal.specs.StoredPlainly.{FitPointers, IsStoredPlainly};
ghost use Rattle.zio_course.specs.Course.{AreOfRounds};
ghost use Rattle.zio_course.specs.Names.{byte_order, named_in, pairs_of};
ghost use Rattle.zio_course.specs.Runners.{AnyRose, stopping_of};
ghost use Rattle.zio_course.specs.SoFar.{IsCut, IsCutText, IsFullText};
ghost use Rattle.zio_suspend.specs.Pools.{AreBlocks, AreBoundIn};

use crate::ending::ending_of;
use crate::finish::{begin, finish};
use std::alloc::Global;
use std::collections::VecDeque;
use zio_course::{Bound as Names, Fold, Records, Runner, run_lines};
use zio_gang::{Bound, Ending};
use zio_heal::healed_scripts_store_plainly;
use zio_outside::Sink;
use zio_report::{RunFault, Show};
use zio_script::{Script, accepted_scripts_are_orderly};
use zio_types::{List, NoMemory};

/// How a script's run ended, and what it leaves of its pool.
#[derive(Debug, Drop)]
pub struct PoolEnd {
    pub ending: Ending,
    /// The resume point.
    pub point: u32,
    /// The blocks that are bound, each name once, in the order of the names' bytes.
    pub bound: List<Bound>,
}

/// Runs a script over a runner of rounds that ran none yet, and writes its report or its summary.
///
/// `images` is how many images the line of the pool tells. The journal is empty before, and has the entries and
/// completions of all rounds after; whoever keeps it may be given what the runner's rounds have as entries. The run is
/// cut short by `RunFault::Device` where a disk failed, by `RunFault::Sink` where `out` failed, and by
/// `RunFault::Memory`, where no disk failed. Then the journal is that of the course so far; and where the runner was
/// stopped in a round, the course goes on with that round, under its terms and over its trees.
/// Of the text so far, or of the whole text where the course was over, the sink got all after a disk's failure, a front
/// after its own, and whole lines for want of memory. A script that heals is complete, and stored as by a plain store,
/// where the journal refuses no single sector and every copy that was accepted holds what was given.
pub fn run_script<R: Runner, O: Sink, J: Records>(
    alloc: Global,
    script: &Script,
    images: u32,
    show: &Show,
    runner: &mut R,
    out: &mut O,
    journal: &mut J,
) -> Result<Ending, RunFault>
    requires script { (text : List ℕ) × IsScriptOf text script.now }
    requires empty { IsEmptyJournal (J.seen journal.old) }
    requires rows { (R.standing runner.old).rows ≡ script.now.faults }
    requires tops { (before : Images) → R.tells runner.old before
        → (R.standing runner.old).tops ≡ map (top_of before) script.now.tops }
    requires live { (R.standing runner.old).live ≡ [] }
    requires last { (R.standing runner.old).last ≡ 0 }
    requires runs { (R.standing runner.old).stopped ≡ false }
    requires can { R.Can runner.old }
    requires may { (round : ℕ) (entries : List Choice) → R.chosen round entries → J.may round entries }
    ensures whole { IfOk result (λ end. (before : Images) → R.tells runner.old before → (after : Images)
        × (printed : List ℕ)
        × IsWholeRun show.now
        (record { tops = length script.now.tops; images = images; requests = length (requests_of script.now.items) })
        script.now before (J.seen journal.new) after printed end
        × R.tells runner.new after × Appends (O.holds out.old) (O.holds out.new) printed) }
    ensures healed { IfOk result (λ end. (before : Images) → R.tells runner.old before → IsHealed script.now →
        FitPointers (tops_of script.now before) → NoSmallRefused (J.seen journal.new).places →
        AcceptsWhatWasGiven script.now before (J.seen journal.new).places →
        IsStoredPlainly script.now before (J.seen journal.new).places × (end ≡ Complete)) }
    ensures cut { IfErr result (λ fault. (before : Images) → R.tells runner.old before → (after : Images)
        × (text : List ℕ) × (full : List ℕ)
        × IsCut show.now (record {
          tops = length script.now.tops;
          images = images;
          requests = length (requests_of script.now.items);
        }) script.now before (R.standing runner.old).tops
        (stopping_of (R.standing runner.new) (R.stops runner.new)) fault (J.seen journal.new) after text
        × IsFullText fault show.now
        (record { tops = length script.now.tops; images = images; requests = length (requests_of script.now.items) })
        script.now before (J.seen journal.new) text full
        × R.tells runner.new after × IsCutText fault (O.holds out.old) (O.holds out.new) [] full) }
    ensures last { OnOk result ((R.standing runner.new).last ≡ (J.seen journal.new).rounds) }
    ensures runs { OnOk result ((R.standing runner.new).stopped ≡ false) }
    ensures tops { (R.standing runner.new).tops ≡ (R.standing runner.old).tops }
    ensures rows { (R.standing runner.new).rows ≡ (R.standing runner.old).rows }
    ensures faults { OnOk result ((R.standing runner.new).faults ≡ (R.standing runner.old).faults) }
    ensures quiet { OnOk result (O.faults out.new ≡ O.faults out.old) }
    ensures device { IsErrOf result RunFault.Device
        → AnyRose (R.standing runner.old).faults (R.standing runner.new).faults }
    ensures calm { IsErrOf result RunFault.Memory → (R.standing runner.new).faults ≡ (R.standing runner.old).faults }
    ensures sink { IsErrOf result RunFault.Sink → Rose (O.faults out.old) (O.faults out.new) }
    ensures can { R.Can runner.new }
    ensures chosen { AreOfRounds R.chosen (J.seen journal.new).rounds (J.seen journal.new).places }
    ensures same { R.same runner.old runner.new }
{
    match run_whole(alloc, script, images, show, runner, out, journal, false) {
        Ok(end) => Ok(end.ending),
        Err(fault) => Err(fault),
    }
}

/// Runs a script as `run_script` does, and gives the blocks that are bound at its end, with the resume point.
///
/// These are those of the course's last state. Whatever the runner tells, each is a block as its trees take it, their
/// places lie inside the tops, and no two of them meet. For want of memory for their list the run is cut short before its
/// last line, or its summary, is written.
pub fn run_pool<R: Runner, O: Sink, J: Records>(
    alloc: Global,
    script: &Script,
    images: u32,
    show: &Show,
    runner: &mut R,
    out: &mut O,
    journal: &mut J,
) -> Result<PoolEnd, RunFault>
    requires script { (text : List ℕ) × IsScriptOf text script.now }
    requires empty { IsEmptyJournal (J.seen journal.old) }
    requires rows { (R.standing runner.old).rows ≡ script.now.faults }
    requires tops { (before : Images) → R.tells runner.old before
        → (R.standing runner.old).tops ≡ map (top_of before) script.now.tops }
    requires live { (R.standing runner.old).live ≡ [] }
    requires last { (R.standing runner.old).last ≡ 0 }
    requires runs { (R.standing runner.old).stopped ≡ false }
    requires can { R.Can runner.old }
    requires may { (round : ℕ) (entries : List Choice) → R.chosen round entries → J.may round entries }
    ensures whole { IfOk result (λ end. (before : Images) → R.tells runner.old before → (after : Images)
        × (printed : List ℕ)
        × IsWholeRun show.now
        (record { tops = length script.now.tops; images = images; requests = length (requests_of script.now.items) })
        script.now before (J.seen journal.new) after printed end.ending
        × AreBoundIn (course_of script.now before (J.seen journal.new)).state end.point end.bound
        × R.tells runner.new after × Appends (O.holds out.old) (O.holds out.new) printed) }
    ensures healed { IfOk result (λ end. (before : Images) → R.tells runner.old before → IsHealed script.now →
        FitPointers (tops_of script.now before) → NoSmallRefused (J.seen journal.new).places →
        AcceptsWhatWasGiven script.now before (J.seen journal.new).places →
        IsStoredPlainly script.now before (J.seen journal.new).places × (end.ending ≡ Complete)) }
    ensures blocks { IfOk result (λ end. AreBlocks R.fits (sizes_of (R.standing runner.new).tops) end.bound) }
    ensures cut { IfErr result (λ fault. (before : Images) → R.tells runner.old before → (after : Images)
        × (text : List ℕ) × (full : List ℕ)
        × IsCut show.now (record {
          tops = length script.now.tops;
          images = images;
          requests = length (requests_of script.now.items);
        }) script.now before (R.standing runner.old).tops
        (stopping_of (R.standing runner.new) (R.stops runner.new)) fault (J.seen journal.new) after text
        × IsFullText fault show.now
        (record { tops = length script.now.tops; images = images; requests = length (requests_of script.now.items) })
        script.now before (J.seen journal.new) text full
        × R.tells runner.new after × IsCutText fault (O.holds out.old) (O.holds out.new) [] full) }
    ensures last { OnOk result ((R.standing runner.new).last ≡ (J.seen journal.new).rounds) }
    ensures runs { OnOk result ((R.standing runner.new).stopped ≡ false) }
    ensures tops { (R.standing runner.new).tops ≡ (R.standing runner.old).tops }
    ensures rows { (R.standing runner.new).rows ≡ (R.standing runner.old).rows }
    ensures faults { OnOk result ((R.standing runner.new).faults ≡ (R.standing runner.old).faults) }
    ensures quiet { OnOk result (O.faults out.new ≡ O.faults out.old) }
    ensures device { IsErrOf result RunFault.Device
        → AnyRose (R.standing runner.old).faults (R.standing runner.new).faults }
    ensures calm { IsErrOf result RunFault.Memory → (R.standing runner.new).faults ≡ (R.standing runner.old).faults }
    ensures sink { IsErrOf result RunFault.Sink → Rose (O.faults out.old) (O.faults out.new) }
    ensures can { R.Can runner.new }
    ensures chosen { AreOfRounds R.chosen (J.seen journal.new).rounds (J.seen journal.new).places }
    ensures same { R.same runner.old runner.new }
{
    run_whole(alloc, script, images, show, runner, out, journal, true)
}

/// The same, with the blocks that are bound where `lists` says so, and with none else.
fn run_whole<R: Runner, O: Sink, J: Records>(
    alloc: Global,
    script: &Script,
    images: u32,
    show: &Show,
    runner: &mut R,
    out: &mut O,
    journal: &mut J,
    lists: bool,
) -> Result<PoolEnd, RunFault>
    requires script { (text : List ℕ) × IsScriptOf text script.now }
    requires empty { IsEmptyJournal (J.seen journal.old) }
    requires rows { (R.standing runner.old).rows ≡ script.now.faults }
    requires tops { (before : Images) → R.tells runner.old before
        → (R.standing runner.old).tops ≡ map (top_of before) script.now.tops }
    requires live { (R.standing runner.old).live ≡ [] }
    requires last { (R.standing runner.old).last ≡ 0 }
    requires runs { (R.standing runner.old).stopped ≡ false }
    requires can { R.Can runner.old }
    requires may { (round : ℕ) (entries : List Choice) → R.chosen round entries → J.may round entries }
    ensures whole { IfOk result (λ end. (before : Images) → R.tells runner.old before → (after : Images)
        × (printed : List ℕ)
        × IsWholeRun show.now
        (record { tops = length script.now.tops; images = images; requests = length (requests_of script.now.items) })
        script.now before (J.seen journal.new) after printed end.ending
        × (lists ≡ true → AreBoundIn (course_of script.now before (J.seen journal.new)).state end.point end.bound)
        × R.tells runner.new after × Appends (O.holds out.old) (O.holds out.new) printed) }
    ensures healed { IfOk result (λ end. (before : Images) → R.tells runner.old before → IsHealed script.now →
        FitPointers (tops_of script.now before) → NoSmallRefused (J.seen journal.new).places →
        AcceptsWhatWasGiven script.now before (J.seen journal.new).places →
        IsStoredPlainly script.now before (J.seen journal.new).places × (end.ending ≡ Complete)) }
    ensures blocks { lists ≡ true
        → IfOk result (λ end. AreBlocks R.fits (sizes_of (R.standing runner.new).tops) end.bound) }
    ensures cut { IfErr result (λ fault. (before : Images) → R.tells runner.old before → (after : Images)
        × (text : List ℕ) × (full : List ℕ)
        × IsCut show.now (record {
          tops = length script.now.tops;
          images = images;
          requests = length (requests_of script.now.items);
        }) script.now before (R.standing runner.old).tops
        (stopping_of (R.standing runner.new) (R.stops runner.new)) fault (J.seen journal.new) after text
        × IsFullText fault show.now
        (record { tops = length script.now.tops; images = images; requests = length (requests_of script.now.items) })
        script.now before (J.seen journal.new) text full
        × R.tells runner.new after × IsCutText fault (O.holds out.old) (O.holds out.new) [] full) }
    ensures last { OnOk result ((R.standing runner.new).last ≡ (J.seen journal.new).rounds) }
    ensures runs { OnOk result ((R.standing runner.new).stopped ≡ false) }
    ensures tops { (R.standing runner.new).tops ≡ (R.standing runner.old).tops }
    ensures rows { (R.standing runner.new).rows ≡ (R.standing runner.old).rows }
    ensures faults { OnOk result ((R.standing runner.new).faults ≡ (R.standing runner.old).faults) }
    ensures quiet { OnOk result (O.faults out.new ≡ O.faults out.old) }
    ensures device { IsErrOf result RunFault.Device
        → AnyRose (R.standing runner.old).faults (R.standing runner.new).faults }
    ensures calm { IsErrOf result RunFault.Memory → (R.standing runner.new).faults ≡ (R.standing runner.old).faults }
    ensures sink { IsErrOf result RunFault.Sink → Rose (O.faults out.old) (O.faults out.new) }
    ensures can { R.Can runner.new }
    ensures chosen { AreOfRounds R.chosen (J.seen journal.new).rounds (J.seen journal.new).places }
    ensures same { R.same runner.old runner.new }
{
    accepted_scripts_are_orderly();
    healed_scripts_store_plainly();
    begin(alloc, script.tops.len(), images as usize, show, out)?;
    let mut fold = Fold::new(alloc);
    let mut held = VecDeque::new(alloc);
    run_lines(
        alloc,
        script.failmode,
        show,
        script.items.as_slice(),
        runner,
        &mut fold,
        &mut held,
        out,
        journal,
    )?;
    let ending = ending_of(&fold, &held);
    let Fold {
        bound,
        point,
        tally,
        ..
    } = fold;
    let blocks = match blocks_if(alloc, bound, lists) {
        Ok(blocks) => blocks,
        Err(NoMemory) => return Err(RunFault::Memory),
    };
    finish(alloc, show, script.items.as_slice(), &tally, ending, out)?;
    Ok(PoolEnd {
        ending,
        point,
        bound: List::from_vec(blocks),
    })
}

/// The bound names with their blocks, where they are asked for: their order costs a sort.
fn blocks_if(alloc: Global, bound: Names, lists: bool) -> Result<Vec<Bound>, NoMemory>
    ensures blocks { lists ≡ true → IfOk result (λ blocks. (name : List ℕ)
        → named_in (pairs_of blocks.items) name ≡ named_in bound name) }
    ensures once { lists ≡ true → IfOk result (λ blocks. IsDistinct bytes_eq (map (λ b. b.name) blocks.items)) }
    ensures order { lists ≡ true
        → IfOk result (λ blocks. IsNonDecreasingBy (λ e. byte_order e.0) (pairs_of blocks.items)) }
{
    if lists {
        bound.into_blocks(alloc)
    } else {
        Ok(Vec::new(alloc))
    }
}
