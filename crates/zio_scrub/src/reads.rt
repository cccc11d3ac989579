// All copies are read.

ghost use Rattle.std.specs.Prelude.{◌≡◌, ◌≢◌, ◌∷◌, ◌++◌, ◌&&◌, ◌+◌, ◌<◌, ◌≤◌, ◌^◌, ℕ, [], Contains, Err, IfOk, Some, List as Seq, OnErr, OnOk, false, length, map, not};
ghost use Rattle.std.specs.List.{AllByRecursion};
ghost use Rattle.zio_faults.specs.Hits.{RowFits};
ghost use Rattle.zio_cksum.specs.Images.{Images, Setting as SeenSetting};
ghost use Rattle.zio_disks.specs.Disks.{Handles, Tell};
ghost use Rattle.zio_scrub.specs.declared.pieces.Piece.{Piece as SeenPiece};
ghost use Rattle.zio_scrub.specs.Layouts.{FitsQueue, HasPlace, IsLayoutOf, IsReadable, LiesOnDisks, copies_of_all};
ghost use Rattle.zio_scrub.specs.Pieces.{all_seen};
ghost use Rattle.zio_scrub.specs.Queues.{AllWait, HaveAll, IsOrdered};
ghost use Rattle.zio_scrub.specs.Reads.{AreAllHeard, AreHearable, AreOut, IsHeard, IsReadOf, IsSound, IsFrom, IsTrueOf, IsTruthful, bad_marked, is_answered, is_out, leaf_at, lost_marked, mark_at, read_op, settled_lost, settled_repairs, slice};
ghost use Rattle.zio_scrub.specs.Repairs.{IsRepairOn};
ghost use Rattle.zio_scrub.specs.Scrubs.{all_lost, all_repairs, repairs_with};

use crate::heard::{Heard, Mark, Source};
use crate::layout::{CopyAt, Layout, Numbered, lay_out};
use crate::pieces::Piece;
use crate::queues::Queues;
use crate::repairs::Repair;
use std::alloc::Global;
use zio_disks::{Setting, Spot, Stop};
use zio_groups::Answered;
use zio_outside::Disk;
use zio_shared::Shared;
use zio_types::{Bytes, Flags, List, Prio};
use zio_vqueue::Op;

/// What the reads of all copies come to.
#[derive(Drop)]
pub(crate) struct Reading {
    /// The copies to be written, in the order of the pieces.
    pub repairs: List<Repair>,
    /// How many copies there are.
    pub copies: usize,
    /// How many of them are copies of pieces without a good one.
    pub lost: usize,
}

/// Reads each copy of the pieces once.
pub(crate) fn read_pieces<D: Disk>(
    alloc: Global,
    setting: &Setting,
    disks: &mut [D],
    pieces: &[Piece],
) -> Result<Reading, Stop>
    requires rows { AllByRecursion RowFits setting.now.rows }
    requires disks { length disks.old < 2 ^ 32 }
    requires readable { AllByRecursion (IsReadable setting.now (map D.bytes disks.old)) pieces.now }
    ensures told { IfOk result (λ reading. (images : Images) → Tell D.image disks.old images →
        (reading.repairs ≡ all_repairs setting.now images (all_seen pieces.now))
        × (reading.lost ≡ all_lost setting.now images (all_seen pieces.now))
        × Tell D.image disks.new images) }
    ensures copies { IfOk result (λ reading. reading.copies ≡ length (copies_of_all setting.now pieces.now)) }
    ensures few { IfOk result (λ reading. length reading.repairs ≤ reading.copies) }
    ensures some { OnOk result (AllByRecursion HasPlace pieces.now) }
    ensures fits { IfOk result (λ reading. AllByRecursion (IsRepairOn (map D.bytes disks.old)) reading.repairs) }
    ensures among { IfOk result (λ reading. AllByRecursion
        (λ repair. Contains (copies_of_all setting.now pieces.now) repair.spot) reading.repairs) }
    ensures handled { Handles D.bytes D.faults D.faults_at_fetch D.home D.image D.sound D.went [] result disks.old
        disks.new }
{
    let layout = lay_out(alloc, setting, pieces)?;
    let mut queues = queued(alloc, layout.copies.as_slice(), disks.len() as u32)?;
    let mut heard = Heard::new(alloc, layout.copies.len(), layout.pieces.len())?;
    read_all(alloc, setting, disks, &layout, &mut queues, &mut heard)?;
    gather(alloc, &layout, heard)
}

/// All reads wait at their leaves.
fn queued(alloc: Global, copies: &[CopyAt], leaves: u32) -> Result<Queues, Stop>
    requires fit { AllByRecursion (λ copy. FitsQueue leaves copy.spot) copies.now }
    ensures wait { IfOk result (λ queues. HaveAll (IsReadOf copies.now) (leaf_at copies.now) (length copies.now)
        queues.leaves.items) }
    ensures order { IfOk result (λ queues. AllByRecursion IsOrdered queues.leaves.items) }
    ensures err { OnErr result (result ≡ Err Stop.Memory) }
{
    let mut queues = Queues::new(alloc, leaves)?;
    for (number, copy) in copies.iter().enumerate() {
        let op = read_op(number as u64, &copy.spot);
        queues.put(copy.spot.leaf, op, Shared::alone(Bytes::new(alloc)))?;
    }
    Ok(queues)
}

/// The read of a whole copy.
fn read_op(ticket: u64, spot: &Spot) -> Op
    requires { spot.now.span < 2 ^ 32 }
    ensures { result ≡ read_op ticket spot.now }
{
    Op {
        ticket,
        write: false,
        at: spot.at,
        len: spot.span as u32,
        prio: Prio::Scrub,
        flags: Flags {
            canfail: false,
            retry: false,
            dont_aggregate: false,
            repair: false,
        },
    }
}

/// Issues all that waits, and hears the answers.
fn read_all<D: Disk>(
    alloc: Global,
    setting: &Setting,
    disks: &mut [D],
    layout: &Layout,
    queues: &mut Queues,
    heard: &mut Heard,
) -> Result<(), Stop>
    requires rows { AllByRecursion RowFits setting.now.rows }
    requires sound { IsSound layout.now }
    requires lies { AllByRecursion (λ copy. LiesOnDisks (map D.bytes disks.old) copy.spot) layout.now.copies }
    requires wait { AllWait (IsReadOf layout.now.copies) queues.old.leaves.items }
    requires order { AllByRecursion IsOrdered queues.old.leaves.items }
    requires out { AreOut layout.now.copies (mark_at heard.old) queues.old.leaves.items }
    requires heard { IsHeard layout.now heard.old }
    ensures all { OnOk result (AreAllHeard layout.now heard.new) }
    ensures told { IfOk result (λ _. (images : Images) → Tell D.image disks.old images → Tell D.image disks.new images
        × (IsTrueOf setting.now images layout.now heard.old → IsTrueOf setting.now images layout.now heard.new)) }
    ensures handled { Handles D.bytes D.faults D.faults_at_fetch D.home D.image D.sound D.went [] result disks.old
        disks.new }
{
    while let Some(leaf) = queues.next() {
        let answers = queues.issue(alloc, setting, disks, leaf)?;
        hear_all(layout, heard, answers);
    }
    Ok(())
}

fn hear_all(layout: &Layout, heard: &mut Heard, answers: List<Answered>)
    requires sound { IsSound layout.now }
    requires heard { IsHeard layout.now heard.old }
    requires hearable { AreHearable layout.now (mark_at heard.old) answers }
    ensures heard { IsHeard layout.now heard.new }
    ensures marks { (ticket : ℕ) → is_out (mark_at heard.new ticket)
        ≡ (is_out (mark_at heard.old ticket) && not (is_answered ticket answers)) }
    ensures told { (s : SeenSetting) (images : Images) → AllByRecursion (IsTruthful s images layout.now) answers →
        IsTrueOf s images layout.now heard.old → IsTrueOf s images layout.now heard.new }
{
    for answer in answers.into_rest() {
        heard.hear(layout, answer);
    }
}

/// What is to be repaired, and what is lost.
fn gather(alloc: Global, layout: &Layout, heard: Heard) -> Result<Reading, Stop>
    requires sound { IsSound layout.now }
    requires heard { AreAllHeard layout.now heard }
    ensures told { IfOk result (λ reading. (s : SeenSetting) (images : Images) (pieces : Seq SeenPiece) →
        IsLayoutOf s pieces layout.now → IsTrueOf s images layout.now heard →
        (reading.repairs ≡ all_repairs s images (all_seen pieces)) × (reading.lost ≡ all_lost s images (all_seen pieces))) }
    ensures copies { IfOk result (λ reading. reading.copies ≡ length layout.now.copies) }
    ensures few { IfOk result (λ reading. length reading.repairs ≤ length layout.now.copies) }
    ensures from { IfOk result (λ reading. AllByRecursion (IsFrom layout.now) reading.repairs) }
    ensures err { OnErr result (result ≡ Err Stop.Memory) }
{
    let Heard { marks, sources } = heard;
    let mut reading = Reading {
        repairs: List::new(alloc),
        copies: layout.copies.len(),
        lost: 0,
    };
    let mut number = 0;
    for source in List::from_vec(sources).into_rest() {
        let piece = &layout.pieces.as_slice()[number];
        settle_piece(alloc, layout, marks.as_slice(), piece, source, &mut reading)?;
        number += 1;
    }
    Ok(reading)
}

/// Adds what the reads of a piece come to.
fn settle_piece(
    alloc: Global,
    layout: &Layout,
    marks: &[Mark],
    piece: &Numbered,
    source: Option<Source>,
    reading: &mut Reading,
) -> Result<(), Stop>
    requires copies { piece.now.first + piece.now.count ≤ length layout.now.copies }
    requires marks { length marks.now ≡ length layout.now.copies }
    requires room { reading.old.lost + piece.now.count < 2 ^ 64 }
    ensures repairs { OnOk result (reading.new.repairs ≡ reading.old.repairs
        ++ settled_repairs source (slice marks.now piece.now) (slice layout.now.copies piece.now)) }
    ensures lost { OnOk result (reading.new.lost ≡ reading.old.lost + settled_lost source (slice marks.now piece.now)) }
    ensures copies { reading.new.copies ≡ reading.old.copies }
    ensures err { OnErr result (result ≡ Err Stop.Memory) }
{
    let end = piece.first + piece.count;
    let marks = &marks[piece.first..end];
    let copies = &layout.copies.as_slice()[piece.first..end];
    settle(alloc, marks, copies, source, reading)
}

/// The same of its marks and its copies.
fn settle(
    alloc: Global,
    marks: &[Mark],
    copies: &[CopyAt],
    source: Option<Source>,
    reading: &mut Reading,
) -> Result<(), Stop>
    requires { reading.old.lost + length marks.now < 2 ^ 64 }
    ensures repairs { OnOk result (reading.new.repairs
        ≡ reading.old.repairs ++ settled_repairs source marks.now copies.now) }
    ensures lost { OnOk result (reading.new.lost ≡ reading.old.lost + settled_lost source marks.now) }
    ensures copies { reading.new.copies ≡ reading.old.copies }
    ensures err { OnErr result (result ≡ Err Stop.Memory) }
{
    match source {
        Some(source) => add_repairs(alloc, marks, copies, source.bytes, &mut reading.repairs),
        None => {
            reading.lost += lost_of(marks);
            Ok(())
        }
    }
}

/// Of a piece of which nothing is kept all copies are lost, or all are good.
fn lost_of(marks: &[Mark]) -> usize
    ensures { result ≡ lost_marked marks.now }
{
    match marks.first() {
        Some(Mark::Bad) => marks.len(),
        _ => 0,
    }
}

/// The bad copies of a piece are to be written with these bytes, which the last of them gets.
#[tactic(auto, using(crate::proofs::GatherLemmas::none_bad))]
fn add_repairs(
    alloc: Global,
    marks: &[Mark],
    copies: &[CopyAt],
    bytes: Shared,
    repairs: &mut List<Repair>,
) -> Result<(), Stop>
    ensures ok { OnOk result (repairs.new ≡ repairs.old ++ repairs_with (Some bytes) (bad_marked marks.now copies.now)) }
    ensures err { OnErr result (result ≡ Err Stop.Memory) }
{
    let Some((mark, marks)) = marks.split_first() else {
        return Ok(());
    };
    let Some((copy, copies)) = copies.split_first() else {
        return Ok(());
    };
    if *mark != Mark::Bad {
        return add_repairs(alloc, marks, copies, bytes, repairs);
    }
    if !has_bad(marks) {
        return add_repair(repairs, &copy.spot, bytes);
    }
    let mut bytes = bytes;
    let Ok(same) = bytes.share(alloc) else {
        return Err(Stop::Memory);
    };
    add_repair(repairs, &copy.spot, same)?;
    add_repairs(alloc, marks, copies, bytes, repairs)
}

fn has_bad(marks: &[Mark]) -> bool
    ensures { result ≡ false → AllByRecursion (λ mark. mark ≢ Mark.Bad) marks.now }
{
    for mark in marks {
        if *mark == Mark::Bad {
            return true;
        }
    }
    false
}

fn add_repair(repairs: &mut List<Repair>, spot: &Spot, bytes: Shared) -> Result<(), Stop>
    ensures ok { OnOk result (repairs.new ≡ repairs.old ++ record { spot = spot.now; bytes = bytes } ∷ []) }
    ensures err { OnErr result (result ≡ Err Stop.Memory) }
{
    let spot = Spot {
        leaf: spot.leaf,
        at: spot.at,
        span: spot.span,
    };
    match repairs.push(Repair { spot, bytes }) {
        Ok(()) => Ok(()),
        Err(_) => Err(Stop::Memory),
    }
}
