//! The own work of each kind of request.

ghost use Rattle.std.specs.Prelude.{◌≡◌, ◌+◌, ℕ, List, IfErr, IfOk, Option, Some, length, map};
ghost use Rattle.std.specs.List.{AllByRecursion};
ghost use Rattle.zio_types.specs.declared.request.Prio.{Prio};
ghost use Rattle.zio_blkptr.specs.declared.pointer.Bp.{Bp};
ghost use Rattle.zio_script.specs.declared.script.Work.TheVariants.{Claim, Free, Null, Read, Write};
ghost use Rattle.zio_disks.specs.Whole.{IsWholeTree};
ghost use Rattle.zio_course.specs.declared.runner.Stop.TheVariants.{Device};
ghost use Rattle.zio_plain.specs.Grounds.{CanRun, seen};
ghost use Rattle.zio_plain.specs.Posts.{IsSound};
ghost use Rattle.zio_plain.specs.Waits.{HasPointer, pointers_in};
ghost use Rattle.zio_plain.specs.Works.{BreaksOwn, DoesOwn};

use crate::content::content_of;
use crate::ground::Ground;
use crate::ground::parts::{claimed, found, nothing, stopped, written};
use crate::waiting::{Kept, Waiting};
use crate::works::OwnDone;
use zio_blkptr::SumKind;
use zio_blocks::{Chooser, Writing, claim_block, place_block};
use zio_course::Stop;
use zio_disks::{free_tree, read_tree};
use zio_outside::Disk;
use zio_script::{Body, Work};
use zio_types::Errno;

/// Does the own work of a request, by its kind.
pub(crate) fn own_work_of<D: Disk + Drop, C: Chooser + Drop>(
    base: &mut Ground<D, C>,
    attempt: u32,
    waiting: &Waiting,
    children: &[Kept],
) -> Result<OwnDone, Stop>
    requires can { CanRun D.bytes (seen C.sizes C.used C.live C.given base.old) waiting.now.block }
    requires sound { IsSound IsWholeTree waiting.now }
    requires count { length children.now ≡ length waiting.now.kept + waiting.now.unfinished }
    requires pointers { AllByRecursion HasPointer children.now }
    ensures done { IfOk result
        (λ done. DoesOwn D.bytes D.faults D.faults_at_fetch D.home D.image D.sound C.lawful waiting.now attempt
        (pointers_in children.now)
        (seen C.sizes C.used C.live C.given base.old) (seen C.sizes C.used C.live C.given base.new) done.end
        done.taken) }
    ensures breaks { IfErr result
        (λ stop. BreaksOwn D.bytes D.faults D.faults_at_fetch D.home D.image D.sound waiting.now
        (seen C.sizes C.used C.live C.given base.old) (seen C.sizes C.used C.live C.given base.new) (stop ≡ Device)) }
{
    match &waiting.request.work {
        Work::Null => Ok(nothing(base.alloc, None)),
        Work::Read { .. } => own_read(base, waiting),
        Work::Write {
            sum,
            copies,
            body,
            ..
        } => own_write(base, attempt, waiting, children, *sum, *copies, body),
        Work::Free { .. } => own_free(base, waiting),
        Work::Claim { pointer, .. } => own_claim(base, waiting, pointer),
    }
}

/// Reads the block that a request names.
fn own_read<D: Disk + Drop, C: Chooser + Drop>(
    base: &mut Ground<D, C>,
    waiting: &Waiting,
) -> Result<OwnDone, Stop>
    requires can { CanRun D.bytes (seen C.sizes C.used C.live C.given base.old) waiting.now.block }
    requires sound { IsSound IsWholeTree waiting.now }
    requires kind { (name : List ℕ) × ((prio : Prio) × (waiting.now.request.work ≡ Read name prio)) }
    ensures done { IfOk result (λ done. (attempt : ℕ) (pointers : List (Option Bp))
        → DoesOwn D.bytes D.faults D.faults_at_fetch D.home D.image D.sound C.lawful waiting.now attempt pointers
        (seen C.sizes C.used C.live C.given base.old) (seen C.sizes C.used C.live C.given base.new) done.end
        done.taken) }
    ensures breaks { IfErr result
        (λ stop. BreaksOwn D.bytes D.faults D.faults_at_fetch D.home D.image D.sound waiting.now
        (seen C.sizes C.used C.live C.given base.old) (seen C.sizes C.used C.live C.given base.new) (stop ≡ Device)) }
{
    let alloc = base.alloc;
    let Some(tree) = &waiting.block else {
        return Ok(nothing(alloc, Some(Errno::Noent)));
    };
    match read_tree(alloc, &base.setting, base.disks.as_mut_slice(), tree) {
        Ok(Ok(bytes)) => Ok(found(alloc, bytes)),
        Ok(Err(error)) => Ok(nothing(alloc, Some(error))),
        Err(stop) => Err(stopped(stop)),
    }
}

/// Reads the headers of the block that a request frees.
fn own_free<D: Disk + Drop, C: Chooser + Drop>(
    base: &mut Ground<D, C>,
    waiting: &Waiting,
) -> Result<OwnDone, Stop>
    requires can { CanRun D.bytes (seen C.sizes C.used C.live C.given base.old) waiting.now.block }
    requires kind { (name : List ℕ) × (waiting.now.request.work ≡ Free name) }
    ensures done { IfOk result (λ done. (attempt : ℕ) (pointers : List (Option Bp))
        → DoesOwn D.bytes D.faults D.faults_at_fetch D.home D.image D.sound C.lawful waiting.now attempt pointers
        (seen C.sizes C.used C.live C.given base.old) (seen C.sizes C.used C.live C.given base.new) done.end
        done.taken) }
    ensures breaks { IfErr result
        (λ stop. BreaksOwn D.bytes D.faults D.faults_at_fetch D.home D.image D.sound waiting.now
        (seen C.sizes C.used C.live C.given base.old) (seen C.sizes C.used C.live C.given base.new) (stop ≡ Device)) }
{
    let alloc = base.alloc;
    let Some(tree) = &waiting.block else {
        return Ok(nothing(alloc, Some(Errno::Noent)));
    };
    match free_tree(alloc, &base.setting, base.disks.as_mut_slice(), tree) {
        Ok(error) => Ok(nothing(alloc, error)),
        Err(stop) => Err(stopped(stop)),
    }
}

/// Places the content of a request, and writes it.
fn own_write<D: Disk + Drop, C: Chooser + Drop>(
    base: &mut Ground<D, C>,
    attempt: u32,
    waiting: &Waiting,
    children: &[Kept],
    sum: SumKind,
    copies: u32,
    body: &Body,
) -> Result<OwnDone, Stop>
    requires can { CanRun D.bytes (seen C.sizes C.used C.live C.given base.old) waiting.now.block }
    requires sound { IsSound IsWholeTree waiting.now }
    requires count { length children.now ≡ length waiting.now.kept + waiting.now.unfinished }
    requires pointers { AllByRecursion HasPointer children.now }
    requires kind { (name : List ℕ)
        × ((prio : Prio) × (waiting.now.request.work ≡ Write name sum copies prio body.now)) }
    ensures done { IfOk result
        (λ done. DoesOwn D.bytes D.faults D.faults_at_fetch D.home D.image D.sound C.lawful waiting.now attempt
        (pointers_in children.now)
        (seen C.sizes C.used C.live C.given base.old) (seen C.sizes C.used C.live C.given base.new) done.end
        done.taken) }
    ensures breaks { IfErr result
        (λ stop. BreaksOwn D.bytes D.faults D.faults_at_fetch D.home D.image D.sound waiting.now
        (seen C.sizes C.used C.live C.given base.old) (seen C.sizes C.used C.live C.given base.new) (stop ≡ Device)) }
{
    let alloc = base.alloc;
    let bytes = content_of(alloc, children, body)?;
    let writing = Writing {
        request: waiting.request.number,
        round: base.round,
        attempt,
        sum,
        copies,
        birth: u64::from(waiting.birth),
    };
    match place_block(
        alloc,
        &base.setting,
        base.disks.as_mut_slice(),
        &mut base.chooser,
        &writing,
        bytes.as_slice(),
    ) {
        Ok(placed) => written(alloc, placed),
        Err(stop) => Err(stopped(stop)),
    }
}

/// Claims the block of the pointer that these bytes spell.
fn own_claim<D: Disk + Drop, C: Chooser + Drop>(
    base: &mut Ground<D, C>,
    waiting: &Waiting,
    pointer: &[u8; 128],
) -> Result<OwnDone, Stop>
    requires can { CanRun D.bytes (seen C.sizes C.used C.live C.given base.old) waiting.now.block }
    requires kind { (name : List ℕ) × (waiting.now.request.work ≡ Claim name pointer.now) }
    ensures done { IfOk result (λ done. (attempt : ℕ) (pointers : List (Option Bp))
        → DoesOwn D.bytes D.faults D.faults_at_fetch D.home D.image D.sound C.lawful waiting.now attempt pointers
        (seen C.sizes C.used C.live C.given base.old) (seen C.sizes C.used C.live C.given base.new) done.end
        done.taken) }
    ensures breaks { IfErr result
        (λ stop. BreaksOwn D.bytes D.faults D.faults_at_fetch D.home D.image D.sound waiting.now
        (seen C.sizes C.used C.live C.given base.old) (seen C.sizes C.used C.live C.given base.new) (stop ≡ Device)) }
{
    let alloc = base.alloc;
    match claim_block(
        alloc,
        &base.setting,
        base.disks.as_mut_slice(),
        &mut base.chooser,
        pointer,
    ) {
        Ok(Ok(tree)) => claimed(alloc, tree),
        Ok(Err(error)) => Ok(nothing(alloc, Some(error))),
        Err(stop) => Err(stopped(stop)),
    }
}
