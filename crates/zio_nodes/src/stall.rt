//! What a node stalls on: which of its children lack a value for which its stage waits.

ghost use Rattle.std.specs.Prelude.{◌≡◌, ◌<◌, ◌≤◌, None, Some, false, true};
ghost use Rattle.std.specs.List.{list_any};
ghost use Rattle.zio_types.specs.Machine.{same_kind};
ghost use Rattle.zio_types.specs.declared.request.ChildKind.TheVariants.{Gang};
ghost use Rattle.zio_types.specs.declared.request.Phase.TheVariants.{Done as IsDone};
ghost use Rattle.zio_stages.specs.NodeChildren.{is_awaited};
ghost use Rattle.zio_staged.specs.Entries.{count_owing};
ghost use Rattle.zio_nodes.specs.StageMoves.{stalls_at};
ghost use Rattle.zio_nodes.specs.Stalls.{MayRun};

use zio_masks::Stage;
use zio_stages::Family;
use zio_types::{ChildKind, Phase};

/// How many gang children a stage that hands out many may have out.
const GANG_ROOM: usize = 3;

/// What a node at the stage waits for before the stage does anything, if it waits: a kind of which a child lacks its
/// value for the phase. A stage that hands out many gang children waits only where no more may be out.
pub(crate) fn stall_of(family: &Family, stage: Stage, many: bool) -> Option<(ChildKind, Phase)>
    ensures some { (kind : ChildKind) (phase : Phase) → result ≡ Some (kind, phase) →
        (stalls_at stage kind phase ≡ true) × (list_any (is_awaited kind phase) family.now ≡ true) }
    ensures none { result ≡ None → MayRun stage many family.now }
{
    match stage {
        Stage::WriteCompress => {
            first_of(family, &[ChildKind::Gang, ChildKind::Logical], Phase::Ready)
        }
        Stage::Ready => first_of(family, &[ChildKind::Gang], Phase::Ready),
        Stage::GangAssemble | Stage::GangIssue => {
            if many && gang_window(family) < GANG_ROOM {
                return None;
            }
            gang_stall(family)
        }
        Stage::VdevIoDone => first_of(family, &[ChildKind::Vdev], Phase::Done),
        Stage::Done => {
            first_of(
                family,
                &[ChildKind::Vdev, ChildKind::Gang, ChildKind::Logical],
                Phase::Done,
            )
        }
        Stage::Start
        | Stage::ReadBpInit
        | Stage::WriteBpInit
        | Stage::FreeBpInit
        | Stage::IssueAsync
        | Stage::ChecksumGenerate
        | Stage::DvaAllocate
        | Stage::DvaFree
        | Stage::DvaClaim
        | Stage::VdevIoStart
        | Stage::VdevIoAssess
        | Stage::ChecksumVerify => None,
    }
}

/// What the gang stages wait for: that all gang children are ready, and then that they are done.
pub(crate) fn gang_stall(family: &Family) -> Option<(ChildKind, Phase)>
    ensures some { (kind : ChildKind) (phase : Phase) → result ≡ Some (kind, phase) →
        (kind ≡ Gang) × (list_any (is_awaited kind phase) family.now ≡ true) }
    ensures none { result ≡ None → (phase : Phase) → count_owing Gang phase family.now ≡ 0 }
{
    match first_of(family, &[ChildKind::Gang], Phase::Ready) {
        Some(stall) => Some(stall),
        None => first_of(family, &[ChildKind::Gang], Phase::Done),
    }
}

/// The first of these kinds of which a child lacks its value for the phase.
fn first_of(family: &Family, kinds: &[ChildKind], phase: Phase) -> Option<(ChildKind, Phase)>
    ensures some { (kind : ChildKind) (at : Phase) → result ≡ Some (kind, at) →
        (list_any (same_kind kind) kinds.now ≡ true) × (at ≡ phase)
        × (list_any (is_awaited kind phase) family.now ≡ true) }
    ensures none { result ≡ None → (kind : ChildKind) → list_any (same_kind kind) kinds.now ≡ true
        → count_owing kind phase family.now ≡ 0 }
{
    let kind = family.missing(kinds, phase)?;
    Some((kind, phase))
}

/// How many children there are from the first gang child that isn't done on, so at least as many as aren't.
fn gang_window(family: &Family) -> usize
    ensures { count_owing Gang IsDone family.now ≤ result }
{
    match family.first_missing(ChildKind::Gang, Phase::Done) {
        Some(first) => family.len() - first,
        None => 0,
    }
}
