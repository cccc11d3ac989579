//! What becomes of a request after its own work.

ghost use Rattle.std.specs.Prelude.{◌≡◌, ◌<◌, ℕ, List, IfOk, length, map, reverse};
ghost use Rattle.std.specs.List.{AllByRecursion};
ghost use Rattle.zio_types.specs.Choices.{Ask};
ghost use Rattle.zio_types.specs.Errors.{worst_error, worst_of};
ghost use Rattle.zio_cksum.specs.Images.{Images};
ghost use Rattle.zio_gang.specs.Attempts.{Terms, closed, ended_with, goes_again, judged_own};
ghost use Rattle.zio_course.specs.Runners.{AreRisingFrom};
ghost use Rattle.zio_plain.specs.Judgments.{IsJudged, again_in, again_of, children_handed, done_in, freed_block, own_of, unused_in};
ghost use Rattle.zio_plain.specs.Waits.{child_of, merged, numbers_in, pending_of, return_of};
ghost use Rattle.zio_plain.specs.declared.judge.Fate.TheVariants.{Again};
ghost use Rattle.zio_plain.specs.declared.waiting.Waiting.{Waiting as SeenWaiting};
ghost use Rattle.zio_plain.specs.declared.waiting.Kept.{Kept as SeenKept};

use crate::children::{again_count, bits_of, finished_of, merged, worst_of};
use crate::evaluated::Evaluated;
use crate::owns::OwnEnd;
use crate::waiting::{Handed, Kept, Waiting};
use std::alloc::Global;
use zio_counts::all_bits;
use zio_course::RequestEnd;
use zio_gang::Tree;
use zio_script::{Failmode, Work};
use zio_types::{Bits, List, NoMemory, worst};

/// A request finishes or goes again.
#[derive(Debug, Drop)]
pub(crate) enum Fate {
    Ends(Evaluated),
    Again(Waiting),
}

/// What becomes of a request in an attempt.
#[derive(Debug, Drop)]
pub(crate) struct Judged {
    /// What it hands to its parent.
    pub(crate) handed: Handed,
    pub(crate) fate: Fate,
    /// A block whose places are given back.
    pub(crate) unused: Option<Tree>,
}

/// With bits, its own or its children's, a request goes again and keeps the children that finished. Else it finishes
/// with the worst of its own error and theirs.
pub(crate) fn judge(
    alloc: Global,
    failmode: Failmode,
    waiting: Waiting,
    children: &[Handed],
    own: OwnEnd,
) -> Result<Judged, NoMemory>
    requires few { length children.now < 65536 }
    requires rising { AreRisingFrom 0 (numbers_in (children_handed children.now)) }
    ensures judged { IfOk result (λ judged. (t : Terms) (asks : List Ask) (images : Images) → t.failmode ≡ failmode →
        IsJudged judged (judged_own t (pending_of waiting) (map return_of (reverse children.now))
        (own_of own asks images))) }
    ensures again { IfOk result (λ judged. (w : SeenWaiting) → judged.fate ≡ Again w →
        w ≡ record waiting {
          kept = merged (reverse (children_handed (done_in children.now))) waiting.kept;
          unfinished = again_in children.now;
        }) }
    ensures unused { IfOk result (λ judged. judged.unused
        ≡ unused_in judged.fate own.tree (freed_block waiting.request.work waiting.block)) }
{
    let bits = all_bits(
        waiting.request.work.kind(),
        own.error,
        waiting.request.canfail,
        failmode,
        bits_of(children),
    );
    let finished = finished_of(alloc, children)?;
    let kept = merged(alloc, finished.as_slice(), waiting.kept.as_slice())?;
    if bits.go_again() {
        Ok(goes_again(waiting, own, bits, kept, again_count(children)))
    } else {
        Ok(ends(waiting, own, kept.as_slice()))
    }
}

/// The request hands on its bits and its pointer, and keeps the children that finished. So many others go again.
fn goes_again(
    waiting: Waiting,
    own: OwnEnd,
    bits: Bits,
    kept: List<Kept>,
    unfinished: u32,
) -> Judged
    ensures judged { (asks : List Ask) (images : Images)
        → IsJudged result (goes_again (pending_of waiting) (own_of own asks images) bits (map child_of kept)) }
    ensures again { (w : SeenWaiting) → result.fate ≡ Again w
        → w ≡ record waiting { kept = kept; unfinished = unfinished } }
    ensures unused { result.unused ≡ unused_in result.fate own.tree (freed_block waiting.request.work waiting.block) }
{
    let child = Kept {
        number: waiting.request.number,
        error: None,
        pointer: own.pointer,
    };
    Judged {
        handed: Handed {
            under: waiting.request.under,
            bits,
            child,
        },
        fate: Fate::Again(Waiting {
            request: waiting.request,
            birth: waiting.birth,
            block: waiting.block,
            kept,
            unfinished,
        }),
        unused: own.tree,
    }
}

/// The request finishes. With an error the block that it made is unused, and without one the block that it freed.
fn ends(waiting: Waiting, own: OwnEnd, children: &[Kept]) -> Judged
    ensures judged { (asks : List Ask) (images : Images) → IsJudged result
        (ended_with (pending_of waiting) (own_of own asks images)
        (worst_error own.error (worst_of (map (λ (k : SeenKept). k.error) children.now)))) }
    ensures again { (w : SeenWaiting) → ¬ (result.fate ≡ Again w) }
    ensures unused { result.unused ≡ unused_in result.fate own.tree (freed_block waiting.request.work waiting.block) }
{
    let error = worst(own.error, worst_of(children));
    let Waiting {
        request,
        birth: _,
        block,
        kept: _,
        unfinished: _,
    } = waiting;
    let number = request.number;
    let child = Kept {
        number,
        error,
        pointer: own.pointer,
    };
    let handed = Handed {
        under: request.under,
        bits: Bits::NONE,
        child,
    };
    match error {
        None => Judged {
            handed,
            fate: Fate::Ends(Evaluated::new(RequestEnd {
                request: number,
                error: None,
                bytes: own.bytes,
                tree: own.tree,
            })),
            unused: freed(&request.work, block),
        },
        Some(error) => Judged {
            handed,
            fate: Fate::Ends(Evaluated::new(RequestEnd {
                request: number,
                error: Some(error),
                bytes: own.bytes,
                tree: None,
            })),
            unused: own.tree,
        },
    }
}

/// The block that work without error frees.
fn freed(work: &Work, block: Option<Tree>) -> Option<Tree>
    ensures { result ≡ freed_block work.now block }
{
    match work {
        Work::Free { .. } => block,
        Work::Null | Work::Read { .. } | Work::Write { .. } | Work::Claim { .. } => None,
    }
}
