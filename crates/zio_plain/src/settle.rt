//! A tree in one round: it is attempted, and again while its root is to go again at once.

ghost use Rattle.std.specs.Prelude.{◌≡◌, ◌+◌, ◌<◌, ◌^◌, List, IfErr, IfOk, length, true};
ghost use Rattle.std.specs.List.{AllByRecursion};
ghost use Rattle.zio_course.specs.Runners.{has_claim};
ghost use Rattle.zio_disks.specs.Whole.{IsWholeTree};
ghost use Rattle.zio_gang.specs.Attempts.{reexecutions_max};
ghost use Rattle.zio_plain.specs.OwnEnds.{AreNamed, Named};
ghost use Rattle.zio_plain.specs.Passes.{AreNumberedApart, ArePasses};
ghost use Rattle.zio_plain.specs.Posts.{IsOneTree, requests_in};
ghost use Rattle.zio_plain.specs.declared.waiting.Waiting.{Waiting as SeenWaiting};

use crate::attempt::{Ends, PassEnd, attempt};
use crate::waiting::Waiting;
use crate::works::OwnWork;
use std::alloc::Global;
use zio_counts::REEXECUTIONS_MAX;
use zio_course::Stop;
use zio_script::Failmode;
use zio_types::List;

/// Settles a tree. It gives what is left: nothing where its root finished.
pub(crate) fn settle<W: OwnWork>(
    alloc: Global,
    works: &mut W,
    failmode: Failmode,
    tree: List<Waiting>,
    ends: &mut Ends,
) -> Result<List<Waiting>, Stop>
    requires tree { IsOneTree IsWholeTree tree }
    requires apart { AreNumberedApart tree }
    requires can { AllByRecursion (λ (w : SeenWaiting). W.can works.old w.block) tree }
    requires claim { has_claim (requests_in tree) ≡ true → length tree ≡ 1 }
    ensures passes { IfOk result (λ left. (named : Named)
        → AllByRecursion (λ (w : SeenWaiting). AreNamed named w.request.work w.block) tree
        → ArePasses W.tells W.runs W.fresh W.given (W.moves named) failmode reexecutions_max 0 tree left
        ends.old.finished ends.new.finished ends.old.freed ends.new.freed works.old works.new) }
    ensures breaks { IfErr result (λ stop. (named : Named)
        → AllByRecursion (λ (w : SeenWaiting). AreNamed named w.request.work w.block) tree
        → W.breaks named works.old works.new stop) }
{
    settle_from(alloc, works, failmode, REEXECUTIONS_MAX, 0, tree, ends)
}

/// Attempts a tree, and then again so many times at most.
fn settle_from<W: OwnWork>(
    alloc: Global,
    works: &mut W,
    failmode: Failmode,
    more: u32,
    number: u32,
    tree: List<Waiting>,
    ends: &mut Ends,
) -> Result<List<Waiting>, Stop>
    requires few { more + number < 2 ^ 32 }
    requires tree { IsOneTree IsWholeTree tree }
    requires apart { AreNumberedApart tree }
    requires can { AllByRecursion (λ (w : SeenWaiting). W.can works.old w.block) tree }
    requires claim { has_claim (requests_in tree) ≡ true → length tree ≡ 1 }
    ensures passes { IfOk result (λ left. (named : Named)
        → AllByRecursion (λ (w : SeenWaiting). AreNamed named w.request.work w.block) tree
        → ArePasses W.tells W.runs W.fresh W.given (W.moves named) failmode more number tree left
        ends.old.finished ends.new.finished ends.old.freed ends.new.freed works.old works.new) }
    ensures breaks { IfErr result (λ stop. (named : Named)
        → AllByRecursion (λ (w : SeenWaiting). AreNamed named w.request.work w.block) tree
        → W.breaks named works.old works.new stop) }
{
    let PassEnd { left, at_once } = attempt(alloc, works, failmode, number, tree, ends)?;
    if at_once && more > 0 {
        settle_from(alloc, works, failmode, more - 1, number + 1, left, ends)
    } else {
        Ok(left)
    }
}
