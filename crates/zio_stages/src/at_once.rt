// Walks over headers that ask nothing.

ghost use Rattle.std.specs.Prelude.{◌≡◌, IfOk, IfSome, IsTrue, List, None, Ok, [], false, true};
ghost use Rattle.zio_blkptr.specs.Pointers.{valid};
ghost use Rattle.zio_gang.specs.declared.tree.Head.{Head};
ghost use Rattle.zio_gang.specs.Attempts.{Terms};
ghost use Rattle.zio_gang.specs.Trees.{header_levels_max};
ghost use Rattle.zio_trace.specs.Plans.{plan};
ghost use Rattle.zio_trace.specs.Programs.{Ends};
ghost use Rattle.zio_trace.specs.Tasks.{ByClaim, ByKept, ReadHeads, WalkedBy};
ghost use Rattle.zio_parts.specs.HeadWalks.{Follows, body_of, left_of_walk};
ghost use Rattle.zio_parts.specs.declared.head_walk.Header.TheVariants.{Unread};

use std::alloc::Global;
use zio_blkptr::Bp;
use zio_gang::LEVELS_MAX;
use zio_parts::{HeadWalk, WalkStep, Walked};
use zio_types::{NoMemory, Path, Top};

/// What the walk over a block's headers leaves, where it asks nothing: its body, where the block is no gang. None where
/// it asks.
pub(crate) fn block_at_once(alloc: Global, bp: Bp) -> Result<Option<Walked>, NoMemory>
    ensures body { IfOk result (λ left. IfSome left (λ walked. (walked ≡ body_of bp) × (bp.gang ≡ false))) }
    ensures ends { IfOk result (λ left. IfSome left (λ walked. (t : Terms) (heads : List Head) →
        plan t (ReadHeads (ByKept heads) header_levels_max [] bp) ≡ Ends (WalkedBy walked))) }
    ensures gang { result ≡ Ok None → bp.gang ≡ true }
{
    let walk = HeadWalk::kept(alloc, LEVELS_MAX, root(), bp);
    left_at_once(alloc, walk)
}

/// The same of a claim: also where a place of the pointer isn't inside its top, or doesn't fit what it holds.
pub(crate) fn claim_at_once(alloc: Global, tops: &[Top], bp: Bp) -> Result<Option<Walked>, NoMemory>
    requires { IsTrue (valid bp) }
    ensures ends { IfOk result (λ left. IfSome left (λ walked. (t : Terms) → t.setting.tops ≡ tops.now →
        plan t (ReadHeads ByClaim header_levels_max [] bp) ≡ Ends (WalkedBy walked))) }
    ensures gang { result ≡ Ok None → bp.gang ≡ true }
{
    let walk = HeadWalk::claimed(alloc, tops, LEVELS_MAX, root(), bp);
    left_at_once(alloc, walk)
}

/// What the walk leaves, where it asks nothing.
fn left_at_once(alloc: Global, walk: HeadWalk) -> Result<Option<Walked>, NoMemory>
    ensures ends { IfOk result (λ left. IfSome left (λ walked. (heads : List Head)
        → left_of_walk heads walk ≡ Ends (WalkedBy walked))) }
    ensures asks { result ≡ Ok None → walk.header ≡ Unread → walk.members ≡ [] → Follows walk }
{
    match walk.next() {
        WalkStep::End => match walk.into_walked(alloc) {
            Ok(walked) => Ok(Some(walked)),
            Err(_) => Err(NoMemory),
        },
        WalkStep::ReadHead | WalkStep::Member(_) | WalkStep::Wait => Ok(None),
    }
}

/// The path of a whole block.
pub(crate) fn root() -> Path
    ensures { result ≡ [] }
{
    Path {
        len: 0,
        steps: [0; 8],
    }
}
