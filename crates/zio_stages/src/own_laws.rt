// A request's own work behind its children's attempts.

ghost use Rattle.std.specs.Prelude.{◌≡◌, ◌<◌, ℕ, List, None, Option, length, slice_set};
ghost use Rattle.std.specs.List.{AllByRecursion};
ghost use Rattle.zio_types.specs.declared.place.Top.{Top};
ghost use Rattle.zio_types.specs.Choices.{Choice};
ghost use Rattle.zio_blkptr.specs.declared.pointer.Bp.{Bp};
ghost use Rattle.zio_gang.specs.declared.tree.Tree.{Tree};
ghost use Rattle.zio_gang.specs.Attempts.{Pending, Terms};
ghost use Rattle.zio_trace.specs.Families.{Forest};
ghost use Rattle.zio_trace.specs.Plans.{plan_own};
ghost use Rattle.zio_trace.specs.Footprints.{FitsTask};
ghost use Rattle.zio_trace.specs.Tasks.{Attempt, OwnGot, Task, Walked, WalkedBy};
ghost use Rattle.zio_children.specs.RequestKids.{pointers_of};
ghost use Rattle.zio_frames.specs.Frames.{Child, Frame, OfOuter, Stack};
ghost use Rattle.zio_frames.specs.Moves.{WillHave, set_at, with_children};
ghost use Rattle.zio_frames.specs.Slots.{Slot};
ghost use Rattle.zio_stages.specs.KidTrees.{KidsHeld};
ghost use Rattle.zio_stages.specs.OwnClaims.{IsOwnClaim};
ghost use Rattle.zio_stages.specs.OwnFrees.{IsOwnFree};
ghost use Rattle.zio_stages.specs.OwnReads.{IsBodyOn, IsOwnRead};
ghost use Rattle.zio_stages.specs.PartsOut.{ArePartsOut};
ghost use Rattle.zio_stages.specs.RequestOwns.{IsBlockOn};
ghost use Rattle.zio_stages.specs.TreeWorks.{heads_task};
ghost use Rattle.zio_stages.specs.declared.own_claim.OwnClaim.{OwnClaim};
ghost use Rattle.zio_stages.specs.declared.own_free.FreeWalk.{FreeWalk};
ghost use Rattle.zio_stages.specs.declared.own_read.OwnRead.{OwnRead};
ghost use Rattle.zio_stages.specs.OwnParts.{AllowsOwn, Follows, Foretells, IsNoWrite};

/// Once a request's own work may begin, the attempt asks behind the children what that work asks, and will have the
/// pointer that it will have.
pub fn own_work_stands_behind_children()
    ensures follows { (t : Terms) (attempt : ℕ) (p : Pending) (x : KidsHeld) (forest : Forest) (asked : List Task)
        (slots : List Slot) →
        AllowsOwn attempt p x forest asked slots →
        Follows t (Attempt attempt p forest) slots (plan_own t attempt p p.request.work (pointers_of x.kids)) }
    ensures foretells { (t : Terms) (attempt : ℕ) (p : Pending) (x : KidsHeld) (forest : Forest) (asked : List Task)
        (slots : List Slot) →
        AllowsOwn attempt p x forest asked slots →
        Foretells t (Attempt attempt p forest) slots (λ (own : OwnGot). own.pointer)
        (plan_own t attempt p p.request.work (pointers_of x.kids)) }
{}

/// While a child in front tells or ends, its parent's own work stays as far as it is.
pub fn own_work_stays_while_children_go_on()
    ensures reads { (t : Terms) (w : OwnRead) (family more : List Child) (tree : Tree) (front_asked : List Task)
        (front : List Slot) (st : Stack)
        (place : ℕ) (slot : Slot) → place < length front → ArePartsOut front_asked (slice_set front place slot) →
        IsOwnRead t w family tree front_asked front st →
        IsOwnRead t w more tree front_asked (slice_set front place slot)
        (with_children (set_at st (OfOuter place) slot) more) }
    ensures frees { (w : FreeWalk) (family more : List Child) (tree : Tree) (front_asked : List Task)
        (front : List Slot) (st : Stack)
        (place : ℕ) (slot : Slot) → place < length front → ArePartsOut front_asked (slice_set front place slot) →
        IsOwnFree w family tree front_asked front st →
        IsOwnFree w more tree front_asked (slice_set front place slot)
        (with_children (set_at st (OfOuter place) slot) more) }
    ensures claims { (w : OwnClaim) (family more : List Child) (pointer : Option Bp) (front_asked : List Task)
        (front : List Slot) (st : Stack)
        (place : ℕ) (slot : Slot) → place < length front → ArePartsOut front_asked (slice_set front place slot) →
        IsOwnClaim w family pointer front_asked front st →
        IsOwnClaim w more pointer front_asked (slice_set front place slot)
        (with_children (set_at st (OfOuter place) slot) more) }
{}

/// A request that is no write will have no pointer, however far it is.
pub fn what_is_no_write_has_no_pointer()
    ensures { (t : Terms) (x : Frame) (attempt : ℕ) (p : Pending) (forest : Forest) → x.op ≡ Attempt attempt p forest →
        IsNoWrite p.request.work → WillHave t x None }
{}

/// The bodies that the walk over a block's headers came to lie on the tops, where the block and all that it may come to
/// do.
pub fn bodies_of_a_walk_lie_on_the_tops()
    ensures { (t : Terms) (tops : List Top) (journal : List Choice) (tree : Tree) (left : Walked) →
        IsBlockOn tops tree →
        FitsTask journal t (heads_task tree) (WalkedBy left) → AllByRecursion (IsBodyOn tops) left.bodies }
{}
