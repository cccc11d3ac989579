// A write's own work in its attempt: the content that its children settle, and the block that it writes.

ghost use Rattle.std.specs.Prelude.{◌≡◌, ◌+◌, ℕ, List, Option, length};
ghost use Rattle.std.specs.List.{AllByRecursion};
ghost use Rattle.zio_types.specs.declared.error.Errno.{Errno};
ghost use Rattle.zio_types.specs.declared.request.Bits.{Bits};
ghost use Rattle.zio_blkptr.specs.declared.pointer.Bp.{Bp};
ghost use Rattle.zio_gang.specs.Attempts.{Pending, Terms};
ghost use Rattle.zio_trace.specs.Plans.{own_stored, plan_own};
ghost use Rattle.zio_trace.specs.Programs.{Ends};
ghost use Rattle.zio_trace.specs.Tasks.{OwnGot, Stored, StoredAs, Task};
ghost use Rattle.zio_trace.specs.Underway.{early};
ghost use Rattle.zio_children.specs.RequestKids.{IsOutWith, KidsUnderWay, kid_is, pointers_of, state_at};
ghost use Rattle.zio_children.specs.declared.kids.KidState.TheVariants.{Ended};
ghost use Rattle.zio_gang.specs.Pointers.{IsNoneOrValid};
ghost use Rattle.zio_frames.specs.Slots.{Slot, left_behind_slots};
ghost use Rattle.zio_stages.specs.KidPointers.{HaveValidPointers};
ghost use Rattle.zio_stages.specs.OwnParts.{Follows, Foretells};
ghost use Rattle.zio_stages.specs.PartOwns.{WrittenPart, part_plan};
ghost use Rattle.zio_stages.specs.WrittenBlocks.{HaveAllTold, IsBlockOf};

/// A write's own work is the write of its block as one part: what that asks its own work asks, the pointer that it
/// foretells is that of its own work, and what it stores is what its own work comes to.
pub fn a_write_is_that_of_its_block()
    ensures follows { (t : Terms) (part : Task) (front : List Slot) (attempt : ℕ) (p : Pending)
        (pointers : List (Option Bp)) (o : WrittenPart) →
        IsBlockOf attempt p pointers o → Follows t part front (plan_own t attempt p p.request.work pointers)
        → Follows t part front (part_plan t o) }
    ensures foretells { (t : Terms) (part : Task) (front : List Slot) (attempt : ℕ) (p : Pending)
        (pointers : List (Option Bp)) (o : WrittenPart) →
        IsBlockOf attempt p pointers o →
        Foretells t part front (λ (own : OwnGot). own.pointer) (plan_own t attempt p p.request.work pointers) →
        Foretells t part front early (part_plan t o) }
    ensures comes_to { (t : Terms) (attempt : ℕ) (p : Pending) (pointers : List (Option Bp)) (o : WrittenPart)
        (slots : List Slot) (x : Stored) →
        IsBlockOf attempt p pointers o → left_behind_slots slots (part_plan t o) ≡ Ends (StoredAs x) →
        left_behind_slots slots (plan_own t attempt p p.request.work pointers) ≡ Ends (own_stored x) }
{}

/// Once a request's children told their pointers, its content is settled: there is one pointer for each child, those of
/// earlier attempts among them; where what they told is valid they are; and they stay while the children end.
pub fn children_that_told_settle_the_content()
    ensures count { (x : KidsUnderWay) → length (pointers_of x) ≡ length x.kids + length x.kept }
    ensures valid { (x : KidsUnderWay) → HaveValidPointers x → AllByRecursion IsNoneOrValid (pointers_of x) }
    ensures stays { (x : KidsUnderWay) (n : ℕ) (bits : Bits) (error : Option Errno) (pointer : Option Bp) →
        HaveAllTold x →
        IsOutWith pointer (state_at x.kids n) →
        HaveAllTold (kid_is x n (Ended bits error pointer))
        × (pointers_of (kid_is x n (Ended bits error pointer)) ≡ pointers_of x) }
{}
