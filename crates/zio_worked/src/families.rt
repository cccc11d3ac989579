ghost use Rattle.zio_worked.specs.Families.{WriteOverTwoWrites, PointersStandInFront, WritesNest, ChildGoesAgain, FinishedChildIsKept, NullOverBadRead, NullOverGoneRead, NullOverGoneReadGoesOn, ChildErrorBindsNothing, ZerosForNoPlace, UnwrittenChildFails, UnwrittenChildHasPointer, MustChildHoldsParent, ChildrenComeFirst, FamiliesAreApart, EachAttemptHasItsPointers};

/// A request finishes after those under it, with their pointers and errors, and goes again with them.
pub fn families_finish_together()
    ensures write_over_two_writes { WriteOverTwoWrites }
    ensures pointers_stand_in_front { PointersStandInFront }
    ensures writes_nest { WritesNest }
    ensures child_goes_again { ChildGoesAgain }
    ensures finished_child_is_kept { FinishedChildIsKept }
    ensures null_over_bad_read { NullOverBadRead }
    ensures null_over_gone_read { NullOverGoneRead }
    ensures null_over_gone_read_goes_on { NullOverGoneReadGoesOn }
    ensures child_error_binds_nothing { ChildErrorBindsNothing }
    ensures zeros_for_no_place { ZerosForNoPlace }
    ensures unwritten_child_fails { UnwrittenChildFails }
    ensures unwritten_child_has_pointer { UnwrittenChildHasPointer }
    ensures must_child_holds_parent { MustChildHoldsParent }
    ensures children_come_first { ChildrenComeFirst }
    ensures families_are_apart { FamiliesAreApart }
    ensures each_attempt_has_its_pointers { EachAttemptHasItsPointers }
{}
