ghost use Rattle.zio_worked.specs.Suspension.{FourthAttemptSuspends, FourAttemptsAsk, WaitingComesFirst, WaitingAsksOnce, NextBatchIsHeld, NextBatchGoesOn, PanicEndsTheRun, ClearResumes, ClearRaisesThePoint, SuspendedTreesShareARound, SecondBatchStaysHeld, SecondClearRunsTheRest, NoSpaceSuspends, NoSpaceAsksOnce, NoSpaceFails, FreedSpaceServesLater, FreeWaits, FreeFails, ReadGoesAgainWithItsChild, ChildUnderABadReadAsksFourTimes, BlockOfTheSecondSuspendedTreeIsKept};

/// A tree that can't go on is suspended until a clear: after four attempts, or at once where it waits for a device or
/// for space.
pub fn suspended_trees_wait_for_a_clear()
    ensures fourth_attempt_suspends { FourthAttemptSuspends }
    ensures four_attempts_ask { FourAttemptsAsk }
    ensures waiting_comes_first { WaitingComesFirst }
    ensures waiting_asks_once { WaitingAsksOnce }
    ensures next_batch_is_held { NextBatchIsHeld }
    ensures next_batch_goes_on { NextBatchGoesOn }
    ensures panic_ends_the_run { PanicEndsTheRun }
    ensures clear_resumes { ClearResumes }
    ensures clear_raises_the_point { ClearRaisesThePoint }
    ensures suspended_trees_share_a_round { SuspendedTreesShareARound }
    ensures second_batch_stays_held { SecondBatchStaysHeld }
    ensures second_clear_runs_the_rest { SecondClearRunsTheRest }
    ensures no_space_suspends { NoSpaceSuspends }
    ensures no_space_asks_once { NoSpaceAsksOnce }
    ensures no_space_fails { NoSpaceFails }
    ensures freed_space_serves_later { FreedSpaceServesLater }
    ensures free_waits { FreeWaits }
    ensures free_fails { FreeFails }
    ensures read_goes_again_with_its_child { ReadGoesAgainWithItsChild }
    ensures child_under_a_bad_read_asks_four_times { ChildUnderABadReadAsksFourTimes }
    ensures block_of_the_second_suspended_tree_is_kept { BlockOfTheSecondSuspendedTreeIsKept }
{}
