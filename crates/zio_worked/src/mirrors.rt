ghost use Rattle.zio_worked.specs.Mirrors.{MissedWriteIsGoodByTheOther, MissedWriteIsRepaired, RepairThatFailsIsIgnored, LeafBehindAGoodOneIsLeft, FlippedWriteIsStored, FlippedWriteIsRepaired, RepairThroughAFlipStaysWrong, FlippedReadIsHandedOut, FlipTurnsTheCommonPart, FirstRowCounts, RowIsMetInItsRange, RowHoldsBetweenItsPoints, ReadPassesInTheRetry, RepairIsMadeInThePassOfTheGoodRead, RetryMendsItsOwnFailuresAlone, OneGoodLeafNeedsNoRetry, RetryWritesAllCopies, SecondCopyIsReadAndMendsTheFirst, CopyBehindAGoodOneIsLeft, AllLeavesOfABadCopyAreMended, MissingTopSuspendsTheWrite, EachAttemptAsks, AttemptsStandInTheJournal, MissingCopyLeavesTheWrite, ReadsBeginAtAnotherLeaf, ReadsGoRoundFourLeaves, DamagedBlockIsAChecksumError, DamagedBlockWithoutAChecksumIsHandedOut, DeviceErrorIsWorseThanAWrongSum, WrongSumIsWorseThanAMissingDevice, FailedWriteHasTheWorstError, ReadWaitsForAMissingDevice, MissingDeviceUnderContinueIsAnError, ReadThatMayNotFailWaitsUnderContinue};

/// A block is read from its first good leaf, which mends those that were tried before it.
pub fn mirrors_give_and_mend()
    ensures missed_write_is_good_by_the_other { MissedWriteIsGoodByTheOther }
    ensures missed_write_is_repaired { MissedWriteIsRepaired }
    ensures repair_that_fails_is_ignored { RepairThatFailsIsIgnored }
    ensures leaf_behind_a_good_one_is_left { LeafBehindAGoodOneIsLeft }
    ensures flipped_write_is_stored { FlippedWriteIsStored }
    ensures flipped_write_is_repaired { FlippedWriteIsRepaired }
    ensures repair_through_a_flip_stays_wrong { RepairThroughAFlipStaysWrong }
    ensures flipped_read_is_handed_out { FlippedReadIsHandedOut }
    ensures flip_turns_the_common_part { FlipTurnsTheCommonPart }
    ensures first_row_counts { FirstRowCounts }
    ensures row_is_met_in_its_range { RowIsMetInItsRange }
    ensures row_holds_between_its_points { RowHoldsBetweenItsPoints }
    ensures read_passes_in_the_retry { ReadPassesInTheRetry }
    ensures repair_is_made_in_the_pass_of_the_good_read { RepairIsMadeInThePassOfTheGoodRead }
    ensures retry_mends_its_own_failures_alone { RetryMendsItsOwnFailuresAlone }
    ensures one_good_leaf_needs_no_retry { OneGoodLeafNeedsNoRetry }
    ensures retry_writes_all_copies { RetryWritesAllCopies }
    ensures second_copy_is_read_and_mends_the_first { SecondCopyIsReadAndMendsTheFirst }
    ensures copy_behind_a_good_one_is_left { CopyBehindAGoodOneIsLeft }
    ensures all_leaves_of_a_bad_copy_are_mended { AllLeavesOfABadCopyAreMended }
    ensures missing_top_suspends_the_write { MissingTopSuspendsTheWrite }
    ensures each_attempt_asks { EachAttemptAsks }
    ensures attempts_stand_in_the_journal { AttemptsStandInTheJournal }
    ensures missing_copy_leaves_the_write { MissingCopyLeavesTheWrite }
    ensures reads_begin_at_another_leaf { ReadsBeginAtAnotherLeaf }
    ensures reads_go_round_four_leaves { ReadsGoRoundFourLeaves }
    ensures damaged_block_is_a_checksum_error { DamagedBlockIsAChecksumError }
    ensures damaged_block_without_a_checksum_is_handed_out { DamagedBlockWithoutAChecksumIsHandedOut }
    ensures device_error_is_worse_than_a_wrong_sum { DeviceErrorIsWorseThanAWrongSum }
    ensures wrong_sum_is_worse_than_a_missing_device { WrongSumIsWorseThanAMissingDevice }
    ensures failed_write_has_the_worst_error { FailedWriteHasTheWorstError }
    ensures read_waits_for_a_missing_device { ReadWaitsForAMissingDevice }
    ensures missing_device_under_continue_is_an_error { MissingDeviceUnderContinueIsAnError }
    ensures read_that_may_not_fail_waits_under_continue { ReadThatMayNotFailWaitsUnderContinue }
{}
