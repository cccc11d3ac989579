ghost use Rattle.zio_worked.specs.Gangs.{ScatteredSpaceMakesAGang, GangAsksForItsParts, GangStandsInTheJournal, GangPointerHasTheWholeSum, GangInsideAGang, NestedGangAsksForItsParts, NestedGangIsStored, NestedHeaderIsMended, NestedHeadersFailTheRead, NestedGangIsFreed, RefusedHeaderSuspendsTheWrite, RefusedHeaderIsAskedForOnce, RefusedHeaderFailsTheWrite, OneSectorWithoutSpaceFails, OneSectorAsksForNoHeader, OneSectorWithoutSpaceWaits, HeaderHasOneCopyMore, MemberWithoutAPlaceIsZeros, MemberThatIsntWrittenHasItsPointer, HeaderCopyThatIsntWrittenFailsTheGang, PlacesComeBackAfterTheRound, SecondAttemptOfAGangAsksAnew, DamagedHeaderIsMended, HeaderMendedThroughAFlipStaysWrong, FreeMendsAHeader, DamagedHeadersFailTheRead, FreeWaitsForItsHeader, MembersBelowABadHeaderArentRead, DamagedMemberIsMended, DamagedMemberFailsTheRead, FreeWaitsForAMissingDevice, MissingDeviceFailsAFreeUnderContinue, PlainFreeReadsNothing, GangUsesAllItsPlaces, FreedGangUsesNoPlace, NothingIsUsedAfterAllFrees, RefusedHeaderShowsItsPlace, MembersKeepTheirPlacesInTheHeader, NestedGangUsesAllItsPlaces};

/// Where no run of sectors is long enough, a block becomes a header and members.
pub fn gangs_take_scattered_space()
    ensures scattered_space_makes_a_gang { ScatteredSpaceMakesAGang }
    ensures gang_asks_for_its_parts { GangAsksForItsParts }
    ensures gang_stands_in_the_journal { GangStandsInTheJournal }
    ensures gang_pointer_has_the_whole_sum { GangPointerHasTheWholeSum }
    ensures gang_inside_a_gang { GangInsideAGang }
    ensures nested_gang_asks_for_its_parts { NestedGangAsksForItsParts }
    ensures nested_gang_is_stored { NestedGangIsStored }
    ensures nested_header_is_mended { NestedHeaderIsMended }
    ensures nested_headers_fail_the_read { NestedHeadersFailTheRead }
    ensures nested_gang_is_freed { NestedGangIsFreed }
    ensures refused_header_suspends_the_write { RefusedHeaderSuspendsTheWrite }
    ensures refused_header_is_asked_for_once { RefusedHeaderIsAskedForOnce }
    ensures refused_header_fails_the_write { RefusedHeaderFailsTheWrite }
    ensures one_sector_without_space_fails { OneSectorWithoutSpaceFails }
    ensures one_sector_asks_for_no_header { OneSectorAsksForNoHeader }
    ensures one_sector_without_space_waits { OneSectorWithoutSpaceWaits }
    ensures header_has_one_copy_more { HeaderHasOneCopyMore }
    ensures member_without_a_place_is_zeros { MemberWithoutAPlaceIsZeros }
    ensures member_that_isnt_written_has_its_pointer { MemberThatIsntWrittenHasItsPointer }
    ensures header_copy_that_isnt_written_fails_the_gang { HeaderCopyThatIsntWrittenFailsTheGang }
    ensures places_come_back_after_the_round { PlacesComeBackAfterTheRound }
    ensures second_attempt_of_a_gang_asks_anew { SecondAttemptOfAGangAsksAnew }
    ensures damaged_header_is_mended { DamagedHeaderIsMended }
    ensures header_mended_through_a_flip_stays_wrong { HeaderMendedThroughAFlipStaysWrong }
    ensures free_mends_a_header { FreeMendsAHeader }
    ensures damaged_headers_fail_the_read { DamagedHeadersFailTheRead }
    ensures free_waits_for_its_header { FreeWaitsForItsHeader }
    ensures members_below_a_bad_header_arent_read { MembersBelowABadHeaderArentRead }
    ensures damaged_member_is_mended { DamagedMemberIsMended }
    ensures damaged_member_fails_the_read { DamagedMemberFailsTheRead }
    ensures free_waits_for_a_missing_device { FreeWaitsForAMissingDevice }
    ensures missing_device_fails_a_free_under_continue { MissingDeviceFailsAFreeUnderContinue }
    ensures plain_free_reads_nothing { PlainFreeReadsNothing }
    ensures gang_uses_all_its_places { GangUsesAllItsPlaces }
    ensures freed_gang_uses_no_place { FreedGangUsesNoPlace }
    ensures nothing_is_used_after_all_frees { NothingIsUsedAfterAllFrees }
    ensures refused_header_shows_its_place { RefusedHeaderShowsItsPlace }
    ensures members_keep_their_places_in_the_header { MembersKeepTheirPlacesInTheHeader }
    ensures nested_gang_uses_all_its_places { NestedGangUsesAllItsPlaces }
{}
