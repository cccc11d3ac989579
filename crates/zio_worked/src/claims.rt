ghost use Rattle.zio_worked.specs.Claims.{ClaimedBlockIsRead, WrongSumIsFoundByTheRead, PlacesThatMeetAreRefused, UsedPlaceIsRefused, PlaceOutsideItsTopIsInvalid, ZerosAreNoPointer, BoundNameIsNotClaimedAgain, PlainClaimReadsNothing, ClaimedGangIsRead, HeaderMadeForAnotherPlaceIsRefused, OtherHeaderIsClaimed, KeptHeaderIsGood, OnlyTheKeptHeaderIsGood, EndlessGangIsRefused, DeepestGangIsClaimed, GangBelowTheDeepestIsRefused, WrittenGangIsClaimed, BadHeadersAreRefused, ErrorsOfAClaimedTreeJoin, RefusedHeadersHaveTheirSums, PlacesOfAClaimedGangStandApart, RefusedClaimTakesNothing, FreedClaimUsesNoPlace, TopHasTheSectorsOfItsSmallestLeaf, ClaimHasTheDevicesError, ClaimReadsInTheRetry, ClaimMendsNothing, ReadOfAClaimedGangMendsIt};

/// A claim binds a name to a block that the images hold already.
pub fn claims_bind_what_is_there()
    ensures claimed_block_is_read { ClaimedBlockIsRead }
    ensures wrong_sum_is_found_by_the_read { WrongSumIsFoundByTheRead }
    ensures places_that_meet_are_refused { PlacesThatMeetAreRefused }
    ensures used_place_is_refused { UsedPlaceIsRefused }
    ensures place_outside_its_top_is_invalid { PlaceOutsideItsTopIsInvalid }
    ensures zeros_are_no_pointer { ZerosAreNoPointer }
    ensures bound_name_is_not_claimed_again { BoundNameIsNotClaimedAgain }
    ensures plain_claim_reads_nothing { PlainClaimReadsNothing }
    ensures claimed_gang_is_read { ClaimedGangIsRead }
    ensures header_made_for_another_place_is_refused { HeaderMadeForAnotherPlaceIsRefused }
    ensures other_header_is_claimed { OtherHeaderIsClaimed }
    ensures kept_header_is_good { KeptHeaderIsGood }
    ensures only_the_kept_header_is_good { OnlyTheKeptHeaderIsGood }
    ensures endless_gang_is_refused { EndlessGangIsRefused }
    ensures deepest_gang_is_claimed { DeepestGangIsClaimed }
    ensures gang_below_the_deepest_is_refused { GangBelowTheDeepestIsRefused }
    ensures written_gang_is_claimed { WrittenGangIsClaimed }
    ensures bad_headers_are_refused { BadHeadersAreRefused }
    ensures errors_of_a_claimed_tree_join { ErrorsOfAClaimedTreeJoin }
    ensures refused_headers_have_their_sums { RefusedHeadersHaveTheirSums }
    ensures places_of_a_claimed_gang_stand_apart { PlacesOfAClaimedGangStandApart }
    ensures refused_claim_takes_nothing { RefusedClaimTakesNothing }
    ensures freed_claim_uses_no_place { FreedClaimUsesNoPlace }
    ensures top_has_the_sectors_of_its_smallest_leaf { TopHasTheSectorsOfItsSmallestLeaf }
    ensures claim_has_the_devices_error { ClaimHasTheDevicesError }
    ensures claim_reads_in_the_retry { ClaimReadsInTheRetry }
    ensures claim_mends_nothing { ClaimMendsNothing }
    ensures read_of_a_claimed_gang_mends_it { ReadOfAClaimedGangMendsIt }
{}
