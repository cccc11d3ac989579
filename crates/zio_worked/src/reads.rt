ghost use Rattle.zio_worked.specs.Reads.{MissingDeviceUnderPanicStopsTheRun, EachPlaceOfAClaimIsTested, PointerBelowTheDeepestIsTested, WorstErrorOfTheBodiesCounts, WorstErrorOfTheHeadersCounts, EveryCopyBeforeTheGoodOneIsMended, FirstPassMendsInTheFirst, RetryMendsInTheRetry, DeviceErrorIsWorseThanAWrongSum};

/// Reads have their worst error and mend what failed before the good copy; a claim has each of its places tested.
pub fn reads_blame_and_mend()
    ensures missing_device_under_panic_stops_the_run { MissingDeviceUnderPanicStopsTheRun }
    ensures each_place_of_a_claim_is_tested { EachPlaceOfAClaimIsTested }
    ensures pointer_below_the_deepest_is_tested { PointerBelowTheDeepestIsTested }
    ensures worst_error_of_the_bodies_counts { WorstErrorOfTheBodiesCounts }
    ensures worst_error_of_the_headers_counts { WorstErrorOfTheHeadersCounts }
    ensures every_copy_before_the_good_one_is_mended { EveryCopyBeforeTheGoodOneIsMended }
    ensures first_pass_mends_in_the_first { FirstPassMendsInTheFirst }
    ensures retry_mends_in_the_retry { RetryMendsInTheRetry }
    ensures device_error_is_worse_than_a_wrong_sum { DeviceErrorIsWorseThanAWrongSum }
{}
