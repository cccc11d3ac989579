ghost use Rattle.zio_worked.specs.Units.{TailIsZeros, FaultOfTheTailFailsTheWrite, FaultOfTheTailFailsTheRead, FirstBytesAreRead, FlipOfTheTailIsStored, OneSectorStandsInEight, ChoiceOfAUnitIsShown, OneSectorIsClaimedInEight, ThreeSectorsAreClaimedByTheUnit, PlacesFitTheirUnits, EachReaderHasItsLine, ReadersOfOneBlockAgree, FullTopSuspendsTheNextWrite, GangStandsOnTopsOfDifferentUnits, ReadersKeepEarlierRepairs};

/// Where a top has units of several sectors, places are whole units; a batch may read one block several times.
pub fn units_are_stored_whole()
    ensures tail_is_zeros { TailIsZeros }
    ensures fault_of_the_tail_fails_the_write { FaultOfTheTailFailsTheWrite }
    ensures fault_of_the_tail_fails_the_read { FaultOfTheTailFailsTheRead }
    ensures first_bytes_are_read { FirstBytesAreRead }
    ensures flip_of_the_tail_is_stored { FlipOfTheTailIsStored }
    ensures one_sector_stands_in_eight { OneSectorStandsInEight }
    ensures choice_of_a_unit_is_shown { ChoiceOfAUnitIsShown }
    ensures one_sector_is_claimed_in_eight { OneSectorIsClaimedInEight }
    ensures three_sectors_are_claimed_by_the_unit { ThreeSectorsAreClaimedByTheUnit }
    ensures places_fit_their_units { PlacesFitTheirUnits }
    ensures each_reader_has_its_line { EachReaderHasItsLine }
    ensures readers_of_one_block_agree { ReadersOfOneBlockAgree }
    ensures full_top_suspends_the_next_write { FullTopSuspendsTheNextWrite }
    ensures gang_stands_on_tops_of_different_units { GangStandsOnTopsOfDifferentUnits }
    ensures readers_keep_earlier_repairs { ReadersKeepEarlierRepairs }
{}
