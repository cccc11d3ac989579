ghost use Rattle.zio_worked.specs.LawfulJournals.{PairIsLawful, OtherOrderIsLawful, KeyNotAskedFor, KeyTwice, AskWithoutChoice, OtherSize, RoundThatWasNotRun, PlaceOfAnother, PlaceOutside, PlaceTooShort, TooManyPlaces, RefusedWithRoom, PlaceOfBoundBlock, PlaceFreedInTheRound, PlaceOfEarlierAttempt, GivenBackIsLawful, CopyOnUsedTop, SecondCopyIsLawful, RefusedIsLawful, GangIsLawful, RefusedBeforeTheLast, WholeUnitIsLawful, PlaceBetweenUnits, PlaceOfPartOfAUnit, PlaceOfTwoUnits, CopiesThatMeet, RefusedBehindACopy};

/// A journal answers all that its run asks for and nothing else, with places that were free.
pub fn lawful_journals_answer_what_is_asked()
    ensures pair_is_lawful { PairIsLawful }
    ensures other_order_is_lawful { OtherOrderIsLawful }
    ensures key_not_asked_for { KeyNotAskedFor }
    ensures key_twice { KeyTwice }
    ensures ask_without_choice { AskWithoutChoice }
    ensures other_size { OtherSize }
    ensures round_that_was_not_run { RoundThatWasNotRun }
    ensures place_of_another { PlaceOfAnother }
    ensures place_outside { PlaceOutside }
    ensures place_too_short { PlaceTooShort }
    ensures too_many_places { TooManyPlaces }
    ensures refused_with_room { RefusedWithRoom }
    ensures place_of_bound_block { PlaceOfBoundBlock }
    ensures place_freed_in_the_round { PlaceFreedInTheRound }
    ensures place_of_earlier_attempt { PlaceOfEarlierAttempt }
    ensures given_back_is_lawful { GivenBackIsLawful }
    ensures copy_on_used_top { CopyOnUsedTop }
    ensures second_copy_is_lawful { SecondCopyIsLawful }
    ensures refused_is_lawful { RefusedIsLawful }
    ensures gang_is_lawful { GangIsLawful }
    ensures refused_before_the_last { RefusedBeforeTheLast }
    ensures whole_unit_is_lawful { WholeUnitIsLawful }
    ensures place_between_units { PlaceBetweenUnits }
    ensures place_of_part_of_a_unit { PlaceOfPartOfAUnit }
    ensures place_of_two_units { PlaceOfTwoUnits }
    ensures copies_that_meet { CopiesThatMeet }
    ensures refused_behind_a_copy { RefusedBehindACopy }
{}
