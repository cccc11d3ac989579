ghost use Rattle.zio_worked.specs.Formats.{PointerOfOnePlace, PointerInHexadecimal, LargestPointerIsSpelled, LargestPointerIsRead, PointerOfFletcher4IsRead, PointerOfThreeRunsIsRead, FixedFieldsAreFixed, SizesHaveToFit, PlacesAreRoundedUp, OtherRoundingsAreRefused, PlacesHaveToFit, WordsWithoutAChecksumMayBeAny, LengthHasToFit, Fletcher4OfOnes, Fletcher4OfShortBytes, Fletcher4Wraps, Sha256OfAbc, Sha256OfTwoBlocks, Sha256OfNothing, OffChecksNothing, BytesFitTheirSum, OtherWordsDontFit, SplitInAtMostThree, HeaderSumHasPlaceAndBirth, HeaderSumIsSha256, HeaderHasItsMagic};

/// Pointers, headers, checksums and splits are spelled as docs/FORMATS.md says.
pub fn formats_are_spelled()
    ensures pointer_of_one_place { PointerOfOnePlace }
    ensures pointer_in_hexadecimal { PointerInHexadecimal }
    ensures largest_pointer_is_spelled { LargestPointerIsSpelled }
    ensures largest_pointer_is_read { LargestPointerIsRead }
    ensures pointer_of_fletcher4_is_read { PointerOfFletcher4IsRead }
    ensures pointer_of_three_runs_is_read { PointerOfThreeRunsIsRead }
    ensures fixed_fields_are_fixed { FixedFieldsAreFixed }
    ensures sizes_have_to_fit { SizesHaveToFit }
    ensures places_are_rounded_up { PlacesAreRoundedUp }
    ensures other_roundings_are_refused { OtherRoundingsAreRefused }
    ensures places_have_to_fit { PlacesHaveToFit }
    ensures words_without_a_checksum_may_be_any { WordsWithoutAChecksumMayBeAny }
    ensures length_has_to_fit { LengthHasToFit }
    ensures fletcher4_of_ones { Fletcher4OfOnes }
    ensures fletcher4_of_short_bytes { Fletcher4OfShortBytes }
    ensures fletcher4_wraps { Fletcher4Wraps }
    ensures sha256_of_abc { Sha256OfAbc }
    ensures sha256_of_two_blocks { Sha256OfTwoBlocks }
    ensures sha256_of_nothing { Sha256OfNothing }
    ensures off_checks_nothing { OffChecksNothing }
    ensures bytes_fit_their_sum { BytesFitTheirSum }
    ensures other_words_dont_fit { OtherWordsDontFit }
    ensures split_in_at_most_three { SplitInAtMostThree }
    ensures header_sum_has_place_and_birth { HeaderSumHasPlaceAndBirth }
    ensures header_sum_is_sha256 { HeaderSumIsSha256 }
    ensures header_has_its_magic { HeaderHasItsMagic }
{}
