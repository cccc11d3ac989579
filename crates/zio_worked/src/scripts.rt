ghost use Rattle.zio_worked.specs.ScriptTexts.{TopAloneIsAScript, WholeScriptIsRead, TopsHaveUnits, RootsHaveTheirFlags, ChildrenHaveTheirFlags, BodiesAreRead, BlanksPartWords, EdgesAreAccepted, ReadsMayShareABlock, OthersAreAccepted, WordsHaveToFit, OtherLinesHaveToFit, NumbersAreDecimal, DigitsComeInPairs, SectorMayBeALeaf, LinesMayHaveTwoShapes, NumbersHaveRanges, FaultsHaveRanges, TopsAreCounted, FaultsAreCounted, ClearsAreCounted, RequestsAreCounted, PointersTakeRoom, SizesArePadded, BatchHasALimit, LongTextsAreRefused, LinesHaveAnOrder, NumbersRise, BatchesAreEnded, NamesHaveTheirCharacters, NamesStandOnce, RowsMayTellReadsApart, FlagsFollowParents, OnlyAParentIsWrong, ParentsStandBefore, ClaimsStandAlone, DepthHasALimit, ChildrenAreCounted, TopsAreWanted, LeavesStandOnce, SkippedLinesAreCounted, FirstLineCounts, LeastWhyCounts};

/// Texts are read as scripts, or refused with their first faulty line and its least why.
pub fn scripts_are_read()
    ensures top_alone_is_a_script { TopAloneIsAScript }
    ensures whole_script_is_read { WholeScriptIsRead }
    ensures tops_have_units { TopsHaveUnits }
    ensures roots_have_their_flags { RootsHaveTheirFlags }
    ensures children_have_their_flags { ChildrenHaveTheirFlags }
    ensures bodies_are_read { BodiesAreRead }
    ensures blanks_part_words { BlanksPartWords }
    ensures edges_are_accepted { EdgesAreAccepted }
    ensures reads_may_share_a_block { ReadsMayShareABlock }
    ensures others_are_accepted { OthersAreAccepted }
    ensures words_have_to_fit { WordsHaveToFit }
    ensures other_lines_have_to_fit { OtherLinesHaveToFit }
    ensures numbers_are_decimal { NumbersAreDecimal }
    ensures digits_come_in_pairs { DigitsComeInPairs }
    ensures sector_may_be_a_leaf { SectorMayBeALeaf }
    ensures lines_may_have_two_shapes { LinesMayHaveTwoShapes }
    ensures numbers_have_ranges { NumbersHaveRanges }
    ensures faults_have_ranges { FaultsHaveRanges }
    ensures tops_are_counted { TopsAreCounted }
    ensures faults_are_counted { FaultsAreCounted }
    ensures clears_are_counted { ClearsAreCounted }
    ensures requests_are_counted { RequestsAreCounted }
    ensures pointers_take_room { PointersTakeRoom }
    ensures sizes_are_padded { SizesArePadded }
    ensures batch_has_a_limit { BatchHasALimit }
    ensures long_texts_are_refused { LongTextsAreRefused }
    ensures lines_have_an_order { LinesHaveAnOrder }
    ensures numbers_rise { NumbersRise }
    ensures batches_are_ended { BatchesAreEnded }
    ensures names_have_their_characters { NamesHaveTheirCharacters }
    ensures names_stand_once { NamesStandOnce }
    ensures rows_may_tell_reads_apart { RowsMayTellReadsApart }
    ensures flags_follow_parents { FlagsFollowParents }
    ensures only_a_parent_is_wrong { OnlyAParentIsWrong }
    ensures parents_stand_before { ParentsStandBefore }
    ensures claims_stand_alone { ClaimsStandAlone }
    ensures depth_has_a_limit { DepthHasALimit }
    ensures children_are_counted { ChildrenAreCounted }
    ensures tops_are_wanted { TopsAreWanted }
    ensures leaves_stand_once { LeavesStandOnce }
    ensures skipped_lines_are_counted { SkippedLinesAreCounted }
    ensures first_line_counts { FirstLineCounts }
    ensures least_why_counts { LeastWhyCounts }
{}
