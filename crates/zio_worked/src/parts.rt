ghost use Rattle.zio_worked.specs.Parts.{EntryAnswersItsOwnAsk, WorstErrorOfAFreeCounts, FailedHeaderKeepsBodiesUnread, SummaryCounts, SummaryShowsNoRound, EachRoundShowsItsOwnJournal, BirthIsTheBatch, HeaderIsForItsFirstPlaceAndBirth, SuspendedTreesGoByNumber, FailedFreeKeepsItsName, WorstErrorOfAPlaceCounts, BitsOfAllChildrenCount, HeldBatchIsLeft, HeadersAreKeptByPath, HeaderThatIsntKeptIsBad, TreesStandByTheirRoots, PathsHavePoints, EachMemberHasItsPath, TopHasWholeUnits, ReadsAnswerByTheKindOfTheirRow, WritesAnswerByTheKindOfTheirRow, FailedRequestKeepsNoBlock, BytesOverAFailedChildDontCount};

/// What a single definition gives, where a whole run wouldn't tell a wrong one.
pub fn single_definitions_follow_their_rules()
    ensures entry_answers_its_own_ask { EntryAnswersItsOwnAsk }
    ensures worst_error_of_a_free_counts { WorstErrorOfAFreeCounts }
    ensures failed_header_keeps_bodies_unread { FailedHeaderKeepsBodiesUnread }
    ensures summary_counts { SummaryCounts }
    ensures summary_shows_no_round { SummaryShowsNoRound }
    ensures each_round_shows_its_own_journal { EachRoundShowsItsOwnJournal }
    ensures birth_is_the_batch { BirthIsTheBatch }
    ensures header_is_for_its_first_place_and_birth { HeaderIsForItsFirstPlaceAndBirth }
    ensures suspended_trees_go_by_number { SuspendedTreesGoByNumber }
    ensures failed_free_keeps_its_name { FailedFreeKeepsItsName }
    ensures worst_error_of_a_place_counts { WorstErrorOfAPlaceCounts }
    ensures bits_of_all_children_count { BitsOfAllChildrenCount }
    ensures held_batch_is_left { HeldBatchIsLeft }
    ensures headers_are_kept_by_path { HeadersAreKeptByPath }
    ensures header_that_isnt_kept_is_bad { HeaderThatIsntKeptIsBad }
    ensures trees_stand_by_their_roots { TreesStandByTheirRoots }
    ensures paths_have_points { PathsHavePoints }
    ensures each_member_has_its_path { EachMemberHasItsPath }
    ensures top_has_whole_units { TopHasWholeUnits }
    ensures reads_answer_by_the_kind_of_their_row { ReadsAnswerByTheKindOfTheirRow }
    ensures writes_answer_by_the_kind_of_their_row { WritesAnswerByTheKindOfTheirRow }
    ensures failed_request_keeps_no_block { FailedRequestKeepsNoBlock }
    ensures bytes_over_a_failed_child_dont_count { BytesOverAFailedChildDontCount }
{}
