ghost use Rattle.zio_heal.specs.AlikeCases.{BytesForError, BytesOfARead, EqualIsAlike, ErrorForBytes, EveryByteCounts, LengthCounts, NextPointerCounts, NoByteMore, OtherBytes, OtherError, OtherNumber, OtherSize, PointersMayDiffer, SameError, SizeOfAWrite};
ghost use Rattle.zio_heal.specs.ContentCases.{BodyIsGood, ElsewhereIsnt, GangHasPieces, GivenIsGood, GivenMayBeShort, HeadlessHasnt, KeptIsGood, LettersArent, LongerHasnt, OtherHeaderIsnt, ShortIsnt, TurnedHasnt, WrittenIsGiven, ZerosAreHeld};
ghost use Rattle.zio_heal.specs.CopyCases.{FailedReadSpares, FailedWritesStoreNothing, NeighboursAreElsewhere, NoSpotNoCopy, OneByteMeets, OnesArent, OtherReadDoesnt, RowStillHolds, RowsArePast, SingleWriteDoesnt, SpaceActsSpare, TrueReadSpares, TurnedWritesStoreOthers, WriteElsewhereSpares, WriteOverItDoesnt, ZerosAreThere};
ghost use Rattle.zio_heal.specs.DisciplineCases.{BadChildIsnt, ClaimMayFail, FlaggedReadMay, GoodChildIsKept, ReadMayNotFail};
ghost use Rattle.zio_heal.specs.GivenCases.{AllPlacesCount, BytesOfNobodyArent, ErrorsAreTrue, GivenBytesAreTrue, HeadersAreCompared, LastReadsCount, LastWriteCounts, NobodyReadIt, NothingWasGiven, OtherBytesArent, RunAcceptsWhatWasGiven};
ghost use Rattle.zio_heal.specs.HealedCases.{ClaimsMayFail, ClearIsNotLast, NoClearAtAll, NoRowsHeal, NoSumNoDamage, OneClearTooFew, OthersGoOn, PanicsEnd, ReadMayFail, ReadsMayBeTurned, TurnedByAnyStay, TurnedWritesStay, TwoClearsHeal, WriteHeals};
ghost use Rattle.zio_heal.specs.PoolCases.{FoundIsFine, FourArent, HalfASectorIsnt, LargeMayBeRefused, LeafTwiceIsnt, MirrorIsAPool, NoBirthIsnt, NoLeafIsnt, NoneIsnt, NothingIsnt, OddUnitIsnt, OneSectorIsASize, SharedLeafIsnt, ShortLeafIsnt, SmallMayNot, ThreeCopiesAreWritten, TooLargeIsnt};
ghost use Rattle.zio_heal.specs.PremiseCases.{ErrorInOneRun, FaultMeetsPremises, OneMoreDoesnt, SameReadTwice, SameSectorIsntLawful, SectorsFit, WideFaultHeals, WideScriptIsRead};
ghost use Rattle.zio_heal.specs.SafeCases.{ChildIsInFront, FoundZerosArent, GaveContent, GaveError, GaveOther, IdleEndsSafely, IdleStartsSafely, MadeNothing, NothingDoesnt, OrphanIsLeft, OtherContentIsnt, ParentInFrontHasnt, PointerFits, ReadAndFreeDont, ReadHasItsBlock, ReadOfNobodyHasnt, TwoNamesArent, TwoReadsShare, UnusedDoesnt, WriteOfBoundMayNot, XIsSafe, ZerosAreSafe};
ghost use Rattle.zio_heal.specs.StoreCases.{ChildrenMakeAFront, FaultsChangeNothing, FreedNameIsGone, FreedNameIsWritten, MissingComesFirst, NamesAtTheEnd, PaddedToASector, ReadersShareAName, TakenNameStays, TreeFailsWhole, TreesFailAlone, WholeSectorsStay};
ghost use Rattle.zio_heal.specs.StoredCases.{ContentIsAnother, FaultHeals, LastingFaultLeaves, NameIsLeftOver, NoContentIsntAlike, ReplyIsMissing, RequestDidntEnd, SameWithoutFault, UnreadIsntAlike};
ghost use Rattle.zio_heal.specs.WholeCases.{AskMayBeRefused, CopiesFailed, CopiesWritten, LeafMayFail, PartFailed, PartWritten, ReadIsNoWrite};

/// A script heals where no request may fail and all rows are past at its last line, which is a clear.
pub fn scripts_heal_once_faults_are_past()
    ensures write_heals { WriteHeals }
    ensures reads_may_be_turned { ReadsMayBeTurned }
    ensures two_clears_heal { TwoClearsHeal }
    ensures no_rows_heal { NoRowsHeal }
    ensures turned_writes_stay { TurnedWritesStay }
    ensures turned_by_any_stay { TurnedByAnyStay }
    ensures one_clear_too_few { OneClearTooFew }
    ensures clear_is_not_last { ClearIsNotLast }
    ensures no_clear_at_all { NoClearAtAll }
    ensures claims_may_fail { ClaimsMayFail }
    ensures read_may_fail { ReadMayFail }
    ensures no_sum_no_damage { NoSumNoDamage }
    ensures others_go_on { OthersGoOn }
    ensures panics_end { PanicsEnd }
{}

/// A plain store answers batch after batch: whole trees fail by admission, and everything else is done.
pub fn plain_stores_answer_in_order()
    ensures padded_to_a_sector { PaddedToASector }
    ensures whole_sectors_stay { WholeSectorsStay }
    ensures readers_share_a_name { ReadersShareAName }
    ensures freed_name_is_gone { FreedNameIsGone }
    ensures freed_name_is_written { FreedNameIsWritten }
    ensures taken_name_stays { TakenNameStays }
    ensures names_at_the_end { NamesAtTheEnd }
    ensures tree_fails_whole { TreeFailsWhole }
    ensures missing_comes_first { MissingComesFirst }
    ensures trees_fail_alone { TreesFailAlone }
    ensures children_make_a_front { ChildrenMakeAFront }
    ensures faults_change_nothing { FaultsChangeNothing }
{}

/// Contents are alike behind their children's pointers, and replies by their errors, sizes and contents.
pub fn replies_are_alike_behind_pointers()
    ensures pointers_may_differ { PointersMayDiffer }
    ensures no_byte_more { NoByteMore }
    ensures next_pointer_counts { NextPointerCounts }
    ensures every_byte_counts { EveryByteCounts }
    ensures equal_is_alike { EqualIsAlike }
    ensures length_counts { LengthCounts }
    ensures size_of_a_write { SizeOfAWrite }
    ensures other_size { OtherSize }
    ensures bytes_of_a_read { BytesOfARead }
    ensures other_bytes { OtherBytes }
    ensures same_error { SameError }
    ensures other_error { OtherError }
    ensures error_for_bytes { ErrorForBytes }
    ensures bytes_for_error { BytesForError }
    ensures other_number { OtherNumber }
{}

/// A read of copies is compared with the last write at the same places, in a run and after it.
pub fn accepted_copies_are_compared_with_their_writes()
    ensures last_write_counts { LastWriteCounts }
    ensures nothing_was_given { NothingWasGiven }
    ensures all_places_count { AllPlacesCount }
    ensures given_bytes_are_true { GivenBytesAreTrue }
    ensures other_bytes_arent { OtherBytesArent }
    ensures bytes_of_nobody_arent { BytesOfNobodyArent }
    ensures errors_are_true { ErrorsAreTrue }
    ensures headers_are_compared { HeadersAreCompared }
    ensures run_accepts_what_was_given { RunAcceptsWhatWasGiven }
    ensures nobody_read_it { NobodyReadIt }
    ensures last_reads_count { LastReadsCount }
{}

/// A copy is at a spot; what lies elsewhere spares it, and so does a read of it that gives its bytes.
pub fn copies_are_spared_by_what_lies_elsewhere()
    ensures zeros_are_there { ZerosAreThere }
    ensures ones_arent { OnesArent }
    ensures no_spot_no_copy { NoSpotNoCopy }
    ensures neighbours_are_elsewhere { NeighboursAreElsewhere }
    ensures one_byte_meets { OneByteMeets }
    ensures failed_writes_store_nothing { FailedWritesStoreNothing }
    ensures turned_writes_store_others { TurnedWritesStoreOthers }
    ensures rows_are_past { RowsArePast }
    ensures row_still_holds { RowStillHolds }
    ensures write_elsewhere_spares { WriteElsewhereSpares }
    ensures write_over_it_doesnt { WriteOverItDoesnt }
    ensures true_read_spares { TrueReadSpares }
    ensures failed_read_spares { FailedReadSpares }
    ensures other_read_doesnt { OtherReadDoesnt }
    ensures space_acts_spare { SpaceActsSpare }
    ensures single_write_doesnt { SingleWriteDoesnt }
{}

/// A request may fail by its flag or by its kind, and keeps the errors of its children.
pub fn flags_and_kinds_let_requests_fail()
    ensures read_may_not_fail { ReadMayNotFail }
    ensures flagged_read_may { FlaggedReadMay }
    ensures claim_may_fail { ClaimMayFail }
    ensures good_child_is_kept { GoodChildIsKept }
    ensures bad_child_isnt { BadChildIsnt }
{}

/// A run whose fault heals stores as a plain store does, and so does one without the fault.
pub fn runs_store_plainly()
    ensures fault_heals { FaultHeals }
    ensures same_without_fault { SameWithoutFault }
    ensures lasting_fault_leaves { LastingFaultLeaves }
    ensures reply_is_missing { ReplyIsMissing }
    ensures request_didnt_end { RequestDidntEnd }
    ensures name_is_left_over { NameIsLeftOver }
    ensures content_is_another { ContentIsAnother }
    ensures unread_isnt_alike { UnreadIsntAlike }
    ensures no_content_isnt_alike { NoContentIsntAlike }
{}

/// A write is whole where its pieces and its parts came to no error.
pub fn pieces_without_error_are_whole()
    ensures copies_written { CopiesWritten }
    ensures copies_failed { CopiesFailed }
    ensures part_written { PartWritten }
    ensures part_failed { PartFailed }
    ensures leaf_may_fail { LeafMayFail }
    ensures ask_may_be_refused { AskMayBeRefused }
    ensures read_is_no_write { ReadIsNoWrite }
{}

/// A pool has leaves of its own, a block whole sectors, a write up to three copies, and no sector may be refused.
pub fn pools_have_leaves_of_their_own()
    ensures mirror_is_a_pool { MirrorIsAPool }
    ensures shared_leaf_isnt { SharedLeafIsnt }
    ensures leaf_twice_isnt { LeafTwiceIsnt }
    ensures short_leaf_isnt { ShortLeafIsnt }
    ensures odd_unit_isnt { OddUnitIsnt }
    ensures no_leaf_isnt { NoLeafIsnt }
    ensures one_sector_is_a_size { OneSectorIsASize }
    ensures nothing_isnt { NothingIsnt }
    ensures half_a_sector_isnt { HalfASectorIsnt }
    ensures too_large_isnt { TooLargeIsnt }
    ensures three_copies_are_written { ThreeCopiesAreWritten }
    ensures four_arent { FourArent }
    ensures none_isnt { NoneIsnt }
    ensures no_birth_isnt { NoBirthIsnt }
    ensures found_is_fine { FoundIsFine }
    ensures large_may_be_refused { LargeMayBeRefused }
    ensures small_may_not { SmallMayNot }
{}

/// A gang has its content by the members of its kept header, and a body all at once.
pub fn contents_are_had_piece_by_piece()
    ensures gang_has_pieces { GangHasPieces }
    ensures turned_hasnt { TurnedHasnt }
    ensures longer_hasnt { LongerHasnt }
    ensures headless_hasnt { HeadlessHasnt }
    ensures body_is_good { BodyIsGood }
    ensures short_isnt { ShortIsnt }
    ensures kept_is_good { KeptIsGood }
    ensures other_header_isnt { OtherHeaderIsnt }
    ensures zeros_are_held { ZerosAreHeld }
    ensures letters_arent { LettersArent }
    ensures written_is_given { WrittenIsGiven }
    ensures elsewhere_isnt { ElsewhereIsnt }
    ensures given_is_good { GivenIsGood }
    ensures given_may_be_short { GivenMayBeShort }
{}

/// A safe block is held and was given with its content; requests run behind their children; answers are the contents.
pub fn rounds_begin_and_end_safely()
    ensures zeros_are_safe { ZerosAreSafe }
    ensures found_zeros_arent { FoundZerosArent }
    ensures x_is_safe { XIsSafe }
    ensures other_content_isnt { OtherContentIsnt }
    ensures two_names_arent { TwoNamesArent }
    ensures read_has_its_block { ReadHasItsBlock }
    ensures read_of_nobody_hasnt { ReadOfNobodyHasnt }
    ensures write_of_bound_may_not { WriteOfBoundMayNot }
    ensures pointer_fits { PointerFits }
    ensures nothing_doesnt { NothingDoesnt }
    ensures child_is_in_front { ChildIsInFront }
    ensures parent_in_front_hasnt { ParentInFrontHasnt }
    ensures two_reads_share { TwoReadsShare }
    ensures read_and_free_dont { ReadAndFreeDont }
    ensures gave_content { GaveContent }
    ensures gave_other { GaveOther }
    ensures gave_error { GaveError }
    ensures made_nothing { MadeNothing }
    ensures idle_starts_safely { IdleStartsSafely }
    ensures unused_doesnt { UnusedDoesnt }
    ensures idle_ends_safely { IdleEndsSafely }
    ensures orphan_is_left { OrphanIsLeft }
{}

/// A run with a fault that heals meets all that the laws of healing ask for; sectors fit pointers up to the 2^48th; and
/// two requests have one reply or not.
pub fn runs_meet_what_healing_asks_for()
    ensures sectors_fit { SectorsFit }
    ensures one_more_doesnt { OneMoreDoesnt }
    ensures fault_meets_premises { FaultMeetsPremises }
    ensures wide_script_is_read { WideScriptIsRead }
    ensures wide_fault_heals { WideFaultHeals }
    ensures same_sector_isnt_lawful { SameSectorIsntLawful }
    ensures same_read_twice { SameReadTwice }
    ensures error_in_one_run { ErrorInOneRun }
{}
