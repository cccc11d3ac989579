ghost use Rattle.zio_worked.specs.Blocks.{WriteThenRead, WriteThenReadWithSha256, OneSectorChanges, SequenceBeginsWithTheFirstValue, SequenceOfTenBytes, ContentIsPadded, WholeSectorsArentPadded, ShortBodyIsOneSector, ZerosAreRead, BytesAreShown, UnboundNameIsNotFound, BoundNameIsNotWrittenAgain, FreedNameIsNotFound, FreedNameIsWrittenAgain, LateBatchRunsAfterTheClear, BirthIsTheBatch};

/// A block is written, read and freed under its name.
pub fn blocks_are_written_and_read()
    ensures write_then_read { WriteThenRead }
    ensures write_then_read_with_sha256 { WriteThenReadWithSha256 }
    ensures one_sector_changes { OneSectorChanges }
    ensures sequence_begins_with_the_first_value { SequenceBeginsWithTheFirstValue }
    ensures sequence_of_ten_bytes { SequenceOfTenBytes }
    ensures content_is_padded { ContentIsPadded }
    ensures whole_sectors_arent_padded { WholeSectorsArentPadded }
    ensures short_body_is_one_sector { ShortBodyIsOneSector }
    ensures zeros_are_read { ZerosAreRead }
    ensures bytes_are_shown { BytesAreShown }
    ensures unbound_name_is_not_found { UnboundNameIsNotFound }
    ensures bound_name_is_not_written_again { BoundNameIsNotWrittenAgain }
    ensures freed_name_is_not_found { FreedNameIsNotFound }
    ensures freed_name_is_written_again { FreedNameIsWrittenAgain }
    ensures late_batch_runs_after_the_clear { LateBatchRunsAfterTheClear }
    ensures birth_is_the_batch { BirthIsTheBatch }
{}
