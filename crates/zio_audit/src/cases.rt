//! Worked cases: functions without a body, whose contracts are proved.
ghost use Rattle.zio_audit.specs.Worked.{BlankBeginsNoEntry, ChildComesFirst, CompletesTwice, EntryBeforeRounds, LaterRoundCompletes, LaterRoundHasAnEntry, LeafWithoutImage, MarksAreText, NoScript, NumberIsSpoiled, OrderLeftOut, OtherBytesAreNo, OtherPlaceIsNo, ParentBeforeChild, PlaceOutside, RefusedWithRoom, ReportWithBytesIsYes, ReportWithoutBytesIsYes, RoundTooMany, TailsAreCompared, TextComesBeforeImages, TrueReportIsYes};

/// True reports are answered yes, whichever text of a read they have.
pub fn true_reports_are_yes()
    ensures write { TrueReportIsYes }
    ensures without_bytes { ReportWithoutBytesIsYes }
    ensures with_bytes { ReportWithBytesIsYes }
    ensures child_comes_first { ChildComesFirst }
{}

/// A report that is spoiled is answered no, with the first reason that applies.
pub fn the_first_reason_is_told()
    ensures no_script { NoScript }
    ensures leaf_without_image { LeafWithoutImage }
    ensures number_is_spoiled { NumberIsSpoiled }
    ensures entry_before_rounds { EntryBeforeRounds }
    ensures place_outside { PlaceOutside }
    ensures refused_with_room { RefusedWithRoom }
    ensures later_round_has_an_entry { LaterRoundHasAnEntry }
    ensures order_left_out { OrderLeftOut }
    ensures parent_before_child { ParentBeforeChild }
    ensures completes_twice { CompletesTwice }
    ensures later_round_completes { LaterRoundCompletes }
    ensures text_comes_before_images { TextComesBeforeImages }
    ensures marks_are_text { MarksAreText }
    ensures blank_begins_no_entry { BlankBeginsNoEntry }
    ensures round_too_many { RoundTooMany }
    ensures other_bytes { OtherBytesAreNo }
    ensures other_place { OtherPlaceIsNo }
    ensures tails { TailsAreCompared }
{}
