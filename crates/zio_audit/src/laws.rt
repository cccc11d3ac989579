//! Laws of the definitions: functions without a body, whose contracts are proved.
ghost use Rattle.zio_audit.specs.Laws.{OneVerdict, ShapedIsSpelled, SpelledByRounds, SpelledIsShaped, YesIsARun};
ghost use Rattle.zio_audit.specs.Texts.{PrintedIsReadBack, PutInIsTheText, TextIsDecided, YesIsAHeadline};

/// A report spells a journal exactly where its lines of the journal are of their shapes, and behind a round.
pub fn shaped_reports_spell()
    ensures spelled { ShapedIsSpelled }
    ensures shaped { SpelledIsShaped }
{}

/// The entries that a report spells of a round are those of its number among all that it spells.
pub fn spelled_entries_are_of_their_rounds()
    ensures { SpelledByRounds }
{}

/// An answer of yes has one script and one journal for all that it says, and no case has two answers.
pub fn verdicts_are_one()
    ensures yes { YesIsARun }
    ensures one { OneVerdict }
{}

/// A report is the text of a run with its journal exactly where its journals are put in as a run prints them, and its
/// other lines are the text of the run without; these tell whether it has the bytes of reads. The text of a run with its
/// journal is read back as what the journal has of each round. So yes is the answer exactly of a headline: of a report
/// that a run of the script printed with its journal, and of the images that the run left.
pub fn texts_show_their_journals()
    ensures put_in { PutInIsTheText }
    ensures text { TextIsDecided }
    ensures read_back { PrintedIsReadBack }
    ensures headline { YesIsAHeadline }
{}
