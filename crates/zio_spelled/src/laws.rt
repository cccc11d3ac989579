//! Laws of the definitions: functions without a body, whose contracts are proved.
ghost use Rattle.zio_spelled.specs.Laws.{PrintedIsSpelled, ReportSpellsOne, ShapesSpell, SpellsOne};
ghost use Rattle.zio_spelled.specs.Worked.{GoodLinesAreRead, SpoiledOrdersAreRefused, SpoiledTakesAreRefused};

/// Lines of a journal that are worked out by hand, and spoiled ones.
pub fn worked_lines()
    ensures good { GoodLinesAreRead }
    ensures takes { SpoiledTakesAreRefused }
    ensures orders { SpoiledOrdersAreRefused }
{}

/// What is printed of a round's journal spells it, and nothing else; each line of an entry's shape spells one.
pub fn printed_journals_are_spelled()
    ensures printed { PrintedIsSpelled }
    ensures shapes { ShapesSpell }
    ensures one { SpellsOne }
    ensures report { ReportSpellsOne }
{}
