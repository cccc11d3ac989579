ghost use Rattle.zio_worked.specs.ErrorRanks.{ErrorsRankInOrder, WorseOfTwo, WorstOfMany, NoneOfNone, NoneOfNothing};

/// Errors have an order, and of several the worst counts.
pub fn errors_rank_in_order()
    ensures errors_rank_in_order { ErrorsRankInOrder }
    ensures worse_of_two { WorseOfTwo }
    ensures worst_of_many { WorstOfMany }
    ensures none_of_none { NoneOfNone }
    ensures none_of_nothing { NoneOfNothing }
{}
