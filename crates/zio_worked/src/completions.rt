ghost use Rattle.zio_worked.specs.Completions.{AllComplete, NumberTwice, ChildAfterParent, OneIsMissing, OtherError, OtherRound, SuspendedAreLeft, SuspendedCompletes, EachInItsRound, AnsweredComplete, RoundThatWasNotRun};

/// The completions of a journal are those of the requests that finished, each once and after its children.
pub fn completions_tell_what_finished()
    ensures all_complete { AllComplete }
    ensures number_twice { NumberTwice }
    ensures child_after_parent { ChildAfterParent }
    ensures one_is_missing { OneIsMissing }
    ensures other_error { OtherError }
    ensures other_round { OtherRound }
    ensures suspended_are_left { SuspendedAreLeft }
    ensures suspended_completes { SuspendedCompletes }
    ensures each_in_its_round { EachInItsRound }
    ensures answered_complete { AnsweredComplete }
    ensures round_that_was_not_run { RoundThatWasNotRun }
{}
