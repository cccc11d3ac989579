ghost use Rattle.zio_worked.specs.Admission.{OtherReadsGoOn, ChangesAreRefused, FinishedNamesAreRead, HeldBatchIsAdmittedLate, NamesComeAndGo, IoComesFirst, NoentComesNext, ExistComesLast, OtherTreesRun};

/// Before a round a whole tree is answered with one error, by what is suspended and by which names are bound.
pub fn admission_answers_whole_trees()
    ensures other_reads_go_on { OtherReadsGoOn }
    ensures changes_are_refused { ChangesAreRefused }
    ensures finished_names_are_read { FinishedNamesAreRead }
    ensures held_batch_is_admitted_late { HeldBatchIsAdmittedLate }
    ensures names_come_and_go { NamesComeAndGo }
    ensures io_comes_first { IoComesFirst }
    ensures noent_comes_next { NoentComesNext }
    ensures exist_comes_last { ExistComesLast }
    ensures other_trees_run { OtherTreesRun }
{}
