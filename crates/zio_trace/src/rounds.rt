ghost use Rattle.std.specs.Prelude.{◌≡◌, List, ℕ};
ghost use Rattle.std.specs.List.{AllByRecursion};
ghost use Rattle.zio_types.specs.declared.place.Place.{Place};
ghost use Rattle.zio_types.specs.declared.place.TopSize.{TopSize};
ghost use Rattle.zio_types.specs.Choices.{Choice};
ghost use Rattle.zio_cksum.specs.Images.{Images};
ghost use Rattle.zio_gang.specs.Attempts.{Terms};
ghost use Rattle.zio_gang.specs.Journals.{AreLawful, HaveDistinctKeys, asks_of, choices_in};
ghost use Rattle.zio_trace.specs.Conflicts.{TaskLies};
ghost use Rattle.zio_trace.specs.Entries.{AnsweredBy, IsSettledByEntries, MayCome, Pass, Recorded, any_rules};
ghost use Rattle.zio_trace.specs.Families.{Forest};
ghost use Rattle.zio_trace.specs.Keys.{NumbersOnce};
ghost use Rattle.zio_trace.specs.Labels.{Labelled, means_at};
ghost use Rattle.zio_trace.specs.Leaves.{HaveSizes};
ghost use Rattle.zio_trace.specs.Programs.{Deed, Happen, run};
ghost use Rattle.zio_trace.specs.RoundRules.{IsSettled, task_rules};
ghost use Rattle.zio_trace.specs.Rounds.{AreTrees, Round, plan_round};
ghost use Rattle.zio_trace.specs.Rules.{IsDone};
ghost use Rattle.zio_trace.specs.Tasks.{Task, Value, means};

/// The theorem for a round. A history has single operations, each at its place in the round's plan. It is sure of the
/// round: whatever else may be answered, the plan ends with this value and asks these operations, each once. And of two
/// that conflict the one that the plan has earlier was done earlier. Then each tree is settled as in the definition,
/// with this value and these images, and what is asked for is asked for as often as in the history.
pub fn rounds_are_settled_in_any_order()
    ensures { (journal : List Choice) (t : Terms) (sizes : ℕ → ℕ) (f : Forest)
        (history : List (Deed (Labelled Task) Value)) (value : Round) (before after : Images) → AreTrees f →
        IsDone (task_rules journal t sizes) (plan_round f) history value → HaveSizes sizes before →
        Happen (means_at (means journal t)) history before after → IsSettled journal t f history value before after }
{}

/// The same where no journal is known while the round is under way. An ask of the space may then have any answer, and
/// each answer is recorded as an entry. At the end the entries are the round's part of a journal. Each tree is settled
/// under that journal, no key stands twice among the entries, and they are for what is asked and for nothing else: so
/// where each was lawful beside those before it, they are the choices of the round.
pub fn rounds_are_settled_by_their_entries()
    ensures { (journal : List Choice) (t : Terms) (sizes : ℕ → ℕ) (f : Forest)
        (history : List (Deed (Labelled Task) Value)) (value : Round) (before after : Images) (entries : List Choice) →
        AreTrees f → NumbersOnce f → IsDone (any_rules t sizes) (plan_round f) history value → HaveSizes sizes before →
        Pass t history before after → Recorded history entries → choices_in t.round journal ≡ entries →
        IsSettledByEntries journal t f entries value before after }
{}

/// In the middle of a round, whichever lawful journal may still come that begins with the entries given so far: it has
/// the answers that were given. The entries themselves are such a journal where no key stands twice among them.
pub fn answers_stand_whichever_journal_comes()
    ensures answered { (sizes : List TopSize) (used : List Place) (history : List (Deed (Labelled Task) Value))
        (entries journal : List Choice) → Recorded history entries → MayCome sizes used entries journal →
        AnsweredBy journal history }
    ensures entries { (sizes : List TopSize) (used : List Place) (entries : List Choice) →
        HaveDistinctKeys (asks_of entries) → AreLawful sizes used entries → MayCome sizes used entries entries }
{}

/// Each round has such a history: what its plan does where it runs alone, in the definitions' order.
pub fn each_round_has_a_history()
    ensures { (journal : List Choice) (t : Terms) (sizes : ℕ → ℕ) (f : Forest) (before : Images) →
        let alone = run (means journal t) (plan_round f) before in
        (history : List (Deed (Labelled Task) Value))
        × Happen (means_at (means journal t)) history before alone.images
        × (AllByRecursion (λ (d : Deed (Labelled Task) Value). TaskLies sizes d.op.op) history →
        IsDone (task_rules journal t sizes) (plan_round f) history alone.value) }
{}
