ghost use Rattle.std.specs.Prelude.{◌≡◌, ℕ, [], List, Option, Some};
ghost use Rattle.zio_types.specs.Choices.{Choice};
ghost use Rattle.zio_cksum.specs.Images.{Images};
ghost use Rattle.zio_gang.specs.Attempts.{Terms};
ghost use Rattle.zio_gang.specs.Journals.{AreChoicesOf, AreLawful, HaveDistinctKeys, asks_of, choices_in};
ghost use Rattle.zio_gang.specs.Trees.{sizes_of};
ghost use Rattle.zio_trace.specs.Entries.{IsSettledByEntries, Pass, Recorded, any_rules, any_ways};
ghost use Rattle.zio_trace.specs.Families.{Forest};
ghost use Rattle.zio_trace.specs.Labels.{Labelled};
ghost use Rattle.zio_trace.specs.Leaves.{HaveSizes};
ghost use Rattle.zio_trace.specs.Passing.{Passes};
ghost use Rattle.zio_trace.specs.Programs.{Deed, Ends};
ghost use Rattle.zio_trace.specs.RoundRules.{task_ways};
ghost use Rattle.zio_trace.specs.Rounds.{AreTrees, settles};
ghost use Rattle.zio_trace.specs.Rules.{IsDoneBy};
ghost use Rattle.zio_trace.specs.SoundRounds.{IsSoundRound, work_of};
ghost use Rattle.zio_trace.specs.Tasks.{Task, Value};
ghost use Rattle.zio_trace.specs.Together.{IsAsInTurn, IsSharedWell, round_of};
ghost use Rattle.zio_trace.specs.Underway.{AreAnswered, IsUnderway, State, Work, plan_each};

/// Tasks whose operations are done in any order, in which of two that conflict the earlier one stands first,
/// or both are of different readers of one piece: they have the values and leave the images that they have
/// one after another, and the entries are for what they ask.
pub fn work_is_done_as_in_turn()
    ensures { (journal : List Choice) (w : Work) (values : List Value)
        (history : List (Deed (Labelled Task) Value)) (before after : Images) (entries : List Choice) →
        IsSharedWell w → IsDoneBy (any_rules w.terms w.sizes) (Passes w.terms.setting w.shared)
        (plan_each w.tasks) history values →
        HaveSizes w.sizes before → Pass w.terms history before after → Recorded history entries →
        HaveDistinctKeys (asks_of entries) → AreLawful (sizes_of w.terms.setting.tops) w.terms.used entries →
        choices_in w.terms.round journal ≡ entries → IsAsInTurn journal w entries values before after }
{}

/// The same for a round, whose tasks are to settle each of its trees.
pub fn rounds_are_settled_as_in_turn()
    ensures { (journal : List Choice) (w : Work) (f : Forest) (values : List Value)
        (history : List (Deed (Labelled Task) Value)) (before after : Images) (entries : List Choice) →
        AreTrees f → w.tasks ≡ settles f → IsSharedWell w →
        IsDoneBy (any_rules w.terms w.sizes) (Passes w.terms.setting w.shared)
        (plan_each w.tasks) history values →
        HaveSizes w.sizes before → Pass w.terms history before after → Recorded history entries →
        HaveDistinctKeys (asks_of entries) → AreLawful (sizes_of w.terms.setting.tops) w.terms.used entries →
        choices_in w.terms.round journal ≡ entries →
        IsSettledByEntries journal w.terms f entries (round_of values) before after }
{}

/// A sound round that went on move by move until nothing is in flight is settled: as by the definitions under
/// each journal whose choices in the round are the entries, and the entries are the choices of what it asks.
/// They are all of this round, so they can be the journal themselves.
pub fn rounds_that_went_on_are_settled()
    ensures settled { (t : Terms) (sizes : ℕ → ℕ) (f : Forest) (journal : List Choice) (before : Images)
        (s : State) (values : List Value) → IsSoundRound t sizes f → HaveSizes sizes before →
        IsUnderway (work_of t sizes f) (Some before) s → s.flights ≡ [] → s.root ≡ Ends values →
        choices_in t.round journal ≡ s.entries →
        (settled : IsSettledByEntries journal t f s.entries (round_of values) before s.images)
        × AreChoicesOf (sizes_of t.setting.tops) t.used settled.asks s.entries }
    ensures of_this_round { (t : Terms) (sizes : ℕ → ℕ) (f : Forest) (before : Option Images) (s : State) →
        IsUnderway (work_of t sizes f) before s → choices_in t.round s.entries ≡ s.entries }
{}

/// Work that went on until nothing is in flight, whether or not the images before are told: the tasks have the
/// values that some oracle gives them, which agrees with all that was done; and under a journal whose choices in
/// the round are the entries one whose answers fit it.
pub fn what_ended_is_answered()
    ensures whatever { (w : Work) (before : Option Images) (s : State) (values : List Value) →
        IsUnderway w before s → s.flights ≡ [] → s.root ≡ Ends values →
        AreAnswered (any_ways w.terms) w.tasks s.deeds values }
    ensures by_journal { (w : Work) (before : Option Images) (s : State) (journal : List Choice)
        (values : List Value) → IsUnderway w before s → s.flights ≡ [] → s.root ≡ Ends values →
        choices_in w.terms.round journal ≡ s.entries →
        AreAnswered (task_ways journal w.terms) w.tasks s.deeds values }
{}
