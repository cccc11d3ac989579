ghost use Rattle.std.specs.Prelude.{◌≡◌, ◌&&◌, ◌+◌, ◌<◌, ◌≤◌, ◌++◌, ◌∷◌, ℕ, Bool, List, [], Contains, count_by, filter, is_none, length, None, Option, Some, reverse};
ghost use Rattle.std.specs.List.{AllByRecursion};
ghost use Rattle.zio_types.specs.declared.journal.Completion.{Completion};
ghost use Rattle.zio_types.specs.declared.place.TopSize.{TopSize};
ghost use Rattle.zio_types.specs.declared.error.Errno.{Errno};
ghost use Rattle.zio_types.specs.declared.place.Place.{Place};
ghost use Rattle.zio_types.specs.Choices.{Choice};
ghost use Rattle.zio_types.specs.Places.{SamePlaces};
ghost use Rattle.zio_script.specs.declared.script.Script.{Script};
ghost use Rattle.zio_types.specs.declared.journal.Journal.{Journal};
ghost use Rattle.zio_script.specs.Accepted.{AreBehindParents, AreRising, IsOrderlyBatch, NameApart};
ghost use Rattle.zio_script.specs.Grammar.{IsScriptOf};
ghost use Rattle.zio_script.specs.Requests.{requests_of};
ghost use Rattle.zio_script.specs.declared.read.TheConstants.{SCRIPT_LEN_MAX};
ghost use Rattle.zio_script.specs.declared.script.Failmode.{Failmode};
ghost use Rattle.zio_script.specs.declared.script.Item.{Item};
ghost use Rattle.zio_script.specs.declared.script.Request.{Request};
ghost use Rattle.zio_cksum.specs.Images.{Images};
ghost use Rattle.zio_gang.specs.declared.tree.Tree.{Tree};
ghost use Rattle.zio_gang.specs.Attempts.{Pending, Terms};
ghost use Rattle.zio_gang.specs.Journals.{AreChoicesOf, AreCompletionsOf, CompleteAfterChildren, CompleteOnce, choices_in};
ghost use Rattle.zio_gang.specs.Rounds.{Bound, NamesOnce, admitted, block_of, bound_after, pending_trees, settle_each, trees_of, used_places};
ghost use Rattle.zio_gang.specs.Runs.{Course, Event, Plan, Round, State, after_round, has_trees, plan_of, run_batch, run_suspended, then_course};
ghost use Rattle.zio_gang.specs.Runs.Event.{RanRound, HeldBatch};
ghost use Rattle.zio_report.specs.declared.report.ReportLine.{ReportLine};
ghost use Rattle.zio_report.specs.declared.report.RoundHead.{RoundHead};
ghost use Rattle.zio_report.specs.declared.report.Show.{Show};
ghost use Rattle.zio_report.specs.Lines.{round_text};
ghost use Rattle.zio_report.specs.Reports.{RunSize, head_of, held_text, lines_of};
ghost use Rattle.zio_course.specs.Admissions.{IsAdmission, error_in};
ghost use Rattle.zio_course.specs.Admitted.{AreAwaited};
ghost use Rattle.zio_course.specs.Answered.{answered_in};
ghost use Rattle.zio_course.specs.Course.{IsEnteredSoFar, Reaches, shown_of};
ghost use Rattle.zio_course.specs.Entered.{IsBatchRun};
ghost use Rattle.zio_course.specs.Folds.{AreSuspended, is_named_by};
ghost use Rattle.zio_course.specs.Forests.{AreReady, names_of, running};
ghost use Rattle.zio_course.specs.Live.{IsLive, IsRoundOver};
ghost use Rattle.zio_course.specs.Names.{is_some_name, named_in};
ghost use Rattle.zio_course.specs.Parents.{AreParented};
ghost use Rattle.zio_course.specs.Runners.{AreRunnable, IsRound, IsRoundEnd, SeenEnd, Standing, StandsAfter, is_numbered, named_places, numbers_of, requests_in, rows_tell_apart, terms_at};
ghost use Rattle.zio_course.specs.Steps.{AreUnfinished, IsAt, IsNextRound, IsPlanOf};
ghost use Rattle.zio_course.specs.Told.{ended_told, finish_of, no_error};
ghost use Rattle.zio_course.specs.declared.admission.Rules.{Rules};

/// Where admission is noted for the trees of a batch, whose numbers rise, the trees of the requests that it lets run
/// are those that run by the definition, whole and in order.
pub fn whole_trees_are_admitted()
    ensures { (suspended : List (List Pending)) (awaited bound : List ℕ →
        Bool) (items : List Item) (slots : List (ℕ × ℕ)) (rules : List Rules) →
        AreRising (requests_of items) → AreAwaited suspended awaited
        → IsAdmission (has_trees suspended) awaited bound (trees_of (requests_of items)) slots rules
        → trees_of (running slots rules items) ≡ (admitted suspended bound (trees_of (requests_of items))).trees }
{}

/// A batch that was run is the next round of the course, whatever the journal holds of other rounds: the lines that
/// were told of it are those of the report, what is left and the bound names are the same, and its choices and
/// completions are lawful.
pub fn a_batch_is_a_round_of_the_course()
    ensures { (apart : Bool) (plan : Plan) (st : State) (s : Standing) (failmode : Failmode)
        (bound new_bound : List (List ℕ × Tree)) (suspended : List (List Pending)) (awaited : List ℕ → Bool)
        (number point : ℕ) (items : List Item) (slots : List (ℕ × ℕ)) (rules : List Rules) (before after : Images)
        (old new : Journal) (end : SeenEnd) (lines : List ReportLine) (left : List (List Pending)) →
        let requests = requests_of items in
        let trees = pending_trees (names_of bound) number (trees_of (running slots rules items)) in
        IsPlanOf s failmode plan → IsAt s bound suspended old.rounds point before st
        → AreRising requests → AreBehindParents [] requests → NameApart apart requests
        → AreAwaited suspended awaited
        → IsAdmission (has_trees suspended) awaited (is_some_name bound) (trees_of requests) slots rules
        → IsBatchRun (error_in slots rules) requests bound new_bound old new end lines left
        → IsRoundEnd s (old.rounds + 1) trees end
        → IsRound (terms_at s failmode (old.rounds + 1) point) trees before after end
        → choices_in (old.rounds + 1) plan.journal ≡ choices_in (old.rounds + 1) end.entries
        → (round : Round) × (run_batch plan (record { number = number; requests = requests }) st
        ≡ after_round plan st st.suspended round)
        × IsNextRound s (old.rounds + 1) point (Some number) lines end.entries
        (reverse (answered_in (error_in slots rules) (old.rounds + 1) requests) ++ end.completions) left after new_bound
        round }
{}

/// The round of the suspended trees is the next round of the course too.
pub fn a_clear_is_a_round_of_the_course()
    ensures { (apart : Bool) (plan : Plan) (st : State) (s : Standing) (failmode : Failmode)
        (bound new_bound : List (List ℕ × Tree)) (suspended : List (List Pending)) (unfinished : List Request)
        (point : ℕ) (before after : Images) (old new : Journal) (end : SeenEnd) (lines : List ReportLine)
        (left : List (List Pending)) →
        IsPlanOf s failmode plan → IsAt s bound suspended old.rounds point before st
        → AreUnfinished suspended unfinished → NameApart apart unfinished
        → IsBatchRun no_error unfinished bound new_bound old new end lines left
        → IsRoundEnd s (old.rounds + 1) suspended end
        → IsRound (terms_at s failmode (old.rounds + 1) point) suspended before after end
        → choices_in (old.rounds + 1) plan.journal ≡ choices_in (old.rounds + 1) end.entries
        → (round : Round) × (run_suspended plan st ≡ after_round plan st [] round)
        × IsNextRound s (old.rounds + 1) point None lines end.entries end.completions left after new_bound round }
{}

/// What was run stays run. A round that follows is entered behind the rounds before, with its entries, completions and
/// text; a batch that is held adds its line; and the course goes on from the state that a step of it left.
pub fn what_was_run_stays_run()
    ensures round { (show : Show) (n : RunSize) (sizes : List TopSize) (requests : List Request) (old new : Journal)
        (events : List Event) (printed : List ℕ) (round : Round)
        (head : RoundHead) (lines : List ReportLine) (entries : List Choice) (done : List Completion) →
        IsEnteredSoFar show n sizes requests old events printed
        → new.places ≡ old.places ++ entries → new.completions ≡ old.completions ++ done → new.rounds ≡ old.rounds + 1
        → AllByRecursion (λ (c : Choice). c.asked.key.round ≡ old.rounds + 1) entries
        → AllByRecursion (λ (c : Completion). c.round ≡ old.rounds + 1) done
        → round.number ≡ old.rounds + 1 → head_of round ≡ head → lines_of round ≡ lines
        → AreChoicesOf sizes round.used round.asks entries → AreCompletionsOf round.number round.ended done
        → CompleteOnce (old.completions ++ done) → CompleteAfterChildren requests (old.completions ++ done)
        → IsEnteredSoFar show n sizes requests new (events ++ RanRound round ∷ [])
        (printed ++ round_text show head lines entries done) }
    ensures held { (show : Show) (n : RunSize) (sizes : List TopSize) (requests : List Request) (journal : Journal)
        (events : List Event) (printed : List ℕ) (batch : ℕ) →
        IsEnteredSoFar show n sizes requests journal events printed
        → IsEnteredSoFar show n sizes requests journal (events ++ HeldBatch batch ∷ [])
        (printed ++ shown_of show (held_text batch)) }
    ensures course { (script : Script) (before : Images) (old new : Journal) (entries : List Choice)
        (events more : List Event) (step : Plan → Course) (st : State) (rest : Plan → State → Course) →
        Reaches script before old events (λ plan. then_course (step plan) (rest plan))
        → new.places ≡ old.places ++ entries
        → ((later : List Choice) → AllByRecursion (λ (c : Choice). new.rounds < c.asked.key.round) later
        → AllByRecursion (λ (c : Choice). old.rounds < c.asked.key.round) (entries ++ later))
        → ((later : List Choice) → AllByRecursion (λ (c : Choice). new.rounds < c.asked.key.round) later
        → step (plan_of script before (new.places ++ later)) ≡ record { events = more; state = st })
        → Reaches script before new (events ++ more) (λ plan. rest plan st) }
{}

/// The requests of an orderly batch that admission lets run are ready for their round: their blocks are bound where
/// they need one, and the numbers and sizes of their children are within the limits, although some were answered.
pub fn an_orderly_batch_is_ready()
    ensures { (apart : Bool) (suspended : List (List Pending)) (awaited : List ℕ → Bool) (bound : List (List ℕ × Tree))
        (number : ℕ) (items : List Item) (slots : List (ℕ × ℕ)) (rules : List Rules) →
        1 ≤ number → AreRising (requests_of items) → IsOrderlyBatch apart (requests_of items)
        → AreAwaited suspended awaited
        → IsAdmission (has_trees suspended) awaited (is_some_name bound) (trees_of (requests_of items)) slots rules
        → AreReady number bound (running slots rules items) }
{}

/// Its trees are runnable too, where the places in use are those of the bound blocks.
pub fn an_orderly_batch_is_runnable()
    ensures { (s : Standing) (apart : Bool) (suspended : List (List Pending)) (awaited : List ℕ →
        Bool) (bound : List (List ℕ × Tree)) (number : ℕ) (items : List Item) (slots : List (ℕ × ℕ))
        (rules : List Rules) →
        rows_tell_apart s.rows ≡ apart → AreRising (requests_of items) → IsOrderlyBatch apart (requests_of items)
        → AreAwaited suspended awaited
        → IsAdmission (has_trees suspended) awaited (is_some_name bound) (trees_of (requests_of items)) slots rules
        → IsLive s.live bound
        → AreRunnable s (pending_trees (names_of bound) number (trees_of (running slots rules items))) }
{}

/// The places in use are those of the blocks that are bound, and stay so over a round: those of blocks that were freed
/// leave them, and those of blocks that were made come to them. A course has the same places in use.
pub fn bound_places_are_live()
    ensures after { (s new : Standing) (round : ℕ) (apart : Bool) (trees : List (List Pending)) (end : SeenEnd)
        (requests : List Request) (error : ℕ → Option Errno) (bound after : List (List ℕ × Tree)) →
        IsLive s.live bound → StandsAfter s new round trees end → IsRoundEnd s round trees end
        → IsRoundOver apart bound error requests trees
        → ((name : List ℕ) → named_in after name
        ≡ block_of (bound_after (ended_told error end.finished requests) (names_of bound)) name)
        → IsLive new.live after }
    ensures used { (b : Bound) (bound : List (List ℕ × Tree)) (live : List Place) → NamesOnce b
        → ((name : List ℕ) → block_of b name ≡ named_in bound name) → IsLive live bound
        → SamePlaces (used_places b) live }
{}

/// What an orderly batch is when its round is over, so that the law above holds of it; and what a round leaves of
/// runnable trees is runnable again, where the blocks that it names are still in use.
pub fn a_round_leaves_runnable_trees()
    ensures over { (apart : Bool) (suspended : List (List Pending)) (awaited : List ℕ →
        Bool) (bound : List (List ℕ × Tree)) (number : ℕ) (items : List Item) (slots : List (ℕ × ℕ))
        (rules : List Rules) →
        AreRising (requests_of items) → IsOrderlyBatch apart (requests_of items) → AreAwaited suspended awaited
        → IsAdmission (has_trees suspended) awaited (is_some_name bound) (trees_of (requests_of items)) slots rules
        → IsRoundOver apart bound (error_in slots rules) (requests_of items)
        (pending_trees (names_of bound) number (trees_of (running slots rules items))) }
    ensures left { (s new : Standing) (round : ℕ) (trees : List (List Pending)) (end : SeenEnd) →
        AreRunnable s trees → IsRoundEnd s round trees end → StandsAfter s new round trees end
        → AllByRecursion (Contains new.live) (named_places end.left)
        → AreRunnable new end.left }
{}

/// An accepted script has few items, so the numbers of its rounds and batches fit.
pub fn accepted_scripts_are_short()
    ensures { (text : List ℕ) (script : Script) → IsScriptOf text script → length script.items ≤ SCRIPT_LEN_MAX + 1 }
{}

/// In the trees of a batch the parent of each request that stands under one comes behind it in its tree; and where that
/// holds of the trees of a round, it holds of what the round leaves of them.
pub fn parents_wait_for_children()
    ensures batch { (names : Bound) (birth : ℕ) (requests : List Request)
        → AllByRecursion AreParented (pending_trees names birth (trees_of requests)) }
    ensures round { (j : List Choice) (t : Terms) (trees : List (List Pending)) (images : Images)
        → AllByRecursion AreParented trees
        → AllByRecursion AreParented (settle_each j t trees images).left }
{}

/// Trees that wait for the next `clear` are runnable, and what a round leaves of runnable trees waits so, with those of
/// its requests that were neither answered nor finished.
pub fn suspended_trees_are_runnable()
    ensures runnable { (s : Standing) (bound : List (List ℕ × Tree)) (suspended : List (List Pending))
        (unfinished : List Request) →
        AreSuspended (rows_tell_apart s.rows) bound suspended unfinished → IsLive s.live bound
        → AreRunnable s suspended }
    ensures left { (s : Standing) (round : ℕ) (apart : Bool) (trees : List (List Pending)) (end : SeenEnd)
        (requests : List Request) (error : ℕ → Option Errno) (bound after : List (List ℕ × Tree)) →
        AreRunnable s trees → IsRoundEnd s round trees end → IsRoundOver apart bound error requests trees
        → ((n : ℕ) → count_by (is_numbered n) (numbers_of (requests_in trees))
        ≡ count_by (is_numbered n) (numbers_of (filter (λ (r : Request). is_none (error r.number)) requests)))
        → ((name : List ℕ) → named_in after name
        ≡ block_of (bound_after (ended_told error end.finished requests) (names_of bound)) name)
        → AreSuspended apart after end.left
        (filter (λ (r : Request). is_none (error r.number) && is_none (finish_of end.finished r.number)) requests) }
    ensures batch { (s : Standing) (round number : ℕ) (awaited : List ℕ → Bool) (suspended : List (List Pending))
        (unfinished : List Request) (bound after : List (List ℕ × Tree)) (items : List Item) (slots : List (ℕ × ℕ))
        (rules : List Rules) (end : SeenEnd) →
        AreSuspended (rows_tell_apart s.rows) bound suspended unfinished → IsLive s.live bound
        → AreAwaited suspended awaited
        → AreRising (unfinished ++ requests_of items) → IsOrderlyBatch (rows_tell_apart s.rows) (requests_of items)
        → IsAdmission (has_trees suspended) awaited (is_some_name bound) (trees_of (requests_of items)) slots rules
        → IsRoundEnd s round (pending_trees (names_of bound) number (trees_of (running slots rules items))) end
        → ((name : List ℕ) → named_in after name
        ≡ block_of (bound_after (ended_told (error_in slots rules) end.finished (requests_of items)) (names_of bound))
        name)
        → AreSuspended (rows_tell_apart s.rows) after (suspended ++ end.left)
        (unfinished ++ filter (λ (r : Request). is_none (error_in slots rules r.number) && is_none
        (finish_of end.finished r.number)) (requests_of items)) }
    ensures awaited { (suspended : List (List Pending)) (unfinished : List Request) (awaited : List ℕ → Bool)
        → AreUnfinished suspended unfinished
        → ((name : List ℕ) → awaited name ≡ is_named_by unfinished name) → AreAwaited suspended awaited }
{}
