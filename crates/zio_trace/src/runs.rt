ghost use Rattle.std.specs.Prelude.{◌≡◌, ℕ, Bool, List, map, true};
ghost use Rattle.std.specs.List.{AllByRecursion};
ghost use Rattle.zio_types.specs.Choices.{Choice};
ghost use Rattle.zio_script.specs.declared.script.Script.{Script};
ghost use Rattle.zio_script.specs.Grammar.{IsScriptOf};
ghost use Rattle.zio_cksum.specs.Images.{Images};
ghost use Rattle.zio_gang.specs.Attempts.{Pending, Terms};
ghost use Rattle.zio_gang.specs.Runs.{rounds_of, run_script};
ghost use Rattle.zio_trace.specs.Conflicts.{is_single};
ghost use Rattle.zio_trace.specs.Families.{Forest};
ghost use Rattle.zio_trace.specs.Plans.{plan};
ghost use Rattle.zio_trace.specs.Programs.{Deed, Does, Happen, Made, deeds_of};
ghost use Rattle.zio_trace.specs.RoundTraces.{StopsAtSingles, is_single_or_piece, round_trace};
ghost use Rattle.zio_trace.specs.Rounds.{AreTrees, Round, plan_round, trees_in};
ghost use Rattle.zio_trace.specs.RunTraces.{AreFamilies, AreJoined, IsRoundTrace, RoundStart};
ghost use Rattle.zio_trace.specs.RunTraces.{means_in_rounds, round_from, starts_of, trace_from, whole_trace};
ghost use Rattle.zio_trace.specs.Tasks.{Task, Value, means};

/// A run is its rounds from what each begins with. There are as many starts as rounds, and each round is what settling
/// the trees of its start gives: what it asks for, who ended, what is left of its trees, and the images. It begins with
/// the images that the round before it left.
///
/// A round's trace happens from the images of its start to those that it leaves, and asks for what the round asks for.
/// It has single operations alone, or stops above them where a test says so, as at the reads and writes of pieces. The
/// traces joined lead from the first images of the run to its last.
pub fn runs_have_their_traces()
    ensures rounds { (script : Script) (images : Images) (journal : List Choice) →
        let rounds = rounds_of (run_script script images journal).events in
        rounds ≡ map (round_from journal) (starts_of script images journal) }
    ensures joined { (script : Script) (images : Images) (journal : List Choice) →
        let last = (run_script script images journal).state.images in
        AreJoined journal (starts_of script images journal) images last }
    ensures traces { (stops : Task → Bool) (journal : List Choice) (s : RoundStart) → StopsAtSingles stops →
        IsRoundTrace stops journal s (trace_from stops journal s) }
    ensures singles { StopsAtSingles is_single }
    ensures pieces { StopsAtSingles is_single_or_piece }
    ensures whole { (stops : Task → Bool) (script : Script) (images : Images) (journal : List Choice) →
        StopsAtSingles stops → let last = (run_script script images journal).state.images in
        Happen (means_in_rounds journal) (whole_trace stops script images journal) images last }
{}

/// The calls of a round's plan are made of the round's trace, wherever this stops, and a trace that stops above single
/// operations is made of the one that doesn't. No other list of single operations will do: one that makes up the plan's
/// calls and happens from the images before is the trace. So what an engine did in a round, put into the definitions'
/// order, is the round's trace.
pub fn a_round_has_one_trace()
    ensures made { (stops : Task → Bool) (journal : List Choice) (t : Terms) (f : Forest) (images : Images) →
        AreTrees f → Made (plan t) (deeds_of (means journal t) (plan_round f) images)
        (round_trace stops journal t (trees_in f) images) }
    ensures finer { (stops : Task → Bool) (journal : List Choice) (t : Terms) (trees : List (List Pending))
        (images : Images) → StopsAtSingles stops →
        Made (plan t) (round_trace stops journal t trees images) (round_trace is_single journal t trees images) }
    ensures only { (journal : List Choice) (t : Terms) (f : Forest) (calls ds : List (Deed Task Value))
        (value : Round) (before after : Images) → AreTrees f → Does (plan_round f) calls value →
        Made (plan t) calls ds → AllByRecursion (λ (d : Deed Task Value). is_single d.op ≡ true) ds →
        Happen (means journal t) ds before after → ds ≡ round_trace is_single journal t (trees_in f) before }
{}

/// The trees of each round of an accepted script's run are families: each request stands under its parent, and no
/// number stands twice in the round. So all that is said of rounds of families is said of these.
pub fn rounds_of_scripts_have_families()
    ensures { (text : List ℕ) (script : Script) (images : Images) (journal : List Choice) → IsScriptOf text script →
        AllByRecursion (λ (s : RoundStart). AreFamilies s.trees) (starts_of script images journal) }
{}
