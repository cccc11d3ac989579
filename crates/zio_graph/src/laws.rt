// Between a round as a script's run gives it to a runner and a round as the engine runs it.

ghost use Rattle.std.specs.Prelude.{◌≡◌, ◌⊎◌, ◌↔◌, ◌%◌, ℕ, Contains, IfSome, IsPermutation, IsTrue, List, [], Option, length, map, true};
ghost use Rattle.std.specs.List.{AllByRecursion};
ghost use Rattle.zio_types.specs.declared.place.Place.{Place};
ghost use Rattle.zio_types.specs.Choices.{Choice};
ghost use Rattle.zio_types.specs.Places.{are_open, is_inside, sector_size};
ghost use Rattle.zio_script.specs.declared.script.Failmode.{Failmode};
ghost use Rattle.zio_cksum.specs.Images.{Images};
ghost use Rattle.zio_gang.specs.Attempts.{Ended, Pending, Terms};
ghost use Rattle.zio_gang.specs.Journals.{AreLawful, CompleteAfterChildren, CompleteOnce};
ghost use Rattle.zio_gang.specs.Trees.{sizes_of};
ghost use Rattle.zio_trace.specs.Families.{Forest};
ghost use Rattle.zio_trace.specs.Labels.{Labelled};
ghost use Rattle.zio_trace.specs.Programs.{Deed};
ghost use Rattle.zio_trace.specs.RoundRules.{task_ways};
ghost use Rattle.zio_trace.specs.Rounds.{Round, settles, trees_in};
ghost use Rattle.zio_trace.specs.Separate.{LeavesOnce};
ghost use Rattle.zio_trace.specs.SoundRounds.{IsSoundRound, LeavesDiffer};
ghost use Rattle.zio_trace.specs.Tasks.{Task, Value};
ghost use Rattle.zio_trace.specs.Together.{round_of};
ghost use Rattle.zio_trace.specs.Underway.{AreAnswered};
ghost use Rattle.zio_disks.specs.Trees.{HasSectors};
ghost use Rattle.zio_disks.specs.Whole.{IsWholeTree};
ghost use Rattle.zio_blocks.specs.Blocks.{HavePointers};
ghost use Rattle.zio_course.specs.declared.runner.RequestEnd.{RequestEnd};
ghost use Rattle.zio_course.specs.Runners.{AreRunnable, DiffersInRound, HasReadSize, Standing, requests_in, terms_at};
ghost use Rattle.zio_sound.specs.Leaving.{LeavesTrees};
ghost use Rattle.zio_exchange.specs.Waits.{pendings};
ghost use Rattle.zio_exchange.specs.declared.waiting.UnfinishedRequest.{UnfinishedRequest};
ghost use Rattle.zio_stages.specs.PartWorks.{HaveUnits};
ghost use Rattle.zio_stages.specs.Tops.{AreTops};
ghost use Rattle.zio_turns.specs.Ledgers.{AreBehindChildren, Ending, IsEnding, all_ended, freed_in, made_in};
ghost use Rattle.slab.specs.Slab.{Slab};
ghost use Rattle.zio_turns.specs.Rounds.{SoFar};
ghost use Rattle.zio_turns.specs.Sizes.{FitsBodies};
ghost use Rattle.zio_turns.specs.Stops.{IsStopped};
ghost use Rattle.zio_turns.specs.UnderTrees.{IsOver};
ghost use Rattle.zio_turns.specs.declared.entry.TiedNode.{TiedNode as SeenEntry};
ghost use Rattle.zio_nodes.specs.TreeAts.{IsTreeOver};
ghost use Rattle.zio_graph.specs.EngineTrees.{AreSound, IsEngineTree};
ghost use Rattle.zio_graph.specs.InUse.{LeavesInUse};
ghost use Rattle.zio_graph.specs.Jobs.{IsSoundJob, size_at};
ghost use Rattle.zio_graph.specs.RoundEnds.{IsByNumber, TellsRound, completions_of};

use zio_staged::NodeFacts;

/// Trees that a runner may be given are a sound round, all of them under way together: where the tops hold their
/// leaves, which stand once and lie on disks of these sizes, and the places in use lie inside the tops.
pub fn jobs_are_sound_rounds()
    ensures { (s : Standing) (failmode : Failmode) (round point : ℕ) (bytes : List ℕ)
        (trees : List (List UnfinishedRequest)) →
        AllByRecursion IsEngineTree trees → AreRunnable s (map pendings trees) → LeavesOnce s.tops
        → LeavesDiffer s.tops →
        AllByRecursion (HasSectors bytes) s.tops
        → AllByRecursion (λ (p : Place). IsTrue (is_inside (sizes_of s.tops) p)) s.live →
        IsSoundJob (terms_at s failmode round point) (size_at bytes) trees }
{}

/// A sound round, wherever it is stopped, has changed the images only where nothing in use lies, and at places of
/// blocks that its requests name.
pub fn stopped_rounds_change_what_is_loose()
    ensures { (s : Standing) (failmode : Failmode) (round point : ℕ) (sizes : ℕ → ℕ) (trees : List (List Pending))
        (f : Forest)
        (before after : Images) → trees_in f ≡ trees → length after ≡ length before →
        IsSoundRound (terms_at s failmode round point) sizes f
        → IsStopped (terms_at s failmode round point) f before after →
        DiffersInRound s trees before after }
{}

/// In whatever order a round's requests finished, what is told of them by number is what the round tells.
pub fn rounds_tell_their_requests()
    ensures { (s : Standing) (round : ℕ) (trees : List (List Pending)) (r : Round) (ended : List Ended)
        (finished : List RequestEnd) →
        AreRunnable s trees → LeavesTrees trees r → IsPermutation ended r.ended → IsByNumber ended finished →
        TellsRound round trees r ended finished }
{}

/// Where no request completes twice, and each finished behind all requests of the round that stand under it, no child
/// completes after its parent.
pub fn rounds_complete_children_first()
    ensures { (round : ℕ) (trees : List (List Pending)) (f : Forest) (done : List Ending) → trees_in f ≡ trees →
        CompleteOnce (completions_of round (all_ended done)) → AreBehindChildren f [] done →
        CompleteAfterChildren (requests_in trees) (completions_of round (all_ended done)) }
{}

/// Where each request that finished has no bytes or those of its block's bodies, and each block that a request names is
/// whole, each read without error is told with as many bytes as its block has, and all that is told is whole sectors.
pub fn rounds_read_whole_blocks()
    ensures reads { (s : Standing) (t : Terms) (f : Forest) (trees : List (List Pending)) (done : List Ending)
        (finished : List RequestEnd) → trees_in f ≡ trees → AreSound f → AreRunnable s trees
        → AllByRecursion (IsEnding t f) done →
        AllByRecursion (λ (x : Ending). FitsBodies x.request x.ended) done → IsByNumber (all_ended done) finished →
        AllByRecursion (HasReadSize trees) finished }
    ensures sectors { (t : Terms) (f : Forest) (trees : List (List Pending)) (done : List Ending)
        (finished : List RequestEnd) →
        trees_in f ≡ trees → AreSound f → AllByRecursion (IsEnding t f) done →
        AllByRecursion (λ (x : Ending). FitsBodies x.request x.ended) done → IsByNumber (all_ended done) finished →
        AllByRecursion (λ (g : RequestEnd). length g.bytes % sector_size ≡ 0) finished }
{}

/// The blocks that a round's requests made are whole, whatever their operations were answered: where all that a lawful
/// journal has for its asks lies on tops whose places stand in pointers.
pub fn rounds_make_whole_blocks()
    ensures { (journal : List Choice) (t : Terms) (f : Forest) (ds : List (Deed (Labelled Task) Value))
        (values : List Value) →
        HavePointers t.setting.tops → AreLawful (sizes_of t.setting.tops) t.used journal → AreSound f →
        AreAnswered (task_ways journal t) (settles f) ds values →
        AllByRecursion (λ (e : Ended). IfSome e.tree IsWholeTree) (round_of values).ended }
{}

/// If in use after a round are the places that were and that no finished request freed, and those of the blocks that
/// finished requests made, which lie inside the tops and met nothing in use, these are the places that a runner tells.
pub fn rounds_leave_places_in_use()
    ensures { (s : Standing) (t : Terms) (f : Forest) (trees : List (List Pending)) (done : List Ending)
        (finished : List RequestEnd)
        (live : List Place) → trees_in f ≡ trees → AreRunnable s trees → AllByRecursion (IsEnding t f) done →
        IsByNumber (all_ended done) finished
        → AllByRecursion (λ (p : Place). IsTrue (is_inside (sizes_of s.tops) p)) (made_in done) →
        are_open s.live (made_in done) ≡ true → ((p : Place) → Contains live p
        ↔ ((Contains s.live p × ¬ Contains (freed_in done) p) ⊎ Contains (made_in done) p))
        → LeavesInUse s trees finished live }
{}

/// What a round that is over asked of the space it asked under its own number.
pub fn rounds_ask_under_their_number<N: NodeFacts>()
    ensures { (t : Terms) (sizes : ℕ → ℕ) (f : Forest) (before : Option Images) (s : SoFar)
        (slab : Slab (SeenEntry N)) →
        IsOver N.nodes t sizes f before s slab
        → AllByRecursion (λ (c : Choice). c.asked.key.round ≡ t.round) s.entries }
{}

/// Trees that a runner may be given lie on the tops, so that nodes of theirs may be run: where each place in use lies
/// inside the tops.
pub fn runnable_trees_lie_on_the_tops()
    ensures { (s : Standing) (trees : List (List UnfinishedRequest)) → AllByRecursion IsEngineTree trees
        → AreRunnable s (map pendings trees) →
        AreTops s.tops → HaveUnits s.tops → AllByRecursion
        (λ (p : Place). IsTrue (is_inside (sizes_of s.tops) p)) s.live →
        AllByRecursion (IsTreeOver s.tops) trees }
{}
