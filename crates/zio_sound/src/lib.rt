//! Between what a fold says of a round and what an engine does with it.
//!
//! It stands on `zio_course`, whose fold gives trees to a runner, and on `zio_trace`, which says which rounds may be
//! run with all their trees under way together, and what such a round comes to. Each call is a law: its contract is the
//! statement, and its body is empty.
#![tactic(auto)]

ghost use Rattle.std.specs.Prelude.{◌≡◌, IfSome, IsTrue, List, [], None, Option, ℕ, false, true};
ghost use Rattle.std.specs.List.{AllByRecursion};
ghost use Rattle.zio_types.specs.declared.place.Place.{Place};
ghost use Rattle.zio_types.specs.Choices.{Choice};
ghost use Rattle.zio_types.specs.Places.{is_inside};
ghost use Rattle.zio_blkptr.specs.declared.pointer.Bp.{Bp};
ghost use Rattle.zio_blkptr.specs.Pointers.{valid};
ghost use Rattle.zio_types.specs.Bits.{has_bits};
ghost use Rattle.zio_script.specs.Requests.{kind_of};
ghost use Rattle.zio_script.specs.Whys.{is_claim};
ghost use Rattle.zio_script.specs.declared.script.Failmode.{Failmode};
ghost use Rattle.zio_gang.specs.declared.tree.Tree.{Tree};
ghost use Rattle.zio_cksum.specs.Images.{Images};
ghost use Rattle.zio_gang.specs.Attempts.{Pending, Terms};
ghost use Rattle.zio_gang.specs.Journals.{AreLawful};
ghost use Rattle.zio_gang.specs.Trees.{sizes_of, tree_pointers};
ghost use Rattle.zio_trace.specs.Entries.{IsSettledByEntries};
ghost use Rattle.zio_trace.specs.Families.{Forest, NoTrees};
ghost use Rattle.zio_trace.specs.Labels.{Labelled, ways_at};
ghost use Rattle.zio_trace.specs.Oracles.{IsOracle, Oracle};
ghost use Rattle.zio_trace.specs.Programs.{Deed};
ghost use Rattle.zio_trace.specs.RoundRules.{task_ways};
ghost use Rattle.zio_trace.specs.Rounds.{AreTrees, settles, trees_in};
ghost use Rattle.zio_trace.specs.Separate.{LeavesHold, LeavesOnce};
ghost use Rattle.zio_trace.specs.SoundRounds.{IsSoundRound, LeavesDiffer};
ghost use Rattle.zio_trace.specs.Tasks.{Attempt, Task, Value, attempted};
ghost use Rattle.zio_trace.specs.Together.{round_of};
ghost use Rattle.zio_trace.specs.Underway.{AreAnswered};
ghost use Rattle.zio_course.specs.Runners.{AreRunnable, IsRound, SeenEnd, Standing, finished_by_number, joined_trees, terms_at};
ghost use Rattle.zio_sound.specs.Leaving.{LeavesTrees};
ghost use Rattle.zio_sound.specs.Linked.{AreLinked, LeaveLinked};

/// A round that a runner may be given is sound, so all its trees may be under way together: where the tops hold their
/// leaves, which stand once, the places in use lie inside the tops, and the blocks that requests were given have valid
/// pointers.
pub fn runnable_rounds_are_sound()
    ensures { (s : Standing) (failmode : Failmode) (round point : ℕ) (sizes : ℕ → ℕ) (trees : List (List Pending))
        (f : Forest) → trees_in f ≡ trees → AreTrees f → AreRunnable s trees →
        LeavesOnce s.tops → LeavesDiffer s.tops → LeavesHold sizes s.tops →
        AllByRecursion (λ (p : Pending). IfSome p.block (λ (tree : Tree).
        AllByRecursion (λ (bp : Bp). IsTrue (valid bp)) (tree_pointers tree))) (joined_trees trees) →
        AllByRecursion (λ (p : Place). IsTrue (is_inside (sizes_of s.tops) p)) s.live →
        IsSoundRound (terms_at s failmode round point) sizes f }
{}

/// A round whose trees came to these values, as they do under the entries that the space made for it, is the round by
/// the definitions, if what it gives is what these values leave and what finished in them, by number.
pub fn settled_rounds_are_rounds()
    ensures { (t : Terms) (f : Forest) (trees : List (List Pending)) (values : List Value) (before after : Images)
        (end : SeenEnd) → trees_in f ≡ trees →
        IsSettledByEntries end.entries t f end.entries (round_of values) before after →
        AreLawful (sizes_of t.setting.tops) t.used end.entries →
        end.left ≡ (round_of values).left → end.finished ≡ finished_by_number (round_of values).ended →
        IsRound t trees before after end }
{}

/// What trees of a round leave whose values come of an oracle, that is, whatever their operations were answered: each
/// request finished or is left, what is left are rests of the trees, and writes and claims alone made blocks, without
/// error.
pub fn answered_rounds_leave_rests()
    ensures { (journal : List Choice) (t : Terms) (f : Forest) (ds : List (Deed (Labelled Task) Value))
        (values : List Value) →
        AreAnswered (task_ways journal t) (settles f) ds values → LeavesTrees (trees_in f) (round_of values) }
{}

/// What is left of trees whose requests stand under their parents stands so, whatever their operations were answered.
pub fn what_is_left_is_linked()
    ensures { (journal : List Choice) (t : Terms) (f : Forest) (ds : List (Deed (Labelled Task) Value))
        (values : List Value)
        (under : Option ℕ) → AreAnswered (task_ways journal t) (settles f) ds values → AreLinked under f
        → LeaveLinked under values }
{}

/// The trees of a round that a runner may be given are families, where their requests stand under their parents.
pub fn runnable_trees_are_families()
    ensures { (s : Standing) (trees : List (List Pending)) (f : Forest) → trees_in f ≡ trees → AreRunnable s trees →
        AreLinked None f → AreTrees f }
{}

/// A claim never goes again, whatever its operations are answered: it may always fail.
pub fn claims_never_go_again()
    ensures { (journal : List Choice) (t : Terms) (o : Oracle (Labelled Task) Value) (at : List ℕ) (attempt : ℕ)
        (p : Pending) →
        IsOracle (ways_at (task_ways journal t)) o → is_claim (kind_of p.request.work) ≡ true →
        let one = attempted (o.answer (record { at = at; op = Attempt attempt p NoTrees })) in
        (one.again ≡ []) × (has_bits one.return.bits ≡ false) }
{}
