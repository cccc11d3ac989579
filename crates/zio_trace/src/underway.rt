ghost use Rattle.std.specs.Prelude.{◌∷◌, ◌++◌, ◌≡◌, [], false, IfSome, IsPermutation, List, Option, Some, length, ℕ};
ghost use Rattle.std.specs.List.{AllByRecursion};
ghost use Rattle.zio_types.specs.Choices.{Ask, Choice};
ghost use Rattle.zio_types.specs.Places.{are_open};
ghost use Rattle.zio_blkptr.specs.declared.pointer.Bp.{Bp};
ghost use Rattle.zio_cksum.specs.Images.{Images};
ghost use Rattle.zio_gang.specs.declared.tree.Tree.{Tree};
ghost use Rattle.zio_gang.specs.Journals.{AreLawful};
ghost use Rattle.zio_gang.specs.Trees.{sizes_of, tree_places};
ghost use Rattle.zio_trace.specs.Calls.{NextIs};
ghost use Rattle.zio_trace.specs.Clearings.{Free};
ghost use Rattle.zio_trace.specs.Conflicts.{is_single};
ghost use Rattle.zio_trace.specs.Engines.{reach_in};
ghost use Rattle.zio_trace.specs.Entries.{AnswersOnLeaf, answer_to, any_rules};
ghost use Rattle.zio_trace.specs.Going.{nth_asked};
ghost use Rattle.zio_trace.specs.Labels.{Labelled};
ghost use Rattle.zio_trace.specs.Leaves.{Answer, LeafOp};
ghost use Rattle.zio_trace.specs.Oracles.{heard};
ghost use Rattle.zio_trace.specs.Passing.{Passes};
ghost use Rattle.zio_trace.specs.Programs.{Ends};
ghost use Rattle.zio_trace.specs.Rules.{IsDoneBy};
ghost use Rattle.zio_trace.specs.Tasks.{Find, Got, Leaf, TakePlaces, Taken, Task, Value};
ghost use Rattle.zio_trace.specs.Underway.{
  Call,
  Comes,
  Flight,
  IsSound,
  IsUnderway,
  Known,
  State,
  Work,
  after_deed,
  after_task,
  at_start,
  call_of,
  early,
  flight_of,
  flying_now,
  part_of,
  plan_each,
  root_out,
  told_of,
  with_answer,
  with_out,
  with_told,
};
ghost use Rattle.zio_trace.specs.Views.{bare, nth};

/// How tasks go on together, one move at a time, in any order, whether or not the images before are told. They begin
/// with nothing in flight; the next task is handed out; a node in flight hands out the operation that its plan asks
/// next, which doesn't conflict with those of its own that are out; a single operation is done, on its leaf or by the
/// space; a node tells early which pointer its value will have; a node that ended gives its value to the one that waits
/// for it. What is kept by each move says in the end that the deeds are those of the tasks.
pub fn work_goes_on()
    ensures begins { (w : Work) (before : Option Images) (images : Images) → IsSound w →
        IfSome before (λ b. b ≡ images) → IsUnderway w before (at_start w images) }
    ensures next_task { (w : Work) (before : Option Images) (s : State) (op : Task) → IsSound w →
        IsUnderway w before s → Known w s (λ o. (y : Labelled Task) ×
        (nth_asked o (length s.outs) s.root ≡ Some y) × (y.op ≡ op)) →
        IsUnderway w before (root_out w s op) }
    ensures hands_out { (w : Work) (before : Option Images) (s : State) (x : Flight) (others : List Flight)
        (op : Task) → IsSound w → IsUnderway w before s → s.flights ≡ x ∷ others →
        is_single x.op.op ≡ false → Known w s (λ o. (y : Labelled Task) ×
        (nth_asked o (length x.outs) x.rest ≡ Some y) × (y.op ≡ op)) → ((journal : List Choice) →
        Comes w s.entries journal →
        AllByRecursion (λ (c : Call). Free (reach_in journal w.terms w.shared) c.op
        (part_of x.op.at x.next op)) x.outs) → IsUnderway w before (flying_now s
        (flight_of w.terms (part_of x.op.at x.next op) ∷ with_out x op ∷ others)) }
    ensures on_leaf { (w : Work) (before : Option Images) (s : State) (x : Flight) (others : List Flight)
        (act : LeafOp) (a : Answer) (after : Images) → IsSound w → IsUnderway w before s →
        s.flights ≡ x ∷ others → x.op.op ≡ Leaf act → x.rest ≡ (flight_of w.terms x.op).rest →
        AnswersOnLeaf w.terms before act s.images a after →
        IsUnderway w before (after_deed s x others (Got a) s.entries after) }
    ensures finds { (w : Work) (before : Option Images) (s : State) (x : Flight) (others : List Flight)
        (a : Ask) (c : Choice) → IsSound w → IsUnderway w before s → s.flights ≡ x ∷ others →
        x.op.op ≡ Find a → x.rest ≡ (flight_of w.terms x.op).rest → c.asked ≡ a →
        AreLawful (sizes_of w.terms.setting.tops) w.terms.used (s.entries ++ c ∷ []) →
        IsUnderway w before (after_deed s x others (answer_to c) (s.entries ++ c ∷ []) s.images) }
    ensures takes { (w : Work) (before : Option Images) (s : State) (x : Flight) (others : List Flight)
        (tree : Tree) → IsSound w → IsUnderway w before s → s.flights ≡ x ∷ others →
        x.op.op ≡ TakePlaces tree → x.rest ≡ (flight_of w.terms x.op).rest →
        IsUnderway w before (after_deed s x others (Taken (are_open w.terms.used (tree_places tree)))
        s.entries s.images) }
    ensures tells { (w : Work) (before : Option Images) (s : State) (x q : Flight) (others : List Flight)
        (n : ℕ) (c : Call) (pointer : Option Bp) → IsUnderway w before s → s.flights ≡ x ∷ q ∷ others →
        nth n q.outs ≡ Some c → c.op ≡ x.op → Known w s (λ o. early (heard o x.rest) ≡ pointer) →
        IsUnderway w before (flying_now s (x ∷ with_told q n pointer ∷ others)) }
    ensures arrives { (w : Work) (before : Option Images) (s : State) (x q : Flight) (others : List Flight)
        (n : ℕ) (c : Call) (v : Value) → IsSound w → IsUnderway w before s → s.flights ≡ x ∷ q ∷ others →
        x.rest ≡ Ends v → nth n q.outs ≡ Some c → c.op ≡ x.op →
        IsUnderway w before (flying_now s (with_answer q n v ∷ others)) }
    ensures task_ends { (w : Work) (before : Option Images) (s : State) (x : Flight) (others : List Flight)
        (n : ℕ) (c : Call) (v : Value) → IsSound w → IsUnderway w before s → s.flights ≡ x ∷ others →
        x.rest ≡ Ends v → nth n s.outs ≡ Some c → c.op ≡ x.op →
        IsUnderway w before (after_task s others n v) }
    ensures in_any_order { (w : Work) (before : Option Images) (s : State) (flights : List Flight) →
        IsUnderway w before s → IsPermutation s.flights flights →
        IsUnderway w before (flying_now s flights) }
    ensures ends { (w : Work) (before : Option Images) (s : State) (values : List Value) → IsSound w →
        IsUnderway w before s → s.flights ≡ [] → s.root ≡ Ends values →
        IsDoneBy (any_rules w.terms w.sizes) (Passes w.terms.setting w.shared) (plan_each w.tasks)
        s.deeds values }
{}

/// What a node, or the work itself, asks behind the operations that are out, whatever these are answered, is known to
/// be what it asks next.
pub fn what_is_asked_next_is_known()
    ensures node { (w : Work) (before : Option Images) (s : State) (x : Flight) (others : List Flight) (op : Task) →
        IsUnderway w before s → s.flights ≡ x ∷ others → is_single x.op.op ≡ false →
        NextIs early (told_of x.outs) (bare x.rest) op →
        Known w s (λ o. (y : Labelled Task) × (nth_asked o (length x.outs) x.rest ≡ Some y) × (y.op ≡ op)) }
    ensures task { (w : Work) (before : Option Images) (s : State) (op : Task) → IsUnderway w before s →
        NextIs early (told_of s.outs) (bare s.root) op →
        Known w s (λ o. (y : Labelled Task) × (nth_asked o (length s.outs) s.root ≡ Some y) × (y.op ≡ op)) }
{}
