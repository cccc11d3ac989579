//! What an engine keeps of its nodes, move by move.

ghost use Rattle.std.specs.Prelude.{◌≡◌, ◌≢◌, ◌++◌, ℕ, List, [], ◌∷◌, Bool, IfSome, Option, Some, slice_get, slice_set, false, IsPermutation};
ghost use Rattle.zio_types.specs.Choices.{Ask, Choice};
ghost use Rattle.zio_blkptr.specs.declared.pointer.Bp.{Bp};
ghost use Rattle.zio_cksum.specs.Images.{Images};
ghost use Rattle.zio_gang.specs.declared.tree.Tree.{Tree};
ghost use Rattle.zio_gang.specs.Attempts.{Terms};
ghost use Rattle.zio_gang.specs.Journals.{AreLawful, AreChoicesOf, choices_in};
ghost use Rattle.zio_gang.specs.Trees.{sizes_of, tree_places};
ghost use Rattle.zio_types.specs.Places.{are_open};
ghost use Rattle.zio_trace.specs.Conflicts.{is_single};
ghost use Rattle.zio_trace.specs.Entries.{AnswersOnLeaf, IsSettledByEntries};
ghost use Rattle.zio_trace.specs.Families.{Forest};
ghost use Rattle.zio_trace.specs.Footprints.{FitsTask};
ghost use Rattle.zio_trace.specs.Leaves.{Answer, HaveSizes, LeafOp, LiesOn};
ghost use Rattle.zio_trace.specs.RoundRules.{task_ways};
ghost use Rattle.zio_trace.specs.Rounds.{settles};
ghost use Rattle.zio_trace.specs.SoundRounds.{HasClaim, IsSoundRound};
ghost use Rattle.zio_trace.specs.Tasks.{Find, Got, Leaf, Task, Value};
ghost use Rattle.zio_trace.specs.Together.{round_of};
ghost use Rattle.zio_trace.specs.Underway.{AreAnswered, State};
ghost use Rattle.zio_frames.specs.Frames.{Child, Flying, Stack, asking, fresh_stack, kind_of_task, place_of};
ghost use Rattle.zio_frames.specs.Moves.{AsksNext, Chose, Closed, Does, IsEnded, Opened, Took, WillHave, done_at_once, handed, heard_early, heard_of, next_seat};
ghost use Rattle.zio_frames.specs.OfRound.{FitsWhichever};
ghost use Rattle.zio_frames.specs.Running.{FitsTold, IsRunning, Later, all_heard, all_out, settling_from};
ghost use Rattle.zio_frames.specs.Seats.{asked_at};
ghost use Rattle.zio_frames.specs.Slots.{Heard, Slot};

/// A round begins with a node for each of its trees. A node does something itself, hands its next operation to a child,
/// tells its parent which pointer its value will have, or ends and gives its parent its value; a leaf's operation is
/// done on the images as they are, and where no image is told whatever it answers. Whatever the order of such moves,
/// the round goes on.
pub fn nodes_go_on()
    ensures begins { (t : Terms) (sizes : ℕ → ℕ) (f : Forest) (before : Option Images) (images : Images) →
        IsSoundRound t sizes f → IfSome before (λ b. b ≡ images) →
        Later t sizes f before (all_out (settles f)) (settling_from 0 (settles f)) [] images }
    ensures opens { (t : Terms) (sizes : ℕ → ℕ) (f : Forest) (before : Option Images) (trees : List Slot) (x : Flying)
        (others : List Flying) (s : State) (op : Task) (st : Stack) → IsSoundRound t sizes f →
        IsRunning t sizes f before trees (x ∷ others) s → Does t (Opened op) x.stack st →
        Later t sizes f before trees (record { at = x.at; stack = st } ∷ others) s.entries s.images }
    ensures closes { (t : Terms) (sizes : ℕ → ℕ) (f : Forest) (before : Option Images) (trees : List Slot) (x : Flying)
        (others : List Flying) (s : State) (v : Value) (st : Stack) → IsSoundRound t sizes f →
        IsRunning t sizes f before trees (x ∷ others) s → Does t (Closed v) x.stack st →
        Later t sizes f before trees (record { at = x.at; stack = st } ∷ others) s.entries s.images }
    ensures chooses { (t : Terms) (sizes : ℕ → ℕ) (f : Forest) (before : Option Images) (trees : List Slot) (x : Flying)
        (others : List Flying) (s : State) (c : Choice) (st : Stack) → IsSoundRound t sizes f →
        IsRunning t sizes f before trees (x ∷ others) s → Does t (Chose c) x.stack st →
        AreLawful (sizes_of t.setting.tops) t.used (s.entries ++ c ∷ []) →
        Later t sizes f before trees (record { at = x.at; stack = st } ∷ others) (s.entries ++ c ∷ []) s.images }
    ensures takes { (t : Terms) (sizes : ℕ → ℕ) (f : Forest) (before : Option Images) (trees : List Slot) (x : Flying)
        (others : List Flying) (s : State) (tree : Tree) (free : Bool) (st : Stack) → IsSoundRound t sizes f →
        IsRunning t sizes f before trees (x ∷ others) s → Does t (Took tree free) x.stack st →
        free ≡ are_open t.used (tree_places tree) →
        Later t sizes f before trees (record { at = x.at; stack = st } ∷ others) s.entries s.images }
    ensures hands_out { (t : Terms) (sizes : ℕ → ℕ) (f : Forest) (before : Option Images) (trees : List Slot)
        (x : Flying)
        (others : List Flying) (s : State) (op : Task) → IsSoundRound t sizes f →
        IsRunning t sizes f before trees (x ∷ others) s → is_single (asking x.stack).op ≡ false →
        AsksNext t (asking x.stack) op → Later t sizes f before trees
        (record { at = place_of x (next_seat x.stack); stack = fresh_stack op }
        ∷ record { at = x.at; stack = handed x.stack op } ∷ others) s.entries s.images }
    ensures on_leaf { (t : Terms) (sizes : ℕ → ℕ) (f : Forest) (before : Option Images) (trees : List Slot)
        (at : List ℕ)
        (others : List Flying) (s : State) (act : LeafOp) (a : Answer) (after : Images) → IsSoundRound t sizes f →
        IsRunning t sizes f before trees (record { at = at; stack = fresh_stack (Leaf act) } ∷ others) s →
        AnswersOnLeaf t before act s.images a after → Later t sizes f before trees
        (record { at = at; stack = done_at_once (fresh_stack (Leaf act)) (Leaf act) (Got a) }
        ∷ others) s.entries after }
    ensures tells { (t : Terms) (sizes : ℕ → ℕ) (f : Forest) (before : Option Images) (trees : List Slot) (x q : Flying)
        (others : List Flying) (s : State) (n : ℕ) (c : Child) (pointer : Option Bp) → IsSoundRound t sizes f →
        IsRunning t sizes f before trees (x ∷ q ∷ others) s → WillHave t x.stack.outer pointer →
        slice_get q.stack.children n ≡ Some c → c.told ≡ false → c.ended ≡ false → x.at ≡ place_of q c.seat →
        Later t sizes f before trees (x ∷ record { at = q.at; stack = heard_early q.stack n c pointer }
        ∷ others) s.entries s.images }
    ensures arrives { (t : Terms) (sizes : ℕ → ℕ) (f : Forest) (before : Option Images) (trees : List Slot)
        (x q : Flying)
        (others : List Flying) (s : State) (n : ℕ) (c : Child) (v : Value) → IsSoundRound t sizes f →
        IsRunning t sizes f before trees (x ∷ q ∷ others) s → IsEnded t x.stack v →
        slice_get q.stack.children n ≡ Some c → c.ended ≡ false → x.at ≡ place_of q c.seat →
        FitsTold q.stack c v
        × Later t sizes f before trees (record { at = q.at; stack = heard_of q.stack n c v }
        ∷ others) s.entries s.images }
    ensures settles_tree { (t : Terms) (sizes : ℕ → ℕ) (f : Forest) (before : Option Images) (trees : List Slot)
        (x : Flying)
        (others : List Flying) (s : State) (n : ℕ) (v : Value) → IsSoundRound t sizes f →
        IsRunning t sizes f before trees (x ∷ others) s → IsEnded t x.stack v → x.at ≡ n ∷ [] →
        Later t sizes f before (slice_set trees n (Heard v)) others s.entries s.images }
    ensures in_any_order { (t : Terms) (sizes : ℕ → ℕ) (f : Forest) (before : Option Images) (trees : List Slot)
        (nodes other_order : List Flying) (s : State) → IsRunning t sizes f before trees nodes s →
        IsPermutation nodes other_order →
        Later t sizes f before trees other_order s.entries s.images }
{}

/// Once no node is left, each tree is settled as by the definitions, under each journal whose choices in the round are
/// the entries, and the entries are the choices of what the round asks. Also where no image is told, their values are
/// those that an oracle gives, which agrees with all that was done, and whose answers fit the journal.
pub fn nodes_settle_the_round()
    ensures settled { (t : Terms) (sizes : ℕ → ℕ) (f : Forest) (journal : List Choice) (before : Images)
        (values : List Value)
        (s : State) → IsSoundRound t sizes f → HaveSizes sizes before →
        IsRunning t sizes f (Some before) (all_heard values) [] s → choices_in t.round journal ≡ s.entries →
        (settled : IsSettledByEntries journal t f s.entries (round_of values) before s.images)
        × AreChoicesOf (sizes_of t.setting.tops) t.used settled.asks s.entries }
    ensures answered { (t : Terms) (sizes : ℕ → ℕ) (f : Forest) (journal : List Choice) (before : Option Images)
        (values : List Value) (s : State) → IsRunning t sizes f before (all_heard values) [] s →
        choices_in t.round journal ≡ s.entries → AreAnswered (task_ways journal t) (settles f) s.deeds values }
{}

/// What is known of a node before its parent hears of it: it does the operation that was asked at the child's seat, and
/// is of that kind; once it ended its value fits. An operation at a leaf lies on it. In a round with a claim no place
/// is asked for, and in no other places are taken.
pub fn nodes_hear_what_fits()
    ensures operation { (t : Terms) (sizes : ℕ → ℕ) (f : Forest) (before : Option Images) (trees : List Slot)
        (x q : Flying)
        (others : List Flying) (s : State) (n : ℕ) (c : Child) → IsRunning t sizes f before trees (x ∷ q ∷ others) s →
        slice_get q.stack.children n ≡ Some c → c.ended ≡ false → x.at ≡ place_of q c.seat →
        (asked_at q.stack c.seat ≡ Some x.stack.outer.op) × (c.kind ≡ kind_of_task x.stack.outer.op) }
    ensures value { (t : Terms) (sizes : ℕ → ℕ) (f : Forest) (before : Option Images) (trees : List Slot) (x : Flying)
        (others : List Flying) (s : State) (v : Value) → IsRunning t sizes f before trees (x ∷ others) s →
        IsEnded t x.stack v → FitsWhichever t s.entries x.stack.outer.op v }
    ensures each_journal { (t : Terms) (entries : List Choice) (op : Task) (v : Value) (journal : List Choice) →
        ((a : Ask) → op ≢ Find a) → FitsWhichever t entries op v → FitsTask journal t op v }
    ensures on_leaf { (t : Terms) (sizes : ℕ → ℕ) (f : Forest) (before : Option Images) (trees : List Slot)
        (at : List ℕ)
        (others : List Flying) (s : State) (act : LeafOp) → IsSoundRound t sizes f →
        IsRunning t sizes f before trees (record { at = at; stack = fresh_stack (Leaf act) } ∷ others) s
        → LiesOn sizes act }
    ensures claim { (t : Terms) (sizes : ℕ → ℕ) (f : Forest) (before : Option Images) (trees : List Slot)
        (nodes : List Flying) (s : State) → IsSoundRound t sizes f → IsRunning t sizes f before trees nodes s →
        HasClaim f →
        s.entries ≡ [] }
    ensures takes { (t : Terms) (sizes : ℕ → ℕ) (f : Forest) (before : Option Images) (trees : List Slot) (x : Flying)
        (others : List Flying) (s : State) (tree : Tree) (free : Bool) (st : Stack) → IsSoundRound t sizes f →
        IsRunning t sizes f before trees (x ∷ others) s → Does t (Took tree free) x.stack st → HasClaim f }
{}
