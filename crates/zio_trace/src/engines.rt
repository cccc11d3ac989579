ghost use Rattle.std.specs.Prelude.{◌∷◌, ◌++◌, ◌≡◌, ◌≤◌, [], List, Some, false, suc, true, ℕ};
ghost use Rattle.std.specs.List.{AllByRecursion};
ghost use Rattle.zio_types.specs.Choices.{Choice};
ghost use Rattle.zio_gang.specs.Attempts.{Terms};
ghost use Rattle.zio_trace.specs.Calls.{answered_at};
ghost use Rattle.zio_trace.specs.Clearings.{Free, Seat};
ghost use Rattle.zio_trace.specs.Conflicts.{TaskLies, is_single};
ghost use Rattle.zio_trace.specs.Engines.{Clear, Going, reach_in};
ghost use Rattle.zio_trace.specs.Entries.{any_rules, any_ways};
ghost use Rattle.zio_trace.specs.Families.{Forest};
ghost use Rattle.zio_trace.specs.Footprints.{Within};
ghost use Rattle.zio_trace.specs.Going.{IsFresh, Slot, nth_asked};
ghost use Rattle.zio_trace.specs.Labels.{Earlier, IsIn, Labelled, labelled, same_place, ways_at};
ghost use Rattle.zio_trace.specs.Oracles.{Sure};
ghost use Rattle.zio_trace.specs.Passing.{Copies, Passes};
ghost use Rattle.zio_trace.specs.Plans.{plan};
ghost use Rattle.zio_trace.specs.Programs.{Asks, Deed, Ends, Program};
ghost use Rattle.zio_trace.specs.Receipts.{Gave, Has};
ghost use Rattle.zio_trace.specs.Rounds.{Round, plan_round};
ghost use Rattle.zio_trace.specs.Rules.{IsDoneBy};
ghost use Rattle.zio_trace.specs.Tasks.{Task, Value};

/// How an engine goes through a round, node by node, in any order. It begins with nothing in flight; a node, or the
/// round itself, hands out its next operation as a new node; a node does a single operation, which doesn't conflict
/// with what was done already and stands behind it; a node that ended gives its value to the node, or the round, that
/// waits for it. Once nothing is in flight and the round's program has ended, the deeds are those of the round.
pub fn an_engine_goes_through_a_round()
    ensures begins { (t : Terms) (sizes : ℕ → ℕ) (shared : List Copies) (f : Forest)
        → Going t sizes shared f [] [] (labelled [] 0 (plan_round f)) 0 }
    ensures hands_out { (t : Terms) (sizes : ℕ → ℕ) (shared : List Copies) (f : Forest)
        (ds : List (Deed (Labelled Task) Value))
        (s child : Slot Task Value) (slots : List (Slot Task Value)) (root : Program (Labelled Task) Value Round)
        (outs : ℕ) → Going t sizes shared f ds (s ∷ slots) root outs →
        Sure (ways_at (any_ways t)) ds (λ o. nth_asked o s.outs s.rest ≡ Some child.op) →
        IsFresh (any_ways t) ds child
        → Going t sizes shared f ds (child ∷ record s { outs = suc s.outs } ∷ slots) root outs }
    ensures round_hands_out { (t : Terms) (sizes : ℕ → ℕ) (shared : List Copies) (f : Forest)
        (ds : List (Deed (Labelled Task) Value))
        (child : Slot Task Value) (slots : List (Slot Task Value)) (root : Program (Labelled Task) Value Round)
        (outs : ℕ) → Going t sizes shared f ds slots root outs →
        Sure (ways_at (any_ways t)) ds (λ o. nth_asked o outs root ≡ Some child.op) → IsFresh (any_ways t) ds child →
        Going t sizes shared f ds (child ∷ slots) root (suc outs) }
    ensures does { (t : Terms) (sizes : ℕ → ℕ) (shared : List Copies) (f : Forest)
        (ds : List (Deed (Labelled Task) Value))
        (s : Slot Task Value) (slots : List (Slot Task Value)) (root : Program (Labelled Task) Value Round) (outs : ℕ)
        (x : Labelled Task) (more : Value → Program (Labelled Task) Value Value) (v : Value) →
        Going t sizes shared f ds (s ∷ slots) root outs → s.outs ≡ 0 → s.rest ≡ Asks x more → is_single x.op ≡ true →
        TaskLies sizes x.op →
        AllByRecursion (λ (e : Deed (Labelled Task) Value). Earlier x e.op → Passes t.setting shared e.op x) ds →
        Going t sizes shared f (ds ++ record { op = x; answer = v } ∷ []) (record s { rest = more v }
        ∷ slots) root outs }
    ensures arrives { (t : Terms) (sizes : ℕ → ℕ) (shared : List Copies) (f : Forest)
        (ds : List (Deed (Labelled Task) Value))
        (s q : Slot Task Value) (slots : List (Slot Task Value)) (root : Program (Labelled Task) Value Round) (outs : ℕ)
        (v : Value) (n m : ℕ) → Going t sizes shared f ds (s ∷ q ∷ slots) root outs → s.rest ≡ Ends v → q.outs ≡ suc m →
        n ≤ m → Sure (ways_at (any_ways t)) ds (λ o. nth_asked o n q.rest ≡ Some s.op) →
        Going t sizes shared f ds (record { op = q.op; rest = answered_at n v q.rest; outs = m } ∷ slots) root outs }
    ensures round_hears { (t : Terms) (sizes : ℕ → ℕ) (shared : List Copies) (f : Forest)
        (ds : List (Deed (Labelled Task) Value))
        (s : Slot Task Value) (slots : List (Slot Task Value)) (root : Program (Labelled Task) Value Round) (v : Value)
        (n m : ℕ) → Going t sizes shared f ds (s ∷ slots) root (suc m) → s.rest ≡ Ends v → n ≤ m →
        Sure (ways_at (any_ways t)) ds (λ o. nth_asked o n root ≡ Some s.op) →
        Going t sizes shared f ds slots (answered_at n v root) m }
    ensures to_front { (t : Terms) (sizes : ℕ → ℕ) (shared : List Copies) (f : Forest)
        (ds : List (Deed (Labelled Task) Value))
        (front : List (Slot Task Value)) (s : Slot Task Value) (rest : List (Slot Task Value))
        (root : Program (Labelled Task) Value Round) (outs : ℕ) →
        Going t sizes shared f ds (front ++ s ∷ rest) root outs →
        Going t sizes shared f ds (s ∷ front ++ rest) root outs }
    ensures from_front { (t : Terms) (sizes : ℕ → ℕ) (shared : List Copies) (f : Forest)
        (ds : List (Deed (Labelled Task) Value))
        (front : List (Slot Task Value)) (s : Slot Task Value) (rest : List (Slot Task Value))
        (root : Program (Labelled Task) Value Round) (outs : ℕ) →
        Going t sizes shared f ds (s ∷ front ++ rest) root outs →
        Going t sizes shared f ds (front ++ s ∷ rest) root outs }
    ensures ends { (t : Terms) (sizes : ℕ → ℕ) (shared : List Copies) (f : Forest)
        (ds : List (Deed (Labelled Task) Value)) (value : Round)
        (outs : ℕ) → Going t sizes shared f ds [] (Ends value) outs
        → IsDoneBy (any_rules t sizes) (Passes t.setting shared) (plan_round f) ds value }
{}

/// Nodes in flight stay clear of what was done and of one another: where a node hands out an operation that stays
/// within its own and is free of those under way within it, where a node does its single operation, and where a node is
/// gone. So what is done never conflicts with a deed that stands behind it.
pub fn nodes_in_flight_stay_clear()
    ensures in_order { (journal : List Choice) (t : Terms) (shared : List Copies)
        (ds : List (Deed (Labelled Task) Value)) (s : Seat Task)
        (seats : List (Seat Task)) → Clear journal t shared ds (s ∷ seats) → Within journal t s.op.op s.op.op →
        AllByRecursion (λ (e : Deed (Labelled Task) Value). Earlier s.op e.op → Passes t.setting shared e.op s.op) ds }
    ensures does { (journal : List Choice) (t : Terms) (shared : List Copies) (ds : List (Deed (Labelled Task) Value))
        (s : Seat Task)
        (v : Value) (seats : List (Seat Task)) → Clear journal t shared ds (s ∷ seats) →
        Within journal t s.op.op s.op.op →
        Clear journal t shared (ds ++ record { op = s.op; answer = v } ∷ []) (s ∷ seats) }
    ensures hands_out { (journal : List Choice) (t : Terms) (shared : List Copies)
        (ds : List (Deed (Labelled Task) Value)) (s : Seat Task)
        (op : Task) (seats : List (Seat Task)) → Clear journal t shared ds (s ∷ seats) →
        ((b : Task) → Within journal t op b → Within journal t s.op.op b) →
        AllByRecursion (λ (q : Seat Task). (n : ℕ) (below : List ℕ) → IsIn s.op.at n below q.op.at →
        Free (reach_in journal t shared) q.op (record { at = s.op.at ++ s.next ∷ []; op = op })) seats →
        Clear journal t shared ds (record { op = record { at = s.op.at ++ s.next ∷ []; op = op }; next = 0 }
        ∷ record { op = s.op; next = suc s.next } ∷ seats) }
    ensures gone { (journal : List Choice) (t : Terms) (shared : List Copies) (ds : List (Deed (Labelled Task) Value))
        (s : Seat Task)
        (seats : List (Seat Task)) → Clear journal t shared ds (s ∷ seats) → Clear journal t shared ds seats }
{}

/// The same over a node's own deeds, as workers have them by their receipts: a node begins with none, has those of a
/// call that gave its answer, whatever their order, and once its plan has ended it gave its own answer by all of them.
pub fn nodes_know_by_their_own_deeds()
    ensures begun { (t : Terms) (whole : Program (Labelled Task) Value Value) → Has (any_ways t) [] whole whole }
    ensures itself { (t : Terms) (op : Labelled Task) (v : Value) → is_single op.op ≡ true →
        Gave (any_ways t) op v (record { op = op; answer = v } ∷ []) }
    ensures more { (t : Terms) (ds es : List (Deed (Labelled Task) Value)) (x : Labelled Task)
        (whole rest : Program (Labelled Task) Value Value) (n : ℕ) (v : Value) → Has (any_ways t) ds whole rest →
        Gave (any_ways t) x v es → Sure (ways_at (any_ways t)) ds (λ o. nth_asked o n rest ≡ Some x) →
        AllByRecursion (λ (d : Deed (Labelled Task) Value).
        AllByRecursion (λ (e : Deed (Labelled Task) Value). same_place d.op e.op ≡ false) es) ds →
        Has (any_ways t) (ds ++ es) whole (answered_at n v rest) }
    ensures ended { (t : Terms) (ds : List (Deed (Labelled Task) Value)) (op : Labelled Task) (v : Value) →
        is_single op.op ≡ false → Has (any_ways t) ds (labelled op.at 0 (plan t op.op)) (Ends v) →
        Gave (any_ways t) op v ds }
{}
