ghost use Rattle.std.specs.Prelude.{◌∷◌, ◌++◌, ◌≡◌, ◌≤◌, [], List, Option, Some, length, suc, ℕ};
ghost use Rattle.zio_blkptr.specs.declared.pointer.Bp.{Bp};
ghost use Rattle.zio_trace.specs.Calls.{NextIs, answered_at};
ghost use Rattle.zio_trace.specs.Going.{nth_asked};
ghost use Rattle.zio_trace.specs.Labels.{Labelled, labelled};
ghost use Rattle.zio_trace.specs.Oracles.{Oracle};
ghost use Rattle.zio_trace.specs.Programs.{Ends, Program};
ghost use Rattle.zio_trace.specs.Tasks.{Task, Value};
ghost use Rattle.zio_trace.specs.Views.{
  NumberedFrom,
  Out,
  StandFirst,
  ToldTrue,
  bare,
  left_behind,
  nth,
  without,
};

/// What a node shows of the rest of its program, without places in the round, is what it stands for: an answer that is
/// put in shows as put in; what has ended shows as ended; and what it shows as the next operation, whatever those that
/// are out are answered, is the next that is asked, at the next number.
pub fn a_node_shows_the_rest_of_its_program()
    ensures itself { (at : List ℕ) (n : ℕ) (p : Program Task Value Value) → bare (labelled at n p) ≡ p }
    ensures answered { (n : ℕ) (v : Value) (p : Program (Labelled Task) Value Value) →
        bare (answered_at n v p) ≡ answered_at n v (bare p) }
    ensures ended { (p : Program (Labelled Task) Value Value) (v : Value) → bare p ≡ Ends v → p ≡ Ends v }
    ensures next { (early : Value → Value) (o : Oracle (Labelled Task) Value) (outs : List (Option Value))
        (p : Program (Labelled Task) Value Value) (op : Task) → NextIs early outs (bare p) op →
        ToldTrue early o outs p → (x : Labelled Task) × (nth_asked o (length outs) p ≡ Some x) × (x.op ≡ op) }
    ensures numbered { (o : Oracle (Labelled Task) Value) (k : ℕ) (at : List ℕ) (n : ℕ)
        (p : Program (Labelled Task) Value Value) (x : Labelled Task) → NumberedFrom at n (left_behind o k p) →
        nth_asked o k p ≡ Some x → (x.at ≡ at ++ n ∷ []) × NumberedFrom at (suc n) (left_behind o (suc k) p) }
{}

/// The operations of a node that are out stand first in the rest of its program, in their order: so the nth of them is
/// the nth that is asked, one more stands behind them, and one that is answered leaves the others in their order.
pub fn operations_that_are_out_stand_first()
    ensures nth { (o : Oracle (Labelled Task) Value) (outs : List (Out Task (Option Bp)))
        (p : Program (Labelled Task) Value Value)
        (n : ℕ) (c : Out Task (Option Bp)) → StandFirst o outs p → nth n outs ≡ Some c → nth_asked o n p ≡ Some c.op }
    ensures more { (o : Oracle (Labelled Task) Value) (outs : List (Out Task (Option Bp)))
        (p : Program (Labelled Task) Value Value)
        (c : Out Task (Option Bp)) → StandFirst o outs p → nth_asked o (length outs) p ≡ Some c.op →
        StandFirst o (outs ++ c ∷ []) p }
    ensures answered { (o : Oracle (Labelled Task) Value) (outs : List (Out Task (Option Bp)))
        (p : Program (Labelled Task) Value Value) (n : ℕ) (c : Out Task (Option Bp)) (v : Value) → StandFirst o outs p →
        nth n outs ≡ Some c → o.answer c.op ≡ v → StandFirst o (without n outs) (answered_at n v p) }
    ensures behind { (o : Oracle (Labelled Task) Value) (n m : ℕ) (v : Value) (p : Program (Labelled Task) Value Value)
        (x : Labelled Task) → nth_asked o n p ≡ Some x → o.answer x ≡ v → n ≤ m →
        left_behind o m (answered_at n v p) ≡ left_behind o (suc m) p }
{}
