// What the write of a part as a value has to do with tasks.

ghost use Rattle.std.specs.Prelude.{◌≡◌, ◌∷◌, ◌≤◌, ℕ, suc, false, List, Option, Some, length};
ghost use Rattle.zio_blkptr.specs.declared.pointer.SumKind.{SumKind};
ghost use Rattle.zio_cksum.specs.Images.{Images};
ghost use Rattle.zio_gang.specs.Attempts.{Pending, Terms, writing_of};
ghost use Rattle.zio_trace.specs.Calls.{NextIs};
ghost use Rattle.zio_trace.specs.Conflicts.{is_single};
ghost use Rattle.zio_trace.specs.Going.{nth_asked};
ghost use Rattle.zio_trace.specs.Labels.{Labelled};
ghost use Rattle.zio_trace.specs.Plans.{plan_write};
ghost use Rattle.zio_trace.specs.Tasks.{Task, WritePart};
ghost use Rattle.zio_trace.specs.Underway.{Flight, IsUnderway, Known, State, Work, told_of};
ghost use Rattle.zio_trace.specs.Views.{bare};
ghost use Rattle.zio_parts.specs.PartTasks.{AreToldByParts};
ghost use Rattle.zio_parts.specs.Parts.{plan_of_part};
ghost use Rattle.zio_parts.specs.PartWrites.{stored_pointer};

/// The plan that a part's write goes by is that of a task that writes a part, and of a request that writes its block:
/// its members are parts with one level less. A part of one sector needs no level.
pub fn parts_are_written_by_their_plans()
    ensures levels { (t : Terms) (attempt : ℕ) (p : Pending) (sum : SumKind) (copies levels : ℕ) (path bytes : List ℕ) →
        plan_write t attempt p sum copies (suc levels) path bytes
        ≡ plan_of_part (writing_of t attempt p sum copies) (WritePart attempt p sum copies levels) path bytes }
    ensures sector { (t : Terms) (attempt : ℕ) (p : Pending) (sum : SumKind) (copies : ℕ) (member : List ℕ → List ℕ
        → Task)
        (path bytes : List ℕ) → length bytes ≤ 512 →
        plan_write t attempt p sum copies 0 path bytes
        ≡ plan_of_part (writing_of t attempt p sum copies) member path bytes }
{}

/// What a node asks behind parts that are out, whatever parts with the pointers that they told come of these, is known
/// to be what it asks next.
pub fn what_is_asked_behind_parts_is_known()
    ensures { (w : Work) (before : Option Images) (s : State) (x : Flight) (others : List Flight) (op : Task) →
        IsUnderway w before s → s.flights ≡ x ∷ others → is_single x.op.op ≡ false → AreToldByParts x.outs →
        NextIs stored_pointer (told_of x.outs) (bare x.rest) op →
        Known w s (λ o. (y : Labelled Task) × (nth_asked o (length x.outs) x.rest ≡ Some y) × (y.op ≡ op)) }
{}
