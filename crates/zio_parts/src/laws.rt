ghost use Rattle.std.specs.Prelude.{◌≡◌, ◌≤◌, ℕ, Bool, List, Option, length};
ghost use Rattle.zio_types.specs.declared.error.Errno.{Errno};
ghost use Rattle.zio_types.specs.declared.place.Place.{Place};
ghost use Rattle.zio_types.specs.declared.place.Top.{Top};
ghost use Rattle.zio_blkptr.specs.declared.pointer.Bp.{Bp};
ghost use Rattle.zio_gang.specs.Attempts.{Terms};
ghost use Rattle.zio_trace.specs.Calls.{NextIs, answered_at};
ghost use Rattle.zio_trace.specs.CopyPrograms.{Program, block_reading, piece_writing};
ghost use Rattle.zio_trace.specs.Leaves.{Answer, LeafOp};
ghost use Rattle.zio_trace.specs.Plans.{plan};
ghost use Rattle.zio_trace.specs.Programs.{Ends};
ghost use Rattle.zio_trace.specs.Tasks.{Got, Leaf, ReadCopies, Test, Value, WriteCopies, Wrote, good_by, got};
ghost use Rattle.zio_trace.specs.Underway.{early};
ghost use Rattle.zio_parts.specs.Answered.{AsksBehind};
ghost use Rattle.zio_parts.specs.Copies.{AreMirrored, copies_at};
ghost use Rattle.zio_parts.specs.LeafPlans.{reading_plan, writing_plan};

use crate::copies::LEAF_COPIES_MAX;
use zio_types::COPIES_MAX;

/// Three places with at most four leaves each have no more copies than can be out together.
pub fn copies_are_few()
    ensures { (tops : List Top) (places : List Place) → AreMirrored tops places → length places ≤ COPIES_MAX →
        length (copies_at tops places) ≤ LEAF_COPIES_MAX }
{}

/// What is left of a block's read or a piece's write, as a program of leaf operations, is what is left of its
/// task's plan: the whole plan is that of the whole program, it asks next what the program asks, an answer that is
/// put in shows as put in, and it ends as the program does.
pub fn leaf_work_shows_in_its_plan()
    ensures reads { (t : Terms) (repair : Bool) (test : Test) (len : ℕ) (places : List Place) →
        plan t (ReadCopies repair test len places)
        ≡ reading_plan (block_reading t.setting repair (good_by test) len places) }
    ensures writes { (t : Terms) (bytes : List ℕ) (places : List Place) →
        plan t (WriteCopies bytes places) ≡ writing_plan (piece_writing t.setting bytes places) }
    ensures next_read { (outs : List (Option (Option Bp))) (p : Program Answer) (op : LeafOp) →
        AsksBehind (length outs) p op → NextIs early outs (reading_plan p) (Leaf op) }
    ensures next_write { (outs : List (Option (Option Bp))) (p : Program (Option Errno)) (op : LeafOp) →
        AsksBehind (length outs) p op → NextIs early outs (writing_plan p) (Leaf op) }
    ensures read_answered { (n : ℕ) (v : Value) (p : Program Answer) →
        answered_at n v (reading_plan p) ≡ reading_plan (answered_at n (got v) p) }
    ensures write_answered { (n : ℕ) (v : Value) (p : Program (Option Errno)) →
        answered_at n v (writing_plan p) ≡ writing_plan (answered_at n (got v) p) }
    ensures read_ended { (answer : Answer) → reading_plan (Ends answer) ≡ Ends (Got answer) }
    ensures write_ended { (error : Option Errno) → writing_plan (Ends error) ≡ Ends (Wrote error) }
{}
