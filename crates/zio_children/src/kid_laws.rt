//! What the children of a request are in its plan, and what its own work takes from them.

ghost use Rattle.std.specs.Prelude.{◌≡◌, ◌++◌, ℕ, List, [], length, map, true};
ghost use Rattle.std.specs.List.{list_all};
ghost use Rattle.zio_script.specs.Requests.{kind_of};
ghost use Rattle.zio_gang.specs.Attempts.{Child, Own, Pending, Return, Terms, all_bits, bits_of, children_of, closed, insert_children, judged_own};
ghost use Rattle.zio_trace.specs.Families.{Forest};
ghost use Rattle.zio_trace.specs.Plans.{Kids, TaskPlan};
ghost use Rattle.zio_trace.specs.Tasks.{Task, Value};
ghost use Rattle.zio_frames.specs.Answering.{AsksBehindAnswers};
ghost use Rattle.zio_children.specs.RequestKids.{AreRoots, AreToldBy, Fits, KidsUnderWay, child_of, finished_in, is_ended, is_told, kids_by, pointers_of, returns_in, root_numbers, with_kids};
ghost use Rattle.zio_frames.specs.Slots.{AllHeard, AsksBehindSlots, Slot, left_behind_slots};

/// The children of a request are the first operations of its plan, and its own work goes on behind them. What doesn't
/// depend on them may be asked once they are all out; and what depends on their pointers alone, once they all told
/// these. Once all ended, its own work is left, over what their attempts left.
pub fn children_stand_first()
    ensures split { (attempt : ℕ) (forest : Forest) (slots own : List Slot) (f : Kids → TaskPlan Value) →
        length slots ≡ length (root_numbers forest) →
        left_behind_slots (slots ++ own) (with_kids attempt forest f)
        ≡ left_behind_slots slots (with_kids attempt forest (λ k. left_behind_slots own (f k))) }
    ensures out { (attempt : ℕ) (forest : Forest) (slots own : List Slot) (f : Kids → TaskPlan Value) (op : Task) →
        length slots ≡ length (root_numbers forest) →
        ((k : Kids) → AsksBehindSlots own (f k) op) → AsksBehindSlots (slots ++ own) (with_kids attempt forest f) op }
    ensures told { (x : KidsUnderWay) (attempt : ℕ) (forest : Forest) (slots own : List Slot) (f : Kids →
        TaskPlan Value) (op : Task) →
        Fits x slots → AreRoots x forest → list_all is_told x.kids ≡ true →
        ((k : Kids) → AreToldBy x k.returns → AsksBehindAnswers own (f k) op)
        → AsksBehindAnswers (slots ++ own) (with_kids attempt forest f) op }
    ensures heard { (x : KidsUnderWay) (slots : List Slot) → Fits x slots → list_all is_ended x.kids ≡ true
        → AllHeard slots }
    ensures ended { (x : KidsUnderWay) (attempt : ℕ) (forest : Forest) (slots own : List Slot) (f : Kids →
        TaskPlan Value) →
        Fits x slots → AreRoots x forest → list_all is_ended x.kids ≡ true →
        left_behind_slots (slots ++ own) (with_kids attempt forest f) ≡ left_behind_slots own (f (kids_by slots)) }
{}

/// What a request takes from its children is what their parent kept of them: the pointers that its content begins with,
/// and at the end what decides whether it goes again, and with which children.
pub fn children_hand_on_what_is_kept()
    ensures told { (x : KidsUnderWay) (p : Pending) (returns : List Return) → AreToldBy x returns →
        p.kept ≡ map child_of x.kept →
        map (λ (c : Child). c.pointer) (insert_children (children_of returns) p.kept) ≡ pointers_of x }
    ensures pointers { (x : KidsUnderWay) (p : Pending) (slots : List Slot) → Fits x slots →
        list_all is_ended x.kids ≡ true → p.kept ≡ map child_of x.kept →
        map (λ (c : Child). c.pointer) (insert_children (children_of (kids_by slots).returns) p.kept) ≡ pointers_of x }
    ensures judged { (x : KidsUnderWay) (t : Terms) (p : Pending) (own : Own) (slots : List Slot) → Fits x slots →
        list_all is_ended x.kids ≡ true → p.kept ≡ map child_of x.kept →
        judged_own t p (kids_by slots).returns own
        ≡ closed p own (all_bits (kind_of p.request.work) own.error p.request.canfail t.failmode
        (bits_of (returns_in x))) (finished_in x) }
{}
