ghost use Rattle.std.specs.Prelude.{◌≡◌, ◌+◌, ◌==◌, ◌&&◌, ◌++◌, ◌∷◌, [], max, false, true, ℕ, IsTrue, List, None, Option};
ghost use Rattle.zio_types.specs.declared.error.Errno.{Errno};
ghost use Rattle.zio_types.specs.declared.request.Bits.{Bits};
ghost use Rattle.zio_types.specs.declared.request.ChildKind.{ChildKind};
ghost use Rattle.zio_types.specs.declared.request.Phase.{Phase};
ghost use Rattle.zio_types.specs.declared.request.Phase.TheVariants.{Ready, Done};
ghost use Rattle.zio_types.specs.Errors.{rank, worst_error};
ghost use Rattle.zio_types.specs.Machine.{Child, CountEvent, Machine, after, BecameDone, BecameReady, count_of, is_count, is_stall, marked_at, may_happen, new_child, one_if, owes, owes_at, stall_is_open, wakes};

/// Errors may be joined in any order and more than once: what comes out has the greatest rank of all.
pub fn errors_join_in_any_order()
    ensures greatest { (a b : Option Errno) → rank (worst_error a b) ≡ max (rank a) (rank b) }
    ensures associative { (a b c : Option Errno) →
        worst_error a (worst_error b c) ≡ worst_error (worst_error a b) c }
    ensures commutative { (a b : Option Errno) → worst_error a b ≡ worst_error b a }
    ensures idempotent { (a : Option Errno) → worst_error a a ≡ a }
{}

/// A child's mark lowers the count that lacked it by one, and no other; a new child raises those that it is to lower.
pub fn counts_follow_the_marks()
    ensures falls { (kind : ChildKind) (phase : Phase) (n : ℕ) (children : List Child) →
        IsTrue (owes_at kind phase n children) →
        count_of kind phase children ≡ count_of kind phase (marked_at phase n children) + 1 }
    ensures others { (kind : ChildKind) (phase : Phase) (n : ℕ) (children : List Child) →
        IsTrue (owes_at kind phase n children) → (other : ChildKind) (mark : Phase) →
        is_count kind phase (record { kind = other; phase = mark }) ≡ false →
        count_of other mark (marked_at phase n children) ≡ count_of other mark children }
    ensures rises { (kind : ChildKind) (other : ChildKind) (mark : Phase) (children : List Child) →
        count_of other mark (children ++ new_child kind ∷ [])
        ≡ count_of other mark children + one_if (owes other mark (new_child kind)) }
{}

/// A request is woken exactly where the count on which it stalls comes to 0: never before, and never too late.
pub fn a_wake_ends_its_own_stall()
    ensures ready { (m : Machine) (kind : ChildKind) (n : ℕ) →
        IsTrue (owes_at kind Ready n m.children) →
        wakes (BecameReady kind n) m ≡ (is_stall kind Ready m.stall && (count_of kind Ready m.children == 1)) }
    ensures done { (m : Machine) (kind : ChildKind) (n : ℕ) (error : Option Errno) (bits : Bits) →
        IsTrue (owes_at kind Done n m.children) →
        wakes (BecameDone kind n error bits) m ≡ (is_stall kind Done m.stall && (count_of kind Done m.children == 1)) }
    ensures cleared { (m : Machine) (event : CountEvent) → wakes event m ≡ true → (after event m).stall ≡ None }
    ensures open_still { (m : Machine) (event : CountEvent) → IsTrue (may_happen event m) →
        stall_is_open m ≡ true → stall_is_open (after event m) ≡ true }
{}
