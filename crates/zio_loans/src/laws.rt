ghost use Rattle.std.specs.Prelude.{◌≡◌, ◌≢◌, ◌↔◌, ◌⊎◌, ℕ, List, [], ◌∷◌, ◌++◌, length, Option, Some};
ghost use Rattle.zio_loans.specs.Out.{ComesBack, IsOut, NothingOut, count_out};

/// What is out has one value under a number. What is lent is out under a number that none had, beside all that was out.
/// What comes back is out no longer, and all else is. Nothing is out exactly where none is counted, so a lender whose
/// count is 0 has everything back.
pub fn each_loan_has_a_number_of_its_own<T>()
    ensures one { (out : List (Option T)) (n : ℕ) (x y : T) → IsOut out n x → IsOut out n y → x ≡ y }
    ensures lent { (out : List (Option T)) (x : T) (n : ℕ) (y : T) →
        IsOut (out ++ Some x ∷ []) n y ↔ (IsOut out n y ⊎ ((n ≡ length out) × (x ≡ y))) }
    ensures fresh { (out : List (Option T)) (n : ℕ) (x : T) → IsOut out n x → n ≢ length out }
    ensures back { (old new : List (Option T)) (n : ℕ) (x : T) → ComesBack old n x new → (k : ℕ) (y : T) →
        IsOut new k y ↔ (IsOut old k y × (k ≢ n)) }
    ensures none { (out : List (Option T)) → NothingOut out ↔ (count_out out ≡ 0) }
{}
