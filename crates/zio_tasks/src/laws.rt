ghost use Rattle.std.specs.Prelude.{◌≡◌, ◌++◌, ◌∷◌, ℕ, List, length};
ghost use Rattle.zio_tasks.specs.declared.hand.Hand.{Hand};
ghost use Rattle.zio_tasks.specs.Hands.{WasHolding, WasOldest, taken};

/// A pass that is alone knows what its queues hold: what it put and hasn't taken. So its put is refused only where that
/// fills the queue, its take finds nothing only where that is nothing, and it takes the oldest of that.
pub fn a_lone_pass_knows_its_queues<T>()
    ensures holds { (n : ℕ) (h : Hand T) → WasHolding n 1 h →
        (rest : List T) × (h.puts ≡ taken h.takes ++ rest) × (length rest ≡ n) }
    ensures oldest { (by : ℕ) (x : T) (h : Hand T) → WasOldest by x 1 h →
        (rest : List T) × (h.puts ≡ taken h.takes ++ x ∷ rest) }
{}
