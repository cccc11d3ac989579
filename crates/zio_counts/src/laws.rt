ghost use Rattle.std.specs.Prelude.{◌≡◌, ◌<◌, ℕ, IsTrue};
ghost use Rattle.zio_types.specs.declared.request.ChildKind.{ChildKind};
ghost use Rattle.zio_types.specs.declared.request.Phase.{Phase};
ghost use Rattle.zio_types.specs.Machine.{Machine, owes_at};
ghost use Rattle.zio_counts.specs.Tallies.{counted, Shows, Tally};

/// Every tally is that of a machine, and each count that isn't 0 that of a child: what the calls of `Counts` promise
/// of machines is promised of every state and every event.
pub fn every_tally_shows_a_machine()
    ensures machine { (tally : Tally) → (m : Machine) × Shows tally m }
    ensures child { (tally : Tally) (m : Machine) → Shows tally m → (kind : ChildKind) (phase : Phase) →
        0 < counted kind phase tally → (n : ℕ) × IsTrue (owes_at kind phase n m.children) }
{}
