ghost use Rattle.std.specs.Prelude.{◌≡◌, ◌≢◌, ◌∷◌, [], List, map, take};
ghost use Rattle.std.specs.List.{AllByRecursion};
ghost use Rattle.zio_gang.specs.Attempts.{returned_to};
ghost use Rattle.zio_plain.specs.Posts.{AreBehindChildren, AreHandedBy, met_after};
ghost use Rattle.zio_plain.specs.Waits.{pending_of, return_of};
ghost use Rattle.zio_plain.specs.declared.waiting.Handed.{Handed as SeenHanded};
ghost use Rattle.zio_plain.specs.declared.waiting.Waiting.{Waiting as SeenWaiting};

/// What the children of a request hand to it is what was handed on last.
pub fn children_hand_on_last()
    ensures { (met : List SeenWaiting) (root w : SeenWaiting) (ws : List SeenWaiting) (hs : List SeenHanded) →
        AreBehindChildren met (w ∷ ws) → met_after met (w ∷ ws) ≡ root ∷ []
        → AllByRecursion (λ (q : SeenWaiting). q.request.number ≢ w.request.number) ws → AreHandedBy hs met
        → returned_to (pending_of w) (map return_of hs) ≡ map return_of (take w.unfinished hs) }
{}
