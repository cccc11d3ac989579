ghost use Rattle.std.specs.Prelude.{◌≡◌, ◌≢◌, ◌+◌, ◌++◌, ◌∷◌, ◌⊎◌, [], ℕ, Bool, List, true};
ghost use mathlib.Core.List.{IsPrefix};
ghost use Rattle.zio_types.specs.declared.request.ChildKind.{ChildKind};
ghost use Rattle.zio_types.specs.declared.request.Phase.{Phase};
ghost use Rattle.zio_latch.specs.declared.view.Event.{Event};
ghost use Rattle.zio_latch.specs.declared.view.Event.TheVariants.{Waited};
ghost use Rattle.zio_latch.specs.declared.view.Kid.{Kid};
ghost use Rattle.zio_latch.specs.History.{AreOfOne, AreValues, ChildStep, IsLawful, OwnerStep, count_at, state_of};
ghost use Rattle.zio_latch.specs.Kids.{one_if};
ghost use Rattle.zio_latch.specs.Stalls.{IsParkedStill, IsWokenOnce, is_parked_on, parked_waits, wakes_given};

/// Each wait that parks gets just one wake, for any number of children, kinds and phases: the owner stays parked while
/// the count isn't 0, the value that brings it to 0 wakes it, and no other wake comes before it parks again. So of each
/// kind and phase as many waits parked as values woke the owner, but for the wait in which it is parked.
pub fn each_parked_wait_has_one_wake()
    ensures one { (kind : ChildKind) (phase : Phase) (before since : List Event) (kids : List Kid) →
        IsLawful ((before ++ Waited kind phase kids ∷ []) ++ since) → count_at kind phase before ≢ 0 →
        IsParkedStill kind phase (state_of (before ++ Waited kind phase kids ∷ [])) since
        ⊎ IsWokenOnce kind phase (state_of (before ++ Waited kind phase kids ∷ [])) since }
    ensures counted { (kind : ChildKind) (phase : Phase) (log : List Event) → IsLawful log →
        parked_waits kind phase log ≡ wakes_given kind phase log + one_if (is_parked_on kind phase log) }
    ensures owing { (kind : ChildKind) (phase : Phase) (log : List Event) → IsLawful log →
        is_parked_on kind phase log ≡ true → count_at kind phase log ≢ 0 }
    ensures beginnings { (log since : List Event) → IsLawful (log ++ since) → IsLawful log }
{}

/// A child gives each value once: two histories of one latch that end with it are one history, and tell alike whether
/// it brought the wake. So the child whose value brings the count of a parked wait to 0 is the one whose call is
/// answered with the wake, and while the owner does nothing no other is.
pub fn a_child_is_answered_once()
    ensures same { (phase : Phase) (kind : ChildKind) (n : ℕ) (known other one two : List Event) (a b : Bool) →
        ChildStep phase kind n known one a → ChildStep phase kind n other two b → AreOfOne one two →
        (one ≡ two) × (a ≡ b) }
    ensures woken { (phase : Phase) (kind : ChildKind) (parked since known later : List Event) (woke : Bool) →
        IsLawful (parked ++ since) → (w : IsWokenOnce kind phase (state_of parked) since) →
        ChildStep phase kind w.number known later woke → IsPrefix later (parked ++ since) → woke ≡ true }
    ensures only { (phase : Phase) (kind : ChildKind) (parked since : List Event) →
        (w : IsWokenOnce kind phase (state_of parked) since) → AreValues since →
        (p : Phase) (k : ChildKind) (n : ℕ) (known later : List Event) → (s : ChildStep p k n known later true) →
        IsPrefix parked s.before → IsPrefix later (parked ++ since) → (p ≡ phase) × (k ≡ kind) × (n ≡ w.number) }
{}

/// A history that shows a step isn't one that was known before it: no receipt from before a call serves as its answer.
pub fn a_step_is_news()
    ensures child { (phase : Phase) (kind : ChildKind) (n : ℕ) (known later : List Event) (woke : Bool) →
        ChildStep phase kind n known later woke → later ≢ known }
    ensures owner { (event : Event) (known later : List Event) → OwnerStep event known later → later ≢ known }
{}
