ghost use Rattle.std.specs.Prelude.{◌≡◌, ◌+◌, ◌<◌, ◌≤◌, [], Contains, false, IsTrue, List, Option, Some, slice_get, ℕ};
ghost use Rattle.std.specs.List.{AllByRecursion};
ghost use Rattle.zio_types.specs.declared.place.Place.{Place};
ghost use Rattle.zio_types.specs.Choices.{Choice};
ghost use Rattle.zio_types.specs.Places.{is_inside, meets};
ghost use Rattle.zio_cksum.specs.Blocks.{leaves_of, spot_in};
ghost use Rattle.zio_cksum.specs.Frames.{SameOutside};
ghost use Rattle.zio_cksum.specs.Images.{Images, image_of};
ghost use Rattle.zio_gang.specs.Attempts.{Terms};
ghost use Rattle.zio_gang.specs.Trees.{sizes_of};
ghost use Rattle.zio_trace.specs.Families.{Forest};
ghost use Rattle.zio_trace.specs.Labels.{Labelled};
ghost use Rattle.zio_trace.specs.Leaves.{HaveSizes};
ghost use Rattle.zio_trace.specs.Programs.{Deed};
ghost use Rattle.zio_trace.specs.SoundRounds.{HasClaim, IsSoundRound, work_of};
ghost use Rattle.zio_trace.specs.Stopped.{IsOfTasks, places_named, places_taken, spots_touched};
ghost use Rattle.zio_trace.specs.Tasks.{Task, Value};
ghost use Rattle.zio_trace.specs.Underway.{Comes, IsUnderway, State, Work};

/// What was done at any moment, so also where work is stopped in the middle. Each deed is one that some task
/// may do, whatever lawful journal comes; a sound round has changed its images only at places of blocks that
/// its requests name and at places that were found for it; and the latter are inside their tops and meet no
/// place that is in use. So the copies at a place that is in use, and meets none of a named block, stay as
/// they were. In a round with a claim no place is asked for.
pub fn what_was_done_stays_within()
    ensures deeds { (w : Work) (before : Option Images) (s : State) (journal : List Choice) → IsUnderway w before s →
        Comes w s.entries journal →
        AllByRecursion (λ (d : Deed (Labelled Task) Value). IsOfTasks journal w d.op.op) s.deeds }
    ensures images { (t : Terms) (sizes : ℕ → ℕ) (f : Forest) (before : Images) (s : State) →
        IsSoundRound t sizes f → HaveSizes sizes before → IsUnderway (work_of t sizes f) (Some before) s →
        SameOutside (spots_touched t f s.entries) before s.images }
    ensures inside { (w : Work) (before : Option Images) (s : State) (p : Place) → IsUnderway w before s →
        Contains (places_taken s.entries) p → IsTrue (is_inside (sizes_of w.terms.setting.tops) p) }
    ensures free { (w : Work) (before : Option Images) (s : State) (p q : Place) → IsUnderway w before s →
        Contains (places_taken s.entries) p → Contains w.terms.used q → meets p q ≡ false }
    ensures kept { (t : Terms) (sizes : ℕ → ℕ) (f : Forest) (before : Images) (s : State) (p : Place)
        (leaf at : ℕ) → IsSoundRound t sizes f → HaveSizes sizes before →
        IsUnderway (work_of t sizes f) (Some before) s →
        Contains t.used p → IsTrue (is_inside (sizes_of t.setting.tops) p) →
        ((q : Place) → Contains (places_named f) q → meets p q ≡ false) →
        Contains (leaves_of t.setting p) leaf → (spot_in p leaf).at ≤ at →
        at < (spot_in p leaf).at + (spot_in p leaf).span →
        slice_get (image_of s.images leaf) at ≡ slice_get (image_of before leaf) at }
    ensures claim { (t : Terms) (sizes : ℕ → ℕ) (f : Forest) (before : Option Images) (s : State) →
        IsSoundRound t sizes f → IsUnderway (work_of t sizes f) before s → HasClaim f → s.entries ≡ [] }
{}
