ghost use Rattle.std.specs.Prelude.{◌≡◌, ◌≢◌, ◌↔◌, ◌++◌, List, Contains};
ghost use Rattle.zio_types.specs.declared.place.Place.{Place};
ghost use Rattle.zio_places.specs.Ordered.{all_placed_in, without};
ghost use Rattle.zio_places.specs.Spaces.{SpaceState, IsSound};
ghost use Rattle.zio_types.specs.Places.{SamePlaces};

/// Which places are live after some were placed, and after one of a sound space was given back.
pub fn live_places_are_a_set()
    ensures placed { (places live : List Place) → SamePlaces (all_placed_in places live) (places ++ live) }
    ensures given_back { (st : SpaceState) → IsSound st → (p q : Place) → Contains st.live p →
        Contains (without p st.live) q ↔ (Contains st.live q × (q ≢ p)) }
{}
