//! What a round's books tell once it is over.

ghost use Rattle.std.specs.Prelude.{◌≡◌, ◌++◌, ◌⊎◌, ◌↔◌, ℕ, List as Seq, [], true, Contains, IsPermutation, IsTrue, Option};
ghost use Rattle.std.specs.List.{AllByRecursion};
ghost use Rattle.zio_types.specs.declared.place.Place.{Place as SeenPlace};
ghost use Rattle.zio_types.specs.declared.place.Top.{Top as SeenTop};
ghost use Rattle.zio_types.specs.Places.{are_open, is_inside};
ghost use Rattle.zio_places.specs.Spaces.{SpaceState};
ghost use Rattle.zio_cksum.specs.Images.{Images};
ghost use Rattle.zio_gang.specs.Attempts.{Terms};
ghost use Rattle.zio_gang.specs.Trees.{sizes_of};
ghost use Rattle.zio_trace.specs.Families.{Forest};
ghost use Rattle.zio_trace.specs.SoundRounds.{IsSoundRound};
ghost use Rattle.zio_trace.specs.Tasks.{Value};
ghost use Rattle.zio_trace.specs.Together.{round_of};
ghost use Rattle.zio_frames.specs.Running.{all_heard};
ghost use Rattle.slab.specs.Slab.{Slab};
ghost use Rattle.zio_turns.specs.Desks.{IsDeskAt};
ghost use Rattle.zio_turns.specs.Ledgers.{AreBehindChildren, AreOnce, Ending, all_ended, found_so_far, freed_in, made_in};
ghost use Rattle.zio_turns.specs.Rounds.{SoFar};
ghost use Rattle.zio_turns.specs.Sizes.{FitsBodies};
ghost use Rattle.zio_turns.specs.UnderTrees.{IsOver};
ghost use Rattle.zio_turns.specs.declared.entry.TiedNode.{TiedNode as SeenEntry};

use zio_staged::NodeFacts;

/// The requests that finished in a round that is over are those of its trees' values. Each place that was found, or is
/// of a block that a free named, was given back or is in a block that was made, and these were found: they lie inside
/// the tops, are free beside the places in use at the round's start, and no two of them meet. So live are then, where
/// none of the places in use stands twice among these, those in use that are in no block that was freed, and those of
/// the blocks that were made. Each request that finished did so behind all requests of the round that stand under it.
/// It has no bytes, or it reads a block and has as many as all bodies of that are together; where it reads a block and
/// has no error, it has these.
pub fn books_tell_the_end<N: NodeFacts>()
    ensures requests { (t : Terms) (sizes : ℕ → ℕ) (f : Forest) (before : Option Images) (s : SoFar)
        (slab : Slab (SeenEntry N))
        (values : Seq Value) → IsOver N.nodes t sizes f before s slab → s.trees ≡ all_heard values →
        IsPermutation (all_ended s.books.done) (round_of values).ended }
    ensures children { (t : Terms) (sizes : ℕ → ℕ) (f : Forest) (before : Option Images) (s : SoFar)
        (slab : Slab (SeenEntry N)) →
        IsOver N.nodes t sizes f before s slab → AreBehindChildren f [] s.books.done }
    ensures sizes { (t : Terms) (sizes : ℕ → ℕ) (f : Forest) (before : Option Images) (s : SoFar)
        (slab : Slab (SeenEntry N)) →
        IsOver N.nodes t sizes f before s slab →
        AllByRecursion (λ (x : Ending). FitsBodies x.request x.ended) s.books.done }
    ensures places { (t : Terms) (sizes : ℕ → ℕ) (f : Forest) (before : Option Images) (s : SoFar)
        (slab : Slab (SeenEntry N)) →
        IsOver N.nodes t sizes f before s slab →
        IsPermutation (found_so_far s.entries s.books.claimed ++ freed_in s.books.done)
        (s.books.back ++ made_in s.books.done) }
    ensures made { (t : Terms) (sizes : ℕ → ℕ) (f : Forest) (before : Option Images) (s : SoFar)
        (slab : Slab (SeenEntry N)) →
        IsOver N.nodes t sizes f before s slab →
        (others : Seq SeenPlace)
        × IsPermutation (found_so_far s.entries s.books.claimed) (made_in s.books.done ++ others) }
    ensures apart { (t : Terms) (sizes : ℕ → ℕ) (f : Forest) (before : Option Images) (s : SoFar)
        (slab : Slab (SeenEntry N))
        (tops : Seq SeenTop) (st : SpaceState) → IsOver N.nodes t sizes f before s slab →
        IsDeskAt t s.entries s.books.claimed s.books.back tops st
        → are_open t.used (made_in s.books.done) ≡ true }
    ensures inside { (t : Terms) (sizes : ℕ → ℕ) (f : Forest) (before : Option Images) (s : SoFar)
        (slab : Slab (SeenEntry N))
        (tops : Seq SeenTop) (st : SpaceState) → IsOver N.nodes t sizes f before s slab →
        IsDeskAt t s.entries s.books.claimed s.books.back tops st →
        AllByRecursion (λ (p : SeenPlace). IsTrue (is_inside (sizes_of t.setting.tops) p)) (made_in s.books.done) }
    ensures live { (t : Terms) (sizes : ℕ → ℕ) (f : Forest) (before : Option Images) (s : SoFar)
        (slab : Slab (SeenEntry N))
        (tops : Seq SeenTop) (st : SpaceState) → IsSoundRound t sizes f →
        IsOver N.nodes t sizes f before s slab →
        IsDeskAt t s.entries s.books.claimed s.books.back tops st → AreOnce t.used → (p : SeenPlace)
        → Contains st.live p
        ↔ ((Contains t.used p × ¬ Contains (freed_in s.books.done) p) ⊎ Contains (made_in s.books.done) p) }
{}
