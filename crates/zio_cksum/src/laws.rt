ghost use Rattle.std.specs.Prelude.{◌≡◌, ℕ, ◌%◌, ◌<◌, ◌≤◌, List, Bool, false, sum, length, AllPairs, IfOk, IsTrue};
ghost use Rattle.std.specs.List.{AllByRecursion};
ghost use Rattle.zio_types.specs.declared.place.Place.{Place};
ghost use Rattle.zio_cksum.specs.Blocks.{read_block, repaired, write_piece};
ghost use Rattle.zio_cksum.specs.Frames.{FitSpots, HaveRoom, SameOutside, spots_of};
ghost use Rattle.zio_cksum.specs.Headers.{split_sizes};
ghost use Rattle.zio_cksum.specs.Images.{Images, Setting, Spot};

/// The members of a gang add up to its block, in whole sectors, and don't grow.
pub fn members_add_up()
    ensures total { (size : ℕ) → size % 512 ≡ 0 → sum (split_sizes size) ≡ size }
    ensures whole_sectors { (size : ℕ) → size % 512 ≡ 0 →
        AllByRecursion (λ n. (0 < n) × (n % 512 ≡ 0)) (split_sizes size) }
    ensures falling { (size : ℕ) → size % 512 ≡ 0 → AllPairs (λ a b. b ≤ a) (split_sizes size) }
    ensures smaller { (size : ℕ) → size % 512 ≡ 0 → 512 < size →
        AllByRecursion (λ n. n < size) (split_sizes size) }
    ensures few { (size : ℕ) → length (split_sizes size) ≤ 3 }
{}

/// A read leaves the images as they were outside what it repairs. What it finds is good, and as long as was asked
/// where each copy lies on its leaf.
pub fn reads_keep_the_rest()
    ensures repairs { (s : Setting) (retry : Bool) (bytes : List ℕ) (spots : List Spot) (images : Images) →
        FitSpots spots images →
        SameOutside spots images (repaired s retry bytes spots images) }
    ensures reads { (s : Setting) (repair : Bool) (good : List ℕ → Bool) (images : Images) (len : ℕ)
        (places : List Place) →
        FitSpots (spots_of s places) images →
        SameOutside (spots_of s places) images ((read_block s repair good images len places).images) }
    ensures without_repair { (s : Setting) (good : List ℕ → Bool) (images : Images) (len : ℕ) (places : List Place) →
        (read_block s false good images len places).images ≡ images }
    ensures at_most { (s : Setting) (repair : Bool) (good : List ℕ → Bool) (images : Images) (len : ℕ)
        (places : List Place) →
        IfOk ((read_block s repair good images len places).found) (λ bytes. length bytes ≤ len) }
    ensures size { (s : Setting) (repair : Bool) (good : List ℕ → Bool) (images : Images) (len : ℕ)
        (places : List Place) →
        HaveRoom len (spots_of s places) → FitSpots (spots_of s places) images →
        IfOk ((read_block s repair good images len places).found) (λ bytes. length bytes ≡ len) }
    ensures good { (s : Setting) (repair : Bool) (good : List ℕ → Bool) (images : Images) (len : ℕ)
        (places : List Place) →
        IfOk ((read_block s repair good images len places).found) (λ bytes. IsTrue (good bytes)) }
{}

/// A write leaves the images as they were outside its places.
pub fn writes_keep_the_rest()
    ensures { (s : Setting) (bytes : List ℕ) (places : List Place) (images : Images) →
        FitSpots (spots_of s places) images →
        SameOutside (spots_of s places) images ((write_piece s bytes places images).images) }
{}
