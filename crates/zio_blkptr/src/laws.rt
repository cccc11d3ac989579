ghost use Rattle.std.specs.Prelude.{◌≡◌, ℕ, ◌^◌, ◌<◌, ◌↔◌, List, length, replicate, slice_index, Some, None, IsSome, IsTrue};
ghost use Rattle.zio_blkptr.specs.declared.pointer.Bp.{Bp};
ghost use Rattle.zio_blkptr.specs.Faults.{first_fault};
ghost use Rattle.zio_blkptr.specs.Pointers.{valid, spelling, pointer_of, FitsTypes, Spells};

/// A pointer has one spelling, and no bytes spell two pointers.
pub fn each_pointer_has_one_spelling()
    ensures read_back { (bp : Bp) → FitsTypes bp → IsTrue (valid bp) → pointer_of (spelling bp) ≡ Some bp }
    ensures spelled { (bytes : List ℕ) (bp : Bp) → pointer_of bytes ≡ Some bp →
        (IsTrue (valid bp)) × (spelling bp ≡ bytes) }
    ensures types { (bytes : List ℕ) (bp : Bp) → ((i : ℕ) → slice_index bytes i < 2 ^ 8) →
        pointer_of bytes ≡ Some bp → FitsTypes bp }
    ensures one_pointer { (bytes : List ℕ) (a b : Bp) → Spells bytes a → Spells bytes b → a ≡ b }
    ensures length { (bp : Bp) → FitsTypes bp → IsTrue (valid bp) → length (spelling bp) ≡ 128 }
    ensures not_zeros { pointer_of (replicate 128 0) ≡ None }
{}

/// Bytes spell a pointer exactly where they have no fault.
pub fn a_pointer_has_no_fault()
    ensures { (bytes : List ℕ) → length bytes ≡ 128 → ((i : ℕ) → slice_index bytes i < 2 ^ 8) →
        (first_fault bytes ≡ None) ↔ IsSome (pointer_of bytes) }
{}
