ghost use Rattle.std.specs.Prelude.{◌≡◌, ℕ, ◌^◌, ◌<◌, List, slice_index, IsTrue};
ghost use Rattle.zio_types.specs.declared.place.Place.{Place};
ghost use Rattle.zio_blkptr.specs.declared.pointer.Bp.{Bp};
ghost use Rattle.zio_cksum.specs.Headers.{Heads, members_of, is_header};

/// Bytes are a gang's header exactly where they are the header of some members, and then of those that they name.
pub fn a_header_names_its_members()
    ensures named { (bytes : List ℕ) (place : Place) (birth size : ℕ) (members : List Bp) →
        Heads bytes place birth size members → members_of bytes ≡ members }
    ensures accepted { (bytes : List ℕ) (place : Place) (birth size : ℕ) (members : List Bp) →
        Heads bytes place birth size members → IsTrue (is_header place birth size bytes) }
    ensures some_members { (bytes : List ℕ) (place : Place) (birth size : ℕ) →
        ((i : ℕ) → slice_index bytes i < 2 ^ 8) → IsTrue (is_header place birth size bytes) →
        Heads bytes place birth size (members_of bytes) }
{}
