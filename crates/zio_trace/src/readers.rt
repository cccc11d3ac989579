ghost use Rattle.std.specs.Prelude.{◌≡◌, ℕ, Bool, List, replicate, suc, true};
ghost use Rattle.std.specs.List.{AllByRecursion};
ghost use Rattle.zio_types.specs.declared.place.Place.{Place};
ghost use Rattle.zio_cksum.specs.Blocks.{read_block};
ghost use Rattle.zio_cksum.specs.Frames.{spots_of};
ghost use Rattle.zio_cksum.specs.Images.{Images, Setting};
ghost use Rattle.zio_trace.specs.CopyPrograms.{block_reading};
ghost use Rattle.zio_trace.specs.Leaves.{Answer, HaveSizes};
ghost use Rattle.zio_trace.specs.Readers.{CopiesApart, CopiesLie, Interleaved, RowsArePlain};

/// Several readers of the same copies, whose single operations are made in any order, where no fault row is for first
/// passes alone and none turns bytes: each gets the bytes or the error that one reader alone gets, and the images are
/// afterwards those that one reader leaves. So it is too where they read one after another.
pub fn readers_of_a_block_in_any_order()
    ensures { (s : Setting) (sizes : ℕ → ℕ) (good : List ℕ → Bool) (len : ℕ) (places : List Place) (readers : ℕ)
        (before after : Images) (answers : List Answer) → RowsArePlain s.rows → CopiesApart (spots_of s places) →
        CopiesLie sizes len (spots_of s places) → HaveSizes sizes before →
        Interleaved s (replicate (suc readers) (block_reading s true good len places)) before answers after →
        AllByRecursion (λ (a : Answer). a ≡ (read_block s true good before len places).found) answers
        × (after ≡ (read_block s true good before len places).images) }
{}
