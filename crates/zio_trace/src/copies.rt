ghost use Rattle.std.specs.Prelude.{◌≡◌, ℕ, Bool, List};
ghost use Rattle.zio_types.specs.declared.place.Place.{Place};
ghost use Rattle.zio_cksum.specs.Blocks.{read_block, read_pass, read_place, write_piece};
ghost use Rattle.zio_cksum.specs.Images.{Images, Setting};
ghost use Rattle.zio_trace.specs.CopyPrograms.{block_reading, pass_reading, piece_writing, place_reading};
ghost use Rattle.zio_trace.specs.Leaves.{Gives};

/// A block is read by single reads of its copies, in their order, until one is good, in a second pass where none is,
/// and then by a write to each copy that failed before it in that pass: run alone, they give what the block's read
/// gives and leave the images that it leaves.
pub fn copies_are_read_by_programs()
    ensures place { (s : Setting) (retry : Bool) (good : List ℕ → Bool) (len : ℕ) (p : Place) (images : Images) →
        Gives s (place_reading s retry good len p) images (read_place s retry good images len p) images }
    ensures pass { (s : Setting) (retry : Bool) (good : List ℕ → Bool) (len : ℕ) (places : List Place)
        (images : Images) →
        Gives s (pass_reading s retry good len places) images (read_pass s retry good images len places) images }
    ensures block { (s : Setting) (repair : Bool) (good : List ℕ → Bool) (len : ℕ) (places : List Place)
        (images : Images) →
        let read = read_block s repair good images len places in
        Gives s (block_reading s repair good len places) images read.found read.images }
{}

/// A piece is written by a write to each leaf of each of its places, and after an error by all of them once more.
pub fn pieces_are_written_by_programs()
    ensures { (s : Setting) (bytes : List ℕ) (places : List Place) (images : Images) →
        let written = write_piece s bytes places images in
        Gives s (piece_writing s bytes places) images written.error written.images }
{}
