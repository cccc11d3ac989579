ghost use Rattle.std.specs.Prelude.{◌≡◌, ◌∷◌, [], List};
ghost use Rattle.zio_cksum.specs.Images.{Images};
ghost use Rattle.zio_trace.specs.Examples.{
  images_after,
  images_before,
  reads_bad,
  reads_good,
  repairs,
  sound_leaves,
  writes_on,
};
ghost use Rattle.zio_trace.specs.Leaves.{on_leaf};
ghost use Rattle.zio_trace.specs.Conflicts.{is_single};
ghost use Rattle.zio_trace.specs.Programs.{Happen};
ghost use Rattle.zio_trace.specs.RoundExamples.{leaves_of_four, mirror_of_two, two_reads_and_a_write};
ghost use Rattle.zio_trace.specs.RoundTraces.{is_single_or_piece};
ghost use Rattle.zio_trace.specs.RunTraces.{trace_of_run};
ghost use Rattle.zio_trace.specs.SoundRounds.{IsSoundRound};
ghost use Rattle.zio_trace.specs.TraceExamples.{finds_again, finds_x, pieces_of_x, trace_of_both, trace_of_x};
ghost use Rattle.zio_trace.specs.TraceExamples.{two_sectors, written_again, written_and_read};

/// A read that repairs a bad copy, beside a write of another block: read first and then written, or with the write's
/// operations between those of the read, the answers and the images are the same. But the repair doesn't go before the
/// read of the copy that it repairs: these two conflict, and in that order the read would find the repaired copy.
pub fn a_repair_beside_a_write()
    ensures in_turn { Happen (on_leaf sound_leaves)
        (reads_bad ∷ reads_good ∷ repairs ∷ writes_on 0 ∷ writes_on 1 ∷ []) images_before images_after }
    ensures between { Happen (on_leaf sound_leaves)
        (writes_on 0 ∷ reads_bad ∷ writes_on 1 ∷ reads_good ∷ repairs ∷ []) images_before images_after }
    ensures not_before { (after : Images) →
        ¬ Happen (on_leaf sound_leaves)
        (repairs ∷ reads_bad ∷ reads_good ∷ writes_on 0 ∷ writes_on 1 ∷ []) images_before after }
{}

/// The trace of a run that writes a block and then reads it: in the first round the ask for a place and the write on
/// its leaf, in the second the read of that leaf. It may stop at pieces: then the read has the bytes that it took.
pub fn a_block_is_written_and_read()
    ensures singles { trace_of_run is_single written_and_read two_sectors finds_x ≡ trace_of_x }
    ensures pieces { trace_of_run is_single_or_piece written_and_read two_sectors finds_x ≡ pieces_of_x }
{}

/// The trace of a write that fails in both passes and is tried again in the same round, at another place.
pub fn a_write_is_tried_again()
    ensures { trace_of_run is_single written_again two_sectors finds_again ≡ trace_of_both }
{}

/// One block may be read twice in a round, beside a write of another: such a round is sound.
pub fn a_block_is_read_twice()
    ensures { IsSoundRound mirror_of_two leaves_of_four two_reads_and_a_write }
{}
