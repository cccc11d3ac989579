ghost use Rattle.std.specs.Prelude.{◌≡◌, true};
ghost use Rattle.zio_trace.specs.CopyPrograms.{block_reading};
ghost use Rattle.zio_trace.specs.Leaves.{on_leaf};
ghost use Rattle.zio_trace.specs.Programs.{deeds_of};
ghost use Rattle.zio_trace.specs.SoundRounds.{IsSoundRound};
ghost use Rattle.zio_trace.specs.Tasks.{good_by};
ghost use Rattle.zio_trace.specs.Underway.{State};
ghost use Rattle.zio_spared.specs.Spared.{HasGood, IsGoodIn, IsNamedPiece, IsSpared};
ghost use Rattle.zio_spared.specs.SparedExamples.{
  IsRepairing,
  copy_on,
  first_is_bad,
  leaves_of_one,
  mirror_of_two,
  one_read,
  piece_of_x,
  reads_turned,
  second_is_bad,
  turned_mirror,
};

/// A read of a block that has a bad copy on the first leaf of a mirror, and a good one on the second. At some moment
/// both are read and the repair of the first is in flight: the second copy is spared, and the first isn't.
pub fn a_repair_in_flight_spares_the_good_copy()
    ensures round { IsSoundRound mirror_of_two leaves_of_one one_read }
    ensures piece { IsNamedPiece one_read piece_of_x }
    ensures good { HasGood mirror_of_two.setting first_is_bad piece_of_x }
    ensures second { (s : State) × IsRepairing s × IsSpared first_is_bad piece_of_x (copy_on 1) s }
    ensures not_first { (s : State) → IsRepairing s → ¬ IsSpared first_is_bad piece_of_x (copy_on 0) s }
{}

/// Where a row turns bytes no copy may be spared: reads of the only good copy fail, a read of the bad one is turned
/// into good bytes, and with these the good copy is written to.
pub fn a_row_that_turns_bytes_spares_no_copy()
    ensures good { IsGoodIn second_is_bad piece_of_x (copy_on 0) }
    ensures only { ¬ IsGoodIn second_is_bad piece_of_x (copy_on 1) }
    ensures deeds { deeds_of (on_leaf turned_mirror)
        (block_reading turned_mirror true (good_by piece_of_x.test) piece_of_x.len piece_of_x.places) second_is_bad
        ≡ reads_turned }
{}
