ghost use Rattle.std.specs.Prelude.{ℕ, Some};
ghost use Rattle.zio_cksum.specs.Images.{Images};
ghost use Rattle.zio_gang.specs.Attempts.{Terms};
ghost use Rattle.zio_trace.specs.BlockCopies.{Copies};
ghost use Rattle.zio_trace.specs.Families.{Forest};
ghost use Rattle.zio_trace.specs.Leaves.{HaveSizes};
ghost use Rattle.zio_trace.specs.SoundRounds.{IsSoundRound, work_of};
ghost use Rattle.zio_trace.specs.Underway.{IsUnderway, State};
ghost use Rattle.zio_spared.specs.Spared.{HasGood, HasSpared, IsNamedPiece, KeepsCopy, NoFlips};

/// Of each piece of a block that a sound round names a good copy is spared at every moment of the round, where no row
/// turns bytes and some copy of the piece is good in the images before: no write met it that was done so far, and none
/// that is in flight meets it, so it has the bytes that it had. A copy is good by its bytes in the images, also where
/// reads of it fail. It is so at any one moment, and one and the same copy is spared throughout.
pub fn good_copies_are_spared()
    ensures now { (t : Terms) (sizes : ℕ → ℕ) (f : Forest) (before : Images) (s : State) (c : Copies) →
        IsSoundRound t sizes f → HaveSizes sizes before → NoFlips t.setting.rows →
        IsUnderway (work_of t sizes f) (Some before) s → IsNamedPiece f c → HasGood t.setting before c →
        HasSpared t.setting before c s }
    ensures throughout { (t : Terms) (sizes : ℕ → ℕ) (f : Forest) (before : Images) (c : Copies) →
        IsSoundRound t sizes f → HaveSizes sizes before → NoFlips t.setting.rows → IsNamedPiece f c →
        HasGood t.setting before c → KeepsCopy t sizes f before c }
{}
