ghost use Rattle.std.specs.Prelude.{ℕ, Contains, Option, Some};
ghost use Rattle.std.specs.List.{AllByRecursion};
ghost use Rattle.zio_cksum.specs.Images.{Images};
ghost use Rattle.zio_gang.specs.declared.tree.Tree.{Tree};
ghost use Rattle.zio_gang.specs.Attempts.{Terms};
ghost use Rattle.zio_gang.specs.Trees.{sizes_of, tree_places};
ghost use Rattle.zio_trace.specs.BlockCopies.{Copies, copies_of};
ghost use Rattle.zio_trace.specs.Families.{Forest};
ghost use Rattle.zio_trace.specs.Leaves.{HaveSizes};
ghost use Rattle.zio_trace.specs.Separate.{IsSoundBlock, NoneMeet};
ghost use Rattle.zio_trace.specs.SoundRounds.{IsSoundRound, work_of};
ghost use Rattle.zio_trace.specs.Stopped.{places_named, spots_touched};
ghost use Rattle.zio_trace.specs.Underway.{IsUnderway, State};
ghost use Rattle.zio_spared.specs.Crashes.{HasUnwritten, MayBeLeft, spots_written};
ghost use Rattle.zio_spared.specs.Spared.{HasGood, IsNamedPiece, NoFlips};

/// At every moment of a round all that was written, or is being written, lies at places of blocks that its requests
/// name and at places that were found for it.
pub fn writes_lie_at_places_that_are_named_or_found()
    ensures { (t : Terms) (sizes : ℕ → ℕ) (f : Forest) (before : Option Images) (s : State) →
        IsUnderway (work_of t sizes f) before s →
        AllByRecursion (Contains (spots_touched t f s.entries)) (spots_written s) }
{}

/// After a crash at any moment of a sound round each piece of a block in use still has a good copy, if it had one: also
/// one that the round names, where no row turns bytes. The crash may have left anything where something was written by
/// then, or was being written, and nothing else.
pub fn good_copies_survive_a_crash()
    ensures named { (t : Terms) (sizes : ℕ → ℕ) (f : Forest) (before after : Images) (s : State) (c : Copies) →
        IsSoundRound t sizes f → HaveSizes sizes before → NoFlips t.setting.rows →
        IsUnderway (work_of t sizes f) (Some before) s → IsNamedPiece f c → MayBeLeft before s after →
        HasGood t.setting before c → HasGood t.setting after c }
    ensures others { (t : Terms) (sizes : ℕ → ℕ) (f : Forest) (told : Option Images) (before after : Images)
        (s : State) (tree : Tree) (c : Copies) → IsSoundRound t sizes f → IsUnderway (work_of t sizes f) told s →
        IsSoundBlock (sizes_of t.setting.tops) t.used tree → NoneMeet (tree_places tree) (places_named f) →
        Contains (copies_of tree) c → MayBeLeft before s after →
        HasGood t.setting before c → HasGood t.setting after c }
{}

/// The same byte by byte, over all moments of a sound round: of each piece of a block in use that had a good copy, there
/// is one such copy of which no byte is written at any moment. A byte of a block that the round names is so where no row
/// turns bytes.
pub fn good_copies_are_never_written()
    ensures named { (t : Terms) (sizes : ℕ → ℕ) (f : Forest) (before : Images) (c : Copies) →
        IsSoundRound t sizes f → HaveSizes sizes before → NoFlips t.setting.rows →
        IsNamedPiece f c → HasGood t.setting before c → HasUnwritten t sizes f (Some before) before c }
    ensures others { (t : Terms) (sizes : ℕ → ℕ) (f : Forest) (told : Option Images) (before : Images) (tree : Tree)
        (c : Copies) → IsSoundRound t sizes f → IsSoundBlock (sizes_of t.setting.tops) t.used tree →
        NoneMeet (tree_places tree) (places_named f) → Contains (copies_of tree) c →
        HasGood t.setting before c → HasUnwritten t sizes f told before c }
{}
