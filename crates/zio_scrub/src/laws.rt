ghost use Rattle.std.specs.Prelude.{ℕ, List};
ghost use Rattle.std.specs.List.{AllByRecursion, flat_map};
ghost use Rattle.zio_cksum.specs.Images.{Images, Setting};
ghost use Rattle.zio_gang.specs.declared.tree.Tree.{Tree};
ghost use Rattle.zio_gang.specs.Pieces.{Piece};
ghost use Rattle.zio_scrub.specs.Pieces.{CanScrub};
ghost use Rattle.zio_scrub.specs.Pools.{AreBlocksIn, IsPool};
ghost use Rattle.zio_scrub.specs.Scrubs.{PieceLies, ScrubIs, copies_of};
ghost use Rattle.zio_trace.specs.Leaves.{AreClear, HaveSizes};
ghost use Rattle.zio_trace.specs.TreeOrders.{Pairs};

/// Where no two copies have a byte in common, a scrub piece after piece leaves what the repairs leave, one after another,
/// that the images before ask for, and counts these.
pub fn a_scrub_makes_its_repairs()
    ensures { (s : Setting) (sizes : ℕ → ℕ) (images : Images) (pieces : List Piece) → HaveSizes sizes images →
        AllByRecursion (PieceLies sizes s) pieces → Pairs AreClear (flat_map (copies_of s) pieces) →
        ScrubIs s images pieces }
{}

/// The blocks that a run leaves bound in its pool can be scrubbed: with their places they are far fewer than 2^32 copies,
/// since no two places meet.
pub fn blocks_of_a_pool_can_be_scrubbed()
    ensures { (s : Setting) (sizes : List ℕ) (trees : List Tree) → IsPool s sizes → AreBlocksIn s trees →
        CanScrub s sizes trees }
{}
