ghost use Rattle.std.specs.Prelude.{IsPermutation, List, map, ℕ};
ghost use Rattle.std.specs.List.{AllByRecursion};
ghost use Rattle.zio_types.specs.Choices.{Choice};
ghost use Rattle.zio_cksum.specs.Images.{Images};
ghost use Rattle.zio_gang.specs.Attempts.{Terms};
ghost use Rattle.zio_gang.specs.Rounds.{settle_each};
ghost use Rattle.zio_trace.specs.Leaves.{HaveSizes};
ghost use Rattle.zio_trace.specs.Separate.{AreSeparate};
ghost use Rattle.zio_trace.specs.TreeOrders.{AreAlike, IsTree, Pairs, Root, TreeLies, TreesApart, flat_root};

/// Trees of which no operation of the one conflicts with one of the other may be run in any order: the same requests
/// end with the same errors, bytes and blocks, the same trees are left, the same places are asked for, and the images
/// are the same.
pub fn trees_that_dont_conflict_in_any_order()
    ensures { (journal : List Choice) (t : Terms) (sizes : ℕ → ℕ) (trees others : List Root) (images : Images) →
        IsPermutation trees others → AllByRecursion IsTree trees → Pairs (TreesApart journal t) trees →
        AllByRecursion (TreeLies journal t sizes) trees → HaveSizes sizes images →
        AreAlike (settle_each journal t (map flat_root trees) images)
        (settle_each journal t (map flat_root others) images) }
{}

/// Trees over different blocks may be run in any order: under a lawful journal, where no tree has a claim, where the
/// requests have different numbers, and where the blocks that they read or free are in use, inside their tops and
/// apart, the same requests end with the same errors, bytes and blocks, the same trees are left, the same places are
/// asked for, and the images are the same.
pub fn trees_over_different_blocks_in_any_order()
    ensures { (journal : List Choice) (t : Terms) (sizes : ℕ → ℕ) (trees others : List Root) (images : Images) →
        IsPermutation trees others → AllByRecursion IsTree trees → AreSeparate journal t sizes trees →
        HaveSizes sizes images → AreAlike (settle_each journal t (map flat_root trees) images)
        (settle_each journal t (map flat_root others) images) }
{}
