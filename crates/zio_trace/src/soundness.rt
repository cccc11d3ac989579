ghost use Rattle.std.specs.Prelude.{
  ◌∷◌,
  ◌++◌,
  ◌≡◌,
  ◌≢◌,
  [],
  Bool,
  Contains,
  false,
  IsTrue,
  List,
  Option,
  Some,
  map,
  ℕ,
};
ghost use Rattle.std.specs.List.{AllByRecursion};
ghost use Rattle.zio_types.specs.declared.place.Place.{Place};
ghost use Rattle.zio_types.specs.declared.place.TopSize.{TopSize};
ghost use Rattle.zio_types.specs.Choices.{Ask, Choice};
ghost use Rattle.zio_types.specs.Places.{is_inside};
ghost use Rattle.zio_blkptr.specs.declared.pointer.Bp.{Bp};
ghost use Rattle.zio_blkptr.specs.declared.pointer.SumKind.{SumKind};
ghost use Rattle.zio_blkptr.specs.Pointers.{valid};
ghost use Rattle.zio_cksum.specs.Frames.{spots_of};
ghost use Rattle.zio_cksum.specs.Headers.{members_of};
ghost use Rattle.zio_cksum.specs.Images.{Images, Spot};
ghost use Rattle.zio_gang.specs.declared.tree.Tree.{Tree};
ghost use Rattle.zio_gang.specs.Attempts.{Pending, Terms};
ghost use Rattle.zio_gang.specs.Trees.{header_levels_max, kept_at, tree_places, tree_pointers};
ghost use Rattle.zio_gang.specs.Writes.{chosen};
ghost use Rattle.zio_trace.specs.BlockCopies.{Copies, body_copies, copies_of, groups_of, reading_of};
ghost use Rattle.zio_trace.specs.Conflicts.{is_single};
ghost use Rattle.zio_trace.specs.Families.{Forest, NotIn, flat};
ghost use Rattle.zio_trace.specs.Footprints.{AreFrom, FitsTask};
ghost use Rattle.zio_trace.specs.Keys.{FitsLeft, NumbersOnce};
ghost use Rattle.zio_trace.specs.Leaves.{Store};
ghost use Rattle.zio_trace.specs.Programs.{Ends};
ghost use Rattle.zio_trace.specs.Separate.{IsSoundBlock};
ghost use Rattle.zio_trace.specs.SoundRounds.{
  AreFreeParts,
  DifferentNumbers,
  IsBlockIn,
  IsFree,
  IsRead,
  IsSoundRound,
  IsWrite,
  nth_tree,
  repairs_after,
  work_of,
};
ghost use Rattle.zio_trace.specs.Tasks.{
  Attempt,
  ByClaim,
  ByKept,
  Find,
  Leaf,
  ReadHeads,
  Task,
  Value,
  WriteCopies,
  WritePart,
};
ghost use Rattle.zio_trace.specs.Together.{IsSharedWell};
ghost use Rattle.zio_trace.specs.TreeOrders.{Root};
ghost use Rattle.zio_trace.specs.Underway.{Comes, Flight, IsSound, IsUnderway, State, Work};
ghost use Rattle.zio_trace.specs.Views.{nth};

/// A block whose places are in use and inside their tops, and whose pointers are valid, is sound: each copy
/// of a piece has room for it, since a valid pointer's places have its sectors, rounded up.
pub fn blocks_of_valid_pointers_are_sound()
    ensures { (sizes : List TopSize) (used : List Place) (tree : Tree) →
        AllByRecursion (λ (bp : Bp). IsTrue (valid bp)) (tree_pointers tree) →
        AllByRecursion (Contains used) (tree_places tree) →
        AllByRecursion (λ (p : Place). IsTrue (is_inside sizes p)) (tree_places tree) →
        IsSoundBlock sizes used tree }
{}

/// The trees of a round may be under way together where they are over different blocks or read the same one:
/// whatever lawful journal comes, none does what conflicts with another, all that they do lies on the leaves,
/// and no key is asked for twice.
pub fn sound_rounds_are_sound_work()
    ensures { (t : Terms) (sizes : ℕ → ℕ) (f : Forest) → IsSoundRound t sizes f →
        IsSound (work_of t sizes f) }
{}

/// What several trees of such a round read together is shared well: no two pieces touch, and whatever is
/// answered, nothing but reads with repairs of these pieces touches them.
pub fn sound_rounds_are_shared_well()
    ensures { (t : Terms) (sizes : ℕ → ℕ) (f : Forest) → IsSoundRound t sizes f →
        IsSharedWell (work_of t sizes f) }
{}

/// A node that ended has a value that fits its task, under each lawful journal that may still come: copies
/// that were read are good, a walk over kept headers came to bodies of the block, and to all of them where
/// nothing failed, and what is left of an attempt are requests that were attempted, each no more often.
pub fn values_fit_whichever_journal_comes()
    ensures fits { (w : Work) (before : Option Images) (s : State) (x : Flight) (others : List Flight) (v : Value)
        (journal : List Choice) → IsUnderway w before s → s.flights ≡ x ∷ others → x.rest ≡ Ends v →
        Comes w s.entries journal → FitsTask journal w.terms x.op.op v }
    ensures left { (w : Work) (before : Option Images) (s : State) (x : Flight) (others : List Flight) (v : Value) →
        IsUnderway w before s → s.flights ≡ x ∷ others → x.rest ≡ Ends v → FitsLeft x.op.op v }
{}

/// Operations of one part that may be out together in a sound round, whatever lawful journal comes: attempts
/// of two trees whose requests have different numbers, as two trees of one forest; two members of a gang that
/// is written, and a member and the gang's header; writes to two copies of what is written; repairs of two
/// copies of a piece; reads of two bodies of a block; and walks below two members of a header that is kept,
/// or that is claimed.
pub fn operations_of_one_part_are_free()
    ensures attempts { (t : Terms) (sizes : ℕ → ℕ) (f : Forest) (entries journal : List Choice) (at : List ℕ)
        (i k attempt more : ℕ) (p q : Pending) (kids others : Forest) → IsSoundRound t sizes f →
        Comes (work_of t sizes f) entries journal → i ≢ k → AreFrom (flat f) (p ∷ flat kids) →
        AreFrom (flat f) (q ∷ flat others) → DifferentNumbers (p ∷ flat kids) (q ∷ flat others) →
        AreFreeParts journal t f at i (Attempt attempt p kids) k (Attempt more q others) }
    ensures trees_of_a_forest { (t : Terms) (sizes : ℕ → ℕ) (f : Forest) (entries journal : List Choice)
        (at : List ℕ) (i k attempt more n m : ℕ) (g : Forest) (a b : Root) → IsSoundRound t sizes f →
        Comes (work_of t sizes f) entries journal → i ≢ k → AreFrom (flat f) (flat g) → NumbersOnce g →
        nth_tree n g ≡ Some a → nth_tree m g ≡ Some b → n ≢ m →
        AreFreeParts journal t f at i (Attempt attempt a.p a.kids) k (Attempt more b.p b.kids) }
    ensures members { (t : Terms) (sizes : ℕ → ℕ) (f : Forest) (entries journal : List Choice) (at : List ℕ)
        (i k attempt n m : ℕ) (p : Pending) (sum : SumKind) (copies levels : ℕ) (path bytes others : List ℕ) →
        IsSoundRound t sizes f → Comes (work_of t sizes f) entries journal → i ≢ k → n ≢ m →
        AreFreeParts journal t f at i (WritePart attempt p sum copies levels (path ++ n ∷ []) bytes)
        k (WritePart attempt p sum copies levels (path ++ m ∷ []) others) }
    ensures member_before_header { (t : Terms) (sizes : ℕ → ℕ) (f : Forest) (entries journal : List Choice)
        (at : List ℕ) (i k attempt n : ℕ) (p : Pending) (sum : SumKind) (copies levels : ℕ)
        (path bytes header : List ℕ) (a : Ask) (places : List Place) → IsSoundRound t sizes f →
        Comes (work_of t sizes f) entries journal → i ≢ k → a.key.round ≡ t.round → a.key.path ≡ path →
        chosen journal a ≡ Some places →
        AreFreeParts journal t f at i (WritePart attempt p sum copies levels (path ++ n ∷ []) bytes)
        k (WriteCopies header places) }
    ensures header_before_member { (t : Terms) (sizes : ℕ → ℕ) (f : Forest) (entries journal : List Choice)
        (at : List ℕ) (i k attempt n : ℕ) (p : Pending) (sum : SumKind) (copies levels : ℕ)
        (path bytes header : List ℕ) (a : Ask) (places : List Place) → IsSoundRound t sizes f →
        Comes (work_of t sizes f) entries journal → i ≢ k → a.key.round ≡ t.round → a.key.path ≡ path →
        chosen journal a ≡ Some places → AreFreeParts journal t f at i (WriteCopies header places)
        k (WritePart attempt p sum copies levels (path ++ n ∷ []) bytes) }
    ensures writes { (t : Terms) (sizes : ℕ → ℕ) (f : Forest) (entries journal : List Choice) (at : List ℕ)
        (i k n m : ℕ) (a : Ask) (places : List Place) (u v : Spot) (retry again : Bool)
        (bytes others : List ℕ) → IsSoundRound t sizes f → Comes (work_of t sizes f) entries journal →
        a.key.round ≡ t.round →
        chosen journal a ≡ Some places → nth n (spots_of t.setting places) ≡ Some u →
        nth m (spots_of t.setting places) ≡ Some v → n ≢ m →
        AreFreeParts journal t f at i (Leaf (Store retry bytes u)) k (Leaf (Store again others v)) }
    ensures repairs_by_number { (t : Terms) (sizes : ℕ → ℕ) (f : Forest) (journal : List Choice) (at : List ℕ)
        (i k n m : ℕ) (tree : Tree) (c : Copies) (u v : Spot) (retry again : Bool) (bytes others : List ℕ) →
        IsSoundRound t sizes f → IsBlockIn f tree → Contains (copies_of tree) c →
        nth n (spots_of t.setting c.places) ≡ Some u → nth m (spots_of t.setting c.places) ≡ Some v → n ≢ m →
        AreFreeParts journal t f at i (Leaf (Store retry bytes u)) k (Leaf (Store again others v)) }
    ensures repairs { (t : Terms) (sizes : ℕ → ℕ) (f : Forest) (journal : List Choice) (at : List ℕ) (i k : ℕ)
        (tree : Tree) (c : Copies) (u v : Spot) (retry again : Bool) (bytes others : List ℕ) →
        IsSoundRound t sizes f → IsBlockIn f tree → Contains (copies_of tree) c →
        Contains (spots_of t.setting c.places) u → Contains (spots_of t.setting c.places) v → u ≢ v →
        AreFreeParts journal t f at i (Leaf (Store retry bytes u)) k (Leaf (Store again others v)) }
    ensures repairs_of_a_pass { (t : Terms) (sizes : ℕ → ℕ) (f : Forest) (journal : List Choice) (at : List ℕ)
        (i k n m tried : ℕ) (tree : Tree) (c : Copies) (front rest : List Place) (p : Place) (u v : Spot)
        (retry again : Bool) (bytes others : List ℕ) → IsSoundRound t sizes f → IsBlockIn f tree →
        Contains (copies_of tree) c → c.places ≡ front ++ p ∷ rest →
        nth n (repairs_after t.setting front p tried) ≡ Some u →
        nth m (repairs_after t.setting front p tried) ≡ Some v → n ≢ m →
        AreFreeParts journal t f at i (Leaf (Store retry bytes u)) k (Leaf (Store again others v)) }
    ensures bodies { (t : Terms) (sizes : ℕ → ℕ) (f : Forest) (journal : List Choice) (at : List ℕ)
        (i k n m : ℕ) (tree : Tree) (c d : Copies) → IsSoundRound t sizes f → IsBlockIn f tree → i ≢ k →
        nth n (groups_of tree).bodies ≡ Some c → nth m (groups_of tree).bodies ≡ Some d → n ≢ m →
        AreFreeParts journal t f at i (reading_of c) k (reading_of d) }
    ensures bodies_found { (t : Terms) (sizes : ℕ → ℕ) (f : Forest) (journal : List Choice) (at : List ℕ)
        (i k n m : ℕ) (tree : Tree) (pointers : List Bp) (a b : Bp) → IsSoundRound t sizes f →
        IsBlockIn f tree → i ≢ k → map body_copies pointers ≡ (groups_of tree).bodies →
        nth n pointers ≡ Some a →
        nth m pointers ≡ Some b → n ≢ m →
        AreFreeParts journal t f at i (reading_of (body_copies a)) k (reading_of (body_copies b)) }
    ensures kept_walks { (t : Terms) (sizes : ℕ → ℕ) (f : Forest) (journal : List Choice) (at : List ℕ)
        (i k levels more n m : ℕ) (tree : Tree) (path bytes : List ℕ) (a b : Bp) → IsSoundRound t sizes f →
        IsBlockIn f tree → i ≢ k → kept_at tree.heads path ≡ Some bytes → nth n (members_of bytes) ≡ Some a →
        nth m (members_of bytes) ≡ Some b → n ≢ m →
        AreFreeParts journal t f at i (ReadHeads (ByKept tree.heads) levels (path ++ n ∷ []) a)
        k (ReadHeads (ByKept tree.heads) more (path ++ m ∷ []) b) }
    ensures claimed_walks { (t : Terms) (f : Forest) (journal : List Choice) (at : List ℕ)
        (i k levels more : ℕ) (path others : List ℕ) (a b : Bp) → i ≢ k →
        AreFreeParts journal t f at i (ReadHeads ByClaim levels path a) k (ReadHeads ByClaim more others b) }
{}

/// A request's own work beside attempts of its children: whatever lawful journal comes, what is asked of the
/// space, a part that is written, copies at places that the journal has for the request's own ask, the walk
/// over the headers of the block that it reads or frees, and the reads of its bodies may be out with an
/// attempt of a tree in which no request has its number.
pub fn own_work_is_free_of_attempts()
    ensures asks { (t : Terms) (f : Forest) (journal : List Choice) (at : List ℕ) (i k : ℕ) (q : Task)
        (a : Ask) → i ≢ k → is_single q ≡ false → AreFreeParts journal t f at i q k (Find a) }
    ensures parts { (t : Terms) (sizes : ℕ → ℕ) (f : Forest) (entries journal : List Choice) (at : List ℕ)
        (i k attempt more : ℕ) (p q : Pending) (kids : Forest) (sum : SumKind) (copies levels : ℕ)
        (path bytes : List ℕ) → IsSoundRound t sizes f → Comes (work_of t sizes f) entries journal → i ≢ k →
        AreFrom (flat f) (p ∷ q ∷ flat kids) → NotIn p.request.number (q ∷ flat kids) →
        IsWrite p.request.work → AreFreeParts journal t f at i (Attempt attempt q kids)
        k (WritePart more p sum copies levels path bytes) }
    ensures copies { (t : Terms) (sizes : ℕ → ℕ) (f : Forest) (entries journal : List Choice) (at : List ℕ)
        (i k attempt : ℕ) (p q : Pending) (kids : Forest) (bytes : List ℕ) (a : Ask) (places : List Place) →
        IsSoundRound t sizes f → Comes (work_of t sizes f) entries journal → i ≢ k →
        AreFrom (flat f) (p ∷ q ∷ flat kids) → NotIn p.request.number (q ∷ flat kids) →
        IsWrite p.request.work → a.key.round ≡ t.round → a.key.request ≡ p.request.number →
        chosen journal a ≡ Some places →
        AreFreeParts journal t f at i (Attempt attempt q kids) k (WriteCopies bytes places) }
    ensures walk { (t : Terms) (sizes : ℕ → ℕ) (f : Forest) (entries journal : List Choice) (at : List ℕ)
        (i k attempt : ℕ) (p q : Pending) (kids : Forest) (tree : Tree) → IsSoundRound t sizes f →
        Comes (work_of t sizes f) entries journal → i ≢ k → AreFrom (flat f) (p ∷ q ∷ flat kids) →
        NotIn p.request.number (q ∷ flat kids) → IsRead p.request.work → p.block ≡ Some tree →
        AreFreeParts journal t f at i (Attempt attempt q kids)
        k (ReadHeads (ByKept tree.heads) header_levels_max [] tree.bp) }
    ensures free_walk { (t : Terms) (sizes : ℕ → ℕ) (f : Forest) (entries journal : List Choice)
        (at : List ℕ) (i k attempt : ℕ) (p q : Pending) (kids : Forest) (tree : Tree) →
        IsSoundRound t sizes f → Comes (work_of t sizes f) entries journal → i ≢ k →
        AreFrom (flat f) (p ∷ q ∷ flat kids) → NotIn p.request.number (q ∷ flat kids) →
        IsFree p.request.work → p.block ≡ Some tree →
        AreFreeParts journal t f at i (Attempt attempt q kids)
        k (ReadHeads (ByKept tree.heads) header_levels_max [] tree.bp) }
    ensures bodies { (t : Terms) (sizes : ℕ → ℕ) (f : Forest) (entries journal : List Choice) (at : List ℕ)
        (i k attempt : ℕ) (p q : Pending) (kids : Forest) (tree : Tree) (c : Copies) →
        IsSoundRound t sizes f → Comes (work_of t sizes f) entries journal → i ≢ k →
        AreFrom (flat f) (p ∷ q ∷ flat kids) →
        NotIn p.request.number (q ∷ flat kids) → IsRead p.request.work → p.block ≡ Some tree →
        Contains (copies_of tree) c →
        AreFreeParts journal t f at i (Attempt attempt q kids) k (reading_of c) }
{}
