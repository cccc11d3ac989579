ghost use Rattle.std.specs.Prelude.{◌≡◌, ℕ, ◌++◌, ◌∷◌, [], List, None};
ghost use Rattle.zio_types.specs.Choices.{Choice};
ghost use Rattle.zio_cksum.specs.Images.{Images};
ghost use Rattle.zio_gang.specs.Attempts.{Pending, Return, Terms, attempt_each, settle};
ghost use Rattle.zio_gang.specs.Rounds.{settle_each};
ghost use Rattle.zio_trace.specs.Families.{AreUnder, Forest, NoTrees, TreeOf, attempt_forest, attempted_as, flat};
ghost use Rattle.zio_trace.specs.Plans.{plan};
ghost use Rattle.zio_trace.specs.Programs.{run};
ghost use Rattle.zio_trace.specs.Rounds.{AreTrees, as_round, plan_round, trees_in};
ghost use Rattle.zio_trace.specs.Tasks.{Task, means, settle_root, settled_all};
ghost use Rattle.zio_gang.specs.Attempts.{reexecutions_max};

/// Each task is done by its plan: the tasks below it in their order, each over the images that the one before left,
/// give what the task means, ask for the same places, and leave the same images. So a read of copies is its single
/// operations, a placed write its asks and the writes of its parts and headers, a walk the reads of its headers, and a
/// tree of requests its attempts.
pub fn tasks_are_done_by_their_plans()
    ensures { (journal : List Choice) (t : Terms) (task : Task) (images : Images) →
        run (means journal t) (plan t task) images ≡ means journal t task images }
{}

/// A tree of requests may be taken as a root with its children's trees: an attempt of these, each request after its
/// children and with what they alone hand to it, is the attempt of the flat list.
pub fn families_are_attempted_as_lists()
    ensures attempted { (journal : List Choice) (t : Terms) (attempt : ℕ) (f : Forest) (images : Images) →
        AreUnder None f →
        (returns : List Return) × (attempt_each journal t attempt (flat f) [] images
        ≡ attempted_as returns (attempt_forest journal t attempt f images)) }
    ensures settled { (journal : List Choice) (t : Terms) (p : Pending) (kids : Forest) (images : Images) →
        AreUnder None (TreeOf p kids NoTrees) → settle journal t (flat kids ++ p ∷ []) images
        ≡ settled_all (settle_root reexecutions_max journal t 0 p kids images) }
{}

/// A round is done by its plan, which settles each tree: run alone, it leaves the same trees, ends the same requests,
/// asks for the same places and leaves the same images as the definition.
pub fn rounds_are_done_by_their_plans()
    ensures { (journal : List Choice) (t : Terms) (f : Forest) (images : Images) → AreTrees f →
        run (means journal t) (plan_round f) images ≡ as_round (settle_each journal t (trees_in f) images) }
{}
