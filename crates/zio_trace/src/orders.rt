ghost use Rattle.std.specs.Prelude.{◌≡◌, ℕ, List};
ghost use Rattle.std.specs.List.{AllByRecursion};
ghost use Rattle.zio_types.specs.Choices.{Choice};
ghost use Rattle.zio_cksum.specs.Images.{Images, Setting};
ghost use Rattle.zio_gang.specs.Attempts.{Terms};
ghost use Rattle.zio_gang.specs.Rounds.{settle_each};
ghost use Rattle.zio_trace.specs.Conflicts.{TaskLies, TasksApart};
ghost use Rattle.zio_trace.specs.Families.{Forest};
ghost use Rattle.zio_trace.specs.Leaves.{Answer, AreApart, HaveSizes, LeafOp, LiesOn, on_leaf};
ghost use Rattle.zio_trace.specs.Orders.{Commute, IsOrderOf, Stamped, deeds_in};
ghost use Rattle.zio_trace.specs.Plans.{plan};
ghost use Rattle.zio_trace.specs.Programs.{Deed, Does, Happen, Made, asks_of};
ghost use Rattle.zio_trace.specs.Rounds.{AreTrees, Round, plan_round, trees_in};
ghost use Rattle.zio_trace.specs.Tasks.{Task, Value, means};

/// Two operations on leaves that both read, or whose places have no byte in common, may change places: neither tells
/// the other's answer, and both leave the same images. They lie on their leaves, and a read asks for no more bytes than
/// its place has.
pub fn leaf_operations_commute()
    ensures { (s : Setting) (sizes : ℕ → ℕ) → Commute (on_leaf s) (HaveSizes sizes) (LiesOn sizes) AreApart }
{}

/// The operations of a history may stand in every order in which each write keeps its order with each operation whose
/// place meets its own: every such order gives the same answers and the same images.
pub fn leaf_operations_in_any_order()
    ensures { (s : Setting) (sizes : ℕ → ℕ) (history : List (Deed LeafOp Answer)) (order : List (Stamped LeafOp Answer))
        (before after : Images) → IsOrderOf AreApart history order →
        AllByRecursion (λ (x : Stamped LeafOp Answer). LiesOn sizes x.deed.op) order → HaveSizes sizes before →
        Happen (on_leaf s) history before after → Happen (on_leaf s) (deeds_in order) before after }
{}

/// Whatever the order in which the single operations of a round were done, as long as those that conflict were done in
/// the definitions' order, each tree is settled as it is in the definition, and the images are those.
///
/// The history is what was done. The same deeds in the definitions' order make up the calls of the round's plan.
pub fn a_round_in_any_order()
    ensures { (journal : List Choice) (t : Terms) (sizes : ℕ → ℕ) (f : Forest) (calls history : List (Deed Task Value))
        (order : List (Stamped Task Value)) (value : Round) (before after : Images) →
        AreTrees f → Does (plan_round f) calls value → Made (plan t) calls (deeds_in order) →
        IsOrderOf TasksApart history order →
        AllByRecursion (λ (x : Stamped Task Value). TaskLies sizes x.deed.op) order → HaveSizes sizes before →
        Happen (means journal t) history before after →
        settle_each journal t (trees_in f) before ≡ record {
          left = value.left;
          ended = value.ended;
          asks = asks_of (means journal t) calls before;
          images = after;
        } }
{}
