//! What an engine keeps of its nodes, move by move.

ghost use Rattle.std.specs.Prelude.{◌≡◌, ◌≢◌, ◌++◌, ◌<◌, ℕ, List, [], ◌∷◌, Bool, Contains, IfSome, Option, None, Some, length, slice_get, slice_set, true, false};
ghost use Rattle.std.specs.List.{AllByRecursion};
ghost use Rattle.zio_blkptr.specs.declared.pointer.Bp.{Bp};
ghost use Rattle.zio_types.specs.declared.error.Errno.{Errno};
ghost use Rattle.zio_types.specs.declared.request.Bits.{Bits};
ghost use Rattle.zio_types.specs.declared.request.Phase.TheVariants.{Done, Ready};
ghost use Rattle.zio_types.specs.Choices.{Ask, Choice};
ghost use Rattle.zio_types.specs.Machine.{Count};
ghost use Rattle.zio_types.specs.declared.request.ChildKind.{ChildKind};
ghost use Rattle.zio_types.specs.declared.request.Phase.{Phase};
ghost use Rattle.zio_counts.specs.Tallies.{Tally, count_end, counted, first_counted, is_last, notified, stalled};
ghost use Rattle.zio_cksum.specs.Images.{Images};
ghost use Rattle.zio_gang.specs.declared.tree.Tree.{Tree};
ghost use Rattle.zio_gang.specs.Attempts.{Terms};
ghost use Rattle.zio_gang.specs.Journals.{AreChoicesOf, AreLawful, choices_in};
ghost use Rattle.zio_gang.specs.Trees.{sizes_of};
ghost use Rattle.zio_trace.specs.Conflicts.{is_single};
ghost use Rattle.zio_trace.specs.Entries.{AnswersOnLeaf, IsSettledByEntries};
ghost use Rattle.zio_trace.specs.Families.{Forest};
ghost use Rattle.zio_trace.specs.Footprints.{FitsTask};
ghost use Rattle.zio_trace.specs.Leaves.{Answer, HaveSizes, LeafOp, LiesOn};
ghost use Rattle.zio_trace.specs.RoundRules.{task_ways};
ghost use Rattle.zio_trace.specs.Rounds.{settles};
ghost use Rattle.zio_trace.specs.SoundRounds.{HasClaim, IsSoundRound};
ghost use Rattle.zio_trace.specs.Tasks.{Find, Got, Leaf, Task, Value};
ghost use Rattle.zio_trace.specs.Together.{round_of};
ghost use Rattle.zio_trace.specs.Underway.{AreAnswered, State};
ghost use Rattle.zio_frames.specs.Frames.{Child, Flying, Stack, asking, fresh_stack, kind_of_task, needs_none};
ghost use Rattle.zio_frames.specs.Moves.{AsksNext, Did, DoesAll, IsEnded, Took, WillHave, choices_of, done_at_once, handed, heard_early, heard_of};
ghost use Rattle.zio_frames.specs.OfRound.{FitsWhichever};
ghost use Rattle.zio_frames.specs.Running.{FitsTold, all_heard, all_out, settling_from};
ghost use Rattle.zio_frames.specs.Slots.{Heard, Slot};
ghost use Rattle.zio_turns.specs.Engine.{IsKept, IsRight, StillKept};
ghost use Rattle.zio_staged.specs.Entries.{AreWith, Held, IsWith, Live, OfNode, OfTree, OneMore, OneMoreIf, Shelf, all_tops, grown, handed_on, live_of, new_flying, new_held, standing, top_at, with_both, with_node, with_stack};
ghost use Rattle.zio_turns.specs.Found.{DoesAsked, IsFound, IsParentFound, IsTreeFound};

use zio_staged::NodeFacts;

/// A round begins with a node for each of its trees. A node under a key does something itself, waits for a count, does
/// something itself and hands out the operation that it asks then, or goes to a leaf and comes back. The key stands in
/// the queue, or at the leaves, exactly while it says so. An operation at a leaf lies on it, and where no image is told
/// it may answer anything. In a round with a claim no place is asked for, and in no other are places taken.
pub fn engines_keep_rounds<N: NodeFacts>()
    ensures begins { (t : Terms) (sizes : ℕ → ℕ) (f : Forest) (before : Option Images) (images : Images) →
        IsSoundRound t sizes f → IfSome before (λ b. b ≡ images) →
        StillKept N.nodes t sizes f before (all_out (settles f)) (all_tops (settling_from 0 (settles f))) []
        (λ key. None) [] [] [] images }
    ensures tree_begins { (t : Terms) (sizes : ℕ → ℕ) (f : Forest) (before : Option Images) (trees : List Slot)
        (tops : List (Option Flying)) (lives : List Live) (shelf : Shelf N) (queue leaves : List ℕ) (s : State)
        (n child : ℕ) (top : Flying) (op : Task) (c : N) (shelf_now : Shelf N) (queue_now : List ℕ) →
        IsSoundRound t sizes f →
        IsKept N.nodes t sizes f before trees tops lives shelf queue leaves s → top_at tops n ≡ Some top →
        is_single (asking top.stack).op ≡ false → AsksNext t (asking top.stack) op → N.nodes.Is t c (fresh_stack op) →
        (needs_none (kind_of_task op) ≡ false → N.nodes.told c ≡ false) → N.nodes.due c → shelf child ≡ None →
        IsWith shelf child (Some (new_held c op (OfTree n (length top.stack.children)))) shelf_now
        → OneMore child queue queue_now →
        StillKept N.nodes t sizes f before trees (slice_set tops n (Some (handed_on top op)))
        (live_of child (new_flying top op) ∷ lives) shelf_now queue_now leaves s.entries s.images }
    ensures goes_on { (t : Terms) (sizes : ℕ → ℕ) (f : Forest) (before : Option Images) (trees : List Slot)
        (tops : List (Option Flying)) (others : List Live) (shelf : Shelf N) (queue leaves : List ℕ) (s : State)
        (key : ℕ) (x : Flying) (h : Held N) (rest : List ℕ) (dids : List Did) (st : Stack) (node : N)
        (shelf_now : Shelf N) →
        IsSoundRound t sizes f →
        IsKept N.nodes t sizes f before trees tops (live_of key x ∷ others) shelf queue leaves s →
        shelf key ≡ Some h → OneMore key rest queue → DoesAll t dids x.stack st → AllByRecursion (IsRight t) dids →
        AreLawful (sizes_of t.setting.tops) t.used (s.entries ++ choices_of dids) → N.nodes.Is t node st →
        N.nodes.told node ≡ N.nodes.told h.node → N.nodes.due node →
        IsWith shelf key (Some (with_node h node)) shelf_now →
        StillKept N.nodes t sizes f before trees tops
        (live_of key (record { at = x.at; stack = st }) ∷ others) shelf_now queue leaves
        (s.entries ++ choices_of dids) s.images }
    ensures waits { (t : Terms) (sizes : ℕ → ℕ) (f : Forest) (before : Option Images) (trees : List Slot)
        (tops : List (Option Flying)) (others : List Live) (shelf : Shelf N) (queue leaves : List ℕ) (s : State)
        (key : ℕ) (x : Flying) (h : Held N) (rest : List ℕ) (count : Count) (node : N) (shelf_now : Shelf N) →
        IsKept N.nodes t sizes f before trees tops (live_of key x ∷ others) shelf queue leaves s →
        shelf key ≡ Some h → OneMore key rest queue → (counted count.kind count.phase h.tally ≢ 0) →
        N.nodes.Is t node x.stack →
        N.nodes.told node ≡ N.nodes.told h.node → N.nodes.due node
        → IsWith shelf key (Some (with_both h node (stalled (Some count) h.tally))) shelf_now →
        StillKept N.nodes t sizes f before trees tops (live_of key x ∷ others) shelf_now rest leaves s.entries
        s.images }
    ensures grows { (t : Terms) (sizes : ℕ → ℕ) (f : Forest) (before : Option Images) (trees : List Slot)
        (tops : List (Option Flying)) (others : List Live) (shelf : Shelf N) (queue leaves : List ℕ) (s : State)
        (key child : ℕ) (x : Flying) (h : Held N) (rest : List ℕ) (dids : List Did) (mid : Stack) (op : Task)
        (node c : N)
        (shelf_now : Shelf N) (queue_now : List ℕ) →
        IsSoundRound t sizes f →
        IsKept N.nodes t sizes f before trees tops (live_of key x ∷ others) shelf queue leaves s →
        shelf key ≡ Some h → OneMore key rest queue → DoesAll t dids x.stack mid → AllByRecursion (IsRight t) dids →
        AreLawful (sizes_of t.setting.tops) t.used (s.entries ++ choices_of dids) →
        is_single (asking mid).op ≡ false → AsksNext t (asking mid) op →
        counted (kind_of_task op) Ready h.tally < count_end → N.nodes.Is t node (handed mid op) →
        N.nodes.told node ≡ N.nodes.told h.node → N.nodes.due node → N.nodes.Is t c (fresh_stack op) →
        (needs_none (kind_of_task op) ≡ false → N.nodes.told c ≡ false) → N.nodes.due c → shelf child ≡ None →
        AreWith shelf key (Some (grown h node op)) child
        (Some (new_held c op (OfNode key (length x.stack.children)))) shelf_now →
        OneMore child queue queue_now →
        StillKept N.nodes t sizes f before trees tops
        (live_of child (new_flying (with_stack x mid) op) ∷ live_of key (handed_on (with_stack x mid) op) ∷ others)
        shelf_now queue_now leaves (s.entries ++ choices_of dids) s.images }
    ensures goes_to_leaf { (t : Terms) (sizes : ℕ → ℕ) (f : Forest) (before : Option Images) (trees : List Slot)
        (tops : List (Option Flying)) (others : List Live) (shelf : Shelf N) (queue leaves : List ℕ) (s : State)
        (key : ℕ) (x : Flying) (h : Held N) (rest : List ℕ) (act : LeafOp) (leaves_now : List ℕ) (node : N)
        (shelf_now : Shelf N) →
        IsKept N.nodes t sizes f before trees tops (live_of key x ∷ others) shelf queue leaves s →
        shelf key ≡ Some h → OneMore key rest queue → x.stack ≡ fresh_stack (Leaf act) → OneMore key leaves leaves_now →
        N.nodes.Is t node x.stack → N.nodes.told node ≡ N.nodes.told h.node →
        IsWith shelf key (Some (with_node h node)) shelf_now →
        StillKept N.nodes t sizes f before trees tops (live_of key x ∷ others) shelf_now rest leaves_now s.entries
        s.images }
    ensures at_leaf { (t : Terms) (sizes : ℕ → ℕ) (f : Forest) (before : Option Images) (trees : List Slot)
        (tops : List (Option Flying)) (others : List Live) (shelf : Shelf N) (queue leaves : List ℕ) (s : State)
        (key : ℕ) (x : Flying) (h : Held N) (rest : List ℕ) →
        IsKept N.nodes t sizes f before trees tops (live_of key x ∷ others) shelf queue leaves s →
        shelf key ≡ Some h → OneMore key rest leaves → (act : LeafOp) × (x.stack ≡ fresh_stack (Leaf act)) }
    ensures lies { (t : Terms) (sizes : ℕ → ℕ) (f : Forest) (before : Option Images) (trees : List Slot)
        (tops : List (Option Flying)) (others : List Live) (shelf : Shelf N) (queue leaves : List ℕ) (s : State)
        (key : ℕ) (x : Flying) (act : LeafOp) → IsSoundRound t sizes f →
        IsKept N.nodes t sizes f before trees tops (live_of key x ∷ others) shelf queue leaves s →
        x.stack ≡ fresh_stack (Leaf act) → LiesOn sizes act }
    ensures comes_back { (t : Terms) (sizes : ℕ → ℕ) (f : Forest) (before : Option Images) (trees : List Slot)
        (tops : List (Option Flying)) (others : List Live) (shelf : Shelf N) (queue leaves : List ℕ) (s : State)
        (key : ℕ) (at : List ℕ) (act : LeafOp) (a : Answer) (after : Images) (h : Held N) (rest : List ℕ) (node : N)
        (shelf_now : Shelf N) (queue_now : List ℕ) →
        IsSoundRound t sizes f →
        IsKept N.nodes t sizes f before trees tops (live_of key (record { at = at; stack = fresh_stack (Leaf act) })
        ∷ others)
        shelf queue leaves s → shelf key ≡ Some h → OneMore key rest leaves →
        AnswersOnLeaf t before act s.images a after →
        N.nodes.Is t node (done_at_once (fresh_stack (Leaf act)) (Leaf act) (Got a)) →
        N.nodes.told node ≡ N.nodes.told h.node → N.nodes.due node →
        IsWith shelf key (Some (with_node h node)) shelf_now → OneMore key queue queue_now →
        StillKept N.nodes t sizes f before trees tops
        (live_of key (record { at = at; stack = done_at_once (fresh_stack (Leaf act)) (Leaf act) (Got a) }) ∷ others)
        shelf_now queue_now rest s.entries after }
    ensures claim { (t : Terms) (sizes : ℕ → ℕ) (f : Forest) (before : Option Images) (trees : List Slot)
        (tops : List (Option Flying)) (lives : List Live) (shelf : Shelf N) (queue leaves : List ℕ) (s : State) →
        IsSoundRound t sizes f → IsKept N.nodes t sizes f before trees tops lives shelf queue leaves s → HasClaim f →
        s.entries ≡ [] }
    ensures takes { (t : Terms) (sizes : ℕ → ℕ) (f : Forest) (before : Option Images) (trees : List Slot)
        (tops : List (Option Flying)) (others : List Live) (shelf : Shelf N) (queue leaves : List ℕ) (s : State)
        (key : ℕ) (x : Flying) (dids : List Did) (st : Stack) (tree : Tree) (free : Bool) → IsSoundRound t sizes f →
        IsKept N.nodes t sizes f before trees tops (live_of key x ∷ others) shelf queue leaves s →
        DoesAll t dids x.stack st →
        AreLawful (sizes_of t.setting.tops) t.used (s.entries ++ choices_of dids) → Contains dids (Took tree free) →
        HasClaim f }
{}

/// A node tells its parent, a node or a tree, which pointer its value will have; it ends, and its parent has its value;
/// and a tree ends. The parent is queued once more exactly where it stalled on the count, and this was its last child
/// of that count. The node does the operation that was asked for this child, and is of its kind; once it ended its
/// value fits.
pub fn engines_hear_of_nodes<N: NodeFacts>()
    ensures tells { (t : Terms) (sizes : ℕ → ℕ) (f : Forest) (before : Option Images) (trees : List Slot)
        (tops : List (Option Flying)) (others : List Live) (shelf : Shelf N) (queue leaves : List ℕ) (s : State)
        (key above : ℕ) (x q : Flying) (h g : Held N) (n : ℕ) (c : Child) (pointer : Option Bp) (node up : N)
        (error : Option Errno)
        (bits : Bits) (shelf_now : Shelf N) (queue_now : List ℕ) →
        IsKept N.nodes t sizes f before trees tops (live_of key x ∷ live_of above q ∷ others) shelf queue leaves s →
        shelf key ≡ Some h → h.parent ≡ OfNode above n → shelf above ≡ Some g → needs_none h.kind ≡ false →
        N.nodes.told h.node ≡ false → WillHave t x.stack.outer pointer → slice_get q.stack.children n ≡ Some c →
        N.nodes.Is t node x.stack → N.nodes.told node ≡ true → N.nodes.due node →
        N.nodes.Is t up (heard_early q.stack n c pointer) → N.nodes.told up ≡ N.nodes.told g.node →
        (N.nodes.due g.node → N.nodes.due up) →
        AreWith shelf key (Some (with_node h node)) above
        (Some (with_both g up (notified h.kind Ready error bits g.tally))) shelf_now →
        OneMoreIf (is_last h.kind Ready g.tally) above queue queue_now →
        StillKept N.nodes t sizes f before trees tops
        (live_of key x ∷ live_of above (record { at = q.at; stack = heard_early q.stack n c pointer }) ∷ others)
        shelf_now queue_now leaves s.entries s.images }
    ensures tells_tree { (t : Terms) (sizes : ℕ → ℕ) (f : Forest) (before : Option Images) (trees : List Slot)
        (tops : List (Option Flying)) (others : List Live) (shelf : Shelf N) (queue leaves : List ℕ) (s : State)
        (key tree : ℕ) (x q : Flying) (h : Held N) (n : ℕ) (c : Child) (pointer : Option Bp) (node : N)
        (shelf_now : Shelf N) →
        IsKept N.nodes t sizes f before trees tops (live_of key x ∷ others) shelf queue leaves s →
        shelf key ≡ Some h → h.parent ≡ OfTree tree n → top_at tops tree ≡ Some q → needs_none h.kind ≡ false →
        N.nodes.told h.node ≡ false → WillHave t x.stack.outer pointer → slice_get q.stack.children n ≡ Some c →
        N.nodes.Is t node x.stack → N.nodes.told node ≡ true → N.nodes.due node →
        IsWith shelf key (Some (with_node h node)) shelf_now →
        StillKept N.nodes t sizes f before trees
        (slice_set tops tree (Some (record { at = q.at; stack = heard_early q.stack n c pointer })))
        (live_of key x ∷ others) shelf_now queue leaves s.entries s.images }
    ensures tells_fits { (t : Terms) (sizes : ℕ → ℕ) (f : Forest) (before : Option Images) (trees : List Slot)
        (tops : List (Option Flying)) (others : List Live) (shelf : Shelf N) (queue leaves : List ℕ) (s : State)
        (key above : ℕ) (x q : Flying) (h g : Held N) (n : ℕ) (c : Child) →
        IsKept N.nodes t sizes f before trees tops (live_of key x ∷ live_of above q ∷ others) shelf queue leaves s →
        shelf key ≡ Some h → h.parent ≡ OfNode above n → shelf above ≡ Some g → needs_none h.kind ≡ false →
        N.nodes.told h.node ≡ false → slice_get q.stack.children n ≡ Some c → 0 < counted h.kind Ready g.tally }
    ensures ends { (t : Terms) (sizes : ℕ → ℕ) (f : Forest) (before : Option Images) (trees : List Slot)
        (tops : List (Option Flying)) (others : List Live) (shelf : Shelf N) (queue leaves : List ℕ) (s : State)
        (key above : ℕ) (x q : Flying) (h g : Held N) (n : ℕ) (c : Child) (v : Value) (rest : List ℕ) (up : N)
        (error : Option Errno)
        (bits : Bits) (shelf_now : Shelf N) (queue_now : List ℕ) →
        IsKept N.nodes t sizes f before trees tops (live_of key x ∷ live_of above q ∷ others) shelf queue leaves s →
        shelf key ≡ Some h → h.parent ≡ OfNode above n → shelf above ≡ Some g → OneMore key rest queue →
        IsEnded t x.stack v →
        (needs_none h.kind ≡ false → N.nodes.told h.node ≡ true) → slice_get q.stack.children n ≡ Some c →
        N.nodes.Is t up (heard_of q.stack n c v) → N.nodes.told up ≡ N.nodes.told g.node →
        (N.nodes.due g.node → N.nodes.due up) →
        AreWith shelf key None above (Some (with_both g up (notified h.kind Done error bits g.tally))) shelf_now →
        OneMoreIf (is_last h.kind Done g.tally) above rest queue_now →
        StillKept N.nodes t sizes f before trees tops
        (live_of above (record { at = q.at; stack = heard_of q.stack n c v }) ∷ others)
        shelf_now queue_now leaves s.entries s.images }
    ensures ends_fits { (t : Terms) (sizes : ℕ → ℕ) (f : Forest) (before : Option Images) (trees : List Slot)
        (tops : List (Option Flying)) (others : List Live) (shelf : Shelf N) (queue leaves : List ℕ) (s : State)
        (key above : ℕ) (x q : Flying) (h g : Held N) (n : ℕ) (c : Child) (v : Value) →
        IsKept N.nodes t sizes f before trees tops (live_of key x ∷ live_of above q ∷ others) shelf queue leaves s →
        shelf key ≡ Some h → h.parent ≡ OfNode above n → shelf above ≡ Some g → IsEnded t x.stack v →
        slice_get q.stack.children n ≡ Some c → FitsTold q.stack c v × (0 < counted h.kind Done g.tally) }
    ensures does_asked { (t : Terms) (sizes : ℕ → ℕ) (f : Forest) (before : Option Images) (trees : List Slot)
        (tops : List (Option Flying)) (others : List Live) (shelf : Shelf N) (queue leaves : List ℕ) (s : State)
        (key above : ℕ) (x q : Flying) (h : Held N) (n : ℕ) (c : Child) →
        IsKept N.nodes t sizes f before trees tops (live_of key x ∷ live_of above q ∷ others) shelf queue leaves s →
        shelf key ≡ Some h → h.parent ≡ OfNode above n → slice_get q.stack.children n ≡ Some c → DoesAsked h x q c }
    ensures value_fits { (t : Terms) (sizes : ℕ → ℕ) (f : Forest) (before : Option Images) (trees : List Slot)
        (tops : List (Option Flying)) (others : List Live) (shelf : Shelf N) (queue leaves : List ℕ) (s : State)
        (key : ℕ) (x : Flying) (v : Value) →
        IsKept N.nodes t sizes f before trees tops (live_of key x ∷ others) shelf queue leaves s → IsEnded t x.stack v →
        FitsWhichever t s.entries x.stack.outer.op v }
    ensures each_journal { (t : Terms) (sizes : ℕ → ℕ) (f : Forest) (before : Option Images) (trees : List Slot)
        (tops : List (Option Flying)) (others : List Live) (shelf : Shelf N) (queue leaves : List ℕ) (s : State)
        (key : ℕ) (x : Flying) (v : Value) (journal : List Choice) →
        IsKept N.nodes t sizes f before trees tops (live_of key x ∷ others) shelf queue leaves s → IsEnded t x.stack v →
        ((a : Ask) → x.stack.outer.op ≢ Find a) → FitsTask journal t x.stack.outer.op v }
    ensures tree_hears { (t : Terms) (sizes : ℕ → ℕ) (f : Forest) (before : Option Images) (trees : List Slot)
        (tops : List (Option Flying)) (others : List Live) (shelf : Shelf N) (queue leaves : List ℕ) (s : State)
        (key tree : ℕ) (x q : Flying) (h : Held N) (n : ℕ) (c : Child) (v : Value) (rest : List ℕ)
        (shelf_now : Shelf N) →
        IsKept N.nodes t sizes f before trees tops (live_of key x ∷ others) shelf queue leaves s →
        shelf key ≡ Some h → h.parent ≡ OfTree tree n → top_at tops tree ≡ Some q → OneMore key rest queue
        → IsEnded t x.stack v →
        slice_get q.stack.children n ≡ Some c → IsWith shelf key None shelf_now →
        StillKept N.nodes t sizes f before trees
        (slice_set tops tree (Some (record { at = q.at; stack = heard_of q.stack n c v })))
        others shelf_now rest leaves s.entries s.images }
    ensures tree_fits { (t : Terms) (sizes : ℕ → ℕ) (f : Forest) (before : Option Images) (trees : List Slot)
        (tops : List (Option Flying)) (others : List Live) (shelf : Shelf N) (queue leaves : List ℕ) (s : State)
        (key tree : ℕ) (x q : Flying) (h : Held N) (n : ℕ) (c : Child) (v : Value) →
        IsKept N.nodes t sizes f before trees tops (live_of key x ∷ others) shelf queue leaves s →
        shelf key ≡ Some h → h.parent ≡ OfTree tree n → top_at tops tree ≡ Some q → IsEnded t x.stack v →
        slice_get q.stack.children n ≡ Some c → FitsTold q.stack c v }
    ensures tree_asked { (t : Terms) (sizes : ℕ → ℕ) (f : Forest) (before : Option Images) (trees : List Slot)
        (tops : List (Option Flying)) (others : List Live) (shelf : Shelf N) (queue leaves : List ℕ) (s : State)
        (key tree : ℕ) (x q : Flying) (h : Held N) (n : ℕ) (c : Child) →
        IsKept N.nodes t sizes f before trees tops (live_of key x ∷ others) shelf queue leaves s →
        shelf key ≡ Some h → h.parent ≡ OfTree tree n → top_at tops tree ≡ Some q →
        slice_get q.stack.children n ≡ Some c → DoesAsked h x q c }
    ensures tree_value_fits { (t : Terms) (sizes : ℕ → ℕ) (f : Forest) (before : Option Images) (trees : List Slot)
        (tops : List (Option Flying)) (lives : List Live) (shelf : Shelf N) (queue leaves : List ℕ) (s : State)
        (n : ℕ) (top : Flying) (v : Value) → IsKept N.nodes t sizes f before trees tops lives shelf queue leaves s →
        top_at tops n ≡ Some top → IsEnded t top.stack v → FitsWhichever t s.entries top.stack.outer.op v }
    ensures tree_ends { (t : Terms) (sizes : ℕ → ℕ) (f : Forest) (before : Option Images) (trees : List Slot)
        (tops : List (Option Flying)) (lives : List Live) (shelf : Shelf N) (queue leaves : List ℕ) (s : State)
        (n : ℕ) (top : Flying) (v : Value) → IsKept N.nodes t sizes f before trees tops lives shelf queue leaves s →
        top_at tops n ≡ Some top → IsEnded t top.stack v →
        StillKept N.nodes t sizes f before (slice_set trees n (Heard v))
        (slice_set tops n None) lives shelf queue leaves s.entries s.images }
{}

/// What an engine finds: the node under a key, its parent, what is queued, and a count to wait for.
pub fn engines_find_nodes<N: NodeFacts>()
    ensures finds { (t : Terms) (sizes : ℕ → ℕ) (f : Forest) (before : Option Images) (trees : List Slot)
        (tops : List (Option Flying)) (lives : List Live) (shelf : Shelf N) (queue leaves : List ℕ) (s : State)
        (key : ℕ)
        (h : Held N) →
        IsKept N.nodes t sizes f before trees tops lives shelf queue leaves s → shelf key ≡ Some h →
        IsFound N.nodes t sizes f before trees tops shelf queue leaves key h s.entries s.images }
    ensures finds_parent { (t : Terms) (sizes : ℕ → ℕ) (f : Forest) (before : Option Images) (trees : List Slot)
        (tops : List (Option Flying)) (others : List Live) (shelf : Shelf N) (queue leaves : List ℕ) (s : State)
        (key above n : ℕ) (x : Flying) (h : Held N) →
        IsKept N.nodes t sizes f before trees tops (live_of key x ∷ others) shelf queue leaves s →
        shelf key ≡ Some h → h.parent ≡ OfNode above n →
        IsParentFound N.nodes t sizes f before trees tops shelf queue leaves key above n x h s.entries s.images }
    ensures finds_tree { (t : Terms) (sizes : ℕ → ℕ) (f : Forest) (before : Option Images) (trees : List Slot)
        (tops : List (Option Flying)) (others : List Live) (shelf : Shelf N) (queue leaves : List ℕ) (s : State)
        (key tree n : ℕ) (x : Flying) (h : Held N) →
        IsKept N.nodes t sizes f before trees tops (live_of key x ∷ others) shelf queue leaves s →
        shelf key ≡ Some h → h.parent ≡ OfTree tree n → IsTreeFound N.nodes tops tree n x h }
    ensures queued_is_held { (t : Terms) (sizes : ℕ → ℕ) (f : Forest) (before : Option Images) (trees : List Slot)
        (tops : List (Option Flying)) (lives : List Live) (shelf : Shelf N) (queue leaves rest : List ℕ) (s : State)
        (key : ℕ) →
        IsKept N.nodes t sizes f before trees tops lives shelf queue leaves s → OneMore key rest queue →
        (h : Held N) × (shelf key ≡ Some h) }
    ensures at_leaf_is_held { (t : Terms) (sizes : ℕ → ℕ) (f : Forest) (before : Option Images) (trees : List Slot)
        (tops : List (Option Flying)) (lives : List Live) (shelf : Shelf N) (queue leaves rest : List ℕ) (s : State)
        (key : ℕ) →
        IsKept N.nodes t sizes f before trees tops lives shelf queue leaves s → OneMore key rest leaves →
        (h : Held N) × (shelf key ≡ Some h) }
    ensures first_counts { (kinds : List ChildKind) (phase : Phase) (x : Tally) (count : Count) →
        first_counted kinds phase x ≡ Some count → (counted count.kind count.phase x ≢ 0) }
    ensures queued_first { (key : ℕ) (queue : List ℕ) → OneMore key queue (key ∷ queue) }
    ensures queued_last { (key : ℕ) (queue : List ℕ) → OneMore key queue (queue ++ key ∷ []) }
{}

/// An engine with nothing queued and nothing at the leaves holds no node; once no tree is under way either the round is
/// settled as by the definitions. Also where no image is told, its trees have values that an oracle gives, which agrees
/// with all that was done, and whose answers fit the journal.
pub fn engines_settle_rounds<N: NodeFacts>()
    ensures not_stuck { (t : Terms) (sizes : ℕ → ℕ) (f : Forest) (before : Option Images) (trees : List Slot)
        (tops : List (Option Flying)) (lives : List Live) (shelf : Shelf N) (queue leaves : List ℕ) (s : State) →
        IsKept N.nodes t sizes f before trees tops lives shelf queue leaves s → queue ≡ [] → leaves ≡ [] → lives ≡ [] }
    ensures all_settled { (t : Terms) (sizes : ℕ → ℕ) (f : Forest) (before : Images) (trees : List Slot)
        (tops : List (Option Flying)) (shelf : Shelf N) (queue leaves : List ℕ) (s : State) (journal : List Choice) →
        IsSoundRound t sizes f → HaveSizes sizes before →
        IsKept N.nodes t sizes f (Some before) trees tops [] shelf queue leaves s → standing tops ≡ []
        → choices_in t.round journal ≡ s.entries →
        (values : List Value) × ((trees ≡ all_heard values)
        × ((settled : IsSettledByEntries journal t f s.entries (round_of values) before s.images)
        × AreChoicesOf (sizes_of t.setting.tops) t.used settled.asks s.entries)) }
    ensures all_answered { (t : Terms) (sizes : ℕ → ℕ) (f : Forest) (before : Option Images) (trees : List Slot)
        (tops : List (Option Flying)) (shelf : Shelf N) (queue leaves : List ℕ) (s : State) (journal : List Choice) →
        IsKept N.nodes t sizes f before trees tops [] shelf queue leaves s → standing tops ≡ []
        → choices_in t.round journal ≡ s.entries →
        (values : List Value)
        × ((trees ≡ all_heard values) × AreAnswered (task_ways journal t) (settles f) s.deeds values) }
{}
