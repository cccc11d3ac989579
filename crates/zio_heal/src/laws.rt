ghost use Rattle.std.specs.Prelude.{◌≡◌, ◌≤◌, ◌∷◌, ◌++◌, ℕ, Bool, Contains, IfOk, IsOk, IsSome, List, None, Option, Some, count_by, false, length, map, true};
ghost use Rattle.std.specs.List.{AllByRecursion};
ghost use Rattle.zio_types.specs.declared.place.Place.{Place};
ghost use Rattle.zio_types.specs.Choices.{Choice};
ghost use Rattle.zio_types.specs.declared.request.Prio.{Prio};
ghost use Rattle.zio_blkptr.specs.declared.pointer.Bp.{Bp};
ghost use Rattle.zio_blkptr.specs.declared.pointer.SumKind.{SumKind};
ghost use Rattle.zio_script.specs.declared.script.Body.{Body};
ghost use Rattle.zio_script.specs.declared.script.Request.{Request};
ghost use Rattle.zio_script.specs.declared.script.Script.{Script};
ghost use Rattle.zio_script.specs.declared.script.Work.TheVariants.{Write};
ghost use Rattle.zio_script.specs.Bodies.{body_of};
ghost use Rattle.zio_script.specs.Whys.{is_clear};
ghost use Rattle.zio_script.specs.Grammar.{IsScriptOf};
ghost use Rattle.zio_cksum.specs.Blocks.{read_block, read_pass, write_piece};
ghost use Rattle.zio_cksum.specs.Frames.{FitSpots, HaveRoom, SameOutside, spots_of};
ghost use Rattle.zio_cksum.specs.Images.{Images, Setting, Spot};
ghost use Rattle.zio_gang.specs.declared.tree.Tree.{Tree};
ghost use Rattle.zio_gang.specs.Attempts.{Pending, Terms, attempt_tree, own_work, writing_of};
ghost use Rattle.zio_gang.specs.Journals.{AreLawful, IsLawfulJournal, choices_in};
ghost use Rattle.zio_gang.specs.Rounds.{Bound, pending_trees, settle_each};
ghost use Rattle.zio_gang.specs.Runs.{rounds_of, run_script};
ghost use Rattle.zio_gang.specs.Trees.{free_tree, read_tree, sizes_of, tree_places};
ghost use Rattle.zio_gang.specs.Writes.{Writing, content_of, place_part};
ghost use Rattle.zio_trace.specs.Leaves.{HaveSizes};
ghost use Rattle.zio_trace.specs.Plans.{plan};
ghost use Rattle.zio_trace.specs.Programs.{Deed, Happen, Made};
ghost use Rattle.zio_trace.specs.Readers.{CopiesApart};
ghost use Rattle.zio_trace.specs.RoundTraces.{Trace, is_single_or_piece, own_trace, task_trace};
ghost use Rattle.zio_trace.specs.RunTraces.{RoundStart, in_round, starts_of};
ghost use Rattle.zio_trace.specs.Separate.{NoneMeet};
ghost use Rattle.zio_trace.specs.SoundRounds.{IsOwnBlock};
ghost use Rattle.zio_trace.specs.Tasks.{ReadCopies, ReadTree, Task, Test, Value, WriteCopies, WritePart, Wrote, good_by, got, means};
ghost use Rattle.zio_report.specs.Meanings.{tops_of};
ghost use Rattle.zio_heal.specs.Contents.{EachPiece, IsGivenGood, IsGivenIn, IsHeld};
ghost use Rattle.zio_heal.specs.Copies.{AreElsewhere, HasCopy, IsPastFaults, StoresAsGiven, spots_in};
ghost use Rattle.zio_heal.specs.Discipline.{AreUnfailing, EndWithoutError, IsUnfailing, MayNotFail};
ghost use Rattle.zio_heal.specs.Given.{Deeds, IsTrueRead};
ghost use Rattle.zio_heal.specs.Healed.{IsHealed, IsHealedRequest};
ghost use Rattle.zio_heal.specs.PlainStore.{plain_store};
ghost use Rattle.zio_heal.specs.Pools.{IsBlockSize, IsPool, IsWriting};
ghost use Rattle.zio_heal.specs.SafeBlocks.{Contents};
ghost use Rattle.zio_heal.specs.SafeRounds.{IsSafeEnd, IsSafeStart};
ghost use Rattle.zio_heal.specs.SameAnswers.{AnswerAlike, IsHealingRun};
ghost use Rattle.zio_heal.specs.Spared.{LieOn, SparesBy};
ghost use Rattle.zio_heal.specs.StoredPlainly.{IsStoredPlainlyIfHealed};
ghost use Rattle.zio_heal.specs.Whole.{AreWhole};

/// Where no request may fail, whatever ends by being run ends without an error, in one attempt and in a round, and what
/// is left keeps no child with an error. So it is from a batch's first round on.
pub fn requests_that_may_not_fail_end_without_error()
    ensures healed { (r : Request) → IsHealedRequest r → MayNotFail r }
    ensures begin { (bound : Bound) (birth : ℕ) (trees : List (List Request)) →
        AllByRecursion (AllByRecursion MayNotFail) trees → AreUnfailing (pending_trees bound birth trees) }
    ensures attempts { (journal : List Choice) (t : Terms) (attempt : ℕ) (tree : List Pending) (images : Images) →
        AllByRecursion IsUnfailing tree →
        let done = attempt_tree journal t attempt tree images in
        EndWithoutError done.ended × AllByRecursion IsUnfailing done.again }
    ensures rounds { (journal : List Choice) (t : Terms) (trees : List (List Pending)) (images : Images) →
        AreUnfailing trees →
        let ran = settle_each journal t trees images in
        EndWithoutError ran.ended × AreUnfailing ran.left }
{}

/// In the run of a script that heals no round begins with a request that may fail, or with a child's error, so
/// whatever ends by being run ends without one: errors come of admission alone. Its rows turn nothing that is stored,
/// and none is met at a resume point that is as high as its clears are many.
pub fn healed_scripts_keep_their_discipline()
    ensures starts { (script : Script) (images : Images) (journal : List Choice) → IsHealed script →
        AllByRecursion (λ (s : RoundStart). AreUnfailing s.trees) (starts_of script images journal) }
    ensures ended { (script : Script) (images : Images) (journal : List Choice) → IsHealed script →
        AllByRecursion (λ (s : RoundStart). EndWithoutError (settle_each journal s.terms s.trees s.images).ended)
        (starts_of script images journal) }
    ensures stores { (script : Script) (s : Setting) → IsHealed script → s.rows ≡ script.faults → StoresAsGiven s }
    ensures past { (script : Script) (s : Setting) → IsHealed script → s.rows ≡ script.faults →
        count_by is_clear script.items ≤ s.point → IsPastFaults s }
{}

/// A copy stays where the images change outside its spots, as they do by reads and writes of other places.
pub fn copies_stay_while_others_change()
    ensures outside { (spots others : List Spot) (bytes : List ℕ) (old new : Images) →
        HaveRoom (length bytes) spots → AreElsewhere spots others → SameOutside others old new →
        HasCopy spots bytes old → HasCopy spots bytes new }
    ensures reads { (s : Setting) (repair : Bool) (good : List ℕ → Bool) (len : ℕ) (places : List Place)
        (spots : List Spot) (bytes : List ℕ) (images : Images) →
        FitSpots (spots_of s places) images → HaveRoom (length bytes) spots → AreElsewhere spots (spots_of s places) →
        HasCopy spots bytes images → HasCopy spots bytes (read_block s repair good images len places).images }
    ensures writes { (s : Setting) (given : List ℕ) (places : List Place) (spots : List Spot) (bytes : List ℕ)
        (images : Images) →
        FitSpots (spots_of s places) images → HaveRoom (length bytes) spots → AreElsewhere spots (spots_of s places) →
        HasCopy spots bytes images → HasCopy spots bytes (write_piece s given places images).images }
{}

/// Where no row turns what is stored, a copy lasts through reads of itself that give its bytes or an error, and so
/// through every trace at pieces whose operations spare it.
pub fn copies_last_where_they_are_spared()
    ensures same { (s : Setting) (repair : Bool) (good : List ℕ → Bool) (len : ℕ) (places : List Place) (bytes : List ℕ)
        (images : Images) →
        StoresAsGiven s → FitSpots (spots_of s places) images → HaveRoom (length bytes) (spots_of s places) →
        CopiesApart (spots_of s places) →
        IfOk (read_block s repair good images len places).found (λ (given : List ℕ). given ≡ bytes) →
        HasCopy (spots_of s places) bytes images →
        HasCopy (spots_of s places) bytes (read_block s repair good images len places).images }
    ensures traces { (journal : List Choice) (t : Terms) (sizes : ℕ → ℕ) (spots : List Spot) (bytes : List ℕ)
        (ds : Trace) (before after : Images) →
        StoresAsGiven t.setting → HaveSizes sizes before → HaveRoom (length bytes) spots → CopiesApart spots →
        AllByRecursion (λ (d : Deed Task Value). SparesBy sizes t.setting spots bytes d.op d.answer) ds →
        Happen (means journal t) ds before after →
        HasCopy spots bytes before → HaveSizes sizes after × HasCopy spots bytes after }
{}

/// Where no row turns what is stored, a piece that was written without error has a copy in each of its places, and so
/// one among all of them.
pub fn pieces_written_have_a_copy_in_each_place()
    ensures each { (s : Setting) (bytes : List ℕ) (places : List Place) (images : Images) →
        StoresAsGiven s → FitSpots (spots_of s places) images → HaveRoom (length bytes) (spots_of s places) →
        CopiesApart (spots_of s places) → (write_piece s bytes places images).error ≡ None →
        AllByRecursion (λ (p : Place). HasCopy (spots_in s p) bytes (write_piece s bytes places images).images) places }
    ensures any { (s : Setting) (bytes : List ℕ) (places : List Place) (p : Place) (images : Images) →
        Contains places p → HasCopy (spots_in s p) bytes images → HasCopy (spots_of s places) bytes images }
{}

/// What a write without error is made of has none either, down to the pieces of its block: its bodies and its headers
/// are written without error, and it has a pointer. A copy that such a write left lasts, where the operations after it
/// spare it.
pub fn writes_without_error_are_whole()
    ensures made { (t : Terms) (calls ds : Trace) → Made (plan t) calls ds → AreWhole calls → AreWhole ds }
    ensures traces { (stops : Task → Bool) (journal : List Choice) (t : Terms) (attempt : ℕ) (p : Pending)
        (sum : SumKind) (copies levels : ℕ) (path bytes : List ℕ) (images : Images) →
        (place_part levels journal (writing_of t attempt p sum copies) path bytes images).error ≡ None →
        AreWhole (task_trace stops journal t (WritePart attempt p sum copies levels path bytes) images) }
    ensures pointer { (levels : ℕ) (journal : List Choice) (w : Writing) (path bytes : List ℕ) (images : Images) →
        (place_part levels journal w path bytes images).error ≡ None →
        IsSome (place_part levels journal w path bytes images).pointer }
    ensures last { (journal : List Choice) (t : Terms) (sizes : ℕ → ℕ) (bytes : List ℕ) (p : Place) (ps : List Place)
        (rest : Trace) (before after : Images) →
        let spots = spots_of t.setting (p ∷ ps) in
        StoresAsGiven t.setting → HaveSizes sizes before → LieOn sizes spots → HaveRoom (length bytes) spots →
        CopiesApart spots →
        Happen (means journal t) (record { op = WriteCopies bytes (p ∷ ps); answer = Wrote None } ∷ rest) before after →
        AllByRecursion (λ (d : Deed Task Value). SparesBy sizes t.setting spots bytes d.op d.answer) rest →
        HasCopy spots bytes after }
{}

/// With no row that is met any more, a read of places that have a copy with good bytes is good in its first pass. So it
/// is in a trace, where the operations before the read spare the copy.
pub fn copies_are_found_once_faults_are_past()
    ensures first { (s : Setting) (good : List ℕ → Bool) (images : Images) (bytes : List ℕ) (places : List Place) →
        IsPastFaults s → HasCopy (spots_of s places) bytes images → good bytes ≡ true →
        IsSome (read_pass s false good images (length bytes) places).found }
    ensures read { (s : Setting) (repair : Bool) (good : List ℕ → Bool) (images : Images) (bytes : List ℕ)
        (places : List Place) →
        IsPastFaults s → HasCopy (spots_of s places) bytes images → good bytes ≡ true →
        IsOk (read_block s repair good images (length bytes) places).found }
    ensures traces { (journal : List Choice) (t : Terms) (sizes : ℕ → ℕ) (repair : Bool) (test : Test)
        (places : List Place) (bytes : List ℕ) (value : Value) (front rest : Trace) (before after : Images) →
        let spots = spots_of t.setting places in
        let read : Deed Task Value = record { op = ReadCopies repair test (length bytes) places; answer = value } in
        StoresAsGiven t.setting → IsPastFaults t.setting → HaveSizes sizes before →
        HaveRoom (length bytes) spots → CopiesApart spots → good_by test bytes ≡ true →
        AllByRecursion (λ (d : Deed Task Value). SparesBy sizes t.setting spots bytes d.op d.answer) front →
        Happen (means journal t) (front ++ read ∷ rest) before after →
        HasCopy spots bytes before → IsOk (got value) }
{}

/// The own work of a write without error makes a tree: the header of each gang in it is kept, its bodies join to the
/// content, of each piece one copy at least is held, and its bytes are those that were given last for its places. No
/// two of its places meet, and none meets one that was in use.
pub fn placed_writes_have_their_pieces()
    ensures tree { (journal : List Choice) (t : Terms) (attempt : ℕ) (p : Pending) (name : List ℕ) (sum : SumKind)
        (copies : ℕ) (prio : Prio) (body : Body) (pointers : List (Option Bp)) (images : Images) →
        let own = own_work journal t attempt p (Write name sum copies prio body) pointers images in
        own.error ≡ None → IsSome own.tree }
    ensures held { (journal : List Choice) (t : Terms) (attempt : ℕ) (p : Pending) (name : List ℕ) (sum : SumKind)
        (copies : ℕ) (prio : Prio) (body : Body) (pointers : List (Option Bp)) (sizes : ℕ → ℕ) (images : Images)
        (tree : Tree) →
        let own = own_work journal t attempt p (Write name sum copies prio body) pointers images in
        let content = content_of pointers (body_of body) in
        IsPool sizes t.setting.tops → AreLawful (sizes_of t.setting.tops) t.used (choices_in t.round journal) →
        IsWriting p copies → IsBlockSize (length content) → own.error ≡ None → own.tree ≡ Some tree →
        StoresAsGiven t.setting → HaveSizes sizes images →
        EachPiece (IsHeld t.setting own.images) tree content }
    ensures given { (journal : List Choice) (t : Terms) (attempt : ℕ) (p : Pending) (name : List ℕ) (sum : SumKind)
        (copies : ℕ) (prio : Prio) (body : Body) (pointers : List (Option Bp)) (sizes : ℕ → ℕ) (images : Images)
        (tree : Tree) →
        let own = own_work journal t attempt p (Write name sum copies prio body) pointers images in
        let content = content_of pointers (body_of body) in
        IsPool sizes t.setting.tops → AreLawful (sizes_of t.setting.tops) t.used (choices_in t.round journal) →
        IsWriting p copies → IsBlockSize (length content) → own.error ≡ None → own.tree ≡ Some tree →
        p.request.work ≡ Write name sum copies prio body → (before : Deeds) →
        EachPiece (IsGivenIn (before ++ map (in_round t)
        (own_trace is_single_or_piece journal t attempt p pointers images)))
        tree content }
    ensures sound { (journal : List Choice) (t : Terms) (attempt : ℕ) (p : Pending) (name : List ℕ) (sum : SumKind)
        (copies : ℕ) (prio : Prio) (body : Body) (pointers : List (Option Bp)) (sizes : ℕ → ℕ) (images : Images)
        (tree : Tree) →
        let own = own_work journal t attempt p (Write name sum copies prio body) pointers images in
        IsPool sizes t.setting.tops → AreLawful (sizes_of t.setting.tops) t.used (choices_in t.round journal) →
        IsWriting p copies → IsBlockSize (length (content_of pointers (body_of body))) → own.error ≡ None →
        own.tree ≡ Some tree → (used : List Place) → AllByRecursion (Contains used) (tree_places tree) →
        IsOwnBlock (sizes_of t.setting.tops) used tree }
    ensures apart { (journal : List Choice) (t : Terms) (attempt : ℕ) (p : Pending) (name : List ℕ) (sum : SumKind)
        (copies : ℕ) (prio : Prio) (body : Body) (pointers : List (Option Bp)) (sizes : ℕ → ℕ) (images : Images)
        (tree : Tree) →
        let own = own_work journal t attempt p (Write name sum copies prio body) pointers images in
        IsPool sizes t.setting.tops → AreLawful (sizes_of t.setting.tops) t.used (choices_in t.round journal) →
        IsWriting p copies → IsBlockSize (length (content_of pointers (body_of body))) → own.error ≡ None →
        own.tree ≡ Some tree → NoneMeet (tree_places tree) t.used }
{}

/// A block whose bodies are read as they were given last is read as its content, or not at all. Where each of its
/// pieces is held and no row is met any more, it is read without error, and so is what a free of it reads.
pub fn blocks_are_read_as_their_content()
    ensures content { (journal : List Choice) (t : Terms) (before : Deeds) (tree : Tree) (content : List ℕ)
        (images : Images) →
        EachPiece (IsGivenGood before) tree content →
        AllByRecursion (λ (d : Deed Task Value). IsTrueRead before d.op d.answer)
        (task_trace is_single_or_piece journal t (ReadTree tree) images) →
        IfOk (read_tree t.setting tree images).found (λ (bytes : List ℕ). bytes ≡ content) }
    ensures read { (s : Setting) (sizes : ℕ → ℕ) (used : List Place) (tree : Tree) (content : List ℕ)
        (images : Images) →
        IsPool sizes s.tops → IsPastFaults s → IsOwnBlock (sizes_of s.tops) used tree → HaveSizes sizes images →
        EachPiece (IsHeld s images) tree content → IsOk (read_tree s tree images).found }
    ensures free { (s : Setting) (sizes : ℕ → ℕ) (used : List Place) (tree : Tree) (content : List ℕ)
        (images : Images) →
        IsPool sizes s.tops → IsPastFaults s → IsOwnBlock (sizes_of s.tops) used tree → HaveSizes sizes images →
        EachPiece (IsHeld s images) tree content → (free_tree s tree images).error ≡ None }
{}

/// A round over bound blocks that are safe, of requests that may not fail, leaves bound blocks that are safe: each that
/// stays, and that of each write that ended. Each read gave the content of its name, and what is left may run again.
/// Where no row is met any more and no sector was refused, nothing is left.
pub fn rounds_end_as_safely_as_they_start()
    ensures { (journal : List Choice) (sizes : ℕ → ℕ) (ds : Deeds) (contents : Contents) (children : ℕ → ℕ)
        (s : RoundStart) →
        IsSafeStart journal sizes ds contents children s → IsSafeEnd journal sizes ds contents children s }
{}

/// A script that heals is stored as by a plain store, whatever faults its table has: the run is complete, each request
/// is answered alike, and the names that are bound in the end have alike contents.
pub fn healed_scripts_store_plainly()
    ensures { (text : List ℕ) (script : Script) (images : Images) (journal : List Choice) →
        IsScriptOf text script →
        IsLawfulJournal (sizes_of (tops_of script images))
        (rounds_of (run_script script images journal).events) journal →
        IsStoredPlainlyIfHealed script images journal }
{}

/// Two scripts with the same lines of requests, both of which heal, answer alike: with fault rows and without them,
/// over whatever images, whatever places the two runs choose.
pub fn healed_faults_leave_no_trace()
    ensures { (first second : List ℕ) (script other : Script) (images others : Images) (journal choices : List Choice) →
        IsScriptOf first script → IsScriptOf second other → other.items ≡ script.items →
        IsHealingRun script images journal → IsHealingRun other others choices →
        AnswerAlike (plain_store script).replies (run_script script images journal)
        (run_script other others choices) }
{}
