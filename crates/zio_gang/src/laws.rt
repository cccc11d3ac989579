ghost use Rattle.std.specs.Prelude.{◌≡◌, ◌≢◌, ◌↔◌, ◌<◌, ◌++◌, ◌+◌, ℕ, Bool, List, [], count_by, None, Some, IsTrue, length, map};
ghost use Rattle.zio_types.specs.declared.place.Place.{Place};
ghost use Rattle.zio_types.specs.Choices.{Choice};
ghost use Rattle.zio_types.specs.Places.{SamePlaces};
ghost use Rattle.zio_blkptr.specs.declared.pointer.Bp.{Bp};
ghost use Rattle.zio_cksum.specs.Headers.{Heads, is_header, members_of};
ghost use Rattle.zio_cksum.specs.Images.{Images, Setting};
ghost use Rattle.zio_gang.specs.declared.tree.Tree.{Tree};
ghost use Rattle.zio_gang.specs.Attempts.{Pending, Return, Terms, attempt_each, joined_attempt};
ghost use Rattle.zio_gang.specs.Fates.{ended_requests, held_requests, suspended_requests, unrun};
ghost use Rattle.zio_gang.specs.HeaderFaults.{first_header_fault};
ghost use Rattle.zio_gang.specs.Journals.{choices_in};
ghost use Rattle.zio_gang.specs.Pieces.{body_piece, parts_of};
ghost use Rattle.zio_gang.specs.Rounds.{Bound, NamesOnce, bind, block_of, settle_each, unbind};
ghost use Rattle.zio_gang.specs.Runs.{run_script};
ghost use Rattle.zio_gang.specs.Trees.{walk_kept};
ghost use Rattle.zio_script.specs.declared.script.Request.{Request};
ghost use Rattle.zio_script.specs.declared.script.Script.{Script};
ghost use Rattle.zio_script.specs.Grammar.{IsScriptOf};
ghost use Rattle.zio_script.specs.Requests.{requests_of};

/// The bound names are a map: a name that is bound has its block, one that is unbound has none, no name stands twice,
/// and no other name is touched.
pub fn bound_names_are_a_map()
    ensures bound { (name : List ℕ) (tree : Tree) (bound : Bound) → block_of (bind name tree bound) name ≡ Some tree }
    ensures unbound { (name : List ℕ) (bound : Bound) → block_of (unbind name bound) name ≡ None }
    ensures bind_once { (name : List ℕ) (tree : Tree) (bound : Bound) → NamesOnce bound
        → NamesOnce (bind name tree bound) }
    ensures unbind_once { (name : List ℕ) (bound : Bound) → NamesOnce bound → NamesOnce (unbind name bound) }
    ensures others_bound { (name other : List ℕ) (tree : Tree) (bound : Bound) → other ≢ name →
        block_of (bind name tree bound) other ≡ block_of bound other }
    ensures others_unbound { (name other : List ℕ) (bound : Bound) → other ≢ name →
        block_of (unbind name bound) other ≡ block_of bound other }
{}

/// A list of trees is attempted as its front is, and then as its rest is with what the front handed on: so a request
/// is attempted as its children's trees are, one after another, and then it itself.
pub fn trees_are_attempted_in_turn()
    ensures { (journal : List Choice) (t : Terms) (attempt : ℕ) (front rest : List Pending) (returns : List Return)
        (images : Images) →
        attempt_each journal t attempt (front ++ rest) returns images
        ≡ joined_attempt (attempt_each journal t attempt front returns images) (attempt_each journal t attempt rest) }
{}

/// Bytes without a fault are the header of some members, and those of the members that they name: so what is written
/// for members that stand from the front and have the sizes of the block's is read back as these.
pub fn headers_have_no_fault()
    ensures accepted { (place : Place) (birth size : ℕ) (bytes : List ℕ) → 0 < size → length bytes ≡ 512 →
        (first_header_fault place birth size bytes ≡ None) ↔ IsTrue (is_header place birth size bytes) }
    ensures read_back { (bytes : List ℕ) (place : Place) (birth size : ℕ) (members : List Bp) → 0 < size →
        Heads bytes place birth size members →
        (first_header_fault place birth size bytes ≡ None) × (members_of bytes ≡ members) }
{}

/// What running trees gives depends only on the journal's choices of that round, and on the used places only as a set.
pub fn a_round_depends_on_its_own_choices()
    ensures choices { (journal other : List Choice) (t : Terms) (trees : List (List Pending)) (images : Images) →
        choices_in t.round journal ≡ choices_in t.round other →
        settle_each journal t trees images ≡ settle_each other t trees images }
    ensures used { (journal : List Choice) (t : Terms) (used : List Place) (trees : List (List Pending))
        (images : Images) →
        SamePlaces t.used used →
        settle_each journal t trees images ≡ settle_each journal (record t { used = used }) trees images }
{}

/// Where no header fails, the bodies that a read of a tree comes to are those of the block's pieces, in their order.
pub fn a_tree_is_read_by_its_pieces()
    ensures { (s : Setting) (tree : Tree) (images : Images) → (walk_kept s tree images).errors ≡ [] →
        map body_piece (walk_kept s tree images).bodies ≡ (parts_of tree).bodies }
{}

/// No request of an accepted script is lost in a run, and none is added: of each kind of request the script has as many
/// as ended in its rounds, are left in suspended trees, stand in held batches, and are unrun behind a panic. Since
/// numbers rise, each request is in one of these, once.
pub fn each_request_has_one_fate()
    ensures { (text : List ℕ) (script : Script) (images : Images) (journal : List Choice)
        (kind : Request → Bool) → IsScriptOf text script →
        let course = run_script script images journal in
        count_by kind (requests_of script.items) ≡ count_by kind (ended_requests course.events)
        + count_by kind (suspended_requests course.state) + count_by kind (held_requests course.state)
        + count_by kind (unrun script images journal) }
{}
