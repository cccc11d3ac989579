ghost use Rattle.std.specs.Prelude.{◌≡◌, ◌<◌, ◌≤◌, ◌++◌, ℕ, Bool, List, Option, Some, None, Result, Ok, length, map, slice_index, take};
ghost use Rattle.zio_types.specs.declared.error.Errno.{Errno};
ghost use Rattle.zio_cksum.specs.Blocks.{blame, first_good, read_pass, read_place, spot_in};
ghost use Rattle.zio_cksum.specs.Frames.{spots_of};
ghost use Rattle.zio_types.specs.declared.place.Place.{Place};
ghost use Rattle.zio_cksum.specs.Images.{Images, Setting};
ghost use Rattle.zio_mirror.specs.Plans.{answered_by, answers_of, children, leaf_of, order_in, place_answer, place_of, read_child, read_copy, step_of, to_repair};
ghost use Rattle.zio_mirror.specs.declared.plan.PlanStep.TheVariants.{Good, Bad, Try};

/// A plan that is told how reads of its children end has an answer after as many answers as children at most: the
/// child whose bytes a read of all copies finds, or the error that it has. It repairs what that read repairs.
pub fn plans_end_as_reads_do()
    ensures ends { (read : ℕ → Result (List ℕ) Errno) (order : List ℕ) →
        length (answers_of read order) ≤ length order }
    ensures good { (read : ℕ → Result (List ℕ) Errno) (order : List ℕ) (bytes : List ℕ) →
        (first_good read order).found ≡ Some bytes →
        (child : ℕ) × (step_of (record { order = order; answers = answers_of read order }) ≡ Good child)
        × (read child ≡ Ok bytes) }
    ensures bad { (read : ℕ → Result (List ℕ) Errno) (order : List ℕ) →
        (first_good read order).found ≡ None →
        step_of (record { order = order; answers = answers_of read order })
        ≡ Bad (blame (first_good read order).errors) }
    ensures repairs { (read : ℕ → Result (List ℕ) Errno) (order : List ℕ) (bytes : List ℕ) →
        (first_good read order).found ≡ Some bytes →
        to_repair (record { order = order; answers = answers_of read order }) ≡ (first_good read order).failed }
{}

/// Before its answer a plan asks for the child that is read next, and for no other.
pub fn plans_try_what_is_read_next()
    ensures { (read : ℕ → Result (List ℕ) Errno) (order : List ℕ) (k : ℕ) → k < length (answers_of read order) →
        step_of (record { order = order; answers = take k (answers_of read order) }) ≡ Try (slice_index order k) }
{}

/// A read of a place is a read of its leaves as children, in the order of a plan that `for_leaves` makes for them.
pub fn a_place_is_read_by_its_leaves()
    ensures found { (s : Setting) (retry : Bool) (good : List ℕ → Bool) (images : Images) (len : ℕ) (p : Place) →
        (read_place s retry good images len p).found
        ≡ (first_good (read_child s retry good images len p) (order_in s p)).found }
    ensures failed { (s : Setting) (retry : Bool) (good : List ℕ → Bool) (images : Images) (len : ℕ) (p : Place) →
        (read_place s retry good images len p).failed
        ≡ map (leaf_of s p) (first_good (read_child s retry good images len p) (order_in s p)).failed }
    ensures errors { (s : Setting) (retry : Bool) (good : List ℕ → Bool) (images : Images) (len : ℕ) (p : Place) →
        (read_place s retry good images len p).errors
        ≡ (first_good (read_child s retry good images len p) (order_in s p)).errors }
{}

/// A pass over the copies of a block ends as a plan that `for_copies` makes for them, once it is answered by reads of
/// its places. It rewrites all leaves of the places that this plan repairs, and in the good place the leaves that
/// failed there.
pub fn a_pass_repairs_what_plans_do()
    ensures good { (s : Setting) (retry : Bool) (good : List ℕ → Bool) (images : Images) (len : ℕ) (places : List Place)
        (bytes : List ℕ) →
        let plan = answered_by (read_copy s retry good images len places) (children (length places)) in
        let pass = read_pass s retry good images len places in
        pass.found ≡ Some bytes →
        (child : ℕ) × (step_of plan ≡ Good child) × (read_copy s retry good images len places child ≡ Ok bytes)
        × (pass.repairs ≡ spots_of s (map (place_of places) (to_repair plan))
        ++ map (spot_in (place_of places child)) (read_place s retry good images len (place_of places child)).failed) }
    ensures bad { (s : Setting) (retry : Bool) (good : List ℕ → Bool) (images : Images) (len : ℕ)
        (places : List Place) →
        let plan = answered_by (read_copy s retry good images len places) (children (length places)) in
        let pass = read_pass s retry good images len places in
        pass.found ≡ None → step_of plan ≡ Bad (blame pass.errors) }
{}

/// A pass over the copies of a block tries them as one tries children: it finds what the first good place gives,
/// and has the errors of the places that aren't good.
pub fn a_pass_tries_places()
    ensures found { (s : Setting) (retry : Bool) (good : List ℕ → Bool) (images : Images) (len : ℕ)
        (places : List Place) →
        (read_pass s retry good images len places).found
        ≡ (first_good (place_answer s retry good images len) places).found }
    ensures errors { (s : Setting) (retry : Bool) (good : List ℕ → Bool) (images : Images) (len : ℕ)
        (places : List Place) →
        (read_pass s retry good images len places).errors
        ≡ (first_good (place_answer s retry good images len) places).errors }
{}
