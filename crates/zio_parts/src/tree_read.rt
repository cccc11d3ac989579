// The read of a block under way.

ghost use Rattle.std.specs.Prelude.{◌≡◌, ◌++◌, ◌+◌, ◌^◌, ◌<◌, ◌≤◌, ◌∷◌, [], IfErr, IfOk, IfSome, List, None, OnErr, OnOk, Option, Some, length, option_map, slice_get, slice_set};
ghost use Rattle.zio_gang.specs.declared.tree.Head.{Head};
ghost use Rattle.zio_gang.specs.Attempts.{Terms};
ghost use Rattle.zio_trace.specs.Calls.{answered_at};
ghost use Rattle.zio_trace.specs.Plans.{plan};
ghost use Rattle.zio_trace.specs.Tasks.{Got, ReadTree, WalkedBy};
ghost use Rattle.zio_parts.specs.ReadFields.{ReadFields};
ghost use Rattle.zio_parts.specs.declared.tree_read.BodyRead.{BodyRead as SeenRead};
ghost use Rattle.zio_frames.specs.Slots.{Heard, IsOut, outs_before, told_in};
ghost use Rattle.zio_parts.specs.TreeReads.{Reading, ShowsRead, bodies_or, found_of, fresh_read, left_of_read, slots_of, walk_heard, with_phase, with_results};

use crate::bodies::join;
use crate::walked::{Body, Walked};
use std::alloc::Global;
use std::marker::Model;
use zio_blkptr::Bp;
use zio_types::{Bytes, Errno, List, NoMemory, Path};

/// How many bodies are out together at most.
pub const BODIES_OUT_MAX: usize = 3;

/// How far the walk over the headers is.
#[derive(Clone, Copy, Debug)]
enum Phase {
    Unread,
    Out,
    Failed(Errno),
    Found,
}

/// A body that is to be read.
#[derive(Clone, Copy, Debug)]
pub struct BodyRead {
    /// The body's number.
    pub n: usize,
    pub bp: Bp,
    /// Where it stands in its block.
    pub path: Path,
}

/// What the read of a block is to do next.
#[derive(Clone, Copy, Debug)]
pub enum TreeStep {
    /// The walk over its headers is to be made.
    Walk,
    /// This body is to be read.
    Body(BodyRead),
    /// As much is out as can be, for now.
    Wait,
    /// It ended.
    End,
}

/// The read of a block under way: the walk over its headers, and then its bodies in order, at most `BODIES_OUT_MAX`
/// together. Where a header failed no body is read, and the error is the worst of those that failed, else of the
/// bodies.
#[derive(Debug, Drop)]
pub struct TreeRead {
    bp: Bp,
    phase: Phase,
    /// The bodies that the walk came to.
    bodies: List<Body>,
    /// Of those that were handed out, in their order, what was read, none of those that are out.
    results: Vec<Option<Result<Bytes, Errno>>>,
    /// How many of them are out.
    out: usize,
}

impl Model for TreeRead {
    ghost use Rattle.zio_parts.specs.ReadFields.{ReadFields};
    ghost use Rattle.zio_parts.specs.TreeReads.{Reading};

    ghost Value = { Reading };

    ghost view = { λ x. record { bp = x.bp; phase = x.phase; bodies = x.bodies; results = x.results.items } };

    ghost invariant = { λ x. ReadFields x.phase x.bodies x.results.items x.out };
}

impl TreeRead {
    /// Nothing of it is read. Without memory.
    pub fn new(alloc: Global, bp: Bp) -> TreeRead
        ensures fresh { result ≡ fresh_read bp }
        ensures left { (t : Terms) (heads : List Head)
            → left_of_read heads result ≡ plan t (ReadTree (record { bp = bp; heads = heads })) }
    {
        TreeRead {
            bp,
            phase: Phase::Unread,
            bodies: List::new(alloc),
            results: Vec::new(alloc),
            out: 0,
        }
    }

    /// What is to be done next.
    pub fn next(&self) -> TreeStep
        ensures shows { ShowsRead self.now result }
        ensures body { (body : BodyRead) → result ≡ TreeStep.Body body
            → slice_get self.now.bodies body.n ≡ Some body.bp }
        ensures small { (body : BodyRead) → result ≡ TreeStep.Body body → body.n < 2 ^ 63 }
    {
        match self.phase {
            Phase::Unread => TreeStep::Walk,
            Phase::Out => TreeStep::Wait,
            Phase::Failed(_) => TreeStep::End,
            Phase::Found => self.next_body(),
        }
    }

    /// What is to be done next behind a walk without errors.
    fn next_body(&self) -> TreeStep
        requires { self.now.phase ≡ Phase.Found }
        ensures shows { ShowsRead self.now result }
        ensures body { (body : BodyRead) → result ≡ TreeStep.Body body
            → slice_get self.now.bodies body.n ≡ Some body.bp }
        ensures small { (body : BodyRead) → result ≡ TreeStep.Body body → body.n < 2 ^ 63 }
    {
        let n = self.results.len();
        if self.out == BODIES_OUT_MAX {
            return TreeStep::Wait;
        }
        match nth_body(self.bodies.as_slice(), n) {
            Some(body) => TreeStep::Body(body),
            None => {
                if self.out > 0 {
                    TreeStep::Wait
                } else {
                    TreeStep::End
                }
            }
        }
    }

    /// The walk over the headers is out.
    pub fn hand_out_walk(&mut self)
        requires { self.old.phase ≡ Phase.Unread }
        ensures handed { self.new ≡ with_phase self.old Phase.Out }
        ensures slots { slots_of self.new ≡ slots_of self.old ++ IsOut None ∷ [] }
        ensures left { (heads : List Head) → left_of_read heads self.new ≡ left_of_read heads self.old }
    {
        self.phase = Phase::Out;
    }

    /// The read of the next body is out. Where memory is refused nothing is.
    pub fn hand_out_body(&mut self) -> Result<(), NoMemory>
        requires found { self.old.phase ≡ Phase.Found }
        requires body { length self.old.results < length self.old.bodies }
        requires few { length (told_in (slots_of self.old)) < BODIES_OUT_MAX }
        ensures handed { OnOk result (self.new ≡ with_results self.old (self.old.results ++ None ∷ [])) }
        ensures slots { OnOk result (slots_of self.new ≡ slots_of self.old ++ IsOut None ∷ []) }
        ensures left { OnOk result ((heads : List Head) → left_of_read heads self.new ≡ left_of_read heads self.old) }
        ensures err { OnErr result (self.new ≡ self.old) }
    {
        self.results.push(None)?;
        self.out += 1;
        Ok(())
    }

    /// The read of the body that was handed out last isn't out: all is as before that.
    pub fn take_back_body(&mut self)
        requires { (before : Reading) × (self.old ≡ with_results before (before.results ++ None ∷ [])) }
        ensures { (before : Reading) → self.old ≡ with_results before (before.results ++ None ∷ [])
            → self.new ≡ before }
    {
        self.results.pop();
        self.out -= 1;
    }

    /// The walk over the headers ended, and left this.
    pub fn hear_walk(&mut self, walked: Walked)
        requires { self.old.phase ≡ Phase.Out }
        ensures heard { self.new ≡ walk_heard self.old (bodies_or walked) }
        ensures slots { slots_of self.new ≡ [] }
        ensures left { (heads : List Head)
            → left_of_read heads self.new ≡ answered_at 0 (WalkedBy walked) (left_of_read heads self.old) }
    {
        match walked.into_bodies() {
            Ok(bodies) => {
                self.bodies = bodies;
                self.phase = Phase::Found;
            }
            Err(error) => self.phase = Phase::Failed(error),
        }
    }

    /// The nth body was read, or failed.
    pub fn hear_body(&mut self, n: usize, found: Result<Bytes, Errno>)
        requires { slice_get self.old.results n ≡ Some None }
        ensures heard { self.new ≡ with_results self.old (slice_set self.old.results n (Some found)) }
        ensures slots { slots_of self.new ≡ slice_set (slots_of self.old) n (Heard (Got found)) }
        ensures left { (heads : List Head)
            → left_of_read heads self.new ≡ answered_at (outs_before n (slots_of self.old)) (Got found)
            (left_of_read heads self.old) }
    {
        let results = &mut self.results;
        results[n] = Some(found);
        self.out -= 1;
    }

    /// The block's bytes or its error, where it ended. A block of one body is that body's bytes, moved. Where memory is
    /// refused the read comes back.
    pub fn into_found(self, alloc: Global) -> Result<Result<Bytes, Errno>, TreeRead>
        ensures found { IfOk result (λ found. found ≡ found_of self) }
        ensures back { IfErr result (λ read. read ≡ self) }
    {
        let TreeRead {
            bp,
            phase,
            bodies,
            results,
            out,
        } = self;
        match phase {
            Phase::Found => match join(alloc, results) {
                Ok(found) => Ok(found),
                Err(results) => Err(TreeRead {
                    bp,
                    phase,
                    bodies,
                    results,
                    out,
                }),
            },
            Phase::Failed(error) => Ok(Err(error)),
            Phase::Unread | Phase::Out => Ok(Err(Errno::Io)),
        }
    }
}

/// The nth of these bodies.
fn nth_body(bodies: &[Body], n: usize) -> Option<BodyRead>
    ensures pointer { option_map (λ (b : SeenRead). b.bp) result ≡ slice_get bodies.now n }
    ensures number { IfSome result (λ b. b.n ≡ n) }
{
    let body = bodies.get(n)?;
    Some(BodyRead {
        n,
        bp: body.pointer(),
        path: body.path(),
    })
}
