// What a walk over headers left.

ghost use Rattle.std.specs.Prelude.{◌≡◌, ◌+◌, ◌∷◌, [], IfOk, Some, Option, length};
ghost use Rattle.zio_types.specs.Errors.{worst_of};
ghost use Rattle.zio_cksum.specs.Blocks.{blame};
ghost use Rattle.zio_gang.specs.declared.tree.Tree.{Tree};
ghost use Rattle.zio_trace.specs.Calls.{answered_at};
ghost use Rattle.zio_trace.specs.Plans.{only, plan_claim, plan_free, stopped};
ghost use Rattle.zio_trace.specs.Programs.{Ends};
ghost use Rattle.zio_trace.specs.Tasks.{WalkedBy};
ghost use Rattle.zio_parts.specs.Gathers.{as_counted};
ghost use Rattle.zio_parts.specs.HeadWalks.{body_of, no_walk};
ghost use Rattle.zio_parts.specs.TreeReads.{bodies_or, claiming};

use std::alloc::Global;
use std::marker::Model;
use zio_blkptr::Bp;
use zio_gang::{Head, Tree};
use zio_mirror::write_result;
use zio_types::{Errno, List, NoMemory, Path};

/// A body that a walk over headers came to: its pointer, and where it stands in its block. A contract sees the pointer.
#[derive(Debug, Drop)]
pub(crate) struct Body {
    bp: Bp,
    path: Path,
}

impl Model for Body {
    ghost use Rattle.zio_blkptr.specs.declared.pointer.Bp.{Bp as SeenBp};

    ghost Value = { SeenBp };

    ghost view = { λ b. b.bp };
}

impl Body {
    pub(crate) fn pointer(&self) -> Bp
        ensures { result ≡ self.now }
    {
        self.bp
    }

    pub(crate) fn path(&self) -> Path {
        self.path
    }
}

/// What a walk over headers left, each in order: its errors, the bodies that it came to, and the headers that it read.
#[derive(Debug, Drop)]
pub struct Walked {
    errors: List<Option<Errno>>,
    bodies: List<Body>,
    heads: List<Head>,
}

/// How many items of each kind a walk left.
#[derive(Clone, Copy, Debug)]
pub(crate) struct Counts {
    pub(crate) errors: usize,
    pub(crate) bodies: usize,
    pub(crate) heads: usize,
}

impl Counts {
    /// As many as both. More than can be counted counts as the most.
    pub(crate) fn and(self, others: Counts) -> Counts
        ensures errors { result.errors ≡ as_counted (self.errors + others.errors) }
        ensures bodies { result.bodies ≡ as_counted (self.bodies + others.bodies) }
        ensures heads { result.heads ≡ as_counted (self.heads + others.heads) }
    {
        Counts {
            errors: self.errors.saturating_add(others.errors),
            bodies: self.bodies.saturating_add(others.bodies),
            heads: self.heads.saturating_add(others.heads),
        }
    }
}

impl Model for Walked {
    ghost use Rattle.zio_trace.specs.Tasks.{Walked as Left};

    ghost Value = { Left };

    ghost view = { λ w. record { errors = w.errors; bodies = w.bodies; heads = w.heads } };
}

impl Walked {
    /// A walk that met nothing.
    pub(crate) fn nothing(alloc: Global) -> Walked
        ensures { result ≡ no_walk }
    {
        Walked {
            errors: List::new(alloc),
            bodies: List::new(alloc),
            heads: List::new(alloc),
        }
    }

    /// A walk that ended with this error.
    pub(crate) fn stopped(alloc: Global, error: Errno) -> Result<Walked, NoMemory>
        ensures { IfOk result (λ walked. walked ≡ stopped error) }
    {
        let mut errors = List::new(alloc);
        errors.push(Some(error))?;
        Ok(Walked {
            errors,
            bodies: List::new(alloc),
            heads: List::new(alloc),
        })
    }

    /// A walk that came to the body with this pointer, which stands at this path.
    pub(crate) fn body(alloc: Global, bp: Bp, path: Path) -> Result<Walked, NoMemory>
        ensures { IfOk result (λ walked. walked ≡ body_of bp) }
    {
        let mut bodies = List::new(alloc);
        bodies.push(Body { bp, path })?;
        Ok(Walked {
            errors: List::new(alloc),
            bodies,
            heads: List::new(alloc),
        })
    }

    /// A walk that left these.
    pub(crate) fn of(errors: List<Option<Errno>>, bodies: List<Body>, heads: List<Head>) -> Walked
        ensures { result ≡ record { errors = errors; bodies = bodies; heads = heads } }
    {
        Walked {
            errors,
            bodies,
            heads,
        }
    }

    /// Its errors, its bodies and its headers.
    pub(crate) fn into_parts(self) -> (Vec<Option<Errno>>, Vec<Body>, Vec<Head>)
        ensures errors { result.0.items ≡ self.errors }
        ensures bodies { result.1.items ≡ self.bodies }
        ensures heads { result.2.items ≡ self.heads }
    {
        (
            self.errors.into_vec(),
            self.bodies.into_vec(),
            self.heads.into_vec(),
        )
    }

    /// How many it left of each.
    pub(crate) fn counts(&self) -> Counts
        ensures errors { result.errors ≡ length self.now.errors }
        ensures bodies { result.bodies ≡ length self.now.bodies }
        ensures heads { result.heads ≡ length self.now.heads }
    {
        Counts {
            errors: self.errors.len(),
            bodies: self.bodies.len(),
            heads: self.heads.len(),
        }
    }

    /// The worst of its errors, or none. A free of the block has this error.
    pub fn error(&self) -> Option<Errno>
        ensures worst { result ≡ worst_of self.now.errors }
        ensures freed { (tree : Tree) → answered_at 0 (WalkedBy self.now) (plan_free (Some tree)) ≡ Ends (only result) }
    {
        worst_of(self.errors.as_slice())
    }

    /// The bodies that it came to, or the worst of its errors.
    pub(crate) fn into_bodies(self) -> Result<List<Body>, Errno>
        ensures { result ≡ bodies_or self }
    {
        if self.errors.is_empty() {
            Ok(self.bodies)
        } else {
            Err(blame(self.errors.as_slice()))
        }
    }

    /// What a claim of this pointer makes of it: the block whose places are to be taken, or the worst of its errors.
    pub fn into_claimed(self, bp: Bp) -> Result<Tree, Errno>
        ensures { answered_at 0 (WalkedBy self) (plan_claim (Some bp)) ≡ claiming result }
    {
        if self.errors.is_empty() {
            Ok(Tree {
                bp,
                heads: self.heads,
            })
        } else {
            Err(blame(self.errors.as_slice()))
        }
    }
}

fn worst_of(errors: &[Option<Errno>]) -> Option<Errno>
    ensures { result ≡ worst_of errors.now }
{
    if errors.is_empty() {
        None
    } else {
        write_result(errors, true)
    }
}

/// The worst of what failed.
pub(crate) fn blame(errors: &[Option<Errno>]) -> Errno
    ensures { result ≡ blame errors.now }
{
    worst_of(errors).unwrap_or(Errno::Nxio)
}
