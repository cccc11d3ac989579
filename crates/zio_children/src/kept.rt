// The children of a request that finished, by number.

ghost use Rattle.std.specs.Prelude.{◌≡◌, ◌∷◌, ◌++◌, ◌<◌, ◌≤◌, [], IfNone, IfOk, IfSome, map, reverse};
ghost use Rattle.zio_types.specs.Errors.{worst_of};
ghost use Rattle.zio_children.specs.KeptChildren.{IsPast, IsSplitAt, merged, numbers_in};
ghost use Rattle.zio_children.specs.RequestKids.{RiseFrom};
ghost use Rattle.zio_children.specs.declared.kept.KeptChild.{KeptChild as SeenChild};

use std::alloc::Global;
use zio_blkptr::Bp;
use zio_types::{Errno, List, NoMemory, ReqNo, worst};

/// A child that finished.
#[derive(Clone, Copy, Debug)]
pub struct KeptChild {
    pub number: ReqNo,
    pub error: Option<Errno>,
    /// Of a write that has a place.
    pub pointer: Option<Bp>,
}

/// Their pointers.
pub(crate) fn pointers_in(
    alloc: Global,
    children: &[KeptChild],
) -> Result<List<Option<Bp>>, NoMemory>
    ensures { IfOk result (λ pointers. pointers ≡ map (λ (c : SeenChild). c.pointer) children.now) }
{
    let mut pointers = List::new(alloc);
    for child in children {
        pointers.push(child.pointer)?;
    }
    Ok(pointers)
}

/// The worst of their errors.
pub(crate) fn worst_of(children: &[KeptChild]) -> Option<Errno>
    ensures { result ≡ worst_of (map (λ (c : SeenChild). c.error) children.now) }
{
    let mut error = None;
    for child in children {
        error = worst(error, child.error);
    }
    error
}

/// New children, by number, at their places among those that were kept.
pub(crate) fn merged(
    alloc: Global,
    new: &[KeptChild],
    kept: &[KeptChild],
) -> Result<List<KeptChild>, NoMemory>
    requires { RiseFrom 0 (numbers_in new.now) }
    ensures { IfOk result (λ all. all ≡ merged (reverse new.now) kept.now) }
{
    let mut all = List::new(alloc);
    let mut rest = kept;
    for child in new {
        rest = add_below(&mut all, child.number, rest)?;
        all.push(*child)?;
    }
    all.extend_from_slice(rest)?;
    Ok(all)
}

/// Adds the children at the front whose numbers are below this one, and gives those that are left.
fn add_below<'a>(
    all: &mut List<KeptChild>,
    number: ReqNo,
    kept: &'a [KeptChild],
) -> Result<&'a [KeptChild], NoMemory>
    ensures { IfOk result (λ rest. (front : List SeenChild) × (all.new ≡ all.old ++ front)
        × IsSplitAt number kept.now front rest.now) }
{
    let mut rest = kept;
    while let Some((first, more)) = below(rest, number) {
        all.push(*first)?;
        rest = more;
    }
    Ok(rest)
}

/// The first child, if its number is below this one, and those behind it.
fn below(kept: &[KeptChild], number: ReqNo) -> Option<(&KeptChild, &[KeptChild])>
    ensures some { IfSome result (λ next. (kept.now ≡ next.0.now ∷ next.1.now) × (next.0.now.number < number)) }
    ensures none { IfNone result (IsPast number kept.now) }
{
    match kept {
        [first, more @ ..] if first.number < number => Some((first, more)),
        _ => None,
    }
}
