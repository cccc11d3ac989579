//! What the children of a request hand to it.

ghost use Rattle.std.specs.Prelude.{◌≡◌, ◌∷◌, ◌++◌, ◌<◌, ◌≤◌, [], List, IfErr, IfNone, IfOk, IfSome, OnErr, count_by, filter, length, map, not, reverse, vec_len};
ghost use Rattle.std.specs.List.{AllByRecursion};
ghost use Rattle.zio_types.specs.Errors.{worst_of};
ghost use Rattle.zio_gang.specs.Attempts.{bits_of, has_bits};
ghost use Rattle.zio_course.specs.Runners.{AreRisingFrom};
ghost use Rattle.zio_plain.specs.Waits.{IsPast, IsSplitAt, merged, numbers_in, return_of};
ghost use Rattle.zio_plain.specs.declared.waiting.Handed.{Handed as SeenHanded};
ghost use Rattle.zio_plain.specs.declared.waiting.Kept.{Kept as SeenKept};

use crate::waiting::{Handed, Kept};
use std::alloc::Global;
use zio_types::{Bits, Errno, List, NoMemory, worst};

/// Takes what was handed on last, so many times.
pub(crate) fn handed_last(handed: &mut Vec<Handed>, count: u32) -> Result<Vec<Handed>, NoMemory>
    requires { count ≤ vec_len handed.old }
    ensures last { IfOk result (λ last. handed.old.items ≡ handed.new.items ++ last.items) }
    ensures count { IfOk result (λ last. vec_len last ≡ count) }
    ensures err { OnErr result (handed.new.items ≡ handed.old.items) }
{
    let front = handed.len() - count as usize;
    Ok(handed.split_off(front)?)
}

/// The children among what was handed on.
pub(crate) fn children_of(alloc: Global, handed: &[Handed]) -> Result<List<Kept>, NoMemory>
    ensures { IfOk result (λ children. children ≡ map (λ (h : SeenHanded). h.child) handed.now) }
{
    let mut children = List::new(alloc);
    for one in handed {
        children.push(one.child)?;
    }
    Ok(children)
}

/// The children among what was handed on that don't go again.
pub(crate) fn finished_of(alloc: Global, handed: &[Handed]) -> Result<List<Kept>, NoMemory>
    ensures { IfOk result (λ children. children
        ≡ map (λ (h : SeenHanded). h.child) (filter (λ (h : SeenHanded). not (has_bits h.bits)) handed.now)) }
{
    let mut children = List::new(alloc);
    for one in handed {
        if !one.bits.go_again() {
            children.push(one.child)?;
        }
    }
    Ok(children)
}

/// The bits of all that was handed on.
pub(crate) fn bits_of(handed: &[Handed]) -> Bits
    ensures { result ≡ bits_of (map return_of (reverse handed.now)) }
{
    let mut bits = Bits::NONE;
    for one in handed {
        bits = one.bits.join(bits);
    }
    bits
}

/// How many of those that handed it on go again.
pub(crate) fn again_count(handed: &[Handed]) -> u32
    requires { length handed.now < 65536 }
    ensures { result ≡ count_by (λ (h : SeenHanded). has_bits h.bits) handed.now }
{
    let mut count = 0;
    for one in handed {
        if one.bits.go_again() {
            count += 1;
        }
    }
    count
}

/// The worst error of children.
pub(crate) fn worst_of(children: &[Kept]) -> Option<Errno>
    ensures { result ≡ worst_of (map (λ (k : SeenKept). k.error) children.now) }
{
    let mut error = None;
    for child in children {
        error = worst(error, child.error);
    }
    error
}

/// New children, by number, at their places among those that were kept.
pub(crate) fn merged(alloc: Global, new: &[Kept], kept: &[Kept]) -> Result<List<Kept>, NoMemory>
    requires { AreRisingFrom 0 (numbers_in new.now) }
    ensures { IfOk result (λ all. all ≡ merged (reverse new.now) kept.now) }
{
    let mut all = List::new(alloc);
    let mut rest = kept;
    for child in new {
        rest = add_below(&mut all, child.number, rest)?;
        all.push(*child)?;
    }
    all.extend_from_slice(rest)?;
    Ok(all)
}

/// Adds the children at the front whose numbers are below this one, and gives those that are left.
fn add_below<'a>(
    all: &mut List<Kept>,
    number: u32,
    kept: &'a [Kept],
) -> Result<&'a [Kept], NoMemory>
    ensures { IfOk result (λ rest. (front : List SeenKept) × (all.new ≡ all.old ++ front)
        × IsSplitAt number kept.now front rest.now) }
{
    let mut rest = kept;
    while let Some((first, more)) = below(rest, number) {
        all.push(*first)?;
        rest = more;
    }
    Ok(rest)
}

/// The first child, if its number is below this one, and those behind it.
fn below(kept: &[Kept], number: u32) -> Option<(&Kept, &[Kept])>
    ensures some { IfSome result (λ next. (kept.now ≡ next.0.now ∷ next.1.now) × (next.0.now.number < number)) }
    ensures none { IfNone result (IsPast number kept.now) }
{
    match kept {
        [first, more @ ..] if first.number < number => Some((first, more)),
        _ => None,
    }
}
