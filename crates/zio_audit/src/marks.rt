//! Which requests are due in which round, and which of them were met, by the numbers of the requests.
ghost use Rattle.std.specs.Prelude.{◌≡◌, ◌<◌, ◌≤◌, ◌^◌, IfOk, MatchBool, None, Some, drop, is_none, length, map, slice_get, slice_set};
ghost use Rattle.std.specs.List.{AllByRecursion, list_all};
ghost use Rattle.zio_types.specs.declared.journal.Completion.{Completion as SeenCompletion};
ghost use Rattle.zio_audit.specs.Marks.{AreMarksOf, AreParentsOf, is_due_with, is_met, is_settled, may_meet, meet_each, named, parent_met};

use std::alloc::Global;
use zio_script::Item;
use zio_types::{Completion, NoMemory, ReqNo};

/// How a request stands.
#[derive(Clone, Copy, Debug, PartialEq, Eq)]
pub(crate) enum Mark {
    /// It doesn't complete.
    Never,
    /// It completes in this round.
    Due(u32),
    /// Its completion was met.
    Met,
}

/// One more than the largest number of a request that completes, 0 where none does.
pub(crate) fn table_len(due: &[Completion]) -> usize
    ensures { AllByRecursion (λ (c : SeenCompletion). c.request < result) due.now }
{
    let mut len = 0;
    for completion in due {
        let next = completion.request as usize + 1;
        if next > len {
            len = next;
        }
    }
    len
}

/// The marks of the requests below the length.
pub(crate) fn marks_of(alloc: Global, due: &[Completion], len: usize) -> Result<Vec<Mark>, NoMemory>
    ensures { IfOk result (λ marks. (length marks.items ≡ len) × AreMarksOf due.now marks.items len) }
{
    let mut marks = vec![in alloc; Mark::Never; len]?;
    for completion in due {
        let at = completion.request as usize;
        if at < len {
            marks[at] = Mark::Due(completion.round);
        }
    }
    Ok(marks)
}

/// The parents of the requests below the length.
pub(crate) fn parents_of(
    alloc: Global,
    items: &[Item],
    len: usize,
) -> Result<Vec<Option<ReqNo>>, NoMemory>
    ensures { IfOk result (λ parents. (length parents.items ≡ len) × AreParentsOf items.now parents.items len) }
{
    let mut parents = vec![in alloc; None; len]?;
    for item in items {
        if let Item::Request(request) = item {
            let at = request.number as usize;
            if at < len {
                parents[at] = request.under;
            }
        }
    }
    Ok(parents)
}

fn is_due(marks: &[Mark], round: u64, request: ReqNo) -> bool
    ensures { result ≡ is_due_with round (slice_get marks.now request) }
{
    match marks.get(request as usize) {
        Some(Mark::Due(due)) => u64::from(*due) == round,
        _ => false,
    }
}

fn was_met(marks: &[Mark], request: ReqNo) -> bool
    ensures { result ≡ is_met (slice_get marks.now request) }
{
    matches!(marks.get(request as usize), Some(Mark::Met))
}

fn was_parent_met(marks: &[Mark], parents: &[Option<ReqNo>], request: ReqNo) -> bool
    ensures { result ≡ parent_met marks.now (slice_get parents.now request) }
{
    match parents.get(request as usize) {
        Some(Some(parent)) => was_met(marks, *parent),
        _ => false,
    }
}

/// Marks the requests of a round as met in this order, if each is due in it and none comes before a child.
pub(crate) fn meet_round(
    marks: &mut [Mark],
    parents: &[Option<ReqNo>],
    round: u64,
    order: &[ReqNo],
) -> bool
    ensures { MatchBool result (meet_each parents.now marks.old (map (named round) order.now) ≡ Some marks.new)
        (meet_each parents.now marks.old (map (named round) order.now) ≡ None) }
{
    for request in order {
        if !is_due(marks, round, *request) || was_parent_met(marks, parents, *request) {
            return false;
        }
        marks[*request as usize] = Mark::Met;
    }
    true
}

/// The least round in which a request is still due, none where nothing is due any more.
pub(crate) fn least_due(marks: &[Mark]) -> Option<u64>
    ensures { is_none result ≡ list_all is_settled marks.now }
{
    let mut least = None;
    for mark in marks {
        if let Mark::Due(round) = mark {
            least = Some(lesser(least, u64::from(*round)));
        }
    }
    least
}

/// The lesser of the two, or this one where there is no other.
pub(crate) fn lesser(one: Option<u64>, other: u64) -> u64 {
    match one {
        Some(one) => one.min(other),
        None => other,
    }
}
