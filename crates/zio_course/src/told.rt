//! What is told of a round's requests: their lines, and the names that they bound or unbound.

ghost use Rattle.std.specs.Prelude.{◌≡◌, ◌++◌, ℕ, List, IfOk, OnOk, reverse, map};
ghost use Rattle.zio_script.specs.Accepted.{AreRising};
ghost use Rattle.zio_script.specs.Requests.{kind_of, name_of, requests_of};
ghost use Rattle.zio_script.specs.declared.script.Item.TheVariants.{Request as RequestLine};
ghost use Rattle.zio_script.specs.declared.script.Request.{Request};
ghost use Rattle.zio_gang.specs.Rounds.{block_of, bound_after, bound_unless};
ghost use Rattle.zio_report.specs.Reports.{result_with};
ghost use Rattle.zio_course.specs.Admissions.{error_in};
ghost use Rattle.zio_course.specs.Forests.{names_of, running};
ghost use Rattle.zio_course.specs.Names.{named_in};
ghost use Rattle.zio_course.specs.Told.{AreFinishedOf, ended_as, ended_by, ended_told, ends_by, left_by, line_by, line_told, lines_by, next_of, rest_of};

use crate::admission::Admission;
use crate::bound::Bound;
use crate::forest::reversed;
use crate::lines::first_line;
use crate::runner::RequestEnd;
use std::alloc::Global;
use zio_report::{LineResult, ReportLine};
use zio_script::{Item, Request, Work};
use zio_types::{Errno, List, NoMemory, ReqNo};

/// The lines of a batch's requests after its round, by number: of what admission answered, of what finished, and of
/// what waits. Writes and claims without error bind their names, and frees without error unbind theirs.
///
/// What finished comes by number too, so it is taken request by request.
pub fn tell_batch(
    alloc: Global,
    batch: &[Item],
    admission: &Admission,
    finished: List<RequestEnd>,
    bound: &mut Bound,
) -> Result<List<ReportLine>, NoMemory>
    requires rising { AreRising (requests_of batch.now) }
    requires finished { AreFinishedOf (running admission.now.slots.entries admission.now.rules.items batch.now)
        finished }
    ensures lines { IfOk result (λ lines. lines
        ≡ map (line_told (error_in admission.now.slots.entries admission.now.rules.items) finished)
        (requests_of batch.now)) }
    ensures bound { OnOk result ((name : List ℕ) → named_in bound.new name
        ≡ block_of (bound_after (ended_told (error_in admission.now.slots.entries admission.now.rules.items) finished
        (requests_of batch.now)) (names_of bound.old)) name) }
{
    let mut lines = List::new(alloc);
    let mut left = reversed(finished).into_vec();
    let mut rest = batch;
    while let Some((item, more)) = first_line(rest) {
        tell_line(&mut lines, item, admission, &mut left, bound)?;
        rest = more;
    }
    Ok(lines)
}

/// Tells of the request of a line, if it is one. What finished is left the last first.
fn tell_line(
    lines: &mut List<ReportLine>,
    item: &Item,
    admission: &Admission,
    left: &mut Vec<RequestEnd>,
    bound: &mut Bound,
) -> Result<(), NoMemory>
    ensures lines { OnOk result (lines.new ≡ lines.old
        ++ lines_by (error_in admission.now.slots.entries admission.now.rules.items)
        (reverse left.old.items) item.now) }
    ensures left { OnOk result (reverse left.new.items
        ≡ left_by (error_in admission.now.slots.entries admission.now.rules.items) (reverse left.old.items) item.now) }
    ensures bound { OnOk result ((name : List ℕ) → named_in bound.new name
        ≡ block_of (bound_after (ends_by (error_in admission.now.slots.entries admission.now.rules.items)
        (reverse left.old.items) item.now) (names_of bound.old)) name) }
{
    match item {
        Item::Request(request) => tell_one(lines, request, admission, left, bound),
        Item::Go | Item::Clear => Ok(()),
    }
}

/// Tells of a request.
fn tell_one(
    lines: &mut List<ReportLine>,
    request: &Request,
    admission: &Admission,
    left: &mut Vec<RequestEnd>,
    bound: &mut Bound,
) -> Result<(), NoMemory>
    ensures lines { OnOk result (lines.new ≡ lines.old
        ++ lines_by (error_in admission.now.slots.entries admission.now.rules.items) (reverse left.old.items)
        (RequestLine request.now)) }
    ensures left { OnOk result (reverse left.new.items
        ≡ left_by (error_in admission.now.slots.entries admission.now.rules.items) (reverse left.old.items)
        (RequestLine request.now)) }
    ensures bound { OnOk result ((name : List ℕ) → named_in bound.new name
        ≡ block_of (bound_after (ends_by (error_in admission.now.slots.entries admission.now.rules.items)
        (reverse left.old.items) (RequestLine request.now)) (names_of bound.old)) name) }
{
    let error = admission.error_of(request.number);
    let finished = if error.is_none() {
        take_of(left, request.number)
    } else {
        None
    };
    let line = tell_request(request, error, finished, bound)?;
    lines.push(line)?;
    Ok(())
}

/// The next that finished, if it is of this request.
pub(crate) fn take_of(left: &mut Vec<RequestEnd>, number: ReqNo) -> Option<RequestEnd>
    ensures taken { result ≡ next_of (reverse left.old.items) number }
    ensures left { reverse left.new.items ≡ rest_of (reverse left.old.items) number }
{
    let is_next = match left.as_slice() {
        [.., next] => next.request == number,
        [] => false,
    };
    if is_next { left.pop() } else { None }
}

/// The line of a request that was answered, finished or waits, and what it does to the bound names.
pub(crate) fn tell_request(
    request: &Request,
    error: Option<Errno>,
    finished: Option<RequestEnd>,
    bound: &mut Bound,
) -> Result<ReportLine, NoMemory>
    ensures line { IfOk result (λ line. line ≡ line_by error finished request.now) }
    ensures bound { OnOk result ((name : List ℕ)
        → named_in bound.new name
        ≡ block_of (bound_after (ended_by error finished request.now) (names_of bound.old)) name) }
{
    if let Some(error) = error {
        return Ok(line_of(request, LineResult::Failed(error)));
    }
    let Some(finished) = finished else {
        return Ok(line_of(request, LineResult::Suspended));
    };
    let shown = result_of(&request.work, finished, bound)?;
    Ok(line_of(request, shown))
}

fn line_of(request: &Request, shown: LineResult) -> ReportLine
    ensures { result ≡ record {
      number = request.now.number;
      kind = kind_of request.now.work;
      name = name_of request.now.work;
      result = shown;
    } }
{
    ReportLine {
        number: request.number,
        kind: request.work.kind(),
        name: request.work.name(),
        result: shown,
    }
}

/// What is shown of a request that finished. Its block gets its name, or its name is unbound.
fn result_of(work: &Work, finished: RequestEnd, bound: &mut Bound) -> Result<LineResult, NoMemory>
    ensures shown { IfOk result (λ shown. (r : Request) → r.work ≡ work.now
        → shown ≡ result_with finished.error (ended_as r finished)) }
    ensures bound { OnOk result ((r : Request) → r.work ≡ work.now → (name : List ℕ) →
        named_in bound.new name
        ≡ block_of (bound_unless finished.error (ended_as r finished) (names_of bound.old)) name) }
{
    let RequestEnd {
        request: _,
        error,
        bytes,
        tree,
    } = finished;
    if let Some(error) = error {
        return Ok(LineResult::Failed(error));
    }
    match work {
        Work::Null => Ok(LineResult::Done),
        Work::Read { .. } => Ok(LineResult::Bytes(bytes)),
        Work::Write { name, .. } => {
            let Some(tree) = tree else {
                return Ok(LineResult::Done);
            };
            let size = tree.bp.size;
            bound.bind(*name, tree)?;
            Ok(LineResult::Sized(size))
        }
        Work::Free { name } => {
            bound.unbind(name);
            Ok(LineResult::Done)
        }
        Work::Claim { name, .. } => {
            if let Some(tree) = tree {
                bound.bind(*name, tree)?;
            }
            Ok(LineResult::Done)
        }
    }
}
