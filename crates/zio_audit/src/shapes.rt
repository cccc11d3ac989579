//! Whether a report's lines of the journal are of their shapes.
ghost use Rattle.std.specs.Prelude.{◌≡◌, ◌≤◌, ◌<◌, ◌^◌, ◌+◌, ◌↔◌, IfOk, IsTrue, MatchOption, false};
ghost use Rattle.zio_spelled.specs.Spelled.{is_journal};
ghost use Rattle.zio_audit.specs.Seen.{IsFirstFaulty, IsLineOrNext};
ghost use Rattle.zio_audit.specs.Verdicts.{AreShaped, IsShaped};

use crate::lines::{is_journal, is_order, is_round, is_take, next_line};
use std::alloc::Global;
use zio_spelled::{order_line, take_line};
use zio_types::NoMemory;

/// The number, from 1, of the report's first line of the journal that isn't of its shape, or stands before every round.
/// It goes over the report once, and keeps nothing of it.
pub(crate) fn first_faulty(alloc: Global, report: &[u8]) -> Result<Option<usize>, NoMemory>
    ensures { IfOk result (λ at. MatchOption at (AreShaped report.now) (IsFirstFaulty report.now)) }
{
    let mut rest = report;
    let mut number = 0;
    let mut begun = false;
    while let Some((line, behind)) = next_line(rest) {
        number += 1;
        if !may_stand(alloc, begun, line)? {
            return Ok(Some(number));
        }
        begun |= is_round(line);
        rest = behind;
    }
    Ok(None)
}

// The line is of its shape, and where no round is begun it is none of the journal.
fn may_stand(alloc: Global, begun: bool, line: &[u8]) -> Result<bool, NoMemory>
    ensures { IfOk result (λ may. IsTrue may
        ↔ (IsShaped line.now × (begun ≡ false → is_journal line.now ≡ false))) }
{
    if !begun && is_journal(line) {
        return Ok(false);
    }
    is_shaped(alloc, line)
}

fn is_shaped(alloc: Global, line: &[u8]) -> Result<bool, NoMemory>
    ensures { IfOk result (λ shaped. IsTrue shaped ↔ IsShaped line.now) }
{
    if is_take(line) {
        return Ok(take_line(&[], 0, line).is_some());
    }
    if is_order(line) {
        let numbers = order_line(alloc, line)?;
        return Ok(numbers.is_some());
    }
    Ok(true)
}

/// The number, from 1, of the line of the report behind which so many bytes follow or fewer; none says that the report
/// ends too early, in its last line where that has no newline, or else behind it.
pub(crate) fn line_before(report: &[u8], left: Option<usize>) -> usize
    ensures { IsLineOrNext report.now result }
{
    let mut rest = report;
    let mut number = 0;
    while let Some((_, behind)) = next_line(rest) {
        number += 1;
        if is_within(behind.len(), left) {
            return number;
        }
        rest = behind;
    }
    last_number(report, number)
}

// It has so many bytes or fewer.
fn is_within(len: usize, left: Option<usize>) -> bool {
    match left {
        Some(left) => len <= left,
        None => false,
    }
}

// The number of the line in which a report of so many lines ends too early.
fn last_number(report: &[u8], lines: usize) -> usize
    requires { lines < 2 ^ 63 }
    ensures least { 1 ≤ result }
    ensures most { result ≤ lines + 1 }
{
    match report.last() {
        Some(b'\n') | None => lines + 1,
        Some(_) => lines.max(1),
    }
}
