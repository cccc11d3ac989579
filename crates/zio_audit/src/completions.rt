//! Whether a spelled order of completions is one that the run may have.
ghost use Rattle.std.specs.Prelude.{◌≡◌, ◌↔◌, IfOk, IsTrue, List, is_none};
ghost use Rattle.zio_script.specs.Accepted.{AreRising};
ghost use Rattle.zio_script.specs.Requests.{requests_of};
ghost use Rattle.zio_gang.specs.Journals.{AreCompletions};
ghost use Rattle.zio_gang.specs.Runs.{Round};
ghost use Rattle.zio_audit.specs.Completions.{completions_from};
ghost use Rattle.zio_audit.specs.Verdicts.{orders_of};

use crate::journals::Journals;
use crate::marks::{least_due, lesser, marks_of, meet_round, parents_of, table_len};
use std::alloc::Global;
use zio_script::Item;
use zio_types::{Completion, NoMemory};

/// None where the requests that a report spells as completed, round by round from the first, complete lawfully in any
/// rounds in which `due` complete lawfully: the same requests in the same rounds, each once and after its children.
/// Else the number of the first round in which they don't. `items` are the script's. It costs the items, the
/// completions and the journals.
pub fn unmatched_round(
    alloc: Global,
    items: &[Item],
    due: &[Completion],
    journals: Journals<'_>,
) -> Result<Option<u64>, NoMemory>
    requires { AreRising (requests_of items.now) }
    ensures { IfOk result (λ unmatched. (rounds : List Round) → AreCompletions (requests_of items.now) rounds due.now
        → (IsTrue (is_none unmatched)
        ↔ AreCompletions (requests_of items.now) rounds (completions_from rounds 1 (orders_of journals.entry)))) }
{
    let len = table_len(due);
    let mut marks = marks_of(alloc, due, len)?;
    let parents = parents_of(alloc, items, len)?;
    let mut later = journals;
    let mut round: u64 = 0;
    while let Some(journal) = later.next(alloc)? {
        round += 1;
        if !meet_round(&mut marks, &parents, round, journal.order.as_slice()) {
            return Ok(Some(lesser(least_due(&marks), round)));
        }
    }
    Ok(least_due(&marks))
}
