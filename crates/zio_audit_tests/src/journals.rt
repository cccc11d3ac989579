ghost use Rattle.std.specs.Prelude.{◌≤◌, length};

use crate::entries::EIGHT;
use std::alloc::Global;
use std::test::Fail;
use zio_audit::Journals;
use zio_spelled::count_rounds;
use zio_types::{NoMemory, TopSize};

const TOPS: [TopSize; 1] = [EIGHT];

/// What this report spells of its rounds, none where a line of its journal isn't of its shape.
pub(crate) fn journals(alloc: Global, report: &[u8]) -> Result<Option<Journals<'_>>, NoMemory>
    requires { length report.now ≤ 1024 }
{
    match count_rounds(alloc, &TOPS, report)? {
        Some(_) => Ok(Some(Journals::of(&TOPS, report))),
        None => Ok(None),
    }
}

/// How many entries and completions the rounds of the report have, one after another.
fn counts(alloc: Global, report: &[u8]) -> Result<Vec<(usize, usize)>, NoMemory>
    requires { length report.now ≤ 1024 }
{
    let mut counts = Vec::new(alloc);
    let Some(mut journals) = journals(alloc, report)? else {
        return Ok(counts);
    };
    // There are fewer rounds than bytes.
    for _byte in report {
        let Some(journal) = journals.next(alloc)? else {
            break;
        };
        counts.push((journal.entries.len(), journal.order.len()))?;
    }
    Ok(counts)
}

#[test]
fn rounds_are_read_one_after_another(rt: HostRuntime) -> Result<(), Fail> {
    let report =
        b"pool 1 1\nround 1\ntake 1 0 - body 512 1 0:0\ntake 2 0 - body 512 1 0:1\norder 1 2\nround 2\nround 3\norder 3\nend 0\n";
    let counts = counts(rt.alloc(), report)?;
    assert!(rt; counts.as_slice() == [(2, 2), (0, 0), (0, 1)].as_slice());
    Ok(())
}
