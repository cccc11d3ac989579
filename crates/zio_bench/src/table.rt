ghost use Rattle.std.specs.Prelude.{All, IfOk};
ghost use Rattle.zio_faults.specs.Hits.{RowFits};

use anyhow::Result;
use std::alloc::Global;
use zio_faults::{FaultKind, FaultTable, On, Row};
use zio_types::List;

/// Looks so many times into a table of so many rows, of which the last is met. The answer is how often one was.
pub fn look(alloc: Global, rows: u32, calls: u32) -> Result<u32> {
    let table = FaultTable {
        rows: rows_down(alloc, rows)?,
    };
    let mut met = 0u32;
    for call in 0..calls {
        if table.hit(0, true, u64::from(call), 1, 0, false).is_some() {
            met = met.saturating_add(1);
        }
    }
    Ok(met)
}

/// A row for each leaf below `n`, the last one first.
fn rows_down(alloc: Global, n: u32) -> Result<List<Row>>
    ensures { IfOk result (λ rows. All RowFits rows) }
{
    let mut rows = List::new(alloc);
    for i in 0..n {
        rows.push(row_of(n - 1 - i))?;
    }
    Ok(rows)
}

fn row_of(leaf: u32) -> Row
    ensures { RowFits result }
{
    Row {
        leaf,
        on: On::Any,
        at: 0,
        len: 1 << 32,
        from: 0,
        until: 1,
        kind: FaultKind::Eio,
        first: false,
    }
}
