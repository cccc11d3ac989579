//! Whether the numbers of a line are in their ranges: `specs/Whys`, "why 3, Limit".
ghost use Rattle.std.specs.Prelude.{◌≡◌, length};
ghost use Rattle.std.specs.List.{list_all};
ghost use Rattle.zio_script.specs.NewLines.{body_as, request_as, row_as, work_as};
ghost use Rattle.zio_script.specs.OpenBatches.{work_len};
ghost use Rattle.zio_script.specs.Whys.{body_len, fits_asked, fits_row, fits_work, is_leaf, is_number, is_number_if, is_sector, is_within};

use crate::limits::{FAULT_RANGE_MAX, LEAF_MAX, NUMBER_MAX, POINT_MAX, POINTER_SIZE};
use crate::lines::{NewBody, NewRequest, NewRow, NewWork};
use zio_blkptr::BLOCK_SIZE_MAX;
use zio_types::COPIES_MAX;

fn is_within(low: u32, high: u32, n: u64) -> bool
    ensures { result ≡ is_within low high n }
{
    u64::from(low) <= n && n <= u64::from(high)
}

fn is_number(n: u64) -> bool
    ensures { result ≡ is_number n }
{
    is_within(1, NUMBER_MAX, n)
}

fn is_number_if(n: Option<u64>) -> bool
    ensures { result ≡ is_number_if n }
{
    match n {
        None => true,
        Some(n) => is_number(n),
    }
}

/// LEAF is in its range.
pub(crate) fn is_leaf(n: u64) -> bool
    ensures { result ≡ is_leaf n }
{
    is_within(0, LEAF_MAX, n)
}

/// Each LEAF is in its range.
pub(crate) fn are_leaves(leaves: &[u64]) -> bool
    ensures { result ≡ list_all is_leaf leaves.now }
{
    leaves.iter().all(|leaf| is_leaf(*leaf))
}

/// S is the size of a sector.
pub(crate) fn is_sector(n: u64) -> bool
    ensures { result ≡ is_sector n }
{
    matches!(n, 512 | 1024 | 2048 | 4096)
}

/// The numbers of a row are in their ranges, and UNTIL is above FROM.
pub(crate) fn fits_row(row: &NewRow) -> bool
    ensures { result ≡ fits_row (row_as row.now) }
{
    is_leaf(row.leaf)
        && is_within(0, FAULT_RANGE_MAX, row.at)
        && is_within(1, FAULT_RANGE_MAX, row.len)
        && is_within(0, POINT_MAX - 1, row.from)
        && is_within(1, POINT_MAX, row.until)
        && row.from < row.until
}

/// The numbers of a request are in their ranges, and so are the lengths.
pub(crate) fn fits_asked(asked: &NewRequest<'_>) -> bool
    ensures { result ≡ fits_asked (request_as asked.now) }
{
    is_number(asked.number) && is_number_if(asked.under) && fits_work(&asked.work)
}

fn fits_work(work: &NewWork<'_>) -> bool
    ensures { result ≡ fits_work (work_as work.now) }
{
    match work {
        NewWork::Null | NewWork::Read { .. } | NewWork::Free { .. } => true,
        NewWork::Write { copies, body, .. } => {
            is_within(1, COPIES_MAX, *copies) && is_within(1, BLOCK_SIZE_MAX, body_len(body))
        }
        NewWork::Claim { pointer, .. } => pointer.len() == POINTER_SIZE as usize,
    }
}

/// The bytes of a write without its children's pointers, 0 of other work.
pub(crate) fn work_len(work: &NewWork<'_>) -> u64
    ensures { result ≡ work_len (work_as work.now) }
{
    match work {
        NewWork::Write { body, .. } => body_len(body),
        NewWork::Null | NewWork::Read { .. } | NewWork::Free { .. } | NewWork::Claim { .. } => 0,
    }
}

fn body_len(body: &NewBody) -> u64
    ensures { result ≡ body_len (body_as body.now) }
{
    match body {
        NewBody::Hex(bytes) => bytes.len() as u64,
        NewBody::Fill { len, .. } | NewBody::Seq { len, .. } => *len,
    }
}
