//! The values of a script that lines make whose numbers are in their ranges.
ghost use Rattle.std.specs.Prelude.{◌≡◌, ◌++◌, ◌≤◌, MatchOption, OnOk, length, true, false};
ghost use Rattle.std.specs.List.{list_all};
ghost use Rattle.zio_script.specs.NewLines.{body_as, request_as, request_made, row_as, work_as};
ghost use Rattle.zio_script.specs.Requests.{kind_of, name_of};
ghost use Rattle.zio_script.specs.Whys.{body_len, fits_asked, fits_row, fits_work, is_claim, is_leaf, is_misnamed, is_number_if, is_write, may_fail_alone, says_canfail};

use crate::lines::{NewBody, NewRequest, NewRow, NewWork};
use crate::{Body, Name, Request, Work};
use zio_blkptr::BLOCK_SIZE_MAX;
use zio_faults::Row;
use zio_types::{Kind, List, NoMemory};

/// The row of the fault table.
pub(crate) fn row_of(row: &NewRow) -> Row
    requires { fits_row (row_as row.now) ≡ true }
    ensures { result ≡ row_as row.now }
{
    Row {
        leaf: row.leaf as u32,
        on: row.on,
        at: row.at,
        len: row.len,
        from: row.from as u32,
        until: row.until as u32,
        kind: row.kind,
        first: row.first,
    }
}

/// Appends the leaves of a top.
pub(crate) fn add_leaves(list: &mut List<u32>, leaves: &[u64]) -> Result<(), NoMemory>
    requires { list_all is_leaf leaves.now ≡ true }
    ensures { OnOk result (list.new ≡ list.old ++ leaves.now) }
{
    match leaves {
        [] => Ok(()),
        [leaf, rest @ ..] => {
            list.push(*leaf as u32)?;
            add_leaves(list, rest)
        }
    }
}

/// The kind of the work.
pub(crate) fn kind_of(work: &NewWork<'_>) -> Kind
    ensures { result ≡ kind_of (work_as work.now) }
{
    match work {
        NewWork::Null => Kind::Null,
        NewWork::Read { .. } => Kind::Read,
        NewWork::Write { .. } => Kind::Write,
        NewWork::Free { .. } => Kind::Free,
        NewWork::Claim { .. } => Kind::Claim,
    }
}

/// The work, none where the word in its name's place is no name.
pub(crate) fn work_of(work: NewWork<'_>) -> Option<Work>
    requires { fits_work (work_as work) ≡ true }
    ensures { MatchOption result (is_misnamed (name_of (work_as work.entry)) ≡ true)
        (λ made. (made ≡ work_as work.entry) × (is_misnamed (name_of (work_as work.entry)) ≡ false)) }
{
    match work {
        NewWork::Null => Some(Work::Null),
        NewWork::Read { name, prio } => {
            let name = Name::from_word(name)?;
            Some(Work::Read { name, prio })
        }
        NewWork::Write {
            name,
            sum,
            copies,
            prio,
            body,
        } => {
            let name = Name::from_word(name)?;
            Some(Work::Write {
                name,
                sum,
                copies: copies as u32,
                prio,
                body: body_of(body),
            })
        }
        NewWork::Free { name } => {
            let name = Name::from_word(name)?;
            Some(Work::Free { name })
        }
        NewWork::Claim { name, pointer } => {
            let name = Name::from_word(name)?;
            let pointer = pointer_of(pointer.as_slice());
            Some(Work::Claim { name, pointer })
        }
    }
}

fn pointer_of(bytes: &[u8]) -> [u8; 128]
    requires { length bytes.now ≡ 128 }
    ensures { result ≡ bytes.now }
{
    let mut pointer = [0; 128];
    pointer.copy_from_slice(bytes);
    pointer
}

fn body_of(body: NewBody) -> Body
    requires { body_len (body_as body) ≤ BLOCK_SIZE_MAX }
    ensures { result ≡ body_as body }
{
    match body {
        NewBody::Hex(bytes) => Body::Hex(bytes),
        NewBody::Fill { byte, len } => Body::Fill {
            byte,
            len: len as u32,
        },
        NewBody::Seq { seed, len } => Body::Seq {
            seed,
            len: len as u32,
        },
    }
}

/// The request, none where the word in its name's place is no name.
pub(crate) fn request_of(asked: NewRequest<'_>, canfail: bool) -> Option<Request>
    requires { fits_asked (request_as asked) ≡ true }
    ensures { MatchOption result (is_misnamed (name_of (request_as asked.entry).work) ≡ true)
        (λ made. (made ≡ request_made (request_as asked.entry) canfail)
        × (is_misnamed (name_of (request_as asked.entry).work) ≡ false)) }
{
    let number = asked.number as u32;
    let under = number_if(asked.under);
    let work = work_of(asked.work)?;
    Some(Request {
        number,
        work,
        under,
        canfail,
    })
}

fn number_if(number: Option<u64>) -> Option<u32>
    requires { is_number_if number ≡ true }
    ensures { result ≡ number }
{
    match number {
        None => None,
        Some(number) => Some(number as u32),
    }
}

/// Whether a request of this kind may fail where its line and its parent say nothing.
pub(crate) fn may_fail_alone(kind: Kind) -> bool
    ensures { result ≡ may_fail_alone kind }
{
    matches!(kind, Kind::Read | Kind::Claim)
}

/// The kind is a write.
pub(crate) fn is_write(kind: Kind) -> bool
    ensures { result ≡ is_write kind }
{
    matches!(kind, Kind::Write)
}

/// The kind is a claim.
pub(crate) fn is_claim(kind: Kind) -> bool
    ensures { result ≡ is_claim kind }
{
    matches!(kind, Kind::Claim)
}

/// The flag is there, and is `canfail`.
pub(crate) fn says_canfail(flag: Option<bool>) -> bool
    ensures { result ≡ says_canfail flag }
{
    match flag {
        None => false,
        Some(flag) => flag,
    }
}
