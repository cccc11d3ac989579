//! What a line says by its words: `specs/Lines`, "Numbers and hexadecimal words".
ghost use Rattle.std.specs.Prelude.{◌≡◌, ◌++◌, IfErr, IfOk, OnOk, Some, map, option_map};
ghost use Rattle.zio_script.specs.Lines.{line_of, numbers, parent_number, sector_number};
ghost use Rattle.zio_script.specs.NewLines.{GivesNumbers, IsLineIn, IsNoLine, IsWrong, body_as, body_of, line_as, request_as, request_of, row_as, row_of, top_as, top_of, work_as, work_of};
ghost use Rattle.zio_script.specs.Shapes.{shape_as};
ghost use Rattle.zio_script.specs.Words.{byte_of, bytes_of, number};

use crate::Failmode;
use crate::refusal::LineFault;
use crate::shape::{BodyShape, LineShape, RequestShape, RowShape, TopShape, WorkShape};
use crate::shapes::shape_of;
use crate::word::{byte_of, bytes_of, number};
use std::alloc::Global;
use zio_blkptr::SumKind;
use zio_faults::{FaultKind, On};
use zio_types::{Bytes, List, NoMemory, Prio, SECTOR_SIZE};

/// What a line says. Its numbers may be out of their ranges.
#[derive(Drop)]
pub(crate) enum ScriptLine<'a> {
    Failmode(Failmode),
    Top(NewTop),
    Fault(NewRow),
    Request(NewRequest<'a>),
    Go,
    Clear,
}

/// The leaves of a top, and the size of its sectors in bytes.
#[derive(Drop)]
pub(crate) struct NewTop {
    pub leaves: List<u64>,
    pub sector: u64,
}

/// A row of the fault table.
#[derive(Clone, Copy)]
pub(crate) struct NewRow {
    pub leaf: u64,
    pub on: On,
    pub at: u64,
    pub len: u64,
    pub from: u64,
    pub until: u64,
    pub kind: FaultKind,
    pub first: bool,
}

/// A request.
#[derive(Drop)]
pub(crate) struct NewRequest<'a> {
    pub number: u64,
    pub work: NewWork<'a>,
    pub under: Option<u64>,
    pub flag: Option<bool>,
}

/// What a request is to do, with the word in its name's place.
#[derive(Drop)]
pub(crate) enum NewWork<'a> {
    Null,
    Read {
        name: &'a [u8],
        prio: Prio,
    },
    Write {
        name: &'a [u8],
        sum: SumKind,
        copies: u64,
        prio: Prio,
        body: NewBody,
    },
    Free {
        name: &'a [u8],
    },
    Claim {
        name: &'a [u8],
        pointer: Bytes,
    },
}

/// The bytes of a write, of any length.
#[derive(Drop)]
pub(crate) enum NewBody {
    Hex(Bytes),
    Fill { byte: u8, len: u64 },
    Seq { seed: u64, len: u64 },
}

/// What the words say.
pub(crate) fn line_in<'a>(alloc: Global, words: &[&'a [u8]]) -> Result<ScriptLine<'a>, LineFault>
    ensures line { IfOk result (λ line. IsLineIn (map (λ w. w.now) words.now) (line_as line)) }
    ensures fault { IfErr result (IsNoLine (map (λ w. w.now) words.now)) }
{
    match shape_of(words) {
        Some(shape) => line_of(alloc, shape),
        None => Err(LineFault::NoShape),
    }
}

fn line_of<'a>(alloc: Global, shape: LineShape<'_, 'a>) -> Result<ScriptLine<'a>, LineFault>
    ensures line { IfOk result (λ line. line_of (shape_as shape.entry) ≡ Some (line_as line)) }
    ensures fault { IfErr result (IsWrong (line_of (shape_as shape.entry))) }
{
    match shape {
        LineShape::Failmode(mode) => Ok(ScriptLine::Failmode(mode)),
        LineShape::Top(top) => Ok(ScriptLine::Top(top_of(alloc, top)?)),
        LineShape::Fault(row) => Ok(ScriptLine::Fault(row_of(row)?)),
        LineShape::Request(request) => Ok(ScriptLine::Request(request_of(alloc, request)?)),
        LineShape::Go => Ok(ScriptLine::Go),
        LineShape::Clear => Ok(ScriptLine::Clear),
    }
}

fn top_of(alloc: Global, top: TopShape<'_, '_>) -> Result<NewTop, LineFault>
    ensures top { IfOk result (λ made. top_of top.entry ≡ Some (top_as made)) }
    ensures fault { IfErr result (IsWrong (top_of top.entry)) }
{
    let mut leaves = List::new(alloc);
    add_numbers(&mut leaves, top.leaves)?;
    let sector = sector_number(top.sector)?;
    Ok(NewTop { leaves, sector })
}

// Appends the numbers that the words are.
fn add_numbers(list: &mut List<u64>, words: &[&[u8]]) -> Result<(), LineFault>
    ensures ok { OnOk result (GivesNumbers (map (λ w. w.now) words.now) list.old list.new) }
    ensures fault { IfErr result (IsWrong (numbers (map (λ w. w.now) words.now))) }
{
    match words {
        [] => Ok(()),
        [word, rest @ ..] => {
            let n = number_in(word)?;
            if list.push(n).is_err() {
                return Err(LineFault::Memory);
            }
            add_numbers(list, rest)
        }
    }
}

fn sector_number(word: Option<&[u8]>) -> Result<u64, LineFault>
    ensures sector { IfOk result (λ n. sector_number (option_map (λ w. w.now) word.entry) ≡ Some n) }
    ensures fault { IfErr result (IsWrong (sector_number (option_map (λ w. w.now) word.entry))) }
{
    match word {
        None => Ok(u64::from(SECTOR_SIZE)),
        Some(word) => number_in(word),
    }
}

fn row_of(row: RowShape<'_>) -> Result<NewRow, LineFault>
    ensures row { IfOk result (λ made. row_of row.entry ≡ Some (row_as made)) }
    ensures fault { IfErr result (IsWrong (row_of row.entry)) }
{
    let leaf = number_in(row.leaf)?;
    let at = number_in(row.at)?;
    let len = number_in(row.len)?;
    let from = number_in(row.from)?;
    let until = number_in(row.until)?;
    Ok(NewRow {
        leaf,
        on: row.on,
        at,
        len,
        from,
        until,
        kind: row.kind,
        first: row.first,
    })
}

fn request_of<'a>(alloc: Global, request: RequestShape<'a>) -> Result<NewRequest<'a>, LineFault>
    ensures request { IfOk result (λ made. request_of request.entry ≡ Some (request_as made)) }
    ensures fault { IfErr result (IsWrong (request_of request.entry)) }
{
    let number = number_in(request.number)?;
    let work = work_of(alloc, request.work)?;
    let under = parent_number(request.tail.under)?;
    Ok(NewRequest {
        number,
        work,
        under,
        flag: request.tail.flag,
    })
}

fn work_of<'a>(alloc: Global, work: WorkShape<'a>) -> Result<NewWork<'a>, LineFault>
    ensures work { IfOk result (λ made. work_of work.entry ≡ Some (work_as made)) }
    ensures fault { IfErr result (IsWrong (work_of work.entry)) }
{
    match work {
        WorkShape::Null => Ok(NewWork::Null),
        WorkShape::Read { name, prio } => Ok(NewWork::Read { name, prio }),
        WorkShape::Write {
            name,
            sum,
            copies,
            prio,
            body,
        } => {
            let copies = number_in(copies)?;
            let body = body_of(alloc, body)?;
            Ok(NewWork::Write {
                name,
                sum,
                copies,
                prio,
                body,
            })
        }
        WorkShape::Free { name } => Ok(NewWork::Free { name }),
        WorkShape::Claim { name, hex } => {
            let pointer = hex_in(alloc, hex)?;
            Ok(NewWork::Claim { name, pointer })
        }
    }
}

fn body_of(alloc: Global, body: BodyShape<'_>) -> Result<NewBody, LineFault>
    ensures body { IfOk result (λ made. body_of body.entry ≡ Some (body_as made)) }
    ensures fault { IfErr result (IsWrong (body_of body.entry)) }
{
    match body {
        BodyShape::Hex(hex) => Ok(NewBody::Hex(hex_in(alloc, hex)?)),
        BodyShape::Fill { byte, len } => {
            let byte = byte_in(byte)?;
            let len = number_in(len)?;
            Ok(NewBody::Fill { byte, len })
        }
        BodyShape::Seq { seed, len } => {
            let seed = number_in(seed)?;
            let len = number_in(len)?;
            Ok(NewBody::Seq { seed, len })
        }
    }
}

fn parent_number(word: Option<&[u8]>) -> Result<Option<u64>, LineFault>
    ensures number { IfOk result (λ n. parent_number (option_map (λ w. w.now) word.entry) ≡ Some n) }
    ensures fault { IfErr result (IsWrong (parent_number (option_map (λ w. w.now) word.entry))) }
{
    match word {
        None => Ok(None),
        Some(word) => Ok(Some(number_in(word)?)),
    }
}

fn hex_in(alloc: Global, word: &[u8]) -> Result<Bytes, LineFault>
    ensures bytes { IfOk result (λ bytes. bytes_of word.now ≡ Some bytes) }
    ensures fault { IfErr result (IsWrong (bytes_of word.now)) }
{
    match bytes_of(alloc, word) {
        Ok(Some(bytes)) => Ok(bytes),
        Ok(None) => Err(LineFault::NoNumber),
        Err(NoMemory) => Err(LineFault::Memory),
    }
}

fn number_in(word: &[u8]) -> Result<u64, LineFault>
    ensures number { IfOk result (λ n. number word.now ≡ Some n) }
    ensures fault { IfErr result (IsWrong (number word.now)) }
{
    number(word).ok_or(LineFault::NoNumber)
}

fn byte_in(word: &[u8]) -> Result<u8, LineFault>
    ensures byte { IfOk result (λ byte. byte_of word.now ≡ Some byte) }
    ensures fault { IfErr result (IsWrong (byte_of word.now)) }
{
    byte_of(word).ok_or(LineFault::NoNumber)
}
