//! The lines of a report. Those of its journal are read by `zio_spelled`; each other one is read as its words seem to
//! say, printed again, and taken where it comes out the same.
ghost use Rattle.std.specs.Prelude.{◌≡◌, ◌++◌, IfOk, IfSome, IsTrue, OnOk, string_bytes, true};
ghost use Rattle.std.specs.List.{list_all};
ghost use Rattle.zio_types.specs.Places.{is_lawful_top};
ghost use Rattle.zio_report.specs.Lines.{errno_text, kind_text, name_text};
ghost use Rattle.zio_told.specs.Told.{IsLine, IsPlainLine, follows_outcome, head_words, may_follow, outcome_words, plain_words, request_words, suits};

use std::alloc::{AllocError, Global};
use std::str;
use zio_report::RoundHead;
use zio_script::Name;
use zio_spelled::{order_line, take_line};
use zio_types::{Entry, Errno, Kind, List, NoMemory, ReqNo, TopSize};

/// A line of a report.
#[derive(Drop)]
pub enum Line {
    Plain(Plain),
    /// An entry of the journal; it has round 0, since its line doesn't tell the round.
    Take(Entry),
    /// Requests in the order in which they completed.
    Order(List<ReqNo>),
}

/// A line that isn't one of the journal.
#[derive(Clone, Copy)]
pub enum Plain {
    /// How many tops and images there are.
    Pool { tops: u32, images: u32 },
    /// A round begins.
    Round(RoundHead),
    Request(RequestLine),
    /// This batch is held.
    Held(u32),
    /// The run ended with this code.
    End(u32),
}

/// What a line tells of a request.
#[derive(Clone, Copy)]
pub struct RequestLine {
    pub number: ReqNo,
    pub kind: Kind,
    /// None where the request is a null one.
    pub name: Option<Name>,
    pub outcome: Outcome,
}

/// What became of a request in a round.
#[derive(Clone, Copy)]
pub enum Outcome {
    Suspended,
    Failed(Errno),
    /// It completed, and no size is told.
    Done,
    /// A write completed, with its padded size in bytes.
    Sized(u32),
    /// A read's bytes by their number and their sums; the bytes themselves may follow on the line.
    Read { size: u32, sums: [u64; 4] },
}

/// What the line of a report tells, none where it is no such line. An entry has round 0, which its line doesn't tell.
pub(crate) fn read_line(
    alloc: Global,
    tops: &[TopSize],
    line: &[u8],
) -> Result<Option<Line>, NoMemory>
    requires { list_all is_lawful_top tops.now ≡ true }
    ensures { IfOk result (λ told. IfSome told (IsLine tops.now line.now)) }
{
    let words = words_of(alloc, line)?;
    match words.as_slice() {
        [b"take", ..] => match take_line(tops, 0, line) {
            Some(entry) => Ok(Some(Line::Take(entry))),
            None => Ok(None),
        },
        [b"order", ..] => match order_line(alloc, line)? {
            Some(numbers) => Ok(Some(Line::Order(numbers))),
            None => Ok(None),
        },
        words => match plain_line(alloc, line, words)? {
            Some(plain) => Ok(Some(Line::Plain(plain))),
            None => Ok(None),
        },
    }
}

// The line that these words seem to be, where it is that line.
fn plain_line(alloc: Global, line: &[u8], words: &[&[u8]]) -> Result<Option<Plain>, NoMemory>
    ensures { IfOk result (λ told. IfSome told (IsPlainLine line.now)) }
{
    let Some(plain) = plain_in(words) else {
        return Ok(None);
    };
    let text = plain_text(alloc, &plain)?;
    if is_line(line, text.as_bytes(), &plain) {
        Ok(Some(plain))
    } else {
        Ok(None)
    }
}

// The line is this text, and what may stand behind it.
fn is_line(line: &[u8], text: &[u8], plain: &Plain) -> bool
    ensures { IsTrue result → text.now ≡ plain_words plain.now → IsPlainLine line.now plain.now }
{
    if line.len() < text.len() {
        return false;
    }
    let (front, tail) = line.split_at(text.len());
    front == text && may_follow(plain, tail)
}

fn may_follow(plain: &Plain, tail: &[u8]) -> bool
    ensures { result ≡ may_follow plain.now tail.now }
{
    match plain {
        Plain::Request(line) => {
            suits(line.kind, &line.outcome) && follows_outcome(&line.outcome, tail)
        }
        Plain::Pool { .. } | Plain::Round(_) | Plain::Held(_) | Plain::End(_) => tail.is_empty(),
    }
}

// Only a write tells a size alone, and only a read its sums.
fn suits(kind: Kind, outcome: &Outcome) -> bool
    ensures { result ≡ suits kind outcome.now }
{
    match outcome {
        Outcome::Suspended | Outcome::Failed(_) => true,
        Outcome::Done => kind != Kind::Read && kind != Kind::Write,
        Outcome::Sized(_) => kind == Kind::Write,
        Outcome::Read { .. } => kind == Kind::Read,
    }
}

fn follows_outcome(outcome: &Outcome, tail: &[u8]) -> bool
    ensures { result ≡ follows_outcome outcome.now tail.now }
{
    match outcome {
        Outcome::Read { .. } => tail.is_empty() || tail.starts_with(b" data "),
        Outcome::Suspended | Outcome::Failed(_) | Outcome::Done | Outcome::Sized(_) => {
            tail.is_empty()
        }
    }
}

// ---- printing

fn plain_text(alloc: Global, plain: &Plain) -> Result<String, AllocError>
    ensures { IfOk result (λ text. string_bytes text ≡ plain_words plain.now) }
{
    let mut text = String::new(alloc);
    push_plain(&mut text, plain)?;
    Ok(text)
}

fn push_plain(text: &mut String, plain: &Plain) -> Result<(), AllocError>
    ensures { OnOk result (string_bytes text.new ≡ string_bytes text.old ++ plain_words plain.now) }
{
    match plain {
        Plain::Pool { tops, images } => write!(text, "pool {tops} {images}"),
        Plain::Round(head) => push_head(text, head),
        Plain::Request(line) => push_request(text, line),
        Plain::Held(batch) => write!(text, "held {batch}"),
        Plain::End(code) => write!(text, "end {code}"),
    }
}

fn push_head(text: &mut String, head: &RoundHead) -> Result<(), AllocError>
    ensures { OnOk result (string_bytes text.new ≡ string_bytes text.old ++ head_words head.now) }
{
    let RoundHead {
        round,
        batch,
        point,
    } = *head;
    match batch {
        Some(batch) => write!(text, "round {round} batch {batch} point {point}"),
        None => write!(text, "round {round} clear point {point}"),
    }
}

fn push_request(text: &mut String, line: &RequestLine) -> Result<(), AllocError>
    ensures { OnOk result (string_bytes text.new ≡ string_bytes text.old ++ request_words line.now) }
{
    write!(text, "{} {}", line.number, kind_word(line.kind))?;
    push_name(text, &line.name)?;
    push_outcome(text, &line.outcome)
}

fn push_name(text: &mut String, name: &Option<Name>) -> Result<(), AllocError>
    ensures { OnOk result (string_bytes text.new ≡ string_bytes text.old ++ name_text name.now) }
{
    match name {
        None => Ok(()),
        Some(name) => push_name_word(text, name),
    }
}

fn push_name_word(text: &mut String, name: &Name) -> Result<(), AllocError>
    ensures { OnOk result (string_bytes text.new ≡ string_bytes text.old ++ name_text (Some name.now)) }
{
    match str::from_utf8(name.as_bytes()) {
        Ok(word) => write!(text, " {word}"),
        Err(_) => Err(AllocError),
    }
}

fn push_outcome(text: &mut String, outcome: &Outcome) -> Result<(), AllocError>
    ensures { OnOk result (string_bytes text.new ≡ string_bytes text.old ++ outcome_words outcome.now) }
{
    match outcome {
        Outcome::Suspended => text.push_str(" suspended"),
        Outcome::Failed(error) => write!(text, " {}", errno_word(*error)),
        Outcome::Done => text.push_str(" ok"),
        Outcome::Sized(size) => write!(text, " ok {size}"),
        Outcome::Read { size, sums } => {
            let [a, b, c, d] = *sums;
            write!(text, " ok {size} {a:x}:{b:x}:{c:x}:{d:x}")
        }
    }
}

fn kind_word(kind: Kind) -> &'static str
    ensures { result.now ≡ kind_text kind }
{
    match kind {
        Kind::Null => "null",
        Kind::Read => "read",
        Kind::Write => "write",
        Kind::Free => "free",
        Kind::Claim => "claim",
    }
}

/// The name of an error, as a report prints it.
pub fn errno_word(error: Errno) -> &'static str
    ensures { result.now ≡ errno_text error }
{
    match error {
        Errno::Nxio => "ENXIO",
        Errno::Cksum => "ECKSUM",
        Errno::Io => "EIO",
        Errno::Nospc => "ENOSPC",
        Errno::Inval => "EINVAL",
        Errno::Exist => "EEXIST",
        Errno::Noent => "ENOENT",
    }
}

// ---- reading

/// The most words that a line has which isn't one of the journal.
const WORDS_MAX: usize = 8;

// The first words of a line, parted by blanks.
fn words_of(alloc: Global, line: &[u8]) -> Result<Vec<&[u8]>, NoMemory> {
    let mut words = Vec::new(alloc);
    for word in line.split(|c| *c == b' ').take(WORDS_MAX) {
        words.push(word)?;
    }
    Ok(words)
}

fn plain_in(words: &[&[u8]]) -> Option<Plain> {
    match words {
        [b"pool", tops, images] => Some(Plain::Pool {
            tops: number_in(tops)?,
            images: number_in(images)?,
        }),
        [b"round", rest @ ..] => Some(Plain::Round(head_in(rest)?)),
        [b"held", batch] => Some(Plain::Held(number_in(batch)?)),
        [b"end", code] => Some(Plain::End(number_in(code)?)),
        [number, kind, rest @ ..] => {
            Some(Plain::Request(request_in(number, kind_in(kind)?, rest)?))
        }
        _ => None,
    }
}

fn head_in(words: &[&[u8]]) -> Option<RoundHead> {
    match words {
        [round, b"batch", batch, b"point", point] => Some(RoundHead {
            round: number_in(round)?,
            batch: Some(number_in(batch)?),
            point: number_in(point)?,
        }),
        [round, b"clear", b"point", point] => Some(RoundHead {
            round: number_in(round)?,
            batch: None,
            point: number_in(point)?,
        }),
        _ => None,
    }
}

fn request_in(number: &[u8], kind: Kind, words: &[&[u8]]) -> Option<RequestLine> {
    let (name, words) = match (kind, words) {
        (Kind::Null, _) => (None, words),
        (_, [name, rest @ ..]) => (Some(Name::from_word(name)?), rest),
        (_, []) => return None,
    };
    Some(RequestLine {
        number: number_in(number)?,
        kind,
        name,
        outcome: outcome_in(words)?,
    })
}

fn outcome_in(words: &[&[u8]]) -> Option<Outcome> {
    match words {
        [b"suspended"] => Some(Outcome::Suspended),
        [b"ok"] => Some(Outcome::Done),
        [b"ok", size] => Some(Outcome::Sized(number_in(size)?)),
        [b"ok", size, sums, ..] => Some(Outcome::Read {
            size: number_in(size)?,
            sums: sums_in(sums)?,
        }),
        [error] => Some(Outcome::Failed(errno_in(error)?)),
        _ => None,
    }
}

fn kind_in(word: &[u8]) -> Option<Kind> {
    match word {
        b"null" => Some(Kind::Null),
        b"read" => Some(Kind::Read),
        b"write" => Some(Kind::Write),
        b"free" => Some(Kind::Free),
        b"claim" => Some(Kind::Claim),
        _ => None,
    }
}

fn errno_in(word: &[u8]) -> Option<Errno> {
    match word {
        b"ENXIO" => Some(Errno::Nxio),
        b"ECKSUM" => Some(Errno::Cksum),
        b"EIO" => Some(Errno::Io),
        b"ENOSPC" => Some(Errno::Nospc),
        b"EINVAL" => Some(Errno::Inval),
        b"EEXIST" => Some(Errno::Exist),
        b"ENOENT" => Some(Errno::Noent),
        _ => None,
    }
}

fn number_in(word: &[u8]) -> Option<u32> {
    str::from_utf8(word).ok()?.parse().ok()
}

// Four numbers in hexadecimal, parted by colons.
fn sums_in(word: &[u8]) -> Option<[u64; 4]> {
    let mut parts = word.split(|c| *c == b':');
    let a = sum_in(parts.next()?)?;
    let b = sum_in(parts.next()?)?;
    let c = sum_in(parts.next()?)?;
    let d = sum_in(parts.next()?)?;
    Some([a, b, c, d])
}

fn sum_in(digits: &[u8]) -> Option<u64> {
    u64::from_str_radix(str::from_utf8(digits).ok()?, 16).ok()
}
