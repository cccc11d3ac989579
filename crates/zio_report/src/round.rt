//! The text of a round.

ghost use Rattle.std.specs.Prelude.{◌≡◌, ◌++◌, ◌%◌, IfOk, OnOk, length, string_bytes};
ghost use Rattle.std.specs.List.{flat_map};
ghost use Rattle.zio_report.specs.Lines.{AreWhole, IsWhole, head_text, line_text, name_text, result_text, round_text, sums_text};

use crate::journal::journal_lines;
use crate::report::{LineResult, ReportLine, RoundHead, Show};
use crate::words::{errno_word, kind_word};
use std::alloc::{AllocError, Global};
use std::str;
use zio_blkptr::SumKind;
use zio_cksum::sum;
use zio_script::Name;
use zio_types::{Completion, Entry, NoMemory, Text};

/// The text of a round, empty with `Show::Summary`: docs/FORMATS.md, "Report". The requests come by number, the entries
/// and completions are those of the round in the journal's order, and the bytes of each read are whole sectors.
///
/// The error is want of memory, or a name that isn't UTF-8, which no script has.
pub fn render(
    alloc: Global,
    show: &Show,
    head: &RoundHead,
    requests: &[ReportLine],
    entries: &[Entry],
    completions: &[Completion],
) -> Result<Text, NoMemory>
    requires { AreWhole requests.now }
    ensures { IfOk result (λ text. text ≡ round_text show.now head.now requests.now entries.now completions.now) }
{
    let mut out = String::new(alloc);
    if let Show::Report { journal, bytes } = *show {
        head_line(&mut out, head)?;
        request_lines(alloc, &mut out, bytes, requests)?;
        if journal {
            journal_lines(&mut out, entries, completions)?;
        }
    }
    Ok(Text::from_string(out))
}

fn head_line(out: &mut String, head: &RoundHead) -> Result<(), AllocError>
    ensures { OnOk result (string_bytes out.new ≡ string_bytes out.old ++ head_text head.now) }
{
    let RoundHead {
        round,
        batch,
        point,
    } = *head;
    match batch {
        Some(batch) => writeln!(out, "round {round} batch {batch} point {point}"),
        None => writeln!(out, "round {round} clear point {point}"),
    }
}

fn request_lines(
    alloc: Global,
    out: &mut String,
    with_bytes: bool,
    requests: &[ReportLine],
) -> Result<(), AllocError>
    requires { AreWhole requests.now }
    ensures { OnOk result (string_bytes out.new ≡ string_bytes out.old
        ++ flat_map (line_text with_bytes) requests.now) }
{
    for line in requests {
        request_line(alloc, out, with_bytes, line)?;
    }
    Ok(())
}

fn request_line(
    alloc: Global,
    out: &mut String,
    with_bytes: bool,
    line: &ReportLine,
) -> Result<(), AllocError>
    requires { IsWhole line.now.result }
    ensures { OnOk result (string_bytes out.new ≡ string_bytes out.old ++ line_text with_bytes line.now) }
{
    write!(out, "{} {}", line.number, kind_word(line.kind))?;
    name_words(out, &line.name)?;
    out.push_str(" ")?;
    result_words(alloc, out, with_bytes, &line.result)?;
    out.push_str("\n")
}

fn name_words(out: &mut String, name: &Option<Name>) -> Result<(), AllocError>
    ensures { OnOk result (string_bytes out.new ≡ string_bytes out.old ++ name_text name.now) }
{
    match name {
        None => Ok(()),
        Some(name) => name_word(out, name),
    }
}

// A text can't hold a name that isn't UTF-8.
fn name_word(out: &mut String, name: &Name) -> Result<(), AllocError>
    ensures { OnOk result (string_bytes out.new ≡ string_bytes out.old ++ name_text (Some name.now)) }
{
    match str::from_utf8(&name.bytes[..name.len as usize]) {
        Ok(word) => write!(out, " {word}"),
        Err(_) => Err(AllocError),
    }
}

fn result_words(
    alloc: Global,
    out: &mut String,
    with_bytes: bool,
    outcome: &LineResult,
) -> Result<(), AllocError>
    requires { IsWhole outcome.now }
    ensures { OnOk result (string_bytes out.new ≡ string_bytes out.old ++ result_text with_bytes outcome.now) }
{
    match outcome {
        LineResult::Suspended => out.push_str("suspended"),
        LineResult::Failed(error) => out.push_str(errno_word(*error)),
        LineResult::Done => out.push_str("ok"),
        LineResult::Sized(size) => write!(out, "ok {size}"),
        LineResult::Bytes(bytes) => read_words(alloc, out, with_bytes, bytes.as_slice()),
    }
}

fn read_words(
    alloc: Global,
    out: &mut String,
    with_bytes: bool,
    bytes: &[u8],
) -> Result<(), AllocError>
    requires { length bytes.now % 512 ≡ 0 }
    ensures { OnOk result (string_bytes out.new ≡ string_bytes out.old
        ++ result_text with_bytes (LineResult.Bytes bytes.now)) }
{
    write!(out, "ok {} ", bytes.len())?;
    sum_words(out, &sum(SumKind::Fletcher4, bytes))?;
    if with_bytes {
        let digits = hex::encode(alloc, bytes)?;
        write!(out, " data {digits}")?;
    }
    Ok(())
}

fn sum_words(out: &mut String, sums: &[u64; 4]) -> Result<(), AllocError>
    ensures { OnOk result (string_bytes out.new ≡ string_bytes out.old ++ sums_text sums.now) }
{
    let [a, b, c, d] = *sums;
    write!(out, "{a:x}:{b:x}:{c:x}:{d:x}")
}
