//! The lines of a round's journal.

ghost use Rattle.std.specs.Prelude.{◌≡◌, ◌++◌, OnOk, codes, decimal, string_bytes};
ghost use Rattle.std.specs.List.{flat_map};
ghost use Rattle.zio_report.specs.Lines.{choice_text, journal_text, order_text, path_text, place_text, role_text, spaced};

use crate::words::role_word;
use std::alloc::AllocError;
use zio_types::{Completion, Entry, Key, Place};

/// The `take` lines, and the `order` line where a request completed.
pub(crate) fn journal_lines(
    out: &mut String,
    entries: &[Entry],
    completions: &[Completion],
) -> Result<(), AllocError>
    ensures { OnOk result (string_bytes out.new ≡ string_bytes out.old ++ journal_text entries.now completions.now) }
{
    for entry in entries {
        entry_line(out, entry)?;
    }
    order_line(out, completions)
}

fn entry_line(out: &mut String, entry: &Entry) -> Result<(), AllocError>
    ensures { OnOk result (string_bytes out.new ≡ string_bytes out.old ++ choice_text entry.now) }
{
    key_words(out, &entry.key)?;
    write!(out, " {} {}", entry.size, entry.copies)?;
    place_words(out, &entry.places[..entry.found as usize])?;
    if entry.found < entry.copies {
        out.push_str(" refused\n")
    } else {
        out.push_str("\n")
    }
}

fn key_words(out: &mut String, key: &Key) -> Result<(), AllocError>
    ensures { OnOk result (string_bytes out.new ≡ string_bytes out.old ++ codes "take " ++ decimal key.now.request
        ++ spaced (decimal key.now.attempt) ++ spaced (path_text key.now.path) ++ spaced (role_text key.now.role)) }
{
    let path = &key.path;
    write!(out, "take {} {} ", key.request, key.attempt)?;
    path_words(out, &path.steps[..path.len as usize])?;
    write!(out, " {}", role_word(key.role))
}

fn path_words(out: &mut String, steps: &[u8]) -> Result<(), AllocError>
    ensures { OnOk result (string_bytes out.new ≡ string_bytes out.old ++ path_text steps.now) }
{
    let Some((first, rest)) = steps.split_first() else {
        return out.push_str("-");
    };
    write!(out, "{first}")?;
    for step in rest {
        write!(out, ".{step}")?;
    }
    Ok(())
}

fn place_words(out: &mut String, places: &[Place]) -> Result<(), AllocError>
    ensures { OnOk result (string_bytes out.new ≡ string_bytes out.old ++ flat_map place_text places.now) }
{
    for place in places {
        write!(out, " {}:{}", place.top, place.sector)?;
    }
    Ok(())
}

fn order_line(out: &mut String, completions: &[Completion]) -> Result<(), AllocError>
    ensures { OnOk result (string_bytes out.new ≡ string_bytes out.old ++ order_text completions.now) }
{
    if completions.is_empty() {
        return Ok(());
    }
    out.push_str("order")?;
    for completion in completions {
        write!(out, " {}", completion.request)?;
    }
    out.push_str("\n")
}
