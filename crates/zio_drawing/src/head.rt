//! What stands above the rounds of a picture, and below them.

use crate::asked::Asking;
use crate::captions::wrapped;
use crate::frame::{CAPTION_COLUMNS, CAPTION_HEIGHT, MARGIN, PANEL_X, Point, count};
use crate::shapes::Shapes;
use Piece::{Fixed, Number, Outside};
use std::alloc::Global;
use zio_faults::{FaultKind, On, Row};
use zio_markup::{Markup, Piece};
use zio_script::{Failmode, Script};
use zio_types::NoMemory;

/// The most fault rows that are shown.
const FAULTS_SHOWN: usize = 6;

/// Draws the head of a picture, and says where it ends.
pub(crate) fn draw_head(
    alloc: Global,
    out: &mut Markup,
    asking: &Asking<'_>,
    script: &Script,
    images: u32,
) -> Result<u32, NoMemory> {
    let mut y = MARGIN + 18;
    out.text(
        "title",
        Point { x: PANEL_X, y },
        &[Fixed("A run, round by round")],
    )?;
    y += 22;
    out.text(
        "words",
        Point { x: PANEL_X, y },
        &[
            Fixed("tops: "),
            Number(count(script.tops.len())),
            Fixed(", images: "),
            Number(images),
            Fixed(", requests: "),
            Number(count(asking.len())),
            Fixed(", failmode "),
            Fixed(failmode_word(script.failmode)),
        ],
    )?;
    for line in wrapped(alloc, asking.comments.head(), CAPTION_COLUMNS)?.as_slice() {
        y = y.saturating_add(CAPTION_HEIGHT + 2);
        out.text("caption", Point { x: PANEL_X, y }, &[Outside(line)])?;
    }
    draw_faults(out, script.faults.as_slice(), y.saturating_add(20))
}

// Draws the fault rows from this height on, and says where they end.
fn draw_faults(out: &mut Markup, rows: &[Row], top: u32) -> Result<u32, NoMemory> {
    let mut y = top;
    for row in rows.iter().take(FAULTS_SHOWN) {
        draw_fault(out, row, y)?;
        y = y.saturating_add(16);
    }
    if rows.len() > FAULTS_SHOWN {
        let more = count(rows.len() - FAULTS_SHOWN);
        let at = Point { x: PANEL_X, y };
        out.text("small", at, &[Fixed("and more fault rows: "), Number(more)])?;
        y = y.saturating_add(16);
    }
    Ok(y)
}

fn draw_fault(out: &mut Markup, row: &Row, y: u32) -> Result<(), NoMemory> {
    out.begin_text("small", Point { x: PANEL_X, y })?;
    out.put(&[
        Fixed("fault: leaf "),
        Number(row.leaf),
        Fixed(on_words(row.on)),
        Fixed(fault_words(row.kind)),
        Fixed(if row.first { " in first passes" } else { "" }),
    ])?;
    out.put(&[
        Fixed(", bytes "),
        Number(u32::try_from(row.at).unwrap_or(u32::MAX)),
        Fixed(" to "),
        Number(u32::try_from(row.at.saturating_add(row.len).saturating_sub(1)).unwrap_or(u32::MAX)),
        Fixed(", resume points "),
        Number(row.from),
        Fixed(" to "),
        Number(row.until.saturating_sub(1)),
    ])?;
    out.end_text()
}

fn on_words(on: On) -> &'static str {
    match on {
        On::Read => ", reads ",
        On::Write => ", writes ",
        On::Any => ", reads and writes ",
    }
}

fn fault_words(kind: FaultKind) -> &'static str {
    match kind {
        FaultKind::Eio => "fail with EIO",
        FaultKind::Gone => "find the device gone",
        FaultKind::Flip => "have their bytes inverted",
    }
}

fn failmode_word(failmode: Failmode) -> &'static str {
    match failmode {
        Failmode::Wait => "wait",
        Failmode::Continue => "continue",
        Failmode::Panic => "panic",
    }
}

/// Draws how the run ended.
pub(crate) fn draw_end(out: &mut Markup, end: Option<u32>, y: u32) -> Result<(), NoMemory> {
    let at = Point { x: PANEL_X, y };
    match end {
        None => out.text("strong", at, &[Fixed("the report was cut short here")]),
        Some(code) => out.text(
            "strong",
            at,
            &[Fixed("end "), Number(code), Fixed(end_words(code))],
        ),
    }
}

fn end_words(code: u32) -> &'static str {
    match code {
        0 => ": every request completed",
        4 => ": a request was suspended under failmode panic",
        9 => ": requests are left, suspended or held",
        _ => "",
    }
}
