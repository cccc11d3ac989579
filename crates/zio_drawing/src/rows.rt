//! The rounds of a picture, and the requests in them.

use crate::asked::{Asked, Asking};
use crate::frame::{
    ATTEMPTS_X, Area, CAPTION_HEIGHT, CHAR_WIDTH, ENDED_X, INDENT, LINE_WIDTH, PANEL_HEAD,
    PANEL_WIDTH, PANEL_X, Point, RESULT_WIDTH, RESULT_X, ROW_HEIGHT, count,
};
use crate::plan::Panel;
use crate::rounds::{Round, Row, Step};
use crate::shapes::Shapes;
use Piece::{Fixed, Number, Outside};
use zio_markup::{Markup, Piece};
use zio_told::{Outcome, errno_word};
use zio_types::NoMemory;

/// The most attempts that are drawn one by one.
const ATTEMPTS_SHOWN: u32 = 5;

/// The most bytes of a line that a title quotes.
const QUOTED_MAX: usize = 200;

/// Draws a step with all that is in it.
pub(crate) fn draw_panel(
    out: &mut Markup,
    asking: &Asking<'_>,
    lines: &[&[u8]],
    panel: &Panel<'_>,
) -> Result<(), NoMemory> {
    let area = Area {
        x: PANEL_X,
        y: panel.y,
        width: PANEL_WIDTH,
        height: panel.height,
    };
    match &panel.step {
        Step::Held(batch) => {
            out.area("held", area)?;
            let at = Point {
                x: PANEL_X + 10,
                y: panel.y.saturating_add(17),
            };
            out.text(
                "words",
                at,
                &[
                    Fixed("batch "),
                    Number(*batch),
                    Fixed(" is held: something is suspended"),
                ],
            )?;
            draw_caption(out, panel)
        }
        Step::Round(round) => {
            out.area("panel", area)?;
            draw_round_head(out, round, panel.y)?;
            draw_caption(out, panel)?;
            for row in round.rows.as_slice() {
                if let Some(asked) = asking.get(row.asked) {
                    draw_branch(out, round, row, asked)?;
                    draw_row(out, asking, lines, row, asked)?;
                }
            }
            Ok(())
        }
    }
}

fn draw_round_head(out: &mut Markup, round: &Round, y: u32) -> Result<(), NoMemory> {
    out.area(
        "heading",
        Area {
            x: PANEL_X,
            y,
            width: PANEL_WIDTH,
            height: PANEL_HEAD - 4,
        },
    )?;
    let base = y.saturating_add(15);
    let at = Point {
        x: PANEL_X + 10,
        y: base,
    };
    out.begin_text("strong", at)?;
    out.put(&[Fixed("round "), Number(round.head.round)])?;
    match round.head.batch {
        Some(batch) => out.put(&[Fixed(": batch "), Number(batch)])?,
        None => out.put(&[Fixed(": clear, the suspended go again")])?,
    }
    out.end_text()?;
    let point = Point {
        x: RESULT_X - 14,
        y: base,
    };
    out.text(
        "small end",
        point,
        &[Fixed("resume point "), Number(round.head.point)],
    )?;
    draw_column_names(out, round, base)
}

fn draw_column_names(out: &mut Markup, round: &Round, y: u32) -> Result<(), NoMemory> {
    out.text("small", Point { x: RESULT_X, y }, &[Fixed("result")])?;
    if round.rows.iter().any(|row| row.attempts > 0) {
        out.text("small", Point { x: ATTEMPTS_X, y }, &[Fixed("attempts")])?;
    }
    if round.completed > 0 {
        out.text("small", Point { x: ENDED_X, y }, &[Fixed("order")])?;
    }
    Ok(())
}

fn draw_caption(out: &mut Markup, panel: &Panel<'_>) -> Result<(), NoMemory> {
    let mut y = panel.y.saturating_add(PANEL_HEAD).saturating_add(11);
    for line in panel.caption.as_slice() {
        let at = Point { x: PANEL_X + 10, y };
        out.text("caption", at, &[Outside(line)])?;
        y = y.saturating_add(CAPTION_HEIGHT);
    }
    Ok(())
}

// Where a request's line begins.
fn row_x(asked: &Asked) -> u32 {
    (PANEL_X + 12).saturating_add(asked.depth.saturating_mul(INDENT))
}

// From the parent's row, if that is in the round, to this one.
fn draw_branch(out: &mut Markup, round: &Round, row: &Row, asked: &Asked) -> Result<(), NoMemory> {
    let Some(parent) = asked
        .under
        .and_then(|under| round.find(under))
        .and_then(|at| round.rows.get(at))
    else {
        return Ok(());
    };
    let x = row_x(asked).saturating_sub(INDENT).saturating_add(3);
    let middle = row.y.saturating_add(ROW_HEIGHT / 2);
    let from = Point {
        x,
        y: parent.y.saturating_add(ROW_HEIGHT - 5),
    };
    out.line("branch", from, Point { x, y: middle })?;
    out.line(
        "branch",
        Point { x, y: middle },
        Point {
            x: x.saturating_add(7),
            y: middle,
        },
    )
}

fn draw_row(
    out: &mut Markup,
    asking: &Asking<'_>,
    lines: &[&[u8]],
    row: &Row,
    asked: &Asked,
) -> Result<(), NoMemory> {
    let text = asking.line_of(asked);
    out.begin_title()?;
    put_script_line(out, asked, text)?;
    put_report_line(out, lines, row)?;
    put_row_numbers(out, row)?;
    out.end_title()?;
    let x = row_x(asked);
    let room = (PANEL_X + LINE_WIDTH).saturating_sub(x) / CHAR_WIDTH;
    let at = Point {
        x,
        y: row.y.saturating_add(16),
    };
    out.begin_text("code", at)?;
    put_front(out, text, room as usize)?;
    out.end_text()?;
    draw_result(out, row)?;
    draw_attempts(out, row)?;
    draw_ended(out, row)?;
    out.end_titled()
}

// The front of the text, with two points where it goes on.
fn put_front(out: &mut Markup, text: &[u8], len: usize) -> Result<(), NoMemory> {
    if text.len() <= len {
        return out.put(&[Outside(text)]);
    }
    match text.get(..len.saturating_sub(2)) {
        Some(front) => out.put(&[Outside(front), Fixed("..")]),
        None => Ok(()),
    }
}

fn put_script_line(out: &mut Markup, asked: &Asked, text: &[u8]) -> Result<(), NoMemory> {
    let number = count(asked.line).saturating_add(1);
    out.put(&[Fixed("line "), Number(number), Fixed(" of the script: ")])?;
    put_front(out, text, QUOTED_MAX)
}

fn put_report_line(out: &mut Markup, lines: &[&[u8]], row: &Row) -> Result<(), NoMemory> {
    let Some(line) = lines.get(row.line) else {
        return Ok(());
    };
    let number = count(row.line).saturating_add(1);
    out.put(&[Fixed("\nline "), Number(number), Fixed(" of the report: ")])?;
    put_front(out, line, QUOTED_MAX)
}

fn put_row_numbers(out: &mut Markup, row: &Row) -> Result<(), NoMemory> {
    if row.attempts > 0 {
        out.put(&[
            Fixed("\nattempts that asked for places: "),
            Number(row.attempts),
        ])?;
    }
    if row.refused > 0 {
        out.put(&[Fixed("\nasks that were refused: "), Number(row.refused)])?;
    }
    match row.ended {
        Some(ended) => out.put(&[
            Fixed("\ncompleted as number "),
            Number(ended),
            Fixed(" of its round"),
        ]),
        None => Ok(()),
    }
}

fn draw_result(out: &mut Markup, row: &Row) -> Result<(), NoMemory> {
    let area = Area {
        x: RESULT_X,
        y: row.y.saturating_add(3),
        width: RESULT_WIDTH,
        height: ROW_HEIGHT - 6,
    };
    let at = Point {
        x: RESULT_X + RESULT_WIDTH / 2,
        y: row.y.saturating_add(16),
    };
    match row.outcome {
        Outcome::Suspended => {
            out.area("waits", area)?;
            out.text("middle", at, &[Fixed("suspended")])
        }
        Outcome::Failed(error) => {
            out.area("bad", area)?;
            out.text("inverse", at, &[Fixed(errno_word(error))])
        }
        Outcome::Done => {
            out.area("ok", area)?;
            out.text("middle", at, &[Fixed("ok")])
        }
        Outcome::Sized(size) | Outcome::Read { size, .. } => {
            out.area("ok", area)?;
            out.text("middle", at, &[Fixed("ok "), Number(size)])
        }
    }
}

// A square for each attempt; those that had to be made again are crossed.
fn draw_attempts(out: &mut Markup, row: &Row) -> Result<(), NoMemory> {
    let shown = row.attempts.min(ATTEMPTS_SHOWN);
    let fails = match row.outcome {
        Outcome::Suspended | Outcome::Failed(_) => row.attempts,
        Outcome::Done | Outcome::Sized(_) | Outcome::Read { .. } => row.attempts.saturating_sub(1),
    };
    for attempt in 0..shown {
        let at = Point {
            x: ATTEMPTS_X + attempt * 13,
            y: row.y.saturating_add(7),
        };
        draw_attempt(out, at, attempt < fails)?;
    }
    Ok(())
}

/// Draws the square of an attempt, whose corner is here.
pub(crate) fn draw_attempt(out: &mut Markup, at: Point, fails: bool) -> Result<(), NoMemory> {
    let area = Area {
        x: at.x,
        y: at.y,
        width: 10,
        height: 10,
    };
    if !fails {
        return out.area("last", area);
    }
    out.area("again", area)?;
    let end = Point {
        x: at.x.saturating_add(10),
        y: at.y.saturating_add(10),
    };
    out.line("cross", at, end)?;
    out.line(
        "cross",
        Point { x: at.x, y: end.y },
        Point { x: end.x, y: at.y },
    )
}

fn draw_ended(out: &mut Markup, row: &Row) -> Result<(), NoMemory> {
    let Some(ended) = row.ended else {
        return Ok(());
    };
    let at = Point {
        x: ENDED_X + 12,
        y: row.y.saturating_add(16),
    };
    out.text("middle", at, &[Number(ended)])
}
