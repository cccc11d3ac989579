//! What the looks of a picture mean.

use crate::bars::Look;
use crate::frame::{Area, Point};
use crate::maps::class_of;
use crate::rows::draw_attempt;
use crate::shapes::Shapes;
use Piece::Fixed;
use zio_markup::{Markup, Piece};
use zio_types::NoMemory;

/// How much room it takes.
pub(crate) const LEGEND_WIDTH: u32 = 1056;

pub(crate) const LEGEND_HEIGHT: u32 = 110;

/// The height of a line, and the widths of the columns before the second, the third and the fourth.
const LINE: u32 = 20;

const SECOND: u32 = 240;

const THIRD: u32 = 500;

const FOURTH: u32 = 780;

/// Draws the legend with its corner here.
pub(crate) fn draw_legend(out: &mut Markup, corner: Point) -> Result<(), NoMemory> {
    out.area(
        "panel",
        Area {
            x: corner.x,
            y: corner.y,
            width: LEGEND_WIDTH,
            height: LEGEND_HEIGHT,
        },
    )?;
    let x = corner.x.saturating_add(12);
    let y = corner.y.saturating_add(27);
    draw_heading(out, x, corner.y, "Requests, round by round")?;
    draw_results(out, x, y)?;
    draw_signs(out, x.saturating_add(SECOND), y)?;
    let third = x.saturating_add(THIRD);
    draw_heading(out, third, corner.y, "Space, sector by sector")?;
    draw_blocks(out, third, y)?;
    draw_parts(out, x.saturating_add(FOURTH), y)
}

fn draw_heading(out: &mut Markup, x: u32, y: u32, text: &'static str) -> Result<(), NoMemory> {
    let at = Point {
        x,
        y: y.saturating_add(18),
    };
    out.text("strong", at, &[Fixed(text)])
}

fn draw_results(out: &mut Markup, x: u32, y: u32) -> Result<(), NoMemory> {
    draw_sample(out, x, y, "ok", "finished without error")?;
    draw_sample(
        out,
        x,
        y.saturating_add(LINE),
        "bad",
        "finished with an error",
    )?;
    draw_sample(
        out,
        x,
        y.saturating_add(2 * LINE),
        "waits",
        "suspended, and goes again",
    )?;
    let order = y.saturating_add(3 * LINE);
    let at = Point {
        x: x.saturating_add(15),
        y: order.saturating_add(11),
    };
    out.text("middle", at, &[Fixed("1")])?;
    draw_words(out, x, order, "completed first in its round")
}

fn draw_signs(out: &mut Markup, x: u32, y: u32) -> Result<(), NoMemory> {
    draw_attempt(out, Point { x, y }, true)?;
    draw_words(out, x, y, "an attempt that failed")?;
    let last = y.saturating_add(LINE);
    draw_attempt(out, Point { x, y: last }, false)?;
    draw_words(out, x, last, "the attempt that went well")?;
    draw_stroke(
        out,
        x,
        last.saturating_add(LINE),
        "way",
        "from suspended to resumed",
    )?;
    draw_stroke(
        out,
        x,
        last.saturating_add(2 * LINE),
        "hold",
        "from held to run",
    )
}

fn draw_blocks(out: &mut Markup, x: u32, y: u32) -> Result<(), NoMemory> {
    draw_look(out, x, y, Look::Copy(0), "first copy of a block")?;
    draw_look(out, x, y.saturating_add(LINE), Look::Copy(1), "second copy")?;
    draw_look(
        out,
        x,
        y.saturating_add(2 * LINE),
        Look::Copy(2),
        "third copy",
    )?;
    let pale = y.saturating_add(3 * LINE);
    draw_sample(out, x, pale, "copy0 life", "pale: as long as it is taken")
}

fn draw_parts(out: &mut Markup, x: u32, y: u32) -> Result<(), NoMemory> {
    draw_look(out, x, y, Look::Header, "a gang's header")?;
    draw_look(
        out,
        x,
        y.saturating_add(LINE),
        Look::Member,
        "a gang's member",
    )?;
    draw_look(out, x, y.saturating_add(2 * LINE), Look::Claimed, "claimed")?;
    let back = y.saturating_add(3 * LINE);
    draw_sample(
        out,
        x,
        back,
        class_of(Look::GivenBack),
        "given back at the round's end",
    )
}

fn sample_at(x: u32, y: u32) -> Area {
    Area {
        x,
        y,
        width: 30,
        height: 13,
    }
}

fn draw_sample(
    out: &mut Markup,
    x: u32,
    y: u32,
    class: &'static str,
    text: &'static str,
) -> Result<(), NoMemory> {
    out.area(class, sample_at(x, y))?;
    draw_words(out, x, y, text)
}

fn draw_look(
    out: &mut Markup,
    x: u32,
    y: u32,
    look: Look,
    text: &'static str,
) -> Result<(), NoMemory> {
    out.area(class_of(look), sample_at(x, y))?;
    out.area("edge", sample_at(x, y))?;
    draw_words(out, x, y, text)
}

fn draw_stroke(
    out: &mut Markup,
    x: u32,
    y: u32,
    class: &'static str,
    text: &'static str,
) -> Result<(), NoMemory> {
    let middle = y.saturating_add(6);
    let from = Point { x, y: middle };
    let to = Point {
        x: x.saturating_add(30),
        y: middle,
    };
    out.line(class, from, to)?;
    draw_words(out, x, y, text)
}

// The words behind a sign.
fn draw_words(out: &mut Markup, x: u32, y: u32, text: &'static str) -> Result<(), NoMemory> {
    let at = Point {
        x: x.saturating_add(38),
        y: y.saturating_add(11),
    };
    out.text("small", at, &[Fixed(text)])
}
