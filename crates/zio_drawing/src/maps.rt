//! The maps of space: a column for each top, with its sectors from left to right.

use crate::bars::{Bar, Look};
use crate::frame::{Area, MAPS_GAP, MAPS_X, Point, count};
use crate::plan::Panel;
use crate::rounds::SECTORS_MAX;
use crate::shapes::Shapes;
use Piece::{Fixed, Number};
use std::alloc::Global;
use zio_markup::{Markup, Piece};
use zio_script::{Name, TopLine};
use zio_types::NoMemory;

/// The height of a block's name in its bar.
const MARK_HEIGHT: u32 = 13;

/// The fewest sectors that a map shows.
const SHOWN_MIN: u32 = 32;

/// The column of a top.
#[derive(Clone, Copy)]
pub(crate) struct Column {
    pub(crate) x: u32,
    pub(crate) width: u32,
    /// How many sectors it shows: a power of two.
    pub(crate) sectors: u32,
}

impl Column {
    /// Where a sector begins.
    fn at(&self, sector: u64) -> u32 {
        let sector = u32::try_from(sector.min(u64::from(self.sectors))).unwrap_or(self.sectors);
        let offset = sector.saturating_mul(self.width) / self.sectors.max(1);
        self.x.saturating_add(offset)
    }

    /// The part of the column that a run of sectors takes, at least two wide.
    pub(crate) fn area(&self, sector: u64, sectors: u32, y: u32, height: u32) -> Area {
        let x = self.at(sector);
        let end = self.at(sector.saturating_add(u64::from(sectors)));
        Area {
            x,
            y,
            width: end.saturating_sub(x).max(2),
            height,
        }
    }
}

/// The columns of the tops, wide enough for each place.
pub(crate) fn columns(alloc: Global, tops: usize, bars: &[Bar]) -> Result<Vec<Column>, NoMemory> {
    let width = if tops == 1 { 384 } else { 256 };
    let mut columns = Vec::new(alloc);
    let mut x = MAPS_X;
    for _ in 0..tops {
        columns.push(Column {
            x,
            width,
            sectors: SHOWN_MIN,
        })?;
        x = x.saturating_add(width).saturating_add(MAPS_GAP);
    }
    for bar in bars {
        if let Some(column) = columns.get_mut(bar.place.top as usize) {
            let end = bar
                .place
                .sector
                .saturating_add(u64::from(bar.place.sectors));
            column.sectors = column.sectors.max(shown_for(end));
        }
    }
    Ok(columns)
}

// The least power of two that is no less, or the highest that a map shows.
fn shown_for(end: u64) -> u32 {
    let end = end.min(SECTORS_MAX);
    let shown = end.checked_next_power_of_two().unwrap_or(SECTORS_MAX);
    u32::try_from(shown).unwrap_or(u32::MAX)
}

/// Draws the columns from a height to another, with their heads above, and the panels' bands in them.
pub(crate) fn draw_columns(
    out: &mut Markup,
    columns: &[Column],
    tops: &[TopLine],
    panels: &[Panel<'_>],
    top: u32,
    bottom: u32,
) -> Result<(), NoMemory> {
    for (number, (column, line)) in columns.iter().zip(tops).enumerate() {
        for panel in panels {
            let band = Area {
                x: column.x,
                y: panel.y,
                width: column.width,
                height: panel.height,
            };
            out.area("band", band)?;
        }
        draw_column_head(out, column, line, count(number), top)?;
        draw_ticks(out, column, top, bottom)?;
        out.area(
            "map",
            Area {
                x: column.x,
                y: top,
                width: column.width,
                height: bottom.saturating_sub(top),
            },
        )?;
    }
    Ok(())
}

fn draw_column_head(
    out: &mut Markup,
    column: &Column,
    line: &TopLine,
    number: u32,
    top: u32,
) -> Result<(), NoMemory> {
    let at = Point {
        x: column.x,
        y: top.saturating_sub(24),
    };
    out.begin_text("strong", at)?;
    out.put(&[Fixed("top "), Number(number)])?;
    let leaves = line.leaves.as_slice();
    let words = if leaves.len() == 1 {
        ": leaf"
    } else {
        ": a mirror of leaves"
    };
    out.put(&[Fixed(words)])?;
    for leaf in leaves {
        out.put(&[Fixed(" "), Number(*leaf)])?;
    }
    if line.unit > 1 {
        out.put(&[Fixed(", units of "), Number(line.unit), Fixed(" sectors")])?;
    }
    out.end_text()
}

fn draw_ticks(out: &mut Markup, column: &Column, top: u32, bottom: u32) -> Result<(), NoMemory> {
    for quarter in 0..5u32 {
        let sector = column.sectors / 4 * quarter;
        let x = column.at(u64::from(sector));
        if quarter > 0 && quarter < 4 {
            out.line("tick", Point { x, y: top }, Point { x, y: bottom })?;
        }
        let at = Point {
            x,
            y: top.saturating_sub(6),
        };
        out.text("small middle", at, &[Number(sector)])?;
    }
    Ok(())
}

/// Draws a bar: strong where it was taken, and pale while it lasts. `quoted` is the line that tells of it.
pub(crate) fn draw_bar(
    out: &mut Markup,
    columns: &[Column],
    bar: &Bar,
    quoted: &[u8],
) -> Result<(), NoMemory> {
    let Some(column) = columns.get(bar.place.top as usize) else {
        return Ok(());
    };
    let strong = column.area(bar.place.sector, bar.place.sectors, bar.y, bar.height);
    let below = bar.y.saturating_add(bar.height);
    let life = Area {
        y: below,
        height: bar.until.saturating_sub(below),
        ..strong
    };
    out.begin_title()?;
    put_bar_title(out, bar, quoted)?;
    out.end_title()?;
    if bar.look != Look::GivenBack {
        out.area(life_class(bar.look), life)?;
    }
    out.area(class_of(bar.look), strong)?;
    if bar.look != Look::GivenBack {
        out.area("edge", strong)?;
        out.area("edge life", life)?;
    }
    draw_mark(out, bar, strong)?;
    out.end_titled()
}

// The block's name, where there is room for it.
fn draw_mark(out: &mut Markup, bar: &Bar, area: Area) -> Result<(), NoMemory> {
    let Some(name) = bar.name else {
        return Ok(());
    };
    let width = name.len.saturating_mul(7).saturating_add(4);
    if area.width < width || area.height < MARK_HEIGHT {
        return Ok(());
    }
    let middle = area.x.saturating_add(area.width / 2);
    let top = area.y.saturating_add((area.height - MARK_HEIGHT) / 2);
    out.area(
        "paper",
        Area {
            x: middle.saturating_sub(width / 2),
            y: top,
            width,
            height: MARK_HEIGHT,
        },
    )?;
    let at = Point {
        x: middle,
        y: top.saturating_add(10),
    };
    out.text("mark", at, &[Piece::Outside(name.as_bytes())])
}

fn put_bar_title(out: &mut Markup, bar: &Bar, quoted: &[u8]) -> Result<(), NoMemory> {
    if let Some(name) = bar.name {
        put_block(out, &name)?;
    }
    put_place(out, bar)?;
    if let Some(freed) = bar.freed {
        out.put(&[Fixed(", freed in round "), Number(freed)])?;
    }
    out.put(&[Fixed("\n"), Piece::Outside(quoted)])
}

fn put_block(out: &mut Markup, name: &Name) -> Result<(), NoMemory> {
    out.put(&[
        Fixed("block "),
        Piece::Outside(name.as_bytes()),
        Fixed(", "),
    ])
}

fn put_place(out: &mut Markup, bar: &Bar) -> Result<(), NoMemory> {
    out.put(&[
        Fixed(what_of(bar.look)),
        Fixed(": sector "),
        Number(u32::try_from(bar.place.sector).unwrap_or(u32::MAX)),
        Fixed(" of top "),
        Number(bar.place.top),
        Fixed(" and on, "),
        Number(bar.place.sectors),
        Fixed(" in all, the place of copy "),
        Number(bar.copy.saturating_add(1)),
        Fixed("\ntaken in round "),
        Number(bar.round),
    ])
}

fn what_of(look: Look) -> &'static str {
    match look {
        Look::Copy(_) => "the block itself",
        Look::Header => "a gang's header",
        Look::Member => "a member of a gang",
        Look::Claimed => "claimed",
        Look::GivenBack => "given back at the end of the round",
    }
}

pub(crate) fn class_of(look: Look) -> &'static str {
    match look {
        Look::Copy(0) => "copy0",
        Look::Copy(1) => "copy1",
        Look::Copy(_) => "copy2",
        Look::Header => "header",
        Look::Member => "member",
        Look::Claimed => "claimed",
        Look::GivenBack => "back",
    }
}

fn life_class(look: Look) -> &'static str {
    match look {
        Look::Copy(0) => "copy0 life",
        Look::Copy(1) => "copy1 life",
        Look::Copy(_) => "copy2 life",
        Look::Header => "header life",
        Look::Member => "member life",
        Look::Claimed => "claimed life",
        Look::GivenBack => "back life",
    }
}
