//! The picture as a whole.
ghost use Rattle.std.specs.Prelude.{◌≡◌, IfOk, OnOk, true};
ghost use Rattle.std.specs.List.{list_all};
ghost use Rattle.zio_types.specs.Places.{is_lawful_top, is_unit};
ghost use Rattle.zio_told.specs.Told.{IsAccepted, IsTold};

use crate::asked::Asking;
use crate::bars::{Bar, Source, bars};
use crate::fault::DrawingFault;
use crate::frame::{MAPS_X, MARGIN, PANEL_X, Point, STEP_GAP};
use crate::head::{draw_end, draw_head};
use crate::legend::{LEGEND_HEIGHT, LEGEND_WIDTH, draw_legend};
use crate::maps::{Column, columns, draw_bar, draw_columns};
use crate::page::{begin_page, begin_picture, end_page, end_picture};
use crate::plan::{Panel, panels};
use crate::rounds::{Report, read_report};
use crate::rows::draw_panel;
use crate::shapes::Shapes;
use crate::ways::draw_ways;
use Piece::Fixed;
use std::alloc::Global;
use zio_markup::{Markup, Piece};
use zio_script::{Script, ScriptError, TopLine, read_script};
use zio_told::{lines_of, read_lines};
use zio_types::{NoMemory, TopSize};

/// What is written.
#[derive(Clone, Copy, Debug, PartialEq, Eq)]
pub enum Form {
    /// An SVG alone.
    Svg,
    /// A page of HTML with the SVG in it.
    Html,
}

/// The picture of a run, from the text of its script and that of its report. There is one only of a script that is
/// accepted, and of a report whose every line is one. Why there is none tells the error: its first line at fault, where it
/// is the script's or the report's.
pub fn draw(alloc: Global, form: Form, script: &[u8], report: &[u8]) -> Result<Markup, DrawingFault>
    ensures accepted { OnOk result (IsAccepted script.now) }
    ensures told { OnOk result (IsTold report.now) }
{
    let read = match read_script(alloc, script) {
        Ok(read) => read,
        Err(ScriptError::Fault(fault)) => return Err(DrawingFault::Script(fault)),
        Err(ScriptError::Memory) => return Err(DrawingFault::Memory),
    };
    let tops = sizes_of(alloc, read.tops.as_slice())?;
    let lines = lines_of(alloc, report)?;
    let told = read_lines(alloc, tops.as_slice(), lines.as_slice())?;
    let asking = Asking::of(alloc, &read, script)?;
    let report = read_report(alloc, &asking, tops.len(), told)?;
    Ok(drawn(alloc, form, &read, &asking, lines.as_slice(), report)?)
}

// The units of the script's tops. No line of a report tells how many sectors they have.
fn sizes_of(alloc: Global, tops: &[TopLine]) -> Result<Vec<TopSize>, NoMemory>
    ensures lawful { IfOk result (λ sizes. list_all is_lawful_top sizes.items ≡ true) }
{
    let mut sizes = Vec::new(alloc);
    for top in tops {
        sizes.push(TopSize {
            sectors: 0,
            unit: unit_of(top),
        })?;
    }
    Ok(sizes)
}

// A top's unit. An accepted script has no other than these.
fn unit_of(top: &TopLine) -> u32
    ensures lawful { is_unit result ≡ true }
    ensures same { is_unit top.now.unit ≡ true → result ≡ top.now.unit }
{
    match top.unit {
        2 => 2,
        4 => 4,
        8 => 8,
        _ => 1,
    }
}

/// A run with all its places in the picture.
#[derive(Drop)]
struct Scene<'a> {
    panels: Vec<Panel<'a>>,
    bars: Vec<Bar>,
    columns: Vec<Column>,
    top: u32,
    bottom: u32,
    end: Option<u32>,
}

// `lines` are those of the report.
fn drawn(
    alloc: Global,
    form: Form,
    script: &Script,
    asking: &Asking<'_>,
    lines: &[&[u8]],
    report: Report,
) -> Result<Markup, NoMemory> {
    let mut head = Markup::new(alloc);
    let head_end = draw_head(alloc, &mut head, asking, script, report.images)?;
    let top = head_end.saturating_add(LEGEND_HEIGHT + 60);
    let scene = scene_of(alloc, script, asking, report, top)?;
    let mut out = Markup::new(alloc);
    if form == Form::Html {
        begin_page(&mut out)?;
    }
    begin_picture(&mut out, width_of(&scene), scene.bottom.saturating_add(40))?;
    out.append(&head)?;
    let corner = Point {
        x: PANEL_X,
        y: head_end,
    };
    draw_legend(&mut out, corner)?;
    draw_maps(&mut out, asking, script, lines, &scene)?;
    draw_rounds(alloc, &mut out, asking, lines, &scene)?;
    end_picture(&mut out)?;
    if form == Form::Html {
        end_page(&mut out)?;
    }
    Ok(out)
}

fn scene_of<'a>(
    alloc: Global,
    script: &Script,
    asking: &'a Asking<'_>,
    report: Report,
    top: u32,
) -> Result<Scene<'a>, NoMemory> {
    let panels = panels(alloc, asking, report.steps, top)?;
    let bottom = match panels.last() {
        Some(panel) => panel.end().saturating_add(STEP_GAP),
        None => top,
    };
    let bars = bars(alloc, asking, panels.as_slice(), bottom)?;
    let columns = columns(alloc, script.tops.len(), bars.as_slice())?;
    Ok(Scene {
        panels,
        bars,
        columns,
        top,
        bottom,
        end: report.end,
    })
}

fn width_of(scene: &Scene<'_>) -> u32 {
    let maps_end = match scene.columns.last() {
        Some(column) => column.x.saturating_add(column.width),
        None => MAPS_X,
    };
    maps_end.max(PANEL_X + LEGEND_WIDTH).saturating_add(MARGIN)
}

fn draw_maps(
    out: &mut Markup,
    asking: &Asking<'_>,
    script: &Script,
    lines: &[&[u8]],
    scene: &Scene<'_>,
) -> Result<(), NoMemory> {
    if scene.bars.is_empty() {
        let at = Point {
            x: MAPS_X,
            y: scene.top.saturating_add(16),
        };
        return out.text(
            "small",
            at,
            &[Fixed("No place is told: only a run with --journal tells places.")],
        );
    }
    let tops = script.tops.as_slice();
    draw_columns(
        out,
        scene.columns.as_slice(),
        tops,
        scene.panels.as_slice(),
        scene.top,
        scene.bottom,
    )?;
    for bar in scene.bars.as_slice() {
        let quoted = match bar.source {
            Source::Take(line) => lines.get(line).map(|line| *line),
            Source::Claim(at) => asking.get(at).map(|asked| asking.line_of(asked)),
        };
        draw_bar(out, scene.columns.as_slice(), bar, quoted.unwrap_or(&[]))?;
    }
    Ok(())
}

fn draw_rounds(
    alloc: Global,
    out: &mut Markup,
    asking: &Asking<'_>,
    lines: &[&[u8]],
    scene: &Scene<'_>,
) -> Result<(), NoMemory> {
    draw_ways(alloc, out, asking, scene.panels.as_slice(), scene.bottom)?;
    for panel in scene.panels.as_slice() {
        draw_panel(out, asking, lines, panel)?;
    }
    draw_end(out, scene.end, scene.bottom.saturating_add(20))
}
