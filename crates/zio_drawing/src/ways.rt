//! The ways of what waits, left of the rounds: from where it was suspended or held to where it went on.

use crate::asked::Asking;
use crate::frame::{PANEL_X, Point, ROW_HEIGHT};
use crate::plan::Panel;
use crate::rounds::{Round, Step};
use crate::shapes::Shapes;
use Piece::{Fixed, Number};
use indexmap::IndexMap;
use std::alloc::Global;
use zio_markup::{Markup, Piece};
use zio_told::Outcome;
use zio_types::{NoMemory, ReqNo};

/// What waits, with the heights where it began to.
#[derive(Drop)]
struct Waiting {
    /// By the numbers of the roots.
    suspended: IndexMap<ReqNo, u32>,
    /// By the numbers of the batches.
    held: IndexMap<u32, u32>,
}

/// Draws all ways; those of what never went on lead to the bottom.
pub(crate) fn draw_ways(
    alloc: Global,
    out: &mut Markup,
    asking: &Asking<'_>,
    panels: &[Panel<'_>],
    bottom: u32,
) -> Result<(), NoMemory> {
    let mut waiting = Waiting {
        suspended: IndexMap::new(alloc),
        held: IndexMap::new(alloc),
    };
    for panel in panels {
        match &panel.step {
            Step::Held(batch) => {
                waiting.held.insert(*batch, panel.y.saturating_add(13))?;
            }
            Step::Round(round) => {
                waiting.end_hold(out, round, panel.y)?;
                waiting.draw_suspended(out, asking, round)?;
            }
        }
    }
    for (number, from) in &waiting.suspended {
        draw_way(out, "way", *from, suspended_lane(*number), bottom)?;
    }
    for (batch, from) in &waiting.held {
        draw_way(out, "hold", *from, held_lane(*batch), bottom)?;
    }
    Ok(())
}

impl Waiting {
    // The round's batch waits no longer.
    fn end_hold(&mut self, out: &mut Markup, round: &Round, y: u32) -> Result<(), NoMemory> {
        let Some(batch) = round.head.batch else {
            return Ok(());
        };
        match self.held.swap_remove(&batch) {
            Some(from) => {
                let to = y.saturating_add(10);
                draw_way(out, "hold", from, held_lane(batch), to)?;
                out.arrow(Point { x: PANEL_X, y: to })
            }
            None => Ok(()),
        }
    }

    // The ways that end at a round's roots, and those that begin there.
    fn draw_suspended(
        &mut self,
        out: &mut Markup,
        asking: &Asking<'_>,
        round: &Round,
    ) -> Result<(), NoMemory> {
        for row in round.rows.as_slice() {
            if asking.get(row.asked).is_none_or(|asked| asked.depth > 0) {
                continue;
            }
            let middle = row.y.saturating_add(ROW_HEIGHT / 2);
            if let Some(from) = self.suspended.swap_remove(&row.number) {
                let to = middle.saturating_sub(4);
                draw_way(out, "way", from, suspended_lane(row.number), to)?;
                out.arrow(Point { x: PANEL_X, y: to })?;
            }
            if let Outcome::Suspended = row.outcome {
                self.suspended.insert(row.number, middle.saturating_add(4))?;
            }
        }
        Ok(())
    }
}

fn suspended_lane(number: ReqNo) -> u32 {
    PANEL_X - 14 - number % 4 * 6
}

fn held_lane(batch: u32) -> u32 {
    PANEL_X - 40 - batch % 3 * 6
}

fn draw_way(
    out: &mut Markup,
    class: &'static str,
    from: u32,
    lane: u32,
    to: u32,
) -> Result<(), NoMemory> {
    out.put(&[
        Fixed("<path class=\""),
        Fixed(class),
        Fixed("\" d=\"M"),
        Number(PANEL_X),
        Fixed(" "),
        Number(from),
        Fixed("H"),
        Number(lane),
        Fixed("V"),
        Number(to),
        Fixed("H"),
        Number(PANEL_X),
        Fixed("\"/>\n"),
    ])
}
