//! Where each step of a report is drawn, from top to bottom.

use crate::asked::Asking;
use crate::captions::wrapped;
use crate::frame::{
    CAPTION_COLUMNS, CAPTION_HEIGHT, HELD_HEIGHT, PANEL_FOOT, PANEL_HEAD, ROW_HEIGHT, STEP_GAP,
    count,
};
use crate::rounds::{Round, Row, Step};
use std::alloc::Global;
use zio_types::NoMemory;

/// A step of a report with its place.
#[derive(Drop)]
pub(crate) struct Panel<'a> {
    pub(crate) step: Step,
    pub(crate) y: u32,
    pub(crate) height: u32,
    /// What the script's comments say there.
    pub(crate) caption: Vec<&'a [u8]>,
}

impl Panel<'_> {
    /// Where it ends.
    pub(crate) fn end(&self) -> u32 {
        self.y.saturating_add(self.height)
    }
}

/// The steps, one below the other from this height on.
pub(crate) fn panels<'a>(
    alloc: Global,
    asking: &'a Asking<'_>,
    steps: Vec<Step>,
    top: u32,
) -> Result<Vec<Panel<'a>>, NoMemory> {
    let mut panels = Vec::new(alloc);
    let mut told = Told { batch: 0, clear: 0 };
    let mut y = top;
    for step in steps {
        let caption = wrapped(alloc, told.comment(asking, &step), CAPTION_COLUMNS)?;
        let panel = panel_at(alloc, asking, step, y, caption)?;
        y = panel.end().saturating_add(STEP_GAP);
        panels.push(panel)?;
    }
    Ok(panels)
}

/// The last batch and the last `clear` whose comments were shown.
#[derive(Clone, Copy)]
struct Told {
    batch: u32,
    clear: u32,
}

impl Told {
    /// The comment that goes with a step: its batch's, where that wasn't shown yet, or that of the `clear` before it.
    fn comment<'a>(&mut self, asking: &'a Asking<'_>, step: &Step) -> &'a [u8] {
        let batch = match step {
            Step::Held(batch) => Some(*batch),
            Step::Round(round) => round.head.batch,
        };
        match (batch, step) {
            (Some(batch), _) if batch > self.batch => {
                self.batch = batch;
                asking.comments.of_batch(batch)
            }
            (None, Step::Round(round)) if round.head.point > self.clear => {
                self.clear = round.head.point;
                asking.comments.of_clear(round.head.point)
            }
            _ => &[],
        }
    }
}

fn panel_at<'a>(
    alloc: Global,
    asking: &Asking<'_>,
    step: Step,
    y: u32,
    caption: Vec<&'a [u8]>,
) -> Result<Panel<'a>, NoMemory> {
    let caption_height = count(caption.len()).saturating_mul(CAPTION_HEIGHT);
    match step {
        Step::Held(batch) => Ok(Panel {
            step: Step::Held(batch),
            y,
            height: caption_height.saturating_add(HELD_HEIGHT),
            caption,
        }),
        Step::Round(round) => {
            let mut round = round;
            let first = y.saturating_add(PANEL_HEAD).saturating_add(caption_height);
            let end = place_rows(alloc, asking, &mut round, first)?;
            Ok(Panel {
                step: Step::Round(round),
                y,
                height: end.saturating_add(PANEL_FOOT).saturating_sub(y),
                caption,
            })
        }
    }
}

/// A row's place in the order of the script's trees.
#[derive(Clone, Copy, PartialEq, Eq, PartialOrd, Ord)]
struct Ranked {
    rank: usize,
    at: usize,
}

/// Places the rows of a round from this height on, children right behind their parents, and says where they end.
fn place_rows(
    alloc: Global,
    asking: &Asking<'_>,
    round: &mut Round,
    top: u32,
) -> Result<u32, NoMemory> {
    let mut order = Vec::new(alloc);
    for (at, row) in round.rows.iter().enumerate() {
        order.push(Ranked {
            rank: rank_of(asking, row),
            at,
        })?;
    }
    order.sort()?;
    let mut y = top;
    for ranked in order.as_slice() {
        if let Some(row) = round.rows.get_mut(ranked.at) {
            row.y = y;
        }
        y = y.saturating_add(ROW_HEIGHT);
    }
    Ok(y)
}

fn rank_of(asking: &Asking<'_>, row: &Row) -> usize {
    match asking.get(row.asked) {
        Some(asked) => asked.rank,
        None => 0,
    }
}
