//! What space a run took, and for how long: a bar for each place.

use crate::asked::{Asked, Asking};
use crate::frame::{ROW_HEIGHT, count};
use crate::plan::Panel;
use crate::rounds::{Round, Row, SECTORS_MAX, Step, Take, places_of};
use indexmap::IndexMap;
use std::alloc::Global;
use zio_script::Name;
use zio_told::Outcome;
use zio_types::{Kind, NoMemory, Place, Role};

/// What a place is taken for.
#[derive(Clone, Copy, Debug, PartialEq, Eq)]
pub(crate) enum Look {
    /// A copy of a block that is no gang, from 0.
    Copy(u32),
    /// A gang's header.
    Header,
    /// A member of a gang.
    Member,
    /// A claimed block or header.
    Claimed,
    /// It was given back in its round.
    GivenBack,
}

/// Where it is told that a place was taken.
#[derive(Clone, Copy)]
pub(crate) enum Source {
    /// In this line of the report, from 0.
    Take(usize),
    /// In this request's line in the script, by where it stands there.
    Claim(usize),
}

/// A place, and how long it was taken.
#[derive(Clone, Copy)]
pub(crate) struct Bar {
    pub(crate) place: Place,
    pub(crate) look: Look,
    pub(crate) source: Source,
    pub(crate) name: Option<Name>,
    /// Which copy it is, from 0.
    pub(crate) copy: u32,
    pub(crate) round: u32,
    /// The round in which its block was freed.
    pub(crate) freed: Option<u32>,
    /// Where the attempt that took it is drawn.
    pub(crate) y: u32,
    pub(crate) height: u32,
    /// Where it is free again.
    pub(crate) until: u32,
}

/// The bars of all rounds, and which are those of the blocks that are bound.
#[derive(Drop)]
struct Space {
    bars: Vec<Bar>,
    bound: IndexMap<Name, Vec<usize>>,
}

/// The bars of these panels; what isn't freed lasts to the bottom.
pub(crate) fn bars(
    alloc: Global,
    asking: &Asking<'_>,
    panels: &[Panel<'_>],
    bottom: u32,
) -> Result<Vec<Bar>, NoMemory> {
    let mut space = Space {
        bars: Vec::new(alloc),
        bound: IndexMap::new(alloc),
    };
    for panel in panels {
        if let Step::Round(round) = &panel.step {
            space.add_takes(alloc, asking, round, panel.end(), bottom)?;
            space.add_rows(alloc, asking, round, panel.end(), bottom)?;
        }
    }
    Ok(space.bars)
}

impl Space {
    // The places of a round's entries.
    fn add_takes(
        &mut self,
        alloc: Global,
        asking: &Asking<'_>,
        round: &Round,
        end: u32,
        bottom: u32,
    ) -> Result<(), NoMemory> {
        for take in round.takes.as_slice() {
            let Some(row) = round.rows.get(take.row) else {
                continue;
            };
            let name = asking.get(row.asked).and_then(|asked| asked.name);
            let kept = is_kept(row, take);
            let (y, height) = slice_of(row, take.entry.key.attempt);
            for (copy, place) in places_of(&take.entry).iter().enumerate() {
                let copy = count(copy);
                let bar = Bar {
                    place: *place,
                    look: look_of(take, copy, kept),
                    source: Source::Take(take.line),
                    name,
                    copy,
                    round: round.head.round,
                    freed: None,
                    y,
                    height,
                    until: if kept { bottom } else { end },
                };
                self.add(alloc, bar, kept)?;
            }
        }
        Ok(())
    }

    // What a round's claims bind and its frees unbind.
    fn add_rows(
        &mut self,
        alloc: Global,
        asking: &Asking<'_>,
        round: &Round,
        end: u32,
        bottom: u32,
    ) -> Result<(), NoMemory> {
        for row in round.rows.as_slice() {
            if let Some(asked) = asking.get(row.asked)
                && is_done(&row.outcome)
            {
                self.add_claim(alloc, asked, row, round.head.round, bottom)?;
                if asked.kind == Kind::Free {
                    self.free(asked, round.head.round, end);
                }
            }
        }
        Ok(())
    }

    fn add_claim(
        &mut self,
        alloc: Global,
        asked: &Asked,
        row: &Row,
        round: u32,
        bottom: u32,
    ) -> Result<(), NoMemory> {
        let Some(claimed) = asked.claimed else {
            return Ok(());
        };
        for (copy, place) in claimed.places.iter().enumerate() {
            if place.sectors > 0 && place.sector < SECTORS_MAX {
                let bar = Bar {
                    place: *place,
                    look: Look::Claimed,
                    source: Source::Claim(row.asked),
                    name: asked.name,
                    copy: count(copy),
                    round,
                    freed: None,
                    y: row.y,
                    height: ROW_HEIGHT,
                    until: bottom,
                };
                self.add(alloc, bar, true)?;
            }
        }
        Ok(())
    }

    fn add(&mut self, alloc: Global, bar: Bar, kept: bool) -> Result<(), NoMemory> {
        if let Some(name) = bar.name
            && kept
        {
            let at = self.bars.len();
            match self.bound.get_mut(&name) {
                Some(bars) => bars.push(at)?,
                None => {
                    let mut bars = Vec::new(alloc);
                    bars.push(at)?;
                    self.bound.insert(name, bars)?;
                }
            }
        }
        self.bars.push(bar)?;
        Ok(())
    }

    fn free(&mut self, asked: &Asked, round: u32, end: u32) {
        let Some(name) = asked.name else {
            return;
        };
        if let Some(freed) = self.bound.swap_remove(&name) {
            for at in freed.as_slice() {
                if let Some(bar) = self.bars.get_mut(*at) {
                    bar.freed = Some(round);
                    bar.until = end;
                }
            }
        }
    }
}

fn is_done(outcome: &Outcome) -> bool {
    match outcome {
        Outcome::Suspended | Outcome::Failed(_) => false,
        Outcome::Done | Outcome::Sized(_) | Outcome::Read { .. } => true,
    }
}

/// A write keeps what it found in its last attempt, where it finished without error; a refused entry is given back.
fn is_kept(row: &Row, take: &Take) -> bool {
    is_done(&row.outcome)
        && take.entry.found >= take.entry.copies
        && take.entry.key.attempt.saturating_add(1) == row.attempts
}

fn look_of(take: &Take, copy: u32, kept: bool) -> Look {
    if !kept {
        return Look::GivenBack;
    }
    match (take.entry.key.role, take.entry.key.path.len) {
        (Role::Head, _) => Look::Header,
        (Role::Body, 0) => Look::Copy(copy),
        (Role::Body, _) => Look::Member,
    }
}

/// The part of a row's height that stands for an attempt, and where it is.
fn slice_of(row: &Row, attempt: u32) -> (u32, u32) {
    let height = match ROW_HEIGHT.checked_div(row.attempts) {
        Some(height) => height.max(1),
        None => ROW_HEIGHT,
    };
    (row.y.saturating_add(attempt.saturating_mul(height)), height)
}
