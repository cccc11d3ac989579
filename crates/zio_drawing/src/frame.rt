//! Where things stand in a picture. All lengths are units of the picture, and sums stand still at their type's end.

/// A number of things, which stands still at its type's end.
pub(crate) fn count(things: usize) -> u32 {
    u32::try_from(things).unwrap_or(u32::MAX)
}

/// A rectangle.
#[derive(Clone, Copy)]
pub(crate) struct Area {
    pub(crate) x: u32,
    pub(crate) y: u32,
    pub(crate) width: u32,
    pub(crate) height: u32,
}

/// A point.
#[derive(Clone, Copy)]
pub(crate) struct Point {
    pub(crate) x: u32,
    pub(crate) y: u32,
}

/// Left of it are the ways of what waits.
pub(crate) const PANEL_X: u32 = 60;

pub(crate) const PANEL_WIDTH: u32 = 640;

/// The room for a request's line, its result, its attempts and its place in the order of completions.
pub(crate) const LINE_WIDTH: u32 = 424;

pub(crate) const RESULT_X: u32 = PANEL_X + 434;

pub(crate) const RESULT_WIDTH: u32 = 96;

pub(crate) const ATTEMPTS_X: u32 = PANEL_X + 544;

pub(crate) const ENDED_X: u32 = PANEL_X + 602;

/// How far a child stands to the right of its parent.
pub(crate) const INDENT: u32 = 12;

/// The width of a character of a line, and of one of a caption at most.
pub(crate) const CHAR_WIDTH: u32 = 7;

/// The most characters of a caption's line.
pub(crate) const CAPTION_COLUMNS: usize = 104;

pub(crate) const ROW_HEIGHT: u32 = 24;

pub(crate) const PANEL_HEAD: u32 = 24;

pub(crate) const CAPTION_HEIGHT: u32 = 16;

pub(crate) const PANEL_FOOT: u32 = 8;

pub(crate) const STEP_GAP: u32 = 14;

pub(crate) const HELD_HEIGHT: u32 = 26;

/// Where the maps of space begin, and what is between two of them.
pub(crate) const MAPS_X: u32 = PANEL_X + PANEL_WIDTH + 32;

pub(crate) const MAPS_GAP: u32 = 28;

pub(crate) const MARGIN: u32 = 24;
