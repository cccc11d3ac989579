use crate::List;

/// The most copies that a write asks for, and so the most places of a pointer and of an entry.
pub const COPIES_MAX: u32 = 3;

/// What stands behind the last place.
pub const NOWHERE: Place = Place {
    top: 0,
    sector: 0,
    sectors: 0,
};

/// A run of sectors of one top.
#[derive(Clone, Copy, Debug, PartialEq, Eq)]
pub struct Place {
    pub top: u32,
    /// The first sector.
    pub sector: u64,
    /// How many sectors it has.
    pub sectors: u32,
}

/// The most leaves of a top.
pub const TOP_LEAVES_MAX: u32 = 4;

/// A mirror: leaves that hold the same.
#[derive(Debug, Drop)]
pub struct Top {
    /// The leaves' numbers, one to four.
    pub leaves: List<u32>,
    /// The sectors of its smallest leaf, rounded down to whole units.
    pub sectors: u64,
    /// How many sectors are placed and written together: 1, 2, 4 or 8.
    pub unit: u32,
}

/// What a space needs to know of a top.
#[derive(Clone, Copy, Debug, PartialEq, Eq)]
pub struct TopSize {
    /// A multiple of the unit.
    pub sectors: u64,
    /// How many sectors are placed together: 1, 2, 4 or 8.
    pub unit: u32,
}
