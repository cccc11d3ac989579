ghost use Rattle.std.specs.Prelude.{◌≡◌, ◌+◌, ◌^◌, ◌<◌, ◌≤◌, ◌↔◌, length, replicate, slice_index, slice_set, true, false, Some, IfOk, IsTrue, MatchOption};
ghost use Rattle.zio_types.specs.Places.{rounded_to, is_below, is_aligned_on};
ghost use Rattle.zio_places.specs.Flags.{best_run, AreAll, IsFreeRun, IsRangeSet};
ghost use Rattle.zio_places.specs.Tables.{TopState, size_of, IsSmallUnit};

use crate::runs::FreeRuns;
use std::alloc::{AllocError, Global};
use std::marker::Model;
use zio_types::{Place, TopSize};

/// The table of one top, by sector: which are free, and the length of the live place that begins there. Used places
/// stand on whole units, so a run of free sectors begins and ends at one.
#[derive(Drop)]
pub struct SectorTable {
    free: FreeRuns,
    lengths: Vec<u32>,
    unit: u32,
}

impl Model for SectorTable {
    ghost use Rattle.zio_places.specs.Tables.{TopState, IsSmallUnit};

    ghost Value = { TopState };

    ghost view = { λ t. record { free = t.free; lengths = t.lengths.items; unit = t.unit } };

    ghost invariant = { λ t. IsSmallUnit t.unit };
}

impl SectorTable {
    /// All free, and no live place.
    pub fn new(alloc: Global, top: TopSize) -> Result<SectorTable, AllocError>
        requires { IsSmallUnit top.unit }
        ensures free { IfOk result (λ t. t.free ≡ replicate top.sectors true) }
        ensures lengths { IfOk result (λ t. t.lengths ≡ replicate top.sectors 0) }
        ensures unit { IfOk result (λ t. t.unit ≡ top.unit) }
    {
        let lengths = vec![in alloc; 0; top.sectors as usize]?;
        let free = FreeRuns::all_free(alloc, top.sectors)?;
        Ok(SectorTable {
            free,
            lengths,
            unit: top.unit,
        })
    }

    /// The place lies below the end of the top, and has sectors.
    pub fn is_inside(&self, place: &Place) -> bool
        ensures { result ≡ is_below place.now (Some (size_of self.now)) }
    {
        let sectors = self.lengths.len() as u64;
        let count = u64::from(place.sectors);
        0 < count && place.sector <= sectors && count <= sectors - place.sector
    }

    /// The place stands on whole units.
    pub fn is_aligned(&self, place: &Place) -> bool
        ensures { result ≡ is_aligned_on place.now (Some (size_of self.now)) }
    {
        place.sector % u64::from(self.unit) == 0 && place.sectors % self.unit == 0
    }

    /// So many sectors, rounded up to whole units.
    pub fn whole_units(&self, sectors: u32) -> u32
        requires { sectors ≤ 2 ^ 23 }
        ensures rounded { result ≡ rounded_to self.now.unit sectors }
        ensures least { sectors ≤ result }
    {
        (sectors + (self.unit - 1)) / self.unit * self.unit
    }

    /// The first sector of a run of so many free ones, where there is one.
    pub fn first_run(&self, sectors: u32) -> Option<u64>
        requires { 0 < sectors }
        ensures { MatchOption result
            (best_run self.now.free < sectors)
            (λ at. IsFreeRun self.now.free at sectors) }
    {
        let count = u64::from(sectors);
        if self.free.summary().best < count {
            return None;
        }
        Some(self.free.first_run(count))
    }

    /// So many are free from here on.
    pub fn is_free(&self, at: u64, sectors: u32) -> bool
        requires { at + sectors ≤ length self.now.free }
        ensures { IsTrue result ↔ AreAll self.now.free at sectors true }
    {
        u64::from(sectors) <= self.free.front_from(at)
    }

    /// Gives so many sectors from here on this flag.
    pub fn set_flag(&mut self, at: u64, sectors: u32, is_free: bool)
        requires { at + sectors ≤ length self.old.free }
        ensures flags { IsRangeSet self.old.free self.new.free at sectors is_free }
        ensures lengths { self.new.lengths ≡ self.old.lengths }
        ensures unit { self.new.unit ≡ self.old.unit }
    {
        self.free.set_flag(at, u64::from(sectors), is_free);
    }

    /// The length of the live place that begins there, 0 for none.
    pub fn length_at(&self, at: u64) -> u32
        ensures { result ≡ slice_index self.now.lengths at }
    {
        self.lengths.get(at as usize).copied().unwrap_or(0)
    }

    pub fn set_length(&mut self, at: u64, sectors: u32)
        requires { at < length self.old.lengths }
        ensures lengths { self.new.lengths ≡ slice_set self.old.lengths at sectors }
        ensures free { self.new.free ≡ self.old.free }
        ensures unit { self.new.unit ≡ self.old.unit }
    {
        self.lengths[at as usize] = sectors;
    }
}
