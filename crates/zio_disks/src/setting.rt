ghost use Rattle.std.specs.Prelude.{◌≡◌, ◌+◌, ◌<◌, ◌^◌};
ghost use Rattle.std.specs.List.{AllByRecursion};
ghost use Rattle.zio_faults.specs.Hits.{RowFits};
ghost use Rattle.zio_cksum.specs.Blocks.{leaves_of};
ghost use Rattle.zio_cksum.specs.Images.{met};

use std::marker::Model;
use zio_faults::{FaultTable, Hit};
use zio_types::{List, Place, Top};

/// What an operation on a leaf depends on beside the disks.
#[derive(Debug, Drop)]
pub struct Setting {
    pub tops: List<Top>,
    pub table: FaultTable,
    /// The resume point.
    pub point: u32,
}

impl Model for Setting {
    ghost use Rattle.zio_cksum.specs.Images.{Setting as Seen};

    ghost Value = { Seen };

    ghost view = { λ s. record { tops = s.tops; rows = s.table.rows; point = s.point } };
}

impl Setting {
    /// The place's leaves, in the order of the top.
    pub fn leaves(&self, place: &Place) -> &[u32]
        ensures { result.now ≡ leaves_of self.now place.now }
    {
        match self.tops.as_slice().get(place.top as usize) {
            Some(top) => top.leaves.as_slice(),
            None => &[],
        }
    }

    /// The row that an operation meets.
    pub(crate) fn hit(&self, retry: bool, write: bool, spot: &Spot) -> Option<Hit>
        requires rows { AllByRecursion RowFits self.now.rows }
        requires room { spot.now.at + spot.now.span < 2 ^ 64 }
        ensures { result ≡ met self.now retry write spot.now }
    {
        self.table
            .hit(spot.leaf, write, spot.at, spot.span, self.point, retry)
    }
}

/// Where an operation goes: a leaf, a byte of it, and how many bytes its place has from there on.
#[derive(Debug, Drop)]
pub struct Spot {
    pub leaf: u32,
    /// In bytes.
    pub at: u64,
    /// In bytes.
    pub span: u64,
}

impl Model for Spot {
    ghost use Rattle.zio_cksum.specs.Images.{Spot as Seen};

    ghost Value = { Seen };

    ghost view = { λ s. record { leaf = s.leaf; at = s.at; span = s.span } };
}

/// Why an operation on blocks was stopped.
#[derive(Clone, Copy, Debug, PartialEq, Eq)]
pub enum Stop {
    /// A disk failed.
    Device,
    /// Want of memory.
    Memory,
}
