//! Places for the copies of an ask.

ghost use Rattle.std.specs.Prelude.{◌≡◌, ◌^◌, ◌%◌, ◌<◌, ◌≤◌, List, length, cond};
ghost use Rattle.zio_types.specs.Choices.{is_refused, taken_by};
ghost use Rattle.zio_types.specs.Places.{IsLawfulChoice};
ghost use Rattle.zio_places.specs.Tables.{sizes_of, AreAligned, AreBitmapsOf, AreConsistent, AreAllocated};

use crate::table::SectorTable;
use crate::tops::{allocate, find, release_all};
use zio_types::{COPIES_MAX, Entry, Key, NOWHERE, Place, SECTOR_SIZE};

/// Finds and holds a place for each copy. Where one has none, those found are free again.
pub fn take_copies(tops: &mut [SectorTable], key: Key, size: u32, copies: u32) -> Entry
    requires few { length tops.old < 2 ^ 32 }
    requires kept { AreConsistent tops.old }
    requires some { 0 < size }
    requires whole { size % 512 ≡ 0 }
    requires most { copies ≤ COPIES_MAX }
    ensures asked { result.asked ≡ record { key = key; size = size; copies = copies } }
    ensures held { AreAllocated tops.old tops.new (taken_by result) }
    ensures lawful { (used : List Place) → AreBitmapsOf used tops.old → AreAligned (sizes_of tops.old) used →
        IsLawfulChoice (sizes_of tops.old) used result }
{
    let sectors = size / SECTOR_SIZE;
    let mut places = [NOWHERE; COPIES_MAX as usize];
    for found in 0..copies {
        let earlier = found as usize;
        let Some(place) = find(tops, &places[..earlier], sectors) else {
            release_all(tops, &places[..earlier]);
            return Entry {
                key,
                size,
                copies,
                found,
                places,
            };
        };
        allocate(tops, place);
        places[earlier] = place;
    }
    Entry {
        key,
        size,
        copies,
        found: copies,
        places,
    }
}

/// How many places the entry takes.
pub fn taken_count(entry: &Entry) -> u32
    ensures count { result ≡ length (taken_by entry.now) }
    ensures most { result ≤ 3 }
{
    if entry.found < entry.copies {
        0
    } else {
        entry.found
    }
}
