//! The tables of all tops: places are held, released and found here.

ghost use Rattle.std.specs.Prelude.{◌≡◌, ◌+◌, ◌^◌, ◌<◌, ◌≤◌, ◌∷◌, [], ℕ, List, length, true, false, Contains, IsTrue, All, ◌↔◌, MatchOption};
ghost use Rattle.zio_types.specs.Places.{HasRun, is_inside, uses_top, are_open};
ghost use Rattle.zio_places.specs.Flags.{AreAll, best_run};
ghost use Rattle.zio_places.specs.Spaces.{is_on_top, are_on_tops};
ghost use Rattle.zio_places.specs.Tables.{top_at, whole_units, sizes_of, live_of, length_at, total, cover_count, taken_at, AreAligned, AreBitmapsOf, HaveEqualLengths, AreConsistent, HasFlags, IsMarkedUsed, AreMarkedUsed, IsEntered, AreAllocated, IsRoom, IsFresh, IsFound, NoneHasRoom, NoFreshHasRoom};

use crate::table::SectorTable;
use zio_types::{Place, SECTOR_SIZE};

/// The place lies below the end of its top, has sectors, and stands on whole units.
pub fn is_on_top(tops: &[SectorTable], place: &Place) -> bool
    ensures { result ≡ is_on_top (sizes_of tops.now) place.now }
{
    let top = place.top as usize;
    if top >= tops.len() {
        return false;
    }
    let table = &tops[top];
    table.is_inside(place) && table.is_aligned(place)
}

/// The place's sectors get used.
pub fn mark(tops: &mut [SectorTable], place: Place)
    requires { HasFlags tops.old place true }
    ensures { IsMarkedUsed tops.old tops.new place }
{
    let table = &mut tops[place.top as usize];
    table.set_flag(place.sector, place.sectors, false);
}

/// They get free.
pub fn clear(tops: &mut [SectorTable], place: Place)
    requires { HasFlags tops.old place false }
    ensures { IsMarkedUsed tops.new tops.old place }
{
    let table = &mut tops[place.top as usize];
    table.set_flag(place.sector, place.sectors, true);
}

/// The place is live from now on.
pub fn enter(tops: &mut [SectorTable], place: Place)
    requires filled { 0 < place.sectors }
    requires inside { place.sector < length (top_at tops.old place.top).lengths }
    requires empty { length_at tops.old place.top place.sector ≡ 0 }
    ensures { IsEntered tops.old tops.new place }
{
    let table = &mut tops[place.top as usize];
    table.set_length(place.sector, place.sectors);
}

/// It is live no more.
pub fn remove(tops: &mut [SectorTable], place: Place)
    requires filled { 0 < place.sectors }
    requires live { length_at tops.old place.top place.sector ≡ place.sectors }
    ensures { IsEntered tops.new tops.old place }
{
    let table = &mut tops[place.top as usize];
    table.set_length(place.sector, 0);
}

/// The place is live, and its sectors used.
pub fn allocate(tops: &mut [SectorTable], place: Place)
    requires kept { AreConsistent tops.old }
    requires room { HasFlags tops.old place true }
    ensures { AreAllocated tops.old tops.new (place ∷ []) }
{
    mark(tops, place);
    enter(tops, place);
}

/// A live place is live no more, and its sectors are free.
pub fn release(tops: &mut [SectorTable], place: Place)
    requires kept { AreConsistent tops.old }
    requires live { Contains (live_of tops.old) place }
    ensures { AreAllocated tops.new tops.old (place ∷ []) }
{
    remove(tops, place);
    clear(tops, place);
}

/// So many places at once, each live and no two the same, are live no more, and their sectors are free.
pub fn release_all(tops: &mut [SectorTable], places: &[Place])
    requires kept { AreConsistent tops.old }
    requires live { (f : Place → ℕ) → total f places.now ≤ total f (live_of tops.old) }
    ensures { AreAllocated tops.new tops.old places.now }
{
    for place in places {
        release(tops, *place);
    }
}

/// All sectors of the place are free.
pub fn is_open(tops: &[SectorTable], place: &Place) -> bool
    requires inside { IsTrue (is_inside (sizes_of tops.now) place.now) }
    requires even { HaveEqualLengths tops.now }
    ensures { IsTrue result ↔ HasFlags tops.now place.now true }
{
    let table = &tops[place.top as usize];
    table.is_free(place.sector, place.sectors)
}

/// Holds the places, or none of them where one isn't free beside those before it.
pub fn allocate_all(tops: &mut [SectorTable], places: &[Place]) -> bool
    requires kept { AreConsistent tops.old }
    requires inside { are_on_tops (sizes_of tops.old) places.now ≡ true }
    ensures held { IsTrue result → AreAllocated tops.old tops.new places.now }
    ensures unchanged { result ≡ false → AreAllocated tops.old tops.new [] }
    ensures exact { (used : List Place) → AreBitmapsOf used tops.old → result ≡ are_open used places.now }
{
    for (i, place) in places.iter().enumerate() {
        if !is_open(tops, place) {
            release_all(tops, &places[..i]);
            return false;
        }
        allocate(tops, *place);
    }
    true
}

fn is_used(places: &[Place], top: u32) -> bool
    ensures { result ≡ uses_top places.now top }
{
    places.iter().any(|place| place.top == top)
}

/// A place for so many sectors, rounded up to whole units, on this top.
fn find_on(tops: &[SectorTable], top: u32, sectors: u32) -> Option<Place>
    requires there { top < length tops.now }
    requires some { 0 < sectors }
    requires most { sectors ≤ 2 ^ 23 }
    ensures { MatchOption result
        (best_run (top_at tops.now top).free < whole_units tops.now top sectors)
        (λ p. IsRoom tops.now sectors p × (p.top ≡ top)) }
{
    let table = &tops[top as usize];
    let count = table.whole_units(sectors);
    let sector = table.first_run(count)?;
    Some(Place {
        top,
        sector,
        sectors: count,
    })
}

/// A place for so many sectors, rounded up to whole units, on the first top with room that none of the earlier places
/// uses.
fn find_fresh(tops: &[SectorTable], earlier: &[Place], sectors: u32) -> Option<Place>
    requires few { length tops.now < 2 ^ 32 }
    requires some { 0 < sectors }
    requires most { sectors ≤ 2 ^ 23 }
    ensures { MatchOption result
        (NoFreshHasRoom tops.now earlier.now sectors)
        (IsFresh tops.now earlier.now sectors) }
{
    for top in 0..tops.len() as u32 {
        if is_used(earlier, top) {
            continue;
        }
        let found = find_on(tops, top, sectors);
        if found.is_some() {
            return found;
        }
    }
    None
}

/// A place for so many sectors, rounded up to whole units, on the first top with room.
fn find_any(tops: &[SectorTable], sectors: u32) -> Option<Place>
    requires few { length tops.now < 2 ^ 32 }
    requires some { 0 < sectors }
    requires most { sectors ≤ 2 ^ 23 }
    ensures { MatchOption result (NoneHasRoom tops.now sectors) (IsRoom tops.now sectors) }
{
    for top in 0..tops.len() as u32 {
        let found = find_on(tops, top, sectors);
        if found.is_some() {
            return found;
        }
    }
    None
}

/// The top exists, and has a free run for a size in bytes.
pub fn has_run_on(tops: &[SectorTable], top: u32, size: u32) -> bool
    requires { HaveEqualLengths tops.now }
    ensures { (used : List Place) → AreBitmapsOf used tops.now → AreAligned (sizes_of tops.now) used →
        IsTrue result ↔ HasRun (sizes_of tops.now) used top size }
{
    let sectors = size / SECTOR_SIZE;
    if sectors == 0 || top as usize >= tops.len() {
        return false;
    }
    find_on(tops, top, sectors).is_some()
}

/// Some top has one.
pub fn has_run(tops: &[SectorTable], size: u32) -> bool
    requires few { length tops.now < 2 ^ 32 }
    requires even { HaveEqualLengths tops.now }
    ensures { (used : List Place) → AreBitmapsOf used tops.now → AreAligned (sizes_of tops.now) used →
        IsTrue result ↔ ((top : ℕ) × HasRun (sizes_of tops.now) used top size) }
{
    let sectors = size / SECTOR_SIZE;
    if sectors == 0 {
        return false;
    }
    find_any(tops, sectors).is_some()
}

/// A place for the next copy, on a top that none of the earlier ones uses where such a top has room.
pub fn find(tops: &[SectorTable], earlier: &[Place], sectors: u32) -> Option<Place>
    requires few { length tops.now < 2 ^ 32 }
    requires some { 0 < sectors }
    requires most { sectors ≤ 2 ^ 23 }
    ensures { MatchOption result (NoneHasRoom tops.now sectors) (IsFound tops.now earlier.now sectors) }
{
    let fresh = find_fresh(tops, earlier, sectors);
    if fresh.is_some() {
        return fresh;
    }
    find_any(tops, sectors)
}

/// The place is one of the live ones.
pub fn is_live(tops: &[SectorTable], place: &Place) -> bool
    ensures { IsTrue result ↔ Contains (live_of tops.now) place.now }
{
    let top = place.top as usize;
    if top >= tops.len() {
        return false;
    }
    let sectors = place.sectors;
    0 < sectors && tops[top].length_at(place.sector) == sectors
}

/// Each place lies inside its top on whole units.
pub fn all_on_tops(tops: &[SectorTable], places: &[Place]) -> bool
    ensures { result ≡ are_on_tops (sizes_of tops.now) places.now }
{
    places.iter().all(|place| is_on_top(tops, place))
}

/// The sectors of places that are no longer live get free.
pub fn clear_all(tops: &mut [SectorTable], places: &[Place])
    requires filled { All (λ p. 0 < p.sectors) places.now }
    requires taken { (top sector : ℕ) → cover_count places.now top sector ≤ taken_at tops.old top sector }
    ensures { AreMarkedUsed tops.new tops.old places.now }
{
    for place in places {
        clear(tops, *place);
    }
}
