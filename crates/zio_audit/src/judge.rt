//! Whether recorded entries are lawful one after another.
ghost use Rattle.std.specs.Prelude.{◌≡◌, ◌<◌, ◌^◌, ◌++◌, ◌↔◌, [], ℕ, IfOk, IsTrue, List, MatchBool, OnOk, length, false, true};
ghost use Rattle.std.specs.List.{list_all};
ghost use Rattle.zio_types.specs.declared.place.Place.{Place as SeenPlace};
ghost use Rattle.zio_types.specs.Choices.{taken_by};
ghost use Rattle.zio_types.specs.Places.{AreCopies, HasRun, IsLawfulChoice, IsNextCopy, SamePlaces, fits_size, is_lawful_top, sectors_on, uses_top};
ghost use Rattle.zio_gang.specs.Journals.{AreLawful};
ghost use Rattle.zio_places.specs.Ordered.{all_placed_in, placed_in};
ghost use Rattle.zio_places.specs.Spaces.{is_open, used};
ghost use Rattle.zio_audit.specs.Keeping.{Keeps};

use zio_places::{ClaimFault, Space};
use zio_types::{Entry, NoMemory, Place, TopSize};

// How many sectors the size in bytes takes on the top.
fn sectors_on(top: &TopSize, size: u32) -> u64
    requires { is_lawful_top top.now ≡ true }
    ensures { result ≡ sectors_on top.now size }
{
    let unit = u64::from(top.unit);
    (u64::from(size) / 512 + (unit - 1)) / unit * unit
}

// The place fits the size: it has the sectors that the size takes on its top, from a multiple of the top's unit on.
pub(crate) fn fits(tops: &[TopSize], size: u32, place: &Place) -> bool
    requires { list_all is_lawful_top tops.now ≡ true }
    ensures { result ≡ fits_size tops.now size place.now }
{
    match tops.get(place.top as usize) {
        Some(top) => {
            place.sector % u64::from(top.unit) == 0
                && u64::from(place.sectors) == sectors_on(top, size)
        }
        None => false,
    }
}

fn uses_top(places: &[Place], top: u32) -> bool
    ensures { result ≡ uses_top places.now top }
{
    places.iter().any(|place| place.top == top)
}

// A top that no earlier copy uses has a free run.
fn has_other_run(space: &Space, tops: u32, size: u32, earlier: &[Place]) -> bool
    requires { length space.now.sizes ≡ tops }
    ensures { IsTrue result ↔ ((top : ℕ) × (uses_top earlier.now top ≡ false)
        × HasRun space.now.sizes (used space.now) top size) }
{
    for top in 0..tops {
        if uses_top(earlier, top) {
            continue;
        }
        if space.has_run_on(top, size) {
            return true;
        }
    }
    false
}

// The place may be found for a copy behind these, which are in use.
fn is_next_copy(
    space: &Space,
    tops: &[TopSize],
    size: u32,
    earlier: &[Place],
    place: &Place,
) -> bool
    requires sizes { tops.now ≡ space.now.sizes }
    requires lawful { list_all is_lawful_top tops.now ≡ true }
    requires few { length tops.now < 2 ^ 32 }
    ensures copy { (before : List SeenPlace) → SamePlaces (used space.now) (earlier.now ++ before)
        → (IsTrue result ↔ IsNextCopy tops.now before size earlier.now place.now) }
    ensures open { IsTrue result → is_open space.now place.now ≡ true }
{
    if !fits(tops, size, place) || !space.is_open(place) {
        return false;
    }
    if !uses_top(earlier, place.top) {
        return true;
    }
    !has_other_run(space, tops.len() as u32, size, earlier)
}

// Uses the open place.
fn claim_open(space: &mut Space, place: &Place) -> Result<(), NoMemory>
    requires { is_open space.old place.now ≡ true }
    ensures claimed { OnOk result (space.new ≡ record space.old { live = placed_in place.now space.old.live }) }
    ensures kept { Keeps space.old space.new }
{
    match space.claim(&[*place]) {
        Ok(()) => Ok(()),
        Err(ClaimFault::Memory) => Err(NoMemory),
        Err(ClaimFault::Outside | ClaimFault::Taken) => unreachable!(),
    }
}

// Frees places that were claimed last, in this order.
fn release_all(space: &mut Space, places: &[Place])
    requires { (start : List SeenPlace) × (space.old.live ≡ all_placed_in places.now start) }
    ensures freed { (start : List SeenPlace) → space.old.live ≡ all_placed_in places.now start
        → space.new ≡ record space.old { live = start } }
    ensures kept { Keeps space.old space.new }
{
    let mut left = places.len();
    while left > 0 {
        left -= 1;
        space.release(places[left]);
    }
}

// Claims places one after another, where each may be found behind those before it; else what is claimed isn't said.
fn claim_copies(
    space: &mut Space,
    tops: &[TopSize],
    size: u32,
    places: &[Place],
) -> Result<bool, NoMemory>
    requires sizes { tops.now ≡ space.old.sizes }
    requires lawful { list_all is_lawful_top tops.now ≡ true }
    requires few { length tops.now < 2 ^ 32 }
    ensures copies { IfOk result (λ all. MatchBool all
        (AreCopies tops.now (used space.old) size [] places.now
        × (space.new ≡ record space.old { live = all_placed_in places.now space.old.live }))
        (¬ AreCopies tops.now (used space.old) size [] places.now)) }
    ensures kept { Keeps space.old space.new }
{
    for i in 0..places.len() {
        if !is_next_copy(space, tops, size, &places[..i], &places[i]) {
            return Ok(false);
        }
        claim_open(space, &places[i])?;
    }
    Ok(true)
}

// Claims what a lawful entry takes; else what is claimed isn't said.
fn judge_entry(space: &mut Space, tops: &[TopSize], entry: &Entry) -> Result<bool, NoMemory>
    requires sizes { tops.now ≡ space.old.sizes }
    requires lawful { list_all is_lawful_top tops.now ≡ true }
    requires few { length tops.now < 2 ^ 32 }
    ensures lawful { IfOk result (λ lawful. MatchBool lawful
        (IsLawfulChoice tops.now (used space.old) entry.now
        × (space.new ≡ record space.old { live = all_placed_in (taken_by entry.now) space.old.live }))
        (¬ IsLawfulChoice tops.now (used space.old) entry.now)) }
    ensures kept { Keeps space.old space.new }
{
    let places = places_of(entry);
    if places.len() > entry.copies as usize {
        return Ok(false);
    }
    if !claim_copies(space, tops, entry.size, places)? {
        return Ok(false);
    }
    if places.len() == entry.copies as usize {
        return Ok(true);
    }
    if space.has_run(entry.size) {
        return Ok(false);
    }
    release_all(space, places);
    Ok(true)
}

// Frees what an entry took, if that was claimed last.
fn release_entry(space: &mut Space, entry: &Entry)
    requires { (start : List SeenPlace) × (space.old.live ≡ all_placed_in (taken_by entry.now) start) }
    ensures freed { (start : List SeenPlace) → space.old.live ≡ all_placed_in (taken_by entry.now) start
        → space.new ≡ record space.old { live = start } }
    ensures kept { Keeps space.old space.new }
{
    let places = places_of(entry);
    if places.len() >= entry.copies as usize {
        release_all(space, places);
    }
}

/// Whether recorded entries are lawful one after another beside what is in use, on these tops. Where they are the space
/// is as it was; where they aren't, or memory is refused, it is sound, and what is in use isn't said.
pub fn are_lawful(space: &mut Space, tops: &[TopSize], entries: &[Entry]) -> Result<bool, NoMemory>
    requires sizes { tops.now ≡ space.old.sizes }
    requires lawful { list_all is_lawful_top tops.now ≡ true }
    requires few { length tops.now < 2 ^ 32 }
    ensures lawful { IfOk result (λ lawful. MatchBool lawful
        (AreLawful tops.now (used space.old) entries.now × (space.new ≡ space.old))
        (¬ AreLawful tops.now (used space.old) entries.now)) }
    ensures kept { Keeps space.old space.new }
{
    for entry in entries {
        if !judge_entry(space, tops, entry)? {
            return Ok(false);
        }
    }
    let mut left = entries.len();
    while left > 0 {
        left -= 1;
        release_entry(space, &entries[left]);
    }
    Ok(true)
}

pub(crate) fn places_of(entry: &Entry) -> &[Place]
    ensures { result.now ≡ entry.now.places }
{
    &entry.places[..entry.found as usize]
}
