//! What an ask is answered by the entry that is found for it.
ghost use Rattle.std.specs.Prelude.{◌≡◌, ◌&&◌, IfOk, IfSome, MatchOption, OnErr, Some, false, option_copied, true};
ghost use Rattle.std.specs.List.{list_all};
ghost use Rattle.zio_types.specs.Choices.{taken_by};
ghost use Rattle.zio_types.specs.Places.{are_open, fits_size, is_inside, is_lawful_top};
ghost use Rattle.zio_places.specs.Ordered.{all_placed_in};
ghost use Rattle.zio_places.specs.Spaces.{IsSound, used};
ghost use Rattle.zio_blocks.specs.Choosers.{IsFoundEntry};
ghost use Rattle.zio_audit.specs.Replays.{is_found, unplaced};

use crate::judge::{fits, places_of};
use zio_places::{ClaimFault, Space};
use zio_types::{Entry, Key, NOWHERE, NoMemory, Place, TopSize};

/// Uses what the entry takes, if there is one, its places may hold copies, and it is open; then it gives it once more.
pub(crate) fn take_found(
    space: &mut Space,
    tops: &[TopSize],
    entry: Option<&Entry>,
) -> Result<Option<Entry>, NoMemory>
    requires sizes { tops.now ≡ space.old.sizes }
    requires lawful { list_all is_lawful_top tops.now ≡ true }
    requires sound { IsSound space.old }
    ensures taken { IfOk result (λ taken. MatchOption taken
        ((space.new ≡ space.old) × IfSome (option_copied entry.entry)
        (λ e. (is_found tops.now e && are_open (used space.old) (taken_by e)) ≡ false))
        (λ e. (option_copied entry.entry ≡ Some e)
        × ((is_found tops.now e && are_open (used space.old) (taken_by e)) ≡ true)
        × (space.new ≡ record space.old { live = all_placed_in (taken_by e) space.old.live }))) }
    ensures err { OnErr result (space.new ≡ space.old) }
    ensures sound { IsSound space.new }
{
    let Some(entry) = entry else {
        return Ok(None);
    };
    if !is_found(tops, entry) {
        return Ok(None);
    }
    take_entry(space, Some(entry))
}

// Uses what the entry takes, if there is one and this is open, and gives it once more; else nothing has changed.
fn take_entry(space: &mut Space, entry: Option<&Entry>) -> Result<Option<Entry>, NoMemory>
    requires found { IfSome (option_copied entry) (IsFoundEntry space.old.sizes) }
    requires sound { IsSound space.old }
    ensures taken { IfOk result (λ taken. MatchOption taken
        ((space.new ≡ space.old)
        × IfSome (option_copied entry.entry) (λ e. are_open (used space.old) (taken_by e) ≡ false))
        (λ e. (option_copied entry.entry ≡ Some e) × (are_open (used space.old) (taken_by e) ≡ true)
        × (space.new ≡ record space.old { live = all_placed_in (taken_by e) space.old.live }))) }
    ensures err { OnErr result (space.new ≡ space.old) }
    ensures sound { IsSound space.new }
{
    let Some(entry) = entry else {
        return Ok(None);
    };
    match space.claim(taken_places(entry)) {
        Ok(()) => Ok(Some(entry.copy())),
        Err(ClaimFault::Taken) => Ok(None),
        Err(ClaimFault::Memory) => Err(NoMemory),
        Err(ClaimFault::Outside) => unreachable!(),
    }
}

fn taken_places(entry: &Entry) -> &[Place]
    ensures { result.now ≡ taken_by entry.now }
{
    if entry.found < entry.copies {
        &[]
    } else {
        places_of(entry)
    }
}

/// The entry that was taken, or a refused one.
pub(crate) fn answer_of(taken: Option<Entry>, key: Key, size: u32, copies: u32) -> Entry
    ensures { MatchOption taken
        (result ≡ unplaced (record { key = key; size = size; copies = copies }))
        (λ e. result ≡ e) }
{
    match taken {
        Some(entry) => entry,
        None => Entry {
            key,
            size,
            copies,
            found: 0,
            places: [NOWHERE; 3],
        },
    }
}

// The entry has no more places than copies, and each may hold a copy.
fn is_found(tops: &[TopSize], entry: &Entry) -> bool
    requires { list_all is_lawful_top tops.now ≡ true }
    ensures { result ≡ is_found tops.now entry.now }
{
    let places = places_of(entry);
    places.len() <= entry.copies as usize && may_all_hold(tops, entry.size, places)
}

fn may_all_hold(tops: &[TopSize], size: u32, places: &[Place]) -> bool
    requires { list_all is_lawful_top tops.now ≡ true }
    ensures { result ≡ list_all (λ p. fits_size tops.now size p && is_inside tops.now p) places.now }
{
    places.iter().all(|place| may_hold(tops, size, place))
}

// The place may hold a copy.
fn may_hold(tops: &[TopSize], size: u32, place: &Place) -> bool
    requires { list_all is_lawful_top tops.now ≡ true }
    ensures { result ≡ (fits_size tops.now size place.now && is_inside tops.now place.now) }
{
    fits(tops, size, place) && is_inside(tops, place)
}

// The place lies inside its top.
fn is_inside(tops: &[TopSize], place: &Place) -> bool
    ensures { result ≡ is_inside tops.now place.now }
{
    match tops.get(place.top as usize) {
        Some(top) => {
            let sectors = u64::from(place.sectors);
            sectors > 0 && sectors <= top.sectors && place.sector <= top.sectors - sectors
        }
        None => false,
    }
}
