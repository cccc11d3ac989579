//! The line of an entry.
ghost use Rattle.std.specs.Prelude.{◌≡◌, ◌∷◌, ◌++◌, ◌<◌, [], true, codes, length, slice_get, MatchOption};
ghost use Rattle.zio_script.specs.Words.{is_word};
ghost use Rattle.std.specs.List.{list_all};
ghost use Rattle.zio_types.specs.Places.{is_lawful_top, sectors_on};
ghost use Rattle.zio_spelled.specs.Spelled.{IsTake, IsTakeShape, sectors_there};
ghost use Rattle.zio_spelled.specs.Reading.{key_read, next_read, number_in, path_in, place_in, places_onto, role_in, sector_in, steps_onto, take_in, take_read, unread, with_place};

use crate::number::{byte_in, long_number_in, number_in};
use crate::parts::Parts;
use zio_types::{Entry, Key, NOWHERE, Path, Place, Role, SECTOR_SIZE, TopSize};

/// The entry of this round that a `take` line spells, none exactly where the line isn't of its shape. Its places have
/// the sectors that its size takes on these tops; a top that isn't there has the unit 1.
pub fn take_line(tops: &[TopSize], round: u32, line: &[u8]) -> Option<Entry>
    requires { list_all is_lawful_top tops.now ≡ true }
    ensures { MatchOption result (¬ IsTakeShape line.now) (λ choice. IsTake tops.now round line.now choice) }
{
    take_in(tops, round, line)
}

pub(crate) fn take_in(tops: &[TopSize], round: u32, line: &[u8]) -> Option<Entry>
    requires { list_all is_lawful_top tops.now ≡ true }
    ensures { result ≡ take_in tops.now round line.now }
{
    let mut words = Parts::of(line, b' ');
    match words.next()? {
        b"take" => entry_in(tops, round, words),
        _ => None,
    }
}

fn entry_in(tops: &[TopSize], round: u32, words: Parts<'_>) -> Option<Entry>
    requires { list_all is_lawful_top tops.now ≡ true }
    ensures { result ≡ take_read tops.now round (unread words.entry) }
{
    let mut words = words;
    let key = key_in(round, &mut words)?;
    let size = next_number(&mut words)?;
    let copies = next_number(&mut words)?;
    let entry = Entry {
        key,
        size,
        copies,
        found: 0,
        places: [NOWHERE; 3],
    };
    places_onto(tops, entry, words)
}

fn key_in(round: u32, words: &mut Parts<'_>) -> Option<Key>
    ensures { MatchOption result
        (key_read round (unread words.old) ≡ None)
        (λ key. key_read round (unread words.old) ≡ Some (record { value = key; rest = unread words.new })) }
{
    let request = next_number(words)?;
    let attempt = next_number(words)?;
    let path = next_path(words)?;
    let role = next_role(words)?;
    Some(Key {
        request,
        round,
        attempt,
        path,
        role,
    })
}

fn next_number(words: &mut Parts<'_>) -> Option<u32>
    ensures { MatchOption result
        (next_read number_in (unread words.old) ≡ None)
        (λ n. next_read number_in (unread words.old) ≡ Some (record { value = n; rest = unread words.new })) }
{
    number_in(words.next()?)
}

fn next_path(words: &mut Parts<'_>) -> Option<Path>
    ensures { MatchOption result
        (next_read path_in (unread words.old) ≡ None)
        (λ path. next_read path_in (unread words.old) ≡ Some (record { value = path; rest = unread words.new })) }
{
    path_in(words.next()?)
}

fn next_role(words: &mut Parts<'_>) -> Option<Role>
    ensures { MatchOption result
        (next_read role_in (unread words.old) ≡ None)
        (λ role. next_read role_in (unread words.old) ≡ Some (record { value = role; rest = unread words.new })) }
{
    role_in(words.next()?)
}

fn role_in(word: &[u8]) -> Option<Role>
    ensures { result ≡ role_in word.now }
{
    match word {
        b"body" => Some(Role::Body),
        b"head" => Some(Role::Head),
        _ => None,
    }
}

fn path_in(word: &[u8]) -> Option<Path>
    ensures { result ≡ path_in word.now }
{
    let root = Path {
        len: 0,
        steps: [0; 8],
    };
    match word {
        b"-" => Some(root),
        _ => steps_onto(root, Parts::of(word, b'.')),
    }
}

// The path with the steps of the parts behind it.
fn steps_onto(path: Path, parts: Parts<'_>) -> Option<Path>
    ensures { result ≡ steps_onto path (unread parts.entry) }
{
    let mut parts = parts;
    let Some(part) = parts.next() else {
        return Some(path);
    };
    let step = byte_in(part)?;
    if path.len == 8 {
        return None;
    }
    steps_onto(with_step(&path, step), parts)
}

fn with_step(path: &Path, step: u8) -> Path
    requires { length path.now < 8 }
    ensures { result ≡ path.now ++ step ∷ [] }
{
    let mut steps = path.steps;
    steps[path.len as usize] = step;
    Path {
        len: path.len + 1,
        steps,
    }
}

// The entry with the places of the words behind its own, where the last word may mark it as refused.
fn places_onto(tops: &[TopSize], entry: Entry, words: Parts<'_>) -> Option<Entry>
    requires { list_all is_lawful_top tops.now ≡ true }
    ensures { result ≡ places_onto tops.now entry (unread words.entry) }
{
    let mut words = words;
    let Some(word) = words.next() else {
        return Some(entry);
    };
    if is_mark(word) {
        return match words.next() {
            None => Some(entry),
            Some(_) => None,
        };
    }
    let place = place_in(tops, entry.size, word)?;
    if entry.found == 3 {
        return None;
    }
    places_onto(tops, with_place(&entry, place), words)
}

fn is_mark(word: &[u8]) -> bool
    ensures { result ≡ is_word (codes "refused") word.now }
{
    match word {
        b"refused" => true,
        _ => false,
    }
}

fn with_place(entry: &Entry, place: Place) -> Entry
    requires { length entry.now.places < 3 }
    ensures { result ≡ with_place entry.now place }
{
    let mut places = entry.places;
    places[entry.found as usize] = place;
    Entry {
        key: entry.key,
        size: entry.size,
        copies: entry.copies,
        found: entry.found + 1,
        places,
    }
}

fn place_in(tops: &[TopSize], size: u32, word: &[u8]) -> Option<Place>
    requires { list_all is_lawful_top tops.now ≡ true }
    ensures { result ≡ place_in tops.now size word.now }
{
    let mut parts = Parts::of(word, b':');
    let top = next_number(&mut parts)?;
    let sector = next_sector(&mut parts)?;
    match parts.next() {
        None => Some(Place {
            top,
            sector,
            sectors: sectors_there(tops, top, size),
        }),
        Some(_) => None,
    }
}

fn next_sector(parts: &mut Parts<'_>) -> Option<u64>
    ensures { MatchOption result
        (next_read sector_in (unread parts.old) ≡ None)
        (λ n. next_read sector_in (unread parts.old) ≡ Some (record { value = n; rest = unread parts.new })) }
{
    long_number_in(parts.next()?)
}

// How many sectors the size takes on the top. A top that isn't there has the unit 1.
fn sectors_there(tops: &[TopSize], top: u32, size: u32) -> u32
    requires { list_all is_lawful_top tops.now ≡ true }
    ensures { result ≡ sectors_there (slice_get tops.now top) size }
{
    match tops.get(top as usize) {
        None => size / SECTOR_SIZE,
        Some(top) => sectors_on(top, size),
    }
}

#[tactic(auto, using(crate::proofs::TakeLemmas::unit_above, crate::proofs::TakeLemmas::unit_below))]
fn sectors_on(top: &TopSize, size: u32) -> u32
    requires { is_lawful_top top.now ≡ true }
    ensures { result ≡ sectors_on top.now size }
{
    let sectors = size / SECTOR_SIZE;
    (sectors + (top.unit - 1)) / top.unit * top.unit
}
