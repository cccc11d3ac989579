//! Where a round's entries stand, by their keys.
ghost use Rattle.std.specs.Prelude.{◌≡◌, IfOk, MatchOption, find, option_copied};
ghost use Rattle.zio_types.specs.Choices.{same_ask, same_key};
ghost use Rattle.zio_gang.specs.Journals.{HaveDistinctKeys, asks_of};
ghost use Rattle.zio_audit.specs.Names.{IsIndexOf, has_key, is_head, name_of};
ghost use Rattle.zio_audit.specs.Replays.{recorded_for};

use std::alloc::Global;
use std::collections::BTreeMap;
use zio_types::{Entry, Key, NoMemory, ReqNo, Role};

/// What a key names, with an order.
#[derive(Clone, Copy, PartialEq, Eq, PartialOrd, Ord)]
pub(crate) struct Name {
    pub(crate) request: ReqNo,
    pub(crate) round: u32,
    pub(crate) attempt: u32,
    /// A header is asked for.
    pub(crate) head: bool,
    /// How many steps the path has.
    pub(crate) len: u32,
    /// Zeros from `len` on.
    pub(crate) steps: [u8; 8],
}

// Whether it is that of a header.
fn is_head(role: Role) -> bool
    ensures { result ≡ is_head role }
{
    match role {
        Role::Body => false,
        Role::Head => true,
    }
}

pub(crate) fn name_of(key: &Key) -> Name
    ensures { result ≡ name_of key.now }
{
    let path = &key.path;
    Name {
        request: key.request,
        round: key.round,
        attempt: key.attempt,
        head: is_head(key.role),
        len: path.len,
        steps: path.steps,
    }
}

/// Where each entry stands; none exactly where a key stands twice.
pub(crate) fn index_of(
    alloc: Global,
    entries: &[Entry],
) -> Result<Option<BTreeMap<Name, usize>>, NoMemory>
    ensures { IfOk result (λ made. MatchOption made
        (¬ HaveDistinctKeys (asks_of entries.now))
        (λ index. HaveDistinctKeys (asks_of entries.now) × IsIndexOf index.entries entries.now entries.now)) }
{
    let mut index = BTreeMap::new(alloc);
    for at in 0..entries.len() {
        let entry = &entries[at];
        let earlier = index.insert(name_of(&entry.key), at)?;
        if earlier.is_some() {
            return Ok(None);
        }
    }
    Ok(Some(index))
}

// The entry with the key, if there is one.
fn entry_with<'a>(
    index: &BTreeMap<Name, usize>,
    entries: &'a [Entry],
    key: &Key,
) -> Option<&'a Entry>
    requires { IsIndexOf index.now.entries entries.now entries.now }
    ensures { option_copied result ≡ find (has_key key.now) entries.now }
{
    match index.get(&name_of(key)) {
        Some(at) => entries.get(*at),
        None => None,
    }
}

/// The entry under the key, where size and copies are the same too.
pub(crate) fn entry_for<'a>(
    index: &BTreeMap<Name, usize>,
    entries: &'a [Entry],
    key: &Key,
    size: u32,
    copies: u32,
) -> Option<&'a Entry>
    requires distinct { HaveDistinctKeys (asks_of entries.now) }
    requires index { IsIndexOf index.now.entries entries.now entries.now }
    ensures { option_copied result
        ≡ recorded_for entries.now (record { key = key.now; size = size; copies = copies }) }
{
    let Some(entry) = entry_with(index, entries, key) else {
        return None;
    };
    if entry.size == size && entry.copies == copies {
        Some(entry)
    } else {
        None
    }
}

/// The same, sought without an index.
pub(crate) fn entry_among<'a>(
    entries: &'a [Entry],
    key: &Key,
    size: u32,
    copies: u32,
) -> Option<&'a Entry>
    ensures { option_copied result
        ≡ recorded_for entries.now (record { key = key.now; size = size; copies = copies }) }
{
    entries
        .iter()
        .find(|entry| is_same_ask(entry, key, size, copies))
}

fn is_same_ask(entry: &Entry, key: &Key, size: u32, copies: u32) -> bool
    ensures { result ≡ same_ask entry.now.asked (record { key = key.now; size = size; copies = copies }) }
{
    is_same_key(&entry.key, key) && entry.size == size && entry.copies == copies
}

fn is_same_key(one: &Key, other: &Key) -> bool
    ensures { result ≡ same_key one.now other.now }
{
    name_of(one).cmp(&name_of(other)).is_eq()
}
