//! A whole round enters the journal.

ghost use Rattle.std.specs.Prelude.{◌≡◌, ◌++◌, ◌+◌, ◌<◌, ◌^◌, OnErr, OnOk};

use std::alloc::Global;
use std::mem;
use zio_types::{Completion, Entry, Journal, List, NoMemory};

/// Counts a round that is whole, with its entries and completions behind those of the rounds before.
///
/// The room for all of them is taken first. So where memory is refused the journal is as it was, and no half of a round
/// is in it.
pub fn enter_round(
    alloc: Global,
    journal: &mut Journal,
    entries: List<Entry>,
    completions: List<Completion>,
) -> Result<(), NoMemory>
    requires { journal.old.rounds + 1 < 2 ^ 32 }
    ensures places { OnOk result (journal.new.places ≡ journal.old.places ++ entries) }
    ensures completions { OnOk result (journal.new.completions ≡ journal.old.completions ++ completions) }
    ensures rounds { OnOk result (journal.new.rounds ≡ journal.old.rounds + 1) }
    ensures err { OnErr result (journal.new ≡ journal.old) }
{
    let mut entries = entries.into_vec();
    let mut completions = completions.into_vec();
    let mut places = mem::replace(&mut journal.places, List::new(alloc)).into_vec();
    let mut ends = mem::replace(&mut journal.completions, List::new(alloc)).into_vec();
    let has_room = places.reserve(entries.len()).is_ok() && ends.reserve(completions.len()).is_ok();
    if has_room {
        // The room is there, so neither is refused.
        let _ = places.append(&mut entries);
        let _ = ends.append(&mut completions);
        journal.rounds += 1;
    }
    journal.places = List::from_vec(places);
    journal.completions = List::from_vec(ends);
    if has_room { Ok(()) } else { Err(NoMemory) }
}
