//! Whether a report's journal is spelled, and for how many rounds.
ghost use Rattle.std.specs.Prelude.{◌≡◌, ◌≤◌, IfOk, List, MatchOption, length, true};
ghost use Rattle.std.specs.List.{list_all};
ghost use Rattle.zio_types.specs.Places.{is_lawful_top};
ghost use Rattle.zio_spelled.specs.Rounds.{IsSpelled, lines_of_rounds};

use crate::rounds::{JournalFault, RoundJournal, Rounds};
use std::alloc::Global;
use zio_types::{NoMemory, TopSize};

/// The most bytes of a report.
pub const REPORT_LEN_MAX: usize = 64 * 1024 * 1024;

/// How many rounds a report has, by its `round` lines; none exactly where it spells no journal: where a line of the
/// journal isn't of its shape, or stands before all rounds. It keeps the journal of one round at a time.
pub fn count_rounds(alloc: Global, tops: &[TopSize], text: &[u8]) -> Result<Option<u32>, NoMemory>
    requires lawful { list_all is_lawful_top tops.now ≡ true }
    requires short { length text.now ≤ REPORT_LEN_MAX }
    ensures { IfOk result (λ rounds. MatchOption rounds
        ((journals : List RoundJournal) → ¬ IsSpelled tops.now text.now journals)
        (λ n. (n ≡ length (lines_of_rounds text.now))
        × ((journals : List RoundJournal) × IsSpelled tops.now text.now journals))) }
{
    let Some(all) = Rounds::of(text) else {
        return Ok(None);
    };
    let mut rounds = all;
    let mut count = 0;
    loop {
        match rounds.next_round(alloc, tops, count + 1) {
            Ok(None) => return Ok(Some(count)),
            Ok(Some(_)) => count += 1,
            Err(JournalFault::Faulty) => return Ok(None),
            Err(JournalFault::Memory) => return Err(NoMemory),
        }
    }
}
