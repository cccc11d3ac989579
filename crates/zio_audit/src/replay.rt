//! The entries of a round, where these are what a report spells.
ghost use Rattle.std.specs.Prelude.{◌≡◌, ◌<◌, ◌^◌, [], IfOk, false, length, map, true};
ghost use Rattle.std.specs.List.{list_all};
ghost use Rattle.zio_types.specs.Places.{is_lawful_top};
ghost use Rattle.zio_gang.specs.Trees.{sizes_of};
ghost use Rattle.zio_disks.specs.Trees.{BearsTops};
ghost use Rattle.zio_blocks.specs.Blocks.{HavePointers};
ghost use Rattle.zio_audit.specs.Replays.{AreSpelledIn, ChoseSpelled, MayBeChoices, entries_in};

use crate::journals::Journals;
use crate::replayed::{Replayed, Spelled};
use std::alloc::Global;
use zio_disks::Setting;
use zio_outside::Disk;
use zio_plain::{EntriesFault, Plain, RoundEntries};
use zio_types::{Entry, List, NoMemory, TopSize};

/// A runner over disks that bear the tops, which runs the rounds of a script by the entries that a report spells of
/// them. It is stopped as for want of memory, and strange, in a round whose choices these aren't.
pub fn replay_over<'a, D: Disk + Drop, K: Spelled>(
    alloc: Global,
    setting: Setting,
    disks: Vec<D>,
    tops: &'a [TopSize],
    journals: Journals<'a>,
) -> Result<Plain<D, Replayed<'a, K>, AsSpelled>, NoMemory>
    requires bears { BearsTops setting (map D.bytes disks.items) }
    requires pointers { HavePointers setting.tops }
    requires tops { tops.now ≡ sizes_of setting.tops }
    requires lawful { list_all is_lawful_top tops.now ≡ true }
    requires few { length tops.now < 2 ^ 32 }
    requires journals { journals ≡ K.journals }
    ensures { IfOk result (λ runner. runner ≡ record {
      setting = setting;
      disks = disks.items;
      chooser = record {
        space = record { sizes = tops.now; live = []; pending = []; entries = []; spare = 0 };
        given = [];
      };
      last = 0;
      stopped = false;
      strange = false;
    }) }
{
    let chooser = Replayed::new(alloc, tops, journals)?;
    Ok(Plain::with_entries(alloc, setting, disks, chooser))
}

/// A round has the entries that a report spells of it, in the report's order; these are strange where they aren't the
/// round's choices.
pub struct AsSpelled;

impl<'a, K: Spelled> RoundEntries<Replayed<'a, K>> for AsSpelled {
    ghost begun = { λ round sizes used. MayBeChoices sizes used (entries_in K.journals round) };

    ghost chosen = { AreSpelledIn K.journals };

    ghost strange = { λ t trees before. ¬ ChoseSpelled K.journals t trees before };

    fn begin(chooser: &mut Replayed<'a, K>, round: u32) -> Result<(), EntriesFault> {
        chooser.begin_round(round)
    }

    fn entries(
        chooser: &Replayed<'a, K>,
        round: u32,
        given: List<Entry>,
    ) -> Result<List<Entry>, EntriesFault> {
        chooser.entries_for(round, given)
    }
}
