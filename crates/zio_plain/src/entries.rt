//! Which entries a round has.

ghost use Rattle.std.specs.Prelude.{◌≡◌, ℕ, IfOk, IsErrOf, List as Seq, OnOk};
ghost use Rattle.std.specs.List.{AllByRecursion};
ghost use Rattle.zio_types.specs.declared.place.Place.{Place};
ghost use Rattle.zio_types.specs.declared.place.TopSize.{TopSize};
ghost use Rattle.zio_types.specs.Choices.{Choice};
ghost use Rattle.zio_cksum.specs.Images.{Images};
ghost use Rattle.zio_gang.specs.Attempts.{Pending, Terms};
ghost use Rattle.zio_gang.specs.Journals.{HaveDistinctKeys, asks_of};
ghost use Rattle.zio_plain.specs.Entries.{AreEntriesFor, AreTermsFrom, HaveRunOn};

use zio_blocks::{Chooser, LawfulChooser};
use zio_types::{Entry, List};

/// Why a round has no entries.
#[derive(Clone, Copy, Debug, PartialEq, Eq)]
pub enum EntriesFault {
    /// Those that were recorded of it aren't its choices.
    Strange,
    /// Want of memory.
    Memory,
}

/// Says which entries a round has, where its chooser gave these: the same ones, or those that were recorded of it.
pub trait RoundEntries<C: Chooser> {
    /// What was found as the round with this number began, over tops of these sizes and beside these places in use.
    ghost begun: { ℕ → Seq TopSize → Seq Place → Type 0 };

    /// What the entries of the round with this number are, beside its choices.
    ghost chosen: { ℕ → Seq Choice → Type 0 };

    /// What it means that what was recorded of a round isn't what it chose: of the round's terms, its trees and the
    /// images before it.
    ghost strange: { Terms → Seq (Seq Pending) → Images → Type 0 };

    /// Begins a round for its chooser.
    fn begin(chooser: &mut C, round: u32) -> Result<(), EntriesFault>
        ensures begun { OnOk result (begun round (C.sizes chooser.old) (C.used chooser.old)) }
        ensures sizes { OnOk result (C.sizes chooser.new ≡ C.sizes chooser.old) }
        ensures used { OnOk result (C.used chooser.new ≡ C.used chooser.old) }
        ensures live { OnOk result (C.live chooser.new ≡ C.live chooser.old) }
        ensures given { OnOk result (C.given chooser.new ≡ C.given chooser.old) }
        ensures strange { IsErrOf result EntriesFault.Strange
            → (t : Terms) → AreTermsFrom round (C.sizes chooser.old) (C.used chooser.old) t
            → (trees : Seq (Seq Pending)) (before : Images) → strange t trees before };

    /// The entries of a round that was begun, in which its chooser gave these.
    fn entries(chooser: &C, round: u32, given: List<Entry>) -> Result<List<Entry>, EntriesFault>
        requires distinct { HaveDistinctKeys (asks_of given) }
        requires rounds { AllByRecursion (λ (c : Choice). c.asked.key.round ≡ round) given }
        ensures entries { IfOk result (λ its. (sizes : Seq TopSize) (used : Seq Place)
            → begun round sizes used → C.lawful sizes used given → AreEntriesFor sizes used given its) }
        ensures chosen { IfOk result (chosen round) }
        ensures strange { IsErrOf result EntriesFault.Strange → (sizes : Seq TopSize) (used : Seq Place)
            → begun round sizes used → C.lawful sizes used given → (t : Terms) → AreTermsFrom round sizes used t
            → (trees : Seq (Seq Pending)) (before : Images) → HaveRunOn given t trees before
            → strange t trees before };
}

/// The entries that the chooser gave, where these are lawful in the order of its asks.
pub struct AsGiven;

impl<C: LawfulChooser> RoundEntries<C> for AsGiven {
    ghost begun = { λ round sizes used. Unit {0} };

    ghost chosen = { λ round entries. Unit {0} };

    ghost strange = { λ t trees before. Unit {0} };

    fn begin(_chooser: &mut C, _round: u32) -> Result<(), EntriesFault> {
        Ok(())
    }

    fn entries(_chooser: &C, _round: u32, given: List<Entry>) -> Result<List<Entry>, EntriesFault> {
        Ok(given)
    }
}
