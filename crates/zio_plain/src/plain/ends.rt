//! The begin and the end of a round.

ghost use Rattle.std.specs.Prelude.{◌≡◌, [], Contains, Err, IfOk, IsTrue, List as Seq, OnErr, OnOk, false, true};
ghost use Rattle.std.specs.List.{AllByRecursion, flat_map};
ghost use Rattle.zio_types.specs.declared.place.Place.{Place as SeenPlace};
ghost use Rattle.zio_types.specs.declared.place.TopSize.{TopSize};
ghost use Rattle.zio_types.specs.Choices.{Choice};
ghost use Rattle.zio_types.specs.Places.{SamePlaces, are_apart};
ghost use Rattle.zio_blkptr.specs.Pointers.{valid};
ghost use Rattle.zio_cksum.specs.Images.{Images};
ghost use Rattle.zio_gang.specs.Attempts.{Pending, Terms};
ghost use Rattle.zio_gang.specs.Journals.{HaveDistinctKeys, asks_of};
ghost use Rattle.zio_gang.specs.Trees.{tree_places};
ghost use Rattle.zio_gang.specs.declared.tree.Tree.{Tree as SeenTree};
ghost use Rattle.zio_blocks.specs.Choosers.{AreHeld, AreLeft};
ghost use Rattle.zio_plain.specs.Entries.{AreEntriesFor, AreTermsFrom, HaveRunOn};

use crate::entries::{EntriesFault, RoundEntries};
use crate::ground::Ground;
use std::alloc::Global;
use zio_blocks::Chooser;
use zio_course::Stop;
use zio_gang::Tree;
use zio_outside::Disk;
use zio_types::{Entry, List, NoMemory, Place};

/// Notes the round and its resume point, and begins it for its chooser; and notes whether what was recorded of the
/// round is strange.
pub(crate) fn begin_round<D: Disk + Drop, C: Chooser + Drop, S: RoundEntries<C>>(
    ground: &mut Ground<D, C>,
    strange: &mut bool,
    round: u32,
    point: u32,
) -> Result<(), Stop>
    ensures setting { ground.new.setting ≡ record {
      tops = ground.old.setting.tops;
      rows = ground.old.setting.rows;
      point = point;
    } }
    ensures round { ground.new.round ≡ round }
    ensures disks { ground.new.disks ≡ ground.old.disks }
    ensures begun { OnOk result (S.begun round (C.sizes ground.old.chooser) (C.used ground.old.chooser)) }
    ensures sizes { OnOk result (C.sizes ground.new.chooser ≡ C.sizes ground.old.chooser) }
    ensures used { OnOk result (C.used ground.new.chooser ≡ C.used ground.old.chooser) }
    ensures live { OnOk result (C.live ground.new.chooser ≡ C.live ground.old.chooser) }
    ensures given { OnOk result (C.given ground.new.chooser ≡ C.given ground.old.chooser) }
    ensures usual { OnOk result (strange.new ≡ false) }
    ensures strange { OnErr result (strange.new ≡ true
        → (t : Terms) → AreTermsFrom round (C.sizes ground.old.chooser) (C.used ground.old.chooser) t
        → (trees : Seq (Seq Pending)) (before : Images) → S.strange t trees before) }
    ensures memory { OnErr result (result ≡ Err Stop.Memory) }
{
    ground.setting.point = point;
    ground.round = round;
    match S::begin(&mut ground.chooser, round) {
        Ok(()) => {
            *strange = false;
            Ok(())
        }
        Err(EntriesFault::Strange) => {
            *strange = true;
            Err(Stop::Memory)
        }
        Err(EntriesFault::Memory) => {
            *strange = false;
            Err(Stop::Memory)
        }
    }
}

/// The entries of the round, in which its chooser gave these; and notes whether what was recorded of it is strange.
pub(crate) fn entries_of<C: Chooser + Drop, S: RoundEntries<C>>(
    chooser: &C,
    strange: &mut bool,
    round: u32,
    given: List<Entry>,
) -> Result<List<Entry>, Stop>
    requires distinct { HaveDistinctKeys (asks_of given) }
    requires rounds { AllByRecursion (λ (c : Choice). c.asked.key.round ≡ round) given }
    ensures entries { IfOk result (λ its. (sizes : Seq TopSize) (used : Seq SeenPlace)
        → S.begun round sizes used → C.lawful sizes used given → AreEntriesFor sizes used given its) }
    ensures chosen { IfOk result (S.chosen round) }
    ensures usual { OnOk result (strange.new ≡ false) }
    ensures strange { OnErr result (strange.new ≡ true → (sizes : Seq TopSize) (used : Seq SeenPlace)
        → S.begun round sizes used → C.lawful sizes used given
        → (t : Terms) → AreTermsFrom round sizes used t
        → (trees : Seq (Seq Pending)) (before : Images) → HaveRunOn given t trees before
        → S.strange t trees before) }
    ensures memory { OnErr result (result ≡ Err Stop.Memory) }
{
    match S::entries(chooser, round, given) {
        Ok(its) => {
            *strange = false;
            Ok(its)
        }
        Err(EntriesFault::Strange) => {
            *strange = true;
            Err(Stop::Memory)
        }
        Err(EntriesFault::Memory) => {
            *strange = false;
            Err(Stop::Memory)
        }
    }
}

/// Gives the places of blocks back that were freed, and ends the round for the chooser. It gives the entries that the
/// chooser gave.
pub(crate) fn end_round<C: Chooser + Drop>(
    alloc: Global,
    chooser: &mut C,
    freed: &[Tree],
) -> Result<List<Entry>, NoMemory>
    requires valid { AllByRecursion (λ (tree : SeenTree). IsTrue (valid tree.bp)) freed.now }
    requires live { AllByRecursion (Contains (C.live chooser.old)) (flat_map tree_places freed.now) }
    requires apart { are_apart (flat_map tree_places freed.now) ≡ true }
    ensures entries { IfOk result (λ entries. entries ≡ C.given chooser.old) }
    ensures given { OnOk result (C.given chooser.new ≡ []) }
    ensures live { OnOk result (AreLeft (C.live chooser.old) (flat_map tree_places freed.now) (C.live chooser.new)) }
    ensures used { OnOk result (SamePlaces (C.used chooser.new) (C.live chooser.new)) }
    ensures held { OnOk result (AreHeld (C.sizes chooser.new) (C.used chooser.new) (C.live chooser.new)) }
    ensures sizes { OnOk result (C.sizes chooser.new ≡ C.sizes chooser.old) }
{
    let places = places_of_all(alloc, freed)?;
    chooser.give_back(places.as_slice());
    Ok(chooser.end_round())
}

/// The places of some blocks, one block's after another's.
fn places_of_all(alloc: Global, trees: &[Tree]) -> Result<List<Place>, NoMemory>
    requires valid { AllByRecursion (λ (tree : SeenTree). IsTrue (valid tree.bp)) trees.now }
    ensures { IfOk result (λ places. places ≡ flat_map tree_places trees.now) }
{
    let mut all = Vec::new(alloc);
    for tree in trees {
        let mut more = tree.places(alloc)?.into_vec();
        all.append(&mut more)?;
    }
    Ok(List::from_vec(all))
}
