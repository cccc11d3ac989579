//! One attempt of a tree: each request in turn, its children before it.

ghost use Rattle.std.specs.Prelude.{◌≡◌, ◌≤◌, ◌∷◌, ◌++◌, [], List, Err, IfErr, IfOk, None, OnErr, OnOk, length, map, option_to_list, reverse, take, true, vec_len};
ghost use Rattle.std.specs.List.{AllByRecursion};
ghost use Rattle.zio_types.specs.declared.place.Place.{Place as SeenPlace};
ghost use Rattle.zio_script.specs.Requests.{kind_of};
ghost use Rattle.zio_script.specs.Whys.{is_claim};
ghost use Rattle.zio_cksum.specs.Images.{Images};
ghost use Rattle.zio_gang.specs.Attempts.{Terms, now_alone, own_work, root_bits};
ghost use Rattle.zio_course.specs.Runners.{AreRisingFrom, has_claim, places_of_block};
ghost use Rattle.zio_disks.specs.Whole.{IsWholeTree};
ghost use Rattle.zio_plain.specs.Judgments.{children_handed};
ghost use Rattle.zio_plain.specs.OwnEnds.{AreAsked, AreNamed, IsFor, IsOwnEnd, Named, TellsOwn};
ghost use Rattle.zio_plain.specs.Passes.{AreNumberedApart, IsPass, IsStep, freed_unless, made_unless};
ghost use Rattle.zio_plain.specs.Posts.{IsOneTree, IsSound, requests_in};
ghost use Rattle.zio_plain.specs.Waits.{HasPointer, merged, numbers_in, pending_of, pointers_in, return_of};
ghost use Rattle.zio_plain.specs.declared.waiting.Handed.{Handed as SeenHanded};
ghost use Rattle.zio_plain.specs.declared.waiting.Waiting.{Waiting as SeenWaiting};

use crate::children::{children_of, handed_last, merged};
use crate::evaluated::Evaluated;
use crate::judge::{Fate, Judged, judge};
use crate::waiting::{Handed, Waiting};
use crate::works::{OwnDone, OwnWork};
use std::alloc::Global;
use zio_course::Stop;
use zio_gang::Tree;
use zio_script::Failmode;
use zio_types::{List, NoMemory, Place};

/// What a round's attempts ended so far.
#[derive(Debug, Drop)]
pub(crate) struct Ends {
    /// In the order in which they finished.
    pub(crate) finished: List<Evaluated>,
    /// The blocks of frees without error.
    pub(crate) freed: List<Tree>,
}

/// What an attempt leaves of a tree.
#[derive(Debug, Drop)]
pub(crate) struct PassEnd {
    /// Nothing where its root finished, else a tree.
    pub(crate) left: List<Waiting>,
    /// Its root is to go again at once.
    pub(crate) at_once: bool,
}

/// One attempt of a tree: each request in turn.
pub(crate) fn attempt<W: OwnWork>(
    alloc: Global,
    works: &mut W,
    failmode: Failmode,
    attempt: u32,
    tree: List<Waiting>,
    ends: &mut Ends,
) -> Result<PassEnd, Stop>
    requires tree { IsOneTree IsWholeTree tree }
    requires apart { AreNumberedApart tree }
    requires can { AllByRecursion (λ (w : SeenWaiting). W.can works.old w.block) tree }
    requires claim { has_claim (requests_in tree) ≡ true → length tree ≡ 1 }
    ensures pass { IfOk result (λ end. (named : Named)
        → AllByRecursion (λ (w : SeenWaiting). AreNamed named w.request.work w.block) tree
        → IsPass W.tells W.runs W.fresh W.given (W.moves named) failmode attempt tree end.left end.at_once
        ends.old.finished ends.new.finished ends.old.freed ends.new.freed works.old works.new) }
    ensures breaks { IfErr result (λ stop. (named : Named)
        → AllByRecursion (λ (w : SeenWaiting). AreNamed named w.request.work w.block) tree
        → W.breaks named works.old works.new stop) }
{
    let mut handed = Vec::new(alloc);
    let mut again = List::new(alloc);
    for waiting in tree.into_rest() {
        attempt_request(
            alloc,
            works,
            failmode,
            attempt,
            waiting,
            &mut handed,
            &mut again,
            ends,
        )?;
    }
    let at_once = goes_at_once(&handed);
    Ok(PassEnd {
        left: again,
        at_once,
    })
}

/// Whether what was handed on last says that it goes again at once.
fn goes_at_once(handed: &[Handed]) -> bool
    ensures { result ≡ now_alone (root_bits (map return_of (reverse handed.now))) }
{
    match handed {
        [.., last] => last.bits.now && !last.bits.suspend,
        [] => false,
    }
}

/// A request's part of an attempt: its own work, and then it finishes or goes again. What its children handed on is on
/// top of what was handed on, and what it hands on takes its place.
fn attempt_request<W: OwnWork>(
    alloc: Global,
    works: &mut W,
    failmode: Failmode,
    attempt: u32,
    waiting: Waiting,
    handed: &mut Vec<Handed>,
    again: &mut List<Waiting>,
    ends: &mut Ends,
) -> Result<(), Stop>
    requires can { W.can works.old waiting.block }
    requires sound { IsSound IsWholeTree waiting }
    requires enough { waiting.unfinished ≤ vec_len handed.old }
    requires rising { AreRisingFrom 0
        (numbers_in (children_handed (reverse (take waiting.unfinished (reverse handed.old.items))))) }
    requires pointers { AllByRecursion (λ (h : SeenHanded). HasPointer h.child)
        (take waiting.unfinished (reverse handed.old.items)) }
    ensures step { OnOk result ((named : Named) → AreNamed named waiting.request.work waiting.block
        → IsStep W.tells W.runs W.fresh W.given (W.moves named) failmode attempt waiting (reverse handed.old.items)
        (reverse handed.new.items)
        again.old again.new ends.old.finished ends.new.finished ends.old.freed ends.new.freed works.old works.new) }
    ensures breaks { IfErr result (λ stop. (named : Named) → AreNamed named waiting.request.work waiting.block
        → W.breaks named works.old works.new stop) }
{
    let children = handed_last(handed, waiting.unfinished)?;
    let OwnDone { end, taken } = do_own(alloc, works, attempt, &waiting, children.as_slice())?;
    let Judged {
        handed: one,
        fate,
        unused,
    } = judge(alloc, failmode, waiting, children.as_slice(), end)?;
    note_handed(handed, one)?;
    match fate {
        Fate::Ends(finished) => end_request(works, finished, taken, unused, ends),
        Fate::Again(left) => {
            works.give_back(taken);
            note_again(again, left)?;
            Ok(())
        }
    }
}

/// Does the own work of a request, whose unfinished children handed this on.
fn do_own<W: OwnWork>(
    alloc: Global,
    works: &mut W,
    attempt: u32,
    waiting: &Waiting,
    children: &[Handed],
) -> Result<OwnDone, Stop>
    requires can { W.can works.old waiting.now.block }
    requires sound { IsSound IsWholeTree waiting.now }
    requires count { length children.now ≡ waiting.now.unfinished }
    requires rising { AreRisingFrom 0 (numbers_in (children_handed children.now)) }
    requires pointers { AllByRecursion (λ (h : SeenHanded). HasPointer h.child) children.now }
    ensures told { IfOk result (λ done. (t : Terms) → W.runs works.old t
        → (is_claim (kind_of waiting.now.request.work) ≡ true → W.fresh works.old t)
        → (images : Images) → W.tells works.old images → TellsOwn W.tells W.given
        (λ journal. own_work journal t attempt (pending_of waiting.now) waiting.now.request.work
        (pointers_in (merged (reverse (children_handed children.now)) waiting.now.kept)) images) done.end works.old
        works.new) }
    ensures end { IfOk result (λ done. IsOwnEnd waiting.now done.end) }
    ensures asked { OnOk result (AreAsked (IsFor waiting.now.request.number attempt) (W.given works.old)
        (W.given works.new)) }
    ensures moves { IfOk result (λ done. (named : Named) → AreNamed named waiting.now.request.work waiting.now.block
        → W.moves named works.old works.new done.taken) }
    ensures made { IfOk result (λ done. done.end.error ≡ None → (named : Named)
        → AreNamed named waiting.now.request.work waiting.now.block
        → W.moves named works.old works.new (places_of_block done.end.tree)) }
    ensures breaks { IfErr result (λ stop. (named : Named) → AreNamed named waiting.now.request.work waiting.now.block
        → W.breaks named works.old works.new stop) }
{
    let new = children_of(alloc, children)?;
    let all = merged(alloc, new.as_slice(), waiting.kept.as_slice())?;
    works.own_work(attempt, waiting, all.as_slice())
}

/// Notes a request that finished. With an error its places are given back, and without one those of the block that it
/// freed will be.
fn end_request<W: OwnWork>(
    works: &mut W,
    finished: Evaluated,
    taken: List<Place>,
    freed: Option<Tree>,
    ends: &mut Ends,
) -> Result<(), Stop>
    requires taken { (named : Named) × ((before : W) × W.moves named before works.old taken) }
    ensures finished { OnOk result (ends.new.finished ≡ ends.old.finished ++ finished ∷ []) }
    ensures freed { OnOk result (ends.new.freed ≡ ends.old.freed ++ freed_unless finished.error freed) }
    ensures moves { (named : Named) (before : W) (made : List SeenPlace) → W.moves named before works.old taken
        → (finished.error ≡ None → W.moves named before works.old made)
        → W.moves named before works.new (made_unless finished.error made) }
    ensures images { (images : Images) → W.tells works.old images → W.tells works.new images }
    ensures given { W.given works.new ≡ W.given works.old }
    ensures err { OnErr result (result ≡ Err Stop.Memory) }
{
    if finished.error().is_some() {
        works.give_back(taken);
        note_end(ends, finished, None)?;
    } else {
        note_end(ends, finished, freed)?;
    }
    Ok(())
}

fn note_end(ends: &mut Ends, finished: Evaluated, freed: Option<Tree>) -> Result<(), NoMemory>
    ensures finished { OnOk result (ends.new.finished ≡ ends.old.finished ++ finished ∷ []) }
    ensures freed { OnOk result (ends.new.freed ≡ ends.old.freed ++ option_to_list freed) }
{
    if let Some(tree) = freed {
        ends.freed.push(tree)?;
    }
    ends.finished.push(finished)?;
    Ok(())
}

fn note_handed(handed: &mut Vec<Handed>, one: Handed) -> Result<(), NoMemory>
    ensures { OnOk result (handed.new.items ≡ handed.old.items ++ one ∷ []) }
{
    handed.push(one)?;
    Ok(())
}

fn note_again(again: &mut List<Waiting>, left: Waiting) -> Result<(), NoMemory>
    ensures { OnOk result (again.new ≡ again.old ++ left ∷ []) }
{
    again.push(left)?;
    Ok(())
}
