//! The trees of a round, one after another.

ghost use Rattle.std.specs.Prelude.{◌≡◌, ◌≤◌, ◌⊎◌, ◌++◌, [], ℕ, ◌==◌, IfErr, IfOk, IfSome, IsPermutation, None, OnOk, count_by, length, map, true};
ghost use Rattle.std.specs.List.{AllByRecursion};
ghost use Rattle.zio_script.specs.declared.script.Request.{Request as SeenRequest};
ghost use Rattle.zio_gang.specs.Attempts.{Pending};
ghost use Rattle.zio_gang.specs.ByNumber.{merge_by};
ghost use Rattle.zio_gang.specs.Rounds.{add_left};
ghost use Rattle.zio_course.specs.declared.runner.RequestEnd.{RequestEnd};
ghost use Rattle.zio_course.specs.Runners.{AreRisingFrom, completion_for, has_claim, is_numbered, joined_trees, made_trees, requests_in, roots_of};
ghost use Rattle.zio_disks.specs.Whole.{IsWholeTree};
ghost use Rattle.zio_plain.specs.Posts.{IsOneTree};
ghost use Rattle.zio_plain.specs.Settlings.{AreRun, IsListEnd, IsTreesRun, named_in};
ghost use Rattle.zio_plain.specs.Waits.{pendings};

use crate::attempt::Ends;
use crate::evaluated::Evaluated;
use crate::settle::settle;
use crate::tree::PlainTree;
use crate::waiting::Waiting;
use crate::works::OwnWork;
use std::alloc::Global;
use zio_course::Stop;
use zio_gang::Tree;
use zio_script::Failmode;
use zio_types::{Completion, List, NoMemory};

/// Settles each tree in turn. It gives what is left of those that are suspended.
pub(crate) fn settle_trees<W: OwnWork>(
    alloc: Global,
    works: &mut W,
    failmode: Failmode,
    trees: List<PlainTree>,
    ends: &mut Ends,
) -> Result<List<PlainTree>, Stop>
    requires once { (n : ℕ) → count_by (λ (r : SeenRequest). r.number == n) (requests_in trees) ≤ 1 }
    requires can { AllByRecursion (λ (p : Pending). IfSome p.block IsWholeTree
        → W.can works.old p.block) (joined_trees trees) }
    requires claim { has_claim (requests_in trees) ≡ true → length (requests_in trees) ≡ 1 }
    ensures run { IfOk result
        (λ left. AreRun W.tells W.runs W.fresh W.given (W.moves (named_in trees)) failmode trees left
        ends.old.finished ends.new.finished ends.old.freed ends.new.freed works.old works.new) }
    ensures breaks { IfErr result (λ stop. W.breaks (named_in trees) works.old works.new stop) }
{
    let mut left = List::new(alloc);
    for tree in trees.into_rest() {
        let rest = settle(alloc, works, failmode, tree.waiting, ends)?;
        note_left(&mut left, rest)?;
    }
    Ok(left)
}

/// Adds what is left of a tree, if there is something.
fn note_left(left: &mut List<PlainTree>, rest: List<Waiting>) -> Result<(), NoMemory>
    requires { (rest ≡ []) ⊎ IsOneTree IsWholeTree rest }
    ensures { OnOk result (left.new ≡ left.old ++ add_left (pendings rest) []) }
{
    if !rest.is_empty() {
        left.push(PlainTree { waiting: rest })?;
    }
    Ok(())
}

/// What a round comes to, beside what own work stands on.
#[derive(Debug, Drop)]
pub(crate) struct TreesEnd {
    /// By number.
    pub(crate) finished: List<Evaluated>,
    /// What is left of the trees that are suspended.
    pub(crate) left: List<PlainTree>,
    /// In the order in which the requests finished.
    pub(crate) completions: List<Completion>,
    /// The blocks of frees without error.
    pub(crate) freed: List<Tree>,
}

/// Runs the trees of a round.
pub(crate) fn run_trees<W: OwnWork>(
    alloc: Global,
    works: &mut W,
    round: u32,
    failmode: Failmode,
    trees: List<PlainTree>,
) -> Result<TreesEnd, Stop>
    requires once { (n : ℕ) → count_by (λ (r : SeenRequest). r.number == n) (requests_in trees) ≤ 1 }
    requires can { AllByRecursion (λ (p : Pending). IfSome p.block IsWholeTree
        → W.can works.old p.block) (joined_trees trees) }
    requires claim { has_claim (requests_in trees) ≡ true → length (requests_in trees) ≡ 1 }
    requires roots { AllByRecursion (λ (r : SeenRequest). r.under ≡ None) (roots_of trees) }
    ensures run { IfOk result
        (λ end. IsTreesRun W.tells W.runs W.fresh W.given (W.moves (named_in trees)) round failmode trees end.left
        end.finished end.completions end.freed works.old works.new) }
    ensures ends { IfOk result (λ end. IsListEnd round trees end.left end.finished end.completions) }
    ensures fits { IfOk result (λ end. AllByRecursion IsWholeTree (made_trees end.finished)) }
    ensures breaks { IfErr result (λ stop. W.breaks (named_in trees) works.old works.new stop) }
{
    let mut ends = Ends {
        finished: List::new(alloc),
        freed: List::new(alloc),
    };
    let left = settle_trees(alloc, works, failmode, trees, &mut ends)?;
    let Ends { finished, freed } = ends;
    let completions = completions_of(alloc, round, finished.as_slice())?;
    Ok(TreesEnd {
        finished: by_number(finished),
        left,
        completions,
        freed,
    })
}

/// One for each request that finished, in the same order.
fn completions_of(
    alloc: Global,
    round: u32,
    finished: &[Evaluated],
) -> Result<List<Completion>, NoMemory>
    ensures { IfOk result (λ completions. completions ≡ map (completion_for round) finished.now) }
{
    let mut completions = List::new(alloc);
    for one in finished {
        completions.push(Completion {
            request: one.request(),
            round,
            error: one.error(),
        })?;
    }
    Ok(completions)
}

/// In the order of their numbers, each of which stands once.
fn by_number(finished: List<Evaluated>) -> List<Evaluated>
    requires { (n : ℕ) → count_by (is_numbered n) (map (λ (f : RequestEnd). f.request) finished) ≤ 1 }
    ensures order { result ≡ merge_by (λ (f : RequestEnd). f.request) finished [] }
    ensures rising { AreRisingFrom 0 (map (λ (f : RequestEnd). f.request) result) }
    ensures same { IsPermutation finished result }
{
    let mut all = finished.into_vec();
    all.sort_unstable_by_key(|one| one.request());
    List::from_vec(all)
}
