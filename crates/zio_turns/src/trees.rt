//! A tree of a round, from one attempt to the next.

ghost use Rattle.std.specs.Prelude.{◌≡◌, ◌++◌, ◌<◌, ◌≤◌, List as Seq, IfOk, IfSome, OnOk};
ghost use Rattle.zio_types.specs.declared.place.Top.{Top as SeenTop};
ghost use Rattle.zio_gang.specs.Attempts.{now_alone};
ghost use Rattle.zio_exchange.specs.Wholes.{IsWhole};
ghost use Rattle.zio_turns.specs.Rounds.{finished_in};
ghost use Rattle.zio_turns.specs.Slabs.{AreAll};
ghost use Rattle.zio_staged.specs.Stages.{OutcomeIn};
ghost use Rattle.zio_turns.specs.UnderTrees.{BeginsOn, EndIn, IsOfAttempt, TreeGoesOn};

use crate::turns::Turns;
use std::alloc::Global;
use zio_counts::REEXECUTIONS_MAX;
use zio_exchange::{Finished, Outcome, Whole};
use zio_script::Failmode;
use zio_staged::Staged;
use zio_types::{Bits, NoMemory};

/// With what a tree is settled in a round.
#[derive(Drop)]
pub enum TreeEnd {
    /// Its root finished, and nothing is left of it.
    Finished,
    /// This is left of it, and is suspended.
    Suspended(Whole),
}

/// How far a tree of a round is.
#[derive(Drop)]
pub enum TreeState {
    /// The attempt of this number is under way.
    UnderWay(u32),
    Settled(TreeEnd),
}

/// The attempt of this number of the tree of this number is handed to a node, which is queued.
pub fn begin_attempt<N: Staged>(
    turns: &mut Turns<N>,
    alloc: Global,
    round: u32,
    failmode: Failmode,
    tree: u32,
    attempt: u32,
    whole: Whole,
) -> Result<(), NoMemory>
    requires { attempt < 4 }
    ensures begins { OnOk result
        (BeginsOn N.nodes turns.old.nodes turns.old.line turns.new.nodes turns.new.line round failmode
        tree attempt whole) }
    ensures over { (tops : Seq SeenTop) → AreAll (N.over tops) turns.old.nodes → N.tree_over tops whole →
        OnOk result (AreAll (N.over tops) turns.new.nodes) }
{
    let Ok(node) = N::start(alloc, whole, round, attempt, failmode) else {
        return Err(NoMemory);
    };
    turns.add_root(tree, attempt, node)
}

/// What is left of a tree is one tree.
fn one_tree(whole: &Whole)
    ensures { IsWhole whole.now }
{
    let _root = whole.root();
}

/// Whether a tree with these bits is attempted again at once.
fn now_alone(bits: Bits) -> bool
    ensures { result ≡ now_alone bits }
{
    bits.now && !bits.suspend
}

/// The tree of this number hears with what its attempt of this number ended: it is settled, or its next attempt is
/// handed out, where its root is to go again at once and no more than three attempts were made again. A root that
/// finished is added to those that ended.
pub fn hear_tree<N: Staged>(
    turns: &mut Turns<N>,
    alloc: Global,
    round: u32,
    failmode: Failmode,
    tree: u32,
    attempt: u32,
    outcome: Outcome<N::Seal>,
    ended: &mut Vec<Finished<N::Seal>>,
) -> Result<Option<TreeEnd>, NoMemory>
    requires attempt { attempt ≤ 3 }
    requires outcome { IsOfAttempt outcome }
    ensures goes_on { IfOk result
        (TreeGoesOn N.nodes turns.old.nodes turns.old.line turns.new.nodes turns.new.line round failmode
        tree attempt outcome) }
    ensures over { (tops : Seq SeenTop) → AreAll (N.over tops) turns.old.nodes → OutcomeIn (N.tree_over tops) outcome →
        OnOk result (AreAll (N.over tops) turns.new.nodes) }
    ensures inside { (tops : Seq SeenTop) → OutcomeIn (N.tree_over tops) outcome →
        IfOk result (λ end. IfSome end (EndIn (N.tree_over tops))) }
    ensures ended { OnOk result (ended.new.items ≡ ended.old.items ++ finished_in outcome) }
{
    match outcome {
        Outcome::Finished(finished) => {
            ended.push(finished)?;
            Ok(Some(TreeEnd::Finished))
        }
        Outcome::Again { whole, bits, .. } => {
            if !now_alone(bits) {
                return Ok(Some(TreeEnd::Suspended(whole)));
            }
            if attempt >= REEXECUTIONS_MAX {
                return Ok(Some(TreeEnd::Suspended(whole)));
            }
            one_tree(&whole);
            begin_attempt(turns, alloc, round, failmode, tree, attempt + 1, whole)?;
            Ok(None)
        }
        Outcome::Found(_) => unreachable!(),
        Outcome::Walked(_) => unreachable!(),
        Outcome::Stored(_) => unreachable!(),
    }
}
