//! Stages that are run by what was reckoned ahead, several nodes at a time.

ghost use Rattle.std.specs.Prelude.{◌≡◌, ◌≢◌, ◌+◌, ◌<◌, ◌≤◌, ◌∷◌, ◌++◌, ℕ, List as Seq, [], Err, IfOk, IfSome, None, OnErr, OnOk, length};
ghost use Rattle.slab.specs.Slab.{get};
ghost use Rattle.zio_types.specs.declared.place.Top.{Top as SeenTop};
ghost use Rattle.zio_staged.specs.Entries.{times_in};
ghost use Rattle.zio_turns.specs.Helping.{AreBlank, AreReckoned, AreReordered, FitsAt, StaysKept, keys_wanted};
ghost use Rattle.zio_turns.specs.Rounds.{IsTurn, KeepsSome};
ghost use Rattle.zio_turns.specs.Slabs.{AreAll, load};

use crate::helper::{Helper, Wanted};
use crate::turns::Turns;
use std::alloc::Global;
use zio_disks::Stop;
use zio_staged::Staged;
use zio_types::{List, NoMemory, Rest, Top};

/// How many nodes beside the one whose turn it is a helper is given at a time.
const FURTHER_MAX: u32 = 255;

/// Lets the helper reckon ahead, where the node under the key, whose turn it is, and others behind it have much to
/// reckon. Their stages are run by that; the others are queued again. Each sound round is kept as far as it was, with
/// the key in front. After a stop, which is for want of memory, nothing is said of the nodes.
#[inline]
pub(crate) fn help<N: Staged, H: Helper<N>>(
    turns: &mut Turns<N>,
    alloc: Global,
    tops: &[Top],
    helper: &H,
    key: usize,
) -> Result<(), Stop>
    requires can { H.Can }
    requires turn { IsTurn N.nodes N.over tops.now turns.old.nodes turns.old.line key }
    ensures kept { OnOk result
        (StaysKept N.nodes turns.old.nodes (key ∷ turns.old.line) turns.new.nodes (key ∷ turns.new.line)) }
    ensures over { OnOk result (AreAll (N.over tops.now) turns.new.nodes) }
    ensures less { OnOk result (load N.nodes.left turns.new.nodes turns.new.line
        ≤ load N.nodes.left turns.old.nodes turns.old.line) }
    ensures memory { OnErr result (result ≡ Err Stop.Memory) }
{
    if !helper.waits() {
        return Ok(());
    }
    if !turns.is_heavy(key) {
        return Ok(());
    }
    match help_all(turns, alloc, tops, helper, key) {
        Ok(()) => Ok(()),
        Err(NoMemory) => Err(Stop::Memory),
    }
}

/// Lets the helper reckon ahead for the node under the key and for those behind it.
fn help_all<N: Staged, H: Helper<N>>(
    turns: &mut Turns<N>,
    alloc: Global,
    tops: &[Top],
    helper: &H,
    key: usize,
) -> Result<(), NoMemory>
    requires can { H.Can }
    requires turn { IsTurn N.nodes N.over tops.now turns.old.nodes turns.old.line key }
    ensures kept { OnOk result
        (StaysKept N.nodes turns.old.nodes (key ∷ turns.old.line) turns.new.nodes (key ∷ turns.new.line)) }
    ensures over { OnOk result (AreAll (N.over tops.now) turns.new.nodes) }
    ensures less { OnOk result (load N.nodes.left turns.new.nodes turns.new.line
        ≤ load N.nodes.left turns.old.nodes turns.old.line) }
{
    let mut wanted = gathered(turns, alloc, key)?;
    helper.reckon(alloc, tops, turns, wanted.as_mut_slice());
    let mut rest = List::from_vec(wanted).into_rest();
    let Some(own) = rest.next() else {
        unreachable!();
    };
    go_on(turns, key, own.ahead);
    settle(turns, rest)
}

/// The key whose turn it is, and behind it those at the head of the queue whose nodes have much to reckon, which are
/// taken out of it. The first of another kind is queued again.
fn gathered<N: Staged>(
    turns: &mut Turns<N>,
    alloc: Global,
    key: usize,
) -> Result<Vec<Wanted<N::Ahead>>, NoMemory>
    ensures first { IfOk result (λ wanted. (further : Seq ℕ) × (keys_wanted wanted.items ≡ key ∷ further)) }
    ensures same { IfOk result (λ wanted.
        AreReordered (key ∷ turns.old.line) (keys_wanted wanted.items ++ turns.new.line)) }
    ensures len { IfOk result (λ wanted.
        length wanted.items + length turns.new.line ≡ length turns.old.line + 1) }
    ensures blank { IfOk result (λ wanted. AreBlank wanted.items) }
    ensures nodes { turns.new.nodes ≡ turns.old.nodes }
{
    let mut wanted = Vec::new(alloc);
    wanted.push(Wanted { key, ahead: None })?;
    for _ in 0..FURTHER_MAX {
        if turns.len() == 0 {
            return Ok(wanted);
        }
        let next = turns.take(0);
        if !turns.is_heavy(next) {
            turns.requeue(next)?;
            return Ok(wanted);
        }
        let one = Wanted {
            key: next,
            ahead: None,
        };
        wanted.push(one)?;
    }
    Ok(wanted)
}

/// Runs the stage of the node under the key by what was reckoned of it, if anything was.
fn go_on<N: Staged>(turns: &mut Turns<N>, key: usize, ahead: Option<N::Ahead>)
    requires over { (tops : Seq SeenTop) × AreAll (N.over tops) turns.old.nodes }
    requires fits { IfSome ahead (FitsAt N.fits turns.old.nodes key) }
    ensures kept { (line : Seq ℕ) → 0 < times_in key line → StaysKept N.nodes turns.old.nodes line turns.new.nodes line }
    ensures others { (k : ℕ) → k ≢ key → get turns.new.nodes k ≡ get turns.old.nodes k }
    ensures over { (tops : Seq SeenTop) → AreAll (N.over tops) turns.old.nodes → AreAll (N.over tops) turns.new.nodes }
    ensures line { turns.new.line ≡ turns.old.line }
    ensures less { load N.nodes.left turns.new.nodes turns.new.line
        ≤ load N.nodes.left turns.old.nodes turns.old.line }
{
    if let Some(ahead) = ahead {
        turns.go_on(key, ahead);
    }
}

/// Runs the stages of the nodes by what was reckoned of them, and queues their keys again. Whatever is queued in front
/// of them stays there.
fn settle<N: Staged>(turns: &mut Turns<N>, rest: Rest<Wanted<N::Ahead>>) -> Result<(), NoMemory>
    requires keeps { (tops : Seq SeenTop) × (front leaves : Seq ℕ)
        × KeepsSome N.nodes tops turns.old.nodes (front ++ (keys_wanted rest ++ turns.old.line)) leaves }
    requires over { (tops : Seq SeenTop) × AreAll (N.over tops) turns.old.nodes }
    requires fits { AreReckoned N.fits turns.old.nodes rest }
    ensures kept { OnOk result ((front : Seq ℕ) → StaysKept N.nodes turns.old.nodes
        (front ++ (keys_wanted rest ++ turns.old.line)) turns.new.nodes (front ++ turns.new.line)) }
    ensures over { (tops : Seq SeenTop) → AreAll (N.over tops) turns.old.nodes
        → OnOk result (AreAll (N.over tops) turns.new.nodes) }
    ensures less { OnOk result (load N.nodes.left turns.new.nodes turns.new.line
        ≤ load N.nodes.left turns.old.nodes turns.old.line + length rest) }
{
    for one in rest {
        go_on(turns, one.key, one.ahead);
        turns.requeue(one.key)?;
    }
    Ok(())
}
