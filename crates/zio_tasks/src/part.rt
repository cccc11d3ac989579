//! One queue with the tokens that step on it.
ghost use Rattle.std.specs.Prelude.{◌≡◌, ℕ, ◌+◌, ◌<◌, ◌≤◌, List, [], ◌∷◌, ◌++◌, length, MatchResult, MatchOption, IfOk};
ghost use Rattle.crossbeam_queue.specs.Passes.{view, IsSamePass, IsPassOf, ruled_capacity};
ghost use Rattle.zio_tasks.specs.Hands.{hand, WasHolding, Stands};
ghost use Rattle.zio_tasks.specs.Rule.{pile, after_put, with_first, WasFull, EmptyWith, OldestTake, WholeTake, newcomers};

use crate::hand::{Deal, Fairly, Gather, Grow, Pile, Puts, Settles, Spare, Takes};
use crossbeam_queue::{Pass, RuledArrayQueue};
use std::alloc::{AllocError, Global};
use std::sync::Wait;

/// A queue of tasks under the rule.
pub type Queue<T> = RuledArrayQueue<T, Pile<T>, Fairly>;

/// What steps on a queue. It has no bytes.
pub type Part<T> = Pass<T, Pile<T>>;

// Puts a task for a token of one hand.
pub(crate) fn put_in<T, R: Wait>(
    rt: &R,
    queue: &Queue<T>,
    part: &mut Part<T>,
    task: T,
) -> Result<(), T>
    requires seat { IsPassOf queue.now part.old }
    requires hand { 0 < length (view part.old).hands }
    ensures seat { IsPassOf queue.now part.new }
    ensures hand { MatchResult result (λ _. view part.new ≡ pile (with_first (after_put task) (view part.old).hands)
        (view part.old).passes) (λ x. (x ≡ task) × (view part.new ≡ view part.old)
        × WasFull (ruled_capacity queue.now) (view part.old)) }
{
    queue.push_as::<Puts, R>(rt, part, task)
}

// Takes the oldest task for a token of one hand.
pub(crate) fn take_from<T, R: Wait>(rt: &R, queue: &Queue<T>, part: &mut Part<T>) -> Option<T>
    requires seat { IsPassOf queue.now part.old }
    requires hand { 0 < length (view part.old).hands }
    ensures seat { IsPassOf queue.now part.new }
    ensures hand { MatchOption result
        ((view part.new ≡ view part.old) × WasFull 0 (view part.old))
        (λ x. OldestTake (view part.old) x (view part.new)) }
{
    queue.pop_as::<Takes, R>(rt, part)
}

// Takes the oldest task for the first hand of a token that has the hands of all passes.
pub(crate) fn take_whole<T, R: Wait>(rt: &R, queue: &Queue<T>, part: &mut Part<T>) -> Option<T>
    requires seat { IsPassOf queue.now part.old }
    requires all { length (view part.old).hands ≡ (view part.old).passes }
    requires hand { 0 < (view part.old).passes }
    ensures seat { IsPassOf queue.now part.new }
    ensures hand { MatchOption result ((view part.new ≡ view part.old)
        × EmptyWith (view part.old)) (λ x. WholeTake (view part.old) x (view part.new)) }
{
    queue.pop_as::<Settles, R>(rt, part)
}

// An empty queue, with a token that has a new hand for each pass.
pub(crate) fn open_queue<T: Drop>(
    alloc: Global,
    room: usize,
    passes: u32,
) -> Result<(Queue<T>, Part<T>), AllocError>
    requires room { 0 < room }
    requires passes { 0 < passes }
    ensures { IfOk result (λ q. (ruled_capacity q.0 ≡ room) × IsPassOf q.0 q.1
        × (view q.1 ≡ pile (newcomers 0 passes) passes)) }
{
    let (queue, mut all) = Queue::ruled(alloc, room)?;
    for _ in 1..passes {
        let _spare = queue.another::<Grow>(&mut all);
    }
    Ok((queue, all))
}
