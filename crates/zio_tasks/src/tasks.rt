ghost use Rattle.std.specs.Prelude.{◌≡◌, ℕ, ◌+◌, ◌<◌, ◌≤◌, [], ◌∷◌, ◌++◌, length, slice_index_or, MatchResult, MatchOption, IfOk, OnOk, map};
ghost use Rattle.crossbeam_queue.specs.Passes.{view, IsPassOf as IsSeatOf};
ghost use Rattle.zio_tasks.specs.declared.tasks.TaskPass.{TaskPass};
ghost use Rattle.zio_tasks.specs.declared.hand.Hand.{Hand};
ghost use Rattle.zio_tasks.specs.Hands.{WasHolding, WasOldest};
ghost use Rattle.zio_tasks.specs.Queues.{place_of};
ghost use Rattle.zio_tasks.specs.Rule.{pile, newcomers, rest_of, after_put, after_take};
ghost use Rattle.zio_tasks.specs.Team.{IsPassOf, IsNew, Joins, AreAll, IsSeatAt, IsSettled, TakesOldest, Lent, Given, hands_of, hand_of, hand_at, hands_at, first_hand, with_hand, number_of};

use crate::hand::{Deal, Gather, Spare};
use crate::part::{Part, Queue, open_queue, put_in, take_from, take_whole};
use crate::queue::{QUEUES, QueueId};
use std::alloc::Global;
use std::mem;
use std::sync::Wait;
use zio_types::{List, NoMemory};

/// Ten bounded queues.
#[derive(Drop)]
pub struct Tasks<T> {
    queues: Vec<Queue<T>>,
    room: u32,
    passes: u32,
}

/// What one worker puts and takes with.
#[derive(Drop)]
pub struct TaskPass<T> {
    number: u32,
    parts: Vec<Part<T>>,
}

// A pass for each number below `passes`, at no queue.
fn recruits<T: Drop>(alloc: Global, passes: u32) -> Result<Vec<TaskPass<T>>, NoMemory>
    ensures { IfOk result (λ v. (length v.items ≡ passes)
        × ((j : ℕ) (d : TaskPass T) → j < passes → ((slice_index_or v.items j d).number ≡ j)
        × ((slice_index_or v.items j d).parts.items ≡ []))) }
{
    let mut team = Vec::new(alloc);
    for number in 0..passes {
        team.push(TaskPass {
            number,
            parts: Vec::new(alloc),
        })?;
    }
    Ok(team)
}

// Each pass gets its token of a new queue.
fn join_all<T: Drop>(
    queue: &Queue<T>,
    mut all: Part<T>,
    team: &mut [TaskPass<T>],
) -> Result<(), NoMemory>
    requires seat { IsSeatOf queue.now all }
    requires hands { view all ≡ pile (newcomers 0 (length team.old)) (length team.old) }
    ensures { OnOk result ((j : ℕ) (d : TaskPass T) → j < length team.old
        → Joins (length team.old) j queue.now (slice_index_or team.old j d) (slice_index_or team.new j d)) }
{
    for pass in team.iter_mut() {
        pass.parts.push(queue.another::<Deal>(&mut all))?;
    }
    Ok(())
}

impl<T: Drop> Tasks<T> {
    /// Ten empty queues, each with room for so many tasks, and so many passes, numbered from 0.
    pub fn new(
        alloc: Global,
        room: u32,
        passes: u32,
    ) -> Result<(Tasks<T>, List<TaskPass<T>>), NoMemory>
        requires room { (1 ≤ room) × (room ≤ 65536) }
        requires passes { 1 ≤ passes }
        ensures sizes { IfOk result (λ r. (r.0.room ≡ room) × (r.0.passes ≡ passes) × (length r.1 ≡ passes)) }
        ensures idle { IfOk result (λ r. (k : ℕ) (d : TaskPass T) → k < passes → IsNew r.0 k (slice_index_or r.1 k d)) }
    {
        let mut team = recruits(alloc, passes)?;
        let mut queues = Vec::new(alloc);
        for _ in 0..QUEUES {
            let (queue, all) = open_queue(alloc, room as usize, passes)?;
            join_all(&queue, all, team.as_mut_slice())?;
            queues.push(queue)?;
        }
        let tasks = Tasks {
            queues,
            room,
            passes,
        };
        Ok((tasks, List::from_vec(team)))
    }

    /// Puts a task at the end of a queue. It comes back only where the queue was full at a moment of this call; the
    /// caller then runs it itself. It allocates nothing.
    pub fn put<R: Wait>(
        &self,
        rt: &R,
        pass: &mut TaskPass<T>,
        at: QueueId,
        task: T,
    ) -> Result<(), T>
        requires { IsPassOf self.now pass.old }
        ensures pass { IsPassOf self.now pass.new × (pass.new.number ≡ pass.old.number) }
        ensures task { MatchResult result
            (λ _. hands_of pass.new ≡ with_hand pass.old at (after_put task (hand_of pass.old at)))
            (λ x. (x ≡ task) × (hands_of pass.new ≡ hands_of pass.old)
            × WasHolding self.now.room self.now.passes (hand_of pass.old at)) }
    {
        let place = at.place();
        put_in(rt, &self.queues[place], &mut pass.parts[place], task)
    }

    /// Takes the oldest task of a queue. None only where the queue was empty at a moment of this call. It allocates
    /// nothing.
    pub fn take<R: Wait>(&self, rt: &R, pass: &mut TaskPass<T>, at: QueueId) -> Option<T>
        requires { IsPassOf self.now pass.old }
        ensures pass { IsPassOf self.now pass.new × (pass.new.number ≡ pass.old.number) }
        ensures task { MatchOption result
            ((hands_of pass.new ≡ hands_of pass.old) × WasHolding 0 self.now.passes (hand_of pass.old at))
            (λ x. (by : ℕ) × (hands_of pass.new ≡ with_hand pass.old at (after_take by x (hand_of pass.old at)))
            × WasOldest by x self.now.passes (hand_of pass.old at)) }
    {
        let place = at.place();
        take_from(rt, &self.queues[place], &mut pass.parts[place])
    }

    /// Takes the oldest task of a queue, for the first pass. None exactly where the queue is empty: then the tasks
    /// that the passes put there are those that they took there, each as often, and what one pass took of another's
    /// stands in the order in which it was put. It allocates nothing.
    pub fn settle<R: Wait>(&self, rt: &R, passes: &mut [TaskPass<T>], at: QueueId) -> Option<T>
        requires { AreAll self.now passes.old }
        ensures passes { AreAll self.now passes.new × (map number_of passes.new ≡ map number_of passes.old) }
        ensures task { MatchOption result (IsSettled self.now.passes (place_of at) passes.old passes.new)
            (λ x. TakesOldest self.now.passes (place_of at) x passes.old passes.new) }
    {
        let place = at.place();
        let mut all = self.gather(place, passes);
        let task = take_whole(rt, &self.queues[place], &mut all);
        self.deal(place, all, passes);
        task
    }

    // A token with the hands of all passes at a queue.
    fn gather(&self, place: usize, passes: &mut [TaskPass<T>]) -> Part<T>
        requires passes { AreAll self.now passes.old }
        requires place { place < 10 }
        ensures seat { IsSeatAt self.now place result }
        ensures hands { view result ≡ pile (hands_at place passes.old) self.now.passes }
        ensures passes { (j : ℕ) (d : TaskPass T) → j < length passes.old
            → Lent place (slice_index_or passes.old j d) (slice_index_or passes.new j d) }
    {
        let mut all = self.spare(place, &mut passes[0]);
        for pass in passes.iter_mut() {
            self.lend(place, pass, &mut all);
        }
        all
    }

    // A token without a hand.
    fn spare(&self, place: usize, pass: &mut TaskPass<T>) -> Part<T>
        requires pass { IsPassOf self.now pass.old }
        requires place { place < 10 }
        ensures seat { IsSeatAt self.now place result }
        ensures view { view result ≡ pile [] 0 }
        ensures pass { Given self.now place (hand_at place pass.old) pass.old pass.new }
    {
        self.queues[place].another::<Spare>(&mut pass.parts[place])
    }

    // The pass's hand at a queue joins the pile.
    fn lend(&self, place: usize, pass: &mut TaskPass<T>, all: &mut Part<T>)
        requires pass { IsPassOf self.now pass.old }
        requires place { place < 10 }
        requires seat { IsSeatAt self.now place all.old }
        ensures seat { IsSeatAt self.now place all.new }
        ensures hands { view all.new ≡ pile ((view all.old).hands ++ hand_at place pass.old ∷ []) self.now.passes }
        ensures pass { Lent place pass.old pass.new }
    {
        let queue = &self.queues[place];
        let spare = queue.another::<Spare>(all);
        let theirs = mem::replace(&mut pass.parts[place], spare);
        queue.absorb::<Gather>(all, theirs);
    }

    // Each pass gets its hand of the pile again.
    fn deal(&self, place: usize, mut all: Part<T>, passes: &mut [TaskPass<T>])
        requires place { place < length self.now.queues.items }
        requires passes { (j : ℕ) (d : TaskPass T) → j < length passes.old
            → place < length (slice_index_or passes.old j d).parts.items }
        requires seat { IsSeatAt self.now place all }
        requires hands { (length (view all).hands ≡ length passes.old) × ((view all).passes ≡ self.now.passes) }
        ensures { (j : ℕ) (d : TaskPass T) (h : Hand T) → j < length passes.old
            → Given self.now place (slice_index_or (view all).hands j h) (slice_index_or passes.old j d)
            (slice_index_or passes.new j d) }
    {
        for pass in passes.iter_mut() {
            self.give_back(place, pass, &mut all);
        }
    }

    // The pass gets the first hand of the pile.
    fn give_back(&self, place: usize, pass: &mut TaskPass<T>, all: &mut Part<T>)
        requires place { place < length self.now.queues.items }
        requires part { place < length pass.old.parts.items }
        requires seat { IsSeatAt self.now place all.old }
        requires hands { (0 < length (view all.old).hands) × ((view all.old).passes ≡ self.now.passes) }
        ensures seat { IsSeatAt self.now place all.new }
        ensures hands { view all.new ≡ pile (rest_of (view all.old).hands) self.now.passes }
        ensures pass { Given self.now place (first_hand (view all.old).hands) pass.old pass.new }
    {
        pass.parts[place] = self.queues[place].another::<Deal>(all);
    }
}
