ghost use Rattle.std.specs.Prelude.{◌≡◌, ◌<◌, ◌≤◌, ◌++◌, ◌∷◌, [], length, take, IsTrue};
ghost use Rattle.zio_cksum.specs.Blocks.{read_order, rotated};
ghost use Rattle.zio_mirror.specs.Plans.{children, failed_children, good_child, is_among, is_try, round_to, step_of, to_repair};

use crate::write::blame;
use std::marker::Model;
use zio_types::{Errno, TOP_LEAVES_MAX};

/// How many bytes of a top are read from one leaf first, before it is the next one's turn.
pub const TURN_SIZE: u64 = 2 << 20;

/// What a read is to do next.
#[derive(Clone, Copy, Debug, PartialEq, Eq)]
pub enum PlanStep {
    /// Try this child.
    Try(u32),
    /// This child's bytes are the answer.
    Good(u32),
    /// No child is good; the worst of their errors.
    Bad(Errno),
}

/// The order in which children are tried, and how each of them ended.
#[derive(Drop)]
pub struct ReadPlan {
    n: u32,
    order: [u32; 4],
    answered: u32,
    answers: [Option<Errno>; 4],
}

impl Model for ReadPlan {
    ghost use Rattle.std.specs.Prelude.{take, length, ◌≤◌, ◌≡◌};
    ghost use Rattle.zio_types.specs.declared.place.TheConstants.{TOP_LEAVES_MAX};
    ghost use Rattle.zio_mirror.specs.Plans.{Tries};

    ghost Value = { Tries };

    ghost view = { λ p. record { order = take p.n p.order; answers = take p.answered p.answers } };

    ghost invariant = { λ p. (p.n ≤ TOP_LEAVES_MAX) × (p.answered ≤ p.n) × (length p.answers ≡ TOP_LEAVES_MAX) };
}

impl ReadPlan {
    /// A plan over the `n` leaves of a top, for bytes that begin at the byte `offset` of it.
    ///
    /// The first leaf changes with each 2 MiB along the top; the others follow round.
    pub fn for_leaves(n: u32, offset: u64) -> ReadPlan
        requires least { 1 ≤ n }
        requires most { n ≤ TOP_LEAVES_MAX }
        ensures order { result.order ≡ read_order offset (children n) }
        ensures answers { result.answers ≡ [] }
    {
        let first = ((offset / TURN_SIZE) % u64::from(n)) as u32;
        ReadPlan {
            n,
            order: rotated(n, first),
            answered: 0,
            answers: [None; 4],
        }
    }

    /// A plan over the `n` places of a block, from the first on.
    pub fn for_copies(n: u32) -> ReadPlan
        requires least { 1 ≤ n }
        requires most { n ≤ TOP_LEAVES_MAX }
        ensures order { result.order ≡ children n }
        ensures answers { result.answers ≡ [] }
    {
        ReadPlan {
            n,
            order: [0, 1, 2, 3],
            answered: 0,
            answers: [None; 4],
        }
    }

    /// What is to be done: the good child, where one was answered without error; the worst error, where all
    /// failed; else the first child that wasn't answered.
    pub fn next(&self) -> PlanStep
        ensures { result ≡ step_of self.now }
    {
        let order = &self.order[..self.n as usize];
        let answers = &self.answers[..self.answered as usize];
        if let Some(child) = first_good(order, answers) {
            return PlanStep::Good(child);
        }
        match order.get(answers.len()) {
            Some(child) => PlanStep::Try(*child),
            None => PlanStep::Bad(blame(answers)),
        }
    }

    /// The answer of the child that `next` names.
    pub fn answer(&mut self, error: Option<Errno>)
        requires { IsTrue (is_try (step_of self.old)) }
        ensures order { self.new.order ≡ self.old.order }
        ensures answers { self.new.answers ≡ self.old.answers ++ error ∷ [] }
    {
        self.answers[self.answered as usize] = error;
        self.answered += 1;
    }

    /// Whether a good read rewrites this child: one is good, and this one was tried and failed.
    pub fn needs_repair(&self, child: u32) -> bool
        ensures { result ≡ is_among child (to_repair self.now) }
    {
        let order = &self.order[..self.n as usize];
        let answers = &self.answers[..self.answered as usize];
        first_good(order, answers).is_some() && has_failed(order, answers, child)
    }
}

/// The children `first`, `first + 1` and so on, round to the one before `first`.
fn rotated(n: u32, first: u32) -> [u32; 4]
    requires most { n ≤ TOP_LEAVES_MAX }
    requires first { first < n }
    ensures { take n result ≡ rotated first (children n) }
{
    let mut order = [0; 4];
    for i in 0..n {
        order[i as usize] = round_to(n, first + i);
    }
    order
}

/// The number below `n` at which one below `2 * n` comes round.
fn round_to(n: u32, i: u32) -> u32
    ensures { result ≡ round_to n i }
{
    if i < n { i } else { i - n }
}

fn first_good(order: &[u32], answers: &[Option<Errno>]) -> Option<u32>
    requires { length answers.now ≤ length order.now }
    ensures { result ≡ good_child order.now answers.now }
{
    for (i, answer) in answers.iter().enumerate() {
        match answer {
            None => return Some(order[i]),
            Some(_) => {}
        }
    }
    None
}

fn has_failed(order: &[u32], answers: &[Option<Errno>], wanted: u32) -> bool
    requires { length answers.now ≤ length order.now }
    ensures { result ≡ is_among wanted (failed_children order.now answers.now) }
{
    for (i, answer) in answers.iter().enumerate() {
        match answer {
            None => return false,
            Some(_) => {}
        }
        if order[i] == wanted {
            return true;
        }
    }
    false
}
