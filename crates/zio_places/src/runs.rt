ghost use Rattle.std.specs.Prelude.{◌≡◌, ◌+◌, ◌^◌, ◌<◌, ◌≤◌, length, drop, replicate, true, false, IfOk};
ghost use Rattle.zio_places.specs.Flags.{summary_of, front_run, best_run, IsFreeRun, IsRangeSet};

use crate::summary::Summary;
use crate::word::{WORD_SECTORS, Word};
use std::alloc::{AllocError, Global};
use std::marker::Model;

/// Flags of sectors, true for a free one, as a tree over words. A run of free sectors is found, and a change of
/// some written back, in a logarithm of steps and the words that change.
#[cycle(runs)]
#[derive(Drop)]
pub struct FreeRuns {
    node: RunNode,
}

#[cycle(runs)]
#[derive(Drop)]
enum RunNode {
    Leaf(Word, Summary),
    // The sectors of the left side come first.
    Fork(Box<FreeRuns>, Box<FreeRuns>, Summary),
}

impl Model for FreeRuns {
    ghost use Rattle.std.specs.Prelude.{List, Bool, length};

    ghost Value = { List Bool };

    ghost use Rattle.zio_places.specs.FreeRuns.{flags_in, IsSummed};

    ghost view = { λ r. flags_in r.node };

    ghost invariant = { λ r. IsSummed r.node };

    ghost size = { length };

    ghost use Rattle.zio_places.specs.RunsFall.{depth_le-length-flags};

    ghost size_decreases = { λ r h. depth_le-length-flags r.node h };
}

impl FreeRuns {
    /// So many free sectors.
    pub fn all_free(alloc: Global, sectors: u64) -> Result<FreeRuns, AllocError>
        ensures { IfOk result (λ r. r ≡ replicate sectors true) }
    {
        if sectors <= WORD_SECTORS {
            let word = Word::all_free(sectors as u32);
            let summary = word.summary();
            return Ok(FreeRuns {
                node: RunNode::Leaf(word, summary),
            });
        }
        let words = (sectors - 1) / WORD_SECTORS + 1;
        let middle = words / 2 * WORD_SECTORS;
        let left = FreeRuns::all_free(alloc, middle)?;
        let right = FreeRuns::all_free(alloc, sectors - middle)?;
        let summary = left.summary().join(right.summary());
        let left = Box::new(alloc, left)?;
        let right = Box::new(alloc, right)?;
        Ok(FreeRuns {
            node: RunNode::Fork(left, right, summary),
        })
    }

    pub fn summary(&self) -> Summary
        ensures { result ≡ summary_of self.now }
    {
        match self.node {
            RunNode::Leaf(_, summary) => summary,
            RunNode::Fork(_, _, summary) => summary,
        }
    }

    /// The first sector of a run of so many free ones, which begins where the list does or behind a used one.
    pub fn first_run(&self, count: u64) -> u64
        requires some { 0 < count }
        requires room { count ≤ best_run self.now }
        ensures { IsFreeRun self.now result count }
    {
        match &self.node {
            RunNode::Leaf(word, _) => word.first_run(count as u32) as u64,
            RunNode::Fork(left, right, _) => {
                let before = left.summary();
                if count <= before.best {
                    left.first_run(count)
                } else if count <= before.back + right.summary().front {
                    before.sectors - before.back
                } else {
                    before.sectors + right.first_run(count)
                }
            }
        }
    }

    /// How many are free from here on.
    pub fn front_from(&self, at: u64) -> u64
        requires { at ≤ length self.now }
        ensures { result ≡ front_run (drop at self.now) }
    {
        match &self.node {
            RunNode::Leaf(word, _) => word.front_from(at as u32) as u64,
            RunNode::Fork(left, right, _) => {
                let middle = left.summary().sectors;
                if at < middle {
                    let here = left.front_from(at);
                    if at + here == middle {
                        here + right.summary().front
                    } else {
                        here
                    }
                } else {
                    right.front_from(at - middle)
                }
            }
        }
    }

    /// Gives so many sectors from here on this flag.
    pub fn set_flag(&mut self, at: u64, count: u64, is_free: bool)
        requires { at + count ≤ length self.old }
        ensures { IsRangeSet self.old self.new at count is_free }
    {
        match &mut self.node {
            RunNode::Leaf(word, summary) => {
                word.set_flag(at as u32, count as u32, is_free);
                *summary = word.summary();
            }
            RunNode::Fork(left, right, summary) => {
                let middle = left.summary().sectors;
                let end = at + count;
                if end <= middle {
                    left.set_flag(at, count, is_free);
                } else if middle <= at {
                    right.set_flag(at - middle, count, is_free);
                } else {
                    left.set_flag(at, middle - at, is_free);
                    right.set_flag(0, end - middle, is_free);
                }
                *summary = left.summary().join(right.summary());
            }
        }
    }
}
