ghost use Rattle.std.specs.Prelude.{◌≡◌, ℕ, ◌+◌, ◌-◌, ◌^◌, ◌<◌, ◌≤◌, length, drop, replicate, true, false};
ghost use Rattle.std.specs.Int.{bit_at};
ghost use Rattle.zio_places.specs.Flags.{summary_of, flag_at, front_run, best_run, AreAll, IsFreeRun, IsRangeSet};

use crate::summary::Summary;
use std::marker::Model;

/// Sectors in a word.
pub const WORD_SECTORS: u64 = 64;

/// The flags of up to 64 sectors, a set bit for a free one.
#[derive(Drop)]
pub struct Word {
    bits: u64,
    len: u32,
}

impl Model for Word {
    ghost use Rattle.std.specs.Prelude.{List, Bool, ◌≤◌};

    ghost Value = { List Bool };

    ghost use Rattle.zio_places.specs.Words.{flags_of};

    ghost view = { λ w. flags_of w.bits w.len };

    ghost invariant = { λ w. w.len ≤ 64 };
}

/// A number whose lowest bits are set, so many.
fn low_ones(count: u32) -> u64
    requires { count ≤ 64 }
    ensures { result ≡ 2 ^ count - 1 }
{
    if count == 0 {
        0
    } else {
        u64::MAX >> (64 - count)
    }
}

/// A number whose bits in this range are set.
fn ones(from: u32, to: u32) -> u64
    requires order { from ≤ to }
    requires most { to ≤ 64 }
    ensures { result ≡ 2 ^ to - 2 ^ from }
{
    low_ones(to) - low_ones(from)
}

/// How many of the lowest bits are clear, at most 64.
fn clear_bits(n: u64) -> u32
    requires { bit_at n 0 ≡ 0 }
    ensures some { 0 < result }
    ensures most { result ≤ 64 }
    ensures clear { (i : ℕ) → i < result → bit_at n i ≡ 0 }
{
    if n == 0 { 64 } else { n.trailing_zeros() }
}

/// How many of the lowest bits are equal, at most 64.
fn equal_bits(n: u64) -> u32
    ensures some { 0 < result }
    ensures most { result ≤ 64 }
    ensures equal { (i : ℕ) → i < result → bit_at n i ≡ bit_at n 0 }
{
    if n & 1 == 1 {
        clear_bits(!n)
    } else {
        clear_bits(n)
    }
}

impl Word {
    /// All free.
    pub fn all_free(len: u32) -> Word
        requires { len ≤ 64 }
        ensures { result ≡ replicate len true }
    {
        Word {
            bits: low_ones(len),
            len,
        }
    }

    fn is_free(&self, at: u32) -> bool
        requires { at < length self.now }
        ensures { result ≡ flag_at self.now at }
    {
        (self.bits >> at) & 1 == 1
    }

    fn len(&self) -> u32
        ensures size { result ≡ length self.now }
        ensures most { result ≤ 64 }
    {
        self.len
    }

    /// How many from here on have one flag.
    fn run_from(&self, at: u32) -> u32
        requires { at < length self.now }
        ensures some { 0 < result }
        ensures same { AreAll self.now at result (flag_at self.now at) }
    {
        equal_bits(self.bits >> at).min(self.len - at)
    }

    pub fn summary(&self) -> Summary
        ensures { result ≡ summary_of self.now }
    {
        let mut summary = Summary::empty();
        let mut at = 0;
        while at < self.len() {
            let run = self.run_from(at);
            summary = summary.join(Summary::of_run(u64::from(run), self.is_free(at)));
            at += run;
        }
        summary
    }

    /// The first sector of a run of so many free ones, which begins where the word does or behind a used one.
    pub fn first_run(&self, count: u32) -> u32
        requires some { 0 < count }
        requires room { count ≤ best_run self.now }
        ensures { IsFreeRun self.now result count }
    {
        let mut run = 0;
        for at in 0..self.len() {
            if self.is_free(at) {
                run += 1;
                if run == count {
                    return at + 1 - count;
                }
            } else {
                run = 0;
            }
        }
        unreachable!()
    }

    /// How many are free from here on.
    pub fn front_from(&self, at: u32) -> u32
        requires { at ≤ length self.now }
        ensures { result ≡ front_run (drop at self.now) }
    {
        let mut end = at;
        while end < self.len() && self.is_free(end) {
            end += self.run_from(end);
        }
        end - at
    }

    /// Gives so many sectors from here on this flag.
    pub fn set_flag(&mut self, at: u32, count: u32, is_free: bool)
        requires { at + count ≤ length self.old }
        ensures { IsRangeSet self.old self.new at count is_free }
    {
        if is_free {
            self.set_free(at, count);
        } else {
            self.set_used(at, count);
        }
    }

    fn set_free(&mut self, at: u32, count: u32)
        requires { at + count ≤ length self.old }
        ensures { IsRangeSet self.old self.new at count true }
    {
        let bits = self.bits;
        self.bits = bits | ones(at, at + count);
    }

    fn set_used(&mut self, at: u32, count: u32)
        requires { at + count ≤ length self.old }
        ensures { IsRangeSet self.old self.new at count false }
    {
        let bits = self.bits;
        self.bits = bits & !ones(at, at + count);
    }
}
