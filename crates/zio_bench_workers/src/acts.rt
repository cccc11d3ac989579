ghost use Rattle.std.specs.Prelude.{◌≡◌, ◌%◌, ◌+◌, ◌^◌};
ghost use Rattle.zio_book.specs.Books.{IsPassOf};

use anyhow::{Result, bail};
use std::alloc::Global;
use std::sync::{Mutex, Wait};
use std::thread;
use std::thread::Threads;
use zio_book::{Book, Held, Pass};

/// A sum under a book.
#[derive(Debug, Drop)]
struct Counter {
    count: u64,
}

impl Held for Counter {
    type Cmd = u64;

    type Reply = u64;

    type Note = u64;

    ghost gives = { λ s n t. t.count ≡ (s.count + n) % 2 ^ 64 };

    ghost fits = { λ s cmd reply note. (note ≡ cmd) × (reply ≡ (s.count + cmd) % 2 ^ 64) };

    fn act(&mut self, cmd: u64) -> (u64, u64) {
        self.count = self.count.wrapping_add(cmd);
        (self.count, cmd)
    }
}

/// Adds 1 so many times on each of so many threads, under a book. The answer is how many acts were made.
pub fn act<R: Threads + Wait + Sync>(
    rt: &R,
    alloc: Global,
    threads: u32,
    times: u32,
) -> Result<u64> {
    if threads == 0 {
        bail!("no thread");
    }
    let Ok((book, passes)) = Book::new(alloc, Counter { count: 0 }, threads) else {
        bail!("no memory");
    };
    let shared = &book;
    let made = thread::map_vec(
        rt,
        passes.into_vec(),
        &|pass: Pass<Counter>| -> u32
            requires { IsPassOf shared.now pass }
        { act_often(rt, shared, pass, times) },
    )?;
    let mut all = 0u64;
    for of_one in &made {
        all = all.saturating_add(u64::from(*of_one));
    }
    Ok(all)
}

fn act_often<R: Wait>(rt: &R, book: &Book<Counter>, mut pass: Pass<Counter>, times: u32) -> u32
    requires { IsPassOf book.now pass }
{
    let mut made = 0u32;
    for _ in 0..times {
        if book.act(rt, &mut pass, 1).is_ok() {
            made = made.saturating_add(1);
        }
    }
    made
}

/// The same under std's Mutex.
pub fn lock<R: Threads + Wait + Sync>(
    rt: &R,
    alloc: Global,
    threads: u32,
    times: u32,
) -> Result<u64> {
    let sum = Mutex::new(0u64);
    let mut team = Vec::new(alloc);
    for number in 0..threads {
        team.push(number)?;
    }
    let shared = &sum;
    thread::map_vec(
        rt,
        team,
        &|_number: u32| -> u32 { lock_often(rt, shared, times) },
    )?;
    Ok(sum.into_inner())
}

fn lock_often<R: Wait>(rt: &R, sum: &Mutex<u64>, times: u32) -> u32 {
    for _ in 0..times {
        let mut sum = sum.lock(rt);
        *sum = sum.wrapping_add(1);
    }
    times
}
