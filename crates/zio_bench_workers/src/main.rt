//! Times the calls that workers make at what they share, and the list of a node's children: one subject and two numbers
//! are the words, and what is printed doesn't depend on time. `bench/run` starts it under a clock.
//!
//!     act THREADS TIMES    acts at a book, so many by each thread with a pass of its own
//!     lock THREADS TIMES   the same sum under std's Mutex
//!     task ROOM TIMES      tasks put and taken again at a queue with so much room
//!     latch LABEL TIMES    a child added, its value given, and the owner's wait, over and over at one latch
//!     brood CHILDREN TIMES     so many children added, each with both its values, and asked after
#![tactic(auto)]

mod acts;
mod brood;
mod latch;
mod tasks;

use anyhow::{Context, Result, bail};
use std::env;

fn main(rt: HostRuntime) -> Result<()> {
    let alloc = rt.alloc();
    let mut words = Vec::new(alloc);
    for word in env::args(&rt)? {
        words.push(word)?;
    }
    let [_, subject, size, times] = words.as_slice() else {
        bail!("words: a subject, a size and a number of calls");
    };
    let size: u32 = size.parse().context("a size")?;
    let times: u32 = times.parse().context("a number of calls")?;
    let done = match subject.as_str() {
        "act" => acts::act(&rt, alloc, size, times)?,
        "lock" => acts::lock(&rt, alloc, size, times)?,
        "task" => tasks::put_and_take(&rt, alloc, size, times)?,
        "latch" => latch::add_done_and_wait(alloc, size, times)?,
        "brood" => brood::hand_in(alloc, size, times)?,
        _ => bail!("act, lock, task, latch or brood"),
    };
    println!(rt; "{done}")?;
    Ok(())
}
