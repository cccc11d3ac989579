//! Times the calls that a run makes most often: one subject and its sizes are the words, and what is printed doesn't
//! depend on time. `bench/run` starts it under a clock.
//!
//!     space RUNS CALLS    places taken and given back, beside so many free runs of one sector
//!     units RUNS CALLS    the same on a top whose sectors are placed in eights
//!     hit ROWS CALLS      looks into a fault table
//!     sum BYTES TIMES     fletcher4 and SHA-256 of so many bytes
//!     queue QUEUED CALLS  operations put and taken in groups, so many at a time, each behind the one before
//!     random QUEUED CALLS the same all over the device
//!     header SIZE TIMES   a gang header of a block of this size, read
//!     digest BYTES TIMES  SHA-256 alone
//!     fletcher BYTES TIMES    fletcher4 alone
//!     script REQUESTS TIMES   the text of a script of so many reads, read
//!     batches REQUESTS TIMES  the text of a script of so many writes in batches of a thousand, read
#![tactic(auto)]

mod header;
mod queue;
mod script;
mod space;
mod sums;
mod table;

use crate::queue::Order;
use crate::space::Unit;
use anyhow::{Context, Result, bail};
use std::env;

fn main(rt: HostRuntime) -> Result<()> {
    let alloc = rt.alloc();
    let mut words = Vec::new(alloc);
    for word in env::args(&rt)? {
        words.push(word)?;
    }
    let [_, subject, size, times] = words.as_slice() else {
        bail!("words: a subject, a size and a number of calls");
    };
    let size: u32 = size.parse().context("a size")?;
    let times: u32 = times.parse().context("a number of calls")?;
    let done = match subject.as_str() {
        "space" => space::take_and_give_back(alloc, Unit::One, size, times)?,
        "units" => space::take_and_give_back(alloc, Unit::Eight, size, times)?,
        "hit" => table::look(alloc, size, times)?,
        "queue" => queue::put_and_take(alloc, Order::Sequential, size, times)?,
        "random" => queue::put_and_take(alloc, Order::Random, size, times)?,
        "sum" => sums::add_up(alloc, size, times)?,
        "header" => header::read(alloc, size, times)?,
        "digest" => sums::digest(alloc, size, times)?,
        "fletcher" => sums::fletcher(alloc, size, times)?,
        "script" => script::read(alloc, size, times)?,
        "batches" => script::read_batches(alloc, size, times)?,
        _ => bail!(
            "space, units, hit, queue, random, sum, header, digest, fletcher, script or batches"
        ),
    };
    println!(rt; "{done}")?;
    Ok(())
}
