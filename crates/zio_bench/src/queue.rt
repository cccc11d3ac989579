ghost use Rattle.std.specs.Prelude.{◌≡◌, ◌≤◌, ◌^◌, ℕ, false};
ghost use Rattle.zio_vqueue.specs.Queues.{FitsDevice, is_queued};

use anyhow::Result;
use std::alloc::Global;
use zio_types::{Flags, NoMemory, Prio};
use zio_vqueue::{Op, VQueue};

/// The bytes of an operation.
const LEN: u32 = 4096;

/// Where the operations lie that are put one after another.
#[derive(Clone, Copy)]
pub enum Order {
    /// Each behind the one before.
    Sequential,
    /// All over the device.
    Random,
}

/// Puts and takes so many async writes of 4 KiB, `queued` of them at a time. The answer is how many were taken.
pub fn put_and_take(alloc: Global, order: Order, queued: u32, calls: u32) -> Result<u32> {
    let mut numbered = Numbered::new(alloc);
    let mut taken = 0u32;
    for _ in 0..calls / queued.max(1) {
        for index in 0..queued {
            numbered.put(op_of(order, index))?;
        }
        for _ in 0..queued {
            taken = taken.saturating_add(numbered.take()?);
        }
    }
    Ok(taken)
}

/// A queue whose operations have tickets in the order of putting, from 0 on.
#[derive(Drop)]
struct Numbered {
    queue: VQueue,
    next: u64,
    ghost fresh: { (ticket : ℕ) → next ≤ ticket → is_queued ticket queue.queued ≡ false },
}

impl Numbered {
    fn new(alloc: Global) -> Numbered {
        Numbered {
            queue: VQueue::new(alloc),
            next: 0,
        }
    }

    /// Queues an operation under the next ticket in place of its own.
    fn put(&mut self, op: Op) -> Result<(), NoMemory>
        requires { FitsDevice op }
    {
        let Some(next) = self.next.checked_add(1) else {
            return Ok(());
        };
        self.queue.put(Op {
            ticket: self.next,
            ..op
        })?;
        self.next = next;
        Ok(())
    }

    /// Takes a group and is done with it. The answer is how many operations it had.
    fn take(&mut self) -> Result<u32, NoMemory> {
        let Some(group) = self.queue.take()? else {
            return Ok(0);
        };
        let count = u32::try_from(group.ops.len()).unwrap_or(u32::MAX);
        if self.queue.active(group.prio) > 0 {
            self.queue.done(group);
        }
        Ok(count)
    }
}

/// The operation of this index among those that are put one after another.
fn op_of(order: Order, index: u32) -> Op
    ensures { FitsDevice result }
{
    let place = match order {
        Order::Sequential => u64::from(index),
        Order::Random => u64::from(index.wrapping_mul(2_654_435_761)),
    };
    Op {
        ticket: u64::from(index),
        write: true,
        at: place * u64::from(LEN),
        len: LEN,
        prio: Prio::AsyncWrite,
        flags: Flags {
            canfail: false,
            retry: false,
            dont_aggregate: false,
            repair: false,
        },
    }
}
