use anyhow::{Result, bail};
use std::alloc::Global;
use std::sync::Wait;
use zio_tasks::{QueueId, Tasks};
use zio_types::Kind;

/// Puts a task and takes it again, so many times. The answer is how many were taken.
pub fn put_and_take<R: Wait>(rt: &R, alloc: Global, room: u32, times: u32) -> Result<u64> {
    if room == 0 || room > 65536 {
        bail!("a room from 1 to 65536");
    }
    let queue = QueueId::Issue(Kind::Read);
    let (tasks, passes) = Tasks::<u32>::new(alloc, room, 1)?;
    let mut passes = passes.into_vec();
    let pass = &mut passes[0];
    let mut taken = 0u64;
    for task in 0..times {
        let put = tasks.put(rt, pass, queue, task).is_ok();
        let took = tasks.take(rt, pass, queue).is_some();
        taken = taken.saturating_add(u64::from(put && took));
    }
    Ok(taken)
}
