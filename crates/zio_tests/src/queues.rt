ghost use Rattle.std.specs.Prelude.{◌≡◌, ◌≤◌, ℕ, false};
ghost use Rattle.zio_vqueue.specs.Queues.{is_queued};

use std::alloc::Global;
use std::test::Fail;
use zio_faults::{FaultKind, FaultTable, On, Row};
use zio_types::{Flags, List, NoMemory, Prio};
use zio_vqueue::{Group, Op, VQueue, lone, scatter};

const PLAIN: Flags = Flags {
    canfail: false,
    retry: false,
    dont_aggregate: false,
    repair: false,
};

const ALONE: Flags = Flags {
    canfail: false,
    retry: false,
    dont_aggregate: true,
    repair: false,
};

const REPAIR: Flags = Flags {
    canfail: false,
    retry: false,
    dont_aggregate: false,
    repair: true,
};

/// A queue whose operations have tickets in the order of putting, from 0 on.
#[derive(Drop)]
struct Numbered {
    queue: VQueue,
    next: u64,
    ghost fresh: { (ticket : ℕ) → next ≤ ticket → is_queued ticket queue.queued ≡ false },
}

impl Numbered {
    fn new(alloc: Global) -> Numbered {
        Numbered {
            queue: VQueue::new(alloc),
            next: 0,
        }
    }

    /// Queues an operation under the next ticket.
    fn put(&mut self, prio: Prio, at: u32, len: u32, flags: Flags) -> Result<(), NoMemory> {
        let Some(next) = self.next.checked_add(1) else {
            return Ok(());
        };
        self.queue.put(Op {
            ticket: self.next,
            write: matches!(prio, Prio::SyncWrite | Prio::AsyncWrite),
            at: u64::from(at),
            len,
            prio,
            flags,
        })?;
        self.next = next;
        Ok(())
    }

    fn take(&mut self) -> Result<Option<Group>, NoMemory> {
        self.queue.take()
    }

    fn done(&mut self, group: Group) {
        if self.queue.active(group.prio) > 0 {
            self.queue.done(group);
        }
    }
}

/// The next group's span and the tickets of its members; nothing where none is eligible.
fn take(alloc: Global, queue: &mut Numbered) -> Result<String, NoMemory> {
    let mut text = String::new(alloc);
    if let Some(group) = queue.take()? {
        let (at, len) = (group.at, group.len);
        write!(text, "{at}+{len}:")?;
        for op in group.ops.as_slice() {
            let ticket = op.ticket;
            write!(text, " {ticket}")?;
        }
    }
    Ok(text)
}

/// Whether the first group of plain operations, whose tickets count from 0, is the wanted one.
fn gives(alloc: Global, ops: &[(Prio, u32, u32)], wanted: &str) -> Result<bool, NoMemory> {
    let mut queue = Numbered::new(alloc);
    for (prio, at, len) in ops {
        queue.put(*prio, *at, *len, PLAIN)?;
    }
    let group = take(alloc, &mut queue)?;
    Ok(group.as_str() == wanted)
}

/// Groups of async reads that were found by hand.
#[test]
fn reads_are_one_group_within_the_gap_and_the_span(rt: HostRuntime) -> Result<(), Fail> {
    let read = Prio::AsyncRead;
    // a gap of 32 KiB, and one of a byte more
    let near = [(read, 0, 4096), (read, 36864, 4096)];
    assert!(rt; gives(rt.alloc(), &near, "0+40960: 0 1")?);
    let far = [(read, 0, 4096), (read, 36865, 4096)];
    assert!(rt; gives(rt.alloc(), &far, "0+4096: 0")?);
    // a span of 1 MiB, and one of a byte more
    let whole = [(read, 0, 1_047_552), (read, 1_047_552, 1024)];
    assert!(rt; gives(rt.alloc(), &whole, "0+1048576: 0 1")?);
    let longer = [(read, 0, 1_047_552), (read, 1_047_552, 1025)];
    assert!(rt; gives(rt.alloc(), &longer, "0+1047552: 0")?);
    // one offset twice
    let twice = [(read, 0, 512), (read, 0, 512)];
    assert!(rt; gives(rt.alloc(), &twice, "0+512: 0")?);
    Ok(())
}

/// Groups around an operation that isn't the lowest, found by hand.
#[test]
fn a_group_grows_downward_first(rt: HostRuntime) -> Result<(), Fail> {
    let sync = Prio::SyncRead;
    let middle = [(sync, 8192, 4096), (sync, 4096, 4096), (sync, 12288, 4096)];
    assert!(rt; gives(rt.alloc(), &middle, "4096+12288: 1 0 2")?);
    // there is no room upward then
    let full = [
        (sync, 524_288, 262_144),
        (sync, 0, 524_288),
        (sync, 786_432, 524_288),
    ];
    assert!(rt; gives(rt.alloc(), &full, "0+786432: 1 0")?);
    // operations of another class join, but no writes
    let classes = [
        (Prio::AsyncRead, 0, 512),
        (sync, 512, 512),
        (Prio::SyncWrite, 1024, 512),
    ];
    assert!(rt; gives(rt.alloc(), &classes, "0+1024: 0 1")?);
    Ok(())
}

#[test]
fn repairs_and_loners_are_apart(rt: HostRuntime) -> Result<(), Fail> {
    let mut queue = Numbered::new(rt.alloc());
    queue.put(Prio::AsyncWrite, 0, 512, PLAIN)?;
    queue.put(Prio::AsyncWrite, 512, 512, REPAIR)?;
    queue.put(Prio::AsyncWrite, 1024, 512, REPAIR)?;
    queue.put(Prio::AsyncWrite, 1536, 512, ALONE)?;
    assert_eq!(rt; take(rt.alloc(), &mut queue)?.as_str(), "0+512: 0");
    assert_eq!(rt; take(rt.alloc(), &mut queue)?.as_str(), "512+1024: 1 2");
    assert_eq!(rt; take(rt.alloc(), &mut queue)?.as_str(), "1536+512: 3");
    assert_eq!(rt; take(rt.alloc(), &mut queue)?.as_str(), "");
    Ok(())
}

#[test]
fn a_class_goes_on_from_the_last_offset_up_to_its_maximum(rt: HostRuntime) -> Result<(), Fail> {
    let mut queue = Numbered::new(rt.alloc());
    queue.put(Prio::Scrub, 1_048_576, 512, PLAIN)?;
    assert_eq!(rt; take(rt.alloc(), &mut queue)?.as_str(), "1048576+512: 0");
    queue.put(Prio::Scrub, 0, 512, PLAIN)?;
    queue.put(Prio::Scrub, 2_097_152, 512, PLAIN)?;
    queue.put(Prio::Scrub, 4_194_304, 512, PLAIN)?;
    assert_eq!(rt; take(rt.alloc(), &mut queue)?.as_str(), "2097152+512: 2");
    let third = queue.take()?.ok_or("no third group")?;
    assert_eq!(rt; third.at, 4194304);
    assert_eq!(rt; take(rt.alloc(), &mut queue)?.as_str(), "");
    assert_eq!(rt; queue.queue.active(Prio::Scrub), 3);
    queue.done(third);
    assert_eq!(rt; take(rt.alloc(), &mut queue)?.as_str(), "0+512: 1");
    Ok(())
}

#[test]
fn eight_writes_are_one_group_that_a_fault_parts(rt: HostRuntime) -> Result<(), Fail> {
    let mut queue = Numbered::new(rt.alloc());
    for i in 0..8u32 {
        queue.put(Prio::AsyncWrite, 4096 * i, 4096, PLAIN)?;
    }
    let group = queue.take()?.ok_or("no group")?;
    assert_eq!(rt; (group.at, group.len), (0, 32768));
    assert_eq!(rt; group.ops.len(), 8);
    assert!(rt; queue.take()?.is_none());
    let mut rows = List::new(rt.alloc());
    rows.push(Row {
        leaf: 0,
        on: On::Write,
        at: 8192,
        len: 1,
        from: 0,
        until: 1,
        kind: FaultKind::Eio,
        first: false,
    })?;
    let table = FaultTable { rows };
    assert!(rt; lone(&group, &table, 0, 0));
    assert!(rt; !lone(&group, &table, 0, 1));
    Ok(())
}
