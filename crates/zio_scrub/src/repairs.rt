// Repairs: copies are written with good bytes.

ghost use Rattle.std.specs.Prelude.{◌≡◌, ◌+◌, ◌<◌, ◌^◌, Err, IfOk, OnErr, length, map};
ghost use Rattle.std.specs.List.{AllByRecursion};
ghost use Rattle.zio_faults.specs.Hits.{RowFits};
ghost use Rattle.zio_cksum.specs.Images.{Images};
ghost use Rattle.zio_trace.specs.TreeOrders.{Pairs};
ghost use Rattle.zio_disks.specs.Disks.{Handles, Tell};
ghost use Rattle.zio_scrub.specs.Queues.{HaveAll, IsOrdered};
ghost use Rattle.zio_scrub.specs.Repairs.{ClearOf, FitsRepair, IsRepairOf, IsRepairOn, errors_of, leaf_of, spots_of_all, write_op};
ghost use Rattle.zio_scrub.specs.Scrubs.{error_of, failed_in, mend, one_failed, one_written, repaired_in};

use crate::queues::Queues;
use std::alloc::Global;
use zio_disks::{Setting, Spot, Stop};
use zio_groups::Answered;
use zio_outside::Disk;
use zio_shared::Shared;
use zio_types::{Errno, Flags, List, Prio};
use zio_vqueue::Op;

/// Bytes that a copy is to be written with.
#[derive(Drop)]
pub(crate) struct Repair {
    pub spot: Spot,
    pub bytes: Shared,
}

/// How many copies were written, and how many writes failed.
#[derive(Clone, Copy, Debug)]
pub(crate) struct Mended {
    pub repaired: u64,
    pub failed: u64,
}

/// Writes the copies.
pub(crate) fn mend<D: Disk>(
    alloc: Global,
    setting: &Setting,
    disks: &mut [D],
    repairs: List<Repair>,
) -> Result<Mended, Stop>
    requires rows { AllByRecursion RowFits setting.now.rows }
    requires disks { length disks.old < 2 ^ 32 }
    requires fits { AllByRecursion (IsRepairOn (map D.bytes disks.old)) repairs }
    requires few { length repairs < 2 ^ 32 }
    ensures repaired { IfOk result (λ m. m.repaired ≡ repaired_in (map (error_of setting.now) repairs)) }
    ensures failed { IfOk result (λ m. m.failed ≡ failed_in (map (error_of setting.now) repairs)) }
    ensures told { IfOk result (λ _. (images : Images) → Tell D.image disks.old images → Pairs ClearOf repairs →
        Tell D.image disks.new (mend setting.now repairs images).images) }
    ensures handled { Handles D.bytes D.faults D.faults_at_fetch D.home D.image D.sound D.went (spots_of_all repairs)
        result disks.old disks.new }
{
    let mut queues = queued(alloc, repairs, disks.len() as u32)?;
    let mut mended = Mended {
        repaired: 0,
        failed: 0,
    };
    while let Some(leaf) = queues.next() {
        let answers = queues.issue(alloc, setting, disks, leaf)?;
        mended.count(answers.as_slice());
    }
    Ok(mended)
}

/// All repairs wait at their leaves.
fn queued(alloc: Global, repairs: List<Repair>, leaves: u32) -> Result<Queues, Stop>
    requires fits { AllByRecursion (FitsRepair leaves) repairs }
    requires few { length repairs < 2 ^ 32 }
    ensures wait { IfOk result (λ queues. HaveAll (IsRepairOf repairs) (leaf_of repairs) (length repairs)
        queues.leaves.items) }
    ensures order { IfOk result (λ queues. AllByRecursion IsOrdered queues.leaves.items) }
    ensures err { OnErr result (result ≡ Err Stop.Memory) }
{
    let mut queues = Queues::new(alloc, leaves)?;
    let mut number = 0;
    for repair in repairs.into_rest() {
        let op = write_op(number, &repair.spot);
        queues.put(repair.spot.leaf, op, repair.bytes)?;
        number += 1;
    }
    Ok(queues)
}

/// The write of a whole copy.
fn write_op(ticket: u64, spot: &Spot) -> Op
    requires { spot.now.span < 2 ^ 32 }
    ensures { result ≡ write_op ticket spot.now }
{
    Op {
        ticket,
        write: true,
        at: spot.at,
        len: spot.span as u32,
        prio: Prio::AsyncWrite,
        flags: Flags {
            canfail: false,
            retry: false,
            dont_aggregate: false,
            repair: true,
        },
    }
}

impl Mended {
    /// Counts what some writes came to.
    fn count(&mut self, answers: &[Answered])
        requires { self.old.repaired + self.old.failed + length answers.now < 2 ^ 64 }
        ensures repaired { self.new.repaired ≡ self.old.repaired + repaired_in (errors_of answers.now) }
        ensures failed { self.new.failed ≡ self.old.failed + failed_in (errors_of answers.now) }
    {
        for answer in answers {
            self.count_one(answer.error);
        }
    }

    fn count_one(&mut self, error: Option<Errno>)
        requires { self.old.repaired + self.old.failed + 1 < 2 ^ 64 }
        ensures repaired { self.new.repaired ≡ self.old.repaired + one_written error }
        ensures failed { self.new.failed ≡ self.old.failed + one_failed error }
        ensures most { self.new.repaired + self.new.failed ≡ self.old.repaired + self.old.failed + 1 }
    {
        match error {
            None => self.repaired += 1,
            Some(_) => self.failed += 1,
        }
    }
}
