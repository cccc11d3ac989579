ghost use Rattle.std.specs.Prelude.{◌≡◌, ◌+◌, ◌-◌, ◌<◌, ◌≤◌, ◌^◌, All, IfSome, false, is_some, length, slice_get, take, drop};
ghost use Rattle.zio_faults.specs.Hits.{RowFits, first_hit};
ghost use Rattle.zio_vqueue.specs.Members.{LiesIn, is_write};

use zio_faults::FaultTable;
use zio_types::{Flags, List, Prio};

/// An operation on the leaf that the queue is for.
#[derive(Clone, Copy, Debug, PartialEq, Eq)]
pub struct Op {
    /// Its name among queued operations.
    pub ticket: u64,
    pub write: bool,
    /// Where its range begins, in bytes.
    pub at: u64,
    /// How many bytes it has.
    pub len: u32,
    pub prio: Prio,
    pub flags: Flags,
}

/// Operations that were taken together.
#[derive(Debug, Drop)]
pub struct Group {
    /// The class that was served, which may not be that of each member.
    pub prio: Prio,
    /// Where its span begins, in bytes.
    pub at: u64,
    /// How many bytes the span has, from the lowest offset to the highest end.
    pub len: u64,
    /// The members by rising offset.
    pub ops: List<Op>,
}

/// Whether a group is to be issued member by member, since its span as one first pass would meet a row of the
/// fault table at this leaf and resume point.
pub fn lone(group: &Group, table: &FaultTable, leaf: u32, point: u32) -> bool
    requires member { 0 < length group.now.ops }
    requires span { group.now.at + group.now.len < 2 ^ 64 }
    requires rows { All RowFits table.now.rows }
    ensures { result ≡ is_some (first_hit table.now.rows
        (record {
          leaf = leaf;
          write = is_write group.now.ops;
          at = group.now.at;
          len = group.now.len;
          point = point;
          retry = false;
        })) }
{
    let write = group.ops.as_slice()[0].write;
    table
        .hit(leaf, write, group.at, group.len, point, false)
        .is_some()
}

/// Copies a member's bytes out of those of its group's span.
pub fn scatter(group: &Group, member: usize, span: &[u8], out: &mut [u8])
    requires member { member < length group.now.ops }
    requires inside { IfSome (slice_get group.now.ops member) (LiesIn group.now) }
    requires span { length span.now ≡ group.now.len }
    requires out { IfSome (slice_get group.now.ops member) (λ op. length out.old ≡ op.len) }
    ensures { IfSome (slice_get group.now.ops member)
        (λ op. out.new ≡ take op.len (drop (op.at - group.now.at) span.now)) }
{
    let op = group.ops.as_slice()[member];
    let start = (op.at - group.at) as usize;
    out.copy_from_slice(&span[start..start + op.len as usize]);
}
