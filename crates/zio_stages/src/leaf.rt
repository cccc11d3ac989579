// One operation on a leaf under way.

ghost use Rattle.std.specs.Prelude.{◌≡◌, [], ◌∷◌, IfSome, List, false};
ghost use Rattle.zio_gang.specs.Attempts.{Terms};
ghost use Rattle.zio_trace.specs.Leaves.{Answer, Fetch, LeafOp, Store};
ghost use Rattle.zio_trace.specs.Tasks.{Got, Leaf};
ghost use Rattle.zio_frames.specs.Frames.{Frame, fresh_frame, with_asked};
ghost use Rattle.zio_frames.specs.Slots.{Heard};
ghost use Rattle.zio_parts.specs.Copies.{spot_at};
ghost use Rattle.zio_exchange.specs.LeafOps.{IsOpAt, IsOpFor};
ghost use Rattle.zio_stages.specs.Labels.{operation_label};
ghost use Rattle.zio_stages.specs.LeafWorks.{IsAnswered, IsDue, IsLeafWork, IsQueuedAs, IsSpanned, IsSumAhead, len_of, shown_by};

use crate::label::{Label, Level, sectors_in};
use crate::origin::Origin;
use std::alloc::Global;
use std::mem::replace;
use zio_blkptr::SumKind;
use zio_exchange::{Summed, sum_of_read};
use zio_parts::Target;
use zio_shared::Shared;
use zio_types::{Bytes, Errno, Flags, List, Prio, ReqNo, SECTOR_SIZE};
use zio_vqueue::Op;

/// What the operation does.
#[derive(Clone, Copy)]
enum Act {
    /// It reads so many bytes from the front of the place.
    Read { len: usize },
    /// It writes the place.
    Write,
}

/// How far it is.
#[derive(Drop)]
enum Progress {
    /// A write has its bytes, and a read none.
    Due(Shared),
    Out,
    /// The bytes that were read, none of a write, or an error.
    Answered(Result<Summed, Errno>),
}

/// One operation on a leaf: it is handed out to the leaf once, with the bytes of a write, and answered.
#[derive(Drop)]
pub struct LeafWork {
    origin: Origin,
    leaf: u32,
    /// As the leaf's queue takes it. Its range is the whole place, however many bytes are read or written.
    op: Op,
    act: Act,
    /// Of which kind a checksum is wanted of what is read.
    sum: SumKind,
    stage: Progress,
}

impl LeafWork {
    /// The read of this copy's first `len` bytes. Without memory.
    pub(crate) fn read(
        alloc: Global,
        origin: Origin,
        target: &Target,
        len: usize,
        sum: SumKind,
        retry: bool,
        prio: Prio,
    ) -> LeafWork
        requires { IsSpanned target.now.place }
        ensures fresh { (t : Terms) → IsLeafWork t result (fresh_frame (Leaf (Fetch retry len (spot_at target.now)))) }
        ensures queued { IsQueuedAs prio false result }
        ensures due { IsDue result }
        ensures origin { result.origin ≡ origin }
    {
        LeafWork {
            origin,
            leaf: target.leaf,
            op: op_on(target, false, retry, prio, false),
            act: Act::Read { len },
            sum,
            stage: Progress::Due(Shared::alone(List::new(alloc))),
        }
    }

    /// The write of these bytes as this copy; `repair` tells whether it rewrites one that was found bad.
    pub(crate) fn write(
        origin: Origin,
        target: &Target,
        retry: bool,
        prio: Prio,
        repair: bool,
        bytes: Shared,
    ) -> LeafWork
        requires { IsSpanned target.now.place }
        ensures fresh { (t : Terms)
            → IsLeafWork t result (fresh_frame (Leaf (Store retry bytes (spot_at target.now)))) }
        ensures queued { IsQueuedAs prio repair result }
        ensures due { IsDue result }
        ensures origin { result.origin ≡ origin }
    {
        LeafWork {
            origin,
            leaf: target.leaf,
            op: op_on(target, true, retry, prio, repair),
            act: Act::Write,
            sum: SumKind::Off,
            stage: Progress::Due(bytes),
        }
    }

    /// How many bytes a read asks for; of a write 0.
    pub fn len(&self) -> usize
        ensures { result ≡ len_of self.now }
    {
        match self.act {
            Act::Read { len } => len,
            Act::Write => 0,
        }
    }

    /// The number of the request for which it is made.
    pub fn request(&self) -> ReqNo
        ensures { result ≡ self.now.origin.part.request }
    {
        self.origin.part.request
    }

    /// Whether it writes.
    pub fn is_write(&self) -> bool
        ensures { result ≡ self.now.op.write }
    {
        self.op.write
    }

    /// The label of its node.
    pub fn label(&self) -> u64
        ensures { result ≡ operation_label self.now }
    {
        let Origin { part, place } = self.origin;
        let label = Label {
            request: part.request,
            path: part.path,
            role: part.role,
            place: place % 4,
            image: self.leaf % 16,
            level: Level::Leaf,
            attempt: part.attempt,
            retry: self.op.flags.retry,
            repair: self.op.flags.repair,
            sectors: sectors_in(self.len()),
        };
        label.pack()
    }

    /// It goes to its leaf: the operation, whose ticket is 0, the leaf's number, and the bytes of a write, none of a
    /// read.
    pub fn hand_out(&mut self) -> (Op, u32, Shared)
        requires { IsDue self.old }
        ensures related { (t : Terms) (x : Frame) → IsLeafWork t self.old x → IsLeafWork t self.new x }
        ensures handed { (t : Terms) (x : Frame) (act : LeafOp) → IsLeafWork t self.old x → x.op ≡ Leaf act →
            IsOpFor act result.0 result.1 result.2 }
        ensures len { len_of self.new ≡ len_of self.old }
        ensures label { operation_label self.new ≡ operation_label self.old }
        ensures op { result.0 ≡ self.old.op }
        ensures out { self.new.stage ≡ Progress.Out }
    {
        let Progress::Due(bytes) = replace(&mut self.stage, Progress::Out) else {
            unreachable!()
        };
        (self.op, self.leaf, bytes)
    }

    /// The leaf answered: an error or none, and the bytes of a read. Those of a write aren't kept.
    pub fn answer(&mut self, error: Option<Errno>, bytes: Bytes)
        requires { self.old.stage ≡ Progress.Out }
        ensures related { (t : Terms) (x : Frame) (a : Answer) → IsLeafWork t self.old x →
            a ≡ shown_by self.old error bytes → IsLeafWork t self.new (with_asked x x.op (Heard (Got a))) }
        ensures answered { IsAnswered self.new }
    {
        let told = match error {
            Some(error) => Err(error),
            None => match self.act {
                Act::Read { .. } => Ok(Summed::unsummed(bytes)),
                Act::Write => Ok(Summed::unsummed(emptied(bytes))),
            },
        };
        self.stage = Progress::Answered(told);
    }

    /// How many bytes were read whose checksum is wanted.
    pub fn len_to_sum(&self) -> usize {
        match (&self.stage, self.sum) {
            (Progress::Answered(Ok(read)), SumKind::Fletcher4 | SumKind::Sha256) => read
                .as_slice()
                .len(),
            _ => 0,
        }
    }

    /// The checksum of what was read, if one is wanted.
    pub fn sum_ahead(&self) -> Option<[u64; 4]>
        ensures { IfSome result (IsSumAhead self.now) }
    {
        match (&self.stage, self.sum) {
            (Progress::Answered(Ok(read)), SumKind::Fletcher4 | SumKind::Sha256) => Some(
                sum_of_read(self.sum, read.as_slice()),
            ),
            _ => None,
        }
    }

    /// What was read has this checksum.
    pub fn set_sum(&mut self, words: [u64; 4])
        requires { IsSumAhead self.old words }
        ensures { self.new ≡ self.old }
    {
        match replace(&mut self.stage, Progress::Out) {
            Progress::Answered(Ok(read)) => {
                self.stage = Progress::Answered(Ok(read.with_sum(self.sum, words)));
            }
            Progress::Answered(Err(_)) | Progress::Due(_) | Progress::Out => unreachable!(),
        }
    }

    /// What it was answered, which it holds no longer: the bytes that were read, good or not; of a write no bytes; or
    /// the error.
    pub fn take_found(&mut self) -> Result<Summed, Errno>
        requires { IsAnswered self.old }
        ensures { (t : Terms) (x : Frame) (a : Answer) → IsLeafWork t self.old x → x.slots ≡ Heard (Got a) ∷ [] →
            result ≡ a }
    {
        let Progress::Answered(found) = replace(&mut self.stage, Progress::Out) else {
            unreachable!()
        };
        found
    }
}

/// The operation on a copy's whole place.
fn op_on(target: &Target, write: bool, retry: bool, prio: Prio, repair: bool) -> Op
    requires { IsSpanned target.now.place }
    ensures at { IsOpAt write retry (spot_at target.now) result target.now.leaf }
    ensures class { result.prio ≡ prio }
    ensures mends { result.flags.repair ≡ repair }
{
    Op {
        ticket: 0,
        write,
        at: target.place.sector * u64::from(SECTOR_SIZE),
        len: target.place.sectors * SECTOR_SIZE,
        prio,
        flags: Flags {
            // Whoever asked for it decides what its error means.
            canfail: true,
            retry,
            dont_aggregate: retry,
            repair,
        },
    }
}

fn emptied(bytes: Bytes) -> Bytes
    ensures { result ≡ [] }
{
    let mut items = bytes.into_vec();
    items.clear();
    List::from_vec(items)
}
