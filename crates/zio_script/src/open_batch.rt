//! The requests since the last `go`, as far as the next line is held against them.
ghost use Rattle.std.specs.Prelude.{◌≡◌, ◌≤◌, ◌<◌, ◌*◌, ◌++◌, ◌∷◌, [], List, Bool, ℕ, None, OnOk, IfOk, false, true, not};
ghost use Rattle.zio_script.specs.Keys.{AreBegun, AreForgotten};
ghost use Rattle.zio_script.specs.OpenBatches.{IsBatch, IsPosition, IsStand, IsMarkWithin, AddsWork, IsStandWithin, depth_at, is_clash, is_full_at, marked_size, marks_after, must_at, new_mark, size_after, size_under, with_child, within, work_len};
ghost use Rattle.zio_script.specs.Whys.{body_len, fits_work, may_have, rounded_up};
ghost use Rattle.zio_script.specs.declared.script.Request.{Request as SeenRequest};

use crate::limits::{BATCH_SIZE_MAX, CHILDREN_MAX, DEPTH_MAX, POINTER_SIZE};
use crate::names::BatchNames;
use crate::{Body, Request, Work};
use std::alloc::{AllocFailed, Global};
use zio_blkptr::BLOCK_SIZE_MAX;
use zio_types::{Kind, SECTOR_SIZE};

/// What is kept of a request.
#[derive(Clone, Copy)]
pub(crate) struct RequestMark {
    pub number: u32,
    pub kind: Kind,
    pub canfail: bool,
    /// 1 for a root.
    pub depth: u32,
    /// How many requests stand under it.
    pub children: u32,
    /// How many of these are writes.
    pub writes: u32,
    /// The bytes of a write without its children's pointers.
    pub len: u32,
}

/// Where a request stands.
#[derive(Clone, Copy)]
pub(crate) enum Stand {
    /// Under no other.
    Root,
    /// Under the one whose mark is there.
    Under(usize),
    /// Under a number that no request of the batch has.
    Lost,
}

/// The batch that is open.
#[derive(Drop)]
pub(crate) struct OpenBatch {
    /// By rising number.
    pub marks: Vec<RequestMark>,
    /// The bytes of all writes with their children's pointers, each in whole sectors.
    pub size: u64,
    pub has_claim: bool,
    pub names: BatchNames,
}

impl OpenBatch {
    /// Without a request, and without memory.
    pub(crate) fn new(alloc: Global) -> OpenBatch
        ensures marks { result.marks.items ≡ [] }
        ensures size { result.size ≡ 0 }
        ensures claim { result.has_claim ≡ false }
        ensures names { AreForgotten result.names }
    {
        OpenBatch {
            marks: Vec::new(alloc),
            size: 0,
            has_claim: false,
            names: BatchNames::new(alloc),
        }
    }

    /// Forgets its requests.
    pub(crate) fn clear(&mut self)
        ensures marks { self.new.marks.items ≡ [] }
        ensures size { self.new.size ≡ 0 }
        ensures claim { self.new.has_claim ≡ false }
        ensures names { AreForgotten self.new.names }
    {
        self.marks.clear();
        self.size = 0;
        self.has_claim = false;
        self.names.clear();
    }

    /// Where a request under this number stands.
    pub(crate) fn stand(&self, under: Option<u64>) -> Stand
        ensures { (apart : Bool) (batch : List SeenRequest) → IsBatch apart batch self.now
            → IsStand batch self.now under result }
    {
        match under {
            None => Stand::Root,
            Some(number) => match self.position(number) {
                Ok(at) => Stand::Under(at),
                Err(_) => Stand::Lost,
            },
        }
    }

    // Where the mark of this number is.
    fn position(&self, number: u64) -> Result<usize, usize>
        ensures { (apart : Bool) (batch : List SeenRequest) → IsBatch apart batch self.now
            → IsPosition batch self.now number result }
    {
        self.marks
            .binary_search_by_key(&number, |mark| u64::from(mark.number))
    }

    /// The bytes of all writes with one more request, which is a write of so many bytes or isn't one. None where its
    /// parent or all together would be too large.
    pub(crate) fn size_with(&self, is_write: bool, len: u32, stand: Stand) -> Option<u64>
        requires size { self.now.size ≤ BATCH_SIZE_MAX }
        requires len { len ≤ BLOCK_SIZE_MAX }
        requires stand { IsStandWithin self.now stand }
        ensures { result ≡ size_after self.now stand is_write len }
    {
        if !is_write {
            return Some(self.size);
        }
        let own = rounded_up(u64::from(len));
        match stand {
            Stand::Under(at) => self.size_under(&self.marks[at], own),
            Stand::Root | Stand::Lost => within(0, self.size + own),
        }
    }

    fn size_under(&self, parent: &RequestMark, own: u64) -> Option<u64>
        requires own { own ≤ BLOCK_SIZE_MAX }
        requires size { self.now.size ≤ BATCH_SIZE_MAX }
        requires parent { IsMarkWithin self.now.size parent.now }
        ensures { result ≡ size_under self.now.size parent.now own }
    {
        let old = marked_size(parent, parent.writes);
        let new = marked_size(parent, parent.writes + 1);
        within(new, self.size - old + new + own)
    }

    /// The parent may not fail.
    pub(crate) fn is_under_must(&self, stand: Stand) -> bool
        requires { IsStandWithin self.now stand }
        ensures { result ≡ must_at self.now stand }
    {
        match stand {
            Stand::Under(at) => !self.marks[at].canfail,
            Stand::Root | Stand::Lost => false,
        }
    }

    /// A request of this kind can't stand there.
    pub(crate) fn refuses(&self, kind: Kind, stand: Stand) -> bool
        requires { IsStandWithin self.now stand }
        ensures { result ≡ is_full_at self.now kind stand }
    {
        match stand {
            Stand::Root => false,
            Stand::Lost => true,
            Stand::Under(at) => {
                let parent = &self.marks[at];
                !may_have(parent.kind, kind)
                    || parent.children >= CHILDREN_MAX
                    || parent.depth >= DEPTH_MAX
            }
        }
    }

    /// How deep a request stands there.
    pub(crate) fn depth(&self, stand: Stand) -> u32
        requires { IsStandWithin self.now stand }
        ensures { result ≡ depth_at self.now stand }
    {
        match stand {
            Stand::Under(at) => self.marks[at].depth + 1,
            Stand::Root | Stand::Lost => 1,
        }
    }

    /// The mark of a request that stands there, before it has children.
    pub(crate) fn mark(&self, request: &Request, stand: Stand) -> RequestMark
        requires stand { IsStandWithin self.now stand }
        requires fits { fits_work request.now.work ≡ true }
        ensures { result ≡ new_mark self.now request.now stand }
    {
        RequestMark {
            number: request.number,
            kind: request.work.kind(),
            canfail: request.canfail,
            depth: self.depth(stand),
            children: 0,
            writes: 0,
            len: work_len(&request.work),
        }
    }

    /// Adds the name of this work, if it has one, and says whether the batch may have it.
    pub(crate) fn insert_name(
        &mut self,
        work: &Work,
        apart: bool,
    ) -> Result<bool, AllocFailed<u128>>
        requires { AreBegun self.old.names }
        ensures begun { OnOk result (AreBegun self.new.names) }
        ensures marks { OnOk result (self.new.marks ≡ self.old.marks) }
        ensures size { OnOk result (self.new.size ≡ self.old.size) }
        ensures claim { OnOk result (self.new.has_claim ≡ self.old.has_claim) }
        ensures added { IfOk result (λ added. added ≡ not (is_clash self.old.names apart work.now)) }
        ensures names { IfOk result (λ added. added ≡ true → AddsWork self.old.names apart work.now self.new.names) }
    {
        let is_shared = !apart && work.kind() == Kind::Read;
        match work.name() {
            None => Ok(true),
            Some(name) => self.names.insert(name.key(), is_shared),
        }
    }

    /// Adds the mark of a request that stands there.
    pub(crate) fn add(
        &mut self,
        mark: RequestMark,
        stand: Stand,
    ) -> Result<(), AllocFailed<RequestMark>>
        requires { IsStandWithin self.old stand }
        ensures marks { OnOk result (self.new.marks.items ≡ marks_after self.old.marks.items stand mark.kind ++ mark
            ∷ []) }
        ensures size { self.new.size ≡ self.old.size }
        ensures claim { self.new.has_claim ≡ self.old.has_claim }
        ensures names { self.new.names ≡ self.old.names }
    {
        if let Stand::Under(at) = stand {
            self.marks[at] = with_child(self.marks[at], mark.kind);
        }
        self.marks.push(mark)?;
        Ok(())
    }
}

// None where a block or a batch of these sizes is too large.
fn within(block: u64, batch: u64) -> Option<u64>
    ensures { result ≡ within block batch }
{
    if block > u64::from(BLOCK_SIZE_MAX) || batch > u64::from(BATCH_SIZE_MAX) {
        None
    } else {
        Some(batch)
    }
}

// A number of bytes in whole sectors.
fn rounded_up(len: u64) -> u64
    requires { len ≤ 2 * BLOCK_SIZE_MAX }
    ensures { result ≡ rounded_up len }
{
    let sector = u64::from(SECTOR_SIZE);
    len.div_ceil(sector) * sector
}

// The size of a request with so many writes under it.
fn marked_size(mark: &RequestMark, writes: u32) -> u64
    requires len { mark.now.len ≤ BLOCK_SIZE_MAX }
    requires writes { writes ≤ 1025 }
    ensures { result ≡ marked_size writes mark.now }
{
    if mark.kind != Kind::Write {
        return 0;
    }
    rounded_up(u64::from(mark.len) + u64::from(POINTER_SIZE) * u64::from(writes))
}

/// A request of the first kind may have one of the second under it.
fn may_have(parent: Kind, child: Kind) -> bool
    ensures { result ≡ may_have parent child }
{
    match parent {
        Kind::Null | Kind::Read => true,
        Kind::Write => child == Kind::Write,
        Kind::Free | Kind::Claim => false,
    }
}

// A mark with one more child of this kind.
fn with_child(mark: RequestMark, kind: Kind) -> RequestMark
    requires children { mark.children ≤ 1024 }
    requires writes { mark.writes ≤ 1024 }
    ensures { result ≡ with_child kind mark }
{
    let is_write = kind == Kind::Write;
    RequestMark {
        children: mark.children + 1,
        writes: mark.writes + u32::from(is_write),
        ..mark
    }
}

// The bytes of a write without its children's pointers, 0 of other work.
fn work_len(work: &Work) -> u32
    requires { fits_work work.now ≡ true }
    ensures { result ≡ work_len work.now }
{
    match work {
        Work::Write { body, .. } => body_len(body),
        Work::Null | Work::Read { .. } | Work::Free { .. } | Work::Claim { .. } => 0,
    }
}

fn body_len(body: &Body) -> u32
    requires { body_len body.now ≤ BLOCK_SIZE_MAX }
    ensures { result ≡ body_len body.now }
{
    match body {
        Body::Hex(bytes) => bytes.len() as u32,
        Body::Fill { len, .. } | Body::Seq { len, .. } => *len,
    }
}
