// What was heard of the copies.

ghost use Rattle.std.specs.Prelude.{◌≡◌, ◌==◌, ◌&&◌, ◌≤◌, Err, IfOk, IfSome, IsTrue, None, OnErr, not, length, replicate, take, ℕ};
ghost use Rattle.zio_blkptr.specs.Pointers.{valid};
ghost use Rattle.zio_disks.specs.Disks.{found_with};
ghost use Rattle.zio_cksum.specs.Images.{Images, Setting as SeenSetting};
ghost use Rattle.zio_scrub.specs.declared.layout.CopyAt.{CopyAt};
ghost use Rattle.zio_scrub.specs.Pieces.{seen};
ghost use Rattle.zio_scrub.specs.Reads.{IsAt, IsHeard, IsHearable, IsSound, IsTrueOf, IsTruthful, all_good, found_good, is_out, kept_after, mark_at};

use crate::layout::{Layout, Numbered};
use crate::pieces::Piece;
use std::alloc::Global;
use zio_disks::Stop;
use zio_groups::Answered;
use zio_shared::Shared;
use zio_types::Errno;

/// How the read of a copy ended.
#[derive(Clone, Copy, Debug, PartialEq, Eq)]
pub(crate) enum Mark {
    /// It isn't answered yet.
    Out,
    Good,
    /// It failed, or its bytes aren't good.
    Bad,
}

/// What the bad copies of a piece are written with.
#[derive(Drop)]
pub(crate) struct Source {
    /// The number of the copy that gave the bytes.
    pub(crate) copy: usize,
    pub(crate) bytes: Shared,
}

/// The marks of all copies, and what is kept of each piece: the bytes of the least good copy so far, until all its
/// copies are good.
#[derive(Drop)]
pub(crate) struct Heard {
    pub(crate) marks: Vec<Mark>,
    pub(crate) sources: Vec<Option<Source>>,
}

impl Heard {
    /// All copies are out.
    pub(crate) fn new(alloc: Global, copies: usize, pieces: usize) -> Result<Heard, Stop>
        ensures marks { IfOk result (λ h. h.marks.items ≡ replicate copies Mark.Out) }
        ensures sources { IfOk result (λ h. h.sources.items ≡ replicate pieces None) }
        ensures err { OnErr result (result ≡ Err Stop.Memory) }
    {
        let Ok(marks) = vec![in alloc; Mark::Out; copies] else {
            return Err(Stop::Memory);
        };
        let mut sources = Vec::new(alloc);
        for _piece in 0..pieces {
            if sources.push(None).is_err() {
                return Err(Stop::Memory);
            }
        }
        Ok(Heard { marks, sources })
    }

    /// Hears the read of a copy that is out: its bytes are the first of the answer's.
    pub(crate) fn hear(&mut self, layout: &Layout, answer: Answered)
        requires sound { IsSound layout.now }
        requires heard { IsHeard layout.now self.old }
        requires hearable { IsHearable layout.now (mark_at self.old) answer }
        ensures heard { IsHeard layout.now self.new }
        ensures marks { (ticket : ℕ) → is_out (mark_at self.new ticket)
            ≡ (is_out (mark_at self.old ticket) && not (answer.ticket == ticket)) }
        ensures told { (s : SeenSetting) (images : Images) → IsTruthful s images layout.now answer →
            IsTrueOf s images layout.now self.old → IsTrueOf s images layout.now self.new }
    {
        let piece = layout.copies.as_slice()[answer.ticket as usize].piece;
        self.hear_of(layout, piece, &layout.pieces.as_slice()[piece], answer);
    }

    /// The same of a copy of this piece.
    fn hear_of(&mut self, layout: &Layout, piece: usize, numbered: &Numbered, answer: Answered)
        requires sound { IsSound layout.now }
        requires heard { IsHeard layout.now self.old }
        requires hearable { IsHearable layout.now (mark_at self.old) answer }
        requires copy { (copy : CopyAt) → IsAt layout.now.copies answer.ticket copy → copy.piece ≡ piece }
        requires piece { IsAt layout.now.pieces piece numbered.now }
        ensures heard { IsHeard layout.now self.new }
        ensures marks { (ticket : ℕ) → is_out (mark_at self.new ticket)
            ≡ (is_out (mark_at self.old ticket) && not (answer.ticket == ticket)) }
        ensures told { (s : SeenSetting) (images : Images) → IsTruthful s images layout.now answer →
            IsTrueOf s images layout.now self.old → IsTrueOf s images layout.now self.new }
    {
        let copy = answer.ticket as usize;
        match good_bytes(&numbered.piece, answer.error, answer.bytes) {
            None => self.marks[copy] = Mark::Bad,
            Some(bytes) => {
                self.marks[copy] = Mark::Good;
                let end = numbered.first + numbered.count;
                let source = Source { copy, bytes };
                keep(
                    &mut self.sources[piece],
                    &self.marks[numbered.first..end],
                    source,
                );
            }
        }
    }
}

/// The bytes of a copy, if they are good.
fn good_bytes(piece: &Piece, error: Option<Errno>, bytes: Shared) -> Option<Shared>
    requires valid { IsTrue (valid piece.now.pointer) }
    requires whole { error ≡ None → (seen piece.now).size ≤ length bytes }
    ensures good { result ≡ found_good (seen piece.now) (found_with error (take (seen piece.now).size bytes)) }
    ensures whole { IfSome result (λ good. length good ≡ (seen piece.now).size) }
{
    if error.is_some() {
        return None;
    }
    let bytes = bytes.front(piece.size() as usize);
    if piece.is_good(bytes.as_slice()) {
        Some(bytes)
    } else {
        None
    }
}

/// Keeps what is to be kept of a piece once one more copy is good.
fn keep(kept: &mut Option<Source>, marks: &[Mark], source: Source)
    ensures { kept.new ≡ kept_after (all_good marks.now) kept.old source }
{
    if all_good(marks) {
        *kept = None;
        return;
    }
    match kept {
        Some(earlier) if earlier.copy < source.copy => {}
        _ => *kept = Some(source),
    }
}

/// Whether all copies of a piece are good. There are a dozen at most.
fn all_good(marks: &[Mark]) -> bool
    ensures { result ≡ all_good marks.now }
{
    let Some((mark, others)) = marks.split_first() else {
        return true;
    };
    *mark == Mark::Good && all_good(others)
}
