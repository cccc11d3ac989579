//! Where a reason to say no was first seen.
ghost use Rattle.std.specs.Prelude.{◌≡◌, IfSome};
ghost use Rattle.zio_audit.specs.Seen.{IsJudgedAs, IsSeenIn, verdict_of, why_of};
ghost use Rattle.zio_audit.specs.Verdicts.{Case, IsVerdict};

use crate::differing::first_other;
use crate::verdict::{Verdict, Why};
use zio_outside::MemDisk;
use zio_types::Bytes;

/// A reason to say no, and where it was first seen. Lines are counted from 1, rounds by the run; images and bytes from 0.
#[derive(Clone, Copy, Debug, PartialEq, Eq)]
pub enum Seen {
    /// The script isn't accepted: this is its first faulty line, or one more than it has lines where its end is at
    /// fault, or 0 where it is too long.
    Script { line: u32 },
    /// A top of the script names this leaf, the first without an image.
    Leaf { leaf: u32 },
    /// This line of the report is the first of the journal that isn't of its shape, or stands before every round.
    Lines { line: usize },
    /// The entries of this round aren't what it asks for.
    Places { round: u64 },
    /// The completions of this round aren't what finished in it.
    Completions { round: u64 },
    /// This line of the report isn't that of the run, or the report ends before it.
    Text { line: usize },
    /// This image is the first that is another than the run leaves, from this byte on.
    Images { image: usize, byte: usize },
}

/// What is to be said of a run before the images after it are looked at.
#[derive(Debug, Drop)]
pub enum Judged {
    /// No, and where the reason was first seen.
    No(Seen),
    /// Yes where the images after it are those of these disks, which it leaves; else no.
    Leaves(Vec<MemDisk>),
}

impl Seen {
    /// The reason.
    pub fn why(self) -> Why
        ensures { result ≡ why_of self }
    {
        match self {
            Seen::Script { .. } | Seen::Leaf { .. } => Why::Script,
            Seen::Lines { .. } => Why::Lines,
            Seen::Places { .. } => Why::Places,
            Seen::Completions { .. } => Why::Completions,
            Seen::Text { .. } => Why::Text,
            Seen::Images { .. } => Why::Images,
        }
    }
}

impl Judged {
    /// Where the first reason to say no is seen once these are the images after; none is yes.
    pub fn seen_with(&self, after: &[Bytes]) -> Option<Seen>
        ensures { (c : Case) → c.after ≡ after.now → IsJudgedAs c self.now
            → IsVerdict c (verdict_of result) × IfSome result (IsSeenIn c) }
    {
        match self {
            Judged::No(seen) => Some(*seen),
            Judged::Leaves(disks) => match first_other(disks, after) {
                Some((image, byte)) => Some(Seen::Images { image, byte }),
                None => None,
            },
        }
    }
}

/// Yes where no reason was seen, else no with the number of the reason.
pub fn verdict_of(seen: Option<Seen>) -> Verdict
    ensures { result ≡ verdict_of seen }
{
    match seen {
        None => Verdict::Yes,
        Some(seen) => Verdict::No {
            why: seen.why().number(),
        },
    }
}
