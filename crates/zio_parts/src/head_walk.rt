// The walk over headers from a pointer down, under way.

ghost use Rattle.std.specs.Prelude.{◌≡◌, ◌≢◌, ◌++◌, ◌+◌, ◌<◌, ◌≤◌, ◌∷◌, ℕ, [], List as Seq, None, Ok, Err, IfErr, OnErr, OnOk, IfOk, IsTrue, Option, Some, drop, false, length, map, replicate, slice_get, slice_set, take, true};
ghost use Rattle.std.specs.List.{list_all};
ghost use Rattle.zio_blkptr.specs.Pointers.{places_of, valid};
ghost use Rattle.zio_gang.specs.declared.tree.Head.{Head};
ghost use Rattle.zio_gang.specs.Attempts.{Terms};
ghost use Rattle.zio_gang.specs.Trees.{inval_unless, is_claimable, piece_size, sizes_of};
ghost use Rattle.zio_trace.specs.Calls.{answered_at};
ghost use Rattle.zio_trace.specs.Plans.{plan};
ghost use Rattle.zio_trace.specs.Tasks.{ByClaim, ByKept, Got, ReadHeads, WalkedBy};
ghost use Rattle.zio_parts.specs.HeadWalks.{Follows, ShowsWalk, fresh_walk, header_by, is_any_out, is_followed, joined_behind, left_of_walk, named_by, slots_of, walk_left, with_header, with_members};
ghost use Rattle.zio_frames.specs.Slots.{Heard, IsOut, outs_before};
ghost use Rattle.zio_parts.specs.Gathers.{FitsIn, gathered};
ghost use Rattle.zio_parts.specs.WalkFields.{IsRead};

use crate::fitting::is_fitting;
use crate::gathered::Gathered;
use crate::walked::Walked;
use std::alloc::Global;
use std::marker::Model;
use zio_blkptr::Bp;
use zio_gang::{LEVELS_MAX, members_of};
use zio_types::{Errno, List, NoMemory, Path, Top};

/// How far the read of the header is.
#[derive(Clone, Copy, Debug)]
enum Header {
    Unread,
    Out,
    Failed(Errno),
    Read([u8; 512]),
}

/// A walk that is to be made below a member.
#[derive(Clone, Copy, Debug)]
pub struct MemberWalk {
    /// The member's number.
    pub n: u8,
    /// How many levels of headers may follow.
    pub levels: u32,
    pub path: Path,
    pub bp: Bp,
}

/// What the walk is to do next.
#[derive(Clone, Copy, Debug)]
pub enum WalkStep {
    /// The header at its pointer is to be read.
    ReadHead,
    /// This walk is to be made below a member.
    Member(MemberWalk),
    /// All that can be handed out yet is, and some of it is out.
    Wait,
    /// It ended.
    End,
}

/// The walk over headers from a pointer down, under way: the header's read, and then the walks below the members that
/// it names, all together.
#[derive(Debug, Drop)]
pub struct HeadWalk {
    claim: bool,
    /// How many levels of headers may follow.
    levels: u32,
    path: Path,
    bp: Bp,
    /// The error of the pointer.
    judged: Option<Errno>,
    header: Header,
    /// The members that the header names.
    members: List<Bp>,
    /// How many walks below members were handed out.
    handed: usize,
    /// Of these, in their order, what they left, none of those that are out.
    left: [Option<Walked>; 3],
}

impl Model for HeadWalk {
    ghost use Rattle.std.specs.Prelude.{take};
    ghost use Rattle.zio_parts.specs.HeadWalks.{Walking};
    ghost use Rattle.zio_parts.specs.WalkFields.{WalkFields};

    ghost Value = { Walking };

    ghost view = { λ x. record {
      claim = x.claim;
      levels = x.levels;
      path = x.path;
      bp = x.bp;
      judged = x.judged;
      header = x.header;
      members = take x.handed x.left;
    } };

    ghost invariant = { λ x. WalkFields x.levels x.path x.bp x.judged x.header x.members x.handed x.left };
}

impl HeadWalk {
    /// The walk of a block whose headers are kept: any pointer will do.
    pub fn kept(alloc: Global, levels: u32, path: Path, bp: Bp) -> HeadWalk
        requires depth { length path + levels ≤ LEVELS_MAX }
        ensures fresh { result ≡ fresh_walk false levels path bp None }
        ensures left { (t : Terms) (heads : Seq Head)
            → left_of_walk heads result ≡ plan t (ReadHeads (ByKept heads) levels path bp) }
    {
        HeadWalk::fresh(alloc, false, levels, path, bp, None)
    }

    /// The walk of a claim: each place of the pointer has to be inside its top and to fit what it holds.
    pub fn claimed(alloc: Global, tops: &[Top], levels: u32, path: Path, bp: Bp) -> HeadWalk
        requires depth { length path + levels ≤ LEVELS_MAX }
        requires valid { IsTrue (valid bp) }
        ensures left { (t : Terms) (heads : Seq Head) → t.setting.tops ≡ tops.now
            → left_of_walk heads result ≡ plan t (ReadHeads ByClaim levels path bp) }
        ensures none { slots_of result ≡ [] }
        ensures fresh { result ≡ fresh_walk true levels path bp result.judged }
        ensures judged { result.judged
            ≡ inval_unless (list_all (is_claimable (sizes_of tops.now) (piece_size bp)) (places_of bp)) }
    {
        let judged = if is_fitting(tops, &bp) {
            None
        } else {
            Some(Errno::Inval)
        };
        HeadWalk::fresh(alloc, true, levels, path, bp, judged)
    }

    fn fresh(
        alloc: Global,
        claim: bool,
        levels: u32,
        path: Path,
        bp: Bp,
        judged: Option<Errno>,
    ) -> HeadWalk
        requires depth { length path + levels ≤ LEVELS_MAX }
        ensures { result ≡ fresh_walk claim levels path bp judged }
    {
        HeadWalk {
            claim,
            levels,
            path,
            bp,
            judged,
            header: Header::Unread,
            members: List::new(alloc),
            handed: 0,
            left: [None, None, None],
        }
    }

    /// It is a claim's.
    pub fn is_claim(&self) -> bool
        ensures { result ≡ self.now.claim }
    {
        self.claim
    }

    /// The path that it begins at.
    pub fn path(&self) -> Path
        ensures { result ≡ self.now.path }
    {
        self.path
    }

    /// The pointer that it begins at.
    pub fn pointer(&self) -> Bp
        ensures { result ≡ self.now.bp }
    {
        self.bp
    }

    /// What is to be done next.
    pub fn next(&self) -> WalkStep
        ensures { ShowsWalk self.now result }
    {
        match self.header {
            Header::Unread => {
                if is_followed(self.judged, self.bp.gang, self.levels) {
                    WalkStep::ReadHead
                } else {
                    WalkStep::End
                }
            }
            Header::Out => WalkStep::Wait,
            Header::Failed(_) => WalkStep::End,
            Header::Read(_) => self.next_member(),
        }
    }

    /// What is to be done next behind a header that was read.
    fn next_member(&self) -> WalkStep
        requires { IsRead self.now.header }
        ensures { ShowsWalk self.now result }
    {
        match nth(self.members.as_slice(), self.handed) {
            Some(bp) => {
                let n = self.handed as u8;
                WalkStep::Member(MemberWalk {
                    n,
                    levels: self.levels - 1,
                    path: below(&self.path, n),
                    bp,
                })
            }
            None => {
                if is_any_out(&self.left[..self.handed]) {
                    WalkStep::Wait
                } else {
                    WalkStep::End
                }
            }
        }
    }

    /// The read of the header is out.
    pub fn hand_out_head(&mut self)
        requires unread { self.old.header ≡ Header.Unread }
        requires follows { Follows self.old }
        ensures handed { self.new ≡ with_header self.old Header.Out }
        ensures slots { slots_of self.new ≡ slots_of self.old ++ IsOut None ∷ [] }
        ensures left { (heads : Seq Head) → left_of_walk heads self.new ≡ left_of_walk heads self.old }
    {
        self.header = Header::Out;
    }

    /// The walk below the next member is out.
    pub fn hand_out_member(&mut self)
        requires { length self.old.members < length (named_by self.old.header) }
        ensures handed { self.new ≡ with_members self.old (self.old.members ++ None ∷ []) }
        ensures slots { slots_of self.new ≡ slots_of self.old ++ IsOut None ∷ [] }
        ensures left { (heads : Seq Head) → left_of_walk heads self.new ≡ left_of_walk heads self.old }
    {
        self.handed += 1;
    }

    /// The header was read, or failed. Where memory is refused the walk is as it was.
    pub fn hear_head(
        &mut self,
        alloc: Global,
        found: Result<[u8; 512], Errno>,
    ) -> Result<(), NoMemory>
        requires { self.old.header ≡ Header.Out }
        ensures heard { OnOk result (self.new ≡ with_header self.old (header_by found)) }
        ensures slots { OnOk result (slots_of self.new ≡ slice_set (slots_of self.old) 0 (Heard (Got found))) }
        ensures left { OnOk result ((heads : Seq Head)
            → left_of_walk heads self.new ≡ answered_at 0 (Got found) (left_of_walk heads self.old)) }
        ensures err { OnErr result (self.new ≡ self.old) }
    {
        match found {
            Ok(bytes) => {
                self.members = members_of(alloc, &bytes)?;
                self.header = Header::Read(bytes);
            }
            Err(error) => self.header = Header::Failed(error),
        }
        Ok(())
    }

    /// The walk below the nth member ended, and left this.
    pub fn hear_member(&mut self, n: usize, walked: Walked)
        requires { slice_get self.old.members n ≡ Some None }
        ensures heard { self.new ≡ with_members self.old (slice_set self.old.members n (Some walked)) }
        ensures slots { slots_of self.new ≡ slice_set (slots_of self.old) (n + 1) (Heard (WalkedBy walked)) }
        ensures left { (heads : Seq Head)
            → left_of_walk heads self.new ≡ answered_at (outs_before (n + 1) (slots_of self.old)) (WalkedBy walked)
            (left_of_walk heads self.old) }
    {
        let left = &mut self.left;
        left[n] = Some(walked);
    }

    /// What it left, where it ended. Where memory is refused it comes back.
    pub fn into_walked(self, alloc: Global) -> Result<Walked, HeadWalk>
        ensures left { IfOk result (λ walked. walked ≡ walk_left self) }
        ensures back { IfErr result (λ walk. walk ≡ self) }
    {
        if let Header::Read(bytes) = self.header {
            return match Gathered::head(alloc, self.path, bytes, &self.left) {
                Ok(head) => Ok(join(head, self.left)),
                Err(NoMemory) => Err(self),
            };
        }
        match self.walked_alone(alloc) {
            Ok(walked) => Ok(walked),
            Err(NoMemory) => Err(self),
        }
    }

    /// What it left, where it read no header.
    fn walked_alone(&self, alloc: Global) -> Result<Walked, NoMemory>
        requires { (bytes : Seq ℕ) → self.now.header ≢ Header.Read bytes }
        ensures { IfOk result (λ walked. walked ≡ walk_left self.now) }
    {
        if let Some(error) = self.judged {
            return Walked::stopped(alloc, error);
        }
        if !self.bp.gang {
            return Walked::body(alloc, self.bp, self.path);
        }
        if self.levels == 0 {
            return Walked::stopped(alloc, Errno::Cksum);
        }
        match self.header {
            Header::Failed(error) => Walked::stopped(alloc, error),
            Header::Unread | Header::Out => Ok(Walked::nothing(alloc)),
            Header::Read(_) => unreachable!(),
        }
    }
}

/// This walk, and those of the members behind it, for which there is room.
fn join(head: Gathered, members: [Option<Walked>; 3]) -> Walked
    requires { FitsIn (joined_behind (gathered head) members) head }
    ensures { result ≡ joined_behind (gathered head) members }
{
    let [first, second, third] = members;
    let mut all = head;
    all.put(first);
    all.put(second);
    all.put(third);
    all.into_walked()
}

/// The nth of these pointers.
fn nth(pointers: &[Bp], n: usize) -> Option<Bp>
    ensures { result ≡ slice_get pointers.now n }
{
    pointers.get(n).copied()
}

/// Whether the header is read: the pointer has no error, and is a gang above the deepest level.
fn is_followed(judged: Option<Errno>, gang: bool, levels: u32) -> bool
    ensures { result ≡ is_followed judged gang levels }
{
    judged.is_none() && gang && levels > 0
}

/// One of them is out.
fn is_any_out(left: &[Option<Walked>]) -> bool
    ensures { result ≡ is_any_out left.now }
{
    for walked in left {
        if walked.is_none() {
            return true;
        }
    }
    false
}

/// The path to a member of the gang at this path, which has room for a step.
fn below(path: &Path, member: u8) -> Path
    requires member { member < 3 }
    requires room { length path.now < LEVELS_MAX }
    ensures { result ≡ path.now ++ member ∷ [] }
{
    match path.child(member) {
        Some(below) => below,
        None => unreachable!(),
    }
}
