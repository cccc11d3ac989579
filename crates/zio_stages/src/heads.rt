// The walk over headers from a pointer down, as a node's part of the work.

ghost use Rattle.std.specs.Prelude.{◌≡◌, ◌++◌, ◌+◌, ◌-◌, ◌∷◌, ◌<◌, ◌≤◌, [], IfOk, IsTrue, List as Seq, None, OnErr, OnOk, Option, Some, bytes_eq, false, filter, length, not, slice_get, slice_set, true};
ghost use Rattle.zio_blkptr.specs.Pointers.{valid};
ghost use Rattle.zio_gang.specs.declared.tree.Head.{Head};
ghost use Rattle.zio_gang.specs.Attempts.{Terms};
ghost use Rattle.zio_gang.specs.Trees.{kept_at};
ghost use Rattle.zio_trace.specs.Plans.{plan};
ghost use Rattle.zio_trace.specs.Programs.{Ends};
ghost use Rattle.zio_trace.specs.Tasks.{ByClaim, ByKept, Got, ReadHeads, WalkedBy};
ghost use Rattle.zio_frames.specs.Frames.{Frame, fresh_frame, left_of, with_slot};
ghost use Rattle.zio_frames.specs.Slots.{AllHeard, Heard, IsOut, told_in};
ghost use Rattle.zio_parts.specs.HeadWalks.{ShowsWalk, fresh_walk, header_by, left_of_walk, look_of, slots_of, walk_left, with_header, with_members};
ghost use Rattle.zio_parts.specs.declared.head_walk.Header.{Header};
ghost use Rattle.zio_stages.specs.HeadsWorks.{HandsBelow, HandsHead, IsHeadsWork, IsReadFor, IsReadOf, claim_error, is_under};

use crate::at_once::root;
use std::alloc::Global;
use std::mem::replace;
use zio_blkptr::Bp;
use zio_gang::Head;
use zio_parts::{HeadWalk, MemberWalk, WalkStep, Walked};
use zio_types::{Errno, List, NoMemory, Path, Top};

/// A header that is to be read, from the places of its pointer.
#[derive(Clone, Copy, Debug)]
pub enum HeadRead {
    /// It is good where its bytes are those that are kept; none are where the block has no header there.
    Kept { bp: Bp, bytes: Option<[u8; 512]> },
    /// It is good where it is a header of some members for the pointer's first place, birth and size.
    Claimed { bp: Bp },
}

/// The walk over headers from a pointer down: first the header there, then together the walks below the members that it
/// names, which are children's.
#[derive(Debug, Drop)]
pub struct HeadsWork {
    walk: HeadWalk,
    /// The headers that are kept of the block, from the path down; those below a member go with its walk.
    heads: Vec<Head>,
}

impl HeadsWork {
    /// The walk of a block, of which these headers are kept.
    pub fn kept(alloc: Global, levels: u32, path: Path, bp: Bp, heads: List<Head>) -> HeadsWork
        requires { length path + levels ≤ 8 }
        ensures fresh { (t : Terms) → IsHeadsWork t result (fresh_frame (ReadHeads (ByKept heads) levels path bp)) }
        ensures walk { result.walk ≡ fresh_walk false levels path bp None }
        ensures heads { result.heads.items ≡ heads }
    {
        HeadsWork {
            walk: HeadWalk::kept(alloc, levels, path, bp),
            heads: heads.into_vec(),
        }
    }

    /// The walk of a claim.
    pub fn claimed(alloc: Global, tops: &[Top], levels: u32, path: Path, bp: Bp) -> HeadsWork
        requires depth { length path + levels ≤ 8 }
        requires valid { IsTrue (valid bp) }
        ensures fresh { (t : Terms) → t.setting.tops ≡ tops.now
            → IsHeadsWork t result (fresh_frame (ReadHeads ByClaim levels path bp)) }
        ensures walk { result.walk ≡ fresh_walk true levels path bp result.walk.judged }
        ensures judged { result.walk.judged ≡ claim_error tops.now bp }
    {
        HeadsWork {
            walk: HeadWalk::claimed(alloc, tops, levels, path, bp),
            heads: Vec::new(alloc),
        }
    }

    /// The pointer that it begins at.
    pub(crate) fn pointer(&self) -> Bp
        ensures { result ≡ self.now.walk.bp }
    {
        self.walk.pointer()
    }

    /// What is to be done next.
    pub fn next(&self) -> WalkStep
        ensures shows { ShowsWalk self.now.walk result }
        ensures waits { result ≡ WalkStep.Wait → (t : Terms) (x : Frame) → IsHeadsWork t self.now x
            → 0 < length (told_in x.slots) }
    {
        self.walk.next()
    }

    /// The read of the header is out.
    pub fn hand_out_head(&mut self) -> HeadRead
        requires { ShowsWalk self.old.walk WalkStep.ReadHead }
        ensures hands { (t : Terms) (x : Frame) → IsHeadsWork t self.old x → HandsHead t self.new result x }
        ensures walk { self.new.walk ≡ with_header self.old.walk Header.Out }
        ensures slots { slots_of self.new.walk ≡ slots_of self.old.walk ++ IsOut None ∷ [] }
        ensures heads { self.new.heads ≡ self.old.heads }
        ensures read { IsReadFor self.old.walk result }
        ensures of { IsReadOf self.old result }
    {
        let read = self.head_read();
        self.walk.hand_out_head();
        read
    }

    /// The read of the header.
    fn head_read(&self) -> HeadRead
        ensures of { IsReadOf self.now result }
        ensures at { IsReadFor self.now.walk result }
    {
        let bp = self.walk.pointer();
        if self.walk.is_claim() {
            return HeadRead::Claimed { bp };
        }
        let path = self.walk.path();
        HeadRead::Kept {
            bp,
            bytes: kept_at(self.heads.as_slice(), &path),
        }
    }

    /// The headers that go with the walk below a member, at this path.
    pub fn heads_below(&self, alloc: Global, path: &Path) -> Result<Vec<Head>, NoMemory>
        ensures { IfOk result (λ under. under.items ≡ filter (is_under path.now) self.now.heads.items) }
    {
        heads_under(alloc, self.heads.as_slice(), path)
    }

    /// The walk below a member is out, which takes the headers there.
    pub fn hand_out_below(
        &mut self,
        alloc: Global,
        tops: &[Top],
        member: MemberWalk,
        heads: Vec<Head>,
    ) -> HeadsWork
        requires step { ShowsWalk self.old.walk (WalkStep.Member member) }
        requires under { heads.items ≡ filter (is_under member.path) self.old.heads.items }
        ensures hands { (t : Terms) (x : Frame) → t.setting.tops ≡ tops.now → IsHeadsWork t self.old x
            → HandsBelow t self.new result x }
        ensures walk { self.new.walk ≡ with_members self.old.walk (self.old.walk.members ++ None ∷ []) }
        ensures slots { slots_of self.new.walk ≡ slots_of self.old.walk ++ IsOut None ∷ [] }
        ensures heads { self.new.heads.items ≡ filter (λ h. not (is_under member.path h)) self.old.heads.items }
        ensures below { result.walk
            ≡ fresh_walk self.old.walk.claim member.levels member.path member.bp result.walk.judged }
        ensures below_heads { result.heads ≡ heads }
        ensures judged { self.old.walk.claim ≡ true → result.walk.judged ≡ claim_error tops.now member.bp }
    {
        let walk = walk_below(alloc, tops, self.walk.is_claim(), member);
        drop_under(&mut self.heads, &member.path);
        self.walk.hand_out_member();
        HeadsWork { walk, heads }
    }

    /// The header was read, or failed. Where memory is refused the walk is as it was.
    pub fn hear_head(
        &mut self,
        alloc: Global,
        found: Result<[u8; 512], Errno>,
    ) -> Result<(), NoMemory>
        requires { slice_get (slots_of self.old.walk) 0 ≡ Some (IsOut None) }
        ensures heard { OnOk result ((t : Terms) (x : Frame) → IsHeadsWork t self.old x
            → IsHeadsWork t self.new (with_slot x 0 (Heard (Got found)))) }
        ensures walk { OnOk result (self.new.walk ≡ with_header self.old.walk (header_by found)) }
        ensures slots { OnOk result (slots_of self.new.walk
            ≡ slice_set (slots_of self.old.walk) 0 (Heard (Got found))) }
        ensures heads { self.new.heads ≡ self.old.heads }
        ensures err { OnErr result (self.new ≡ self.old) }
    {
        self.walk.hear_head(alloc, found)
    }

    /// The walk below a member, the operation with this number, ended and left this.
    pub fn hear_below(&mut self, n: usize, walked: Walked)
        requires behind { 0 < n }
        requires out { slice_get (slots_of self.old.walk) n ≡ Some (IsOut None) }
        ensures heard { (t : Terms) (x : Frame) → IsHeadsWork t self.old x
            → IsHeadsWork t self.new (with_slot x n (Heard (WalkedBy walked))) }
        ensures walk { self.new.walk
            ≡ with_members self.old.walk (slice_set self.old.walk.members (n - 1) (Some walked)) }
        ensures slots { slots_of self.new.walk ≡ slice_set (slots_of self.old.walk) ((n - 1) + 1)
            (Heard (WalkedBy walked)) }
        ensures heads { self.new.heads ≡ self.old.heads }
    {
        self.walk.hear_member(n - 1, walked);
    }

    /// What the walk left, where it ended, which it holds no longer. Where memory is refused it is as before.
    pub fn take_walked(&mut self, alloc: Global) -> Result<Walked, NoMemory>
        requires { ShowsWalk self.old.walk WalkStep.End }
        ensures walked { IfOk result (λ walked. (t : Terms) (x : Frame) → IsHeadsWork t self.old x → AllHeard x.slots
            × (left_of t x ≡ Ends (WalkedBy walked))) }
        ensures left { IfOk result (λ walked. walked ≡ walk_left self.old.walk) }
        ensures same { OnErr result (self.new ≡ self.old) }
    {
        let begun = HeadWalk::kept(alloc, 0, root(), self.walk.pointer());
        match replace(&mut self.walk, begun).into_walked(alloc) {
            Ok(walked) => Ok(walked),
            Err(walk) => {
                self.walk = walk;
                Err(NoMemory)
            }
        }
    }
}

/// The walk below a member.
fn walk_below(alloc: Global, tops: &[Top], claim: bool, member: MemberWalk) -> HeadWalk
    requires depth { length member.path + member.levels ≤ 8 }
    requires valid { IsTrue (valid member.bp) }
    ensures fresh { result ≡ fresh_walk claim member.levels member.path member.bp result.judged }
    ensures left { (t : Terms) (heads : Seq Head) → t.setting.tops ≡ tops.now →
        left_of_walk heads result ≡ plan t (ReadHeads (look_of claim heads) member.levels member.path member.bp) }
    ensures judged { claim ≡ true → result.judged ≡ claim_error tops.now member.bp }
{
    if claim {
        HeadWalk::claimed(alloc, tops, member.levels, member.path, member.bp)
    } else {
        HeadWalk::kept(alloc, member.levels, member.path, member.bp)
    }
}

/// The bytes of the first header at this path.
fn kept_at(heads: &[Head], path: &Path) -> Option<[u8; 512]>
    ensures { result ≡ kept_at heads.now path.now }
{
    for head in heads {
        if is_same_path(&head.path, path) {
            return Some(head.bytes);
        }
    }
    None
}

fn is_same_path(p: &Path, q: &Path) -> bool
    ensures { result ≡ bytes_eq p.now q.now }
{
    steps(p) == steps(q)
}

/// The headers at the path and below it.
fn heads_under(alloc: Global, heads: &[Head], path: &Path) -> Result<Vec<Head>, NoMemory>
    ensures { IfOk result (λ under. under.items ≡ filter (is_under path.now) heads.now) }
{
    let mut under = Vec::new(alloc);
    for head in heads {
        if is_under(path, head) {
            under.push(Head {
                path: head.path,
                bytes: head.bytes,
            })?;
        }
    }
    Ok(under)
}

/// Drops the headers at the path and below it.
fn drop_under(heads: &mut Vec<Head>, path: &Path)
    ensures { heads.new.items ≡ filter (λ h. not (is_under path.now h)) heads.old.items }
{
    heads.retain(|head| !is_under(path, head));
}

/// The header stands at the path or below it.
fn is_under(path: &Path, head: &Head) -> bool
    ensures { result ≡ is_under path.now head.now }
{
    steps(&head.path).starts_with(steps(path))
}

fn steps(path: &Path) -> &[u8]
    ensures { result.now ≡ path.now }
{
    &path.steps[..path.len as usize]
}
