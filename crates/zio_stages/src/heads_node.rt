//! The walk over a block's headers, or over a claim's, as a node: a gang child that works by children alone.
//!
//! A header is read by a child, and each member that it names is walked by another, which does the same one level down.
//! So the headers of a level are read beside each other, and no node keeps more than its own.

ghost use Rattle.std.specs.Prelude.{◌≡◌, ◌+◌, ◌<◌, ◌≤◌, IfOk, IsTrue, List as Seq, OnErr, OnOk, Option, Some, false, length, slice_get};
ghost use Rattle.std.specs.List.{AllByRecursion};
ghost use Rattle.zio_types.specs.declared.place.Top.{Top as SeenTop};
ghost use Rattle.zio_types.specs.declared.request.ChildKind.TheVariants.{Gang};
ghost use Rattle.zio_types.specs.declared.request.Phase.TheVariants.{Done};
ghost use Rattle.zio_blkptr.specs.declared.pointer.Bp.{Bp as SeenBp};
ghost use Rattle.zio_blkptr.specs.Pointers.{places_of, valid};
ghost use Rattle.zio_gang.specs.Attempts.{Terms};
ghost use Rattle.zio_trace.specs.Tasks.{ByClaim, ByKept, ReadHeads, Task, Value, WalkedBy};
ghost use Rattle.zio_frames.specs.Frames.{Child, Stack, fresh_stack};
ghost use Rattle.zio_frames.specs.Moves.{IsEnded, heard_early, heard_of};
ghost use Rattle.zio_frames.specs.Seats.{IsSeated};
ghost use Rattle.zio_parts.specs.HeadWalks.{ShowsWalk};
ghost use Rattle.zio_exchange.specs.Outcomes.{ClaimsInside};
ghost use Rattle.zio_stages.specs.CopiesNodes.{IsCopiesNode, IsCopiesOver};
ghost use Rattle.zio_stages.specs.Labels.{part_label};
ghost use Rattle.zio_stages.specs.HeadsNodes.{
  HearsBelow,
  HearsHead,
  HearsSomeBelow,
  HearsSomeHead,
  HearsSomeUntold,
  IsHeadOn,
  IsHeadsNode,
  IsHeadsOver,
  LiesOn,
  walk_kids_max,
};
ghost use Rattle.zio_stages.specs.HeadsWorks.{pointer_in, read_task};
ghost use Rattle.zio_stages.specs.OwnParts.{HandsTo, IsOwed};
ghost use Rattle.zio_stages.specs.Tops.{AreTops};
ghost use Rattle.zio_stages.specs.WriteIos.{AreIoPlaces};

use crate::check::Check;
use crate::copies_node::CopiesNode;
use crate::family::{Family, Seat};
use crate::heads::{HeadRead, HeadsWork};
use crate::named::Named;
use crate::pointer_places::places_of;
use std::alloc::Global;
use zio_blkptr::Bp;
use zio_exchange::Summed;
use zio_gang::Head;
use zio_parts::{MemberWalk, WalkStep, Walked};
use zio_types::{
    ChildKind, Errno, List, NoMemory, Path, Place, Prio, ReqNo, Role, SECTOR_SIZE, Top,
};

/// The walk over a block's headers, or over a claim's, from a pointer down.
#[derive(Drop)]
pub struct HeadsNode {
    work: HeadsWork,
    family: Family,
    name: Named,
    /// The class of the headers' reads.
    prio: Prio,
}

impl HeadsNode {
    /// The walk of a block, of which these headers are kept. Without memory; its children's is from `alloc`.
    pub fn kept(
        alloc: Global,
        levels: u32,
        path: Path,
        bp: Bp,
        heads: List<Head>,
        prio: Prio,
        name: Named,
    ) -> HeadsNode
        requires depth { length path + levels ≤ 8 }
        requires valid { IsTrue (valid bp) }
        requires named { name.path ≡ path }
        ensures fresh { (t : Terms) → IsHeadsNode t result (fresh_stack (ReadHeads (ByKept heads) levels path bp)) }
        ensures over { (tops : Seq SeenTop) → LiesOn tops bp → AllByRecursion (IsHeadOn tops) heads
            → IsHeadsOver tops result }
        ensures levels { result.work.walk.levels ≡ levels }
        ensures count { length result.family ≡ 0 }
    {
        HeadsNode {
            work: HeadsWork::kept(alloc, levels, path, bp, heads),
            family: Family::new(alloc),
            name,
            prio,
        }
    }

    /// The walk of a claim.
    pub fn claimed(
        alloc: Global,
        tops: &[Top],
        levels: u32,
        path: Path,
        bp: Bp,
        prio: Prio,
        name: Named,
    ) -> HeadsNode
        requires depth { length path + levels ≤ 8 }
        requires valid { IsTrue (valid bp) }
        requires named { name.path ≡ path }
        requires tops { AreTops tops.now }
        ensures fresh { (t : Terms) → t.setting.tops ≡ tops.now →
            IsHeadsNode t result (fresh_stack (ReadHeads ByClaim levels path bp)) }
        ensures over { IsHeadsOver tops.now result }
        ensures levels { result.work.walk.levels ≡ levels }
        ensures count { length result.family ≡ 0 }
    {
        HeadsNode {
            work: HeadsWork::claimed(alloc, tops, levels, path, bp),
            family: Family::new(alloc),
            name,
            prio,
        }
    }

    /// The number of the request for which it walks.
    pub fn request(&self) -> ReqNo
        ensures { result ≡ self.now.name.request }
    {
        self.name.request
    }

    /// The label of the node: it reads a header, and what stands below that is read by its children.
    pub fn label(&self) -> u64
        ensures { result ≡ part_label self.now.name 512 }
    {
        self.name.label(SECTOR_SIZE as usize)
    }

    /// Its children by number.
    pub fn family(&self) -> &Family
        ensures { result.now ≡ self.now.family }
    {
        &self.family
    }

    /// What comes next of the walk.
    pub fn next(&self) -> WalkStep
        ensures shows { ShowsWalk self.now.work.walk result }
        ensures waits { result ≡ WalkStep.Wait → (t : Terms) (st : Stack) → IsSeated st → IsHeadsNode t self.now st →
            IsOwed Gang Done st }
    {
        self.work.next()
    }

    /// Hands the read of the header, which is next, to a child. Where memory is refused the node is as before.
    pub fn hand_out_head(&mut self, alloc: Global, tops: &[Top]) -> Result<CopiesNode, NoMemory>
        requires over { IsHeadsOver tops.now self.old }
        requires step { ShowsWalk self.old.work.walk WalkStep.ReadHead }
        ensures hands { IfOk result (λ child. (t : Terms) (st : Stack) → t.setting.tops ≡ tops.now →
            IsHeadsNode t self.old st →
            HandsTo t Gang (λ op. IsCopiesNode t child (fresh_stack op)) (IsHeadsNode t self.new) st) }
        ensures over { IsHeadsOver tops.now self.new }
        ensures child_over { IfOk result (IsCopiesOver tops.now) }
        ensures count { OnOk result (length self.new.family ≡ length self.old.family + 1) }
        ensures few { OnOk result (length self.new.family ≤ walk_kids_max) }
        ensures levels { self.new.work.walk.levels ≡ self.old.work.walk.levels }
        ensures fresh { IfOk result (λ child. child.io.asked ≡ 0) }
        ensures err { OnErr result (self.new ≡ self.old) }
    {
        let places = places_of(alloc, &self.work.pointer())?;
        let name = self.name.with_role(Role::Head);
        let label = name.label(SECTOR_SIZE as usize);
        self.family.add(ChildKind::Gang, Seat::Outer(0), label)?;
        let read = self.work.hand_out_head();
        Ok(reading(alloc, tops, read, places, self.prio, name))
    }

    /// Hands the walk below a member, which is next, to a child. Where memory is refused the node is as before.
    pub fn hand_out_below(
        &mut self,
        alloc: Global,
        tops: &[Top],
        member: MemberWalk,
    ) -> Result<HeadsNode, NoMemory>
        requires over { IsHeadsOver tops.now self.old }
        requires step { ShowsWalk self.old.work.walk (WalkStep.Member member) }
        ensures hands { IfOk result (λ child. (t : Terms) (st : Stack) → t.setting.tops ≡ tops.now →
            IsHeadsNode t self.old st →
            HandsTo t Gang (λ op. IsHeadsNode t child (fresh_stack op)) (IsHeadsNode t self.new) st) }
        ensures over { IsHeadsOver tops.now self.new }
        ensures child_over { IfOk result (IsHeadsOver tops.now) }
        ensures count { OnOk result (length self.new.family ≡ length self.old.family + 1) }
        ensures few { OnOk result (length self.new.family ≤ walk_kids_max) }
        ensures levels { self.new.work.walk.levels ≡ self.old.work.walk.levels }
        ensures below { IfOk result (λ child. child.work.walk.levels + 1 ≡ self.old.work.walk.levels) }
        ensures fresh { IfOk result (λ child. length child.family ≡ 0) }
        ensures err { OnErr result (self.new ≡ self.old) }
    {
        let heads = self.work.heads_below(alloc, &member.path)?;
        let name = self.name.at(member.path, Role::Head);
        let seat = Seat::Outer(usize::from(member.n) + 1);
        self.family
            .add(ChildKind::Gang, seat, name.label(SECTOR_SIZE as usize))?;
        let work = self.work.hand_out_below(alloc, tops, member, heads);
        Ok(HeadsNode {
            work,
            family: Family::new(alloc),
            name,
            prio: self.prio,
        })
    }

    /// A child told that its value has no pointer.
    pub fn arrive_ready(&mut self, child: usize)
        requires { HearsSomeUntold self.old child }
        ensures told { (t : Terms) (st : Stack) (c : Child) (pointer : Option SeenBp) → IsHeadsNode t self.old st →
            IsSeated st →
            slice_get st.children child ≡ Some c → c.ended ≡ false → c.told ≡ false →
            IsHeadsNode t self.new (heard_early st child c pointer) }
        ensures over { (tops : Seq SeenTop) → IsHeadsOver tops self.old → IsHeadsOver tops self.new }
        ensures count { length self.new.family ≡ length self.old.family }
        ensures levels { self.new.work.walk.levels ≡ self.old.work.walk.levels }
    {
        self.family.tell(child);
    }

    /// The child that reads the header ended: with the header's bytes, or with an error. Where memory is refused the
    /// node is as before.
    pub fn arrive_head(
        &mut self,
        alloc: Global,
        tops: &[Top],
        child: usize,
        found: &Result<Summed, Errno>,
    ) -> Result<(), NoMemory>
        requires over { IsHeadsOver tops.now self.old }
        requires awaited { HearsSomeHead tops.now self.old child found.now }
        ensures heard { OnOk result ((t : Terms) (st : Stack) (c : Child) (op : Task) (v : Value) →
            HearsHead t tops.now self.old st child c op v found.now → IsHeadsNode t self.new (heard_of st child c v)) }
        ensures over { IsHeadsOver tops.now self.new }
        ensures count { length self.new.family ≡ length self.old.family }
        ensures levels { self.new.work.walk.levels ≡ self.old.work.walk.levels }
        ensures err { OnErr result (self.new ≡ self.old) }
    {
        self.work.hear_head(alloc, header_of(found))?;
        self.family.end(child);
        Ok(())
    }

    /// The child that walks below a member ended, and left this.
    pub fn arrive_below(&mut self, tops: &[Top], child: usize, walked: Walked)
        requires over { IsHeadsOver tops.now self.old }
        requires awaited { HearsSomeBelow tops.now self.old child walked }
        ensures heard { (t : Terms) (st : Stack) (c : Child) (op : Task) (v : Value) →
            HearsBelow t tops.now self.old st child c op v walked → IsHeadsNode t self.new (heard_of st child c v) }
        ensures over { IsHeadsOver tops.now self.new }
        ensures count { length self.new.family ≡ length self.old.family }
        ensures levels { self.new.work.walk.levels ≡ self.old.work.walk.levels }
    {
        let n = self.family.seat(child).number();
        self.work.hear_below(n, walked);
        self.family.end(child);
    }

    /// What the walk left, where it ended, which it holds no longer. Where memory is refused the node is as before.
    pub fn take_walked(&mut self, alloc: Global) -> Result<Walked, NoMemory>
        requires { ShowsWalk self.old.work.walk WalkStep.End }
        ensures walked { IfOk result (λ walked. (t : Terms) (st : Stack) → IsHeadsNode t self.old st →
            IsEnded t st (WalkedBy walked) × ClaimsInside t st.outer.op walked) }
        ensures same { OnErr result (self.new ≡ self.old) }
    {
        self.work.take_walked(alloc)
    }
}

/// The node that reads a header at these places.
fn reading(
    alloc: Global,
    tops: &[Top],
    read: HeadRead,
    places: List<Place>,
    prio: Prio,
    name: Named,
) -> CopiesNode
    requires io { AreIoPlaces tops.now places }
    requires some { 0 < length places }
    requires valid { IsTrue (valid (pointer_in read)) }
    requires at { places ≡ places_of (pointer_in read) }
    ensures fresh { (t : Terms) → t.setting.tops ≡ tops.now → IsCopiesNode t result (fresh_stack (read_task read)) }
    ensures over { IsCopiesOver tops.now result }
    ensures count { result.io.asked ≡ 0 }
{
    let len = SECTOR_SIZE as usize;
    match read {
        HeadRead::Kept { bytes, .. } => {
            let check = Check::kept(bytes);
            CopiesNode::new(alloc, tops, places, len, true, check, prio, name)
        }
        HeadRead::Claimed { bp } => {
            let check = Check::claimed(bp);
            CopiesNode::new(alloc, tops, places, len, false, check, prio, name)
        }
    }
}

/// What was read of a header, which has 512 bytes.
fn header_of(found: &Result<Summed, Errno>) -> Result<[u8; 512], Errno>
    requires { IfOk found.now (λ bytes. length bytes ≡ 512) }
    ensures { result ≡ found.now }
{
    match found {
        Ok(bytes) => match bytes.as_slice().first_chunk::<512>() {
            Some(header) => Ok(*header),
            None => unreachable!(),
        },
        Err(error) => Err(*error),
    }
}
