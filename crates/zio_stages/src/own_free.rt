// A free's own work behind other operations of its node's part.

ghost use Rattle.std.specs.Prelude.{◌≡◌, ◌<◌, ◌≤◌, List, None, Ok, Option, Some, [], true, false, OnErr, OnOk, length, slice_get};
ghost use Rattle.zio_types.specs.declared.error.Errno.{Errno as SeenErrno};
ghost use Rattle.zio_types.specs.declared.place.Top.{Top as SeenTop};
ghost use Rattle.zio_types.specs.declared.request.ChildKind.TheVariants.{Gang};
ghost use Rattle.zio_blkptr.specs.declared.pointer.Bp.{Bp as SeenBp};
ghost use Rattle.zio_gang.specs.declared.tree.Tree.{Tree};
ghost use Rattle.zio_gang.specs.Attempts.{Terms};
ghost use Rattle.zio_trace.specs.Plans.{only, plan_free};
ghost use Rattle.zio_trace.specs.Programs.{Ends};
ghost use Rattle.zio_trace.specs.Tasks.{Task, WalkedBy};
ghost use Rattle.zio_frames.specs.Frames.{Child, OfOuter, Stack};
ghost use Rattle.zio_frames.specs.Moves.{heard_early, heard_of};
ghost use Rattle.zio_frames.specs.Slots.{AllHeard, Slot, left_behind_slots};
ghost use Rattle.zio_exchange.specs.SpaceCalls.{GivesBack};
ghost use Rattle.zio_stages.specs.NodeIos.{NoneSits};
ghost use Rattle.zio_stages.specs.OwnFrees.{IsOwnFree};
ghost use Rattle.zio_stages.specs.OwnParts.{DoesThen, GoesOnAs, HandsTo, IsBehind};
ghost use Rattle.zio_stages.specs.TreeWorks.{heads_task};
ghost use Rattle.zio_stages.specs.declared.family.Layer.TheVariants.{Within};

use crate::at_once::block_at_once;
use crate::family::{Family, Seat};
use crate::give_back::give_back;
use std::alloc::Global;
use zio_blkptr::Bp;
use zio_exchange::Services;
use zio_parts::Walked;
use zio_types::{ChildKind, Errno, NoMemory, Place};

/// How far the walk over the headers is.
#[derive(Clone, Copy, Debug)]
pub(crate) enum FreeWalk {
    Due,
    Out,
    /// With the worst of its errors.
    Ended(Option<Errno>),
}

/// The free of a block: the walk over its headers, and then its places are given back one by one, where no header
/// failed.
#[derive(Drop)]
pub(crate) struct OwnFree {
    pub(crate) walk: FreeWalk,
    /// How many of the block's places were given back.
    given: usize,
}

impl OwnFree {
    /// Nothing of it is asked.
    pub(crate) fn new() -> OwnFree
        ensures fresh { (family : List Child) (tree : Tree) (front_asked : List Task) (front : List Slot) (st : Stack) →
            family ≡ st.children → IsBehind front_asked front [] [] st → st.inner ≡ None
            → IsOwnFree result.walk family tree front_asked front st }
        ensures given { result.given ≡ 0 }
        ensures due { result.walk ≡ FreeWalk.Due }
    {
        OwnFree {
            walk: FreeWalk::Due,
            given: 0,
        }
    }

    /// The walk from the block's pointer opens and closes at once, and this is true; from a gang's it is a child's.
    pub(crate) fn free_bp_init(&mut self, alloc: Global, bp: Bp) -> Result<bool, NoMemory>
        requires { self.old.walk ≡ FreeWalk.Due }
        ensures walks { result ≡ Ok true →
            (t : Terms) (tops : List SeenTop) (family : List Child) (tree : Tree) (front_asked : List Task)
            (front : List Slot) (st : Stack) →
            tree.bp ≡ bp → GoesOnAs t tops (plan_free (Some tree)) front st →
            IsOwnFree self.old.walk family tree front_asked front st →
            DoesThen t st [] (IsOwnFree self.new.walk family tree front_asked front) }
        ensures gang { result ≡ Ok false → self.new ≡ self.old }
        ensures asks { result ≡ Ok false → bp.gang ≡ true }
        ensures walked { result ≡ Ok true → (e : Option SeenErrno) × (self.new.walk ≡ FreeWalk.Ended e) }
        ensures given { self.new.given ≡ self.old.given }
        ensures err { OnErr result (self.new ≡ self.old) }
    {
        let Some(walked) = block_at_once(alloc, bp)? else {
            return Ok(false);
        };
        self.walk = FreeWalk::Ended(walked.error());
        Ok(true)
    }

    /// The walk is a gang child's, which is added, behind so many operations of the node's part. Where memory is
    /// refused nothing is.
    pub(crate) fn gang_assemble(
        &mut self,
        family: &mut Family,
        front: usize,
        label: u64,
    ) -> Result<(), NoMemory>
        requires due { self.old.walk ≡ FreeWalk.Due }
        ensures hands { OnOk result ((t : Terms) (tops : List SeenTop) (tree : Tree) (front_asked : List Task)
            (before : List Slot) (st : Stack) → length before ≡ front →
            GoesOnAs t tops (plan_free (Some tree)) before st →
            IsOwnFree self.old.walk family.old tree front_asked before st →
            HandsTo t Gang (λ op. op ≡ heads_task tree)
            (IsOwnFree self.new.walk family.new tree front_asked before) st) }
        ensures given { self.new.given ≡ self.old.given }
        ensures out { OnOk result (self.new.walk ≡ FreeWalk.Out) }
        ensures sits { OnOk result (NoneSits Within family.old → NoneSits Within family.new) }
        ensures err { OnErr result (self.new ≡ self.old) }
        ensures family_err { OnErr result (family.new ≡ family.old) }
    {
        family.add(ChildKind::Gang, Seat::Outer(front), label)?;
        self.walk = FreeWalk::Out;
        Ok(())
    }

    /// The child told that it has no pointer.
    pub(crate) fn arrive_ready(&self, family: &mut Family, child: usize)
        requires child { child < length family.old }
        requires out { self.now.walk ≡ FreeWalk.Out }
        ensures sits { NoneSits Within family.old → NoneSits Within family.new }
        ensures told { (tree : Tree) (front_asked : List Task) (before : List Slot) (st : Stack) (c : Child)
            (pointer : Option SeenBp) →
            slice_get st.children child ≡ Some c → c.seat ≡ OfOuter (length before) →
            IsOwnFree self.now.walk family.old tree front_asked before st →
            IsOwnFree self.now.walk family.new tree front_asked before (heard_early st child c pointer) }
    {
        family.tell(child);
    }

    /// The walk ended, and left this.
    pub(crate) fn arrive_walked(&mut self, family: &mut Family, child: usize, walked: Walked)
        requires child { child < length family.old }
        requires out { self.old.walk ≡ FreeWalk.Out }
        ensures heard { (tree : Tree) (front_asked : List Task) (before : List Slot) (st : Stack) (c : Child) →
            slice_get st.children child ≡ Some c → c.seat ≡ OfOuter (length before) →
            IsOwnFree self.old.walk family.old tree front_asked before st →
            IsOwnFree self.new.walk family.new tree front_asked before (heard_of st child c (WalkedBy walked)) }
        ensures sits { NoneSits Within family.old → NoneSits Within family.new }
        ensures walked { (e : Option SeenErrno) × (self.new.walk ≡ FreeWalk.Ended e) }
        ensures given { self.new.given ≡ self.old.given }
    {
        self.walk = FreeWalk::Ended(walked.error());
        family.end(child);
    }

    /// Gives back the places of the block, where no header failed, from the first that wasn't given back. Its part asks
    /// nothing for that.
    pub(crate) fn dva_free<S: Services>(
        &mut self,
        services: &mut S,
        places: &[Place],
    ) -> Result<(), NoMemory>
        requires { self.old.given ≤ length places.now }
        ensures gives { GivesBack S.made places.now self.old.given self.new.given services.old services.new }
        ensures all { OnOk result (self.old.walk ≡ FreeWalk.Ended None → self.new.given ≡ length places.now) }
        ensures none { (e : SeenErrno) → self.old.walk ≡ FreeWalk.Ended (Some e) → self.new.given ≡ self.old.given }
        ensures within { self.new.given ≤ length places.now }
        ensures same { self.new.walk ≡ self.old.walk }
        ensures tops { S.tops services.new ≡ S.tops services.old }
    {
        match self.walk {
            FreeWalk::Ended(None) => give_back(services, places, &mut self.given),
            FreeWalk::Ended(Some(_)) | FreeWalk::Due | FreeWalk::Out => Ok(()),
        }
    }

    /// The worst of the walk's errors, where it ended.
    pub(crate) fn error(&self) -> Option<Errno>
        requires { (e : Option SeenErrno) × (self.now.walk ≡ FreeWalk.Ended e) }
        ensures was { self.now.walk ≡ FreeWalk.Ended result }
        ensures ends { (family : List Child) (tree : Tree) (front_asked : List Task) (front : List Slot) (st : Stack)
            (h : IsOwnFree self.now.walk family tree front_asked front st) →
            AllHeard h.slots × (left_behind_slots h.slots (plan_free (Some tree)) ≡ Ends (only result)) }
    {
        match self.walk {
            FreeWalk::Ended(error) => error,
            FreeWalk::Due | FreeWalk::Out => unreachable!(),
        }
    }
}
