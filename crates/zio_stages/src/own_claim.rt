// A claim's own work behind other operations of its node's part.

ghost use Rattle.std.specs.Prelude.{◌≡◌, ◌-◌, ◌^◌, ◌<◌, List, None, Ok, Option, Some, [], true, false, IfSome, IsSome, OnErr, OnOk, length, slice_get};
ghost use Rattle.zio_types.specs.declared.place.Top.{Top as SeenTop};
ghost use Rattle.zio_types.specs.declared.request.ChildKind.TheVariants.{Gang};
ghost use Rattle.zio_blkptr.specs.declared.pointer.Bp.{Bp as SeenBp};
ghost use Rattle.zio_blkptr.specs.Pointers.{pointer_of};
ghost use Rattle.zio_gang.specs.declared.tree.Tree.{Tree as SeenTree};
ghost use Rattle.zio_gang.specs.Attempts.{Terms};
ghost use Rattle.zio_trace.specs.Plans.{plan_claim};
ghost use Rattle.zio_trace.specs.Programs.{Ends};
ghost use Rattle.zio_trace.specs.Tasks.{Task, WalkedBy};
ghost use Rattle.zio_frames.specs.Frames.{Child, OfOuter, Stack};
ghost use Rattle.zio_frames.specs.Moves.{heard_early, heard_of};
ghost use Rattle.zio_frames.specs.Slots.{AllHeard, Slot, left_behind_slots};
ghost use Rattle.zio_exchange.specs.SpaceCalls.{IsClaimAtMost, SpaceCall};
ghost use Rattle.zio_stages.specs.NodeIos.{NoneSits};
ghost use Rattle.zio_stages.specs.OwnClaims.{HasClaimEnded, IsBlockOf, IsClaimOver, IsOwnClaim, LiesWalked, claim_task, own_claimed, taken_by};
ghost use Rattle.zio_stages.specs.OwnParts.{DoesThen, GoesOnAs, HandsTo, IsBehind};
ghost use Rattle.zio_stages.specs.RequestClaims.{IsPastDue, IsPastWalk};
ghost use Rattle.zio_stages.specs.StoredBlocks.{block_places};
ghost use Rattle.zio_stages.specs.declared.family.Layer.TheVariants.{Within};

use crate::at_once::claim_at_once;
use crate::family::{Family, Seat};
use std::alloc::Global;
use zio_blkptr::{Bp, decode};
use zio_exchange::{Services, Unclaimed};
use zio_gang::Tree;
use zio_parts::Walked;
use zio_types::{ChildKind, Errno, NoMemory, Top};

/// How far a claim is.
#[derive(Clone, Copy, Debug)]
pub(crate) enum ClaimStep {
    Due,
    Out,
    /// The walk ended with this error.
    Failed(Errno),
    /// The walk ended, and the block's places are to be taken.
    Found,
    /// They were taken.
    Taken,
    /// One of them wasn't free, or two meet.
    Refused,
}

/// The claim of a block: the walk over its headers, and then its places are taken, all together or none.
#[derive(Drop)]
pub(crate) struct OwnClaim {
    /// The block of the pointer, with its headers once the walk ended without error; none where the bytes are no
    /// pointer.
    pub(crate) block: Option<Tree>,
    pub(crate) step: ClaimStep,
}

impl OwnClaim {
    /// Nothing of it is asked. These are the bytes of the pointer.
    pub(crate) fn new(alloc: Global, bytes: &[u8; 128]) -> OwnClaim
        ensures fresh { (family : List Child) (front_asked : List Task) (front : List Slot) (st : Stack) →
            family ≡ st.children → IsBehind front_asked front [] [] st → st.inner ≡ None →
            IsOwnClaim result family (pointer_of bytes.now) front_asked front st }
        ensures over { (tops : List SeenTop) → IsClaimOver tops result }
        ensures due { result.step ≡ ClaimStep.Due }
        ensures block { IsBlockOf (pointer_of bytes.now) result.block }
    {
        OwnClaim {
            block: block_of(alloc, bytes),
            step: ClaimStep::Due,
        }
    }

    /// The walk from the pointer opens and closes at once, and this is true; from a gang's it is a child's. Bytes that
    /// are no pointer have no walk.
    pub(crate) fn claim_init(&mut self, alloc: Global, tops: &[Top]) -> Result<bool, NoMemory>
        requires due { self.old.step ≡ ClaimStep.Due }
        requires over { IsClaimOver tops.now self.old }
        ensures walks { result ≡ Ok true →
            (t : Terms) (family : List Child) (pointer : Option SeenBp) (front_asked : List Task) (front : List Slot)
            (st : Stack) →
            GoesOnAs t tops.now (plan_claim pointer) front st →
            IsOwnClaim self.old family pointer front_asked front st →
            DoesThen t st [] (IsOwnClaim self.new family pointer front_asked front) }
        ensures gang { result ≡ Ok false → self.new ≡ self.old }
        ensures asks { result ≡ Ok false → IfSome self.old.block (λ tree. tree.bp.gang ≡ true) }
        ensures some { result ≡ Ok false → IsSome self.old.block }
        ensures past { result ≡ Ok true → IsPastWalk self.new.block self.new.step }
        ensures over { IsClaimOver tops.now self.new }
        ensures err { OnErr result (self.new ≡ self.old) }
    {
        let Some(tree) = &self.block else {
            return Ok(true);
        };
        let bp = tree.bp;
        let Some(walked) = claim_at_once(alloc, tops, bp)? else {
            return Ok(false);
        };
        match walked.into_claimed(bp) {
            Ok(tree) => {
                self.block = Some(tree);
                self.step = ClaimStep::Found;
                Ok(true)
            }
            Err(error) => {
                self.step = ClaimStep::Failed(error);
                Ok(true)
            }
        }
    }

    /// The pointer whose walk is due, if one is.
    pub(crate) fn due_pointer(&self) -> Option<Bp>
        ensures due { IfSome result (λ bp. (self.now.step ≡ ClaimStep.Due)
            × ((tree : SeenTree) × (self.now.block ≡ Some tree) × (tree.bp ≡ bp))) }
        ensures none { result ≡ None → IsPastDue self.now.block self.now.step }
    {
        match self.step {
            ClaimStep::Due => match &self.block {
                Some(tree) => Some(tree.bp),
                None => None,
            },
            ClaimStep::Out
            | ClaimStep::Failed(_)
            | ClaimStep::Found
            | ClaimStep::Taken
            | ClaimStep::Refused => None,
        }
    }

    /// The walk is a gang child's, which is added, behind so many operations of the node's part. Where memory is
    /// refused nothing is.
    pub(crate) fn gang_assemble(
        &mut self,
        family: &mut Family,
        front: usize,
        label: u64,
    ) -> Result<(), NoMemory>
        requires due { self.old.step ≡ ClaimStep.Due }
        requires some { IsSome self.old.block }
        ensures hands { OnOk result ((t : Terms) (tops : List SeenTop) (bp : SeenBp) (front_asked : List Task)
            (before : List Slot) (st : Stack) → length before ≡ front →
            GoesOnAs t tops (plan_claim (Some bp)) before st →
            IsOwnClaim self.old family.old (Some bp) front_asked before st →
            HandsTo t Gang (λ op. op ≡ claim_task bp)
            (IsOwnClaim self.new family.new (Some bp) front_asked before) st) }
        ensures over { (tops : List SeenTop) → IsClaimOver tops self.old → IsClaimOver tops self.new }
        ensures out { OnOk result ((self.new.step ≡ ClaimStep.Out) × (self.new.block ≡ self.old.block)) }
        ensures sits { OnOk result (NoneSits Within family.old → NoneSits Within family.new) }
        ensures err { OnErr result (self.new ≡ self.old) }
        ensures family_err { OnErr result (family.new ≡ family.old) }
    {
        family.add(ChildKind::Gang, Seat::Outer(front), label)?;
        self.step = ClaimStep::Out;
        Ok(())
    }

    /// The child told that it has no pointer.
    pub(crate) fn arrive_ready(&self, family: &mut Family, child: usize)
        requires child { child < length family.old }
        requires out { self.now.step ≡ ClaimStep.Out }
        ensures sits { NoneSits Within family.old → NoneSits Within family.new }
        ensures told { (bp : SeenBp) (front_asked : List Task) (before : List Slot) (st : Stack) (c : Child)
            (pointer : Option SeenBp) →
            slice_get st.children child ≡ Some c → c.seat ≡ OfOuter (length before) →
            IsOwnClaim self.now family.old (Some bp) front_asked before st →
            IsOwnClaim self.now family.new (Some bp) front_asked before (heard_early st child c pointer) }
    {
        family.tell(child);
    }

    /// The walk ended, and left this: where it met no error all places of the block lie on the tops.
    pub(crate) fn arrive_walked(
        &mut self,
        family: &mut Family,
        tops: &[Top],
        child: usize,
        walked: Walked,
    )
        requires child { child < length family.old }
        requires out { self.old.step ≡ ClaimStep.Out }
        requires over { IsClaimOver tops.now self.old }
        requires lies { (tree : SeenTree) × (self.old.block ≡ Some tree) × LiesWalked tops.now tree.bp walked }
        ensures heard { (bp : SeenBp) (front_asked : List Task) (before : List Slot) (st : Stack) (c : Child) →
            slice_get st.children child ≡ Some c → c.seat ≡ OfOuter (length before) →
            IsOwnClaim self.old family.old (Some bp) front_asked before st →
            IsOwnClaim self.new family.new (Some bp) front_asked before (heard_of st child c (WalkedBy walked)) }
        ensures over { IsClaimOver tops.now self.new }
        ensures past { IsPastWalk self.new.block self.new.step }
        ensures sits { NoneSits Within family.old → NoneSits Within family.new }
    {
        family.end(child);
        let bp = match &self.block {
            Some(tree) => tree.bp,
            None => unreachable!(),
        };
        match walked.into_claimed(bp) {
            Ok(tree) => {
                self.block = Some(tree);
                self.step = ClaimStep::Found;
            }
            Err(error) => self.step = ClaimStep::Failed(error),
        }
    }

    /// Takes the places of the block, where its walk found it. Where memory is refused nothing is.
    pub(crate) fn dva_claim<S: Services>(
        &mut self,
        alloc: Global,
        services: &mut S,
    ) -> Result<(), NoMemory>
        requires { IsClaimOver (S.tops services.old) self.old }
        ensures does { (calls : List SpaceCall) × S.made services.old calls services.new
            × ((t : Terms) (tops : List SeenTop) (family : List Child) (pointer : Option SeenBp)
            (front_asked : List Task) (front : List Slot) (st : Stack) →
            GoesOnAs t tops (plan_claim pointer) front st → IsOwnClaim self.old family pointer front_asked front st →
            DoesThen t st calls (IsOwnClaim self.new family pointer front_asked front)) × IsClaimAtMost calls }
        ensures over { IsClaimOver (S.tops services.old) self.new }
        ensures ended { OnOk result (IsPastWalk self.old.block self.old.step
            → HasClaimEnded self.new.block self.new.step) }
        ensures tops { S.tops services.new ≡ S.tops services.old }
    {
        let ClaimStep::Found = self.step else {
            return Ok(());
        };
        let Some(tree) = &self.block else {
            return Ok(());
        };
        let places = tree.places(alloc)?;
        match services.claim(places.as_slice()) {
            Ok(()) => {
                self.step = ClaimStep::Taken;
                Ok(())
            }
            Err(Unclaimed::Taken) => {
                self.step = ClaimStep::Refused;
                Ok(())
            }
            Err(Unclaimed::Memory) => Err(NoMemory),
        }
    }

    /// The block whose places were taken, or its error, where it ended.
    pub(crate) fn into_claimed(self) -> Result<Tree, Errno>
        requires { HasClaimEnded self.block self.step }
        ensures took { taken_by self.block self.step ≡ block_places (own_claimed result).tree }
        ensures ends { (family : List Child) (pointer : Option SeenBp) (front_asked : List Task) (front : List Slot)
            (st : Stack)
            (h : IsOwnClaim self family pointer front_asked front st) →
            AllHeard h.slots × (left_behind_slots h.slots (plan_claim pointer) ≡ Ends (own_claimed result)) }
    {
        let OwnClaim { block, step } = self;
        let Some(tree) = block else {
            return Err(Errno::Inval);
        };
        match step {
            ClaimStep::Taken => Ok(tree),
            ClaimStep::Failed(error) => Err(error),
            ClaimStep::Refused => Err(Errno::Exist),
            ClaimStep::Due | ClaimStep::Out | ClaimStep::Found => unreachable!(),
        }
    }
}

/// The block that the bytes point to, without its headers; none where they are no pointer.
fn block_of(alloc: Global, bytes: &[u8; 128]) -> Option<Tree>
    ensures { IsBlockOf (pointer_of bytes.now) result }
{
    match decode(bytes) {
        Ok(bp) => Some(Tree::plain(alloc, bp)),
        Err(_) => None,
    }
}
