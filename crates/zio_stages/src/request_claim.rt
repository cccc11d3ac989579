//! A claim in an attempt.
//!
//! Once its children were all handed out, the node walks over the headers of the block that its bytes point to. Where
//! no header failed the block's places are taken, all together or none.

ghost use Rattle.std.specs.Prelude.{◌≡◌, ◌<◌, [], IfOk, IfSome, Ok, List as Seq, None, OnErr, OnOk, Option, Some, false, length, slice_get, true};
ghost use Rattle.zio_types.specs.declared.place.Top.{Top as SeenTop};
ghost use Rattle.zio_types.specs.declared.request.Phase.TheVariants.{Done};
ghost use Rattle.zio_blkptr.specs.declared.pointer.Bp.{Bp};
ghost use Rattle.zio_gang.specs.declared.tree.Tree.{Tree as SeenTree};
ghost use Rattle.zio_gang.specs.Attempts.{Terms};
ghost use Rattle.zio_trace.specs.Tasks.{WalkedBy};
ghost use Rattle.zio_frames.specs.Frames.{Child, Stack};
ghost use Rattle.zio_frames.specs.Moves.{heard_early, heard_of};
ghost use Rattle.zio_frames.specs.Seats.{IsSeated};
ghost use Rattle.zio_exchange.specs.SpaceCalls.{IsClaimAtMost, SpaceCall};
ghost use Rattle.zio_stages.specs.OwnClaims.{LiesWalked, own_claimed};
ghost use Rattle.zio_stages.specs.OwnFounds.{own_got};
ghost use Rattle.zio_stages.specs.OwnParts.{DoesThen, IsOwed};
ghost use Rattle.zio_stages.specs.RequestClaims.{HasEndedClaim, IsClaimWith, IsClaimWork, IsClaimingWith, IsDueOrClaim, IsPastDue, IsPastWalk, IsWalkDue};
ghost use Rattle.zio_stages.specs.RequestKinds.{has_gang_stages};
ghost use Rattle.zio_stages.specs.RequestNodes.{IsOwnOver, IsRequestNode};
ghost use Rattle.zio_stages.specs.RequestOwns.{IsOwnSeat};
ghost use Rattle.zio_stages.specs.RequestReads.{HandsWalk, HasFound, IsWalkOver, IsWholeWalk};
ghost use Rattle.zio_stages.specs.RequestStages.{with_own};
ghost use Rattle.zio_stages.specs.Tops.{AreTops};
ghost use Rattle.zio_stages.specs.declared.own_claim.ClaimStep.{ClaimStep as SeenStep};

use crate::heads_node::HeadsNode;
use crate::own_claim::{ClaimStep, OwnClaim};
use crate::request_free::failed;
use crate::request_name::headers_name;
use crate::request_node::{Own, OwnFound, RequestNode};
use std::alloc::Global;
use std::mem::replace;
use zio_exchange::Services;
use zio_gang::{LEVELS_MAX, Tree};
use zio_parts::Walked;
use zio_script::Work;
use zio_types::{ChildKind, Errno, List, NoMemory, Prio, SECTOR_SIZE, Top};

impl RequestNode {
    /// Begins the claim of the block that the request's bytes point to, once its children were all handed out. The walk
    /// from a plain pointer opens and closes at once, and a gang's is due; bytes that are no pointer have none. Where
    /// memory is refused all is as before.
    pub fn claim_init(&mut self, alloc: Global, tops: &[Top]) -> Result<(), NoMemory>
        requires due { self.old.own ≡ Own.Due }
        requires handed { self.old.kids.kids.handed ≡ length self.old.kids.kids.kids }
        requires claim { IsClaimWork self.old.waiting.request.work }
        ensures does { OnOk result ((t : Terms) (st : Stack) → t.setting.tops ≡ tops.now → IsRequestNode t self.old st →
            DoesThen t st [] (IsRequestNode t self.new)) }
        ensures over { IsOwnOver tops.now self.old.own self.old.family
            → IsOwnOver tops.now self.new.own self.new.family }
        ensures claims { OnOk result (IsClaimingWith (λ w. Unit {0}) self.new.own) }
        ensures plain { OnOk result (has_gang_stages self.old.waiting.request.work self.old.waiting.block ≡ false →
            IsClaimWith (λ w. IsPastWalk w.block w.step) self.new.own) }
        ensures waiting { self.new.waiting ≡ self.old.waiting }
        ensures rest { self.new ≡ with_own self.old self.new.own self.new.family }
        ensures err { OnErr result (self.new ≡ self.old) }
    {
        let Work::Claim { pointer, .. } = &self.waiting.request.work else {
            unreachable!()
        };
        let mut own = OwnClaim::new(alloc, pointer);
        own.claim_init(alloc, tops)?;
        self.own = Own::Claim(own);
        Ok(())
    }

    /// Begins the claim, if it hasn't begun. Where memory is refused all is as before.
    pub fn begin_claim(&mut self, alloc: Global, tops: &[Top]) -> Result<(), NoMemory>
        requires begun { IsDueOrClaim self.old.own }
        requires handed { self.old.kids.kids.handed ≡ length self.old.kids.kids.kids }
        requires claim { IsClaimWork self.old.waiting.request.work }
        ensures does { OnOk result ((t : Terms) (st : Stack) → t.setting.tops ≡ tops.now → IsRequestNode t self.old st →
            DoesThen t st [] (IsRequestNode t self.new)) }
        ensures over { IsOwnOver tops.now self.old.own self.old.family
            → IsOwnOver tops.now self.new.own self.new.family }
        ensures claims { OnOk result (IsClaimWith (λ w. Unit {0}) self.new.own) }
        ensures still { IsClaimWith (λ w. Unit {0}) self.old.own → self.new ≡ self.old }
        ensures plain { OnOk result (self.old.own ≡ Own.Due →
            has_gang_stages self.old.waiting.request.work self.old.waiting.block ≡ false →
            IsClaimWith (λ w. IsPastWalk w.block w.step) self.new.own) }
        ensures rest { self.new ≡ with_own self.old self.new.own self.new.family }
        ensures err { OnErr result (self.new ≡ self.old) }
    {
        match &self.own {
            Own::Due => self.claim_init(alloc, tops),
            _ => Ok(()),
        }
    }

    /// Whether the walk over a gang's headers is due.
    pub fn is_walk_due_claim(&self) -> bool
        ensures due { result ≡ true → IsClaimingWith (λ w. IsWalkDue w.block w.step) self.now.own }
        ensures none { result ≡ false → IsClaimWith (λ w. Unit {0}) self.now.own →
            IsClaimWith (λ w. IsPastDue w.block w.step) self.now.own }
    {
        match &self.own {
            Own::Claim(own) => own.due_pointer().is_some(),
            _ => false,
        }
    }

    /// Hands the walk over a gang's headers to a child, if it is due. Where memory is refused all is as before.
    pub fn gang_assemble_claim(
        &mut self,
        alloc: Global,
        tops: &[Top],
    ) -> Result<Option<HeadsNode>, NoMemory>
        requires claims { IsClaimWith (λ w. Unit {0}) self.old.own }
        requires attempt { self.old.attempt < 4 }
        requires tops { AreTops tops.now }
        requires over { IsOwnOver tops.now self.old.own self.old.family }
        ensures hands { IfOk result (λ child. (t : Terms) (st : Stack) → t.setting.tops ≡ tops.now →
            IsRequestNode t self.old st →
            HandsWalk t child (IsRequestNode t self.new) st) }
        ensures child_over { IfOk result (IsWalkOver tops.now) }
        ensures whole { IfOk result (λ child. IfSome child IsWholeWalk) }
        ensures goes { IfOk result
            (λ child. IfSome child (λ child. IsClaimingWith (λ w. IsWalkDue w.block w.step) self.old.own ×
            IsClaimingWith (λ w. IsPastDue w.block w.step) self.new.own)) }
        ensures still { result ≡ Ok None → self.new ≡ self.old }
        ensures begun { result ≡ Ok None → IsClaimWith (λ w. IsPastDue w.block w.step) self.new.own }
        ensures claims { IsClaimWith (λ w. Unit {0}) self.new.own }
        ensures over { IsOwnOver tops.now self.new.own self.new.family }
        ensures waiting { self.new.waiting ≡ self.old.waiting }
        ensures rest { self.new ≡ with_own self.old self.new.own self.new.family }
        ensures err { OnErr result (self.new ≡ self.old) }
    {
        let name = headers_name(&self.waiting, self.attempt);
        let Own::Claim(own) = &mut self.own else {
            return Ok(None);
        };
        let Some(bp) = own.due_pointer() else {
            return Ok(None);
        };
        let front = self.kids.len();
        own.gang_assemble(&mut self.family, front, name.label(SECTOR_SIZE as usize))?;
        Ok(Some(HeadsNode::claimed(alloc, tops, LEVELS_MAX, name.path, bp, Prio::SyncRead, name)))
    }

    /// Whether the gang child that walks over the headers has to end first; `None` where the walk has ended.
    pub fn gang_issue_claim(&self) -> Option<ChildKind>
        ensures wait { (kind : ChildKind) → result ≡ Some kind → (t : Terms) (st : Stack) → IsSeated st →
            IsRequestNode t self.now st →
            IsOwed kind Done st }
        ensures kind { (kind : ChildKind) → result ≡ Some kind → kind ≡ ChildKind.Gang }
        ensures walked { result ≡ None → IsClaimWith (λ w. IsPastDue w.block w.step) self.now.own →
            IsClaimWith (λ w. IsPastWalk w.block w.step) self.now.own }
    {
        match &self.own {
            Own::Claim(own) => match &own.block {
                Some(_) => match own.step {
                    ClaimStep::Out => Some(ChildKind::Gang),
                    ClaimStep::Due
                    | ClaimStep::Failed(_)
                    | ClaimStep::Found
                    | ClaimStep::Taken
                    | ClaimStep::Refused => None,
                },
                None => None,
            },
            _ => None,
        }
    }

    /// Takes the places of the block, where its walk found it. Where memory is refused none is taken, and the same call
    /// tries again.
    pub fn dva_claim<S: Services>(
        &mut self,
        alloc: Global,
        services: &mut S,
    ) -> Result<(), NoMemory>
        requires { IsOwnOver (S.tops services.old) self.old.own self.old.family }
        ensures does { (calls : Seq SpaceCall) × S.made services.old calls services.new
            × ((t : Terms) (st : Stack) → IsRequestNode t self.old st → DoesThen t st calls (IsRequestNode t self.new))
            × IsClaimAtMost calls }
        ensures ended { OnOk result (IsClaimWith (λ w. IsPastWalk w.block w.step) self.old.own
            → IsClaimWith HasEndedClaim self.new.own) }
        ensures over { IsOwnOver (S.tops services.old) self.new.own self.new.family }
        ensures waiting { self.new.waiting ≡ self.old.waiting }
        ensures rest { self.new ≡ with_own self.old self.new.own self.new.family }
        ensures tops { S.tops services.new ≡ S.tops services.old }
    {
        let Own::Claim(own) = &mut self.own else {
            return Ok(());
        };
        own.dva_claim(alloc, services)
    }

    /// What the claim came to takes its place.
    pub fn end_claim(&mut self, alloc: Global)
        requires { IsClaimWith HasEndedClaim self.old.own }
        ensures ends { (t : Terms) (st : Stack) → IsRequestNode t self.old st → IsRequestNode t self.new st }
        ensures found { HasFound self.new.own }
        ensures over { (tops : Seq SeenTop) → IsOwnOver tops self.old.own self.old.family
            → IsOwnOver tops self.new.own self.new.family }
        ensures kids { self.new.kids ≡ self.old.kids }
        ensures rest { self.new ≡ with_own self.old self.new.own self.new.family }
    {
        match replace(&mut self.own, Own::Over) {
            Own::Claim(own) => {
                let found = own.into_claimed();
                self.own = Own::Found(claimed(alloc, found));
            }
            Own::Found(found) => self.own = Own::Found(found),
            Own::Due | Own::Write(_) | Own::Stored(_) | Own::Read(_) | Own::Free(_) | Own::Over =>
                unreachable!(),
        }
    }

    /// The gang child that walked over the headers has ended, and left this: where it met no error all places of the
    /// block lie on the tops.
    pub fn arrive_walked_claim(&mut self, tops: &[Top], child: usize, walked: Walked)
        requires seat { IsOwnSeat self.old child 0 }
        requires out { IsClaimingWith (λ w. w.step ≡ SeenStep.Out) self.old.own }
        requires over { IsOwnOver tops.now self.old.own self.old.family }
        requires lies { IsClaimingWith (λ w. (tree : SeenTree) × (w.block ≡ Some tree)
            × LiesWalked tops.now tree.bp walked) self.old.own }
        ensures heard { (t : Terms) (st : Stack) (c : Child) → slice_get st.children child ≡ Some c →
            IsRequestNode t self.old st →
            IsRequestNode t self.new (heard_of st child c (WalkedBy walked)) }
        ensures past { IsClaimingWith (λ w. IsPastWalk w.block w.step) self.new.own }
        ensures over { IsOwnOver tops.now self.new.own self.new.family }
        ensures waiting { self.new.waiting ≡ self.old.waiting }
        ensures rest { self.new ≡ with_own self.old self.new.own self.new.family }
    {
        match &mut self.own {
            Own::Claim(own) => own.arrive_walked(&mut self.family, tops, child, walked),
            _ => unreachable!(),
        }
    }

    /// That child told that it has no pointer.
    pub fn arrive_ready_claim(&mut self, child: usize)
        requires seat { IsOwnSeat self.old child 0 }
        requires out { IsClaimingWith (λ w. w.step ≡ SeenStep.Out) self.old.own }
        requires some { IsClaimingWith (λ w. (tree : SeenTree) × (w.block ≡ Some tree)) self.old.own }
        ensures told { (t : Terms) (st : Stack) (c : Child) (pointer : Option Bp) →
            slice_get st.children child ≡ Some c →
            IsRequestNode t self.old st → IsRequestNode t self.new (heard_early st child c pointer) }
        ensures over { (tops : Seq SeenTop) → IsOwnOver tops self.old.own self.old.family
            → IsOwnOver tops self.new.own self.new.family }
        ensures own { self.new.own ≡ self.old.own }
        ensures waiting { self.new.waiting ≡ self.old.waiting }
        ensures rest { self.new ≡ with_own self.old self.new.own self.new.family }
    {
        match &self.own {
            Own::Claim(own) => own.arrive_ready(&mut self.family, child),
            _ => unreachable!(),
        }
    }
}

/// What a claim came to that took this block's places, or that has this error.
fn claimed(alloc: Global, found: Result<Tree, Errno>) -> OwnFound
    ensures { own_got result ≡ own_claimed found }
{
    match found {
        Ok(tree) => OwnFound {
            error: None,
            bytes: List::new(alloc),
            tree: Some(tree),
            pointer: None,
        },
        Err(error) => failed(alloc, Some(error)),
    }
}
