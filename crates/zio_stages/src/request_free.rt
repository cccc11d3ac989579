//! A free in an attempt.
//!
//! Once its children were all handed out, the node walks over the headers of the block that it names. Where no header
//! failed the block's places go back one by one.

ghost use Rattle.std.specs.Prelude.{◌≡◌, ◌<◌, [], IfOk, IfSome, List as Seq, None, Ok, OnErr, OnOk, Option, Some, false, length, slice_get, true};
ghost use Rattle.zio_types.specs.declared.error.Errno.{Errno as SeenErrno};
ghost use Rattle.zio_types.specs.declared.place.Top.{Top as SeenTop};
ghost use Rattle.zio_types.specs.declared.request.ChildKind.TheVariants.{Gang};
ghost use Rattle.zio_types.specs.declared.request.Phase.TheVariants.{Done};
ghost use Rattle.zio_blkptr.specs.declared.pointer.Bp.{Bp};
ghost use Rattle.zio_gang.specs.Attempts.{Terms};
ghost use Rattle.zio_trace.specs.Plans.{only};
ghost use Rattle.zio_trace.specs.Tasks.{WalkedBy};
ghost use Rattle.zio_frames.specs.Frames.{Child, Stack};
ghost use Rattle.zio_frames.specs.Moves.{heard_early, heard_of};
ghost use Rattle.zio_frames.specs.Seats.{IsSeated};
ghost use Rattle.zio_exchange.specs.SpaceCalls.{GivesBack};
ghost use Rattle.zio_stages.specs.OwnFounds.{own_got};
ghost use Rattle.zio_stages.specs.OwnParts.{DoesThen, IsOwed};
ghost use Rattle.zio_stages.specs.RequestFrees.{FreesOn, HasBegun, HasFreed, HasKeptFailed, HasWalked, IsFreeWith, IsFreeWork, IsFreeing, IsFreeingWith, freed_by};
ghost use Rattle.zio_stages.specs.RequestKinds.{is_gang_tree};
ghost use Rattle.zio_stages.specs.RequestNodes.{IsOwnOver, IsRequestNode};
ghost use Rattle.zio_stages.specs.RequestOwns.{IsOwnSeat, IsWaitingOver};
ghost use Rattle.zio_stages.specs.RequestReads.{HandsWalk, HasFound, IsWalkOver, IsWholeWalk, found_error};
ghost use Rattle.zio_stages.specs.RequestStages.{with_own};
ghost use Rattle.zio_stages.specs.StoredBlocks.{block_places};
ghost use Rattle.zio_stages.specs.declared.own_free.FreeWalk.{FreeWalk as SeenWalk};

use crate::heads_node::HeadsNode;
use crate::own_free::{FreeWalk, OwnFree};
use crate::request_name::headers_name;
use crate::request_node::{Own, OwnFound, RequestNode};
use crate::request_read::heads_again;
use crate::stored_block::places_of;
use std::alloc::Global;
use zio_exchange::Services;
use zio_gang::LEVELS_MAX;
use zio_parts::Walked;
use zio_types::{ChildKind, Errno, List, NoMemory, Prio, SECTOR_SIZE};

impl RequestNode {
    /// Begins the free of the block that the request names, once its children were all handed out. The walk from a
    /// plain pointer opens and closes at once, and a gang's is due. Where the request names none it has ended with
    /// `NOENT`. Where memory is refused all is as before.
    pub fn free_bp_init(&mut self, alloc: Global) -> Result<(), NoMemory>
        requires due { self.old.own ≡ Own.Due }
        requires handed { self.old.kids.kids.handed ≡ length self.old.kids.kids.kids }
        requires free { IsFreeWork self.old.waiting.request.work }
        ensures does { OnOk result ((t : Terms) (st : Stack) → IsRequestNode t self.old st
            → DoesThen t st [] (IsRequestNode t self.new)) }
        ensures over { (tops : Seq SeenTop) → IsOwnOver tops self.old.own self.old.family
            → IsOwnOver tops self.new.own self.new.family }
        ensures frees { OnOk result (IsFreeWith (IsFreeing self.new.waiting.block) self.new.own) }
        ensures none { OnOk result (freed_by self.new.own ≡ 0) }
        ensures missing { OnOk result (HasFound self.new.own → found_error self.new.own ≡ Some Errno.Noent) }
        ensures plain { OnOk result (is_gang_tree self.old.waiting.block ≡ false → IsFreeWith HasWalked self.new.own) }
        ensures waiting { self.new.waiting ≡ self.old.waiting }
        ensures rest { self.new ≡ with_own self.old self.new.own self.new.family }
        ensures err { OnErr result (self.new ≡ self.old) }
    {
        let Some(tree) = &self.waiting.block else {
            self.own = Own::Found(failed(alloc, Some(Errno::Noent)));
            return Ok(());
        };
        let bp = tree.bp;
        let mut own = OwnFree::new();
        own.free_bp_init(alloc, bp)?;
        self.own = Own::Free(own);
        Ok(())
    }

    /// Whether the walk over a gang's headers is due.
    pub fn is_walk_due_free(&self) -> bool
        ensures due { result ≡ true → IsFreeingWith (λ w. w.walk ≡ SeenWalk.Due) self.now.own }
        ensures none { result ≡ false → is_gang_tree self.now.waiting.block ≡ true →
            IsFreeWith (λ w. Unit {0}) self.now.own → IsFreeWith (λ w. HasBegun w.walk) self.now.own }
    {
        let Own::Free(own) = &self.own else {
            return false;
        };
        let FreeWalk::Due = own.walk else {
            return false;
        };
        self.waiting.block.is_some()
    }

    /// Hands the walk over a gang's headers to a child, if it is due. Where memory is refused all is as before.
    pub fn gang_assemble_free(&mut self, alloc: Global) -> Result<Option<HeadsNode>, NoMemory>
        requires frees { IsFreeWith (IsFreeing self.old.waiting.block) self.old.own }
        requires attempt { self.old.attempt < 4 }
        requires on { (tops : Seq SeenTop) × IsWaitingOver tops self.old.waiting }
        ensures hands { IfOk result (λ child. (t : Terms) (st : Stack) → IsRequestNode t self.old st
            → HandsWalk t child (IsRequestNode t self.new) st) }
        ensures child_over { IfOk result (λ child. (tops : Seq SeenTop) → IsWaitingOver tops self.old.waiting
            → IsWalkOver tops child) }
        ensures over { (tops : Seq SeenTop) → IsOwnOver tops self.old.own self.old.family
            → IsOwnOver tops self.new.own self.new.family }
        ensures frees { IsFreeWith (IsFreeing self.new.waiting.block) self.new.own }
        ensures whole { IfOk result (λ child. IfSome child IsWholeWalk) }
        ensures goes { IfOk result
            (λ child. IfSome child (λ child. IsFreeingWith (λ w. w.walk ≡ SeenWalk.Due) self.old.own ×
            IsFreeingWith (λ w. w.walk ≡ SeenWalk.Out) self.new.own)) }
        ensures still { result ≡ Ok None → self.new ≡ self.old }
        ensures begun { result ≡ Ok None → is_gang_tree self.old.waiting.block ≡ true
            → IsFreeWith (λ w. HasBegun w.walk) self.new.own }
        ensures given { freed_by self.new.own ≡ freed_by self.old.own }
        ensures waiting { self.new.waiting ≡ self.old.waiting }
        ensures rest { self.new ≡ with_own self.old self.new.own self.new.family }
        ensures err { OnErr result (self.new ≡ self.old) }
    {
        let name = headers_name(&self.waiting, self.attempt);
        let Own::Free(own) = &mut self.own else {
            return Ok(None);
        };
        let FreeWalk::Due = own.walk else {
            return Ok(None);
        };
        let Some(tree) = &self.waiting.block else {
            return Ok(None);
        };
        let front = self.kids.len();
        let heads = heads_again(alloc, tree.heads.as_slice())?;
        own.gang_assemble(&mut self.family, front, name.label(SECTOR_SIZE as usize))?;
        Ok(Some(HeadsNode::kept(
            alloc,
            LEVELS_MAX,
            name.path,
            tree.bp,
            heads,
            Prio::SyncRead,
            name,
        )))
    }

    /// Whether the gang child that walks over the headers has to end first; `None` where the walk has ended.
    pub fn gang_issue_free(&self) -> Option<ChildKind>
        ensures wait { (kind : ChildKind) → result ≡ Some kind → (t : Terms) (st : Stack) → IsSeated st →
            IsRequestNode t self.now st →
            IsOwed kind Done st }
        ensures kind { (kind : ChildKind) → result ≡ Some kind → kind ≡ ChildKind.Gang }
        ensures walked { result ≡ None → IsFreeWith (λ w. HasBegun w.walk) self.now.own
            → IsFreeWith HasWalked self.now.own }
    {
        match &self.own {
            Own::Free(own) => match own.walk {
                FreeWalk::Out => Some(ChildKind::Gang),
                FreeWalk::Due | FreeWalk::Ended(_) => None,
            },
            _ => None,
        }
    }

    /// Gives the places of the block back, where no header failed, from the first that didn't go back. Where memory is
    /// refused some of them went back, and the same call goes on from there.
    pub fn dva_free<S: Services>(&mut self, alloc: Global, services: &mut S) -> Result<(), NoMemory>
        requires walked { IsFreeWith HasWalked self.old.own }
        requires frees { IsFreeWith (IsFreeing self.old.waiting.block) self.old.own }
        requires on { (tops : Seq SeenTop) × IsWaitingOver tops self.old.waiting }
        ensures gives { GivesBack S.made (block_places self.old.waiting.block) (freed_by self.old.own)
            (freed_by self.new.own) services.old services.new }
        ensures freed { OnOk result (IsFreeWith (HasFreed self.new.waiting.block) self.new.own) }
        ensures goes { FreesOn self.old.own self.new.own }
        ensures failed { IsFreeWith HasKeptFailed self.old.own → IsFreeWith HasKeptFailed self.new.own }
        ensures frees { IsFreeWith (IsFreeing self.new.waiting.block) self.new.own }
        ensures same { (t : Terms) (st : Stack) → IsRequestNode t self.old st → IsRequestNode t self.new st }
        ensures over { (tops : Seq SeenTop) → IsOwnOver tops self.old.own self.old.family
            → IsOwnOver tops self.new.own self.new.family }
        ensures waiting { self.new.waiting ≡ self.old.waiting }
        ensures rest { self.new ≡ with_own self.old self.new.own self.new.family }
        ensures tops { S.tops services.new ≡ S.tops services.old }
    {
        let Own::Free(own) = &mut self.own else {
            return Ok(());
        };
        let places = places_of(alloc, &self.waiting.block)?;
        own.dva_free(services, places.as_slice())
    }

    /// What the free came to takes its place, once the block's places went back where they were to.
    pub fn end_free(&mut self, alloc: Global)
        requires { IsFreeWith (HasFreed self.old.waiting.block) self.old.own }
        ensures ends { (t : Terms) (st : Stack) → IsRequestNode t self.old st → IsRequestNode t self.new st }
        ensures found { HasFound self.new.own }
        ensures error { IsFreeWith (λ w. (e : Option SeenErrno) → w.walk ≡ SeenWalk.Ended e
            → found_error self.new.own ≡ e) self.old.own }
        ensures still { HasFound self.old.own → self.new ≡ self.old }
        ensures over { (tops : Seq SeenTop) → IsOwnOver tops self.old.own self.old.family
            → IsOwnOver tops self.new.own self.new.family }
        ensures kids { self.new.kids ≡ self.old.kids }
        ensures rest { self.new ≡ with_own self.old self.new.own self.new.family }
    {
        let Own::Free(own) = &self.own else {
            return;
        };
        let error = own.error();
        self.own = Own::Found(failed(alloc, error));
    }

    /// The gang child that walked over the block's headers has ended, and left this.
    pub fn arrive_walked_free(&mut self, child: usize, walked: Walked)
        requires seat { IsOwnSeat self.old child 0 }
        requires out { IsFreeingWith (λ w. w.walk ≡ SeenWalk.Out) self.old.own }
        ensures heard { (t : Terms) (st : Stack) (c : Child) → slice_get st.children child ≡ Some c →
            IsRequestNode t self.old st →
            IsRequestNode t self.new (heard_of st child c (WalkedBy walked)) }
        ensures walked { IsFreeingWith HasWalked self.new.own }
        ensures over { (tops : Seq SeenTop) → IsOwnOver tops self.old.own self.old.family
            → IsOwnOver tops self.new.own self.new.family }
        ensures given { freed_by self.new.own ≡ freed_by self.old.own }
        ensures waiting { self.new.waiting ≡ self.old.waiting }
        ensures rest { self.new ≡ with_own self.old self.new.own self.new.family }
    {
        match &mut self.own {
            Own::Free(own) => own.arrive_walked(&mut self.family, child, walked),
            _ => unreachable!(),
        }
    }

    /// That child told that it has no pointer.
    pub fn arrive_ready_free(&mut self, child: usize)
        requires seat { IsOwnSeat self.old child 0 }
        requires out { IsFreeingWith (λ w. w.walk ≡ SeenWalk.Out) self.old.own }
        ensures told { (t : Terms) (st : Stack) (c : Child) (pointer : Option Bp) →
            slice_get st.children child ≡ Some c →
            IsRequestNode t self.old st → IsRequestNode t self.new (heard_early st child c pointer) }
        ensures over { (tops : Seq SeenTop) → IsOwnOver tops self.old.own self.old.family
            → IsOwnOver tops self.new.own self.new.family }
        ensures own { self.new.own ≡ self.old.own }
        ensures waiting { self.new.waiting ≡ self.old.waiting }
        ensures rest { self.new ≡ with_own self.old self.new.own self.new.family }
    {
        match &self.own {
            Own::Free(own) => own.arrive_ready(&mut self.family, child),
            _ => unreachable!(),
        }
    }
}

/// What came to nothing but this error, or to none.
pub(crate) fn failed(alloc: Global, error: Option<Errno>) -> OwnFound
    ensures { own_got result ≡ only error }
{
    OwnFound {
        error,
        bytes: List::new(alloc),
        tree: None,
        pointer: None,
    }
}
