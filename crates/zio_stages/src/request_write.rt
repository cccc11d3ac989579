//! A write in an attempt.
//!
//! A write's content begins with its children's pointers, so its own work waits until each of them told its own. Then
//! its block is written as one part, behind the operations for the children.

ghost use Rattle.std.specs.Prelude.{◌≡◌, ◌+◌, IfErr, IfOk, IfSome, IsTrue, List as Seq, Ok, OnErr, OnOk, Option, Some, length, false, true};
ghost use Rattle.std.specs.List.{list_all};
ghost use Rattle.zio_types.specs.declared.place.Top.{Top as SeenTop};
ghost use Rattle.zio_types.specs.declared.request.Phase.TheVariants.{Done, Ready};
ghost use Rattle.zio_blkptr.specs.Pointers.{valid};
ghost use Rattle.zio_blkptr.specs.declared.pointer.Bp.{Bp};
ghost use Rattle.zio_gang.specs.Attempts.{Terms};
ghost use Rattle.zio_children.specs.RequestKids.{is_ended};
ghost use Rattle.zio_frames.specs.Frames.{Stack};
ghost use Rattle.zio_frames.specs.Moves.{WillHave};
ghost use Rattle.zio_frames.specs.Seats.{IsSeated};
ghost use Rattle.zio_stages.specs.KidPointers.{HaveValidPointers};
ghost use Rattle.zio_stages.specs.OwnParts.{IsOwed};
ghost use Rattle.zio_stages.specs.BlocksAhead.{IsBlockAhead};
ghost use Rattle.zio_stages.specs.WrittenBlocks.{HaveAllTold, IsSoundWrite};
ghost use Rattle.zio_stages.specs.RequestNodes.{IsOwnOver, IsRequestNode};
ghost use Rattle.zio_stages.specs.RequestStages.{with_own};
ghost use Rattle.zio_stages.specs.RequestWrites.{IsBegunWrite, IsEndOf, IsPlacedWrite, IsReadyWrite, IsWrittenWrite};
ghost use Rattle.zio_stages.specs.RequestStoreds.{IsStoredWith, given_by};
ghost use Rattle.zio_stages.specs.StoredBlocks.{IsGoingBack};

use crate::own_write::{OwnWrite, block_of};
use crate::part_work::PartWork;
use crate::request_node::{DoneStep, Own, ReadyStep, RequestNode};
use crate::stored_block::StoredBlock;
use std::alloc::Global;
use zio_types::{ChildKind, NoMemory};

/// The block of a write as it is to be written: its content, and the sum of that.
#[derive(Drop)]
pub struct Block {
    pub(crate) work: PartWork,
}

/// Whether a write's content could be set.
#[derive(Clone, Copy, Debug, PartialEq, Eq)]
pub enum Content {
    /// A child of this kind hasn't told its pointer.
    Wait(ChildKind),
    Set,
}

impl RequestNode {
    /// Sets the content of a write whose children were all handed out, once each told its pointer. Where memory is
    /// refused all is as before.
    pub fn write_compress(&mut self, alloc: Global) -> Result<Content, NoMemory>
        requires due { self.old.own ≡ Own.Due }
        requires handed { self.old.kids.kids.handed ≡ length self.old.kids.kids.kids }
        requires sound { IsSoundWrite (length self.old.kids.kids.kids + length self.old.kids.kids.kept)
            self.old.waiting }
        requires valid { HaveValidPointers self.old.kids.kids }
        ensures wait { (kind : ChildKind) → result ≡ Ok (Content.Wait kind) → (t : Terms) (st : Stack) → IsSeated st →
            IsRequestNode t self.old st →
            IsOwed kind Ready st }
        ensures kind { (kind : ChildKind) → result ≡ Ok (Content.Wait kind) → kind ≡ ChildKind.Logical }
        ensures waits { (kind : ChildKind) → result ≡ Ok (Content.Wait kind) → self.new ≡ self.old }
        ensures set { result ≡ Ok Content.Set → (t : Terms) (st : Stack) → IsRequestNode t self.old st
            → IsRequestNode t self.new st }
        ensures over { (tops : Seq SeenTop) → IsOwnOver tops self.old.own self.old.family
            → IsOwnOver tops self.new.own self.new.family }
        ensures begun { result ≡ Ok Content.Set → IsBegunWrite self.new.own }
        ensures rest { self.new ≡ with_own self.old self.new.own self.old.family }
        ensures err { OnErr result (self.new ≡ self.old) }
    {
        if !self.kids.kids().all_told() {
            return Ok(Content::Wait(ChildKind::Logical));
        }
        let block = self.block(alloc)?;
        self.set_block(block);
        Ok(Content::Set)
    }

    /// The block of a write whose children were all handed out, and each told its pointer. `None` where one hasn't, and
    /// for want of memory.
    pub fn block_ahead(&self, alloc: Global) -> Option<Block>
        requires handed { self.now.kids.kids.handed ≡ length self.now.kids.kids.kids }
        requires sound { IsSoundWrite (length self.now.kids.kids.kids + length self.now.kids.kids.kept)
            self.now.waiting }
        requires valid { HaveValidPointers self.now.kids.kids }
        ensures { IfSome result (IsBlockAhead self.now) }
    {
        if !self.kids.kids().all_told() {
            return None;
        }
        match self.block(alloc) {
            Ok(block) => Some(block),
            Err(NoMemory) => None,
        }
    }

    /// The block of a write whose children all told their pointers: its content, and the sum of that.
    fn block(&self, alloc: Global) -> Result<Block, NoMemory>
        requires told { HaveAllTold self.now.kids.kids }
        requires sound { IsSoundWrite (length self.now.kids.kids.kids + length self.now.kids.kids.kept)
            self.now.waiting }
        requires valid { HaveValidPointers self.now.kids.kids }
        ensures { IfOk result (IsBlockAhead self.now) }
    {
        let kids = self.kids.kids();
        let work = block_of(alloc, &self.waiting, kids, self.round, self.attempt)?;
        Ok(Block { work })
    }

    /// Sets the content of a write to what was reckoned of it before.
    pub fn set_block(&mut self, block: Block)
        requires due { self.old.own ≡ Own.Due }
        requires fits { IsBlockAhead self.old block }
        ensures set { (t : Terms) (st : Stack) → IsRequestNode t self.old st → IsRequestNode t self.new st }
        ensures over { (tops : Seq SeenTop) → IsOwnOver tops self.old.own self.old.family
            → IsOwnOver tops self.new.own self.new.family }
        ensures begun { IsBegunWrite self.new.own }
        ensures rest { self.new ≡ with_own self.old self.new.own self.old.family }
    {
        let Block { work } = block;
        self.own = Own::Write(OwnWrite { work });
    }

    /// Whether a write can tell its pointer, once its block's places were asked for and its members handed out.
    pub fn ready_write(&self) -> ReadyStep
        requires { IsPlacedWrite self.now.own }
        ensures wait { (kind : ChildKind) → result ≡ ReadyStep.Wait kind → (t : Terms) (st : Stack) → IsSeated st →
            IsRequestNode t self.now st →
            IsOwed kind Ready st }
        ensures kind { (kind : ChildKind) → result ≡ ReadyStep.Wait kind → kind ≡ ChildKind.Gang }
        ensures tell { (pointer : Option Bp) → result ≡ ReadyStep.Tell pointer → (t : Terms) (st : Stack) →
            IsRequestNode t self.now st →
            WillHave t st.outer pointer }
        ensures valid { (pointer : Option Bp) → result ≡ ReadyStep.Tell pointer
            → IfSome pointer (λ bp. IsTrue (valid bp)) }
        ensures ready { (pointer : Option Bp) → result ≡ ReadyStep.Tell pointer → IsReadyWrite self.now.own }
    {
        let Own::Write(own) = &self.own else {
            unreachable!()
        };
        own.work.ready()
    }

    /// Whether all that a write asked has ended, once the copies of its block or its header have.
    pub fn done_write(&self) -> DoneStep
        requires { IsWrittenWrite self.now.own }
        ensures wait { (kind : ChildKind) → result ≡ DoneStep.Wait kind → (t : Terms) (st : Stack) → IsSeated st →
            IsRequestNode t self.now st →
            self.now.kids.kids.handed ≡ length self.now.kids.kids.kids → IsOwed kind Done st }
        ensures close { result ≡ DoneStep.Close → IsEndOf self.now.own
            × (list_all is_ended self.now.kids.kids.kids ≡ true) }
    {
        let Own::Write(own) = &self.own else {
            unreachable!()
        };
        match own.work.done() {
            DoneStep::Wait(kind) => DoneStep::Wait(kind),
            DoneStep::Close => self.done_null(),
        }
    }

    /// What the write of its block came to takes the place of that. Where memory is refused all is as before.
    pub fn end_write(&mut self, alloc: Global) -> Result<(), NoMemory>
        requires { IsEndOf self.old.own }
        ensures ends { OnOk result ((t : Terms) (st : Stack) → IsRequestNode t self.old st
            → IsRequestNode t self.new st) }
        ensures stored { OnOk result (IsStoredWith IsGoingBack self.new.own) }
        ensures none { OnOk result (given_by self.new.own ≡ 0) }
        ensures over { OnOk result ((tops : Seq SeenTop) → IsOwnOver tops self.old.own self.old.family
            → IsOwnOver tops self.new.own self.new.family) }
        ensures rest { self.new ≡ with_own self.old self.new.own self.old.family }
        ensures err { OnErr result (self.new ≡ self.old) }
    {
        let Own::Write(OwnWrite { work }) = &mut self.own else {
            unreachable!()
        };
        let stored = work.take_stored(alloc)?;
        self.own = Own::Stored(StoredBlock::of(alloc, stored));
        Ok(())
    }
}
