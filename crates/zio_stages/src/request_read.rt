//! A read in an attempt.
//!
//! Once its children were all handed out, the block that it names is read: the walk over its headers, and then its
//! bodies. Of a block that is no gang the node does both itself, as parts within its own; a gang's headers and bodies
//! are its children's.

ghost use Rattle.std.specs.Prelude.{◌≡◌, ◌<◌, [], IfOk, IfSome, List as Seq, None, Ok, OnErr, OnOk, Option, Some, false, length, true};
ghost use Rattle.std.specs.List.{list_all};
ghost use Rattle.zio_types.specs.declared.place.Top.{Top as SeenTop};
ghost use Rattle.zio_types.specs.declared.request.ChildKind.TheVariants.{Gang, Vdev};
ghost use Rattle.zio_types.specs.declared.request.Phase.TheVariants.{Done};
ghost use Rattle.zio_gang.specs.Attempts.{Terms};
ghost use Rattle.zio_trace.specs.Plans.{own_read_by};
ghost use Rattle.zio_children.specs.RequestKids.{is_ended};
ghost use Rattle.zio_frames.specs.Frames.{Stack, fresh_stack};
ghost use Rattle.zio_frames.specs.Seats.{IsSeated};
ghost use Rattle.zio_stages.specs.LeafWorks.{IsDue};
ghost use Rattle.zio_stages.specs.NodeIos.{StartsBy};
ghost use Rattle.zio_stages.specs.OwnFounds.{own_got};
ghost use Rattle.zio_stages.specs.CopiesNodes.{IsCopiesNode, IsCopiesOver};
ghost use Rattle.zio_stages.specs.OwnParts.{DoesThen, HandsTo, IsOwed};
ghost use Rattle.zio_stages.specs.RequestKinds.{is_gang_tree};
ghost use Rattle.zio_stages.specs.RequestNodes.{IsOwnOver, IsRequestNode};
ghost use Rattle.zio_stages.specs.RequestOwns.{IsWaitingOver};
ghost use Rattle.zio_stages.specs.RequestReads.{HandsWalk, HasFound, HasReadEnded, IsAlone, IsBodyDue, IsBodyNext, IsReadWith, IsReadWork, IsReadingWith, IsWalkOver, IsWholeWalk, ReadsOn, has_read_failed};
ghost use Rattle.zio_stages.specs.ReadCounts.{AssessesBody, HandsOutBody, HandsOutWalk, HasHandedAll, HasOneBody, HasWalkBegun, IsMoreToRead, IsNoneDue, IsOneDue, IsUnread, IsWalkDue, StartsBody};
ghost use Rattle.zio_stages.specs.RequestStages.{with_own};

use crate::attempted::RequestKids;
use crate::check::Check;
use crate::copies_node::CopiesNode;
use crate::family::Family;
use crate::heads_node::HeadsNode;
use crate::leaf::LeafWork;
use crate::node_io::IoNext;
use crate::own_read::OwnRead;
use crate::pointer_places::places_of;
use crate::request_kind::is_gang_tree;
use crate::request_name::{body_name, headers_name};
use crate::request_node::{DoneStep, Own, OwnFound, RequestNode};
use std::alloc::Global;
use std::mem::replace;
use zio_gang::{Head, LEVELS_MAX};
use zio_parts::{BodyRead, TreeStep, Walked};
use zio_script::Work;
use zio_types::{Bytes, ChildKind, Errno, List, NoMemory, Prio, Role, SECTOR_SIZE, Top};

/// What comes next of a gang's bodies.
#[derive(Clone, Copy, Debug)]
pub enum BodyStage {
    /// This one is to be read.
    Body(BodyRead),
    /// A gang child has to end first.
    Wait,
    /// There is no body to be handed out.
    On,
}

/// Whether all that a read asked has ended.
#[derive(Clone, Copy, Debug, PartialEq, Eq)]
pub enum ReadDone {
    /// A child of this kind hasn't.
    Wait(ChildKind),
    /// More of the block is to be read.
    More,
    /// It has.
    Close,
}

impl RequestNode {
    /// Begins the read of the block that the request names, once its children were all handed out. The walk from a
    /// plain pointer opens and closes at once, and a gang's is due. Where the request names none it has ended with
    /// `NOENT`. Where memory is refused all is as before.
    pub fn read_bp_init(&mut self, alloc: Global) -> Result<(), NoMemory>
        requires due { self.old.own ≡ Own.Due }
        requires handed { self.old.kids.kids.handed ≡ length self.old.kids.kids.kids }
        requires read { IsReadWork self.old.waiting.request.work }
        ensures does { OnOk result ((t : Terms) (st : Stack) → IsRequestNode t self.old st
            → DoesThen t st [] (IsRequestNode t self.new)) }
        ensures over { (tops : Seq SeenTop) → IsWaitingOver tops self.old.waiting →
            IsOwnOver tops self.old.own self.old.family →
            IsOwnOver tops self.new.own self.new.family }
        ensures reads { OnOk result (IsReadWith IsAlone self.new.own) }
        ensures plain { OnOk result (is_gang_tree self.old.waiting.block ≡ false → IsReadWith HasOneBody self.new.own) }
        ensures gang { OnOk result (is_gang_tree self.old.waiting.block ≡ true → IsReadWith IsUnread self.new.own) }
        ensures waiting { self.new.waiting ≡ self.old.waiting }
        ensures rest { self.new ≡ with_own self.old self.new.own self.new.family }
        ensures err { OnErr result (self.new ≡ self.old) }
    {
        let Some(tree) = &self.waiting.block else {
            self.own = Own::Found(found_of(alloc, Err(Errno::Noent)));
            return Ok(());
        };
        let bp = tree.bp;
        let mut own = OwnRead::new(alloc, bp);
        own.read_bp_init(alloc, bp)?;
        self.own = Own::Read(own);
        Ok(())
    }

    /// Whether the walk over a gang's headers is due.
    pub fn is_walk_due_read(&self) -> bool
        ensures due { result ≡ true → IsReadingWith IsWalkDue self.now.own }
        ensures none { result ≡ false → is_gang_tree self.now.waiting.block ≡ true →
            IsReadWith (λ w. Unit {0}) self.now.own → IsReadWith HasWalkBegun self.now.own }
    {
        let Own::Read(own) = &self.own else {
            return false;
        };
        let TreeStep::Walk = own.next() else {
            return false;
        };
        self.waiting.block.is_some()
    }

    /// Hands the walk over a gang's headers to a child, if it is due. Where memory is refused all is as before.
    pub fn gang_assemble_read(&mut self, alloc: Global) -> Result<Option<HeadsNode>, NoMemory>
        requires reads { IsReadWith IsAlone self.old.own }
        requires attempt { self.old.attempt < 4 }
        requires on { (tops : Seq SeenTop) × IsWaitingOver tops self.old.waiting }
        ensures hands { IfOk result (λ child. (t : Terms) (st : Stack) → IsRequestNode t self.old st
            → HandsWalk t child (IsRequestNode t self.new) st) }
        ensures child_over { IfOk result (λ child. (tops : Seq SeenTop) → IsWaitingOver tops self.old.waiting
            → IsWalkOver tops child) }
        ensures whole { IfOk result (λ child. IfSome child IsWholeWalk) }
        ensures goes { IfOk result (λ child. IfSome child (λ child. ReadsOn HandsOutWalk self.old.own self.new.own)) }
        ensures reading { IfOk result (λ child. IfSome child (λ child. IsReadingWith (λ w. Unit {0}) self.old.own)) }
        ensures none { result ≡ Ok None → self.new ≡ self.old }
        ensures begun { result ≡ Ok None → is_gang_tree self.old.waiting.block ≡ true
            → IsReadWith HasWalkBegun self.new.own }
        ensures over { (tops : Seq SeenTop) → IsOwnOver tops self.old.own self.old.family
            → IsOwnOver tops self.new.own self.new.family }
        ensures reads { IsReadWith IsAlone self.new.own }
        ensures waiting { self.new.waiting ≡ self.old.waiting }
        ensures rest { self.new ≡ with_own self.old self.new.own self.new.family }
        ensures err { OnErr result (self.new ≡ self.old) }
    {
        let name = headers_name(&self.waiting, self.attempt);
        let Own::Read(own) = &mut self.own else {
            return Ok(None);
        };
        let TreeStep::Walk = own.next() else {
            return Ok(None);
        };
        let Some(tree) = &self.waiting.block else {
            return Ok(None);
        };
        let front = self.kids.len();
        let heads = heads_again(alloc, tree.heads.as_slice())?;
        own.gang_assemble(&mut self.family, front, name.label(SECTOR_SIZE as usize))?;
        let prio = prio_of(&self.waiting.request.work);
        Ok(Some(HeadsNode::kept(alloc, LEVELS_MAX, name.path, tree.bp, heads, prio, name)))
    }

    /// What comes next of a gang's bodies.
    pub fn next_body(&self) -> BodyStage
        requires { IsReadWith IsAlone self.now.own }
        ensures body { (body : BodyRead) → result ≡ BodyStage.Body body → IsReadingWith (IsBodyNext body) self.now.own }
        ensures waits { result ≡ BodyStage.Wait → (t : Terms) (st : Stack) → IsSeated st → IsRequestNode t self.now st →
            IsOwed Gang Done st }
        ensures ended { result ≡ BodyStage.On → is_gang_tree self.now.waiting.block ≡ true →
            IsReadWith (λ w. HasWalkBegun w → HasHandedAll w) self.now.own }
    {
        let gang = is_gang_tree(&self.waiting.block);
        let Own::Read(own) = &self.own else {
            return BodyStage::On;
        };
        if !gang {
            return BodyStage::On;
        }
        match own.next() {
            TreeStep::Body(body) => BodyStage::Body(body),
            TreeStep::Wait => BodyStage::Wait,
            TreeStep::Walk | TreeStep::End => BodyStage::On,
        }
    }

    /// Hands the read of this body, which is the gang's next, to a child. Where memory is refused all is as before.
    pub fn gang_issue_read(
        &mut self,
        alloc: Global,
        tops: &[Top],
        body: BodyRead,
    ) -> Result<CopiesNode, NoMemory>
        requires reads { IsReadWith IsAlone self.old.own }
        requires next { IsReadingWith (IsBodyNext body) self.old.own }
        requires attempt { self.old.attempt < 4 }
        requires over { IsOwnOver tops.now self.old.own self.old.family }
        ensures hands { IfOk result (λ child. (t : Terms) (st : Stack) → t.setting.tops ≡ tops.now →
            IsRequestNode t self.old st →
            HandsTo t Gang (λ op. IsCopiesNode t child (fresh_stack op)) (IsRequestNode t self.new) st) }
        ensures child_over { IfOk result (IsCopiesOver tops.now) }
        ensures goes { OnOk result (ReadsOn HandsOutBody self.old.own self.new.own) }
        ensures over { IsOwnOver tops.now self.new.own self.new.family }
        ensures reads { IsReadWith IsAlone self.new.own }
        ensures waiting { self.new.waiting ≡ self.old.waiting }
        ensures rest { self.new ≡ with_own self.old self.new.own self.new.family }
        ensures err { OnErr result (self.new ≡ self.old) }
    {
        let Own::Read(own) = &mut self.own else {
            unreachable!()
        };
        let front = self.kids.len();
        let places = places_of(alloc, &body.bp)?;
        let len = body.bp.size as usize;
        let name = body_name(&self.waiting, self.attempt).at(body.path, Role::Body);
        own.gang_issue(&mut self.family, front, body, name.label(len))?;
        let prio = prio_of(&self.waiting.request.work);
        let check = Check::body(body.bp);
        Ok(CopiesNode::new(alloc, tops, places, len, true, check, prio, name))
    }

    /// The next operation on a leaf of a body that the node reads itself, whose read begins if it is due. None is there
    /// where none is due now. Where memory is refused the body's read may have begun.
    pub fn vdev_io_start_read(
        &mut self,
        alloc: Global,
        tops: &[Top],
    ) -> Result<Option<LeafWork>, NoMemory>
        requires attempt { self.old.attempt < 4 }
        requires over { IsOwnOver tops.now self.old.own self.old.family }
        ensures starts { IfOk result (λ leaf. (t : Terms) (st : Stack) → t.setting.tops ≡ tops.now →
            IsRequestNode t self.old st →
            DoesThen t st [] (λ mid. StartsBy t mid leaf (IsRequestNode t self.new))) }
        ensures err { OnErr result ((t : Terms) (st : Stack) → t.setting.tops ≡ tops.now → IsRequestNode t self.old st →
            DoesThen t st [] (IsRequestNode t self.new)) }
        ensures over { IsOwnOver tops.now self.new.own self.new.family }
        ensures due { IfOk result (λ leaf. IfSome leaf IsDue) }
        ensures goes { IfOk result (λ leaf. ReadsOn (StartsBody leaf) self.old.own self.new.own) }
        ensures reading { IfOk result (λ leaf. IfSome leaf (λ leaf. IsReadingWith (λ w. Unit {0}) self.old.own)) }
        ensures none { result ≡ Ok None → IsReadWith (λ w. Unit {0}) self.old.own
            → IsReadWith (IsNoneDue tops.now) self.new.own }
        ensures waiting { self.new.waiting ≡ self.old.waiting }
        ensures rest { self.new ≡ with_own self.old self.new.own self.new.family }
    {
        let prio = prio_of(&self.waiting.request.work);
        let name = body_name(&self.waiting, self.attempt);
        let Own::Read(own) = &mut self.own else {
            return Ok(None);
        };
        own.begin_next(alloc, tops, prio)?;
        match own.vdev_io_start(&mut self.family, &name, alloc, tops) {
            Ok(leaf) => Ok(leaf),
            Err(NoMemory) => Err(NoMemory),
        }
    }

    /// What is to be done once no operation on a leaf is due.
    pub fn vdev_io_done_read(&self, tops: &[Top]) -> IoNext
        requires reads { IsReadWith (λ w. Unit {0}) self.now.own }
        requires over { IsOwnOver tops.now self.now.own self.now.family }
        ensures waits { result ≡ IoNext.Wait → (t : Terms) (st : Stack) → t.setting.tops ≡ tops.now → IsSeated st →
            IsRequestNode t self.now st →
            IsOwed Vdev Done st }
        ensures due { result ≡ IoNext.On → IsReadWith (IsBodyDue tops.now) self.now.own }
        ensures more { result ≡ IoNext.More → IsReadingWith (IsOneDue tops.now) self.now.own }
    {
        match &self.own {
            Own::Read(own) => own.vdev_io_done(tops),
            _ => IoNext::On,
        }
    }

    /// Whether of the body that the node reads itself no copy was good.
    pub fn has_read_failed(&self) -> bool
        ensures { result ≡ has_read_failed self.now.own }
    {
        match &self.own {
            Own::Read(own) => own.has_body_failed(),
            Own::Due
            | Own::Write(_)
            | Own::Stored(_)
            | Own::Free(_)
            | Own::Claim(_)
            | Own::Found(_)
            | Own::Over => false,
        }
    }

    /// The second pass over the body that the node reads itself begins if it is due, and this is true; else its read
    /// closes, if there is one.
    pub fn vdev_io_assess_read(&mut self, tops: &[Top]) -> bool
        requires due { IsReadWith (IsBodyDue tops.now) self.old.own }
        requires over { IsOwnOver tops.now self.old.own self.old.family }
        ensures does { (t : Terms) (st : Stack) → t.setting.tops ≡ tops.now → IsRequestNode t self.old st →
            DoesThen t st [] (IsRequestNode t self.new) }
        ensures alone { result ≡ false → IsReadWith IsAlone self.new.own }
        ensures over { IsOwnOver tops.now self.new.own self.new.family }
        ensures reads { IsReadWith (λ w. Unit {0}) self.new.own }
        ensures goes { ReadsOn (AssessesBody result) self.old.own self.new.own }
        ensures reading { result ≡ true → IsReadingWith (λ w. Unit {0}) self.old.own }
        ensures waiting { self.new.waiting ≡ self.old.waiting }
        ensures rest { self.new ≡ with_own self.old self.new.own self.new.family }
    {
        match &mut self.own {
            Own::Read(own) => own.vdev_io_assess(&self.family, tops),
            _ => false,
        }
    }

    /// Whether all that a read asked has ended, once no body is read by the node itself.
    pub fn done_read(&self) -> ReadDone
        requires alone { IsReadWith IsAlone self.now.own }
        requires handed { self.now.kids.kids.handed ≡ length self.now.kids.kids.kids }
        ensures wait { (kind : ChildKind) → result ≡ ReadDone.Wait kind → (t : Terms) (st : Stack) → IsSeated st →
            IsRequestNode t self.now st →
            IsOwed kind Done st }
        ensures more { result ≡ ReadDone.More → IsReadingWith IsMoreToRead self.now.own }
        ensures close { result ≡ ReadDone.Close → IsReadWith HasReadEnded self.now.own
            × (list_all is_ended self.now.kids.kids.kids ≡ true) }
    {
        match &self.own {
            Own::Read(own) => match own.next() {
                TreeStep::Wait => return ReadDone::Wait(ChildKind::Gang),
                TreeStep::Walk | TreeStep::Body(_) => return ReadDone::More,
                TreeStep::End => {}
            },
            _ => {}
        }
        match self.done_null() {
            DoneStep::Wait(kind) => ReadDone::Wait(kind),
            DoneStep::Close => ReadDone::Close,
        }
    }

    /// What the read of its block came to takes the place of that. Where memory is refused all is as before.
    pub fn end_read(&mut self, alloc: Global) -> Result<(), NoMemory>
        requires { IsReadWith HasReadEnded self.old.own }
        ensures ends { OnOk result ((t : Terms) (st : Stack) → IsRequestNode t self.old st
            → IsRequestNode t self.new st) }
        ensures found { OnOk result (HasFound self.new.own) }
        ensures over { (tops : Seq SeenTop) → IsOwnOver tops self.old.own self.old.family
            → IsOwnOver tops self.new.own self.new.family }
        ensures kids { self.new.kids ≡ self.old.kids }
        ensures rest { self.new ≡ with_own self.old self.new.own self.new.family }
        ensures err { OnErr result (self.new ≡ self.old) }
    {
        match replace(&mut self.own, Own::Over) {
            Own::Read(own) => match own.into_found(alloc) {
                Ok(found) => {
                    self.own = Own::Found(found_of(alloc, found));
                    Ok(())
                }
                Err(own) => {
                    self.own = Own::Read(own);
                    Err(NoMemory)
                }
            },
            Own::Found(found) => {
                self.own = Own::Found(found);
                Ok(())
            }
            Own::Due | Own::Write(_) | Own::Stored(_) | Own::Free(_) | Own::Claim(_) | Own::Over =>
                unreachable!(),
        }
    }
}

/// The same headers once more.
pub(crate) fn heads_again(alloc: Global, heads: &[Head]) -> Result<List<Head>, NoMemory>
    ensures { IfOk result (λ copy. copy ≡ heads.now) }
{
    let mut copy = Vec::new(alloc);
    for head in heads {
        copy.push(Head {
            path: head.path,
            bytes: head.bytes,
        })?;
    }
    Ok(List::from_vec(copy))
}

/// The class of a read's operations on leaves.
fn prio_of(work: &Work) -> Prio {
    match work {
        Work::Read { prio, .. } => *prio,
        _ => Prio::SyncRead,
    }
}

/// What a read came to whose bytes these are, or whose error.
fn found_of(alloc: Global, found: Result<Bytes, Errno>) -> OwnFound
    ensures { own_got result ≡ own_read_by found }
{
    match found {
        Ok(bytes) => OwnFound {
            error: None,
            bytes,
            tree: None,
            pointer: None,
        },
        Err(error) => OwnFound {
            error: Some(error),
            bytes: List::new(alloc),
            tree: None,
            pointer: None,
        },
    }
}
