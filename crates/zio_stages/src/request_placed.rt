//! A write in an attempt, whose content is set: its places, its members, and the copies of its block or its header.
//!
//! Its block is written as a gang's member is, but behind the operations for the request's children.

ghost use Rattle.std.specs.Prelude.{◌≡◌, ◌∷◌, ◌<◌, IfOk, IfSome, List as Seq, None, Ok, OnErr, OnOk, Some, [], false, true};
ghost use Rattle.zio_types.specs.declared.place.Top.{Top as SeenTop};
ghost use Rattle.zio_types.specs.declared.request.ChildKind.TheVariants.{Gang, Vdev};
ghost use Rattle.zio_types.specs.declared.request.Phase.TheVariants.{Done};
ghost use Rattle.zio_gang.specs.Attempts.{Terms};
ghost use Rattle.zio_frames.specs.Frames.{Stack};
ghost use Rattle.zio_frames.specs.Seats.{IsSeated};
ghost use Rattle.zio_exchange.specs.SpaceCalls.{AreAsks, SpaceCall};
ghost use Rattle.zio_stages.specs.LeafWorks.{IsDue};
ghost use Rattle.zio_stages.specs.NodeChildren.{first_owing};
ghost use Rattle.zio_stages.specs.NodeIos.{StartsBy, with_one};
ghost use Rattle.zio_stages.specs.OwnParts.{DoesThen, HandsTo};
ghost use Rattle.zio_stages.specs.PartNodes.{IsFreshPart, IsPartNodeOver};
ghost use Rattle.zio_stages.specs.PartWorks.{HaveUnits};
ghost use Rattle.zio_stages.specs.RequestCounts.{HasNextMember, IsMoreDueWrite, asked_of, members_of, path_of, second_of};
ghost use Rattle.zio_stages.specs.RequestNodes.{IsOwnOver, IsRequestNode};
ghost use Rattle.zio_stages.specs.RequestStages.{with_own};
ghost use Rattle.zio_stages.specs.RequestWrites.{
  HasAsked,
  IsBegunWrite,
  IsDueWrite,
  IsIssuedWrite,
  IsMemberDue,
  IsPlacedWrite,
  IsReadyWrite,
  IsWrittenWrite,
};
ghost use Rattle.zio_stages.specs.Tops.{AreTops};

use crate::leaf::LeafWork;
use crate::node_io::IoNext;
use crate::own_write::OwnWrite;
use crate::part_node::PartNode;
use crate::request_name::body_name;
use crate::request_node::{Own, RequestNode};
use std::alloc::Global;
use zio_exchange::Services;
use zio_types::{NoMemory, Top};

impl RequestNode {
    /// Asks the space for the places of the block, and for a header's where these are refused. Where memory is refused
    /// what was done before stays.
    pub fn dva_allocate<S: Services>(
        &mut self,
        alloc: Global,
        services: &mut S,
    ) -> Result<(), NoMemory>
        requires begun { IsBegunWrite self.old.own }
        requires over { IsOwnOver (S.tops services.old) self.old.own self.old.family }
        requires tops { AreTops (S.tops services.old) }
        requires units { HaveUnits (S.tops services.old) }
        ensures does { (calls : Seq SpaceCall) × S.made services.old calls services.new ×
            ((t : Terms) (st : Stack) → IsRequestNode t self.old st →
            DoesThen t st calls (IsRequestNode t self.new)) × AreAsks calls }
        ensures over { IsOwnOver (S.tops services.old) self.new.own self.new.family }
        ensures tops { S.tops services.new ≡ S.tops services.old }
        ensures begun { IsBegunWrite self.new.own }
        ensures asked { OnOk result (HasAsked self.new.own) }
        ensures members { members_of self.new.own ≡ members_of self.old.own }
        ensures path { path_of self.new.own ≡ path_of self.old.own }
        ensures rest { self.new ≡ with_own self.old self.new.own self.old.family }
    {
        let Own::Write(OwnWrite { work }) = &mut self.own else {
            unreachable!()
        };
        work.dva_allocate(alloc, services)
    }

    /// Whether its block is a gang of which a member is to be handed out.
    pub fn is_member_due(&self) -> bool
        requires begun { IsBegunWrite self.now.own }
        ensures due { result ≡ true → IsMemberDue self.now.own }
        ensures none { result ≡ false → HasAsked self.now.own → IsPlacedWrite self.now.own }
    {
        let Own::Write(own) = &self.own else {
            unreachable!()
        };
        own.work.is_member_due()
    }

    /// Hands out the gang's next member, which is due. Where memory is refused the node is as before.
    pub fn next_member(&mut self, alloc: Global) -> Result<PartNode, NoMemory>
        requires begun { IsBegunWrite self.old.own }
        requires due { IsMemberDue self.old.own }
        requires attempt { self.old.attempt < 4 }
        requires over { (tops : Seq SeenTop) × IsOwnOver tops self.old.own self.old.family }
        ensures hands { IfOk result (λ child. (t : Terms) (st : Stack) → IsRequestNode t self.old st →
            HandsTo t Gang (IsFreshPart t child) (IsRequestNode t self.new) st) }
        ensures over { (tops : Seq SeenTop) → IsOwnOver tops self.old.own self.old.family
            → IsOwnOver tops self.new.own self.new.family }
        ensures child { IfOk result (λ child. (tops : Seq SeenTop) → IsPartNodeOver tops child) }
        ensures begun { IsBegunWrite self.new.own }
        ensures next { IfOk result (λ child. HasNextMember child self.old.own self.new.own) }
        ensures rest { self.new ≡ with_own self.old self.new.own self.new.family }
        ensures err { OnErr result (self.new ≡ self.old) }
    {
        let name = body_name(&self.waiting, self.attempt);
        let front = self.kids.len();
        let Own::Write(OwnWrite { work }) = &mut self.own else {
            unreachable!()
        };
        work.member(alloc, &mut self.family, &name, front)
    }

    /// The next operation on a leaf for the copies of its block or its header, which begin if they are due; none where
    /// none is due now. Where memory is refused they may have begun.
    pub fn vdev_io_start_write(
        &mut self,
        alloc: Global,
        tops: &[Top],
    ) -> Result<Option<LeafWork>, NoMemory>
        requires ready { IsReadyWrite self.old.own }
        requires attempt { self.old.attempt < 4 }
        requires over { IsOwnOver tops.now self.old.own self.old.family }
        ensures starts { IfOk result (λ leaf. (t : Terms) (st : Stack) → t.setting.tops ≡ tops.now →
            IsRequestNode t self.old st →
            DoesThen t st [] (λ mid. StartsBy t mid leaf (IsRequestNode t self.new))) }
        ensures err { OnErr result ((t : Terms) (st : Stack) → IsRequestNode t self.old st →
            DoesThen t st [] (IsRequestNode t self.new)) }
        ensures over { IsOwnOver tops.now self.new.own self.new.family }
        ensures due { IfOk result (λ leaf. IfSome leaf IsDue) }
        ensures ready { IsReadyWrite self.new.own }
        ensures count { IfOk result (λ leaf. asked_of self.new.own ≡ with_one leaf (asked_of self.old.own)) }
        ensures pass { second_of self.new.own ≡ second_of self.old.own }
        ensures none { result ≡ Ok None → IsMoreDueWrite tops.now self.new.own → ⊥ }
        ensures issued { OnOk result (IsIssuedWrite self.new.own) }
        ensures rest { self.new ≡ with_own self.old self.new.own self.new.family }
    {
        let name = body_name(&self.waiting, self.attempt);
        let Own::Write(OwnWrite { work }) = &mut self.own else {
            unreachable!()
        };
        work.vdev_io_start(&mut self.family, &name, alloc, tops)
    }

    /// What is to be done once no operation on a leaf is due.
    pub fn vdev_io_done_write(&self, tops: &[Top]) -> IoNext
        requires issued { IsIssuedWrite self.now.own }
        requires over { IsOwnOver tops.now self.now.own self.now.family }
        ensures waits { result ≡ IoNext.Wait → (t : Terms) (st : Stack) → t.setting.tops ≡ tops.now → IsSeated st →
            IsRequestNode t self.now st → first_owing (Vdev ∷ []) Done st.children ≡ Some Vdev }
        ensures due { result ≡ IoNext.On → IsDueWrite tops.now self.now.own }
        ensures more { result ≡ IoNext.More → IsMoreDueWrite tops.now self.now.own }
    {
        let Own::Write(own) = &self.own else {
            unreachable!()
        };
        own.work.vdev_io_done(&self.family, tops)
    }

    /// The second pass over the leaves begins if it is due, and this is true; else the copies have ended.
    pub fn vdev_io_assess_write(&mut self, tops: &[Top]) -> bool
        requires issued { IsIssuedWrite self.old.own }
        requires due { IsDueWrite tops.now self.old.own }
        requires over { IsOwnOver tops.now self.old.own self.old.family }
        ensures does { (t : Terms) (st : Stack) → t.setting.tops ≡ tops.now → IsRequestNode t self.old st →
            DoesThen t st [] (IsRequestNode t self.new) }
        ensures over { IsOwnOver tops.now self.new.own self.new.family }
        ensures ready { IsReadyWrite self.old.own → IsReadyWrite self.new.own }
        ensures issued { IsIssuedWrite self.new.own }
        ensures written { result ≡ false → IsWrittenWrite self.new.own }
        ensures count { result ≡ true → asked_of self.new.own ≡ asked_of self.old.own }
        ensures again { result ≡ true → (second_of self.old.own ≡ false) × (second_of self.new.own ≡ true) }
        ensures rest { self.new ≡ with_own self.old self.new.own self.old.family }
    {
        let Own::Write(OwnWrite { work }) = &mut self.own else {
            unreachable!()
        };
        work.vdev_io_assess(&self.family, tops)
    }
}
