// A read's own work behind other operations of its node's part.

ghost use Rattle.std.specs.Prelude.{◌≡◌, ◌+◌, ◌^◌, ◌<◌, ℕ, List, None, Ok, Some, [], false, true, IfErr, IfOk, IfSome, IsTrue, OnErr, OnOk, length, slice_get};
ghost use Rattle.std.specs.List.{AllByRecursion};
ghost use Rattle.zio_types.specs.declared.place.Top.{Top as SeenTop};
ghost use Rattle.zio_types.specs.declared.request.ChildKind.TheVariants.{Gang, Vdev};
ghost use Rattle.zio_types.specs.declared.request.Phase.TheVariants.{Done};
ghost use Rattle.zio_blkptr.specs.Pointers.{places_of, valid};
ghost use Rattle.zio_gang.specs.declared.tree.Tree.{Tree};
ghost use Rattle.zio_gang.specs.Attempts.{Terms};
ghost use Rattle.zio_trace.specs.Leaves.{Answer};
ghost use Rattle.zio_trace.specs.Plans.{plan_tree};
ghost use Rattle.zio_trace.specs.Programs.{Ends};
ghost use Rattle.zio_trace.specs.Tasks.{Got, Task};
ghost use Rattle.zio_frames.specs.Frames.{Child, Stack};
ghost use Rattle.zio_frames.specs.Moves.{heard_of};
ghost use Rattle.zio_frames.specs.Seats.{IsSeated};
ghost use Rattle.zio_frames.specs.Slots.{AllHeard, Slot, left_behind_slots};
ghost use Rattle.zio_parts.specs.TreeReads.{ShowsRead};
ghost use Rattle.zio_stages.specs.LeafWorks.{IsDue};
ghost use Rattle.zio_stages.specs.NodeIos.{IsAwaitedAt, IsReadDue, NoneSits, StartsBy};
ghost use Rattle.zio_stages.specs.OwnParts.{DoesThen, GoesOnAs, IsBehind, IsOwed};
ghost use Rattle.zio_stages.specs.OwnReads.{IsBodyOn, IsOwnRead, IsOwnReadOver};
ghost use Rattle.zio_stages.specs.ReadCounts.{AsksMore, AssessesBody, BeginsBody, HasOneBody, IsNoBody, IsOneDue, IsUnread, MayBegin};
ghost use Rattle.zio_stages.specs.ReadIos.{IsReadStep};
ghost use Rattle.zio_stages.specs.RequestReads.{body_failed};
ghost use Rattle.zio_stages.specs.declared.write_io.IoStep.TheVariants.{Child as ChildStep};
ghost use Rattle.zio_stages.specs.declared.family.Layer.TheVariants.{Within};

use crate::at_once::block_at_once;
use crate::check::Check;
use crate::family::{Family, Layer};
use crate::leaf::LeafWork;
use crate::named::Named;
use crate::node_io::{IoNext, assess_read, hear_read, read_next, start_read};
use crate::read_io::ReadIo;
use crate::tree::TreeWork;
use std::alloc::Global;
use zio_blkptr::Bp;
use zio_exchange::Summed;
use zio_parts::{BodyRead, TreeStep};
use zio_types::{Bytes, Errno, List as Items, NoMemory, Place, Prio, Top};

/// The read of a body that the node does itself, as the part within its own, and which of the read's operations it is.
#[derive(Drop)]
pub(crate) struct BodyIo {
    number: usize,
    io: ReadIo,
}

/// The read of a block: the walk over its headers, and then its bodies. Of a block of one body both are parts within
/// the node's own, one after the other; of a gang each is a child's.
#[derive(Drop)]
pub(crate) struct OwnRead {
    pub(crate) tree: TreeWork,
    pub(crate) body: Option<BodyIo>,
}

impl OwnRead {
    /// Nothing of it is asked.
    pub(crate) fn new(alloc: Global, bp: Bp) -> OwnRead
        ensures fresh { (t : Terms) (family : List Child) (tree : Tree) (front_asked : List Task) (front : List Slot)
            (st : Stack) → tree.bp ≡ bp →
            family ≡ st.children → IsBehind front_asked front [] [] st → st.inner ≡ None
            → IsOwnRead t result family tree front_asked front st }
        ensures over { (tops : List SeenTop) (family : List Child) → NoneSits Within family
            → IsOwnReadOver tops result family }
        ensures walk { ShowsRead result.tree.read TreeStep.Walk }
        ensures alone { result.body ≡ None }
        ensures unread { IsUnread result }
        ensures bodies { result.tree.read.bodies ≡ [] }
    {
        OwnRead {
            tree: TreeWork::new(alloc, bp),
            body: None,
        }
    }

    /// What is to be done next.
    pub(crate) fn next(&self) -> TreeStep
        ensures shows { ShowsRead self.now.tree.read result }
        ensures body { (body : BodyRead) → result ≡ TreeStep.Body body
            → slice_get self.now.tree.read.bodies body.n ≡ Some body.bp }
        ensures small { (body : BodyRead) → result ≡ TreeStep.Body body → body.n < 2 ^ 63 }
        ensures waits { result ≡ TreeStep.Wait → self.now.body ≡ None →
            (t : Terms) (family : List Child) (tree : Tree) (front_asked : List Task) (front : List Slot) (st : Stack) →
            IsSeated st → IsOwnRead t self.now family tree front_asked front st → IsOwed Gang Done st }
    {
        self.tree.next()
    }

    /// The walk from the block's pointer opens and closes at once, and this is true; from a gang's it is a child's.
    pub(crate) fn read_bp_init(&mut self, alloc: Global, bp: Bp) -> Result<bool, NoMemory>
        requires walk { ShowsRead self.old.tree.read TreeStep.Walk }
        requires alone { self.old.body ≡ None }
        ensures walks { result ≡ Ok true →
            (t : Terms) (tops : List SeenTop) (family : List Child) (tree : Tree) (front_asked : List Task)
            (front : List Slot) (st : Stack) →
            tree.bp ≡ bp → GoesOnAs t tops (plan_tree tree) front st →
            IsOwnRead t self.old family tree front_asked front st →
            DoesThen t st [] (IsOwnRead t self.new family tree front_asked front) }
        ensures gang { result ≡ Ok false → self.new ≡ self.old }
        ensures asks { result ≡ Ok false → bp.gang ≡ true }
        ensures one { result ≡ Ok true → (bp.gang ≡ false) × (self.old.tree.read.results ≡ [] → HasOneBody self.new) }
        ensures on { (tops : List SeenTop) → (bp.gang ≡ false → IsBodyOn tops bp) →
            AllByRecursion (IsBodyOn tops) self.old.tree.read.bodies →
            AllByRecursion (IsBodyOn tops) self.new.tree.read.bodies }
        ensures alone { self.new.body ≡ None }
        ensures err { OnErr result (self.new ≡ self.old) }
    {
        let Some(walked) = block_at_once(alloc, bp)? else {
            return Ok(false);
        };
        self.tree.walk_at_once(walked);
        Ok(true)
    }

    /// The read of this body begins as the part within. Where memory is refused nothing does.
    pub(crate) fn begin_body(
        &mut self,
        alloc: Global,
        tops: &[Top],
        body: BodyRead,
        prio: Prio,
    ) -> Result<(), NoMemory>
        requires next { ShowsRead self.old.tree.read (TreeStep.Body body) }
        requires alone { self.old.body ≡ None }
        requires on { IsBodyOn tops.now body.bp }
        requires small { body.n < 2 ^ 63 }
        ensures begins { OnOk result ((t : Terms) (family : List Child) (tree : Tree) (front_asked : List Task)
            (front : List Slot) (st : Stack) →
            GoesOnAs t tops.now (plan_tree tree) front st → IsOwnRead t self.old family tree front_asked front st →
            DoesThen t st [] (IsOwnRead t self.new family tree front_asked front)) }
        ensures over { OnOk result ((family : List Child) → NoneSits Within family
            → IsOwnReadOver tops.now self.new family) }
        ensures bodies { OnOk result (self.new.tree.read.bodies ≡ self.old.tree.read.bodies) }
        ensures counts { OnOk result (BeginsBody self.old self.new) }
        ensures err { OnErr result (self.new ≡ self.old) }
    {
        let number = number_of(&body);
        let places = places_of(alloc, &body.bp)?;
        let check = Check::body(body.bp);
        self.tree.hand_out_body(body)?;
        let io = ReadIo::new(tops, places, body.bp.size as usize, true, check, prio);
        self.body = Some(BodyIo { number, io });
        Ok(())
    }

    /// The read of the next body begins as the part within, if it is due and none is there. Where memory is refused
    /// nothing does.
    pub(crate) fn begin_next(
        &mut self,
        alloc: Global,
        tops: &[Top],
        prio: Prio,
    ) -> Result<(), NoMemory>
        requires { AllByRecursion (IsBodyOn tops.now) self.old.tree.read.bodies }
        ensures begins { (t : Terms) (family : List Child) (tree : Tree) (front_asked : List Task) (front : List Slot)
            (st : Stack) →
            GoesOnAs t tops.now (plan_tree tree) front st → IsOwnRead t self.old family tree front_asked front st →
            DoesThen t st [] (IsOwnRead t self.new family tree front_asked front) }
        ensures over { (family : List Child) → IsOwnReadOver tops.now self.old family
            → IsOwnReadOver tops.now self.new family }
        ensures bodies { self.new.tree.read.bodies ≡ self.old.tree.read.bodies }
        ensures counts { MayBegin self.old self.new }
        ensures none { OnOk result (self.new.body ≡ None → (step : TreeStep) × IsNoBody step
            × ShowsRead self.new.tree.read step) }
    {
        if self.body.is_some() {
            return Ok(());
        }
        match self.next() {
            TreeStep::Body(body) => self.begin_body(alloc, tops, body, prio),
            TreeStep::Walk | TreeStep::Wait | TreeStep::End => Ok(()),
        }
    }

    /// The next operation on a leaf of the part within, whose child was added, or none where none is due now. Where
    /// memory is refused all is as before.
    pub(crate) fn vdev_io_start(
        &mut self,
        family: &mut Family,
        name: &Named,
        alloc: Global,
        tops: &[Top],
    ) -> Result<Option<LeafWork>, NoMemory>
        requires over { IsOwnReadOver tops.now self.old family.old }
        ensures starts { IfOk result (λ leaf. (t : Terms) (tree : Tree) (front_asked : List Task) (front : List Slot)
            (st : Stack) →
            GoesOnAs t tops.now (plan_tree tree) front st → IsOwnRead t self.old family.old tree front_asked front st →
            StartsBy t st leaf (IsOwnRead t self.new family.new tree front_asked front)) }
        ensures due { IfOk result (λ leaf. IfSome leaf IsDue) }
        ensures over { IsOwnReadOver tops.now self.new family.new }
        ensures tree { self.new.tree ≡ self.old.tree }
        ensures counts { IfOk result (λ leaf. AsksMore leaf self.old self.new) }
        ensures none { result ≡ Ok None → IfSome self.new.body (λ body. IsReadStep tops.now body.io ChildStep → ⊥) }
        ensures err { OnErr result (self.new ≡ self.old) }
        ensures family_err { OnErr result (family.new ≡ family.old) }
    {
        let Some(mut body) = self.body.take() else {
            return Ok(None);
        };
        let started = start_read(&mut body.io, Layer::Within, family, name, alloc, tops);
        self.body = Some(body);
        started
    }

    /// What is to be done once no operation on a leaf is due.
    pub(crate) fn vdev_io_done(&self, tops: &[Top]) -> IoNext
        requires { (family : List Child) × IsOwnReadOver tops.now self.now family }
        ensures waits { result ≡ IoNext.Wait →
            (t : Terms) (family : List Child) (tree : Tree) (front_asked : List Task) (front : List Slot) (st : Stack) →
            t.setting.tops ≡ tops.now → IsSeated st → IsOwnRead t self.now family tree front_asked front st
            → IsOwed Vdev Done st }
        ensures due { result ≡ IoNext.On → IfSome self.now.body (λ body. IsReadDue tops.now body.io) }
        ensures more { result ≡ IoNext.More → IsOneDue tops.now self.now }
    {
        match &self.body {
            Some(body) => read_next(&body.io, tops),
            None => IoNext::On,
        }
    }

    /// Whether the part within is the read of a body of which no copy was good.
    pub(crate) fn has_body_failed(&self) -> bool
        ensures { result ≡ body_failed self.now.body }
    {
        match &self.body {
            Some(body) => body.io.has_failed(),
            None => false,
        }
    }

    /// The second pass begins if it is due, and this is true; else the part within closes, if there is one.
    pub(crate) fn vdev_io_assess(&mut self, family: &Family, tops: &[Top]) -> bool
        requires over { IsOwnReadOver tops.now self.old family.now }
        requires due { IfSome self.old.body (λ body. IsReadDue tops.now body.io) }
        ensures again { result ≡ true →
            (t : Terms) (tree : Tree) (front_asked : List Task) (front : List Slot) (st : Stack) →
            t.setting.tops ≡ tops.now → IsOwnRead t self.old family.now tree front_asked front st
            → IsOwnRead t self.new family.now tree front_asked front st }
        ensures closes { result ≡ false →
            (t : Terms) (tree : Tree) (front_asked : List Task) (front : List Slot) (st : Stack) →
            t.setting.tops ≡ tops.now → IsOwnRead t self.old family.now tree front_asked front st →
            DoesThen t st [] (IsOwnRead t self.new family.now tree front_asked front) }
        ensures alone { result ≡ false → self.new.body ≡ None }
        ensures over { IsOwnReadOver tops.now self.new family.now }
        ensures bodies { self.new.tree.read.bodies ≡ self.old.tree.read.bodies }
        ensures counts { AssessesBody result self.old self.new }
    {
        let Some(mut body) = self.body.take() else {
            return false;
        };
        if assess_read(&mut body.io, Layer::Within, family, tops) {
            self.body = Some(body);
            return true;
        }
        let BodyIo { number, io } = body;
        self.tree.hear_body(number, io.into_found(tops));
        false
    }

    /// A child of the part within, an operation on a leaf, has ended: with the bytes of its read, with none of a
    /// repair, or with an error.
    pub(crate) fn arrive_leaf(
        &mut self,
        family: &mut Family,
        tops: &[Top],
        child: usize,
        found: Result<Summed, Errno>,
    )
        requires over { IsOwnReadOver tops.now self.old family.old }
        requires awaited { IsAwaitedAt Within family.old child }
        ensures heard { (t : Terms) (tree : Tree) (front_asked : List Task) (front : List Slot) (st : Stack) (c : Child)
            (a : Answer) →
            t.setting.tops ≡ tops.now → found ≡ a → slice_get st.children child ≡ Some c →
            IsOwnRead t self.old family.old tree front_asked front st →
            IsOwnRead t self.new family.new tree front_asked front (heard_of st child c (Got a)) }
        ensures over { IsOwnReadOver tops.now self.new family.new }
        ensures tree { self.new.tree ≡ self.old.tree }
        ensures counts { AsksMore None self.old self.new }
    {
        match self.body.take() {
            Some(mut body) => {
                hear_read(&mut body.io, Layer::Within, family, tops, child, found);
                self.body = Some(body);
            }
            None => unreachable!(),
        }
    }

    /// The block's bytes or its error, where it ended. Where memory is refused it comes back.
    pub(crate) fn into_found(self, alloc: Global) -> Result<Result<Bytes, Errno>, OwnRead>
        requires { ShowsRead self.tree.read TreeStep.End }
        ensures back { IfErr result (λ own. own ≡ self) }
        ensures found { IfOk result (λ found. (t : Terms) (family : List Child) (tree : Tree) (front_asked : List Task)
            (front : List Slot) (st : Stack)
            (h : IsOwnRead t self family tree front_asked front st) →
            AllHeard h.slots × (left_behind_slots h.slots (plan_tree tree) ≡ Ends (Got found))) }
    {
        let OwnRead { tree, body } = self;
        match tree.into_found(alloc) {
            Ok(found) => Ok(found),
            Err(tree) => Err(OwnRead { tree, body }),
        }
    }
}

/// The number of the body's operation among those of the read: the walk stands before the bodies.
pub(crate) fn number_of(body: &BodyRead) -> usize
    requires { body.now.n < 2 ^ 63 }
    ensures { result ≡ body.now.n + 1 }
{
    body.n + 1
}

pub(crate) fn places_of(alloc: Global, bp: &Bp) -> Result<Items<Place>, NoMemory>
    requires { IsTrue (valid bp.now) }
    ensures { IfOk result (λ places. places ≡ places_of bp.now) }
{
    let mut places = Items::new(alloc);
    places.extend_from_slice(&bp.places[..bp.count as usize])?;
    Ok(places)
}
