// The write of a part of a block with its bytes and its own writes on leaves.

ghost use Rattle.std.specs.Prelude.{◌≡◌, ◌+◌, ◌-◌, ◌*◌, ◌%◌, ◌^◌, ◌<◌, ◌≤◌, ℕ, IfOk, IfSome, IsTrue, List as Seq, None, OnOk, Some, [], length, vec_capacity};
ghost use Rattle.zio_types.specs.Choices.{Choice};
ghost use Rattle.zio_types.specs.declared.place.Top.{Top as SeenTop};
ghost use Rattle.zio_blkptr.specs.Pointers.{valid};
ghost use Rattle.zio_gang.specs.Attempts.{Terms, writing_of};
ghost use Rattle.zio_gang.specs.Trees.{sizes_of};
ghost use Rattle.zio_gang.specs.Writes.{places_chosen};
ghost use Rattle.zio_trace.specs.Tasks.{Find, Task};
ghost use Rattle.zio_frames.specs.Frames.{Child, Stack};
ghost use Rattle.zio_frames.specs.Slots.{Slot};
ghost use Rattle.zio_parts.specs.Parts.{ask_by, is_head_due, pointer_over, writing_by};
ghost use Rattle.zio_parts.specs.PartWrites.{IsAsk, step_of};
ghost use Rattle.zio_exchange.specs.SpaceCalls.{AreAsks, IsAnswerFor, SpaceCall};
ghost use Rattle.zio_stages.specs.NodeIos.{NoneSits};
ghost use Rattle.zio_stages.specs.OwnParts.{DoesThen, IsBehind};
ghost use Rattle.zio_stages.specs.PartOwns.{IsPartOwn, PartAsks, WrittenPart};
ghost use Rattle.zio_stages.specs.PartWorks.{Front, HaveUnits, IsFront, IsPartAt, IsPartOver, asks_left};
ghost use Rattle.zio_stages.specs.Tops.{AreTops};
ghost use Rattle.zio_parts.specs.declared.parts.OwnWrite.TheVariants.{Due};
ghost use Rattle.zio_stages.specs.declared.family.Layer.TheVariants.{Within};

use crate::part::PartOwn;
use crate::write_io::WriteIo;
use std::alloc::Global;
use zio_blkptr::BLOCK_SIZE_MAX;
use zio_exchange::Services;
use zio_parts::{BlockWrite, PartStep, PlaceAsk};
use zio_shared::Shared;
use zio_types::{Bytes, Entry, List, NoMemory, Path, Place, Prio, Role};

/// The write of a part, with its bytes until its own write begins, and the write of its body or header if that is under
/// way, with the bytes of that.
#[derive(Drop)]
pub(crate) struct PartWork {
    pub(crate) own: PartOwn,
    pub(crate) bytes: Shared,
    pub(crate) io: Option<WriteIo>,
    pub(crate) prio: Prio,
    /// What its own write writes.
    pub(crate) role: Role,
}

impl PartWork {
    /// Nothing of it is asked. The bytes are whole sectors, no more than so many levels of headers below the path can
    /// hold.
    pub(crate) fn new(write: BlockWrite, path: Path, bytes: Bytes, prio: Prio) -> PartWork
        requires some { 0 < length bytes }
        requires whole { length bytes % 512 ≡ 0 }
        requires most { length bytes ≤ BLOCK_SIZE_MAX }
        requires deep { length bytes ≤ 512 * 3 ^ (8 - length path) }
        requires one { 1 ≤ write.copies }
        requires three { write.copies ≤ 3 }
        requires born { 1 ≤ write.birth }
        ensures fresh { (t : Terms) (o : WrittenPart) (f : Front) (family : Seq Child) (st : Stack) →
            writing_by t.setting write ≡ writing_of t o.attempt o.pending o.sum_kind o.copies → o.path ≡ path →
            o.bytes ≡ bytes →
            length path + o.levels ≡ 8 → st.outer.op ≡ f.part → st.inner ≡ None → IsBehind f.asked f.slots [] [] st →
            family ≡ st.children →
            IsPartAt t result family f o st }
        ensures over { (tops : Seq SeenTop) (family : Seq Child) → NoneSits Within family
            → IsPartOver tops result family }
        ensures io { result.io ≡ None }
    {
        PartWork {
            own: PartOwn::new(write, path, bytes.as_slice()),
            bytes: Shared::alone(bytes),
            io: None,
            prio,
            role: Role::Body,
        }
    }

    /// The ask for places that is due: for the part's bytes, or for a header's.
    fn ask(&self) -> Option<PlaceAsk>
        ensures asks { IfSome result (λ ask. (t : Terms) (o : WrittenPart) (asked : Seq Task) (slots : Seq Slot) →
            IsPartOwn t self.now.own o asked slots → PartAsks t o slots (Find (ask_by ask))) }
        ensures due { IfSome result (λ ask. IsAsk (step_of self.now.own.part)) }
        ensures some { IfSome result (λ ask. 0 < ask.size) }
        ensures whole { IfSome result (λ ask. ask.size % 512 ≡ 0) }
        ensures one { IfSome result (λ ask. 1 ≤ ask.copies) }
        ensures three { IfSome result (λ ask. ask.copies ≤ 3) }
        ensures small { IfSome result (λ ask. ask.size ≤ BLOCK_SIZE_MAX) }
        ensures valid { IfSome result (λ ask. (tops : Seq SeenTop) (entry : Choice) → AreTops tops → HaveUnits tops →
            IsAnswerFor (sizes_of tops) entry →
            entry.asked.size ≡ ask.size → 1 ≤ length entry.places → length entry.places ≤ 3 →
            IsTrue (valid (pointer_over self.now.own.part (is_head_due self.now.own.part.placing) entry.places))) }
        ensures own { IfSome result (λ ask. self.now.own.part.own ≡ Due) }
        ensures none { result ≡ None → asks_left self.now.own.part.placing ≡ 0 }
    {
        match self.own.next() {
            PartStep::AskBody => Some(self.own.body_ask()),
            PartStep::AskHead => Some(self.own.head_ask()),
            _ => None,
        }
    }

    /// Asks for the places that are due, if some are. Where memory is refused all is as before.
    pub(crate) fn place<S: Services>(
        &mut self,
        alloc: Global,
        services: &mut S,
    ) -> Result<(), NoMemory>
        requires tops { AreTops (S.tops services.old) }
        requires units { HaveUnits (S.tops services.old) }
        ensures does { (calls : Seq SpaceCall) × S.made services.old calls services.new ×
            ((t : Terms) (f : Front) (o : WrittenPart) (front : ℕ) (family : Seq Child) (st : Stack) →
            IsFront t f o front →
            IsPartAt t self.old family f o st →
            IsPartOver (S.tops services.old) self.old family → DoesThen t st calls (IsPartAt t self.new family f o))
            × AreAsks calls }
        ensures over { (family : Seq Child) → IsPartOver (S.tops services.old) self.old family
            → IsPartOver (S.tops services.old) self.new family }
        ensures tops { S.tops services.new ≡ S.tops services.old }
        ensures io { self.new.io ≡ self.old.io }
        ensures left { OnOk result (asks_left self.new.own.part.placing ≤ asks_left self.old.own.part.placing - 1) }
        ensures members { self.new.own.part.members ≡ self.old.own.part.members }
        ensures path { self.new.own.part.path ≡ self.old.own.part.path }
    {
        let Some(ask) = self.ask() else {
            return Ok(());
        };
        let room = Vec::with_capacity(alloc, 3)?;
        let entry = services.place(ask.key, ask.size, ask.copies)?;
        self.own.hear_places(found(room, &entry));
        Ok(())
    }
}

/// The places of an entry that has all its copies, put into this room.
fn found(room: Vec<Place>, entry: &Entry) -> Option<List<Place>>
    requires none { room.items ≡ [] }
    requires room { 3 ≤ vec_capacity room }
    requires few { length entry.now.places ≤ 3 }
    ensures { result ≡ places_chosen entry.now.asked.copies (Some entry.now) }
{
    if entry.found < entry.copies {
        return None;
    }
    Some(filled(room, &entry.places[..entry.found as usize]))
}

/// These items in a room that holds so many.
pub(crate) fn filled<T: Copy>(room: Vec<T>, items: &[T]) -> List<T>
    requires none { room.items ≡ [] }
    requires room { length items.now ≤ vec_capacity room }
    ensures { result ≡ items.now }
{
    let mut room = room;
    if room.extend_from_slice(items).is_err() {
        unreachable!();
    }
    List::from_vec(room)
}
