// The write of a part of a block under way.

ghost use Rattle.std.specs.Prelude.{◌≡◌, ◌+◌, ◌*◌, ◌-◌, ◌%◌, ◌^◌, ◌<◌, ◌≤◌, ◌++◌, ◌∷◌, ℕ, List, All, IfErr, IfOk, IfSome, IsTrue, None, OnOk, Option, Some, [], drop, false, length, map, slice_get, slice_set, take, true};
ghost use Rattle.std.specs.List.{flat_map, list_all};
ghost use Rattle.zio_types.specs.Choices.{no_place};
ghost use Rattle.zio_types.specs.Filled.{IsFilled, filled_to};
ghost use Rattle.zio_blkptr.specs.Pointers.{valid};
ghost use Rattle.zio_cksum.specs.Headers.{split_sizes};
ghost use Rattle.zio_cksum.specs.Images.{Setting};
ghost use Rattle.zio_cksum.specs.Sums.{sum_of};
ghost use Rattle.zio_gang.specs.Writes.{body_ask, head_ask};
ghost use Rattle.zio_trace.specs.Calls.{answered_at};
ghost use Rattle.zio_trace.specs.Tasks.{Found, StoredAs, Task, Value, Wrote};
ghost use Rattle.zio_trace.specs.Underway.{early};
ghost use Rattle.zio_parts.specs.Parts.{IsOfBytes, IsOutWith, ask_by, fresh_part, header_by, is_gang, is_head_due, left_of_part, member_bytes, member_count, places_at, pointer_in, pointer_over, slots_of, stored_by, whole_plan, writing_by};
ghost use Rattle.zio_parts.specs.PartWrites.{EndsAlways, IsAsk, IsHandedOut, IsLast, ShowsPart, is_due, is_ready, member_at, member_heard, member_told, own_heard, own_at, part_handed, places_heard, step_of};
ghost use Rattle.zio_frames.specs.Slots.{Heard, IsOut, outs_before};

use crate::members::{
    Member, are_told, gang_step, heads_over, member_count, member_range, pointers_of, put, room_of,
    worst_in,
};
use crate::parts::{
    BlockWrite, OwnWrite, PartStep, PlaceAsk, Placing, StoredPart, key_for, nowhere, own_error,
    placed_next, pointer_over,
};
use std::alloc::Global;
use std::marker::Model;
use std::ops::Range;
use zio_blkptr::{BLOCK_SIZE_MAX, Bp};
use zio_cksum::sum;
use zio_gang::{Head, header_encode};
use zio_types::{COPIES_MAX, Errno, List, NoMemory, Path, Place, Role, SECTOR_SIZE, worst};

/// The write of a part of a block under way: whole where places were found for it, and else as a gang, whose members
/// are handed out together, and whose header is written once each of them told its pointer.
#[derive(Debug, Drop)]
pub struct PartWrite {
    write: BlockWrite,
    path: Path,
    size: u32,
    words: [u64; 4],
    placing: Placing,
    members: [Member; 3],
    /// How many members were handed out.
    handed: usize,
    own: OwnWrite,
}

impl Model for PartWrite {
    ghost use Rattle.std.specs.Prelude.{◌≡◌, take};
    ghost use Rattle.zio_types.specs.Filled.{IsFilled};
    ghost use Rattle.zio_parts.specs.Parts.{PartWriting};
    ghost use Rattle.zio_parts.specs.PartWrites.{IsPartWriting};
    ghost use Rattle.zio_parts.specs.declared.members.Member.TheVariants.{Out};

    ghost Value = { PartWriting };

    ghost view = { λ x. record {
      write = x.write;
      path = x.path;
      size = x.size;
      words = x.words;
      placing = x.placing;
      members = take x.handed x.members;
      own = x.own;
    } };

    ghost invariant = { λ x. record {
      filled : IsFilled Out 3 x.handed x.members;
      is : IsPartWriting (record {
        write = x.write;
        path = x.path;
        size = x.size;
        words = x.words;
        placing = x.placing;
        members = take x.handed x.members;
        own = x.own;
      });
    } };
}

/// There is no memory for what the part leaves.
#[derive(Debug, Drop)]
pub struct PartBack {
    pub part: PartWrite,
}

impl PartWrite {
    /// Nothing of it is asked. The bytes are whole sectors, no more than so many levels of headers below the path can
    /// hold.
    pub fn new(write: BlockWrite, path: Path, bytes: &[u8]) -> PartWrite
        requires some { 0 < length bytes.now }
        requires whole { length bytes.now % 512 ≡ 0 }
        requires most { length bytes.now ≤ BLOCK_SIZE_MAX }
        requires deep { length bytes.now ≤ 512 * 3 ^ (8 - length path) }
        requires one { 1 ≤ write.copies }
        requires three { write.copies ≤ COPIES_MAX }
        requires born { 1 ≤ write.birth }
        ensures fresh { result ≡ fresh_part write path bytes.now }
        ensures holds { IsOfBytes result bytes.now }
        ensures slots { slots_of result ≡ [] }
    {
        PartWrite {
            write,
            path,
            size: bytes.len() as u32,
            words: sum(write.sum, bytes),
            placing: Placing::Body,
            members: [Member::Out, Member::Out, Member::Out],
            handed: 0,
            own: OwnWrite::Due,
        }
    }

    /// What is to be done next.
    pub fn next(&self) -> PartStep
        ensures step { result ≡ step_of self.now }
        ensures shows { (s : Setting) (member : List ℕ → List ℕ → Task) (bytes : List ℕ) → IsOfBytes self.now bytes
            → ShowsPart s member bytes self.now result }
        ensures due { (n : ℕ) → result ≡ PartStep.Member n → self.now.own ≡ OwnWrite.Due }
        ensures written { is_due self.now.own ≡ false → IsLast result }
    {
        match &self.placing {
            Placing::Body => PartStep::AskBody,
            Placing::Head => PartStep::AskHead,
            Placing::Whole(_) => match self.own {
                OwnWrite::Due => PartStep::WriteBody,
                OwnWrite::Out => PartStep::Wait,
                OwnWrite::Ended(_) => PartStep::End,
            },
            Placing::Gang(_) => {
                gang_step(
                    member_count(self.size),
                    &self.members[..self.handed],
                    self.own,
                )
            }
            Placing::Nowhere => PartStep::End,
        }
    }

    /// The part, or its header, has places or none, and each of its members told its pointer: so it can tell its own.
    pub fn is_ready(&self) -> bool
        ensures { result ≡ is_ready self.now }
    {
        match &self.placing {
            Placing::Body => false,
            Placing::Head => false,
            Placing::Whole(_) => true,
            Placing::Gang(_) => {
                member_count(self.size) <= self.handed && are_told(&self.members[..self.handed])
            }
            Placing::Nowhere => true,
        }
    }

    /// The ask for the part's bytes.
    pub fn body_ask(&self) -> PlaceAsk
        ensures ask { (s : Setting) (bytes : List ℕ) → length bytes ≡ self.now.size
            → ask_by result ≡ body_ask (writing_by s self.now.write) self.now.path bytes }
        ensures some { 0 < result.size }
        ensures whole { result.size % 512 ≡ 0 }
        ensures size { result.size ≡ self.now.size }
        ensures most { self.now.size ≤ BLOCK_SIZE_MAX }
        ensures born { 1 ≤ self.now.write.birth }
        ensures one { 1 ≤ result.copies }
        ensures three { result.copies ≤ COPIES_MAX }
    {
        let size = self.size;
        let copies = self.write.copies;
        PlaceAsk {
            key: key_for(&self.write, self.path, Role::Body),
            size,
            copies,
        }
    }

    /// The ask for a header: one copy more than the part's, 3 at most.
    pub fn head_ask(&self) -> PlaceAsk
        ensures ask { (s : Setting) → ask_by result ≡ head_ask (writing_by s self.now.write) self.now.path }
        ensures size { result.size ≡ 512 }
        ensures some { 0 < self.now.size }
        ensures whole { self.now.size % 512 ≡ 0 }
        ensures most { self.now.size ≤ BLOCK_SIZE_MAX }
        ensures born { 1 ≤ self.now.write.birth }
        ensures one { 1 ≤ result.copies }
        ensures three { result.copies ≤ COPIES_MAX }
    {
        let copies = (self.write.copies + 1).min(COPIES_MAX);
        PlaceAsk {
            key: key_for(&self.write, self.path, Role::Head),
            size: SECTOR_SIZE,
            copies,
        }
    }

    /// The places that were found, for the part or for its header.
    pub fn places(&self) -> &[Place]
        ensures { result.now ≡ places_at self.now.placing }
    {
        match &self.placing {
            Placing::Whole(places) => places.as_slice(),
            Placing::Gang(places) => places.as_slice(),
            _ => &[],
        }
    }

    /// The path to a member.
    pub fn member_path(&self, n: usize) -> Path
        requires gang { is_gang self.now.placing ≡ true }
        requires member { n < member_count self.now }
        ensures { result ≡ self.now.path ++ n ∷ [] }
    {
        let path = self.path;
        match path.child(n as u8) {
            Some(below) => below,
            None => unreachable!(),
        }
    }

    /// Where the bytes of a member stand in the part's.
    pub fn member_range(&self, n: usize) -> Range<usize>
        requires gang { is_gang self.now.placing ≡ true }
        requires member { n < member_count self.now }
        ensures bytes { (bytes : List ℕ) → length bytes ≡ self.now.size
            → member_bytes bytes n ≡ take (result.end - result.start) (drop result.start bytes) }
        ensures some { result.start < result.end }
        ensures within { result.end ≤ self.now.size }
        ensures whole { (result.end - result.start) % 512 ≡ 0 }
        ensures deep { result.end - result.start ≤ 512 * 3 ^ (7 - length self.now.path) }
    {
        member_range(self.size, n)
    }

    /// The write of a member, where these are the bytes of the part.
    pub fn member(&self, n: usize, bytes: &[u8]) -> PartWrite
        requires gang { is_gang self.now.placing ≡ true }
        requires member { n < member_count self.now }
        requires whole { length bytes.now ≡ self.now.size }
        ensures fresh { result ≡ fresh_part self.now.write (self.now.path ++ n ∷ []) (member_bytes bytes.now n) }
        ensures deep { length (member_bytes bytes.now n) ≤ 512 * 3 ^ (7 - length self.now.path) }
    {
        let range = self.member_range(n);
        let path = self.member_path(n);
        PartWrite::new(self.write, path, &bytes[range])
    }

    /// The bytes of its header, over the pointers that its members told.
    pub fn header(&self) -> [u8; 512]
        requires { is_gang self.now.placing ≡ true }
        ensures { result ≡ header_by self.now (places_at self.now.placing) }
    {
        let pointers = pointers_of(&self.members);
        match self.places() {
            [first, ..] => header_encode(&pointers, first, self.write.birth),
            [] => unreachable!(),
        }
    }

    /// The pointer that it tells once it is ready, none where it has no place.
    pub fn pointer(&self) -> Option<Bp>
        ensures stored { result ≡ (stored_by self.now).pointer }
        ensures valid { IfSome result (λ bp. IsTrue (valid bp)) }
        ensures early { is_ready self.now ≡ true → (s : Setting) (member : List ℕ → List ℕ → Task) (bytes : List ℕ) →
            IsOfBytes self.now bytes →
            EndsAlways (λ (v : Value). early v ≡ result) (left_of_part s member bytes self.now) }
    {
        match &self.placing {
            Placing::Whole(places) => Some(pointer_over(
                &self.write,
                self.size,
                self.words,
                false,
                places.as_slice(),
            )),
            Placing::Gang(places) => Some(pointer_over(
                &self.write,
                self.size,
                self.words,
                true,
                places.as_slice(),
            )),
            _ => None,
        }
    }

    /// The places that were asked for were found, or refused.
    pub fn hear_places(&mut self, places: Option<List<Place>>)
        requires asked { IsAsk (step_of self.old) }
        requires valid { IfSome places
            (λ ps. IsTrue (valid (pointer_over self.old (is_head_due self.old.placing) ps))) }
        ensures heard { self.new ≡ places_heard self.old places }
        ensures slots { slots_of self.new ≡ slots_of self.old ++ Heard (Found places) ∷ [] }
        ensures left { (s : Setting) (member : List ℕ → List ℕ → Task) (bytes : List ℕ) →
            left_of_part s member bytes self.new ≡ answered_at 0 (Found places) (left_of_part s member bytes self.old) }
    {
        let head = matches!(&self.placing, Placing::Head);
        self.placing = placed_next(head, self.size, places);
    }

    /// The child of the step is out.
    pub fn hand_out(&mut self)
        requires { IsHandedOut (step_of self.old) }
        ensures handed { self.new ≡ part_handed self.old }
        ensures slots { slots_of self.new ≡ slots_of self.old ++ IsOut None ∷ [] }
        ensures left { (s : Setting) (member : List ℕ → List ℕ → Task) (bytes : List ℕ) →
            left_of_part s member bytes self.new ≡ left_of_part s member bytes self.old }
    {
        match self.next() {
            PartStep::Member(_) => self.handed += 1,
            PartStep::WriteBody => self.own = OwnWrite::Out,
            PartStep::WriteHeader => self.own = OwnWrite::Out,
            _ => unreachable!(),
        }
    }

    /// The nth member told which pointer it will have.
    pub fn tell(&mut self, n: usize, pointer: Option<Bp>)
        requires out { slice_get self.old.members n ≡ Some Member.Out }
        requires valid { IfSome pointer (λ bp. IsTrue (valid bp)) }
        ensures told { self.new ≡ member_told self.old n pointer }
        ensures slots { slots_of self.new ≡ slice_set (slots_of self.old) (member_at n) (IsOut (Some pointer)) }
        ensures left { (s : Setting) (member : List ℕ → List ℕ → Task) (bytes : List ℕ) →
            left_of_part s member bytes self.new ≡ left_of_part s member bytes self.old }
    {
        put(&mut self.members, n, Member::Told(pointer));
    }

    /// The nth member ended, with the pointer that it told if it told one.
    pub fn hear_member(
        &mut self,
        n: usize,
        error: Option<Errno>,
        pointer: Option<Bp>,
        heads: List<Head>,
    )
        requires out { IsOutWith pointer (slice_get self.old.members n) }
        requires valid { slice_get self.old.members n ≡ Some Member.Out → IfSome pointer (λ bp. IsTrue (valid bp)) }
        ensures heard { self.new ≡ member_heard self.old n error pointer heads }
        ensures slots { slots_of self.new ≡ slice_set (slots_of self.old) (member_at n)
            (Heard (StoredAs (record { error = error; pointer = pointer; heads = heads }))) }
        ensures left { (s : Setting) (member : List ℕ → List ℕ → Task) (bytes : List ℕ) →
            left_of_part s member bytes self.new ≡ answered_at (outs_before (member_at n) (slots_of self.old))
            (StoredAs (record { error = error; pointer = pointer; heads = heads }))
            (left_of_part s member bytes self.old) }
    {
        let ended = Member::Ended {
            error,
            pointer,
            heads,
        };
        put(&mut self.members, n, ended);
    }

    /// The body or the header was written.
    pub fn hear_written(&mut self, error: Option<Errno>)
        requires { self.old.own ≡ OwnWrite.Out }
        ensures heard { self.new ≡ own_heard self.old error }
        ensures slots { slots_of self.new ≡ slice_set (slots_of self.old) (own_at self.old) (Heard (Wrote error)) }
        ensures left { (s : Setting) (member : List ℕ → List ℕ → Task) (bytes : List ℕ) →
            left_of_part s member bytes self.new ≡ answered_at (outs_before (own_at self.old) (slots_of self.old))
            (Wrote error) (left_of_part s member bytes self.old) }
    {
        self.own = OwnWrite::Ended(error);
    }

    /// What it leaves, once it ended. Where memory is refused it comes back.
    pub fn into_stored(self, alloc: Global) -> Result<StoredPart, PartBack>
        ensures error { IfOk result (λ part. part.error ≡ (stored_by self).error) }
        ensures pointer { IfOk result (λ part. part.pointer ≡ (stored_by self).pointer) }
        ensures heads { IfOk result (λ part. part.heads ≡ (stored_by self).heads) }
        ensures back { IfErr result (λ e. e.part ≡ self) }
    {
        let pointer = self.pointer();
        match &self.placing {
            Placing::Whole(_) => Ok(StoredPart {
                error: own_error(self.own),
                pointer,
                heads: List::new(alloc),
            }),
            Placing::Gang(_) => {
                let Some(room) = room_of(alloc, &self.members) else {
                    return Err(PartBack { part: self });
                };
                let error = worst(worst_in(&self.members[..self.handed]), own_error(self.own));
                let bytes = self.header();
                let path = self.path;
                let heads = heads_over(room, Head { path, bytes }, self.members);
                Ok(StoredPart {
                    error,
                    pointer,
                    heads: List::from_vec(heads),
                })
            }
            _ => Ok(nowhere(alloc)),
        }
    }
}
