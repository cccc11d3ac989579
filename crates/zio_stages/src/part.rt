// The write of a part of a block, as a node's part of the work or as a request's own.

ghost use Rattle.std.specs.Prelude.{◌≡◌, ◌++◌, ◌+◌, ◌-◌, ◌*◌, ◌%◌, ◌^◌, ◌∷◌, ◌<◌, ◌≤◌, ℕ, Contains, IfOk, IfSome, IsTrue, List, None, OnErr, Option, Some, [], drop, false, length, slice_get, slice_set, take, true};
ghost use Rattle.zio_types.specs.Choices.{Ask};
ghost use Rattle.zio_blkptr.specs.Pointers.{FitsTypes, valid};
ghost use Rattle.zio_gang.specs.Attempts.{Terms, writing_of};
ghost use Rattle.zio_trace.specs.Programs.{Ends};
ghost use Rattle.zio_trace.specs.Tasks.{Find, Found, StoredAs, Task, Value, WriteCopies, Wrote};
ghost use Rattle.zio_trace.specs.Underway.{early};
ghost use Rattle.zio_frames.specs.Answering.{EndsAnswered};
ghost use Rattle.zio_frames.specs.Slots.{AllHeard, Heard, IsOut, Slot, left_behind_slots, told_in};
ghost use Rattle.zio_parts.specs.Parts.{ask_by, fresh_part, is_gang, is_head_due, member_bytes, member_count, places_at, pointer_over, slots_of, stored_by, writing_by};
ghost use Rattle.zio_parts.specs.PartWrites.{IsAsk, IsLast, is_due, is_ready, member_heard, member_told, own_heard, part_handed, places_heard, step_of};
ghost use Rattle.zio_parts.specs.declared.parts.OwnWrite.TheVariants.{Due, Out as OwnOut};
ghost use Rattle.zio_parts.specs.declared.parts.Placing.TheVariants.{Body};
ghost use Rattle.zio_exchange.specs.Outcomes.{IsKept, stored_as};
ghost use Rattle.zio_stages.specs.PartOwns.{ForBytes, ForMember, HandsMember, HandsOut, IsOutAs, IsPartOwn, PartAsks, ShowsOwn, WrittenPart, asks_in, part_plan};

use crate::at_once::root;
use std::alloc::Global;
use std::mem::replace;
use std::ops::Range;
use zio_blkptr::{BLOCK_SIZE_MAX, Bp, SumKind};
use zio_parts::{BlockWrite, PartBack, PartStep, PartWrite, PlaceAsk, StoredPart};
use zio_types::{Errno, List, NoMemory, Path, Place};

/// The write of a part of a block: of a member by its own node, or of the whole by its request. Whoever holds it holds
/// the bytes too.
#[derive(Debug, Drop)]
pub struct PartOwn {
    part: PartWrite,
}

impl PartOwn {
    /// Nothing of it is asked. The bytes are whole sectors, no more than so many levels of headers below the path can
    /// hold.
    pub fn new(write: BlockWrite, path: Path, bytes: &[u8]) -> PartOwn
        requires some { 0 < length bytes.now }
        requires whole { length bytes.now % 512 ≡ 0 }
        requires most { length bytes.now ≤ BLOCK_SIZE_MAX }
        requires deep { length bytes.now ≤ 512 * 3 ^ (8 - length path) }
        requires one { 1 ≤ write.copies }
        requires three { write.copies ≤ 3 }
        requires born { 1 ≤ write.birth }
        ensures fresh { result.part ≡ fresh_part write path bytes.now }
        ensures is { (t : Terms) (o : WrittenPart) →
            writing_by t.setting write ≡ writing_of t o.attempt o.pending o.sum_kind o.copies →
            o.path ≡ path → o.bytes ≡ bytes.now → length path + o.levels ≡ 8 → IsPartOwn t result o [] [] }
    {
        PartOwn {
            part: PartWrite::new(write, path, bytes),
        }
    }

    /// What is to be done next.
    pub fn next(&self) -> PartStep
        ensures shows { ShowsOwn self.now result }
        ensures waits { result ≡ PartStep.Wait → (t : Terms) (o : WrittenPart) (asked : List Task) (slots : List Slot) →
            IsPartOwn t self.now o asked slots → 0 < length (told_in slots) }
        ensures waits_ready { result ≡ PartStep.WaitReady →
            (t : Terms) (o : WrittenPart) (asked : List Task) (slots : List Slot) →
            IsPartOwn t self.now o asked slots → Contains (told_in slots) None }
        ensures due { (n : ℕ) → result ≡ PartStep.Member n → self.now.part.own ≡ Due }
        ensures written { is_due self.now.part.own ≡ false → IsLast result }
    {
        self.part.next()
    }

    /// The ask for places for the part's bytes.
    pub fn body_ask(&self) -> PlaceAsk
        requires { ShowsOwn self.now PartStep.AskBody }
        ensures asks { (t : Terms) (o : WrittenPart) (asked : List Task) (slots : List Slot) →
            IsPartOwn t self.now o asked slots →
            PartAsks t o slots (Find (ask_by result)) }
        ensures some { 0 < result.size }
        ensures whole { result.size % 512 ≡ 0 }
        ensures size { result.size ≡ self.now.part.size }
        ensures most { self.now.part.size ≤ BLOCK_SIZE_MAX }
        ensures born { 1 ≤ self.now.part.write.birth }
        ensures one { 1 ≤ result.copies }
        ensures three { result.copies ≤ 3 }
    {
        self.part.body_ask()
    }

    /// The ask for places for a header.
    pub fn head_ask(&self) -> PlaceAsk
        requires { ShowsOwn self.now PartStep.AskHead }
        ensures asks { (t : Terms) (o : WrittenPart) (asked : List Task) (slots : List Slot) →
            IsPartOwn t self.now o asked slots →
            PartAsks t o slots (Find (ask_by result)) }
        ensures size { result.size ≡ 512 }
        ensures some { 0 < self.now.part.size }
        ensures whole { self.now.part.size % 512 ≡ 0 }
        ensures most { self.now.part.size ≤ BLOCK_SIZE_MAX }
        ensures born { 1 ≤ self.now.part.write.birth }
        ensures one { 1 ≤ result.copies }
        ensures three { result.copies ≤ 3 }
    {
        self.part.head_ask()
    }

    /// The places that were asked for were found, or refused.
    pub fn hear_places(&mut self, places: Option<List<Place>>)
        requires asked { IsAsk (step_of self.old.part) }
        requires valid { IfSome places
            (λ ps. IsTrue (valid (pointer_over self.old.part (is_head_due self.old.part.placing) ps))) }
        ensures exact { self.new.part ≡ places_heard self.old.part places }
        ensures heard { (t : Terms) (o : WrittenPart) (asked : List Task) (slots : List Slot) (a : Ask) →
            IsPartOwn t self.old o asked slots →
            IsPartOwn t self.new o (asked ++ Find a ∷ []) (slots ++ Heard (Found places) ∷ []) }
    {
        self.part.hear_places(places);
    }

    /// Where the bytes of a member stand in the part's.
    pub fn member_range(&self, n: usize) -> Range<usize>
        requires { ShowsOwn self.now (PartStep.Member n) }
        ensures bytes { (bytes : List ℕ) → length bytes ≡ self.now.part.size
            → member_bytes bytes n ≡ take (result.end - result.start) (drop result.start bytes) }
        ensures some { result.start < result.end }
        ensures within { result.end ≤ self.now.part.size }
    {
        self.part.member_range(n)
    }

    /// The write of the nth member is out, where these are the bytes of the part. Its own bytes are those in the
    /// member's range.
    pub fn hand_out_member(&mut self, n: usize, bytes: &[u8]) -> PartOwn
        requires next { ShowsOwn self.old (PartStep.Member n) }
        requires whole { length bytes.now ≡ self.old.part.size }
        ensures exact { self.new.part ≡ part_handed self.old.part }
        ensures size { result.part.size ≡ length (member_bytes bytes.now n) }
        ensures fresh { (result.part.placing ≡ Body) × (result.part.own ≡ Due) }
        ensures begun { result.part.members ≡ [] }
        ensures path { result.part.path ≡ self.old.part.path ++ n ∷ [] }
        ensures deep { length self.old.part.path < 8 }
        ensures handed { (t : Terms) (o : WrittenPart) (asked : List Task) (slots : List Slot) →
            IsPartOwn t self.old o asked slots →
            o.bytes ≡ bytes.now → HandsMember t self.new result o n asked slots }
    {
        // A path has at most eight steps.
        let _steps = steps_of(&self.part.member_path(n));
        let part = self.part.member(n, bytes);
        self.part.hand_out();
        PartOwn { part }
    }

    /// The places that were found, for the part or for its header.
    pub fn places(&self) -> &[Place]
        ensures { result.now ≡ places_at self.now.part.placing }
    {
        self.part.places()
    }

    /// The write of the part's bytes to its places is out.
    pub fn hand_out_body(&mut self)
        requires { ShowsOwn self.old PartStep.WriteBody }
        ensures places { places_at self.new.part.placing ≡ places_at self.old.part.placing }
        ensures exact { self.new.part ≡ part_handed self.old.part }
        ensures out { (t : Terms) (o : WrittenPart) (asked : List Task) (slots : List Slot) →
            IsPartOwn t self.old o asked slots →
            HandsOut t self.new o asked slots (WriteCopies o.bytes (places_at self.old.part.placing)) }
    {
        self.part.hand_out();
    }

    /// The write of this header to the header's places is out.
    pub fn hand_out_header(&mut self) -> [u8; 512]
        requires { ShowsOwn self.old PartStep.WriteHeader }
        ensures places { places_at self.new.part.placing ≡ places_at self.old.part.placing }
        ensures exact { self.new.part ≡ part_handed self.old.part }
        ensures out { (t : Terms) (o : WrittenPart) (asked : List Task) (slots : List Slot) →
            IsPartOwn t self.old o asked slots →
            HandsOut t self.new o asked slots (WriteCopies result (places_at self.old.part.placing)) }
    {
        let bytes = self.part.header();
        self.part.hand_out();
        bytes
    }

    /// A member, the operation with this number, told which pointer it will have.
    pub fn hear_told(&mut self, n: usize, pointer: Option<Bp>)
        requires member { slice_get (asks_in self.old.part) n ≡ Some ForMember }
        requires out { slice_get (slots_of self.old.part) n ≡ Some (IsOut None) }
        requires valid { IfSome pointer (λ bp. IsTrue (valid bp)) }
        ensures exact { self.new.part ≡ member_told self.old.part (n - 2) pointer }
        ensures told { (t : Terms) (o : WrittenPart) (asked : List Task) (slots : List Slot) →
            IsPartOwn t self.old o asked slots →
            IsPartOwn t self.new o asked (slice_set slots n (IsOut (Some pointer))) }
    {
        self.part.tell(n - 2, pointer);
    }

    /// A member, the operation with this number, ended, with the pointer that it told if it told one.
    pub fn hear_member(&mut self, n: usize, stored: StoredPart)
        requires member { slice_get (asks_in self.old.part) n ≡ Some ForMember }
        requires out { IsOutAs stored.pointer (slice_get (slots_of self.old.part) n) }
        requires valid { slice_get (slots_of self.old.part) n ≡ Some (IsOut None)
            → IfSome stored.pointer (λ bp. IsTrue (valid bp)) }
        requires kept { IsKept stored.pointer stored.heads }
        ensures exact { self.new.part ≡ member_heard self.old.part (n - 2) stored.error stored.pointer stored.heads }
        ensures heard { (t : Terms) (o : WrittenPart) (asked : List Task) (slots : List Slot) →
            IsPartOwn t self.old o asked slots →
            IsPartOwn t self.new o asked (slice_set slots n (Heard (StoredAs (stored_as stored)))) }
    {
        self.part
            .hear_member(n - 2, stored.error, stored.pointer, stored.heads);
    }

    /// The body or the header was written.
    pub fn hear_written(&mut self, error: Option<Errno>)
        requires { self.old.part.own ≡ OwnOut }
        ensures exact { self.new.part ≡ own_heard self.old.part error }
        ensures heard { (n : ℕ) → slice_get (asks_in self.old.part) n ≡ Some ForBytes →
            (t : Terms) (o : WrittenPart) (asked : List Task) (slots : List Slot) →
            IsPartOwn t self.old o asked slots
            → IsPartOwn t self.new o asked (slice_set slots n (Heard (Wrote error))) }
    {
        self.part.hear_written(error);
    }

    /// It has its places or none, and each of its members told its pointer: so it can tell its own.
    pub fn is_ready(&self) -> bool
        ensures { result ≡ is_ready self.now.part }
    {
        self.part.is_ready()
    }

    /// The pointer that it tells once it is ready, none where it has no place.
    pub fn pointer(&self) -> Option<Bp>
        ensures valid { IfSome result (λ bp. IsTrue (valid bp)) }
        ensures early { is_ready self.now.part ≡ true →
            (t : Terms) (o : WrittenPart) (asked : List Task) (slots : List Slot) →
            IsPartOwn t self.now o asked slots
            → EndsAnswered (λ (v : Value). early v ≡ result) (told_in slots) (left_behind_slots slots (part_plan t o)) }
    {
        self.part.pointer()
    }

    /// What it leaves, once it ended, which it holds no longer. Where memory is refused it is as before.
    pub fn take_stored(&mut self, alloc: Global) -> Result<StoredPart, NoMemory>
        requires { ShowsOwn self.old PartStep.End }
        ensures valid { IfOk result (λ stored. IfSome stored.pointer (λ bp. IsTrue (valid bp))) }
        ensures kept { IfOk result (λ stored. IsKept stored.pointer stored.heads) }
        ensures exact { IfOk result (λ stored. stored_as stored ≡ stored_by self.old.part) }
        ensures same { OnErr result (self.new ≡ self.old) }
        ensures ended { IfOk result (λ stored. (t : Terms) (o : WrittenPart) (asked : List Task) (slots : List Slot) →
            IsPartOwn t self.old o asked slots →
            AllHeard slots × (left_behind_slots slots (part_plan t o) ≡ Ends (StoredAs (stored_as stored)))) }
    {
        // The clauses say that the pointer is valid, and fits its types.
        let told = self.part.pointer();
        fits_types(&told);
        match replace(&mut self.part, no_part()).into_stored(alloc) {
            Ok(stored) => Ok(stored),
            Err(PartBack { part }) => {
                self.part = part;
                Err(NoMemory)
            }
        }
    }
}

/// What stands in place of a part that left what it came to.
fn no_part() -> PartWrite {
    let write = BlockWrite {
        request: 0,
        round: 0,
        attempt: 0,
        sum: SumKind::Off,
        copies: 1,
        birth: 1,
    };
    PartWrite::new(write, root(), &[0; 512])
}

/// How many steps a path has.
fn steps_of(path: &Path) -> u32
    ensures many { result ≡ length path.now }
    ensures most { result ≤ 8 }
{
    path.len
}

/// What the types of a pointer's fields say of it.
fn fits_types(pointer: &Option<Bp>)
    ensures { IfSome pointer.now FitsTypes }
{
    if let Some(bp) = pointer {
        let _birth = bp.birth;
        // Word by word, since the proof knows the range of a number and not of an array's items.
        let [_first, _second, _third, _fourth] = bp.words;
    }
}
