//! What the stages ask of the engine.

ghost use Rattle.std.specs.Prelude.{◌≡◌, ◌<◌, ◌≤◌, ◌%◌, ◌++◌, List as Seq, [], ◌∷◌, true, false, Err, IfOk, OnOk, OnErr};
ghost use Rattle.zio_types.specs.declared.place.Top.{Top as SeenTop};
ghost use Rattle.zio_gang.specs.Trees.{sizes_of};
ghost use Rattle.zio_exchange.specs.SpaceCalls.{Claimed, GaveBack, IsAnswerFor, LieOnTops, Placed, SpaceCall};

use zio_types::{COPIES_MAX, Entry, Key, NoMemory, Place, Top};

/// Why no place was claimed.
#[derive(Clone, Copy, Debug, PartialEq, Eq)]
pub enum Unclaimed {
    /// Two of the places meet, or one isn't free.
    Taken,
    /// Want of memory.
    Memory,
}

/// The space and the tops, as an engine lends them to the stages.
pub trait Services {
    ghost tops: { Self → Seq SeenTop };

    /// From the first to the second these calls were made, in this order, each with its arguments and its answer. One
    /// that was refused for memory counts as not made.
    ghost made: { Self → Seq SpaceCall → Self → Type 0 };

    /// Asks for so many copies of a size in bytes. The entry has as many places as were found.
    fn place(&mut self, key: Key, size: u32, copies: u32) -> Result<Entry, NoMemory>
        requires some { 0 < size }
        requires whole { size % 512 ≡ 0 }
        requires one { 1 ≤ copies }
        requires most { copies ≤ COPIES_MAX }
        ensures asked { IfOk result (λ entry. entry.asked ≡ record { key = key; size = size; copies = copies }) }
        ensures answers { IfOk result (λ entry. IsAnswerFor (sizes_of (tops self.old)) entry) }
        ensures made { IfOk result (λ entry. made self.old (Placed entry ∷ []) self.new) }
        ensures tops { tops self.new ≡ tops self.old }
        ensures err { OnErr result (made self.old [] self.new) };

    /// Gives a place back. One that isn't in use stays as it is.
    fn back(&mut self, place: Place) -> Result<(), NoMemory>
        ensures made { OnOk result (made self.old (GaveBack place ∷ []) self.new) }
        ensures tops { tops self.new ≡ tops self.old }
        ensures err { OnErr result (made self.old [] self.new) };

    /// Claims all these places, which lie inside their tops on whole units, or none.
    fn claim(&mut self, places: &[Place]) -> Result<(), Unclaimed>
        requires { LieOnTops (sizes_of (tops self.old)) places.now }
        ensures free { OnOk result (made self.old (Claimed places.now true ∷ []) self.new) }
        ensures taken { (result ≡ Err Unclaimed.Taken) → made self.old (Claimed places.now false ∷ []) self.new }
        ensures memory { (result ≡ Err Unclaimed.Memory) → made self.old [] self.new }
        ensures tops { tops self.new ≡ tops self.old };

    fn tops(&self) -> &[Top]
        ensures { result.now ≡ tops self.now };

    ghost made_none: { (a : Self) → made a [] a };

    ghost made_then: { (a b c : Self) (first second : Seq SpaceCall) → made a first b → made b second c
        → made a (first ++ second) c };
}
