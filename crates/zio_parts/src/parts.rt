// What the write of a part of a block is made of: what it asks, its steps, and what becomes of its places.

ghost use Rattle.std.specs.Prelude.{◌≡◌, ◌≤◌, None, Some, [], length};
ghost use Rattle.zio_types.specs.Choices.{no_place};
ghost use Rattle.zio_types.specs.Filled.{filled_to};
ghost use Rattle.zio_parts.specs.Parts.{own_error};
ghost use Rattle.zio_parts.specs.PartWrites.{placed_next};

use std::alloc::Global;
use zio_blkptr::{Bp, SumKind};
use zio_gang::Head;
use zio_types::{COPIES_MAX, Errno, Key, List, NOWHERE, Path, Place, ReqNo, Role, SECTOR_SIZE};

/// What all parts of one block's write share.
#[derive(Clone, Copy, Debug, PartialEq, Eq)]
pub struct BlockWrite {
    pub request: ReqNo,
    pub round: u32,
    /// From 0 in each round.
    pub attempt: u32,
    pub sum: SumKind,
    /// Of the block's bytes, 1 to 3. A gang's header has one more, 3 at most.
    pub copies: u32,
    /// The number of the batch, at least 1.
    pub birth: u64,
}

/// An ask for places.
#[derive(Clone, Copy, Debug, PartialEq, Eq)]
pub struct PlaceAsk {
    pub key: Key,
    /// In bytes.
    pub size: u32,
    pub copies: u32,
}

/// What the write of a part is to do next.
#[derive(Clone, Copy, Debug, PartialEq, Eq)]
pub enum PartStep {
    /// Places are to be asked for, for the part's bytes.
    AskBody,
    /// They were refused, and places are to be asked for, for a header.
    AskHead,
    /// The part's bytes are to be written to its places.
    WriteBody,
    /// The header is to be written to its places.
    WriteHeader,
    /// The member with this number is to be handed out.
    Member(usize),
    /// A member that is out hasn't told its pointer.
    WaitReady,
    /// A member, or the write of the body or the header, is out.
    Wait,
    /// It ended.
    End,
}

/// What became of a part's places.
#[derive(Debug, Drop)]
pub(crate) enum Placing {
    /// They are to be asked for.
    Body,
    /// They were refused, and a header's are to be asked for.
    Head,
    /// The whole part has these.
    Whole(List<Place>),
    /// Its header has these.
    Gang(List<Place>),
    /// It has none.
    Nowhere,
}

/// The write of a part's body or header.
#[derive(Clone, Copy, Debug, PartialEq, Eq)]
pub(crate) enum OwnWrite {
    Due,
    Out,
    Ended(Option<Errno>),
}

/// What a part left that was written.
#[derive(Debug, Drop)]
pub struct StoredPart {
    pub error: Option<Errno>,
    /// None exactly where it has no place.
    pub pointer: Option<Bp>,
    /// The headers under it, each before those below it.
    pub heads: List<Head>,
}

/// What names an ask of this write, for a part at the path.
pub(crate) fn key_for(write: &BlockWrite, path: Path, role: Role) -> Key
    ensures { result ≡ record {
      request = write.now.request;
      round = write.now.round;
      attempt = write.now.attempt;
      path = path;
      role = role;
    } }
{
    Key {
        request: write.request,
        round: write.round,
        attempt: write.attempt,
        path,
        role,
    }
}

/// What becomes of a part of this size, by whether a header's places were asked for, and the places that were found.
pub(crate) fn placed_next(head: bool, size: u32, places: Option<List<Place>>) -> Placing
    ensures { result ≡ placed_next head size places }
{
    match places {
        Some(places) => {
            if head {
                Placing::Gang(places)
            } else {
                Placing::Whole(places)
            }
        }
        None => {
            if head || size <= SECTOR_SIZE {
                Placing::Nowhere
            } else {
                Placing::Head
            }
        }
    }
}

/// The error of a write that ended, none before.
pub(crate) fn own_error(own: OwnWrite) -> Option<Errno>
    ensures { result ≡ own_error own }
{
    match own {
        OwnWrite::Ended(error) => error,
        _ => None,
    }
}

/// A part without a place.
pub(crate) fn nowhere(alloc: Global) -> StoredPart
    ensures error { result.error ≡ Some Errno.Nospc }
    ensures pointer { result.pointer ≡ None }
    ensures heads { result.heads ≡ [] }
{
    StoredPart {
        error: Some(Errno::Nospc),
        pointer: None,
        heads: List::new(alloc),
    }
}

/// The pointer of a part with these places.
pub(crate) fn pointer_over(
    write: &BlockWrite,
    size: u32,
    words: [u64; 4],
    gang: bool,
    places: &[Place],
) -> Bp
    requires { length places.now ≤ COPIES_MAX }
    ensures { result ≡ record {
      count = length places.now;
      places = filled_to no_place 3 places.now;
      gang = gang;
      size = size;
      sum = write.now.sum;
      birth = write.now.birth;
      words = words;
    } }
{
    Bp {
        count: places.len() as u32,
        places: filled(places),
        gang,
        size,
        sum: write.sum,
        birth: write.birth,
        words,
    }
}

/// The places, and behind them none.
fn filled(places: &[Place]) -> [Place; 3]
    requires { length places.now ≤ COPIES_MAX }
    ensures { result ≡ filled_to no_place 3 places.now }
{
    match places {
        [] => [NOWHERE, NOWHERE, NOWHERE],
        [first] => [*first, NOWHERE, NOWHERE],
        [first, second] => [*first, *second, NOWHERE],
        [first, second, third, ..] => [*first, *second, *third],
    }
}
