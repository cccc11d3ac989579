// The copies of all pieces, numbered.

ghost use Rattle.std.specs.Prelude.{◌≡◌, ◌∷◌, ◌++◌, ◌<◌, ◌^◌, Err, OnOk, OnErr, IfOk, IsTrue, [], length, map};
ghost use Rattle.std.specs.List.{AllByRecursion};
ghost use Rattle.zio_blkptr.specs.Pointers.{valid};
ghost use Rattle.zio_cksum.specs.Blocks.{leaves_of, spot_in};
ghost use Rattle.zio_cksum.specs.Frames.{spots_of};
ghost use Rattle.zio_scrub.specs.Layouts.{HasPlace, IsLayoutOf, spots_at};

use crate::pieces::Piece;
use std::alloc::Global;
use zio_disks::{Setting, Spot, Stop};
use zio_types::{List, Place, SECTOR_SIZE};

/// A copy of a piece. Its number among all copies is its ticket.
#[derive(Debug, Drop)]
pub(crate) struct CopyAt {
    pub(crate) spot: Spot,
    /// The number of its piece.
    pub(crate) piece: usize,
}

/// A piece, and the numbers of its copies: so many from the first on.
#[derive(Drop)]
pub(crate) struct Numbered<'a> {
    pub(crate) piece: Piece<'a>,
    pub(crate) first: usize,
    pub(crate) count: usize,
}

/// All pieces, and the copies of all in their order.
#[derive(Drop)]
pub(crate) struct Layout<'a> {
    pub(crate) pieces: List<Numbered<'a>>,
    pub(crate) copies: List<CopyAt>,
}

/// Numbers the copies of the pieces.
pub(crate) fn lay_out<'a>(
    alloc: Global,
    setting: &Setting,
    pieces: &[Piece<'a>],
) -> Result<Layout<'a>, Stop>
    requires { AllByRecursion (λ piece. IsTrue (valid piece.pointer)) pieces.now }
    ensures ok { IfOk result (IsLayoutOf setting.now pieces.now) }
    ensures some { OnOk result (AllByRecursion HasPlace pieces.now) }
    ensures err { OnErr result (result ≡ Err Stop.Memory) }
{
    let mut numbered = List::new(alloc);
    let mut copies = List::new(alloc);
    for piece in pieces {
        add_piece(setting, piece, &mut numbered, &mut copies)?;
    }
    Ok(Layout {
        pieces: numbered,
        copies,
    })
}

/// Adds a piece and its copies behind the others.
fn add_piece<'a>(
    setting: &Setting,
    piece: &Piece<'a>,
    numbered: &mut List<Numbered<'a>>,
    copies: &mut List<CopyAt>,
) -> Result<(), Stop>
    requires { IsTrue (valid piece.now.pointer) }
    ensures numbered { OnOk result (numbered.new ≡ numbered.old
        ++ record { piece = piece.now; first = length copies.old; count = length (spots_at setting.now piece.now) }
        ∷ []) }
    ensures copies { OnOk result (copies.new ≡ copies.old
        ++ map (λ spot. record { spot = spot; piece = length numbered.old }) (spots_at setting.now piece.now)) }
    ensures some { HasPlace piece.now }
    ensures err { OnErr result (result ≡ Err Stop.Memory) }
{
    let number = numbered.len();
    let first = copies.len();
    let count = piece.pointer.count as usize;
    add_places(setting, &piece.pointer.places[..count], number, copies)?;
    let piece = Numbered {
        piece: *piece,
        first,
        count: copies.len() - first,
    };
    match numbered.push(piece) {
        Ok(()) => Ok(()),
        Err(_) => Err(Stop::Memory),
    }
}

/// Adds the copies at these places of a piece.
fn add_places(
    setting: &Setting,
    places: &[Place],
    piece: usize,
    copies: &mut List<CopyAt>,
) -> Result<(), Stop>
    requires { AllByRecursion (λ place. place.sector < 2 ^ 48) places.now }
    ensures ok { OnOk result (copies.new ≡ copies.old
        ++ map (λ spot. record { spot = spot; piece = piece }) (spots_of setting.now places.now)) }
    ensures err { OnErr result (result ≡ Err Stop.Memory) }
{
    let [place, rest @ ..] = places else {
        return Ok(());
    };
    add_leaves(setting.leaves(place), place, piece, copies)?;
    add_places(setting, rest, piece, copies)
}

/// Adds the copies on these leaves of a place.
fn add_leaves(
    leaves: &[u32],
    place: &Place,
    piece: usize,
    copies: &mut List<CopyAt>,
) -> Result<(), Stop>
    requires { place.now.sector < 2 ^ 48 }
    ensures ok { OnOk result (copies.new ≡ copies.old
        ++ map (λ spot. record { spot = spot; piece = piece }) (map (spot_in place.now) leaves.now)) }
    ensures err { OnErr result (result ≡ Err Stop.Memory) }
{
    let [leaf, rest @ ..] = leaves else {
        return Ok(());
    };
    let spot = Spot {
        leaf: *leaf,
        at: place.sector * u64::from(SECTOR_SIZE),
        span: u64::from(place.sectors) * u64::from(SECTOR_SIZE),
    };
    add_copy(copies, CopyAt { spot, piece })?;
    add_leaves(rest, place, piece, copies)
}

fn add_copy(copies: &mut List<CopyAt>, copy: CopyAt) -> Result<(), Stop>
    ensures ok { OnOk result (copies.new ≡ copies.old ++ copy ∷ []) }
    ensures err { OnErr result (result ≡ Err Stop.Memory) }
{
    match copies.push(copy) {
        Ok(()) => Ok(()),
        Err(_) => Err(Stop::Memory),
    }
}
