// The pieces of bound blocks: of each block its headers, from the root down, and then its bodies.

ghost use Rattle.std.specs.Prelude.{◌≡◌, ◌++◌, ◌∷◌, ◌+◌, ◌≤◌, ◌<◌, [], Err, IfOk, OnErr, OnOk, false, length, option_copied, true};
ghost use Rattle.zio_types.specs.Places.{sector_size};
ghost use Rattle.zio_cksum.specs.Blocks.{good_kept};
ghost use Rattle.zio_gang.specs.Pieces.{body_piece, joined_parts, members_kept, parts_from, parts_of_members, pieces_of};
ghost use Rattle.zio_scrub.specs.Pieces.{all_seen, trees_of};
ghost use Rattle.zio_scrub.specs.Parts.{seen_parts};
ghost use Rattle.zio_scrub.specs.Scrubs.{pieces_in};

use crate::pieces::Piece;
use std::alloc::Global;
use zio_blkptr::Bp;
use zio_disks::Stop;
use zio_gang::{Bound, LEVELS_MAX, Tree, members_of};
use zio_types::{List, Path};

/// The headers under a pointer, and the bodies.
#[derive(Drop)]
pub(crate) struct Parts<'a> {
    pub(crate) heads: List<Piece<'a>>,
    pub(crate) bodies: List<Piece<'a>>,
}

/// The pieces of the blocks, block after block.
pub(crate) fn all_pieces<'a>(alloc: Global, bound: &'a [Bound]) -> Result<List<Piece<'a>>, Stop>
    ensures ok { IfOk result (λ pieces. all_seen pieces ≡ pieces_in (trees_of bound.now)) }
    ensures err { OnErr result (result ≡ Err Stop.Memory) }
{
    let mut pieces = List::new(alloc);
    for block in bound {
        add_block(alloc, &block.tree, &mut pieces)?;
    }
    Ok(pieces)
}

/// Adds the pieces of a block.
fn add_block<'a>(alloc: Global, tree: &'a Tree, pieces: &mut List<Piece<'a>>) -> Result<(), Stop>
    ensures ok { OnOk result (all_seen pieces.new ≡ all_seen pieces.old ++ pieces_of tree.now) }
    ensures err { OnErr result (result ≡ Err Stop.Memory) }
{
    let mut parts = Parts {
        heads: List::new(alloc),
        bodies: List::new(alloc),
    };
    let top = Path {
        len: 0,
        steps: [0; 8],
    };
    walk_pointer(alloc, tree, LEVELS_MAX, &top, &tree.bp, &mut parts)?;
    add_all(pieces, parts.heads.as_slice())?;
    add_all(pieces, parts.bodies.as_slice())
}

/// Goes from a pointer of the block down, so many levels of headers.
#[cycle(walk)]
fn walk_pointer<'a>(
    alloc: Global,
    tree: &'a Tree,
    levels: u32,
    path: &Path,
    bp: &Bp,
    parts: &mut Parts<'a>,
) -> Result<(), Stop>
    requires depth { length path.now + levels ≤ LEVELS_MAX }
    ensures ok { OnOk result (seen_parts parts.new
        ≡ joined_parts (seen_parts parts.old) (parts_from levels tree.now.heads path.now bp.now)) }
    ensures err { OnErr result (result ≡ Err Stop.Memory) }
{
    if !bp.gang {
        return add_body(bp, parts);
    }
    if levels == 0 {
        return Ok(());
    }
    let kept = tree.head(path);
    add_head(bp, kept, parts)?;
    let members = named(alloc, kept)?;
    walk_members(alloc, tree, levels - 1, path, 0, members.as_slice(), parts)
}

/// Goes from each of these members of a header down, which are numbered from `n`.
#[cycle(walk)]
fn walk_members<'a>(
    alloc: Global,
    tree: &'a Tree,
    levels: u32,
    path: &Path,
    n: u8,
    members: &[Bp],
    parts: &mut Parts<'a>,
) -> Result<(), Stop>
    requires few { n + length members.now ≤ 3 }
    requires depth { length path.now + levels < LEVELS_MAX }
    ensures ok { OnOk result (seen_parts parts.new ≡ joined_parts (seen_parts parts.old)
        (parts_of_members (parts_from levels tree.now.heads) path.now n members.now)) }
    ensures err { OnErr result (result ≡ Err Stop.Memory) }
{
    let [member, rest @ ..] = members else {
        return Ok(());
    };
    let below = below(path, n);
    walk_pointer(alloc, tree, levels, &below, member, parts)?;
    walk_members(alloc, tree, levels, path, n + 1, rest, parts)
}

/// The path to a member of the gang at this path, which has room for a step.
fn below(path: &Path, member: u8) -> Path
    requires member { member < 3 }
    requires room { length path.now < LEVELS_MAX }
    ensures { result ≡ path.now ++ member ∷ [] }
{
    match path.child(member) {
        Some(below) => below,
        None => unreachable!(),
    }
}

/// The members that a kept header names, none where none is kept.
fn named(alloc: Global, kept: Option<&[u8; 512]>) -> Result<List<Bp>, Stop>
    ensures ok { IfOk result (λ members. members ≡ members_kept (option_copied kept.entry)) }
    ensures err { OnErr result (result ≡ Err Stop.Memory) }
{
    let Some(bytes) = kept else {
        return Ok(List::new(alloc));
    };
    match members_of(alloc, bytes) {
        Ok(members) => Ok(members),
        Err(_) => Err(Stop::Memory),
    }
}

/// Adds the body of a pointer that is no gang.
fn add_body(bp: &Bp, parts: &mut Parts) -> Result<(), Stop>
    requires plain { bp.now.gang ≡ false }
    ensures ok { OnOk result (seen_parts parts.new ≡ joined_parts (seen_parts parts.old)
        (record { heads = []; bodies = body_piece bp.now ∷ [] })) }
    ensures err { OnErr result (result ≡ Err Stop.Memory) }
{
    let piece = Piece {
        pointer: *bp,
        kept: None,
    };
    add_piece(&mut parts.bodies, piece)
}

/// Adds the header of a gang.
fn add_head<'a>(bp: &Bp, kept: Option<&'a [u8; 512]>, parts: &mut Parts<'a>) -> Result<(), Stop>
    requires gang { bp.now.gang ≡ true }
    ensures ok { OnOk result (seen_parts parts.new ≡ joined_parts (seen_parts parts.old) (record {
      heads = record { pointer = bp.now; size = sector_size; good = good_kept (option_copied kept.entry) } ∷ [];
      bodies = [];
    })) }
    ensures err { OnErr result (result ≡ Err Stop.Memory) }
{
    let piece = Piece { pointer: *bp, kept };
    add_piece(&mut parts.heads, piece)
}

fn add_piece<'a>(pieces: &mut List<Piece<'a>>, piece: Piece<'a>) -> Result<(), Stop>
    ensures ok { OnOk result (pieces.new ≡ pieces.old ++ piece.entry ∷ []) }
    ensures err { OnErr result (result ≡ Err Stop.Memory) }
{
    match pieces.push(piece) {
        Ok(()) => Ok(()),
        Err(_) => Err(Stop::Memory),
    }
}

fn add_all<'a>(pieces: &mut List<Piece<'a>>, more: &[Piece<'a>]) -> Result<(), Stop>
    ensures ok { OnOk result (pieces.new ≡ pieces.old ++ more.now) }
    ensures err { OnErr result (result ≡ Err Stop.Memory) }
{
    match pieces.extend_from_slice(more) {
        Ok(()) => Ok(()),
        Err(_) => Err(Stop::Memory),
    }
}
