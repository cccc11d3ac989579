ghost use Rattle.std.specs.Prelude.{◌≡◌, ◌+◌, ◌<◌, ◌≤◌, ◌++◌, ℕ, List, [], length, take, drop, IfErr, IfOk, OnOk, OnErr, IsErrOf, vec_len};
ghost use Rattle.zio_outside.specs.Outside.{Rose};
ghost use Rattle.zio_command.specs.Outcomes.{IsReadOf, rest_of};

use std::alloc::Global;
use zio_outside::Source;
use zio_script::SCRIPT_LEN_MAX;

/// How many bytes a turn asks for.
const PIECE_LEN: usize = 64 * 1024;

/// Why a source wasn't read.
#[derive(Clone, Copy, Debug, PartialEq, Eq)]
pub(crate) enum ReadFault {
    Failed,
    /// Want of memory.
    Memory,
}

/// Reads a source to its end, or to one byte more than a script may have.
///
/// It is read into a room as large as that, and kept in a list of its own size. The C library, which gives a large block
/// back to the system page by page, keeps smaller ones once such a room was freed: so the buffers of a run come cheap.
pub(crate) fn read_all<S: Source>(alloc: Global, source: &mut S) -> Result<Vec<u8>, ReadFault>
    ensures failed { IsErrOf result ReadFault.Failed → Rose (S.faults source.old) (S.faults source.new) }
    ensures count { OnOk result (S.faults source.new ≡ S.faults source.old) }
    ensures sound { S.sound source.old → S.sound source.new × (S.faults source.new ≡ S.faults source.old) }
    ensures read { IfOk result (λ bytes. (text : List ℕ) → S.left source.old text → IsReadOf text bytes.items) }
    ensures rest { OnOk result ((text : List ℕ) → S.left source.old text → S.left source.new (rest_of text)) }
{
    let room = read_in_room(alloc, source)?;
    copied(alloc, &room)
}

/// The same, in a room that may be larger.
fn read_in_room<S: Source>(alloc: Global, source: &mut S) -> Result<Vec<u8>, ReadFault>
    ensures failed { IsErrOf result ReadFault.Failed → Rose (S.faults source.old) (S.faults source.new) }
    ensures count { OnOk result (S.faults source.new ≡ S.faults source.old) }
    ensures sound { S.sound source.old → S.sound source.new × (S.faults source.new ≡ S.faults source.old) }
    ensures read { IfOk result (λ bytes. (text : List ℕ) → S.left source.old text → IsReadOf text bytes.items) }
    ensures rest { OnOk result ((text : List ℕ) → S.left source.old text → S.left source.new (rest_of text)) }
{
    let mut piece = new_piece(alloc)?;
    let mut bytes = new_room(alloc)?;
    while bytes.len() <= SCRIPT_LEN_MAX {
        let want = PIECE_LEN.min(SCRIPT_LEN_MAX + 1 - bytes.len());
        let taken = read_piece(source, &mut piece[..want], &mut bytes)?;
        if taken == 0 {
            return Ok(bytes);
        }
    }
    Ok(bytes)
}

fn new_room(alloc: Global) -> Result<Vec<u8>, ReadFault>
    ensures ok { IfOk result (λ room. room.items ≡ []) }
    ensures err { IfErr result (λ fault. fault ≡ ReadFault.Memory) }
{
    match Vec::with_capacity(alloc, SCRIPT_LEN_MAX + 1) {
        Ok(room) => Ok(room),
        Err(_) => Err(ReadFault::Memory),
    }
}

fn copied(alloc: Global, bytes: &[u8]) -> Result<Vec<u8>, ReadFault>
    ensures ok { IfOk result (λ copy. copy.items ≡ bytes.now) }
    ensures err { IfErr result (λ fault. fault ≡ ReadFault.Memory) }
{
    match bytes.to_vec(alloc) {
        Ok(copy) => Ok(copy),
        Err(_) => Err(ReadFault::Memory),
    }
}

fn new_piece(alloc: Global) -> Result<Vec<u8>, ReadFault>
    ensures ok { IfOk result (λ piece. vec_len piece ≡ PIECE_LEN) }
    ensures err { IfErr result (λ fault. fault ≡ ReadFault.Memory) }
{
    match vec![in alloc; 0; PIECE_LEN] {
        Ok(piece) => Ok(piece),
        Err(_) => Err(ReadFault::Memory),
    }
}

/// Reads into the piece, and adds what was read at the end of the bytes: none only at the end of the input.
fn read_piece<S: Source>(
    source: &mut S,
    piece: &mut [u8],
    bytes: &mut Vec<u8>,
) -> Result<usize, ReadFault>
    requires { 0 < length piece.old }
    ensures failed { IsErrOf result ReadFault.Failed → Rose (S.faults source.old) (S.faults source.new) }
    ensures count { OnOk result (S.faults source.new ≡ S.faults source.old) }
    ensures sound { S.sound source.old → S.sound source.new × (S.faults source.new ≡ S.faults source.old) }
    ensures within { IfOk result (λ n. n ≤ length piece.old) }
    ensures len { IfOk result (λ n. vec_len bytes.new ≡ vec_len bytes.old + n) }
    ensures left { IfOk result (λ n. (left : List ℕ) → S.left source.old left → S.left source.new (drop n left)) }
    ensures there { IfOk result (λ n. (left : List ℕ) → S.left source.old left → n ≤ length left) }
    ensures added { IfOk result (λ n. (left : List ℕ) → S.left source.old left
        → bytes.new.items ≡ bytes.old.items ++ take n left) }
    ensures at_end { IfOk result (λ n. (left : List ℕ) → S.left source.old left → n ≡ 0 → left ≡ []) }
{
    let taken = match source.read(piece) {
        Ok(taken) => taken,
        Err(_) => return Err(ReadFault::Failed),
    };
    match bytes.extend_from_slice(&piece[..taken]) {
        Ok(()) => Ok(taken),
        Err(_) => Err(ReadFault::Memory),
    }
}
