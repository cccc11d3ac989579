// What a write stores: its children's pointers, its own data, and zeros up to a sector.

ghost use Rattle.std.specs.Prelude.{◌≡◌, ◌+◌, ◌*◌, ◌++◌, IfOk, OnOk, length};
ghost use Rattle.std.specs.List.{AllByRecursion, flat_map};
ghost use Rattle.zio_script.specs.declared.limits.TheConstants.{POINTER_SIZE};
ghost use Rattle.zio_script.specs.Bodies.{body_of};
ghost use Rattle.zio_script.specs.Whys.{body_len, rounded_up};
ghost use Rattle.zio_cksum.specs.Headers.{member_bytes};
ghost use Rattle.zio_gang.specs.Writes.{content_of, padded};
ghost use Rattle.zio_gang.specs.Pointers.{IsNoneOrValid};

use std::alloc::Global;
use zio_blkptr::{Bp, encode};
use zio_script::{Body, body_bytes};
use zio_types::{Bytes, List, NoMemory, SECTOR_SIZE};

const ZEROS: [u8; 512] = [0; 512];

/// The pointers of a write's children in the order of their numbers, zeros for one without, then the bytes of its body,
/// and zeros up to a sector. Bytes that the body has are copied, since an attempt may be repeated.
pub fn content(alloc: Global, pointers: &[Option<Bp>], body: &Body) -> Result<Bytes, NoMemory>
    requires { AllByRecursion IsNoneOrValid pointers.now }
    ensures content { IfOk result (λ bytes. bytes ≡ content_of pointers.now (body_of body.now)) }
    ensures size { IfOk result (λ bytes. length bytes
        ≡ rounded_up (body_len body.now + POINTER_SIZE * length pointers.now)) }
{
    let mut bytes = unpadded(alloc, pointers, body)?;
    pad(&mut bytes)?;
    Ok(bytes)
}

/// The pointers and the bytes of the body. Where there are no children the body's bytes are handed on as they were
/// made.
fn unpadded(alloc: Global, pointers: &[Option<Bp>], body: &Body) -> Result<Bytes, NoMemory>
    requires { AllByRecursion IsNoneOrValid pointers.now }
    ensures content { IfOk result (λ bytes. bytes ≡ flat_map member_bytes pointers.now ++ body_of body.now) }
    ensures size { IfOk result (λ bytes. length bytes ≡ body_len body.now + POINTER_SIZE * length pointers.now) }
{
    let own = body_bytes(alloc, body)?;
    if pointers.is_empty() {
        return Ok(own);
    }
    let mut bytes = joined(alloc, pointers)?;
    bytes.extend_from_slice(own.as_slice())?;
    Ok(bytes)
}

/// The pointers, one after another.
fn joined(alloc: Global, pointers: &[Option<Bp>]) -> Result<Bytes, NoMemory>
    requires { AllByRecursion IsNoneOrValid pointers.now }
    ensures pointers { IfOk result (λ bytes. bytes ≡ flat_map member_bytes pointers.now) }
    ensures size { IfOk result (λ bytes. length bytes ≡ POINTER_SIZE * length pointers.now) }
{
    let mut bytes = List::new(alloc);
    for pointer in pointers {
        add_pointer(&mut bytes, pointer)?;
    }
    Ok(bytes)
}

fn add_pointer(bytes: &mut Bytes, pointer: &Option<Bp>) -> Result<(), NoMemory>
    requires { IsNoneOrValid pointer.now }
    ensures added { OnOk result (bytes.new ≡ bytes.old ++ member_bytes pointer.now) }
    ensures size { OnOk result (length bytes.new ≡ length bytes.old + POINTER_SIZE) }
{
    match pointer {
        Some(bp) => bytes.extend_from_slice(&encode(bp)),
        None => bytes.extend_from_slice(&ZEROS[..128]),
    }
}

/// Adds zeros up to a sector.
fn pad(bytes: &mut Bytes) -> Result<(), NoMemory>
    ensures { OnOk result (bytes.new ≡ padded bytes.old) }
{
    let past = bytes.len() % SECTOR_SIZE as usize;
    if past > 0 {
        bytes.extend_from_slice(&ZEROS[past..])?;
    }
    Ok(())
}
