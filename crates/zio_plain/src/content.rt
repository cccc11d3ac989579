//! What a write stores.

ghost use Rattle.std.specs.Prelude.{◌≡◌, ◌+◌, ◌*◌, IfOk, length};
ghost use Rattle.std.specs.List.{AllByRecursion};
ghost use Rattle.zio_script.specs.declared.limits.TheConstants.{POINTER_SIZE};
ghost use Rattle.zio_script.specs.Bodies.{body_of};
ghost use Rattle.zio_script.specs.Whys.{body_len, rounded_up};
ghost use Rattle.zio_gang.specs.Writes.{content_of};
ghost use Rattle.zio_plain.specs.Waits.{HasPointer, pointers_in};

use crate::waiting::Kept;
use std::alloc::Global;
use zio_blkptr::Bp;
use zio_gang::content;
use zio_script::Body;
use zio_types::{Bytes, List, NoMemory};

/// The pointers of a write's children, zeros for one without, then the bytes of its body, and zeros up to a sector.
pub(crate) fn content_of(alloc: Global, children: &[Kept], body: &Body) -> Result<Bytes, NoMemory>
    requires { AllByRecursion HasPointer children.now }
    ensures content { IfOk result (λ bytes. bytes ≡ content_of (pointers_in children.now) (body_of body.now)) }
    ensures size { IfOk result (λ bytes. length bytes
        ≡ rounded_up (body_len body.now + POINTER_SIZE * length children.now)) }
{
    let pointers = pointers_in(alloc, children)?;
    let bytes = content(alloc, pointers.as_slice(), body)?;
    Ok(bytes)
}

fn pointers_in(alloc: Global, children: &[Kept]) -> Result<List<Option<Bp>>, NoMemory>
    ensures { IfOk result (λ pointers. pointers ≡ pointers_in children.now) }
{
    let mut pointers = List::new(alloc);
    for child in children {
        pointers.push(child.pointer)?;
    }
    Ok(pointers)
}
