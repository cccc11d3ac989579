ghost use Rattle.std.specs.Prelude.{◌≡◌, ◌++◌, ◌∷◌, [], IfOk, OnOk, option_to_list};
ghost use Rattle.zio_blkptr.specs.Pointers.{pointer_of};
ghost use Rattle.zio_cksum.specs.Headers.{members_of};

use crate::header::slot_at;
use std::alloc::Global;
use zio_blkptr::{Bp, decode};
use zio_types::{List, NoMemory};

/// The members that a header's bytes name, whatever its sum: those of its three pointers that `decode` takes. Of a kept
/// header that is enough, since it was a header once.
pub fn members_of(alloc: Global, bytes: &[u8; 512]) -> Result<List<Bp>, NoMemory>
    ensures { IfOk result (λ members. members ≡ members_of bytes.now) }
{
    let mut members = List::new(alloc);
    add_named(&mut members, slot_at(bytes, 0))?;
    add_named(&mut members, slot_at(bytes, 1))?;
    add_named(&mut members, slot_at(bytes, 2))?;
    Ok(members)
}

fn add_named(members: &mut List<Bp>, slot: &[u8; 128]) -> Result<(), NoMemory>
    ensures { OnOk result (members.new ≡ members.old ++ option_to_list (pointer_of slot.now)) }
{
    match decode(slot) {
        Ok(bp) => add(members, bp),
        Err(_) => Ok(()),
    }
}

fn add(members: &mut List<Bp>, bp: Bp) -> Result<(), NoMemory>
    ensures { OnOk result (members.new ≡ members.old ++ bp ∷ []) }
{
    match members.push(bp) {
        Ok(()) => Ok(()),
        Err(_) => Err(NoMemory),
    }
}
