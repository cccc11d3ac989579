ghost use Rattle.std.specs.Prelude.{◌≡◌, ◌∷◌, [], IfOk};

use std::alloc::Global;
use std::test::Fail;
use zio_parts::{CopyRead, CopyWrite, ReadStep, Target, WriteStep};
use zio_types::{Errno, List, Place, Top};

const SECTOR: Place = Place {
    top: 0,
    sector: 0,
    sectors: 1,
};

/// A mirror of two leaves.
fn mirror(alloc: Global) -> Result<List<Top>, Fail>
    ensures { IfOk result (λ tops. tops ≡ record { leaves = 0 ∷ 1 ∷ []; sectors = 128; unit = 1 } ∷ []) }
{
    let mut leaves = List::new(alloc);
    leaves.extend_from_slice(&[0, 1])?;
    let mut tops = List::new(alloc);
    let Ok(()) = tops.push(Top {
        leaves,
        sectors: 128,
        unit: 1,
    }) else {
        return Err(Fail::from("no memory"));
    };
    Ok(tops)
}

/// Its first sector.
fn places(alloc: Global) -> Result<List<Place>, Fail>
    ensures { IfOk result (λ places. places ≡ record { top = 0; sector = 0; sectors = 1 } ∷ []) }
{
    let mut places = List::new(alloc);
    places.extend_from_slice(&[SECTOR])?;
    Ok(places)
}

fn copy(leaf: u32) -> Target {
    Target {
        place: SECTOR,
        leaf,
    }
}

#[test]
fn one_good_leaf_is_enough_for_a_write(rt: HostRuntime) -> Result<(), Fail> {
    let alloc = rt.alloc();
    let tops = mirror(alloc)?;
    let mut write = CopyWrite::new(places(alloc)?);
    assert_eq!(rt; write.next(tops.as_slice()), WriteStep::Store(copy(0)));
    write.hand_out();
    write.hand_out();
    assert_eq!(rt; write.next(tops.as_slice()), WriteStep::Wait);
    write.hear(1, None);
    write.hear(0, Some(Errno::Io));
    assert_eq!(rt; write.next(tops.as_slice()), WriteStep::End(None));
    Ok(())
}

#[test]
fn a_read_goes_on_to_the_next_leaf(rt: HostRuntime) -> Result<(), Fail> {
    let alloc = rt.alloc();
    let tops = mirror(alloc)?;
    let mut read = CopyRead::new(tops.as_slice(), places(alloc)?, 512, true);
    assert_eq!(rt; read.next(tops.as_slice()), ReadStep::Fetch(copy(0)));
    read.hand_out();
    read.hear_read(tops.as_slice(), Err(Errno::Cksum));
    assert_eq!(rt; read.next(tops.as_slice()), ReadStep::Fetch(copy(1)));
    Ok(())
}
