ghost use Rattle.std.specs.Prelude.{◌≡◌, ◌∷◌, [], IfOk};

use std::alloc::Global;
use std::test::Fail;
use zio_stages::{Check, CopiesNode, Named};
use zio_types::{List, Path, Place, Prio, Role, Top};

/// A mirror of the leaves 3 and 5, and a top of the leaf 6.
fn tops(alloc: Global) -> Result<List<Top>, Fail>
    ensures { IfOk result (λ tops. tops ≡ record { leaves = 3 ∷ 5 ∷ []; sectors = 128; unit = 1 }
        ∷ record { leaves = 6 ∷ []; sectors = 128; unit = 1 } ∷ []) }
{
    let mut two = List::new(alloc);
    two.extend_from_slice(&[3, 5])?;
    let mut one = List::new(alloc);
    one.extend_from_slice(&[6])?;
    let mut tops = List::new(alloc);
    let Ok(()) = tops.push(Top {
        leaves: two,
        sectors: 128,
        unit: 1,
    }) else {
        return Err(Fail::from("no memory"));
    };
    let Ok(()) = tops.push(Top {
        leaves: one,
        sectors: 128,
        unit: 1,
    }) else {
        return Err(Fail::from("no memory"));
    };
    Ok(tops)
}

/// Two sectors of the first top.
fn places(alloc: Global) -> Result<List<Place>, Fail>
    ensures { IfOk result (λ places. places ≡ record { top = 0; sector = 0; sectors = 2 } ∷ []) }
{
    let mut places = List::new(alloc);
    places.extend_from_slice(&[Place {
        top: 0,
        sector: 0,
        sectors: 2,
    }])?;
    Ok(places)
}

/// In attempt 2 of request 7, the header of the third member of the second member.
fn name() -> Named {
    let path = Path {
        len: 2,
        steps: [1, 2, 0, 0, 0, 0, 0, 0],
    };
    Named::new(7, path, Role::Head, 2)
}

#[test]
fn a_label_has_its_fields_at_their_bits(rt: HostRuntime) -> Result<(), Fail> {
    let alloc = rt.alloc();
    let tops = tops(alloc)?;
    let places = places(alloc)?;
    let check = Check::kept(None);
    let mut node = CopiesNode::new(
        alloc,
        tops.as_slice(),
        places,
        1024,
        true,
        check,
        Prio::SyncRead,
        name(),
    );
    assert_eq!(rt; node.request(), 7);
    // 7, 2 steps from bit 16 on, 1 and 2 from bit 20 on, a header at 36, attempt 2 from 45 on, 2 sectors from 49 on.
    assert_eq!(rt; node.label(), 0x4_4010_0092_0007);
    let Some(leaf) = node.vdev_io_start(alloc, tops.as_slice())? else {
        return Err(Fail::from("no operation"));
    };
    // And leaf 3 from bit 39 on, an operation on a leaf at 44.
    assert_eq!(rt; leaf.label(), 0x4_5190_0092_0007);
    assert_eq!(rt; leaf.request(), 7);
    Ok(())
}
