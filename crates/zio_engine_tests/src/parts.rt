ghost use Rattle.std.specs.Prelude.{◌≡◌, ◌∷◌, [], IfOk};

use std::alloc::Global;
use std::test::Fail;
use zio_blkptr::SumKind;
use zio_parts::{BlockWrite, PartStep, PartWrite};
use zio_types::{Errno, List, Path, Place};

const TOP: Path = Path {
    len: 0,
    steps: [0; 8],
};

/// One copy, without a checksum.
const WRITE: BlockWrite = BlockWrite {
    request: 1,
    round: 1,
    attempt: 0,
    sum: SumKind::Off,
    copies: 1,
    birth: 1,
};

/// The first sector.
fn places(alloc: Global) -> Result<List<Place>, Fail>
    ensures { IfOk result (λ places. places ≡ record { top = 0; sector = 0; sectors = 1 } ∷ []) }
{
    let mut places = List::new(alloc);
    places.extend_from_slice(&[Place {
        top: 0,
        sector: 0,
        sectors: 1,
    }])?;
    Ok(places)
}

#[test]
fn one_sector_that_is_refused_has_no_place(rt: HostRuntime) -> Result<(), Fail> {
    let mut part = PartWrite::new(WRITE, TOP, &[0; 512]);
    assert_eq!(rt; part.next(), PartStep::AskBody);
    part.hear_places(None);
    assert_eq!(rt; part.next(), PartStep::End);
    let stored = part.into_stored(rt.alloc())?;
    assert_eq!(rt; stored.error, Some(Errno::Nospc));
    assert!(rt; stored.pointer.is_none());
    Ok(())
}

#[test]
fn a_header_waits_for_what_members_tell(rt: HostRuntime) -> Result<(), Fail> {
    let mut part = PartWrite::new(WRITE, TOP, &[0; 1024]);
    part.hear_places(None);
    assert_eq!(rt; part.next(), PartStep::AskHead);
    part.hear_places(Some(places(rt.alloc())?));
    assert_eq!(rt; part.next(), PartStep::Member(0));
    part.hand_out();
    assert_eq!(rt; part.next(), PartStep::Member(1));
    part.hand_out();
    assert_eq!(rt; part.next(), PartStep::WaitReady);
    part.tell(1, None);
    assert_eq!(rt; part.next(), PartStep::WaitReady);
    part.tell(0, None);
    assert_eq!(rt; part.next(), PartStep::WriteHeader);
    Ok(())
}
