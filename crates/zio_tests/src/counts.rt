use zio_counts::{Brood, Counts};
use zio_script::Failmode;
use zio_types::{Bits, ChildKind, Errno, Kind, Phase};

fn is_send<T: Send>(_value: &T) {}

#[test]
fn the_last_child_wakes_a_request_that_fails_with_the_worst_error(rt: HostRuntime) {
    let mut counts = Counts::new();
    is_send(&counts);
    counts.add(ChildKind::Gang);
    counts.add(ChildKind::Gang);
    assert!(rt; counts.wait_for(&[ChildKind::Logical, ChildKind::Gang], Phase::Done));
    assert!(rt; !counts.notify(ChildKind::Gang, Phase::Done, Some(Errno::Io), Bits::NONE));
    assert!(rt; counts.notify(ChildKind::Gang, Phase::Done, Some(Errno::Cksum), Bits::NONE));
    assert_eq!(rt; counts.error(ChildKind::Gang), Some(Errno::Io));
    let bits = counts.decide(Kind::Read, None, false, Failmode::Wait);
    assert_eq!(rt;
        bits,
        Bits {
            now: false,
            suspend: true
        }
    );
}

#[test]
fn a_brood_finds_what_is_missing(rt: HostRuntime) {
    let mut brood: Brood<u8, u64> = Brood::new(rt.alloc());
    is_send(&brood);
    assert_eq!(rt; brood.add(ChildKind::Vdev, 3), Ok(0));
    assert_eq!(rt; brood.add(ChildKind::Gang, 7), Ok(1));
    assert_eq!(rt; brood.add(ChildKind::Gang, 7), Ok(2));
    assert_eq!(rt; brood.find(7), Some(1));
    assert_eq!(rt; brood.find(8), None);
    assert_eq!(rt; brood.missing(ChildKind::Vdev, Phase::Ready), None);
    brood.done(0, 50);
    brood.ready(1, 40);
    assert_eq!(rt; brood.missing(ChildKind::Vdev, Phase::Done), None);
    assert_eq!(rt; brood.missing(ChildKind::Gang, Phase::Ready), Some(2));
    assert_eq!(rt; brood.missing(ChildKind::Gang, Phase::Done), Some(1));
    assert_eq!(rt; brood.done_value(0).copied(), Some(50));
    assert_eq!(rt; brood.ready_value(1).copied(), Some(40));
    assert_eq!(rt; brood.ready_value(2).copied(), None);
    assert_eq!(rt; brood.into_children().len(), 3);
}
