use zio_children::{KeptChild, KidStep, Kids};
use zio_types::{Bits, Errno, List};

const NOW: Bits = Bits {
    now: true,
    suspend: false,
};

fn kept(number: u32) -> KeptChild {
    KeptChild {
        number,
        error: None,
        pointer: None,
    }
}

#[test]
fn children_are_handed_out_together_and_end_in_any_order(rt: HostRuntime) {
    let mut earlier = List::new(rt.alloc());
    assert!(rt; earlier.push(kept(4)).is_ok());
    let mut kids = match Kids::new(rt.alloc(), &[3, 7], earlier) {
        Ok(kids) => kids,
        Err(_) => panic!(rt; "no memory"),
    };
    assert!(rt; matches!(kids.next(), KidStep::Child(0)));
    kids.hand_out();
    assert!(rt; matches!(kids.next(), KidStep::Child(1)));
    assert_eq!(rt; kids.number(1), 7);
    kids.hand_out();
    assert!(rt; matches!(kids.next(), KidStep::AllOut));
    kids.tell(1, None);
    assert!(rt; !kids.all_told());
    kids.hear(1, Bits::NONE, Some(Errno::Io), None);
    kids.hear(0, Bits::NONE, Some(Errno::Cksum), None);
    assert!(rt; kids.all_told());
    assert!(rt; kids.all_ended());
    assert_eq!(rt; kids.bits(), Bits::NONE);
    assert_eq!(rt; kids.worst(), Some(Errno::Io));
    let Ok(all) = kids.into_kept(rt.alloc()) else {
        panic!(rt; "no memory");
    };
    let [first, second, third] = all.as_slice() else {
        panic!(rt; "three children are kept");
    };
    assert_eq!(rt; [first.number, second.number, third.number], [3, 4, 7]);
}

#[test]
fn a_child_that_goes_again_is_not_kept(rt: HostRuntime) {
    let mut kids = match Kids::new(rt.alloc(), &[3, 7], List::new(rt.alloc())) {
        Ok(kids) => kids,
        Err(_) => panic!(rt; "no memory"),
    };
    kids.hand_out();
    kids.hand_out();
    kids.hear(0, NOW, None, None);
    kids.hear(1, Bits::NONE, None, None);
    assert_eq!(rt; kids.bits(), NOW);
    match kids.pointers(rt.alloc()) {
        Ok(pointers) => assert_eq!(rt; pointers.len(), 2),
        Err(_) => panic!(rt; "no memory"),
    }
    match kids.into_kept(rt.alloc()) {
        Ok(all) => assert_eq!(rt; all.len(), 1),
        Err(_) => panic!(rt; "no memory"),
    }
}
