use zio_mirror::{PlanStep, ReadPlan, write_result};
use zio_types::Errno;

#[test]
fn one_good_part_is_enough_for_a_mirror_alone(rt: HostRuntime) {
    let errors = [None, Some(Errno::Io)];
    assert_eq!(rt; write_result(&errors, false), None);
    assert_eq!(rt; write_result(&errors, true), Some(Errno::Io));
}

#[test]
fn the_second_leaf_is_first_from_two_mebibytes_on(rt: HostRuntime) {
    let mut plan = ReadPlan::for_leaves(2, 2_097_152);
    assert_eq!(rt; plan.next(), PlanStep::Try(1));
    plan.answer(Some(Errno::Cksum));
    assert_eq!(rt; plan.next(), PlanStep::Try(0));
    plan.answer(None);
    assert_eq!(rt; plan.next(), PlanStep::Good(0));
    assert!(rt; plan.needs_repair(1));
    assert!(rt; !plan.needs_repair(0));
}
