use zio_masks::{READ, Stage, next, with_gang};

#[test]
fn a_read_of_a_gang_takes_the_gang_stages(rt: HostRuntime) {
    let mask = with_gang(READ);
    let mut stage = Stage::Start;
    let taken = [
        Stage::ReadBpInit,
        Stage::GangAssemble,
        Stage::GangIssue,
        Stage::Ready,
        Stage::VdevIoStart,
        Stage::VdevIoDone,
        Stage::VdevIoAssess,
        Stage::ChecksumVerify,
        Stage::Done,
    ];
    for wanted in taken {
        assert!(rt; stage != Stage::Done);
        stage = next(stage, mask);
        assert_eq!(rt; stage, wanted);
    }
}
