use std::test::Fail;
use zio_tasks::{QueueId, Tasks};
use zio_types::Kind;

const QUEUE: QueueId = QueueId::Issue(Kind::Read);

#[test]
fn a_full_queue_gives_the_task_back(rt: HostRuntime) -> Result<(), Fail> {
    let (tasks, passes) = Tasks::<u32>::new(rt.alloc(), 1, 1)?;
    let mut passes = passes.into_vec();
    assert_eq!(rt; passes.len(), 1);
    let pass = &mut passes[0];
    assert_eq!(rt; tasks.put(&rt, pass, QUEUE, 7), Ok(()));
    assert_eq!(rt; tasks.put(&rt, pass, QUEUE, 8), Err(8));
    assert_eq!(rt;
        tasks.put(&rt, pass, QueueId::Interrupt(Kind::Read), 9),
        Ok(())
    );
    assert_eq!(rt; tasks.take(&rt, pass, QUEUE), Some(7));
    assert_eq!(rt; tasks.take(&rt, pass, QUEUE), None);
    assert_eq!(rt; tasks.settle(&rt, passes.as_mut_slice(), QUEUE), None);
    assert_eq!(rt;
        tasks.settle(&rt, passes.as_mut_slice(), QueueId::Interrupt(Kind::Read)),
        Some(9)
    );
    Ok(())
}
