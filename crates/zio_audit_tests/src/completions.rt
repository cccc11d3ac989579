ghost use Rattle.std.specs.Prelude.{◌≡◌, ◌≤◌, IfOk, length};
ghost use Rattle.zio_script.specs.Accepted.{AreRising};
ghost use Rattle.zio_script.specs.Requests.{requests_of};

use crate::journals::journals;
use std::alloc::Global;
use std::test::Fail;
use zio_audit::unmatched_round;
use zio_script::{Item, Request, Work};
use zio_types::{Completion, NoMemory, ReqNo};

/// A null, and one under it.
fn family(alloc: Global) -> Result<Vec<Item>, NoMemory>
    ensures { IfOk result (λ items. AreRising (requests_of items.items)) }
{
    let mut items = Vec::new(alloc);
    items.push(Item::Request(null(1, None)))?;
    items.push(Item::Request(null(2, Some(1))))?;
    Ok(items)
}

fn null(number: ReqNo, under: Option<ReqNo>) -> Request
    ensures { result.number ≡ number }
{
    Request {
        number,
        work: Work::Null,
        under,
        canfail: false,
    }
}

fn done(request: ReqNo, round: u32) -> Completion {
    Completion {
        request,
        round,
        error: None,
    }
}

/// The first of two rounds in which these orders aren't lawful, where both requests complete in the first.
fn unmatched(alloc: Global, report: &[u8]) -> Result<Option<u64>, NoMemory>
    requires { length report.now ≤ 1024 }
{
    let items = family(alloc)?;
    match journals(alloc, report)? {
        Some(journals) => unmatched_round(alloc, &items, &[done(2, 1), done(1, 1)], journals),
        None => Ok(Some(0)),
    }
}

#[test]
fn a_child_completes_first(rt: HostRuntime) -> Result<(), Fail> {
    let alloc = rt.alloc();
    assert_eq!(rt; unmatched(alloc, b"round 1\norder 2 1\nround 2\n")?, None);
    assert_eq!(rt;
        unmatched(alloc, b"round 1\norder 1 2\nround 2\n")?,
        Some(1)
    );
    Ok(())
}

#[test]
fn each_completes_once_in_its_round(rt: HostRuntime) -> Result<(), Fail> {
    let alloc = rt.alloc();
    assert_eq!(rt;
        unmatched(alloc, b"round 1\norder 2 2 1\nround 2\n")?,
        Some(1)
    );
    assert_eq!(rt; unmatched(alloc, b"round 1\norder 2\nround 2\n")?, Some(1));
    assert_eq!(rt;
        unmatched(alloc, b"round 1\norder 2\nround 2\norder 1\n")?,
        Some(1)
    );
    assert_eq!(rt;
        unmatched(alloc, b"round 1\norder 2 1 4000000000\nround 2\n")?,
        Some(1)
    );
    assert_eq!(rt;
        unmatched(alloc, b"round 1\norder 2 1\nround 2\norder 1\n")?,
        Some(2)
    );
    Ok(())
}
