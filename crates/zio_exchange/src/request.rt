//! A request once more.

ghost use Rattle.std.specs.Prelude.{◌≡◌, IfOk};

use std::alloc::Global;
use zio_script::{Body, Request, Work};
use zio_types::{List, NoMemory};

/// The same request once more. Bytes that a write's body has are copied.
pub(crate) fn request_again(alloc: Global, request: &Request) -> Result<Request, NoMemory>
    ensures { IfOk result (λ copy. copy ≡ request.now) }
{
    let work = work_again(alloc, &request.work)?;
    Ok(Request {
        number: request.number,
        work,
        under: request.under,
        canfail: request.canfail,
    })
}

fn work_again(alloc: Global, work: &Work) -> Result<Work, NoMemory>
    ensures { IfOk result (λ copy. copy ≡ work.now) }
{
    match work {
        Work::Null => Ok(Work::Null),
        Work::Read { name, prio } => Ok(Work::Read {
            name: *name,
            prio: *prio,
        }),
        Work::Write {
            name,
            sum,
            copies,
            prio,
            body,
        } => {
            let body = body_again(alloc, body)?;
            Ok(Work::Write {
                name: *name,
                sum: *sum,
                copies: *copies,
                prio: *prio,
                body,
            })
        }
        Work::Free { name } => Ok(Work::Free { name: *name }),
        Work::Claim { name, pointer } => Ok(Work::Claim {
            name: *name,
            pointer: *pointer,
        }),
    }
}

fn body_again(alloc: Global, body: &Body) -> Result<Body, NoMemory>
    ensures { IfOk result (λ copy. copy ≡ body.now) }
{
    match body {
        Body::Hex(bytes) => {
            let bytes = List::from_vec(Vec::from_slice(alloc, bytes.as_slice())?);
            Ok(Body::Hex(bytes))
        }
        Body::Fill { byte, len } => Ok(Body::Fill {
            byte: *byte,
            len: *len,
        }),
        Body::Seq { seed, len } => Ok(Body::Seq {
            seed: *seed,
            len: *len,
        }),
    }
}
