// The bodies of a block, joined.

ghost use Rattle.std.specs.Prelude.{◌≡◌, ◌++◌, IfErr, IfOk, Option};
ghost use Rattle.zio_parts.specs.Joins.{no_bodies, then_got};
ghost use Rattle.zio_parts.specs.TreeReads.{bodies_in, bytes_or};

use crate::walked::blame;
use std::alloc::Global;
use std::marker::Model;
use zio_types::{Bytes, Errno, List, NoMemory};

/// What was read of some bodies, in order: their errors, and the bytes of the others.
#[derive(Debug, Drop)]
struct Joined {
    errors: List<Option<Errno>>,
    bytes: Bytes,
}

impl Model for Joined {
    ghost use Rattle.zio_trace.specs.Plans.{Bodies};

    ghost Value = { Bodies };

    ghost view = { λ j. record { errors = j.errors; bytes = j.bytes } };
}

impl Joined {
    fn nothing(alloc: Global) -> Joined
        ensures { result ≡ no_bodies }
    {
        Joined {
            errors: List::new(alloc),
            bytes: List::new(alloc),
        }
    }

    /// These, and what was read of the next body, if it was.
    fn and(self, found: &Option<Result<Bytes, Errno>>) -> Result<Joined, NoMemory>
        ensures { IfOk result (λ joined. joined ≡ then_got self found.now) }
    {
        match found {
            Some(Ok(part)) => {
                let mut bytes = self.bytes;
                bytes.extend_from_slice(part.as_slice())?;
                Ok(Joined {
                    errors: self.errors,
                    bytes,
                })
            }
            Some(Err(error)) => {
                let mut errors = self.errors;
                errors.push(Some(*error))?;
                Ok(Joined {
                    errors,
                    bytes: self.bytes,
                })
            }
            None => Ok(self),
        }
    }

    /// The bytes, or the worst of the errors.
    fn into_found(self) -> Result<Bytes, Errno>
        ensures { result ≡ bytes_or self }
    {
        if self.errors.is_empty() {
            Ok(self.bytes)
        } else {
            Err(blame(self.errors.as_slice()))
        }
    }
}

/// What was read of these bodies, joined, or the worst of their errors. The bytes of a body that is alone are moved.
/// Where memory is refused the results come back.
pub(crate) fn join(
    alloc: Global,
    results: Vec<Option<Result<Bytes, Errno>>>,
) -> Result<Result<Bytes, Errno>, Vec<Option<Result<Bytes, Errno>>>>
    ensures found { IfOk result (λ found. found ≡ bytes_or (bodies_in results.items)) }
    ensures back { IfErr result (λ back. back.items ≡ results.items) }
{
    let mut rest = results;
    if rest.len() == 1 {
        match rest.pop() {
            Some(Some(found)) => return Ok(found),
            Some(None) => return Ok(Ok(List::new(alloc))),
            None => unreachable!(),
        }
    }
    match join_all(alloc, &rest) {
        Ok(found) => Ok(found),
        Err(NoMemory) => Err(rest),
    }
}

/// What was read of these bodies, joined, or the worst of their errors.
fn join_all(
    alloc: Global,
    results: &[Option<Result<Bytes, Errno>>],
) -> Result<Result<Bytes, Errno>, NoMemory>
    ensures { IfOk result (λ found. found ≡ bytes_or (bodies_in results.now)) }
{
    let mut joined = Joined::nothing(alloc);
    for found in results {
        joined = joined.and(found)?;
    }
    Ok(joined.into_found())
}
