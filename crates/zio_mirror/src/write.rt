ghost use Rattle.std.specs.Prelude.{◌≡◌, ◌<◌, length};
ghost use Rattle.zio_types.specs.Errors.{worst_of};
ghost use Rattle.zio_cksum.specs.Blocks.{all_errors, blame};
ghost use Rattle.zio_mirror.specs.Plans.{written_error};

use zio_types::{Errno, worst};

/// The error of a write, from the errors of its parts.
///
/// A place needs one good leaf, and has the worst error where none is good. A block needs all its places
/// (`need_all`), and has the worst of their errors.
pub fn write_result(errors: &[Option<Errno>], need_all: bool) -> Option<Errno>
    requires { 0 < length errors.now }
    ensures { result ≡ written_error need_all errors.now }
{
    if need_all {
        worst_of(errors)
    } else if are_all_errors(errors) {
        Some(blame(errors))
    } else {
        None
    }
}

/// The worst of what failed; where there is nothing, no device is there.
pub(crate) fn blame(errors: &[Option<Errno>]) -> Errno
    ensures { result ≡ blame errors.now }
{
    worst_of(errors).unwrap_or(Errno::Nxio)
}

fn worst_of(errors: &[Option<Errno>]) -> Option<Errno>
    ensures { result ≡ worst_of errors.now }
{
    let mut sum = None;
    for error in errors {
        sum = worst(sum, *error);
    }
    sum
}

fn are_all_errors(errors: &[Option<Errno>]) -> bool
    ensures { result ≡ all_errors errors.now }
{
    for error in errors {
        if error.is_none() {
            return false;
        }
    }
    true
}
