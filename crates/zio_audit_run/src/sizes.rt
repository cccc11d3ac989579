//! The sizes that the files of an audit may have.

ghost use Rattle.std.specs.Prelude.{◌≡◌, ◌↔◌, IsTrue, MatchOption};
ghost use Rattle.zio_audit_run.specs.Files.{AreFit, ArePaired, AreWithinLimits, IsFirstOutside, IsFirstUnlike, IsUnfit, IsWithinLimits, images_among};

use zio_audit::AUDITED_LEN_MAX;
use zio_command::IMAGE_LEN_MIN;
use zio_script::SCRIPT_LEN_MAX;
use zio_spelled::REPORT_LEN_MAX;

/// The first file that is out of its limits, or else the first image after the run with another size than its partner.
pub(crate) fn first_unfit(sizes: &[u64]) -> Option<usize>
    ensures { MatchOption result (AreFit sizes.now) (IsUnfit sizes.now) }
{
    match first_outside(sizes) {
        Some(k) => Some(k),
        None => first_unlike(sizes),
    }
}

fn first_outside(sizes: &[u64]) -> Option<usize>
    ensures { MatchOption result (AreWithinLimits sizes.now) (IsFirstOutside sizes.now) }
{
    for k in 0..sizes.len() {
        if !is_within_limits(k, sizes[k]) {
            return Some(k);
        }
    }
    None
}

fn is_within_limits(k: usize, size: u64) -> bool
    ensures { IsTrue result ↔ IsWithinLimits k size }
{
    match k {
        0 => size <= SCRIPT_LEN_MAX as u64,
        1 => size <= REPORT_LEN_MAX as u64,
        _ => IMAGE_LEN_MIN <= size && size <= AUDITED_LEN_MAX,
    }
}

fn first_unlike(sizes: &[u64]) -> Option<usize>
    ensures { MatchOption result (ArePaired sizes.now) (IsFirstUnlike sizes.now) }
{
    let images = images_among(sizes.len());
    for k in 2 + images..sizes.len() {
        if sizes[k] != sizes[k - images] {
            return Some(k);
        }
    }
    None
}

/// Of so many files, how many are images before the run.
pub(crate) fn images_among(files: usize) -> usize
    ensures { result ≡ images_among files }
{
    files.saturating_sub(2) / 2
}
