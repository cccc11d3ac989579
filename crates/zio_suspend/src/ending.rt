//! How a run ended.

ghost use Rattle.std.specs.Prelude.{◌≡◌, ◌||◌};
ghost use Rattle.zio_course.specs.Folds.{has_items};
ghost use Rattle.zio_suspend.specs.Ends.{ending_with};

use std::collections::VecDeque;
use zio_course::{Batch, Fold};
use zio_gang::Ending;

/// A panic, or what is left: trees that are suspended, or batches that are held.
pub(crate) fn ending_of<'a, T: Drop>(fold: &Fold<'a, T>, held: &VecDeque<Batch<'a>>) -> Ending
    ensures { result ≡ ending_with fold.now.panicked (has_items fold.now.suspended || has_items held.now.items) }
{
    if fold.panicked {
        Ending::Panic
    } else if !fold.suspended.is_empty() || !held.is_empty() {
        Ending::Left
    } else {
        Ending::Complete
    }
}
