//! The ends of requests that admission answered.

ghost use Rattle.std.specs.Prelude.{◌≡◌, ◌++◌, IfOk, OnOk, reverse};
ghost use Rattle.zio_script.specs.Requests.{requests_of};
ghost use Rattle.zio_course.specs.Admissions.{error_in};
ghost use Rattle.zio_course.specs.Answered.{answered_by, answered_in};

use crate::admission::Admission;
use crate::lines::last_line;
use std::alloc::Global;
use zio_script::Item;
use zio_types::{Completion, List, NoMemory};

/// The completions of a batch's requests that admission answered, in the round of this number. The last comes first, so
/// that children, which stand behind their parents, complete before them.
pub fn answered_ends(
    alloc: Global,
    batch: &[Item],
    admission: &Admission,
    round: u32,
) -> Result<List<Completion>, NoMemory>
    ensures { IfOk result
        (λ done. done ≡ reverse (answered_in (error_in admission.now.slots.entries admission.now.rules.items) round
        (requests_of batch.now))) }
{
    let mut done = List::new(alloc);
    let mut rest = batch;
    while let Some((item, front)) = last_line(rest) {
        answer_line(&mut done, item, admission, round)?;
        rest = front;
    }
    Ok(done)
}

/// Adds the completion of a line's request, if it is one that was answered.
fn answer_line(
    done: &mut List<Completion>,
    item: &Item,
    admission: &Admission,
    round: u32,
) -> Result<(), NoMemory>
    ensures { OnOk result (done.new ≡ done.old
        ++ answered_by (error_in admission.now.slots.entries admission.now.rules.items) round item.now) }
{
    let Item::Request(request) = item else {
        return Ok(());
    };
    let Some(error) = admission.error_of(request.number) else {
        return Ok(());
    };
    done.push(Completion {
        request: request.number,
        round,
        error: Some(error),
    })?;
    Ok(())
}
