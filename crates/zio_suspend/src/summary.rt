//! The text of a summary.

ghost use Rattle.std.specs.Prelude.{◌≡◌, IfOk, length};
ghost use Rattle.zio_script.specs.Requests.{requests_of};
ghost use Rattle.zio_suspend.specs.Ends.{counts_text};

use std::alloc::Global;
use zio_course::Tally;
use zio_gang::Ending;
use zio_report::end_line;
use zio_script::Item;
use zio_types::{NoMemory, Text};

/// The summary of a script with so many requests.
pub(crate) fn summary(
    alloc: Global,
    requests: usize,
    tally: &Tally,
    ending: Ending,
) -> Result<Text, NoMemory>
    ensures { IfOk result (λ text. text ≡ counts_text requests tally.now ending) }
{
    let good = tally.good;
    let bad = tally.bad;
    let read = tally.read;
    let left = (requests as u64).saturating_sub(good as u64 + bad as u64);
    let end = end_line(ending);
    Ok(Text::from_string(format!(in alloc;
        "requests {requests}\nok {good}\nfailed {bad}\nleft {left}\nread {read}\n{end}"
    )?))
}

/// How many of the lines are requests.
pub(crate) fn count_requests(items: &[Item]) -> usize
    ensures { result ≡ length (requests_of items.now) }
{
    let mut count = 0;
    let mut rest = items;
    while let [item, more @ ..] = rest {
        match item {
            Item::Request(_) => count += 1,
            Item::Go | Item::Clear => {}
        }
        rest = more;
    }
    count
}
