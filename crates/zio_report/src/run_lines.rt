ghost use Rattle.std.specs.Prelude.{◌≡◌, IfOk};
ghost use Rattle.zio_report.specs.Reports.{end_text, held_text, pool_text};

use std::alloc::Global;
use zio_gang::Ending;
use zio_types::{NoMemory, Text};

/// The first line of a report: how many tops the script has, and how many images were given.
pub fn pool_line(alloc: Global, tops: usize, images: usize) -> Result<Text, NoMemory>
    ensures { IfOk result (λ text. text ≡ pool_text tops images) }
{
    Ok(Text::from_string(format!(in alloc; "pool {tops} {images}\n")?))
}

/// The line of a batch that is held at its `go`.
pub fn held_line(alloc: Global, batch: u32) -> Result<Text, NoMemory>
    ensures { IfOk result (λ text. text ≡ held_text batch) }
{
    Ok(Text::from_string(format!(in alloc; "held {batch}\n")?))
}

/// The last line of a report, with the code of the ending.
pub fn end_line(ending: Ending) -> &'static str
    ensures { result.now ≡ end_text ending }
{
    match ending {
        Ending::Complete => "end 0\n",
        Ending::Panic => "end 4\n",
        Ending::Left => "end 9\n",
    }
}
