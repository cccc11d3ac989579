ghost use Rattle.std.specs.Prelude.{◌≡◌};
ghost use Rattle.zio_command.specs.Modes.{running, scrubbing};

use zio_report::Show;

/// How a script is run.
#[derive(Clone, Copy, Debug, PartialEq, Eq)]
pub struct RunMode {
    pub show: Show,
    /// The blocks that the run leaves bound are scrubbed, unless it ended in a panic.
    pub scrubs: bool,
}

/// Runs it and shows this.
pub(crate) fn running(show: Show) -> RunMode
    ensures { result ≡ running show }
{
    RunMode {
        show,
        scrubs: false,
    }
}

/// Runs it with a report of no options, and scrubs its pool.
pub(crate) fn scrubbing() -> RunMode
    ensures { result ≡ scrubbing }
{
    RunMode {
        show: Show::Report {
            journal: false,
            bytes: false,
        },
        scrubs: true,
    }
}
