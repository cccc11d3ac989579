ghost use Rattle.std.specs.Prelude.{◌≡◌, MatchResult};

use zio_gang::Ending;
use zio_report::RunFault;

/// How the run of a script over images came out.
#[derive(Clone, Copy, Debug, PartialEq, Eq)]
pub enum RunOutcome {
    /// The script was run to its end, or to a panic.
    Ended(Ending),
    /// This leaf has no image of a lawful size.
    Unfit(u32),
    /// The run was cut short, or memory was wanting before it.
    Cut(RunFault),
}

/// How a run came out whose rounds ended so.
pub fn outcome_of(ended: Result<Ending, RunFault>) -> RunOutcome
    ensures { MatchResult ended (λ ending. result ≡ RunOutcome.Ended ending) (λ fault. result ≡ RunOutcome.Cut fault) }
{
    match ended {
        Ok(ending) => RunOutcome::Ended(ending),
        Err(fault) => RunOutcome::Cut(fault),
    }
}
