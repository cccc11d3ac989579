//! The answer of an audit.
ghost use Rattle.std.specs.Prelude.{◌≡◌};
ghost use Rattle.zio_audit.specs.Verdicts.{why_number};

/// What an audit says of a run.
#[derive(Clone, Copy, Debug, PartialEq, Eq)]
pub enum Verdict {
    /// The run is what the script means under the journal that its report spells.
    Yes,
    /// It isn't: the number of the first reason that applies.
    No { why: u32 },
}

/// A reason to say no. The first that applies is told.
#[derive(Clone, Copy, Debug, PartialEq, Eq)]
pub enum Why {
    /// The script isn't accepted, or a top names a leaf without an image.
    Script,
    /// A line of the journal isn't of its shape, or stands before every round.
    Lines,
    /// The entries aren't lawful for what the script asks.
    Places,
    /// The completions aren't those of the requests that finished, each once and after its children.
    Completions,
    /// The report isn't the text of the run.
    Text,
    /// The images aren't those that the run leaves.
    Images,
}

impl Why {
    /// From 1.
    pub fn number(self) -> u32
        ensures { result ≡ why_number self }
    {
        match self {
            Why::Script => 1,
            Why::Lines => 2,
            Why::Places => 3,
            Why::Completions => 4,
            Why::Text => 5,
            Why::Images => 6,
        }
    }
}
