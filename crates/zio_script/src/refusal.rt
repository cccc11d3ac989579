//! Why a line is refused, before its number is known.
ghost use Rattle.std.specs.Prelude.{◌≡◌};
ghost use Rattle.zio_script.specs.declared.refusal.Refusal.TheVariants.{Memory};
ghost use Rattle.zio_script.specs.Builders.{error_at, refusal_of};

use crate::{ScriptError, ScriptFault, Why};
use std::alloc::AllocFailed;
use zio_types::NoMemory;

/// Why words are no line, whatever stands before them.
#[derive(Clone, Copy, Debug, PartialEq, Eq)]
pub(crate) enum LineFault {
    /// The words have the shape of no line.
    NoShape,
    /// A word is no number, or no hexadecimal digits, where it has to be.
    NoNumber,
    /// Want of memory.
    Memory,
}

/// Why a line doesn't follow those before it.
#[derive(Debug, Drop)]
pub(crate) enum Refusal {
    /// The least why.
    Faulty(Why),
    /// Want of memory.
    Memory,
}

impl Refusal {
    /// The refusal of the line of this number.
    pub(crate) fn at(self, line: u32) -> ScriptError
        ensures { result ≡ error_at line self }
    {
        match self {
            Refusal::Faulty(why) => ScriptError::Fault(ScriptFault {
                line,
                why: why.number(),
            }),
            Refusal::Memory => ScriptError::Memory,
        }
    }
}

impl<T: Drop> From<AllocFailed<T>> for Refusal {
    ghost from_gives = { λ _ e. e ≡ Memory };

    fn from(_refused: AllocFailed<T>) -> Refusal {
        Refusal::Memory
    }
}

impl From<NoMemory> for Refusal {
    ghost from_gives = { λ _ e. e ≡ Memory };

    fn from(_refused: NoMemory) -> Refusal {
        Refusal::Memory
    }
}

/// The refusal of words that are no line.
pub(crate) fn refusal_of(fault: LineFault) -> Refusal
    ensures { result ≡ refusal_of fault }
{
    match fault {
        LineFault::NoShape => Refusal::Faulty(Why::Word),
        LineFault::NoNumber => Refusal::Faulty(Why::Number),
        LineFault::Memory => Refusal::Memory,
    }
}
