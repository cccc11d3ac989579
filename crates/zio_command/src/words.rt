//! The words of a command: docs/FORMATS.md, "Words of a command".

ghost use Rattle.std.specs.Prelude.{◌∷◌, true, IfOk, IsErrOf, MatchOption, codes, map, string_bytes};
ghost use Rattle.zio_command.specs.declared.words.Command.{Command as Asked};
ghost use Rattle.zio_command.specs.Words.{IsCommandOf, IsNoCommandOf, IsSize, NoSize};

use crate::names::are_images;
use crate::number::number_within;
use crate::options::{first_word, options_of};
use crate::parse::{parse_gen, parse_load, parse_run, parse_scrub};
use std::alloc::Global;
use zio_gen::BLOCKS_MAX;
use zio_report::Show;
use zio_types::{List, Text};

/// What the words of a command ask for.
#[derive(Debug, Drop)]
pub enum Command {
    /// Runs a script over images.
    Run {
        /// 1 to 16; 1 on one thread.
        workers: u32,
        /// The seed of the picks, where it is asked for; none with workers.
        picks: Option<u64>,
        show: Show,
        images: List<Text>,
    },
    /// Runs a script over images, with a report of no options, and scrubs the blocks that it leaves bound.
    Scrub {
        /// The seed of the picks, where it is asked for.
        picks: Option<u64>,
        images: List<Text>,
    },
    /// Writes the script of `n` blocks from a seed.
    Gen {
        seed: u32,
        n: u32,
    },
    /// Runs that script over images.
    Load {
        seed: u32,
        n: u32,
        images: List<Text>,
    },
}

/// Why no command was read.
#[derive(Clone, Copy, Debug, PartialEq, Eq)]
pub enum WordsError {
    /// The words are no command of the program.
    Words,
    /// Want of memory.
    Memory,
}

/// The command of these words, which stand behind the program's name: of the program on one thread, or of that with
/// workers.
///
/// Both have `run`, and the first `scrub`, `gen` and `load` too.
pub fn read_words(alloc: Global, serial: bool, words: &[String]) -> Result<Command, WordsError>
    ensures ok { IfOk result (IsCommandOf serial (map string_bytes words.now)) }
    ensures words { IsErrOf result WordsError.Words → IsNoCommandOf serial (map string_bytes words.now) }
    ensures memory { IsErrOf result WordsError.Memory → (command : Asked)
        × IsCommandOf serial (map string_bytes words.now) command }
{
    let Some((verb, rest)) = first_word(words) else {
        return Err(WordsError::Words);
    };
    if verb == "run" {
        read_run(alloc, serial, rest)
    } else if serial && verb == "scrub" {
        read_scrub(alloc, rest)
    } else if serial && verb == "gen" {
        read_gen(alloc, rest)
    } else if serial && verb == "load" {
        read_load(alloc, rest)
    } else {
        Err(WordsError::Words)
    }
}

/// The command of the words behind `run`.
fn read_run(alloc: Global, serial: bool, words: &[String]) -> Result<Command, WordsError>
    ensures ok { IfOk result (IsCommandOf serial (codes "run" ∷ map string_bytes words.now)) }
    ensures words { IsErrOf result WordsError.Words → IsNoCommandOf serial (codes "run" ∷ map string_bytes words.now) }
    ensures memory { IsErrOf result WordsError.Memory → (command : Asked) × IsCommandOf serial (codes "run" ∷ map string_bytes words.now) command }
{
    match options_of(serial, words) {
        Some((_, names)) if are_images(names) => parse_run(alloc, serial, words),
        _ => Err(WordsError::Words),
    }
}

/// The command of the words behind `scrub`.
fn read_scrub(alloc: Global, words: &[String]) -> Result<Command, WordsError>
    ensures ok { IfOk result (IsCommandOf true (codes "scrub" ∷ map string_bytes words.now)) }
    ensures words { IsErrOf result WordsError.Words → IsNoCommandOf true (codes "scrub" ∷ map string_bytes words.now) }
    ensures memory { IsErrOf result WordsError.Memory → (command : Asked) × IsCommandOf true (codes "scrub" ∷ map string_bytes words.now) command }
{
    match options_of(true, words) {
        Some((options, names)) if options.is_plain() && are_images(names) => {
            parse_scrub(alloc, words)
        }
        _ => Err(WordsError::Words),
    }
}

/// The command of the words behind `gen`.
fn read_gen(alloc: Global, words: &[String]) -> Result<Command, WordsError>
    ensures ok { IfOk result (IsCommandOf true (codes "gen" ∷ map string_bytes words.now)) }
    ensures words { IsErrOf result WordsError.Words → IsNoCommandOf true (codes "gen" ∷ map string_bytes words.now) }
    ensures memory { IsErrOf result WordsError.Memory → (command : Asked) × IsCommandOf true (codes "gen" ∷ map string_bytes words.now) command }
{
    match size_of(words) {
        Some((_, _, rest)) if rest.is_empty() => parse_gen(alloc, words),
        _ => Err(WordsError::Words),
    }
}

/// The command of the words behind `load`.
fn read_load(alloc: Global, words: &[String]) -> Result<Command, WordsError>
    ensures ok { IfOk result (IsCommandOf true (codes "load" ∷ map string_bytes words.now)) }
    ensures words { IsErrOf result WordsError.Words → IsNoCommandOf true (codes "load" ∷ map string_bytes words.now) }
    ensures memory { IsErrOf result WordsError.Memory → (command : Asked) × IsCommandOf true (codes "load" ∷ map string_bytes words.now) command }
{
    match size_of(words) {
        Some((_, _, names)) if are_images(names) => parse_load(alloc, words),
        _ => Err(WordsError::Words),
    }
}

/// The seed and the number of blocks with which the words begin, and the words behind them.
fn size_of(words: &[String]) -> Option<(u32, u32, &[String])>
    ensures { MatchOption result (NoSize (map string_bytes words.now))
        (λ split. IsSize (map string_bytes words.now) split.0 split.1 (map string_bytes split.2.now)) }
{
    let (seed, rest) = first_word(words)?;
    let seed = number_within(seed, 0, u32::MAX)?;
    let (n, rest) = first_word(rest)?;
    let n = number_within(n, 1, BLOCKS_MAX)?;
    Some((seed, n, rest))
}
