//! The options of `run` and of `scrub`: docs/FORMATS.md, "Words of a command".

ghost use Rattle.std.specs.Prelude.{◌≡◌, ◌∷◌, ◌↔◌, [], false, true, IsTrue, MatchOption, map, string_bytes};
ghost use Rattle.zio_command.specs.Words.{ArePicks, AreWorkers, IsNext, IsPlain, IsSplit, NoNext, NoPicks, NoSplit, NoWorkers, begins_option, begins_with_dash, is_asked, none_asked, show_of, with_option, workers_of};

use crate::number::{number, number_within};
use zio_report::Show;

/// The most workers that may be asked for.
pub const WORKERS_MAX: u32 = 16;

/// How many workers run where none are asked for.
pub const WORKERS_USUAL: u32 = 4;

/// An option with its value.
#[derive(Clone, Copy, Debug, PartialEq, Eq)]
pub(crate) enum Asked {
    /// The report has the journal's entries and the order of completions.
    Journal,
    /// The report has the bytes that reads gave.
    Bytes,
    /// The picks are made from this seed.
    Picks(u64),
    /// So many workers run the rounds.
    Workers(u32),
}

/// What the options ask for together.
#[derive(Clone, Copy, Debug, PartialEq, Eq)]
pub(crate) struct Options {
    journal: bool,
    bytes: bool,
    picks: Option<u64>,
    workers: Option<u32>,
}

impl Options {
    fn none() -> Options
        ensures { result ≡ none_asked }
    {
        Options {
            journal: false,
            bytes: false,
            picks: None,
            workers: None,
        }
    }

    fn is_asked(&self, asked: Asked) -> bool
        ensures { result ≡ is_asked self.now asked }
    {
        match asked {
            Asked::Journal => self.journal,
            Asked::Bytes => self.bytes,
            Asked::Picks(_) => self.picks.is_some(),
            Asked::Workers(_) => self.workers.is_some(),
        }
    }

    /// With this option too, none where it was asked for already.
    fn with(mut self, asked: Asked) -> Option<Options>
        ensures { MatchOption result (is_asked self asked ≡ true)
            (λ options. (is_asked self asked ≡ false) × (options ≡ with_option self asked)) }
    {
        if self.is_asked(asked) {
            return None;
        }
        match asked {
            Asked::Journal => self.journal = true,
            Asked::Bytes => self.bytes = true,
            Asked::Picks(seed) => self.picks = Some(seed),
            Asked::Workers(n) => self.workers = Some(n),
        }
        Some(self)
    }

    /// How many workers run; one on one thread.
    pub(crate) fn workers(&self, serial: bool) -> u32
        ensures { result ≡ workers_of serial self.now }
    {
        match self.workers {
            Some(n) => n,
            None if serial => 1,
            None => WORKERS_USUAL,
        }
    }

    pub(crate) fn show(&self) -> Show
        ensures { result ≡ show_of self.now }
    {
        Show::Report {
            journal: self.journal,
            bytes: self.bytes,
        }
    }

    /// They add nothing to a report.
    pub(crate) fn is_plain(&self) -> bool
        ensures { IsTrue result ↔ IsPlain self.now }
    {
        !self.journal && !self.bytes
    }
}

/// What the options ask for with which the words begin, and the words behind them; none where a word that begins as an
/// option isn't one, or is asked for twice.
pub(crate) fn options_of(serial: bool, words: &[String]) -> Option<(Options, &[String])>
    ensures { MatchOption result (NoSplit serial (map string_bytes words.now))
        (λ split. IsSplit serial (map string_bytes words.now) split.0 (map string_bytes split.1.now)) }
{
    let mut options = Options::none();
    let mut rest = words;
    while begins_option(rest) {
        let (asked, after) = next_option(serial, rest)?;
        options = options.with(asked)?;
        rest = after;
    }
    Some((options, rest))
}

/// The first word begins as an option does.
fn begins_option(words: &[String]) -> bool
    ensures { result ≡ begins_option (map string_bytes words.now) }
{
    match words {
        [word, ..] => begins_with_dash(word.as_str()),
        [] => false,
    }
}

fn begins_with_dash(word: &str) -> bool
    ensures { result ≡ begins_with_dash word.now }
{
    match word.as_bytes() {
        [first, ..] => *first == b'-',
        [] => false,
    }
}

/// The option of the program with which the words begin, and the words behind it.
fn next_option(serial: bool, words: &[String]) -> Option<(Asked, &[String])>
    ensures { MatchOption result (NoNext serial (map string_bytes words.now))
        (λ next. IsNext serial (map string_bytes words.now) next.0 (map string_bytes next.1.now)) }
{
    let (word, rest) = first_word(words)?;
    if word == "--journal" {
        Some((Asked::Journal, rest))
    } else if word == "--data" {
        Some((Asked::Bytes, rest))
    } else if word == "--picks" && serial {
        picks_asked(rest)
    } else if word == "--workers" && !serial {
        workers_asked(rest)
    } else {
        None
    }
}

/// The seed of the picks with which the words begin, and the words behind it.
fn picks_asked(words: &[String]) -> Option<(Asked, &[String])>
    ensures { MatchOption result (NoPicks (map string_bytes words.now))
        (λ next. ArePicks (map string_bytes words.now) next.0 (map string_bytes next.1.now)) }
{
    let (word, rest) = first_word(words)?;
    let seed = number(word)?;
    Some((Asked::Picks(seed), rest))
}

/// The number of workers with which the words begin, and the words behind it.
fn workers_asked(words: &[String]) -> Option<(Asked, &[String])>
    ensures { MatchOption result (NoWorkers (map string_bytes words.now))
        (λ next. AreWorkers (map string_bytes words.now) next.0 (map string_bytes next.1.now)) }
{
    let (word, rest) = first_word(words)?;
    let n = number_within(word, 1, WORKERS_MAX)?;
    Some((Asked::Workers(n), rest))
}

/// The first word, and those behind it.
pub(crate) fn first_word(words: &[String]) -> Option<(&str, &[String])>
    ensures { MatchOption result (map string_bytes words.now ≡ [])
        (λ split. map string_bytes words.now ≡ split.0.now ∷ map string_bytes split.1.now) }
{
    match words {
        [word, rest @ ..] => Some((word.as_str(), rest)),
        [] => None,
    }
}
