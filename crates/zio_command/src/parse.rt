//! The words of a command as clap reads them, once they are known to be one: docs/FORMATS.md, "Words of a command".

ghost use Rattle.std.specs.Prelude.{◌≡◌, ◌<◌, ◌^◌, [], IfOk, IsErrOf, List, None, Some, ℕ, codes, decimal, map, string_bytes, true};
ghost use Rattle.clap.specs.Matches.{first_value, found_of, matched_of, one_text, raw_values};
ghost use Rattle.clap.specs.Simple.{app_of};
ghost use Rattle.std.specs.Option.{option_map};
ghost use Rattle.zio_command.specs.declared.options.Options.{Options};
ghost use Rattle.zio_command.specs.declared.words.Command.TheVariants.{Gen, Load, Run, Scrub};
ghost use Rattle.zio_command.specs.Parses.{load_app, parsed_of, run_app, size_app};
ghost use Rattle.zio_command.specs.Words.{AreImages, IsSize, IsSplit, IsWithin, or_usual, show_of, workers_of};

use crate::number::{number, number_within};
use crate::options::{WORKERS_MAX, WORKERS_USUAL};
use crate::words::{Command, WordsError};
use clap::{Arg, ArgAction, ArgMatches, Command as Parser, Error};
use std::alloc::Global;
use zio_gen::BLOCKS_MAX;
use zio_report::Show;
use zio_types::{List, Text};

/// What words that were split into options and images ask for.
#[derive(Drop)]
struct Parsed {
    workers: u32,
    picks: Option<u64>,
    show: Show,
    images: List<Text>,
}

/// Reads such words.
fn parse_words(alloc: Global, serial: bool, words: &[String]) -> Result<Parsed, WordsError>
    ensures ok { IfOk result (λ parsed. (options : Options) (names : List (List ℕ))
        → IsSplit serial (map string_bytes words.now) options names → AreImages names
        → parsed ≡ parsed_of serial options names) }
    ensures memory { ¬ IsErrOf result WordsError.Words }
{
    let Ok(parser) = run_parser(alloc, serial) else {
        return Err(WordsError::Memory);
    };
    let Ok(matches) = parser.try_get_matches_from(words) else {
        return Err(WordsError::Memory);
    };
    let workers = workers_in(serial, &matches);
    let picks = picks_in(&matches);
    let show = Show::Report {
        journal: matches.get_flag("journal"),
        bytes: matches.get_flag("data"),
    };
    let images = images_in(alloc, &matches)?;
    Ok(Parsed {
        workers,
        picks,
        show,
        images,
    })
}

/// What they ask for behind `run`.
pub(crate) fn parse_run(
    alloc: Global,
    serial: bool,
    words: &[String],
) -> Result<Command, WordsError>
    ensures ok { IfOk result (λ command. (options : Options) (names : List (List ℕ))
        → IsSplit serial (map string_bytes words.now) options names → AreImages names
        → command ≡ Run (workers_of serial options) options.picks (show_of options) names) }
    ensures memory { ¬ IsErrOf result WordsError.Words }
{
    match parse_words(alloc, serial, words) {
        Ok(
            Parsed {
                workers,
                picks,
                show,
                images,
            },
        ) => Ok(Command::Run {
            workers,
            picks,
            show,
            images,
        }),
        Err(error) => Err(error),
    }
}

/// And behind `scrub`, whose options add nothing to a report.
pub(crate) fn parse_scrub(alloc: Global, words: &[String]) -> Result<Command, WordsError>
    ensures ok { IfOk result (λ command. (options : Options) (names : List (List ℕ))
        → IsSplit true (map string_bytes words.now) options names → AreImages names
        → command ≡ Scrub options.picks names) }
    ensures memory { ¬ IsErrOf result WordsError.Words }
{
    match parse_words(alloc, true, words) {
        Ok(Parsed { picks, images, .. }) => Ok(Command::Scrub { picks, images }),
        Err(error) => Err(error),
    }
}

/// What a seed and a number of blocks ask for.
pub(crate) fn parse_gen(alloc: Global, words: &[String]) -> Result<Command, WordsError>
    ensures ok { IfOk result (λ command. (seed n : ℕ) → IsSize (map string_bytes words.now) seed n []
        → command ≡ Gen seed n) }
    ensures memory { ¬ IsErrOf result WordsError.Words }
{
    let Ok(parser) = size_parser(alloc, "gen") else {
        return Err(WordsError::Memory);
    };
    let Ok(matches) = parser.try_get_matches_from(words) else {
        return Err(WordsError::Memory);
    };
    Ok(Command::Gen {
        seed: number_in(&matches, "seed", 0, u32::MAX),
        n: number_in(&matches, "n", 1, BLOCKS_MAX),
    })
}

/// What a seed, a number of blocks and images ask for.
pub(crate) fn parse_load(alloc: Global, words: &[String]) -> Result<Command, WordsError>
    ensures ok { IfOk result (λ command. (seed n : ℕ) (names : List (List ℕ))
        → IsSize (map string_bytes words.now) seed n names → AreImages names → command ≡ Load seed n names) }
    ensures memory { ¬ IsErrOf result WordsError.Words }
{
    let Ok(parser) = load_parser(alloc) else {
        return Err(WordsError::Memory);
    };
    let Ok(matches) = parser.try_get_matches_from(words) else {
        return Err(WordsError::Memory);
    };
    let images = images_in(alloc, &matches)?;
    Ok(Command::Load {
        seed: number_in(&matches, "seed", 0, u32::MAX),
        n: number_in(&matches, "n", 1, BLOCKS_MAX),
        images,
    })
}

/// What clap is told of `run` and of `scrub`.
fn run_parser<'a>(alloc: Global, serial: bool) -> Result<Parser<'a>, Error>
    ensures { IfOk result (λ parser. app_of parser ≡ run_app serial) }
{
    let journal = Arg::new(alloc, "journal")
        .long("journal")
        .action(ArgAction::SetTrue);
    let data = Arg::new(alloc, "data")
        .long("data")
        .action(ArgAction::SetTrue);
    let image = Arg::new(alloc, "image").action(ArgAction::Append);
    let parser = Parser::new(alloc, "run")
        .disable_help_flag(true)
        .no_binary_name(true)
        .arg(journal)?
        .arg(data)?
        .arg(image)?;
    let name = if serial { "picks" } else { "workers" };
    let value = Arg::new(alloc, name).long(name);
    Ok(parser.arg(value)?)
}

/// What clap is told of a command with a seed and a number of blocks.
fn size_parser<'a>(alloc: Global, name: &'a str) -> Result<Parser<'a>, Error>
    ensures { IfOk result (λ parser. app_of parser ≡ size_app name.now) }
{
    let seed = Arg::new(alloc, "seed");
    let n = Arg::new(alloc, "n");
    let parser = Parser::new(alloc, name)
        .disable_help_flag(true)
        .no_binary_name(true)
        .arg(seed)?
        .arg(n)?;
    Ok(parser)
}

/// What clap is told of `load`.
fn load_parser<'a>(alloc: Global) -> Result<Parser<'a>, Error>
    ensures { IfOk result (λ parser. app_of parser ≡ load_app) }
{
    let image = Arg::new(alloc, "image").action(ArgAction::Append);
    Ok(size_parser(alloc, "load")?.arg(image)?)
}

/// The number of this name, or the least where there is none within the bounds.
fn number_in(matches: &ArgMatches, id: &str, least: u32, most: u32) -> u32
    ensures { (n : ℕ) → IsWithin least most n → first_value (found_of matches.now) id.now ≡ Some (decimal n)
        → result ≡ n }
{
    match matches.get_str(id) {
        Some(word) => match number_within(word, least, most) {
            Some(n) => n,
            None => least,
        },
        None => least,
    }
}

/// How many workers were asked for, or the usual number.
fn workers_in(serial: bool, matches: &ArgMatches) -> u32
    ensures usual { first_value (found_of matches.now) (codes "workers") ≡ None → result ≡ or_usual serial None }
    ensures given { (n : ℕ) → IsWithin 1 WORKERS_MAX n → first_value (found_of matches.now) (codes "workers") ≡ Some (decimal n) → result ≡ n }
{
    match matches.get_str("workers") {
        Some(word) => match number_within(word, 1, WORKERS_MAX) {
            Some(n) => n,
            None => WORKERS_USUAL,
        },
        None if serial => 1,
        None => WORKERS_USUAL,
    }
}

/// The seed of the picks, where one was asked for.
fn picks_in(matches: &ArgMatches) -> Option<u64>
    ensures none { first_value (found_of matches.now) (codes "picks") ≡ None → result ≡ None }
    ensures given { (seed : ℕ) → seed < 2 ^ 64 → first_value (found_of matches.now) (codes "picks") ≡ Some (decimal seed) → result ≡ Some seed }
{
    match matches.get_str("picks") {
        Some(word) => number(word),
        None => None,
    }
}

/// The images, in the order of the words.
fn images_in(alloc: Global, matches: &ArgMatches) -> Result<List<Text>, WordsError>
    ensures ok { IfOk result (λ images. (names : List (List ℕ)) → option_map raw_values (matched_of (found_of matches.now) (codes "image")) ≡ Some names → images ≡ names) }
    ensures memory { ¬ IsErrOf result WordsError.Words }
{
    match matches.get_strs("image") {
        Some(names) => texts_of(alloc, names),
        None => Ok(List::new(alloc)),
    }
}

fn texts_of(alloc: Global, names: &[&str]) -> Result<List<Text>, WordsError>
    ensures ok { IfOk result (λ texts. texts ≡ map (λ name. name.now) names.now) }
    ensures memory { ¬ IsErrOf result WordsError.Words }
{
    let mut texts = List::new(alloc);
    for name in names {
        let text = text_of(alloc, name)?;
        if texts.push(text).is_err() {
            return Err(WordsError::Memory);
        }
    }
    Ok(texts)
}

fn text_of(alloc: Global, name: &str) -> Result<Text, WordsError>
    ensures ok { IfOk result (λ text. text ≡ name.now) }
    ensures memory { ¬ IsErrOf result WordsError.Words }
{
    let mut text = Text::new(alloc);
    match text.push_str(name) {
        Ok(()) => Ok(text),
        Err(_) => Err(WordsError::Memory),
    }
}
