//! Questions about the program itself, and their answers.

ghost use Rattle.std.specs.Prelude.{◌≡◌, map, string_bytes};
ghost use Rattle.zio_program.specs.Questions.{asked_alone, asked_by, asked_by_one, asked_by_two, is_help};

use clap::{Arg, ArgAction, Command};
use std::alloc::{AllocError, Global};

/// What a program says of itself.
#[derive(Clone, Copy)]
pub struct About<'a> {
    pub name: &'a str,
    /// In one sentence.
    pub purpose: &'a str,
    /// Its forms, a line each, those behind the first indented to stand under it.
    pub usage: &'a str,
    /// What stands behind the usage.
    pub rest: &'a str,
}

/// What a single word asks of the program itself.
#[derive(Clone, Copy)]
pub enum Question {
    Help,
    Version,
}

fn is_help(word: &str) -> bool
    ensures { result ≡ is_help word.now }
{
    word == "--help" || word == "-h"
}

fn asked_by_one(word: &str) -> Option<Question>
    ensures { result ≡ asked_by_one word.now }
{
    if is_help(word) {
        Some(Question::Help)
    } else if word == "--version" {
        Some(Question::Version)
    } else {
        None
    }
}

fn asked_by_two(first: &str, word: &str) -> Option<Question>
    ensures { result ≡ asked_by_two first.now word.now }
{
    if first == "run" && is_help(word) {
        Some(Question::Help)
    } else {
        None
    }
}

/// The question that these words are, none where they are for the top call.
pub fn asked(words: &[String]) -> Option<Question>
    ensures { result ≡ asked_by (map string_bytes words.now) }
{
    match words {
        [word] => asked_by_one(word.as_str()),
        [first, word] => asked_by_two(first.as_str(), word.as_str()),
        _ => None,
    }
}

/// The same in a program without commands.
pub fn asked_alone(words: &[String]) -> Option<Question>
    ensures { result ≡ asked_alone (map string_bytes words.now) }
{
    match words {
        [only] => asked_by_one(only.as_str()),
        _ => None,
    }
}

/// The answer, which ends with a newline.
pub fn text_of(alloc: Global, about: About<'_>, question: Question) -> Result<String, AllocError> {
    let mut command = command(alloc, about)?;
    match question {
        Question::Help => command.render_help(),
        Question::Version => command.render_version(),
    }
}

fn command<'a>(alloc: Global, about: About<'a>) -> Result<Command<'a>, AllocError> {
    let help = Arg::new(alloc, "help")
        .long("help")
        .action(ArgAction::Help)
        .help("Print this text");
    let version = Arg::new(alloc, "version")
        .long("version")
        .action(ArgAction::Version)
        .help("Print the version");
    Command::new(alloc, about.name)
        .version("0.1.0")
        .about(about.purpose)
        .override_usage(about.usage)
        .after_help(about.rest)
        .disable_help_flag(true)
        .disable_version_flag(true)
        .arg(help)?
        .arg(version)
}
