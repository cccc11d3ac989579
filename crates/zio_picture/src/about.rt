//! The words of the program, and its answers to questions about itself.
ghost use Rattle.std.specs.Prelude.{◌≡◌, bytes_eq, codes, map, option_map, string_bytes};
ghost use Rattle.zio_picture.specs.Commands.{asked_by, asked_by_word, drawn_by, files_by, files_of, is_file};

use clap::{Arg, ArgAction, Command as Program};
use std::alloc::{AllocError, Global};
use zio_drawing::Form;

const ABOUT: &str = "Draws what the report of a script of block requests tells.";

pub const USAGE: &str = "zio_picture [--html] SCRIPT REPORT";

const AFTER: &str = "\
SCRIPT and REPORT are files: a script of zio_serial, and the report of its run,
best with --journal, whose lines tell places. The picture goes to standard
output: an SVG, or with --html a page with the SVG in it. It shows the rounds
from top to bottom, the trees of requests with their results and attempts, what
was suspended or held and where it went on, and beside them the space of each
top, sector by sector. What is under the pointer tells its numbers.

Exit status:
  0  the picture was written
  1  the words are no command
  2  the script isn't accepted
  3  the report isn't one, or isn't this script's
  4  the report has more than 10000 lines, or more than 64 MiB
  5  a file couldn't be opened and read
  6  standard output couldn't be written
  8  memory was wanted and not given

Of each status but 0 a line on standard error tells more.";

/// What a single word asks of the program itself.
#[derive(Clone, Copy)]
pub enum Question {
    Help,
    Version,
}

/// What is to be drawn.
#[derive(Clone, Copy)]
pub struct Drawn<'a> {
    pub form: Form,
    /// The names of the files.
    pub script: &'a str,
    pub report: &'a str,
}

/// The question that these words are, none where they are for a picture.
pub fn asked(words: &[String]) -> Option<Question>
    ensures { result ≡ asked_by (map string_bytes words.now) }
{
    match words {
        [word] => asked_by_word(word.as_str()),
        _ => None,
    }
}

fn asked_by_word(word: &str) -> Option<Question>
    ensures { result ≡ asked_by_word word.now }
{
    if word == "--help" || word == "-h" {
        Some(Question::Help)
    } else if word == "--version" {
        Some(Question::Version)
    } else {
        None
    }
}

/// What these words ask to be drawn, none where they are no command.
pub fn to_draw(words: &[String]) -> Option<Drawn<'_>>
    ensures { option_map files_of result ≡ drawn_by (map string_bytes words.now) }
{
    match words {
        [script, report] => files_by(Form::Svg, script.as_str(), report.as_str()),
        [option, script, report] if is_html(option.as_str()) => {
            files_by(Form::Html, script.as_str(), report.as_str())
        }
        _ => None,
    }
}

fn is_html(word: &str) -> bool
    ensures { result ≡ bytes_eq word.now (codes "--html") }
{
    word == "--html"
}

fn files_by<'a>(form: Form, script: &'a str, report: &'a str) -> Option<Drawn<'a>>
    ensures { option_map files_of result ≡ files_by form script.now report.now }
{
    if is_file(script.as_bytes()) && is_file(report.as_bytes()) {
        Some(Drawn {
            form,
            script,
            report,
        })
    } else {
        None
    }
}

fn is_file(word: &[u8]) -> bool
    ensures { result ≡ is_file word.now }
{
    match word {
        [] => false,
        [first, ..] => *first != b'-',
    }
}

/// The answer, which ends with a newline.
pub fn text_of(alloc: Global, question: Question) -> Result<String, AllocError> {
    let mut program = program(alloc)?;
    match question {
        Question::Help => program.render_help(),
        Question::Version => program.render_version(),
    }
}

fn program<'a>(alloc: Global) -> Result<Program<'a>, AllocError> {
    let help = Arg::new(alloc, "help")
        .long("help")
        .action(ArgAction::Help)
        .help("Print this text");
    let version = Arg::new(alloc, "version")
        .long("version")
        .action(ArgAction::Version)
        .help("Print the version");
    let html = Arg::new(alloc, "html")
        .long("html")
        .action(ArgAction::SetTrue)
        .help("Write a page of HTML with the picture in it");
    Program::new(alloc, "zio_picture")
        .version("0.1.0")
        .about(ABOUT)
        .override_usage(USAGE)
        .after_help(AFTER)
        .disable_help_flag(true)
        .disable_version_flag(true)
        .arg(help)?
        .arg(version)?
        .arg(html)
}
