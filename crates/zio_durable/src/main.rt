//! The program `zio_durable`: runs a script on image files, and syncs them after each round.
//!
//! It joins `zio_durable_main` to standard input, standard output and files, and ends with its code as the exit status.
//! What a run does is the contract of that call. Questions for help or the version are answered here; `zio_program` has
//! them, and the line on standard error that goes with a code other than 0.
#![tactic(auto)]

mod about;

use about::{ABOUT, USAGE};
use std::alloc::AllocError;
use std::env;
use std::fs::File;
use std::io::ErrorKind;
use std::process::ExitCode;
use zio_command::{CODE_DEVICE, CODE_MEMORY, CODE_SINK};
use zio_outside::{FileShelf, Sink, StdSink, StdSource};
use zio_program::{Watched, asked_alone, line_of, text_of};
use zio_run::zio_durable_main;
use zio_types::Journal;

fn main(rt: HostRuntime) -> ExitCode {
    let _stand_ins = [stand_in(&rt), stand_in(&rt), stand_in(&rt)];
    let code = match words(&rt) {
        Ok(words) => answer(&rt, words.as_slice()),
        Err(_) => CODE_MEMORY,
    };
    ExitCode::from(code)
}

/// Takes the place of a standard stream that the program was started without: an image would be opened there, and be
/// overwritten by the report. A directory can be neither read nor written, so the stream fails as it would have.
fn stand_in(rt: &HostRuntime) -> Option<File> {
    File::open(rt, "/").ok()
}

/// The words after the program's name, or no words where one isn't UTF-8, since no command has such a word.
fn words(rt: &HostRuntime) -> Result<Vec<String>, AllocError> {
    let alloc = rt.alloc();
    match env::args(rt) {
        Ok(words) => words.skip(1).collect(alloc),
        Err(error) if error.kind() == ErrorKind::InvalidData => Ok(Vec::new(alloc)),
        Err(_) => Err(AllocError),
    }
}

fn answer(rt: &HostRuntime, words: &[String]) -> u8 {
    match asked_alone(words) {
        Some(question) => match text_of(rt.alloc(), ABOUT, question) {
            Ok(text) => tell(rt, text.as_str()),
            Err(_) => CODE_MEMORY,
        },
        None => run(rt, words),
    }
}

fn tell(rt: &HostRuntime, text: &str) -> u8 {
    match StdSink::new(rt).write(text.as_bytes()) {
        Ok(()) => 0,
        Err(_) => CODE_SINK,
    }
}

fn run(rt: &HostRuntime, words: &[String]) -> u8 {
    let alloc = rt.alloc();
    let mut script = StdSource::new(rt);
    let mut shelf = FileShelf::new(rt);
    let mut out = Watched::new(StdSink::new(rt));
    let mut journal = Journal::new(alloc);
    let status = zio_durable_main(
        alloc,
        words,
        &mut script,
        &mut shelf,
        &mut out,
        &mut journal,
    );
    if status.code != 0 {
        explain(rt, status.code, out.front(), words);
    }
    status.code
}

/// Tells in a line on standard error what the code means here. It says more than the code does, and changes nothing.
fn explain(rt: &HostRuntime, code: u8, front: &[u8], words: &[String]) {
    let line = match code {
        CODE_DEVICE => format!(in rt.alloc();
            "an image can't be read, written or synced; the report ends with the last whole round"
        ),
        _ => line_of(rt, rt.alloc(), USAGE, code, front, words),
    };
    if let Ok(line) = line {
        let _ = eprintln!(rt; "zio_durable: {line}");
    }
}
