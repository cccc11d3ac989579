//! The program `zio_auditor`: tells whether a finished run is what its script means.
//!
//! It joins `audit_telling`, which is `zio_audit_main` and says too where the reason of a no was first seen, to standard
//! output and files, and ends with its code as the exit status. What it answers is the contract of that call. Questions
//! for help or the version are answered here; `zio_program` has them, and `told` the line on standard error that goes with
//! a code other than 0.
#![tactic(auto)]

mod about;
mod told;

use about::ABOUT;
use std::alloc::AllocError;
use std::env;
use std::fs::File;
use std::io::ErrorKind;
use std::process::ExitCode;
use told::line_of;
use zio_audit::Seen;
use zio_audit_run::audit_telling;
use zio_command::{CODE_MEMORY, CODE_SINK};
use zio_outside::{FileShelf, Sink, StdSink};
use zio_program::{Watched, asked_alone, text_of};

fn main(rt: HostRuntime) -> ExitCode {
    let _stand_ins = [stand_in(&rt), stand_in(&rt), stand_in(&rt)];
    let code = match words(&rt) {
        Ok(words) => answer(&rt, words.as_slice()),
        Err(_) => CODE_MEMORY,
    };
    ExitCode::from(code)
}

/// Takes the place of a standard stream that the program was started without: a file would be opened there, and be
/// overwritten by the answer. A directory can be neither read nor written, so the stream fails as it would have.
fn stand_in(rt: &HostRuntime) -> Option<File> {
    File::open(rt, "/").ok()
}

/// The words after the program's name, or no words where one isn't UTF-8, since no audit has such a word.
fn words(rt: &HostRuntime) -> Result<Vec<String>, AllocError> {
    let alloc = rt.alloc();
    match env::args(rt) {
        Ok(words) => words.skip(1).collect(alloc),
        Err(error) if error.kind() == ErrorKind::InvalidData => Ok(Vec::new(alloc)),
        Err(_) => Err(AllocError),
    }
}

fn answer(rt: &HostRuntime, words: &[String]) -> u8 {
    match asked_alone(words) {
        Some(question) => match text_of(rt.alloc(), ABOUT, question) {
            Ok(text) => tell(rt, text.as_str()),
            Err(_) => CODE_MEMORY,
        },
        None => audit(rt, words),
    }
}

fn tell(rt: &HostRuntime, text: &str) -> u8 {
    match StdSink::new(rt).write(text.as_bytes()) {
        Ok(()) => 0,
        Err(_) => CODE_SINK,
    }
}

fn audit(rt: &HostRuntime, words: &[String]) -> u8 {
    let mut shelf = FileShelf::new(rt);
    let mut out = Watched::new(StdSink::new(rt));
    let mut seen = None;
    let status = audit_telling(rt.alloc(), words, &mut shelf, &mut out, &mut seen);
    if status.code != 0 {
        explain(rt, status.code, out.front(), words, seen);
    }
    status.code
}

/// Tells in a line on standard error what the code means here. It says more than the code does, and changes nothing.
fn explain(rt: &HostRuntime, code: u8, front: &[u8], words: &[String], seen: Option<Seen>) {
    if let Ok(line) = line_of(rt, rt.alloc(), code, front, words, seen) {
        let _ = eprintln!(rt; "zio_auditor: {line}");
    }
}
