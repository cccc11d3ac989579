//! The program `zio_picture`: draws what a script's report tells.
//!
//! It reads the two files that its words name, and writes the picture that `zio_drawing` draws of them. Questions for help
//! or the version are answered here, as `about` says, and `told` has the line on standard error that goes with a code other
//! than 0. With such a code nothing is written to standard output, but for a picture that couldn't be written whole.
#![tactic(auto)]

mod about;
mod told;

use about::{Drawn, asked, text_of, to_draw};
use std::alloc::AllocError;
use std::fs::File;
use std::io::{ErrorKind, Read};
use std::process::ExitCode;
use std::{env, fs, io};
use told::{Refusal, code_of, line_of};
use zio_drawing::{DrawingFault, draw};
use zio_outside::{Sink, StdSink};
use zio_script::SCRIPT_LEN_MAX;
use zio_spelled::REPORT_LEN_MAX;

fn main(rt: HostRuntime) -> ExitCode {
    let _stand_ins = [stand_in(&rt), stand_in(&rt), stand_in(&rt)];
    match answer(&rt) {
        Ok(()) => ExitCode::from(0),
        Err(refusal) => {
            explain(&rt, &refusal);
            ExitCode::from(code_of(&refusal))
        }
    }
}

/// Takes the place of a standard stream that the program was started without: a file would be opened there, and the
/// picture be written to it. A directory can be neither read nor written, so the stream fails as it would have.
fn stand_in(rt: &HostRuntime) -> Option<File> {
    File::open(rt, "/").ok()
}

fn answer(rt: &HostRuntime) -> Result<(), Refusal> {
    let words = words(rt).map_err(|_| Refusal::Memory)?;
    match asked(words.as_slice()) {
        Some(question) => {
            let text = text_of(rt.alloc(), question).map_err(|_| Refusal::Memory)?;
            write(rt, text.as_bytes())
        }
        None => match to_draw(words.as_slice()) {
            Some(files) => run(rt, &files),
            None => Err(Refusal::Words),
        },
    }
}

/// The words after the program's name, or no words where one isn't UTF-8, since no command has such a word.
fn words(rt: &HostRuntime) -> Result<Vec<String>, AllocError> {
    let alloc = rt.alloc();
    match env::args(rt) {
        Ok(words) => words.skip(1).collect(alloc),
        Err(error) if error.kind() == ErrorKind::InvalidData => Ok(Vec::new(alloc)),
        Err(_) => Err(AllocError),
    }
}

fn run(rt: &HostRuntime, files: &Drawn<'_>) -> Result<(), Refusal> {
    let script = input(rt, files.script, SCRIPT_LEN_MAX).map_err(|_| Refusal::Script)?;
    let report = input(rt, files.report, REPORT_LEN_MAX).map_err(|_| Refusal::Report)?;
    if report.len() > REPORT_LEN_MAX {
        return Err(Refusal::Drawing(DrawingFault::TooLong));
    }
    match draw(rt.alloc(), files.form, script.as_slice(), report.as_slice()) {
        Ok(picture) => write(rt, picture.as_bytes()),
        Err(fault) => Err(Refusal::Drawing(fault)),
    }
}

/// What a file has, up to one byte more than the most.
fn input(rt: &HostRuntime, name: &str, most: usize) -> io::Result<Vec<u8>> {
    let mut bytes = Vec::new(rt.alloc());
    let mut reader = fs::open(rt, name)?.take((most as u64).saturating_add(1));
    reader.read_to_end(&mut bytes)?;
    Ok(bytes)
}

fn write(rt: &HostRuntime, text: &[u8]) -> Result<(), Refusal> {
    match StdSink::new(rt).write(text) {
        Ok(()) => Ok(()),
        Err(_) => Err(Refusal::Sink),
    }
}

/// Tells in a line on standard error why there is no picture.
fn explain(rt: &HostRuntime, refusal: &Refusal) {
    if let Ok(line) = line_of(rt.alloc(), refusal) {
        let _ = eprintln!(rt; "zio_picture: {line}");
    }
}
