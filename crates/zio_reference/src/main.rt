//! The program `zio_reference`: runs a script on image files by the definitions themselves, on one thread.
//!
//! It takes the words of `zio_serial run`, reads the script from standard input and runs it on `zio_plain`: tree by
//! tree and depth first, with no stage, no queue and no picks. So what the engine of `zio_serial` does can be compared
//! with it, and timed beside it. `--picks` is read and has no effect. Report, images and exit status are those of
//! docs/FORMATS.md. No clause says so of the whole: it is proved that every call is safe and ends, and the examples are
//! run on it.
#![tactic(auto)]

mod pool;
mod refusal;
mod rounds;
mod run;

use refusal::{code_of, refuse};
use run::run;
use std::alloc::AllocError;
use std::env;
use std::fs::File;
use std::io::ErrorKind;
use std::process::ExitCode;
use zio_command::CODE_MEMORY;

fn main(rt: HostRuntime) -> ExitCode {
    let _stand_ins = [stand_in(&rt), stand_in(&rt), stand_in(&rt)];
    let code = match words(&rt) {
        Ok(words) => match run(&rt, words.as_slice()) {
            Ok(ending) => code_of(ending),
            Err(refusal) => refuse(&rt, refusal),
        },
        Err(_) => CODE_MEMORY,
    };
    ExitCode::from(code)
}

/// Takes the place of a standard stream that the program was started without: an image would be opened there, and be
/// overwritten by the report. A directory can be neither read nor written, so the stream fails as it would have.
fn stand_in(rt: &HostRuntime) -> Option<File> {
    File::open(rt, "/").ok()
}

/// The words after the program's name, or no words where one isn't UTF-8, since no command has such a word.
fn words(rt: &HostRuntime) -> Result<Vec<String>, AllocError> {
    let alloc = rt.alloc();
    match env::args(rt) {
        Ok(words) => words.skip(1).collect(alloc),
        Err(error) if error.kind() == ErrorKind::InvalidData => Ok(Vec::new(alloc)),
        Err(_) => Err(AllocError),
    }
}
