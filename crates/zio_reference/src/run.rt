//! From the words of a command to the ending of its run.

ghost use Rattle.std.specs.Prelude.{ℕ, List as Seq};
ghost use Rattle.zio_script.specs.Grammar.{IsScriptOf};
ghost use Rattle.zio_command.specs.Words.{AreImages};

use crate::refusal::Refusal;
use crate::rounds::run_on_disks;
use std::io;
use std::io::{ErrorKind, Read};
use zio_command::{Command, ImagesFault, WordsError, fetch_images, give_back_images, read_words};
use zio_gang::Ending;
use zio_outside::{FileShelf, StdSink};
use zio_report::Show;
use zio_script::{SCRIPT_LEN_MAX, Script, ScriptError, read_script};
use zio_types::Text;

/// Runs the script on standard input over the images that the words name.
pub(crate) fn run(rt: &HostRuntime, words: &[String]) -> Result<Ending, Refusal> {
    match read_words(rt.alloc(), true, words) {
        Ok(Command::Run { show, images, .. }) => run_input(rt, &show, images.as_slice()),
        Ok(_) => Err(Refusal::Words),
        Err(WordsError::Words) => Err(Refusal::Words),
        Err(WordsError::Memory) => Err(Refusal::Memory),
    }
}

/// Runs the script on standard input over the images of these names.
fn run_input(rt: &HostRuntime, show: &Show, names: &[Text]) -> Result<Ending, Refusal>
    requires { AreImages names.now }
{
    let text = match input(rt) {
        Ok(text) => text,
        Err(error) if error.kind() == ErrorKind::OutOfMemory => return Err(Refusal::Memory),
        Err(_) => return Err(Refusal::Source),
    };
    match read_script(rt.alloc(), text.as_slice()) {
        Ok(script) => run_on_files(rt, &script, show, names),
        Err(ScriptError::Fault(fault)) => Err(Refusal::Script(fault)),
        Err(ScriptError::Memory) => Err(Refusal::Memory),
    }
}

/// What standard input has, up to one byte more than a script may have.
fn input(rt: &HostRuntime) -> io::Result<Vec<u8>> {
    let mut bytes = Vec::new(rt.alloc());
    let mut reader = rt.reader().take(SCRIPT_LEN_MAX as u64 + 1);
    reader.read_to_end(&mut bytes)?;
    Ok(bytes)
}

/// Fetches the images of these names, runs the script over them and gives them back.
fn run_on_files(
    rt: &HostRuntime,
    script: &Script,
    show: &Show,
    names: &[Text],
) -> Result<Ending, Refusal>
    requires script { (text : Seq ℕ) × IsScriptOf text script.now }
    requires names { AreImages names.now }
{
    let alloc = rt.alloc();
    let mut shelf = FileShelf::new(rt);
    match fetch_images(alloc, names, &mut shelf) {
        Ok(disks) => {
            let (ended, disks) = run_on_disks(alloc, script, show, disks, &mut StdSink::new(rt));
            give_back_images(disks, &mut shelf);
            ended
        }
        Err(ImagesFault::Failed(leaf)) => Err(Refusal::Image(leaf)),
        Err(ImagesFault::Size(leaf)) => Err(Refusal::Image(leaf)),
        Err(ImagesFault::Memory) => Err(Refusal::Memory),
    }
}
