//! The reader: a text's lines in turn, each after those before it.
ghost use Rattle.std.specs.Prelude.{IfErr, IfOk};
ghost use Rattle.zio_script.specs.Builders.{IsReason};
ghost use Rattle.zio_script.specs.Grammar.{IsScriptOf};

use crate::builder::Builder;
use crate::refusal::Refusal;
use crate::word::{next_line, split_words};
use crate::{Script, ScriptError, Why};
use std::alloc::Global;

/// The most bytes of a script.
pub const SCRIPT_LEN_MAX: usize = 16 * 1024 * 1024;

/// The script that a text is, or its first faulty line with the number of the least `Why`. Line 0 says that the text
/// has more than `SCRIPT_LEN_MAX` bytes; a fault at the end has the number after the last line's.
pub fn read_script(alloc: Global, bytes: &[u8]) -> Result<Script, ScriptError>
    ensures script { IfOk result (IsScriptOf bytes.now) }
    ensures fault { IfErr result (IsReason bytes.now) }
{
    if bytes.len() > SCRIPT_LEN_MAX {
        return Err(Refusal::Faulty(Why::Limit).at(0));
    }
    let mut builder = Builder::new(alloc);
    let mut words = Vec::new(alloc);
    let mut rest = bytes;
    let mut line = 1;
    while let Some((first, behind)) = next_line(rest) {
        split_words(first, &mut words)?;
        if let Err(refusal) = builder.add_words(alloc, &words) {
            return Err(refusal.at(line));
        }
        rest = behind;
        line += 1;
    }
    builder.finish(line)
}
