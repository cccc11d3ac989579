ghost use Rattle.std.specs.Prelude.{◌≡◌, ◌∷◌, ◌⊎◌, ℕ, List as Seq, [], IfOk, codes, map, string_bytes};
ghost use Rattle.zio_outside.specs.Memory.{source_fails, source_faults, source_left};
ghost use Rattle.zio_outside.specs.Outside.{Appends, Rose};
ghost use Rattle.zio_row.specs.Row.{HasOneImage, HoldsBlock, blank_image, row_report, row_text, zeros};
ghost use Rattle.zio_row.specs.Sinks.{holds};

use crate::GrowingSink;
use std::alloc::Global;
use zio_command::CODE_MEMORY;
use zio_outside::{MemDisk, MemShelf, MemSource, Sink};
use zio_run::zio_serial_main;
use zio_types::{Bytes, Journal, List, NoMemory, Status, Text};

/// A block is written, and read in the next batch.
const SCRIPT: &[u8] = b"top 0\n1 write x sha256 1 sync fill 41 512\ngo\n2 read x sync\ngo\n";

/// The bytes of the image.
const IMAGE_LEN: usize = 65536;

/// What the run came to.
#[derive(Drop)]
pub struct Ran {
    pub status: Status,
    pub out: GrowingSink,
    pub shelf: MemShelf,
}

/// Writes a block to an image in memory and reads it, by a script of two batches.
///
/// The code is 0: both requests complete. It is 8 where memory is refused, to the call or to what it is given. With
/// code 0 the report is known to the byte, and the image but for the place of the block.
pub fn write_then_read(alloc: Global) -> Ran
    ensures codes { (result.status.code ≡ 0) ⊎ (result.status.code ≡ 8) }
    ensures report { result.status.code ≡ 0 → holds result.out row_report }
    ensures image { result.status.code ≡ 0 → HoldsBlock blank_image result.shelf }
{
    let mut out = GrowingSink::new(alloc);
    match shelf(alloc) {
        Ok(mut shelf) => {
            let status = run_over(alloc, &mut shelf, &mut out);
            Ran { status, out, shelf }
        }
        Err(_) => Ran {
            status: Status { code: CODE_MEMORY },
            out,
            shelf: MemShelf::new(alloc, List::new(alloc)),
        },
    }
}

/// Runs the script over the image of the shelf. The report goes to any sink, and where that fails the code says so.
fn run_over<O: Sink>(alloc: Global, shelf: &mut MemShelf, out: &mut O) -> Status
    requires { HasOneImage blank_image shelf.old }
    ensures codes { ¬ Rose (O.faults out.old) (O.faults out.new) → (result.code ≡ 0) ⊎ (result.code ≡ 8) }
    ensures report { result.code ≡ 0 → Appends (O.holds out.old) (O.holds out.new) row_report }
    ensures image { result.code ≡ 0 → HoldsBlock blank_image shelf.new }
{
    let Ok(words) = words(alloc) else {
        return Status { code: CODE_MEMORY };
    };
    let Ok(mut source) = source(alloc) else {
        return Status { code: CODE_MEMORY };
    };
    let mut journal = Journal::new(alloc);
    zio_serial_main(
        alloc,
        words.as_slice(),
        &mut source,
        shelf,
        out,
        &mut journal,
    )
}

/// `run` and the image's name.
fn words(alloc: Global) -> Result<Vec<String>, NoMemory>
    ensures { IfOk result (λ words. map string_bytes words.items ≡ codes "run" ∷ codes "a" ∷ []) }
{
    let mut words = Vec::new(alloc);
    words.push(String::from_str(alloc, "run")?)?;
    words.push(String::from_str(alloc, "a")?)?;
    Ok(words)
}

/// A source of the script, none of whose calls fails.
fn source(alloc: Global) -> Result<MemSource, NoMemory>
    ensures left { IfOk result (λ source. source_left source ≡ row_text) }
    ensures faults { IfOk result (λ source. source_faults source ≡ 0) }
    ensures fails { IfOk result (λ source. source_fails source ≡ []) }
{
    let mut text = List::new(alloc);
    text.extend_from_slice(SCRIPT)?;
    Ok(MemSource::new(text, List::new(alloc)))
}

/// So many bytes of zero.
fn zeros(alloc: Global, len: usize) -> Result<Bytes, NoMemory>
    ensures { IfOk result (λ bytes. bytes ≡ zeros len) }
{
    Ok(List::from_vec(vec![in alloc; 0; len]?))
}

/// A shelf with one image of zeros, none of whose calls fails, nor one of its disk.
fn shelf(alloc: Global) -> Result<MemShelf, NoMemory>
    ensures { IfOk result (HasOneImage blank_image) }
{
    let mut shelf = MemShelf::new(alloc, List::new(alloc));
    let image = zeros(alloc, IMAGE_LEN)?;
    let name = Text::from_string(String::from_str(alloc, "a")?);
    match shelf.put(name, MemDisk::new(image, List::new(alloc))) {
        Ok(()) => Ok(shelf),
        Err(_) => Err(NoMemory),
    }
}
