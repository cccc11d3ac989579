//! The lines of a block's requests.

ghost use Rattle.std.specs.Prelude.{◌≡◌, ◌+◌, ◌<◌, ◌++◌, ◌^◌, OnOk, string_bytes};
ghost use Rattle.zio_gen.specs.Generated.{body_words, copies_of, form_words, free_line, prio_of, read_line, size_of, sum_of, write_line, write_words};

use std::alloc::AllocError;
use zio_types::SECTOR_SIZE;

/// Sizes of blocks, in sectors, go from one to so many.
const SECTORS_MAX: u64 = 32;

/// A block's checksum.
fn sum_word(block: u64) -> &'static str
    ensures { result.now ≡ sum_of block }
{
    if block % 4 < 2 { "sha256" } else { "fletcher4" }
}

/// The class of a block's requests.
fn prio_word(block: u64) -> &'static str
    ensures { result.now ≡ prio_of block }
{
    if block % 2 == 0 { "sync" } else { "async" }
}

fn copies(seed: u64, block: u64) -> u64
    requires seed { seed < 2 ^ 32 }
    requires block { block < 2 ^ 32 }
    ensures { result ≡ copies_of seed block }
{
    1 + (block + seed) % 2
}

/// A block's size in bytes.
fn size(seed: u64, block: u64) -> u64
    requires seed { seed < 2 ^ 32 }
    requires block { block < 2 ^ 32 }
    ensures { result ≡ size_of seed block }
{
    u64::from(SECTOR_SIZE) * (1 + (11 * block + seed) % SECTORS_MAX)
}

pub(crate) fn write_line(
    out: &mut String,
    seed: u64,
    number: u64,
    block: u64,
) -> Result<(), AllocError>
    requires seed { seed < 2 ^ 32 }
    requires block { block < 2 ^ 32 }
    ensures { OnOk result (string_bytes out.new ≡ string_bytes out.old ++ write_line seed number block) }
{
    write_words(out, number, block)?;
    form_words(out, seed, block)?;
    body_words(out, seed, block)?;
    out.push_str("\n")
}

fn write_words(out: &mut String, number: u64, block: u64) -> Result<(), AllocError>
    ensures { OnOk result (string_bytes out.new ≡ string_bytes out.old ++ write_words number block) }
{
    let sum = sum_word(block);
    write!(out, "{number} write b{block} {sum}")
}

fn form_words(out: &mut String, seed: u64, block: u64) -> Result<(), AllocError>
    requires seed { seed < 2 ^ 32 }
    requires block { block < 2 ^ 32 }
    ensures { OnOk result (string_bytes out.new ≡ string_bytes out.old ++ form_words seed block) }
{
    let copies = copies(seed, block);
    let prio = prio_word(block);
    write!(out, " {copies} {prio}")
}

fn body_words(out: &mut String, seed: u64, block: u64) -> Result<(), AllocError>
    requires seed { seed < 2 ^ 32 }
    requires block { block < 2 ^ 32 }
    ensures { OnOk result (string_bytes out.new ≡ string_bytes out.old ++ body_words seed block) }
{
    let first = seed + block;
    let size = size(seed, block);
    write!(out, " seq {first} {size}")
}

pub(crate) fn read_line(out: &mut String, number: u64, block: u64) -> Result<(), AllocError>
    ensures { OnOk result (string_bytes out.new ≡ string_bytes out.old ++ read_line number block) }
{
    let prio = prio_word(block);
    write!(out, "{number} read b{block} {prio} must\n")
}

pub(crate) fn free_line(out: &mut String, number: u64, block: u64) -> Result<(), AllocError>
    ensures { OnOk result (string_bytes out.new ≡ string_bytes out.old ++ free_line number block) }
{
    write!(out, "{number} free b{block} must\n")
}
