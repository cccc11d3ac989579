//! The whole text.

ghost use Rattle.std.specs.Prelude.{◌≡◌, ◌+◌, ◌*◌, ◌<◌, ◌≤◌, ◌++◌, ◌^◌, OnOk, IfOk, string_bytes};
ghost use Rattle.zio_gen.specs.Generated.{batch, free_line, group_text, read_line, script_text, write_line};

use crate::lines::{free_line, read_line, write_line};
use std::alloc::{AllocError, Global};
use zio_types::{NoMemory, Text};

/// Blocks that can be asked for, at most.
pub const BLOCKS_MAX: u32 = 20_000;

/// Blocks that are written, read and freed together, at most.
const GROUP_MAX: u64 = 8;

/// Two mirrors, of which the second has no device until the first `clear`, and a leaf of the first that can't be
/// read until the second.
const HEAD: &str =
    "top 0 1\ntop 2 3\nfault 2 any 0 268435456 0 1 gone\nfault 3 any 0 268435456 0 1 gone\nfault 0 read 0 268435456 0 2 eio\n";

/// The script of `n` blocks from a seed: blocks are written, read and freed in groups of eight.
pub fn gen_(alloc: Global, seed: u32, n: u32) -> Result<Text, NoMemory>
    requires least { 1 ≤ n }
    requires most { n ≤ BLOCKS_MAX }
    ensures { IfOk result (λ text. text ≡ script_text seed n) }
{
    let seed = u64::from(seed);
    let n = u64::from(n);
    let mut out = String::new(alloc);
    out.push_str(HEAD)?;
    for group in 0..(n + GROUP_MAX - 1) / GROUP_MAX {
        group_lines(&mut out, seed, n, group)?;
    }
    out.push_str("clear\nclear\n")?;
    Ok(Text::from_string(out))
}

/// A group's blocks are written, then read, then freed.
fn group_lines(out: &mut String, seed: u64, n: u64, group: u64) -> Result<(), AllocError>
    requires seed { seed < 2 ^ 32 }
    requires n { n ≤ BLOCKS_MAX }
    requires group { 8 * group < n }
    ensures { OnOk result (string_bytes out.new ≡ string_bytes out.old ++ group_text seed n group) }
{
    let number = 3 * GROUP_MAX * group + 1;
    let block = GROUP_MAX * group + 1;
    let size = GROUP_MAX.min(n - GROUP_MAX * group);
    writes(out, seed, number, block, size)?;
    reads(out, number + size, block, size)?;
    frees(out, number + 2 * size, block, size)
}

fn writes(out: &mut String, seed: u64, number: u64, block: u64, size: u64) -> Result<(), AllocError>
    requires seed { seed < 2 ^ 32 }
    requires block { block + size < 2 ^ 32 }
    requires number { number + size < 2 ^ 32 }
    ensures { OnOk result (string_bytes out.new ≡ string_bytes out.old ++ batch (write_line seed) number block size) }
{
    for k in 0..size {
        write_line(out, seed, number + k, block + k)?;
    }
    out.push_str("go\n")
}

fn reads(out: &mut String, number: u64, block: u64, size: u64) -> Result<(), AllocError>
    requires block { block + size < 2 ^ 32 }
    requires number { number + size < 2 ^ 32 }
    ensures { OnOk result (string_bytes out.new ≡ string_bytes out.old ++ batch read_line number block size) }
{
    for k in 0..size {
        read_line(out, number + k, block + k)?;
    }
    out.push_str("go\n")
}

fn frees(out: &mut String, number: u64, block: u64, size: u64) -> Result<(), AllocError>
    requires block { block + size < 2 ^ 32 }
    requires number { number + size < 2 ^ 32 }
    ensures { OnOk result (string_bytes out.new ≡ string_bytes out.old ++ batch free_line number block size) }
{
    for k in 0..size {
        free_line(out, number + k, block + k)?;
    }
    out.push_str("go\n")
}
