use anyhow::{Result, bail};
use std::alloc::Global;
use zio_script::read_script;

/// How many writes a batch has.
const BATCH_LEN: u32 = 1000;

/// Reads a script of so many reads, each in a batch of its own, so many times. The answer is the number of its items, in
/// 16 bits.
pub fn read(alloc: Global, requests: u32, times: u32) -> Result<u32> {
    let mut text = String::from_str(alloc, "top 0\n")?;
    for number in 1..=requests.min(65535) {
        text.push_str(format!(in alloc; "{number} read block sync\ngo\n")?.as_str())?;
    }
    items_of(alloc, text.as_bytes(), times)
}

/// Reads a script of so many writes, in batches of a thousand, so many times. The answer is as above.
pub fn read_batches(alloc: Global, requests: u32, times: u32) -> Result<u32> {
    let mut text = String::from_str(alloc, "top 0\n")?;
    for number in 1..=requests.min(65535) {
        let line = format!(in alloc;
            "{number} write block_{number} sha256 1 async seq {number} 512\n"
        )?;
        text.push_str(line.as_str())?;
        if number % BATCH_LEN == 0 || number == requests.min(65535) {
            text.push_str("go\n")?;
        }
    }
    items_of(alloc, text.as_bytes(), times)
}

fn items_of(alloc: Global, text: &[u8], times: u32) -> Result<u32> {
    let mut items = 0;
    for _ in 0..times {
        match read_script(alloc, text) {
            Ok(script) => items = (script.items.len() & 0xffff) as u32,
            Err(_) => bail!("the script is refused"),
        }
    }
    Ok(items)
}
