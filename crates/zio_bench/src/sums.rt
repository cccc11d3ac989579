use anyhow::Result;
use std::alloc::Global;
use zio_blkptr::SumKind;
use zio_cksum::sum;

/// Sums so many bytes, rounded down to whole words, so many times by each checksum. The answer is a word of the sums.
pub fn add_up(alloc: Global, bytes: u32, times: u32) -> Result<u32> {
    let len = bytes as usize / 4 * 4;
    let buffer = vec![in alloc; 0x41u8; len]?;
    let mut word = 0u64;
    for _ in 0..times {
        word ^= sum(SumKind::Fletcher4, &buffer)[1];
        word ^= sum(SumKind::Sha256, &buffer)[0];
    }
    Ok((word & 0xffff_ffff) as u32)
}

/// Digests so many bytes by SHA-256 so many times. The answer is a word of the digests.
pub fn digest(alloc: Global, bytes: u32, times: u32) -> Result<u32> {
    let buffer = vec![in alloc; 0x41u8; bytes as usize]?;
    let mut word = 0u64;
    for _ in 0..times {
        word ^= sum(SumKind::Sha256, &buffer)[0];
    }
    Ok((word & 0xffff_ffff) as u32)
}

/// Sums so many bytes, rounded down to whole words, by fletcher4 so many times. The answer is a word of the sums.
pub fn fletcher(alloc: Global, bytes: u32, times: u32) -> Result<u32> {
    let len = bytes as usize / 4 * 4;
    let buffer = vec![in alloc; 0x41u8; len]?;
    let mut word = 0u64;
    for _ in 0..times {
        word ^= sum(SumKind::Fletcher4, &buffer)[1];
    }
    Ok((word & 0xffff_ffff) as u32)
}
