ghost use Rattle.std.specs.Prelude.{◌≡◌, replicate, IfOk};
ghost use Rattle.zio_script.specs.Bodies.{body_of, next_state, sequence};

use crate::Body;
use std::alloc::Global;
use zio_types::{Bytes, List, NoMemory};

const MULTIPLIER: u64 = 6_364_136_223_846_793_005;

const INCREMENT: u64 = 1_442_695_040_888_963_407;

/// The bytes of a write's body, without padding.
pub fn body_bytes(alloc: Global, body: &Body) -> Result<Bytes, NoMemory>
    ensures { IfOk result (λ bytes. bytes ≡ body_of body.now) }
{
    match body {
        Body::Hex(bytes) => copied(alloc, bytes),
        Body::Fill { byte, len } => filled(alloc, *byte, *len as usize),
        Body::Seq { seed, len } => sequence(alloc, *seed, *len as usize),
    }
}

fn copied(alloc: Global, bytes: &Bytes) -> Result<Bytes, NoMemory>
    ensures { IfOk result (λ copy. copy ≡ bytes.now) }
{
    Ok(List::from_vec(Vec::from_slice(alloc, bytes.as_slice())?))
}

fn filled(alloc: Global, byte: u8, len: usize) -> Result<Bytes, NoMemory>
    ensures { IfOk result (λ bytes. bytes ≡ replicate len byte) }
{
    Ok(List::from_vec(vec![in alloc; byte; len]?))
}

// The first bytes that the generator gives from the seed.
fn sequence(alloc: Global, seed: u64, len: usize) -> Result<Bytes, NoMemory>
    ensures { IfOk result (λ bytes. bytes ≡ sequence seed len) }
{
    let mut bytes = List::new(alloc);
    let mut state = seed;
    let mut left = len;
    while left > 0 {
        state = next_state(state);
        let taken = left.min(8);
        bytes.extend_from_slice(&state.to_le_bytes()[..taken])?;
        left -= taken;
    }
    Ok(bytes)
}

fn next_state(state: u64) -> u64
    ensures { result ≡ next_state state }
{
    state.wrapping_mul(MULTIPLIER).wrapping_add(INCREMENT)
}
