// What a scrub comes to.

/// How many blocks were scrubbed, and what their copies came to.
#[derive(Clone, Copy, Debug, PartialEq, Eq)]
pub struct ScrubEnd {
    pub blocks: u32,
    /// How many copies there are. Each was read once.
    pub copies: u64,
    /// How many of them were written with good bytes.
    pub repaired: u64,
    /// How many were to be written, but the write failed.
    pub failed: u64,
    /// How many are copies of pieces without a good one.
    pub lost: u64,
}
