/// A range of a disk's bytes that a write was asked to write.
#[derive(Clone, Copy, Debug, PartialEq, Eq)]
pub struct Written {
    /// Where it begins, in bytes.
    pub at: u64,
    /// Its length, in bytes.
    pub len: u64,
}
