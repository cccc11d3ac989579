//! The limits of a script's lines, as docs/FORMATS.md has them under "Words of a line" and "Whys".

/// The highest number of a leaf.
pub const LEAF_MAX: u32 = 15;

/// The most `top` lines.
pub const TOPS_MAX: u32 = 8;

/// The largest AT, and LEN of a `fault`, in bytes.
pub const FAULT_RANGE_MAX: u32 = 268_435_456;

/// The highest UNTIL, a resume point; FROM is below it.
pub const POINT_MAX: u32 = 65_535;

/// The most `fault` lines.
pub const FAULTS_MAX: u32 = 256;

/// The highest number of a request.
pub const NUMBER_MAX: u32 = 65_535;

/// The bytes of a pointer.
pub const POINTER_SIZE: u32 = 128;

/// The most requests of a batch.
pub const BATCH_LEN_MAX: u32 = 1024;

/// The most bytes of a batch's writes.
pub const BATCH_SIZE_MAX: u32 = 16 * 1024 * 1024;

/// The most children of a request.
pub const CHILDREN_MAX: u32 = 255;

/// The highest depth of a request; a root has depth 1.
pub const DEPTH_MAX: u32 = 16;

/// The most `clear` lines.
pub const CLEARS_MAX: u32 = 65_534;
