ghost use Rattle.std.specs.Prelude.{◌≡◌, ◌+◌, ◌<◌, ◌≤◌, ◌^◌, All, length, map, true};
ghost use Rattle.zio_faults.specs.Hits.{RowFits, first_hit, flipped, hit_on, inverted, selects};

use zio_types::List;

/// The operations that a row is for.
#[derive(Clone, Copy, Debug, PartialEq, Eq)]
pub enum On {
    Read,
    Write,
    Any,
}

/// What happens to an operation that meets a row.
#[derive(Clone, Copy, Debug, PartialEq, Eq)]
pub enum FaultKind {
    /// It answers `EIO`, and nothing is read or written.
    Eio,
    /// It answers `ENXIO`, and nothing is read or written.
    Gone,
    /// The covered bytes are inverted: those handed out, or those stored.
    Flip,
}

/// A row of the fault table.
#[derive(Clone, Copy, Debug, PartialEq, Eq)]
pub struct Row {
    pub leaf: u32,
    pub on: On,
    /// Where its range begins, in bytes.
    pub at: u64,
    /// How many bytes it has.
    pub len: u64,
    /// The first resume point at which it holds.
    pub from: u32,
    /// The resume point from which on it doesn't.
    pub until: u32,
    pub kind: FaultKind,
    /// It holds in first passes alone.
    pub first: bool,
}

impl Row {
    /// Whether an operation on a leaf meets this row.
    fn is_met(&self, operation: &Operation) -> bool
        requires row { RowFits self.now }
        requires operation { operation.now.at + operation.now.len < 2 ^ 64 }
        ensures { result ≡ selects self.now operation.now }
    {
        let on = match self.on {
            On::Read => !operation.write,
            On::Write => operation.write,
            On::Any => true,
        };
        self.leaf == operation.leaf
            && on
            && self.at.max(operation.at) < (self.at + self.len).min(operation.at + operation.len)
            && self.from <= operation.point
            && operation.point < self.until
            && !(self.first && operation.retry)
    }

    /// The row as an operation meets it.
    fn hit(&self, operation: &Operation) -> Hit
        requires row { RowFits self.now }
        requires operation { operation.now.at + operation.now.len < 2 ^ 64 }
        requires met { selects self.now operation.now ≡ true }
        ensures { result ≡ hit_on operation.now self.now }
    {
        let start = self.at.max(operation.at);
        let end = (self.at + self.len).min(operation.at + operation.len);
        Hit {
            kind: self.kind,
            at: start,
            len: end - start,
        }
    }
}

/// One operation on a leaf, as the fault table sees it.
#[derive(Clone, Copy, Debug, PartialEq, Eq)]
pub struct Operation {
    pub leaf: u32,
    pub write: bool,
    /// Where its range begins, in bytes.
    pub at: u64,
    /// How many bytes it has.
    pub len: u64,
    /// The resume point.
    pub point: u32,
    /// It belongs to a retry pass.
    pub retry: bool,
}

/// A row that an operation meets, with the part that is common to both.
#[derive(Clone, Copy, Debug, PartialEq, Eq)]
pub struct Hit {
    pub kind: FaultKind,
    /// Where the common part begins, in bytes.
    pub at: u64,
    /// How many bytes it has.
    pub len: u64,
}

/// The rows in their order. The first that an operation meets counts.
#[derive(Debug, Drop)]
pub struct FaultTable {
    pub rows: List<Row>,
}

impl FaultTable {
    /// The first row that an operation on a leaf meets, with the part that is common to both; none exactly
    /// where the operation meets no row.
    ///
    /// The operation has `len` bytes from the byte `at` on, at the resume point `point`, and belongs to a
    /// retry pass where `retry` is set. docs/RULES.md, "Fault matching".
    pub fn hit(
        &self,
        leaf: u32,
        write: bool,
        at: u64,
        len: u64,
        point: u32,
        retry: bool,
    ) -> Option<Hit>
        requires operation { at + len < 2 ^ 64 }
        requires rows { All RowFits self.now.rows }
        ensures { result ≡ first_hit self.now.rows
            (record { leaf = leaf; write = write; at = at; len = len; point = point; retry = retry }) }
    {
        let operation = Operation {
            leaf,
            write,
            at,
            len,
            point,
            retry,
        };
        for row in self.rows.as_slice() {
            if row.is_met(&operation) {
                return Some(row.hit(&operation));
            }
        }
        None
    }
}

/// Inverts the bytes of the range that begins at `at` which the hit covers, and no others.
/// docs/RULES.md, "Fault kinds".
pub fn flip(bytes: &mut [u8], at: u64, hit: &Hit)
    requires from { at ≤ hit.now.at }
    requires to { hit.now.at + hit.now.len ≤ at + length bytes.old }
    ensures { bytes.new ≡ flipped at hit.now bytes.old }
{
    let start = (hit.at - at) as usize;
    let end = start + hit.len as usize;
    invert(&mut bytes[start..end]);
}

fn invert(bytes: &mut [u8])
    ensures { bytes.new ≡ map inverted bytes.old }
{
    for byte in bytes.iter_mut() {
        *byte = !*byte;
    }
}
