ghost use Rattle.std.specs.Prelude.{◌≡◌};
ghost use Rattle.zio_types.specs.Bits.{has_bits, joined_bits};

/// A request's number in its script.
pub type ReqNo = u32;

/// What a request does.
#[derive(Clone, Copy, Debug, PartialEq, Eq)]
pub enum Kind {
    Null,
    Read,
    Write,
    Free,
    Claim,
}

/// What a child is to its parent.
#[derive(Clone, Copy, Debug, PartialEq, Eq)]
pub enum ChildKind {
    /// A leaf operation, or a copy.
    Vdev,
    /// A gang's header or member.
    Gang,
    /// A request of the script.
    Logical,
}

/// How far a child has come.
#[derive(Clone, Copy, Debug, PartialEq, Eq)]
pub enum Phase {
    Ready,
    Done,
}

/// A device queue's class, in the order in which they are served.
#[derive(Clone, Copy, Debug, PartialEq, Eq)]
pub enum Prio {
    SyncRead,
    SyncWrite,
    AsyncRead,
    AsyncWrite,
    Scrub,
}

/// How a leaf operation is to be issued.
#[derive(Clone, Copy, Debug, PartialEq, Eq)]
pub struct Flags {
    /// Its request may fail.
    pub canfail: bool,
    /// It belongs to the retry pass.
    pub retry: bool,
    /// It is a group alone.
    pub dont_aggregate: bool,
    /// It rewrites a copy that was found bad.
    pub repair: bool,
}

/// How a request that can't end goes again.
#[derive(Clone, Copy, Debug, PartialEq, Eq)]
pub struct Bits {
    /// At once, in the same round.
    pub now: bool,
    /// After the next `clear`.
    pub suspend: bool,
}

impl Bits {
    /// A request with these has its end.
    pub const NONE: Bits = Bits {
        now: false,
        suspend: false,
    };

    /// Each bit that one of the two has.
    pub fn join(self, other: Bits) -> Bits
        ensures { result ≡ joined_bits self other }
    {
        Bits {
            now: self.now || other.now,
            suspend: self.suspend || other.suspend,
        }
    }

    /// Whether a request with these goes again.
    pub fn go_again(self) -> bool
        ensures { result ≡ has_bits self }
    {
        self.now || self.suspend
    }
}

/// What a program ends with.
#[derive(Clone, Copy, Debug, PartialEq, Eq)]
pub struct Status {
    pub code: u8,
}
