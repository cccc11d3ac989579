/// How the run of a script ends.
#[derive(Clone, Copy, Debug, PartialEq, Eq)]
pub enum Ending {
    /// Every request completed.
    Complete,
    /// A round left a tree suspended under `failmode panic`.
    Panic,
    /// A tree is suspended, or a batch held.
    Left,
}
