ghost use Rattle.std.specs.Prelude.{◌≡◌};
ghost use Rattle.zio_counts.specs.Broods.{misses, new_child};

use zio_types::{ChildKind, Phase};

/// A child of a node, and the values that it handed in.
#[derive(Debug, Drop)]
pub struct Child<R, V> {
    pub kind: ChildKind,
    /// By which its node finds it.
    pub label: u64,
    pub ready: Option<R>,
    pub done: Option<V>,
}

impl<R, V> Child<R, V> {
    pub(crate) fn new(kind: ChildKind, label: u64) -> Child<R, V>
        ensures { result ≡ new_child kind label }
    {
        Child {
            kind,
            label,
            ready: None,
            done: None,
        }
    }

    /// Whether it is of the kind and has no value for the phase.
    pub(crate) fn misses(&self, kind: ChildKind, phase: Phase) -> bool
        ensures { result ≡ misses kind phase self.now }
    {
        let wanted = match phase {
            Phase::Ready => kind != ChildKind::Vdev && self.ready.is_none(),
            Phase::Done => self.done.is_none(),
        };
        self.kind == kind && wanted
    }
}
