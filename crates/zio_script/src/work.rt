use crate::{Name, Work};
use zio_types::Kind;

impl Work {
    ghost use Rattle.std.specs.Prelude.{◌≡◌};
    ghost use Rattle.zio_script.specs.Requests.{kind_of, name_of};

    /// The kind of a request with this work.
    pub fn kind(&self) -> Kind
        ensures { result ≡ kind_of self.now }
    {
        match self {
            Work::Null => Kind::Null,
            Work::Read { .. } => Kind::Read,
            Work::Write { .. } => Kind::Write,
            Work::Free { .. } => Kind::Free,
            Work::Claim { .. } => Kind::Claim,
        }
    }

    /// The block that the work names, none for a null.
    pub fn name(&self) -> Option<Name>
        ensures { result ≡ name_of self.now }
    {
        match self {
            Work::Null => None,
            Work::Read { name, .. }
            | Work::Write { name, .. }
            | Work::Free { name }
            | Work::Claim { name, .. } => Some(*name),
        }
    }
}
