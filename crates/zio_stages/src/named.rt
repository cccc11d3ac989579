// What the nodes of a part of a request's work are named by.

ghost use Rattle.std.specs.Prelude.{◌≡◌, ◌<◌};

use zio_types::{Path, ReqNo, Role};

/// Which part of which request's work it is: the part of its block, what is read or written there, and in which
/// attempt.
#[derive(Clone, Copy, Debug)]
pub struct Named {
    pub(crate) request: ReqNo,
    pub(crate) path: Path,
    pub(crate) role: Role,
    pub(crate) attempt: u32,
    ghost few: { request < 65536 },
    ghost attempts: { attempt < 4 },
}

impl Named {
    /// Requests are numbered below 65,536, and attempts below 4.
    pub fn new(request: ReqNo, path: Path, role: Role, attempt: u32) -> Named
        requires few { request < 65536 }
        requires attempts { attempt < 4 }
        ensures { result.path ≡ path }
    {
        Named {
            request,
            path,
            role,
            attempt,
        }
    }

    /// Another part of the same request's work.
    pub(crate) fn at(&self, path: Path, role: Role) -> Named
        ensures { result.path ≡ path }
    {
        Named {
            request: self.request,
            path,
            role,
            attempt: self.attempt,
        }
    }

    /// The same part's body or header.
    pub(crate) fn with_role(&self, role: Role) -> Named
        ensures { result.path ≡ self.now.path }
    {
        self.at(self.path, role)
    }

    /// The body of a member of the gang here, or of the part itself where no more steps can be named.
    pub(crate) fn member(&self, n: u8) -> Named
        requires { n < 3 }
    {
        let path = self.path;
        let Some(path) = path.child(n) else {
            return *self;
        };
        self.at(path, Role::Body)
    }
}
