ghost use Rattle.std.specs.Prelude.{◌≡◌};
ghost use Rattle.zio_report.specs.Lines.{errno_text, kind_text, role_text};

use zio_types::{Errno, Kind, Role};

pub(crate) fn kind_word(kind: Kind) -> &'static str
    ensures { result.now ≡ kind_text kind }
{
    match kind {
        Kind::Null => "null",
        Kind::Read => "read",
        Kind::Write => "write",
        Kind::Free => "free",
        Kind::Claim => "claim",
    }
}

pub(crate) fn errno_word(error: Errno) -> &'static str
    ensures { result.now ≡ errno_text error }
{
    match error {
        Errno::Nxio => "ENXIO",
        Errno::Cksum => "ECKSUM",
        Errno::Io => "EIO",
        Errno::Nospc => "ENOSPC",
        Errno::Inval => "EINVAL",
        Errno::Exist => "EEXIST",
        Errno::Noent => "ENOENT",
    }
}

pub(crate) fn role_word(role: Role) -> &'static str
    ensures { result.now ≡ role_text role }
{
    match role {
        Role::Body => "body",
        Role::Head => "head",
    }
}
